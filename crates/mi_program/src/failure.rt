//! Why the program ends early: the line on standard error and the exit status.
ghost use Rattle.std.specs.Prelude.{◌≡◌};
ghost use Rattle.mi_program.specs.Status.{status_of, failure_of, served_failure, failure_kind, failure_word};

use mi_hub::ServeFault;
use mi_schema::SchemaFault;
use std::fmt;

/// Why the program ends before its work is done. The text is its line on standard error.
#[derive(Clone, Copy, Debug)]
pub enum Failure {
    /// The schema's file can't be read, or has more than 65,536 bytes.
    SchemaFile,
    /// The schema is refused, or was refused memory.
    Schema(SchemaFault),
    /// A read of the input failed.
    Read,
    /// A write of the output failed.
    Write,
    /// The port can't be listened on.
    Listen,
    /// A connection could not be accepted.
    Accept,
    /// The words, the database, the connection or a buffer was refused memory.
    Memory,
    /// The input was not at its end after 2^40 reads.
    Turns,
}

impl Failure {
    /// The failure that a fault of serving is. Its status is 4.
    pub fn of_serving(fault: ServeFault) -> Failure
        ensures is { result ≡ served_failure fault }
        ensures status { status_of result ≡ 4 }
    {
        match fault {
            ServeFault::Read => Failure::Read,
            ServeFault::Write => Failure::Write,
            ServeFault::Accept => Failure::Accept,
            ServeFault::Memory => Failure::Memory,
            ServeFault::Turns => Failure::Turns,
        }
    }

    /// What its line begins with: `schema: ` or `fault: `.
    pub fn kind(&self) -> &'static str
        ensures { result.now ≡ failure_kind self.now }
    {
        match self {
            Failure::SchemaFile | Failure::Schema(_) => "schema: ",
            Failure::Read
            | Failure::Write
            | Failure::Listen
            | Failure::Accept
            | Failure::Memory
            | Failure::Turns => "fault: ",
        }
    }

    /// The word behind that.
    pub fn word(&self) -> &'static str
        ensures { result.now ≡ failure_word self.now }
    {
        match self {
            Failure::SchemaFile => "file",
            Failure::Schema(fault) => fault.word(),
            Failure::Read => "read",
            Failure::Write => "write",
            Failure::Listen => "listen",
            Failure::Accept => "accept",
            Failure::Memory => "memory",
            Failure::Turns => "turns",
        }
    }

    /// The exit status: 3 where the schema is at fault, else 4.
    pub fn status(&self) -> u8
        ensures { result ≡ status_of self.now }
    {
        match self {
            Failure::SchemaFile | Failure::Schema(_) => 3,
            Failure::Read
            | Failure::Write
            | Failure::Listen
            | Failure::Accept
            | Failure::Memory
            | Failure::Turns => 4,
        }
    }
}

impl fmt::Display for Failure {
    fn fmt<W: fmt::Write>(&self, f: &mut fmt::Formatter<W>) -> fmt::Result {
        let (kind, word) = (self.kind(), self.word());
        write!(f, "{kind}{word}")
    }
}

impl From<SchemaFault> for Failure {
    ghost from_gives = { λ fault e. e ≡ failure_of fault };

    fn from(fault: SchemaFault) -> Failure {
        Failure::Schema(fault)
    }
}
