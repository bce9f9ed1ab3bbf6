//! Why the service ends: the line on standard error and the exit status.
ghost use Rattle.std.specs.Prelude.{◌≡◌, ◌⊎◌, Some, true, false, option_map};
ghost use Rattle.std.specs.String.{string_bytes};
ghost use Rattle.mi_serving.specs.Moved.{failure_of_table};
ghost use Rattle.mi_serving.specs.Status.{status_of, failure_of};
ghost use Rattle.mi_durable.specs.declared.fault.DurableFault.TheVariants as durable_fault;
ghost use Rattle.mi_serving.specs.declared.failure.Failure.TheVariants as told;

use mi_container::RestoreFault;
use mi_durable::DurableFault;
use mi_recovery::{JournalFailure, JournalFault};
use mi_schema::SchemaFault;
use std::alloc::Global;
use std::{fmt, io};

/// Why the service ends. The text is how its line on standard error begins.
#[derive(Clone, Copy, Drop)]
pub enum Failure {
    /// The schema's file can't be read, or has more than 65,536 bytes.
    SchemaFile,
    /// The schema is refused, or was refused memory.
    Schema(SchemaFault),
    /// The journal's file can't be opened, made or read.
    JournalFile,
    /// The journal is one of another schema or format.
    JournalSchema,
    /// This line of the journal isn't one of a journal.
    JournalLine(u64),
    /// This segment of the journal isn't there, is one of another journal, or ends within a line though another follows.
    JournalSegment(u64),
    /// In this segment of the journal this line isn't one of a journal.
    JournalSegmentLine(u64, u64),
    /// The journal's base is torn, or is one of another schema or journal.
    JournalBase,
    /// Sessions are open at the journal's end, so no base can be made of it.
    JournalSessions,
    /// Another process has the journal.
    JournalLocked,
    /// A column has another type in the old schema.
    MovedType,
    /// In a unique index of the new schema the rows of these two ids have one key.
    MovedUnique(u64, u64),
    /// A table has more rows than its new schema allows.
    MovedFull,
    /// A table breaks another rule of its new schema.
    MovedTable,
    /// The journal can't be appended to, or can't be made to stay.
    Journal,
    /// Standard output can't be written to.
    Output,
    /// The port, or the path, can't be listened on.
    Listen,
    /// The system doesn't tell which connections are ready.
    Poll,
    /// Memory was refused.
    Memory,
    /// The most turns, 2^62, were made.
    Turns,
}

impl Failure {
    /// What a fault of the durable hub is.
    pub fn of_durable(fault: DurableFault) -> Failure
        ensures { ((fault ≡ DurableFault.Memory) × (result ≡ Failure.Memory)) ⊎ ((fault ≡ DurableFault.Journal) × (result ≡ Failure.Journal)) }
    {
        match fault {
            DurableFault::Memory => Failure::Memory,
            DurableFault::Journal => Failure::Journal,
        }
    }

    /// What a failure of the journal is.
    pub fn of_journal(failure: JournalFailure) -> Failure
        ensures { result ≡ failure_of failure }
    {
        match failure {
            JournalFailure::File => Failure::JournalFile,
            JournalFailure::Schema => Failure::JournalSchema,
            JournalFailure::Line(line) => Failure::JournalLine(line),
            JournalFailure::Segment(segment) => Failure::JournalSegment(segment),
            JournalFailure::SegmentLine(segment, line) => Failure::JournalSegmentLine(
                segment, line,
            ),
            JournalFailure::Base => Failure::JournalBase,
            JournalFailure::Sessions => Failure::JournalSessions,
            JournalFailure::Locked => Failure::JournalLocked,
            JournalFailure::Write => Failure::Journal,
            JournalFailure::Memory => Failure::Memory,
            JournalFailure::Turns => Failure::Turns,
        }
    }

    /// What is said of a table that breaks a rule of its new schema.
    pub(crate) fn of_table(fault: RestoreFault) -> Failure
        ensures { result ≡ failure_of_table fault }
    {
        match fault {
            RestoreFault::Full => Failure::MovedFull,
            RestoreFault::Unique { first, second, .. } => Failure::MovedUnique(first, second),
            RestoreFault::Memory => Failure::Memory,
            RestoreFault::Counters
            | RestoreFault::Lists
            | RestoreFault::Id(_)
            | RestoreFault::Row(_)
            | RestoreFault::List(_) => Failure::MovedTable,
        }
    }

    /// The exit status: 3 where the schema or the journal is at fault, else 4.
    pub fn status(&self) -> u8
        ensures { result ≡ status_of self.now }
    {
        match self {
            Failure::SchemaFile
            | Failure::Schema(_)
            | Failure::JournalFile
            | Failure::JournalSchema
            | Failure::JournalLine(_)
            | Failure::JournalSegment(_)
            | Failure::JournalSegmentLine(_, _)
            | Failure::JournalBase
            | Failure::JournalSessions
            | Failure::JournalLocked
            | Failure::MovedType
            | Failure::MovedUnique(_, _)
            | Failure::MovedFull
            | Failure::MovedTable => 3,
            Failure::Journal
            | Failure::Output
            | Failure::Listen
            | Failure::Poll
            | Failure::Memory
            | Failure::Turns => 4,
        }
    }
}

impl fmt::Display for Failure {
    fn fmt<W: fmt::Write>(&self, f: &mut fmt::Formatter<W>) -> fmt::Result {
        match self {
            Failure::SchemaFile => f.write_str("schema: file"),
            Failure::Schema(fault) => {
                f.write_str("schema: ")?;
                f.write_str(fault.word())
            }
            Failure::JournalFile => f.write_str("journal: file"),
            Failure::JournalSchema => f.write_str("journal: schema"),
            Failure::JournalLine(line) => write!(f, "journal: line {line}"),
            Failure::JournalSegment(segment) => write!(f, "journal: segment {segment}"),
            Failure::JournalSegmentLine(segment, line) => write!(
                f,
                "journal: segment {segment} line {line}"
            ),
            Failure::JournalBase => f.write_str("journal: base"),
            Failure::JournalSessions => f.write_str("journal: sessions"),
            Failure::JournalLocked => f.write_str("journal: locked"),
            Failure::MovedType => f.write_str("moved: another type"),
            Failure::MovedUnique(first, second) => write!(
                f,
                "moved: rows {first} and {second} have one key"
            ),
            Failure::MovedFull => f.write_str("moved: too many rows"),
            Failure::MovedTable => f.write_str("moved: refused"),
            Failure::Journal => f.write_str("fault: journal"),
            Failure::Output => f.write_str("fault: write"),
            Failure::Listen => f.write_str("fault: listen"),
            Failure::Poll => f.write_str("fault: poll"),
            Failure::Memory => f.write_str("fault: memory"),
            Failure::Turns => f.write_str("fault: turns"),
        }
    }
}

impl From<DurableFault> for Failure {
    ghost from_gives = { λ fault failure. ((fault ≡ durable_fault.Memory) × (failure ≡ told.Memory))
        ⊎ ((fault ≡ durable_fault.Journal) × (failure ≡ told.Journal)) };

    fn from(fault: DurableFault) -> Failure {
        Failure::of_durable(fault)
    }
}

/// Why the service ends, and what the system said, where it was a call of the system that failed.
#[derive(Drop)]
pub struct Fault {
    /// Why it ends.
    pub failure: Failure,
    /// What the system said.
    pub error: Option<io::Error>,
    /// Whether it is the path that can't be listened on.
    pub is_of_path: bool,
    /// What it is about, where the failure doesn't tell: a file, or a part of a schema.
    pub place: Option<String>,
}

impl Fault {
    /// A failure of which the system has said this.
    pub fn of(failure: Failure, error: io::Error) -> Fault
        ensures failure { result.failure ≡ failure }
        ensures other { result.is_of_path ≡ false }
    {
        Fault {
            failure,
            error: Some(error),
            is_of_path: false,
            place: None,
        }
    }

    /// The same, told to be about this. It is `Memory` where no memory is there for the text.
    pub(crate) fn about(self, alloc: Global, place: &str) -> Fault
        ensures { (result.failure ≡ Failure.Memory) ⊎ ((result.failure ≡ self.failure) × (option_map string_bytes result.place ≡ Some place.now)) }
    {
        match String::from_str(alloc, place) {
            Ok(place) => Fault {
                failure: self.failure,
                error: self.error,
                is_of_path: self.is_of_path,
                place: Some(place),
            },
            Err(_refused) => Fault::from(Failure::Memory),
        }
    }

    /// The path can't be listened on, since the system has said this.
    pub fn of_path(error: io::Error) -> Fault
        ensures failure { result.failure ≡ Failure.Listen }
        ensures path { result.is_of_path ≡ true }
    {
        Fault {
            failure: Failure::Listen,
            error: Some(error),
            is_of_path: true,
            place: None,
        }
    }
}

impl From<Failure> for Fault {
    ghost from_gives = { λ failure fault. fault.failure ≡ failure };

    fn from(failure: Failure) -> Fault {
        Fault {
            failure,
            error: None,
            is_of_path: false,
            place: None,
        }
    }
}

impl From<JournalFault> for Fault {
    ghost from_gives = { λ fault told. told.failure ≡ failure_of fault.failure };

    fn from(fault: JournalFault) -> Fault {
        Fault {
            failure: Failure::of_journal(fault.failure),
            error: fault.error,
            is_of_path: false,
            place: None,
        }
    }
}
