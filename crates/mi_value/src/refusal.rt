//! Why a command is refused. The words are those that replies carry.
ghost use Rattle.std.specs.Prelude.{◌≡◌, ◌≤◌, length, Some};
ghost use Rattle.mi_value.specs.Words.{word_of};
ghost use Rattle.mi_value.specs.declared.refusal.Refusal.TheVariants.{Memory};

use std::alloc::{AllocError, AllocFailed};
use std::fmt;

/// Why a command is refused, in the order in which the reasons are checked (`NoTable` after `Busy`).
#[derive(Clone, Copy, Debug, PartialEq, Eq)]
pub enum Refusal {
    /// The line is longer than 65,536 bytes.
    Line,
    /// The line is no JSON, or not UTF-8.
    Json,
    /// The JSON value is no command.
    Form,
    /// Another connection holds sessions.
    Busy,
    /// No table has this name.
    NoTable,
    /// No index has this name.
    Index,
    /// The command isn't one of this index's kind.
    Kind,
    /// A row or an edit doesn't fit the columns.
    Row,
    /// A key doesn't fit the index.
    Key,
    /// A named record isn't there, or a look-up has no record.
    NoId,
    /// An addition leaves -2^63 to 2^63 - 1.
    Range,
    /// The table has its most rows.
    Full,
    /// A counter is at 2^63 - 1.
    Spent,
    /// A unique index refuses: the record of this id has the key.
    Unique { index: usize, id: u64 },
    /// As `Unique`, of a modify without rollback, which has erased its record.
    Lost { index: usize, id: u64 },
    /// 1,024 sessions are open.
    Depth,
    /// No session is open.
    Session,
    /// A growth was refused; nothing has changed.
    Memory,
}

/// No session is open: the one refusal of `undo` and `squash`.
#[derive(Clone, Copy, Debug, PartialEq, Eq)]
pub struct NoSession;

impl Refusal {
    /// The word that stands for it in a reply; `Unique` and `Lost` share one.
    pub fn word(&self) -> &'static str
        ensures word { result.now ≡ word_of self.now }
        ensures short { length result.now ≤ 7 }
    {
        match self {
            Refusal::Line => "line",
            Refusal::Json => "json",
            Refusal::Form => "form",
            Refusal::Busy => "busy",
            Refusal::NoTable => "table",
            Refusal::Index => "index",
            Refusal::Kind => "kind",
            Refusal::Row => "row",
            Refusal::Key => "key",
            Refusal::NoId => "id",
            Refusal::Range => "range",
            Refusal::Full => "full",
            Refusal::Spent => "spent",
            Refusal::Unique { .. } | Refusal::Lost { .. } => "unique",
            Refusal::Depth => "depth",
            Refusal::Session => "session",
            Refusal::Memory => "memory",
        }
    }
}

impl fmt::Display for Refusal {
    ghost output = { λ r. Some (word_of r) };

    fn fmt<W: fmt::Write>(&self, f: &mut fmt::Formatter<W>) -> fmt::Result {
        let word = self.word();
        write!(f, "{word}")
    }
}

impl From<AllocError> for Refusal {
    ghost from_gives = { λ _ e. e ≡ Memory };

    fn from(_e: AllocError) -> Refusal {
        Refusal::Memory
    }
}

impl<T: Drop> From<AllocFailed<T>> for Refusal {
    ghost from_gives = { λ _ e. e ≡ Memory };

    fn from(_e: AllocFailed<T>) -> Refusal {
        Refusal::Memory
    }
}
