//! Why a document is no schema.
ghost use Rattle.std.specs.Prelude.{◌≡◌};
ghost use Rattle.mi_schema.specs.Words.{fault_word};
ghost use Rattle.mi_schema.specs.declared.fault.SchemaFault.TheVariants.{Memory};

use std::alloc::{AllocError, AllocFailed};
use std::fmt;

/// Why a document is no schema or catalog, in the order in which it is checked, each check over the whole document.
#[derive(Clone, Copy, Debug, PartialEq, Eq)]
pub enum SchemaFault {
    /// The bytes are no TOML document, or not UTF-8.
    Toml,
    /// A required member is missing, a member is unknown, or a value is of another kind.
    Shape,
    /// A name isn't a letter a to z or `_` followed by such letters, digits or `_`, or is longer than 32 bytes, or a column or
    /// index is named `id`.
    Name,
    /// Two columns or two indexes of a table, or two tables, have one name.
    Twice,
    /// A column's type isn't `int`, `text` or `flag`.
    ColType,
    /// An index's kind isn't `ordered`, `ranked`, `hashed` or `sequenced`.
    Kind,
    /// A key is missing or empty, names an unknown column or one twice, or descends where it is hashed, or a sequenced index
    /// has a key or is unique.
    Key,
    /// There are no tables or more than 16, or a table has no columns or more than 16, more than 15 indexes, or a key of more
    /// than 4 parts.
    Limit,
    /// A first counter is below 0, or the most rows are below 1 or above 2^24.
    Number,
    /// A growth was refused.
    Memory,
}

impl SchemaFault {
    /// The word that stands for it in a message.
    pub fn word(&self) -> &'static str
        ensures { result.now ≡ fault_word self.now }
    {
        match self {
            SchemaFault::Toml => "toml",
            SchemaFault::Shape => "shape",
            SchemaFault::Name => "name",
            SchemaFault::Twice => "twice",
            SchemaFault::ColType => "type",
            SchemaFault::Kind => "kind",
            SchemaFault::Key => "key",
            SchemaFault::Limit => "limit",
            SchemaFault::Number => "number",
            SchemaFault::Memory => "memory",
        }
    }
}

impl fmt::Display for SchemaFault {
    fn fmt<W: fmt::Write>(&self, f: &mut fmt::Formatter<W>) -> fmt::Result {
        let word = self.word();
        write!(f, "{word}")
    }
}

impl From<AllocError> for SchemaFault {
    ghost from_gives = { λ _ e. e ≡ Memory };

    fn from(_e: AllocError) -> SchemaFault {
        SchemaFault::Memory
    }
}

impl<T: Drop> From<AllocFailed<T>> for SchemaFault {
    ghost from_gives = { λ _ e. e ≡ Memory };

    fn from(_e: AllocFailed<T>) -> SchemaFault {
        SchemaFault::Memory
    }
}
