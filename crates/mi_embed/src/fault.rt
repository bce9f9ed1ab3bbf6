//! Why a schema's text opens no database. Plain data.
ghost use Rattle.std.specs.Prelude.{◌≡◌, ◌<◌};
ghost use Rattle.mi_embed.specs.Opening.{status_of};
ghost use Rattle.mi_schema.specs.declared.fault.SchemaFault.TheVariants.{Memory};

use mi_schema::SchemaFault;
use std::alloc::{AllocError, AllocFailed};

/// Why a schema's text opens no database.
#[derive(Clone, Copy, Debug, PartialEq, Eq)]
pub enum OpenFault {
    /// The text has more than 65,536 bytes.
    Long,
    /// The text is refused, or a growth was.
    Schema(SchemaFault),
}

impl OpenFault {
    /// Its number where only a number can be told: 1 where memory was refused, 2 of a text that is too long, and from 3 on why
    /// the text is refused, in the order of `SchemaFault`. It is never 0.
    pub fn status(&self) -> u32
        ensures is { result ≡ status_of self.now }
        ensures above { 0 < result }
    {
        match self {
            OpenFault::Schema(SchemaFault::Memory) => 1,
            OpenFault::Long => 2,
            OpenFault::Schema(SchemaFault::Toml) => 3,
            OpenFault::Schema(SchemaFault::Shape) => 4,
            OpenFault::Schema(SchemaFault::Name) => 5,
            OpenFault::Schema(SchemaFault::Twice) => 6,
            OpenFault::Schema(SchemaFault::ColType) => 7,
            OpenFault::Schema(SchemaFault::Kind) => 8,
            OpenFault::Schema(SchemaFault::Key) => 9,
            OpenFault::Schema(SchemaFault::Limit) => 10,
            OpenFault::Schema(SchemaFault::Number) => 11,
        }
    }
}

impl From<SchemaFault> for OpenFault {
    ghost use Rattle.mi_embed.specs.declared.fault.OpenFault.TheVariants as fault;

    ghost from_gives = { λ schema e. e ≡ fault.Schema schema };

    fn from(fault: SchemaFault) -> OpenFault {
        OpenFault::Schema(fault)
    }
}

impl From<AllocError> for OpenFault {
    ghost use Rattle.mi_embed.specs.declared.fault.OpenFault.TheVariants as fault;

    ghost from_gives = { λ _ e. e ≡ fault.Schema Memory };

    fn from(_e: AllocError) -> OpenFault {
        OpenFault::Schema(SchemaFault::Memory)
    }
}

impl<T: Drop> From<AllocFailed<T>> for OpenFault {
    ghost use Rattle.mi_embed.specs.declared.fault.OpenFault.TheVariants as fault;

    ghost from_gives = { λ _ e. e ≡ fault.Schema Memory };

    fn from(_e: AllocFailed<T>) -> OpenFault {
        OpenFault::Schema(SchemaFault::Memory)
    }
}
