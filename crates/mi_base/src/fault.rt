//! Why a base isn't written, or isn't read.
ghost use Rattle.std.specs.Prelude.{◌≡◌};
ghost use Rattle.mi_base.specs.declared.fault.BaseFault.TheVariants as base_fault;
ghost use Rattle.mi_base.specs.declared.fault.WriteFault.TheVariants as write_fault;

use std::alloc::AllocError;

/// Why a base isn't written to its end. What was written of it isn't said.
#[derive(Clone, Copy, Debug, PartialEq, Eq, Drop)]
pub enum WriteFault {
    /// Memory was refused.
    Memory,
    /// A write failed.
    Write,
}

/// Why a text isn't read as a base.
#[derive(Clone, Copy, Debug, PartialEq, Eq, Drop)]
pub enum BaseFault {
    /// A read failed.
    Read,
    /// Memory was refused.
    Memory,
    /// The last line isn't there, or its digest isn't that of the text in front of it.
    Torn,
    /// The line of this number, from 1, isn't one of a base of the catalog.
    Line(u64),
}

impl From<AllocError> for WriteFault {
    ghost from_gives = { λ _ e. e ≡ write_fault.Memory };

    fn from(_e: AllocError) -> WriteFault {
        WriteFault::Memory
    }
}

impl From<AllocError> for BaseFault {
    ghost from_gives = { λ _ e. e ≡ base_fault.Memory };

    fn from(_e: AllocError) -> BaseFault {
        BaseFault::Memory
    }
}
