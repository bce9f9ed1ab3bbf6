//! Why a table isn't put under another schema, and why tables aren't put under another catalog.
//! It touches nothing.
ghost use Rattle.std.specs.Prelude.{◌≡◌};
ghost use Rattle.mi_reshape.specs.declared.fault.ReshapeFault.TheVariants.{Memory};
ghost use Rattle.mi_reshape.specs.declared.fault.CatalogFault.TheVariants as catalog;

use std::alloc::AllocError;

/// Why a table isn't put under another schema.
#[derive(Clone, Copy, Debug, PartialEq, Eq)]
pub enum ReshapeFault {
    /// The column of this number in the new schema has another type in the old one.
    Column(usize),
    /// Memory was refused.
    Memory,
}

impl From<AllocError> for ReshapeFault {
    ghost from_gives = { λ _ e. e ≡ Memory };

    fn from(_e: AllocError) -> ReshapeFault {
        ReshapeFault::Memory
    }
}

/// Why tables aren't put under another catalog.
#[derive(Clone, Copy, Debug, PartialEq, Eq)]
pub enum CatalogFault {
    /// The column of this number, in the table of this number in the new catalog, has another type in the old table of its name.
    Column { table: usize, column: usize },
    /// Memory was refused.
    Memory,
}

impl From<AllocError> for CatalogFault {
    ghost from_gives = { λ _ e. e ≡ catalog.Memory };

    fn from(_e: AllocError) -> CatalogFault {
        CatalogFault::Memory
    }
}
