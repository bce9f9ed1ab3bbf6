//! A table as plain data, and why no container is restored from one.
ghost use Rattle.std.specs.Prelude.{◌≡◌};
ghost use Rattle.mi_container.specs.declared.restore.RestoreFault.TheVariants.{Memory};

use mi_value::Record;
use std::alloc::AllocError;

/// A table as it is kept outside of a process. No stamp is in it, only order.
#[derive(Drop)]
pub struct TableImage {
    /// The rows by rising ids.
    pub rows: Vec<(u64, Record)>,
    /// For each index, by its number, every id once: in the order of the index, where it shows one list; of a hashed one in an order that keeps
    /// that of rows of one key.
    pub lists: Vec<Vec<u64>>,
    /// The next id.
    pub next: u64,
    /// The count of arrivals.
    pub arrivals: u64,
}

/// Why no container is restored from a table.
#[derive(Clone, Copy, Debug, PartialEq, Eq)]
pub enum RestoreFault {
    /// There are more rows than the schema allows.
    Full,
    /// A counter is beyond 2^63 - 1, or there are fewer arrivals than rows.
    Counters,
    /// There isn't one list for each index.
    Lists,
    /// The id of a row isn't above the one in front of it, or not below the next id.
    Id(u64),
    /// The row of that id doesn't fit the columns.
    Row(u64),
    /// The list of the index hasn't each id once and nothing else; or, where the index has no parts, not in their order.
    List(usize),
    /// The unique index has two rows of one key.
    Unique {
        index: usize,
        first: u64,
        second: u64,
    },
    /// Memory was refused.
    Memory,
}

impl From<AllocError> for RestoreFault {
    ghost from_gives = { λ _ e. e ≡ Memory };

    fn from(_e: AllocError) -> RestoreFault {
        RestoreFault::Memory
    }
}
