//! What takes a change back: a step, and beside it the old places of a put. A container makes both, as it changes, and alone can use
//! them; to the journal they are plain data. They take no memory: the places are laid down where the caller has them.
use arrayvec::ArrayVec;
use mi_node::{MaybePlace, NodeRef};
use mi_value::Record;

/// The most indexes that a table has, `id` among them.
pub const MAX_PLACES: usize = 16;

/// A row by its id, and the reference of its node.
#[derive(Clone, Copy)]
pub struct RowRef {
    pub id: u64,
    pub node: NodeRef,
}

/// For each index the old place, or none where the key stayed.
pub type OldPlaces = ArrayVec<MaybePlace, MAX_PLACES>;

/// What was done, and what there was before it, but for the old places of a put.
#[derive(Drop)]
pub enum Step {
    /// The row was inserted.
    Inserted(RowRef),
    /// The row had this record.
    Put(RowRef, Record),
    /// The row was erased and its node is kept; by a modify that lost it to the record of that index and id.
    Erased(RowRef, Option<(usize, u64)>),
    /// In this index the row stood before that one, or last.
    Relocated(usize, RowRef, Option<RowRef>),
    /// Nothing was changed.
    Nothing,
}

impl Step {
    ghost use Rattle.std.specs.Prelude.{◌≡◌};
    ghost use Rattle.mi_container.specs.Backs.{lost_by};

    /// The unique index and the id by which a modify lost its record, if it did.
    pub fn lost(&self) -> Option<(usize, u64)>
        ensures { result ≡ lost_by self.now }
    {
        match self {
            Step::Erased(_, why) => *why,
            _ => None,
        }
    }
}
