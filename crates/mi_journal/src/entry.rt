//! What stands in the journal for an inverse: all of it, but for the old record and the old places of a put. Plain data.
use crate::marks::Marks;
use mi_node::NodeRef;

/// An inverse without the old record and the old places of a put. A row stands as its node and its id, apart and in this
/// order, so that an entry takes 32 bytes, and 40 with its table's number beside it.
#[derive(Drop)]
pub enum Entry {
    /// The row was inserted.
    Inserted(NodeRef, u64),
    /// The row had another record, and places in the indexes that are marked.
    Put(NodeRef, u64, Marks),
    /// The row was erased.
    Erased(NodeRef, u64),
    /// The row was lost by a modify to the record of that index and id.
    Lost(NodeRef, u64, usize, u64),
    /// In this index the row stood last.
    StoodLast(u8, NodeRef, u64),
    /// In this index the row stood before another one.
    StoodBefore(u8, NodeRef, u64, NodeRef, u64),
    /// Nothing was changed.
    Nothing,
}
