//! What a node knows of its neighbours in one structure.
//! Plain data: it owns no node and never follows a reference.
use crate::node_ref::NodeRef;

/// What stands for a node's key in one structure, so that most comparisons read no value.
#[derive(Clone, Copy)]
pub struct Tag {
    /// Eight bytes of the key: the first of it in a tree's order, its hash in chains.
    pub key: u64,
    /// The node's stamp in the structure, which tells nodes of one key apart.
    pub stamp: u64,
}

/// The tag of a slot that was never set: both numbers 0.
pub const NO_TAG: Tag = Tag { key: 0, stamp: 0 };

/// A node's place in one structure: up to two other nodes, two numbers, and a
/// tag. What each part means is
/// said by the structure that owns the slot; the pool only keeps it.
#[derive(Clone, Copy)]
pub struct Link {
    /// One neighbour: the one before in a list, the left child in a tree.
    pub back: Option<NodeRef>,
    /// The other neighbour: the one after in a list, the right child in a tree.
    pub forth: Option<NodeRef>,
    /// A number of nodes.
    pub size: u32,
    /// A number of levels.
    pub height: u8,
    /// The node's tag.
    pub tag: Tag,
}

/// The link of a slot that was never set: no neighbours, both numbers 0, and no tag.
pub const NO_LINK: Link = Link {
    back: None,
    forth: None,
    size: 0,
    height: 0,
    tag: NO_TAG,
};
