//! What the map says of one id. Plain data: it owns no node.
use mi_node::NodeRef;

/// The node of an id, and whether the id is of a live row. A node that isn't live is only kept: its row was erased, and
/// can come back.
#[derive(Clone, Copy)]
pub struct IdEntry {
    /// The node's reference.
    pub node: NodeRef,
    /// Whether the row is live.
    pub live: bool,
}
