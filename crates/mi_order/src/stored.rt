//! What a node holds. Plain data: it knows no pool and no index.
use mi_value::Record;

/// A record and its id. Its stamps stand in the links of its node.
#[derive(Drop)]
pub struct Stored {
    pub id: u64,
    pub row: Record,
}
