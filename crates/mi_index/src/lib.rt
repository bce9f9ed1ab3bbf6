//! How indexes stand over one pool of nodes: the structure of each, and the changes of all of them.
//! It knows no ids of rows but those in the nodes, and no sessions. How it sees records stands in `mi_order`, whose types it
//! hands on.
#![tactic(auto)]

mod all;
pub mod laws;
mod look;
mod moved_indexes;
mod nodes;
mod structure;
mod structures;
mod walk;

pub use mi_order::{ByHash, ByKey, Stored, hash_values};
pub use moved_indexes::MovedIndexes;
pub use nodes::Nodes;
pub use structure::Structure;
pub use structures::Structures;
pub use walk::KeyRange;
