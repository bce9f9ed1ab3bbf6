//! Nodes that are reached by references of four bytes, seen as a finite map from names.
//! This crate owns the nodes; what the links mean is the business of the structures above it.
#![tactic(auto)]

mod block;
mod cell;
mod chunk;
mod chunks;
mod column;
mod columns;
mod counted;
mod last_freed;
mod link;
pub mod neighbours;
mod node_ref;
mod old_place;
mod packed;
mod pool;
mod raw;
mod slab_entry;
mod storage;

pub use counted::Counted;
pub use link::{Link, NO_LINK, NO_TAG, Tag};
pub use node_ref::NodeRef;
pub use old_place::{MaybePlace, OldPlace};
pub use packed::PackedRef;
pub use pool::{MAX_SLOTS, Pool};
