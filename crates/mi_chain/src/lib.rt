//! Hashed chains through one slot of a pool's nodes: for each key the list of its nodes, oldest stamp first.
//! They hold references alone: values stay where the pool has them, and no link of another slot is touched.
#![tactic(auto)]

mod chains;
mod keys;
pub mod laws;
mod look;

pub use chains::Chains;
pub use keys::KeyHash;
