//! A doubly linked list through one slot of a pool's nodes.
//! Safe code over the pool: it holds no node, takes no memory, and writes no slot but its own.
#![tactic(auto)]

pub mod laws;
mod list;

pub use list::List;
