//! A height-balanced ranked tree through one slot of a pool's nodes.
//! It sets the links of its slot alone; it owns no node, never touches a value, and takes no memory.
#![tactic(auto)]

mod balance;
mod change;
mod compare;
mod keeping;
pub mod laws;
mod look;
mod order;
mod parts;
mod path;
mod path_steps;
mod tree;
mod walk;

pub use order::NodeOrder;
pub use tree::Tree;
pub use walk::{Direction, Walk};
