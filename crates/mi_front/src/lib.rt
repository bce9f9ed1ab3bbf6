//! Where a base may stand while sessions are open: a journal is asked to its end, or to that of its closed segments, and then what its open sessions
//! changed is undone. It changes no file, and knows a database by the hub alone.
#![tactic(auto)]

mod front;
pub mod laws;
mod noting;
mod row;
mod texts;

pub use front::{Front, ask_closed, ask_front};
