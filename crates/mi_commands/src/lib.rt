//! From a line of a connection to its reply: read, kept out where another connection holds sessions, bound, done, said.
//! It knows the database by its trait alone, and of a connection its number; it reads and writes no stream.
#![tactic(auto)]

mod changes;
mod executor;
mod holder;
pub mod laws;
mod line;
mod look_ups;
mod outcome;
mod sessions;

pub use executor::Executor;
pub use line::Line;
pub use outcome::Outcome;
