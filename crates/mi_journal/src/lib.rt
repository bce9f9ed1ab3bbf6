//! The undo log: what takes changes back, by open sessions, with the number of the table that each belongs to.
//! Inverses stand in a journal of small entries; old records and old places of puts stand in two rings beside it. Memory is
//! taken in `reserve` alone.
#![tactic(auto)]

mod entry;
mod inverses;
mod journal;
mod marks;
mod store;

pub use inverses::Inverses;
pub use journal::Journal;

#[cfg(test)]
mod tests;
