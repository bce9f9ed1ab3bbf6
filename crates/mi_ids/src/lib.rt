//! The map from ids to nodes that a table over a pool keeps, of live rows and of kept nodes alike, so that a row is found
//! without a search. It keeps ids in pages of 64, owns no node and never follows a reference.
#![tactic(auto)]

mod entry;
mod hints;
mod ids;
pub mod laws;
mod page;
mod pages;

pub use entry::IdEntry;
pub use ids::Ids;
