//! Where a base may stand while sessions stay open: in front of the start of the oldest one that is open at the end, with what is open there
//! ended early. It keeps numbers of lines and touches no database.
#![tactic(auto)]

pub mod examples;
pub mod laws;
pub mod open_starts;

pub use open_starts::OpenStarts;
