//! The law of the journal: the lines that changed something in a run of the hub, asked again by one connection, give the run's database.
//! There is nothing to run.
#![tactic(auto)]

pub mod examples;
pub mod laws;
