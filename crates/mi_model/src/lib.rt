//! The meaning of the product, in `specs/`: tables and what their indexes show, changes and their refusals, look-ups, and
//! databases of several tables under one stack of sessions. `examples` shows the definitions at work. Nothing here runs.
#![tactic(auto)]

pub mod examples;
