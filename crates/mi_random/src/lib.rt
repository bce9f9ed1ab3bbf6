//! Random numbers for tests and measurements, the same for the same seed. Nothing that is served draws one.
#![tactic(auto)]

mod random;

pub use random::Random;
