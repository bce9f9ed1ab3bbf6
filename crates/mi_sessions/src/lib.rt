//! What every database of the product does, as a trait over the definitions of `mi_model`.
#![tactic(auto)]

pub mod laws;
mod sessions;

pub use sessions::Sessions;
