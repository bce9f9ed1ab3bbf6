//! A table under another schema. Its columns and indexes go by their names, and its rows keep their ids.
//! It reads schemas and plain tables, and touches no container.
#![tactic(auto)]

mod catalogs;
mod columns;
pub mod examples;
mod fault;
mod indexes;
pub mod laws;
mod lost;
mod reshape;

pub use catalogs::reshaped_all;
pub use fault::{CatalogFault, ReshapeFault};
pub use lost::{DroppedPart, dropped};
pub use reshape::reshaped;

#[cfg(test)]
mod tests;
