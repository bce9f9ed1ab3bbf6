//! What a container of records under several indexes is to its callers, over plain data: its calls, as a trait; its rows,
//! its changes, the inverse of each, and which inverses can be taken back.
//! It knows no sessions. What meets the trait stands in `mi_multi`.
#![tactic(auto)]

mod container;
pub mod examples;
mod inverse;
pub mod laws;
mod restore;

pub use container::Container;
pub use inverse::{MAX_PLACES, OldPlaces, RowRef, Step};
pub use restore::{RestoreFault, TableImage};
