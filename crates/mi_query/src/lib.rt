//! Questions about a table: look-ups, counts, ranks, and pages of ranges and lists, over any database. It reads the
//! database by its trait alone and never changes it; only pages take memory.
#![tactic(auto)]

mod look_ups;
mod pages;
mod ranks;
mod shown;

pub use look_ups::{count, find};
pub use pages::{Page, list, range};
pub use ranks::{lower_rank, nth, rank, size, upper_rank};
