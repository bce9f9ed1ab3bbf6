//! The base of a journal: read at a start, made anew in front of what is open at the journal's end or at that of its closed segments, and written in front
//! of a new journal. It opens files, and knows a database by the hub alone, or by what it gives images of.
#![tactic(auto)]

mod base;
mod beginning;
mod beside;
mod claiming;
mod closing;
mod images;
mod rebasing;
mod removing;
mod settling;
mod writing;

pub use base::{Base, base_of};
pub use beginning::begun_with;
pub use claiming::{NewBase, claim_new_base, discard_new_base};
pub use images::Imaged;
pub use rebasing::rebased;
pub use settling::settled;
