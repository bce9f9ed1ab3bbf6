//! The linked database: a container for each table under one undo journal. It is a `Sessions` whose undo takes no memory. It
//! knows a container by its calls alone.
#![tactic(auto)]

mod bound;
mod ending;
mod erasing;
mod images;
mod linked;
mod restored;
mod sessions;

pub use bound::look_ups_are_bounded;
pub use linked::Linked;
pub use mi_sessions::{Sessions, laws};
pub use restored::DatabaseFault;
