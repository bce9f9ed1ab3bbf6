//! Images of tables as the text of a base, lines of JSON with a digest, and back. It opens no file, and knows no journal beyond what a
//! heading says.
#![tactic(auto)]

mod fault;
mod heading;
mod line;
mod lines;
mod lists;
mod read;
mod rows;
mod write;

pub use fault::{BaseFault, WriteFault};
pub use heading::Heading;
pub use read::read_base;
pub use write::write_base;
