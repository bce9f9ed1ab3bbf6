//! A database in the process of its caller: opened from a schema's text, asked one whole line a call. The reply to the last
//! line stays until the next. The same commands are calls too, with values in place of a line. It reads and writes no stream, and knows
//! nothing of C.
#![tactic(auto)]

mod arguments;
mod call_result;
mod cell;
mod changes;
mod copying;
mod cursors;
mod edits;
mod engine;
mod fault;
mod field;
pub mod laws;
mod look_ups;
mod names;
mod pages;
mod room;
mod rows;
mod sessions;

pub use call_result::CallResult;
pub use cell::Cell;
pub use edits::EditCell;
pub use engine::Engine;
pub use fault::OpenFault;
pub use field::Field;
pub use pages::End;
