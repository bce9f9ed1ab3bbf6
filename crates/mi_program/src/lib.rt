//! What the program does with its words and streams: its options, where the schema comes from, the order in which things are
//! opened, connections by turns, and the words of its failures. It knows nothing of commands.
#![tactic(auto)]

mod buffered;
mod failure;
mod listener;
mod program;
mod report;
mod secret;
mod serve;
mod source;
mod words;

pub use buffered::Buffered;
pub use failure::Failure;
pub use listener::serve_listener;
pub use program::run;
pub use report::refuse_arguments;
pub use secret::drawn;
pub use source::whole_text;
pub use words::{Options, WordsFault, read_words};
