//! A service: its words, and connections that an acceptor accepts and go without end, over one hub whose lines are journaled. What a
//! connection asks and is sent is `mi_clients`', and the journal at a start is `mi_recovery`'s. It knows nothing of commands.
#![tactic(auto)]

mod acceptor;
mod beginning;
mod failure;
mod link;
mod move_words;
mod moving;
mod overflow;
mod patience;
mod program;
mod report;
mod service;
mod source;
mod start;
mod words;

pub use acceptor::{Acceptor, Callers};
pub use failure::{Failure, Fault};
pub use link::Link;
pub use mi_program::WordsFault;
pub use move_words::MoveWords;
pub use overflow::Overflow;
pub use patience::Patience;
pub use program::run;
pub use service::{serve, take_turn, turn};
pub use source::BUILT_IN;
pub use words::{Addresses, JournalWords, MOST_SECONDS, Options, SyncMode, read_words};
