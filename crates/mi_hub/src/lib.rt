//! Connections that share one database by turns: lines out of bytes, and their replies in order. What a line is answered it
//! asks of `mi_commands`; of readers and writers it knows only what they say that they gave and took.
#![tactic(auto)]

mod connection;
mod events;
mod fault;
mod hub;
mod io_errors;
pub mod laws;
mod line;
mod send;
mod serve;
mod stream;
mod turn;
mod watched;

pub use events::{Event, drive};
pub use fault::{HubFault, ServeFault};
pub use hub::Hub;
pub use io_errors::IoErrors;
pub use stream::serve_stream;
pub use turn::take_turn;
pub use watched::Watched;
