//! Connections as values, over one hub whose lines are journaled: what came of each and wasn't asked yet, what it is to be sent, its lines
//! asked one after another, and all of them in a list. A stream is asked only when it may be ready, one that is slow holds up itself alone,
//! and a reply goes out once its line stays in the journal. It opens no socket, waits for none, and knows nothing of commands.
#![tactic(auto)]

mod asking;
mod beside;
mod client;
mod clients;
mod duplex;
mod ending;
mod input;
pub mod laws;
mod lines;
mod output;
mod schema_line;
mod sending;
mod service_lines;
mod silence;
mod status;
mod telling;

pub use asking::disconnect;
pub use beside::{Beside, end_beside};
pub use client::Client;
pub use clients::{ConnectOutcome, connect, is_any_busy, serve_all, wake_one};
pub use duplex::Duplex;
pub use ending::end_asked;
pub use schema_line::SchemaLine;
pub use silence::{Limits, give_up_silent};
