//! A journal beside the hub: the lines that changed something go into it, and stay before their replies go out.
#![tactic(auto)]

mod durable;
mod fault;
pub mod laws;
mod replaying;
mod replies;
mod room;

pub use durable::{Admitted, Durable, is_holder};
pub use fault::DurableFault;
pub use replaying::{LineFault, REPLAYER, ReplayFault, replay, replay_line};
pub use replies::HeldReplies;
pub use room::{CHANGE_ROOM, SHORT_UNDO, waits_for_room};
