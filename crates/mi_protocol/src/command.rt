//! Commands that fit a catalog: tables, indexes and columns by number, a row as a record. Plain data.
use crate::changes::Change;
use crate::look_ups::{KeyLookUp, NumberLookUp};
use mi_request::SessionCommand;

/// A command that fits a catalog: a change of a table, by its number, a look-up of one by numbers or by keys, or a command over sessions.
#[derive(Drop)]
pub enum Command {
    Change { table: usize, change: Change },
    NumberLookUp { table: usize, look_up: NumberLookUp },
    KeyLookUp { table: usize, look_up: KeyLookUp },
    Session(SessionCommand),
}
