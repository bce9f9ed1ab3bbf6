//! Requests to commands over a catalog, and replies to text. How lines are read to requests stands in `mi_request`, which is
//! handed on; the text of rows stands in `mi_rows`. It knows nothing of tables' rows, sessions or connections; it reads and writes no stream.
#![tactic(auto)]

mod binding;
mod changes;
mod columns;
mod command;
mod edits;
mod indexes;
mod keys;
mod labels;
mod laws;
mod look_ups;
mod output;
mod reply;
mod row;
mod text;

pub use binding::{bind, bind_change, bind_key_look_up, bind_number_look_up};
pub use changes::Change;
pub use command::Command;
pub use edits::Edits;
pub use labels::ReplyLabels;
pub use laws::{lines_edit_columns_once, lines_without_a_table, replies_are_compact_json};
pub use look_ups::{KeyLookUp, NumberLookUp};
pub use mi_request::{
    Array, Bound, ChangeRequest, Json, KeyLookUpRequest, LineReader, Name, NamedPlace,
    NumberLookUpRequest, Object, Request, SessionCommand, ShortRequest,
};
pub use output::Output;
pub use reply::Reply;
pub use text::ReplyText;
