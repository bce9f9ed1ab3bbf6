//! Parts of a JSON text, put at places of a buffer that has room for them: bytes, labels, numbers and strings. It knows no rows
//! and no replies, and takes memory only where it makes room. Each call says which bytes stand before the place that it answers; those behind are left to the next.
#![tactic(auto)]

mod number;
mod place;
mod plain;
mod room;
mod string;

pub use number::{put_i64, put_u64};
pub use place::{put_byte, put_comma, put_label, put_text};
pub use plain::is_plain;
pub use room::make_room;
pub use string::put_string;
