//! From command lines to requests: the JSON of a line, the table of commands, and what each member must be.
//! It knows no catalog, so it neither looks names up nor tells which values fit; it reads and writes no stream.
#![tactic(auto)]

mod array;
mod flat;
mod keyed;
mod lending;
mod line_reader;
mod name;
mod nullary_command;
mod object;
mod reading;
mod request;
mod short;
mod text;
mod value;
mod words;

pub use array::Array;
pub use line_reader::LineReader;
pub use mi_tokens::Json;
pub use name::Name;
pub use object::Object;
pub use request::{
    Bound, ChangeRequest, KeyLookUpRequest, NamedPlace, NumberLookUpRequest, Request,
    SessionCommand, ShortRequest,
};
