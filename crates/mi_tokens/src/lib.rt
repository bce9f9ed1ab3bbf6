//! JSON texts written as a writer gives them, read in one pass without an index: lexemes, tokens, and the value, which
//! lends its parts. It knows no command and no catalog, and gives up at what a writer doesn't give.
#![tactic(auto)]

mod lexemes;
mod pass;
mod plain;
mod same;
mod tokens;
mod value;

pub use pass::{pass_object, pass_one, pass_text};
pub use same::are_same;
pub use tokens::Tokens;
pub use value::Json;
