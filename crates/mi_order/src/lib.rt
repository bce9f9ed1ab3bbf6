//! How indexes see records: the order of an index, its tags and its hashes, each of the values of a record and its id.
//! It reads values alone, and takes no memory. It knows no links, no pool and no structure, and never sees a stamp.
#![tactic(auto)]

mod hashing;
mod key;
pub mod laws;
mod orders;
pub mod prefixes;
mod stored;
pub mod tags;

pub use hashing::hash_values;
pub use orders::{ByHash, ByKey};
pub use prefixes::PrefixTypes;
pub use stored::Stored;
