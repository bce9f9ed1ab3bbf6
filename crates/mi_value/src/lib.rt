//! The words of the product: values, records, keys, edits, bounds, refusals, limits and counted steps.
//! It knows nothing of tables, schemas or bytes on a wire; it allocates only to copy.
#![tactic(auto)]

mod bound;
mod bytes;
mod compare;
mod edit;
mod hash;
pub mod laws;
pub mod limits;
mod record;
mod refusal;
mod steps;
mod value;

pub use bound::{Key, Lower, Probe, Upper};
pub use compare::{KeyPart, compare_key, compare_prefix, same_key};
pub use edit::{Edit, apply};
pub use hash::hash_values;
pub use record::{Record, Values};
pub use refusal::{NoSession, Refusal};
pub use steps::Steps;
pub use value::{ColumnType, Text, Value, ValueRef};
