//! What a schema is: the columns and indexes of a table, and the catalog of a database's tables. A `Schema` or `Catalog` keeps
//! every rule of `specs/Rules.antt` from its making on. It knows of rows whether they fit and how they compare by the parts of
//! an index, and nothing of how a schema is written.
#![tactic(auto)]

mod accounts;
mod catalog;
mod fits;
mod index;
mod key;
mod schema;

pub use accounts::built_in;
pub use catalog::Catalog;
pub use index::{Column, Index, IndexKind, Parts};
pub use key::{compare_rows, compare_to_row};
pub use schema::{Counts, Schema};
