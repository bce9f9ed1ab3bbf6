//! The database in its plain form: rows in the order of their ids, a list of ids for each index, and whole copies of the
//! tables for open sessions. It is as simple as it can be, and tests ask it beside the one that is served. Each change looks
//! through all rows and makes its new lists beside the old ones. Each look-up goes over the list of an index. So a call takes
//! time in proportion to the rows, and `nth` to their square.
#![tactic(auto)]

mod conflict;
mod ids;
mod look_ups;
mod pass;
mod plain;
mod table;
mod walk;

pub use plain::Plain;
