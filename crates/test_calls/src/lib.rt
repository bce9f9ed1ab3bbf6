//! Calls of records, keys and edits, sessions by calls of a database, and how many look-ups a query makes. It has tests alone.
#![tactic(auto)]

#[cfg(test)]
mod tests;
