//! Worked rows over every form of the database, and the forms beside one another. It has tests alone: what commands are
//! answered, line by line, however their bytes are cut, and what devices that fail leave.
#![tactic(auto)]

#[cfg(test)]
mod tests;
