//! Each call of a container once, over every kind of index, and changes that are taken back or settled. It has tests alone.
#![tactic(auto)]

#[cfg(test)]
mod tests;
