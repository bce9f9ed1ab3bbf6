//! Runs of the program by its words, over streams that fail, and over sockets. It has tests alone.
#![tactic(auto)]

#[cfg(test)]
mod tests;
