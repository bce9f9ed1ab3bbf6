//! The service over a journal in memory, over streams that take little, and over sockets. It has tests alone.
#![tactic(auto)]

#[cfg(test)]
mod telling;
#[cfg(test)]
mod tests;
