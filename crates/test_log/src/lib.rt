//! A log over a device that fails and over a file, and lines out of bytes. It has tests alone.
#![tactic(auto)]

#[cfg(test)]
mod tests;
