//! Worked tables over what is read and written: documents of schemas, lines, the commands that they are bound to, and the texts of replies.
//! Random numbers too. It has tests alone.
#![tactic(auto)]

#[cfg(test)]
mod tests;
