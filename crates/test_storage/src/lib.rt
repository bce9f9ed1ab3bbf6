//! The storage at work: nodes, ids, lists, trees, chains, the indexes over them and the journal, by their public calls. It has tests alone.
#![tactic(auto)]

#[cfg(test)]
mod tests;
