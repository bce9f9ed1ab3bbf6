//! A journal in segments and its base, over a folder in memory whose calls fail, and that forgets what wasn't synced. It has tests alone.
#![tactic(auto)]

#[cfg(test)]
mod folder;
#[cfg(test)]
mod journal;
#[cfg(test)]
mod tests;
