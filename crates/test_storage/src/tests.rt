//! A structure a file. What no clause says: that there is memory, what refused memory leaves, and how many calls look-ups really make.

mod asking;
mod chains;
mod growth;
mod ids;
mod indexes;
mod journal;
mod list;
mod mixing;
mod nodes;
mod pool;
mod trees;
