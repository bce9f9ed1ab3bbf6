//! Rows of a reply to text: each as an object whose members stand in the order of their names. It knows columns and values, and no
//! tables, requests or other replies; it reads and writes no stream, and takes memory for the text alone.
#![tactic(auto)]

mod labels;
mod row_values;
mod rows;
mod shown;

pub use labels::RowLabels;
pub use rows::{put_row_reply, put_rows_reply};
