//! A line as it is asked. Plain data.

/// A line as it is asked: its bytes without the newline, or the mark that it was over-long.
#[derive(Clone, Copy, Drop)]
pub enum Line<'a> {
    Text(&'a [u8]),
    TooLong,
}
