//! What the tests assert. An assertion's text is written out where it stands and is proved there, so it stands here alone.
use mi_value::Refusal;
use std::process::Abort;

/// Asserts what is said of a row.
pub(super) fn check(rt: &impl Abort, holds: bool, what: &str) {
    assert!(rt; holds, "{what}");
}

/// Asserts a number.
pub(super) fn check_number(rt: &impl Abort, got: u64, want: u64, what: &str) {
    assert_eq!(rt; got, want, "{what}");
}

/// Asserts a text.
pub(super) fn check_text(rt: &impl Abort, got: &str, want: &str, what: &str) {
    assert_eq!(rt; got, want, "{what}");
}

/// Asserts bytes, which are to be a text.
pub(super) fn check_bytes(rt: &impl Abort, got: &[u8], want: &str) {
    assert_eq!(rt; got, want.as_bytes(), "{want}");
}

/// The word in front of a row, and what stands behind it.
pub(super) fn split_row(row: &str) -> (&str, &str) {
    row.split_once(' ').unwrap_or((row, ""))
}

/// A refusal's word, or `ok`.
pub(super) fn word_of(refusal: Option<Refusal>) -> &'static str {
    match refusal {
        Some(refusal) => refusal.word(),
        None => "ok",
    }
}
