//! What the tests assert. An assertion's text is written out where it stands and is proved there, so it stands here alone.
use std::process::Abort;

/// Asserts what is said.
pub(super) fn check(rt: &impl Abort, holds: bool, what: &str) {
    assert!(rt; holds, "{what}");
}

/// Asserts a number.
pub(super) fn check_number(rt: &impl Abort, got: u64, want: u64, what: &str) {
    assert_eq!(rt; got, want, "{what}");
}

/// Asserts that a number isn't above another.
pub(super) fn check_few(rt: &impl Abort, got: u64, most: u64, what: &str) {
    assert!(rt; got <= most, "{got} {what}");
}

/// Asserts a number that may be absent.
pub(super) fn check_option(rt: &impl Abort, got: Option<u32>, want: Option<u32>, what: &str) {
    assert_eq!(rt; got, want, "{what}");
}

/// Asserts numbers, any of which may be absent.
pub(super) fn check_each(rt: &impl Abort, got: &[Option<u32>], want: &[Option<u32>], what: &str) {
    assert_eq!(rt; got, want, "{what}");
}

/// Asserts a text.
pub(super) fn check_text(rt: &impl Abort, got: &str, want: &str) {
    assert_eq!(rt; got, want);
}
