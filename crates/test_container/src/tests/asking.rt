//! What the tests assert. An assertion's text is written out where it stands and is proved there, so it stands here alone.
ghost use Rattle.std.specs.Prelude.{◌≡◌, ◌<◌, true};

use super::change::Answer;
use std::process::Abort;

/// Stops unless it holds.
pub(super) fn check(rt: &impl Abort, holds: bool, what: &str)
    ensures { holds ≡ true }
{
    assert!(rt; holds, "{what}");
}

/// Stops unless a number is below another.
pub(super) fn check_below(rt: &impl Abort, n: usize, end: usize)
    ensures { n < end }
{
    assert!(rt; n < end, "{n} of {end}");
}

/// Asserts which record is answered, if one is.
pub(super) fn assert_id(rt: &impl Abort, got: Option<u64>, want: Option<u64>) {
    assert_eq!(rt; got, want);
}

pub(super) fn assert_number(rt: &impl Abort, got: u64, want: u64) {
    assert_eq!(rt; got, want);
}

/// Asserts what a change answers.
pub(super) fn assert_answer(rt: &impl Abort, got: Answer, want: Answer) {
    assert_eq!(rt; got, want);
}
