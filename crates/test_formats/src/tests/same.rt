//! Texts that are the same, and such as differ in one byte.
ghost use Rattle.std.specs.Prelude.{◌≤◌};

use super::asking::check;
use mi_tokens::are_same;
use std::process::Abort;

/// Its fronts have every length for which there is another way to compare.
const TEXT: [u8; 20] = *b"{\"cmd\":\"upper_rank\",";

/// A front of this length is itself, and isn't what it is with another byte in any place.
fn assert_front(rt: &impl Abort, len: usize)
    requires { len ≤ 20 }
{
    check(rt, are_same(&TEXT[..len], &TEXT[..len]), "the same");
    for at in 0..len {
        let mut other = TEXT;
        other[at] ^= 1;
        check(rt, !are_same(&TEXT[..len], &other[..len]), "another byte");
    }
}

/// Each byte tells two texts apart.
#[test]
fn texts_differ_by_each_byte(rt: HostRuntime) {
    for len in 0..21 {
        assert_front(&rt, len);
    }
}
