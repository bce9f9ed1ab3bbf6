//! From bytes to the text that they are. It knows no JSON.
ghost use Rattle.std.specs.Prelude.{◌≡◌, IsTrue, MatchResult};
ghost use Rattle.std.specs.Str.{IsAscii, IsUtf8};

use simdutf8::compat::{Utf8Error, from_utf8};

/// A text of at most so many bytes is asked first whether it is ASCII, as most lines are.
const FEW: usize = 128;

/// Of a longer text than this the first so many bytes are asked by themselves.
const BLOCK: usize = 64;

/// Whether bytes are ASCII. Where it says no, they may be: then nothing is lost but time.
#[inline(always)]
fn is_ascii(bytes: &[u8]) -> bool
    ensures { IsTrue result → IsAscii bytes.now }
{
    if bytes.len() <= BLOCK {
        return bytes.is_ascii();
    }
    bytes[..BLOCK].is_ascii() && bytes[BLOCK..].is_ascii()
}

/// The text that bytes are, if they are UTF-8.
#[inline(always)]
pub(crate) fn text_of(bytes: &[u8]) -> Result<&str, Utf8Error>
    ensures cases { MatchResult result (λ s. (s.now ≡ bytes.now) × IsUtf8 bytes.now) (λ e. ¬ (IsUtf8 bytes.now)) }
{
    if bytes.len() <= FEW && is_ascii(bytes) {
        return Ok(unsafe { str::from_utf8_unchecked(bytes) });
    }
    from_utf8(bytes)
}
