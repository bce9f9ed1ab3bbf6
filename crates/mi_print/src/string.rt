//! Texts in quotation marks, escaped where they have to be.
ghost use Rattle.std.specs.Prelude.{◌≡◌, ◌+◌, ◌*◌, ◌<◌, ◌≤◌, [], ◌∷◌, ◌++◌, length, take};
ghost use Rattle.std.specs.Char.{digit_char};
ghost use Rattle.json.specs.Filled.{Placed};
ghost use Rattle.json.specs.Print.{escape_letter, escape_byte, quoted};

use crate::place::{put_byte, put_ends, put_front, put_text};
use crate::plain::{is_plain, is_plain_by_4, is_plain_by_8};

/// The letter of a byte's short escape, or 0 where it has none.
fn letter(byte: u8) -> u8
    ensures { result ≡ escape_letter byte }
{
    match byte {
        b'"' | b'\\' => byte,
        8 => b'b',
        12 => b'f',
        b'\n' => b'n',
        b'\r' => b'r',
        b'\t' => b't',
        _ => 0,
    }
}

/// A hexadecimal digit.
fn hex(digit: u8) -> u8
    requires { digit < 16 }
    ensures { result ≡ digit_char digit }
{
    if digit < 10 {
        b'0' + digit
    } else {
        b'a' - 10 + digit
    }
}

/// What stands in a string for a byte: the first bytes of an array, and how many.
fn escape_of(byte: u8) -> ([u8; 6], usize)
    ensures value { take result.1 result.0 ≡ escape_byte byte }
    ensures bound { result.1 ≤ 6 }
{
    let letter = letter(byte);
    if letter > 0 {
        return ([b'\\', letter, 0, 0, 0, 0], 2);
    }
    if byte < 0x20 {
        return ([b'\\', b'u', b'0', b'0', hex(byte / 16), hex(byte % 16)], 6);
    }
    ([byte, 0, 0, 0, 0, 0], 1)
}

/// Puts what stands in a string for a byte.
fn put_escape(buf: &mut [u8], at: usize, byte: u8) -> usize
    requires { at + 6 ≤ length buf.old }
    ensures value { Placed buf.old buf.new at (escape_byte byte) result }
    ensures bound { result ≤ at + 6 }
{
    let (escape, len) = escape_of(byte);
    put_front::<6>(buf, at, &escape, len)
}

/// Puts a text in quotation marks, byte by byte.
#[inline(never)]
fn put_escaped(buf: &mut [u8], at: usize, text: &[u8]) -> usize
    requires { at + 6 * length text.now + 2 ≤ length buf.old }
    ensures value { Placed buf.old buf.new at (quoted text.now) result }
    ensures bound { result ≤ at + 6 * length text.now + 2 }
{
    let mut end = put_byte(buf, at, b'"');
    'bytes: for &byte in text {
        end = put_escape(buf, end, byte);
    }
    put_byte(buf, end, b'"')
}

/// Puts a text in quotation marks that needs no escape.
#[inline(always)]
fn put_plain(buf: &mut [u8], at: usize, text: &[u8]) -> usize
    requires { at + length text.now + 2 ≤ length buf.old }
    ensures { Placed buf.old buf.new at (34 ∷ (text.now ++ 34 ∷ [])) result }
{
    let begun = put_byte(buf, at, b'"');
    let end = put_text(buf, begun, text);
    put_byte(buf, end, b'"')
}

/// Puts a text of N to 2 N bytes in quotation marks that needs no escape.
#[inline(always)]
fn put_quoted<const N: usize>(buf: &mut [u8], at: usize, text: &[u8]) -> usize
    requires fits { at + length text.now + 2 ≤ length buf.old }
    requires covers { (N ≤ length text.now) × (length text.now ≤ N + N) }
    ensures { Placed buf.old buf.new at (34 ∷ (text.now ++ 34 ∷ [])) result }
{
    let begun = put_byte(buf, at, b'"');
    let end = put_ends::<N>(buf, begun, text);
    put_byte(buf, end, b'"')
}

/// Puts a text of any length in quotation marks, escaped where it has to be.
fn put_any(buf: &mut [u8], at: usize, text: &[u8]) -> usize
    requires { at + 6 * length text.now + 2 ≤ length buf.old }
    ensures value { Placed buf.old buf.new at (quoted text.now) result }
    ensures bound { result ≤ at + 6 * length text.now + 2 }
{
    if is_plain(text) {
        put_plain(buf, at, text)
    } else {
        put_escaped(buf, at, text)
    }
}

/// Puts a text in quotation marks, escaped where it has to be. An escape takes up to six bytes. Of a short text that needs none the
/// length is asked once, for the test and the copy.
#[inline(always)]
pub fn put_string(buf: &mut [u8], at: usize, text: &str) -> usize
    requires { at + 6 * length text.now + 2 ≤ length buf.old }
    ensures value { Placed buf.old buf.new at (quoted text.now) result }
    ensures bound { result ≤ at + 6 * length text.now + 2 }
{
    let bytes = text.as_bytes();
    let len = bytes.len();
    if len >= 8 {
        if len <= 16 && is_plain_by_8(bytes) {
            return put_quoted::<8>(buf, at, bytes);
        }
    } else if len >= 4 && is_plain_by_4(bytes) {
        return put_quoted::<4>(buf, at, bytes);
    }
    put_any(buf, at, bytes)
}
