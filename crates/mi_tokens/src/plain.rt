//! Where the plain bytes of a text end: the bytes are tried sixteen at a time, then eight, and the last ones by themselves. It knows
//! no lexeme.
ghost use Rattle.std.specs.Prelude.{◌≡◌, ◌+◌, ◌≤◌, length, drop, map};
ghost use Rattle.std.specs.List.{prefix_len};
ghost use Rattle.std.specs.Simd.Lanes.{mask_l};
ghost use Rattle.json.specs.Run.{is_stop, is_plain};

use std::simd::prelude::*;

/// A bit for each of sixteen bytes that is a quote, a backslash or a control byte.
#[inline(always)]
fn stops_16(bytes: u8x16) -> u64
    ensures { result ≡ mask_l (map is_stop bytes) }
{
    (bytes.simd_eq(u8x16::splat(b'"'))
        | bytes.simd_eq(u8x16::splat(b'\\'))
        | bytes.simd_lt(u8x16::splat(0x20))).to_bitmask()
}

/// The same of eight bytes.
#[inline(always)]
fn stops_8(bytes: u8x8) -> u64
    ensures { result ≡ mask_l (map is_stop bytes) }
{
    (bytes.simd_eq(u8x8::splat(b'"'))
        | bytes.simd_eq(u8x8::splat(b'\\'))
        | bytes.simd_lt(u8x8::splat(0x20))).to_bitmask()
}

/// Where the plain bytes end, one by one.
#[inline(always)]
fn last_plain_end(text: &[u8], from: usize) -> usize
    requires { from ≤ length text.now }
    ensures { result ≡ from + prefix_len is_plain (drop from text.now) }
{
    let mut at = from;
    'bytes: while at < text.len() && text[at] != b'"' && text[at] != b'\\' && text[at] >= 0x20 {
        at += 1;
    }
    at
}

/// Where the plain bytes end, of the last ones: fewer than sixteen.
#[inline(never)]
fn short_plain_end(text: &[u8], from: usize) -> usize
    requires { from ≤ length text.now }
    ensures { result ≡ from + prefix_len is_plain (drop from text.now) }
{
    if text.len() - from < 8 {
        return last_plain_end(text, from);
    }
    let found = stops_8(u8x8::from_slice(&text[from..]));
    if found != 0 {
        return from + found.trailing_zeros() as usize;
    }
    last_plain_end(text, from + 8)
}

/// Where the first quote, backslash or control byte stands from `from` on, or the length.
#[inline(always)]
pub(crate) fn plain_end(text: &[u8], from: usize) -> usize
    requires { from ≤ length text.now }
    ensures value { result ≡ from + prefix_len is_plain (drop from text.now) }
    ensures bound { result ≤ length text.now }
{
    let mut at = from;
    'sixteens: while text.len() - at >= 16 {
        let found = stops_16(u8x16::from_slice(&text[at..]));
        if found != 0 {
            return at + found.trailing_zeros() as usize;
        }
        at += 16;
    }
    short_plain_end(text, at)
}
