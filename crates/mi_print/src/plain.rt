//! Whether a text needs no escape. Two loads that lie over each other cover a short one. It knows no lexeme.
ghost use Rattle.std.specs.Prelude.{◌≡◌, ◌+◌, ◌≤◌, length};
ghost use Rattle.std.specs.Bool.{OnTrue};
ghost use Rattle.json.specs.Print.{escape};
ghost use Rattle.json.specs.Written.{PlainBetween};

use std::simd::prelude::*;

/// Whether no byte of eight is a quote, a backslash or a control byte.
#[inline(always)]
fn are_plain_8(bytes: u8x8) -> bool
    ensures { OnTrue result (PlainBetween bytes 0 8) }
{
    (bytes.simd_eq(u8x8::splat(b'"'))
        | bytes.simd_eq(u8x8::splat(b'\\'))
        | bytes.simd_lt(u8x8::splat(0x20))).to_bitmask()
        == 0
}

/// The same of sixteen.
#[inline(always)]
fn are_plain_16(bytes: u8x16) -> bool
    ensures { OnTrue result (PlainBetween bytes 0 16) }
{
    (bytes.simd_eq(u8x16::splat(b'"'))
        | bytes.simd_eq(u8x16::splat(b'\\'))
        | bytes.simd_lt(u8x16::splat(0x20))).to_bitmask()
        == 0
}

/// The same of sixteen bytes of a text.
#[inline(always)]
fn plain_16(text: &[u8], at: usize) -> bool
    requires { at + 16 ≤ length text.now }
    ensures { OnTrue result (PlainBetween text.now at (at + 16)) }
{
    are_plain_16(u8x16::from_slice(&text[at..]))
}

/// The same of a text of three bytes or fewer, one by one.
#[inline(always)]
fn plain_few(text: &[u8]) -> bool
    ensures { OnTrue result (PlainBetween text.now 0 (length text.now)) }
{
    'bytes: for &byte in text {
        if byte == b'"' || byte == b'\\' || byte < 0x20 {
            return false;
        }
    }
    true
}

/// The same of a text of sixteen bytes or more.
fn plain_long(text: &[u8]) -> bool
    requires { 16 ≤ length text.now }
    ensures { OnTrue result (PlainBetween text.now 0 (length text.now)) }
{
    let mut at = 0;
    'sixteens: while text.len() - at > 16 {
        if !plain_16(text, at) {
            return false;
        }
        at += 16;
    }
    plain_16(text, text.len() - 16)
}

/// The same of a text of four to eight bytes: its first four beside its last four.
#[inline(always)]
fn plain_by_4(text: &[u8]) -> bool
    requires { (4 ≤ length text.now) × (length text.now ≤ 8) }
    ensures { OnTrue result (PlainBetween text.now 0 (length text.now)) }
{
    let first = u8x4::from_slice(text);
    let last = u8x4::from_slice(&text[text.len() - 4..]);
    are_plain_8(first.shuffle::<8>(last, [0, 1, 2, 3, 4, 5, 6, 7]))
}

/// The same of a text of eight to sixteen bytes: its first eight beside its last eight.
#[inline(always)]
fn plain_by_8(text: &[u8]) -> bool
    requires { (8 ≤ length text.now) × (length text.now ≤ 16) }
    ensures { OnTrue result (PlainBetween text.now 0 (length text.now)) }
{
    let first = u8x8::from_slice(text);
    let last = u8x8::from_slice(&text[text.len() - 8..]);
    are_plain_16(first.shuffle::<16>(last, [0, 1, 2, 3, 4, 5, 6, 7, 8, 9, 10, 11, 12, 13, 14, 15]))
}

/// The same of a text of sixteen bytes or fewer.
#[inline(always)]
fn plain_short(text: &[u8]) -> bool
    requires { length text.now ≤ 16 }
    ensures { OnTrue result (PlainBetween text.now 0 (length text.now)) }
{
    if text.len() >= 8 {
        plain_by_8(text)
    } else if text.len() >= 4 {
        plain_by_4(text)
    } else {
        plain_few(text)
    }
}

/// Whether a text of four to eight bytes needs no escape.
#[inline(always)]
pub(crate) fn is_plain_by_4(text: &[u8]) -> bool
    requires { (4 ≤ length text.now) × (length text.now ≤ 8) }
    ensures { OnTrue result (escape text.now ≡ text.now) }
{
    plain_by_4(text)
}

/// Whether a text of eight to sixteen bytes needs no escape.
#[inline(always)]
pub(crate) fn is_plain_by_8(text: &[u8]) -> bool
    requires { (8 ≤ length text.now) × (length text.now ≤ 16) }
    ensures { OnTrue result (escape text.now ≡ text.now) }
{
    plain_by_8(text)
}

/// Whether a text needs no escape.
#[inline(always)]
pub fn is_plain(text: &[u8]) -> bool
    ensures { OnTrue result (escape text.now ≡ text.now) }
{
    if text.len() < 16 {
        plain_short(text)
    } else {
        plain_long(text)
    }
}
