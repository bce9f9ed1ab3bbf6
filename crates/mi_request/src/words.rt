//! Words of a line, read where they stand: a name, a whole number, and a member that is one of them. It takes no memory and knows no
//! command.
ghost use Rattle.std.specs.Prelude.{◌≡◌, ◌+◌, ◌<◌, ◌≤◌, length, drop, map, take, IfSome, None, option_map, bytes_eq, ◌∷◌, []};
ghost use Rattle.std.specs.Char.{is_ascii_digit};
ghost use Rattle.std.specs.Str.Parse.{digits_value};
ghost use Rattle.std.specs.List.{prefix_len};
ghost use Rattle.std.specs.Simd.Lanes.{mask_l};
ghost use Rattle.mi_request.specs.Short as short;
ghost use Rattle.mi_request.specs.ShortCode as code;

use crate::name::Name;
use mi_tokens::are_same;
use std::simd::prelude::*;

/// Digits of a number, at most: so many always fit 64 bits.
const MOST_DIGITS: usize = 19;

/// What stands behind a front.
#[inline(always)]
pub(crate) fn behind<'a>(front: &[u8], line: &'a [u8]) -> Option<&'a [u8]>
    ensures { option_map (λ r. r.now) result ≡ code.behind front.now line.now }
{
    let (first, rest) = line.split_at_checked(front.len())?;
    if are_same(first, front) {
        Some(rest)
    } else {
        None
    }
}

/// Whether a byte can stand in a name: a letter from a to z, a digit or _.
#[inline(always)]
fn is_name_byte(byte: u8) -> bool
    ensures { result ≡ short.is_name_byte byte }
{
    byte.is_ascii_lowercase() || byte.is_ascii_digit() || byte == b'_'
}

/// A bit for each of sixteen bytes that can't stand in a name.
#[inline(always)]
fn name_stops_16(bytes: u8x16) -> u64
    ensures { result ≡ mask_l (map short.stops_name bytes) }
{
    let between = u8x16::splat(b'9').simd_lt(bytes) & bytes.simd_lt(u8x16::splat(b'_'));
    (bytes.simd_lt(u8x16::splat(b'0'))
        | between
        | bytes.simd_eq(u8x16::splat(b'`'))
        | u8x16::splat(b'z').simd_lt(bytes)).to_bitmask()
}

/// Where the bytes of a name end, one by one.
#[inline(always)]
fn last_name_end(text: &[u8], from: usize) -> usize
    requires { from ≤ length text.now }
    ensures value { result ≡ from + prefix_len short.is_name_byte (drop from text.now) }
    ensures bound { result ≤ length text.now }
{
    let mut at = from;
    'bytes: while at < text.len() && is_name_byte(text[at]) {
        at += 1;
    }
    at
}

/// Where the bytes of a name end, sixteen at a time.
#[inline(always)]
fn name_end(text: &[u8]) -> usize
    ensures value { result ≡ prefix_len short.is_name_byte text.now }
    ensures bound { result ≤ length text.now }
{
    let mut at = 0;
    'sixteens: while text.len() - at >= 16 {
        let found = name_stops_16(u8x16::from_slice(&text[at..]));
        if found != 0 {
            return at + found.trailing_zeros() as usize;
        }
        at += 16;
    }
    last_name_end(text, at)
}

/// The name up to a quotation mark, and what stands behind that.
#[inline(always)]
fn name_at<'a>(text: &'a [u8]) -> Option<(Name<'a>, &'a [u8])>
    ensures { option_map (λ p. (p.0, p.1.now)) result ≡ code.name_at text.now }
{
    let end = name_end(text);
    let rest = behind(b"\"".as_slice(), &text[end..])?;
    let name = unsafe { str::from_utf8_unchecked(&text[..end]) };
    Some((Name::new(name), rest))
}

/// The number that the first digits write, and how many they are; none where there are more than 19.
#[inline(always)]
fn digits_of(text: &[u8]) -> Option<(u64, usize)>
    ensures count { IfSome result (λ p. p.1 ≡ prefix_len is_ascii_digit text.now) }
    ensures value { IfSome result (λ p. p.0 ≡ digits_value 10 (take p.1 text.now)) }
    ensures bound { IfSome result (λ p. p.1 ≤ length text.now) }
    ensures many { result ≡ None → 19 < prefix_len is_ascii_digit text.now }
{
    let mut n = 0u64;
    let mut at = 0;
    'digits: while at < text.len() && text[at].is_ascii_digit() {
        if at == MOST_DIGITS {
            return None;
        }
        n = n * 10 + (text[at] - b'0') as u64;
        at += 1;
    }
    Some((n, at))
}

/// The number that the first digits write, without zeros in front, 0 to 2^63 - 1, and what stands behind them.
#[inline(always)]
fn whole_at(text: &[u8]) -> Option<(u64, &[u8])>
    ensures { option_map (λ p. (p.0, p.1.now)) result ≡ code.whole_at text.now }
{
    let (n, end) = digits_of(text)?;
    if end == 0 || n >= 1 << 63 {
        return None;
    }
    if end > 1 && text[0] == b'0' {
        return None;
    }
    Some((n, &text[end..]))
}

/// A name that must stand behind a front.
#[inline(always)]
pub(crate) fn name_behind<'a>(front: &[u8], line: &'a [u8]) -> Option<(Name<'a>, &'a [u8])>
    ensures { option_map (λ p. (p.0, p.1.now)) result ≡ code.needed_at code.name_at front.now line.now }
{
    name_at(behind(front, line)?)
}

/// A name that may stand behind a front.
#[inline(always)]
pub(crate) fn maybe_name_behind<'a>(
    front: &[u8],
    line: &'a [u8],
) -> Option<(Option<Name<'a>>, &'a [u8])>
    ensures { option_map (λ p. (p.0, p.1.now)) result ≡ code.maybe_at code.name_at front.now line.now }
{
    let Some(rest) = behind(front, line) else {
        return Some((None, line));
    };
    let (name, rest) = name_at(rest)?;
    Some((Some(name), rest))
}

/// A number that must stand behind a front.
#[inline(always)]
pub(crate) fn whole_behind<'a>(front: &[u8], line: &'a [u8]) -> Option<(u64, &'a [u8])>
    ensures { option_map (λ p. (p.0, p.1.now)) result ≡ code.needed_at code.whole_at front.now line.now }
{
    whole_at(behind(front, line)?)
}

/// A number that may stand behind a front.
#[inline(always)]
pub(crate) fn maybe_whole_behind<'a>(
    front: &[u8],
    line: &'a [u8],
) -> Option<(Option<u64>, &'a [u8])>
    ensures { option_map (λ p. (p.0, p.1.now)) result ≡ code.maybe_at code.whole_at front.now line.now }
{
    let Some(rest) = behind(front, line) else {
        return Some((None, line));
    };
    let (n, rest) = whole_at(rest)?;
    Some((Some(n), rest))
}

/// Whether nothing but the brace that ends a line is left.
#[inline(always)]
pub(crate) fn is_end(line: &[u8]) -> bool
    ensures { result ≡ bytes_eq line.now (125 ∷ []) }
{
    line == b"}".as_slice()
}
