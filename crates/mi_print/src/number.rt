//! Whole numbers in decimal, four digits at a time: each digit is stored once, where it belongs. It knows no JSON.
ghost use Rattle.std.specs.Prelude.{◌≡◌, ◌+◌, ◌/◌, ◌%◌, ◌<◌, ◌≤◌, [], ◌∷◌, ◌++◌, length};
ghost use Rattle.std.specs.Fmt.{decimal, signed_decimal};
ghost use Rattle.json.specs.Filled.{Placed};

use crate::place::{put_byte, put_first};

/// The numbers below 100, two digits each.
static PAIRS: [u8; 200] =
    *b"00010203040506070809101112131415161718192021222324252627282930313233343536373839404142434445464748495051525354555657585960616263646566676869707172737475767778798081828384858687888990919293949596979899";

/// Puts the two digits of a number below 100.
#[inline(always)]
fn put_pair(buf: &mut [u8], at: usize, n: u64) -> usize
    requires { (n < 100) × (at + 2 ≤ length buf.old) }
    ensures { Placed buf.old buf.new at ((48 + n / 10) ∷ (48 + n % 10) ∷ []) result }
{
    put_first::<2>(buf, at, &PAIRS[n as usize * 2..])
}

/// Puts a number below 100.
#[inline(always)]
fn put_small(buf: &mut [u8], at: usize, n: u64) -> usize
    requires { (n < 100) × (at + 2 ≤ length buf.old) }
    ensures value { Placed buf.old buf.new at (decimal n) result }
    ensures bound { result ≤ at + 2 }
{
    if n < 10 {
        put_byte(buf, at, b'0' + n as u8)
    } else {
        put_pair(buf, at, n)
    }
}

/// The hundreds of a number below 10,000, without a division.
#[inline(always)]
fn hundreds(n: u64) -> u64
    requires { n < 10000 }
    ensures { result ≡ n / 100 }
{
    n * 5243 / 524288
}

/// Puts a number below 10,000.
#[inline(always)]
fn put_short(buf: &mut [u8], at: usize, n: u64) -> usize
    requires { (n < 10000) × (at + 4 ≤ length buf.old) }
    ensures value { Placed buf.old buf.new at (decimal n) result }
    ensures bound { result ≤ at + 4 }
{
    if n < 100 {
        return put_small(buf, at, n);
    }
    let high = hundreds(n);
    let low = n - 100 * high;
    if n < 1000 {
        let end = put_byte(buf, at, b'0' + high as u8);
        return put_pair(buf, end, low);
    }
    let end = put_pair(buf, at, high);
    put_pair(buf, end, low)
}

/// Puts the four digits of a number below 10,000.
#[inline(always)]
fn put_four(buf: &mut [u8], at: usize, n: u64) -> usize
    requires { (n < 10000) × (at + 4 ≤ length buf.old) }
    ensures { Placed buf.old buf.new at
        (((48 + n / 100 / 10) ∷ (48 + n / 100 % 10) ∷ []) ++ ((48 + n % 100 / 10) ∷ (48 + n % 100 % 10) ∷ [])) result }
{
    let high = hundreds(n);
    let end = put_pair(buf, at, high);
    put_pair(buf, end, n - 100 * high)
}

/// Puts a number of five digits or more: its last four behind those before them.
#[inline(never)]
fn put_large(buf: &mut [u8], at: usize, n: u64) -> usize
    requires { (10000 ≤ n) × (at + 20 ≤ length buf.old) }
    ensures value { Placed buf.old buf.new at (decimal n) result }
    ensures bound { result ≤ at + 20 }
{
    let high = n / 10_000;
    if high < 10_000 {
        let begun = put_short(buf, at, high);
        return put_four(buf, begun, n % 10_000);
    }
    let begun = put_large(buf, at, high);
    put_four(buf, begun, n % 10_000)
}

/// Puts a number.
#[inline(always)]
pub fn put_u64(buf: &mut [u8], at: usize, n: u64) -> usize
    requires { at + 20 ≤ length buf.old }
    ensures value { Placed buf.old buf.new at (decimal n) result }
    ensures bound { result ≤ at + 20 }
{
    if n < 10_000 {
        put_short(buf, at, n)
    } else {
        put_large(buf, at, n)
    }
}

/// Puts a number with its sign. The sign is always stored, and counts only where the number has one.
#[cold]
#[inline(never)]
fn put_signed(buf: &mut [u8], at: usize, n: i64) -> usize
    requires { at + 21 ≤ length buf.old }
    ensures value { Placed buf.old buf.new at (signed_decimal n) result }
    ensures bound { result ≤ at + 21 }
{
    buf[at] = b'-';
    let first = if n < 0 { at + 1 } else { at };
    put_u64(buf, first, n.unsigned_abs())
}

/// Puts a number with its sign.
#[inline(always)]
pub fn put_i64(buf: &mut [u8], at: usize, n: i64) -> usize
    requires { at + 21 ≤ length buf.old }
    ensures value { Placed buf.old buf.new at (signed_decimal n) result }
    ensures bound { result ≤ at + 21 }
{
    if n >= 0 && n < 10_000 {
        put_short(buf, at, n as u64)
    } else if n >= 0 {
        put_large(buf, at, n as u64)
    } else {
        put_signed(buf, at, n)
    }
}
