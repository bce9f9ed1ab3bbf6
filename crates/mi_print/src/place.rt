//! Bytes at a place of a buffer. A short text is two copies of a fixed size that lie over each other, so that no call copies it. It
//! knows no JSON.
ghost use Rattle.std.specs.Prelude.{◌≡◌, ◌+◌, ◌<◌, ◌≤◌, [], ◌∷◌, length, take};
ghost use Rattle.json.specs.Filled.{Placed};
ghost use Rattle.serde_json.specs.Written.{comma_if};

use std::simd::Simd;

/// Puts a byte.
#[inline(always)]
pub fn put_byte(buf: &mut [u8], at: usize, byte: u8) -> usize
    requires { at < length buf.old }
    ensures { Placed buf.old buf.new at (byte ∷ []) result }
{
    buf[at] = byte;
    at + 1
}

/// Puts a comma where one is wanted. It is always stored, and else doesn't count.
#[inline(always)]
pub fn put_comma(buf: &mut [u8], at: usize, wanted: bool) -> usize
    requires { at < length buf.old }
    ensures { Placed buf.old buf.new at (comma_if wanted) result }
{
    buf[at] = b',';
    if wanted { at + 1 } else { at }
}

/// Puts the first bytes of an array, which is stored whole: those behind them don't count.
#[inline(always)]
pub(crate) fn put_front<const N: usize>(
    buf: &mut [u8],
    at: usize,
    src: &[u8; N],
    len: usize,
) -> usize
    requires fits { at + N ≤ length buf.old }
    requires within { len ≤ N }
    ensures { Placed buf.old buf.new at (take len src.now) result }
{
    buf[at..at + N].copy_from_slice(src);
    at + len
}

/// Puts the first N bytes of a text, as one load and one store.
#[inline(always)]
pub(crate) fn put_first<const N: usize>(buf: &mut [u8], at: usize, src: &[u8]) -> usize
    requires { (N ≤ length src.now) × (at + N ≤ length buf.old) }
    ensures { Placed buf.old buf.new at (take N src.now) result }
{
    Simd::<u8, N>::from_slice(src).copy_to_slice(&mut buf[at..]);
    at + N
}

/// Puts a text of N to 2 N bytes: the first N of them, and the last N.
#[inline(always)]
pub(crate) fn put_ends<const N: usize>(buf: &mut [u8], at: usize, src: &[u8]) -> usize
    requires fits { at + length src.now ≤ length buf.old }
    requires covers { (N ≤ length src.now) × (length src.now ≤ N + N) }
    ensures { Placed buf.old buf.new at src.now result }
{
    let end = at + src.len();
    put_first::<N>(buf, at, src);
    put_first::<N>(buf, end - N, &src[src.len() - N..])
}

/// Puts a text of 32 bytes or more, sixteen at a time.
fn put_long(buf: &mut [u8], at: usize, src: &[u8]) -> usize
    requires { (32 ≤ length src.now) × (at + length src.now ≤ length buf.old) }
    ensures { Placed buf.old buf.new at src.now result }
{
    let mut done = 0;
    'sixteens: while src.len() - done > 32 {
        put_first::<16>(buf, at + done, &src[done..]);
        done += 16;
    }
    put_ends::<16>(buf, at + done, &src[done..])
}

/// Puts a text.
#[inline(always)]
pub fn put_text(buf: &mut [u8], at: usize, src: &[u8]) -> usize
    requires { at + length src.now ≤ length buf.old }
    ensures { Placed buf.old buf.new at src.now result }
{
    let len = src.len();
    if len > 32 {
        put_long(buf, at, src)
    } else if len >= 16 {
        put_ends::<16>(buf, at, src)
    } else if len >= 8 {
        put_ends::<8>(buf, at, src)
    } else if len >= 4 {
        put_ends::<4>(buf, at, src)
    } else if len >= 2 {
        put_ends::<2>(buf, at, src)
    } else if len == 1 {
        put_first::<1>(buf, at, src)
    } else {
        at
    }
}

/// Puts a text by a call: where it is put seldom, it shall take no room among what is put often.
#[cold]
#[inline(never)]
fn put_seldom(buf: &mut [u8], at: usize, src: &[u8]) -> usize
    requires { at + length src.now ≤ length buf.old }
    ensures { Placed buf.old buf.new at src.now result }
{
    put_text(buf, at, src)
}

/// Puts the first bytes of an array. Where they are up to sixteen, sixteen are stored, and those behind them don't count.
#[inline(always)]
pub fn put_label<const N: usize>(buf: &mut [u8], at: usize, src: &[u8; N], len: usize) -> usize
    requires fits { at + N ≤ length buf.old }
    requires within { (16 ≤ N) × (len ≤ N) }
    ensures { Placed buf.old buf.new at (take len src.now) result }
{
    if len > 16 {
        return put_seldom(buf, at, &src[..len]);
    }
    put_first::<16>(buf, at, src);
    at + len
}
