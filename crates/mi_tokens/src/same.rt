//! Whether two texts are the same: a short one's first bytes and its last as two numbers that lie over each other, so that no call and no loop
//! compares them. It knows no JSON.
ghost use Rattle.std.specs.Prelude.{◌≡◌, ◌+◌, ◌≤◌, length, take, drop};
ghost use Rattle.std.specs.Bool.{Decides};
ghost use Rattle.std.specs.Int.{w32, w64, from_le_bytes, to_le_bytes};

/// The number of eight bytes.
#[inline(always)]
fn number_of_8(bytes: [u8; 8]) -> u64
    ensures value { result ≡ from_le_bytes w64 bytes }
    ensures bytes { to_le_bytes w64 result ≡ bytes }
{
    u64::from_le_bytes(bytes)
}

/// The number of eight bytes of a text.
#[inline(always)]
fn number_8(text: &[u8], at: usize) -> u64
    requires { at + 8 ≤ length text.now }
    ensures value { result ≡ from_le_bytes w64 (take 8 (drop at text.now)) }
    ensures bytes { to_le_bytes w64 result ≡ take 8 (drop at text.now) }
{
    let Some(bytes) = text[at..].first_chunk::<8>() else {
        unreachable!();
    };
    number_of_8(*bytes)
}

/// The number of four bytes.
#[inline(always)]
fn number_of_4(bytes: [u8; 4]) -> u32
    ensures value { result ≡ from_le_bytes w32 bytes }
    ensures bytes { to_le_bytes w32 result ≡ bytes }
{
    u32::from_le_bytes(bytes)
}

/// The number of four bytes of a text.
#[inline(always)]
fn number_4(text: &[u8], at: usize) -> u32
    requires { at + 4 ≤ length text.now }
    ensures value { result ≡ from_le_bytes w32 (take 4 (drop at text.now)) }
    ensures bytes { to_le_bytes w32 result ≡ take 4 (drop at text.now) }
{
    let Some(bytes) = text[at..].first_chunk::<4>() else {
        unreachable!();
    };
    number_of_4(*bytes)
}

/// Whether two texts of eight to sixteen bytes are the same.
#[inline(always)]
fn same_by_8(a: &[u8], b: &[u8]) -> bool
    requires len { length a.now ≡ length b.now }
    requires covers { (8 ≤ length a.now) × (length a.now ≤ 16) }
    ensures { Decides result (a.now ≡ b.now) }
{
    let last = a.len() - 8;
    number_8(a, 0) == number_8(b, 0) && number_8(a, last) == number_8(b, last)
}

/// Whether two texts of four to eight bytes are the same.
#[inline(always)]
fn same_by_4(a: &[u8], b: &[u8]) -> bool
    requires len { length a.now ≡ length b.now }
    requires covers { (4 ≤ length a.now) × (length a.now ≤ 8) }
    ensures { Decides result (a.now ≡ b.now) }
{
    let last = a.len() - 4;
    number_4(a, 0) == number_4(b, 0) && number_4(a, last) == number_4(b, last)
}

/// Whether two texts of one length are the same.
#[inline(always)]
pub fn are_same(a: &[u8], b: &[u8]) -> bool
    requires { length a.now ≡ length b.now }
    ensures { Decides result (a.now ≡ b.now) }
{
    let len = a.len();
    if len > 16 {
        a == b
    } else if len >= 8 {
        same_by_8(a, b)
    } else if len >= 4 {
        same_by_4(a, b)
    } else {
        a == b
    }
}
