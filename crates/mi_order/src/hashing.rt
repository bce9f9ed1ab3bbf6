//! Hashes of keys under a secret, which counts from the first step on. A key is a list of words of eight bytes. Each is
//! folded into a number that begins as the secret, by a factor that the secret chooses. So which keys have one hash can't be
//! told without the secret. It reads values and records, and takes no memory.
ghost use Rattle.std.specs.Prelude.{◌≡◌, fold, map, slice_get};
ghost use Rattle.std.specs.Int.{w64, from_le_bytes};
ghost use Rattle.mi_value.specs.Hash.{key_values};
ghost use Rattle.mi_value.specs.Lent.{lent};
ghost use Rattle.mi_order.specs.Hashing as hashing;

use mi_value::{KeyPart, Record, Value, ValueRef};

/// An odd number without a pattern: 2^64 over the golden ratio.
const GOLDEN: u64 = 0x9E37_79B9_7F4A_7C15;

/// Both halves of the product with a factor, one over the other: each bit depends on bits above and below it.
fn folded(factor: u64, n: u64) -> u64
    ensures { result ≡ hashing.folded factor n }
{
    let product = n as u128 * factor as u128;
    (product % (1 << 64)) as u64 ^ (product >> 64) as u64
}

/// The odd factor that a secret chooses.
fn factor_of(secret: u64) -> u64
    ensures { result ≡ hashing.factor_of secret }
{
    folded(GOLDEN, secret ^ GOLDEN) | 1
}

/// The state behind a word.
fn after_word(factor: u64, state: u64, word: u64) -> u64
    ensures { result ≡ hashing.after_word factor state word }
{
    folded(factor, state ^ word)
}

/// A few bytes, at most eight, as a number.
fn number_of(bytes: &[u8]) -> u64
    ensures { result ≡ hashing.number_of bytes.now }
{
    bytes.iter().fold(
        0u64,
        |n, byte| n.wrapping_mul(256).wrapping_add(*byte as u64),
    )
}

/// The state behind words of eight bytes.
fn after_eights(factor: u64, state: u64, eights: &[[u8; 8]]) -> u64
    ensures { result ≡ fold (hashing.after_word factor) state (map (from_le_bytes w64) eights.now) }
{
    eights.iter().fold(
        state,
        |state, eight| after_word(factor, state, u64::from_le_bytes(*eight)),
    )
}

/// The state behind the words of a text: its length, its bytes eight by eight, and those that are left.
fn after_text(factor: u64, state: u64, bytes: &[u8]) -> u64
    ensures { result ≡ fold (hashing.after_word factor) state (hashing.text_words bytes.now) }
{
    let (eights, rest) = bytes.as_chunks::<8>();
    let begun = after_word(factor, state, bytes.len() as u64);
    let behind = after_eights(factor, begun, eights);
    after_word(factor, behind, number_of(rest))
}

/// The state behind the words of a value.
fn after_value(factor: u64, state: u64, value: ValueRef<'_>) -> u64
    ensures { result ≡ hashing.after_value factor state (lent value.entry) }
{
    match value {
        ValueRef::Int(n) => after_word(factor, state, n.cast_unsigned()),
        ValueRef::Text(text) => after_text(factor, state, text.as_bytes()),
        ValueRef::Flag(flag) => after_word(factor, state, flag as u64),
    }
}

/// The state behind a record's value in a column, if it has one.
fn after_column(factor: u64, state: u64, row: &Record, column: usize) -> u64
    ensures { result ≡ hashing.after_if factor state (slice_get row.now column) }
{
    match row.get(column) {
        None => state,
        Some(value) => after_value(factor, state, value),
    }
}

/// The state behind the words of values.
fn after_values(factor: u64, state: u64, values: &[Value]) -> u64
    ensures { result ≡ fold (hashing.after_value factor) state values.now }
{
    values.iter().fold(
        state,
        |state, value| after_value(factor, state, value.lend()),
    )
}

/// The state behind the words of a record's values at these parts, missing ones left out.
fn after_parts(factor: u64, state: u64, parts: &[KeyPart], row: &Record) -> u64
    ensures { result ≡ fold (λ s p. hashing.after_if factor s (slice_get row.now p.column)) state parts.now }
{
    parts.iter().fold(
        state,
        |state, part| after_column(factor, state, row, part.column),
    )
}

/// The hash of a list of values under a secret.
pub fn hash_values(secret: u64, values: &[Value]) -> u64
    ensures { result ≡ hashing.values_hash secret values.now }
{
    let factor = factor_of(secret);
    let state = after_values(factor, secret, values);
    folded(factor, state ^ secret)
}

/// The hash under a secret of a record's key at these parts: that of the list of its values there, missing ones left out.
/// Equal keys have equal hashes.
pub(crate) fn hash_key(secret: u64, parts: &[KeyPart], row: &Record) -> u64
    ensures { result ≡ hashing.values_hash secret (key_values parts.now row.now) }
{
    let factor = factor_of(secret);
    let state = after_parts(factor, secret, parts, row);
    folded(factor, state ^ secret)
}
