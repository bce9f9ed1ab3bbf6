//! Keys: from a JSON array to the values of a key of an index, and from the ends of a range to its bounds.
ghost use Rattle.std.specs.Prelude.{◌≡◌, ◌<◌, length, option_map};
ghost use Rattle.std.specs.Option.{ok_or};
ghost use Rattle.mi_request.specs.Answers.{IsAnswer};
ghost use Rattle.mi_tokens.specs.Meaning.{meaning};
ghost use Rattle.mi_value.specs.Lent.{lent};
ghost use Rattle.mi_protocol.specs.Binding.{bound_ends};
ghost use Rattle.mi_protocol.specs.Keys as keys;
ghost use Rattle.mi_protocol.specs.Keys.{plain_values, bound_key, bound_lower, bound_upper};

use mi_catalog::Schema;
use mi_request::{Array, Bound, Json};
use mi_value::{Key, Lower, Refusal, Upper, Value, ValueRef};
use std::alloc::Global;

/// The value that a JSON value is, lent by the line: a whole number, a text, or true or false.
fn plain<'a>(value: &Json<'a>) -> Option<ValueRef<'a>>
    ensures { option_map lent result ≡ keys.plain_value (meaning value.now) }
{
    if let Some(text) = value.as_str() {
        return Some(ValueRef::Text(text));
    }
    if let Some(n) = value.as_i64() {
        return Some(ValueRef::Int(n));
    }
    Some(ValueRef::Flag(value.as_bool()?))
}

/// The value that a JSON value is. A text is copied. Refusals: `Key` and `Memory`.
fn plain_value(alloc: Global, value: &Json<'_>) -> Result<Value, Refusal>
    ensures { IsAnswer result (ok_or (keys.plain_value (meaning value.now)) Refusal.Key) }
{
    let value = plain(value).ok_or(Refusal::Key)?;
    Ok(value.to_value(alloc)?)
}

/// The key of the values that the items of an array are; that of a single one takes no vector. Refusals: `Key` and `Memory`.
fn key_of(alloc: Global, key: Array) -> Result<Key, Refusal>
    ensures { IsAnswer result (ok_or (plain_values key.entry) Refusal.Key) }
{
    let items = key.items();
    if items.len() == 1 {
        return Ok(Key::one(plain_value(alloc, &items[0])?));
    }
    let mut values = Vec::with_capacity(alloc, items.len())?;
    'items: for item in items {
        values.push(plain_value(alloc, item)?)?;
    }
    Ok(Key::new(values))
}

/// The key of index i that the items of an array are; where it needn't be whole, the first values of one will do. Refusals:
/// `Key` and `Memory`.
pub(crate) fn bind_key(
    alloc: Global,
    key: Array,
    schema: &Schema,
    i: usize,
    whole: bool,
) -> Result<Key, Refusal>
    requires { i < length schema.now.indexes }
    ensures { IsAnswer result (ok_or (bound_key schema.now i whole key.entry) Refusal.Key) }
{
    let key = key_of(alloc, key)?;
    if schema.fits_key(i, key.values(), whole) {
        Ok(key)
    } else {
        Err(Refusal::Key)
    }
}

/// The lower bound of a range in index i. Refusals: `Key` and `Memory`.
fn bind_lower(alloc: Global, end: Bound, schema: &Schema, i: usize) -> Result<Lower, Refusal>
    requires { i < length schema.now.indexes }
    ensures { IsAnswer result (ok_or (bound_lower schema.now i end.entry) Refusal.Key) }
{
    match end {
        Bound::Unbounded => Ok(Lower::All),
        Bound::Included(key) => Ok(Lower::From(bind_key(alloc, key, schema, i, false)?)),
        Bound::Excluded(key) => Ok(Lower::Beyond(bind_key(alloc, key, schema, i, false)?)),
    }
}

/// The upper bound of a range in index i. Refusals: `Key` and `Memory`.
fn bind_upper(alloc: Global, end: Bound, schema: &Schema, i: usize) -> Result<Upper, Refusal>
    requires { i < length schema.now.indexes }
    ensures { IsAnswer result (ok_or (bound_upper schema.now i end.entry) Refusal.Key) }
{
    match end {
        Bound::Unbounded => Ok(Upper::All),
        Bound::Included(key) => Ok(Upper::UpTo(bind_key(alloc, key, schema, i, false)?)),
        Bound::Excluded(key) => Ok(Upper::Below(bind_key(alloc, key, schema, i, false)?)),
    }
}

/// The bounds of a range in index i, the lower one first. Refusals: `Key` and `Memory`.
pub(crate) fn bind_bounds(
    alloc: Global,
    i: usize,
    lower: Bound,
    upper: Bound,
    schema: &Schema,
) -> Result<(Lower, Upper), Refusal>
    requires { i < length schema.now.indexes }
    ensures { IsAnswer result (bound_ends schema.now i lower.entry upper.entry) }
{
    let lower = bind_lower(alloc, lower, schema, i)?;
    let upper = bind_upper(alloc, upper, schema, i)?;
    Ok((lower, upper))
}
