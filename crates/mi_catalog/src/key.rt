//! How rows and keys compare by the parts of an index, which goes by the id where it has none. It reads rows and takes no memory.
ghost use Rattle.std.specs.Prelude.{◌≡◌, pos, [], ◌∷◌};
ghost use Rattle.mi_value.specs.declared.value.Value.TheVariants.{Int};
ghost use Rattle.mi_value.specs.Order.{compare_value, compare_prefix as compare_prefix_to};
ghost use Rattle.mi_catalog.specs.Key as meaning;

use mi_value::{KeyPart, Record, Value, compare_key, compare_prefix};
use std::cmp::Ordering;

/// A value against an id.
fn compare_to_id(value: &Value, id: u64) -> Ordering
    ensures { result ≡ compare_value value.now (Int (pos id)) }
{
    match value {
        Value::Int(n) if *n < 0 => Ordering::Less,
        Value::Int(n) => (*n as u64).cmp(&id),
        Value::Text(_) | Value::Flag(_) => Ordering::Greater,
    }
}

/// A key of these values against an id.
fn compare_values(first: &Value, rest: &[Value], id: u64) -> Ordering
    ensures { result ≡ compare_prefix_to meaning.id_part (first.now ∷ rest.now) (Int (pos id) ∷ []) }
{
    let o = compare_to_id(first, id);
    if rest.is_empty() {
        o
    } else {
        o.then(Ordering::Greater)
    }
}

/// A key against an id; one without values is equal to every id.
fn compare_id_key(key: &[Value], id: u64) -> Ordering
    ensures { result ≡ compare_prefix_to meaning.id_part key.now (Int (pos id) ∷ []) }
{
    match key.split_first() {
        None => Ordering::Equal,
        Some((first, rest)) => compare_values(first, rest, id),
    }
}

/// A key, or the first values of one, against the key of the row with this id and record, by an index with these parts. As many
/// values count as the key has, so one without values is equal to every row. An index without parts goes by the id, which a
/// value is compared with as a whole number; further values make a key greater.
pub fn compare_to_row(parts: &[KeyPart], key: &[Value], id: u64, row: &Record) -> Ordering
    ensures { result ≡ meaning.compare_to_row parts.now key.now (id, row.now) }
{
    if parts.is_empty() {
        compare_id_key(key, id)
    } else {
        compare_prefix(key, row, parts)
    }
}

/// The keys of two rows, each an id and a record, by an index with these parts; by the ids where it has none.
pub fn compare_rows(parts: &[KeyPart], a: u64, row: &Record, b: u64, other: &Record) -> Ordering
    ensures { result ≡ meaning.compare_rows parts.now (a, row.now) (b, other.now) }
{
    if parts.is_empty() {
        a.cmp(&b)
    } else {
        compare_key(row, other, parts)
    }
}
