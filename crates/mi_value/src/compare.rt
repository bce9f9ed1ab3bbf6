//! The order of values and keys. It reads records and takes no memory.
ghost use Rattle.std.specs.Prelude.{◌≡◌, option_map};
ghost use Rattle.std.specs.Ordering.{is_eq};
ghost use Rattle.mi_value.specs.Lent.{lent};
ghost use Rattle.mi_value.specs.Order as order;

use crate::record::Record;
use crate::value::{Value, ValueRef};
use std::cmp::Ordering;

/// One part of an index's key: a column by its number, and whether it descends.
#[derive(Clone, Copy, Debug, PartialEq, Eq)]
pub struct KeyPart {
    pub column: usize,
    pub descending: bool,
}

/// Two values: numbers by value, texts by their bytes, false before true; of two types Int, then Text, then Flag.
fn compare_value(a: ValueRef<'_>, b: ValueRef<'_>) -> Ordering
    ensures { result ≡ order.compare_value (lent a.entry) (lent b.entry) }
{
    match (a, b) {
        (ValueRef::Int(x), ValueRef::Int(y)) => x.cmp(&y),
        (ValueRef::Int(_), _) => Ordering::Less,
        (ValueRef::Text(_), ValueRef::Int(_)) => Ordering::Greater,
        (ValueRef::Text(x), ValueRef::Text(y)) => x.cmp(y),
        (ValueRef::Text(_), ValueRef::Flag(_)) => Ordering::Less,
        (ValueRef::Flag(x), ValueRef::Flag(y)) => x.cmp(&y),
        (ValueRef::Flag(_), _) => Ordering::Greater,
    }
}

/// Two values that may be missing; a missing one is less than any other.
fn compare_missing(a: Option<ValueRef<'_>>, b: Option<ValueRef<'_>>) -> Ordering
    ensures { result ≡ order.compare_missing (option_map lent a.entry) (option_map lent b.entry) }
{
    match (a, b) {
        (None, None) => Ordering::Equal,
        (None, Some(_)) => Ordering::Less,
        (Some(_), None) => Ordering::Greater,
        (Some(x), Some(y)) => compare_value(x, y),
    }
}

/// A descending part turns its comparison round.
fn directed(descending: bool, o: Ordering) -> Ordering
    ensures { result ≡ order.directed descending o }
{
    if descending { o.reverse() } else { o }
}

/// Two records by one part of a key.
fn compare_part(a: &Record, b: &Record, part: &KeyPart) -> Ordering
    ensures { result ≡ order.compare_part part.now a.now b.now }
{
    directed(
        part.descending,
        compare_missing(a.get(part.column), b.get(part.column)),
    )
}

/// A value against a record, by one part of a key.
fn compare_to_part(value: &Value, row: &Record, part: &KeyPart) -> Ordering
    ensures { result ≡ order.compare_to_part part.now value.now row.now }
{
    directed(
        part.descending,
        compare_missing(Some(value.lend()), row.get(part.column)),
    )
}

/// The values of a key, or the first of them, against a record, on the key's own length: all records whose key begins with
/// these values are equal to them. A value past the last part is greater than what is missing there.
pub fn compare_prefix(key: &[Value], row: &Record, parts: &[KeyPart]) -> Ordering
    ensures { result ≡ order.compare_prefix parts.now key.now row.now }
{
    for (i, value) in key.iter().enumerate() {
        let Some(part) = parts.get(i) else {
            return Ordering::Greater;
        };
        match compare_to_part(value, row, part) {
            Ordering::Equal => {}
            o => return o,
        }
    }
    Ordering::Equal
}

/// Two records by the parts of a key.
pub fn compare_key(a: &Record, b: &Record, parts: &[KeyPart]) -> Ordering
    ensures { result ≡ order.compare_key parts.now a.now b.now }
{
    for part in parts {
        match compare_part(a, b, part) {
            Ordering::Equal => {}
            o => return o,
        }
    }
    Ordering::Equal
}

/// Whether two records have one key.
pub fn same_key(a: &Record, b: &Record, parts: &[KeyPart]) -> bool
    ensures { result ≡ is_eq (order.compare_key parts.now a.now b.now) }
{
    compare_key(a, b, parts).is_eq()
}
