//! What a sought key is to an index: the id that it names, and whether it is a whole key; and whether two records have one key. It
//! reads rows and takes no memory.
ghost use Rattle.std.specs.Prelude.{◌≡◌, option_map};
ghost use Rattle.std.specs.Ordering.{is_eq};
ghost use Rattle.mi_value.specs.Lent.{lent};
ghost use Rattle.mi_value.specs.Order as order;
ghost use Rattle.mi_order.specs.Orders.{is_whole};
ghost use Rattle.mi_order.specs.Orders as orders;

use mi_value::{KeyPart, Record, Value, ValueRef, compare_prefix, same_key};

/// The id that a value is, if it is one.
pub(crate) fn id_sought(value: &Value) -> Option<u64>
    ensures { result ≡ orders.id_sought value.now }
{
    match value {
        Value::Int(n) if *n >= 0 => Some(*n as u64),
        Value::Int(_) | Value::Text(_) | Value::Flag(_) => None,
    }
}

/// Whether a key, one value for each part, is that of a record.
pub(crate) fn is_whole_key(parts: &[KeyPart], key: &[Value], row: &Record) -> bool
    ensures { result ≡ is_whole parts.now key.now row.now }
{
    key.len() == parts.len() && compare_prefix(key, row, parts).is_eq()
}

/// Whether two values are equal: numbers by value, texts by their bytes. Values of two types aren't.
fn same_value(a: ValueRef<'_>, b: ValueRef<'_>) -> bool
    ensures { result ≡ is_eq (order.compare_value (lent a.entry) (lent b.entry)) }
{
    match (a, b) {
        (ValueRef::Int(x), ValueRef::Int(y)) => x.cmp(&y).is_eq(),
        (ValueRef::Int(_), _) => false,
        (ValueRef::Text(_), ValueRef::Int(_)) => false,
        (ValueRef::Text(x), ValueRef::Text(y)) => x.cmp(y).is_eq(),
        (ValueRef::Text(_), ValueRef::Flag(_)) => false,
        (ValueRef::Flag(x), ValueRef::Flag(y)) => x.cmp(&y).is_eq(),
        (ValueRef::Flag(_), _) => false,
    }
}

/// Whether two values that may be missing are equal.
fn same_missing(a: Option<ValueRef<'_>>, b: Option<ValueRef<'_>>) -> bool
    ensures { result ≡ is_eq (order.compare_missing (option_map lent a.entry) (option_map lent b.entry)) }
{
    match (a, b) {
        (None, None) => true,
        (None, Some(_)) => false,
        (Some(_), None) => false,
        (Some(x), Some(y)) => same_value(x, y),
    }
}

/// Whether two records have one value at a part.
fn same_part(a: &Record, b: &Record, part: &KeyPart) -> bool
    ensures { result ≡ is_eq (order.compare_part part.now a.now b.now) }
{
    let left = a.get(part.column);
    let right = b.get(part.column);
    same_missing(left, right)
}

/// Whether two records have one key. A key of one part needs no order.
pub(crate) fn has_same_key(a: &Record, b: &Record, parts: &[KeyPart]) -> bool
    ensures { result ≡ is_eq (order.compare_key parts.now a.now b.now) }
{
    match parts {
        [part] => same_part(a, b, part),
        _ => same_key(a, b, parts),
    }
}
