//! Tags: eight bytes that stand for a key in the links of a tree, so that most comparisons read no value.
//! They read values alone, and take no memory. An index's tag is that of the first part of its keys.
ghost use Rattle.std.specs.Prelude.{◌≡◌, slice_index};
ghost use Rattle.mi_order.specs.Tags as tags;
ghost use Rattle.mi_value.specs.Lent.{lent};

use mi_value::{ColumnType, KeyPart, Record, Value, ValueRef};

/// The tag of a whole number: its distance from the least.
fn int_tag(n: i64) -> u64
    ensures { result ≡ tags.int_tag n }
{
    if n < 0 {
        (n - i64::MIN) as u64
    } else {
        n as u64 + (1 << 63)
    }
}

/// A byte, or 0 past the last.
fn byte_at(bytes: &[u8], i: usize) -> u8
    ensures { result ≡ slice_index bytes.now i }
{
    match bytes.get(i) {
        None => 0,
        Some(byte) => *byte,
    }
}

/// The tag of a text: its first eight bytes as a number, filled with zeros.
fn text_tag(text: &str) -> u64
    ensures { result ≡ tags.prefix 8 text.now }
{
    let bytes = text.as_bytes();
    u64::from_be_bytes([
        byte_at(bytes, 0),
        byte_at(bytes, 1),
        byte_at(bytes, 2),
        byte_at(bytes, 3),
        byte_at(bytes, 4),
        byte_at(bytes, 5),
        byte_at(bytes, 6),
        byte_at(bytes, 7),
    ])
}

/// The tag of a value in a column of that type. One of another type is below or above all of the column.
pub(crate) fn value_tag(column: ColumnType, value: ValueRef<'_>) -> u64
    ensures { result ≡ tags.value_tag column (Some (lent value.entry)) }
{
    match (column, value) {
        (ColumnType::Int, ValueRef::Int(n)) => int_tag(n),
        (ColumnType::Int, _) => u64::MAX,
        (ColumnType::Text, ValueRef::Int(_)) => 0,
        (ColumnType::Text, ValueRef::Text(text)) => text_tag(text),
        (ColumnType::Text, ValueRef::Flag(_)) => u64::MAX,
        (ColumnType::Flag, ValueRef::Flag(false)) => 1,
        (ColumnType::Flag, ValueRef::Flag(true)) => 2,
        (ColumnType::Flag, _) => 0,
    }
}

/// A descending part turns its tags round.
pub(crate) fn directed_tag(descending: bool, tag: u64) -> u64
    ensures { result ≡ tags.directed_tag descending tag }
{
    if descending { u64::MAX - tag } else { tag }
}

/// The tag of a record's key by its first part, over a column of that type. Of two records, the one with the
/// smaller tag is less by every key that begins with this part.
pub fn part_tag(column: ColumnType, part: &KeyPart, row: &Record) -> u64
    ensures { result ≡ tags.part_tag column part.now row.now }
{
    match row.get(part.column) {
        None => directed_tag(part.descending, 0),
        Some(value) => directed_tag(part.descending, value_tag(column, value)),
    }
}

/// The tag of a key that begins with this value: records of a smaller tag are before it, those of a greater one
/// behind it.
pub fn probe_tag(column: ColumnType, part: &KeyPart, value: &Value) -> u64
    ensures { result ≡ tags.probe_tag column part.now value.now }
{
    directed_tag(part.descending, value_tag(column, value.lend()))
}

/// Whether all values that have this tag by that part are equal: whole numbers but the least and the greatest, and
/// flags.
pub fn is_exact(column: ColumnType, part: &KeyPart, tag: u64) -> bool
    ensures { result ≡ tags.is_exact column part.now tag }
{
    let tag = directed_tag(part.descending, tag);
    match column {
        ColumnType::Int => 0 < tag && tag < u64::MAX,
        ColumnType::Text => false,
        ColumnType::Flag => 0 < tag,
    }
}
