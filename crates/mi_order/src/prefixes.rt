//! Tags of keys of several parts. A flag says little: where a key's first part is a flag and it has a second, its tag is two
//! bits of the flag and 62 of the second part's tag. The tag of any other key is that of its first part.
ghost use Rattle.std.specs.Prelude.{◌≡◌, ◌<◌, option_map};
ghost use Rattle.mi_order.specs.Tags as tags;
ghost use Rattle.mi_order.specs.Prefixes as prefixes;
ghost use Rattle.mi_value.specs.Lent.{lent};

use crate::tags::{directed_tag, is_exact, part_tag, probe_tag, value_tag};
use mi_value::{ColumnType, KeyPart, Record, Value, ValueRef};

/// How many tags 62 bits tell apart.
const SHORTS: u64 = 1 << 62;

/// The tag of the least whole number that 62 bits tell from those below it: 2^61 below zero.
const LEAST: u64 = (1 << 63) - (1 << 61);

/// The types of the columns of the first two parts of an index's keys, by which its tags are made.
#[derive(Drop)]
pub struct PrefixTypes {
    pub first: ColumnType,
    pub second: ColumnType,
}

/// A tag of a column of that type in 62 bits: of two records, the one with the smaller one has the smaller tag.
fn short_tag(column: ColumnType, tag: u64) -> u64
    ensures tag { result ≡ prefixes.short_tag column tag }
    ensures short { result < prefixes.shorts }
{
    match column {
        ColumnType::Int => tag.saturating_sub(LEAST).min(SHORTS - 1),
        ColumnType::Text | ColumnType::Flag => tag / 4,
    }
}

/// The number of a flag in its part: 1 or 2.
fn flag_rank(descending: bool, flag: bool) -> u64
    ensures { result ≡ prefixes.flag_rank descending flag }
{
    if descending == flag { 1 } else { 2 }
}

/// The tag of a value in a column of that type, or of a missing one.
fn column_tag(column: ColumnType, value: Option<ValueRef<'_>>) -> u64
    ensures { result ≡ tags.value_tag column (option_map lent value.entry) }
{
    match value {
        None => 0,
        Some(value) => value_tag(column, value),
    }
}

/// The tag of a part in a column of flags, with what follows in 62 bits, which counts behind a flag alone.
fn pair_tag(descending: bool, value: Option<ValueRef<'_>>, rest: u64) -> u64
    requires { rest < prefixes.shorts }
    ensures { result ≡ prefixes.pair_tag descending (option_map lent value.entry) rest }
{
    match value {
        Some(ValueRef::Flag(flag)) => flag_rank(descending, flag) * SHORTS + rest,
        _ => directed_tag(descending, 0),
    }
}

/// The tag of the values of two parts. In line, so that the values aren't laid down for it.
#[inline(always)]
fn two_tag(
    types: &PrefixTypes,
    part: &KeyPart,
    next: &KeyPart,
    value: Option<ValueRef<'_>>,
    following: Option<ValueRef<'_>>,
) -> u64
    ensures { result ≡ prefixes.two_tag types.now.first types.now.second part.now next.now (option_map lent value.entry) (option_map lent following.entry) }
{
    match types.first {
        ColumnType::Flag => {
            let tag = directed_tag(next.descending, column_tag(types.second, following));
            pair_tag(part.descending, value, short_tag(types.second, tag))
        }
        first => directed_tag(part.descending, column_tag(first, value)),
    }
}

/// The tag of a record's key by a part and those behind it. Of two records, the one with the smaller tag is less.
pub fn prefix_tag(types: &PrefixTypes, part: &KeyPart, rest: &[KeyPart], row: &Record) -> u64
    ensures { result ≡ prefixes.prefix_tag types.now part.now rest.now row.now }
{
    match rest {
        [] => part_tag(types.first, part, row),
        [next, ..] => two_tag(
            types,
            part,
            next,
            row.get(part.column),
            row.get(next.column),
        ),
    }
}

/// The tag of a key of one value, where the index has more parts. A flag alone has none.
fn first_probe(column: ColumnType, part: &KeyPart, value: &Value) -> Option<u64>
    ensures { result ≡ prefixes.first_probe column part.now value.now }
{
    match column {
        ColumnType::Flag => None,
        _ => Some(probe_tag(column, part, value)),
    }
}

/// The tag of a sought key: this value and those behind it. Records of a smaller tag are before it, those of a greater one
/// behind it.
pub fn prefix_probe(
    types: &PrefixTypes,
    part: &KeyPart,
    rest: &[KeyPart],
    value: &Value,
    more: &[Value],
) -> Option<u64>
    ensures { result ≡ prefixes.prefix_probe types.now part.now rest.now value.now more.now }
{
    match (rest, more) {
        ([], _) => Some(probe_tag(types.first, part, value)),
        ([_, ..], []) => first_probe(types.first, part, value),
        ([next, ..], [following, ..]) => {
            Some(two_tag(
                types,
                part,
                next,
                Some(value.lend()),
                Some(following.lend()),
            ))
        }
    }
}

/// Whether a tag is of a flag and a whole number that 62 bits tell from all others.
fn is_complete_pair(tag: u64) -> bool
    ensures { result ≡ prefixes.is_complete_pair tag }
{
    (SHORTS < tag && tag < 2 * SHORTS - 1) || (2 * SHORTS < tag && tag < 3 * SHORTS - 1)
}

/// Whether all keys that have this tag, by a part and those behind it, are equal.
pub fn is_complete_prefix(types: &PrefixTypes, part: &KeyPart, rest: &[KeyPart], tag: u64) -> bool
    ensures { result ≡ prefixes.is_complete_prefix types.now part.now rest.now tag }
{
    match (rest, types.first, types.second) {
        ([], first, _) => is_exact(first, part, tag),
        ([_], ColumnType::Flag, ColumnType::Int) => is_complete_pair(tag),
        _ => false,
    }
}
