//! What a container shows beside what the plain database shows.
ghost use Rattle.test_container.specs.Undone.{CanTakeBack};

use super::asking::assert_number;
use super::change::Way;
use super::container::BY_ID;
use super::fitting::kind_at;
use super::reference::Reference;
use super::undoable::Undoable;
use mi_catalog::Schema;
use mi_container::Container;
use mi_value::{Record, Steps, Value};
use std::alloc::{AllocError, Global};
use std::process::Abort;
use std::test::Fail;

/// More rows than there are.
const ALL: usize = 1_000;

fn is_same(one: &Record, other: &Record) -> bool {
    one.column_count() == other.column_count()
        && one.values().zip(other.values()).all(|(a, b)| a == b)
}

/// The key that a record has in an index: that of `id` is its id.
fn key_of(
    alloc: Global,
    schema: &Schema,
    index: usize,
    id: u64,
    row: &Record,
) -> Result<Vec<Value>, AllocError> {
    let mut key = Vec::new(alloc);
    let Some(index) = schema.indexes().get(index) else {
        return Ok(key);
    };
    for part in index.parts.as_slice() {
        if let Some(value) = row.get(part.column) {
            key.push(value.to_value(alloc)?)?;
        }
    }
    if key.is_empty() {
        key.push(Value::Int(i64::try_from(id).unwrap_or(0)))?;
    }
    Ok(key)
}

/// Asserts that both answer the same record or number in an index, or none.
fn assert_id(rt: &impl Abort, got: Option<u64>, want: Option<u64>, index: usize) {
    assert_eq!(rt; got, want, "index {index}");
}

/// Asserts that a record is the same in both.
fn assert_record(rt: &impl Abort, id: u64, row: &Record, other: &Record) {
    assert!(rt; is_same(row, other), "record {id}: {row:?} and {other:?}");
}

/// Asserts that both answer the same record or number to a key, or none.
fn assert_found(rt: &impl Abort, got: Option<u64>, want: Option<u64>, key: &[Value]) {
    assert_eq!(rt; got, want, "{key:?}");
}

/// Who stands beside a record.
fn compare_neighbours<C: Container>(
    rt: &impl Abort,
    undoable: &Undoable<C>,
    reference: &Reference,
    index: usize,
    id: u64,
)
    requires { CanTakeBack undoable.now.schema (C.shape undoable.now.rows) (C.plain undoable.now.rows) undoable.now.inverses.items }
{
    assert_id(
        rt,
        undoable.after(rt, index, id),
        reference.after(rt, index, id),
        index,
    );
    assert_id(
        rt,
        undoable.before(rt, index, id),
        reference.before(rt, index, id),
        index,
    );
}

/// As many rows as there are, the same of both, and who stands beside each.
fn compare_rows<C: Container>(
    rt: &impl Abort,
    undoable: &Undoable<C>,
    reference: &Reference,
    index: usize,
    got: &[(u64, &Record)],
    want: &[(u64, &Record)],
)
    requires { CanTakeBack undoable.now.schema (C.shape undoable.now.rows) (C.plain undoable.now.rows) undoable.now.inverses.items }
{
    let count = Some(got.len() as u64);
    assert_id(rt, count, Some(undoable.rows.size()), index);
    assert_id(rt, count, Some(want.len() as u64), index);
    for ((id, row), (want, other)) in got.iter().zip(want.iter()) {
        assert_id(rt, Some(*id), Some(*want), index);
        assert_record(rt, *id, row, other);
        compare_neighbours(rt, undoable, reference, index, *id);
    }
}

/// The rows of a walk.
fn compare_walk<C: Container>(
    rt: &impl Abort,
    alloc: Global,
    undoable: &Undoable<C>,
    reference: &Reference,
    way: Way,
) -> Result<(), Fail>
    requires { CanTakeBack undoable.now.schema (C.shape undoable.now.rows) (C.plain undoable.now.rows) undoable.now.inverses.items }
{
    let got = undoable.walk(rt, alloc, way)?;
    let want = reference.walk(rt, alloc, way)?;
    compare_rows(
        rt,
        undoable,
        reference,
        way.index,
        got.as_slice(),
        want.as_slice(),
    );
    Ok(())
}

/// A walk of all rows of an index.
fn whole(index: usize, reverse: bool, first: u64) -> Way {
    Way {
        index,
        reverse,
        first,
        limit: ALL,
    }
}

/// The list that an index shows, from both ends.
fn compare_list<C: Container>(
    rt: &impl Abort,
    alloc: Global,
    undoable: &Undoable<C>,
    reference: &Reference,
    index: usize,
) -> Result<(), Fail>
    requires { CanTakeBack undoable.now.schema (C.shape undoable.now.rows) (C.plain undoable.now.rows) undoable.now.inverses.items }
{
    let first = undoable.first(rt, index);
    let last = undoable.last(rt, index);
    assert_id(rt, first, reference.first(rt, index), index);
    assert_id(rt, last, reference.last(rt, index), index);
    if let (Some(first), Some(last)) = (first, last) {
        compare_walk(rt, alloc, undoable, reference, whole(index, false, first))?;
        compare_walk(rt, alloc, undoable, reference, whole(index, true, last))?;
    }
    Ok(())
}

/// The bounds of a key, or of the first values of one.
fn compare_bounds<C: Container>(
    rt: &impl Abort,
    undoable: &Undoable<C>,
    reference: &Reference,
    index: usize,
    key: &[Value],
)
    requires { CanTakeBack undoable.now.schema (C.shape undoable.now.rows) (C.plain undoable.now.rows) undoable.now.inverses.items }
{
    let (lower, upper) = (
        undoable.lower(rt, index, key),
        undoable.upper(rt, index, key),
    );
    assert_found(rt, lower, reference.lower(rt, index, key), key);
    assert_found(rt, upper, reference.upper(rt, index, key), key);
}

/// Their ranks.
fn compare_bound_ranks<C: Container>(
    rt: &impl Abort,
    undoable: &Undoable<C>,
    reference: &Reference,
    index: usize,
    key: &[Value],
)
    requires { CanTakeBack undoable.now.schema (C.shape undoable.now.rows) (C.plain undoable.now.rows) undoable.now.inverses.items }
{
    let lower = undoable.lower_rank(rt, index, key);
    let upper = undoable.upper_rank(rt, index, key);
    let want_lower = reference.lower_rank(rt, index, key);
    let want_upper = reference.upper_rank(rt, index, key);
    assert_found(rt, Some(lower), Some(want_lower), key);
    assert_found(rt, Some(upper), Some(want_upper), key);
}

/// All that a sorted index shows of a key, or of the first values of one.
fn compare_prefix<C: Container>(
    rt: &impl Abort,
    undoable: &Undoable<C>,
    reference: &Reference,
    index: usize,
    key: &[Value],
)
    requires { CanTakeBack undoable.now.schema (C.shape undoable.now.rows) (C.plain undoable.now.rows) undoable.now.inverses.items }
{
    compare_bounds(rt, undoable, reference, index, key);
    compare_bound_ranks(rt, undoable, reference, index, key);
}

/// The ids of a key in a hashed index.
fn compare_bucket<C: Container>(
    rt: &impl Abort,
    undoable: &Undoable<C>,
    reference: &Reference,
    index: usize,
    key: &[Value],
)
    requires { CanTakeBack undoable.now.schema (C.shape undoable.now.rows) (C.plain undoable.now.rows) undoable.now.inverses.items }
{
    let mut next = undoable.first_of(rt, index, key);
    assert_found(rt, next, reference.first_of(rt, index, key), key);
    for _ in 0..ALL {
        let Some(id) = next else {
            break;
        };
        next = undoable.next_of(rt, index, id);
        assert_found(rt, next, reference.next_of(rt, index, id), key);
    }
}

/// All that an index shows of a key.
fn compare_key<C: Container>(
    rt: &impl Abort,
    undoable: &Undoable<C>,
    reference: &Reference,
    index: usize,
    key: &[Value],
)
    requires { CanTakeBack undoable.now.schema (C.shape undoable.now.rows) (C.plain undoable.now.rows) undoable.now.inverses.items }
{
    assert_found(
        rt,
        undoable.find(rt, index, key),
        reference.find(rt, index, key),
        key,
    );
    assert_found(
        rt,
        Some(undoable.count(rt, index, key)),
        Some(reference.count(rt, index, key)),
        key,
    );
    let kind = kind_at(rt, &undoable.schema, index);
    if kind.is_sorted() {
        compare_prefix(rt, undoable, reference, index, key);
        if let Some((first, _)) = key.split_first() {
            compare_prefix(rt, undoable, reference, index, std::slice::from_ref(first));
        }
    }
    if kind.is_hashed() {
        compare_bucket(rt, undoable, reference, index, key);
    }
}

/// The keys of all records in an index.
fn compare_keys<C: Container>(
    rt: &impl Abort,
    alloc: Global,
    undoable: &Undoable<C>,
    reference: &Reference,
    index: usize,
) -> Result<(), Fail>
    requires { CanTakeBack undoable.now.schema (C.shape undoable.now.rows) (C.plain undoable.now.rows) undoable.now.inverses.items }
{
    for n in 0..undoable.rows.size() {
        if let Some(id) = undoable.nth(rt, BY_ID, n)
            && let Some(row) = undoable.rows.get(id, &mut Steps::new())
        {
            let key = key_of(alloc, &undoable.schema, index, id, row)?;
            compare_key(rt, undoable, reference, index, key.as_slice());
        }
    }
    Ok(())
}

/// The record of each rank of an index, and its rank.
fn compare_ranks<C: Container>(
    rt: &impl Abort,
    undoable: &Undoable<C>,
    reference: &Reference,
    index: usize,
)
    requires { CanTakeBack undoable.now.schema (C.shape undoable.now.rows) (C.plain undoable.now.rows) undoable.now.inverses.items }
{
    for n in 0..=undoable.rows.size() {
        let found = undoable.nth(rt, index, n);
        assert_id(rt, found, reference.nth(rt, index, n), index);
        if let Some(id) = found {
            let rank = Some(undoable.rank_of(rt, index, id));
            assert_id(rt, rank, Some(reference.rank_of(rt, index, id)), index);
        }
    }
}

/// Every view, and how many changes can be taken back.
pub(super) fn compare<C: Container>(
    rt: &impl Abort,
    alloc: Global,
    undoable: &Undoable<C>,
    reference: &Reference,
) -> Result<(), Fail>
    requires { CanTakeBack undoable.now.schema (C.shape undoable.now.rows) (C.plain undoable.now.rows) undoable.now.inverses.items }
{
    assert_number(rt, undoable.rows.size(), reference.size(rt));
    assert_number(rt, undoable.depth(), reference.depth());
    for index in 0..undoable.schema.index_count() {
        let kind = kind_at(rt, &undoable.schema, index);
        if kind.shows_one_list() {
            compare_list(rt, alloc, undoable, reference, index)?;
        }
        if kind.is_sorted() {
            compare_ranks(rt, undoable, reference, index);
        }
        if kind.has_keys() {
            compare_keys(rt, alloc, undoable, reference, index)?;
        }
    }
    Ok(())
}
