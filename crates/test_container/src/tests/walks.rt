//! Walks along an index of the four records, both ways.
ghost use Rattle.test_container.specs.Undone.{CanTakeBack};

use super::asking::{assert_number, check};
use super::change::Way;
use super::container::{BY_F_S, LINE};
use super::undoable::Undoable;
use mi_container::Container;
use mi_value::{Record, ValueRef};
use std::alloc::Global;
use std::process::Abort;
use std::test::Fail;

/// A walk, and its records by their ids and `k`.
struct Walk {
    way: Way,
    rows: &'static [(u64, i64)],
}

const WALKS: [Walk; 5] = [
    Walk {
        way: Way {
            index: BY_F_S,
            reverse: false,
            first: 2,
            limit: 3,
        },
        rows: &[(2, 12), (3, 13), (0, 10)],
    },
    Walk {
        way: Way {
            index: BY_F_S,
            reverse: false,
            first: 2,
            limit: 0,
        },
        rows: &[],
    },
    Walk {
        way: Way {
            index: BY_F_S,
            reverse: true,
            first: 1,
            limit: 9,
        },
        rows: &[(1, 11), (0, 10), (3, 13), (2, 12)],
    },
    Walk {
        way: Way {
            index: LINE,
            reverse: false,
            first: 3,
            limit: 2,
        },
        rows: &[(3, 13), (1, 11)],
    },
    Walk {
        way: Way {
            index: LINE,
            reverse: true,
            first: 1,
            limit: 9,
        },
        rows: &[(1, 11), (3, 13), (0, 10)],
    },
];

/// Asserts the id of a row, and its `k`.
fn assert_row(rt: &impl Abort, id: u64, row: &Record, want: u64, k: i64) {
    assert_number(rt, id, want);
    check(rt, row.get(0) == Some(ValueRef::Int(k)), "a row's number");
}

/// Asserts which rows are walked.
fn assert_rows(rt: &impl Abort, rows: &[(u64, &Record)], want: &[(u64, i64)]) {
    assert_number(rt, rows.len() as u64, want.len() as u64);
    for ((id, row), (want, k)) in rows.iter().zip(want.iter()) {
        assert_row(rt, *id, row, *want, *k);
    }
}

/// Walks both ways.
pub(super) fn check_walks<C: Container>(
    rt: &impl Abort,
    alloc: Global,
    undoable: &Undoable<C>,
) -> Result<(), Fail>
    requires { CanTakeBack undoable.now.schema (C.shape undoable.now.rows) (C.plain undoable.now.rows) undoable.now.inverses.items }
{
    for want in &WALKS {
        let rows = undoable.walk(rt, alloc, want.way)?;
        assert_rows(rt, rows.as_slice(), want.rows);
    }
    Ok(())
}
