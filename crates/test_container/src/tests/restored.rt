//! Containers that are restored from rows and lists, and tables of which none is.
ghost use Rattle.std.specs.Prelude.{IfOk};
ghost use Rattle.test_container.specs.Undone.{CanTakeBack};

use super::asking::{assert_answer, check};
use super::container::{TABLE, Views, check_views, record as row_of};
use super::undoable::Undoable;
use mi_container::{Container, RestoreFault, TableImage};
use mi_multi::MultiIndex;
use mi_schema::read_schema;
use mi_value::{Record, Steps, ValueRef};
use std::alloc::Global;
use std::process::Abort;

/// The ids of three rows, with gaps.
const IDS: [u64; 3] = [2, 5, 9];

/// Their order in each index: by keys the last stands before the first, and the sequenced one has an order of its own.
const LISTS: [[u64; 3]; 7] = [
    [2, 5, 9],
    [9, 2, 5],
    [5, 9, 2],
    [9, 5, 2],
    [2, 9, 5],
    [5, 2, 9],
    [9, 2, 5],
];

/// A record of the table.
fn record(rt: &impl Abort, alloc: Global, k: i64) -> Record {
    let values = [
        ValueRef::Int(k),
        ValueRef::Text("a"),
        ValueRef::Flag(true),
        ValueRef::Int(k),
    ];
    Record::new(alloc, &values).expect(rt, "memory is there")
}

/// The table restored with these values of `k`, lists and counters: how many rows there are, or why there are none.
fn restored(
    rt: &impl Abort,
    alloc: Global,
    ks: [i64; 3],
    ids: [u64; 3],
    lists: &[[u64; 3]],
    next: u64,
    arrivals: u64,
) -> Result<u64, RestoreFault> {
    let schema = read_schema(alloc, TABLE.as_bytes()).expect(rt, "the schema is one");
    let mut rows = Vec::new(alloc);
    for place in 0..3 {
        rows.push((ids[place], record(rt, alloc, ks[place])))
            .expect(rt, "memory is there");
    }
    let mut all = Vec::new(alloc);
    for list in lists {
        let ids = Vec::from_slice(alloc, list).expect(rt, "memory is there");
        all.push(ids).expect(rt, "memory is there");
    }
    let made = MultiIndex::restored(alloc, schema, 7, rows, all.as_slice(), next, arrivals)?;
    for id in &ids {
        let row = made.get(*id, &mut Steps::new());
        check(rt, row.is_some(), "a row is there");
    }
    Ok(made.size())
}

/// Asserts what a table gives.
fn assert_restored(
    rt: &impl Abort,
    got: Result<u64, RestoreFault>,
    want: Result<u64, RestoreFault>,
) {
    assert_eq!(rt; got, want);
}

#[test]
fn rows_with_gaps_are_restored(rt: HostRuntime) {
    let alloc = rt.alloc();
    assert_restored(
        &rt,
        restored(&rt, alloc, [1, 2, 3], IDS, &LISTS, 20, 3),
        Ok(3),
    );
}

#[test]
fn a_wrong_table_is_refused(rt: HostRuntime) {
    let alloc = rt.alloc();
    let counters = restored(&rt, alloc, [1, 2, 3], IDS, &LISTS, 20, 2);
    assert_restored(&rt, counters, Err(RestoreFault::Counters));
    let next = restored(&rt, alloc, [1, 2, 3], IDS, &LISTS, 9, 3);
    assert_restored(&rt, next, Err(RestoreFault::Id(9)));
    let twice = restored(&rt, alloc, [1, 2, 3], [2, 2, 9], &LISTS, 20, 3);
    assert_restored(&rt, twice, Err(RestoreFault::Id(2)));
    let unique = restored(&rt, alloc, [1, 2, 1], IDS, &LISTS, 20, 3);
    let both = RestoreFault::Unique {
        index: 1,
        first: 2,
        second: 9,
    };
    assert_restored(&rt, unique, Err(both));
    let few = restored(&rt, alloc, [1, 2, 3], IDS, &LISTS[..6], 20, 3);
    assert_restored(&rt, few, Err(RestoreFault::Lists));
    let mut lists = LISTS;
    lists[3] = [9, 9, 2];
    let list = restored(&rt, alloc, [1, 2, 3], IDS, &lists, 20, 3);
    assert_restored(&rt, list, Err(RestoreFault::List(3)));
    lists = LISTS;
    lists[0] = [5, 2, 9];
    let by_id = restored(&rt, alloc, [1, 2, 3], IDS, &lists, 20, 3);
    assert_restored(&rt, by_id, Err(RestoreFault::List(0)));
}

/// A row of an image.
struct ImageRow {
    id: u64,
    k: i64,
    s: &'static str,
    f: bool,
    n: i64,
}

/// Four rows with gaps between their ids. Two have one `n` beside another, and three one `f`.
const FOUR: [ImageRow; 4] = [
    ImageRow {
        id: 2,
        k: 10,
        s: "a",
        f: false,
        n: 7,
    },
    ImageRow {
        id: 5,
        k: 11,
        s: "b",
        f: true,
        n: 7,
    },
    ImageRow {
        id: 9,
        k: 12,
        s: "c",
        f: true,
        n: 1,
    },
    ImageRow {
        id: 14,
        k: 13,
        s: "d",
        f: true,
        n: 7,
    },
];

/// Their order in each index. Rows of one key don't stand in the order of their ids.
const ORDERS: [[u64; 4]; 7] = [
    [2, 5, 9, 14],
    [14, 9, 5, 2],
    [9, 14, 2, 5],
    [2, 9, 14, 5],
    [5, 9, 14, 2],
    [14, 2, 9, 5],
    [2, 5, 9, 14],
];

/// What is shown of them.
const SHOWN: Views = Views {
    line: &[14, 2, 9, 5],
    by_n: &[9, 14, 2, 5],
    unset: &[2],
    set: &[9, 14, 5],
};

/// What is shown where the last is erased.
const OF_THREE: Views = Views {
    line: &[2, 9, 5],
    by_n: &[9, 2, 5],
    unset: &[2],
    set: &[9, 5],
};

/// The image of the table of these rows, in which the next id is 20.
fn image(rt: &impl Abort, alloc: Global) -> TableImage {
    let mut rows = Vec::new(alloc);
    for row in &FOUR {
        let record = row_of(rt, alloc, row.k, row.s, row.f, row.n);
        rows.push((row.id, record)).expect(rt, "memory is there");
    }
    TableImage {
        rows,
        lists: orders(rt, alloc),
        next: 20,
        arrivals: 30,
    }
}

/// The lists of that image.
fn orders(rt: &impl Abort, alloc: Global) -> Vec<Vec<u64>> {
    let mut lists = Vec::new(alloc);
    for order in &ORDERS {
        let ids = Vec::from_slice(alloc, order).expect(rt, "memory is there");
        lists.push(ids).expect(rt, "memory is there");
    }
    lists
}

/// The container of an image of that table.
fn held(
    rt: &impl Abort,
    alloc: Global,
    image: TableImage,
) -> Result<Undoable<MultiIndex>, RestoreFault>
    ensures { IfOk result (λ u. CanTakeBack u.schema u.rows.shape u.rows.plain u.inverses.items) }
{
    let schema = read_schema(alloc, TABLE.as_bytes()).expect(rt, "the schema is one");
    Undoable::restored(alloc, schema, image)
}

#[test]
fn changes_of_a_restored_table_are_taken_back(rt: HostRuntime) {
    let alloc = rt.alloc();
    let mut undoable = held(&rt, alloc, image(&rt, alloc)).expect(&rt, "the image is a table");
    check_views(&rt, &undoable, &SHOWN);
    assert_answer(&rt, undoable.erase(14), Ok(None));
    check_views(&rt, &undoable, &OF_THREE);
    check(&rt, undoable.unwind(), "a change is taken back");
    check_views(&rt, &undoable, &SHOWN);
    let fifth = row_of(&rt, alloc, 14, "e", true, 7);
    assert_answer(&rt, undoable.insert(&rt, alloc, fifth, None), Ok(Some(20)));
}

#[test]
fn a_row_that_does_not_fit_is_refused(rt: HostRuntime) {
    let alloc = rt.alloc();
    let mut image = image(&rt, alloc);
    let short = Record::new(alloc, &[ValueRef::Int(1)]).expect(&rt, "memory is there");
    if let Some(row) = image.rows.get_mut(2) {
        row.1 = short;
    }
    let got = held(&rt, alloc, image).map(|made| made.rows.size());
    assert_restored(&rt, got, Err(RestoreFault::Row(9)));
}
