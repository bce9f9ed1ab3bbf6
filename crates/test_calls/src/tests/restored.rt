//! The database that is served, restored from a table: what it shows, a session behind it, and what is refused.
use super::accounts::{account, catalog};
use super::sessions::{add, assert_open, assert_shows, erase, start, undo};
use mi_container::{RestoreFault, TableImage};
use mi_database::{DatabaseFault, Linked};
use mi_multi::MultiIndex;
use mi_value::{Record, ValueRef};
use std::alloc::Global;
use std::process::Abort;

/// A list of each index of the built-in table: its rows stand in the order of their ids, and else the other way.
fn lists(rt: &impl Abort, alloc: Global) -> Vec<Vec<u64>> {
    let catalog = catalog(rt, alloc);
    assert!(rt; catalog.table_count() == 1);
    let mut lists = Vec::new(alloc);
    for index in 0..catalog.table(0).index_count() {
        let order: [u64; 2] = if index == 0 { [3, 8] } else { [8, 3] };
        let ids = Vec::from_slice(alloc, &order).expect(rt, "memory is there");
        lists.push(ids).expect(rt, "memory is there");
    }
    lists
}

/// The image of the built-in table with an account of id 3, and with this record of id 8.
fn image(rt: &impl Abort, alloc: Global, last: Record) -> TableImage {
    let mut rows = Vec::new(alloc);
    let first = account(rt, alloc, "a", 5, false);
    rows.push((3u64, first)).expect(rt, "memory is there");
    rows.push((8u64, last)).expect(rt, "memory is there");
    TableImage {
        rows,
        lists: lists(rt, alloc),
        next: 9,
        arrivals: 40,
    }
}

/// The database of that table, at a revision.
fn restored(
    rt: &impl Abort,
    alloc: Global,
    last: Record,
    revision: u64,
) -> Result<Linked<MultiIndex>, DatabaseFault> {
    let mut images = Vec::new(alloc);
    images
        .push(image(rt, alloc, last))
        .expect(rt, "memory is there");
    Linked::restored(alloc, catalog(rt, alloc), 7, images, revision)
}

/// Asserts why there is no database.
fn assert_fault(
    rt: &impl Abort,
    got: Result<Linked<MultiIndex>, DatabaseFault>,
    want: DatabaseFault,
) {
    assert!(rt; got.err() == Some(want));
}

#[test]
fn a_session_behind_a_restored_table_is_undone(rt: HostRuntime) {
    let alloc = rt.alloc();
    let last = account(&rt, alloc, "b", 5, true);
    let mut database = restored(&rt, alloc, last, 41).expect(&rt, "the image is a table");
    assert_open(&rt, &database, 0, 41);
    assert_shows(&rt, &database, 8, "b", 5, true);
    start(&rt, alloc, &mut database, 42);
    add(&rt, alloc, &mut database, "c", 6, true, Ok(9));
    erase(&rt, alloc, &mut database, 3);
    undo(&rt, &mut database, Ok(41));
    assert_shows(&rt, &database, 3, "a", 5, false);
    add(&rt, alloc, &mut database, "d", 7, true, Ok(9));
}

#[test]
fn a_wrong_database_is_refused(rt: HostRuntime) {
    let alloc = rt.alloc();
    let none = Linked::restored(alloc, catalog(&rt, alloc), 7, Vec::new(alloc), 0);
    assert_fault(&rt, none, DatabaseFault::Tables);
    let last = account(&rt, alloc, "b", 5, true);
    assert_fault(
        &rt,
        restored(&rt, alloc, last, 1 << 63),
        DatabaseFault::Revision,
    );
    let last = Record::new(alloc, &[ValueRef::Int(1)]).expect(&rt, "memory is there");
    let fault = RestoreFault::Row(8);
    assert_fault(
        &rt,
        restored(&rt, alloc, last, 0),
        DatabaseFault::Table { table: 0, fault },
    );
}
