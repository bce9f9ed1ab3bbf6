//! What an inverse takes in the rings, and puts with some of several places that leave at both ends. The one test that asks how
//! large an entry is.
ghost use Rattle.mi_container.specs.Backs.{places_seen, step_seen};
ghost use Rattle.mi_journal.specs.Stored.{IsWithin};

use crate::entry::Entry;
use crate::inverses::Inverses;
use mi_container::{OldPlaces, RowRef, Step};
use mi_node::{MaybePlace, NodeRef, OldPlace};
use mi_value::{Record, ValueRef};
use std::alloc::Global;
use std::mem::size_of;
use std::process::Abort;
use std::test::Fail;

/// A row of an id. Which node it has is no matter here.
fn row(id: u64) -> RowRef {
    RowRef {
        id,
        node: NodeRef::default(),
    }
}

/// A put in a table of four indexes, which has an old place in the second and in the last: they are laid down.
fn put(
    rt: &impl Abort,
    alloc: Global,
    id: u64,
    number: i64,
    stamp: u32,
    places: &mut OldPlaces,
) -> Step
    ensures { IsWithin 2 (step_seen result (places_seen places.new.items)) }
{
    let record = Record::new(alloc, &[ValueRef::Int(number)]).expect(rt, "memory is there");
    places.clear();
    places.push(MaybePlace::none());
    places.push(MaybePlace::new(OldPlace {
        stamp: stamp as u64,
        back: Some(NodeRef::default()),
        forth: None,
    }));
    places.push(MaybePlace::none());
    places.push(MaybePlace::new(OldPlace {
        stamp: stamp as u64 + 1,
        back: None,
        forth: None,
    }));
    Step::Put(row(id), record)
}

/// The stamp of an old place, or 0.
fn stamp_at(places: &OldPlaces, index: usize) -> u64 {
    match places.as_slice().get(index) {
        Some(place) => match place.place() {
            Some(old) => old.stamp,
            None => 0,
        },
        None => 0,
    }
}

/// Asserts that a put of this row left, with its record and its places.
fn assert_put(
    rt: &impl Abort,
    left: Option<(usize, Step)>,
    places: &OldPlaces,
    table: usize,
    id: u64,
    number: i64,
    stamp: u32,
) {
    let Some((at, step)) = left else {
        panic!(rt; "no inverse");
    };
    let Step::Put(row, record) = step else {
        panic!(rt; "no put");
    };
    assert_eq!(rt; at, table);
    assert_eq!(rt; row.id, id);
    assert!(rt; matches!(record.get(0), Some(ValueRef::Int(n)) if n == number));
    assert_eq!(rt; places.len(), 4);
    let first = stamp as u64;
    for (index, want) in [(0, 0), (1, first), (2, 0), (3, first + 1)] {
        assert_eq!(rt; stamp_at(places, index), want, "index {index}");
    }
}

/// Asserts that this row was inserted, or that there is nothing to settle.
fn assert_to_settle(
    rt: &impl Abort,
    left: Option<(usize, Step)>,
    table: usize,
    inserted: Option<u64>,
) {
    let Some((at, step)) = left else {
        panic!(rt; "no inverse");
    };
    assert_eq!(rt; at, table);
    match step {
        Step::Inserted(row) => assert_eq!(rt; Some(row.id), inserted),
        Step::Nothing => assert_eq!(rt; inserted, None),
        _ => panic!(rt; "another inverse"),
    }
}

/// An entry, with the number of its table, takes 40 bytes, an old record 48 and an old place 16, where a step takes 72.
#[test]
fn entries_are_small(rt: HostRuntime) -> Result<(), Fail> {
    assert_eq!(&rt; size_of::<(usize, Entry)>(), 40);
    assert_eq!(&rt; size_of::<Record>(), 48);
    assert_eq!(&rt; size_of::<MaybePlace>(), 16);
    assert_eq!(&rt; size_of::<Step>(), 72);
    Ok(())
}

/// Three puts and an insertion in two sessions that are joined. Two puts are taken back, the newest first, and the oldest is settled
/// before the insertion; then there is room again for as many changes as at first.
#[test]
fn puts_leave_at_both_ends(rt: HostRuntime) -> Result<(), Fail> {
    let mut kept = Inverses::new(rt.alloc(), 2);
    kept.reserve(4, 2)?;
    kept.open_session();
    let mut laid = OldPlaces::new();
    let step = put(&rt, rt.alloc(), 1, 10, 7, &mut laid);
    kept.note(0, step, &mut laid);
    kept.note(1, Step::Inserted(row(5)), &mut laid);
    kept.open_session();
    let step = put(&rt, rt.alloc(), 2, 20, 9, &mut laid);
    kept.note(2, step, &mut laid);
    let step = put(&rt, rt.alloc(), 3, 30, 11, &mut laid);
    kept.note(0, step, &mut laid);
    kept.join_top();
    let left = kept.pop(&mut laid);
    assert_put(&rt, left, &laid, 0, 3, 30, 11);
    let left = kept.pop(&mut laid);
    assert_put(&rt, left, &laid, 2, 2, 20, 9);
    assert_to_settle(&rt, kept.take_oldest(), 0, None);
    assert_to_settle(&rt, kept.take_oldest(), 1, Some(5));
    let (changes, _) = kept.room();
    assert!(&rt; kept.take_oldest().is_none() && changes >= 4);
    Ok(())
}
