//! A step is taken apart into an entry and a record, which goes to the back of a ring as the places beside it do, and is put together
//! again. It takes no memory.
ghost use Rattle.std.specs.Prelude.{◌≡◌, ◌<◌, ◌≤◌, ◌+◌, List, Option, [], length, reverse, drop};
ghost use Rattle.mi_value.specs.declared.value.Value.{Value};
ghost use Rattle.mi_node.specs.declared.old_place.OldPlace.{OldPlace as Place};
ghost use Rattle.std.specs.List.{All};
ghost use Rattle.std.specs.VecDeque.{deque_len, deque_capacity};
ghost use Rattle.mi_container.specs.Backs.{places_seen, step_seen};
ghost use Rattle.mi_container.specs.Inverse.{OldPlace};
ghost use Rattle.mi_journal.specs.Filled.{filled, placed, marked, records_in, places_in, IsThere};
ghost use Rattle.mi_journal.specs.Stored.{IsWithin, place_count, to_settle};

use crate::entry::Entry;
use crate::marks::Marks;
use mi_container::{OldPlaces, RowRef, Step};
use mi_node::MaybePlace;
use mi_value::Record;
use std::collections::VecDeque;

/// Moves places to the back of a ring, the first last, and answers the marks of those that are there.
fn store_places(laid: &mut OldPlaces, ring: &mut VecDeque<MaybePlace>) -> Marks
    requires { deque_len ring.old + place_count (places_seen laid.old.items) ≤ deque_capacity ring.old }
    ensures places { placed result (reverse ring.new.items) ≡ places_seen laid.old.items }
    ensures rest { drop (marked result) (reverse ring.new.items) ≡ reverse ring.old.items }
    ensures count { marked result ≡ place_count (places_seen laid.old.items) }
    ensures len { deque_len ring.new ≡ deque_len ring.old + marked result }
    ensures there { All IsThere ring.old.items → All IsThere ring.new.items }
    ensures capacity { deque_capacity ring.new ≡ deque_capacity ring.old }
    ensures none { laid.new.items ≡ [] }
{
    let _few = laid.len();
    let mut marks = Marks::new();
    while let Some(place) = laid.pop() {
        let there = place.is_some();
        marks.put_first(there);
        if there {
            ring.push_back_reserved(place);
        }
    }
    marks
}

/// Takes the places of a put off the back of a ring, the first first, and lays them down in place of what stands there.
fn fetch_places(marks: Marks, ring: &mut VecDeque<MaybePlace>, laid: &mut OldPlaces)
    requires { marked marks ≤ deque_len ring.old }
    ensures places { places_seen laid.new.items ≡ placed marks (reverse ring.old.items) }
    ensures rest { reverse ring.new.items ≡ drop (marked marks) (reverse ring.old.items) }
    ensures capacity { deque_capacity ring.new ≡ deque_capacity ring.old }
{
    marks.keeps_rules();
    let mut marks = marks;
    laid.clear();
    while let Some(there) = marks.take_first() {
        if there {
            laid.push(ring.pop_back().unwrap());
        } else {
            laid.push(MaybePlace::none());
        }
    }
}

/// Takes the places of the oldest put off the front of a ring.
fn drop_places(marks: Marks, ring: &mut VecDeque<MaybePlace>)
    ensures rest { ring.new.items ≡ drop (marked marks) ring.old.items }
    ensures capacity { deque_capacity ring.new ≡ deque_capacity ring.old }
{
    let mut marks = marks;
    while let Some(there) = marks.take_first() {
        if there {
            ring.pop_front();
        }
    }
}

/// Takes a step apart: the record and the places of a put go to the backs of the rings. Of another one the places stay.
pub fn store(
    step: Step,
    laid: &mut OldPlaces,
    records: &mut VecDeque<Record>,
    places: &mut VecDeque<MaybePlace>,
    most: usize,
) -> Entry
    requires within { IsWithin most (step_seen step (places_seen laid.old.items)) }
    requires records { deque_len records.old < deque_capacity records.old }
    requires places { deque_len places.old + most ≤ deque_capacity places.old }
    ensures is { filled result (reverse records.new.items) (reverse places.new.items) ≡ step_seen step (places_seen laid.old.items) }
    ensures records_rest { drop (records_in result) (reverse records.new.items) ≡ reverse records.old.items }
    ensures places_rest { drop (places_in result) (reverse places.new.items) ≡ reverse places.old.items }
    ensures records_len { deque_len records.new ≡ deque_len records.old + records_in result }
    ensures places_len { deque_len places.new ≡ deque_len places.old + places_in result }
    ensures places_there { All IsThere places.old.items → All IsThere places.new.items }
    ensures few_records { records_in result ≤ 1 }
    ensures few_places { places_in result ≤ most }
    ensures records_capacity { deque_capacity records.new ≡ deque_capacity records.old }
    ensures places_capacity { deque_capacity places.new ≡ deque_capacity places.old }
{
    match step {
        Step::Inserted(row) => Entry::Inserted(row.node, row.id),
        Step::Put(row, record) => {
            records.push_back_reserved(record);
            Entry::Put(row.node, row.id, store_places(laid, places))
        }
        Step::Erased(row, why) => match why {
            None => Entry::Erased(row.node, row.id),
            Some((index, id)) => Entry::Lost(row.node, row.id, index, id),
        },
        Step::Relocated(index, row, behind) => match behind {
            None => Entry::StoodLast(index as u8, row.node, row.id),
            Some(next) => Entry::StoodBefore(index as u8, row.node, row.id, next.node, next.id),
        },
        Step::Nothing => Entry::Nothing,
    }
}

/// What was done, by an entry that has no record and no places; of a put it is nothing.
fn plain_step(entry: Entry) -> Step
    ensures { (rs : List (List Value)) (ps : List (Option Place)) (laid : List (Option OldPlace)) → step_seen result laid ≡ to_settle (filled entry rs ps) }
{
    match entry {
        Entry::Inserted(node, id) => Step::Inserted(RowRef { id, node }),
        Entry::Erased(node, id) => Step::Erased(RowRef { id, node }, None),
        Entry::Lost(node, id, index, to) => Step::Erased(RowRef { id, node }, Some((index, to))),
        Entry::StoodLast(index, node, id) => {
            Step::Relocated(index as usize, RowRef { id, node }, None)
        }
        Entry::StoodBefore(index, node, id, next, before) => {
            let next = RowRef {
                id: before,
                node: next,
            };
            Step::Relocated(index as usize, RowRef { id, node }, Some(next))
        }
        Entry::Put(_, _, _) | Entry::Nothing => Step::Nothing,
    }
}

/// Puts the newest step together again: the record and the places of a put leave the backs of the rings. Of another one what is laid
/// down stays.
pub fn fetch(
    entry: Entry,
    records: &mut VecDeque<Record>,
    places: &mut VecDeque<MaybePlace>,
    laid: &mut OldPlaces,
) -> Step
    requires records { records_in entry ≤ deque_len records.old }
    requires places { places_in entry ≤ deque_len places.old }
    ensures is { step_seen result (places_seen laid.new.items) ≡ filled entry (reverse records.old.items) (reverse places.old.items) }
    ensures records_rest { reverse records.new.items ≡ drop (records_in entry) (reverse records.old.items) }
    ensures places_rest { reverse places.new.items ≡ drop (places_in entry) (reverse places.old.items) }
    ensures records_capacity { deque_capacity records.new ≡ deque_capacity records.old }
    ensures places_capacity { deque_capacity places.new ≡ deque_capacity places.old }
{
    match entry {
        Entry::Put(node, id, marks) => {
            let record = records.pop_back().unwrap();
            fetch_places(marks, places, laid);
            Step::Put(RowRef { id, node }, record)
        }
        other => plain_step(other),
    }
}

/// What the oldest inverse is settled by: the record and the places of a put leave the fronts of the rings.
pub fn fetch_to_settle(
    entry: Entry,
    records: &mut VecDeque<Record>,
    places: &mut VecDeque<MaybePlace>,
) -> Step
    ensures is { (rs : List (List Value)) (ps : List (Option Place)) → step_seen result [] ≡ to_settle (filled entry rs ps) }
    ensures records_rest { records.new.items ≡ drop (records_in entry) records.old.items }
    ensures places_rest { places.new.items ≡ drop (places_in entry) places.old.items }
    ensures records_capacity { deque_capacity records.new ≡ deque_capacity records.old }
    ensures places_capacity { deque_capacity places.new ≡ deque_capacity places.old }
{
    match entry {
        Entry::Put(_, _, marks) => {
            records.pop_front();
            drop_places(marks, places);
            Step::Nothing
        }
        other => plain_step(other),
    }
}
