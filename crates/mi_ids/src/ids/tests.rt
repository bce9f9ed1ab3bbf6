//! Many ids that come and go: the tests that ask the pages and the hints inside. The tests of the public calls stand in
//! `test_storage`.
use super::*;
use mi_node::Pool;
use std::process::Abort;
use std::test::Fail;

/// A node to put in.
fn node_of(rt: &impl Abort, pool: &mut Pool<u8>) -> NodeRef {
    match pool.take(0) {
        Ok(node) => node,
        Err(_) => panic!(rt; "no memory"),
    }
}

/// Ten thousand ids come, a hundred of which stay at a time. A hundred and one ids in a row lie in three pages at most.
/// The map of pages doubles only where it is more than half full, so it never has places for four times as many.
#[test]
fn places_of_removed_ids_are_used_again(rt: HostRuntime) -> Result<(), Fail> {
    let mut pool: Pool<u8> = Pool::with_slots(rt.alloc(), 1);
    let node = node_of(&rt, &mut pool);
    let mut ids = Ids::new(rt.alloc());
    for id in 1..10_001u64 {
        ids.make_room()?;
        ids.insert(id, node);
        if id > 100 {
            ids.remove(id - 100);
        }
        assert!(rt; ids.pages.capacity() < 12, "at id {id}");
    }
    assert_eq!(rt; ids.len(), 100);
    for (id, stays) in [(1, false), (9_900, false), (9_901, true), (10_000, true)] {
        assert_eq!(rt; ids.live(id).is_some(), stays, "id {id}");
    }
    Ok(())
}

/// Puts the ids of these pages in.
fn fill(ids: &mut Ids, node: NodeRef, from: u64, to: u64) -> Result<(), AllocError> {
    for id in 64 * from.min(1_000)..64 * to.min(1_000) {
        ids.make_room()?;
        ids.insert(id, node);
    }
    Ok(())
}

/// Asserts that there are as many pages, and that the hint of each is right.
fn assert_hints(rt: &impl Abort, ids: &Ids, count: usize) {
    assert_eq!(rt; ids.pages.len(), count);
    for index in 0..count {
        match ids.pages.get_index(index) {
            Some((number, _)) => assert_eq!(rt; ids.hints.get(*number), index, "page {index}"),
            None => panic!(rt; "no page {index}"),
        }
    }
}

/// Of pages in a row no two share a hint, so each is found by its own: two hundred that came, what is left of them once
/// the oldest went, and these with others that came after them.
#[test]
fn pages_in_a_row_are_found_by_hints(rt: HostRuntime) -> Result<(), Fail> {
    let mut pool: Pool<u8> = Pool::with_slots(rt.alloc(), 1);
    let node = node_of(&rt, &mut pool);
    let mut ids = Ids::new(rt.alloc());
    fill(&mut ids, node, 0, 200)?;
    assert_hints(&rt, &ids, 200);
    for id in 0..3_200u64 {
        ids.remove(id);
    }
    assert_hints(&rt, &ids, 150);
    fill(&mut ids, node, 200, 250)?;
    assert_hints(&rt, &ids, 200);
    Ok(())
}
