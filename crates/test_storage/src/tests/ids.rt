//! Worked rows through each call of the map from ids to nodes, with ids of one page of 64 and of several, and refused room.
use super::asking::{check, check_number};
use super::growth::take_at_last;
use super::nodes::take;
use mi_ids::{IdEntry, Ids};
use mi_node::{NodeRef, Pool};
use std::alloc::{AllocError, Global};
use std::mem::size_of;
use std::process::Abort;
use std::test::Fail;

/// A call for an id; nodes are numbered.
#[derive(Clone, Copy)]
enum Call {
    Insert(usize),
    Keep,
    Revive,
    Remove,
}

/// What an id has: the number of its node, and whether it is live.
type Has = Option<(usize, bool)>;

/// Calls for the first or the second of two ids: what each of them has afterwards, and how many there are.
const CALLS: [(Call, u64, Has, Has, usize); 13] = [
    (Call::Keep, 1, None, None, 0),
    (Call::Insert(0), 1, Some((0, true)), None, 1),
    (Call::Insert(1), 2, Some((0, true)), Some((1, true)), 2),
    (Call::Keep, 1, Some((0, false)), Some((1, true)), 2),
    (Call::Keep, 1, Some((0, false)), Some((1, true)), 2),
    (Call::Keep, 2, Some((0, false)), Some((1, false)), 2),
    (Call::Revive, 1, Some((0, true)), Some((1, false)), 2),
    (Call::Revive, 1, Some((0, true)), Some((1, false)), 2),
    (Call::Remove, 2, Some((0, true)), None, 1),
    (Call::Revive, 2, Some((0, true)), None, 1),
    (Call::Remove, 2, Some((0, true)), None, 1),
    (Call::Insert(1), 1, Some((1, true)), None, 1),
    (Call::Remove, 1, None, None, 0),
];

/// Makes a call for an id.
fn make(ids: &mut Ids, nodes: &[NodeRef; 2], call: Call, id: u64) -> Result<(), AllocError> {
    match call {
        Call::Insert(n) => {
            ids.make_room()?;
            ids.insert(id, nodes[n.min(1)]);
        }
        Call::Keep => ids.keep(id),
        Call::Revive => ids.revive(id),
        Call::Remove => ids.remove(id),
    }
    Ok(())
}

/// Whether an id has this: it is there or not, and live or not.
fn has_this(ids: &Ids, nodes: &[NodeRef; 2], id: u64, has: Has) -> bool {
    match (ids.get(id), has) {
        (None, None) => ids.live(id).is_none(),
        (Some(entry), Some((n, live))) => {
            entry.live == live
                && entry.node.name() == nodes[n.min(1)].name()
                && is_live_as(ids, id, entry)
        }
        _ => false,
    }
}

/// Whether an id is live if its entry is, and has the entry's node.
fn is_live_as(ids: &Ids, id: u64, entry: IdEntry) -> bool {
    match ids.live(id) {
        None => !entry.live,
        Some(node) => entry.live && node.name() == entry.node.name(),
    }
}

/// Asserts what an id has.
fn assert_has(rt: &impl Abort, ids: &Ids, nodes: &[NodeRef; 2], id: u64, has: Has) {
    assert!(rt;
        has_this(ids, nodes, id, has),
        "id {id} doesn't have {has:?}"
    );
}

/// Asserts how many ids there are.
fn assert_count(rt: &impl Abort, ids: &Ids, count: usize) {
    check_number(rt, ids.len() as u64, count as u64, "ids");
}

/// Two ids of one page, its two ends, those on both sides of its edge, and those that are far apart.
const PAIRS: [(u64, u64); 6] = [
    (1, 2),
    (64, 127),
    (63, 64),
    (128, 127),
    (0, 18_446_744_073_709_551_615),
    (9_223_372_036_854_775_807, 9_223_372_036_854_775_808),
];

/// Makes each call for two ids, and asserts what it leaves.
fn make_all(
    rt: &impl Abort,
    ids: &mut Ids,
    nodes: &[NodeRef; 2],
    pair: (u64, u64),
) -> Result<(), AllocError> {
    for (call, which, one, two, count) in &CALLS {
        let id = if *which == 1 { pair.0 } else { pair.1 };
        make(ids, nodes, *call, id)?;
        assert_has(rt, ids, nodes, pair.0, *one);
        assert_has(rt, ids, nodes, pair.1, *two);
        assert_count(rt, ids, *count);
    }
    Ok(())
}

/// Two nodes, whose names are asked for alone.
fn two_nodes(rt: &impl Abort, alloc: Global) -> [NodeRef; 2] {
    let mut pool: Pool<u8> = Pool::with_slots(alloc, 1);
    [take(rt, &mut pool, 0), take(rt, &mut pool, 1)]
}

/// Two ids through each call.
#[test]
fn two_ids_through_each_call(rt: HostRuntime) -> Result<(), Fail> {
    let nodes = two_nodes(&rt, rt.alloc());
    let mut ids = Ids::new(rt.alloc());
    for pair in &PAIRS {
        make_all(&rt, &mut ids, &nodes, *pair)?;
    }
    Ok(())
}

/// Inserts the ids from one up to another, with the node of this number.
fn insert_run(
    ids: &mut Ids,
    nodes: &[NodeRef; 2],
    from: u64,
    to: u64,
    n: usize,
) -> Result<(), AllocError> {
    for id in from..to {
        make(ids, nodes, Call::Insert(n), id)?;
    }
    Ok(())
}

/// Asserts of the ids from one up to another that each is live with the node of this number, or none is there.
fn assert_run(rt: &impl Abort, ids: &Ids, nodes: &[NodeRef; 2], run: (u64, u64), has: Has) {
    for id in run.0..run.1 {
        assert_has(rt, ids, nodes, id, has);
    }
}

/// Removes all ids of the second of three pages but one, which is only kept. It is there, and can be live again.
fn empty_but_one(ids: &mut Ids) {
    for id in 64..128u64 {
        if id == 100 {
            ids.keep(id);
        } else {
            ids.remove(id);
        }
    }
}

/// The last id of a page goes, after it was kept and live again.
fn last_leaves(rt: &impl Abort, ids: &mut Ids, nodes: &[NodeRef; 2]) {
    empty_but_one(ids);
    assert_has(rt, ids, nodes, 100, Some((0, false)));
    ids.revive(100);
    assert_has(rt, ids, nodes, 100, Some((0, true)));
    assert_count(rt, ids, 129);
    ids.remove(100);
    assert_run(rt, ids, nodes, (64, 128), None);
    assert_count(rt, ids, 128);
}

/// Asserts that a page has the second node, and those beside it the first.
fn assert_pages(rt: &impl Abort, ids: &Ids, nodes: &[NodeRef; 2]) {
    assert_run(rt, ids, nodes, (0, 64), Some((0, true)));
    assert_run(rt, ids, nodes, (64, 128), Some((1, true)));
    assert_run(rt, ids, nodes, (128, 192), Some((0, true)));
}

/// The ids of a page go, the last of them after it was kept and live again, and come again with another node. Those of
/// the pages beside it stay.
#[test]
fn a_page_goes_with_its_last_id(rt: HostRuntime) -> Result<(), Fail> {
    let nodes = two_nodes(&rt, rt.alloc());
    let mut ids = Ids::new(rt.alloc());
    insert_run(&mut ids, &nodes, 0, 192, 0)?;
    last_leaves(&rt, &mut ids, &nodes);
    insert_run(&mut ids, &nodes, 64, 128, 1)?;
    assert_pages(&rt, &ids, &nodes);
    Ok(())
}

/// An id of its own page for each number: the numbers times an odd factor, which lie all over.
fn scattered(k: u64) -> u64 {
    k.wrapping_mul(11_400_714_819_323_198_485)
}

/// Of three scattered ids in turn one stays live, one is only kept and one goes.
fn scatter(ids: &mut Ids, nodes: &[NodeRef; 2]) -> Result<(), AllocError> {
    for k in 0..300u64 {
        make(ids, nodes, Call::Insert(0), scattered(k))?;
    }
    for k in 0..300u64 {
        match k % 3 {
            0 => {}
            1 => ids.keep(scattered(k)),
            _ => ids.remove(scattered(k)),
        }
    }
    Ok(())
}

/// Asserts what three hundred scattered ids have, and that the ids beside them aren't there.
fn assert_scattered(rt: &impl Abort, ids: &Ids, nodes: &[NodeRef; 2]) {
    for k in 0..300u64 {
        let has = if k % 3 == 2 {
            None
        } else {
            Some((0, k % 3 == 0))
        };
        assert_has(rt, ids, nodes, scattered(k), has);
        assert_has(rt, ids, nodes, scattered(k) ^ 1, None);
        assert_has(rt, ids, nodes, scattered(k) ^ 64, None);
    }
    assert_count(rt, ids, 200);
}

/// Three hundred ids that lie all over, so that each has a page, and the ids beside them, which aren't there.
#[test]
fn scattered_ids(rt: HostRuntime) -> Result<(), Fail> {
    let nodes = two_nodes(&rt, rt.alloc());
    let mut ids = Ids::new(rt.alloc());
    scatter(&mut ids, &nodes)?;
    assert_scattered(&rt, &ids, &nodes);
    Ok(())
}

/// Asserts that the first of ids that stand this far apart are there, and the next one isn't.
fn assert_below(rt: &impl Abort, ids: &Ids, apart: u64, count: u64) {
    for k in 0..count {
        assert!(rt; ids.live(k.wrapping_mul(apart)).is_some(), "id {k}");
    }
    check(
        rt,
        ids.get(count.wrapping_mul(apart)).is_none(),
        "the next id",
    );
}

/// Inserts forty ids that stand this far apart. Where room for one is refused, those before it are still there, and room
/// is asked for again.
fn insert_all(rt: &impl Abort, ids: &mut Ids, node: NodeRef, apart: u64) -> Result<(), AllocError> {
    for k in 0..40u64 {
        if ids.make_room().is_err() {
            assert_below(rt, ids, apart, k);
            ids.make_room()?;
        }
        ids.insert(k.wrapping_mul(apart), node);
    }
    assert_below(rt, ids, apart, 40);
    assert_count(rt, ids, 40);
    Ok(())
}

/// Forty ids that stand this far apart, of a node.
fn refuse_room(rt: &impl Abort, alloc: Global, apart: u64) -> Result<(), AllocError> {
    let mut pool: Pool<u64> = Pool::with_slots(alloc, 1);
    let node = take_at_last(rt, &mut pool, 0);
    let mut ids = Ids::new(alloc);
    insert_all(rt, &mut ids, node, apart)
}

/// Run with an allocation that fails, it sees that refused room leaves the ids as they were, and can be asked for again:
/// with ids of one page, and with a page for each.
#[test]
fn refused_room_leaves_the_ids(rt: HostRuntime) -> Result<(), AllocError> {
    refuse_room(&rt, rt.alloc(), 1)?;
    refuse_room(&rt, rt.alloc(), 64)
}

/// An entry has eight bytes.
#[test]
fn an_entry_is_small(rt: HostRuntime) {
    check_number(&rt, size_of::<IdEntry>() as u64, 8, "bytes of an entry");
}
