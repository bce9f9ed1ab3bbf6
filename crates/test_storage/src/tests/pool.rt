//! Nodes of a pool: their values and links, places that are used again, and refused memory.
#![tactic(auto, using(mi_node::proofs::EntryLemmas::held, mi_node::proofs::EntryLemmas::slot_counts))]

ghost use Rattle.std.specs.Prelude.{◌≡◌};
ghost use Rattle.mi_node.specs.Pool.{IsHeld, without, with_value};

use super::asking::{check, check_few, check_number, check_option, check_text};
use super::nodes::{name_of, take};
use mi_node::{Counted, Link, NO_LINK, NodeRef, Pool, Tag};
use std::cell::Cell;
use std::mem::size_of;
use std::process::Abort;

/// The text "x" of a node makes room for another, which is given back.
fn swap_and_give(rt: &impl Abort, pool: &mut Pool<&'static str>, node: NodeRef, text: &'static str)
    requires { IsHeld pool.old node }
    ensures { pool.new ≡ without (with_value pool.old node.name text.entry) node.name }
{
    check_text(rt, pool.swap_value(node, text), "x");
    check_text(rt, pool.give(node), text);
}

/// Asserts the text of a node.
fn assert_text(rt: &impl Abort, pool: &Pool<&'static str>, node: NodeRef, text: &str)
    requires { IsHeld pool.now node }
{
    check_text(rt, *pool.value(node), text);
}

#[test]
fn texts_are_kept_by_reference(rt: HostRuntime) {
    let mut pool: Pool<&'static str> = Pool::new(rt.alloc());
    let one = take(&rt, &mut pool, "x");
    let two = take(&rt, &mut pool, "y");
    assert_text(&rt, &pool, one, "x");
    swap_and_give(&rt, &mut pool, one, "z");
    let three = take(&rt, &mut pool, "w");
    assert_text(&rt, &pool, two, "y");
    assert_text(&rt, &pool, three, "w");
    check_number(&rt, pool.slots() as u64, 16, "links of a node");
}

/// A link to a node that has the greatest numbers.
fn full_link(node: NodeRef) -> Link {
    let tag = Tag {
        key: u64::MAX,
        stamp: 7,
    };
    Link {
        forth: Some(node),
        size: u32::MAX,
        height: u8::MAX,
        tag,
        ..NO_LINK
    }
}

/// Asserts that a link is that one.
fn assert_full(rt: &impl Abort, link: Link) {
    let tag = link.tag.key == u64::MAX && link.tag.stamp == 7;
    let full = link.size == u32::MAX && link.height == u8::MAX && tag;
    check(rt, full, "the numbers of a link");
    check(rt, link.back.is_none() && link.forth.is_some(), "its nodes");
}

/// Asserts the size that a link has.
fn assert_size(rt: &impl Abort, link: Link, size: u32) {
    check_number(rt, u64::from(link.size), u64::from(size), "the size");
}

#[test]
fn links_are_kept_by_slot(rt: HostRuntime) {
    let mut pool: Pool<u8> = Pool::with_slots(rt.alloc(), 3);
    let node = take(&rt, &mut pool, 10);
    pool.set_link(node, 2, full_link(node));
    assert_full(&rt, pool.link(node, 2));
    assert_size(&rt, pool.link(node, 1), 0);
}

/// They are read as well through a counter of reads.
#[test]
fn links_are_read_counted(rt: HostRuntime) {
    let mut pool: Pool<u8> = Pool::with_slots(rt.alloc(), 3);
    let node = take(&rt, &mut pool, 10);
    pool.set_link(node, 2, full_link(node));
    let mut counted = Counted::new(&pool);
    assert_full(&rt, counted.link(node, 2));
    check_number(&rt, u64::from(*counted.value(node)), 10, "the value");
}

/// A node of a place that is used again has no links.
#[test]
fn links_are_given_back(rt: HostRuntime) {
    let mut pool: Pool<u8> = Pool::with_slots(rt.alloc(), 3);
    let one = take(&rt, &mut pool, 10);
    pool.set_link(one, 2, full_link(one));
    let _ = pool.give(one);
    let two = take(&rt, &mut pool, 11);
    assert_size(&rt, pool.link(two, 2), 0);
}

/// Each place has its own links.
#[test]
fn links_are_kept_by_place(rt: HostRuntime) {
    let mut pool: Pool<u8> = Pool::with_slots(rt.alloc(), 2);
    let one = take(&rt, &mut pool, 1);
    let two = take(&rt, &mut pool, 2);
    pool.set_link(one, 1, Link { size: 3, ..NO_LINK });
    pool.set_link(two, 1, Link { size: 5, ..NO_LINK });
    assert_size(&rt, pool.link(one, 1), 3);
    assert_size(&rt, pool.link(two, 1), 5);
}

/// A node is given back and another taken, maybe at its place.
fn take_instead(rt: &impl Abort, pool: &mut Pool<u8>, node: NodeRef, value: u8) -> NodeRef
    requires { IsHeld pool.old node }
    ensures held { IsHeld pool.new result }
{
    let _ = pool.give(node);
    take(rt, pool, value)
}

/// The place is used again.
#[test]
fn a_place_is_used_again(rt: HostRuntime) {
    let mut pool: Pool<u8> = Pool::with_slots(rt.alloc(), 1);
    let one = take(&rt, &mut pool, 1);
    let two = take_instead(&rt, &mut pool, one, 2);
    check_number(
        &rt,
        u64::from(two.name()),
        u64::from(one.name()),
        "the place",
    );
    check_number(&rt, u64::from(*pool.value(two)), 2, "its value");
}

/// Takes three nodes at places that were given back.
fn take_old(rt: &impl Abort, pool: &mut Pool<u8>) {
    for value in 0..3 {
        let node = take(rt, pool, value);
        check_few(rt, u64::from(node.name()), 2, "is no old place");
    }
}

/// Three places that are given back are used again, in whatever order.
#[test]
fn places_are_used_again(rt: HostRuntime) {
    let mut pool: Pool<u8> = Pool::with_slots(rt.alloc(), 1);
    let one = take(&rt, &mut pool, 1);
    let two = take(&rt, &mut pool, 2);
    let three = take(&rt, &mut pool, 3);
    let (last, first, middle) = (pool.give(three), pool.give(one), pool.give(two));
    check(
        &rt,
        first == 1 && middle == 2 && last == 3,
        "the values come back",
    );
    take_old(&rt, &mut pool);
}

/// Past a chunk of places the first node keeps what it has, and nodes are named one after the other.
#[test]
fn many_nodes_stand_in_chunks(rt: HostRuntime) {
    let mut pool: Pool<u32> = Pool::with_slots(rt.alloc(), 2);
    let first = take(&rt, &mut pool, 7);
    let mut link = NO_LINK;
    link.back = Some(first);
    pool.set_link(first, 1, link);
    for value in 0..2_300 {
        let node = take(&rt, &mut pool, value);
        let name = u64::from(node.name());
        check_number(&rt, name, u64::from(value) + 1, "the next name");
    }
    check_number(
        &rt,
        u64::from(*pool.value(first)),
        7,
        "the first node's value",
    );
    let back = name_of(pool.link(first, 1).back);
    check_option(&rt, back, Some(0), "the first node's link");
}

/// Asserts that a value that came back is the text "x", and that the pool can go on with it.
fn take_again(rt: &impl Abort, pool: &mut Pool<&'static str>, value: &'static str) {
    check_text(rt, value, "x");
    let node = take(rt, pool, value);
    assert_text(rt, pool, node, "x");
}

/// Run with an allocation that fails, it sees that the value comes back and the pool can go on.
#[test]
fn a_refused_take_gives_the_value_back(rt: HostRuntime) {
    let mut pool: Pool<&'static str> = Pool::with_slots(rt.alloc(), 1);
    if let Err((_, value)) = pool.take("x") {
        take_again(&rt, &mut pool, value);
    }
}

struct Counting<'a> {
    drops: &'a Cell<u64>,
}

impl Drop for Counting<'_> {
    fn drop(self) {
        let Counting { drops } = self;
        drops.set(drops.get().wrapping_add(1));
    }
}

#[test]
fn each_value_is_dropped_once(rt: HostRuntime) {
    let drops = Cell::new(0);
    let mut pool = Pool::with_slots(rt.alloc(), 2);
    let _ = take(&rt, &mut pool, Counting { drops: &drops });
    let two = take(&rt, &mut pool, Counting { drops: &drops });
    let three = take(&rt, &mut pool, Counting { drops: &drops });
    drop(pool.give(two));
    check_number(&rt, drops.get(), 1, "drops");
    drop(pool.swap_value(three, Counting { drops: &drops }));
    check_number(&rt, drops.get(), 2, "drops");
    drop(pool);
    check_number(&rt, drops.get(), 4, "drops");
}

#[test]
fn a_reference_is_small(rt: HostRuntime) {
    check_number(&rt, size_of::<NodeRef>() as u64, 4, "bytes of a reference");
}
