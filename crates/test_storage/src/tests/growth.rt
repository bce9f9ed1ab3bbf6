//! A pool that grows by many chunks, whose nodes' values have a destructor, and one whose growth is refused.
#![tactic(auto, using(mi_node::proofs::EntryLemmas::held))]

ghost use Rattle.std.specs.Prelude.{◌≡◌, None};
ghost use Rattle.mi_node.specs.Pool.{IsHeld, ref_of, taken};

use super::asking::check_number;
use super::nodes::take;
use mi_node::{NodeRef, Pool};
use std::cell::Cell;
use std::process::Abort;

/// As many nodes as a hundred chunks have.
const MANY: u64 = 102_400;

/// A value that counts how often one of its kind is dropped.
struct Counted<'a> {
    drops: &'a Cell<u64>,
}

impl Drop for Counted<'_> {
    fn drop(self) {
        let Counted { drops } = self;
        drops.set(drops.get().wrapping_add(1));
    }
}

/// Takes nodes, each third of which is given back at once: its place is used by the next one.
fn take_many<'a>(rt: &impl Abort, pool: &mut Pool<Counted<'a>>, drops: &'a Cell<u64>) {
    for number in 0..MANY {
        let node = take(rt, pool, Counted { drops });
        if number % 3 == 0 {
            drop(pool.give(node));
        }
    }
}

/// Each value is dropped once: when its node is given back, or with the pool.
#[test]
fn a_hundred_chunks_are_freed(rt: HostRuntime) {
    let drops = Cell::new(0);
    let mut pool = Pool::with_slots(rt.alloc(), 3);
    take_many(&rt, &mut pool, &drops);
    check_number(&rt, drops.get(), 34_134, "drops");
    take_many(&rt, &mut pool, &drops);
    check_number(&rt, drops.get(), 68_268, "drops");
    drop(pool);
    check_number(&rt, drops.get(), 2 * MANY, "drops");
}

/// A new node of a value: where it is refused once, the value that came back is taken again.
pub(super) fn take_at_last(rt: &impl Abort, pool: &mut Pool<u64>, value: u64) -> NodeRef
    ensures free { ref_of pool.old result.name ≡ None }
    ensures pool { pool.new ≡ taken pool.old result value }
{
    match pool.take(value) {
        Ok(node) => node,
        Err((_, back)) => {
            check_number(rt, back, value, "the value that comes back");
            take(rt, pool, back)
        }
    }
}

/// Run with a request for memory refused at any growth, it sees that the value comes back, that the first
/// node has its value, and that the next try has the place that was to come.
#[test]
fn a_refused_growth_changes_nothing(rt: HostRuntime) {
    let mut pool = Pool::with_slots(rt.alloc(), 3);
    let first = take_at_last(&rt, &mut pool, 0);
    for number in 1..2_300 {
        let node = take_at_last(&rt, &mut pool, number);
        check_number(&rt, u64::from(node.name()), number, "the place to come");
        check_number(&rt, *pool.value(first), 0, "the first node's value");
    }
}
