//! New nodes of a pool, where there is memory.
ghost use Rattle.std.specs.Prelude.{◌≡◌, ◌==◌, false, None};
ghost use Rattle.mi_node.specs.Pool.{IsHeld, IsNotLast, ref_of, taken};

use mi_node::{NodeRef, Pool};
use std::process::Abort;

/// A new node of a value.
pub(super) fn take<T>(rt: &impl Abort, pool: &mut Pool<T>, value: T) -> NodeRef
where
    T: Drop,
    ensures free { ref_of pool.old result.name ≡ None }
    ensures other { IsNotLast pool.old result }
    ensures pool { pool.new ≡ taken pool.old result value }
{
    let Ok(node) = pool.take(value) else {
        panic!(rt; "no memory");
    };
    node
}

/// Three new nodes.
#[derive(Clone, Copy)]
pub(super) struct Three {
    pub(super) one: NodeRef,
    pub(super) two: NodeRef,
    pub(super) three: NodeRef,
}

/// New nodes of three values.
pub(super) fn take_three<T>(
    rt: &impl Abort,
    pool: &mut Pool<T>,
    first: T,
    second: T,
    third: T,
) -> Three
where
    T: Drop,
    ensures held { IsHeld pool.new result.one × IsHeld pool.new result.two × IsHeld pool.new result.three }
    ensures second { (result.two.name == result.one.name) ≡ false }
    ensures third { (result.three.name == result.one.name) ≡ false }
    ensures last { (result.three.name == result.two.name) ≡ false }
    ensures slots { pool.new.slots ≡ pool.old.slots }
{
    let one = take(rt, pool, first);
    let two = take(rt, pool, second);
    let three = take(rt, pool, third);
    Three { one, two, three }
}

/// The name of a node, if there is one.
pub(super) fn name_of(node: Option<NodeRef>) -> Option<u32> {
    match node {
        None => None,
        Some(node) => Some(node.name()),
    }
}
