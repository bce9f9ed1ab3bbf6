//! A pool of which the links that are read are counted.
//! It lends what the pool lends by `value` and `link`, and changes nothing in it.
ghost use Rattle.std.specs.Prelude.{◌≡◌, ◌<◌, ◌+◌, Some};
ghost use Rattle.mi_node.specs.Pool.{IsHeld, value_of, link_of};

use crate::link::Link;
use crate::node_ref::NodeRef;
use crate::pool::Pool;
use mi_value::Steps;
use std::marker::Model;

/// A pool to be read, and how many links were read of it. The number stands in contracts alone: it
/// takes no bytes and no time when the program runs.
#[derive(Drop)]
pub struct Counted<'a, T> {
    pool: &'a Pool<T>,
    steps: Steps,
}

impl<'a, T> Model for Counted<'a, T> {
    ghost use Rattle.mi_node.specs.Counted.{CountedPool, counted_code};

    ghost Value = { CountedPool T };

    ghost coded = { counted_code T.code };

    ghost view = { λ c. record { pool = c.pool.now; reads = c.steps.count } };
}

impl<'a, T> Counted<'a, T> {
    /// The pool, with no link read yet.
    pub fn new(pool: &'a Pool<T>) -> Counted<'a, T>
        ensures pool { result.pool ≡ pool.now }
        ensures reads { result.reads ≡ 0 }
    {
        Counted {
            pool,
            steps: Steps::new(),
        }
    }

    /// The node's value. Not counted.
    pub fn value(&self, node: NodeRef) -> &'a T
        requires { IsHeld self.now.pool node }
        ensures { value_of self.now.pool node.name ≡ Some result.now }
    {
        self.pool.value(node)
    }

    /// The node's link of a slot, counted from 0. It is one read more.
    pub fn link(&mut self, node: NodeRef, slot: usize) -> Link
        requires held { IsHeld self.old.pool node }
        requires slot { slot < self.old.pool.slots }
        ensures link { result ≡ link_of self.old.pool node.name slot }
        ensures pool { self.new.pool ≡ self.old.pool }
        ensures reads { self.new.reads ≡ self.old.reads + 1 }
    {
        self.steps.tick();
        self.pool.link(node, slot)
    }
}
