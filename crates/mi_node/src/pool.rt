//! The pool of all nodes, seen as a finite map from places.
//! Safe code over the places: it never reads what a link says.
ghost use Rattle.std.specs.Prelude.{◌≡◌, ◌<◌, ◌≤◌, Some, None, IfOk, IfErr, IsOk, cond};
ghost use Rattle.mi_node.specs.Cells.{sided, sized};
ghost use Rattle.mi_node.specs.Pool.{HasSpare, IsHeld, IsNotLast, ref_of, value_of, link_of, no_nodes, taken, without, with_link, with_value};

use crate::link::Link;
use crate::node_ref::NodeRef;
use crate::storage::Storage;
use std::alloc::{AllocError, Global};
use std::marker::Model;

/// The most links that a node has: one for each of fifteen declared indexes, and one for the index by id.
pub const MAX_SLOTS: usize = 16;

/// Nodes that are reached by plain references, each with a value and as many links as the pool has
/// slots. Contracts see the number of slots, a map from the name of each node to the reference that
/// `take` gave, its value and its links, and which reference of each name was given back last.
///
/// A node's name is its place, a number below 2^31. A place that was given back is used again. A
/// reference is held while this pool's node of its name has that very reference. What `take` gives is
/// never the reference that was given back last at that place, so one that was given back isn't held
/// before the next one of its place is given back too. From then on it may be the same four bytes as
/// one that is held, since a reference has one bit to tell nodes of a place apart; and so may a
/// reference of another pool. Nothing proves such a one held, and nothing proves that it isn't.
///
/// Memory is taken for 1,024 places at once: 32 bytes a slot for each, the value, and 8 bytes. No
/// place is ever moved, and none is freed before the pool is dropped, which drops the value of each
/// held node.
#[derive(Drop)]
pub struct Pool<T> {
    storage: Storage<T>,
}

impl<T> Model for Pool<T> {
    ghost use Rattle.mi_node.specs.Pool.{Pooled, pooled_code};

    ghost Value = { Pooled T };

    ghost coded = { pooled_code T.code };

    ghost use Rattle.mi_node.specs.Storage.{nodes, AreSound};

    ghost view = { λ p. nodes p.storage };

    ghost invariant = { λ p. AreSound p.storage };
}

impl<T> Pool<T> {
    /// An empty pool, whose nodes will have sixteen links each. Takes no memory.
    pub fn new(alloc: Global) -> Pool<T>
        ensures { result ≡ no_nodes MAX_SLOTS }
    {
        Pool::with_slots(alloc, MAX_SLOTS)
    }

    /// An empty pool, whose nodes will have `slots` links each, 1 to 16. Takes no memory.
    pub fn with_slots(alloc: Global, slots: usize) -> Pool<T>
        requires some { 1 ≤ slots }
        requires few { slots ≤ MAX_SLOTS }
        ensures { result ≡ no_nodes slots }
    {
        Pool {
            storage: Storage::new(alloc, slots),
        }
    }

    /// How many links each node has.
    pub fn slots(&self) -> usize
        ensures { result ≡ self.now.slots }
    {
        self.storage.slots()
    }

    /// How many bytes of memory the pool has taken, where a value has `value` bytes, by `size_of`: for each of its places, a free one
    /// too, a value and the links. What a value holds in memory of its own isn't counted. It takes a step for each slot, however many
    /// nodes there are. No clause says how many; tests do.
    pub fn memory(&self, value: usize) -> u64 {
        self.storage.memory(value)
    }

    /// Puts the value into a new node, none of whose links is set. Its name is a place where no node
    /// stands: one that was given back, or a new one. The reference isn't the one that was given back
    /// last at that place.
    ///
    /// Where memory is refused, or no place is left, the pool is as it was and
    /// the value comes back. Where a place that was given back is free, no memory is asked for, and it
    /// isn't refused.
    pub fn take(&mut self, value: T) -> Result<NodeRef, (AllocError, T)>
    where
        T: Drop,
        ensures free { IfOk result (λ r. ref_of self.old r.name ≡ None) }
        ensures other { IfOk result (λ r. IsNotLast self.old r) }
        ensures ok { IfOk result (λ r. self.new ≡ taken self.old r value) }
        ensures ready { HasSpare self.old → IsOk result }
        ensures value_returned { IfErr result (λ e. e.1 ≡ value) }
        ensures err { IfErr result (λ _. self.new ≡ self.old) }
    {
        match self.storage.free_place() {
            Ok(place) => Ok(self.storage.occupy(place, value)),
            Err(refused) => Err((refused, value)),
        }
    }

    /// Takes the node out of the pool, and gives its value back. Its place may be used again, by another
    /// reference than this one.
    pub fn give(&mut self, node: NodeRef) -> T
        requires { IsHeld self.old node }
        ensures value { value_of self.old node.name ≡ Some result }
        ensures pool { self.new ≡ without self.old node.name }
    {
        self.storage.vacate(node)
    }

    /// The node's value.
    pub fn value(&self, node: NodeRef) -> &T
        requires { IsHeld self.now node }
        ensures { value_of self.now node.name ≡ Some result.now }
    {
        self.storage.value(node)
    }

    /// Puts another value into the node, and gives the old one back. The node's reference and links stay.
    pub fn swap_value(&mut self, node: NodeRef, value: T) -> T
        requires { IsHeld self.old node }
        ensures value { value_of self.old node.name ≡ Some result }
        ensures pool { self.new ≡ with_value self.old node.name value }
    {
        self.storage.swap_value(node, value)
    }

    /// The node's link of a slot, counted from 0.
    pub fn link(&self, node: NodeRef, slot: usize) -> Link
        requires held { IsHeld self.now node }
        requires slot { slot < self.now.slots }
        ensures { result ≡ link_of self.now node.name slot }
    {
        self.storage.link(node, slot)
    }

    /// Sets the node's link of a slot, counted from 0. All other links stay.
    pub fn set_link(&mut self, node: NodeRef, slot: usize, link: Link)
        requires held { IsHeld self.old node }
        requires slot { slot < self.old.slots }
        ensures { self.new ≡ with_link self.old node.name slot link }
    {
        self.storage.set_link(node, slot, link);
    }

    /// One neighbour of the node's link of a slot, counted from 0: `back`, or else `forth`. It reads no more of the link.
    #[inline(always)]
    pub fn neighbour(&self, node: NodeRef, slot: usize, back: bool) -> Option<NodeRef>
        requires held { IsHeld self.now node }
        requires slot { slot < self.now.slots }
        ensures { result ≡ cond back (link_of self.now node.name slot).back (link_of self.now node.name slot).forth }
    {
        self.storage.stored(node, slot).neighbour(back)
    }

    /// Sets the size in the node's link of a slot, counted from 0. The rest of the link and all other links stay.
    #[inline(always)]
    pub fn set_size(&mut self, node: NodeRef, slot: usize, size: u32)
        requires held { IsHeld self.old node }
        requires slot { slot < self.old.slots }
        ensures { self.new ≡ with_link self.old node.name slot (sized size (link_of self.old node.name slot)) }
    {
        let cell = self.storage.stored(node, slot);
        self.storage.store(node, slot, cell.with_size(size));
    }

    /// Sets one neighbour in the node's link of a slot, counted from 0: `back`, or else `forth`; and the height. The rest of the link
    /// and all other links stay.
    #[inline(always)]
    pub fn set_side(
        &mut self,
        node: NodeRef,
        slot: usize,
        back: bool,
        neighbour: Option<NodeRef>,
        height: u8,
    )
        requires held { IsHeld self.old node }
        requires slot { slot < self.old.slots }
        ensures { self.new ≡ with_link self.old node.name slot (sided back neighbour height (link_of self.old node.name slot)) }
    {
        let cell = self.storage.stored(node, slot);
        self.storage
            .store(node, slot, cell.with_side(back, neighbour, height));
    }
}
