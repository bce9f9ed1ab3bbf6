//! The places of a pool: what stands at each, and its links.
//! Safe code over arrays in chunks: it never reads what a link says.
ghost use Rattle.std.specs.Prelude.{◌≡◌, ◌<◌, Some, None, IfOk, IsOk, IsTrue};
ghost use Rattle.mi_node.specs.Cells.{link_of_cell};
ghost use Rattle.mi_node.specs.Slab.{IsFreeAt, IsNotFreeAt};
ghost use Rattle.mi_node.specs.Pool.{IsHeld, IsNotLast, ref_of, value_of, link_of, no_nodes, taken, without, with_link, with_value};

use crate::cell::Cell;
use crate::chunks::{CHUNK, Chunks};
use crate::column::Column;
use crate::columns::{
    add_columns, clear, lengthen, link_at, memory_of, set_link_at, store_at, stored_at,
};
use crate::last_freed::LastFreed;
use crate::link::Link;
use crate::node_ref::{NodeRef, PLACES};
use crate::slab_entry::{BESIDE, SlabEntry, chunk_of_free, into_value, is_free, next_at, value_at};
use std::alloc::{AllocError, Global};

/// The places, each free or with a node. `free` is a place that is free, if one is: a free place
/// names the next one, and those that were given back come before those that were never used.
#[derive(Drop)]
pub(crate) struct Storage<T> {
    slab: Chunks<SlabEntry<T>>,
    columns: Vec<Column>,
    free: u32,
    slots: usize,
    last_freed: LastFreed,
    alloc: Global,
}

impl<T> Storage<T> {
    ghost use Rattle.mi_node.specs.Storage.{nodes, AreSound};

    /// No places, for nodes with `slots` links each. Takes no memory.
    pub(crate) fn new(alloc: Global, slots: usize) -> Storage<T>
        ensures nodes { nodes result ≡ no_nodes slots }
        ensures sound { AreSound result }
    {
        Storage {
            slab: Chunks::new(alloc),
            columns: Vec::new(alloc),
            free: PLACES,
            slots,
            last_freed: LastFreed::new(),
            alloc,
        }
    }

    /// How many links each node has.
    pub(crate) fn slots(&self) -> usize
        ensures { result ≡ (nodes self.now).slots }
    {
        self.slots
    }

    /// How many bytes of memory the places take, free ones too, where a value has so many: what stands at each, and its links.
    pub(crate) fn memory(&self, value: usize) -> u64 {
        let slab = self.slab.memory(value.saturating_add(BESIDE));
        slab.saturating_add(memory_of(&self.columns))
    }

    /// The first free place. Where there is none, a chunk of free places is added.
    pub(crate) fn free_place(&mut self) -> Result<usize, AllocError>
    where
        T: Drop,
        requires { AreSound self.old }
        ensures place { IfOk result (λ k. IsFreeAt self.new.slab k) }
        ensures first { IfOk result (λ k. self.new.free ≡ k) }
        ensures ready { IsFreeAt self.old.slab self.old.free → IsOk result }
        ensures nodes { nodes self.new ≡ nodes self.old }
        ensures sound { AreSound self.new }
    {
        if self.has_free() {
            return Ok(self.free as usize);
        }
        self.add_chunk()
    }

    /// Whether there is a free place: then `free` is one.
    fn has_free(&self) -> bool
        ensures free { IsTrue result → IsFreeAt self.now.slab self.now.free }
        ensures none { IsFreeAt self.now.slab self.now.free → IsTrue result }
    {
        let place = self.free as usize;
        if place >= self.slab.len() {
            return false;
        }
        is_free(self.slab.at(place))
    }

    /// Adds a chunk of free places, and answers the first of them. Memory is taken for the links
    /// first: what is taken where the rest is refused is of use later.
    fn add_chunk(&mut self) -> Result<usize, AllocError>
    where
        T: Drop,
        requires sound { AreSound self.old }
        requires none { IsNotFreeAt self.old.slab self.old.free }
        ensures place { IfOk result (λ k. IsFreeAt self.new.slab k) }
        ensures first { IfOk result (λ k. self.new.free ≡ k) }
        ensures nodes { nodes self.new ≡ nodes self.old }
        ensures sound { AreSound self.new }
    {
        let first = self.slab.len();
        if first > PLACES as usize - CHUNK {
            return Err(AllocError);
        }
        add_columns(&mut self.columns, self.slots, self.alloc)?;
        lengthen(&mut self.columns, first + CHUNK, self.alloc)?;
        self.slab
            .add(chunk_of_free(self.alloc, first as u32, self.free)?)?;
        self.free = first as u32;
        Ok(first)
    }

    /// A new node at the first free place, none of whose links is set.
    pub(crate) fn occupy(&mut self, place: usize, value: T) -> NodeRef
    where
        T: Drop,
        requires sound { AreSound self.old }
        requires free { IsFreeAt self.old.slab place }
        requires first { self.old.free ≡ place }
        ensures free { ref_of (nodes self.old) result.name ≡ None }
        ensures other { IsNotLast (nodes self.old) result }
        ensures nodes { nodes self.new ≡ taken (nodes self.old) result value }
        ensures sound { AreSound self.new }
    {
        let (node, next) = next_at(self.slab.at(place));
        clear(&mut self.columns, place);
        self.slab.set(place, SlabEntry::Held { node, value });
        self.free = next;
        node
    }

    /// Takes the node out, and gives its value back. Its place is free.
    pub(crate) fn vacate(&mut self, node: NodeRef) -> T
        requires sound { AreSound self.old }
        requires held { IsHeld (nodes self.old) node }
        ensures value { value_of (nodes self.old) node.name ≡ Some result }
        ensures nodes { nodes self.new ≡ without (nodes self.old) node.name }
        ensures sound { AreSound self.new }
    {
        let next = self.free;
        let slab_entry = self
            .slab
            .replace(node.name() as usize, SlabEntry::Free { node, next });
        self.free = node.name();
        self.last_freed.note(node.bits());
        into_value(slab_entry)
    }

    /// The node's value.
    pub(crate) fn value(&self, node: NodeRef) -> &T
        requires sound { AreSound self.now }
        requires held { IsHeld (nodes self.now) node }
        ensures { value_of (nodes self.now) node.name ≡ Some result.now }
    {
        value_at(self.slab.at(node.name() as usize))
    }

    /// Puts another value into the node, and gives the old one back.
    pub(crate) fn swap_value(&mut self, node: NodeRef, value: T) -> T
        requires sound { AreSound self.old }
        requires held { IsHeld (nodes self.old) node }
        ensures value { value_of (nodes self.old) node.name ≡ Some result }
        ensures nodes { nodes self.new ≡ with_value (nodes self.old) node.name value }
        ensures sound { AreSound self.new }
    {
        into_value(
            self.slab
                .replace(node.name() as usize, SlabEntry::Held { node, value }),
        )
    }

    /// The node's link of a slot.
    pub(crate) fn link(&self, node: NodeRef, slot: usize) -> Link
        requires sound { AreSound self.now }
        requires held { IsHeld (nodes self.now) node }
        requires slot { slot < self.now.slots }
        ensures { result ≡ link_of (nodes self.now) node.name slot }
    {
        link_at(&self.columns, node.name() as usize, slot)
    }

    /// Sets the node's link of a slot.
    pub(crate) fn set_link(&mut self, node: NodeRef, slot: usize, link: Link)
        requires sound { AreSound self.old }
        requires held { IsHeld (nodes self.old) node }
        requires slot { slot < self.old.slots }
        ensures nodes { nodes self.new ≡ with_link (nodes self.old) node.name slot link }
        ensures sound { AreSound self.new }
    {
        set_link_at(&mut self.columns, node.name() as usize, slot, link);
    }

    /// What is stored of the node's link of a slot.
    #[inline(always)]
    pub(crate) fn stored(&self, node: NodeRef, slot: usize) -> Cell
        requires sound { AreSound self.now }
        requires held { IsHeld (nodes self.now) node }
        requires slot { slot < self.now.slots }
        ensures { link_of_cell result ≡ link_of (nodes self.now) node.name slot }
    {
        stored_at(&self.columns, node.name() as usize, slot)
    }

    /// Sets what is stored of the node's link of a slot.
    #[inline(always)]
    pub(crate) fn store(&mut self, node: NodeRef, slot: usize, cell: Cell)
        requires sound { AreSound self.old }
        requires held { IsHeld (nodes self.old) node }
        requires slot { slot < self.old.slots }
        ensures nodes { nodes self.new ≡ with_link (nodes self.old) node.name slot (link_of_cell cell) }
        ensures sound { AreSound self.new }
    {
        store_at(&mut self.columns, node.name() as usize, slot, cell);
    }
}
