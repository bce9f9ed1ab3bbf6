//! The structures of all indexes of one table, and for how many nodes each of them has room: so where a node comes in and
//! nothing has to grow, one comparison says so. It knows no values of nodes.
ghost use Rattle.std.specs.Prelude.{◌≡◌, ℕ, ◌<◌, ◌≤◌, ◌^◌, true, false, Some, List as Seq, length, IfOk, slice_get};
ghost use Rattle.mi_node.specs.Pool.{IsHeld, value_of};
ghost use Rattle.mi_node.specs.Refs.{Ref};
ghost use Rattle.mi_order.specs.declared.stored.Stored.{Stored as Value};
ghost use Rattle.mi_index.specs.Places.{stamp_for, mark_at};
ghost use Rattle.mi_index.specs.Pass.{AllStand, AllCan, AreReady, IsPass, AllLike, AllRoomy};
ghost use Rattle.mi_index.specs.Keeping as keep;
ghost use Rattle.mi_index.specs.Passes as pass;
ghost use Rattle.mi_index.specs.Inserting as insert;
ghost use Rattle.mi_index.specs.Opened as opened;

use crate::all::{
    Linking, add_structures, find_kept, link_all, make_room_all, relink_all, relocate_all,
    retag_all, unlink_all,
};
use crate::moved_indexes::MovedIndexes;
use crate::structure::Structure;
use mi_catalog::{Column, Index};
use mi_node::{NodeRef, Pool};
use mi_order::Stored;
use std::alloc::{AllocError, Global};
use std::marker::Model;
use std::mem::size_of;

/// The structures of all indexes, by their numbers.
#[derive(Drop)]
pub struct Structures {
    items: Vec<Structure>,
    room: u64,
}

impl Model for Structures {
    ghost use Rattle.mi_index.specs.Pass.{AllRoomy};
    ghost use Rattle.mi_index.specs.Indexed.{Indexed};

    ghost Value = { Indexed };

    ghost view = { λ s. record { items = s.items.items } };

    ghost invariant = { λ s. AllRoomy s.items.items s.room };
}

/// How many indexes a table has at most.
const FLAGS: usize = 16;

/// How many nodes there is to be room for, where there are to be n: as many as chains then have buckets, so that they aren't
/// asked again before they are full.
fn room_for(n: u64) -> u64
    ensures { n ≤ result }
{
    match n.checked_next_power_of_two() {
        Some(room) => room,
        None => n,
    }
}

/// Whether no flag is set.
fn keeps_none(kept: &[bool; FLAGS]) -> bool
    ensures { result ≡ true → (s : ℕ) → mark_at kept.now s ≡ false }
{
    *kept == [false; FLAGS]
}

impl Structures {
    /// A structure for each index of a table with these columns, without nodes; hashed ones have the secret. Where memory is
    /// refused there are none.
    pub(crate) fn new(
        alloc: Global,
        indexes: &[Index],
        columns: &[Column],
        secret: u64,
    ) -> Result<Structures, AllocError>
        requires { length indexes.now < 2 ^ 64 }
        ensures { IfOk result (λ s. opened.AllOpenedFor secret columns.now indexes.now 0 s.items × opened.AllEmpty s.items) }
    {
        let mut items = Vec::new(alloc);
        add_structures(alloc, indexes, columns, 0, secret, &mut items)?;
        Ok(Structures { items, room: 0 })
    }

    /// How many bytes of memory they take beside their nodes: a step for each of them. No clause says how many; tests do.
    pub fn memory(&self) -> u64 {
        let mut bytes = self.items.capacity().saturating_mul(size_of::<Structure>()) as u64;
        for structure in self.items.iter() {
            bytes = bytes.saturating_add(structure.memory());
        }
        bytes
    }

    /// The structure of the index of a number.
    pub fn at(&self, index: usize) -> &Structure
        requires { index < length self.now.items }
        ensures { slice_get self.now.items index ≡ Some result.now }
    {
        &self.items[index]
    }

    /// Puts a node into each structure in which it moves. Takes no memory. In line, so that of all indexes none is asked whether it moves.
    #[inline(always)]
    pub(crate) fn link(&mut self, p: &mut Pool<Stored>, it: &Linking<'_>)
        requires { AreReady (pass.joining it.now.moves it.now.node it.now.stamp it.now.before) 0 self.old.items p.old }
        ensures pass { IsPass (pass.joining it.now.moves it.now.node it.now.stamp it.now.before)
            (pass.joined it.now.moves it.now.node it.now.stamp it.now.before) it.now.node 0 self.old.items self.new.items p.old p.new }
        ensures like { AllLike self.old.items self.new.items }
    {
        link_all(self.items.as_mut_slice(), p, it);
    }

    /// Takes a node out of each structure in which it moves. Takes no memory.
    pub(crate) fn unlink(&mut self, p: &mut Pool<Stored>, node: NodeRef, moves: &MovedIndexes<'_>)
        requires { AreReady (pass.leaving moves.now node) 0 self.old.items p.old }
        ensures pass { IsPass (pass.leaving moves.now node) (pass.left moves.now node) node 0 self.old.items self.new.items p.old p.new }
        ensures like { AllLike self.old.items self.new.items }
    {
        unlink_all(self.items.as_mut_slice(), p, node, moves);
    }

    /// Whether a node keeps its place in each structure in which it moves, with the value that it gets, and the stamp that
    /// it gets there: a flag each. Past the flags, which are enough for a table's indexes, none keeps it.
    pub(crate) fn find_kept(
        &self,
        p: &Pool<Stored>,
        node: NodeRef,
        stored: &Stored,
        moves: &MovedIndexes<'_>,
        stamp: u64,
    ) -> [bool; FLAGS]
        requires { AreReady (pass.leaving moves.now node) 0 self.now.items p.now }
        ensures { (rss : Seq (Seq Ref)) → AllStand self.now.items 0 p.now rss → AllCan (pass.leaving moves.now node) self.now.items 0 p.now rss
            → AllCan (keep.flagged result (λ s. stamp_for moves.now s stamp) node stored.now) self.now.items 0 p.now rss }
    {
        let mut kept = [false; FLAGS];
        find_kept(
            self.items.as_slice(),
            0,
            p,
            node,
            stored,
            moves,
            stamp,
            &mut kept,
        );
        kept
    }

    /// Sets the tags of a node in the structures in which it keeps its place, by the value that it has now. Takes no memory.
    #[inline(always)]
    pub(crate) fn retag(
        &self,
        p: &mut Pool<Stored>,
        node: NodeRef,
        moves: &MovedIndexes<'_>,
        stamp: u64,
        kept: &[bool; FLAGS],
    )
        requires held { IsHeld p.old node }
        requires placed { keep.ArePlaced self.now.items 0 p.old }
        ensures but { keep.KeepsButLinks p.old p.new node }
        ensures own { (v : Value) → value_of p.old node.name ≡ Some v
            → keep.AreRetagged (keep.retags kept.now (λ s. stamp_for moves.now s stamp)) node v self.now.items 0 p.old p.new }
    {
        if keeps_none(kept) {
            return;
        }
        retag_all(self.items.as_slice(), 0, p, node, moves, stamp, kept);
    }

    /// Puts a node back into each structure in which it moves. Takes no memory.
    #[inline(always)]
    pub(crate) fn relink(&mut self, p: &mut Pool<Stored>, node: NodeRef, moves: &MovedIndexes<'_>)
        requires held { IsHeld p.old node }
        requires all { AreReady (pass.returning moves.now node) 0 self.old.items p.old }
        ensures pass { IsPass (pass.returning moves.now node) (pass.returned moves.now node) node 0 self.old.items self.new.items p.old p.new }
        ensures like { AllLike self.old.items self.new.items }
    {
        relink_all(self.items.as_mut_slice(), p, node, moves);
    }

    /// Moves a node in the list of the index of this number directly before another one, or to the end. Takes no memory.
    pub(crate) fn relocate(
        &mut self,
        p: &mut Pool<Stored>,
        index: usize,
        node: NodeRef,
        before: Option<NodeRef>,
    )
        requires { AreReady (insert.relocating_at index node before) 0 self.old.items p.old }
        ensures pass { IsPass (insert.relocating_at index node before) (insert.relocated_at index node before) node 0 self.old.items self.new.items p.old p.new }
        ensures like { AllLike self.old.items self.new.items }
    {
        relocate_all(self.items.as_mut_slice(), p, index, node, before);
    }

    /// Makes room for n nodes in each structure. Where there is room already it costs nothing. No list changes, also where
    /// memory is refused.
    pub(crate) fn make_room(
        &mut self,
        alloc: Global,
        p: &mut Pool<Stored>,
        n: u64,
    ) -> Result<(), AllocError>
        requires { AreReady pass.nothing_asked 0 self.old.items p.old }
        ensures pass { (r : Ref) → IsPass pass.nothing_asked pass.grown r 0 self.old.items self.new.items p.old p.new }
        ensures like { AllLike self.old.items self.new.items }
        ensures room { IfOk result (λ _. AllRoomy self.new.items n) }
    {
        if n <= self.room {
            return Ok(());
        }
        self.grow(alloc, p, n)
    }

    /// Makes room for n nodes in each structure, or for more, and notes for how many. No list changes, also where memory is refused.
    fn grow(&mut self, alloc: Global, p: &mut Pool<Stored>, n: u64) -> Result<(), AllocError>
        requires { AreReady pass.nothing_asked 0 self.old.items p.old }
        ensures pass { (r : Ref) → IsPass pass.nothing_asked pass.grown r 0 self.old.items self.new.items p.old p.new }
        ensures like { AllLike self.old.items self.new.items }
        ensures room { IfOk result (λ _. AllRoomy self.new.items n) }
    {
        let room = room_for(n);
        make_room_all(self.items.as_mut_slice(), alloc, p, room)?;
        self.room = room;
        Ok(())
    }
}
