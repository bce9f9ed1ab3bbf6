//! Passes over the structures of all indexes, one after another. A change in one leaves all others standing, since each
//! sets links of its own slot alone. What a pass says of the node is lent to each step.
ghost use Rattle.std.specs.Prelude.{◌≡◌, ℕ, ◌+◌, ◌<◌, ◌^◌, ◌==◌, ◌↔◌, IsTrue, false, Some, List as Seq, ◌++◌, length, IfOk};
ghost use Rattle.mi_node.specs.Pool.{IsHeld, value_of, link_of};
ghost use Rattle.mi_node.specs.Refs.{Ref};
ghost use Rattle.mi_order.specs.declared.stored.Stored.{Stored as Value};
ghost use Rattle.mi_index.specs.Standing.{slot_in, Stands, IsLike};
ghost use Rattle.mi_index.specs.Places.{is_moved, mark_at, place_for, stamp_for};
ghost use Rattle.mi_index.specs.Pass.{AllStand, AllCan, IsReady, IsStep, AreReady, IsPass, AllLike, AllRoomy};
ghost use Rattle.mi_index.specs.Passes as pass;
ghost use Rattle.mi_index.specs.Passes.{HasNodeIf};
ghost use Rattle.mi_index.specs.Keeping as keep;
ghost use Rattle.mi_index.specs.Keeping.{KeepsFor, KeepsButLinks};
ghost use Rattle.mi_index.specs.Inserting as insert;
ghost use Rattle.mi_index.specs.Opened as opened;
ghost use Rattle.mi_index.specs.declared.structure.Structure.{Structure as One};

use crate::moved_indexes::{MovedIndexes, before_in, is_marked, place_at};
use crate::structure::Structure;
use mi_catalog::{Column, Index};
use mi_node::{NodeRef, OldPlace, Pool};
use mi_order::Stored;
use std::alloc::{AllocError, Global};

/// A node that comes into the indexes in which it moves: by its key and this stamp, in the list of the index that is given
/// directly before the node that is given, and last in each other list.
#[derive(Clone, Copy)]
pub(crate) struct Linking<'a> {
    pub(crate) node: NodeRef,
    pub(crate) moves: MovedIndexes<'a>,
    pub(crate) stamp: u64,
    pub(crate) before: Option<(usize, NodeRef)>,
}

/// Puts a node into one structure, if it moves there.
#[inline(always)]
fn link_one(structure: &mut Structure, slot: usize, p: &mut Pool<Stored>, it: &Linking<'_>)
    requires { IsReady (pass.joining it.now.moves it.now.node it.now.stamp it.now.before) slot structure.old p.old }
    ensures step { IsStep (pass.joining it.now.moves it.now.node it.now.stamp it.now.before)
        (pass.joined it.now.moves it.now.node it.now.stamp it.now.before) it.now.node slot structure.old structure.new p.old p.new }
    ensures like { IsLike structure.old structure.new }
{
    if it.moves.moves_in(slot) {
        structure.link(p, it.node, it.stamp, before_in(slot, it.before));
    }
}

/// Takes a node out of one structure, if it moves there.
fn unlink_one(
    structure: &mut Structure,
    slot: usize,
    p: &mut Pool<Stored>,
    node: NodeRef,
    moves: &MovedIndexes<'_>,
)
    requires { IsReady (pass.leaving moves.now node) slot structure.old p.old }
    ensures step { IsStep (pass.leaving moves.now node) (pass.left moves.now node) node slot structure.old structure.new p.old p.new }
    ensures like { IsLike structure.old structure.new }
{
    if moves.moves_in(slot) {
        structure.unlink(p, node);
    }
}

/// Where a node comes back to in one structure, if it moves there. Its own link isn't read where places are given.
fn place_of(
    p: &Pool<Stored>,
    slot: usize,
    node: NodeRef,
    moves: &MovedIndexes<'_>,
) -> Option<OldPlace>
    requires held { IsHeld p.now node }
    requires slot { slot < p.now.slots }
    ensures { result ≡ place_for moves.now slot (link_of p.now node.name slot) }
{
    match moves {
        MovedIndexes::Placed(all, kept) => place_at(all, kept, slot),
        _ => moves.place_in(slot, p.link(node, slot)),
    }
}

/// Puts a node back into one structure, if it moves there.
#[inline(always)]
fn relink_one(
    structure: &mut Structure,
    slot: usize,
    p: &mut Pool<Stored>,
    node: NodeRef,
    moves: &MovedIndexes<'_>,
)
    requires held { IsHeld p.old node }
    requires slot { slot < p.old.slots }
    requires ready { IsReady (pass.returning moves.now node) slot structure.old p.old }
    ensures step { IsStep (pass.returning moves.now node) (pass.returned moves.now node) node slot structure.old structure.new p.old p.new }
    ensures like { IsLike structure.old structure.new }
{
    if let Some(place) = place_of(p, slot, node, moves) {
        structure.relink(p, node, place);
    }
}

/// Moves a node in one structure, if that is of the index of this number.
fn relocate_one(
    structure: &mut Structure,
    slot: usize,
    p: &mut Pool<Stored>,
    index: usize,
    node: NodeRef,
    before: Option<NodeRef>,
)
    requires { IsReady (insert.relocating_at index node before) slot structure.old p.old }
    ensures step { IsStep (insert.relocating_at index node before) (insert.relocated_at index node before) node slot structure.old structure.new p.old p.new }
    ensures like { IsLike structure.old structure.new }
{
    if slot == index {
        structure.move_before(p, node, before);
    }
}

/// Whether a node keeps its place in one structure, with the value that it gets, and the stamp that it gets there.
fn keeps_one(
    structure: &Structure,
    slot: usize,
    p: &Pool<Stored>,
    node: NodeRef,
    stored: &Stored,
    moves: &MovedIndexes<'_>,
    stamp: u64,
) -> bool
    requires { IsReady (pass.leaving moves.now node) slot structure.now p.now }
    ensures { (rs : Seq Ref) → Stands structure.now p.now rs → HasNodeIf (is_moved moves.now slot) node rs
        → (IsTrue result ↔ KeepsFor (stamp_for moves.now slot stamp) structure.now p.now node stored.now rs) }
{
    match moves.stamp_in(slot, stamp) {
        None => false,
        Some(stamp) => structure.keeps_place(p, node, stored, stamp),
    }
}

/// Sets the flag of each structure in which a node moves: whether it keeps its place there.
pub(crate) fn find_kept(
    structures: &[Structure],
    slot: usize,
    p: &Pool<Stored>,
    node: NodeRef,
    stored: &Stored,
    moves: &MovedIndexes<'_>,
    stamp: u64,
    kept: &mut [bool],
)
    requires fits { slot + length structures.now < 2 ^ 64 }
    requires ready { AreReady (pass.leaving moves.now node) slot structures.now p.now }
    ensures flagged { (rss : Seq (Seq Ref)) → AllStand structures.now slot p.now rss → AllCan (pass.leaving moves.now node) structures.now slot p.now rss
        → AllCan (keep.flagged kept.new (λ s. stamp_for moves.now s stamp) node stored.now) structures.now slot p.now rss }
    ensures earlier { (k : ℕ) → k < slot → mark_at kept.new k ≡ mark_at kept.old k }
{
    let Some((structure, rest)) = structures.split_first() else {
        return;
    };
    if slot < kept.len() {
        kept[slot] = keeps_one(structure, slot, p, node, stored, moves, stamp);
    }
    find_kept(rest, slot + 1, p, node, stored, moves, stamp, kept);
}

/// Sets the tag of a node in one structure, if it keeps its place there: to that of the value that it has now, with the
/// stamp that it gets there.
fn retag_one(
    structure: &Structure,
    slot: usize,
    p: &mut Pool<Stored>,
    node: NodeRef,
    moves: &MovedIndexes<'_>,
    stamp: u64,
    kept: &[bool],
)
    requires held { IsHeld p.old node }
    requires slot { (slot_in structure.now ≡ slot) × (slot < p.old.slots) }
    ensures but { KeepsButLinks p.old p.new node }
    ensures own { (v : Value) → value_of p.old node.name ≡ Some v → link_of p.new node.name slot
        ≡ keep.own_link (keep.retags kept.now (λ s. stamp_for moves.now s stamp) slot) structure.now v (link_of p.old node.name slot) }
    ensures slots { (t : ℕ) → (slot == t) ≡ false → link_of p.new node.name t ≡ link_of p.old node.name t }
{
    if is_marked(kept, slot) {
        if let Some(stamp) = moves.stamp_in(slot, stamp) {
            structure.retag(p, node, stamp);
        }
    }
}

/// Sets the tags of a node in the structures in which it keeps its place.
pub(crate) fn retag_all(
    structures: &[Structure],
    slot: usize,
    p: &mut Pool<Stored>,
    node: NodeRef,
    moves: &MovedIndexes<'_>,
    stamp: u64,
    kept: &[bool],
)
    requires fits { slot + length structures.now < 2 ^ 64 }
    requires held { IsHeld p.old node }
    requires placed { keep.ArePlaced structures.now slot p.old }
    ensures but { KeepsButLinks p.old p.new node }
    ensures own { (v : Value) → value_of p.old node.name ≡ Some v
        → keep.AreRetagged (keep.retags kept.now (λ s. stamp_for moves.now s stamp)) node v structures.now slot p.old p.new }
    ensures earlier { (t : ℕ) → t < slot → link_of p.new node.name t ≡ link_of p.old node.name t }
{
    if let Some((structure, rest)) = structures.split_first() {
        retag_one(structure, slot, p, node, moves, stamp, kept);
        retag_all(rest, slot + 1, p, node, moves, stamp, kept);
    }
}

/// Puts a node into each structure in which it moves.
#[inline(always)]
pub(crate) fn link_all(structures: &mut [Structure], p: &mut Pool<Stored>, it: &Linking<'_>)
    requires { AreReady (pass.joining it.now.moves it.now.node it.now.stamp it.now.before) 0 structures.old p.old }
    ensures pass { IsPass (pass.joining it.now.moves it.now.node it.now.stamp it.now.before)
        (pass.joined it.now.moves it.now.node it.now.stamp it.now.before) it.now.node 0 structures.old structures.new p.old p.new }
    ensures like { AllLike structures.old structures.new }
{
    for (slot, structure) in structures.iter_mut().enumerate() {
        link_one(structure, slot, p, it);
    }
}

/// Takes a node out of each structure in which it moves.
pub(crate) fn unlink_all(
    structures: &mut [Structure],
    p: &mut Pool<Stored>,
    node: NodeRef,
    moves: &MovedIndexes<'_>,
)
    requires { AreReady (pass.leaving moves.now node) 0 structures.old p.old }
    ensures pass { IsPass (pass.leaving moves.now node) (pass.left moves.now node) node 0 structures.old structures.new p.old p.new }
    ensures like { AllLike structures.old structures.new }
{
    for (slot, structure) in structures.iter_mut().enumerate() {
        unlink_one(structure, slot, p, node, moves);
    }
}

/// Puts a node back into each structure in which it moves.
#[inline(always)]
pub(crate) fn relink_all(
    structures: &mut [Structure],
    p: &mut Pool<Stored>,
    node: NodeRef,
    moves: &MovedIndexes<'_>,
)
    requires held { IsHeld p.old node }
    requires all { AreReady (pass.returning moves.now node) 0 structures.old p.old }
    ensures pass { IsPass (pass.returning moves.now node) (pass.returned moves.now node) node 0 structures.old structures.new p.old p.new }
    ensures like { AllLike structures.old structures.new }
{
    for (slot, structure) in structures.iter_mut().enumerate() {
        relink_one(structure, slot, p, node, moves);
    }
}

/// Moves a node in the list of the index of this number, if it is one of the structures.
pub(crate) fn relocate_all(
    structures: &mut [Structure],
    p: &mut Pool<Stored>,
    index: usize,
    node: NodeRef,
    before: Option<NodeRef>,
)
    requires { AreReady (insert.relocating_at index node before) 0 structures.old p.old }
    ensures pass { IsPass (insert.relocating_at index node before) (insert.relocated_at index node before) node 0 structures.old structures.new p.old p.new }
    ensures like { AllLike structures.old structures.new }
{
    for (slot, structure) in structures.iter_mut().enumerate() {
        relocate_one(structure, slot, p, index, node, *&before);
    }
}

/// Makes room for n nodes in every structure. No list changes, also where memory is refused: the structures behind the one
/// that got none then stay as they are.
pub(crate) fn make_room_all(
    structures: &mut [Structure],
    alloc: Global,
    p: &mut Pool<Stored>,
    n: u64,
) -> Result<(), AllocError>
    requires { AreReady pass.nothing_asked 0 structures.old p.old }
    ensures pass { (r : Ref) → IsPass pass.nothing_asked pass.grown r 0 structures.old structures.new p.old p.new }
    ensures like { AllLike structures.old structures.new }
    ensures room { IfOk result (λ _. AllRoomy structures.new n) }
{
    for structure in structures.iter_mut() {
        structure.make_room(alloc, p, n)?;
    }
    Ok(())
}

/// Adds a structure for each index of a table with these columns, the first of which has this number; hashed ones have the
/// secret. Where memory is refused some may have been added.
pub(crate) fn add_structures(
    alloc: Global,
    indexes: &[Index],
    columns: &[Column],
    slot: usize,
    secret: u64,
    made: &mut Vec<Structure>,
) -> Result<(), AllocError>
    requires { slot + length indexes.now < 2 ^ 64 }
    ensures { IfOk result (λ _. (ys : Seq One) × (made.new.items ≡ made.old.items ++ ys)
        × opened.AllOpenedFor secret columns.now indexes.now slot ys × opened.AllEmpty ys) }
{
    if let Some((index, rest)) = indexes.split_first() {
        made.push(Structure::new(alloc, slot, index, columns, secret)?)?;
        add_structures(alloc, rest, columns, slot + 1, secret, made)?;
    }
    Ok(())
}
