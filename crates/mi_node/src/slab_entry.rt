//! A place for a node: one stands there, or it is free.
//! Plain data, which knows nothing of other places.
ghost use Rattle.std.specs.Prelude.{◌≡◌, ◌≤◌, ◌+◌, ◌-◌, Some, IfOk, IsTrue, is_some};
ghost use Rattle.core.specs.Mem.Slots.{slots_items, slots_ptr, slots_len, IsFull};
ghost use Rattle.mi_node.specs.Slab.{IsFree, AreFree, node_in, value_in};
ghost use Rattle.mi_node.specs.Spares.{GoesOn};

use crate::chunk::{Chunk, places_of};
use crate::chunks::CHUNK;
use crate::node_ref::{NodeRef, PLACES};
use core::slots::Slots;
use std::alloc::{AllocError, Global};
use std::mem::size_of;

/// What stands at a place: a node, or nothing, with the number of the next free place. A free place
/// keeps the reference of the last node that stood there.
#[derive(Drop)]
pub(crate) enum SlabEntry<T> {
    Free { node: NodeRef, next: u32 },
    Held { node: NodeRef, value: T },
}

/// How many bytes a place has beside a value.
pub(crate) const BESIDE: usize = 8;

const _: () = prove!(size_of::<SlabEntry<u64>>() == size_of::<u64>() + BESIDE);

/// A reference for the next node at a free place, and the number of the free place after it.
pub(crate) fn next_at<T>(slab_entry: &SlabEntry<T>) -> (NodeRef, u32)
    requires { IsFree slab_entry.now }
    ensures name { result.0.name ≡ (node_in slab_entry.now).name }
    ensures generation { result.0.generation ≡ 1 - (node_in slab_entry.now).generation }
    ensures next { GoesOn result.1 (Some slab_entry.now) }
{
    match slab_entry {
        SlabEntry::Free { node, next } => (node.renewed(), *next),
        SlabEntry::Held { node: _, value: _ } => unreachable!(),
    }
}

/// The value of the node that stands there.
pub(crate) fn value_at<T>(slab_entry: &SlabEntry<T>) -> &T
    requires { IsTrue (is_some (value_in slab_entry.now)) }
    ensures { value_in slab_entry.now ≡ Some result.now }
{
    match slab_entry {
        SlabEntry::Held { node: _, value } => value,
        SlabEntry::Free { node: _, next: _ } => unreachable!(),
    }
}

/// The value of the node that stood there.
pub(crate) fn into_value<T>(slab_entry: SlabEntry<T>) -> T
    requires { IsTrue (is_some (value_in slab_entry)) }
    ensures { value_in slab_entry ≡ Some result }
{
    match slab_entry {
        SlabEntry::Held { node: _, value } => value,
        SlabEntry::Free { node: _, next: _ } => unreachable!(),
    }
}

/// Whether no node stands there.
pub(crate) fn is_free<T>(slab_entry: &SlabEntry<T>) -> bool
    ensures free { IsTrue result → IsFree slab_entry.now }
    ensures held { IsFree slab_entry.now → IsTrue result }
{
    match slab_entry {
        SlabEntry::Free { node: _, next: _ } => true,
        SlabEntry::Held { node: _, value: _ } => false,
    }
}

/// A chunk of free places, the first of which has the number `first`. Each names the one after it as
/// the next free place, and the last names `next`.
pub(crate) fn chunk_of_free<T>(
    alloc: Global,
    first: u32,
    next: u32,
) -> Result<Chunk<SlabEntry<T>>, AllocError>
where
    T: Drop,
    requires { first + 1024 ≤ PLACES }
    ensures { IfOk result (λ c. AreFree first c.row.items) }
{
    let (mut places, right) = places_of(alloc)?;
    fill(&mut places, first, next);
    Ok(Chunk::new(places, right))
}

/// Writes each place once, from the last one on.
fn fill<T>(places: &mut Slots<SlabEntry<T>>, first: u32, next: u32)
    requires count { slots_len places.old ≡ 1024 }
    requires fits { first + 1024 ≤ PLACES }
    ensures full { IsFull places.new }
    ensures free { AreFree first (slots_items places.new) }
    ensures same { (slots_ptr places.new ≡ slots_ptr places.old) × (slots_len places.new ≡ slots_len places.old) }
{
    let mut after = next;
    for i in 0..CHUNK as u32 {
        let place = first + (CHUNK as u32 - 1 - i);
        let node = NodeRef::new(place, 0);
        places.put(
            CHUNK - 1 - i as usize,
            SlabEntry::Free { node, next: after },
        );
        after = place;
    }
}
