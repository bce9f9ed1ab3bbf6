//! A chunk: a row of elements, and the right to free its memory.
//! Safe code over the row.
ghost use Rattle.std.specs.Prelude.{◌≡◌, ◌<◌, slice_index_or, slice_set, IfOk};
ghost use Rattle.core.specs.Mem.Slots.{slots_items, slots_ptr, slots_len, IsFull};
ghost use Rattle.mi_node.specs.Rows.{IsEmpty};

use crate::block::{Block, close, open};
use crate::chunks::CHUNK;
use crate::raw::Row;
use core::slots::Slots;
use std::alloc::{AllocError, Global};
use std::mem::size_of;
use std_alloc::room::{Vacant, may_hold};

/// As many elements as a chunk has, in a block of memory of their own.
pub(crate) struct Chunk<E> {
    pub(crate) row: Row<E>,
    right: Block<E, Global>,
    ghost here: { right.at ≡ row.at },
}

/// Memory for a chunk: as many places as it has, none of which has an element yet, and the right to free
/// it. A place with no element has one in contracts, so there must be one.
pub(crate) fn places_of<E>(alloc: Global) -> Result<(Slots<E>, Block<E, Global>), AllocError>
    requires some { E }
    ensures { IfOk result (λ p. (slots_len p.0 ≡ 1024) × (p.1.at ≡ slots_ptr p.0)) }
{
    if !may_hold::<E>(CHUNK) {
        return Err(AllocError);
    }
    match Vacant::take(alloc) {
        Ok(room) => Ok(open(room)),
        Err(_) => Err(AllocError),
    }
}

/// How many bytes of memory so many chunks take, whose elements have so many bytes each, and a list that has room for `room` chunks.
/// The greatest number stands for more.
pub(crate) fn memory_of(count: usize, element: usize, room: usize) -> u64 {
    let elements = count.saturating_mul(CHUNK).saturating_mul(element);
    let list = room.saturating_mul(size_of::<Chunk<u64>>());
    elements.saturating_add(list) as u64
}

impl<E> Chunk<E> {
    /// The chunk of places that have their elements.
    pub(crate) fn new(places: Slots<E>, right: Block<E, Global>) -> Chunk<E>
        requires count { slots_len places ≡ 1024 }
        requires full { IsFull places }
        requires here { right.at ≡ slots_ptr places }
        ensures { result.row.items ≡ slots_items places }
    {
        Chunk {
            row: Row::new(places),
            right,
        }
    }

    /// The element of an index.
    pub(crate) fn at(&self, i: usize) -> &E
        requires { i < 1024 }
        ensures { result.now ≡ slice_index_or self.now.row.items i result.now }
    {
        self.row.at(i)
    }

    /// Puts an element in place of another, which it gives back.
    pub(crate) fn replace(&mut self, i: usize, item: E) -> E
        requires { i < 1024 }
        ensures item { result ≡ slice_index_or self.old.row.items i result }
        ensures items { self.new.row.items ≡ slice_set self.old.row.items i item }
    {
        self.row.replace(i, item)
    }
}

impl<E: Drop> Drop for Chunk<E> {
    fn drop(self) {
        let Chunk { row, right } = self;
        let mut places = row.into_slots();
        empty(&mut places);
        let _ = close(right, places).free();
    }
}

/// Drops what stands in the places.
pub(crate) fn empty<E: Drop>(places: &mut Slots<E>)
    requires count { slots_len places.old ≡ 1024 }
    requires full { IsFull places.old }
    ensures same { (slots_ptr places.new ≡ slots_ptr places.old) × (slots_len places.new ≡ slots_len places.old) }
    ensures none { IsEmpty places.new }
{
    for i in 0..CHUNK {
        drop(places.take(i));
    }
}
