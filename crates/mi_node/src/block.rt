//! The memory of a chunk: a block that is its places and nothing else.
//! Beside `raw`, this module alone holds raw pointers.
ghost use Rattle.std.specs.Prelude.{◌≡◌};
ghost use Rattle.core.specs.Mem.Slots.{slots_ptr, slots_len};
ghost use Rattle.std_alloc.specs.Vec.Ownership.{FitsInBlock};
ghost use Rattle.mi_node.specs.Blocks.{owned_block};
ghost use Rattle.mi_node.specs.Rows.{IsEmpty};

use core::slots::Slots;
use std::alloc::Allocator;
use std::marker::Model;
use std_alloc::room::Vacant;

/// The right to free a block.
pub(crate) struct Block<E, A: Allocator> {
    at: *mut E,
    alloc: A,
}

impl<E, A: Allocator> Model for Block<E, A> {
    ghost also_owns = { λ f. owned_block (A.dealloc_token f.alloc) E.row f.at };
}

/// The places of a block, none of which has an element yet. A place with no
/// element has one in contracts, so there must be one.
pub(crate) fn open<E, A: Allocator>(room: Vacant<[E; 1024], A>) -> (Slots<E>, Block<E, A>)
    requires fits { FitsInBlock E.row 1024 }
    requires some { E }
    ensures count { slots_len result.0 ≡ 1024 }
    ensures at { result.1.at ≡ slots_ptr result.0 }
{
    let Vacant { ptr, alloc } = room;
    let at = ptr as *mut E;
    let places = unsafe { Slots::from_raw_parts(at, 1024) };
    (places, Block { at, alloc })
}

/// The block again. No place has an element.
pub(crate) fn close<E, A: Allocator>(block: Block<E, A>, places: Slots<E>) -> Vacant<[E; 1024], A>
    requires at { block.at ≡ slots_ptr places }
    requires count { slots_len places ≡ 1024 }
    requires none { IsEmpty places }
    ensures { result.alloc ≡ block.alloc }
{
    let _parts = unsafe { places.into_raw_parts() };
    let Block { at, alloc } = block;
    Vacant {
        ptr: at as *mut [E; 1024],
        alloc,
    }
}
