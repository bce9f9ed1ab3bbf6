//! A row of as many elements as a chunk has, behind a raw pointer. Beside `block`, this module alone holds raw pointers.
ghost use Rattle.std.specs.Prelude.{◌≡◌, ◌<◌, ℕ, Bool, List, length, slice_index_or, slice_set};
ghost use Rattle.core.specs.Mem.Slots.{slots_items, slots_filled, slots_ptr, slots_len, IsFull};
ghost use Rattle.core.specs.Mem.Slots.Ownership.{owned, lent, Filled};
ghost use Rattle.std_alloc.specs.Vec.Ownership.{FitsInBlock};

use core::slots::Slots;
use std::marker::Model;

/// Where the elements lie. No length stands beside it, and no test is made of an index.
pub(crate) struct Row<E> {
    at: *mut E,
    pub ghost items: { List E },
    ghost filled: { List Bool },
    ghost long: { (length items ≡ 1024) × (length filled ≡ 1024) },
    ghost full: { Filled filled 0 1024 },
}

impl<E> Model for Row<E> {
    ghost also_owns = { λ r. owned E.row r.at 1024 r.items r.filled };

    ghost also_shares = { λ r _ κ. lent E.row r.at 1024 r.items r.filled κ };
}

impl<E> Row<E> {
    /// The row of these places, each of which has its element.
    pub(crate) fn new(places: Slots<E>) -> Row<E>
        requires count { slots_len places ≡ 1024 }
        requires full { IsFull places }
        ensures at { result.at ≡ slots_ptr places }
        ensures items { result.items ≡ slots_items places }
    {
        let (at, _) = unsafe { places.into_raw_parts() };
        Row { at }
    }

    /// The places again.
    pub(crate) fn into_slots(self) -> Slots<E>
        ensures at { slots_ptr result ≡ self.at }
        ensures count { slots_len result ≡ 1024 }
        ensures full { IsFull result }
        ensures items { slots_items result ≡ self.items }
        ensures small { FitsInBlock E.row 1024 }
    {
        let Row { at } = self;
        unsafe { Slots::from_raw_parts(at, 1024) }
    }

    /// The element of an index.
    pub(crate) fn at(&self, i: usize) -> &E
        requires { i < 1024 }
        ensures { result.now ≡ slice_index_or self.now.items i result.now }
    {
        unsafe { &*self.at.add(i) }
    }

    /// Puts an element in place of another, which it gives back.
    pub(crate) fn replace(&mut self, i: usize, item: E) -> E
        requires { i < 1024 }
        ensures item { result ≡ slice_index_or self.old.items i result }
        ensures items { self.new.items ≡ slice_set self.old.items i item }
        ensures at { self.new.at ≡ self.old.at }
    {
        unsafe {
            let place = self.at.add(i);
            let old = place.read();
            place.write(item);
            old
        }
    }
}
