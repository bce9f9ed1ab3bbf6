//! Which reference of each name was given back last, for contracts alone. Proved by hand, since ghost data has no code.
ghost use Rattle.std.specs.Prelude.{◌≡◌, ℕ, ◌/◌, ◌%◌};
ghost use Rattle.std.specs.Ordering.{nat_cmp};
ghost use Rattle.std.specs.FinMap.{FinMap, insert, empty, code};
ghost use Rattle.std.specs.Coded.{coded_ℕ};
ghost use base.Fml.{ftrue};

use std::marker::{Model, PhantomData};

/// The generation of the reference that was given back last, by its name: what contracts see, and no bytes
/// when the program runs. What ties it to what runs is that a place which is free keeps that reference,
/// as the pool's invariant says.
#[derive(Drop)]
pub(crate) struct LastFreed {
    seen: PhantomData<()>,
    pub ghost marks: { FinMap nat_cmp ℕ } by { code coded_ℕ coded_ℕ },
}

impl Model for LastFreed {
    ghost also_owns = { λ _. ftrue };
}

impl LastFreed {
    /// Nothing was given back yet.
    pub(crate) fn new() -> LastFreed
        ensures { result.marks ≡ empty }
    {
        LastFreed { seen: PhantomData }
    }

    /// The reference of those bits was given back.
    pub(crate) fn note(&mut self, bits: u32)
        ensures { self.new.marks ≡ insert self.old.marks (bits / 2) (bits % 2) }
    {}
}
