//! A reference, or none, in four bytes. Plain data: it owns no node and never follows a reference.
ghost use Rattle.std.specs.Prelude.{◌≡◌, ⊤};

use crate::cell::{bits_of, ref_of};
use crate::node_ref::NodeRef;
use std::alloc::AllocError;
use std::marker::Model;

/// A reference or none, in the four bytes of a reference: contracts see the `Option`.
#[derive(Drop)]
pub struct PackedRef {
    bits: u32,
}

impl Model for PackedRef {
    ghost use Rattle.std.specs.Prelude.{Option};
    ghost use Rattle.mi_node.specs.Refs.{Ref};
    ghost use Rattle.mi_node.specs.Cells.{ref_in};

    ghost Value = { Option Ref };

    ghost view = { λ a. ref_in a.bits };
}

impl Clone for PackedRef {
    ghost is_clone = { λ x y. y ≡ x };

    ghost is_infallible = { λ _. ⊤ };

    fn clone(&self) -> Result<PackedRef, AllocError> {
        Ok(PackedRef { bits: self.bits })
    }
}

impl PackedRef {
    /// The packed form of a reference or of none.
    pub fn new(node: Option<NodeRef>) -> PackedRef
        ensures { result ≡ node }
    {
        PackedRef {
            bits: bits_of(node),
        }
    }

    /// The reference, if there is one.
    pub fn node(&self) -> Option<NodeRef>
        ensures { result ≡ self.now }
    {
        ref_of(self.bits)
    }
}
