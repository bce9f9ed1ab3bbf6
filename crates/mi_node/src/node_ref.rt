//! A reference of four bytes: 31 bits of the node's place, and one bit that tells two nodes apart which
//! stood there one after the other. Plain data: it owns no node.
ghost use Rattle.std.specs.Prelude.{◌≡◌, ⊤, ◌<◌, ◌/◌, ◌%◌, ◌-◌};

use std::alloc::AllocError;
use std::marker::Model;

/// How many places there are.
pub(crate) const PLACES: u32 = 0x7fff_ffff;

/// The bits of no reference.
pub(crate) const NOBODY: u32 = 0xffff_fffe;

/// Which node: plain data that owns nothing. Contracts see its name, which is the node's place, and its
/// generation, 0 or 1: the other one than that of the node that was given back last at that place.
pub struct NodeRef {
    bits: u32,
}

impl Model for NodeRef {
    ghost use Rattle.mi_node.specs.Refs.{Ref};

    ghost Value = { Ref };

    ghost use Rattle.mi_node.specs.RefView.{ref_seen, bits_of, IsSomebody, bits_of-ref_seen};

    ghost view = { ref_seen };

    ghost invariant = { IsSomebody };

    ghost inverse = { bits_of };

    ghost inverse_ok = { bits_of-ref_seen };
}

impl Clone for NodeRef {
    ghost is_clone = { λ x y. y ≡ x };

    ghost is_infallible = { λ _. ⊤ };

    fn clone(&self) -> Result<NodeRef, AllocError> {
        Ok(*self)
    }
}

impl Copy for NodeRef {}

/// A reference that fills room in which none stands yet. Which one isn't said, nor that a node is held by it.
impl Default for NodeRef {
    ghost is_default = { λ _. ⊤ };

    fn default() -> NodeRef {
        NodeRef { bits: 0 }
    }
}

impl NodeRef {
    /// The reference to the node at that place, which its generation (0 or 1) tells from the node that stood there before.
    pub(crate) fn new(place: u32, generation: u32) -> NodeRef
        requires place { place < PLACES }
        requires generation { generation < 2 }
        ensures name { result.name ≡ place }
        ensures generation { result.generation ≡ generation }
    {
        NodeRef {
            bits: place * 2 + generation,
        }
    }

    /// The node's name.
    pub fn name(self) -> u32
        ensures { result ≡ self.name }
    {
        self.bits / 2
    }

    /// The reference to another node at the same place. Its generation is the other one.
    pub(crate) fn renewed(self) -> NodeRef
        ensures name { result.name ≡ self.name }
        ensures generation { result.generation ≡ 1 - self.generation }
    {
        let generation = 1 - self.bits % 2;
        NodeRef {
            bits: self.bits / 2 * 2 + generation,
        }
    }

    /// The reference as a number.
    pub(crate) fn bits(self) -> u32
        ensures some { result < NOBODY }
        ensures name { result / 2 ≡ self.name }
        ensures generation { result % 2 ≡ self.generation }
    {
        self.bits
    }

    /// The reference of that number.
    pub(crate) fn of_bits(bits: u32) -> NodeRef
        requires { bits < NOBODY }
        ensures name { result.name ≡ bits / 2 }
        ensures generation { result.generation ≡ bits % 2 }
    {
        NodeRef { bits }
    }
}
