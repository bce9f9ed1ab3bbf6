//! The form in which a link is stored: 32 bytes, where a `Link` takes more.
//! Plain data: it owns no node and never follows a reference.
ghost use Rattle.std.specs.Prelude.{◌≡◌, ⊤, cond};
ghost use Rattle.mi_node.specs.Cells.{link_of_cell, ref_in, sided, sized};

use crate::link::{Link, Tag};
use crate::node_ref::{NOBODY, NodeRef};
use std::alloc::AllocError;
use std::mem::size_of;

/// A `Link` whose neighbours are the bits of their references.
///
/// What a look-up reads stands in the first half: where a cell lies across two lines of the cache, it reads one.
/// No byte is without a field, so a cell of which one field changes is written by that field alone.
pub(crate) struct Cell {
    back: u32,
    forth: u32,
    key: u64,
    size: u32,
    height: u8,
    spare: u8,
    spares: u16,
    stamp: u64,
}

const _: () = prove!(size_of::<Cell>() == 32);

/// The stored form of a link that was never set.
pub(crate) const EMPTY: Cell = Cell {
    back: NOBODY,
    forth: NOBODY,
    key: 0,
    size: 0,
    height: 0,
    spare: 0,
    spares: 0,
    stamp: 0,
};

impl Clone for Cell {
    ghost is_clone = { λ x y. y ≡ x };

    ghost is_infallible = { λ _. ⊤ };

    fn clone(&self) -> Result<Cell, AllocError> {
        Ok(*self)
    }
}

impl Copy for Cell {}

impl Cell {
    /// The stored form of the link.
    pub(crate) fn new(link: Link) -> Cell
        ensures { link_of_cell result ≡ link }
    {
        Cell {
            back: bits_of(link.back),
            forth: bits_of(link.forth),
            key: link.tag.key,
            size: link.size,
            height: link.height,
            spare: 0,
            spares: 0,
            stamp: link.tag.stamp,
        }
    }

    /// The link that is stored.
    pub(crate) fn link(self) -> Link
        ensures { result ≡ link_of_cell self }
    {
        Link {
            back: ref_of(self.back),
            forth: ref_of(self.forth),
            size: self.size,
            height: self.height,
            tag: Tag {
                key: self.key,
                stamp: self.stamp,
            },
        }
    }

    /// The same with another size.
    #[inline(always)]
    pub(crate) fn with_size(self, size: u32) -> Cell
        ensures { link_of_cell result ≡ sized size (link_of_cell self) }
    {
        Cell { size, ..self }
    }

    /// The same with another neighbour, `back` or else `forth`, and another height.
    #[inline(always)]
    pub(crate) fn with_side(self, back: bool, node: Option<NodeRef>, height: u8) -> Cell
        ensures { link_of_cell result ≡ sided back node height (link_of_cell self) }
    {
        let bits = bits_of(node);
        if back {
            Cell {
                back: bits,
                height,
                ..self
            }
        } else {
            Cell {
                forth: bits,
                height,
                ..self
            }
        }
    }

    /// The bits of one neighbour.
    #[inline(always)]
    fn bits(self, back: bool) -> u32
        ensures { result ≡ cond back self.back self.forth }
    {
        if back { self.back } else { self.forth }
    }

    /// One neighbour: `back`, or else `forth`.
    #[inline(always)]
    pub(crate) fn neighbour(self, back: bool) -> Option<NodeRef>
        ensures { result ≡ cond back (link_of_cell self).back (link_of_cell self).forth }
    {
        ref_of(self.bits(back))
    }
}

/// The four bytes that stand for a reference or none.
pub(crate) fn bits_of(node: Option<NodeRef>) -> u32
    ensures { ref_in result ≡ node }
{
    match node {
        None => NOBODY,
        Some(node) => node.bits(),
    }
}

/// The reference or none that four bytes stand for.
pub(crate) fn ref_of(bits: u32) -> Option<NodeRef>
    ensures { result ≡ ref_in bits }
{
    if bits < NOBODY {
        Some(NodeRef::of_bits(bits))
    } else {
        None
    }
}
