//! The place that a node had among the nodes of a structure, to which it may come back, and a form of it that takes 16 bytes.
//! Plain data: it owns no node and never follows a reference.
ghost use Rattle.std.specs.Prelude.{◌≡◌, ◌<◌, ◌^◌, Some, None};
ghost use Rattle.std.specs.Option.{is_some};

use crate::link::Link;
use crate::node_ref::NodeRef;
use crate::packed::PackedRef;
use std::marker::Model;

/// The place that a node had in a structure: its stamp, and the neighbours that it had. Which neighbours these are is said by the
/// structure; one that finds the place by the stamp alone names none.
#[derive(Clone, Copy)]
pub struct OldPlace {
    pub stamp: u64,
    pub back: Option<NodeRef>,
    pub forth: Option<NodeRef>,
}

impl OldPlace {
    ghost use Rattle.mi_node.specs.OldPlace.{own_place};

    /// The place that a link remembers.
    pub fn of(link: Link) -> OldPlace
        ensures { result ≡ own_place link }
    {
        OldPlace {
            stamp: link.tag.stamp,
            back: link.back,
            forth: link.forth,
        }
    }
}

/// The least number that is no stamp: it stands where there is no place.
const NO_STAMP: u64 = 1 << 63;

/// An old place, or none, in 16 bytes: contracts see the `Option`.
#[derive(Drop)]
pub struct MaybePlace {
    stamp: u64,
    back: PackedRef,
    forth: PackedRef,
}

impl Model for MaybePlace {
    ghost use Rattle.std.specs.Prelude.{Option};
    ghost use Rattle.mi_node.specs.declared.old_place.OldPlace.{OldPlace};
    ghost use Rattle.mi_node.specs.OldPlace.{unpacked_place};

    ghost Value = { Option OldPlace };

    ghost view = { unpacked_place };
}

impl Default for MaybePlace {
    ghost is_default = { λ p. p ≡ None };

    fn default() -> MaybePlace {
        MaybePlace::none()
    }
}

impl MaybePlace {
    /// No place.
    pub fn none() -> MaybePlace
        ensures { result ≡ None }
    {
        MaybePlace {
            stamp: NO_STAMP,
            back: PackedRef::new(None),
            forth: PackedRef::new(None),
        }
    }

    /// A place. Stamps are below 2^63.
    pub fn new(place: OldPlace) -> MaybePlace
        requires { place.stamp < 2 ^ 63 }
        ensures { result ≡ Some place }
    {
        MaybePlace {
            stamp: place.stamp,
            back: PackedRef::new(place.back),
            forth: PackedRef::new(place.forth),
        }
    }

    /// Whether there is a place.
    pub fn is_some(&self) -> bool
        ensures { result ≡ is_some self.now }
    {
        self.stamp < NO_STAMP
    }

    /// The place, if there is one.
    pub fn place(&self) -> Option<OldPlace>
        ensures { result ≡ self.now }
    {
        if self.stamp < NO_STAMP {
            Some(OldPlace {
                stamp: self.stamp,
                back: self.back.node(),
                forth: self.forth.node(),
            })
        } else {
            None
        }
    }
}
