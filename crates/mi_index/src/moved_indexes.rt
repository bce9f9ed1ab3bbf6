//! Which indexes a change moves a node in, and the places that it comes back to. Plain data.
ghost use Rattle.std.specs.Prelude.{◌≡◌};
ghost use Rattle.mi_index.specs.Places as places;

use mi_node::{Link, MaybePlace, NodeRef, OldPlace};

/// The indexes in which a node moves, by their numbers: all of them; those that are marked; or those that have a place
/// to which the node comes back. The neighbours that a place names are in chains the nearest nodes of its key, in a list
/// the nearest nodes; in a tree they say nothing. The flags behind the marks and the places are set for the indexes in
/// which the node keeps its place: in those it doesn't move.
#[derive(Clone, Copy)]
pub enum MovedIndexes<'a> {
    All,
    Marked(&'a [bool], &'a [bool]),
    Placed(&'a [MaybePlace], &'a [bool]),
}

/// Whether the mark of a number is set. One past the last is not.
pub(crate) fn is_marked(marks: &[bool], slot: usize) -> bool
    ensures { result ≡ places.mark_at marks.now slot }
{
    match marks.get(slot) {
        Some(marked) => *marked,
        None => false,
    }
}

/// Whether the mark of a number is set, and the flag isn't. The mark is asked first: most indexes have none.
fn is_still_marked(marks: &[bool], kept: &[bool], slot: usize) -> bool
    ensures { result ≡ places.still_marked kept.now marks.now slot }
{
    is_marked(marks, slot) && !is_marked(kept, slot)
}

/// The place of a number, if there is one, and the flag isn't set.
pub(crate) fn place_at(all: &[MaybePlace], kept: &[bool], slot: usize) -> Option<OldPlace>
    ensures { result ≡ places.still_given kept.now all.now slot }
{
    if is_marked(kept, slot) {
        return None;
    }
    match all.get(slot) {
        Some(place) => place.place(),
        None => None,
    }
}

impl MovedIndexes<'_> {
    /// Whether the node moves in the index of this number.
    pub fn moves_in(self, slot: usize) -> bool
        ensures { result ≡ places.is_moved self.entry slot }
    {
        match self {
            MovedIndexes::All => true,
            MovedIndexes::Marked(marks, kept) => is_still_marked(marks, kept, slot),
            MovedIndexes::Placed(all, kept) => place_at(all, kept, slot).is_some(),
        }
    }

    /// The stamp that the node gets in the index of this number, if it moves there: that of the place to which it comes
    /// back, or else this one.
    pub fn stamp_in(self, slot: usize, stamp: u64) -> Option<u64>
        ensures { result ≡ places.stamp_for self.entry slot stamp }
    {
        match self {
            MovedIndexes::All => Some(stamp),
            MovedIndexes::Marked(marks, kept) => {
                if is_still_marked(marks, kept, slot) {
                    Some(stamp)
                } else {
                    None
                }
            }
            MovedIndexes::Placed(all, kept) => match place_at(all, kept, slot) {
                Some(place) => Some(place.stamp),
                None => None,
            },
        }
    }

    /// Where the node comes back to in the index of this number, if it moves there: the place that is given, or else
    /// the one that its own link there remembers.
    pub fn place_in(self, slot: usize, link: Link) -> Option<OldPlace>
        ensures { result ≡ places.place_for self.entry slot link }
    {
        match self {
            MovedIndexes::All => Some(OldPlace::of(link)),
            MovedIndexes::Marked(marks, kept) => {
                if is_still_marked(marks, kept, slot) {
                    Some(OldPlace::of(link))
                } else {
                    None
                }
            }
            MovedIndexes::Placed(all, kept) => place_at(all, kept, slot),
        }
    }
}

/// The node that is given, if it is for the index of this number.
pub(crate) fn before_in(slot: usize, before: Option<(usize, NodeRef)>) -> Option<NodeRef>
    ensures { result ≡ places.before_at slot before }
{
    match before {
        Some((index, node)) if index == slot => Some(node),
        _ => None,
    }
}
