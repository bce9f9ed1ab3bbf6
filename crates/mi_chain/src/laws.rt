//! Laws of the definitions, each the contract of a function that does nothing.
ghost use Rattle.mi_chain.specs.Frame.{StandWhereSwapped};

use crate::keys::KeyHash;

/// Chains stand, with the same list for each key, after a node's value was exchanged for one of an equal key. The stamp
/// stands in the link, and so stays.
pub fn chains_stand_where_swapped<T, H: KeyHash<T>>()
    ensures { (h : H) → StandWhereSwapped T H (H.keying h) }
{}
