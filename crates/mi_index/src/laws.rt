//! The law of structures: the contract of a function that does nothing.
ghost use Rattle.mi_index.specs.Standing.{StandWhereAlike};

/// A structure stands wherever each of its nodes has the same reference, the same link of its slot, and a value of the
/// same key. So other slots, other nodes and what no key reads may change.
pub fn structures_stand_where_alike()
    ensures { StandWhereAlike }
{}
