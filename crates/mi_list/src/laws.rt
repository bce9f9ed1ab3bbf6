//! Laws of the definitions, each the contract of a function that does nothing.
ghost use Rattle.mi_list.specs.Frame.{StandsWhateverIsSwapped};

/// A list stands, with the same nodes in the same order, after a node's value was exchanged for another: it sees no value.
pub fn lists_stand_where_swapped<T>()
    ensures { StandsWhateverIsSwapped T }
{}
