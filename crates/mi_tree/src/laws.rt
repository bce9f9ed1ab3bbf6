//! Laws of the definitions, each the contract of a function that does nothing.
ghost use Rattle.mi_tree.specs.Frame.{StandsWhereAlike, StandsWhereSwapped, ListsNodes, StandsEmpty};
ghost use Rattle.mi_tree.specs.Height.{HasEnough};
ghost use Rattle.mi_tree.specs.Keeping.{StandsWhereKept};

use crate::order::NodeOrder;

/// A tree with no root stands in any pool that has its slot, and has no nodes.
pub fn new_trees_are_empty<T, O>()
    ensures { StandsEmpty T O }
{}

/// A tree stands wherever each of its nodes is held, has the same link in the tree's slot, and has a
/// value that compares Equal to the old one. So other slots and other nodes may change.
pub fn trees_stand_where_alike<T, O: NodeOrder<T>>()
    ensures { (o : O) → StandsWhereAlike T O (O.order o) (O.tag_of o) }
{}

/// A tree stands after a node's value was exchanged for one of an equal key.
pub fn trees_stand_where_swapped<T, O: NodeOrder<T>>()
    ensures { (o : O) → StandsWhereSwapped T O (O.order o) (O.tag_of o) }
{}

/// A tree stands, with the same list, after a node got another value and another tag with which it keeps its place.
pub fn trees_stand_where_kept<T, O: NodeOrder<T>>()
    ensures { (o : O) → StandsWhereKept T O (O.order o) (O.tag_of o) }
{}

/// A tree is the one list that its links say.
pub fn trees_are_listed<T, O>()
    ensures { ListsNodes T O }
{}

/// A tree of height h has at least so many nodes as the Fibonacci number of h + 2, less one.
pub fn trees_have_enough()
    ensures { HasEnough }
{}
