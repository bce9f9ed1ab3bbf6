//! One side of one node's link is set, and the other side stays: what doubly linked lists are made of.
//! It writes the slot that it is given and no other, and never follows a reference.
ghost use Rattle.std.specs.Prelude.{◌≡◌, ◌<◌};
ghost use Rattle.mi_node.specs.Pool.{IsHeldIf};
ghost use Rattle.mi_node.specs.Neighbours.{with_back_if, with_forth_if};

use crate::link::Link;
use crate::node_ref::NodeRef;
use crate::pool::Pool;

/// The node, if there is one, has `back` before it. The rest of its link stays.
pub fn set_back<T>(p: &mut Pool<T>, slot: usize, node: Option<NodeRef>, back: Option<NodeRef>)
    requires held { IsHeldIf p.old node }
    requires slot { slot < p.old.slots }
    ensures { p.new ≡ with_back_if p.old slot node back }
{
    if let Some(node) = node {
        let link = p.link(node, slot);
        p.set_link(node, slot, Link { back, ..link });
    }
}

/// The node, if there is one, has `forth` after it. The rest of its link stays.
pub fn set_forth<T>(p: &mut Pool<T>, slot: usize, node: Option<NodeRef>, forth: Option<NodeRef>)
    requires held { IsHeldIf p.old node }
    requires slot { slot < p.old.slots }
    ensures { p.new ≡ with_forth_if p.old slot node forth }
{
    if let Some(node) = node {
        let link = p.link(node, slot);
        p.set_link(node, slot, Link { forth, ..link });
    }
}
