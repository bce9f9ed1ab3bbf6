//! Whether a node keeps its place where it gets another value and another stamp.
//! They read links and values, and change nothing.
ghost use Rattle.std.specs.Prelude.{◌≡◌, ◌+◌, ◌*◌, ◌<◌, ◌≤◌, ◌∷◌, ◌++◌, ◌↔◌, IsTrue, List, cond};
ghost use Rattle.mi_node.specs.Refs.{Ref};
ghost use Rattle.mi_node.specs.Pool.{link_of};
ghost use Rattle.mi_tree.specs.BinaryTree.{BinaryTree, IsRooted, nodes, height};
ghost use Rattle.mi_tree.specs.Keeping.{side_of_item, facing, is_facing as facing_is, ahead};
ghost use Rattle.mi_tree.specs.Sorted.{side, AllAre, AreTagged, Rising};

use crate::compare::{Item, compare_item, compare_nodes};
use crate::order::NodeOrder;
use mi_node::{Counted, Link, NodeRef, Pool, Tag};
use mi_value::Steps;
use std::cmp::Ordering;

/// Whether what stands on that side of a node is not yet past it, as it rises, or else falls.
fn is_facing(side: Ordering, rises: bool) -> bool
    ensures { result ≡ facing_is rises side }
{
    match side {
        Ordering::Less => rises,
        Ordering::Equal => false,
        Ordering::Greater => !rises,
    }
}

/// The side of a node to which it would move as it rises, or else falls.
pub(crate) fn side_ahead(link: Link, rises: bool) -> Option<NodeRef>
    ensures { result ≡ cond rises link.forth link.back }
{
    if rises { link.forth } else { link.back }
}

/// Whether the item is before every node of a subtree, where it rises towards them, or else is after every one. It
/// goes down along the side that is nearest, and stops at the first node that the item has passed.
pub(crate) fn passes_none<T, O: NodeOrder<T>>(
    p: &Pool<T>,
    slot: usize,
    order: &O,
    root: Option<NodeRef>,
    item: &Item<'_, T>,
    rises: bool,
    steps: &mut Steps,
) -> bool
    requires slot { slot < p.now.slots }
    requires item { item.now.tag.key ≡ O.tag_of order.now item.now.value.now }
    requires decided { item.now.decided ≡ O.is_exact order.now item.now.tag.key }
    requires tree { (t : BinaryTree) × IsRooted p.now slot root t × Rising (side (O.order order.now) p.now slot) (nodes t)
        × AreTagged (O.tag_of order.now) p.now slot (nodes t) }
    ensures passes { (t : BinaryTree) → IsRooted p.now slot root t
        → (IsTrue result ↔ AllAre (side_of_item (O.order order.now) p.now slot item.now.value.now item.now.tag.stamp) (facing rises) (nodes t)) }
    ensures steps { (t : BinaryTree) → IsRooted p.now slot root t → steps.new.count ≤ steps.old.count + height t }
{
    let mut at = root;
    while let Some(here) = at {
        let link = p.link(here, slot);
        let side = compare_item(p, order, item, here, link.tag, steps);
        if !is_facing(side, rises) {
            return false;
        }
        at = side_ahead(link, !rises);
    }
    true
}

/// Whether a node of that tag passes no other as it becomes the item, which is after it if it rises, and else before it.
/// It goes the way from the root down to the node, and stops at the first node that the item has passed.
pub(crate) fn passes_none_above<T, O: NodeOrder<T>>(
    p: &Pool<T>,
    slot: usize,
    order: &O,
    root: Option<NodeRef>,
    node: NodeRef,
    tag: Tag,
    item: &Item<'_, T>,
    rises: bool,
    steps: &mut Steps,
) -> bool
    requires slot { slot < p.now.slots }
    requires tag { tag ≡ (link_of p.now node.name slot).tag }
    requires item { item.now.tag.key ≡ O.tag_of order.now item.now.value.now }
    requires decided { item.now.decided ≡ O.is_exact order.now item.now.tag.key }
    requires tree { (t : BinaryTree) × (xs : List Ref) × (ys : List Ref) × IsRooted p.now slot root t
        × Rising (side (O.order order.now) p.now slot) (nodes t) × AreTagged (O.tag_of order.now) p.now slot (nodes t) × (nodes t ≡ xs ++ node ∷ ys) }
    ensures passes { (t : BinaryTree) (xs : List Ref) (ys : List Ref) → IsRooted p.now slot root t → nodes t ≡ xs ++ node ∷ ys
        → (IsTrue result ↔ AllAre (side_of_item (O.order order.now) p.now slot item.now.value.now item.now.tag.stamp) (facing rises) (ahead rises xs ys)) }
    ensures steps { (t : BinaryTree) → IsRooted p.now slot root t → steps.new.count ≤ steps.old.count + 2 * height t }
{
    let decided = order.is_complete(tag.key);
    let mut at = root;
    while let Some(here) = at {
        let link = p.link(here, slot);
        let side = compare_nodes(
            &Counted::new(p),
            order,
            node,
            tag,
            decided,
            here,
            link.tag,
            steps,
        );
        if side.is_eq() {
            let next = side_ahead(link, rises);
            return passes_none(p, slot, order, next, item, rises, steps);
        }
        if is_facing(side, rises)
            && !is_facing(compare_item(p, order, item, here, link.tag, steps), rises)
        {
            return false;
        }
        at = p.neighbour(here, slot, !side.is_gt());
    }
    false
}
