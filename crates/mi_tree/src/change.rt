//! Nodes are put into a tree and taken out of it, each by one path down and back as far as heights change.
//! Links are set through `way` and `balance` alone, and nodes are only compared.
ghost use Rattle.std.specs.Prelude.{◌≡◌, ◌<◌, ◌∷◌, ◌++◌, List, Some};
ghost use Rattle.mi_node.specs.Pool.{link_of};
ghost use Rattle.mi_node.specs.Refs.{Ref};
ghost use Rattle.mi_tree.specs.BinaryTree.{BinaryTree, nodes};
ghost use Rattle.mi_tree.specs.Sorted.{side, AreTagged, CanPut, HasPut, CanTake, HasTaken, AreEnds, AreAppended, Rising};

use crate::balance::balance;
use crate::compare::compare_nodes;
use crate::order::NodeOrder;
use crate::parts::{Sub, height};
use crate::path::{climb, descend_first, descend_insert, descend_to, replace};
use crate::path_steps::{START, no_nodes};
use mi_node::{Counted, Link, NO_LINK, NodeRef, Pool, Tag};
use mi_value::Steps;

/// Puts a node of that tag in, which has no sides, and which no node there compares Equal to. The new root.
pub(crate) fn put_in<T, O: NodeOrder<T>>(
    p: &mut Pool<T>,
    slot: usize,
    order: &O,
    root: Option<NodeRef>,
    node: NodeRef,
    tag: Tag,
    steps: &mut Steps,
) -> Option<NodeRef>
    requires slot { slot < p.old.slots }
    requires tag { tag ≡ (link_of p.old node.name slot).tag }
    requires tree { (t : BinaryTree) × CanPut p.old slot (side (O.order order.now) p.old slot) root node t
        × AreTagged (O.tag_of order.now) p.old slot (node ∷ nodes t) }
    ensures slots { p.new.slots ≡ p.old.slots }
    ensures tree { (t : BinaryTree) → CanPut p.old slot (side (O.order order.now) p.old slot) root node t
        → AreTagged (O.tag_of order.now) p.old slot (node ∷ nodes t)
        → (u : BinaryTree) × HasPut p.old p.new slot (side (O.order order.now) p.old slot) node t result u }
{
    let above = Link {
        back: root,
        ..NO_LINK
    };
    let mut nodes = no_nodes();
    let decided = order.is_complete(tag.key);
    let depth = descend_insert(
        p, slot, order, above.back, node, tag, decided, &mut nodes, START, steps,
    );
    let mut top = above.back;
    climb(p, slot, &mut top, Some(node), 1, &nodes, depth);
    top
}

/// Takes the first node out: the node, and the new root.
pub(crate) fn take_first<T>(
    p: &mut Pool<T>,
    slot: usize,
    root: NodeRef,
) -> (NodeRef, Option<NodeRef>)
    requires slot { slot < p.old.slots }
    requires tree { (t : BinaryTree) × CanTake p.old slot (Some root) t }
    ensures slots { p.new.slots ≡ p.old.slots }
    ensures tree { (t : BinaryTree) → CanTake p.old slot (Some root) t
        → (u : BinaryTree) × (rs : List Ref) × (nodes t ≡ result.0 ∷ rs) × HasTaken p.old p.new slot t rs result.1 u }
{
    let at = p.link(root, slot);
    let Some(_) = at.back else {
        return (root, at.forth);
    };
    let mut nodes = no_nodes();
    let mut first = root;
    let depth = descend_first(p, slot, root, &mut first, &mut nodes, START);
    let link = p.link(first, slot);
    let high = height(p, slot, link.forth);
    let mut rest = Some(root);
    climb(p, slot, &mut rest, link.forth, high, &nodes, depth);
    (first, rest)
}

/// One tree of the two sides of a node, without the node. Its root.
pub(crate) fn append<T>(
    p: &mut Pool<T>,
    slot: usize,
    left: Option<NodeRef>,
    right: Option<NodeRef>,
) -> Option<NodeRef>
    requires slot { slot < p.old.slots }
    requires ends { (l : BinaryTree) × (q : BinaryTree) × AreEnds p.old slot left right l q }
    ensures slots { p.new.slots ≡ p.old.slots }
    ensures tree { (l : BinaryTree) (q : BinaryTree) → AreEnds p.old slot left right l q → (u : BinaryTree) × AreAppended p.old p.new slot l q result u }
{
    match right {
        None => left,
        Some(right) => {
            let Some(_) = *&left else {
                return Some(right);
            };
            let (first, rest) = take_first(p, slot, right);
            let before = Sub::of(p, slot, left);
            let after = Sub::of(p, slot, rest);
            let (top, _) = balance(p, slot, before, first, after);
            Some(top)
        }
    }
}

/// Takes a node of that tag out that stands there. The new root.
pub(crate) fn take_out<T, O: NodeOrder<T>>(
    p: &mut Pool<T>,
    slot: usize,
    order: &O,
    root: Option<NodeRef>,
    node: NodeRef,
    tag: Tag,
    steps: &mut Steps,
) -> Option<NodeRef>
    requires slot { slot < p.old.slots }
    requires tag { tag ≡ (link_of p.old node.name slot).tag }
    requires tree { (t : BinaryTree) × (xs : List Ref) × (ys : List Ref) × CanTake p.old slot root t × Rising (side (O.order order.now) p.old slot) (nodes t)
        × AreTagged (O.tag_of order.now) p.old slot (nodes t) × (nodes t ≡ xs ++ node ∷ ys) }
    ensures slots { p.new.slots ≡ p.old.slots }
    ensures tree { (t : BinaryTree) (xs : List Ref) (ys : List Ref) → CanTake p.old slot root t
        → Rising (side (O.order order.now) p.old slot) (nodes t) → nodes t ≡ xs ++ node ∷ ys
        → (u : BinaryTree) × HasTaken p.old p.new slot t (xs ++ ys) result u }
{
    let above = Link {
        back: root,
        ..NO_LINK
    };
    let mut nodes = no_nodes();
    let decided = order.is_complete(tag.key);
    let depth = descend_to(
        p, slot, order, above.back, node, tag, decided, &mut nodes, START, steps,
    );
    let link = p.link(node, slot);
    let below = append(p, slot, link.back, link.forth);
    let mut top = above.back;
    replace(p, slot, &mut top, below, link.height, &nodes, depth);
    top
}
