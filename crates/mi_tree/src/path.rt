//! The path from a tree's root down to a place in it, and back up as far as heights change.
//! Sizes change on the path down, so that a change visits no link above the last whose height it changes.
ghost use Rattle.std.specs.Prelude.{◌≡◌, ℕ, ◌<◌, List, [], Option, cond, Some, ◌+◌};
ghost use Rattle.mi_node.specs.Pool.{link_of};
ghost use Rattle.mi_node.specs.Refs.{Ref};
ghost use Rattle.mi_tree.specs.BinaryTree.{BinaryTree, Tip, nodes as nodes_of, height as height_of, height_at};
ghost use Rattle.mi_tree.specs.Sorted.{side, AreTagged, Rising};
ghost use Rattle.mi_tree.specs.Paths.{Frame, plug, risen, with_child_replaced, Falls, HasFallen, Sinks, HasSunk, Climbs, HasClimbed, IsLevel, AreRebalanced};
ghost use Rattle.mi_tree.specs.Joining.{IsBalanced};
ghost use Rattle.mi_tree.specs.PathSteps.{path_steps, AreBits};

use crate::balance::rotate;
use crate::compare::{compare_nodes, is_before};
use crate::order::NodeOrder;
use crate::parts::{height, set_side};
use crate::path_steps::{Depth, Nodes, PathStep};
use mi_node::{Counted, Link, NO_LINK, NodeRef, Pool, Tag};
use mi_value::Steps;

/// Goes down to where a node of that tag belongs, which no node there compares Equal to, and pushes each
/// node that it passes onto the path. `decided` is whether the tag decides, which is asked once for the path. Each
/// node on it gets a size that is one greater: a node is about to stand below it.
///
/// Its size is read again right before it is set: the compiler then adds to it in its place.
pub(crate) fn descend_insert<T, O: NodeOrder<T>>(
    p: &mut Pool<T>,
    slot: usize,
    order: &O,
    at: Option<NodeRef>,
    node: NodeRef,
    tag: Tag,
    decided: bool,
    nodes: &mut Nodes,
    depth: Depth,
    steps: &mut Steps,
) -> Depth
    requires slot { slot < p.old.slots }
    requires tag { tag ≡ (link_of p.old node.name slot).tag }
    requires decided { decided ≡ O.is_exact order.now tag.key }
    requires bits { AreBits nodes.old depth }
    requires way { (fs : List Frame) × (t : BinaryTree)
        × Falls p.old slot (side (O.order order.now) p.old slot) (O.tag_of order.now) (path_steps nodes.old depth) at node fs t }
    ensures slots { p.new.slots ≡ p.old.slots }
    ensures bits { AreBits nodes.new result }
    ensures way { (fs : List Frame) (t : BinaryTree) → Falls p.old slot (side (O.order order.now) p.old slot) (O.tag_of order.now) (path_steps nodes.old depth) at node fs t
        → (gs : List Frame) × HasFallen p.old p.new slot (side (O.order order.now) p.old slot) (path_steps nodes.new result) node (plug fs t) gs }
{
    let Some(here) = at else {
        return depth;
    };
    let seen = p.link(here, slot);
    let left = is_before(
        &Counted::new(p),
        order,
        node,
        tag,
        decided,
        here,
        seen.tag,
        steps,
    );
    let link = p.link(here, slot);
    let next = p.neighbour(here, slot, left);
    p.set_size(here, slot, link.size + 1);
    let deeper = depth.push(nodes, PathStep { node: here, left });
    descend_insert(
        p, slot, order, next, node, tag, decided, nodes, deeper, steps,
    )
}

/// Goes down to a node of that tag, which stands there, and pushes each node above it onto the path. Each
/// gets a size that is one less: the node is about to leave.
pub(crate) fn descend_to<T, O: NodeOrder<T>>(
    p: &mut Pool<T>,
    slot: usize,
    order: &O,
    at: Option<NodeRef>,
    node: NodeRef,
    tag: Tag,
    decided: bool,
    nodes: &mut Nodes,
    depth: Depth,
    steps: &mut Steps,
) -> Depth
    requires slot { slot < p.old.slots }
    requires tag { tag ≡ (link_of p.old node.name slot).tag }
    requires decided { decided ≡ O.is_exact order.now tag.key }
    requires bits { AreBits nodes.old depth }
    requires way { (fs : List Frame) × (t : BinaryTree) × (xs : List Ref) × (ys : List Ref)
        × (vs : List Ref) × (ws : List Ref) × Sinks p.old slot (path_steps nodes.old depth) at fs t xs node ys vs ws
        × Rising (side (O.order order.now) p.old slot) (nodes_of t) × AreTagged (O.tag_of order.now) p.old slot (nodes_of t) }
    ensures slots { p.new.slots ≡ p.old.slots }
    ensures bits { AreBits nodes.new result }
    ensures way { (fs : List Frame) (t : BinaryTree) (xs : List Ref) (ys : List Ref) (vs : List Ref) (ws : List Ref)
        → Sinks p.old slot (path_steps nodes.old depth) at fs t xs node ys vs ws
        → Rising (side (O.order order.now) p.old slot) (nodes_of t)
        → (gs : List Frame) × (A : BinaryTree) × (B : BinaryTree) × HasSunk p.old p.new slot (path_steps nodes.new result) xs node ys vs ws (plug fs t) gs A B }
{
    let Some(here) = at else { unreachable!() };
    let seen = p.link(here, slot);
    let side = compare_nodes(
        &Counted::new(p),
        order,
        node,
        tag,
        decided,
        here,
        seen.tag,
        steps,
    );
    if side.is_eq() {
        return depth;
    }
    let left = side.is_lt();
    let link = p.link(here, slot);
    let next = p.neighbour(here, slot, left);
    p.set_size(here, slot, link.size - 1);
    let deeper = depth.push(nodes, PathStep { node: here, left });
    descend_to(
        p, slot, order, next, node, tag, decided, nodes, deeper, steps,
    )
}

/// Goes down to the first node, and puts each node above it onto the path. Each gets a size that is one
/// less: the first node is about to leave. `first` becomes that node.
///
/// It answers no pair, so that the compiler makes a loop of it.
pub(crate) fn descend_first<T>(
    p: &mut Pool<T>,
    slot: usize,
    at: NodeRef,
    first: &mut NodeRef,
    nodes: &mut Nodes,
    depth: Depth,
) -> Depth
    requires slot { slot < p.old.slots }
    requires bits { AreBits nodes.old depth }
    requires way { (fs : List Frame) × (t : BinaryTree) × (x : Ref) × (ys : List Ref) × (vs : List Ref)
        × (ws : List Ref) × Sinks p.old slot (path_steps nodes.old depth) (Some at) fs t [] x ys vs ws }
    ensures slots { p.new.slots ≡ p.old.slots }
    ensures bits { AreBits nodes.new result }
    ensures way { (fs : List Frame) (t : BinaryTree) (x : Ref) (ys : List Ref) (vs : List Ref) (ws : List Ref)
        → Sinks p.old slot (path_steps nodes.old depth) (Some at) fs t [] x ys vs ws
        → (first.new ≡ x) × (gs : List Frame) × (B : BinaryTree) × HasSunk p.old p.new slot (path_steps nodes.new result) [] x ys vs ws (plug fs t) gs Tip B }
{
    let link = p.link(at, slot);
    let Some(left) = link.back else {
        *first = at;
        return depth;
    };
    p.set_size(at, slot, link.size - 1);
    let path_step = PathStep {
        node: at,
        left: true,
    };
    let deeper = depth.push(nodes, path_step);
    descend_first(p, slot, left, first, nodes, deeper)
}

/// The link with another child on that side.
fn with_child(link: Link, left: bool, child: Option<NodeRef>) -> Link
    ensures { result ≡ with_child_replaced left child link }
{
    if left {
        Link {
            back: child,
            ..link
        }
    } else {
        Link {
            forth: child,
            ..link
        }
    }
}

/// Puts the tree `below`, which is so high, in place of the one at the end of the path, whose height differs from its own by
/// at most one, and rebalances the nodes of the path while heights change. The sizes on the path are right
/// already; and so is all above a node that stays where it is, and as high. `root` becomes the tree's root.
///
/// It answers nothing, so that the compiler makes a loop of it.
pub(crate) fn climb<T>(
    p: &mut Pool<T>,
    slot: usize,
    root: &mut Option<NodeRef>,
    below: Option<NodeRef>,
    high: u8,
    nodes: &Nodes,
    depth: Depth,
)
    requires slot { slot < p.old.slots }
    requires high { high ≡ height_at p.old slot below }
    requires bits { AreBits nodes.now depth }
    requires way { (fs : List Frame) × (at : Option Ref) × (h : ℕ) × (u : BinaryTree) × Climbs p.old slot root.old below (path_steps nodes.now depth) fs at h u }
    ensures slots { p.new.slots ≡ p.old.slots }
    ensures tree { (fs : List Frame) (at : Option Ref) (h : ℕ) (u : BinaryTree) → Climbs p.old slot root.old below (path_steps nodes.now depth) fs at h u
        → (v : BinaryTree) × HasClimbed p.old p.new slot (plug fs u) root.new v }
    ensures height { (fs : List Frame) (at : Option Ref) (h : ℕ) (u : BinaryTree) → Climbs p.old slot root.old below (path_steps nodes.now depth) fs at h u
        → IsLevel (height_of u) h (height_at p.new slot root.new) (risen fs h) }
{
    let (last, rest) = depth.pop(nodes);
    let Some(path_step) = last else {
        *root = below;
        return;
    };
    let name = path_step.node.name();
    let before = p.link(path_step.node, slot).height;
    let (top, now) = rebalance(p, slot, path_step, below, high, before);
    if now != before {
        climb(p, slot, root, Some(top), now, nodes, rest);
        return;
    }
    if top.name() != name {
        replace_child(p, slot, root, top, nodes, rest);
    }
}

/// Puts a node of the path, which was as high as `before` says, over its two sides again, of which `below`, which is so high, is
/// another tree than before. The node's size is right. Where `below` is one level lower than the node, the two are balanced and the
/// node's height is right: the other side isn't read. Where they are balanced, the height is all that is to be said anew; that
/// `below` is one level higher, as on most of an insert's way back up, is asked first. The root of what they give, and how high it is.
fn rebalance<T>(
    p: &mut Pool<T>,
    slot: usize,
    path_step: PathStep,
    below: Option<NodeRef>,
    high: u8,
    before: u8,
) -> (NodeRef, u8)
    requires slot { slot < p.old.slots }
    requires high { (high ≡ height_at p.old slot below) × (high + 1 < 256) }
    requires before { before ≡ (link_of p.old path_step.node.name slot).height }
    requires sides { (l : BinaryTree) × (q : BinaryTree) × AreRebalanced p.old slot path_step below (link_of p.old path_step.node.name slot) l q }
    ensures slots { p.new.slots ≡ p.old.slots }
    ensures tree { (l : BinaryTree) (q : BinaryTree) → AreRebalanced p.old slot path_step below (link_of p.old path_step.node.name slot) l q
        → (t : BinaryTree) × IsBalanced p.old p.new slot l path_step.node q result.0 t }
    ensures height { result.1 ≡ height_at p.new slot (Some result.0) }
{
    if high + 1 == before {
        set_side(p, slot, path_step.node, path_step.left, below, before);
        return (path_step.node, before);
    }
    let beside = height(p, slot, p.neighbour(path_step.node, slot, !path_step.left));
    if beside + 1 == high {
        let grown = high + 1;
        set_side(p, slot, path_step.node, path_step.left, below, grown);
        return (path_step.node, grown);
    }
    if high.abs_diff(beside) <= 1 {
        let now = high.max(beside) + 1;
        set_side(p, slot, path_step.node, path_step.left, below, now);
        return (path_step.node, now);
    }
    let link = with_child(p.link(path_step.node, slot), path_step.left, below);
    if path_step.left {
        rotate(p, slot, path_step.node, link, high, beside)
    } else {
        rotate(p, slot, path_step.node, link, beside, high)
    }
}

/// Puts the tree of that root in place of the one at the end of the path, which is as high. `root` becomes the tree's root.
fn replace_child<T>(
    p: &mut Pool<T>,
    slot: usize,
    root: &mut Option<NodeRef>,
    top: NodeRef,
    nodes: &Nodes,
    depth: Depth,
)
    requires slot { slot < p.old.slots }
    requires bits { AreBits nodes.now depth }
    requires way { (fs : List Frame) × (at : Option Ref) × (u : BinaryTree) × Climbs p.old slot root.old (Some top) (path_steps nodes.now depth) fs at (height_of u) u }
    ensures slots { p.new.slots ≡ p.old.slots }
    ensures tree { (fs : List Frame) (at : Option Ref) (u : BinaryTree) → Climbs p.old slot root.old (Some top) (path_steps nodes.now depth) fs at (height_of u) u
        → (v : BinaryTree) × HasClimbed p.old p.new slot (plug fs u) root.new v }
    ensures height { (fs : List Frame) (at : Option Ref) (u : BinaryTree) → Climbs p.old slot root.old (Some top) (path_steps nodes.now depth) fs at (height_of u) u
        → height_at p.new slot root.new ≡ risen fs (height_of u) }
{
    let (last, rest) = depth.pop(nodes);
    let Some(path_step) = last else {
        *root = Some(top);
        return;
    };
    let height = p.link(path_step.node, slot).height;
    p.set_side(path_step.node, slot, path_step.left, Some(top), height);
}

/// Puts the tree `below` in place of the one of that height at the end of the path, as `climb` does; where
/// it is as high, no other height changes. `root` becomes the tree's root.
pub(crate) fn replace<T>(
    p: &mut Pool<T>,
    slot: usize,
    root: &mut Option<NodeRef>,
    below: Option<NodeRef>,
    before: u8,
    nodes: &Nodes,
    depth: Depth,
)
    requires slot { slot < p.old.slots }
    requires bits { AreBits nodes.now depth }
    requires way { (fs : List Frame) × (at : Option Ref) × (u : BinaryTree) × Climbs p.old slot root.old below (path_steps nodes.now depth) fs at before u }
    ensures slots { p.new.slots ≡ p.old.slots }
    ensures tree { (fs : List Frame) (at : Option Ref) (u : BinaryTree) → Climbs p.old slot root.old below (path_steps nodes.now depth) fs at before u
        → (v : BinaryTree) × HasClimbed p.old p.new slot (plug fs u) root.new v }
    ensures height { (fs : List Frame) (at : Option Ref) (u : BinaryTree) → Climbs p.old slot root.old below (path_steps nodes.now depth) fs at before u
        → IsLevel (height_of u) before (height_at p.new slot root.new) (risen fs before) }
{
    let under = Link {
        back: below,
        ..NO_LINK
    };
    let high = height(p, slot, under.back);
    match under.back {
        Some(top) if high == before => replace_child(p, slot, root, top, nodes, depth),
        _ => climb(p, slot, root, under.back, high, nodes, depth),
    }
}
