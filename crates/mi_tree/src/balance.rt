//! Two subtrees and a node between them become one balanced tree.
//! All changes of a tree are made of these; they set links of one slot, and compare nothing.
ghost use Rattle.std.specs.Prelude.{◌≡◌, ◌<◌, ◌+◌, ◌-◌, Some};
ghost use Rattle.mi_node.specs.Pool.{link_of};
ghost use Rattle.mi_tree.specs.BinaryTree.{BinaryTree, height as height_of, height_at};
ghost use Rattle.mi_tree.specs.Joining.{AreSides, AreLinked, IsBalanced, IsSized};

use crate::parts::{Sub, height, set_both, set_down, set_fork, set_up};
use mi_node::{Link, NodeRef, Pool};

/// Makes one balanced tree of two, whose heights differ by at most two, and a node between them: the
/// same nodes in the same order, at most one level higher. Its root, and how high it is.
///
/// In line, so that the subtrees aren't laid down for it.
#[inline(always)]
pub(crate) fn balance<T>(
    p: &mut Pool<T>,
    slot: usize,
    left: Sub,
    node: NodeRef,
    right: Sub,
) -> (NodeRef, u8)
    requires slot { slot < p.old.slots }
    requires sides { (l : BinaryTree) × (q : BinaryTree) × AreSides p.old slot left.root node right.root l q × IsSized left l × IsSized right q }
    ensures slots { p.new.slots ≡ p.old.slots }
    ensures tree { (l : BinaryTree) (q : BinaryTree) → AreSides p.old slot left.root node right.root l q → IsSized left l → IsSized right q → (t : BinaryTree)
        × IsBalanced p.old p.new slot l node q result.0 t }
    ensures height { result.1 ≡ height_at p.new slot (Some result.0) }
{
    let tag = p.link(node, slot).tag;
    let size = left.size + right.size + 1;
    let height = left.height.max(right.height) + 1;
    let link = Link {
        back: left.root,
        forth: right.root,
        size,
        height,
        tag,
    };
    if left.height.abs_diff(right.height) <= 1 {
        set_fork(p, slot, node, link);
        return (node, height);
    }
    rotate(p, slot, node, link, left.height, right.height)
}

/// Puts a node over its two sides again, which its link names and counts; they are so high, two levels apart.
///
/// In line, so that its link isn't laid down for it.
#[inline(always)]
pub(crate) fn rotate<T>(
    p: &mut Pool<T>,
    slot: usize,
    node: NodeRef,
    link: Link,
    left: u8,
    right: u8,
) -> (NodeRef, u8)
    requires slot { slot < p.old.slots }
    requires sides { (l : BinaryTree) × (q : BinaryTree) × AreLinked p.old slot node link l q × (left ≡ height_of l) × (right ≡ height_of q) }
    requires apart { 1 < left - right + (right - left) }
    ensures slots { p.new.slots ≡ p.old.slots }
    ensures tree { (l : BinaryTree) (q : BinaryTree) → AreLinked p.old slot node link l q → left ≡ height_of l → right ≡ height_of q
        → (t : BinaryTree) × IsBalanced p.old p.new slot l node q result.0 t }
    ensures height { result.1 ≡ height_at p.new slot (Some result.0) }
{
    if left > right {
        rotate_right(p, slot, node, link, right)
    } else {
        rotate_left(p, slot, node, link, left)
    }
}

/// The left side is two levels higher than the right one, which is so high. What rotates is read alone: the size of the side
/// that stays follows from the others.
fn rotate_right<T>(
    p: &mut Pool<T>,
    slot: usize,
    node: NodeRef,
    link: Link,
    beside: u8,
) -> (NodeRef, u8)
    requires slot { slot < p.old.slots }
    requires sides { (l : BinaryTree) × (q : BinaryTree) × AreLinked p.old slot node link l q × (beside ≡ height_of q) × (height_of q + 1 < height_of l) }
    ensures slots { p.new.slots ≡ p.old.slots }
    ensures tree { (l : BinaryTree) (q : BinaryTree) → AreLinked p.old slot node link l q → beside ≡ height_of q
        → height_of q + 1 < height_of l → (t : BinaryTree) × IsBalanced p.old p.new slot l node q result.0 t }
    ensures height { result.1 ≡ height_at p.new slot (Some result.0) }
{
    let Some(top) = link.back else { unreachable!() };
    let over = p.link(top, slot);
    let outer = height(p, slot, over.back);
    let inner = Sub::of(p, slot, over.forth);
    if outer < inner.height {
        return rotate_left_right(p, slot, node, link, beside, top, over, outer);
    }
    let low = inner.height.max(beside) + 1;
    let high = outer.max(low) + 1;
    let below = Link {
        back: over.forth,
        forth: link.forth,
        size: link.size - over.size + inner.size,
        height: low,
        tag: link.tag,
    };
    let above = Link {
        back: over.back,
        forth: Some(node),
        size: link.size,
        height: high,
        tag: over.tag,
    };
    set_down(p, slot, top, above, node, below);
    (top, high)
}

/// The same where the inner side of the left one is its higher one, which comes to stand above both.
fn rotate_left_right<T>(
    p: &mut Pool<T>,
    slot: usize,
    node: NodeRef,
    link: Link,
    beside: u8,
    top: NodeRef,
    over: Link,
    outer: u8,
) -> (NodeRef, u8)
    requires slot { slot < p.old.slots }
    requires sides { (l : BinaryTree) × (q : BinaryTree) × AreLinked p.old slot node link l q × (beside ≡ height_of q) × (height_of q + 1 < height_of l) }
    requires top { (link.back ≡ Some top) × (over ≡ link_of p.old top.name slot) }
    requires inner { (outer ≡ height_at p.old slot over.back) × (outer < height_at p.old slot over.forth) }
    ensures slots { p.new.slots ≡ p.old.slots }
    ensures tree { (l : BinaryTree) (q : BinaryTree) → AreLinked p.old slot node link l q → beside ≡ height_of q
        → height_of q + 1 < height_of l → (t : BinaryTree) × IsBalanced p.old p.new slot l node q result.0 t }
    ensures height { result.1 ≡ height_at p.new slot (Some result.0) }
{
    let Some(middle) = over.forth else {
        unreachable!()
    };
    let inner = p.link(middle, slot);
    let near = Sub::of(p, slot, inner.back);
    let far = Sub::of(p, slot, inner.forth);
    let low = outer.max(near.height) + 1;
    let high = far.height.max(beside) + 1;
    let height = low.max(high) + 1;
    let before = Link {
        back: over.back,
        forth: inner.back,
        size: over.size - inner.size + near.size,
        height: low,
        tag: over.tag,
    };
    let after = Link {
        back: inner.forth,
        forth: link.forth,
        size: link.size - over.size + far.size,
        height: high,
        tag: link.tag,
    };
    let whole = Link {
        back: Some(top),
        forth: Some(node),
        size: link.size,
        height,
        tag: inner.tag,
    };
    set_both(p, slot, top, before, middle, whole, node, after);
    (middle, height)
}

/// The right side is two levels higher than the left one, which is so high.
fn rotate_left<T>(
    p: &mut Pool<T>,
    slot: usize,
    node: NodeRef,
    link: Link,
    beside: u8,
) -> (NodeRef, u8)
    requires slot { slot < p.old.slots }
    requires sides { (l : BinaryTree) × (q : BinaryTree) × AreLinked p.old slot node link l q × (beside ≡ height_of l) × (height_of l + 1 < height_of q) }
    ensures slots { p.new.slots ≡ p.old.slots }
    ensures tree { (l : BinaryTree) (q : BinaryTree) → AreLinked p.old slot node link l q → beside ≡ height_of l
        → height_of l + 1 < height_of q → (t : BinaryTree) × IsBalanced p.old p.new slot l node q result.0 t }
    ensures height { result.1 ≡ height_at p.new slot (Some result.0) }
{
    let Some(top) = link.forth else {
        unreachable!()
    };
    let over = p.link(top, slot);
    let outer = height(p, slot, over.forth);
    let inner = Sub::of(p, slot, over.back);
    if outer < inner.height {
        return rotate_right_left(p, slot, node, link, beside, top, over, outer);
    }
    let low = beside.max(inner.height) + 1;
    let high = low.max(outer) + 1;
    let below = Link {
        back: link.back,
        forth: over.back,
        size: link.size - over.size + inner.size,
        height: low,
        tag: link.tag,
    };
    let above = Link {
        back: Some(node),
        forth: over.forth,
        size: link.size,
        height: high,
        tag: over.tag,
    };
    set_up(p, slot, node, below, top, above);
    (top, high)
}

/// The same where the inner side of the right one is its higher one, which comes to stand above both.
fn rotate_right_left<T>(
    p: &mut Pool<T>,
    slot: usize,
    node: NodeRef,
    link: Link,
    beside: u8,
    top: NodeRef,
    over: Link,
    outer: u8,
) -> (NodeRef, u8)
    requires slot { slot < p.old.slots }
    requires sides { (l : BinaryTree) × (q : BinaryTree) × AreLinked p.old slot node link l q × (beside ≡ height_of l) × (height_of l + 1 < height_of q) }
    requires top { (link.forth ≡ Some top) × (over ≡ link_of p.old top.name slot) }
    requires inner { (outer ≡ height_at p.old slot over.forth) × (outer < height_at p.old slot over.back) }
    ensures slots { p.new.slots ≡ p.old.slots }
    ensures tree { (l : BinaryTree) (q : BinaryTree) → AreLinked p.old slot node link l q → beside ≡ height_of l
        → height_of l + 1 < height_of q → (t : BinaryTree) × IsBalanced p.old p.new slot l node q result.0 t }
    ensures height { result.1 ≡ height_at p.new slot (Some result.0) }
{
    let Some(middle) = over.back else {
        unreachable!()
    };
    let inner = p.link(middle, slot);
    let near = Sub::of(p, slot, inner.back);
    let far = Sub::of(p, slot, inner.forth);
    let low = beside.max(near.height) + 1;
    let high = far.height.max(outer) + 1;
    let height = low.max(high) + 1;
    let before = Link {
        back: link.back,
        forth: inner.back,
        size: link.size - over.size + near.size,
        height: low,
        tag: link.tag,
    };
    let after = Link {
        back: inner.forth,
        forth: over.forth,
        size: over.size - inner.size + far.size,
        height: high,
        tag: over.tag,
    };
    let whole = Link {
        back: Some(node),
        forth: Some(top),
        size: link.size,
        height,
        tag: inner.tag,
    };
    set_both(p, slot, node, before, middle, whole, top, after);
    (middle, height)
}
