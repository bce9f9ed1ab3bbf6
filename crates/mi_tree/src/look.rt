//! Paths down from a node to one below it.
//! They read links through a counted pool, and change nothing.
ghost use Rattle.std.specs.Prelude.{◌≡◌, ◌+◌, ◌*◌, ◌^◌, ◌<◌, ◌≤◌, ◌∷◌, ◌++◌, List, length, true, false};
ghost use Rattle.std.specs.List.{position_or_len};
ghost use Rattle.mi_node.specs.Refs.{Ref};
ghost use Rattle.mi_node.specs.Pool.{IsHeldIf, link_of};
ghost use Rattle.mi_tree.specs.Sorted.{side, AreTagged, Rising, CanTake};
ghost use Rattle.mi_tree.specs.Probed.{past, is_decided, is_past_node, IsSteady};
ghost use Rattle.mi_tree.specs.BinaryTree.{BinaryTree, IsRooted, nodes, forks, height, size_at, link_at, links_of, nth_of};

use crate::compare::{Sought, compare_nodes, compare_sought};
use crate::order::NodeOrder;
use mi_node::{Counted, Link, NO_LINK, NodeRef, Tag};
use mi_value::Steps;
use std::cmp::Ordering;

/// How many nodes stand there. At most one read.
pub(crate) fn size<T>(p: &mut Counted<T>, slot: usize, at: Option<NodeRef>) -> u32
    requires held { IsHeldIf p.old.pool at }
    requires slot { slot < p.old.pool.slots }
    ensures size { result ≡ size_at p.old.pool slot at }
    ensures pool { p.new.pool ≡ p.old.pool }
    ensures reads { p.new.reads ≤ p.old.reads + 1 }
{
    match at {
        None => 0,
        Some(node) => p.link(node, slot).size,
    }
}

/// The link of the node, if there is one, and else one that was never set. At most one read.
pub(crate) fn link_ahead<T>(p: &mut Counted<T>, slot: usize, at: Option<NodeRef>) -> Link
    requires held { IsHeldIf p.old.pool at }
    requires slot { slot < p.old.pool.slots }
    ensures link { result ≡ link_at p.old.pool slot at }
    ensures pool { p.new.pool ≡ p.old.pool }
    ensures reads { p.new.reads ≡ p.old.reads + links_of at }
{
    match at {
        None => NO_LINK,
        Some(node) => p.link(node, slot),
    }
}

/// The node of an index in order, counted from 0. Going left, it goes on with the link that it has read.
pub(crate) fn nth_in<T>(
    p: &mut Counted<T>,
    slot: usize,
    root: Option<NodeRef>,
    n: u32,
) -> Option<NodeRef>
    requires slot { slot < p.old.pool.slots }
    requires tree { (t : BinaryTree) × IsRooted p.old.pool slot root t }
    ensures node { (t : BinaryTree) → IsRooted p.old.pool slot root t → result ≡ nth_of (nodes t) n }
    ensures pool { p.new.pool ≡ p.old.pool }
    ensures reads { (t : BinaryTree) → IsRooted p.old.pool slot root t → p.new.reads ≤ p.old.reads + 2 * height t }
{
    let above = Link {
        back: root,
        ..NO_LINK
    };
    let (mut at, mut left) = (above.back, n);
    let mut link = link_ahead(p, slot, above.back);
    while let Some(node) = at {
        let before = link_ahead(p, slot, link.back);
        if left == before.size {
            return Some(node);
        }
        if left < before.size {
            at = link.back;
            link = before;
        } else {
            left = left - before.size - 1;
            at = link.forth;
            link = link_ahead(p, slot, link.forth);
        }
    }
    None
}

/// How many nodes stand before `node`, which has that tag.
pub(crate) fn rank_in<T, O: NodeOrder<T>>(
    p: &mut Counted<T>,
    slot: usize,
    order: &O,
    root: Option<NodeRef>,
    node: NodeRef,
    tag: Tag,
    steps: &mut Steps,
) -> u32
    requires slot { slot < p.old.pool.slots }
    requires tag { tag ≡ (link_of p.old.pool node.name slot).tag }
    requires tree { (t : BinaryTree) × (xs : List Ref) × (ys : List Ref) × CanTake p.old.pool slot root t
        × Rising (side (O.order order.now) p.old.pool slot) (nodes t)
        × AreTagged (O.tag_of order.now) p.old.pool slot (nodes t) × (nodes t ≡ xs ++ node ∷ ys) }
    ensures rank { (t : BinaryTree) (xs : List Ref) (ys : List Ref) → CanTake p.old.pool slot root t
        → Rising (side (O.order order.now) p.old.pool slot) (nodes t) → nodes t ≡ xs ++ node ∷ ys
        → result ≡ length xs }
    ensures pool { p.new.pool ≡ p.old.pool }
    ensures reads { (t : BinaryTree) → IsRooted p.old.pool slot root t → p.new.reads ≤ p.old.reads + 2 * height t }
    ensures steps { (t : BinaryTree) → IsRooted p.old.pool slot root t → steps.new.count ≤ steps.old.count + height t }
{
    let decided = order.is_complete(tag.key);
    let (mut at, mut before) = (root, 0);
    while let Some(here) = at {
        let link = p.link(here, slot);
        match compare_nodes(p, order, node, tag, decided, here, link.tag, steps) {
            Ordering::Less => at = link.back,
            Ordering::Equal => return before + size(p, slot, link.back),
            Ordering::Greater => {
                at = link.forth;
                before += link.size - size(p, slot, link.forth);
            }
        }
    }
    before
}

/// Whether the probe isn't after what stands on that side of it, or with `is_upper` whether it is before.
pub(crate) fn is_past(side: Ordering, is_upper: bool) -> bool
    ensures { result ≡ past is_upper side }
{
    match side {
        Ordering::Less => false,
        Ordering::Equal => !is_upper,
        Ordering::Greater => true,
    }
}

/// How many nodes of a subtree stand in front of the first that the probe isn't after, or with `is_upper` of the first that it is
/// before; where there is none, how many there are. Whichever way it goes, it goes on with the link that it has read.
pub(crate) fn bound_rank_in<T, O: NodeOrder<T>>(
    p: &mut Counted<T>,
    slot: usize,
    order: &O,
    root: Option<NodeRef>,
    sought: &Sought<'_>,
    steps: &mut Steps,
) -> u32
    requires slot { slot < p.old.pool.slots }
    requires probe { sought.now.tag ≡ O.probe_tag_of order.now sought.now.probe }
    requires decided { sought.now.decided ≡ is_decided (O.is_exact order.now) sought.now.tag }
    requires tree { (t : BinaryTree) × IsRooted p.old.pool slot root t × (forks t < 2 ^ 32)
        × AreTagged (O.tag_of order.now) p.old.pool slot (nodes t)
        × IsSteady (is_past_node sought.now.is_upper (λ v. O.place order.now v sought.now.probe) p.old.pool) (nodes t) }
    ensures rank { (t : BinaryTree) → IsRooted p.old.pool slot root t
        → result ≡ position_or_len (is_past_node sought.now.is_upper (λ v. O.place order.now v sought.now.probe) p.old.pool) (nodes t) }
    ensures pool { p.new.pool ≡ p.old.pool }
    ensures reads { (t : BinaryTree) → IsRooted p.old.pool slot root t → p.new.reads ≤ p.old.reads + height t }
    ensures steps { (t : BinaryTree) → IsRooted p.old.pool slot root t → steps.new.count ≤ steps.old.count + height t }
{
    let mut link = link_ahead(p, slot, *&root);
    let (mut at, mut before) = (root, 0);
    while let Some(node) = at {
        let side = compare_sought(p, order, node, link.tag, sought, steps);
        if is_past(side, sought.is_upper) {
            at = link.back;
            link = link_ahead(p, slot, link.back);
        } else {
            let ahead = link_ahead(p, slot, link.forth);
            before += link.size - ahead.size;
            at = link.forth;
            link = ahead;
        }
    }
    before
}

/// How many nodes of a subtree are at the probe: as many as more aren't behind it than are before it. The path down parts at the
/// first node at the probe that it comes to.
pub(crate) fn count_in<T, O: NodeOrder<T>>(
    p: &mut Counted<T>,
    slot: usize,
    order: &O,
    root: Option<NodeRef>,
    sought: &Sought<'_>,
    steps: &mut Steps,
) -> u32
    requires slot { slot < p.old.pool.slots }
    requires probe { sought.now.tag ≡ O.probe_tag_of order.now sought.now.probe }
    requires decided { sought.now.decided ≡ is_decided (O.is_exact order.now) sought.now.tag }
    requires tree { (t : BinaryTree) × IsRooted p.old.pool slot root t × (forks t < 2 ^ 32)
        × AreTagged (O.tag_of order.now) p.old.pool slot (nodes t)
        × IsSteady (is_past_node false (λ v. O.place order.now v sought.now.probe) p.old.pool) (nodes t)
        × IsSteady (is_past_node true (λ v. O.place order.now v sought.now.probe) p.old.pool) (nodes t) }
    ensures count { (t : BinaryTree) → IsRooted p.old.pool slot root t
        → result + position_or_len (is_past_node false (λ v. O.place order.now v sought.now.probe) p.old.pool) (nodes t)
        ≡ position_or_len (is_past_node true (λ v. O.place order.now v sought.now.probe) p.old.pool) (nodes t) }
    ensures pool { p.new.pool ≡ p.old.pool }
    ensures reads { (t : BinaryTree) → IsRooted p.old.pool slot root t → p.new.reads ≤ p.old.reads + 2 * height t }
    ensures steps { (t : BinaryTree) → IsRooted p.old.pool slot root t → steps.new.count ≤ steps.old.count + 2 * height t }
{
    let mut at = root;
    while let Some(node) = at {
        let link = p.link(node, slot);
        match compare_sought(p, order, node, link.tag, sought, steps) {
            Ordering::Less => at = link.forth,
            Ordering::Equal => {
                return count_beside(p, slot, order, link.back, link.forth, sought, steps);
            }
            Ordering::Greater => at = link.back,
        }
    }
    0
}

/// How many nodes are at the probe of a node at the probe and those below it, which are two subtrees.
fn count_beside<T, O: NodeOrder<T>>(
    p: &mut Counted<T>,
    slot: usize,
    order: &O,
    back: Option<NodeRef>,
    forth: Option<NodeRef>,
    sought: &Sought<'_>,
    steps: &mut Steps,
) -> u32
    requires slot { slot < p.old.pool.slots }
    requires probe { sought.now.tag ≡ O.probe_tag_of order.now sought.now.probe }
    requires decided { sought.now.decided ≡ is_decided (O.is_exact order.now) sought.now.tag }
    requires back { (A : BinaryTree) × IsRooted p.old.pool slot back A × AreTagged (O.tag_of order.now) p.old.pool slot (nodes A)
        × IsSteady (is_past_node false (λ v. O.place order.now v sought.now.probe) p.old.pool) (nodes A) }
    requires forth { (B : BinaryTree) × IsRooted p.old.pool slot forth B × AreTagged (O.tag_of order.now) p.old.pool slot (nodes B)
        × IsSteady (is_past_node true (λ v. O.place order.now v sought.now.probe) p.old.pool) (nodes B) }
    requires fits { size_at p.old.pool slot back + size_at p.old.pool slot forth + 1 < 2 ^ 32 }
    ensures count { (A : BinaryTree) (B : BinaryTree) → IsRooted p.old.pool slot back A → IsRooted p.old.pool slot forth B
        → result + position_or_len (is_past_node false (λ v. O.place order.now v sought.now.probe) p.old.pool) (nodes A)
        ≡ forks A + 1 + position_or_len (is_past_node true (λ v. O.place order.now v sought.now.probe) p.old.pool) (nodes B) }
    ensures pool { p.new.pool ≡ p.old.pool }
    ensures reads { (A : BinaryTree) (B : BinaryTree) → IsRooted p.old.pool slot back A → IsRooted p.old.pool slot forth B
        → p.new.reads ≤ p.old.reads + (height A + height B + 1) }
    ensures steps { (A : BinaryTree) (B : BinaryTree) → IsRooted p.old.pool slot back A → IsRooted p.old.pool slot forth B
        → steps.new.count ≤ steps.old.count + (height A + height B) }
{
    let first = Sought {
        is_upper: false,
        ..*sought
    };
    let last = Sought {
        is_upper: true,
        ..*sought
    };
    let all = size(p, slot, *&back);
    let before = bound_rank_in(p, slot, order, back, &first, steps);
    let behind = bound_rank_in(p, slot, order, forth, &last, steps);
    all - before + 1 + behind
}
