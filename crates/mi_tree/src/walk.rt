//! A walk along a tree's nodes in order or against it, which remembers the path down to where it stands.
//! It reads links of one slot, and changes nothing.
ghost use Rattle.std.specs.Prelude.{◌≡◌, ◌↔◌, IsTrue, ℕ, ◌+◌, ◌*◌, ◌<◌, ◌≤◌, List, [], ◌∷◌, ◌++◌, length, drop, cond, None, Some};
ghost use Rattle.std.specs.List.{position_or_len};
ghost use Rattle.mi_node.specs.Refs.{Ref, first_of};
ghost use Rattle.mi_tree.specs.BinaryTree.{BinaryTree, IsRooted, nodes, height};
ghost use Rattle.mi_tree.specs.Sorted.{AreTagged};
ghost use Rattle.mi_tree.specs.Probed.{is_decided, is_past_node, IsSteady};
ghost use Rattle.mi_tree.specs.Walking.{Pending, IsWalk, Enters, Goes, ahead, onward, beyond_place, near_of, far_of, is_ascending};

use crate::compare::{Sought, compare_sought, probe_is_complete};
use crate::look::{is_past, size};
use crate::order::NodeOrder;
use arrayvec::ArrayVec;
use mi_node::{Counted, Link, NodeRef};
use mi_value::{Probe, Steps};

/// The most levels of a balanced tree that has fewer than 2^32 nodes.
pub(crate) const MAX_LEVELS: usize = 45;

type Path = ArrayVec<Option<NodeRef>, MAX_LEVELS>;

/// Which way a walk goes along a tree.
#[derive(Clone, Copy)]
pub enum Direction {
    /// From each node to the one after it.
    Ascending,
    /// From each node to the one before it.
    Descending,
}

impl Direction {
    /// The side of a node that the walk comes to before the node.
    fn near(self, link: Link) -> Option<NodeRef>
        ensures { result ≡ near_of self link }
    {
        match self {
            Direction::Ascending => link.back,
            Direction::Descending => link.forth,
        }
    }

    /// The side of a node that the walk comes to after the node.
    fn far(self, link: Link) -> Option<NodeRef>
        ensures { result ≡ far_of self link }
    {
        match self {
            Direction::Ascending => link.forth,
            Direction::Descending => link.back,
        }
    }

    fn is_ascending(self) -> bool
        ensures { result ≡ is_ascending self }
    {
        match self {
            Direction::Ascending => true,
            Direction::Descending => false,
        }
    }
}

/// Where a walk along a tree stands. It gives the nodes in its direction, one a call, in a time that does
/// not depend on the tree's size on average: k calls read at most 2k links and one for each level.
///
/// It takes no memory. It is of use while the pool has the tree's links as they were when it began.
#[derive(Drop)]
pub struct Walk {
    slot: usize,
    direction: Direction,
    path: Path,
}

impl Walk {
    /// A walk under a root, from the place behind the first `passed` nodes.
    pub(crate) fn start<T>(
        p: &mut Counted<T>,
        slot: usize,
        direction: Direction,
        root: Option<NodeRef>,
        passed: u32,
    ) -> Walk
        requires slot { slot < p.old.pool.slots }
        requires tree { (levels : ℕ) × (t : BinaryTree) × Enters p.old.pool slot direction levels [] root [] t }
        ensures walk { (levels : ℕ) (t : BinaryTree) → Enters p.old.pool slot direction levels [] root [] t
            → IsWalk result p.old.pool levels (beyond_place direction passed (nodes t)) }
        ensures pool { p.new.pool ≡ p.old.pool }
        ensures reads { (levels : ℕ) (t : BinaryTree) → Enters p.old.pool slot direction levels [] root [] t → p.new.reads ≤ p.old.reads + 2 * height t }
    {
        let mut path = ArrayVec::new();
        cut_down(p, slot, direction, root, passed, &mut path);
        Walk {
            slot,
            direction,
            path,
        }
    }

    /// A walk under a root from the place in front of the first node that the probe isn't after, or with `is_upper` of the first that it
    /// is before.
    pub(crate) fn start_at_bound<T, O: NodeOrder<T>>(
        p: &mut Counted<T>,
        slot: usize,
        direction: Direction,
        order: &O,
        root: Option<NodeRef>,
        probe: Probe<'_>,
        is_upper: bool,
        steps: &mut Steps,
    ) -> Walk
        requires slot { slot < p.old.pool.slots }
        requires tree { (levels : ℕ) × (t : BinaryTree) × Enters p.old.pool slot direction levels [] root [] t
            × AreTagged (O.tag_of order.now) p.old.pool slot (nodes t)
            × IsSteady (is_past_node is_upper (λ v. O.place order.now v probe) p.old.pool) (nodes t) }
        ensures walk { (levels : ℕ) (t : BinaryTree) → Enters p.old.pool slot direction levels [] root [] t
            → IsSteady (is_past_node is_upper (λ v. O.place order.now v probe.entry) p.old.pool) (nodes t)
            → IsWalk result p.old.pool levels
            (beyond_place direction (position_or_len (is_past_node is_upper (λ v. O.place order.now v probe.entry) p.old.pool) (nodes t)) (nodes t)) }
        ensures pool { p.new.pool ≡ p.old.pool }
        ensures reads { (t : BinaryTree) → IsRooted p.old.pool slot root t → p.new.reads ≤ p.old.reads + height t }
        ensures steps { (t : BinaryTree) → IsRooted p.old.pool slot root t → steps.new.count ≤ steps.old.count + height t }
    {
        let mut path = ArrayVec::new();
        let tag = order.probe_tag(probe);
        let sought = Sought {
            probe,
            tag,
            decided: probe_is_complete::<T, O>(order, tag),
            is_upper,
        };
        seek_down(p, slot, direction, order, root, &sought, &mut path, steps);
        Walk {
            slot,
            direction,
            path,
        }
    }

    /// Whether there are no more nodes in the walk's direction: none waits on its path.
    pub fn is_over(&self) -> bool
        ensures { IsTrue result ↔ (self.now.path.items ≡ []) }
    {
        self.path.is_empty()
    }

    /// The next node in the walk's direction, or None where there are no more.
    ///
    /// It reads two links, and one more for each level by which its path grows; the path has at most
    /// `levels` levels.
    pub fn next<T>(&mut self, p: &mut Counted<T>) -> Option<NodeRef>
        requires { (levels : ℕ) × (us : List Ref) × IsWalk self.old p.old.pool levels us }
        ensures node { (levels : ℕ) (us : List Ref) → IsWalk self.old p.old.pool levels us → result ≡ first_of us None }
        ensures walk { (levels : ℕ) (us : List Ref) → IsWalk self.old p.old.pool levels us → IsWalk self.new p.new.pool levels (drop 1 us) }
        ensures pool { p.new.pool ≡ p.old.pool }
        ensures reads { p.new.reads + length self.old.path.items ≤ p.old.reads + length self.new.path.items + 2 }
        ensures depth { (levels : ℕ) (us : List Ref) → IsWalk self.old p.old.pool levels us → length self.new.path.items ≤ levels }
    {
        let Some(node) = self.path.pop().flatten() else {
            return None;
        };
        let after = self.direction.far(p.link(node, self.slot));
        go_down(p, self.slot, self.direction, after, &mut self.path);
        Some(node)
    }
}

/// Goes down to the first node in that direction, and puts each node that it passes onto the path.
fn go_down<T>(
    p: &mut Counted<T>,
    slot: usize,
    direction: Direction,
    at: Option<NodeRef>,
    path: &mut Path,
)
    requires slot { slot < p.old.pool.slots }
    requires way { (levels : ℕ) × (xs : List Pending) × (t : BinaryTree) × Enters p.old.pool slot direction levels path.old.items at xs t }
    ensures way { (levels : ℕ) (xs : List Pending) (t : BinaryTree) → Enters p.old.pool slot direction levels path.old.items at xs t
        → (ys : List Pending) × Goes p.old.pool slot direction levels path.new.items ys
        × (ahead direction ys ≡ onward direction (nodes t) ++ ahead direction xs) }
    ensures pool { p.new.pool ≡ p.old.pool }
    ensures reads { p.new.reads + length path.old.items ≡ p.old.reads + length path.new.items }
{
    let Some(node) = at else {
        return;
    };
    path.push(Some(node));
    let before = direction.near(p.link(node, slot));
    go_down(p, slot, direction, before, path);
}

/// Goes down to the place behind the first `passed` nodes, and puts the nodes that are ahead from there
/// onto the path.
fn cut_down<T>(
    p: &mut Counted<T>,
    slot: usize,
    direction: Direction,
    at: Option<NodeRef>,
    passed: u32,
    path: &mut Path,
)
    requires slot { slot < p.old.pool.slots }
    requires way { (levels : ℕ) × (xs : List Pending) × (t : BinaryTree) × Enters p.old.pool slot direction levels path.old.items at xs t }
    ensures way { (levels : ℕ) (xs : List Pending) (t : BinaryTree) → Enters p.old.pool slot direction levels path.old.items at xs t
        → (ys : List Pending) × Goes p.old.pool slot direction levels path.new.items ys
        × (ahead direction ys ≡ beyond_place direction passed (nodes t) ++ ahead direction xs) }
    ensures pool { p.new.pool ≡ p.old.pool }
    ensures reads { (t : BinaryTree) → IsRooted p.old.pool slot at t → p.new.reads ≤ p.old.reads + 2 * height t }
{
    let Some(node) = at else {
        return;
    };
    let link = p.link(node, slot);
    let before = size(p, slot, link.back);
    if passed <= before {
        push_if(path, node, direction.is_ascending());
        cut_down(p, slot, direction, link.back, passed, path);
    } else {
        push_if(path, node, !direction.is_ascending());
        cut_down(p, slot, direction, link.forth, passed - before - 1, path);
    }
}

/// Goes down to the place that is sought, and puts the nodes that are ahead from there onto the path.
fn seek_down<T, O: NodeOrder<T>>(
    p: &mut Counted<T>,
    slot: usize,
    direction: Direction,
    order: &O,
    at: Option<NodeRef>,
    sought: &Sought<'_>,
    path: &mut Path,
    steps: &mut Steps,
)
    requires slot { slot < p.old.pool.slots }
    requires probe { sought.now.tag ≡ O.probe_tag_of order.now sought.now.probe }
    requires decided { sought.now.decided ≡ is_decided (O.is_exact order.now) sought.now.tag }
    requires way { (levels : ℕ) × (xs : List Pending) × (t : BinaryTree) × Enters p.old.pool slot direction levels path.old.items at xs t
        × AreTagged (O.tag_of order.now) p.old.pool slot (nodes t)
        × IsSteady (is_past_node sought.now.is_upper (λ v. O.place order.now v sought.now.probe) p.old.pool) (nodes t) }
    ensures way { (levels : ℕ) (xs : List Pending) (t : BinaryTree) → Enters p.old.pool slot direction levels path.old.items at xs t
        → IsSteady (is_past_node sought.now.is_upper (λ v. O.place order.now v sought.now.probe) p.old.pool) (nodes t)
        → (ys : List Pending) × Goes p.old.pool slot direction levels path.new.items ys
        × (ahead direction ys ≡
        beyond_place direction
        (position_or_len (is_past_node sought.now.is_upper (λ v. O.place order.now v sought.now.probe) p.old.pool) (nodes t)) (nodes t)
        ++ ahead direction xs) }
    ensures pool { p.new.pool ≡ p.old.pool }
    ensures reads { (t : BinaryTree) → IsRooted p.old.pool slot at t → p.new.reads ≤ p.old.reads + height t }
    ensures steps { (t : BinaryTree) → IsRooted p.old.pool slot at t → steps.new.count ≤ steps.old.count + height t }
{
    let Some(node) = at else {
        return;
    };
    let link = p.link(node, slot);
    let side = compare_sought(p, order, node, link.tag, sought, steps);
    if is_past(side, sought.is_upper) {
        push_if(path, node, direction.is_ascending());
        seek_down(p, slot, direction, order, link.back, sought, path, steps);
    } else {
        push_if(path, node, !direction.is_ascending());
        seek_down(p, slot, direction, order, link.forth, sought, path, steps);
    }
}

/// Puts a node onto the path, if it is wanted there.
fn push_if(path: &mut Path, node: NodeRef, wanted: bool)
    requires { length path.old.items < MAX_LEVELS }
    ensures { path.new.items ≡ cond wanted (path.old.items ++ Some node ∷ []) path.old.items }
{
    if wanted {
        path.push(Some(node));
    }
}
