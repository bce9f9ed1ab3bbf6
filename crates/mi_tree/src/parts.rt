//! Subtrees and nodes between them are put together.
//! Here alone links are set; it knows no order.
ghost use Rattle.std.specs.Prelude.{◌≡◌, ◌<◌, [], ◌∷◌, Some};
ghost use Rattle.mi_node.specs.Cells.{sided};
ghost use Rattle.mi_node.specs.Pool.{IsHeldIf, Keeps, link_of};
ghost use Rattle.mi_tree.specs.BinaryTree.{BinaryTree, Fork, IsRooted, size_at, height_at};
ghost use Rattle.mi_tree.specs.Joining.{IsFork, read, IsDown, IsUp, IsBoth};
ghost use Rattle.mi_tree.specs.Sorted.{SameTags};

use mi_node::{Link, NodeRef, Pool};

/// How many nodes stand there.
pub(crate) fn size<T>(p: &Pool<T>, slot: usize, at: Option<NodeRef>) -> u32
    requires held { IsHeldIf p.now at }
    requires slot { slot < p.now.slots }
    ensures { result ≡ size_at p.now slot at }
{
    match at {
        None => 0,
        Some(node) => p.link(node, slot).size,
    }
}

/// How many levels they have.
pub(crate) fn height<T>(p: &Pool<T>, slot: usize, at: Option<NodeRef>) -> u8
    requires held { IsHeldIf p.now at }
    requires slot { slot < p.now.slots }
    ensures { result ≡ height_at p.now slot at }
{
    match at {
        None => 0,
        Some(node) => p.link(node, slot).height,
    }
}

/// A subtree: its root, if it has a node, how many nodes it has, and how many levels. Who has one reads none of its links.
#[derive(Clone, Copy)]
pub(crate) struct Sub {
    pub(crate) root: Option<NodeRef>,
    pub(crate) size: u32,
    pub(crate) height: u8,
}

impl Sub {
    /// The subtree of that root, as its link says it.
    pub(crate) fn of<T>(p: &Pool<T>, slot: usize, root: Option<NodeRef>) -> Sub
        requires held { IsHeldIf p.now root }
        requires slot { slot < p.now.slots }
        ensures { result ≡ read p.now slot root }
    {
        match root {
            None => Sub {
                root: None,
                size: 0,
                height: 0,
            },
            Some(node) => {
                let link = p.link(node, slot);
                Sub {
                    root: Some(node),
                    size: link.size,
                    height: link.height,
                }
            }
        }
    }
}

/// Sets the node's link, by which it has two sides, but for its tag, which is right.
pub(crate) fn set_fork<T>(p: &mut Pool<T>, slot: usize, x: NodeRef, link: Link)
    requires slot { slot < p.old.slots }
    requires parts { (A : BinaryTree) × (B : BinaryTree) × IsFork p.old slot x link A B }
    ensures tree { (A : BinaryTree) (B : BinaryTree) → IsFork p.old slot x link A B → IsRooted p.new slot (Some x) (Fork A x B) }
    ensures slots { p.new.slots ≡ p.old.slots }
    ensures keeps { Keeps p.old p.new slot (x ∷ []) }
    ensures tags { SameTags p.old p.new slot }
{
    let tag = p.link(x, slot).tag;
    p.set_link(x, slot, Link { tag, ..link });
}

/// The node gets another side and another height. Its other side and its size are right.
pub(crate) fn set_side<T>(
    p: &mut Pool<T>,
    slot: usize,
    x: NodeRef,
    left: bool,
    side: Option<NodeRef>,
    height: u8,
)
    requires slot { slot < p.old.slots }
    requires parts { (A : BinaryTree) × (B : BinaryTree) × IsFork p.old slot x (sided left side height (link_of p.old x.name slot)) A B }
    ensures tree { (A : BinaryTree) (B : BinaryTree) → IsFork p.old slot x (sided left side height (link_of p.old x.name slot)) A B
        → IsRooted p.new slot (Some x) (Fork A x B) }
    ensures slots { p.new.slots ≡ p.old.slots }
    ensures keeps { Keeps p.old p.new slot (x ∷ []) }
    ensures tags { SameTags p.old p.new slot }
{
    p.set_side(x, slot, left, side, height);
}

/// `x` gets a link by which it is above `y`, which gets the other one.
pub(crate) fn set_down<T>(
    p: &mut Pool<T>,
    slot: usize,
    x: NodeRef,
    upper: Link,
    y: NodeRef,
    lower: Link,
)
    requires slot { slot < p.old.slots }
    requires parts { (A : BinaryTree) × (B : BinaryTree) × (C : BinaryTree) × IsDown p.old slot x upper y lower A B C }
    ensures tree { (A : BinaryTree) (B : BinaryTree) (C : BinaryTree) → IsDown p.old slot x upper y lower A B C
        → IsRooted p.new slot (Some x) (Fork A x (Fork B y C)) }
    ensures slots { p.new.slots ≡ p.old.slots }
    ensures keeps { Keeps p.old p.new slot (x ∷ y ∷ []) }
    ensures tags { SameTags p.old p.new slot }
{
    set_fork(p, slot, y, lower);
    set_fork(p, slot, x, upper);
}

/// `y` gets a link by which it is above `x`, which gets the other one.
pub(crate) fn set_up<T>(
    p: &mut Pool<T>,
    slot: usize,
    x: NodeRef,
    lower: Link,
    y: NodeRef,
    upper: Link,
)
    requires slot { slot < p.old.slots }
    requires parts { (A : BinaryTree) × (B : BinaryTree) × (C : BinaryTree) × IsUp p.old slot x lower y upper A B C }
    ensures tree { (A : BinaryTree) (B : BinaryTree) (C : BinaryTree) → IsUp p.old slot x lower y upper A B C
        → IsRooted p.new slot (Some y) (Fork (Fork A x B) y C) }
    ensures slots { p.new.slots ≡ p.old.slots }
    ensures keeps { Keeps p.old p.new slot (x ∷ y ∷ []) }
    ensures tags { SameTags p.old p.new slot }
{
    set_fork(p, slot, x, lower);
    set_fork(p, slot, y, upper);
}

/// `y` gets a link by which it is above `x` and `z`, which get the other two.
pub(crate) fn set_both<T>(
    p: &mut Pool<T>,
    slot: usize,
    x: NodeRef,
    before: Link,
    y: NodeRef,
    upper: Link,
    z: NodeRef,
    after: Link,
)
    requires slot { slot < p.old.slots }
    requires parts { (A : BinaryTree) × (B : BinaryTree) × (C : BinaryTree) × (D : BinaryTree) × IsBoth p.old slot x before y upper z after A B C D }
    ensures tree { (A : BinaryTree) (B : BinaryTree) (C : BinaryTree) (D : BinaryTree) → IsBoth p.old slot x before y upper z after A B C D
        → IsRooted p.new slot (Some y) (Fork (Fork A x B) y (Fork C z D)) }
    ensures slots { p.new.slots ≡ p.old.slots }
    ensures keeps { Keeps p.old p.new slot (x ∷ y ∷ z ∷ []) }
    ensures tags { SameTags p.old p.new slot }
{
    set_fork(p, slot, x, before);
    set_fork(p, slot, z, after);
    set_fork(p, slot, y, upper);
}
