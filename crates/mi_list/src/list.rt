//! The list: its slot and its two ends, over a pool that each call is passed.
//! It reads and writes links of its own slot alone, and never a value. Where an optional reference is used again, it is
//! passed as a copy, `*&x`: by its name it would be moved.
ghost use Rattle.std.specs.Prelude.{◌≡◌, ◌<◌, ◌⊎◌, Some, None, List as Seq, [], ◌∷◌, ◌++◌, ◌↔◌, IsTrue};
ghost use Rattle.mi_node.specs.Pool.{IsHeld, IsHeldIf, Keeps};
ghost use Rattle.mi_node.specs.Refs.{IsOut, first_of, last_of};
ghost use Rattle.mi_node.specs.Refs.{Ref};
ghost use Rattle.mi_node.specs.Neighbours.{kept_if, joined};
ghost use Rattle.mi_list.specs.Named.{IsNamed};

use mi_node::neighbours::{set_back, set_forth};
use mi_node::{Link, NO_TAG, NodeRef, Pool};

/// A list through one slot of the nodes of a pool. Contracts see the list of its nodes, in order.
///
/// The list holds no node itself: a node is in it while it and its neighbours say so in their links
/// of the slot. Each call is passed the pool that the list stands in. A node that was taken out keeps
/// its own link, so it can be put back between the same neighbours, for which no memory is needed.
#[derive(Drop)]
pub struct List {
    slot: usize,
    first: Option<NodeRef>,
    last: Option<NodeRef>,
}

impl List {
    ghost use Rattle.mi_list.specs.Listed.{slot_of, IsNew, IsListed, FitsBetween};

    /// A list without nodes, through that slot. It stands in any pool that has the slot.
    pub fn new(slot: usize) -> List
        ensures { IsNew result slot }
    {
        List {
            slot,
            first: None,
            last: None,
        }
    }

    /// The first node, or `None` where the list has none.
    pub fn first<T>(&self, p: &Pool<T>) -> Option<NodeRef>
        ensures { (rs : Seq Ref) → IsListed self.now p.now rs → result ≡ first_of rs None }
    {
        self.first
    }

    /// The last node, or `None` where the list has none.
    pub fn last<T>(&self, p: &Pool<T>) -> Option<NodeRef>
        ensures { (rs : Seq Ref) → IsListed self.now p.now rs → result ≡ last_of None rs }
    {
        self.last
    }

    /// The node after one of the list, or `None` after the last.
    pub fn next<T>(&self, p: &Pool<T>, node: NodeRef) -> Option<NodeRef>
        requires { (xs : Seq Ref) × (ys : Seq Ref) × IsListed self.now p.now (xs ++ node ∷ ys) }
        ensures { (xs ys : Seq Ref) → IsListed self.now p.now (xs ++ node ∷ ys)
            → result ≡ first_of ys None }
    {
        p.link(node, self.slot).forth
    }

    /// The node before one of the list, or `None` before the first.
    pub fn prev<T>(&self, p: &Pool<T>, node: NodeRef) -> Option<NodeRef>
        requires { (xs : Seq Ref) × (ys : Seq Ref) × IsListed self.now p.now (xs ++ node ∷ ys) }
        ensures { (xs ys : Seq Ref) → IsListed self.now p.now (xs ++ node ∷ ys)
            → result ≡ last_of None xs }
    {
        p.link(node, self.slot).back
    }

    /// Puts a node that isn't in the list at its end.
    pub fn push_back<T>(&mut self, p: &mut Pool<T>, node: NodeRef)
        requires held { IsHeld p.old node }
        requires place { (rs : Seq Ref) × IsListed self.old p.old rs × IsOut node.name rs }
        ensures list { (rs : Seq Ref) → IsListed self.old p.old rs → IsOut node.name rs
            → IsListed self.new p.new (rs ++ node ∷ []) }
        ensures keeps { (rs : Seq Ref) → IsListed self.old p.old rs → IsOut node.name rs
            → Keeps p.old p.new (slot_of self.old) (node ∷ rs) }
        ensures slot { slot_of self.new ≡ slot_of self.old }
    {
        self.insert_before(p, node, None);
    }

    /// Puts a node that isn't in the list directly before `before`, a node of the list, or at the end
    /// where that is `None`.
    pub fn insert_before<T>(&mut self, p: &mut Pool<T>, node: NodeRef, before: Option<NodeRef>)
        requires held { IsHeld p.old node }
        requires place { (xs : Seq Ref) × (ys : Seq Ref) × IsListed self.old p.old (xs ++ ys)
            × IsOut node.name (xs ++ ys) × (first_of ys None ≡ before) }
        ensures list { (xs ys : Seq Ref) → IsListed self.old p.old (xs ++ ys)
            → IsOut node.name (xs ++ ys) → first_of ys None ≡ before → IsListed self.new p.new (xs ++ node ∷ ys) }
        ensures keeps { (xs ys : Seq Ref) → IsListed self.old p.old (xs ++ ys)
            → IsOut node.name (xs ++ ys) → first_of ys None ≡ before → Keeps p.old p.new (slot_of self.old) (node ∷ xs ++ ys) }
        ensures slot { slot_of self.new ≡ slot_of self.old }
    {
        let back = self.back_at(p, *&before);
        p.set_link(
            node,
            self.slot,
            Link {
                back: *&back,
                forth: *&before,
                size: 0,
                height: 0,
                tag: NO_TAG,
            },
        );
        self.join(p, back, Some(node), before, Some(node));
    }

    /// Takes a node out of the list. Its own link stays, so that `relink` can put it back.
    pub fn unlink<T>(&mut self, p: &mut Pool<T>, node: NodeRef)
        requires { (xs : Seq Ref) × (ys : Seq Ref) × IsListed self.old p.old (xs ++ node ∷ ys) }
        ensures list { (xs ys : Seq Ref) → IsListed self.old p.old (xs ++ node ∷ ys)
            → FitsBetween self.new p.new node xs ys }
        ensures keeps { (xs ys : Seq Ref) → IsListed self.old p.old (xs ++ node ∷ ys)
            → Keeps p.old p.new (slot_of self.old) (xs ++ ys) }
        ensures slot { slot_of self.new ≡ slot_of self.old }
    {
        let link = p.link(node, self.slot);
        self.join(p, link.back, link.forth, link.forth, link.back);
    }

    /// Puts a node back between the neighbours that its own link names, which have to be neighbours
    /// now. A missing neighbour means that end of the list, and two mean an empty list.
    pub fn relink<T>(&mut self, p: &mut Pool<T>, node: NodeRef)
        requires { (xs : Seq Ref) × (ys : Seq Ref) × FitsBetween self.old p.old node xs ys }
        ensures list { (xs ys : Seq Ref) → FitsBetween self.old p.old node xs ys
            → IsListed self.new p.new (xs ++ node ∷ ys) }
        ensures keeps { (xs ys : Seq Ref) → FitsBetween self.old p.old node xs ys
            → Keeps p.old p.new (slot_of self.old) (xs ++ ys) }
        ensures slot { slot_of self.new ≡ slot_of self.old }
    {
        let link = p.link(node, self.slot);
        self.join(p, link.back, Some(node), link.forth, Some(node));
    }

    /// Moves a node of the list directly before `before`, another node of the list, or to the end
    /// where that is `None`. Nothing changes where both are one node.
    pub fn move_before<T>(&mut self, p: &mut Pool<T>, node: NodeRef, before: Option<NodeRef>)
        requires { (xs : Seq Ref) × (ys : Seq Ref) × IsListed self.old p.old (xs ++ node ∷ ys)
            × ((before ≡ Some node)
            ⊎ ((us : Seq Ref) × (vs : Seq Ref) × (xs ++ ys ≡ us ++ vs) × (first_of vs None ≡ before))) }
        ensures list { (xs ys us vs : Seq Ref) → IsListed self.old p.old (xs ++ node ∷ ys)
            → xs ++ ys ≡ us ++ vs → first_of vs None ≡ before → IsListed self.new p.new (us ++ node ∷ vs) }
        ensures itself { before ≡ Some node → (self.new ≡ self.old) × (p.new ≡ p.old) }
        ensures keeps { (xs ys : Seq Ref) → IsListed self.old p.old (xs ++ node ∷ ys)
            → Keeps p.old p.new (slot_of self.old) (xs ++ node ∷ ys) }
        ensures slot { slot_of self.new ≡ slot_of self.old }
    {
        if is_node(*&before, node) {
            return;
        }
        self.unlink(p, node);
        self.insert_before(p, node, before);
    }

    /// The node before a place: before `next`, a node of the list, or the last where that is `None`.
    fn back_at<T>(&self, p: &Pool<T>, next: Option<NodeRef>) -> Option<NodeRef>
        requires { (xs : Seq Ref) × (ys : Seq Ref) × IsListed self.now p.now (xs ++ ys)
            × (first_of ys None ≡ next) }
        ensures { (xs ys : Seq Ref) → IsListed self.now p.now (xs ++ ys) → first_of ys None ≡ next
            → result ≡ last_of None xs }
    {
        match next {
            Some(next) => p.link(next, self.slot).back,
            None => self.last,
        }
    }

    /// The node `back`, or where there is none this list, gets `next` as what comes after it, and the
    /// node `forth`, or where there is none this list, `prev` as what comes before it.
    fn join<T>(
        &mut self,
        p: &mut Pool<T>,
        back: Option<NodeRef>,
        next: Option<NodeRef>,
        forth: Option<NodeRef>,
        prev: Option<NodeRef>,
    )
        requires back { IsHeldIf p.old back }
        requires forth { IsHeldIf p.old forth }
        requires slot { slot_of self.old < p.old.slots }
        ensures pool { p.new ≡ joined p.old (slot_of self.old) back next forth prev }
        ensures first { self.new.first ≡ kept_if back self.old.first next }
        ensures last { self.new.last ≡ kept_if forth self.old.last prev }
        ensures slot { slot_of self.new ≡ slot_of self.old }
    {
        set_forth(p, self.slot, *&back, *&next);
        set_back(p, self.slot, *&forth, *&prev);
        if back.is_none() {
            self.first = next;
        }
        if forth.is_none() {
            self.last = prev;
        }
    }
}

/// Whether there is a reference, of the node's name.
fn is_node(reference: Option<NodeRef>, node: NodeRef) -> bool
    ensures { IsTrue result ↔ IsNamed reference node.name }
{
    match reference {
        Some(reference) => reference.name() == node.name(),
        None => false,
    }
}
