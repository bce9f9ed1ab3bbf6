//! The tree: its slot, its order and its root.
//! It sets links of its own slot alone, owns no node, and never touches a value.
ghost use Rattle.std.specs.Prelude.{◌≡◌, ℕ, ◌+◌, ◌*◌, ◌^◌, ◌<◌, ◌≤◌, ◌∷◌, ◌++◌, ◌==◌, ◌↔◌, IsTrue, List, length, Some, None, true, false};
ghost use Rattle.std.specs.List.{position_or_len, filter};
ghost use Rattle.std.specs.declared.cmp.Ordering.{Ordering as Side};
ghost use Rattle.mi_node.specs.Pool.{IsHeld, Keeps, value_of, link_of, with_link};
ghost use Rattle.mi_node.specs.Refs.{Ref, first_of, last_of};
ghost use Rattle.mi_tree.specs.BinaryTree.{nth_of};
ghost use Rattle.mi_tree.specs.Sorted.{side_of_new, IsPutIn};
ghost use Rattle.mi_tree.specs.Probed.{is_past_node, is_node_at, first_where};

use crate::change::{put_in, take_out};
use crate::compare::{Item, Sought, compare_item, compare_probe, probe_is_complete};
use crate::keeping::{passes_none, passes_none_above, side_ahead};
use crate::look::{bound_rank_in, count_in, is_past, nth_in, rank_in};
use crate::order::NodeOrder;
use crate::parts::size;
use crate::walk::{Direction, Walk};
use mi_node::{Counted, Link, NodeRef, Pool, Tag};
use mi_value::{Probe, Steps};
use std::cmp::Ordering;

/// A height-balanced tree through one slot of a pool's nodes. It stands in a pool, which each call is
/// passed, and is the list of its nodes in the order of their keys; nodes of one key are in the order of
/// their stamps, no two of which are alike.
///
/// Each node's link has its children, the number of nodes below and with it, the number of levels there,
/// and the node's tag: that of its value's key, and its stamp. A call takes no memory.
///
/// The bounds of look-ups hold for every number b of binary digits that is enough for the number of
/// nodes, n < 2^b.
#[derive(Drop)]
pub struct Tree<O> {
    slot: usize,
    order: O,
    root: Option<NodeRef>,
}

impl<O> Tree<O> {
    ghost use Rattle.mi_tree.specs.Standing.{IsTree, CanInsert};
    ghost use Rattle.mi_tree.specs.Walking.{IsWalk, beyond_place};
    ghost use Rattle.mi_tree.specs.Keeping.{KeepsPlace, retagged};

    /// An empty tree through a slot, counted from 0, which must be one that the pool's nodes have.
    pub fn new(slot: usize, order: O) -> Tree<O>
        ensures slot { result.slot ≡ slot }
        ensures order { result.order ≡ order }
        ensures root { result.root ≡ None }
    {
        Tree {
            slot,
            order,
            root: None,
        }
    }

    /// Puts a node in with that stamp, in its place by its key and then by the stamp. No node of the tree
    /// has its key and that stamp, and the tree has fewer than 2^32 - 1 nodes.
    ///
    /// Links are set of this slot alone, and of no node outside the tree but this one. Each node of the tree
    /// keeps its stamp.
    pub fn insert<T>(&mut self, p: &mut Pool<T>, node: NodeRef, stamp: u64, steps: &mut Steps)
    where
        O: NodeOrder<T>,
        requires { (rs : List Ref) × IsTree self.old p.old (O.order self.old.order) (O.tag_of self.old.order) rs
            × CanInsert p.old self.old.slot (O.order self.old.order) node stamp rs }
        ensures tree { (rs : List Ref) → IsTree self.old p.old (O.order self.old.order) (O.tag_of self.old.order) rs
            → CanInsert p.old self.old.slot (O.order self.old.order) node stamp rs
            → (us : List Ref) × IsPutIn (side_of_new (O.order self.old.order) p.old self.old.slot node stamp) node rs us
            × IsTree self.new p.new (O.order self.old.order) (O.tag_of self.old.order) us }
        ensures keeps { (rs : List Ref) → IsTree self.old p.old (O.order self.old.order) (O.tag_of self.old.order) rs
            → CanInsert p.old self.old.slot (O.order self.old.order) node stamp rs
            → Keeps p.old p.new self.old.slot (node ∷ rs) }
        ensures stamp { (link_of p.new node.name self.old.slot).tag.stamp ≡ stamp }
        ensures tags { (k : ℕ) → (k == node.name) ≡ false → (link_of p.new k self.old.slot).tag ≡ (link_of p.old k self.old.slot).tag }
        ensures slot { self.new.slot ≡ self.old.slot }
        ensures order { self.new.order ≡ self.old.order }
    {
        let key = self.order.tag(p.value(node));
        let tag = Tag { key, stamp };
        p.set_link(
            node,
            self.slot,
            Link {
                back: None,
                forth: None,
                size: 1,
                height: 1,
                tag,
            },
        );
        self.root = put_in(p, self.slot, &self.order, self.root, node, tag, steps);
    }

    /// Takes a node of the tree out. The others keep their order, and each node keeps its value, its tag
    /// and its stamp.
    ///
    /// Links are set of this slot alone, and of the nodes that stay alone: the link of the node that goes is
    /// as it was.
    pub fn remove<T>(&mut self, p: &mut Pool<T>, node: NodeRef, steps: &mut Steps)
    where
        O: NodeOrder<T>,
        requires { (xs : List Ref) × (ys : List Ref) × IsTree self.old p.old (O.order self.old.order) (O.tag_of self.old.order) (xs ++ node ∷ ys) }
        ensures tree { (xs : List Ref) (ys : List Ref) → IsTree self.old p.old (O.order self.old.order) (O.tag_of self.old.order) (xs ++ node ∷ ys)
            → IsTree self.new p.new (O.order self.old.order) (O.tag_of self.old.order) (xs ++ ys) }
        ensures keeps { (xs : List Ref) (ys : List Ref) → IsTree self.old p.old (O.order self.old.order) (O.tag_of self.old.order) (xs ++ node ∷ ys)
            → Keeps p.old p.new self.old.slot (xs ++ ys) }
        ensures tags { (k : ℕ) → (link_of p.new k self.old.slot).tag ≡ (link_of p.old k self.old.slot).tag }
        ensures slot { self.new.slot ≡ self.old.slot }
        ensures order { self.new.order ≡ self.old.order }
    {
        let tag = p.link(node, self.slot).tag;
        self.root = take_out(p, self.slot, &self.order, self.root, node, tag, steps);
    }

    /// Whether a node of the tree keeps its place where it gets another value and that stamp: by key and then by stamp, every
    /// node in front of it is before these, and every node behind it is after them. At most 4b comparisons.
    pub fn keeps_place<T>(
        &self,
        p: &Pool<T>,
        node: NodeRef,
        value: &T,
        stamp: u64,
        steps: &mut Steps,
    ) -> bool
    where
        O: NodeOrder<T>,
        requires { (xs : List Ref) × (ys : List Ref) × IsTree self.now p.now (O.order self.now.order) (O.tag_of self.now.order) (xs ++ node ∷ ys) }
        ensures keeps { (xs : List Ref) (ys : List Ref) → IsTree self.now p.now (O.order self.now.order) (O.tag_of self.now.order) (xs ++ node ∷ ys)
            → (IsTrue result ↔ KeepsPlace (O.order self.now.order) p.now self.now.slot value.now stamp xs ys) }
        ensures steps { (order : T → T → Side) (tag : T → ℕ) (rs : List Ref) → IsTree self.now p.now order tag rs
            → (b : ℕ) → length rs < 2 ^ b → steps.new.count ≤ steps.old.count + 4 * b }
    {
        let link = p.link(node, self.slot);
        let key = self.order.tag(value);
        let decided = self.order.is_complete(key);
        let item = Item {
            value,
            tag: Tag { key, stamp },
            decided,
        };
        let old = link.tag;
        let side = compare_item(p, &self.order, &item, node, old, steps);
        if side.is_eq() {
            return true;
        }
        let rises = side.is_gt();
        let next = side_ahead(link, rises);
        if next.is_some() {
            passes_none(p, self.slot, &self.order, next, &item, rises, steps)
        } else {
            passes_none_above(
                p,
                self.slot,
                &self.order,
                self.root,
                node,
                old,
                &item,
                rises,
                steps,
            )
        }
    }

    /// Gives a node's link the tag of its value, with that stamp. Nothing else of any link changes. The tree stands then, if
    /// the node had another value and another stamp before, and keeps its place with these.
    pub fn retag<T>(&self, p: &mut Pool<T>, node: NodeRef, stamp: u64)
    where
        O: NodeOrder<T>,
        requires held { IsHeld p.old node }
        requires slot { self.now.slot < p.old.slots }
        ensures { (v : T) → value_of p.old node.name ≡ Some v → p.new ≡ with_link p.old node.name self.now.slot
            (retagged (record { key = O.tag_of self.now.order v; stamp = stamp }) (link_of p.old node.name self.now.slot)) }
    {
        let key = self.order.tag(p.value(node));
        let link = Link {
            tag: Tag { key, stamp },
            ..p.link(node, self.slot)
        };
        p.set_link(node, self.slot, link);
    }

    /// How many nodes it has. Reads one link.
    pub fn len<T>(&self, p: &Pool<T>) -> u32
        requires { (order : T → T → Side) × (tag : T → ℕ) × (rs : List Ref) × IsTree self.now p.now order tag rs }
        ensures { (order : T → T → Side) (tag : T → ℕ) (rs : List Ref) → IsTree self.now p.now order tag rs → result ≡ length rs }
    {
        size(p, self.slot, self.root)
    }

    /// The node of a rank, counted from 0, or None where the tree has no more nodes than that. It
    /// compares nothing and reads at most 4b links.
    pub fn nth<T>(&self, p: &mut Counted<T>, n: u32) -> Option<NodeRef>
        requires { (order : T → T → Side) × (tag : T → ℕ) × (rs : List Ref) × IsTree self.now p.old.pool order tag rs }
        ensures node { (order : T → T → Side) (tag : T → ℕ) (rs : List Ref) → IsTree self.now p.old.pool order tag rs → result ≡ nth_of rs n }
        ensures pool { p.new.pool ≡ p.old.pool }
        ensures reads { (order : T → T → Side) (tag : T → ℕ) (rs : List Ref) → IsTree self.now p.old.pool order tag rs
            → (b : ℕ) → length rs < 2 ^ b → p.new.reads ≤ p.old.reads + 4 * b }
    {
        nth_in(p, self.slot, self.root, n)
    }

    /// How many nodes are before a node of the tree. At most 2b comparisons and 4b reads of links.
    pub fn rank<T>(&self, p: &mut Counted<T>, node: NodeRef, steps: &mut Steps) -> u32
    where
        O: NodeOrder<T>,
        requires { (xs : List Ref) × (ys : List Ref) × IsTree self.now p.old.pool (O.order self.now.order) (O.tag_of self.now.order) (xs ++ node ∷ ys) }
        ensures rank { (xs : List Ref) (ys : List Ref)
            → IsTree self.now p.old.pool (O.order self.now.order) (O.tag_of self.now.order) (xs ++ node ∷ ys) → result ≡ length xs }
        ensures pool { p.new.pool ≡ p.old.pool }
        ensures reads { (order : T → T → Side) (tag : T → ℕ) (rs : List Ref) → IsTree self.now p.old.pool order tag rs
            → (b : ℕ) → length rs < 2 ^ b → p.new.reads ≤ p.old.reads + 4 * b }
        ensures steps { (order : T → T → Side) (tag : T → ℕ) (rs : List Ref) → IsTree self.now p.old.pool order tag rs
            → (b : ℕ) → length rs < 2 ^ b → steps.new.count ≤ steps.old.count + 2 * b }
    {
        let tag = p.link(node, self.slot).tag;
        rank_in(p, self.slot, &self.order, self.root, node, tag, steps)
    }

    /// The first node that isn't before the probe. At most 2b comparisons and 2b reads of links.
    pub fn lower<T>(
        &self,
        p: &mut Counted<T>,
        probe: Probe<'_>,
        steps: &mut Steps,
    ) -> Option<NodeRef>
    where
        O: NodeOrder<T>,
        requires { (rs : List Ref) × IsTree self.now p.old.pool (O.order self.now.order) (O.tag_of self.now.order) rs }
        ensures node { (rs : List Ref) → IsTree self.now p.old.pool (O.order self.now.order) (O.tag_of self.now.order) rs
            → result ≡ first_where (is_past_node false (λ v. O.place self.now.order v probe.entry) p.old.pool) rs }
        ensures pool { p.new.pool ≡ p.old.pool }
        ensures reads { (order : T → T → Side) (tag : T → ℕ) (rs : List Ref) → IsTree self.now p.old.pool order tag rs
            → (b : ℕ) → length rs < 2 ^ b → p.new.reads ≤ p.old.reads + 2 * b }
        ensures steps { (order : T → T → Side) (tag : T → ℕ) (rs : List Ref) → IsTree self.now p.old.pool order tag rs
            → (b : ℕ) → length rs < 2 ^ b → steps.new.count ≤ steps.old.count + 2 * b }
    {
        self.bound(p, probe, false, steps)
    }

    /// The first node that is after the probe. At most 2b comparisons and 2b reads of links.
    pub fn upper<T>(
        &self,
        p: &mut Counted<T>,
        probe: Probe<'_>,
        steps: &mut Steps,
    ) -> Option<NodeRef>
    where
        O: NodeOrder<T>,
        requires { (rs : List Ref) × IsTree self.now p.old.pool (O.order self.now.order) (O.tag_of self.now.order) rs }
        ensures node { (rs : List Ref) → IsTree self.now p.old.pool (O.order self.now.order) (O.tag_of self.now.order) rs
            → result ≡ first_where (is_past_node true (λ v. O.place self.now.order v probe.entry) p.old.pool) rs }
        ensures pool { p.new.pool ≡ p.old.pool }
        ensures reads { (order : T → T → Side) (tag : T → ℕ) (rs : List Ref) → IsTree self.now p.old.pool order tag rs
            → (b : ℕ) → length rs < 2 ^ b → p.new.reads ≤ p.old.reads + 2 * b }
        ensures steps { (order : T → T → Side) (tag : T → ℕ) (rs : List Ref) → IsTree self.now p.old.pool order tag rs
            → (b : ℕ) → length rs < 2 ^ b → steps.new.count ≤ steps.old.count + 2 * b }
    {
        self.bound(p, probe, true, steps)
    }

    /// How many nodes are before the probe: all in front of the first that isn't, in one path down. At most 2b
    /// comparisons and 2b reads of links.
    pub fn lower_rank<T>(&self, p: &mut Counted<T>, probe: Probe<'_>, steps: &mut Steps) -> u32
    where
        O: NodeOrder<T>,
        requires { (rs : List Ref) × IsTree self.now p.old.pool (O.order self.now.order) (O.tag_of self.now.order) rs }
        ensures rank { (rs : List Ref) → IsTree self.now p.old.pool (O.order self.now.order) (O.tag_of self.now.order) rs
            → result ≡ position_or_len (is_past_node false (λ v. O.place self.now.order v probe.entry) p.old.pool) rs }
        ensures pool { p.new.pool ≡ p.old.pool }
        ensures reads { (order : T → T → Side) (tag : T → ℕ) (rs : List Ref) → IsTree self.now p.old.pool order tag rs
            → (b : ℕ) → length rs < 2 ^ b → p.new.reads ≤ p.old.reads + 2 * b }
        ensures steps { (order : T → T → Side) (tag : T → ℕ) (rs : List Ref) → IsTree self.now p.old.pool order tag rs
            → (b : ℕ) → length rs < 2 ^ b → steps.new.count ≤ steps.old.count + 2 * b }
    {
        self.bound_rank(p, probe, false, steps)
    }

    /// How many nodes aren't after the probe: all in front of the first that is, in one path down. At most 2b
    /// comparisons and 2b reads of links.
    pub fn upper_rank<T>(&self, p: &mut Counted<T>, probe: Probe<'_>, steps: &mut Steps) -> u32
    where
        O: NodeOrder<T>,
        requires { (rs : List Ref) × IsTree self.now p.old.pool (O.order self.now.order) (O.tag_of self.now.order) rs }
        ensures rank { (rs : List Ref) → IsTree self.now p.old.pool (O.order self.now.order) (O.tag_of self.now.order) rs
            → result ≡ position_or_len (is_past_node true (λ v. O.place self.now.order v probe.entry) p.old.pool) rs }
        ensures pool { p.new.pool ≡ p.old.pool }
        ensures reads { (order : T → T → Side) (tag : T → ℕ) (rs : List Ref) → IsTree self.now p.old.pool order tag rs
            → (b : ℕ) → length rs < 2 ^ b → p.new.reads ≤ p.old.reads + 2 * b }
        ensures steps { (order : T → T → Side) (tag : T → ℕ) (rs : List Ref) → IsTree self.now p.old.pool order tag rs
            → (b : ℕ) → length rs < 2 ^ b → steps.new.count ≤ steps.old.count + 2 * b }
    {
        self.bound_rank(p, probe, true, steps)
    }

    /// The first node that the probe isn't after, or with `is_upper` the first that it is before.
    fn bound<T>(
        &self,
        p: &mut Counted<T>,
        probe: Probe<'_>,
        is_upper: bool,
        steps: &mut Steps,
    ) -> Option<NodeRef>
    where
        O: NodeOrder<T>,
        requires { (rs : List Ref) × IsTree self.now p.old.pool (O.order self.now.order) (O.tag_of self.now.order) rs }
        ensures node { (rs : List Ref) → IsTree self.now p.old.pool (O.order self.now.order) (O.tag_of self.now.order) rs
            → result ≡ first_where (is_past_node is_upper (λ v. O.place self.now.order v probe.entry) p.old.pool) rs }
        ensures pool { p.new.pool ≡ p.old.pool }
        ensures reads { (order : T → T → Side) (tag : T → ℕ) (rs : List Ref) → IsTree self.now p.old.pool order tag rs
            → (b : ℕ) → length rs < 2 ^ b → p.new.reads ≤ p.old.reads + 2 * b }
        ensures steps { (order : T → T → Side) (tag : T → ℕ) (rs : List Ref) → IsTree self.now p.old.pool order tag rs
            → (b : ℕ) → length rs < 2 ^ b → steps.new.count ≤ steps.old.count + 2 * b }
    {
        let probe_tag = self.order.probe_tag(probe);
        let decided = probe_is_complete::<T, O>(&self.order, probe_tag);
        let (mut at, mut found) = (self.root, None);
        while let Some(node) = at {
            let link = p.link(node, self.slot);
            let side = compare_probe(
                p,
                &self.order,
                node,
                link.tag,
                probe,
                probe_tag,
                decided,
                steps,
            );
            if is_past(side, is_upper) {
                found = Some(node);
                at = link.back;
            } else {
                at = link.forth;
            }
        }
        found
    }

    /// How many nodes stand in front of the first that the probe isn't after, or with `is_upper` of the first that it is before; where
    /// there is none, how many there are.
    fn bound_rank<T>(
        &self,
        p: &mut Counted<T>,
        probe: Probe<'_>,
        is_upper: bool,
        steps: &mut Steps,
    ) -> u32
    where
        O: NodeOrder<T>,
        requires { (rs : List Ref) × IsTree self.now p.old.pool (O.order self.now.order) (O.tag_of self.now.order) rs }
        ensures rank { (rs : List Ref) → IsTree self.now p.old.pool (O.order self.now.order) (O.tag_of self.now.order) rs
            → result ≡ position_or_len (is_past_node is_upper (λ v. O.place self.now.order v probe.entry) p.old.pool) rs }
        ensures pool { p.new.pool ≡ p.old.pool }
        ensures reads { (order : T → T → Side) (tag : T → ℕ) (rs : List Ref) → IsTree self.now p.old.pool order tag rs
            → (b : ℕ) → length rs < 2 ^ b → p.new.reads ≤ p.old.reads + 2 * b }
        ensures steps { (order : T → T → Side) (tag : T → ℕ) (rs : List Ref) → IsTree self.now p.old.pool order tag rs
            → (b : ℕ) → length rs < 2 ^ b → steps.new.count ≤ steps.old.count + 2 * b }
    {
        let tag = self.order.probe_tag(probe);
        let sought = Sought {
            probe,
            tag,
            decided: probe_is_complete::<T, O>(&self.order, tag),
            is_upper,
        };
        bound_rank_in(p, self.slot, &self.order, self.root, &sought, steps)
    }

    /// How many nodes are at the probe, in one path down, which parts at the first of them that it comes to. At most 4b comparisons and
    /// 4b reads of links.
    pub fn count<T>(&self, p: &mut Counted<T>, probe: Probe<'_>, steps: &mut Steps) -> u32
    where
        O: NodeOrder<T>,
        requires { (rs : List Ref) × IsTree self.now p.old.pool (O.order self.now.order) (O.tag_of self.now.order) rs }
        ensures count { (rs : List Ref) → IsTree self.now p.old.pool (O.order self.now.order) (O.tag_of self.now.order) rs
            → result ≡ length (filter (is_node_at (λ v. O.place self.now.order v probe.entry) p.old.pool) rs) }
        ensures pool { p.new.pool ≡ p.old.pool }
        ensures reads { (order : T → T → Side) (tag : T → ℕ) (rs : List Ref) → IsTree self.now p.old.pool order tag rs
            → (b : ℕ) → length rs < 2 ^ b → p.new.reads ≤ p.old.reads + 4 * b }
        ensures steps { (order : T → T → Side) (tag : T → ℕ) (rs : List Ref) → IsTree self.now p.old.pool order tag rs
            → (b : ℕ) → length rs < 2 ^ b → steps.new.count ≤ steps.old.count + 4 * b }
    {
        let tag = self.order.probe_tag(probe);
        let sought = Sought {
            probe,
            tag,
            decided: probe_is_complete::<T, O>(&self.order, tag),
            is_upper: false,
        };
        count_in(p, self.slot, &self.order, self.root, &sought, steps)
    }

    /// The first node at the probe, if there is one. At most 2b + 1 comparisons and 4b reads of links.
    pub fn find<T>(
        &self,
        p: &mut Counted<T>,
        probe: Probe<'_>,
        steps: &mut Steps,
    ) -> Option<NodeRef>
    where
        O: NodeOrder<T>,
        requires { (rs : List Ref) × IsTree self.now p.old.pool (O.order self.now.order) (O.tag_of self.now.order) rs }
        ensures node { (rs : List Ref) → IsTree self.now p.old.pool (O.order self.now.order) (O.tag_of self.now.order) rs
            → result ≡ first_where (is_node_at (λ v. O.place self.now.order v probe.entry) p.old.pool) rs }
        ensures pool { p.new.pool ≡ p.old.pool }
        ensures reads { (order : T → T → Side) (tag : T → ℕ) (rs : List Ref) → IsTree self.now p.old.pool order tag rs
            → (b : ℕ) → length rs < 2 ^ b → p.new.reads ≤ p.old.reads + 4 * b }
        ensures steps { (order : T → T → Side) (tag : T → ℕ) (rs : List Ref) → IsTree self.now p.old.pool order tag rs
            → (b : ℕ) → length rs < 2 ^ b → steps.new.count ≤ steps.old.count + (2 * b + 1) }
    {
        let Some(node) = self.lower(p, probe, steps) else {
            return None;
        };
        let (tag, probe_tag) = (p.link(node, self.slot).tag, self.order.probe_tag(probe));
        let decided = probe_is_complete::<T, O>(&self.order, probe_tag);
        match compare_probe(p, &self.order, node, tag, probe, probe_tag, decided, steps) {
            Ordering::Equal => Some(node),
            _ => None,
        }
    }

    /// The node after a node of the tree, if there is one. At most 2b comparisons and 8b reads of links.
    pub fn next<T>(&self, p: &mut Counted<T>, node: NodeRef, steps: &mut Steps) -> Option<NodeRef>
    where
        O: NodeOrder<T>,
        requires { (xs : List Ref) × (ys : List Ref) × IsTree self.now p.old.pool (O.order self.now.order) (O.tag_of self.now.order) (xs ++ node ∷ ys) }
        ensures node { (xs : List Ref) (ys : List Ref)
            → IsTree self.now p.old.pool (O.order self.now.order) (O.tag_of self.now.order) (xs ++ node ∷ ys) → result ≡ first_of ys None }
        ensures pool { p.new.pool ≡ p.old.pool }
        ensures reads { (order : T → T → Side) (tag : T → ℕ) (rs : List Ref) → IsTree self.now p.old.pool order tag rs
            → (b : ℕ) → length rs < 2 ^ b → p.new.reads ≤ p.old.reads + 8 * b }
        ensures steps { (order : T → T → Side) (tag : T → ℕ) (rs : List Ref) → IsTree self.now p.old.pool order tag rs
            → (b : ℕ) → length rs < 2 ^ b → steps.new.count ≤ steps.old.count + 2 * b }
    {
        let rank = self.rank(p, node, steps);
        self.nth(p, rank + 1)
    }

    /// The node before a node of the tree, if there is one. At most 2b comparisons and 8b reads of links.
    pub fn prev<T>(&self, p: &mut Counted<T>, node: NodeRef, steps: &mut Steps) -> Option<NodeRef>
    where
        O: NodeOrder<T>,
        requires { (xs : List Ref) × (ys : List Ref) × IsTree self.now p.old.pool (O.order self.now.order) (O.tag_of self.now.order) (xs ++ node ∷ ys) }
        ensures node { (xs : List Ref) (ys : List Ref)
            → IsTree self.now p.old.pool (O.order self.now.order) (O.tag_of self.now.order) (xs ++ node ∷ ys) → result ≡ last_of None xs }
        ensures pool { p.new.pool ≡ p.old.pool }
        ensures reads { (order : T → T → Side) (tag : T → ℕ) (rs : List Ref) → IsTree self.now p.old.pool order tag rs
            → (b : ℕ) → length rs < 2 ^ b → p.new.reads ≤ p.old.reads + 8 * b }
        ensures steps { (order : T → T → Side) (tag : T → ℕ) (rs : List Ref) → IsTree self.now p.old.pool order tag rs
            → (b : ℕ) → length rs < 2 ^ b → steps.new.count ≤ steps.old.count + 2 * b }
    {
        let rank = self.rank(p, node, steps);
        if rank == 0 {
            None
        } else {
            self.nth(p, rank - 1)
        }
    }

    /// A walk from the place behind the first `passed` nodes, up or down from there: up from the node of
    /// that rank on, counted from 0, or down from the node before it. For k nodes it reads 2k + 6b links in
    /// all: at most 4b here, and 2k and as many as the path has levels, at most 2b, on the path.
    pub fn walk<T>(&self, p: &mut Counted<T>, direction: Direction, passed: u32) -> Walk
        requires { (order : T → T → Side) × (tag : T → ℕ) × (rs : List Ref) × IsTree self.now p.old.pool order tag rs }
        ensures walk { (order : T → T → Side) (tag : T → ℕ) (rs : List Ref) → IsTree self.now p.old.pool order tag rs
            → (levels : ℕ) × IsWalk result p.old.pool levels (beyond_place direction passed rs)
            × ((b : ℕ) → length rs < 2 ^ b → levels ≤ 2 * b) }
        ensures pool { p.new.pool ≡ p.old.pool }
        ensures reads { (order : T → T → Side) (tag : T → ℕ) (rs : List Ref) → IsTree self.now p.old.pool order tag rs
            → (b : ℕ) → length rs < 2 ^ b → p.new.reads ≤ p.old.reads + 4 * b }
    {
        Walk::start(p, self.slot, direction, self.root, passed)
    }

    /// A walk from the place in front of the first node that isn't before the probe, or with `is_upper` of the first that is behind it:
    /// up from that node on, or down from the one before it. At most 2b comparisons, and for k nodes 2k + 4b reads of links in all:
    /// at most 2b here, and 2k + 2b on the path.
    pub fn walk_from_bound<T>(
        &self,
        p: &mut Counted<T>,
        direction: Direction,
        probe: Probe<'_>,
        is_upper: bool,
        steps: &mut Steps,
    ) -> Walk
    where
        O: NodeOrder<T>,
        requires { (rs : List Ref) × IsTree self.now p.old.pool (O.order self.now.order) (O.tag_of self.now.order) rs }
        ensures walk { (rs : List Ref) → IsTree self.now p.old.pool (O.order self.now.order) (O.tag_of self.now.order) rs
            → (levels : ℕ) × IsWalk result p.old.pool levels
            (beyond_place direction (position_or_len (is_past_node is_upper (λ v. O.place self.now.order v probe.entry) p.old.pool) rs) rs)
            × ((b : ℕ) → length rs < 2 ^ b → levels ≤ 2 * b) }
        ensures pool { p.new.pool ≡ p.old.pool }
        ensures reads { (order : T → T → Side) (tag : T → ℕ) (rs : List Ref) → IsTree self.now p.old.pool order tag rs
            → (b : ℕ) → length rs < 2 ^ b → p.new.reads ≤ p.old.reads + 2 * b }
        ensures steps { (order : T → T → Side) (tag : T → ℕ) (rs : List Ref) → IsTree self.now p.old.pool order tag rs
            → (b : ℕ) → length rs < 2 ^ b → steps.new.count ≤ steps.old.count + 2 * b }
    {
        Walk::start_at_bound(
            p,
            self.slot,
            direction,
            &self.order,
            self.root,
            probe,
            is_upper,
            steps,
        )
    }
}
