//! Searches in one bucket's chain: group by group, and within a group from its newest node.
//! They read links, and values of the right hash alone, and change nothing. Where an optional reference is used again, it
//! is passed as a copy, `*&x`: by its name it would be moved.
ghost use Rattle.std.specs.Prelude.{◌≡◌, ◌<◌, ◌-◌, cond, List as Seq, None, Some};
ghost use Rattle.mi_node.specs.Pool.{IsHeld, IsHeldIf, link_of};
ghost use Rattle.mi_node.specs.Neighbours.{IsLinked};
ghost use Rattle.mi_node.specs.Refs.{first_of, last_of, IsApart};
ghost use Rattle.mi_node.specs.Refs.{Ref};
ghost use Rattle.mi_chain.specs.Keying.{same_nodes, hash_node, has_key, stamp_at};
ghost use Rattle.mi_chain.specs.Groups.{IsChain, members};
ghost use Rattle.mi_chain.specs.Chained.{AreTagged};
ghost use Rattle.mi_chain.specs.Places.{forth_of, is_named, ends_with, other_than, IsCut};

use crate::keys::KeyHash;
use mi_node::{NodeRef, Pool};
use mi_value::Probe;

/// A group in a chain: its first node, if the group is there, and the last node of the chain before it.
#[derive(Clone, Copy)]
pub(crate) struct Place {
    pub(crate) before: Option<NodeRef>,
    pub(crate) first: Option<NodeRef>,
}

/// Two neighbours in a group, or one end of it and nothing.
#[derive(Clone, Copy)]
pub(crate) struct Gap {
    pub(crate) prev: Option<NodeRef>,
    pub(crate) next: Option<NodeRef>,
}

ghost use Rattle.mi_chain.specs.Places.{IsFound, IsFirst, IsGap, prev_in_group, is_empty, end_at, end_beside};

impl Gap {
    /// Whether no node stands on either side.
    pub(crate) fn is_empty(&self) -> bool
        ensures { result ≡ is_empty self.now.prev self.now.next }
    {
        match self.prev {
            None => self.next.is_none(),
            Some(_) => false,
        }
    }

    /// The last node of the group, where the gap is at an end of it.
    pub(crate) fn end<T>(&self, p: &Pool<T>, slot: usize) -> Option<NodeRef>
        requires held { IsHeldIf p.now self.now.next }
        requires slot { slot < p.now.slots }
        ensures { result ≡ end_beside p.now slot self.now.prev self.now.next }
    {
        match self.next {
            None => self.prev,
            Some(next) => p.link(next, slot).back,
        }
    }
}

/// The group of the node's key, which has this hash. Costs a step for each group before it.
pub(crate) fn group_of<T, H: KeyHash<T>>(
    keys: &H,
    p: &Pool<T>,
    slot: usize,
    head: Option<NodeRef>,
    node: NodeRef,
    hash: u64,
) -> Place
    requires held { IsHeld p.now node }
    requires slot { slot < p.now.slots }
    requires hash { hash ≡ hash_node (H.keying keys.now) p.now node }
    requires chain { (gs : Seq (Seq Ref)) × IsChain p.now slot head gs × AreTagged (hash_node (H.keying keys.now) p.now) p.now slot (members gs) }
    ensures { (gs : Seq (Seq Ref)) → IsChain p.now slot head gs → AreTagged (hash_node (H.keying keys.now) p.now) p.now slot (members gs)
        → IsFound (same_nodes (H.keying keys.now) p.now node) gs result.before result.first }
{
    let mut before = None;
    let mut at = head;
    while let Some(first) = at {
        if is_like(keys, p, slot, first, node, hash) {
            return Place {
                before,
                first: Some(first),
            };
        }
        before = p.link(first, slot).back;
        at = after(p, slot, *&before);
    }
    Place {
        before,
        first: None,
    }
}

/// Whether the first node of a group has the key of the other, which has this hash.
fn is_like<T, H: KeyHash<T>>(
    keys: &H,
    p: &Pool<T>,
    slot: usize,
    first: NodeRef,
    node: NodeRef,
    hash: u64,
) -> bool
    requires first { IsHeld p.now first }
    requires held { IsHeld p.now node }
    requires slot { slot < p.now.slots }
    requires hash { hash ≡ hash_node (H.keying keys.now) p.now node }
    requires tag { (link_of p.now first.name slot).tag.key ≡ hash_node (H.keying keys.now) p.now first }
    ensures { result ≡ same_nodes (H.keying keys.now) p.now node first }
{
    if p.link(first, slot).tag.key != hash {
        return false;
    }
    keys.same(p.value(node), p.value(first))
}

/// The first node of the group of this key, which has this hash. Costs a step for each group before it.
pub(crate) fn group_of_key<T, H: KeyHash<T>>(
    keys: &H,
    p: &Pool<T>,
    slot: usize,
    head: Option<NodeRef>,
    key: Probe<'_>,
    hash: u64,
) -> Option<NodeRef>
    requires slot { slot < p.now.slots }
    requires hash { hash ≡ (H.keying keys.now).hash_key key }
    requires chain { (gs : Seq (Seq Ref)) × IsChain p.now slot head gs × AreTagged (hash_node (H.keying keys.now) p.now) p.now slot (members gs) }
    ensures { (gs : Seq (Seq Ref)) → IsChain p.now slot head gs → AreTagged (hash_node (H.keying keys.now) p.now) p.now slot (members gs)
        → IsFirst (has_key (H.keying keys.now) p.now key.entry) gs result }
{
    let mut at = head;
    while let Some(first) = at {
        if is_of_key(keys, p, slot, first, key, hash) {
            return Some(first);
        }
        let last = p.link(first, slot).back;
        at = after(p, slot, last);
    }
    None
}

/// Whether the first node of a group has the key, which has this hash.
fn is_of_key<T, H: KeyHash<T>>(
    keys: &H,
    p: &Pool<T>,
    slot: usize,
    first: NodeRef,
    key: Probe<'_>,
    hash: u64,
) -> bool
    requires first { IsHeld p.now first }
    requires slot { slot < p.now.slots }
    requires hash { hash ≡ (H.keying keys.now).hash_key key }
    requires tag { (link_of p.now first.name slot).tag.key ≡ hash_node (H.keying keys.now) p.now first }
    ensures { result ≡ has_key (H.keying keys.now) p.now key.entry first }
{
    if p.link(first, slot).tag.key != hash {
        return false;
    }
    keys.same_key(p.value(first), key)
}

/// The group that ends with the node. Reads no value. Costs a step for each group before it.
pub(crate) fn group_ending<T>(
    p: &Pool<T>,
    slot: usize,
    head: Option<NodeRef>,
    end: NodeRef,
) -> Place
    requires slot { slot < p.now.slots }
    requires chain { (gs : Seq (Seq Ref)) × IsChain p.now slot head gs }
    ensures { (gs : Seq (Seq Ref)) → IsChain p.now slot head gs → IsFound (ends_with p.now slot end.name) gs result.before result.first }
{
    let mut before = None;
    let mut at = head;
    while let Some(first) = at {
        let last = p.link(first, slot).back;
        if is_node(*&last, end) {
            return Place {
                before,
                first: Some(first),
            };
        }
        before = *&last;
        at = after(p, slot, last);
    }
    Place {
        before,
        first: None,
    }
}

/// Where the stamp belongs in the group, in which those with an older one stand first. Costs a step at either end of it, and else one
/// for each node with a newer stamp.
pub(crate) fn gap_for<T>(p: &Pool<T>, slot: usize, first: NodeRef, stamp: u64) -> Gap
    requires slot { slot < p.now.slots }
    requires group { (g : Seq Ref) × (f : _) × IsLinked p.now slot (last_of None g) g f × IsApart g × (first_of g None ≡ Some first) }
    ensures { (g : Seq Ref) (f : _) → IsLinked p.now slot (last_of None g) g f → IsApart g → first_of g None ≡ Some first
        → IsCut (stamp_at p.now slot) stamp g → IsGap (stamp_at p.now slot) stamp g result.prev result.next }
{
    let begin = p.link(first, slot);
    if stamp <= begin.tag.stamp {
        return Gap {
            prev: None,
            next: Some(first),
        };
    }
    let mut next = None;
    let mut at = begin.back;
    while let Some(prev) = at {
        let link = p.link(prev, slot);
        if link.tag.stamp < stamp {
            return Gap {
                prev: Some(prev),
                next,
            };
        }
        next = Some(prev);
        at = before(first, prev, link.back);
    }
    Gap { prev: None, next }
}

/// The node before this one in the group that begins at `first`, where its link leads back to `back`.
fn before(first: NodeRef, node: NodeRef, back: Option<NodeRef>) -> Option<NodeRef>
    ensures { result ≡ prev_in_group first node back }
{
    if node.name() == first.name() {
        None
    } else {
        back
    }
}

/// What follows the node, if there is one.
pub(crate) fn after<T>(p: &Pool<T>, slot: usize, node: Option<NodeRef>) -> Option<NodeRef>
    requires held { IsHeldIf p.now node }
    requires slot { slot < p.now.slots }
    ensures { result ≡ forth_of p.now slot node }
{
    match node {
        None => None,
        Some(node) => p.link(node, slot).forth,
    }
}

/// Whether there is a reference, of the node's name.
pub(crate) fn is_node(reference: Option<NodeRef>, node: NodeRef) -> bool
    ensures { result ≡ is_named node.name reference }
{
    match reference {
        None => false,
        Some(reference) => node.name() == reference.name(),
    }
}

/// The reference, unless it is of the node's name.
pub(crate) fn other(reference: Option<NodeRef>, node: NodeRef) -> Option<NodeRef>
    ensures { result ≡ other_than node.name reference }
{
    match reference {
        Some(reference) if reference.name() != node.name() => Some(reference),
        _ => None,
    }
}

/// The last node of a node's group, where the node is at an end of it: its link leads back to `back`, and `next` is the
/// next node of the group.
pub(crate) fn end_at(
    node: NodeRef,
    back: Option<NodeRef>,
    next: &Option<NodeRef>,
) -> Option<NodeRef>
    ensures { result ≡ end_at node back next.now }
{
    match next {
        None => Some(node),
        Some(_) => back,
    }
}

/// How many groups are left when a node goes from between these neighbours.
pub(crate) fn groups_left(groups: u64, gap: &Gap) -> u64
    requires { 0 < groups }
    ensures { result ≡ cond (is_empty gap.now.prev gap.now.next) (groups - 1) groups }
{
    if gap.is_empty() { groups - 1 } else { groups }
}
