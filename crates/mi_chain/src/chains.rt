//! The chains: their slot, their keys, their buckets, and how many groups stand in them.
//! Each call is passed the pool that they stand in. It sets links of this slot alone, and never a value. Where an optional
//! reference is used again, it is passed as a copy, `*&x`: by its name it would be moved.
ghost use Rattle.std.specs.Prelude.{◌≡◌, ◌<◌, ◌≤◌, ◌%◌, ◌*◌, ◌+◌, ◌^◌, ◌==◌, max, cond, ℕ, List as Seq};
ghost use Rattle.std.specs.Prelude.{◌∷◌, ◌++◌, None, Some, IsOk, IfOk, IfErr, length, vec_len, slice_index_or};
ghost use Rattle.std.specs.Int.{IsPowerOfTwo};
ghost use Rattle.std.specs.List.{filter};
ghost use Rattle.mi_node.specs.Pool.{IsHeld, IsHeldIf, Keeps, with_link, link_of, node_count};
ghost use Rattle.mi_node.specs.Neighbours.{joined};
ghost use Rattle.mi_node.specs.Refs.{first_of, last_of};
ghost use Rattle.mi_node.specs.Refs.{Ref};
ghost use Rattle.mi_chain.specs.Keying.{has_key, same_nodes, hash_node};

use crate::keys::KeyHash;
use crate::look::{
    Gap, Place, after, end_at, gap_for, group_ending, group_of, group_of_key, groups_left, is_node,
    other,
};
use mi_node::neighbours::{set_back, set_forth};
use mi_node::{Link, NodeRef, PackedRef, Pool, Tag};
use mi_value::Probe;
use std::alloc::{AllocError, Global};
use std::mem::{self, size_of};

/// The number of buckets at first, a power of two.
const FIRST_BUCKETS: usize = 16;

/// Chains through one slot: for each key the list of its nodes, by rising stamp. They stand in a pool, which each call
/// is passed.
///
/// A node's link keeps, as its tag, the hash of its key and its stamp, so neither is asked of a value again. A node
/// stands in the bucket of its hash. In the bucket's chain the nodes of one key stand together as a group, in the order
/// of their stamps. Each node's link leads forth to the next one of the chain and back to the one before in its group.
/// The first of a group leads back to the last. So passing a group costs the same however many nodes it has. With
/// as many buckets as groups, which [`Chains::make_room`] sees to, a bucket has few groups; with fewer buckets each only
/// has more of them.
#[derive(Drop)]
pub struct Chains<H> {
    slot: usize,
    keys: H,
    buckets: Vec<PackedRef>,
    groups: u64,
}

impl<H> Chains<H> {
    ghost use Rattle.mi_chain.specs.Chained.{AreChained, AreNew, IsPlaced, FitsBetween};
    ghost use Rattle.mi_chain.specs.Groups.{key_count, IsChain};
    ghost use Rattle.mi_chain.specs.Heads.{heads_joined};
    ghost use Rattle.mi_chain.specs.Places.{IsFound, IsEnd, ends_with};
    ghost use Rattle.mi_chain.specs.Moves.{AreBetween, hops, next_group};

    /// Chains of no node, with a few buckets. Where memory is refused, the keys are dropped.
    pub fn new(alloc: Global, slot: usize, keys: H) -> Result<Chains<H>, AllocError>
    where
        H: Drop,
        ensures { IfOk result (λ c. AreNew c slot keys) }
    {
        Ok(Chains {
            slot,
            keys,
            buckets: vec![in alloc; PackedRef::new(None); FIRST_BUCKETS]?,
            groups: 0,
        })
    }

    /// How many keys have a node: what room is asked for.
    pub fn groups<T>(&self, p: &Pool<T>) -> u64
    where
        H: KeyHash<T>,
        ensures { (rs : Seq Ref) → AreChained self.now (H.keying self.now.keys) p.now rs → result ≡ key_count (same_nodes (H.keying self.now.keys) p.now) rs }
    {
        self.groups
    }

    /// How many bytes of memory the buckets take. It takes the same time however many nodes there are. No clause says how many;
    /// tests do.
    pub fn memory(&self) -> u64 {
        self.buckets
            .capacity()
            .saturating_mul(size_of::<PackedRef>()) as u64
    }

    /// The node with the lowest stamp of those that have this key. Costs a step for each group of the bucket.
    pub fn first_of<T>(&self, p: &Pool<T>, key: Probe<'_>) -> Option<NodeRef>
    where
        H: KeyHash<T>,
        requires { (rs : Seq Ref) × AreChained self.now (H.keying self.now.keys) p.now rs }
        ensures { (rs : Seq Ref) → AreChained self.now (H.keying self.now.keys) p.now rs
            → result ≡ first_of (filter (has_key (H.keying self.now.keys) p.now key.entry) rs) None }
    {
        let hash = self.keys.hash_key(key);
        let bucket = self.bucket(hash);
        group_of_key(&self.keys, p, self.slot, self.head(bucket), key, hash)
    }

    /// The node after this one among those of its key. Reads two links and no value, whatever the number of nodes.
    pub fn next_of<T>(&self, p: &Pool<T>, node: NodeRef) -> Option<NodeRef>
    where
        H: KeyHash<T>,
        requires { (xs : Seq Ref) × (ys : Seq Ref) × AreChained self.now (H.keying self.now.keys) p.now (xs ++ node ∷ ys) }
        ensures { (xs : Seq Ref) (ys : Seq Ref) → AreChained self.now (H.keying self.now.keys) p.now (xs ++ node ∷ ys)
            → result ≡ first_of (filter (same_nodes (H.keying self.now.keys) p.now node) ys) None }
    {
        let link = p.link(node, self.slot);
        let Some(next) = link.forth else {
            return None;
        };
        let after = p.link(next, self.slot);
        if is_node(after.back, node) {
            Some(next)
        } else {
            None
        }
    }

    /// How many nodes have this key. Costs a step for each group of the bucket before theirs, and one for each of them.
    pub fn count<T>(&self, p: &Pool<T>, key: Probe<'_>) -> u32
    where
        H: KeyHash<T>,
        requires { (rs : Seq Ref) × AreChained self.now (H.keying self.now.keys) p.now rs }
        ensures { (rs : Seq Ref) → AreChained self.now (H.keying self.now.keys) p.now rs
            → result ≡ length (filter (has_key (H.keying self.now.keys) p.now key.entry) rs) }
    {
        let mut next = self.first_of(p, key);
        let mut count = 0;
        'nodes: while let Some(node) = next {
            count += 1;
            next = self.next_of(p, node);
        }
        count
    }

    /// The node before this one among those of its key. Reads two links and no value.
    pub fn prev_of<T>(&self, p: &Pool<T>, node: NodeRef) -> Option<NodeRef>
    where
        H: KeyHash<T>,
        requires { (xs : Seq Ref) × (ys : Seq Ref) × AreChained self.now (H.keying self.now.keys) p.now (xs ++ node ∷ ys) }
        ensures { (xs : Seq Ref) (ys : Seq Ref) → AreChained self.now (H.keying self.now.keys) p.now (xs ++ node ∷ ys)
            → result ≡ last_of None (filter (same_nodes (H.keying self.now.keys) p.now node) xs) }
    {
        let link = p.link(node, self.slot);
        let forth = after(p, self.slot, link.back);
        if is_node(forth, node) {
            link.back
        } else {
            None
        }
    }

    /// The hash of the node's key, which its tag has while it stands in a list. Reads the value.
    pub fn hash_of<T>(&self, p: &Pool<T>, node: NodeRef) -> u64
    where
        H: KeyHash<T>,
        requires { IsHeld p.now node }
        ensures { result ≡ hash_node (H.keying self.now.keys) p.now node }
    {
        self.keys.hash(p.value(node))
    }

    /// Puts the node into the list of its key, by this stamp, which its link then has with its hash as the tag; the
    /// other nodes' tags stay. Takes no memory. Costs a step for each group of the bucket, and for each node of its key
    /// that has a greater stamp, unless all have: a lowest stamp goes to the front at once.
    pub fn insert<T>(&mut self, p: &mut Pool<T>, node: NodeRef, stamp: u64)
    where
        H: KeyHash<T>,
        requires { (xs : Seq Ref) × (ys : Seq Ref) × AreChained self.old (H.keying self.old.keys) p.old (xs ++ ys)
            × IsPlaced (H.keying self.old.keys) p.old self.old.slot node stamp xs ys }
        ensures list { (xs : Seq Ref) (ys : Seq Ref) → AreChained self.old (H.keying self.old.keys) p.old (xs ++ ys)
            → IsPlaced (H.keying self.old.keys) p.old self.old.slot node stamp xs ys
            → AreChained self.new (H.keying self.old.keys) p.new (xs ++ node ∷ ys) }
        ensures keeps { (xs : Seq Ref) (ys : Seq Ref) → AreChained self.old (H.keying self.old.keys) p.old (xs ++ ys)
            → IsPlaced (H.keying self.old.keys) p.old self.old.slot node stamp xs ys
            → Keeps p.old p.new self.old.slot (node ∷ (xs ++ ys)) }
        ensures tags { (q : ℕ) → (link_of p.new q self.old.slot).tag
            ≡ cond (node.name == q) (record { key = hash_node (H.keying self.old.keys) p.old node; stamp = stamp }) (link_of p.old q self.old.slot).tag }
        ensures count { vec_len self.new.buckets ≡ vec_len self.old.buckets }
        ensures slot { self.new.slot ≡ self.old.slot }
        ensures keys { self.new.keys ≡ self.old.keys }
    {
        let hash = self.keys.hash(p.value(node));
        let tag = Tag { key: hash, stamp };
        let bucket = self.bucket(hash);
        let head = self.head(bucket);
        let place = group_of(&self.keys, p, self.slot, head, node, hash);
        match place.first {
            None => self.begin_group(p, bucket, node, tag),
            Some(first) => {
                let gap = gap_for(p, self.slot, first, stamp);
                let left = gap.prev.or(place.before);
                let right = gap.next.or(Some(first));
                let link = p.link(first, self.slot);
                let back = gap.prev.or(link.back);
                let follower = after(p, self.slot, gap.prev);
                let forth = gap.next.or(follower);
                self.put(p, bucket, left, right, forth, back, node, tag);
            }
        }
    }

    /// Takes the node out of the list of its key. Its own link then names those of its key that stood next to it, or
    /// none at an end, and each tag stays, so that [`Chains::relink`] can put it back. Takes no memory and reads no
    /// value. Costs a step for each group of the bucket where the node stands at an end of its group, and else one.
    pub fn remove<T>(&mut self, p: &mut Pool<T>, node: NodeRef)
    where
        H: KeyHash<T>,
        requires { (xs : Seq Ref) × (ys : Seq Ref) × AreChained self.old (H.keying self.old.keys) p.old (xs ++ node ∷ ys) }
        ensures list { (xs : Seq Ref) (ys : Seq Ref) → AreChained self.old (H.keying self.old.keys) p.old (xs ++ node ∷ ys)
            → AreChained self.new (H.keying self.old.keys) p.new (xs ++ ys) }
        ensures keeps { (xs : Seq Ref) (ys : Seq Ref) → AreChained self.old (H.keying self.old.keys) p.old (xs ++ node ∷ ys)
            → Keeps p.old p.new self.old.slot (xs ++ node ∷ ys) }
        ensures remembers { (xs : Seq Ref) (ys : Seq Ref) → AreChained self.old (H.keying self.old.keys) p.old (xs ++ node ∷ ys)
            → FitsBetween (H.keying self.old.keys) p.new self.old.slot node (link_of p.new node.name self.old.slot) xs ys }
        ensures tags { (q : ℕ) → (link_of p.new q self.old.slot).tag ≡ (link_of p.old q self.old.slot).tag }
        ensures count { vec_len self.new.buckets ≡ vec_len self.old.buckets }
        ensures slot { self.new.slot ≡ self.old.slot }
        ensures keys { self.new.keys ≡ self.old.keys }
    {
        let link = p.link(node, self.slot);
        let prev = self.prev_of(p, node);
        let next = self.next_of(p, node);
        let gap = Gap { prev, next };
        let bucket = self.bucket(link.tag.key);
        let end = end_at(node, link.back, &gap.next);
        let place = self.place_at(p, bucket, &gap, end);
        let left = gap.prev.or(place.before);
        let first = other(place.first, node);
        let right = gap.next.or(first);
        self.join(p, bucket, left, link.forth, right, link.back);
        p.set_link(
            node,
            self.slot,
            Link {
                back: gap.prev,
                forth: gap.next,
                size: 0,
                height: 0,
                tag: link.tag,
            },
        );
        self.groups = groups_left(self.groups, &gap);
    }

    /// Puts a node back between the two of its key that a link names, which have to be neighbours in the list of the
    /// key now, with the link's tag. A missing neighbour means that end of the list, and two mean that the key has no
    /// node. Takes no memory and reads no value. Costs a step for each group of the bucket at an end of the list, and
    /// else one.
    pub fn relink<T>(&mut self, p: &mut Pool<T>, node: NodeRef, remembered: Link)
    where
        H: KeyHash<T>,
        requires { (xs : Seq Ref) × (ys : Seq Ref) × AreChained self.old (H.keying self.old.keys) p.old (xs ++ ys)
            × FitsBetween (H.keying self.old.keys) p.old self.old.slot node remembered xs ys }
        ensures list { (xs : Seq Ref) (ys : Seq Ref) → AreChained self.old (H.keying self.old.keys) p.old (xs ++ ys)
            → FitsBetween (H.keying self.old.keys) p.old self.old.slot node remembered xs ys
            → AreChained self.new (H.keying self.old.keys) p.new (xs ++ node ∷ ys) }
        ensures keeps { (xs : Seq Ref) (ys : Seq Ref) → AreChained self.old (H.keying self.old.keys) p.old (xs ++ ys)
            → FitsBetween (H.keying self.old.keys) p.old self.old.slot node remembered xs ys
            → Keeps p.old p.new self.old.slot (node ∷ (xs ++ ys)) }
        ensures tags { (q : ℕ) → (link_of p.new q self.old.slot).tag ≡ cond (node.name == q) remembered.tag (link_of p.old q self.old.slot).tag }
        ensures count { vec_len self.new.buckets ≡ vec_len self.old.buckets }
        ensures slot { self.new.slot ≡ self.old.slot }
        ensures keys { self.new.keys ≡ self.old.keys }
    {
        let gap = Gap {
            prev: remembered.back,
            next: remembered.forth,
        };
        let bucket = self.bucket(remembered.tag.key);
        if gap.is_empty() {
            self.begin_group(p, bucket, node, remembered.tag);
            return;
        }
        let end = gap.end(p, self.slot);
        let place = self.place_at(p, bucket, &gap, *&end);
        let left = gap.prev.or(place.before);
        let right = gap.next.or(place.first);
        let back = gap.prev.or(end);
        let follower = after(p, self.slot, gap.prev);
        let forth = gap.next.or(follower);
        self.put(p, bucket, left, right, forth, back, node, remembered.tag);
    }

    /// Makes room for `n` groups: a power of two of buckets, `n` or more, so that most have one group or none. There are
    /// never fewer than before, and where there are enough already, it costs nothing and changes nothing. The list of
    /// each key stays, each value and each tag. Reads no value and hashes nothing. Costs a step for each group and each
    /// bucket, old and new.
    ///
    /// Fails where memory is refused or `n` is more than could be had, before any node has moved: nothing has changed.
    pub fn make_room<T>(&mut self, alloc: Global, p: &mut Pool<T>, n: u64) -> Result<(), AllocError>
    where
        H: KeyHash<T>,
        requires { (rs : Seq Ref) × AreChained self.old (H.keying self.old.keys) p.old rs }
        ensures list { (rs : Seq Ref) → AreChained self.old (H.keying self.old.keys) p.old rs → AreChained self.new (H.keying self.old.keys) p.new rs }
        ensures keeps { (rs : Seq Ref) → AreChained self.old (H.keying self.old.keys) p.old rs → Keeps p.old p.new self.old.slot rs }
        ensures tags { (q : ℕ) → (link_of p.new q self.old.slot).tag ≡ (link_of p.old q self.old.slot).tag }
        ensures slot { self.new.slot ≡ self.old.slot }
        ensures keys { self.new.keys ≡ self.old.keys }
        ensures room { IfOk result (λ _. n ≤ vec_len self.new.buckets) }
        ensures grows { vec_len self.old.buckets ≤ vec_len self.new.buckets }
        ensures modest { vec_len self.new.buckets ≤ max (vec_len self.old.buckets) (2 * n) }
        ensures roomy { n ≤ vec_len self.old.buckets → IsOk result × (self.new ≡ self.old) × (p.new ≡ p.old) }
        ensures err { IfErr result (λ _. (self.new ≡ self.old) × (p.new ≡ p.old)) }
    {
        if n <= self.buckets.len() as u64 {
            return Ok(());
        }
        let count = n.checked_next_power_of_two().ok_or(AllocError)? as usize;
        let mut old = vec![in alloc; PackedRef::new(None); count]?;
        mem::swap(&mut self.buckets, &mut old);
        self.move_all(p, &mut old);
        Ok(())
    }

    /// Moves all groups that stand in the old buckets. Costs a step for each of them and each old bucket.
    fn move_all<T>(&mut self, p: &mut Pool<T>, old: &mut Vec<PackedRef>)
    where
        H: KeyHash<T>,
        requires { (rs : Seq Ref) × AreBetween self.old old.old.items (vec_len old.old) (H.keying self.old.keys) p.old rs }
        ensures list { (rs : Seq Ref) → AreBetween self.old old.old.items (vec_len old.old) (H.keying self.old.keys) p.old rs
            → AreChained self.new (H.keying self.old.keys) p.new rs }
        ensures keeps { (rs : Seq Ref) → AreBetween self.old old.old.items (vec_len old.old) (H.keying self.old.keys) p.old rs
            → Keeps p.old p.new self.old.slot rs }
        ensures tags { (q : ℕ) → (link_of p.new q self.old.slot).tag ≡ (link_of p.old q self.old.slot).tag }
        ensures count { vec_len self.new.buckets ≡ vec_len self.old.buckets }
        ensures slot { self.new.slot ≡ self.old.slot }
        ensures keys { self.new.keys ≡ self.old.keys }
    {
        for bucket in 0..old.len() {
            self.move_bucket(p, old, bucket);
        }
    }

    /// Moves the groups of one old bucket, the first one first. Other old buckets that have none stay so.
    fn move_bucket<T>(&mut self, p: &mut Pool<T>, old: &mut Vec<PackedRef>, bucket: usize)
    where
        H: KeyHash<T>,
        requires moving { (rs : Seq Ref) × AreBetween self.old old.old.items (vec_len old.old) (H.keying self.old.keys) p.old rs }
        requires bucket { bucket < vec_len old.old }
        ensures moving { (rs : Seq Ref) → AreBetween self.old old.old.items (vec_len old.old) (H.keying self.old.keys) p.old rs
            → AreBetween self.new old.new.items (vec_len old.new) (H.keying self.old.keys) p.new rs }
        ensures keeps { (rs : Seq Ref) → AreBetween self.old old.old.items (vec_len old.old) (H.keying self.old.keys) p.old rs
            → Keeps p.old p.new self.old.slot rs }
        ensures tags { (q : ℕ) → (link_of p.new q self.old.slot).tag ≡ (link_of p.old q self.old.slot).tag }
        ensures empty { slice_index_or old.new.items bucket None ≡ None }
        ensures others { (i : ℕ) → i < vec_len old.old → slice_index_or old.old.items i None ≡ None → slice_index_or old.new.items i None ≡ None }
        ensures left { vec_len old.new ≡ vec_len old.old }
        ensures count { vec_len self.new.buckets ≡ vec_len self.old.buckets }
        ensures slot { self.new.slot ≡ self.old.slot }
        ensures keys { self.new.keys ≡ self.old.keys }
    {
        while let Some(first) = old[bucket].node() {
            self.move_group(p, old, bucket, first);
        }
    }

    /// Moves the first group of an old bucket to the front of its new one, whole, in two links and two heads.
    fn move_group<T>(
        &mut self,
        p: &mut Pool<T>,
        old: &mut Vec<PackedRef>,
        bucket: usize,
        first: NodeRef,
    )
    where
        H: KeyHash<T>,
        requires moving { (rs : Seq Ref) × AreBetween self.old old.old.items (vec_len old.old) (H.keying self.old.keys) p.old rs }
        requires bucket { bucket < vec_len old.old }
        requires first { slice_index_or old.old.items bucket None ≡ Some first }
        ensures moving { (rs : Seq Ref) → AreBetween self.old old.old.items (vec_len old.old) (H.keying self.old.keys) p.old rs
            → AreBetween self.new old.new.items (vec_len old.new) (H.keying self.old.keys) p.new rs }
        ensures keeps { (rs : Seq Ref) → AreBetween self.old old.old.items (vec_len old.old) (H.keying self.old.keys) p.old rs
            → Keeps p.old p.new self.old.slot rs }
        ensures tags { (q : ℕ) → (link_of p.new q self.old.slot).tag ≡ (link_of p.old q self.old.slot).tag }
        ensures fewer { (rs : Seq Ref) → AreBetween self.old old.old.items (vec_len old.old) (H.keying self.old.keys) p.old rs
            → hops (next_group p.new self.old.slot) (node_count p.new) (slice_index_or old.new.items bucket None)
            < hops (next_group p.old self.old.slot) (node_count p.old) (slice_index_or old.old.items bucket None) }
        ensures others { (i : ℕ) → (i ≡ bucket → ⊥) → slice_index_or old.new.items i None ≡ slice_index_or old.old.items i None }
        ensures left { vec_len old.new ≡ vec_len old.old }
        ensures count { vec_len self.new.buckets ≡ vec_len self.old.buckets }
        ensures slot { self.new.slot ≡ self.old.slot }
        ensures keys { self.new.keys ≡ self.old.keys }
    {
        let link = p.link(first, self.slot);
        let next = after(p, self.slot, link.back);
        let target = self.bucket(link.tag.key);
        let head = self.head(target);
        set_forth(p, self.slot, link.back, head);
        old[bucket] = PackedRef::new(next);
        self.buckets[target] = PackedRef::new(Some(first));
    }

    /// The group that ends with `end`, where the gap is at an end of it. Within a group nothing is looked for.
    fn place_at<T>(&self, p: &Pool<T>, bucket: usize, gap: &Gap, end: Option<NodeRef>) -> Place
        requires bucket { bucket < vec_len self.now.buckets }
        requires slot { self.now.slot < p.now.slots }
        requires chain { (gs : Seq (Seq Ref)) × IsChain p.now self.now.slot (slice_index_or self.now.buckets.items bucket None) gs }
        ensures { (gs : Seq (Seq Ref)) (z : Ref) → IsChain p.now self.now.slot (slice_index_or self.now.buckets.items bucket None) gs
            → IsEnd gap.now.prev gap.now.next → end ≡ Some z
            → IsFound (ends_with p.now self.now.slot z.name) gs result.before result.first }
    {
        match end {
            Some(end) if gap.prev.is_none() || gap.next.is_none() => {
                group_ending(p, self.slot, self.head(bucket), end)
            }
            _ => Place {
                before: None,
                first: None,
            },
        }
    }

    /// Puts the first node of its key to the front of its bucket.
    fn begin_group<T>(&mut self, p: &mut Pool<T>, bucket: usize, node: NodeRef, tag: Tag)
        requires node { IsHeld p.old node }
        requires slot { self.old.slot < p.old.slots }
        requires bucket { bucket < vec_len self.old.buckets }
        requires few { self.old.groups < 2 ^ 32 }
        ensures pool { p.new ≡ with_link p.old node.name self.old.slot
            (record { back = Some node; forth = slice_index_or self.old.buckets.items bucket None; size = 0; height = 0; tag = tag }) }
        ensures heads { self.new.buckets.items ≡ heads_joined None self.old.buckets.items bucket (Some node) }
        ensures groups { self.new.groups ≡ self.old.groups + 1 }
        ensures count { vec_len self.new.buckets ≡ vec_len self.old.buckets }
        ensures slot { self.new.slot ≡ self.old.slot }
        ensures keys { self.new.keys ≡ self.old.keys }
    {
        let forth = self.head(bucket);
        self.groups += 1;
        self.put(p, bucket, None, None, forth, Some(node), node, tag);
    }

    /// Puts the node between `left`, or the bucket, and `forth`. The node `right`, if there is one, gets it as what stands
    /// before it in its group.
    fn put<T>(
        &mut self,
        p: &mut Pool<T>,
        bucket: usize,
        left: Option<NodeRef>,
        right: Option<NodeRef>,
        forth: Option<NodeRef>,
        back: Option<NodeRef>,
        node: NodeRef,
        tag: Tag,
    )
        requires node { IsHeld p.old node }
        requires held { IsHeldIf p.old left × IsHeldIf p.old right }
        requires slot { self.old.slot < p.old.slots }
        requires bucket { bucket < vec_len self.old.buckets }
        ensures pool { p.new
            ≡ joined (with_link p.old node.name self.old.slot (record { back = back; forth = forth; size = 0; height = 0; tag = tag }))
            self.old.slot left (Some node) right (Some node) }
        ensures heads { self.new.buckets.items ≡ heads_joined left self.old.buckets.items bucket (Some node) }
        ensures groups { self.new.groups ≡ self.old.groups }
        ensures count { vec_len self.new.buckets ≡ vec_len self.old.buckets }
        ensures slot { self.new.slot ≡ self.old.slot }
        ensures keys { self.new.keys ≡ self.old.keys }
    {
        p.set_link(
            node,
            self.slot,
            Link {
                back,
                forth,
                size: 0,
                height: 0,
                tag,
            },
        );
        self.join(p, bucket, left, Some(node), right, Some(node));
    }

    /// The bucket of a hash: its low bits.
    fn bucket(&self, hash: u64) -> usize
        requires { IsPowerOfTwo (vec_len self.now.buckets) }
        ensures { result ≡ hash % vec_len self.now.buckets }
    {
        (hash & (self.buckets.len() as u64 - 1)) as usize
    }

    /// The first node of a bucket's chain.
    fn head(&self, bucket: usize) -> Option<NodeRef>
        requires { bucket < vec_len self.now.buckets }
        ensures { result ≡ slice_index_or self.now.buckets.items bucket None }
    {
        self.buckets[bucket].node()
    }

    /// The node `left`, or the bucket, gets `forth` as what comes after it, and the node `right`, if there is one,
    /// `back` as what stands before it in its group.
    fn join<T>(
        &mut self,
        p: &mut Pool<T>,
        bucket: usize,
        left: Option<NodeRef>,
        forth: Option<NodeRef>,
        right: Option<NodeRef>,
        back: Option<NodeRef>,
    )
        requires held { IsHeldIf p.old left × IsHeldIf p.old right }
        requires slot { self.old.slot < p.old.slots }
        requires bucket { bucket < vec_len self.old.buckets }
        ensures pool { p.new ≡ joined p.old self.old.slot left forth right back }
        ensures heads { self.new.buckets.items ≡ heads_joined left self.old.buckets.items bucket forth }
        ensures groups { self.new.groups ≡ self.old.groups }
        ensures count { vec_len self.new.buckets ≡ vec_len self.old.buckets }
        ensures slot { self.new.slot ≡ self.old.slot }
        ensures keys { self.new.keys ≡ self.old.keys }
    {
        set_forth(p, self.slot, *&left, *&forth);
        set_back(p, self.slot, right, back);
        if left.is_none() {
            self.buckets[bucket] = PackedRef::new(forth);
        }
    }
}
