//! What the structure of one index answers. It reads the pool and changes nothing.
ghost use Rattle.std.specs.Prelude.{◌≡◌, ℕ, ◌+◌, ◌*◌, ◌<◌, ◌≤◌, ◌^◌, List as Seq, ◌∷◌, ◌++◌, None, length};
ghost use Rattle.std.specs.List.{filter, position_or_len};
ghost use Rattle.mi_node.specs.Refs.{Ref, first_of, last_of};
ghost use Rattle.mi_tree.specs.BinaryTree.{nth_of};
ghost use Rattle.mi_tree.specs.Probed.{first_where};
ghost use Rattle.mi_index.specs.Standing.{slot_in, Stands};
ghost use Rattle.mi_index.specs.Looks as look;
ghost use Rattle.mi_index.specs.declared.structure.Structure.TheVariants.{Sorted, Hashed, Sequenced};

use crate::structure::Structure;
use mi_chain::Chains;
use mi_list::List;
use mi_node::{Counted, NodeRef, OldPlace, Pool};
use mi_order::{ByHash, ByKey, Stored};
use mi_tree::Tree;
use mi_value::{Probe, Steps};

impl Structure {
    /// The first node of the list that the index shows, if it has one. Not asked of a hashed index.
    pub fn first(&self, p: &Pool<Stored>) -> Option<NodeRef>
        requires { (rs : Seq Ref) × Stands self.now p.now rs × look.HasOneList self.now }
        ensures { (rs : Seq Ref) → Stands self.now p.now rs → result ≡ first_of rs None }
    {
        match self {
            Structure::Sorted(tree) => first_in_tree(tree, p),
            Structure::Hashed(_) => None,
            Structure::Sequenced(list) => list.first(p),
        }
    }

    /// The last node of the list that the index shows, if it has one. Not asked of a hashed index.
    pub fn last(&self, p: &Pool<Stored>) -> Option<NodeRef>
        requires { (rs : Seq Ref) × Stands self.now p.now rs × look.HasOneList self.now }
        ensures { (rs : Seq Ref) → Stands self.now p.now rs → result ≡ last_of None rs }
    {
        match self {
            Structure::Sorted(tree) => last_in_tree(tree, p),
            Structure::Hashed(_) => None,
            Structure::Sequenced(list) => list.last(p),
        }
    }

    /// The node after one in the list that the index shows, if there is one. Not asked of a hashed index.
    pub fn next(&self, p: &Pool<Stored>, node: NodeRef) -> Option<NodeRef>
        requires { (xs : Seq Ref) × (ys : Seq Ref) × Stands self.now p.now (xs ++ node ∷ ys) × look.HasOneList self.now }
        ensures { (xs ys : Seq Ref) → Stands self.now p.now (xs ++ node ∷ ys) → result ≡ first_of ys None }
    {
        match self {
            Structure::Sorted(tree) => next_in_tree(tree, p, node),
            Structure::Hashed(_) => None,
            Structure::Sequenced(list) => list.next(p, node),
        }
    }

    /// The node before one in the list that the index shows, if there is one. Not asked of a hashed index.
    pub fn prev(&self, p: &Pool<Stored>, node: NodeRef) -> Option<NodeRef>
        requires { (xs : Seq Ref) × (ys : Seq Ref) × Stands self.now p.now (xs ++ node ∷ ys) × look.HasOneList self.now }
        ensures { (xs ys : Seq Ref) → Stands self.now p.now (xs ++ node ∷ ys) → result ≡ last_of None xs }
    {
        match self {
            Structure::Sorted(tree) => prev_in_tree(tree, p, node),
            Structure::Hashed(_) => None,
            Structure::Sequenced(list) => list.prev(p, node),
        }
    }

    /// The node of a rank, counted from 0, if there are more nodes than that. Asked of sorted indexes alone.
    pub fn nth(&self, p: &Pool<Stored>, n: u32) -> Option<NodeRef>
        requires { (rs : Seq Ref) × Stands self.now p.now rs × look.IsSortedStructure self.now }
        ensures { (rs : Seq Ref) → Stands self.now p.now rs → result ≡ nth_of rs n }
    {
        match self {
            Structure::Sorted(tree) => nth_in_tree(tree, p, n),
            Structure::Hashed(_) | Structure::Sequenced(_) => None,
        }
    }

    /// How many nodes are before one. Asked of sorted indexes alone. One look-up: at most 2b comparisons for fewer than
    /// 2^b nodes.
    pub fn rank(&self, p: &Pool<Stored>, node: NodeRef, steps: &mut Steps) -> u32
        requires { (xs : Seq Ref) × (ys : Seq Ref) × Stands self.now p.now (xs ++ node ∷ ys) × look.IsSortedStructure self.now }
        ensures rank { (xs ys : Seq Ref) → Stands self.now p.now (xs ++ node ∷ ys) → result ≡ length xs }
        ensures steps { (rs : Seq Ref) → Stands self.now p.now rs → (b : ℕ) → length rs < 2 ^ b → steps.new.count ≤ steps.old.count + 2 * b }
    {
        match self {
            Structure::Sorted(tree) => rank_in_tree(tree, p, node, steps),
            Structure::Hashed(_) | Structure::Sequenced(_) => 0,
        }
    }

    /// The first node that isn't before the probe, or with `is_upper` the first that is behind it, if there is one. Asked of
    /// sorted indexes alone. One look-up: at most 2b comparisons for fewer than 2^b nodes.
    pub fn bound(
        &self,
        p: &Pool<Stored>,
        probe: Probe<'_>,
        is_upper: bool,
        steps: &mut Steps,
    ) -> Option<NodeRef>
        requires { (rs : Seq Ref) × Stands self.now p.now rs × look.IsSortedStructure self.now }
        ensures node { (rs : Seq Ref) → Stands self.now p.now rs → result ≡ first_where (look.is_past is_upper self.now p.now probe.entry) rs }
        ensures steps { (rs : Seq Ref) → Stands self.now p.now rs → (b : ℕ) → length rs < 2 ^ b → steps.new.count ≤ steps.old.count + 2 * b }
    {
        match self {
            Structure::Sorted(tree) => bound_in_tree(tree, p, probe, is_upper, steps),
            Structure::Hashed(_) | Structure::Sequenced(_) => None,
        }
    }

    /// How many nodes stand in front of that one: those before the probe, or with `is_upper` all that aren't behind it. Asked of
    /// sorted indexes alone. One look-up: at most 2b comparisons for fewer than 2^b nodes.
    pub fn bound_rank(
        &self,
        p: &Pool<Stored>,
        probe: Probe<'_>,
        is_upper: bool,
        steps: &mut Steps,
    ) -> u32
        requires { (rs : Seq Ref) × Stands self.now p.now rs × look.IsSortedStructure self.now }
        ensures rank { (rs : Seq Ref) → Stands self.now p.now rs → result ≡ position_or_len (look.is_past is_upper self.now p.now probe.entry) rs }
        ensures steps { (rs : Seq Ref) → Stands self.now p.now rs → (b : ℕ) → length rs < 2 ^ b → steps.new.count ≤ steps.old.count + 2 * b }
    {
        match self {
            Structure::Sorted(tree) => bound_rank_in_tree(tree, p, probe, is_upper, steps),
            Structure::Hashed(_) | Structure::Sequenced(_) => 0,
        }
    }

    /// The first node that has the key of the probe, in the order of the stamps, if there is one. A list has no keys. In a sorted index
    /// it is one look-up: at most 2b + 1 comparisons for fewer than 2^b nodes.
    pub fn find(&self, p: &Pool<Stored>, probe: Probe<'_>, steps: &mut Steps) -> Option<NodeRef>
        requires { (rs : Seq Ref) × Stands self.now p.now rs }
        ensures node { (rs : Seq Ref) → Stands self.now p.now rs → result ≡ first_where (look.has_sought self.now p.now probe.entry) rs }
        ensures steps { (rs : Seq Ref) → Stands self.now p.now rs → (b : ℕ) → length rs < 2 ^ b → steps.new.count ≤ steps.old.count + (2 * b + 1) }
    {
        match self {
            Structure::Sorted(tree) => find_in_tree(tree, p, probe, steps),
            Structure::Hashed(chains) => find_in_chains(chains, p, probe),
            Structure::Sequenced(_) => None,
        }
    }

    /// How many nodes have the key of the probe. A list has no keys. It costs one way down a sorted index, which parts at the first of them:
    /// at most 4b comparisons for fewer than 2^b nodes. In a hashed one it costs a step for each of them.
    pub fn count(&self, p: &Pool<Stored>, probe: Probe<'_>, steps: &mut Steps) -> u32
        requires { (rs : Seq Ref) × Stands self.now p.now rs }
        ensures count { (rs : Seq Ref) → Stands self.now p.now rs → result ≡ length (filter (look.has_sought self.now p.now probe.entry) rs) }
        ensures steps { (rs : Seq Ref) → Stands self.now p.now rs → (b : ℕ) → length rs < 2 ^ b → steps.new.count ≤ steps.old.count + 4 * b }
    {
        match self {
            Structure::Sorted(tree) => count_in_tree(tree, p, probe, steps),
            Structure::Hashed(chains) => count_in_chains(chains, p, probe),
            Structure::Sequenced(_) => 0,
        }
    }

    /// The node after one among those of its key, in the order of the stamps, if there is one. Asked of hashed indexes
    /// alone.
    pub fn next_of(&self, p: &Pool<Stored>, node: NodeRef) -> Option<NodeRef>
        requires { (xs : Seq Ref) × (ys : Seq Ref) × Stands self.now p.now (xs ++ node ∷ ys) × look.IsHashedStructure self.now }
        ensures { (xs ys : Seq Ref) → Stands self.now p.now (xs ++ node ∷ ys) → result ≡ first_of (filter (look.has_same_key self.now p.now node) ys) None }
    {
        match self {
            Structure::Hashed(chains) => next_in_chains(chains, p, node),
            Structure::Sorted(_) | Structure::Sequenced(_) => None,
        }
    }

    /// The place of a node, to which it could come back: its stamp, and the neighbours that it would remember if it left.
    /// The slot is that of this index.
    pub fn place(&self, p: &Pool<Stored>, slot: usize, node: NodeRef) -> OldPlace
        requires slot { slot_in self.now ≡ slot }
        requires node { (xs : Seq Ref) × (ys : Seq Ref) × Stands self.now p.now (xs ++ node ∷ ys) }
        ensures { (xs ys : Seq Ref) → Stands self.now p.now (xs ++ node ∷ ys) → look.IsPlaceOf self.now p.now node result xs ys }
    {
        match self {
            Structure::Sorted(tree) => place_in_tree(tree, p, slot, node),
            Structure::Hashed(chains) => place_in_chains(chains, p, slot, node),
            Structure::Sequenced(list) => place_in_list(list, p, slot, node),
        }
    }
}

fn first_in_tree(tree: &Tree<ByKey>, p: &Pool<Stored>) -> Option<NodeRef>
    requires { (rs : Seq Ref) × Stands (Sorted tree.now) p.now rs }
    ensures { (rs : Seq Ref) → Stands (Sorted tree.now) p.now rs → result ≡ first_of rs None }
{
    tree.nth(&mut Counted::new(p), 0)
}

fn last_in_tree(tree: &Tree<ByKey>, p: &Pool<Stored>) -> Option<NodeRef>
    requires { (rs : Seq Ref) × Stands (Sorted tree.now) p.now rs }
    ensures { (rs : Seq Ref) → Stands (Sorted tree.now) p.now rs → result ≡ last_of None rs }
{
    let len = tree.len(p);
    if len == 0 {
        return None;
    }
    tree.nth(&mut Counted::new(p), len - 1)
}

fn next_in_tree(tree: &Tree<ByKey>, p: &Pool<Stored>, node: NodeRef) -> Option<NodeRef>
    requires { (xs : Seq Ref) × (ys : Seq Ref) × Stands (Sorted tree.now) p.now (xs ++ node ∷ ys) }
    ensures { (xs ys : Seq Ref) → Stands (Sorted tree.now) p.now (xs ++ node ∷ ys) → result ≡ first_of ys None }
{
    tree.next(&mut Counted::new(p), node, &mut Steps::new())
}

fn prev_in_tree(tree: &Tree<ByKey>, p: &Pool<Stored>, node: NodeRef) -> Option<NodeRef>
    requires { (xs : Seq Ref) × (ys : Seq Ref) × Stands (Sorted tree.now) p.now (xs ++ node ∷ ys) }
    ensures { (xs ys : Seq Ref) → Stands (Sorted tree.now) p.now (xs ++ node ∷ ys) → result ≡ last_of None xs }
{
    tree.prev(&mut Counted::new(p), node, &mut Steps::new())
}

fn nth_in_tree(tree: &Tree<ByKey>, p: &Pool<Stored>, n: u32) -> Option<NodeRef>
    requires { (rs : Seq Ref) × Stands (Sorted tree.now) p.now rs }
    ensures { (rs : Seq Ref) → Stands (Sorted tree.now) p.now rs → result ≡ nth_of rs n }
{
    tree.nth(&mut Counted::new(p), n)
}

fn rank_in_tree(tree: &Tree<ByKey>, p: &Pool<Stored>, node: NodeRef, steps: &mut Steps) -> u32
    requires { (xs : Seq Ref) × (ys : Seq Ref) × Stands (Sorted tree.now) p.now (xs ++ node ∷ ys) }
    ensures rank { (xs ys : Seq Ref) → Stands (Sorted tree.now) p.now (xs ++ node ∷ ys) → result ≡ length xs }
    ensures steps { (rs : Seq Ref) → Stands (Sorted tree.now) p.now rs → (b : ℕ) → length rs < 2 ^ b → steps.new.count ≤ steps.old.count + 2 * b }
{
    tree.rank(&mut Counted::new(p), node, steps)
}

fn bound_in_tree(
    tree: &Tree<ByKey>,
    p: &Pool<Stored>,
    probe: Probe<'_>,
    is_upper: bool,
    steps: &mut Steps,
) -> Option<NodeRef>
    requires { (rs : Seq Ref) × Stands (Sorted tree.now) p.now rs }
    ensures node { (rs : Seq Ref) → Stands (Sorted tree.now) p.now rs → result ≡ first_where (look.is_past is_upper (Sorted tree.now) p.now probe.entry) rs }
    ensures steps { (rs : Seq Ref) → Stands (Sorted tree.now) p.now rs → (b : ℕ) → length rs < 2 ^ b → steps.new.count ≤ steps.old.count + 2 * b }
{
    let mut pool = Counted::new(p);
    if is_upper {
        tree.upper(&mut pool, probe, steps)
    } else {
        tree.lower(&mut pool, probe, steps)
    }
}

fn bound_rank_in_tree(
    tree: &Tree<ByKey>,
    p: &Pool<Stored>,
    probe: Probe<'_>,
    is_upper: bool,
    steps: &mut Steps,
) -> u32
    requires { (rs : Seq Ref) × Stands (Sorted tree.now) p.now rs }
    ensures rank { (rs : Seq Ref) → Stands (Sorted tree.now) p.now rs
        → result ≡ position_or_len (look.is_past is_upper (Sorted tree.now) p.now probe.entry) rs }
    ensures steps { (rs : Seq Ref) → Stands (Sorted tree.now) p.now rs → (b : ℕ) → length rs < 2 ^ b → steps.new.count ≤ steps.old.count + 2 * b }
{
    let mut pool = Counted::new(p);
    if is_upper {
        tree.upper_rank(&mut pool, probe, steps)
    } else {
        tree.lower_rank(&mut pool, probe, steps)
    }
}

fn find_in_tree(
    tree: &Tree<ByKey>,
    p: &Pool<Stored>,
    probe: Probe<'_>,
    steps: &mut Steps,
) -> Option<NodeRef>
    requires { (rs : Seq Ref) × Stands (Sorted tree.now) p.now rs }
    ensures node { (rs : Seq Ref) → Stands (Sorted tree.now) p.now rs → result ≡ first_where (look.has_sought (Sorted tree.now) p.now probe.entry) rs }
    ensures steps { (rs : Seq Ref) → Stands (Sorted tree.now) p.now rs → (b : ℕ) → length rs < 2 ^ b → steps.new.count ≤ steps.old.count + (2 * b + 1) }
{
    tree.find(&mut Counted::new(p), probe, steps)
}

fn find_in_chains(chains: &Chains<ByHash>, p: &Pool<Stored>, probe: Probe<'_>) -> Option<NodeRef>
    requires { (rs : Seq Ref) × Stands (Hashed chains.now) p.now rs }
    ensures { (rs : Seq Ref) → Stands (Hashed chains.now) p.now rs → result ≡ first_where (look.has_sought (Hashed chains.now) p.now probe.entry) rs }
{
    chains.first_of(p, probe)
}

fn count_in_tree(tree: &Tree<ByKey>, p: &Pool<Stored>, probe: Probe<'_>, steps: &mut Steps) -> u32
    requires { (rs : Seq Ref) × Stands (Sorted tree.now) p.now rs }
    ensures count { (rs : Seq Ref) → Stands (Sorted tree.now) p.now rs
        → result ≡ length (filter (look.has_sought (Sorted tree.now) p.now probe.entry) rs) }
    ensures steps { (rs : Seq Ref) → Stands (Sorted tree.now) p.now rs → (b : ℕ) → length rs < 2 ^ b → steps.new.count ≤ steps.old.count + 4 * b }
{
    tree.count(&mut Counted::new(p), probe, steps)
}

fn count_in_chains(chains: &Chains<ByHash>, p: &Pool<Stored>, probe: Probe<'_>) -> u32
    requires { (rs : Seq Ref) × Stands (Hashed chains.now) p.now rs }
    ensures { (rs : Seq Ref) → Stands (Hashed chains.now) p.now rs
        → result ≡ length (filter (look.has_sought (Hashed chains.now) p.now probe.entry) rs) }
{
    chains.count(p, probe)
}

fn next_in_chains(chains: &Chains<ByHash>, p: &Pool<Stored>, node: NodeRef) -> Option<NodeRef>
    requires { (xs : Seq Ref) × (ys : Seq Ref) × Stands (Hashed chains.now) p.now (xs ++ node ∷ ys) }
    ensures { (xs ys : Seq Ref) → Stands (Hashed chains.now) p.now (xs ++ node ∷ ys)
        → result ≡ first_of (filter (look.has_same_key (Hashed chains.now) p.now node) ys) None }
{
    chains.next_of(p, node)
}

fn place_in_tree(tree: &Tree<ByKey>, p: &Pool<Stored>, slot: usize, node: NodeRef) -> OldPlace
    requires slot { slot_in (Sorted tree.now) ≡ slot }
    requires node { (xs : Seq Ref) × (ys : Seq Ref) × Stands (Sorted tree.now) p.now (xs ++ node ∷ ys) }
    ensures { (xs ys : Seq Ref) → Stands (Sorted tree.now) p.now (xs ++ node ∷ ys) → look.IsPlaceOf (Sorted tree.now) p.now node result xs ys }
{
    let _ = tree;
    OldPlace {
        stamp: p.link(node, slot).tag.stamp,
        back: None,
        forth: None,
    }
}

fn place_in_chains(
    chains: &Chains<ByHash>,
    p: &Pool<Stored>,
    slot: usize,
    node: NodeRef,
) -> OldPlace
    requires slot { slot_in (Hashed chains.now) ≡ slot }
    requires node { (xs : Seq Ref) × (ys : Seq Ref) × Stands (Hashed chains.now) p.now (xs ++ node ∷ ys) }
    ensures { (xs ys : Seq Ref) → Stands (Hashed chains.now) p.now (xs ++ node ∷ ys) → look.IsPlaceOf (Hashed chains.now) p.now node result xs ys }
{
    OldPlace {
        stamp: p.link(node, slot).tag.stamp,
        back: chains.prev_of(p, node),
        forth: chains.next_of(p, node),
    }
}

fn place_in_list(list: &List, p: &Pool<Stored>, slot: usize, node: NodeRef) -> OldPlace
    requires slot { slot_in (Sequenced list.now) ≡ slot }
    requires node { (xs : Seq Ref) × (ys : Seq Ref) × Stands (Sequenced list.now) p.now (xs ++ node ∷ ys) }
    ensures { (xs ys : Seq Ref) → Stands (Sequenced list.now) p.now (xs ++ node ∷ ys) → look.IsPlaceOf (Sequenced list.now) p.now node result xs ys }
{
    let _ = slot;
    OldPlace {
        stamp: 0,
        back: list.prev(p, node),
        forth: list.next(p, node),
    }
}
