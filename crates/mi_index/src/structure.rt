//! The structure of one index over the pool's nodes: the only match on the kind of an index.
//! It links nodes through its own slot, and never reads another; what it knows of values are their keys.
ghost use Rattle.std.specs.Prelude.{◌≡◌, ℕ, ◌<◌, ◌==◌, false, ◌∷◌, ◌++◌, ◌↔◌, IsTrue, Some, List as Seq, IfOk, IfErr, IsOk};
ghost use Rattle.std.specs.Option.{option_copied};
ghost use Rattle.mi_node.specs.Pool.{IsHeld, value_of, link_of};
ghost use Rattle.mi_node.specs.Refs.{Ref};
ghost use Rattle.mi_order.specs.declared.stored.Stored.{Stored as Value};
ghost use Rattle.mi_index.specs.Standing.{slot_in, Stands, IsLike, IsRoomy};
ghost use Rattle.mi_index.specs.Keeping.{KeepsPlaceAt, KeepsButLinks, own_link};
ghost use Rattle.mi_index.specs.Pass.{IsReady, IsStep};
ghost use Rattle.mi_index.specs.Passes as pass;
ghost use Rattle.mi_index.specs.PassSteps as step;
ghost use Rattle.mi_index.specs.Opened as opened;
ghost use Rattle.mi_index.specs.Inserting as insert;
ghost use Rattle.mi_index.specs.declared.structure.Structure.TheVariants.{Sorted, Hashed, Sequenced};

use mi_catalog::{Column, Index, IndexKind, Parts};
use mi_chain::Chains;
use mi_list::List;
use mi_node::{Link, NodeRef, OldPlace, Pool, Tag};
use mi_order::{ByHash, ByKey, PrefixTypes, Stored};
use mi_tree::Tree;
use mi_value::{ColumnType, KeyPart, Steps};
use std::alloc::{AllocError, Global};

/// The structure of an index: a tree for an ordered or ranked one, chains for a hashed one, a list for a sequenced one.
#[derive(Drop)]
pub enum Structure {
    Sorted(Tree<ByKey>),
    Hashed(Chains<ByHash>),
    Sequenced(List),
}

impl Structure {
    /// The structure of an index of a table with these columns, through the slot of its number, without nodes. Chains
    /// hash keys under the secret. Where memory is refused there is none.
    pub fn new(
        alloc: Global,
        slot: usize,
        index: &Index,
        columns: &[Column],
        secret: u64,
    ) -> Result<Structure, AllocError>
        ensures { IfOk result (λ x. opened.IsOpenedFor secret columns.now index.now slot x × opened.IsEmpty x) }
    {
        match index.kind {
            IndexKind::Ordered | IndexKind::Ranked => {
                let types = prefix_types(columns, index.parts.as_slice());
                let parts = Parts::new(index.parts.as_slice().to_vec(alloc)?);
                Ok(Structure::Sorted(Tree::new(slot, ByKey { parts, types })))
            }
            IndexKind::Hashed => {
                let parts = Parts::new(index.parts.as_slice().to_vec(alloc)?);
                let keys = ByHash { parts, secret };
                Ok(Structure::Hashed(Chains::new(alloc, slot, keys)?))
            }
            IndexKind::Sequenced => Ok(Structure::Sequenced(List::new(slot))),
        }
    }

    /// How many bytes of memory it takes beside its nodes: the buckets of chains, and else none. No clause says how many; tests do.
    pub fn memory(&self) -> u64 {
        match self {
            Structure::Hashed(chains) => chains.memory(),
            Structure::Sorted(_) | Structure::Sequenced(_) => 0,
        }
    }

    /// Puts a node in: by its key and this stamp, or in a list, which has no stamps, directly before `before`, or last
    /// where that is `None`. Takes no memory.
    #[inline(always)]
    pub fn link(&mut self, p: &mut Pool<Stored>, node: NodeRef, stamp: u64, before: Option<NodeRef>)
        requires { IsReady (step.joining_one node stamp before) 0 self.old p.old }
        ensures step { IsStep (step.joining_one node stamp before) (step.joined_one node stamp before) node 0 self.old self.new p.old p.new }
        ensures like { IsLike self.old self.new }
    {
        match self {
            Structure::Sorted(tree) => link_tree(tree, p, node, stamp, before),
            Structure::Hashed(chains) => link_chains(chains, p, node, stamp, before),
            Structure::Sequenced(list) => link_list(list, p, node, stamp, before),
        }
    }

    /// Takes a node out. All tags stay, its own too; in chains and in a list its own link names the neighbours that it
    /// had, so that it can be put back. Takes no memory.
    pub fn unlink(&mut self, p: &mut Pool<Stored>, node: NodeRef)
        requires { IsReady (step.leaving_one node) 0 self.old p.old }
        ensures step { IsStep (step.leaving_one node) (step.left_one node) node 0 self.old self.new p.old p.new }
        ensures like { IsLike self.old self.new }
    {
        match self {
            Structure::Sorted(tree) => unlink_tree(tree, p, node),
            Structure::Hashed(chains) => unlink_chains(chains, p, node),
            Structure::Sequenced(list) => unlink_list(list, p, node),
        }
    }

    /// Puts a node back to a place: in a tree by its key and the place's stamp, in chains and in a list between the
    /// neighbours that the place names. A list knows only the place that the node's own link names. Takes no memory.
    #[inline(always)]
    pub fn relink(&mut self, p: &mut Pool<Stored>, node: NodeRef, place: OldPlace)
        requires { IsReady (step.returning_one node place) 0 self.old p.old }
        ensures step { IsStep (step.returning_one node place) (step.returned_one node place) node 0 self.old self.new p.old p.new }
        ensures like { IsLike self.old self.new }
    {
        match self {
            Structure::Sorted(tree) => relink_tree(tree, p, node, place),
            Structure::Hashed(chains) => relink_chains(chains, p, node, place),
            Structure::Sequenced(list) => relink_list(list, p, node, place),
        }
    }

    /// Whether a node keeps its place where it gets another value and that stamp. Only a tree tells; in chains and in a
    /// list none does.
    pub fn keeps_place(&self, p: &Pool<Stored>, node: NodeRef, stored: &Stored, stamp: u64) -> bool
        requires { (xs : Seq Ref) × (ys : Seq Ref) × Stands self.now p.now (xs ++ node ∷ ys) }
        ensures { (xs : Seq Ref) (ys : Seq Ref) → Stands self.now p.now (xs ++ node ∷ ys)
            → (IsTrue result ↔ KeepsPlaceAt self.now p.now stored.now stamp xs ys) }
    {
        match self {
            Structure::Sorted(tree) => {
                tree.keeps_place(p, node, stored, stamp, &mut Steps::new())
            }
            Structure::Hashed(_) | Structure::Sequenced(_) => false,
        }
    }

    /// Gives a node's link in a tree the tag of its value, with that stamp: it has another value now, with which it keeps
    /// its place. Nothing changes in chains and in a list.
    pub fn retag(&self, p: &mut Pool<Stored>, node: NodeRef, stamp: u64)
        requires held { IsHeld p.old node }
        requires slot { slot_in self.now < p.old.slots }
        ensures but { KeepsButLinks p.old p.new node }
        ensures own { (v : Value) → value_of p.old node.name ≡ Some v
            → link_of p.new node.name (slot_in self.now) ≡ own_link (Some stamp) self.now v (link_of p.old node.name (slot_in self.now)) }
        ensures slots { (t : ℕ) → (slot_in self.now == t) ≡ false → link_of p.new node.name t ≡ link_of p.old node.name t }
    {
        match self {
            Structure::Sorted(tree) => tree.retag(p, node, stamp),
            Structure::Hashed(_) | Structure::Sequenced(_) => {}
        }
    }

    /// Moves a node of a list directly before `before`, another node of the list, or to the end where that is `None`.
    /// Nothing changes where both are one node. Only a list has an order that is changed so. Takes no memory.
    pub fn move_before(&mut self, p: &mut Pool<Stored>, node: NodeRef, before: Option<NodeRef>)
        requires { IsReady (insert.relocating_one node before) 0 self.old p.old }
        ensures step { IsStep (insert.relocating_one node before) (insert.relocated_one node before) node 0 self.old self.new p.old p.new }
        ensures like { IsLike self.old self.new }
    {
        match self {
            Structure::Sorted(_) | Structure::Hashed(_) => {}
            Structure::Sequenced(list) => move_in_list(list, p, node, before),
        }
    }

    /// Makes room for n keys in chains; other structures need none. Every node stays where it is. Where there is room
    /// already it costs nothing and changes nothing, and where memory is refused nothing has changed.
    pub fn make_room(
        &mut self,
        alloc: Global,
        p: &mut Pool<Stored>,
        n: u64,
    ) -> Result<(), AllocError>
        requires { IsReady pass.nothing_asked 0 self.old p.old }
        ensures step { (r : Ref) (s : ℕ) → IsStep pass.nothing_asked pass.grown r s self.old self.new p.old p.new }
        ensures like { IsLike self.old self.new }
        ensures room { IfOk result (λ _. IsRoomy self.new n) }
        ensures roomy { IsRoomy self.old n → IsOk result × (self.new ≡ self.old) × (p.new ≡ p.old) }
        ensures err { IfErr result (λ _. (self.new ≡ self.old) × (p.new ≡ p.old)) }
    {
        match self {
            Structure::Hashed(chains) => room_in_chains(chains, alloc, p, n),
            Structure::Sorted(_) | Structure::Sequenced(_) => Ok(()),
        }
    }
}

/// The type of the column of a part. One that isn't there counts as a number's.
fn type_of(columns: &[Column], part: Option<&KeyPart>) -> ColumnType
    ensures { result ≡ opened.type_of columns.now (option_copied part.entry) }
{
    match part {
        None => ColumnType::Int,
        Some(part) => match columns.get(part.column) {
            Some(column) => column.kind,
            None => ColumnType::Int,
        },
    }
}

/// The types of the columns of the first two parts, by which tags are made.
fn prefix_types(columns: &[Column], parts: &[KeyPart]) -> PrefixTypes
    ensures { result ≡ opened.prefix_types columns.now parts.now }
{
    PrefixTypes {
        first: type_of(columns, parts.first()),
        second: type_of(columns, parts.get(1)),
    }
}

fn link_tree(
    tree: &mut Tree<ByKey>,
    p: &mut Pool<Stored>,
    node: NodeRef,
    stamp: u64,
    before: Option<NodeRef>,
)
    requires { IsReady (step.joining_one node stamp before) 0 (Sorted tree.old) p.old }
    ensures step { IsStep (step.joining_one node stamp before) (step.joined_one node stamp before) node 0 (Sorted tree.old) (Sorted tree.new) p.old p.new }
    ensures like { IsLike (Sorted tree.old) (Sorted tree.new) }
{
    let _ = before;
    tree.insert(p, node, stamp, &mut Steps::new());
}

fn link_chains(
    chains: &mut Chains<ByHash>,
    p: &mut Pool<Stored>,
    node: NodeRef,
    stamp: u64,
    before: Option<NodeRef>,
)
    requires { IsReady (step.joining_one node stamp before) 0 (Hashed chains.old) p.old }
    ensures step { IsStep (step.joining_one node stamp before) (step.joined_one node stamp before) node 0 (Hashed chains.old) (Hashed chains.new) p.old p.new }
    ensures like { IsLike (Hashed chains.old) (Hashed chains.new) }
{
    let _ = before;
    chains.insert(p, node, stamp);
}

fn link_list(
    list: &mut List,
    p: &mut Pool<Stored>,
    node: NodeRef,
    stamp: u64,
    before: Option<NodeRef>,
)
    requires { IsReady (step.joining_one node stamp before) 0 (Sequenced list.old) p.old }
    ensures step { IsStep (step.joining_one node stamp before) (step.joined_one node stamp before)
        node 0 (Sequenced list.old) (Sequenced list.new) p.old p.new }
    ensures like { IsLike (Sequenced list.old) (Sequenced list.new) }
{
    let _ = stamp;
    list.insert_before(p, node, before);
}

fn unlink_tree(tree: &mut Tree<ByKey>, p: &mut Pool<Stored>, node: NodeRef)
    requires { IsReady (step.leaving_one node) 0 (Sorted tree.old) p.old }
    ensures step { IsStep (step.leaving_one node) (step.left_one node) node 0 (Sorted tree.old) (Sorted tree.new) p.old p.new }
    ensures like { IsLike (Sorted tree.old) (Sorted tree.new) }
{
    tree.remove(p, node, &mut Steps::new());
}

fn unlink_chains(chains: &mut Chains<ByHash>, p: &mut Pool<Stored>, node: NodeRef)
    requires { IsReady (step.leaving_one node) 0 (Hashed chains.old) p.old }
    ensures step { IsStep (step.leaving_one node) (step.left_one node) node 0 (Hashed chains.old) (Hashed chains.new) p.old p.new }
    ensures like { IsLike (Hashed chains.old) (Hashed chains.new) }
{
    chains.remove(p, node);
}

fn unlink_list(list: &mut List, p: &mut Pool<Stored>, node: NodeRef)
    requires { IsReady (step.leaving_one node) 0 (Sequenced list.old) p.old }
    ensures step { IsStep (step.leaving_one node) (step.left_one node) node 0 (Sequenced list.old) (Sequenced list.new) p.old p.new }
    ensures like { IsLike (Sequenced list.old) (Sequenced list.new) }
{
    list.unlink(p, node);
}

fn relink_tree(tree: &mut Tree<ByKey>, p: &mut Pool<Stored>, node: NodeRef, place: OldPlace)
    requires { IsReady (step.returning_one node place) 0 (Sorted tree.old) p.old }
    ensures step { IsStep (step.returning_one node place) (step.returned_one node place) node 0 (Sorted tree.old) (Sorted tree.new) p.old p.new }
    ensures like { IsLike (Sorted tree.old) (Sorted tree.new) }
{
    tree.insert(p, node, place.stamp, &mut Steps::new());
}

fn relink_chains(chains: &mut Chains<ByHash>, p: &mut Pool<Stored>, node: NodeRef, place: OldPlace)
    requires { IsReady (step.returning_one node place) 0 (Hashed chains.old) p.old }
    ensures step { IsStep (step.returning_one node place) (step.returned_one node place) node 0 (Hashed chains.old) (Hashed chains.new) p.old p.new }
    ensures like { IsLike (Hashed chains.old) (Hashed chains.new) }
{
    let hash = chains.hash_of(p, node);
    let tag = Tag {
        key: hash,
        stamp: place.stamp,
    };
    chains.relink(
        p,
        node,
        Link {
            back: place.back,
            forth: place.forth,
            size: 0,
            height: 0,
            tag,
        },
    );
}

fn relink_list(list: &mut List, p: &mut Pool<Stored>, node: NodeRef, place: OldPlace)
    requires { IsReady (step.returning_one node place) 0 (Sequenced list.old) p.old }
    ensures step { IsStep (step.returning_one node place) (step.returned_one node place) node 0 (Sequenced list.old) (Sequenced list.new) p.old p.new }
    ensures like { IsLike (Sequenced list.old) (Sequenced list.new) }
{
    let _ = place;
    list.relink(p, node);
}

fn move_in_list(list: &mut List, p: &mut Pool<Stored>, node: NodeRef, before: Option<NodeRef>)
    requires { IsReady (insert.relocating_one node before) 0 (Sequenced list.old) p.old }
    ensures step { IsStep (insert.relocating_one node before) (insert.relocated_one node before) node 0 (Sequenced list.old) (Sequenced list.new) p.old p.new }
    ensures like { IsLike (Sequenced list.old) (Sequenced list.new) }
{
    list.move_before(p, node, before);
}

fn room_in_chains(
    chains: &mut Chains<ByHash>,
    alloc: Global,
    p: &mut Pool<Stored>,
    n: u64,
) -> Result<(), AllocError>
    requires { IsReady pass.nothing_asked 0 (Hashed chains.old) p.old }
    ensures step { (r : Ref) (s : ℕ) → IsStep pass.nothing_asked pass.grown r s (Hashed chains.old) (Hashed chains.new) p.old p.new }
    ensures like { IsLike (Hashed chains.old) (Hashed chains.new) }
    ensures room { IfOk result (λ _. IsRoomy (Hashed chains.new) n) }
    ensures roomy { IsRoomy (Hashed chains.old) n → IsOk result × (chains.new ≡ chains.old) × (p.new ≡ p.old) }
    ensures err { IfErr result (λ _. (chains.new ≡ chains.old) × (p.new ≡ p.old)) }
{
    chains.make_room(alloc, p, n)
}
