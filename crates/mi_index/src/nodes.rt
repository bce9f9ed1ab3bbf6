//! The nodes of one table: a pool, and the structure of each index over it, through the slot of its number.
//! What holds of both is said by relations between the structures, the pool and the lists of the nodes; this knows no rows
//! but the values of nodes, and no counters.
ghost use Rattle.std.specs.Prelude.{◌≡◌, ◌≤◌, Some, List as Seq, length, IfOk, IfErr};
ghost use Rattle.mi_node.specs.Pool.{IsHeld, value_of, without};
ghost use Rattle.mi_node.specs.Refs.{Ref};
ghost use Rattle.mi_index.specs.Pass.{AreReady, IsPass, AllLike, AllRoomy, AllStand, AllCan, IsOutOfAll};
ghost use Rattle.mi_index.specs.Passes as pass;
ghost use Rattle.mi_index.specs.Rekeying as rekey;
ghost use Rattle.mi_index.specs.Inserting as insert;
ghost use Rattle.mi_index.specs.Opened as opened;
ghost use Rattle.mi_index.specs.declared.moved_indexes.MovedIndexes.TheVariants.{All};
ghost use Rattle.mi_order.specs.declared.stored.Stored.{Stored as Value};

use crate::all::Linking;
use crate::moved_indexes::MovedIndexes;
use crate::structures::Structures;
use mi_catalog::Schema;
use mi_node::{MaybePlace, NodeRef, Pool};
use mi_order::Stored;
use std::alloc::{AllocError, Global};
use std::mem::size_of;

/// The nodes of one table, and how its indexes stand over them.
#[derive(Drop)]
pub struct Nodes {
    /// The nodes, each with its record, in chunks of memory.
    pub pool: Pool<Stored>,
    /// How each index of the schema, in its order, stands over them.
    pub structures: Structures,
    /// How many bytes the records in the nodes have in blocks of their own. No clause speaks of it.
    blocks: u64,
}

/// A record of more bytes has them in a block of its own, and not in the node.
const IN_NODE: usize = 46;

/// How many bytes a record has in a block of its own.
fn block_of(stored: &Stored) -> u64 {
    let bytes = stored.row.values().byte_count();
    if bytes > IN_NODE { bytes as u64 } else { 0 }
}

/// How many bytes all blocks have, where a record goes and one with a block of so many bytes comes.
fn exchanged(blocks: u64, came: u64, went: &Stored) -> u64 {
    blocks.wrapping_add(came).wrapping_sub(block_of(went))
}

impl Nodes {
    /// The nodes that a table opens with: none. Each of its hashed indexes hashes keys under the secret. Takes memory
    /// for one structure an index. Where it is refused there is nothing.
    pub fn new(alloc: Global, schema: &Schema, secret: u64) -> Result<Nodes, AllocError>
        ensures { IfOk result (λ n. opened.IsOpened secret schema.now n.pool n.structures.items) }
    {
        let slots = schema.index_count();
        at_most_sixteen(schema);
        let structures = Structures::new(alloc, schema.indexes(), schema.columns(), secret)?;
        Ok(Nodes {
            pool: Pool::with_slots(alloc, slots),
            structures,
            blocks: 0,
        })
    }

    /// How many bytes of memory they take: the pool, what the indexes have beside it, and the blocks of records. It takes a step for
    /// each index, however many nodes there are. No clause says how many; tests do.
    pub fn memory(&self) -> u64 {
        let pool = self.pool.memory(size_of::<Stored>());
        let indexes = self.structures.memory();
        pool.saturating_add(indexes).saturating_add(self.blocks)
    }

    /// Puts a value into a new node, and the node into every index: by its key and this stamp, and last in each list. In the
    /// list of the index that is given it stands directly before the node that is given. `n` is how many nodes there will
    /// be: chains get room for as many keys. It is the one call that takes memory, before anything is altered.
    ///
    /// Where memory is refused, the value comes back, and every index has the nodes that it had.
    pub fn link_in(
        &mut self,
        alloc: Global,
        stored: Stored,
        n: u64,
        stamp: u64,
        before: Option<(usize, NodeRef)>,
    ) -> Result<NodeRef, (AllocError, Stored)>
        requires room { AreReady (insert.coming_in stored stamp before) 0 self.old.structures.items self.old.pool }
        ensures ok { IfOk result (λ r. (rss : Seq (Seq Ref)) → AllStand self.old.structures.items 0 self.old.pool rss
            → AllCan (insert.coming_in stored stamp before) self.old.structures.items 0 self.old.pool rss
            → insert.IsInserted r stored stamp before self.old.structures.items self.new.structures.items self.old.pool self.new.pool rss) }
        ensures room { IfOk result (λ _. AllRoomy self.new.structures.items n) }
        ensures returned { IfErr result (λ e. e.1 ≡ stored) }
        ensures err { IfErr result (λ _. (r : Ref)
            → IsPass pass.nothing_asked pass.grown r 0 self.old.structures.items self.new.structures.items self.old.pool self.new.pool) }
        ensures like { AllLike self.old.structures.items self.new.structures.items }
    {
        if let Err(refused) = self.structures.make_room(alloc, &mut self.pool, n) {
            return Err((refused, stored));
        }
        let block = block_of(&stored);
        let node = self.pool.take(stored)?;
        let joining = Linking {
            node,
            moves: MovedIndexes::All,
            stamp,
            before,
        };
        self.structures.link(&mut self.pool, &joining);
        self.blocks = self.blocks.wrapping_add(block);
        Ok(node)
    }

    /// Takes a node out of every index. It keeps its value, and its links remember its places. Takes no memory.
    pub fn take_out(&mut self, node: NodeRef)
        requires { AreReady (pass.leaving All node) 0 self.old.structures.items self.old.pool }
        ensures pass { IsPass (pass.leaving All node) (pass.left All node) node 0
            self.old.structures.items self.new.structures.items self.old.pool self.new.pool }
        ensures like { AllLike self.old.structures.items self.new.structures.items }
    {
        self.structures
            .unlink(&mut self.pool, node, &MovedIndexes::All);
    }

    /// Puts a node back into every index, to the places that its links remember. Takes no memory.
    pub fn put_back(&mut self, node: NodeRef)
        requires held { IsHeld self.old.pool node }
        requires places { AreReady (pass.returning All node) 0 self.old.structures.items self.old.pool }
        ensures pass { IsPass (pass.returning All node) (pass.returned All node) node 0
            self.old.structures.items self.new.structures.items self.old.pool self.new.pool }
        ensures like { AllLike self.old.structures.items self.new.structures.items }
    {
        self.structures
            .relink(&mut self.pool, node, &MovedIndexes::All);
    }

    /// Gives a node another value, and the old one back. In each index that is marked the node moves, by its new key and
    /// this stamp, and last in a list; in the others the key is the same. A tree in which it keeps its place gets a new tag
    /// alone. Takes no memory.
    pub fn rekey(&mut self, node: NodeRef, stored: Stored, marks: &[bool], stamp: u64) -> Stored
        requires held { IsHeld self.old.pool node }
        requires places { AreReady (rekey.rekeying marks.now node stored stamp) 0 self.old.structures.items self.old.pool }
        ensures value { value_of self.old.pool node.name ≡ Some result }
        ensures rekeyed { (rss : Seq (Seq Ref)) → AllStand self.old.structures.items 0 self.old.pool rss
            → AllCan (rekey.rekeying marks.now node stored stamp) self.old.structures.items 0 self.old.pool rss
            → rekey.IsRekeyed (rekey.rekeyed marks.now node stamp) node stored
            self.old.structures.items self.new.structures.items self.old.pool self.new.pool rss }
        ensures like { AllLike self.old.structures.items self.new.structures.items }
    {
        let asked = MovedIndexes::Marked(marks, &[]);
        let kept = self
            .structures
            .find_kept(&self.pool, node, &stored, &asked, stamp);
        let joining = Linking {
            node,
            moves: MovedIndexes::Marked(marks, &kept),
            stamp,
            before: None,
        };
        self.structures.unlink(&mut self.pool, node, &joining.moves);
        let block = block_of(&stored);
        let old = self.pool.swap_value(node, stored);
        self.structures
            .retag(&mut self.pool, node, &asked, stamp, &kept);
        self.structures.link(&mut self.pool, &joining);
        self.blocks = exchanged(self.blocks, block, &old);
        old
    }

    /// Gives a node an old value again, and the other one back. In each index that has a place for it the node moves
    /// there, which is never a list; in the others the key is the same. A tree in which it keeps its place gets a new tag
    /// alone. Takes no memory.
    pub fn rekey_back(&mut self, node: NodeRef, stored: Stored, places: &[MaybePlace]) -> Stored
        requires held { IsHeld self.old.pool node }
        requires places { AreReady (rekey.returning_to places.now node stored) 0 self.old.structures.items self.old.pool }
        ensures value { value_of self.old.pool node.name ≡ Some result }
        ensures rekeyed { (rss : Seq (Seq Ref)) → AllStand self.old.structures.items 0 self.old.pool rss
            → AllCan (rekey.returning_to places.now node stored) self.old.structures.items 0 self.old.pool rss
            → rekey.IsRekeyed (rekey.returned_to places.now node) node stored
            self.old.structures.items self.new.structures.items self.old.pool self.new.pool rss }
        ensures like { AllLike self.old.structures.items self.new.structures.items }
    {
        let asked = MovedIndexes::Placed(places, &[]);
        let kept = self
            .structures
            .find_kept(&self.pool, node, &stored, &asked, 0);
        let moves = MovedIndexes::Placed(places, &kept);
        self.structures.unlink(&mut self.pool, node, &moves);
        let block = block_of(&stored);
        let old = self.pool.swap_value(node, stored);
        self.structures
            .retag(&mut self.pool, node, &asked, 0, &kept);
        self.structures.relink(&mut self.pool, node, &moves);
        self.blocks = exchanged(self.blocks, block, &old);
        old
    }

    /// Moves a node in each index that is marked, by another stamp than it has there, and last in a list. Its value stays. A tree in
    /// which it keeps its place gets a new tag alone. Takes no memory.
    pub fn restamp(&mut self, node: NodeRef, marks: &[bool], stamp: u64)
        requires held { IsHeld self.old.pool node }
        requires places { (v : Value) × (value_of self.old.pool node.name ≡ Some v)
            × AreReady (rekey.rekeying marks.now node v stamp) 0 self.old.structures.items self.old.pool }
        ensures restamped { (v : Value) → value_of self.old.pool node.name ≡ Some v
            → (rss : Seq (Seq Ref)) → AllStand self.old.structures.items 0 self.old.pool rss
            → AllCan (rekey.rekeying marks.now node v stamp) self.old.structures.items 0 self.old.pool rss
            → rekey.IsRekeyed (rekey.rekeyed marks.now node stamp) node v
            self.old.structures.items self.new.structures.items self.old.pool self.new.pool rss }
        ensures like { AllLike self.old.structures.items self.new.structures.items }
    {
        let asked = MovedIndexes::Marked(marks, &[]);
        let stored = self.pool.value(node);
        let kept = self
            .structures
            .find_kept(&self.pool, node, stored, &asked, stamp);
        let joining = Linking {
            node,
            moves: MovedIndexes::Marked(marks, &kept),
            stamp,
            before: None,
        };
        self.structures.unlink(&mut self.pool, node, &joining.moves);
        self.structures
            .retag(&mut self.pool, node, &asked, stamp, &kept);
        self.structures.link(&mut self.pool, &joining);
    }

    /// Moves a node in the list of the index of this number directly before another one, or to the end. Nothing changes
    /// where both are one node. Takes no memory.
    pub fn relocate(&mut self, index: usize, node: NodeRef, before: Option<NodeRef>)
        requires { AreReady (insert.relocating_at index node before) 0 self.old.structures.items self.old.pool }
        ensures pass { IsPass (insert.relocating_at index node before) (insert.relocated_at index node before)
            node 0 self.old.structures.items self.new.structures.items self.old.pool self.new.pool }
        ensures like { AllLike self.old.structures.items self.new.structures.items }
    {
        self.structures
            .relocate(&mut self.pool, index, node, before);
    }

    /// Frees a node that stands in no index, and gives its value back. Takes no memory.
    pub fn free(&mut self, node: NodeRef) -> Stored
        requires held { IsHeld self.old.pool node }
        ensures value { value_of self.old.pool node.name ≡ Some result }
        ensures pool { self.new.pool ≡ without self.old.pool node.name }
        ensures structures { self.new.structures ≡ self.old.structures }
        ensures stand { (rss : Seq (Seq Ref)) → AllStand self.old.structures.items 0 self.old.pool rss
            → IsOutOfAll node.name rss → AllStand self.new.structures.items 0 self.new.pool rss }
    {
        let stored = self.pool.give(node);
        self.blocks = exchanged(self.blocks, 0, &stored);
        stored
    }
}

/// States how many indexes a schema has. It does nothing.
fn at_most_sixteen(schema: &Schema)
    ensures some { 1 ≤ length schema.now.indexes }
    ensures few { length schema.now.indexes ≤ 16 }
{
    schema.keeps_rules();
}
