//! What a container answers of its rows. It changes nothing.
ghost use Rattle.std.specs.Prelude.{◌≡◌, ◌<◌, ◌≤◌, ◌+◌, ◌*◌, ◌^◌, ℕ, IsTrue, IfSome, List as Seq, Some, None, length, slice_get, if◌then◌else◌};
ghost use Rattle.std.specs.Option.{option_map};
ghost use Rattle.mi_model.specs.Table.{get as get_row, has as has_row, size as size_of};
ghost use Rattle.mi_model.specs.LookUp as look;
ghost use Rattle.mi_container.specs.Asked.{IsKeyed, IsHashed, IsSorted, ShowsOneList, WholeKey, KeyPrefix, LookUpKey};
ghost use Rattle.mi_container.specs.Data.{as_table};
ghost use Rattle.mi_node.specs.Pool.{IsHeld};
ghost use Rattle.mi_node.specs.Refs.{Ref};
ghost use Rattle.mi_index.specs.Standing.{Stands};
ghost use Rattle.mi_index.specs.Looks as nodes;
ghost use Rattle.mi_index.specs.Walks.{shown_row};
ghost use Rattle.mi_index.specs.declared.structure.Structure.TheVariants.{Sorted};
ghost use Rattle.mi_multi.specs.Multi.{id_at};
ghost use Rattle.mi_multi.specs.Past.{rank_of_bound};

use crate::multi::MultiIndex;
use mi_index::{ByKey, Nodes, Stored, Structure};
use mi_node::{NodeRef, Pool};
use mi_tree::Tree;
use mi_value::{Probe, Record, Steps, Value};

/// The structure of the index of a number.
pub(crate) fn structure_at(nodes: &Nodes, index: usize) -> &Structure
    requires { index < length nodes.now.structures.items }
    ensures { slice_get nodes.now.structures.items index ≡ Some result.now }
{
    nodes.structures.at(index)
}

/// The id of a node, if there is one.
pub(crate) fn id_of(p: &Pool<Stored>, node: Option<NodeRef>) -> Option<u64>
    requires { IfSome node (λ r. IsHeld p.now r) }
    ensures { result ≡ option_map (id_at p.now) node }
{
    match node {
        Some(node) => Some(p.value(node).id),
        None => None,
    }
}

/// The id and the record of a node, if there is one.
pub(crate) fn row_in(p: &Pool<Stored>, node: Option<NodeRef>) -> Option<(u64, &Record)>
    requires { IfSome node (λ r. IsHeld p.now r) }
    ensures { option_map (λ r. (r.0, r.1.now)) result ≡ option_map (shown_row p.now) node }
{
    match node {
        Some(node) => {
            let stored = p.value(node);
            Some((stored.id, &stored.row))
        }
        None => None,
    }
}

/// How many nodes a sorted index has.
pub(crate) fn node_count(structure: &Structure, p: &Pool<Stored>) -> u32
    requires { (rs : Seq Ref) × Stands structure.now p.now rs × nodes.IsSortedStructure structure.now }
    ensures { (rs : Seq Ref) → Stands structure.now p.now rs → result ≡ length rs }
{
    match structure {
        Structure::Sorted(tree) => tree_count(tree, p),
        Structure::Hashed(_) | Structure::Sequenced(_) => 0,
    }
}

fn tree_count(tree: &Tree<ByKey>, p: &Pool<Stored>) -> u32
    requires { (rs : Seq Ref) × Stands (Sorted tree.now) p.now rs }
    ensures { (rs : Seq Ref) → Stands (Sorted tree.now) p.now rs → result ≡ length rs }
{
    tree.len(p)
}

impl MultiIndex {
    /// How many bytes of memory it takes: its nodes with their records, its indexes, its map of ids. It takes a step for each index,
    /// however many records there are. No clause says how many; tests do.
    pub fn memory(&self) -> u64 {
        self.nodes.memory().saturating_add(self.ids.memory())
    }

    /// How many records there are.
    pub fn size(&self) -> u64
        ensures { result ≡ size_of (as_table self.now.plain) }
    {
        self.schema.keeps_rules();
        node_count(structure_at(&self.nodes, 0), &self.nodes.pool) as u64
    }

    /// The first id that an index shows, or none where there are no records.
    pub fn first(&self, index: usize) -> Option<u64>
        requires { ShowsOneList self.now.shape index }
        ensures { result ≡ look.first self.now.shape (as_table self.now.plain) index }
    {
        let node = structure_at(&self.nodes, index).first(&self.nodes.pool);
        id_of(&self.nodes.pool, node)
    }

    /// The last id that an index shows, or none where there are no records.
    pub fn last(&self, index: usize) -> Option<u64>
        requires { ShowsOneList self.now.shape index }
        ensures { result ≡ look.last self.now.shape (as_table self.now.plain) index }
    {
        let node = structure_at(&self.nodes, index).last(&self.nodes.pool);
        id_of(&self.nodes.pool, node)
    }

    /// The id that an index shows directly after another, or none behind the last.
    pub fn after(&self, index: usize, id: u64) -> Option<u64>
        requires index { ShowsOneList self.now.shape index }
        requires id { IsTrue (has_row (as_table self.now.plain) id) }
        ensures { result ≡ look.after self.now.shape (as_table self.now.plain) index id }
    {
        let Some(node) = self.ids.live(id) else {
            return None;
        };
        let next = structure_at(&self.nodes, index).next(&self.nodes.pool, node);
        id_of(&self.nodes.pool, next)
    }

    /// The id that an index shows directly before another, or none before the first.
    pub fn before(&self, index: usize, id: u64) -> Option<u64>
        requires index { ShowsOneList self.now.shape index }
        requires id { IsTrue (has_row (as_table self.now.plain) id) }
        ensures { result ≡ look.before self.now.shape (as_table self.now.plain) index id }
    {
        let Some(node) = self.ids.live(id) else {
            return None;
        };
        let prev = structure_at(&self.nodes, index).prev(&self.nodes.pool, node);
        id_of(&self.nodes.pool, prev)
    }

    /// The id with n records before it in an ordered or ranked index, or none.
    pub fn nth(&self, index: usize, n: u64) -> Option<u64>
        requires { IsSorted self.now.shape index }
        ensures { result ≡ look.nth self.now.shape (as_table self.now.plain) index n }
    {
        let structure = structure_at(&self.nodes, index);
        if n > u32::MAX as u64 {
            return None;
        }
        let node = structure.nth(&self.nodes.pool, n as u32);
        id_of(&self.nodes.pool, node)
    }

    /// The id with n records before it in an ordered or ranked index and its record, or none. It compares nothing.
    pub fn nth_row(&self, index: usize, n: u64) -> Option<(u64, &Record)>
        requires { IsSorted self.now.shape index }
        ensures id { option_map (λ r. r.0) result ≡ look.nth self.now.shape (as_table self.now.plain) index n }
        ensures row { IfSome result (λ r. get_row (as_table self.now.plain) r.0 ≡ Some r.1.now) }
    {
        let structure = structure_at(&self.nodes, index);
        if n > u32::MAX as u64 {
            return None;
        }
        let found = structure.nth(&self.nodes.pool, n as u32);
        row_in(&self.nodes.pool, found)
    }

    /// How many records stand before a record in an ordered or ranked index, or none where it isn't there. At most one look-up.
    pub fn rank(&self, index: usize, id: u64, steps: &mut Steps) -> Option<u64>
        requires { IsSorted self.now.shape index }
        ensures rank { result ≡ (if has_row (as_table self.now.plain) id
            then Some (look.rank self.now.shape (as_table self.now.plain) index id) else None) }
        ensures steps { (b : ℕ) → size_of (as_table self.now.plain) < 2 ^ b → steps.new.count ≤ steps.old.count + (2 * b + 1) }
    {
        let Some(node) = self.ids.live(id) else {
            return None;
        };
        let structure = structure_at(&self.nodes, index);
        Some(structure.rank(&self.nodes.pool, node, steps) as u64)
    }

    /// How many records stand before a record in an ordered or ranked index. At most one look-up.
    pub fn rank_of(&self, index: usize, id: u64, steps: &mut Steps) -> u64
        requires index { IsSorted self.now.shape index }
        requires id { IsTrue (has_row (as_table self.now.plain) id) }
        ensures rank { result ≡ look.rank self.now.shape (as_table self.now.plain) index id }
        ensures steps { (b : ℕ) → size_of (as_table self.now.plain) < 2 ^ b → steps.new.count ≤ steps.old.count + (2 * b + 1) }
    {
        let Some(node) = self.ids.live(id) else {
            return 0;
        };
        structure_at(&self.nodes, index).rank(&self.nodes.pool, node, steps) as u64
    }

    /// The first id of an ordered or ranked index whose key isn't less than a key or the first values of one, or with `is_upper`
    /// is greater; or none. At most one look-up.
    fn bound(&self, index: usize, key: &[Value], is_upper: bool, steps: &mut Steps) -> Option<u64>
        requires { IsSorted self.now.shape index }
        ensures id { result ≡ look.nth self.now.shape (as_table self.now.plain) index (rank_of_bound is_upper self.now.shape (as_table self.now.plain) index key.now) }
        ensures steps { (b : ℕ) → size_of (as_table self.now.plain) < 2 ^ b → steps.new.count ≤ steps.old.count + (2 * b + 1) }
    {
        let structure = structure_at(&self.nodes, index);
        let node = structure.bound(&self.nodes.pool, Probe::Key(key), is_upper, steps);
        id_of(&self.nodes.pool, node)
    }

    /// How many records of an ordered or ranked index stand before that one. At most one look-up.
    fn bound_rank(&self, index: usize, key: &[Value], is_upper: bool, steps: &mut Steps) -> u64
        requires { IsSorted self.now.shape index }
        ensures rank { result ≡ rank_of_bound is_upper self.now.shape (as_table self.now.plain) index key.now }
        ensures steps { (b : ℕ) → size_of (as_table self.now.plain) < 2 ^ b → steps.new.count ≤ steps.old.count + (2 * b + 1) }
    {
        let structure = structure_at(&self.nodes, index);
        structure.bound_rank(&self.nodes.pool, Probe::Key(key), is_upper, steps) as u64
    }

    /// The first id of an ordered or ranked index whose key isn't less than a key or the first values of one, or none. At
    /// most one look-up.
    pub fn lower(&self, index: usize, key: &[Value], steps: &mut Steps) -> Option<u64>
        requires index { IsSorted self.now.shape index }
        requires key { KeyPrefix self.now.shape index key.now }
        ensures id { result ≡ look.lower self.now.shape (as_table self.now.plain) index key.now }
        ensures steps { (b : ℕ) → size_of (as_table self.now.plain) < 2 ^ b → steps.new.count ≤ steps.old.count + (2 * b + 1) }
    {
        self.bound(index, key, false, steps)
    }

    /// The first id of an ordered or ranked index whose key is greater than a key or the first values of one, or none. At
    /// most one look-up.
    pub fn upper(&self, index: usize, key: &[Value], steps: &mut Steps) -> Option<u64>
        requires index { IsSorted self.now.shape index }
        requires key { KeyPrefix self.now.shape index key.now }
        ensures id { result ≡ look.upper self.now.shape (as_table self.now.plain) index key.now }
        ensures steps { (b : ℕ) → size_of (as_table self.now.plain) < 2 ^ b → steps.new.count ≤ steps.old.count + (2 * b + 1) }
    {
        self.bound(index, key, true, steps)
    }

    /// How many records of an ordered or ranked index have a key less than a key or the first values of one. At most one
    /// look-up.
    pub fn lower_rank(&self, index: usize, key: &[Value], steps: &mut Steps) -> u64
        requires index { IsSorted self.now.shape index }
        requires key { KeyPrefix self.now.shape index key.now }
        ensures rank { result ≡ look.lower_rank self.now.shape (as_table self.now.plain) index key.now }
        ensures steps { (b : ℕ) → size_of (as_table self.now.plain) < 2 ^ b → steps.new.count ≤ steps.old.count + (2 * b + 1) }
    {
        self.bound_rank(index, key, false, steps)
    }

    /// How many records of an ordered or ranked index have a key not greater than a key or the first values of one. At most
    /// one look-up.
    pub fn upper_rank(&self, index: usize, key: &[Value], steps: &mut Steps) -> u64
        requires index { IsSorted self.now.shape index }
        requires key { KeyPrefix self.now.shape index key.now }
        ensures rank { result ≡ look.upper_rank self.now.shape (as_table self.now.plain) index key.now }
        ensures steps { (b : ℕ) → size_of (as_table self.now.plain) < 2 ^ b → steps.new.count ≤ steps.old.count + (2 * b + 1) }
    {
        self.bound_rank(index, key, true, steps)
    }

    /// The first id of a whole key in an index with keys, or none. Takes no memory.
    pub fn find(&self, index: usize, key: &[Value]) -> Option<u64>
        requires index { IsKeyed self.now.shape index }
        requires key { WholeKey self.now.shape index key.now }
        ensures { result ≡ look.find self.now.shape (as_table self.now.plain) index key.now }
    {
        self.schema.keeps_rules();
        let structure = structure_at(&self.nodes, index);
        let node = structure.find(&self.nodes.pool, Probe::Key(key), &mut Steps::new());
        id_of(&self.nodes.pool, node)
    }

    /// The first id of a key in an index with keys and its record, or none. A hashed index is asked for a whole key, an ordered or
    /// ranked one also for the first values of one. At most one look-up.
    pub fn find_row(&self, index: usize, key: &[Value], steps: &mut Steps) -> Option<(u64, &Record)>
        requires index { IsKeyed self.now.shape index }
        requires key { LookUpKey self.now.shape index key.now }
        ensures id { option_map (λ r. r.0) result ≡ look.find self.now.shape (as_table self.now.plain) index key.now }
        ensures row { IfSome result (λ r. get_row (as_table self.now.plain) r.0 ≡ Some r.1.now) }
        ensures steps { (b : ℕ) → size_of (as_table self.now.plain) < 2 ^ b → steps.new.count ≤ steps.old.count + (2 * b + 1) }
    {
        self.schema.keeps_rules();
        let structure = structure_at(&self.nodes, index);
        let node = structure.find(&self.nodes.pool, Probe::Key(key), steps);
        row_in(&self.nodes.pool, node)
    }

    /// The first id of a whole key in a hashed index, or none.
    pub fn first_of(&self, index: usize, key: &[Value]) -> Option<u64>
        requires index { IsHashed self.now.shape index }
        requires key { WholeKey self.now.shape index key.now }
        ensures { result ≡ look.first_with_key self.now.shape (as_table self.now.plain) index key.now }
    {
        self.find(index, key)
    }

    /// The id that follows another among those of its key in a hashed index, or none behind the last.
    pub fn next_of(&self, index: usize, id: u64) -> Option<u64>
        requires index { IsHashed self.now.shape index }
        requires id { IsTrue (has_row (as_table self.now.plain) id) }
        ensures { result ≡ look.next_with_key self.now.shape (as_table self.now.plain) index id }
    {
        self.schema.keeps_rules();
        let Some(node) = self.ids.live(id) else {
            return None;
        };
        let next = structure_at(&self.nodes, index).next_of(&self.nodes.pool, node);
        id_of(&self.nodes.pool, next)
    }
}
