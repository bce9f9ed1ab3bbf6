//! A walk along what an index shows. It lends the records and changes nothing.
ghost use Rattle.std.specs.Prelude.{◌≡◌, ◌<◌, ◌≤◌, ◌+◌, ◌*◌, ◌^◌, ℕ, length, map, IsTrue, IfOk};
ghost use Rattle.mi_model.specs.Table.{has as has_row, row as row_of, size as size_of};
ghost use Rattle.mi_model.specs.Page.{range as range_of};
ghost use Rattle.mi_model.specs.Walk.{rows_from};
ghost use Rattle.mi_container.specs.Asked.{IsSequenced, IsSorted};
ghost use Rattle.mi_container.specs.Data.{as_table};
ghost use Rattle.mi_multi.specs.Walks.{direction_of};

use crate::multi::MultiIndex;
use crate::reading::structure_at;
use mi_index::KeyRange;
use mi_node::Counted;
use mi_tree::Direction;
use mi_value::{Lower, Record, Steps, Upper};
use std::alloc::{AllocError, Global};

/// Which way a walk goes along an index.
fn direction(reverse: bool) -> Direction
    ensures { result ≡ direction_of reverse }
{
    if reverse {
        Direction::Descending
    } else {
        Direction::Ascending
    }
}

impl MultiIndex {
    /// The rows that a sequenced index shows from one on, in its order or in the reverse of it, at most `limit` of them. It is one walk
    /// from that row's node: for k rows it reads k links. Refusal: the vector's memory.
    pub fn walk(
        &self,
        alloc: Global,
        index: usize,
        reverse: bool,
        first: u64,
        limit: usize,
    ) -> Result<Vec<(u64, &Record)>, AllocError>
        requires index { IsSequenced self.now.shape index }
        requires first { IsTrue (has_row (as_table self.now.plain) first) }
        ensures { IfOk result (λ rows. map (λ r. (r.0, r.1.now)) rows.items ≡
            rows_from self.now.shape (as_table self.now.plain) index reverse first limit) }
    {
        let Some(node) = self.ids.live(first) else {
            return Ok(Vec::new(alloc));
        };
        let structure = structure_at(&self.nodes, index);
        let mut pool = Counted::new(&self.nodes.pool);
        structure.walk(alloc, &mut pool, index, direction(reverse), node, limit)
    }

    /// The first rows of those that an ordered or ranked index shows between two bounds, at most `limit` of them: one way down and one
    /// walk. For k rows and fewer than 2^b in the table it reads at most 2k + 6b + 2 links. Refusal: the vector's memory.
    pub fn walk_range(
        &self,
        alloc: Global,
        index: usize,
        lower: &Lower,
        upper: &Upper,
        reverse: bool,
        limit: usize,
        steps: &mut Steps,
    ) -> Result<Vec<(u64, &Record)>, AllocError>
        requires index { IsSorted self.now.shape index }
        ensures rows { IfOk result (λ rows. map (λ r. (r.0, r.1.now)) rows.items ≡ map (row_of (as_table self.now.plain))
            (range_of self.now.shape (as_table self.now.plain) index lower.now upper.now reverse limit).ids) }
        ensures steps { (b : ℕ) → size_of (as_table self.now.plain) < 2 ^ b → steps.new.count ≤ steps.old.count + (2 * b + 1)
            + length (range_of self.now.shape (as_table self.now.plain) index lower.now upper.now reverse limit).ids }
    {
        let structure = structure_at(&self.nodes, index);
        let range = KeyRange {
            parts: self.schema.parts(index),
            lower,
            upper,
            direction: direction(reverse),
        };
        let mut pool = Counted::new(&self.nodes.pool);
        structure.walk_range(alloc, &mut pool, &range, limit, steps)
    }
}
