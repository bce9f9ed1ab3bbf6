//! The table of a container as plain data: copies of its rows, the list of each index, and both counters.
//! It reads the nodes and changes nothing.
ghost use Rattle.std.specs.Prelude.{◌≡◌, ◌<◌, true, length, map, IfOk};
ghost use Rattle.mi_model.specs.Table.{list_of};
ghost use Rattle.mi_container.specs.Asked.{IsSequenced};
ghost use Rattle.mi_container.specs.Data.{as_table, has_stamps, order_at, stamp_of, ids_of};
ghost use Rattle.mi_container.specs.Fits.{IsThere};
ghost use Rattle.mi_container.specs.Restore.{image_table};

use crate::multi::MultiIndex;
use crate::reading::structure_at;
use crate::restoring::{Keeping, row_ids};
use mi_container::TableImage;
use mi_value::{Lower, Record, Steps, Upper};
use std::alloc::{AllocError, Global};

/// Copies of rows that are lent.
fn copies(alloc: Global, lent: &[(u64, &Record)]) -> Result<Vec<(u64, Record)>, AllocError>
    ensures { IfOk result (λ rows. rows.items ≡ map (λ r. (r.0, r.1.now)) lent.now) }
{
    let mut rows = Vec::new(alloc);
    for (id, record) in lent {
        let Ok(copy) = record.copy(alloc) else {
            return Err(AllocError);
        };
        rows.push((*id, copy))?;
    }
    Ok(rows)
}

/// The ids of rows that are lent.
fn lent_ids(alloc: Global, lent: &[(u64, &Record)]) -> Result<Vec<u64>, AllocError>
    ensures { IfOk result (λ ids. ids.items ≡ map (λ r. r.0) lent.now) }
{
    let mut ids = Vec::new(alloc);
    for (id, _record) in lent {
        ids.push(*id)?;
    }
    Ok(ids)
}

/// The second of each pair.
fn seconds(alloc: Global, pairs: &[(u64, u64)]) -> Result<Vec<u64>, AllocError>
    ensures { IfOk result (λ ids. ids.items ≡ map (λ p. p.1) pairs.now) }
{
    let mut ids = Vec::new(alloc);
    for (_stamp, id) in pairs {
        ids.push(*id)?;
    }
    Ok(ids)
}

impl MultiIndex {
    /// Copies of its rows by rising ids.
    fn row_copies(&self, alloc: Global) -> Result<Vec<(u64, Record)>, AllocError>
        ensures { IfOk result (λ rows. rows.items ≡ (as_table self.now.plain).rows) }
    {
        self.schema.keeps_rules();
        let limit = self.size() as usize;
        let mut steps = Steps::new();
        let lent = self.walk_range(alloc, 0, &Lower::All, &Upper::All, false, limit, &mut steps)?;
        copies(alloc, lent.as_slice())
    }

    /// The stamp of a row in an index that has stamps.
    fn stamp(&self, index: usize, id: u64) -> u64
        requires index { index < length self.now.shape.indexes }
        requires row { IsThere self.now.plain.rows id }
        requires stamped { has_stamps (order_at self.now.plain.orders index) ≡ true }
        ensures { result ≡ stamp_of self.now.plain.rows index id }
    {
        let Some(node) = self.ids.live(id) else {
            return 0;
        };
        structure_at(&self.nodes, index)
            .place(&self.nodes.pool, index, node)
            .stamp
    }

    /// The ids, each with its stamp in an index that has stamps.
    fn stamped_ids(
        &self,
        alloc: Global,
        index: usize,
        ids: &[u64],
    ) -> Result<Vec<(u64, u64)>, AllocError>
        requires index { index < length self.now.shape.indexes }
        requires ids { ids.now ≡ ids_of self.now.plain.rows }
        requires stamped { has_stamps (order_at self.now.plain.orders index) ≡ true }
        ensures { IfOk result (λ pairs. pairs.items ≡ map (λ e. (stamp_of self.now.plain.rows index e, e)) ids.now) }
    {
        let mut pairs = Vec::new(alloc);
        for id in ids {
            pairs.push((self.stamp(index, *id), *id))?;
        }
        Ok(pairs)
    }

    /// The list of an index that has stamps: the ids by their stamps.
    fn list_by_stamps(
        &self,
        alloc: Global,
        index: usize,
        ids: &[u64],
    ) -> Result<Vec<u64>, AllocError>
        requires index { index < length self.now.shape.indexes }
        requires ids { ids.now ≡ ids_of self.now.plain.rows }
        requires stamped { has_stamps (order_at self.now.plain.orders index) ≡ true }
        ensures { IfOk result (λ list. list.items ≡ list_of (as_table self.now.plain) index) }
    {
        self.keeps_rules();
        let mut pairs = self.stamped_ids(alloc, index, ids)?;
        pairs.sort_unstable();
        seconds(alloc, pairs.as_slice())
    }

    /// The list of a sequenced index: one walk along it.
    fn list_by_walk(&self, alloc: Global, index: usize) -> Result<Vec<u64>, AllocError>
        requires { IsSequenced self.now.shape index }
        ensures { IfOk result (λ list. list.items ≡ list_of (as_table self.now.plain) index) }
    {
        self.keeps_rules();
        let Some(first) = self.first(index) else {
            return Ok(Vec::new(alloc));
        };
        let lent = self.walk(alloc, index, false, first, self.size() as usize)?;
        lent_ids(alloc, lent.as_slice())
    }

    /// The list of an index. The ids are those of the rows.
    fn list(&self, alloc: Global, index: usize, ids: &[u64]) -> Result<Vec<u64>, AllocError>
        requires index { index < length self.now.shape.indexes }
        requires ids { ids.now ≡ ids_of self.now.plain.rows }
        ensures { IfOk result (λ list. list.items ≡ list_of (as_table self.now.plain) index) }
    {
        self.keeps_rules();
        match self.keeping(index) {
            Keeping::Ids => Vec::from_slice(alloc, ids),
            Keeping::Stamps => self.list_by_stamps(alloc, index, ids),
            Keeping::List => self.list_by_walk(alloc, index),
        }
    }

    /// The lists of all indexes. The ids are those of the rows.
    fn lists(&self, alloc: Global, ids: &[u64]) -> Result<Vec<Vec<u64>>, AllocError>
        requires { ids.now ≡ ids_of self.now.plain.rows }
        ensures { IfOk result (λ lists. map (λ l. l.items) lists.items ≡ (as_table self.now.plain).lists) }
    {
        self.keeps_rules();
        let mut lists = Vec::new(alloc);
        for index in 0..self.schema.index_count() {
            lists.push(self.list(alloc, index, ids)?)?;
        }
        Ok(lists)
    }

    /// Its table as plain data: copies of the records by rising ids, the list of each index, and both counters. Nothing changes, and no
    /// kept node is in it. Refusal: memory; then nothing is left.
    pub fn image(&self, alloc: Global) -> Result<TableImage, AllocError>
        ensures { IfOk result (λ image. image_table image ≡ as_table self.now.plain) }
    {
        let rows = self.row_copies(alloc)?;
        let ids = row_ids(alloc, rows.as_slice())?;
        let lists = self.lists(alloc, ids.as_slice())?;
        Ok(TableImage {
            rows,
            lists,
            next: self.next,
            arrivals: self.arrivals,
        })
    }
}
