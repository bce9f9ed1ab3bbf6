//! Which unique index refuses a record, and because of which row. It changes nothing.
ghost use Rattle.std.specs.Prelude.{◌≡◌, ◌<◌, true, Some, None, length};
ghost use Rattle.std.specs.Option.{option_map};
ghost use Rattle.mi_catalog.specs.Shape.{index_at};
ghost use Rattle.mi_model.specs.Table.{has as has_row};
ghost use Rattle.mi_model.specs.Conflict as meaning;
ghost use Rattle.mi_model.specs.Verdict.{as_unique};
ghost use Rattle.mi_container.specs.Data.{as_table, content_of};
ghost use Rattle.mi_multi.specs.Changed.{is_changed, changed_by};

use crate::multi::MultiIndex;
use crate::reading::{id_of, structure_at};
use mi_value::{Probe, Record, Refusal, Steps};

/// The refusal of a conflict, if there is one.
pub(crate) fn unique_refusal(conflict: Option<(usize, u64)>) -> Option<Refusal>
    ensures { result ≡ option_map as_unique conflict }
{
    let (index, id) = conflict?;
    Some(Refusal::Unique { index, id })
}

impl MultiIndex {
    /// The row that has a record's key in a unique index, if there is one.
    fn holder(&self, index: usize, row: &Record) -> Option<u64>
        requires declared { 0 < index }
        requires there { index < length self.now.shape.indexes }
        requires alone { (index_at self.now.shape index).«unique» ≡ true }
        ensures { result ≡ meaning.rival (as_table self.now.plain).rows (index_at self.now.shape index).parts row.now None }
    {
        self.schema.keeps_rules();
        let structure = structure_at(&self.nodes, index);
        let node = structure.find(&self.nodes.pool, Probe::Of(row), &mut Steps::new());
        id_of(&self.nodes.pool, node)
    }

    /// The row, other than that of `except`, that has a record's key in a unique index, if there is one.
    fn rival(&self, index: usize, row: &Record, except: Option<u64>) -> Option<u64>
        requires declared { 0 < index }
        requires there { index < length self.now.shape.indexes }
        requires alone { (index_at self.now.shape index).«unique» ≡ true }
        ensures { result ≡ meaning.rival (as_table self.now.plain).rows (index_at self.now.shape index).parts row.now except }
    {
        self.schema.keeps_rules();
        let holder = self.holder(index, row)?;
        match except {
            Some(own) if own == holder => None,
            _ => Some(holder),
        }
    }

    /// The first unique index, but for the index `id`, that refuses a record, and the row for which it does. The row of
    /// `except` isn't counted. One look-up for each unique index. Takes no memory.
    pub fn conflict(&self, row: &Record, except: Option<u64>) -> Option<(usize, u64)>
        ensures { result ≡ meaning.conflict self.now.shape (as_table self.now.plain) row.now except }
    {
        for index in 1..self.schema.index_count() {
            if self.schema.unique(index)
                && let Some(id) = self.rival(index, row, except)
            {
                return Some((index, id));
            }
        }
        None
    }

    /// The row, other than a live one, that has the key of another record for that one in a unique index, if there is one.
    /// Where the key stays it is the live row's own, which no other has: nothing is looked up.
    fn rival_of_put(&self, index: usize, id: u64, row: &Record, changed: bool) -> Option<u64>
        requires declared { 0 < index }
        requires there { index < length self.now.shape.indexes }
        requires alone { (index_at self.now.shape index).«unique» ≡ true }
        requires live { has_row (as_table self.now.plain) id ≡ true }
        requires changed { changed ≡ is_changed (index_at self.now.shape index).parts (content_of self.now.plain.rows id).values row.now }
        ensures { result ≡ meaning.rival (as_table self.now.plain).rows (index_at self.now.shape index).parts row.now (Some id) }
    {
        self.schema.keeps_rules();
        if !changed {
            return None;
        }
        self.rival(index, row, Some(id))
    }

    /// The first unique index that refuses another record for a live row, and the row for which it does. One look-up for each
    /// unique index in which its key changes. Takes no memory.
    pub(crate) fn conflict_of_put(
        &self,
        id: u64,
        row: &Record,
        marks: &[bool],
    ) -> Option<(usize, u64)>
        requires live { has_row (as_table self.now.plain) id ≡ true }
        requires marks { marks.now ≡ changed_by self.now id row.now }
        ensures { result ≡ meaning.conflict self.now.shape (as_table self.now.plain) row.now (Some id) }
    {
        for index in 1..self.schema.index_count() {
            if self.schema.unique(index)
                && let Some(other) = self.rival_of_put(index, id, row, marks[index])
            {
                return Some((index, other));
            }
        }
        None
    }
}
