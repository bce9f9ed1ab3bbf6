//! One table as its rows and the ids of each index.
use crate::conflict::{Row, conflict, find_row, remove_row, set_row};
use crate::ids::{
    Ids, copy_lists, empty_lists, remove_from_all, with_added, with_moved, with_relocated,
};
use mi_catalog::{Index, Schema, compare_to_row};
use mi_value::limits::LAST_COUNT;
use mi_value::{Edit, Record, Refusal, Value, apply};
use std::alloc::{AllocError, Global};
use std::marker::Model;

/// A table as its rows in the order of their ids, the ids of each index, and its two counters.
#[derive(Drop)]
pub(crate) struct PlainTable {
    rows: Vec<Row>,
    lists: Vec<Ids>,
    next: u64,
    arrivals: u64,
}

impl Model for PlainTable {
    ghost use Rattle.std.specs.Prelude.{◌≤◌};
    ghost use Rattle.mi_value.specs.declared.limits.TheConstants.{LAST_COUNT};
    ghost use Rattle.mi_model.specs.Table.{Table, Rise};

    ghost Value = { Table };

    ghost view = { λ a. record { rows = a.rows.items; lists = a.lists.items; next = a.next; arrivals = a.arrivals } };

    ghost invariant = { λ a. (a.next ≤ LAST_COUNT) × (a.arrivals ≤ LAST_COUNT) × Rise a.next a.rows.items };
}

ghost use Rattle.std.specs.Prelude.{◌≡◌, IfOk};

/// The same rows.
fn copy_rows(alloc: Global, rows: &[Row]) -> Result<Vec<Row>, Refusal>
    ensures { IfOk result (λ new. new.items ≡ rows.now) }
{
    let mut new = Vec::new(alloc);
    for (id, row) in rows {
        new.push((*id, row.copy(alloc)?))?;
    }
    Ok(new)
}

impl PlainTable {
    ghost use Rattle.std.specs.Prelude.{◌≡◌, ◌<◌, false, [], Some, IsTrue, IfOk, IfErr, OnOk, length};
    ghost use Rattle.std.specs.Ordering.{is_eq};
    ghost use Rattle.std.specs.List.{filter};
    ghost use Rattle.mi_model.specs.Change.{put as put_row, erase as erase_row, erase_all};
    ghost use Rattle.std.specs.Option.{option_copied};
    ghost use Rattle.mi_model.specs.Table.{get as get_row, has as has_row, size as size_of, opened as opened_table, list_of};
    ghost use Rattle.mi_model.specs.View.{compare_to_id};
    ghost use Rattle.mi_model.specs.Verdict as verdict;
    ghost use Rattle.mi_model.specs.DatabaseChange.{Meets, without_value};

    /// The table that a schema opens with.
    pub(crate) fn opened(alloc: Global, schema: &Schema) -> Result<PlainTable, AllocError>
        ensures { IfOk result (λ t. t ≡ opened_table schema.now) }
    {
        schema.keeps_rules();
        Ok(PlainTable {
            rows: Vec::new(alloc),
            lists: empty_lists(alloc, schema.indexes())?,
            next: schema.first_id(),
            arrivals: schema.first_arrival(),
        })
    }

    /// The record of an id.
    pub(crate) fn get(&self, id: u64) -> Option<&Record>
        ensures { option_copied result ≡ get_row self.now id }
    {
        find_row(self.rows.as_slice(), id)
    }

    /// How many rows there are.
    pub(crate) fn size(&self) -> u64
        ensures { result ≡ size_of self.now }
    {
        self.rows.len() as u64
    }

    pub(crate) fn has(&self, id: u64) -> bool
        ensures { result ≡ has_row self.now id }
    {
        self.get(id).is_some()
    }

    /// The ids of index x in the order of its list.
    pub(crate) fn ids(&self, x: usize) -> &[u64]
        ensures { result.now ≡ list_of self.now x }
    {
        match self.lists.get(x) {
            Some(ids) => ids.as_slice(),
            None => &[],
        }
    }

    /// The same table.
    pub(crate) fn copy(&self, alloc: Global) -> Result<PlainTable, Refusal>
        ensures { IfOk result (λ copied. copied ≡ self.now) }
    {
        Ok(PlainTable {
            rows: copy_rows(alloc, self.rows.as_slice())?,
            lists: copy_lists(alloc, self.lists.as_slice())?,
            next: self.next,
            arrivals: self.arrivals,
        })
    }

    /// The refusal of an insert, if one applies.
    fn insert_refusal(
        &self,
        schema: &Schema,
        row: &Record,
        before: Option<(usize, u64)>,
    ) -> Option<Refusal>
        ensures { result ≡ verdict.insert_refusal schema.now before row.now self.now }
    {
        if let Some((_, id)) = before
            && !self.has(id)
        {
            return Some(Refusal::NoId);
        }
        if self.rows.len() as u64 == schema.max_rows() {
            return Some(Refusal::Full);
        }
        if self.next == LAST_COUNT || self.arrivals == LAST_COUNT {
            return Some(Refusal::Spent);
        }
        match conflict(self.rows.as_slice(), schema.indexes(), row, None) {
            None => None,
            Some((index, id)) => Some(Refusal::Unique { index, id }),
        }
    }

    /// Adds a row, last in each index but where `before` says before which row of a sequenced index.
    pub(crate) fn insert(
        &mut self,
        alloc: Global,
        schema: &Schema,
        row: Record,
        before: Option<(usize, u64)>,
    ) -> Result<u64, (Refusal, Record)>
        ensures outcome { Meets (verdict.insert_outcome schema.now before row self.old) (without_value result) self.old self.new }
        ensures handed_back { IfErr result (λ e. e.1 ≡ row) }
    {
        if let Some(refusal) = self.insert_refusal(schema, &row, before) {
            return Err((refusal, row));
        }
        let id = self.next;
        let Ok(lists) = with_added(alloc, self.lists.as_slice(), id, before) else {
            return Err((Refusal::Memory, row));
        };
        if let Err(e) = self.rows.push((id, row)) {
            return Err((Refusal::Memory, e.value.1));
        }
        self.lists = lists;
        self.next += 1;
        self.arrivals += 1;
        Ok(id)
    }

    /// The refusal of a replace, if one applies.
    fn replace_refusal(&self, schema: &Schema, id: u64, row: &Record) -> Option<Refusal>
        ensures { result ≡ verdict.replace_refusal schema.now id row.now self.now }
    {
        if !self.has(id) {
            return Some(Refusal::NoId);
        }
        if self.arrivals == LAST_COUNT {
            return Some(Refusal::Spent);
        }
        match conflict(self.rows.as_slice(), schema.indexes(), row, Some(id)) {
            None => None,
            Some((index, id)) => Some(Refusal::Unique { index, id }),
        }
    }

    /// Sets another record for a row that is there. It goes last in each list whose index sees its key change.
    fn put(
        &mut self,
        alloc: Global,
        schema: &Schema,
        id: u64,
        row: Record,
    ) -> Result<(), (Refusal, Record)>
        requires there { IsTrue (has_row self.old id) }
        requires unspent { verdict.is_spent self.old.arrivals ≡ false }
        ensures ok { OnOk result (self.new ≡ put_row schema.now id row self.old) }
        ensures err { IfErr result (λ e. (e ≡ (Refusal.Memory, row)) × (self.new ≡ self.old)) }
    {
        let Some(old) = self.get(id) else {
            return Err((Refusal::Memory, row));
        };
        let Ok(lists) = with_moved(
            alloc,
            schema.indexes(),
            self.lists.as_slice(),
            old,
            &row,
            id,
        ) else {
            return Err((Refusal::Memory, row));
        };
        self.lists = lists;
        set_row(&mut self.rows, id, row);
        self.arrivals += 1;
        Ok(())
    }

    /// Sets another record for a row. Refusals: `NoId`, `Spent`, `Unique`, `Memory`; the record is handed back.
    pub(crate) fn replace(
        &mut self,
        alloc: Global,
        schema: &Schema,
        id: u64,
        row: Record,
    ) -> Result<(), (Refusal, Record)>
        ensures outcome { Meets (verdict.replace_outcome schema.now id row self.old) (without_value result) self.old self.new }
        ensures handed_back { IfErr result (λ e. e.1 ≡ row) }
    {
        if let Some(refusal) = self.replace_refusal(schema, id, &row) {
            return Err((refusal, row));
        }
        self.put(alloc, schema, id, row)
    }

    /// Takes a row out of the table and of every list. It takes no memory.
    fn remove(&mut self, id: u64)
        ensures { self.new ≡ erase_row id self.old }
    {
        remove_row(&mut self.rows, id);
        remove_from_all(self.lists.as_mut_slice(), id);
    }

    /// Takes a row out. Refusal: `NoId`. It takes no memory.
    pub(crate) fn erase(&mut self, id: u64) -> Result<(), Refusal>
        ensures { Meets (verdict.erase_outcome id self.old) result self.old self.new }
    {
        if !self.has(id) {
            return Err(Refusal::NoId);
        }
        self.remove(id);
        Ok(())
    }

    /// Moves a row in a sequenced index directly before another, or to its end. Refusals: `NoId` (of either row), `Memory`.
    pub(crate) fn relocate(
        &mut self,
        alloc: Global,
        x: usize,
        id: u64,
        before: Option<u64>,
    ) -> Result<(), Refusal>
        ensures { Meets (verdict.relocate_outcome x id before self.old) result self.old self.new }
    {
        if !self.has(id) || before.is_some_and(|b| !self.has(b)) {
            return Err(Refusal::NoId);
        }
        if x < self.lists.len() {
            let ids = with_relocated(alloc, self.lists.as_slice(), x, id, before)?;
            self.lists[x] = ids;
        }
        Ok(())
    }

    /// Sets the record that a modify made, unless a unique index refuses it: with `rollback` nothing changes then, without it
    /// the row is taken out.
    fn modify_to(
        &mut self,
        alloc: Global,
        schema: &Schema,
        id: u64,
        row: Record,
        rollback: bool,
    ) -> Result<(), Refusal>
        requires { IsTrue (has_row self.old id) }
        ensures { Meets (verdict.modified schema.now id rollback (Some row) self.old) result self.old self.new }
    {
        if self.arrivals == LAST_COUNT {
            return Err(Refusal::Spent);
        }
        match conflict(self.rows.as_slice(), schema.indexes(), &row, Some(id)) {
            None => match self.put(alloc, schema, id, row) {
                Ok(()) => Ok(()),
                Err((refusal, _row)) => Err(refusal),
            },
            Some((index, other)) if rollback => Err(Refusal::Unique { index, id: other }),
            Some((index, other)) => {
                self.remove(id);
                Err(Refusal::Lost { index, id: other })
            }
        }
    }

    /// Changes columns of a row. Refusals: `NoId`, `Range`, `Spent`, `Unique` (with `rollback`) or `Lost` (without it, and then
    /// the row is gone), `Memory`.
    pub(crate) fn modify(
        &mut self,
        alloc: Global,
        schema: &Schema,
        id: u64,
        edits: &[Edit],
        rollback: bool,
    ) -> Result<(), Refusal>
        ensures { Meets (verdict.modify_outcome schema.now id edits.now rollback self.old) result self.old self.new }
    {
        let Some(row) = self.get(id) else {
            return Err(Refusal::NoId);
        };
        let row = apply(alloc, row, edits)?;
        self.modify_to(alloc, schema, id, row, rollback)
    }

    /// Whether the row of an id has a key in an index.
    fn has_key(&self, none: &Record, index: &Index, key: &[Value], id: u64) -> bool
        requires { none.now ≡ [] }
        ensures { result ≡ is_eq (compare_to_id index.now self.now key.now id) }
    {
        match self.get(id) {
            Some(row) => compare_to_row(index.parts.as_slice(), key, id, row).is_eq(),
            None => compare_to_row(index.parts.as_slice(), key, id, none).is_eq(),
        }
    }

    /// The ids of a key in the list of index x.
    fn ids_of_key(
        &self,
        alloc: Global,
        index: &Index,
        x: usize,
        key: &[Value],
    ) -> Result<Vec<u64>, AllocError>
        ensures { IfOk result (λ ids. ids.items ≡ filter (λ id. is_eq (compare_to_id index.now self.now key.now id)) (list_of self.now x)) }
    {
        let none = Record::new(alloc, &[])?;
        let mut ids = Vec::new(alloc);
        let Some(list) = self.lists.get(x) else {
            return Ok(ids);
        };
        for id in list.as_slice() {
            if self.has_key(&none, index, key, *id) {
                ids.push(*id)?;
            }
        }
        Ok(ids)
    }

    /// Takes these rows out. It takes no memory.
    fn remove_all(&mut self, ids: &[u64])
        ensures { self.new ≡ erase_all ids.now self.old }
    {
        for id in ids {
            self.remove(*id);
        }
    }

    /// Takes every row with a key in index x out, and answers how many. Refusal: `Memory`.
    pub(crate) fn erase_key(
        &mut self,
        alloc: Global,
        schema: &Schema,
        x: usize,
        key: &[Value],
    ) -> Result<u64, Refusal>
        requires { x < length schema.now.indexes }
        ensures { Meets (verdict.erase_key_outcome schema.now x key.now self.old) result self.old self.new }
    {
        let ids = self.ids_of_key(alloc, schema.index(x), x, key)?;
        self.remove_all(ids.as_slice());
        Ok(ids.len() as u64)
    }
}
