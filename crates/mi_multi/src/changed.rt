//! In which indexes another record for a row has another key: each column of both records is compared once, or of a single edit the one
//! that it names. It changes nothing.
ghost use Rattle.std.specs.Prelude.{◌≡◌, ◌≤◌, Some, length};
ghost use Rattle.mi_value.specs.Lent.{lent};
ghost use Rattle.mi_value.specs.Edits.{apply as apply_edits, column_of as column_named};
ghost use Rattle.mi_model.specs.Table.{row as row_of};
ghost use Rattle.mi_container.specs.Data.{as_table};
ghost use Rattle.mi_container.specs.Fits.{IsLive};
ghost use Rattle.mi_container.specs.declared.inverse.TheConstants.{MAX_PLACES as most};
ghost use Rattle.mi_multi.specs.Changed as changed;
ghost use Rattle.mi_multi.specs.Columns as by_column;

use crate::multi::MultiIndex;
use arrayvec::ArrayVec;
use mi_catalog::Index;
use mi_container::MAX_PLACES;
use mi_node::NodeRef;
use mi_value::limits::MAX_COLUMNS;
use mi_value::{Edit, KeyPart, Record, ValueRef, same_key};

/// Whether two values differ: numbers by value, texts by their bytes. Values of two types do.
fn differ(a: ValueRef<'_>, b: ValueRef<'_>) -> bool
    ensures { result ≡ by_column.differ (lent a.entry) (lent b.entry) }
{
    match (a, b) {
        (ValueRef::Int(x), ValueRef::Int(y)) => !x.cmp(&y).is_eq(),
        (ValueRef::Int(_), _) => true,
        (ValueRef::Text(_), ValueRef::Int(_)) => true,
        (ValueRef::Text(x), ValueRef::Text(y)) => !x.cmp(y).is_eq(),
        (ValueRef::Text(_), ValueRef::Flag(_)) => true,
        (ValueRef::Flag(x), ValueRef::Flag(y)) => !x.cmp(&y).is_eq(),
        (ValueRef::Flag(_), _) => true,
    }
}

/// Marks the columns in which two records have different values, of those that both have and of the first sixteen.
fn changed_columns(old: &Record, new: &Record) -> ArrayVec<bool, MAX_COLUMNS>
    ensures { by_column.AreFirst result.items old.now new.now }
{
    let mut columns = ArrayVec::new();
    let mut before = old.values();
    let mut after = new.values();
    'columns: while columns.len() < MAX_COLUMNS {
        match (before.next(), after.next()) {
            (Some(a), Some(b)) => columns.push(differ(a, b)),
            _ => return columns,
        }
    }
    columns
}

/// Whether two records have different keys by these parts, where the columns in which they differ are marked. With a part of a
/// column that has no mark, as no schema has, the keys are compared.
fn key_changed(columns: &[bool], old: &Record, new: &Record, parts: &[KeyPart]) -> bool
    requires { by_column.AreFirst columns.now old.now new.now }
    ensures { result ≡ changed.is_changed parts.now old.now new.now }
{
    for part in parts {
        match columns.get(part.column) {
            Some(changed) => {
                if *changed {
                    return true;
                }
            }
            None => return !same_key(old, new, parts),
        }
    }
    false
}

/// Marks the indexes in which two records have different keys.
fn changed_keys(
    indexes: &[Index],
    columns: &[bool],
    old: &Record,
    new: &Record,
) -> ArrayVec<bool, MAX_PLACES>
    requires few { length indexes.now ≤ most }
    requires columns { by_column.AreFirst columns.now old.now new.now }
    ensures { result.items ≡ changed.changed_keys indexes.now old.now new.now }
{
    let mut marks = ArrayVec::new();
    for index in indexes {
        marks.push(key_changed(columns, old, new, index.parts.as_slice()));
    }
    marks
}

/// The column that an edit names.
fn column_of(edit: &Edit) -> usize
    ensures { result ≡ column_named edit.now }
{
    match edit {
        Edit::Put(column, _) => *column,
        Edit::Add(column, _) => *column,
    }
}

/// Whether an edit gives its column of a record another value, where its sum is a number of 64 bits.
fn changes_column(edit: &Edit, old: &Record) -> bool
    ensures { result ≡ by_column.changes_column edit.now old.now }
{
    match edit {
        Edit::Put(column, value) => match old.get(*column) {
            Some(was) => differ(was, value.lend()),
            None => false,
        },
        Edit::Add(_, more) => *more != 0,
    }
}

/// Whether keys of these parts have a column.
fn has_column(parts: &[KeyPart], column: usize) -> bool
    ensures { result ≡ by_column.has_column column parts.now }
{
    for part in parts {
        if part.column == column {
            return true;
        }
    }
    false
}

/// Marks the indexes whose keys have a column, where that is changed.
fn keys_with(indexes: &[Index], column: usize, changed: bool) -> ArrayVec<bool, MAX_PLACES>
    requires { length indexes.now ≤ most }
    ensures { result.items ≡ by_column.keys_with column changed indexes.now }
{
    let mut marks = ArrayVec::new();
    for index in indexes {
        marks.push(changed && has_column(index.parts.as_slice(), column));
    }
    marks
}

impl MultiIndex {
    /// Marks the indexes in which another record for a live row has another key. A put asks this once.
    pub(crate) fn changed_by(
        &self,
        id: u64,
        node: NodeRef,
        row: &Record,
    ) -> ArrayVec<bool, MAX_PLACES>
        requires { IsLive self.now.plain.rows (record { id = id; at = node }) }
        ensures { result.items ≡ changed.changed_by self.now id row.now }
    {
        self.schema.keeps_rules();
        let _ = id;
        let old = &self.nodes.pool.value(node).row;
        let columns = changed_columns(old, row);
        changed_keys(self.schema.indexes(), columns.as_slice(), old, row)
    }
    /// The same of a record that edits make of the row's. A single edit changes keys that have its column alone: no record is gone through.
    pub(crate) fn changed_by_edits(
        &self,
        id: u64,
        node: NodeRef,
        edits: &[Edit],
        row: &Record,
    ) -> ArrayVec<bool, MAX_PLACES>
        requires live { IsLive self.now.plain.rows (record { id = id; at = node }) }
        requires made { apply_edits edits.now (row_of (as_table self.now.plain) id).1 ≡ Some row.now }
        ensures { result.items ≡ changed.changed_by self.now id row.now }
    {
        self.schema.keeps_rules();
        let [edit] = edits else {
            return self.changed_by(id, node, row);
        };
        let old = &self.nodes.pool.value(node).row;
        keys_with(
            self.schema.indexes(),
            column_of(edit),
            changes_column(edit, old),
        )
    }
}
