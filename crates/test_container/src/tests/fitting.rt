//! Whether edits fit the columns of a table, and of which kind an index of it is.
ghost use Rattle.std.specs.Prelude.{◌≡◌, ◌<◌, IsTrue, length};
ghost use Rattle.std.specs.List.{list_all};
ghost use Rattle.mi_value.specs.Edits as edits_meaning;
ghost use Rattle.mi_catalog.specs.Fits as fits_meaning;
ghost use Rattle.mi_catalog.specs.Shape.{index_at};

use super::asking::check_below;
use mi_catalog::{Column, IndexKind, Schema};
use mi_value::limits::MAX_TEXT;
use mi_value::{ColumnType, Edit, Value};
use std::process::Abort;

/// Whether a value is of this type.
fn fits_type(kind: ColumnType, value: &Value) -> bool
    ensures { result ≡ fits_meaning.fits_type kind value.now }
{
    match (kind, value) {
        (ColumnType::Int, Value::Int(_)) | (ColumnType::Flag, Value::Flag(_)) => true,
        (ColumnType::Text, Value::Text(text)) => text.as_str().len() <= MAX_TEXT,
        _ => false,
    }
}

/// Whether an edit is of a column of its type.
fn fits_edit(columns: &[Column], edit: &Edit) -> bool
    ensures { result ≡ fits_meaning.fits_edit columns.now edit.now }
{
    match edit {
        Edit::Put(column, value) => match columns.get(*column) {
            Some(column) => fits_type(column.kind, value),
            None => false,
        },
        Edit::Add(column, _) => match columns.get(*column) {
            Some(column) => column.kind == ColumnType::Int,
            None => false,
        },
    }
}

/// The column that an edit names.
fn column_of(edit: &Edit) -> usize
    ensures { result ≡ edits_meaning.column_of edit.now }
{
    match edit {
        Edit::Put(column, _) | Edit::Add(column, _) => *column,
    }
}

/// Whether no edit names a column.
fn spares_column(column: usize, edits: &[Edit]) -> bool
    ensures { IsTrue result → edits_meaning.SparesColumn column edits.now }
{
    match edits.split_first() {
        None => true,
        Some((edit, edits)) => column != column_of(edit) && spares_column(column, edits),
    }
}

/// Whether each edit is of a column of its type, and no column is named twice.
pub(super) fn fits_edits(columns: &[Column], edits: &[Edit]) -> bool
    ensures fit { IsTrue result → IsTrue (list_all (fits_meaning.fits_edit columns.now) edits.now) }
    ensures once { IsTrue result → edits_meaning.NamesEachOnce edits.now }
{
    match edits.split_first() {
        None => true,
        Some((edit, edits)) => {
            fits_edit(columns, edit)
                && spares_column(column_of(edit), edits)
                && fits_edits(columns, edits)
        }
    }
}

/// The kind of an index. Stops where it isn't there.
pub(super) fn kind_at(rt: &impl Abort, schema: &Schema, index: usize) -> IndexKind
    ensures there { index < length schema.now.indexes }
    ensures kind { result ≡ (index_at schema.now index).kind }
{
    check_below(rt, index, schema.index_count());
    schema.kind(index)
}
