//! Edits as they cross the border: a cell says what is done to a column. It takes memory for the list of edits and their texts.
ghost use Rattle.std.specs.Prelude.{◌≡◌, ◌≤◌, ◌&&◌, length, IsTrue, IfOk, MatchResult, Err, Some};
ghost use Rattle.std.specs.List.{list_all};
ghost use Rattle.std.specs.Option.{ok_or};
ghost use Rattle.mi_catalog.specs.Fits as fits;
ghost use Rattle.mi_request.specs.Answers.{IsAnswer};
ghost use Rattle.mi_value.specs.Edits as edits;
ghost use Rattle.mi_embed.specs.EditCells as meaning;
ghost use Rattle.mi_embed.specs.EditCells.{edit_in, edits_in};

use crate::cell::{Cell, value_of};
use mi_catalog::{Column, Schema};
use mi_value::limits::MAX_TEXT;
use mi_value::{ColumnType, Edit, Refusal, Value, ValueRef};
use std::alloc::Global;

/// An edit of a column as C sees it.
#[repr(C)]
#[derive(Clone, Copy, Debug, Drop)]
pub struct EditCell {
    /// 0 where the value is put into the column, 1 where it is a number that is added to it.
    pub kind: u32,
    /// The number of the column.
    pub column: usize,
    pub value: Cell,
}

/// The edit that a cell is. A text is copied. Refusals: `Row` and `Memory`.
fn edit_of(alloc: Global, edit: &EditCell, texts: &[u8]) -> Result<Edit, Refusal>
    ensures { IsAnswer result (ok_or (edit_in texts.now edit.now) Refusal.Row) }
{
    let value = value_of(texts, &edit.value).ok_or(Refusal::Row)?;
    match (edit.kind, value) {
        (0, value) => Ok(Edit::Put(edit.column, value.to_value(alloc)?)),
        (1, ValueRef::Int(n)) => Ok(Edit::Add(edit.column, n)),
        _ => Err(Refusal::Row),
    }
}

/// The edits that cells are. Refusals: `Row` and `Memory`.
fn edits_of(alloc: Global, cells: &[EditCell], texts: &[u8]) -> Result<Vec<Edit>, Refusal>
    ensures { MatchResult result (λ es. edits_in texts.now cells.now ≡ Some es.items)
        (λ e. IsAnswer (Err e) (ok_or (edits_in texts.now cells.now) Refusal.Row)) }
{
    let mut edits = Vec::with_capacity(alloc, cells.len())?;
    'cells: for cell in cells {
        edits.push(edit_of(alloc, cell, texts)?)?;
    }
    Ok(edits)
}

/// Whether a value is of this type, and if it is a text has at most 1,024 bytes.
fn fits_type(kind: ColumnType, value: &Value) -> bool
    ensures { result ≡ fits.fits_type kind value.now }
{
    match (kind, value) {
        (ColumnType::Int, Value::Int(_)) | (ColumnType::Flag, Value::Flag(_)) => true,
        (ColumnType::Text, Value::Text(text)) => text.as_str().len() <= MAX_TEXT,
        _ => false,
    }
}

/// The column that an edit names.
fn column_of(edit: &Edit) -> usize
    ensures { result ≡ edits.column_of edit.now }
{
    match edit {
        Edit::Put(column, _) | Edit::Add(column, _) => *column,
    }
}

/// Whether an edit is of a column that is there, and as it wants it.
fn fits_edit(columns: &[Column], edit: &Edit) -> bool
    ensures { result ≡ fits.fits_edit columns.now edit.now }
{
    let Some(column) = columns.get(column_of(edit)) else {
        return false;
    };
    match edit {
        Edit::Put(_, value) => fits_type(column.kind, value),
        Edit::Add(..) => matches!(column.kind, ColumnType::Int),
    }
}

/// Whether each edit is of a column that is there, and as it wants it.
fn fit(columns: &[Column], edits: &[Edit]) -> bool
    ensures { result ≡ list_all (fits.fits_edit columns.now) edits.now }
{
    match edits.split_first() {
        Some((edit, edits)) => fits_edit(columns, edit) && fit(columns, edits),
        None => true,
    }
}

/// Whether some edit is of this column.
fn edit_column(column: usize, edits: &[Edit]) -> bool
    ensures { result ≡ meaning.edits_column column edits.now }
{
    match edits.split_first() {
        Some((edit, edits)) => column == column_of(edit) || edit_column(column, edits),
        None => false,
    }
}

/// Whether no two edits are of one column.
fn edit_each_once(edits: &[Edit]) -> bool
    ensures { result ≡ meaning.edit_each_once edits.now }
{
    match edits.split_first() {
        Some((edit, edits)) => !edit_column(column_of(edit), edits) && edit_each_once(edits),
        None => true,
    }
}

/// The edits of a record over these columns that cells are, if they fit and no two are of one column. Refusals: `Row` and `Memory`.
pub(crate) fn edits_for(
    alloc: Global,
    schema: &Schema,
    cells: &[EditCell],
    texts: &[u8],
) -> Result<Vec<Edit>, Refusal>
    ensures edits { MatchResult result (λ es. meaning.edits_for schema.now.columns texts.now cells.now ≡ Some es.items)
        (λ e. IsAnswer (Err e) (ok_or (meaning.edits_for schema.now.columns texts.now cells.now) Refusal.Row)) }
    ensures fits { IfOk result (λ es. IsTrue (list_all (fits.fits_edit schema.now.columns) es.items) × edits.NamesEachOnce es.items) }
{
    let columns = schema.columns();
    if cells.len() > columns.len() {
        return Err(Refusal::Row);
    }
    let edits = edits_of(alloc, cells, texts)?;
    if fit(columns, edits.as_slice()) && edit_each_once(edits.as_slice()) {
        Ok(edits)
    } else {
        Err(Refusal::Row)
    }
}
