//! The values of rows under another schema: each column's are those of the old column of its name.
//! It reads two schemas and rows, and takes memory for new rows alone.
ghost use Rattle.std.specs.Prelude.{◌≡◌, map, IfOk};
ghost use Rattle.mi_value.specs.Lent.{lent};
ghost use Rattle.mi_reshape.specs.Reshaped as meaning;

use mi_catalog::{Column, Schema};
use mi_value::{ColumnType, Record, ValueRef};
use std::alloc::{AllocError, Global};

/// Where the values of a new column come from: the number of an old one, or none.
#[derive(Clone, Copy, Debug)]
pub(crate) struct Source {
    pub(crate) column: Option<usize>,
    pub(crate) kind: ColumnType,
}

/// Whether two types are one.
fn same_type(a: ColumnType, b: ColumnType) -> bool
    ensures { result ≡ meaning.same_type a b }
{
    matches!(
        (a, b),
        (ColumnType::Int, ColumnType::Int)
            | (ColumnType::Text, ColumnType::Text)
            | (ColumnType::Flag, ColumnType::Flag)
    )
}

/// Whether the old schema has no column of this name and another type.
fn keeps_type(from: &Schema, column: &Column) -> bool
    ensures { result ≡ meaning.keeps_type from.now column.now }
{
    match from.find_column(column.name.as_str()) {
        Some(number) => match from.columns().get(number) {
            Some(old) => same_type(old.kind, column.kind),
            None => same_type(ColumnType::Int, column.kind),
        },
        None => true,
    }
}

/// The number of the first column of `to` that has another type in `from`, or none.
pub(crate) fn other_type(from: &Schema, to: &Schema) -> Option<usize>
    ensures { result ≡ meaning.other_type from.now to.now }
{
    to.columns().iter().position(|c| !keeps_type(from, c))
}

/// Where the values of each column of `to` come from.
pub(crate) fn sources(alloc: Global, from: &Schema, to: &Schema) -> Result<Vec<Source>, AllocError>
    ensures { IfOk result (λ made. made.items ≡ map (meaning.source_of from.now) to.now.columns) }
{
    let mut made = Vec::new(alloc);
    for column in to.columns() {
        made.push(Source {
            column: from.find_column(column.name.as_str()),
            kind: column.kind,
        })?;
    }
    Ok(made)
}

/// What a new column has in each row: 0, the empty text, or false.
fn first_value<'a>(kind: ColumnType) -> ValueRef<'a>
    ensures { lent result ≡ meaning.first_value kind }
{
    match kind {
        ColumnType::Int => ValueRef::Int(0),
        ColumnType::Text => ValueRef::Text(""),
        ColumnType::Flag => ValueRef::Flag(false),
    }
}

impl Source {
    /// The value that a row has in the new column.
    fn value<'a>(self, row: &'a Record) -> ValueRef<'a>
        ensures { lent result ≡ meaning.source_value row.now self }
    {
        match self.column {
            Some(column) => match row.get(column) {
                Some(value) => value,
                None => first_value(self.kind),
            },
            None => first_value(self.kind),
        }
    }
}

/// The record of the values that a row has in the new columns.
fn put_row(alloc: Global, sources: &[Source], row: &Record) -> Result<Record, AllocError>
    ensures { IfOk result (λ made. made ≡ map (meaning.source_value row.now) sources.now) }
{
    let mut values: Vec<ValueRef<'_>> = Vec::with_capacity(alloc, sources.len())?;
    for source in sources {
        values.push(source.value(row))?;
    }
    Record::new(alloc, values.as_slice())
}

/// The rows with their values in the new columns, under the same ids.
pub(crate) fn put_rows(
    alloc: Global,
    sources: &[Source],
    rows: &[(u64, Record)],
) -> Result<Vec<(u64, Record)>, AllocError>
    ensures { IfOk result (λ made. made.items ≡ map (λ r. (r.0, map (meaning.source_value r.1) sources.now)) rows.now) }
{
    let mut made = Vec::new(alloc);
    for (id, row) in rows {
        made.push((*id, put_row(alloc, sources, row)?))?;
    }
    Ok(made)
}
