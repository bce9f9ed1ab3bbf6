//! Rows: from an object to a record over given columns. It knows columns and no tables.
ghost use Rattle.std.specs.Prelude.{◌≡◌, ◌≤◌, [], length, map, option_map, option_and_then, IsTrue, Some};
ghost use Rattle.serde_json.specs.Data.{no_members};
ghost use Rattle.serde_json.specs.Find.{get_member};
ghost use Rattle.std.specs.Option.{ok_or};
ghost use Rattle.mi_request.specs.Answers.{IsAnswer};
ghost use Rattle.mi_tokens.specs.Meaning.{meaning, members_meaning};
ghost use Rattle.mi_protocol.specs.Values as given;
ghost use Rattle.mi_protocol.specs.Values.{bound_row};
ghost use Rattle.mi_value.specs.Lent.{lent};
ghost use Rattle.mi_value.specs.declared.limits.TheConstants.{MAX_COLUMNS};
ghost use Rattle.mi_catalog.specs.Rules.{are_distinct};
ghost use Rattle.mi_protocol.specs.declared.row.TheConstants.{FEW};

use crate::columns::has_only_columns;
use arrayvec::ArrayVec;
use mi_catalog::{Column, Schema};
use mi_request::{Json, Object};
use mi_value::limits::{MAX_COLUMNS, MAX_TEXT};
use mi_value::{ColumnType, Record, Refusal, Value, ValueRef};
use std::alloc::Global;

/// Rows of so many columns have places for no more values: to clear sixteen places takes some 140 instructions.
const FEW: usize = 4;

/// A text of at most 1,024 bytes.
#[inline(always)]
fn short_text(text: &str) -> Option<ValueRef<'_>>
    ensures { option_map lent result ≡ given.short_text text.now }
{
    if text.len() <= MAX_TEXT {
        Some(ValueRef::Text(text))
    } else {
        None
    }
}

/// The value that fits a column of this type, lent by the line.
#[inline(always)]
fn fitting<'a>(kind: ColumnType, value: &Json<'a>) -> Option<ValueRef<'a>>
    ensures { option_map lent result ≡ given.fitting kind (meaning value.now) }
{
    match kind {
        ColumnType::Int => Some(ValueRef::Int(value.as_i64()?)),
        ColumnType::Flag => Some(ValueRef::Flag(value.as_bool()?)),
        ColumnType::Text => short_text(value.as_str()?),
    }
}

/// The value that fits a column of this type. A text is copied. Refusals: `Row` and `Memory`.
pub(crate) fn fit(alloc: Global, kind: ColumnType, value: &Json<'_>) -> Result<Value, Refusal>
    ensures { IsAnswer result (ok_or (given.fitting kind (meaning value.now)) Refusal.Row) }
{
    let value = fitting(kind, value).ok_or(Refusal::Row)?;
    Ok(value.to_value(alloc)?)
}

/// Puts the values of the members behind one another, if these are the columns' in their order and each fits.
#[inline(always)]
fn put_in_order<'a, const N: usize>(
    values: &mut ArrayVec<ValueRef<'a>, N>,
    members: &[(&'a str, Json<'a>)],
    columns: &[Column],
) -> bool
    requires empty { values.old.items ≡ [] }
    requires distinct { IsTrue (are_distinct (map (λ c. c.name) columns.now)) }
    requires few { length columns.now ≤ N }
    ensures { IsTrue result → bound_row columns.now (members_meaning members.now no_members) ≡ Some (map lent values.new.items) }
{
    if members.len() != columns.len() {
        return false;
    }
    'columns: for (i, column) in columns.iter().enumerate() {
        let member = &members[i];
        if member.0 != column.name.as_str() {
            return false;
        }
        let Some(value) = fitting(column.kind, &member.1) else {
            return false;
        };
        values.push(value);
    }
    true
}

/// The value of a column's member, if it is there and fits.
fn value_in<'a>(row: &Object<'a>, column: &Column) -> Option<ValueRef<'a>>
    ensures { option_map lent result ≡ option_and_then (given.fitting column.now.kind) (get_member column.now.name row.now) }
{
    fitting(column.kind, row.get(column.name.as_str())?)
}

/// The record of the columns' members, wherever these stand. Their values are lent by the line until they are packed.
#[inline(never)]
fn record_of(alloc: Global, row: &Object<'_>, columns: &[Column]) -> Result<Record, Refusal>
    requires { length columns.now ≤ MAX_COLUMNS }
    ensures { IsAnswer result (ok_or (bound_row columns.now row.now) Refusal.Row) }
{
    if !has_only_columns(row, columns) {
        return Err(Refusal::Row);
    }
    let mut values: ArrayVec<ValueRef<'_>, MAX_COLUMNS> = ArrayVec::new();
    'columns: for column in columns {
        let Some(value) = value_in(row, column) else {
            return Err(Refusal::Row);
        };
        values.push(value);
    }
    Ok(Record::new(alloc, values.as_slice())?)
}

/// The record of a row of few columns: its members are tried in the columns' order first.
#[inline(never)]
fn record_of_few(alloc: Global, row: &Object<'_>, columns: &[Column]) -> Result<Record, Refusal>
    requires distinct { IsTrue (are_distinct (map (λ c. c.name) columns.now)) }
    requires few { length columns.now ≤ FEW }
    ensures { IsAnswer result (ok_or (bound_row columns.now row.now) Refusal.Row) }
{
    let mut values: ArrayVec<ValueRef<'_>, FEW> = ArrayVec::new();
    if put_in_order(&mut values, row.members(), columns) {
        return Ok(Record::new(alloc, values.as_slice())?);
    }
    record_of(alloc, row, columns)
}

/// The record of a row of up to sixteen columns, in the same way.
#[inline(never)]
fn record_of_many(alloc: Global, row: &Object<'_>, columns: &[Column]) -> Result<Record, Refusal>
    requires distinct { IsTrue (are_distinct (map (λ c. c.name) columns.now)) }
    requires few { length columns.now ≤ MAX_COLUMNS }
    ensures { IsAnswer result (ok_or (bound_row columns.now row.now) Refusal.Row) }
{
    let mut values: ArrayVec<ValueRef<'_>, MAX_COLUMNS> = ArrayVec::new();
    if put_in_order(&mut values, row.members(), columns) {
        return Ok(Record::new(alloc, values.as_slice())?);
    }
    record_of(alloc, row, columns)
}

/// The record that a row is: a fitting member for each column, and no other. Refusals: `Row` and `Memory`.
pub(crate) fn bind_row(alloc: Global, row: &Object<'_>, schema: &Schema) -> Result<Record, Refusal>
    ensures { IsAnswer result (ok_or (bound_row schema.now.columns row.now) Refusal.Row) }
{
    schema.keeps_rules();
    let columns = schema.columns();
    if columns.len() <= FEW {
        record_of_few(alloc, row, columns)
    } else {
        record_of_many(alloc, row, columns)
    }
}
