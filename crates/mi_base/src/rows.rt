//! A row as a value of JSON, and back. It knows one schema, and no stream.
ghost use Rattle.std.specs.Prelude.{◌≡◌, ◌++◌, IfOk, IfSome, OnOk, [], ◌∷◌, ℕ, List, Some, true, map, option_map};
ghost use Rattle.std.specs.List.{AllByRecursion};
ghost use Rattle.serde_json.specs.Data.{number, unsigned};
ghost use Rattle.serde_json.specs.View.{view};
ghost use Rattle.mi_value.specs.Lent.{lent};
ghost use Rattle.mi_value.specs.declared.value.Value.{Value as ValueSpec};
ghost use Rattle.mi_catalog.specs.Fits.{fits_type, fits_record};
ghost use Rattle.mi_catalog.specs.Key.{Row};
ghost use Rattle.mi_base.specs.Base.{value_data, row_data};
ghost use Rattle.mi_base.specs.Reads.{HasNumber, FitsRow};

use mi_catalog::{Column, Schema};
use mi_value::{ColumnType, Record, ValueRef};
use serde_json::Value;
use std::alloc::{AllocError, Global};

/// A value as JSON.
fn value_of(alloc: Global, value: ValueRef<'_>) -> Result<Value, AllocError>
    ensures { IfOk result (λ v. view v ≡ value_data (lent value.entry)) }
{
    match value {
        ValueRef::Int(n) => Ok(Value::from(n)),
        ValueRef::Text(text) => Value::try_from_str(alloc, text),
        ValueRef::Flag(flag) => Ok(Value::Bool(flag)),
    }
}

/// Puts the values of a record behind those that are there.
fn push_values(alloc: Global, items: &mut Vec<Value>, row: &Record) -> Result<(), AllocError>
    ensures { OnOk result (map view items.new.items ≡ map view items.old.items ++ map value_data row.now) }
{
    let mut values = row.values();
    'values: while let Some(value) = values.next() {
        items.push(value_of(alloc, value)?)?;
    }
    Ok(())
}

/// A row as JSON: its id, and then its values in the order of the columns.
#[tactic(auto, unfolding(crate::specs::Base::row_data))]
pub(crate) fn row_value(alloc: Global, id: u64, row: &Record) -> Result<Value, AllocError>
    ensures { IfOk result (λ v. view v ≡ row_data (id, row.now)) }
{
    let mut items = Vec::new(alloc);
    items.push(Value::from(id))?;
    push_values(alloc, &mut items, row)?;
    Ok(Value::Array(items))
}

/// The value that JSON is in a column of this type.
fn lend_value(kind: ColumnType, value: &Value) -> Option<ValueRef<'_>>
    ensures { (v : ValueSpec) → view value.now ≡ value_data v → fits_type kind v ≡ true → HasNumber v → option_map lent result ≡ Some v }
{
    match kind {
        ColumnType::Int => Some(ValueRef::Int(value.as_i64()?)),
        ColumnType::Text => Some(ValueRef::Text(value.as_str()?)),
        ColumnType::Flag => Some(ValueRef::Flag(value.as_bool()?)),
    }
}

/// Lends the values that JSON is in these columns behind others, and answers whether there is one a column and no more.
fn lend_values<'a>(
    columns: &[Column],
    items: &'a [Value],
    values: &mut Vec<ValueRef<'a>>,
) -> Result<bool, AllocError>
    ensures { IfOk result (λ all. (vs : List ValueSpec) → map view items.now ≡ map value_data vs → fits_record columns.now vs ≡ true
        → AllByRecursion HasNumber vs → (all ≡ true) × (map lent values.new.items ≡ map lent values.old.items ++ vs)) }
{
    match (columns.split_first(), items.split_first()) {
        (None, None) => Ok(true),
        (Some((column, columns)), Some((item, items))) => {
            let Some(value) = lend_value(column.kind, item) else {
                return Ok(false);
            };
            values.push(value)?;
            lend_values(columns, items, values)
        }
        _ => Ok(false),
    }
}

/// The record that JSON is in these columns.
fn record_of(alloc: Global, schema: &Schema, items: &[Value]) -> Result<Option<Record>, AllocError>
    ensures fits { IfOk result (λ found. IfSome found (λ row. fits_record schema.now.columns row ≡ true)) }
    ensures exact { IfOk result (λ found. (vs : List ValueSpec) → map view items.now ≡ map value_data vs → fits_record schema.now.columns vs ≡ true
        → AllByRecursion HasNumber vs → found ≡ Some vs) }
{
    let mut values = Vec::new(alloc);
    if !lend_values(schema.columns(), items, &mut values)? {
        return Ok(None);
    }
    let row = Record::new(alloc, values.as_slice())?;
    Ok(if schema.fits_record(&row) {
        Some(row)
    } else {
        None
    })
}

/// The row that the items of an array are in a table of this schema.
fn row_in(
    alloc: Global,
    schema: &Schema,
    items: &[Value],
) -> Result<Option<(u64, Record)>, AllocError>
    ensures fits { IfOk result (λ found. IfSome found (λ r. fits_record schema.now.columns r.1 ≡ true)) }
    ensures exact { IfOk result (λ found. (r : Row) → map view items.now ≡ number (unsigned r.0) ∷ map value_data r.1 → FitsRow schema.now r
        → found ≡ Some r) }
{
    let Some((first, items)) = items.split_first() else {
        return Ok(None);
    };
    let Some(id) = first.as_u64() else {
        return Ok(None);
    };
    match record_of(alloc, schema, items)? {
        Some(row) => Ok(Some((id, row))),
        None => Ok(None),
    }
}

/// The row that JSON is in a table of this schema.
pub(crate) fn row_of(
    alloc: Global,
    schema: &Schema,
    value: &Value,
) -> Result<Option<(u64, Record)>, AllocError>
    ensures fits { IfOk result (λ found. IfSome found (λ r. fits_record schema.now.columns r.1 ≡ true)) }
    ensures exact { IfOk result (λ found. (r : Row) → view value.now ≡ row_data r → FitsRow schema.now r → found ≡ Some r) }
{
    match value.as_array() {
        Some(items) => row_in(alloc, schema, items.as_slice()),
        None => Ok(None),
    }
}
