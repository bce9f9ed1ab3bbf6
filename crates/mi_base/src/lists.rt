//! A list of ids as a value of JSON and its line, and back. It knows no table.
ghost use Rattle.std.specs.Prelude.{◌≡◌, ◌++◌, ◌∷◌, [], IfOk, OnOk, ℕ, List, IsSome, IfSome, map, string_bytes};
ghost use Rattle.serde_json.specs.View.{view};
ghost use Rattle.mi_base.specs.Lines.{line_text, IsPlain};
ghost use Rattle.mi_base.specs.Base.{list_data, id_data};

use crate::line::line_of;
use mi_value::Record;
use serde_json::Value;
use std::alloc::{AllocError, Global};

/// Ids as JSON.
#[tactic(auto, unfolding(crate::specs::Base::list_data))]
pub(crate) fn list_value(alloc: Global, ids: &[u64]) -> Result<Value, AllocError>
    ensures { IfOk result (λ v. view v ≡ list_data ids.now) }
{
    let mut items = Vec::with_capacity(alloc, ids.len())?;
    'ids: for id in ids {
        items.push(Value::from(*id))?;
    }
    Ok(Value::Array(items))
}

/// The line of ids, with its newline.
pub(crate) fn list_line(alloc: Global, ids: &[u64]) -> Result<String, AllocError>
    ensures text { IfOk result (λ line. string_bytes line ≡ line_text (list_data ids.now)) }
    ensures plain { OnOk result (IsPlain (list_data ids.now)) }
{
    let value = list_value(alloc, ids)?;
    line_of(alloc, &value)
}

/// The numbers that values are.
fn numbers_in(alloc: Global, items: &[Value]) -> Result<Option<Vec<u64>>, AllocError>
    ensures { IfOk result (λ found. (ids : List ℕ) → map view items.now ≡ map id_data ids → IsSome found × IfSome found (λ list. list.items ≡ ids)) }
{
    let mut list = Vec::with_capacity(alloc, items.len())?;
    'items: for item in items {
        let Some(id) = item.as_u64() else {
            return Ok(None);
        };
        list.push(id)?;
    }
    Ok(Some(list))
}

/// The list of ids that JSON is.
pub(crate) fn list_of(alloc: Global, value: &Value) -> Result<Option<Vec<u64>>, AllocError>
    ensures { IfOk result (λ found. (ids : List ℕ) → view value.now ≡ list_data ids → IsSome found × IfSome found (λ list. list.items ≡ ids)) }
{
    match value.as_array() {
        Some(items) => numbers_in(alloc, items.as_slice()),
        None => Ok(None),
    }
}

/// The ids of rows, in their order.
pub(crate) fn ids_of(alloc: Global, rows: &[(u64, Record)]) -> Result<Vec<u64>, AllocError>
    ensures { IfOk result (λ ids. ids.items ≡ map (λ r. r.0) rows.now) }
{
    let mut ids = Vec::with_capacity(alloc, rows.len())?;
    'rows: for row in rows {
        ids.push(row.0)?;
    }
    Ok(ids)
}

/// Puts an item behind the last.
pub(crate) fn put<T: Drop>(list: &mut Vec<T>, item: T) -> Result<(), AllocError>
    ensures { OnOk result (list.new.items ≡ list.old.items ++ item ∷ []) }
{
    Ok(list.push(item)?)
}

/// Puts an item in front of the first.
pub(crate) fn put_first<T: Drop>(list: &mut Vec<T>, item: T) -> Result<(), AllocError>
    ensures { OnOk result (list.new.items ≡ item ∷ list.old.items) }
{
    Ok(list.insert(0, item)?)
}
