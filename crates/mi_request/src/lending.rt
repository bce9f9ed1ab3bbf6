//! Values that `serde_json` read, as values that lend: their texts stay where they are, their items and members lie in an arena.
ghost use Rattle.std.specs.Prelude.{◌≡◌, IfOk};
ghost use Rattle.serde_json.specs.Data.{array, object};
ghost use Rattle.serde_json.specs.View.{view, items_view, members_view};
ghost use Rattle.mi_tokens.specs.Meaning.{meaning};

use bumpalo::Bump;
use bumpalo::collections::into_bump_slice;
use mi_tokens::Json;
use serde_json::{Map, Value};
use std::alloc::AllocError;

/// The same value.
#[cycle(lend)]
pub(crate) fn lend<'a>(arena: &'a Bump, value: &'a Value) -> Result<Json<'a>, AllocError>
    ensures { IfOk result (λ v. meaning v ≡ view value.now) }
{
    match value {
        Value::Null => Ok(Json::Null),
        Value::Bool(b) => Ok(Json::Bool(*b)),
        Value::Number(n) => Ok(Json::Number(*n)),
        Value::String(text) => Ok(Json::Text(text.as_str())),
        Value::Array(items) => lend_items(arena, items),
        Value::Object(members) => lend_members(arena, members),
    }
}

#[cycle(lend)]
fn lend_items<'a>(arena: &'a Bump, items: &'a Vec<Value>) -> Result<Json<'a>, AllocError>
    ensures { IfOk result (λ v. meaning v ≡ array (items_view items.now.items)) }
{
    let mut lent = Vec::with_capacity(arena, items.len())?;
    'items: for item in items {
        lent.push(lend(arena, item)?)?;
    }
    Ok(Json::Array(into_bump_slice(lent)))
}

#[cycle(lend)]
fn lend_members<'a>(
    arena: &'a Bump,
    members: &'a Map<String, Value>,
) -> Result<Json<'a>, AllocError>
    ensures { IfOk result (λ v. meaning v ≡ object (members_view members.now.entries)) }
{
    let mut lent = Vec::with_capacity(arena, members.len())?;
    'members: for (name, member) in members.iter() {
        lent.push((name.as_str(), lend(arena, member)?))?;
    }
    Ok(Json::Object(into_bump_slice(lent)))
}
