//! Indexes by name, of the kinds that commands are for, and keys of them.
ghost use Rattle.std.specs.Prelude.{◌≡◌, ◌<◌, length, cond, IfOk, Ok, Err};
ghost use Rattle.std.specs.Option.{ok_or};
ghost use Rattle.mi_catalog.specs.Shape.{find_index};
ghost use Rattle.mi_request.specs.Answers.{IsAnswer};
ghost use Rattle.mi_protocol.specs.Binding as binding;
ghost use Rattle.mi_protocol.specs.Binding.{index_number, bound_place};
ghost use Rattle.mi_catalog.specs.Kinds as kinds;

use crate::keys::bind_key;
use mi_catalog::Schema;
use mi_request::{Array, Name, NamedPlace};
use mi_value::{Key, Refusal};
use std::alloc::Global;

/// The number of the index that is named. Refusal: `Index`.
pub(crate) fn named_index(name: &Name, schema: &Schema) -> Result<usize, Refusal>
    ensures number { result ≡ ok_or (find_index schema.now name.now) Refusal.Index }
    ensures there { IfOk result (λ i. i < length schema.now.indexes) }
{
    schema.find_index(name.as_str()).ok_or(Refusal::Index)
}

/// The index, if it is of a kind that the command is for. Refusal: `Kind`.
pub(crate) fn if_of_kind(index: usize, is_of_kind: bool) -> Result<usize, Refusal>
    ensures { result ≡ cond is_of_kind (Ok index) (Err Refusal.Kind) }
{
    if is_of_kind {
        Ok(index)
    } else {
        Err(Refusal::Kind)
    }
}

/// The number of the sequenced index that is named. Refusals, in this order: `Index`, `Kind`.
pub(crate) fn sequenced_index(name: &Name, schema: &Schema) -> Result<usize, Refusal>
    ensures { result ≡ index_number kinds.is_sequenced schema.now name.now }
{
    let index = named_index(name, schema)?;
    if_of_kind(index, schema.kind(index).is_sequenced())
}

/// The number of the index with keys that is named. Refusals, in this order: `Index`, `Kind`.
fn keyed_index(name: &Name, schema: &Schema) -> Result<usize, Refusal>
    ensures number { result ≡ index_number kinds.has_keys schema.now name.now }
    ensures there { IfOk result (λ i. i < length schema.now.indexes) }
{
    let index = named_index(name, schema)?;
    if_of_kind(index, schema.kind(index).has_keys())
}

/// The number of the ordered or ranked index that is named. Refusals, in this order: `Index`, `Kind`.
pub(crate) fn sorted_index(name: &Name, schema: &Schema) -> Result<usize, Refusal>
    ensures number { result ≡ index_number kinds.is_sorted schema.now name.now }
    ensures there { IfOk result (λ i. i < length schema.now.indexes) }
{
    let index = named_index(name, schema)?;
    if_of_kind(index, schema.kind(index).is_sorted())
}

/// The number of the ranked index that is named. Refusals, in this order: `Index`, `Kind`.
pub(crate) fn ranked_index(name: &Name, schema: &Schema) -> Result<usize, Refusal>
    ensures number { result ≡ index_number kinds.is_ranked schema.now name.now }
    ensures there { IfOk result (λ i. i < length schema.now.indexes) }
{
    let index = named_index(name, schema)?;
    if_of_kind(index, schema.kind(index).is_ranked())
}

/// An index with keys and a whole key of it. Refusals, in this order: `Index`, `Kind`, `Key`, and `Memory`.
pub(crate) fn whole_key(
    alloc: Global,
    index: &Name,
    key: Array,
    schema: &Schema,
) -> Result<(usize, Key), Refusal>
    ensures { IsAnswer result (binding.whole_key schema.now index.now key.entry) }
{
    let index = keyed_index(index, schema)?;
    Ok((index, bind_key(alloc, key, schema, index, true)?))
}

/// An index with keys and a key of it, of which a sorted index takes the first values too. Refusals, in this order: `Index`,
/// `Kind`, `Key`, and `Memory`.
pub(crate) fn key_or_prefix(
    alloc: Global,
    index: &Name,
    key: Array,
    schema: &Schema,
) -> Result<(usize, Key), Refusal>
    ensures { IsAnswer result (binding.key_or_prefix schema.now index.now key.entry) }
{
    let index = keyed_index(index, schema)?;
    let whole = schema.kind(index).is_hashed();
    Ok((index, bind_key(alloc, key, schema, index, whole)?))
}

/// A ranked index and a key of it or the first values of one. Refusals, in this order: `Index`, `Kind`, `Key`, and `Memory`.
pub(crate) fn ranked_key(
    alloc: Global,
    index: &Name,
    key: Array,
    schema: &Schema,
) -> Result<(usize, Key), Refusal>
    ensures { IsAnswer result (binding.ranked_key schema.now index.now key.entry) }
{
    let index = ranked_index(index, schema)?;
    Ok((index, bind_key(alloc, key, schema, index, false)?))
}

/// The sequenced index and the id that a place names.
pub(crate) fn bind_place(
    place: Option<NamedPlace>,
    schema: &Schema,
) -> Result<Option<(usize, u64)>, Refusal>
    ensures { result ≡ bound_place schema.now place.entry }
{
    let Some(place) = place else {
        return Ok(None);
    };
    let index = sequenced_index(&place.index, schema)?;
    Ok(Some((index, place.id)))
}
