//! What a call is asked by: a table and an index by their numbers, and a row and a key as cells. It reads the catalog, and takes memory for
//! rows and keys alone.
ghost use Rattle.std.specs.Prelude.{◌≡◌, ◌<◌, ◌≤◌, length, IsTrue, IfOk, MatchResult, Ok, Err};
ghost use Rattle.std.specs.Option.{ok_or};
ghost use Rattle.mi_catalog.specs.Fits.{fits_key, fits_record};
ghost use Rattle.mi_catalog.specs.Fitting.{HasTable};
ghost use Rattle.mi_catalog.specs.Kinds as kinds;
ghost use Rattle.mi_catalog.specs.Shape.{schema_at, index_at};
ghost use Rattle.mi_catalog.specs.declared.index.IndexKind.TheVariants as kind;
ghost use Rattle.mi_request.specs.Answers.{IsAnswer};
ghost use Rattle.mi_value.specs.declared.limits.TheConstants.{MAX_COLUMNS};
ghost use Rattle.mi_embed.specs.Cells.{value_in, values_in};
ghost use Rattle.mi_embed.specs.Asked.{table_in, index_in, row_in, key_in};

use crate::cell::{Cell, value_of, values_of};
use mi_catalog::{Catalog, IndexKind, Schema};
use mi_value::{Key, Record, Refusal, Value};
use std::alloc::Global;

/// The schema of a table. Refusal: `NoTable`.
pub(crate) fn schema_of(catalog: &Catalog, table: usize) -> Result<&Schema, Refusal>
    ensures { MatchResult result
        (λ schema. (table_in catalog.now table ≡ Ok table) × HasTable catalog.now table × (schema.now ≡ schema_at catalog.now table))
        (λ e. (e ≡ Refusal.NoTable) × (table_in catalog.now table ≡ Err Refusal.NoTable)) }
{
    if table >= catalog.table_count() {
        return Err(Refusal::NoTable);
    }
    Ok(catalog.table(table))
}

/// The kind of an index. Refusal: `Index`.
fn kind_of(schema: &Schema, index: usize) -> Result<IndexKind, Refusal>
    ensures { MatchResult result
        (λ k. (index < length schema.now.indexes) × (k ≡ (index_at schema.now index).kind))
        (λ e. (e ≡ Refusal.Index) × (¬ (index < length schema.now.indexes))) }
{
    if index >= schema.index_count() {
        return Err(Refusal::Index);
    }
    Ok(schema.kind(index))
}

/// The number of an index that has keys. Refusals, in this order: `Index` and `Kind`.
pub(crate) fn keyed_index(schema: &Schema, index: usize) -> Result<usize, Refusal>
    ensures number { result ≡ index_in kinds.has_keys schema.now index }
    ensures there { IfOk result (λ i. (i ≡ index) × (i < length schema.now.indexes) × IsTrue (kinds.has_keys (index_at schema.now i).kind)) }
{
    if kind_of(schema, index)?.has_keys() {
        Ok(index)
    } else {
        Err(Refusal::Kind)
    }
}

/// The number of an ordered or ranked index. Refusals, in this order: `Index` and `Kind`.
pub(crate) fn sorted_index(schema: &Schema, index: usize) -> Result<usize, Refusal>
    ensures number { result ≡ index_in kinds.is_sorted schema.now index }
    ensures there { IfOk result (λ i. (i ≡ index) × (i < length schema.now.indexes) × IsTrue (kinds.is_sorted (index_at schema.now i).kind)) }
{
    if kind_of(schema, index)?.is_sorted() {
        Ok(index)
    } else {
        Err(Refusal::Kind)
    }
}

/// The number of a ranked index. Refusals, in this order: `Index` and `Kind`.
pub(crate) fn ranked_index(schema: &Schema, index: usize) -> Result<usize, Refusal>
    ensures number { result ≡ index_in kinds.is_ranked schema.now index }
    ensures there { IfOk result (λ i. (i ≡ index) × (i < length schema.now.indexes) × ((index_at schema.now i).kind ≡ kind.Ranked)) }
{
    match kind_of(schema, index)? {
        IndexKind::Ranked => Ok(index),
        IndexKind::Ordered | IndexKind::Hashed | IndexKind::Sequenced => Err(Refusal::Kind),
    }
}

/// The number of any index but a hashed one. Refusals, in this order: `Index` and `Kind`.
pub(crate) fn listed_index(schema: &Schema, index: usize) -> Result<usize, Refusal>
    ensures number { result ≡ index_in kinds.shows_one_list schema.now index }
    ensures there { IfOk result (λ i. (i ≡ index) × (i < length schema.now.indexes) × IsTrue (kinds.shows_one_list (index_at schema.now i).kind)) }
{
    if kind_of(schema, index)?.shows_one_list() {
        Ok(index)
    } else {
        Err(Refusal::Kind)
    }
}

/// The number of a sequenced index. Refusals, in this order: `Index` and `Kind`.
pub(crate) fn sequenced_index(schema: &Schema, index: usize) -> Result<usize, Refusal>
    ensures number { result ≡ index_in kinds.is_sequenced schema.now index }
    ensures there { IfOk result (λ i. (i ≡ index) × (i < length schema.now.indexes) × ((index_at schema.now i).kind ≡ kind.Sequenced)) }
{
    match kind_of(schema, index)? {
        IndexKind::Sequenced => Ok(index),
        IndexKind::Ordered | IndexKind::Ranked | IndexKind::Hashed => Err(Refusal::Kind),
    }
}

/// The value that a cell is. A text is copied. Refusals: `Key` and `Memory`.
fn key_value(alloc: Global, cell: &Cell, texts: &[u8]) -> Result<Value, Refusal>
    ensures { IsAnswer result (ok_or (value_in texts.now cell.now) Refusal.Key) }
{
    let value = value_of(texts, cell).ok_or(Refusal::Key)?;
    Ok(value.to_value(alloc)?)
}

/// The values that cells are, as a key; that of a single one takes no vector. Refusals: `Key` and `Memory`.
fn key_of(alloc: Global, cells: &[Cell], texts: &[u8]) -> Result<Key, Refusal>
    ensures { IsAnswer result (ok_or (values_in texts.now cells.now) Refusal.Key) }
{
    if let [cell] = cells {
        return Ok(Key::one(key_value(alloc, cell, texts)?));
    }
    let mut values = Vec::with_capacity(alloc, cells.len())?;
    'cells: for cell in cells {
        values.push(key_value(alloc, cell, texts)?)?;
    }
    Ok(Key::new(values))
}

/// The key of an index that cells are; where it needn't be whole, the first values of one will do. Refusals: `Key` and `Memory`.
pub(crate) fn key_for(
    alloc: Global,
    schema: &Schema,
    index: usize,
    whole: bool,
    cells: &[Cell],
    texts: &[u8],
) -> Result<Key, Refusal>
    requires { index < length schema.now.indexes }
    ensures key { IsAnswer result (ok_or (key_in schema.now index whole texts.now cells.now) Refusal.Key) }
    ensures fits { IfOk result (λ key. IsTrue (fits_key schema.now.columns (index_at schema.now index).parts whole key)) }
{
    let key = key_of(alloc, cells, texts)?;
    if schema.fits_key(index, key.values(), whole) {
        Ok(key)
    } else {
        Err(Refusal::Key)
    }
}

/// The record that cells are, as many as there are columns. Refusals: `Row` and `Memory`.
fn packed(alloc: Global, schema: &Schema, cells: &[Cell], texts: &[u8]) -> Result<Record, Refusal>
    requires few { length cells.now ≤ MAX_COLUMNS }
    ensures row { IsAnswer result (ok_or (row_in schema.now.columns texts.now cells.now) Refusal.Row) }
    ensures fits { IfOk result (λ row. IsTrue (fits_record schema.now.columns row)) }
{
    let Some(values) = values_of(texts, cells) else {
        return Err(Refusal::Row);
    };
    let row = Record::new(alloc, values.as_slice())?;
    if schema.fits_record(&row) {
        Ok(row)
    } else {
        Err(Refusal::Row)
    }
}

/// The record that cells are over the columns of a schema. Refusals: `Row` and `Memory`.
#[tactic(auto, using(crate::proofs::CellLemmas::other_count))]
pub(crate) fn row_of(
    alloc: Global,
    schema: &Schema,
    cells: &[Cell],
    texts: &[u8],
) -> Result<Record, Refusal>
    ensures row { IsAnswer result (ok_or (row_in schema.now.columns texts.now cells.now) Refusal.Row) }
    ensures fits { IfOk result (λ row. IsTrue (fits_record schema.now.columns row)) }
{
    if cells.len() != column_count(schema) {
        return Err(Refusal::Row);
    }
    packed(alloc, schema, cells, texts)
}

/// How many columns a schema has.
fn column_count(schema: &Schema) -> usize
    ensures all { result ≡ length schema.now.columns }
    ensures few { result ≤ MAX_COLUMNS }
{
    schema.keeps_rules();
    schema.columns().len()
}
