//! Cursors: an id under an index is found, stepped from and ranked, and its record is read a column at a time. They change nothing, and take memory
//! for keys alone.
ghost use Rattle.std.specs.Prelude.{◌≡◌, ◌<◌, length, nat_le, IsTrue, IfOk, MatchResult, Ok, Err};
ghost use Rattle.std.specs.Option.{ok_or};
ghost use Rattle.mi_catalog.specs.Fitting.{HasTable, IsKeyedIndex, IsSortedIndex, IsListedIndex, FitsPrefix, FitsLookUp};
ghost use Rattle.mi_catalog.specs.Fits.{fits_key};
ghost use Rattle.mi_catalog.specs.Shape.{index_at};
ghost use Rattle.mi_embed.specs.Asked.{key_in};
ghost use Rattle.mi_value.specs.Lent.{lent};
ghost use Rattle.mi_embed.specs.Cursors as cursor;
ghost use Rattle.mi_embed.specs.Cursors.{field_of, IsAnswerOf, IsCopiedIf, TellsText};

use crate::arguments::{key_for, keyed_index, listed_index, ranked_index, schema_of, sorted_index};
use crate::call_result::CallResult;
use crate::cell::Cell;
use crate::engine::Engine;
use crate::field::Field;
use mi_catalog::{Catalog, Schema};
use mi_query::find;
use mi_sessions::Sessions;
use mi_value::{Key, Record, Refusal, Steps, Value, ValueRef};
use std::alloc::Global;

/// Whether a key takes no memory: it is one value, and no text.
fn is_plain(cells: &[Cell]) -> bool
    ensures { result ≡ cursor.is_plain cells.now }
{
    match cells {
        [cell] => cell.kind != 1,
        _ => false,
    }
}

/// The value of a cell that is no text.
fn plain_value(cell: &Cell) -> Option<Value>
    ensures { result ≡ cursor.plain_in cell.now }
{
    match cell.kind {
        0 => Some(Value::Int(cell.integer)),
        2 => Some(Value::Flag(false)),
        3 => Some(Value::Flag(true)),
        _ => None,
    }
}

/// A key that takes no memory. Refusal: `Key`.
fn plain_key(
    schema: &Schema,
    index: usize,
    whole: bool,
    cells: &[Cell],
    texts: &[u8],
) -> Result<Key, Refusal>
    requires index { index < length schema.now.indexes }
    requires plain { IsTrue (cursor.is_plain cells.now) }
    ensures key { result ≡ ok_or (key_in schema.now index whole texts.now cells.now) Refusal.Key }
    ensures fits { IfOk result (λ key. IsTrue (fits_key schema.now.columns (index_at schema.now index).parts whole key)) }
{
    let [cell] = cells else {
        return Err(Refusal::Key);
    };
    let key = match plain_value(cell) {
        Some(value) => Key::one(value),
        None => return Err(Refusal::Key),
    };
    if schema.fits_key(index, key.values(), whole) {
        Ok(key)
    } else {
        Err(Refusal::Key)
    }
}

/// The key that cells are, which takes memory where it has several values or a text. Refusals: `Key`, and then `Memory`.
fn key_of_cells(
    alloc: Global,
    schema: &Schema,
    index: usize,
    whole: bool,
    cells: &[Cell],
    texts: &[u8],
) -> Result<Key, Refusal>
    requires { index < length schema.now.indexes }
    ensures key { IsAnswerOf cells.now result (ok_or (key_in schema.now index whole texts.now cells.now) Refusal.Key) }
    ensures fits { IfOk result (λ key. IsTrue (fits_key schema.now.columns (index_at schema.now index).parts whole key)) }
{
    if is_plain(cells) {
        plain_key(schema, index, whole, cells, texts)
    } else {
        key_for(alloc, schema, index, whole, cells, texts)
    }
}

/// A key of an ordered or ranked index, or the first values of one.
fn sorted_key(
    alloc: Global,
    catalog: &Catalog,
    table: usize,
    index: usize,
    key: &[Cell],
    texts: &[u8],
) -> Result<Key, Refusal>
    ensures key { IsAnswerOf key.now result (cursor.sorted_key catalog.now table index key.now texts.now) }
    ensures table { IfOk result (λ _. HasTable catalog.now table) }
    ensures index { IfOk result (λ _. IsSortedIndex catalog.now table index) }
    ensures fits { IfOk result (λ key. FitsPrefix catalog.now table index key) }
{
    let schema = schema_of(catalog, table)?;
    let index = sorted_index(schema, index)?;
    key_of_cells(alloc, schema, index, false, key, texts)
}

/// A key of an index that has keys, or in an ordered or ranked one the first values of one.
fn keyed_key(
    alloc: Global,
    catalog: &Catalog,
    table: usize,
    index: usize,
    key: &[Cell],
    texts: &[u8],
) -> Result<Key, Refusal>
    ensures key { IsAnswerOf key.now result (cursor.keyed_key catalog.now table index key.now texts.now) }
    ensures table { IfOk result (λ _. HasTable catalog.now table) }
    ensures index { IfOk result (λ _. IsKeyedIndex catalog.now table index) }
    ensures fits { IfOk result (λ key. FitsLookUp catalog.now table index key) }
{
    let schema = schema_of(catalog, table)?;
    let index = keyed_index(schema, index)?;
    let whole = schema.kind(index).is_hashed();
    key_of_cells(alloc, schema, index, whole, key, texts)
}

/// The first id of a key.
fn find_id<D: Sessions>(
    db: &D,
    alloc: Global,
    table: usize,
    index: usize,
    key: &[Cell],
    texts: &[u8],
) -> Result<Option<u64>, Refusal>
    ensures { IsAnswerOf key.now result (cursor.find_id_by (D.state db.now) table index key.now texts.now) }
{
    let key = keyed_key(alloc, db.catalog(), table, index, key, texts)?;
    Ok(find(db, table, index, key.values(), &mut Steps::new()))
}

/// The first id whose key isn't less, or is greater.
fn bound<D: Sessions>(
    db: &D,
    table: usize,
    index: usize,
    key: &[Value],
    beyond: bool,
) -> Option<u64>
    requires table { HasTable (D.state db.now).catalog table }
    requires index { IsSortedIndex (D.state db.now).catalog table index }
    requires key { FitsPrefix (D.state db.now).catalog table index key.now }
    ensures { result ≡ cursor.bound (D.state db.now) table index key.now beyond }
{
    if beyond {
        db.upper(table, index, key, &mut Steps::new())
    } else {
        db.lower(table, index, key, &mut Steps::new())
    }
}

/// Where a key begins, or what stands behind it.
fn seek<D: Sessions>(
    db: &D,
    alloc: Global,
    table: usize,
    index: usize,
    key: &[Cell],
    texts: &[u8],
    beyond: bool,
) -> Result<Option<u64>, Refusal>
    ensures { IsAnswerOf key.now result (cursor.seek_by (D.state db.now) table index key.now texts.now beyond) }
{
    let key = sorted_key(alloc, db.catalog(), table, index, key, texts)?;
    Ok(bound(db, table, index, key.values(), beyond))
}

/// The first id that an index shows.
fn first<D: Sessions>(db: &D, table: usize, index: usize) -> Result<Option<u64>, Refusal>
    ensures { result ≡ cursor.first_by (D.state db.now) table index }
{
    let index = listed_index(schema_of(db.catalog(), table)?, index)?;
    Ok(db.first(table, index))
}

/// The last id that an index shows.
fn last<D: Sessions>(db: &D, table: usize, index: usize) -> Result<Option<u64>, Refusal>
    ensures { result ≡ cursor.last_by (D.state db.now) table index }
{
    let index = listed_index(schema_of(db.catalog(), table)?, index)?;
    Ok(db.last(table, index))
}

/// The id of a rank.
fn at_rank<D: Sessions>(db: &D, table: usize, index: usize, n: u64) -> Result<Option<u64>, Refusal>
    ensures { result ≡ cursor.at_rank_by (D.state db.now) table index n }
{
    let index = ranked_index(schema_of(db.catalog(), table)?, index)?;
    Ok(db.nth(table, index, n))
}

/// The id behind one or before it.
fn neighbour<D: Sessions>(
    db: &D,
    table: usize,
    index: usize,
    id: u64,
    back: bool,
) -> Result<Option<u64>, Refusal>
    requires table { HasTable (D.state db.now).catalog table }
    requires index { IsListedIndex (D.state db.now).catalog table index }
    ensures { result ≡ cursor.neighbour (D.state db.now) table index id back }
{
    if db.get(table, id, &mut Steps::new()).is_none() {
        return Err(Refusal::NoId);
    }
    let next = if back {
        db.before(table, index, id)
    } else {
        db.after(table, index, id)
    };
    Ok(next)
}

/// The id behind one or before it, in an index that isn't hashed.
fn step<D: Sessions>(
    db: &D,
    table: usize,
    index: usize,
    id: u64,
    back: bool,
) -> Result<Option<u64>, Refusal>
    ensures { result ≡ cursor.step_by (D.state db.now) table index id back }
{
    let index = listed_index(schema_of(db.catalog(), table)?, index)?;
    neighbour(db, table, index, id, back)
}

/// The record of an id.
fn record<D: Sessions>(db: &D, table: usize, id: u64) -> Result<&Record, Refusal>
    ensures { MatchResult result (λ row. cursor.record_by (D.state db.now) table id ≡ Ok row.now)
        (λ e. cursor.record_by (D.state db.now) table id ≡ Err e) }
{
    let _ = schema_of(db.catalog(), table)?;
    match db.get(table, id, &mut Steps::new()) {
        Some(row) => Ok(row),
        None => Err(Refusal::NoId),
    }
}

/// The id, if its record is there.
fn there<D: Sessions>(db: &D, table: usize, id: u64) -> Result<u64, Refusal>
    ensures { result ≡ cursor.there_by (D.state db.now) table id }
{
    match record(db, table, id) {
        Ok(_) => Ok(id),
        Err(refusal) => Err(refusal),
    }
}

/// One column of a record.
fn column_of<D: Sessions>(
    db: &D,
    table: usize,
    id: u64,
    column: usize,
) -> Result<ValueRef<'_>, Refusal>
    ensures { MatchResult result (λ v. cursor.column_by (D.state db.now) table id column ≡ Ok (lent v))
        (λ e. cursor.column_by (D.state db.now) table id column ≡ Err e) }
{
    match record(db, table, id) {
        Ok(row) => match row.get(column) {
            Some(value) => Ok(value),
            None => Err(Refusal::Row),
        },
        Err(refusal) => Err(refusal),
    }
}

/// One column of a record, in numbers.
fn field<D: Sessions>(db: &D, table: usize, id: u64, column: usize) -> Field
    ensures { result ≡ field_of (cursor.column_by (D.state db.now) table id column) }
{
    match column_of(db, table, id, column) {
        Ok(value) => Field::of(value),
        Err(refusal) => Field::refused(refusal),
    }
}

/// The text of a column.
fn text_of<D: Sessions>(db: &D, table: usize, id: u64, column: usize) -> Result<&str, Refusal>
    ensures { MatchResult result (λ text. cursor.text_by (D.state db.now) table id column ≡ Ok text.now)
        (λ e. cursor.text_by (D.state db.now) table id column ≡ Err e) }
{
    match column_of(db, table, id, column) {
        Ok(ValueRef::Text(text)) => Ok(text),
        Ok(_) => Err(Refusal::Row),
        Err(refusal) => Err(refusal),
    }
}

/// The name of an index.
fn index_name(catalog: &Catalog, table: usize, index: usize) -> Result<&str, Refusal>
    ensures { MatchResult result (λ name. cursor.index_name_by catalog.now table index ≡ Ok name.now)
        (λ e. cursor.index_name_by catalog.now table index ≡ Err e) }
{
    let schema = schema_of(catalog, table)?;
    if index >= schema.index_count() {
        return Err(Refusal::Index);
    }
    Ok(schema.index_name(index))
}

/// Copies a text to the front of bytes where there is room for all of it, and tells its length or what is wanted.
pub(crate) fn copied(text: &[u8], bytes: &mut [u8]) -> CallResult
    ensures { IsCopiedIf (nat_le (length text.now) (length bytes.old)) text.now result bytes.old bytes.new }
{
    if text.len() > bytes.len() {
        return CallResult::wanting(1, text.len() as u64);
    }
    let (front, _) = bytes.split_at_mut(text.len());
    front.copy_from_slice(text);
    CallResult::accepted(text.len() as u64)
}

/// Copies the text of a column.
fn copy_text<D: Sessions>(
    db: &D,
    table: usize,
    id: u64,
    column: usize,
    bytes: &mut [u8],
) -> CallResult
    ensures { TellsText (cursor.text_by (D.state db.now) table id column) result bytes.old bytes.new }
{
    match text_of(db, table, id, column) {
        Ok(text) => copied(text.as_bytes(), bytes),
        Err(refusal) => CallResult::refused(refusal),
    }
}

/// A cursor is the id of a record of a table under an index, both named by their numbers. Where no id is answered there is none: the end.
impl Engine {
    /// The first id of an ordered or ranked index whose key isn't less than a key or the first values of one; with `beyond` the first whose key is
    /// greater. Refusals, in this order: `NoTable`, `Index`, `Kind` and `Key`. `Memory` may stand in the place of any answer where the key has a
    /// text or several values, and no memory is taken of another key.
    pub fn seek_id(
        &self,
        table: usize,
        index: usize,
        key: &[Cell],
        texts: &[u8],
        beyond: bool,
    ) -> Result<Option<u64>, Refusal>
        ensures { IsAnswerOf key.now result (cursor.seek_by self.now.held.database table index key.now texts.now beyond) }
    {
        seek(
            self.executor.database(),
            self.alloc,
            table,
            index,
            key,
            texts,
            beyond,
        )
    }

    /// The first id of a key, or in an ordered or ranked index of the first values of one. Refusals, in this order: `NoTable`, `Index`, `Kind` (a
    /// sequenced index) and `Key`; and `Memory` as of `seek_id`.
    pub fn find_id(
        &self,
        table: usize,
        index: usize,
        key: &[Cell],
        texts: &[u8],
    ) -> Result<Option<u64>, Refusal>
        ensures { IsAnswerOf key.now result (cursor.find_id_by self.now.held.database table index key.now texts.now) }
    {
        find_id(
            self.executor.database(),
            self.alloc,
            table,
            index,
            key,
            texts,
        )
    }

    /// The first id that an index shows. Refusals, in this order: `NoTable`, `Index` and `Kind` (a hashed index).
    pub fn first_id(&self, table: usize, index: usize) -> Result<Option<u64>, Refusal>
        ensures { result ≡ cursor.first_by self.now.held.database table index }
    {
        first(self.executor.database(), table, index)
    }

    /// The last id that an index shows. Refusals as of `first_id`.
    pub fn last_id(&self, table: usize, index: usize) -> Result<Option<u64>, Refusal>
        ensures { result ≡ cursor.last_by self.now.held.database table index }
    {
        last(self.executor.database(), table, index)
    }

    /// The id with n records before it in a ranked index. Refusals, in this order: `NoTable`, `Index` and `Kind`.
    pub fn id_at_rank(&self, table: usize, index: usize, n: u64) -> Result<Option<u64>, Refusal>
        ensures { result ≡ cursor.at_rank_by self.now.held.database table index n }
    {
        at_rank(self.executor.database(), table, index, n)
    }

    /// The id that an index shows directly behind another, or with `back` before it. Refusals, in this order: `NoTable`, `Index`, `Kind` (a
    /// hashed index) and `NoId` (the record is gone).
    pub fn step_id(
        &self,
        table: usize,
        index: usize,
        id: u64,
        back: bool,
    ) -> Result<Option<u64>, Refusal>
        ensures { result ≡ cursor.step_by self.now.held.database table index id back }
    {
        step(self.executor.database(), table, index, id, back)
    }

    /// The id itself, if its record is there. Refusals, in this order: `NoTable` and `NoId`.
    pub fn there(&self, table: usize, id: u64) -> Result<u64, Refusal>
        ensures { result ≡ cursor.there_by self.now.held.database table id }
    {
        there(self.executor.database(), table, id)
    }

    /// One column of a record: its kind, and its number where it is one. Refusals, in this order: `NoTable`, `NoId` and `Row` (no such column).
    pub fn field(&self, table: usize, id: u64, column: usize) -> Field
        ensures { result ≡ field_of (cursor.column_by self.now.held.database table id column) }
    {
        field(self.executor.database(), table, id, column)
    }

    /// Copies the text of a column to the front of bytes, and tells its length. Without room for all of it nothing is copied, and the length is
    /// told as wanted. Refusals, in this order: `NoTable`, `NoId` and `Row` (no such column, or no text); then the bytes stay.
    pub fn copy_text(&self, table: usize, id: u64, column: usize, bytes: &mut [u8]) -> CallResult
        ensures { TellsText (cursor.text_by self.now.held.database table id column) result bytes.old bytes.new }
    {
        copy_text(self.executor.database(), table, id, column, bytes)
    }

    /// Copies the name of an index as `copy_text` does a text. Refusals, in this order: `NoTable` and `Index`.
    pub fn copy_index_name(&self, table: usize, index: usize, bytes: &mut [u8]) -> CallResult
        ensures { TellsText (cursor.index_name_by self.now.held.database.catalog table index) result bytes.old bytes.new }
    {
        match index_name(self.executor.database().catalog(), table, index) {
            Ok(name) => copied(name.as_bytes(), bytes),
            Err(refusal) => CallResult::refused(refusal),
        }
    }
}
