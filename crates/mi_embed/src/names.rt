//! Tables, indexes and columns by their names: the numbers that calls name them by; and the text that names them all. It changes nothing and
//! takes no memory.
ghost use Rattle.std.specs.Prelude.{◌≡◌, MatchOption, Ok};
ghost use Rattle.std.specs.Option.{ok_or};
ghost use Rattle.std.specs.Str.{IsUtf8};
ghost use Rattle.mi_catalog.specs.Shape as shape;
ghost use Rattle.mi_embed.specs.Named as meaning;
ghost use Rattle.mi_embed.specs.Named.{by_name};
ghost use Rattle.mi_embed.specs.Cursors.{TellsText};

use crate::arguments::schema_of;
use crate::call_result::CallResult;
use crate::cursors::copied;
use crate::engine::Engine;
use mi_catalog::{Catalog, Schema};
use mi_sessions::Sessions;
use mi_value::Refusal;

/// These bytes as a name, where they are a text.
fn as_name(bytes: &[u8]) -> Option<&str>
    ensures { MatchOption result (¬ IsUtf8 bytes.now) (λ name. IsUtf8 bytes.now × (name.now ≡ bytes.now)) }
{
    match str::from_utf8(bytes) {
        Ok(name) => Some(name),
        Err(_) => None,
    }
}

/// The number of the table of this name.
fn table_in(catalog: &Catalog, name: &[u8]) -> Option<usize>
    ensures { result ≡ by_name (shape.find_table catalog.now) name.now }
{
    match as_name(name) {
        Some(name) => catalog.find_table(name),
        None => None,
    }
}

/// The number of the index of this name.
fn index_in(schema: &Schema, name: &[u8]) -> Option<usize>
    ensures { result ≡ by_name (shape.find_index schema.now) name.now }
{
    match as_name(name) {
        Some(name) => schema.find_index(name),
        None => None,
    }
}

/// The number of the column of this name.
fn column_in(schema: &Schema, name: &[u8]) -> Option<usize>
    ensures { result ≡ by_name (shape.find_column schema.now) name.now }
{
    match as_name(name) {
        Some(name) => schema.find_column(name),
        None => None,
    }
}

/// The number that was found, or this refusal.
fn number(found: Option<usize>, refusal: Refusal) -> Result<u64, Refusal>
    ensures { result ≡ ok_or found refusal }
{
    match found {
        Some(number) => Ok(number as u64),
        None => Err(refusal),
    }
}

impl Engine {
    /// The number of the table of this name. Refusal: `NoTable`.
    pub fn table_named(&self, name: &[u8]) -> Result<u64, Refusal>
        ensures { result ≡ meaning.table_named self.now.held name.now }
    {
        number(
            table_in(self.executor.database().catalog(), name),
            Refusal::NoTable,
        )
    }

    /// The number of the index of this name. Refusals, in this order: `NoTable` and `Index`.
    pub fn index_named(&self, table: usize, name: &[u8]) -> Result<u64, Refusal>
        ensures { result ≡ meaning.index_named self.now.held table name.now }
    {
        let schema = schema_of(self.executor.database().catalog(), table)?;
        number(index_in(schema, name), Refusal::Index)
    }

    /// The number of the column of this name. Refusals, in this order: `NoTable` and `Row`.
    pub fn column_named(&self, table: usize, name: &[u8]) -> Result<u64, Refusal>
        ensures { result ≡ meaning.column_named self.now.held table name.now }
    {
        let schema = schema_of(self.executor.database().catalog(), table)?;
        number(column_in(schema, name), Refusal::Row)
    }

    /// Copies the text of the schema to the front of bytes where there is room for all of it, and tells its length. Without room it tells what is
    /// wanted, and the bytes stay.
    pub fn copy_schema(&self, bytes: &mut [u8]) -> CallResult
        ensures { TellsText (Ok self.now.schema) result bytes.old bytes.new }
    {
        copied(self.schema(), bytes)
    }
}
