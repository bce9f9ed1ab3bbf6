//! What tells one schema from another in a journal's header: a hash of what it means, in hexadecimal digits. Comments, the order of a
//! table's keys in the file and spaces don't count.
ghost use Rattle.std.specs.Prelude.{◌≡◌, ◌++◌, length, OnOk, IfOk};
ghost use Rattle.std.specs.String.{string_bytes};
ghost use Rattle.mi_recovery.specs.Fingerprint as spec;

use mi_catalog::{Catalog, Column, Index, IndexKind, Schema};
use mi_value::{ColumnType, KeyPart};
use sha2::{Digest, Sha256};
use std::alloc::{AllocError, Global};

/// A name, which has no newline.
fn add_name(text: &mut String, name: &str) -> Result<(), AllocError>
    ensures { OnOk result (string_bytes text.new ≡ string_bytes text.old ++ (spec.name_line name.now)) }
{
    text.push_str(name)?;
    text.push_str("\n")
}

/// A number.
fn add_number(alloc: Global, text: &mut String, number: u64) -> Result<(), AllocError>
    ensures { OnOk result (string_bytes text.new ≡ string_bytes text.old ++ (spec.number_line number)) }
{
    let digits = number.to_string(alloc)?;
    add_name(text, digits.as_str())
}

/// The word of a column's type.
fn type_word(kind: ColumnType) -> &'static str
    ensures { result.now ≡ spec.type_word kind }
{
    match kind {
        ColumnType::Int => "int",
        ColumnType::Text => "text",
        ColumnType::Flag => "flag",
    }
}

/// The word of an index's kind.
fn kind_word(kind: IndexKind) -> &'static str
    ensures { result.now ≡ spec.kind_word kind }
{
    match kind {
        IndexKind::Ordered => "ordered",
        IndexKind::Ranked => "ranked",
        IndexKind::Hashed => "hashed",
        IndexKind::Sequenced => "sequenced",
    }
}

/// A part of a key.
fn add_part(alloc: Global, text: &mut String, part: &KeyPart) -> Result<(), AllocError>
    ensures { OnOk result (string_bytes text.new ≡ string_bytes text.old ++ spec.part_text part.now) }
{
    add_number(alloc, text, part.column as u64)?;
    add_name(text, if part.descending { "down" } else { "up" })
}

/// The parts of a key.
fn add_parts(alloc: Global, text: &mut String, parts: &[KeyPart]) -> Result<(), AllocError>
    ensures { OnOk result (string_bytes text.new ≡ string_bytes text.old ++ spec.lines_of_all spec.part_text parts.now) }
{
    'parts: for part in parts {
        add_part(alloc, text, part)?;
    }
    Ok(())
}

/// An index and its parts.
fn add_index(alloc: Global, text: &mut String, index: &Index) -> Result<(), AllocError>
    ensures { OnOk result (string_bytes text.new ≡ string_bytes text.old ++ spec.index_text index.now) }
{
    add_name(text, index.name.as_str())?;
    add_name(text, kind_word(index.kind))?;
    add_name(text, if index.unique { "unique" } else { "many" })?;
    let parts = index.parts.as_slice();
    add_number(alloc, text, parts.len() as u64)?;
    add_parts(alloc, text, parts)
}

/// The indexes of a table.
fn add_indexes(alloc: Global, text: &mut String, indexes: &[Index]) -> Result<(), AllocError>
    ensures { OnOk result (string_bytes text.new ≡ string_bytes text.old ++ spec.lines_of_all spec.index_text indexes.now) }
{
    'indexes: for index in indexes {
        add_index(alloc, text, index)?;
    }
    Ok(())
}

/// A column.
fn add_column(text: &mut String, column: &Column) -> Result<(), AllocError>
    ensures { OnOk result (string_bytes text.new ≡ string_bytes text.old ++ spec.column_text column.now) }
{
    add_name(text, column.name.as_str())?;
    add_name(text, type_word(column.kind))
}

/// The columns of a table.
fn add_columns(text: &mut String, columns: &[Column]) -> Result<(), AllocError>
    ensures { OnOk result (string_bytes text.new ≡ string_bytes text.old ++ spec.lines_of_all spec.column_text columns.now) }
{
    'columns: for column in columns {
        add_column(text, column)?;
    }
    Ok(())
}

/// The name of a table, and its numbers.
fn add_numbers(alloc: Global, text: &mut String, schema: &Schema) -> Result<(), AllocError>
    ensures { OnOk result (string_bytes text.new ≡ string_bytes text.old ++ spec.numbers_text schema.now) }
{
    add_name(text, schema.table_name())?;
    add_number(alloc, text, schema.first_id())?;
    add_number(alloc, text, schema.first_arrival())?;
    add_number(alloc, text, schema.max_rows())
}

/// A table.
fn add_table(alloc: Global, text: &mut String, schema: &Schema) -> Result<(), AllocError>
    ensures { OnOk result (string_bytes text.new ≡ string_bytes text.old ++ spec.schema_text schema.now) }
{
    add_numbers(alloc, text, schema)?;
    let columns = schema.columns();
    add_number(alloc, text, columns.len() as u64)?;
    add_columns(text, columns)?;
    let indexes = schema.indexes();
    add_number(alloc, text, indexes.len() as u64)?;
    add_indexes(alloc, text, indexes)
}

/// The tables of a catalog.
fn add_tables(alloc: Global, text: &mut String, catalog: &Catalog) -> Result<(), AllocError>
    ensures { OnOk result (string_bytes text.new ≡ string_bytes text.old ++ spec.lines_of_all spec.schema_text catalog.now.tables) }
{
    'tables: for i in 0..catalog.table_count() {
        add_table(alloc, text, catalog.table(i))?;
    }
    Ok(())
}

/// What tells this catalog from others: the SHA-256 of its tables, columns, indexes, first counters and limits, as 64 hexadecimal digits.
pub fn fingerprint(alloc: Global, catalog: &Catalog) -> Result<String, AllocError>
    ensures { IfOk result (λ hash. string_bytes hash ≡ spec.schema_hash catalog.now) }
{
    let mut text = String::new(alloc);
    add_number(alloc, &mut text, catalog.first_revision())?;
    add_tables(alloc, &mut text, catalog)?;
    hex::encode(alloc, Sha256::digest(text.as_bytes()))
}
