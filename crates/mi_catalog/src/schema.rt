//! The schema of one table.
use crate::index::{Column, Index, IndexKind, copy_columns, copy_indexes};
use mi_value::{KeyPart, Text};
use std::alloc::{AllocError, Global};
use std::marker::Model;

/// A table's schema: its name, columns, indexes in schema order (index 0 is `id`), first counters and most rows.
/// It keeps every rule of a schema.
#[derive(Debug, Drop)]
pub struct Schema {
    name: Text,
    columns: Vec<Column>,
    indexes: Vec<Index>,
    first_id: u64,
    first_arrival: u64,
    first_revision: u64,
    max_rows: u64,
}

impl Model for Schema {
    ghost use Rattle.std.specs.Prelude.{IsTrue};
    ghost use Rattle.mi_catalog.specs.Shape.{Shape};
    ghost use Rattle.mi_catalog.specs.Rules.{is_schema};

    ghost Value = { Shape };

    ghost view = { λ a. record {
      table_name = a.name;
      columns = a.columns.items;
      indexes = a.indexes.items;
      first_id = a.first_id;
      first_arrival = a.first_arrival;
      first_revision = a.first_revision;
      max_rows = a.max_rows;
    } };

    ghost invariant = { λ a. IsTrue (is_schema
        (record {
          table_name = a.name;
          columns = a.columns.items;
          indexes = a.indexes.items;
          first_id = a.first_id;
          first_arrival = a.first_arrival;
          first_revision = a.first_revision;
          max_rows = a.max_rows;
        })) };
}

/// The first counters of a table and the most rows that it takes.
#[derive(Clone, Copy, Debug)]
pub struct Counts {
    pub first_id: u64,
    pub first_arrival: u64,
    pub first_revision: u64,
    pub max_rows: u64,
}

impl Schema {
    ghost use Rattle.std.specs.Prelude.{◌≡◌, ◌<◌, ◌≤◌, IfOk, IsTrue, length};
    ghost use Rattle.mi_value.specs.declared.limits.TheConstants.{MAX_NAME, MAX_ROWS, LAST_COUNT};
    ghost use Rattle.mi_catalog.specs.Rules.{is_schema};
    ghost use Rattle.mi_catalog.specs.Shape.{find_column, find_index, index_at};

    /// The schema of these parts, which keep the rules. Takes no memory.
    pub fn new(name: Text, columns: Vec<Column>, indexes: Vec<Index>, counts: Counts) -> Schema
        requires { IsTrue (is_schema (record {
          table_name = name;
          columns = columns.items;
          indexes = indexes.items;
          first_id = counts.first_id;
          first_arrival = counts.first_arrival;
          first_revision = counts.first_revision;
          max_rows = counts.max_rows;
        })) }
        ensures { result ≡ record {
          table_name = name;
          columns = columns.items;
          indexes = indexes.items;
          first_id = counts.first_id;
          first_arrival = counts.first_arrival;
          first_revision = counts.first_revision;
          max_rows = counts.max_rows;
        } }
    {
        Schema {
            name,
            columns,
            indexes,
            first_id: counts.first_id,
            first_arrival: counts.first_arrival,
            first_revision: counts.first_revision,
            max_rows: counts.max_rows,
        }
    }

    /// States that the schema keeps every rule, for callers that need one of them. It does nothing.
    pub fn keeps_rules(&self)
        ensures { IsTrue (is_schema self.now) }
    {
        let _ = &self.name;
    }

    /// An equal schema.
    pub fn copy(&self, alloc: Global) -> Result<Schema, AllocError>
        ensures { IfOk result (λ copied. copied ≡ self.now) }
    {
        Ok(Schema {
            name: self.name.copy(alloc)?,
            columns: copy_columns(alloc, self.columns.as_slice())?,
            indexes: copy_indexes(alloc, self.indexes.as_slice())?,
            first_id: self.first_id,
            first_arrival: self.first_arrival,
            first_revision: self.first_revision,
            max_rows: self.max_rows,
        })
    }

    /// The table's name: 1 to 32 bytes.
    pub fn table_name(&self) -> &str
        ensures { result.now ≡ self.now.table_name }
    {
        self.name.as_str()
    }

    /// The columns in order: 1 to 16, no two of one name.
    pub fn columns(&self) -> &[Column]
        ensures { result.now ≡ self.now.columns }
    {
        self.columns.as_slice()
    }

    /// The indexes in schema order: `id`, then up to 15 declared ones, no two of one name.
    pub fn indexes(&self) -> &[Index]
        ensures { result.now ≡ self.now.indexes }
    {
        self.indexes.as_slice()
    }

    /// Index i.
    pub fn index(&self, i: usize) -> &Index
        requires { i < length self.now.indexes }
        ensures { result.now ≡ index_at self.now i }
    {
        &self.indexes[i]
    }

    /// How many indexes there are, `id` among them: 1 to 16.
    pub fn index_count(&self) -> usize
        ensures { result ≡ length self.now.indexes }
    {
        self.indexes.len()
    }

    /// The name of index i: 1 to 32 bytes.
    pub fn index_name(&self, i: usize) -> &str
        requires { i < length self.now.indexes }
        ensures name { result.now ≡ (index_at self.now i).name }
        ensures short { length result.now ≤ MAX_NAME }
    {
        self.indexes[i].name.as_str()
    }

    /// The kind of index i.
    pub fn kind(&self, i: usize) -> IndexKind
        requires { i < length self.now.indexes }
        ensures { result ≡ (index_at self.now i).kind }
    {
        self.indexes[i].kind
    }

    /// Whether index i holds each key once.
    pub fn unique(&self, i: usize) -> bool
        requires { i < length self.now.indexes }
        ensures { result ≡ (index_at self.now i).«unique» }
    {
        self.indexes[i].unique
    }

    /// The parts of the key of index i; none for `id` and for a sequenced index.
    pub fn parts(&self, i: usize) -> &[KeyPart]
        requires { i < length self.now.indexes }
        ensures { result.now ≡ (index_at self.now i).parts }
    {
        self.indexes[i].parts.as_slice()
    }

    /// The number of the index of this name, or none.
    pub fn find_index(&self, name: &str) -> Option<usize>
        ensures { result ≡ find_index self.now name.now }
    {
        self.indexes.iter().position(|i| i.name.as_str() == name)
    }

    /// The number of the column of this name, or none.
    pub fn find_column(&self, name: &str) -> Option<usize>
        ensures { result ≡ find_column self.now name.now }
    {
        self.columns.iter().position(|c| c.name.as_str() == name)
    }

    /// The first id: 0 to 2^63 - 1.
    pub fn first_id(&self) -> u64
        ensures value { result ≡ self.now.first_id }
        ensures within { result ≤ LAST_COUNT }
    {
        self.first_id
    }

    /// The first count of arrivals: 0 to 2^63 - 1.
    pub fn first_arrival(&self) -> u64
        ensures value { result ≡ self.now.first_arrival }
        ensures within { result ≤ LAST_COUNT }
    {
        self.first_arrival
    }

    /// The revision that a database of this table opens with: 0 to 2^63 - 1.
    pub fn first_revision(&self) -> u64
        ensures value { result ≡ self.now.first_revision }
        ensures within { result ≤ LAST_COUNT }
    {
        self.first_revision
    }

    /// The most rows that the table takes: 1 to 2^24.
    pub fn max_rows(&self) -> u64
        ensures value { result ≡ self.now.max_rows }
        ensures within { result ≤ MAX_ROWS }
        ensures some { 0 < result }
    {
        self.max_rows
    }
}
