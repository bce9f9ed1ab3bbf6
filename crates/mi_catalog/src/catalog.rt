//! The tables of a database, by number.
ghost use Rattle.std.specs.Prelude.{◌≡◌, IfOk};

use crate::schema::Schema;
use std::alloc::{AllocError, Global};
use std::marker::Model;

/// The schemas of a database's tables, 1 to 16 by number, no two of one name, and the revision that it opens with.
#[derive(Debug, Drop)]
pub struct Catalog {
    tables: Vec<Schema>,
    first_revision: u64,
}

impl Model for Catalog {
    ghost use Rattle.std.specs.Prelude.{IsTrue};
    ghost use Rattle.mi_catalog.specs.Shape.{CatalogShape};
    ghost use Rattle.mi_catalog.specs.Rules.{is_catalog};

    ghost Value = { CatalogShape };

    ghost view = { λ a. record { tables = a.tables.items; first_revision = a.first_revision } };

    ghost invariant = { λ a. IsTrue (is_catalog (record { tables = a.tables.items; first_revision = a.first_revision })) };
}

/// The same schemas.
fn copy_tables(alloc: Global, tables: &[Schema]) -> Result<Vec<Schema>, AllocError>
    ensures { IfOk result (λ copied. copied.items ≡ tables.now) }
{
    let mut copied = Vec::new(alloc);
    for table in tables {
        copied.push(table.copy(alloc)?)?;
    }
    Ok(copied)
}

impl Catalog {
    ghost use Rattle.std.specs.Prelude.{◌≡◌, ◌<◌, ◌≤◌, [], ◌∷◌, length, IfOk, IsTrue};
    ghost use Rattle.mi_value.specs.declared.limits.TheConstants.{LAST_COUNT};
    ghost use Rattle.mi_catalog.specs.Shape.{schema_at, find_table};
    ghost use Rattle.mi_catalog.specs.Rules.{is_catalog};

    /// The catalog of these tables, which keep the rules together. Takes no memory.
    pub fn new(tables: Vec<Schema>, first_revision: u64) -> Catalog
        requires { IsTrue (is_catalog (record { tables = tables.items; first_revision = first_revision })) }
        ensures { result ≡ record { tables = tables.items; first_revision = first_revision } }
    {
        Catalog {
            tables,
            first_revision,
        }
    }

    /// The catalog of one table, which opens with the schema's first revision.
    pub fn of(alloc: Global, schema: Schema) -> Result<Catalog, AllocError>
        ensures { IfOk result (λ c. c ≡ record { tables = schema ∷ []; first_revision = schema.first_revision }) }
    {
        schema.keeps_rules();
        let first_revision = schema.first_revision();
        let mut tables = Vec::new(alloc);
        tables.push(schema)?;
        Ok(Catalog {
            tables,
            first_revision,
        })
    }

    /// The schema of table 0. Takes no memory.
    pub fn into_first(self) -> Schema
        ensures { result ≡ schema_at self 0 }
    {
        let mut tables = self.tables;
        tables.swap_remove(0)
    }

    /// States that the catalog keeps every rule, for callers that need one of them. It does nothing.
    pub fn keeps_rules(&self)
        ensures { IsTrue (is_catalog self.now) }
    {
        let _ = &self.tables;
    }

    /// An equal catalog.
    pub fn copy(&self, alloc: Global) -> Result<Catalog, AllocError>
        ensures { IfOk result (λ copied. copied ≡ self.now) }
    {
        Ok(Catalog {
            tables: copy_tables(alloc, self.tables.as_slice())?,
            first_revision: self.first_revision,
        })
    }

    /// How many tables there are: 1 to 16.
    pub fn table_count(&self) -> usize
        ensures { result ≡ length self.now.tables }
    {
        self.tables.len()
    }

    /// The schema of table i.
    pub fn table(&self, i: usize) -> &Schema
        requires { i < length self.now.tables }
        ensures { result.now ≡ schema_at self.now i }
    {
        &self.tables[i]
    }

    /// The number of the table of this name, or none.
    pub fn find_table(&self, name: &str) -> Option<usize>
        ensures { result ≡ find_table self.now name.now }
    {
        self.tables.iter().position(|s| s.table_name() == name)
    }

    /// The revision that the database opens with: 0 to 2^63 - 1.
    pub fn first_revision(&self) -> u64
        ensures value { result ≡ self.now.first_revision }
        ensures within { result ≤ LAST_COUNT }
    {
        self.first_revision
    }
}
