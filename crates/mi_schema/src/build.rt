//! From a draft that no check refuses to schemas and a catalog. It copies what the draft says.
ghost use Rattle.std.specs.Prelude.{◌≡◌, ◌∷◌, map, IfOk, IsTrue};
ghost use Rattle.std.specs.List.{list_all};
ghost use Rattle.mi_schema.specs.Reading as reading;
ghost use Rattle.mi_schema.specs.Reading.{shape_from};
ghost use Rattle.mi_catalog.specs.Rules.{is_schema};

use crate::checks::{descends, entry_column, type_of};
use crate::draft::{Draft, DraftColumn, DraftIndex, DraftTable};
use mi_catalog::{Catalog, Column, Counts, Index, IndexKind, Parts, Schema};
use mi_value::{ColumnType, KeyPart, Text};
use std::alloc::{AllocError, Global};

fn column_of(alloc: Global, column: &DraftColumn) -> Result<Column, AllocError>
    ensures { IfOk result (λ c. c ≡ reading.column_from column.now) }
{
    Ok(Column {
        name: column.name.copy(alloc)?,
        kind: type_of(column.kind.as_str()).unwrap_or(ColumnType::Int),
    })
}

fn columns_of(alloc: Global, columns: &[DraftColumn]) -> Result<Vec<Column>, AllocError>
    ensures { IfOk result (λ cs. cs.items ≡ map reading.column_from columns.now) }
{
    let mut made = Vec::new(alloc);
    for column in columns {
        made.push(column_of(alloc, column)?)?;
    }
    Ok(made)
}

fn part_of(columns: &[DraftColumn], entry: &str) -> KeyPart
    ensures { result ≡ reading.part_from columns.now entry.now }
{
    KeyPart {
        column: entry_column(columns, entry),
        descending: descends(entry),
    }
}

fn parts_of(
    alloc: Global,
    columns: &[DraftColumn],
    entries: &[Text],
) -> Result<Vec<KeyPart>, AllocError>
    ensures { IfOk result (λ ps. ps.items ≡ map (reading.part_from columns.now) entries.now) }
{
    entries
        .iter()
        .map(|entry| part_of(columns, entry.as_str()))
        .collect(alloc)
}

fn index_of(alloc: Global, columns: &[DraftColumn], index: &DraftIndex) -> Result<Index, AllocError>
    ensures { IfOk result (λ i. i ≡ reading.index_from columns.now index.now) }
{
    Ok(Index {
        name: index.name.copy(alloc)?,
        kind: index.kind(),
        unique: index.unique,
        parts: Parts::new(parts_of(alloc, columns, index.entries())?),
    })
}

/// The index `id`, which stands before the declared ones.
fn id_index(alloc: Global) -> Result<Index, AllocError>
    ensures { IfOk result (λ i. i ≡ reading.id_index) }
{
    Ok(Index {
        name: Text::of(alloc, "id")?,
        kind: IndexKind::Ranked,
        unique: true,
        parts: Parts::new(Vec::new(alloc)),
    })
}

fn indexes_of(
    alloc: Global,
    columns: &[DraftColumn],
    indexes: &[DraftIndex],
) -> Result<Vec<Index>, AllocError>
    ensures { IfOk result (λ is. is.items ≡ reading.id_index ∷ map (reading.index_from columns.now) indexes.now) }
{
    let mut made = Vec::new(alloc);
    made.push(id_index(alloc)?)?;
    for index in indexes {
        made.push(index_of(alloc, columns, index)?)?;
    }
    Ok(made)
}

fn schema_of(alloc: Global, first_revision: u64, table: &DraftTable) -> Result<Schema, AllocError>
    requires { IsTrue (is_schema (shape_from first_revision table.now)) }
    ensures { IfOk result (λ s. s ≡ shape_from first_revision table.now) }
{
    let columns = table.columns.as_slice();
    Ok(Schema::new(
        table.name.copy(alloc)?,
        columns_of(alloc, columns)?,
        indexes_of(alloc, columns, table.indexes.as_slice())?,
        Counts {
            first_id: table.first_id.unsigned_abs(),
            first_arrival: table.first_arrival.unsigned_abs(),
            first_revision,
            max_rows: table.max_rows.unsigned_abs(),
        },
    ))
}

fn schemas_of(
    alloc: Global,
    first_revision: u64,
    tables: &[DraftTable],
) -> Result<Vec<Schema>, AllocError>
    requires { IsTrue (list_all (λ t. is_schema (shape_from first_revision t)) tables.now) }
    ensures { IfOk result (λ ss. ss.items ≡ map (shape_from first_revision) tables.now) }
{
    let mut made = Vec::new(alloc);
    for table in tables {
        made.push(schema_of(alloc, first_revision, table)?)?;
    }
    Ok(made)
}

impl Draft {
    ghost use Rattle.std.specs.Prelude.{◌≡◌, None, IfOk};
    ghost use Rattle.mi_schema.specs.Checks.{fault_of};
    ghost use Rattle.mi_schema.specs.Reading.{catalog_from};

    /// The catalog that a draft describes, which no check refuses.
    pub(crate) fn catalog(&self, alloc: Global) -> Result<Catalog, AllocError>
        requires { fault_of self.now ≡ None }
        ensures { IfOk result (λ c. c ≡ catalog_from self.now) }
    {
        let first_revision = self.first_revision.unsigned_abs();
        let tables = schemas_of(alloc, first_revision, self.tables.as_slice())?;
        Ok(Catalog::new(tables, first_revision))
    }
}
