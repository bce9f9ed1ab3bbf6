//! The labels of the rows of a catalog's tables, made once and kept beside the catalog. It shows no row.
ghost use Rattle.std.specs.Prelude.{◌≡◌, map, IfOk};
ghost use Rattle.mi_catalog.specs.Shape.{CatalogShape, schema_at};
ghost use Rattle.mi_protocol.specs.Labels.{AreLabelsOf};

use mi_catalog::Catalog;
use mi_rows::RowLabels;
use std::alloc::{AllocError, Global};
use std::marker::Model;

/// The labels of the rows of a catalog's tables, by their numbers, or none. A reply is put with the labels of its own catalog or with none,
/// so it compares nothing.
#[derive(Drop)]
pub struct ReplyLabels {
    tables: Vec<RowLabels>,
}

impl Model for ReplyLabels {
    ghost use Rattle.std.specs.Prelude.{List};
    ghost use Rattle.mi_catalog.specs.declared.index.Column.{Column as ColumnSpec};

    ghost Value = { List (List ColumnSpec) };

    ghost view = { λ a. a.tables.items };
}

/// The labels of the tables of a catalog.
fn labels_of(alloc: Global, catalog: &Catalog) -> Result<Vec<RowLabels>, AllocError>
    ensures { IfOk result (λ labels. labels.items ≡ map (λ s. s.columns) catalog.now.tables) }
{
    let count = catalog.table_count();
    let mut labels = Vec::with_capacity(alloc, count)?;
    'tables: for table in 0..count {
        let schema = catalog.table(table);
        schema.keeps_rules();
        labels.push(RowLabels::of(alloc, schema.columns())?)?;
    }
    Ok(labels)
}

impl ReplyLabels {
    ghost use Rattle.std.specs.Prelude.{◌≡◌, ◌↔◌, [], true, map, IfOk, IfSome};

    /// The labels of no table. It takes no memory.
    pub fn none(alloc: Global) -> ReplyLabels
        ensures { result ≡ [] }
    {
        ReplyLabels {
            tables: Vec::new(alloc),
        }
    }

    /// The labels of a catalog's tables.
    ///
    /// It errs where memory is refused.
    pub fn of(alloc: Global, catalog: &Catalog) -> Result<ReplyLabels, AllocError>
        ensures { IfOk result (λ labels. labels ≡ map (λ s. s.columns) catalog.now.tables) }
    {
        let tables = labels_of(alloc, catalog)?;
        Ok(ReplyLabels { tables })
    }

    /// Whether they are of no table.
    pub fn is_empty(&self) -> bool
        ensures { (result ≡ true) ↔ (self.now ≡ []) }
    {
        self.tables.is_empty()
    }

    /// The labels of a table's rows, if any were made. Where these labels are a catalog's, they are of its table's columns.
    pub(crate) fn of_table(&self, table: usize) -> Option<&RowLabels>
        ensures { (c : CatalogShape) → AreLabelsOf c self.now → IfSome result (λ labels. labels.now ≡ (schema_at c table).columns) }
    {
        self.tables.get(table)
    }
}
