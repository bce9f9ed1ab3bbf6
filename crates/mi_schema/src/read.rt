//! From the text of a document to a schema or a catalog.
ghost use Rattle.std.specs.Prelude.{◌≡◌, ◌⊎◌, IfErr, Some, None, IfOk};
ghost use Rattle.toml.specs.View.{table_view};
ghost use Rattle.mi_schema.specs.Checks.{fault_of};
ghost use Rattle.mi_schema.specs.Reading as reading;
ghost use Rattle.mi_schema.specs.Reading.{IsSchemaAnswer, misread_fault, catalog_read, schema_read};
ghost use Rattle.mi_schema.specs.declared.fault.SchemaFault.TheVariants as fault;

use crate::document::{Misread, catalog_draft, schema_draft};
use crate::draft::Draft;
use crate::fault::SchemaFault;
use mi_catalog::{Catalog, Schema};
use std::alloc::Global;
use toml::Table;

impl From<Misread> for SchemaFault {
    ghost from_gives = { λ misread e. e ≡ misread_fault misread };

    fn from(misread: Misread) -> SchemaFault {
        match misread {
            Misread::Shape => SchemaFault::Shape,
            Misread::Memory => SchemaFault::Memory,
        }
    }
}

/// The document that a text is. The fault is `Toml` or `Memory`.
fn document(alloc: Global, text: &[u8]) -> Result<Table, SchemaFault>
    ensures ok { IfOk result (λ t. reading.document text.now ≡ Some (table_view t)) }
    ensures err { IfErr result (λ e. (e ≡ fault.Memory) ⊎ ((e ≡ fault.Toml) × (reading.document text.now ≡ None))) }
{
    match toml::table_from_slice(alloc, text) {
        Ok(table) => Ok(table),
        Err(e) => {
            if e.is_memory() {
                Err(SchemaFault::Memory)
            } else {
                Err(SchemaFault::Toml)
            }
        }
    }
}

/// The catalog of a draft, or the fault of the first check that fails.
fn checked(alloc: Global, draft: &Draft) -> Result<Catalog, SchemaFault>
    ensures { IsSchemaAnswer result (reading.checked draft.now (fault_of draft.now)) }
{
    if let Some(fault) = draft.fault() {
        return Err(fault);
    }
    Ok(draft.catalog(alloc)?)
}

/// The catalog that a text describes: in format 1, which is meant where none is named, of one table, in format 2 of 1 to 16.
///
/// The fault is that of the first check that fails over the whole text, in the order of `SchemaFault`, or `Memory`.
pub fn read_catalog(alloc: Global, text: &[u8]) -> Result<Catalog, SchemaFault>
    ensures { IsSchemaAnswer result (catalog_read text.now) }
{
    let members = document(alloc, text)?;
    let draft = catalog_draft(alloc, &members)?;
    checked(alloc, &draft)
}

/// The schema that a text describes, which has one table. It knows no `format`.
///
/// The fault is that of the first check that fails over the whole text, in the order of `SchemaFault`, or `Memory`.
pub fn read_schema(alloc: Global, text: &[u8]) -> Result<Schema, SchemaFault>
    ensures { IsSchemaAnswer result (schema_read text.now) }
{
    let members = document(alloc, text)?;
    let draft = schema_draft(alloc, &members)?;
    let catalog = checked(alloc, &draft)?;
    Ok(catalog.into_first())
}
