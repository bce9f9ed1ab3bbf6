//! The tables of a catalog under another catalog.
//! It reads both catalogs and the tables, and takes memory for the new ones.
ghost use Rattle.std.specs.Prelude.{◌≡◌, [], None, Some, IfOk, IfErr, OnOk, ℕ, Err, length, map};
ghost use Rattle.std.specs.List.{AllByRecursion};
ghost use Rattle.mi_container.specs.Restore.{image_table};
ghost use Rattle.mi_model.specs.Table.{opened};
ghost use Rattle.mi_reshape.specs.Catalogs as meaning;

use crate::fault::{CatalogFault, ReshapeFault};
use crate::reshape::put_under;
use mi_catalog::{Catalog, Index, Schema};
use mi_container::TableImage;
use std::alloc::{AllocError, Global};

/// An empty list for each index.
fn empty_lists(alloc: Global, indexes: &[Index]) -> Result<Vec<Vec<u64>>, AllocError>
    ensures { IfOk result (λ made. map (λ l. l.items) made.items ≡ map (λ _. []) indexes.now) }
{
    let mut made = Vec::new(alloc);
    for _index in indexes {
        made.push(Vec::new(alloc))?;
    }
    Ok(made)
}

/// The table that a schema opens with.
fn opened_image(alloc: Global, schema: &Schema) -> Result<TableImage, AllocError>
    ensures { IfOk result (λ made. image_table made ≡ opened schema.now) }
{
    Ok(TableImage {
        rows: Vec::new(alloc),
        lists: empty_lists(alloc, schema.indexes())?,
        next: schema.first_id(),
        arrivals: schema.first_arrival(),
    })
}

/// The table of a new schema: the old one of its name, or if there is none as the schema opens.
fn put_one(
    alloc: Global,
    from: &Catalog,
    to: &Schema,
    images: &[TableImage],
) -> Result<TableImage, ReshapeFault>
    requires { length images.now ≡ length from.now.tables }
    ensures table { IfOk result (λ made. image_table made ≡ meaning.table_under from.now (map image_table images.now) to.now) }
    ensures types { OnOk result (meaning.other_column from.now to.now ≡ None) }
    ensures fault { (c : ℕ) → result ≡ Err (ReshapeFault.Column c) → meaning.other_column from.now to.now ≡ Some c }
{
    match from.find_table(to.table_name()) {
        Some(number) => put_under(alloc, from.table(number), to, &images[number]),
        None => Ok(opened_image(alloc, to)?),
    }
}

/// The fault of a table of the new catalog.
fn fault_of(table: usize, fault: ReshapeFault) -> CatalogFault
    ensures column { (c : ℕ) → fault ≡ ReshapeFault.Column c → result ≡ CatalogFault.Column table c }
    ensures memory { fault ≡ ReshapeFault.Memory → result ≡ CatalogFault.Memory }
{
    match fault {
        ReshapeFault::Column(column) => CatalogFault::Column { table, column },
        ReshapeFault::Memory => CatalogFault::Memory,
    }
}

/// The tables of catalog `from`, one image each by their numbers, put under catalog `to`: one image for each table of `to`, by its number.
///
/// Tables go by name. One that both catalogs have is put under its new schema as by `reshaped`. One that only `to` has is empty: its
/// next id and its count of arrivals are its schema's first ones. One that only `from` has is left out.
///
/// Refusals: `Column` of a table's first column that has another type in the old table, and `Memory`. Then nothing is left of the tables.
pub fn reshaped_all(
    alloc: Global,
    from: &Catalog,
    to: &Catalog,
    images: Vec<TableImage>,
) -> Result<Vec<TableImage>, CatalogFault>
    requires { length images.items ≡ length from.now.tables }
    ensures tables { IfOk result (λ made. map image_table made.items ≡ meaning.tables_under from.now to.now (map image_table images.items)) }
    ensures types { OnOk result (AllByRecursion (λ s. meaning.other_column from.now s ≡ None) to.now.tables) }
    ensures fits { IfOk result (λ made. meaning.TablesFit from.now (map image_table images.items) → meaning.TablesFit to.now (map image_table made.items)) }
    ensures holds { IfOk result (λ made. meaning.TablesHold from.now (map image_table images.items) → meaning.TablesHold to.now (map image_table made.items)) }
    ensures fault { IfErr result (λ e. meaning.IsCatalogFault from.now to.now e) }
{
    put_all(alloc, from, to, images.as_slice())
}

/// As `reshaped_all`, of images that are lent.
fn put_all(
    alloc: Global,
    from: &Catalog,
    to: &Catalog,
    images: &[TableImage],
) -> Result<Vec<TableImage>, CatalogFault>
    requires { length images.now ≡ length from.now.tables }
    ensures tables { IfOk result (λ made. map image_table made.items ≡ meaning.tables_under from.now to.now (map image_table images.now)) }
    ensures types { OnOk result (AllByRecursion (λ s. meaning.other_column from.now s ≡ None) to.now.tables) }
    ensures fault { IfErr result (λ e. meaning.IsCatalogFault from.now to.now e) }
{
    let mut made = Vec::new(alloc);
    for table in 0..to.table_count() {
        match put_one(alloc, from, to.table(table), images) {
            Ok(image) => {
                if made.push(image).is_err() {
                    return Err(CatalogFault::Memory);
                }
            }
            Err(fault) => return Err(fault_of(table, fault)),
        }
    }
    Ok(made)
}
