//! What is dropped when a catalog's tables are put under another catalog.
//! It reads both catalogs, and takes memory for its answer alone.
ghost use Rattle.std.specs.Prelude.{◌≡◌, ◌<◌, [], ◌∷◌, ◌++◌, length, cond, is_some, IfOk, OnOk};
ghost use Rattle.mi_catalog.specs.Shape.{find_column};
ghost use Rattle.mi_reshape.specs.Catalogs as meaning;

use mi_catalog::{Catalog, Column, Schema};
use std::alloc::{AllocError, Global};

/// A table, or one of its columns, by their numbers in the old catalog.
#[derive(Clone, Copy, Debug, PartialEq, Eq)]
pub struct DroppedPart {
    pub table: usize,
    /// The column; none where the whole table is dropped.
    pub column: Option<usize>,
}

/// Adds a column unless its new schema has its name. On an error nothing is said of what is there.
fn add_column(
    made: &mut Vec<DroppedPart>,
    part: DroppedPart,
    column: &Column,
    to: &Schema,
) -> Result<(), AllocError>
    ensures { OnOk result (made.new.items ≡ made.old.items ++ cond (is_some (find_column to.now column.now.name)) [] (part ∷ [])) }
{
    if to.find_column(column.name.as_str()).is_none() {
        made.push(part)?;
    }
    Ok(())
}

/// Adds the columns of table `table` whose names its new schema hasn't. On an error nothing is said of what is there.
fn add_columns(
    made: &mut Vec<DroppedPart>,
    table: usize,
    from: &Schema,
    to: &Schema,
) -> Result<(), AllocError>
    ensures { OnOk result (made.new.items ≡ made.old.items ++ meaning.lost_columns table from.now to.now) }
{
    let columns = from.columns();
    for number in 0..columns.len() {
        let part = DroppedPart {
            table,
            column: Some(number),
        };
        add_column(made, part, &columns[number], to)?;
    }
    Ok(())
}

/// Adds what is dropped of table `table`. On an error nothing is said of what is there.
fn add_table(
    made: &mut Vec<DroppedPart>,
    from: &Catalog,
    to: &Catalog,
    table: usize,
) -> Result<(), AllocError>
    requires { table < length from.now.tables }
    ensures { OnOk result (made.new.items ≡ made.old.items ++ meaning.lost_of from.now to.now table) }
{
    let old = from.table(table);
    match to.find_table(old.table_name()) {
        Some(number) => add_columns(made, table, old, to.table(number)),
        None => {
            made.push(DroppedPart {
                table,
                column: None,
            })?;
            Ok(())
        }
    }
}

/// What `reshaped_all` drops: the tables of `from` whose names `to` hasn't, and of the others the columns whose names the new
/// table hasn't. They stand by their rising numbers. It doesn't say whether `reshaped_all` refuses.
///
/// Answers `AllocError` where memory is refused.
pub fn dropped(alloc: Global, from: &Catalog, to: &Catalog) -> Result<Vec<DroppedPart>, AllocError>
    ensures { IfOk result (λ made. made.items ≡ meaning.lost from.now to.now) }
{
    let mut made = Vec::new(alloc);
    for table in 0..from.table_count() {
        add_table(&mut made, from, to, table)?;
    }
    Ok(made)
}
