//! A table under another schema.
//! It reads both schemas and the table, and takes memory for the new one.
ghost use Rattle.std.specs.Prelude.{◌≡◌, None, IfOk, IfErr, OnOk};
ghost use Rattle.mi_container.specs.Restore.{image_table};
ghost use Rattle.mi_model.specs.Table.{IsTable};
ghost use Rattle.mi_reshape.specs.Reshaped as meaning;

use crate::columns::{other_type, put_rows, sources};
use crate::fault::ReshapeFault;
use crate::indexes::put_lists;
use mi_catalog::Schema;
use mi_container::TableImage;
use std::alloc::{AllocError, Global};

/// The table of an image under schema `to`. No column is refused.
fn put_table(
    alloc: Global,
    from: &Schema,
    to: &Schema,
    image: &TableImage,
) -> Result<TableImage, AllocError>
    ensures { IfOk result (λ made. image_table made ≡ meaning.reshaped_table from.now to.now (image_table image.now)) }
{
    let sources = sources(alloc, from, to)?;
    Ok(TableImage {
        rows: put_rows(alloc, sources.as_slice(), image.rows.as_slice())?,
        lists: put_lists(alloc, from, to, image)?,
        next: image.next,
        arrivals: image.arrivals,
    })
}

/// As `reshaped`, of an image that is lent.
pub(crate) fn put_under(
    alloc: Global,
    from: &Schema,
    to: &Schema,
    image: &TableImage,
) -> Result<TableImage, ReshapeFault>
    ensures table { IfOk result (λ made. image_table made ≡ meaning.reshaped_table from.now to.now (image_table image.now)) }
    ensures types { OnOk result (meaning.other_type from.now to.now ≡ None) }
    ensures fault { IfErr result (λ e. meaning.IsReshapeFault from.now to.now e) }
{
    if let Some(column) = other_type(from, to) {
        return Err(ReshapeFault::Column(column));
    }
    Ok(put_table(alloc, from, to, image)?)
}

/// The table of schema `from`, put under schema `to`. Its ids, its next id and its count of arrivals stay.
///
/// Columns go by name. A column that both schemas have keeps its values. One that only `to` has is 0, the empty text or false in
/// each row. One that only `from` has is left out.
///
/// An index keeps its list if `from` has one of its name, kind, uniqueness and parts, by the columns' names and directions. The
/// list of any other index has the ids of the rows in their order, which rise. Of an ordered, ranked or hashed index the list is the
/// order of rows of one key: so equals of a new index stand by their ids.
///
/// Refusals: `Column` of the first column of `to` that has another type in `from`, and `Memory`. Then nothing is left of the table. What a
/// unique index of `to` refuses is found when a container is restored.
pub fn reshaped(
    alloc: Global,
    from: &Schema,
    to: &Schema,
    image: TableImage,
) -> Result<TableImage, ReshapeFault>
    ensures table { IfOk result (λ made. image_table made ≡ meaning.reshaped_table from.now to.now (image_table image)) }
    ensures types { OnOk result (meaning.other_type from.now to.now ≡ None) }
    ensures fits { IfOk result (λ made. meaning.RowsFit from.now image.rows.items → meaning.RowsFit to.now made.rows.items) }
    ensures holds { IfOk result (λ made. IsTable from.now (image_table image) → IsTable to.now (image_table made)) }
    ensures fault { IfErr result (λ e. meaning.IsReshapeFault from.now to.now e) }
{
    put_under(alloc, from, to, &image)
}
