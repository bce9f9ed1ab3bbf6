//! The lists of indexes under another schema: an index that both have keeps its list.
//! It reads two schemas and a plain table, and takes memory for new lists alone.
ghost use Rattle.std.specs.Prelude.{◌≡◌, [], map, slice_index_or, IfOk};
ghost use Rattle.mi_container.specs.Restore.{image_table};
ghost use Rattle.mi_reshape.specs.Reshaped as meaning;

use mi_catalog::{Index, IndexKind, Schema};
use mi_container::TableImage;
use mi_value::{KeyPart, Record};
use std::alloc::{AllocError, Global};

/// Whether two kinds of index are one.
fn same_kind(a: IndexKind, b: IndexKind) -> bool
    ensures { result ≡ meaning.same_kind a b }
{
    matches!(
        (a, b),
        (IndexKind::Ordered, IndexKind::Ordered)
            | (IndexKind::Ranked, IndexKind::Ranked)
            | (IndexKind::Hashed, IndexKind::Hashed)
            | (IndexKind::Sequenced, IndexKind::Sequenced)
    )
}

/// Whether two flags are one.
fn same_flag(a: bool, b: bool) -> bool
    ensures { result ≡ meaning.same_flag a b }
{
    if a { b } else { !b }
}

/// The name of the column of a number, or the empty text.
fn column_name(schema: &Schema, column: usize) -> &str
    ensures { result.now ≡ (meaning.column_at schema.now column).name }
{
    match schema.columns().get(column) {
        Some(column) => column.name.as_str(),
        None => "",
    }
}

/// Whether two parts are of columns of one name, and in one direction.
fn same_part(from: &Schema, to: &Schema, old: KeyPart, new: KeyPart) -> bool
    ensures { result ≡ meaning.same_part from.now to.now old new }
{
    column_name(from, old.column) == column_name(to, new.column)
        && same_flag(old.descending, new.descending)
}

/// Whether the parts of two indexes are the same, in one order.
fn same_parts(from: &Schema, to: &Schema, old: &[KeyPart], new: &[KeyPart]) -> bool
    ensures { result ≡ meaning.same_parts from.now to.now old.now new.now }
{
    match (old.split_first(), new.split_first()) {
        (None, None) => true,
        (Some((p, old)), Some((q, new))) => {
            same_part(from, to, *p, *q) && same_parts(from, to, old, new)
        }
        _ => false,
    }
}

/// Whether an index of `from` and one of `to` are of one kind, both unique or neither, and of the same parts.
fn same_index(from: &Schema, to: &Schema, old: &Index, new: &Index) -> bool
    ensures { result ≡ meaning.same_index from.now to.now old.now new.now }
{
    same_kind(old.kind, new.kind)
        && same_flag(old.unique, new.unique)
        && same_parts(from, to, old.parts.as_slice(), new.parts.as_slice())
}

/// The number in `from` of the index that this one of `to` is, by its name and all else, or none.
fn kept_index(from: &Schema, to: &Schema, index: &Index) -> Option<usize>
    ensures { result ≡ meaning.kept_index from.now to.now index.now }
{
    let number = from.find_index(index.name.as_str())?;
    if same_index(from, to, from.index(number), index) {
        Some(number)
    } else {
        None
    }
}

/// The ids of rows.
fn row_ids(alloc: Global, rows: &[(u64, Record)]) -> Result<Vec<u64>, AllocError>
    ensures { IfOk result (λ ids. ids.items ≡ map (λ r. r.0) rows.now) }
{
    let mut ids = Vec::new(alloc);
    for (id, _row) in rows {
        ids.push(*id)?;
    }
    Ok(ids)
}

/// A copy of the list of a number; where there is none it is empty.
fn copy_list(alloc: Global, lists: &[Vec<u64>], number: usize) -> Result<Vec<u64>, AllocError>
    ensures { IfOk result (λ ids. ids.items ≡ slice_index_or (map (λ l. l.items) lists.now) number []) }
{
    match lists.get(number) {
        Some(list) => list.as_slice().to_vec(alloc),
        None => Ok(Vec::new(alloc)),
    }
}

/// The list of an index of `to`: its old one, or if it is a new one the rising ids.
fn put_list(
    alloc: Global,
    from: &Schema,
    to: &Schema,
    image: &TableImage,
    index: &Index,
) -> Result<Vec<u64>, AllocError>
    ensures { IfOk result (λ ids. ids.items ≡ meaning.reshaped_list from.now to.now (image_table image.now) index.now) }
{
    match kept_index(from, to, index) {
        Some(number) => copy_list(alloc, image.lists.as_slice(), number),
        None => row_ids(alloc, image.rows.as_slice()),
    }
}

/// The lists of all indexes of `to`.
pub(crate) fn put_lists(
    alloc: Global,
    from: &Schema,
    to: &Schema,
    image: &TableImage,
) -> Result<Vec<Vec<u64>>, AllocError>
    ensures { IfOk result (λ made. map (λ l. l.items) made.items ≡ map (meaning.reshaped_list from.now to.now (image_table image.now)) to.now.indexes) }
{
    let mut made = Vec::new(alloc);
    for index in to.indexes() {
        made.push(put_list(alloc, from, to, image, index)?)?;
    }
    Ok(made)
}
