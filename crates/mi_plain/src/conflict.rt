//! Rows by their ids, and which of them a unique index refuses a record for. It takes no memory.
ghost use Rattle.std.specs.Prelude.{◌≡◌, ◌==◌, not, drop, IfOk, IfErr};
ghost use Rattle.std.specs.List.{filter, position};
ghost use Rattle.std.specs.Option.{option_copied};
ghost use Rattle.std.specs.Map.{lookup, set_value};
ghost use Rattle.std.specs.declared.option.Option.TheVariants.{None};
ghost use Rattle.mi_model.specs.Conflict as meaning;
ghost use Rattle.mi_plain.specs.Rows.{AreInOrder, IsRowOf};

use mi_catalog::Index;
use mi_value::{KeyPart, Record, same_key};

/// A row: its id and its record.
pub(crate) type Row = (u64, Record);

/// The place of the row of an id among rows in the order of their ids, or where it would go.
fn search(rows: &[Row], id: u64) -> Result<usize, usize>
    requires { AreInOrder rows.now }
    ensures found { IfOk result (IsRowOf rows.now id) }
    ensures absent { IfErr result (λ i. lookup (λ a. a == id) rows.now ≡ None) }
{
    rows.binary_search_by_key(&id, |row| row.0)
}

/// The record of an id, among rows in the order of their ids.
pub(crate) fn find_row(rows: &[Row], id: u64) -> Option<&Record>
    requires { AreInOrder rows.now }
    ensures { option_copied result ≡ lookup (λ a. a == id) rows.now }
{
    match search(rows, id) {
        Ok(i) => Some(&rows[i].1),
        Err(_) => None,
    }
}

/// The place of the row of an id.
fn place_of(rows: &[Row], id: u64) -> Option<usize>
    ensures { result ≡ position (λ r. r.0 == id) rows.now }
{
    rows.iter().position(|r| r.0 == id)
}

/// Another record for the row of an id; where it isn't there nothing changes.
pub(crate) fn set_row(rows: &mut Vec<Row>, id: u64, row: Record)
    ensures { rows.new.items ≡ set_value (λ a. a == id) rows.old.items row }
{
    if let Some(i) = place_of(rows.as_slice(), id) {
        rows[i] = (id, row);
    }
}

/// Takes the row of an id out.
pub(crate) fn remove_row(rows: &mut Vec<Row>, id: u64)
    ensures { rows.new.items ≡ filter (λ r. not (r.0 == id)) rows.old.items }
{
    rows.retain(|r| r.0 != id);
}

/// Whether a row, other than that of `except`, has the record's key.
fn is_rival(other: &Row, parts: &[KeyPart], row: &Record, except: Option<u64>) -> bool
    ensures { result ≡ meaning.is_rival parts.now row.now except other.now }
{
    match except {
        None => same_key(&other.1, row, parts),
        Some(id) => other.0 != id && same_key(&other.1, row, parts),
    }
}

/// The id of the first such row.
fn rival(rows: &[Row], parts: &[KeyPart], row: &Record, except: Option<u64>) -> Option<u64>
    ensures { result ≡ meaning.rival rows.now parts.now row.now except }
{
    for other in rows {
        if is_rival(other, parts, row, except) {
            return Some(other.0);
        }
    }
    None
}

/// The first unique index, but for the index `id`, that refuses the record, and the row for which it does.
pub(crate) fn conflict(
    rows: &[Row],
    indexes: &[Index],
    row: &Record,
    except: Option<u64>,
) -> Option<(usize, u64)>
    ensures { result ≡ meaning.conflict_from 1 (drop 1 indexes.now) rows.now row.now except }
{
    for x in 1..indexes.len() {
        let index = &indexes[x];
        if index.unique
            && let Some(id) = rival(rows, index.parts.as_slice(), row, except)
        {
            return Some((x, id));
        }
    }
    None
}
