//! Rows put into ids, cells and bytes of the caller's, one behind another, or the room that they want. It takes no memory.
ghost use Rattle.std.specs.Prelude.{◌≡◌, ◌≤◌, ◌+◌, ◌&&◌, ◌++◌, nat_le, length, map, take, drop, is_some, IsTrue, IfSome};
ghost use Rattle.mi_embed.specs.Cells.{texts_of, cells_of};
ghost use Rattle.mi_embed.specs.Pages.{values_of, RowsArePut};
ghost use Rattle.mi_embed.specs.Shown.{has_room};
ghost use Rattle.mi_embed.specs.CallResults as told;

use crate::call_result::CallResult;
use crate::cell::Cell;
use crate::copying::{Taken, put_values};
use crate::rows::text_bytes;
use mi_value::Record;

/// Puts the values of a row and their texts behind what is taken. Answers what is taken then, or none where there isn't room for all; then nothing
/// is said of either.
fn put_row(row: &Record, cells: &mut [Cell], texts: &mut [u8], taken: Taken) -> Option<Taken>
    requires cells { taken.cells ≤ length cells.old }
    requires bytes { taken.bytes ≤ length texts.old }
    ensures room { is_some result ≡ (nat_le (taken.cells + length row.now) (length cells.old)
        && nat_le (taken.bytes + length (texts_of row.now)) (length texts.old)) }
    ensures next { IfSome result (λ next. (next.cells ≡ taken.cells + length row.now) × (next.bytes ≡ taken.bytes + length (texts_of row.now))) }
    ensures cells { IfSome result (λ next. cells.new ≡ take taken.cells cells.old ++ cells_of taken.bytes row.now ++ drop next.cells cells.old) }
    ensures texts { IfSome result (λ next. texts.new ≡ take taken.bytes texts.old ++ texts_of row.now ++ drop next.bytes texts.old) }
{
    let (_, free_cells) = cells.split_at_mut(taken.cells);
    let (_, free_texts) = texts.split_at_mut(taken.bytes);
    put_values(row.values(), free_cells, free_texts, taken)
}

/// Puts the ids of rows to the front of ids, and their values and texts to the front of cells and bytes. Answers whether there was room for all;
/// where there wasn't, nothing is said of them.
pub(crate) fn put_rows(
    rows: &[(u64, &Record)],
    ids: &mut [u64],
    cells: &mut [Cell],
    texts: &mut [u8],
) -> bool
    requires { length rows.now ≤ length ids.old }
    ensures room { result ≡ has_room (values_of (map (λ r. (r.0, r.1.now)) rows.now)) cells.old texts.old }
    ensures put { IsTrue result → RowsArePut (map (λ r. (r.0, r.1.now)) rows.now) ids.old ids.new cells.old cells.new texts.old texts.new }
{
    let mut taken = Taken { cells: 0, bytes: 0 };
    'rows: for (i, row) in rows.iter().enumerate() {
        let (id, record) = *row;
        let Some(next) = put_row(record, cells, texts, taken) else {
            return false;
        };
        ids[i] = id;
        taken = next;
    }
    true
}

/// What all values of rows and all their texts want.
pub(crate) fn wanted(rows: &[(u64, &Record)]) -> CallResult
    ensures { result ≡ told.wanting (length (values_of (map (λ r. (r.0, r.1.now)) rows.now))) (length (texts_of (values_of (map (λ r. (r.0, r.1.now)) rows.now)))) }
{
    let mut count = 0usize;
    let mut bytes = 0u64;
    'rows: for row in rows {
        let (_, record) = *row;
        count = count.saturating_add(record.column_count());
        bytes = bytes.saturating_add(text_bytes(record.values()));
    }
    CallResult::wanting(count, bytes)
}
