//! Values put into cells and bytes of the caller's.
ghost use Rattle.std.specs.Prelude.{◌≡◌, ◌+◌, ◌<◌, ◌^◌, ◌&&◌, nat_le, length, is_some, IfSome};
ghost use Rattle.mi_embed.specs.Cells.{texts_of, cell_of, ArePut};
ghost use Rattle.mi_value.specs.Lent.{lent};

use crate::cell::Cell;
use mi_value::{ValueRef, Values};

/// The cell of a value whose text lies from a byte on.
fn cell_of(at: usize, value: ValueRef<'_>) -> Cell
    ensures { result ≡ cell_of at (lent value.entry) }
{
    let (kind, integer, at, length) = match value {
        ValueRef::Int(n) => (0, n, 0, 0),
        ValueRef::Text(text) => (1, 0, at, text.len()),
        ValueRef::Flag(false) => (2, 0, 0, 0),
        ValueRef::Flag(true) => (3, 0, 0, 0),
    };
    Cell {
        kind,
        integer,
        at,
        length,
    }
}

/// How many cells and how many bytes have values and texts in them.
#[derive(Clone, Copy, Drop)]
pub(crate) struct Taken {
    pub(crate) cells: usize,
    pub(crate) bytes: usize,
}

/// Puts values to the front of cells, and their texts to the front of bytes, which are those behind what is taken. Answers what is taken then,
/// or none where there isn't room for all; then nothing is said of either.
pub(crate) fn put_values(
    values: Values<'_>,
    cells: &mut [Cell],
    texts: &mut [u8],
    taken: Taken,
) -> Option<Taken>
    requires cells { taken.cells + length cells.old < 2 ^ 64 }
    requires bytes { taken.bytes + length texts.old < 2 ^ 64 }
    ensures room { is_some result ≡ (nat_le (length values.entry) (length cells.old) && nat_le (length (texts_of values.entry)) (length texts.old)) }
    ensures next { IfSome result (λ next. (next.cells ≡ taken.cells + length values.entry) × (next.bytes ≡ taken.bytes + length (texts_of values.entry))) }
    ensures put { IfSome result (λ _. ArePut taken.bytes values.entry cells.old cells.new texts.old texts.new) }
{
    let mut left = values;
    let Some(value) = left.next() else {
        return Some(taken);
    };
    let Some((cell, cells)) = cells.split_first_mut() else {
        return None;
    };
    *cell = cell_of(taken.bytes, value);
    let ValueRef::Text(text) = value else {
        let taken = Taken {
            cells: taken.cells + 1,
            bytes: taken.bytes,
        };
        return put_values(left, cells, texts, taken);
    };
    let Some((place, texts)) = texts.split_at_mut_checked(text.len()) else {
        return None;
    };
    place.copy_from_slice(text.as_bytes());
    let taken = Taken {
        cells: taken.cells + 1,
        bytes: taken.bytes + text.len(),
    };
    put_values(left, cells, texts, taken)
}
