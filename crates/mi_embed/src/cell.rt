//! Values as they cross the border: a cell says a value's kind and its number, or where its text lies in the bytes beside it. Plain data.
ghost use Rattle.std.specs.Prelude.{◌≡◌, ◌≤◌, length, option_map, map, MatchOption, None, Some};
ghost use Rattle.mi_value.specs.Lent.{lent};
ghost use Rattle.mi_value.specs.declared.limits.TheConstants.{MAX_COLUMNS};
ghost use Rattle.mi_embed.specs.Cells as meaning;
ghost use Rattle.mi_embed.specs.Cells.{value_in, values_in};

use arrayvec::ArrayVec;
use mi_value::ValueRef;
use mi_value::limits::MAX_COLUMNS;

/// A value as C sees it.
#[repr(C)]
#[derive(Clone, Copy, Debug, Drop)]
pub struct Cell {
    /// 0 of a whole number, 1 of a text, 2 of false and 3 of true.
    pub kind: u32,
    /// The number, where it is one.
    pub integer: i64,
    /// Where a text lies in the bytes, and how many it has.
    pub at: usize,
    pub length: usize,
}

/// These bytes as a text, where they are one.
#[tactic(auto, using(crate::proofs::CellLemmas::utf8_is_text, crate::proofs::CellLemmas::other_is_none))]
fn as_text(bytes: &[u8]) -> Option<ValueRef<'_>>
    ensures { option_map lent result ≡ meaning.as_text bytes.now }
{
    match str::from_utf8(bytes) {
        Ok(text) => Some(ValueRef::Text(text)),
        Err(_) => None,
    }
}

/// The text of so many bytes from this byte on.
fn text_at(texts: &[u8], at: usize, length: usize) -> Option<ValueRef<'_>>
    ensures { option_map lent result ≡ meaning.text_at texts.now at length }
{
    let (_, rest) = texts.split_at_checked(at)?;
    let (text, _) = rest.split_at_checked(length)?;
    as_text(text)
}

/// The value that a cell is, lent by the bytes.
pub(crate) fn value_of<'a>(texts: &'a [u8], cell: &Cell) -> Option<ValueRef<'a>>
    ensures { option_map lent result ≡ value_in texts.now cell.now }
{
    match cell.kind {
        0 => Some(ValueRef::Int(cell.integer)),
        1 => text_at(texts, cell.at, cell.length),
        2 => Some(ValueRef::Flag(false)),
        3 => Some(ValueRef::Flag(true)),
        _ => None,
    }
}

/// The values of all cells, if each is one, lent by the bytes.
pub(crate) fn values_of<'a>(
    texts: &'a [u8],
    cells: &[Cell],
) -> Option<ArrayVec<ValueRef<'a>, MAX_COLUMNS>>
    requires { length cells.now ≤ MAX_COLUMNS }
    ensures { MatchOption result (values_in texts.now cells.now ≡ None) (λ vs. values_in texts.now cells.now ≡ Some (map lent vs.items)) }
{
    let mut values = ArrayVec::new();
    'cells: for cell in cells {
        values.push(value_of(texts, cell)?);
    }
    Some(values)
}
