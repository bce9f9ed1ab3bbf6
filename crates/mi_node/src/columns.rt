//! The links of all nodes: for each slot a column of cells, one for each place.
//! Safe code on the columns alone: it follows no link.
ghost use Rattle.std.specs.Prelude.{◌≡◌, ◌==◌, ◌<◌, ◌≤◌, ◌+◌, ℕ, false, length, replicate, IfOk, slice_index_or};
ghost use Rattle.mi_node.specs.Pool.{no_link, put_link};
ghost use Rattle.mi_node.specs.Cells.{link_of_cell};
ghost use Rattle.mi_node.specs.Columns.{cell_at, links_at, column, AreLong};

use crate::cell::{Cell, EMPTY};
use crate::column::Column;
use crate::link::Link;
use std::alloc::{AllocError, Global};

/// The link of a place in a slot.
pub(crate) fn link_at(columns: &Vec<Column>, place: usize, slot: usize) -> Link
    requires slot { slot < length columns.now.items }
    requires place { place < length (column columns.now.items slot) }
    ensures { result ≡ slice_index_or (links_at columns.now.items place) slot no_link }
{
    columns[slot].at(place).link()
}

/// How many bytes of memory the columns take: a step for each of them.
pub(crate) fn memory_of(columns: &Vec<Column>) -> u64 {
    let mut bytes = 0u64;
    for column in columns.iter() {
        bytes = bytes.saturating_add(column.memory());
    }
    bytes
}

/// Sets the link of a place in a slot.
pub(crate) fn set_link_at(columns: &mut Vec<Column>, place: usize, slot: usize, link: Link)
    requires slot { slot < length columns.old.items }
    requires place { place < length (column columns.old.items slot) }
    ensures link { links_at columns.new.items place ≡ put_link (links_at columns.old.items place) slot link }
    ensures others { (k : ℕ) → (k == place) ≡ false → links_at columns.new.items k ≡ links_at columns.old.items k }
    ensures count { length columns.new.items ≡ length columns.old.items }
    ensures long { (m : ℕ) → AreLong m columns.old.items → AreLong m columns.new.items }
{
    columns[slot].set(place, Cell::new(link));
}

/// What is stored of the link of a place in a slot.
#[inline(always)]
pub(crate) fn stored_at(columns: &Vec<Column>, place: usize, slot: usize) -> Cell
    requires slot { slot < length columns.now.items }
    requires place { place < length (column columns.now.items slot) }
    ensures { link_of_cell result ≡ slice_index_or (links_at columns.now.items place) slot no_link }
{
    columns[slot].at(place)
}

/// Sets what is stored of the link of a place in a slot.
#[inline(always)]
pub(crate) fn store_at(columns: &mut Vec<Column>, place: usize, slot: usize, cell: Cell)
    requires slot { slot < length columns.old.items }
    requires place { place < length (column columns.old.items slot) }
    ensures link { links_at columns.new.items place ≡ put_link (links_at columns.old.items place) slot (link_of_cell cell) }
    ensures others { (k : ℕ) → (k == place) ≡ false → links_at columns.new.items k ≡ links_at columns.old.items k }
    ensures count { length columns.new.items ≡ length columns.old.items }
    ensures long { (m : ℕ) → AreLong m columns.old.items → AreLong m columns.new.items }
{
    columns[slot].set(place, cell);
}

/// Each link of a place is as if it was never set.
pub(crate) fn clear(columns: &mut Vec<Column>, place: usize)
    requires { AreLong (place + 1) columns.old.items }
    ensures links { links_at columns.new.items place ≡ replicate (length columns.old.items) no_link }
    ensures others { (k : ℕ) → (k == place) ≡ false → links_at columns.new.items k ≡ links_at columns.old.items k }
    ensures count { length columns.new.items ≡ length columns.old.items }
    ensures long { (m : ℕ) → AreLong m columns.old.items → AreLong m columns.new.items }
{
    for slot in 0..columns.len() {
        columns[slot].set(place, EMPTY);
    }
}

/// There are as many columns as slots. New ones have no cells.
pub(crate) fn add_columns(
    columns: &mut Vec<Column>,
    slots: usize,
    alloc: Global,
) -> Result<(), AllocError>
    requires { length columns.old.items ≤ slots }
    ensures ok { IfOk result (λ _. length columns.new.items ≡ slots) }
    ensures few { length columns.new.items ≤ slots }
    ensures full { length columns.old.items ≡ slots → columns.new.items ≡ columns.old.items }
{
    while columns.len() < slots {
        columns.push(Column::new(alloc))?;
    }
    Ok(())
}

/// Each column that has fewer cells than `places` gets a chunk more. It changes no link.
pub(crate) fn lengthen(
    columns: &mut Vec<Column>,
    places: usize,
    alloc: Global,
) -> Result<(), AllocError>
    requires { (s : ℕ) → s < length columns.old.items → places ≤ length (column columns.old.items s) + 1024 }
    ensures ok { IfOk result (λ _. AreLong places columns.new.items) }
    ensures links { (k : ℕ) → links_at columns.new.items k ≡ links_at columns.old.items k }
    ensures count { length columns.new.items ≡ length columns.old.items }
    ensures long { (m : ℕ) → AreLong m columns.old.items → AreLong m columns.new.items }
{
    for slot in 0..columns.len() {
        lengthen_column(&mut columns[slot], places, alloc)?;
    }
    Ok(())
}

fn lengthen_column(column: &mut Column, places: usize, alloc: Global) -> Result<(), AllocError>
    requires { places ≤ length column.old + 1024 }
    ensures ok { IfOk result (λ _. places ≤ length column.new) }
    ensures cells { (k : ℕ) → cell_at k column.new ≡ cell_at k column.old }
    ensures longer { length column.old ≤ length column.new }
{
    if column.len() < places {
        column.add(alloc)?;
    }
    Ok(())
}
