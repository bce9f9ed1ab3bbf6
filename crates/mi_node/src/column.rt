//! A column of cells in chunks that never move, seen as one list.
//! Safe code over chunks, which knows nothing of nodes.
ghost use Rattle.std.specs.Prelude.{◌≡◌, ◌<◌, ◌++◌, [], length, replicate, slice_set, IfOk, IfErr};
ghost use Rattle.core.specs.Mem.Slots.{slots_ptr, slots_len};
ghost use Rattle.mi_node.specs.Cells.{empty_cell};
ghost use Rattle.mi_node.specs.Columns.{cell_at};

use crate::block::Block;
use crate::cell::{Cell, EMPTY};
use crate::chunk::{Chunk, memory_of, places_of};
use crate::chunks::{CHUNK, MAX_CHUNKS};
use core::slots::Slots;
use std::alloc::{AllocError, Global};
use std::marker::Model;
use std::mem::size_of;

/// Cells that are read and set by place. No cell is ever moved to another address.
#[derive(Drop)]
pub(crate) struct Column {
    chunks: Vec<Chunk<Cell>>,
}

impl Model for Column {
    ghost use Rattle.std.specs.Prelude.{List};
    ghost use Rattle.mi_node.specs.declared.cell.Cell.{Cell as CellValue};

    ghost Value = { List CellValue };

    ghost use Rattle.mi_node.specs.Chunks.{flat, in_chunk, IsChunked};

    ghost view = { λ c. flat in_chunk c.chunks.items };

    ghost invariant = { λ c. IsChunked in_chunk c.chunks.items };
}

impl Column {
    /// No cells. Takes no memory.
    pub(crate) fn new(alloc: Global) -> Column
        ensures { result ≡ [] }
    {
        Column {
            chunks: Vec::new(alloc),
        }
    }

    /// How many cells there are.
    pub(crate) fn len(&self) -> usize
        ensures { result ≡ length self.now }
    {
        self.chunks.len() * CHUNK
    }

    /// How many bytes of memory they take. It reads no cell.
    pub(crate) fn memory(&self) -> u64 {
        memory_of(self.chunks.len(), size_of::<Cell>(), self.chunks.capacity())
    }

    /// The cell of a place.
    pub(crate) fn at(&self, place: usize) -> Cell
        requires { place < length self.now }
        ensures { result ≡ cell_at place self.now }
    {
        *self.chunks[place / CHUNK].at(place % CHUNK)
    }

    /// Sets the cell of a place.
    pub(crate) fn set(&mut self, place: usize, cell: Cell)
        requires { place < length self.old }
        ensures { self.new ≡ slice_set self.old place cell }
    {
        let _ = self.chunks[place / CHUNK].replace(place % CHUNK, cell);
    }

    /// Adds a chunk of empty cells at the end. Where memory is refused, or there are 2^31 cells, all is as it was.
    pub(crate) fn add(&mut self, alloc: Global) -> Result<(), AllocError>
        ensures ok { IfOk result (λ _. self.new ≡ self.old ++ replicate 1024 empty_cell) }
        ensures err { IfErr result (λ _. self.new ≡ self.old) }
    {
        if self.chunks.len() >= MAX_CHUNKS {
            return Err(AllocError);
        }
        self.chunks.reserve(1)?;
        self.chunks.push_reserved(empty_chunk(alloc)?);
        Ok(())
    }
}

/// What the cells of a new chunk are copies of.
static EMPTY_CELLS: [Cell; CHUNK] = [EMPTY; CHUNK];

/// A chunk none of whose cells was set.
fn empty_chunk(alloc: Global) -> Result<Chunk<Cell>, AllocError>
    ensures { IfOk result (λ c. c.row.items ≡ replicate 1024 empty_cell) }
{
    let (places, right) = places_of(alloc)?;
    Ok(chunk_of_copies(places, right, &EMPTY_CELLS))
}

/// The chunk of copies of these cells. Each is written once.
fn chunk_of_copies(
    mut places: Slots<Cell>,
    right: Block<Cell, Global>,
    cells: &[Cell],
) -> Chunk<Cell>
    requires count { slots_len places ≡ 1024 }
    requires here { right.at ≡ slots_ptr places }
    requires cells { length cells.now ≡ 1024 }
    ensures { result.row.items ≡ cells.now }
{
    places.copy_in(0, cells);
    Chunk::new(places, right)
}
