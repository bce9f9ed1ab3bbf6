//! An array in chunks that never move, seen as one list.
//! Safe code over chunks, which knows nothing of nodes.
ghost use Rattle.std.specs.Prelude.{◌≡◌, ◌<◌, ◌++◌, [], length, slice_set, slice_index_or, IfOk, IfErr};

use crate::chunk::{Chunk, memory_of};
use std::alloc::{AllocError, Global};
use std::marker::Model;

/// How many elements a chunk has.
pub(crate) const CHUNK: usize = 1024;

/// How many chunks there may be: as many elements as 31 bits count.
pub(crate) const MAX_CHUNKS: usize = 2_097_152;

/// An array that grows by a chunk at a time. No element is ever moved to another address.
#[derive(Drop)]
pub(crate) struct Chunks<E> {
    chunks: Vec<Chunk<E>>,
}

impl<E> Model for Chunks<E> {
    ghost use Rattle.std.specs.Prelude.{List};
    ghost use Rattle.std.specs.Coded.{coded_list};

    ghost Value = { List E };

    ghost coded = { coded_list E.code };

    ghost use Rattle.mi_node.specs.Chunks.{flat, in_chunk, IsChunked};

    ghost view = { λ c. flat in_chunk c.chunks.items };

    ghost invariant = { λ c. IsChunked in_chunk c.chunks.items };
}

impl<E> Chunks<E> {
    /// No elements. Takes no memory.
    pub(crate) fn new(alloc: Global) -> Chunks<E>
        ensures { result ≡ [] }
    {
        Chunks {
            chunks: Vec::new(alloc),
        }
    }

    /// How many elements there are.
    pub(crate) fn len(&self) -> usize
        ensures { result ≡ length self.now }
    {
        self.chunks.len() * CHUNK
    }

    /// How many bytes of memory they take, where an element has so many. It reads no element.
    pub(crate) fn memory(&self, element: usize) -> u64 {
        memory_of(self.chunks.len(), element, self.chunks.capacity())
    }

    /// The element of an index.
    pub(crate) fn at(&self, at: usize) -> &E
        requires { at < length self.now }
        ensures { result.now ≡ slice_index_or self.now at result.now }
    {
        self.chunks[at / CHUNK].at(at % CHUNK)
    }

    /// Puts an element in place of another, which it gives back.
    pub(crate) fn replace(&mut self, at: usize, item: E) -> E
        requires { at < length self.old }
        ensures item { result ≡ slice_index_or self.old at result }
        ensures items { self.new ≡ slice_set self.old at item }
    {
        self.chunks[at / CHUNK].replace(at % CHUNK, item)
    }

    /// Puts an element in place of another.
    pub(crate) fn set(&mut self, at: usize, item: E)
    where
        E: Drop,
        requires { at < length self.old }
        ensures { self.new ≡ slice_set self.old at item }
    {
        let _ = self.replace(at, item);
    }

    /// Adds a chunk at the end. Where memory is refused, or there are 2^31 elements, all is as it was.
    pub(crate) fn add(&mut self, chunk: Chunk<E>) -> Result<(), AllocError>
    where
        E: Drop,
        ensures ok { IfOk result (λ _. self.new ≡ self.old ++ chunk.row.items) }
        ensures err { IfErr result (λ _. self.new ≡ self.old) }
    {
        if self.chunks.len() >= MAX_CHUNKS {
            return Err(AllocError);
        }
        if let Err(refused) = self.chunks.reserve(1) {
            return Err(refused);
        }
        self.chunks.push_reserved(chunk);
        Ok(())
    }
}
