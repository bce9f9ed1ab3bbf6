//! Hints: where pages probably stand among the entries of their map, so that most of them are found without a hash.
//! Whoever takes a hint looks whether the page stands there. A wrong hint costs time alone, so no clause speaks of hints.
use crate::page::Page;
use indexmap::IndexMap;
use std::alloc::Global;
use std::mem::size_of;

/// How many hints there are at first.
const FIRST: usize = 16;

/// A hint for each value of the last bits of a page's number. There are a power of two of them, or none. Of pages that
/// follow each other no two share a hint while there are no more pages than hints.
#[derive(Drop)]
pub(crate) struct Hints {
    alloc: Global,
    indices: Vec<u32>,
}

impl Hints {
    /// No hints. Takes no memory.
    pub(crate) fn new(alloc: Global) -> Hints {
        Hints {
            alloc,
            indices: Vec::new(alloc),
        }
    }

    /// How many bytes of memory the hints take.
    pub(crate) fn memory(&self) -> usize {
        self.indices.capacity().saturating_mul(size_of::<u32>())
    }

    /// Where the page of this number may stand.
    pub(crate) fn get(&self, number: u64) -> usize {
        match self.indices.get(self.place(number)) {
            Some(index) => *index as usize,
            None => 0,
        }
    }

    /// Notes where the page of this number stands.
    fn note(&mut self, number: u64, index: usize) {
        let place = self.place(number);
        if let Some(hint) = self.indices.get_mut(place) {
            *hint = u32::try_from(index).unwrap_or(0);
        }
    }

    /// Notes of the page at this index that it stands there, where there is one.
    pub(crate) fn note_at(&mut self, pages: &IndexMap<u64, Page>, index: usize) {
        if let Some((number, _)) = pages.get_index(index) {
            self.note(*number, index);
        }
    }

    /// Makes twice as many hints where there are as many pages as hints. Where memory is refused, the hints stay.
    pub(crate) fn grow_for(&mut self, pages: &IndexMap<u64, Page>) {
        if pages.len() < self.indices.len() {
            return;
        }
        let count = self.indices.len().saturating_mul(2).max(FIRST);
        let Ok(indices) = vec![in self.alloc; 0u32; count] else {
            return;
        };
        self.indices = indices;
        for (index, number) in pages.keys().enumerate() {
            self.note(*number, index);
        }
    }

    /// The place of the hint for this number, where there are hints.
    fn place(&self, number: u64) -> usize {
        number as usize & self.indices.len().wrapping_sub(1)
    }
}
