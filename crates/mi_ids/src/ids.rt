//! The map as pages of 64 ids, which are found by a hint, or else by the hash of their numbers. Only `make_room` takes
//! memory; no call reads a node. The server gives ids in turn, so its live ids mostly lie in few pages. A fixed hash
//! serves the numbers, and every run is alike.
ghost use Rattle.std.specs.Prelude.{◌≡◌, ◌+◌, ◌<◌, ◌≤◌, true, false, IsOk, OnOk};
ghost use Rattle.std.specs.FinMap.{get, empty, insert, remove, len};
ghost use Rattle.mi_ids.specs.IdMap.{live_node, with_live};

use crate::entry::IdEntry;
use crate::hints::Hints;
use crate::page::Page;
use crate::pages::{entry_in, put_in, set_in, take_out};
use indexmap::IndexMap;
use mi_node::NodeRef;
use std::alloc::{AllocError, Global};
use std::marker::Model;

/// How many ids there may be, so that a number of them is never too large for its type.
const MOST: usize = 1 << 63;

/// How many bytes a place of a page takes: the page, its number, and what finds it by a hash.
const PLACE: usize = 300;

/// Ids, each with the reference of its node and whether it is live.
///
/// Contracts see a finite map from ids to entries, and room: how many ids more can be put in without memory. An id that
/// is only kept stays in the map, so `revive` needs no memory. A look-up takes the same time however many ids there are.
///
/// Ids lie in pages: 64 that follow each other, from a multiple of 64 on. A page is there while one of its ids is, live
/// or kept. A page that lost its last id leaves its place to others, so memory goes with the most pages that were there
/// at once, and not with all ids that were ever put in. A place of a page takes 300 bytes. There are nine at least, and
/// they double where they are too few: up to twice as many as pages were there at once, and less than four times as many
/// where pages came and went. So ids without gaps take 5 to 10 bytes each. The worst case is a page for each id, as where
/// 63 of 64 rows were erased: then an id takes 300 to 600 bytes, and 1,200 at most.
#[derive(Drop)]
pub struct Ids {
    pages: IndexMap<u64, Page>,
    hints: Hints,
    count: usize,
}

impl Model for Ids {
    ghost use Rattle.std.specs.Prelude.{◌≡◌, min, ◌-◌, ◌^◌};
    ghost use Rattle.std.specs.FinMap.{len};
    ghost use Rattle.indexmap.specs.IndexMap.{spare};
    ghost use Rattle.mi_ids.specs.Pages.{of_pages, NoneIsEmpty};
    ghost use Rattle.mi_ids.specs.IdMap.{IdMap, id_map_code};

    ghost Value = { IdMap };

    ghost coded = { id_map_code };

    ghost view = { λ a. record { entries = of_pages a.pages.entries; spare = min (spare a.pages) (2 ^ 63 - a.count) } };

    ghost invariant = { λ a. (a.count ≡ len (of_pages a.pages.entries)) × NoneIsEmpty a.pages.entries };
}

impl Ids {
    /// No ids. Takes no memory.
    pub fn new(alloc: Global) -> Ids
        ensures { result.entries ≡ empty }
    {
        Ids {
            pages: IndexMap::new(alloc),
            hints: Hints::new(alloc),
            count: 0,
        }
    }

    /// How many ids there are, live and kept.
    pub fn len(&self) -> usize
        ensures { result ≡ len self.now.entries }
    {
        self.count
    }

    /// How many bytes of memory the ids take: 300 for each place of a page, and the hints. It takes the same time however many ids
    /// there are. No clause says how many; tests do.
    pub fn memory(&self) -> u64 {
        let pages = self.pages.capacity().saturating_mul(PLACE);
        pages.saturating_add(self.hints.memory()) as u64
    }

    /// What is known of an id, or none where it isn't there.
    pub fn get(&self, id: u64) -> Option<IdEntry>
        ensures { result ≡ get self.now.entries id }
    {
        entry_in(&self.pages, &self.hints, id)
    }

    /// The node of a live id; none where the id isn't there or its node is only kept.
    pub fn live(&self, id: u64) -> Option<NodeRef>
        ensures { result ≡ live_node self.now.entries id }
    {
        self.get(id)
            .filter(|entry| entry.live)
            .map(|entry| entry.node)
    }

    /// Room for one id more, by taking memory where there is none.
    ///
    /// The error comes where memory is refused, or 2^63 ids are there, and never where there was room. Either way the ids
    /// stay as they are, and the room does not fall. Where the memory of hints alone is refused, it does without them.
    pub fn make_room(&mut self) -> Result<(), AllocError>
        ensures entries { self.new.entries ≡ self.old.entries }
        ensures room { OnOk result (0 < self.new.spare) }
        ensures spare { self.old.spare ≤ self.new.spare }
        ensures succeeds { 0 < self.old.spare → IsOk result }
    {
        if self.count >= MOST {
            return Err(AllocError);
        }
        self.pages.reserve(1)?;
        self.hints.grow_for(&self.pages);
        Ok(())
    }

    /// Puts an id in with its node, live. An id that was there has this node from now on.
    pub fn insert(&mut self, id: u64, node: NodeRef)
        requires { 0 < self.old.spare }
        ensures entries { self.new.entries ≡ insert self.old.entries id (record { node = node; live = true }) }
        ensures spare { self.old.spare ≤ self.new.spare + 1 }
    {
        if !put_in(&mut self.pages, &mut self.hints, id, node) {
            self.count += 1;
        }
    }

    /// Says of an id that its node is only kept. Nothing changes where the id isn't there.
    pub fn keep(&mut self, id: u64)
        ensures entries { self.new.entries ≡ with_live self.old.entries id false }
        ensures spare { self.new.spare ≡ self.old.spare }
    {
        self.set_live(id, false);
    }

    /// Says of an id that its row is live again. Nothing changes where the id isn't there.
    pub fn revive(&mut self, id: u64)
        ensures entries { self.new.entries ≡ with_live self.old.entries id true }
        ensures spare { self.new.spare ≡ self.old.spare }
    {
        self.set_live(id, true);
    }

    /// Sets whether an id is live.
    fn set_live(&mut self, id: u64, live: bool)
        ensures entries { self.new.entries ≡ with_live self.old.entries id live }
        ensures spare { self.new.spare ≡ self.old.spare }
    {
        set_in(&mut self.pages, id, live);
    }

    /// Takes an id out, live or kept. Its place is free for others. Nothing changes where the id isn't there.
    pub fn remove(&mut self, id: u64)
        ensures entries { self.new.entries ≡ remove self.old.entries id }
        ensures spare { self.old.spare ≤ self.new.spare }
    {
        if take_out(&mut self.pages, &mut self.hints, id) {
            self.count -= 1;
        }
    }
}

#[cfg(test)]
mod tests;
