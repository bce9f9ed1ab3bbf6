//! A page: what the map says of 64 ids in a row. Plain data: it owns no node.
ghost use Rattle.std.specs.Prelude.{◌≡◌, ℕ, ◌<◌, ◌==◌, true, false, cond, Some, None, option_map, IsTrue, is_some};
ghost use Rattle.mi_ids.specs.IdMap.{flagged};
ghost use Rattle.mi_ids.specs.Pages.{slot_of, IsUsed};

use crate::entry::IdEntry;
use mi_node::NodeRef;

/// 64 places. Each has a bit that says whether an entry stands there, and a bit that says whether the entry is live.
/// What a place without an entry holds as its node means nothing.
#[derive(Drop)]
pub(crate) struct Page {
    present: u64,
    live: u64,
    nodes: [NodeRef; 64],
}

impl Page {
    /// A page with one entry, which is live.
    pub(crate) fn new(slot: usize, node: NodeRef) -> Page
        requires { slot < 64 }
        ensures slots { (k : ℕ) → k < 64 → slot_of result k ≡ cond (slot == k) (Some (record { node = node; live = true })) None }
        ensures used { IsUsed result }
    {
        let mut page = Page {
            present: 0,
            live: 0,
            nodes: [node; 64],
        };
        page.put(slot, node);
        page
    }

    /// The entry at a place.
    pub(crate) fn get(&self, slot: usize) -> Option<IdEntry>
        requires { slot < 64 }
        ensures { result ≡ slot_of self.now slot }
    {
        if (self.present >> slot) & 1 == 0 {
            return None;
        }
        Some(IdEntry {
            node: self.nodes[slot],
            live: (self.live >> slot) & 1 == 1,
        })
    }

    /// Puts a live entry at a place. Says whether an entry stood there.
    pub(crate) fn put(&mut self, slot: usize, node: NodeRef) -> bool
        requires { slot < 64 }
        ensures was { result ≡ is_some (slot_of self.old slot) }
        ensures slots { (k : ℕ) → k < 64 → slot_of self.new k ≡ cond (slot == k) (Some (record { node = node; live = true })) (slot_of self.old k) }
        ensures used { IsUsed self.new }
    {
        let was = self.get(slot).is_some();
        self.present |= 1 << slot;
        self.live |= 1 << slot;
        self.nodes[slot] = node;
        was
    }

    /// Sets whether the entry at a place is live. Nothing changes where there is none.
    pub(crate) fn set_live(&mut self, slot: usize, live: bool)
        requires { slot < 64 }
        ensures slots { (k : ℕ) → k < 64 → slot_of self.new k ≡ cond (slot == k) (option_map (flagged live) (slot_of self.old k)) (slot_of self.old k) }
        ensures used { IsUsed self.old → IsUsed self.new }
    {
        if live {
            self.live |= 1 << slot;
        } else {
            self.live &= !(1 << slot);
        }
    }

    /// Takes the entry at a place out. Says whether one stood there.
    pub(crate) fn take(&mut self, slot: usize) -> bool
        requires { slot < 64 }
        ensures was { result ≡ is_some (slot_of self.old slot) }
        ensures slots { (k : ℕ) → k < 64 → slot_of self.new k ≡ cond (slot == k) None (slot_of self.old k) }
    {
        let was = self.get(slot).is_some();
        self.present &= !(1 << slot);
        was
    }

    /// Whether no entry is left.
    pub(crate) fn is_empty(&self) -> bool
        ensures empty { IsTrue result → (k : ℕ) → slot_of self.now k ≡ None }
        ensures used { result ≡ false → IsUsed self.now }
    {
        self.present == 0
    }
}
