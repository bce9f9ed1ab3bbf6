//! A map of pages by their numbers: page n has the ids from 64 * n on. No page in it is without an entry. Nothing here
//! takes memory.
ghost use Rattle.std.specs.Prelude.{◌≡◌, ◌+◌, ◌<◌, ◌≤◌, true, is_some};
ghost use Rattle.std.specs.FinMap.{get, insert, remove};
ghost use Rattle.indexmap.specs.IndexMap.{spare};
ghost use Rattle.mi_ids.specs.IdMap.{with_live};
ghost use Rattle.mi_ids.specs.Pages.{of_pages, NoneIsEmpty};

use crate::entry::IdEntry;
use crate::hints::Hints;
use crate::page::Page;
use indexmap::IndexMap;
use mi_node::NodeRef;

/// What is known of an id, or none where it isn't there.
pub(crate) fn entry_in(pages: &IndexMap<u64, Page>, hints: &Hints, id: u64) -> Option<IdEntry>
    ensures { result ≡ get (of_pages pages.now.entries) id }
{
    if let Some((number, page)) = pages.get_index(hints.get(id / 64)) {
        if *number == id / 64 {
            return page.get((id % 64) as usize);
        }
    }
    searched(pages, id)
}

/// The same, by the hash of the page's number. It stands out of line, so that the way by a hint saves no registers.
#[inline(never)]
fn searched(pages: &IndexMap<u64, Page>, id: u64) -> Option<IdEntry>
    ensures { result ≡ get (of_pages pages.now.entries) id }
{
    match pages.get(&(id / 64)) {
        Some(page) => page.get((id % 64) as usize),
        None => None,
    }
}

/// Puts an id in with its node, live. Says whether the id was there.
pub(crate) fn put_in(
    pages: &mut IndexMap<u64, Page>,
    hints: &mut Hints,
    id: u64,
    node: NodeRef,
) -> bool
    requires spare { 0 < spare pages.old }
    requires used { NoneIsEmpty pages.old.entries }
    ensures was { result ≡ is_some (get (of_pages pages.old.entries) id) }
    ensures entries { of_pages pages.new.entries ≡ insert (of_pages pages.old.entries) id (record { node = node; live = true }) }
    ensures spare { spare pages.old ≤ spare pages.new + 1 }
    ensures used { NoneIsEmpty pages.new.entries }
{
    let slot = (id % 64) as usize;
    if let Some(page) = pages.get_mut(&(id / 64)) {
        return page.put(slot, node);
    }
    let placed: Result<_, _> = pages.insert(id / 64, Page::new(slot, node));
    placed.unwrap();
    hints.note_at(pages, pages.len().wrapping_sub(1));
    false
}

/// Sets whether an id is live.
pub(crate) fn set_in(pages: &mut IndexMap<u64, Page>, id: u64, live: bool)
    requires { NoneIsEmpty pages.old.entries }
    ensures entries { of_pages pages.new.entries ≡ with_live (of_pages pages.old.entries) id live }
    ensures spare { spare pages.new ≡ spare pages.old }
    ensures used { NoneIsEmpty pages.new.entries }
{
    if let Some(page) = pages.get_mut(&(id / 64)) {
        page.set_live((id % 64) as usize, live);
    }
}

/// Takes an id out of the pages, and its page with it where nothing else is left in it. Says whether the id was there.
pub(crate) fn take_out(pages: &mut IndexMap<u64, Page>, hints: &mut Hints, id: u64) -> bool
    requires { NoneIsEmpty pages.old.entries }
    ensures was { result ≡ is_some (get (of_pages pages.old.entries) id) }
    ensures entries { of_pages pages.new.entries ≡ remove (of_pages pages.old.entries) id }
    ensures spare { spare pages.old ≤ spare pages.new }
    ensures used { NoneIsEmpty pages.new.entries }
{
    let number = id / 64;
    let Some(page) = pages.get_mut(&number) else {
        return false;
    };
    let was = page.take((id % 64) as usize);
    if page.is_empty() {
        let index = pages.get_index_of(&number).unwrap_or(0);
        pages.swap_remove(&number);
        hints.note_at(pages, index);
    }
    was
}
