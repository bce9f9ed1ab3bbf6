//! The ids of each index. A change makes a new list beside the old one, so a refused growth changes nothing.
use crate::pass::place_in;
use mi_catalog::Index;
use mi_value::{Record, same_key};
use std::alloc::{AllocError, Global};
use std::marker::Model;

/// The ids of an index, seen as a list.
#[derive(Drop)]
pub(crate) struct Ids {
    ids: Vec<u64>,
}

impl Model for Ids {
    ghost use Rattle.std.specs.Prelude.{List, ℕ};

    ghost Value = { List ℕ };

    ghost view = { λ a. a.ids.items };
}

impl Ids {
    ghost use Rattle.std.specs.Prelude.{◌≡◌, [], IfOk};
    ghost use Rattle.std.specs.declared.option.Option.TheVariants.{None};
    ghost use Rattle.mi_model.specs.Change.{stand_before, stand, without, moved_in, relocated};

    /// No ids.
    pub(crate) fn new(alloc: Global) -> Ids
        ensures { result ≡ [] }
    {
        Ids {
            ids: Vec::new(alloc),
        }
    }

    /// The same ids.
    pub(crate) fn copy(&self, alloc: Global) -> Result<Ids, AllocError>
        ensures { IfOk result (λ copied. copied ≡ self.now) }
    {
        let ids = Vec::from_slice(alloc, self.ids.as_slice())?;
        Ok(Ids { ids })
    }

    /// The ids with e at the end.
    fn with_last(&self, alloc: Global, e: u64) -> Result<Ids, AllocError>
        ensures { IfOk result (λ ids. ids ≡ stand None e self.now) }
    {
        let mut ids = Vec::from_slice(alloc, self.ids.as_slice())?;
        ids.push(e)?;
        Ok(Ids { ids })
    }

    /// The ids in order.
    pub(crate) fn as_slice(&self) -> &[u64]
        ensures { result.now ≡ self.now }
    {
        self.ids.as_slice()
    }

    /// Takes e out. It takes no memory.
    fn remove(&mut self, e: u64)
        ensures { self.new ≡ without e self.old }
    {
        self.ids.retain(|a| *a != e);
    }

    /// The ids once the record of e is another: e goes last where its key in this index changes.
    fn with_moved(
        &self,
        alloc: Global,
        index: &Index,
        old: &Record,
        new: &Record,
        e: u64,
    ) -> Result<Ids, AllocError>
        ensures { IfOk result (λ ids. ids ≡ moved_in index.now old.now new.now e self.now) }
    {
        if same_key(old, new, index.parts.as_slice()) {
            return self.copy(alloc);
        }
        let mut ids = self.copy(alloc)?;
        ids.remove(e);
        ids.ids.push(e)?;
        Ok(ids)
    }

    /// The ids with e directly before b, or last; where both are one id as they are.
    fn with_relocated(&self, alloc: Global, e: u64, b: Option<u64>) -> Result<Ids, AllocError>
        ensures { IfOk result (λ ids. ids ≡ relocated b e self.now) }
    {
        if b == Some(e) {
            return self.copy(alloc);
        }
        let mut left = self.copy(alloc)?;
        left.remove(e);
        match b {
            None => left.with_last(alloc, e),
            Some(b) => left.with_before(alloc, b, e),
        }
    }

    /// The ids with e directly before b, or where b isn't among them at the end.
    fn with_before(&self, alloc: Global, b: u64, e: u64) -> Result<Ids, AllocError>
        ensures { IfOk result (λ ids. ids ≡ stand_before b e self.now) }
    {
        let mut ids = Vec::from_slice(alloc, self.ids.as_slice())?;
        let place = place_in(ids.as_slice(), b);
        ids.insert(place, e)?;
        Ok(Ids { ids })
    }
}

ghost use Rattle.std.specs.Prelude.{◌≡◌, ◌<◌, [], IfOk, map, length, slice_index_or};
ghost use Rattle.std.specs.declared.option.Option.TheVariants.{None};
ghost use Rattle.mi_model.specs.Change.{added, stand, without, moved, relocated};
ghost use Rattle.mi_catalog.specs.declared.index.Index.{Index as IndexSpec};

/// Each list with e at the end.
fn all_with_last(alloc: Global, lists: &[Ids], e: u64) -> Result<Vec<Ids>, AllocError>
    ensures { IfOk result (λ new. new.items ≡ map (stand None e) lists.now) }
{
    let mut new = Vec::new(alloc);
    for ids in lists {
        new.push(ids.with_last(alloc, e)?)?;
    }
    Ok(new)
}

/// The lists with e at its place in each: at the end, but in the list of `before` directly before its id.
pub(crate) fn with_added(
    alloc: Global,
    lists: &[Ids],
    e: u64,
    before: Option<(usize, u64)>,
) -> Result<Vec<Ids>, AllocError>
    ensures { IfOk result (λ new. new.items ≡ added before e lists.now) }
{
    let mut new = all_with_last(alloc, lists, e)?;
    if let Some((x, b)) = before
        && x < lists.len()
    {
        let ids = lists[x].with_before(alloc, b, e)?;
        new[x] = ids;
    }
    Ok(new)
}

/// The same lists.
pub(crate) fn copy_lists(alloc: Global, lists: &[Ids]) -> Result<Vec<Ids>, AllocError>
    ensures { IfOk result (λ new. new.items ≡ lists.now) }
{
    let mut new = Vec::new(alloc);
    for ids in lists {
        new.push(ids.copy(alloc)?)?;
    }
    Ok(new)
}

/// An empty list for each index.
pub(crate) fn empty_lists(alloc: Global, indexes: &[Index]) -> Result<Vec<Ids>, AllocError>
    ensures { IfOk result (λ new. new.items ≡ map (λ (_ : IndexSpec). []) indexes.now) }
{
    let mut new = Vec::new(alloc);
    for _index in indexes {
        new.push(Ids::new(alloc))?;
    }
    Ok(new)
}

/// Takes e out of each list. It takes no memory.
pub(crate) fn remove_from_all(lists: &mut [Ids], e: u64)
    ensures { lists.new ≡ map (without e) lists.old }
{
    for ids in lists.iter_mut() {
        ids.remove(e);
    }
}

/// The lists once the record of e is another: e goes last in each list whose index sees its key change.
pub(crate) fn with_moved(
    alloc: Global,
    indexes: &[Index],
    lists: &[Ids],
    old: &Record,
    new: &Record,
    e: u64,
) -> Result<Vec<Ids>, AllocError>
    ensures { IfOk result (λ all. all.items ≡ moved indexes.now old.now new.now e lists.now) }
{
    let mut all = Vec::new(alloc);
    for (i, ids) in lists.iter().enumerate() {
        let ids = match indexes.get(i) {
            Some(index) => ids.with_moved(alloc, index, old, new, e)?,
            None => ids.copy(alloc)?,
        };
        all.push(ids)?;
    }
    Ok(all)
}

/// The list of index x with e directly before b, or last.
pub(crate) fn with_relocated(
    alloc: Global,
    lists: &[Ids],
    x: usize,
    e: u64,
    b: Option<u64>,
) -> Result<Ids, AllocError>
    requires { x < length lists.now }
    ensures { IfOk result (λ ids. ids ≡ relocated b e (slice_index_or lists.now x [])) }
{
    lists[x].with_relocated(alloc, e, b)
}
