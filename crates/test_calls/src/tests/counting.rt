//! A database that hands each call on to another and counts those that look up a record or step from one to the next.
use mi_catalog::Catalog;
use mi_sessions::Sessions;
use mi_value::{Edit, Lower, NoSession, Record, Refusal, Steps, Upper, Value};
use std::alloc::Global;
use std::cell::Cell;

/// A database that tells how often it was asked.
pub(super) trait Asked: Sessions + Drop {
    /// How often it was asked since this was last called; the count begins anew.
    fn take_asked(&self) -> u64;
}

/// A database, and how often it was asked for a record, for an id or for a rank.
#[derive(Drop)]
pub(super) struct Counting<D> {
    inner: D,
    asked: Cell<u64>,
}

impl<D: Sessions> Counting<D> {
    ghost use Rattle.std.specs.Prelude.{◌≡◌};

    /// The same database, not asked yet.
    pub(super) fn new(inner: D) -> Counting<D>
        ensures { result.inner ≡ inner }
    {
        Counting {
            inner,
            asked: Cell::new(0),
        }
    }

    /// Counts a call, and lends the database to make it.
    fn ask(&self) -> &D
        ensures { result.now ≡ self.now.inner }
    {
        self.asked.set(self.asked.get().saturating_add(1));
        &self.inner
    }
}

impl<D: Sessions + Drop> Asked for Counting<D> {
    fn take_asked(&self) -> u64 {
        self.asked.take()
    }
}

impl<D: Sessions> Sessions for Counting<D> {
    ghost state = { λ s. D.state s.inner };

    ghost bound = { D.bound };

    fn keeps_rules(&self) {
        self.inner.keeps_rules();
    }

    fn catalog(&self) -> &Catalog {
        self.inner.catalog()
    }

    fn insert(
        &mut self,
        alloc: Global,
        table: usize,
        row: Record,
        before: Option<(usize, u64)>,
    ) -> Result<u64, (Refusal, Record)> {
        self.inner.insert(alloc, table, row, before)
    }

    fn replace(
        &mut self,
        alloc: Global,
        table: usize,
        id: u64,
        row: Record,
    ) -> Result<(), (Refusal, Record)> {
        self.inner.replace(alloc, table, id, row)
    }

    fn modify(
        &mut self,
        alloc: Global,
        table: usize,
        id: u64,
        edits: &[Edit],
        rollback: bool,
    ) -> Result<(), Refusal> {
        self.inner.modify(alloc, table, id, edits, rollback)
    }

    fn erase(&mut self, alloc: Global, table: usize, id: u64) -> Result<(), Refusal> {
        self.inner.erase(alloc, table, id)
    }

    fn erase_key(
        &mut self,
        alloc: Global,
        table: usize,
        index: usize,
        key: &[Value],
    ) -> Result<u64, Refusal> {
        self.inner.erase_key(alloc, table, index, key)
    }

    fn relocate(
        &mut self,
        alloc: Global,
        table: usize,
        index: usize,
        id: u64,
        before: Option<u64>,
    ) -> Result<(), Refusal> {
        self.inner.relocate(alloc, table, index, id, before)
    }

    fn size(&self, table: usize) -> u64 {
        self.inner.size(table)
    }

    fn memory(&self, table: usize) -> Option<u64> {
        self.inner.memory(table)
    }

    fn get(&self, table: usize, id: u64, steps: &mut Steps) -> Option<&Record> {
        self.ask().get(table, id, steps)
    }

    fn find_row(
        &self,
        table: usize,
        index: usize,
        key: &[Value],
        steps: &mut Steps,
    ) -> Option<(u64, &Record)> {
        self.ask().find_row(table, index, key, steps)
    }

    fn count(&self, table: usize, index: usize, key: &[Value], steps: &mut Steps) -> u64 {
        self.ask().count(table, index, key, steps)
    }

    fn first(&self, table: usize, index: usize) -> Option<u64> {
        self.ask().first(table, index)
    }

    fn last(&self, table: usize, index: usize) -> Option<u64> {
        self.ask().last(table, index)
    }

    fn after(&self, table: usize, index: usize, id: u64) -> Option<u64> {
        self.ask().after(table, index, id)
    }

    fn before(&self, table: usize, index: usize, id: u64) -> Option<u64> {
        self.ask().before(table, index, id)
    }

    fn walk(
        &self,
        alloc: Global,
        table: usize,
        index: usize,
        reverse: bool,
        first: u64,
        limit: usize,
    ) -> Result<Vec<(u64, &Record)>, Refusal> {
        self.ask().walk(alloc, table, index, reverse, first, limit)
    }

    fn walk_range(
        &self,
        alloc: Global,
        table: usize,
        index: usize,
        lower: &Lower,
        upper: &Upper,
        reverse: bool,
        limit: usize,
        steps: &mut Steps,
    ) -> Result<Vec<(u64, &Record)>, Refusal> {
        self.ask()
            .walk_range(alloc, table, index, lower, upper, reverse, limit, steps)
    }

    fn lower(&self, table: usize, index: usize, key: &[Value], steps: &mut Steps) -> Option<u64> {
        self.ask().lower(table, index, key, steps)
    }

    fn upper(&self, table: usize, index: usize, key: &[Value], steps: &mut Steps) -> Option<u64> {
        self.ask().upper(table, index, key, steps)
    }

    fn first_of(&self, table: usize, index: usize, key: &[Value]) -> Option<u64> {
        self.ask().first_of(table, index, key)
    }

    fn next_of(&self, table: usize, index: usize, id: u64) -> Option<u64> {
        self.ask().next_of(table, index, id)
    }

    fn nth(&self, table: usize, index: usize, n: u64) -> Option<u64> {
        self.ask().nth(table, index, n)
    }

    fn nth_row(&self, table: usize, index: usize, n: u64) -> Option<(u64, &Record)> {
        self.ask().nth_row(table, index, n)
    }

    fn rank(&self, table: usize, index: usize, id: u64, steps: &mut Steps) -> Option<u64> {
        self.ask().rank(table, index, id, steps)
    }

    fn rank_of(&self, table: usize, index: usize, id: u64, steps: &mut Steps) -> u64 {
        self.ask().rank_of(table, index, id, steps)
    }

    fn lower_rank(&self, table: usize, index: usize, key: &[Value], steps: &mut Steps) -> u64 {
        self.ask().lower_rank(table, index, key, steps)
    }

    fn upper_rank(&self, table: usize, index: usize, key: &[Value], steps: &mut Steps) -> u64 {
        self.ask().upper_rank(table, index, key, steps)
    }

    fn start(&mut self, alloc: Global) -> Result<u64, Refusal> {
        self.inner.start(alloc)
    }

    fn undo(&mut self) -> Result<u64, NoSession> {
        self.inner.undo()
    }

    fn squash(&mut self) -> Result<u64, NoSession> {
        self.inner.squash()
    }

    fn commit(&mut self, number: u64) -> u64 {
        self.inner.commit(number)
    }

    fn undo_all(&mut self) -> u64 {
        self.inner.undo_all()
    }

    fn reserve(&mut self, changes: u64, sessions: u64) -> Result<(), Refusal> {
        self.inner.reserve(changes, sessions)
    }

    fn revision(&self) -> u64 {
        self.inner.revision()
    }

    fn depth(&self) -> u64 {
        self.inner.depth()
    }
}
