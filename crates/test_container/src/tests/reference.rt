//! The plain database of one table, asked as a container is: each change in a session of its own. Each call asks at run time what the
//! database's own call wants of its arguments.
ghost use Rattle.std.specs.Prelude.{◌≡◌, IsTrue, IfSome};
ghost use Rattle.mi_catalog.specs.Shape.{schema_at};
ghost use Rattle.mi_catalog.specs.Fitting.{HasTable, IsKeyedIndex, IsHashedIndex, IsSortedIndex, IsSequencedIndex, IsListedIndex};
ghost use Rattle.mi_catalog.specs.Fitting.{FitsWhole, FitsPrefix, FitsLookUp};
ghost use Rattle.mi_model.specs.Database.{table_of};
ghost use Rattle.mi_model.specs.Table.{has as has_row};

use super::asking::{check, check_below};
use super::change::{Answer, Change, Rows, Way};
use super::fitting::{fits_edits, kind_at};
use mi_catalog::{Catalog, Schema};
use mi_plain::Plain;
use mi_query::{count, find};
use mi_sessions::Sessions;
use mi_value::{Edit, Lower, Record, Refusal, Steps, Upper, Value};
use std::alloc::{AllocError, Global};
use std::process::Abort;
use std::test::Fail;

/// The database of one table.
#[derive(Drop)]
pub(super) struct Reference {
    plain: Plain,
}

impl Reference {
    pub(super) fn open(alloc: Global, schema: Schema) -> Result<Reference, AllocError> {
        let plain = Plain::new(alloc, Catalog::of(alloc, schema)?)?;
        Ok(Reference { plain })
    }

    /// Its schema; stops where there is no table.
    fn schema(&self, rt: &impl Abort) -> &Schema
        ensures table { HasTable self.now.plain.catalog 0 }
        ensures schema { result.now ≡ schema_at self.now.plain.catalog 0 }
    {
        let catalog = self.plain.catalog();
        check_below(rt, 0, catalog.table_count());
        catalog.table(0)
    }

    /// Stops unless index i has keys, and is asked by these values: whole keys if it is hashed, and else also the first values of one.
    fn want_look_up(&self, rt: &impl Abort, i: usize, key: &[Value])
        ensures table { HasTable self.now.plain.catalog 0 }
        ensures index { IsKeyedIndex self.now.plain.catalog 0 i }
        ensures key { FitsLookUp self.now.plain.catalog 0 i key.now }
    {
        let schema = self.schema(rt);
        let kind = kind_at(rt, schema, i);
        check(rt, kind.has_keys(), "it has keys");
        check(rt, schema.fits_key(i, key, kind.is_hashed()), "a key of it");
    }

    /// Stops unless it is hashed.
    fn want_hashed(&self, rt: &impl Abort, i: usize)
        ensures table { HasTable self.now.plain.catalog 0 }
        ensures index { IsHashedIndex self.now.plain.catalog 0 i }
    {
        check(rt, kind_at(rt, self.schema(rt), i).is_hashed(), "hashed");
    }

    /// Stops unless it is hashed, and values are a whole key of it.
    fn want_key(&self, rt: &impl Abort, i: usize, key: &[Value])
        ensures table { HasTable self.now.plain.catalog 0 }
        ensures index { IsHashedIndex self.now.plain.catalog 0 i }
        ensures key { FitsWhole self.now.plain.catalog 0 i key.now }
    {
        self.want_hashed(rt, i);
        check(rt, self.schema(rt).fits_key(i, key, true), "a whole key");
    }

    /// Stops unless it is ordered or ranked.
    fn want_sorted(&self, rt: &impl Abort, i: usize)
        ensures table { HasTable self.now.plain.catalog 0 }
        ensures index { IsSortedIndex self.now.plain.catalog 0 i }
    {
        check(rt, kind_at(rt, self.schema(rt), i).is_sorted(), "sorted");
    }

    /// Stops unless it is ordered or ranked, and values are a key of it, or the first values of one.
    fn want_prefix(&self, rt: &impl Abort, i: usize, key: &[Value])
        ensures table { HasTable self.now.plain.catalog 0 }
        ensures index { IsSortedIndex self.now.plain.catalog 0 i }
        ensures key { FitsPrefix self.now.plain.catalog 0 i key.now }
    {
        let schema = self.schema(rt);
        check(rt, kind_at(rt, schema, i).is_sorted(), "it is sorted");
        check(rt, schema.fits_key(i, key, false), "a prefix");
    }

    /// Stops unless it is sequenced.
    fn want_sequenced(&self, rt: &impl Abort, i: usize)
        ensures table { HasTable self.now.plain.catalog 0 }
        ensures index { IsSequencedIndex self.now.plain.catalog 0 i }
    {
        let kind = kind_at(rt, self.schema(rt), i);
        check(rt, kind.is_sequenced(), "it is sequenced");
    }

    /// Stops unless it shows one list.
    fn want_listed(&self, rt: &impl Abort, i: usize)
        ensures table { HasTable self.now.plain.catalog 0 }
        ensures index { IsListedIndex self.now.plain.catalog 0 i }
    {
        let kind = kind_at(rt, self.schema(rt), i);
        check(rt, kind.shows_one_list(), "it shows one list");
    }

    /// Stops unless a record may be placed there.
    fn want_place(&self, rt: &impl Abort, before: Option<(usize, u64)>)
        ensures { IfSome before (λ at. IsSequencedIndex self.now.plain.catalog 0 at.0) }
    {
        if let Some((index, _)) = before {
            self.want_sequenced(rt, index);
        }
    }

    /// Stops unless there is a record of this id.
    fn want_record(&self, rt: &impl Abort, id: u64)
        requires { HasTable self.now.plain.catalog 0 }
        ensures { IsTrue (has_row (table_of self.now.plain 0) id) }
    {
        let found = self.plain.get(0, id, &mut Steps::new());
        check(rt, found.is_some(), "a record");
    }

    fn insert(
        &mut self,
        rt: &impl Abort,
        alloc: Global,
        row: Record,
        before: Option<(usize, u64)>,
    ) -> Answer {
        check(rt, self.schema(rt).fits_record(&row), "a record that fits");
        self.want_place(rt, before);
        match self.plain.insert(alloc, 0, row, before) {
            Ok(id) => Ok(Some(id)),
            Err((refusal, _)) => Err(refusal),
        }
    }

    fn replace(&mut self, rt: &impl Abort, alloc: Global, id: u64, row: Record) -> Answer {
        check(rt, self.schema(rt).fits_record(&row), "a record that fits");
        match self.plain.replace(alloc, 0, id, row) {
            Ok(()) => Ok(None),
            Err((refusal, _)) => Err(refusal),
        }
    }

    fn modify(
        &mut self,
        rt: &impl Abort,
        alloc: Global,
        id: u64,
        edits: &[Edit],
        rollback: bool,
    ) -> Answer {
        check(rt, fits_edits(self.schema(rt).columns(), edits), "edits");
        self.plain.modify(alloc, 0, id, edits, rollback)?;
        Ok(None)
    }

    fn erase(&mut self, rt: &impl Abort, alloc: Global, id: u64) -> Answer {
        let _ = self.schema(rt);
        self.plain.erase(alloc, 0, id)?;
        Ok(None)
    }

    fn relocate(
        &mut self,
        rt: &impl Abort,
        alloc: Global,
        index: usize,
        id: u64,
        before: Option<u64>,
    ) -> Answer {
        self.want_sequenced(rt, index);
        self.plain.relocate(alloc, 0, index, id, before)?;
        Ok(None)
    }

    /// Makes a change in a session of its own, which one that changed nothing doesn't leave.
    pub(super) fn change(
        &mut self,
        rt: &impl Abort,
        alloc: Global,
        change: &Change,
    ) -> Result<Answer, Fail> {
        let _revision = self.plain.start(alloc)?;
        let answer = match change {
            Change::Insert(row, before) => self.insert(rt, alloc, row.copy(alloc)?, *before),
            Change::Replace(id, row) => self.replace(rt, alloc, *id, row.copy(alloc)?),
            Change::Modify(id, edits, rollback) => {
                self.modify(rt, alloc, *id, edits.as_slice(), *rollback)
            }
            Change::Erase(id) => self.erase(rt, alloc, *id),
            Change::Relocate(index, id, before) => self.relocate(rt, alloc, *index, *id, *before),
        };
        if !matches!(answer, Ok(_) | Err(Refusal::Lost { .. })) {
            let _revision = self.plain.squash()?;
        }
        Ok(answer)
    }

    /// Takes the newest change back, and tells whether there was one.
    pub(super) fn undo(&mut self) -> bool {
        self.plain.undo().is_ok()
    }

    /// Keeps the oldest change, and tells whether there was one.
    pub(super) fn commit_oldest(&mut self) -> bool {
        let before = self.plain.revision().saturating_sub(self.plain.depth());
        self.plain.commit(before.saturating_add(1)) == 1
    }

    /// How many changes can be taken back.
    pub(super) fn depth(&self) -> u64 {
        self.plain.depth()
    }

    pub(super) fn size(&self, rt: &impl Abort) -> u64 {
        let _ = self.schema(rt);
        self.plain.size(0)
    }

    pub(super) fn first(&self, rt: &impl Abort, index: usize) -> Option<u64> {
        self.want_listed(rt, index);
        self.plain.first(0, index)
    }

    pub(super) fn last(&self, rt: &impl Abort, index: usize) -> Option<u64> {
        self.want_listed(rt, index);
        self.plain.last(0, index)
    }

    pub(super) fn after(&self, rt: &impl Abort, index: usize, id: u64) -> Option<u64> {
        self.want_listed(rt, index);
        self.want_record(rt, id);
        self.plain.after(0, index, id)
    }

    pub(super) fn before(&self, rt: &impl Abort, index: usize, id: u64) -> Option<u64> {
        self.want_listed(rt, index);
        self.want_record(rt, id);
        self.plain.before(0, index, id)
    }

    pub(super) fn walk(
        &self,
        rt: &impl Abort,
        alloc: Global,
        way: Way,
    ) -> Result<Rows<'_>, Refusal> {
        let kind = kind_at(rt, self.schema(rt), way.index);
        if kind.is_sequenced() {
            self.want_sequenced(rt, way.index);
            self.want_record(rt, way.first);
            return self
                .plain
                .walk(alloc, 0, way.index, way.reverse, way.first, way.limit);
        }
        self.want_sorted(rt, way.index);
        let (lower, upper) = (Lower::All, Upper::All);
        let mut steps = Steps::new();
        self.plain.walk_range(
            alloc,
            0,
            way.index,
            &lower,
            &upper,
            way.reverse,
            way.limit,
            &mut steps,
        )
    }

    pub(super) fn find(&self, rt: &impl Abort, index: usize, key: &[Value]) -> Option<u64> {
        self.want_look_up(rt, index, key);
        find(&self.plain, 0, index, key, &mut Steps::new())
    }

    pub(super) fn count(&self, rt: &impl Abort, index: usize, key: &[Value]) -> u64 {
        self.want_look_up(rt, index, key);
        count(&self.plain, 0, index, key, &mut Steps::new())
    }

    pub(super) fn first_of(&self, rt: &impl Abort, index: usize, key: &[Value]) -> Option<u64> {
        self.want_key(rt, index, key);
        self.plain.first_of(0, index, key)
    }

    pub(super) fn next_of(&self, rt: &impl Abort, index: usize, id: u64) -> Option<u64> {
        self.want_hashed(rt, index);
        self.want_record(rt, id);
        self.plain.next_of(0, index, id)
    }

    pub(super) fn nth(&self, rt: &impl Abort, index: usize, n: u64) -> Option<u64> {
        self.want_sorted(rt, index);
        self.plain.nth(0, index, n)
    }

    pub(super) fn rank_of(&self, rt: &impl Abort, index: usize, id: u64) -> u64 {
        self.want_sorted(rt, index);
        self.want_record(rt, id);
        self.plain.rank_of(0, index, id, &mut Steps::new())
    }

    pub(super) fn lower(&self, rt: &impl Abort, index: usize, key: &[Value]) -> Option<u64> {
        self.want_prefix(rt, index, key);
        self.plain.lower(0, index, key, &mut Steps::new())
    }

    pub(super) fn upper(&self, rt: &impl Abort, index: usize, key: &[Value]) -> Option<u64> {
        self.want_prefix(rt, index, key);
        self.plain.upper(0, index, key, &mut Steps::new())
    }

    pub(super) fn lower_rank(&self, rt: &impl Abort, index: usize, key: &[Value]) -> u64 {
        self.want_prefix(rt, index, key);
        self.plain.lower_rank(0, index, key, &mut Steps::new())
    }

    pub(super) fn upper_rank(&self, rt: &impl Abort, index: usize, key: &[Value]) -> u64 {
        self.want_prefix(rt, index, key);
        self.plain.upper_rank(0, index, key, &mut Steps::new())
    }
}
