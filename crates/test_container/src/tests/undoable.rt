//! A container with the inverses of its changes, which are taken back or settled. Each call asks at run time what the container's own
//! call wants of its arguments.
ghost use Rattle.std.specs.Prelude.{◌≡◌, IsTrue, IfOk, IfSome};
ghost use Rattle.mi_model.specs.Table.{has as has_row};
ghost use Rattle.mi_container.specs.Asked.{IsKeyed, IsHashed, IsSorted, IsSequenced, ShowsOneList, WholeKey, KeyPrefix};
ghost use Rattle.mi_container.specs.Data.{as_table};
ghost use Rattle.test_container.specs.Undone.{CanTakeBack};

use super::asking::{check, check_below};
use super::change::{Answer, Rows, Way};
use super::fitting::{fits_edits, kind_at};
use super::inverse::{Inverse, erase, insert, modify, relocate, replace, settle, unwind};
use mi_catalog::Schema;
use mi_container::{Container, RestoreFault, TableImage};
use mi_value::{Edit, Lower, Record, Refusal, Steps, Upper, Value};
use std::alloc::{AllocError, Global};
use std::collections::VecDeque;
use std::process::Abort;

/// A container, its schema, and the inverses of its changes, the oldest first.
#[derive(Drop)]
pub(super) struct Undoable<C: Container> {
    pub(super) schema: Schema,
    pub(super) rows: C,
    inverses: VecDeque<Inverse>,
}

impl<C: Container> Undoable<C> {
    /// The container that a schema opens with.
    pub(super) fn open(alloc: Global, schema: Schema) -> Result<Undoable<C>, AllocError>
        ensures { IfOk result (λ u. CanTakeBack u.schema (C.shape u.rows) (C.plain u.rows) u.inverses.items) }
    {
        let rows = C::new(alloc, schema.copy(alloc)?, 1)?;
        Ok(Undoable {
            schema,
            rows,
            inverses: VecDeque::new(alloc),
        })
    }

    /// The container that holds a table.
    pub(super) fn restored(
        alloc: Global,
        schema: Schema,
        image: TableImage,
    ) -> Result<Undoable<C>, RestoreFault>
        ensures { IfOk result (λ u. CanTakeBack u.schema (C.shape u.rows) (C.plain u.rows) u.inverses.items) }
    {
        let rows = C::restored(alloc, schema.copy(alloc)?, 1, image)?;
        Ok(Undoable {
            schema,
            rows,
            inverses: VecDeque::new(alloc),
        })
    }

    /// Stops unless an index is there and has keys.
    fn want_keyed(&self, rt: &impl Abort, index: usize)
        requires { CanTakeBack self.now.schema (C.shape self.now.rows) (C.plain self.now.rows) self.now.inverses.items }
        ensures { IsKeyed (C.shape self.now.rows) index }
    {
        check(rt, kind_at(rt, &self.schema, index).has_keys(), "keys");
    }

    /// Stops unless it is hashed.
    fn want_hashed(&self, rt: &impl Abort, index: usize)
        requires { CanTakeBack self.now.schema (C.shape self.now.rows) (C.plain self.now.rows) self.now.inverses.items }
        ensures { IsHashed (C.shape self.now.rows) index }
    {
        check(rt, kind_at(rt, &self.schema, index).is_hashed(), "hashed");
    }

    /// Stops unless it is ordered or ranked.
    fn want_sorted(&self, rt: &impl Abort, index: usize)
        requires { CanTakeBack self.now.schema (C.shape self.now.rows) (C.plain self.now.rows) self.now.inverses.items }
        ensures { IsSorted (C.shape self.now.rows) index }
    {
        check(rt, kind_at(rt, &self.schema, index).is_sorted(), "sorted");
    }

    /// Stops unless it is sequenced.
    fn want_sequenced(&self, rt: &impl Abort, index: usize)
        requires { CanTakeBack self.now.schema (C.shape self.now.rows) (C.plain self.now.rows) self.now.inverses.items }
        ensures { IsSequenced (C.shape self.now.rows) index }
    {
        let kind = kind_at(rt, &self.schema, index);
        check(rt, kind.is_sequenced(), "it is sequenced");
    }

    /// Stops unless it shows one list.
    fn want_listed(&self, rt: &impl Abort, index: usize)
        requires { CanTakeBack self.now.schema (C.shape self.now.rows) (C.plain self.now.rows) self.now.inverses.items }
        ensures { ShowsOneList (C.shape self.now.rows) index }
    {
        let kind = kind_at(rt, &self.schema, index);
        check(rt, kind.shows_one_list(), "it shows one list");
    }

    /// Stops unless a record may be placed there.
    fn want_place(&self, rt: &impl Abort, before: Option<(usize, u64)>)
        requires { CanTakeBack self.now.schema (C.shape self.now.rows) (C.plain self.now.rows) self.now.inverses.items }
        ensures { IfSome before (λ at. IsSequenced (C.shape self.now.rows) at.0) }
    {
        if let Some((index, _)) = before {
            self.want_sequenced(rt, index);
        }
    }

    /// Stops unless values are a whole key of an index.
    fn want_key(&self, rt: &impl Abort, index: usize, key: &[Value])
        requires { CanTakeBack self.now.schema (C.shape self.now.rows) (C.plain self.now.rows) self.now.inverses.items }
        ensures { WholeKey (C.shape self.now.rows) index key.now }
    {
        check_below(rt, index, self.schema.index_count());
        check(rt, self.schema.fits_key(index, key, true), "a whole key");
    }

    /// Stops unless they are a key of it, or the first values of one.
    fn want_prefix(&self, rt: &impl Abort, index: usize, key: &[Value])
        requires { CanTakeBack self.now.schema (C.shape self.now.rows) (C.plain self.now.rows) self.now.inverses.items }
        ensures { KeyPrefix (C.shape self.now.rows) index key.now }
    {
        check_below(rt, index, self.schema.index_count());
        check(rt, self.schema.fits_key(index, key, false), "a prefix");
    }

    /// Stops unless there is a record of this id.
    fn want_record(&self, rt: &impl Abort, id: u64)
        ensures { IsTrue (has_row (as_table (C.plain self.now.rows)) id) }
    {
        check(rt, self.has(id), "a record");
    }

    /// Whether there is a record of this id.
    pub(super) fn has(&self, id: u64) -> bool
        ensures { IsTrue result → IsTrue (has_row (as_table (C.plain self.now.rows)) id) }
    {
        self.rows.get(id, &mut Steps::new()).is_some()
    }

    /// Adds a record, at the end or in a sequenced index before another.
    pub(super) fn insert(
        &mut self,
        rt: &impl Abort,
        alloc: Global,
        row: Record,
        before: Option<(usize, u64)>,
    ) -> Answer
        requires { CanTakeBack self.old.schema (C.shape self.old.rows) (C.plain self.old.rows) self.old.inverses.items }
        ensures { CanTakeBack self.new.schema (C.shape self.new.rows) (C.plain self.new.rows) self.new.inverses.items }
    {
        self.inverses.reserve(1)?;
        self.rows.keeps_rules();
        check(rt, self.schema.fits_record(&row), "a record that fits");
        self.want_place(rt, before);
        match insert(&mut self.rows, alloc, row, before) {
            Ok((id, inverse)) => {
                self.inverses.push_back_reserved(inverse);
                Ok(Some(id))
            }
            Err((refusal, _)) => Err(refusal),
        }
    }

    /// Sets another record.
    pub(super) fn replace(&mut self, rt: &impl Abort, id: u64, row: Record) -> Answer
        requires { CanTakeBack self.old.schema (C.shape self.old.rows) (C.plain self.old.rows) self.old.inverses.items }
        ensures { CanTakeBack self.new.schema (C.shape self.new.rows) (C.plain self.new.rows) self.new.inverses.items }
    {
        self.inverses.reserve(1)?;
        self.rows.keeps_rules();
        check(rt, self.schema.fits_record(&row), "a record that fits");
        match replace(&mut self.rows, id, row) {
            Ok(inverse) => {
                self.inverses.push_back_reserved(inverse);
                Ok(None)
            }
            Err(refusal) => Err(refusal),
        }
    }

    /// Changes columns of a record; where that loses the record its refusal is `Lost`.
    pub(super) fn modify(
        &mut self,
        rt: &impl Abort,
        alloc: Global,
        id: u64,
        edits: &[Edit],
        rollback: bool,
    ) -> Answer
        requires { CanTakeBack self.old.schema (C.shape self.old.rows) (C.plain self.old.rows) self.old.inverses.items }
        ensures { CanTakeBack self.new.schema (C.shape self.new.rows) (C.plain self.new.rows) self.new.inverses.items }
    {
        self.inverses.reserve(1)?;
        self.rows.keeps_rules();
        check(rt, fits_edits(self.schema.columns(), edits), "edits");
        match modify(&mut self.rows, alloc, id, edits, rollback) {
            Ok(inverse) => {
                let lost = inverse.lost();
                self.inverses.push_back_reserved(inverse);
                match lost {
                    Some((index, id)) => Err(Refusal::Lost { index, id }),
                    None => Ok(None),
                }
            }
            Err(refusal) => Err(refusal),
        }
    }

    /// Adds a number to a column.
    pub(super) fn add(
        &mut self,
        rt: &impl Abort,
        alloc: Global,
        id: u64,
        column: usize,
        n: i64,
        rollback: bool,
    ) -> Answer
        requires { CanTakeBack self.old.schema (C.shape self.old.rows) (C.plain self.old.rows) self.old.inverses.items }
        ensures { CanTakeBack self.new.schema (C.shape self.new.rows) (C.plain self.new.rows) self.new.inverses.items }
    {
        self.modify(rt, alloc, id, &[Edit::Add(column, n)], rollback)
    }

    /// Erases a record.
    pub(super) fn erase(&mut self, id: u64) -> Answer
        requires { CanTakeBack self.old.schema (C.shape self.old.rows) (C.plain self.old.rows) self.old.inverses.items }
        ensures { CanTakeBack self.new.schema (C.shape self.new.rows) (C.plain self.new.rows) self.new.inverses.items }
    {
        self.inverses.reserve(1)?;
        self.rows.keeps_rules();
        match erase(&mut self.rows, id) {
            Ok(inverse) => {
                self.inverses.push_back_reserved(inverse);
                Ok(None)
            }
            Err(refusal) => Err(refusal),
        }
    }

    /// Moves a record in a sequenced index before another, or to its end.
    pub(super) fn relocate(
        &mut self,
        rt: &impl Abort,
        index: usize,
        id: u64,
        before: Option<u64>,
    ) -> Answer
        requires { CanTakeBack self.old.schema (C.shape self.old.rows) (C.plain self.old.rows) self.old.inverses.items }
        ensures { CanTakeBack self.new.schema (C.shape self.new.rows) (C.plain self.new.rows) self.new.inverses.items }
    {
        self.inverses.reserve(1)?;
        self.rows.keeps_rules();
        self.want_sequenced(rt, index);
        match relocate(&mut self.rows, index, id, before) {
            Ok(inverse) => {
                self.inverses.push_back_reserved(inverse);
                Ok(None)
            }
            Err(refusal) => Err(refusal),
        }
    }

    /// Takes the newest change back, and tells whether there was one.
    pub(super) fn unwind(&mut self) -> bool
        requires { CanTakeBack self.old.schema (C.shape self.old.rows) (C.plain self.old.rows) self.old.inverses.items }
        ensures { CanTakeBack self.new.schema (C.shape self.new.rows) (C.plain self.new.rows) self.new.inverses.items }
    {
        match self.inverses.pop_back() {
            Some(inverse) => {
                unwind(&mut self.rows, inverse);
                true
            }
            None => false,
        }
    }

    /// How many changes can be taken back or settled.
    pub(super) fn depth(&self) -> u64 {
        self.inverses.len() as u64
    }

    /// Settles the oldest change, and tells whether there was one.
    pub(super) fn settle(&mut self) -> bool
        requires { CanTakeBack self.old.schema (C.shape self.old.rows) (C.plain self.old.rows) self.old.inverses.items }
        ensures { CanTakeBack self.new.schema (C.shape self.new.rows) (C.plain self.new.rows) self.new.inverses.items }
    {
        self.rows.keeps_rules();
        match self.inverses.pop_front() {
            Some(inverse) => {
                settle(&mut self.rows, inverse);
                true
            }
            None => false,
        }
    }

    pub(super) fn first(&self, rt: &impl Abort, index: usize) -> Option<u64>
        requires { CanTakeBack self.now.schema (C.shape self.now.rows) (C.plain self.now.rows) self.now.inverses.items }
    {
        self.want_listed(rt, index);
        self.rows.first(index)
    }

    pub(super) fn last(&self, rt: &impl Abort, index: usize) -> Option<u64>
        requires { CanTakeBack self.now.schema (C.shape self.now.rows) (C.plain self.now.rows) self.now.inverses.items }
    {
        self.want_listed(rt, index);
        self.rows.last(index)
    }

    pub(super) fn after(&self, rt: &impl Abort, index: usize, id: u64) -> Option<u64>
        requires { CanTakeBack self.now.schema (C.shape self.now.rows) (C.plain self.now.rows) self.now.inverses.items }
    {
        self.want_listed(rt, index);
        self.want_record(rt, id);
        self.rows.after(index, id)
    }

    pub(super) fn before(&self, rt: &impl Abort, index: usize, id: u64) -> Option<u64>
        requires { CanTakeBack self.now.schema (C.shape self.now.rows) (C.plain self.now.rows) self.now.inverses.items }
    {
        self.want_listed(rt, index);
        self.want_record(rt, id);
        self.rows.before(index, id)
    }

    pub(super) fn walk(
        &self,
        rt: &impl Abort,
        alloc: Global,
        way: Way,
    ) -> Result<Rows<'_>, AllocError>
        requires { CanTakeBack self.now.schema (C.shape self.now.rows) (C.plain self.now.rows) self.now.inverses.items }
    {
        let kind = kind_at(rt, &self.schema, way.index);
        if kind.is_sequenced() {
            self.want_sequenced(rt, way.index);
            self.want_record(rt, way.first);
            return self
                .rows
                .walk(alloc, way.index, way.reverse, way.first, way.limit);
        }
        self.want_sorted(rt, way.index);
        let (lower, upper) = (Lower::All, Upper::All);
        let mut steps = Steps::new();
        self.rows.walk_range(
            alloc,
            way.index,
            &lower,
            &upper,
            way.reverse,
            way.limit,
            &mut steps,
        )
    }

    pub(super) fn find(&self, rt: &impl Abort, index: usize, key: &[Value]) -> Option<u64>
        requires { CanTakeBack self.now.schema (C.shape self.now.rows) (C.plain self.now.rows) self.now.inverses.items }
    {
        self.want_keyed(rt, index);
        self.want_key(rt, index, key);
        self.rows.find(index, key)
    }

    pub(super) fn count(&self, rt: &impl Abort, index: usize, key: &[Value]) -> u64
        requires { CanTakeBack self.now.schema (C.shape self.now.rows) (C.plain self.now.rows) self.now.inverses.items }
    {
        self.want_keyed(rt, index);
        self.want_key(rt, index, key);
        self.rows.count(index, key, &mut Steps::new())
    }

    pub(super) fn first_of(&self, rt: &impl Abort, index: usize, key: &[Value]) -> Option<u64>
        requires { CanTakeBack self.now.schema (C.shape self.now.rows) (C.plain self.now.rows) self.now.inverses.items }
    {
        self.want_hashed(rt, index);
        self.want_key(rt, index, key);
        self.rows.first_of(index, key)
    }

    pub(super) fn next_of(&self, rt: &impl Abort, index: usize, id: u64) -> Option<u64>
        requires { CanTakeBack self.now.schema (C.shape self.now.rows) (C.plain self.now.rows) self.now.inverses.items }
    {
        self.want_hashed(rt, index);
        self.want_record(rt, id);
        self.rows.next_of(index, id)
    }

    pub(super) fn nth(&self, rt: &impl Abort, index: usize, n: u64) -> Option<u64>
        requires { CanTakeBack self.now.schema (C.shape self.now.rows) (C.plain self.now.rows) self.now.inverses.items }
    {
        self.want_sorted(rt, index);
        self.rows.nth(index, n)
    }

    pub(super) fn rank_of(&self, rt: &impl Abort, index: usize, id: u64) -> u64
        requires { CanTakeBack self.now.schema (C.shape self.now.rows) (C.plain self.now.rows) self.now.inverses.items }
    {
        self.want_sorted(rt, index);
        self.want_record(rt, id);
        self.rows.rank_of(index, id, &mut Steps::new())
    }

    pub(super) fn lower(&self, rt: &impl Abort, index: usize, key: &[Value]) -> Option<u64>
        requires { CanTakeBack self.now.schema (C.shape self.now.rows) (C.plain self.now.rows) self.now.inverses.items }
    {
        self.want_sorted(rt, index);
        self.want_prefix(rt, index, key);
        self.rows.lower(index, key, &mut Steps::new())
    }

    pub(super) fn upper(&self, rt: &impl Abort, index: usize, key: &[Value]) -> Option<u64>
        requires { CanTakeBack self.now.schema (C.shape self.now.rows) (C.plain self.now.rows) self.now.inverses.items }
    {
        self.want_sorted(rt, index);
        self.want_prefix(rt, index, key);
        self.rows.upper(index, key, &mut Steps::new())
    }

    pub(super) fn lower_rank(&self, rt: &impl Abort, index: usize, key: &[Value]) -> u64
        requires { CanTakeBack self.now.schema (C.shape self.now.rows) (C.plain self.now.rows) self.now.inverses.items }
    {
        self.want_sorted(rt, index);
        self.want_prefix(rt, index, key);
        self.rows.lower_rank(index, key, &mut Steps::new())
    }

    pub(super) fn upper_rank(&self, rt: &impl Abort, index: usize, key: &[Value]) -> u64
        requires { CanTakeBack self.now.schema (C.shape self.now.rows) (C.plain self.now.rows) self.now.inverses.items }
    {
        self.want_sorted(rt, index);
        self.want_prefix(rt, index, key);
        self.rows.upper_rank(index, key, &mut Steps::new())
    }
}
