//! A container beside the plain database: the same random changes to both, taken back and settled, and every answer and view compared.
ghost use Rattle.test_container.specs.Undone.{CanTakeBack};

use super::asking::check;
use super::change::{Answer, Change, TABLE};
use super::container::BY_ID;
use super::reference::Reference;
use super::undoable::Undoable;
use super::views::compare;
use mi_container::Container;
use mi_multi::MultiIndex;
use mi_random::Random;
use mi_schema::{Schema, read_schema};
use mi_value::Refusal;
use std::alloc::Global;
use std::process::Abort;
use std::test::Fail;

/// How many changes were made, refused, taken back and settled.
#[derive(Debug, Default, Drop)]
struct Tally {
    made: u64,
    lost: u64,
    no_id: u64,
    unique: u64,
    range: u64,
    full: u64,
    unwound: u64,
    settled: u64,
}

impl Tally {
    fn count(&mut self, answer: &Answer) {
        let seen = match answer {
            Ok(_) => &mut self.made,
            Err(Refusal::Lost { .. }) => &mut self.lost,
            Err(Refusal::NoId) => &mut self.no_id,
            Err(Refusal::Unique { .. }) => &mut self.unique,
            Err(Refusal::Range) => &mut self.range,
            Err(Refusal::Full) => &mut self.full,
            Err(_) => return,
        };
        *seen = seen.saturating_add(1);
    }

    /// Whether each was seen often.
    fn has_each(&self) -> bool {
        [
            self.made,
            self.lost,
            self.no_id,
            self.unique,
            self.range,
            self.full,
            self.unwound,
            self.settled,
        ]
        .iter()
        .all(|count| *count >= 50)
    }

    fn want_each(&self, rt: &impl Abort) {
        assert!(rt; self.has_each(), "{self:?}");
    }
}

fn schema(rt: &impl Abort, alloc: Global) -> Schema {
    read_schema(alloc, TABLE.as_bytes()).expect(rt, "the schema is read")
}

/// What the container answers to a change.
fn changed<C: Container>(
    rt: &impl Abort,
    alloc: Global,
    undoable: &mut Undoable<C>,
    change: &Change,
) -> Answer
    requires { CanTakeBack undoable.old.schema (C.shape undoable.old.rows) (C.plain undoable.old.rows) undoable.old.inverses.items }
    ensures { CanTakeBack undoable.new.schema (C.shape undoable.new.rows) (C.plain undoable.new.rows) undoable.new.inverses.items }
{
    match change {
        Change::Insert(row, before) => undoable.insert(rt, alloc, row.copy(alloc)?, *before),
        Change::Replace(id, row) => undoable.replace(rt, *id, row.copy(alloc)?),
        Change::Modify(id, edits, rollback) => {
            undoable.modify(rt, alloc, *id, edits.as_slice(), *rollback)
        }
        Change::Erase(id) => undoable.erase(*id),
        Change::Relocate(index, id, before) => undoable.relocate(rt, *index, *id, *before),
    }
}

/// Asserts that both answer the same to a change.
fn assert_answer(rt: &impl Abort, got: &Answer, want: &Answer, change: &Change) {
    assert_eq!(rt; got, want, "to {change:?}");
}

/// More changes than these aren't kept to be taken back.
const MOST_KEPT: u64 = 300;

/// As many steps as each of the tests below makes.
const STEPS: u64 = 10_000;

/// A container and the plain database of one table, where random changes come from, and what was done to both.
#[derive(Drop)]
struct Both<C: Container> {
    undoable: Undoable<C>,
    reference: Reference,
    random: Random,
    tally: Tally,
}

impl<C: Container> Both<C> {
    /// Mostly the id of a record, else one that a record has, had or is to have.
    fn some_id(&mut self, rt: &impl Abort) -> u64
        requires { CanTakeBack self.old.undoable.schema (C.shape self.old.undoable.rows) (C.plain self.old.undoable.rows) self.old.undoable.inverses.items }
        ensures { CanTakeBack self.new.undoable.schema (C.shape self.new.undoable.rows) (C.plain self.new.undoable.rows) self.new.undoable.inverses.items }
    {
        let n = self.random.below(self.undoable.rows.size());
        if self.random.is_one_in(8) {
            let last = self.undoable.last(rt, BY_ID).unwrap_or(0);
            self.random.below(last.saturating_add(4))
        } else {
            self.undoable.nth(rt, BY_ID, n).unwrap_or(0)
        }
    }

    /// A change of both.
    fn make(&mut self, rt: &impl Abort, alloc: Global, change: &Change) -> Result<(), Fail>
        requires { CanTakeBack self.old.undoable.schema (C.shape self.old.undoable.rows) (C.plain self.old.undoable.rows) self.old.undoable.inverses.items }
        ensures { CanTakeBack self.new.undoable.schema (C.shape self.new.undoable.rows) (C.plain self.new.undoable.rows) self.new.undoable.inverses.items }
    {
        let got = changed(rt, alloc, &mut self.undoable, change);
        let want = self.reference.change(rt, alloc, change)?;
        assert_answer(rt, &got, &want, change);
        self.tally.count(&got);
        Ok(())
    }

    /// The same random change to both.
    fn change(&mut self, rt: &impl Abort, alloc: Global) -> Result<(), Fail>
        requires { CanTakeBack self.old.undoable.schema (C.shape self.old.undoable.rows) (C.plain self.old.undoable.rows) self.old.undoable.inverses.items }
        ensures { CanTakeBack self.new.undoable.schema (C.shape self.new.undoable.rows) (C.plain self.new.undoable.rows) self.new.undoable.inverses.items }
    {
        let id = self.some_id(rt);
        let other = self.some_id(rt);
        let change = Change::random(alloc, &mut self.random, id, other)?;
        self.make(rt, alloc, &change)
    }

    /// Takes so many of the newest changes back, if there are as many.
    fn unwind(&mut self, rt: &impl Abort, most: u64)
        requires { CanTakeBack self.old.undoable.schema (C.shape self.old.undoable.rows) (C.plain self.old.undoable.rows) self.old.undoable.inverses.items }
        ensures { CanTakeBack self.new.undoable.schema (C.shape self.new.undoable.rows) (C.plain self.new.undoable.rows) self.new.undoable.inverses.items }
    {
        for _ in 0..most {
            let was_there = self.undoable.unwind();
            check(rt, was_there == self.reference.undo(), "both take it back");
            if !was_there {
                break;
            }
            self.tally.unwound = self.tally.unwound.saturating_add(1);
        }
    }

    /// Settles the oldest change, if there is one.
    fn settle(&mut self, rt: &impl Abort)
        requires { CanTakeBack self.old.undoable.schema (C.shape self.old.undoable.rows) (C.plain self.old.undoable.rows) self.old.undoable.inverses.items }
        ensures { CanTakeBack self.new.undoable.schema (C.shape self.new.undoable.rows) (C.plain self.new.undoable.rows) self.new.undoable.inverses.items }
    {
        let was_there = self.undoable.settle();
        let settles = self.reference.commit_oldest();
        check(rt, was_there == settles, "both settle");
        if was_there {
            self.tally.settled = self.tally.settled.saturating_add(1);
        }
    }

    /// A change, or the newest ones taken back, or the oldest settled.
    fn step(&mut self, rt: &impl Abort, alloc: Global) -> Result<(), Fail>
        requires { CanTakeBack self.old.undoable.schema (C.shape self.old.undoable.rows) (C.plain self.old.undoable.rows) self.old.undoable.inverses.items }
        ensures { CanTakeBack self.new.undoable.schema (C.shape self.new.undoable.rows) (C.plain self.new.undoable.rows) self.new.undoable.inverses.items }
    {
        if self.undoable.depth() >= MOST_KEPT {
            self.settle(rt);
            return Ok(());
        }
        match self.random.below(100) {
            0..6 => self.unwind(rt, 1),
            6 | 7 => {
                let most = self.random.below(30);
                self.unwind(rt, most);
            }
            8..16 => self.settle(rt),
            _ => self.change(rt, alloc)?,
        }
        Ok(())
    }

    /// Every view compared, and once more when all that can be taken back is.
    fn end(&mut self, rt: &impl Abort, alloc: Global) -> Result<(), Fail>
        requires { CanTakeBack self.old.undoable.schema (C.shape self.old.undoable.rows) (C.plain self.old.undoable.rows) self.old.undoable.inverses.items }
    {
        compare(rt, alloc, &self.undoable, &self.reference)?;
        self.unwind(rt, STEPS);
        compare(rt, alloc, &self.undoable, &self.reference)
    }

    /// So many random steps of both, compared after every hundredth and at the end.
    fn run(&mut self, rt: &impl Abort, alloc: Global) -> Result<(), Fail>
        requires { CanTakeBack self.old.undoable.schema (C.shape self.old.undoable.rows) (C.plain self.old.undoable.rows) self.old.undoable.inverses.items }
    {
        'steps: for step in 0..STEPS {
            if step % 100 == 0 {
                compare(rt, alloc, &self.undoable, &self.reference)?;
            }
            self.step(rt, alloc)?;
        }
        self.end(rt, alloc)?;
        self.tally.want_each(rt);
        Ok(())
    }
}

/// A container and the plain database of one table.
fn check_beside<C: Container>(rt: &impl Abort, alloc: Global, seed: u64) -> Result<(), Fail> {
    let mut both = Both {
        undoable: Undoable::<C>::open(alloc, schema(rt, alloc))?,
        reference: Reference::open(alloc, schema(rt, alloc))?,
        random: Random::new(seed),
        tally: Tally::default(),
    };
    both.run(rt, alloc)
}

#[test]
fn a_container_changes_as_the_plain_database(rt: HostRuntime) -> Result<(), Fail> {
    check_beside::<MultiIndex>(&rt, rt.alloc(), 1)
}

#[test]
fn a_container_changes_as_the_plain_database_by_a_second_seed(rt: HostRuntime) -> Result<(), Fail> {
    check_beside::<MultiIndex>(&rt, rt.alloc(), 2)
}
