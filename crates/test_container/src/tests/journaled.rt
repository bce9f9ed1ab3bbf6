//! A container under a journal of real inverses: they are noted by session, taken back from the newest and settled from the oldest.
ghost use Rattle.std.specs.Prelude.{IfOk};
ghost use Rattle.test_container.specs.Journaled.{CanGoBack};

use super::asking::{assert_id, assert_number, check, check_below};
use super::fitting::fits_edits;
use super::inverse::{Inverse, insert, modify, settle, unwind};
use mi_catalog::Schema;
use mi_container::Container;
use mi_journal::Journal;
use mi_multi::MultiIndex;
use mi_schema::read_schema;
use mi_value::{Edit, Record, Steps, Value, ValueRef};
use std::alloc::{AllocError, Global};
use std::process::Abort;

/// A table of numbers, of which no two are equal.
const NUMBERS: &str = r#"table = "numbers"
column = [{name = "n", type = "int"}]
index = [{name = "by_n", kind = "ordered", unique = true, key = ["n"]}]
"#;

/// The index by the number.
const BY_N: usize = 1;

/// A change of a journal: its table, and to which index and id it had lost its record, if it had.
type Noted = (usize, Option<(usize, u64)>);

/// A container, its schema, and the journal of its changes.
#[derive(Drop)]
struct Journaled<C: Container> {
    schema: Schema,
    rows: C,
    journal: Journal<Inverse>,
}

impl<C: Container> Journaled<C> {
    /// The container that a schema opens with.
    fn open(alloc: Global, schema: Schema) -> Result<Journaled<C>, AllocError>
        ensures { IfOk result (λ j. CanGoBack j.schema (C.shape j.rows) (C.plain j.rows) j.journal.sessions) }
    {
        let rows = C::new(alloc, schema.copy(alloc)?, 1)?;
        Ok(Journaled {
            schema,
            rows,
            journal: Journal::new(alloc),
        })
    }

    /// Makes room for two changes and two sessions.
    fn make_room(&mut self, rt: &impl Abort)
        requires { CanGoBack self.old.schema (C.shape self.old.rows) (C.plain self.old.rows) self.old.journal.sessions }
        ensures { CanGoBack self.new.schema (C.shape self.new.rows) (C.plain self.new.rows) self.new.journal.sessions }
    {
        self.journal.reserve(2, 2).expect(rt, "memory is there");
        let (changes, sessions) = self.journal.room();
        check(rt, changes >= 2 && sessions >= 2, "room for two");
    }

    /// Opens a session.
    fn start(&mut self, rt: &impl Abort)
        requires { CanGoBack self.old.schema (C.shape self.old.rows) (C.plain self.old.rows) self.old.journal.sessions }
        ensures { CanGoBack self.new.schema (C.shape self.new.rows) (C.plain self.new.rows) self.new.journal.sessions }
    {
        self.journal.reserve(0, 1).expect(rt, "memory is there");
        self.journal.open_session();
    }

    /// Adds a record and notes the inverse. Answers its id, or none where it is refused.
    fn insert(&mut self, rt: &impl Abort, alloc: Global, row: Record) -> Option<u64>
        requires { CanGoBack self.old.schema (C.shape self.old.rows) (C.plain self.old.rows) self.old.journal.sessions }
        ensures { CanGoBack self.new.schema (C.shape self.new.rows) (C.plain self.new.rows) self.new.journal.sessions }
    {
        self.journal.reserve(1, 0).expect(rt, "memory is there");
        check_below(rt, 0, self.journal.depth());
        self.rows.keeps_rules();
        check(rt, self.schema.fits_record(&row), "a record that fits");
        match insert(&mut self.rows, alloc, row, None) {
            Ok((id, inverse)) => {
                self.journal.note(0, inverse);
                Some(id)
            }
            Err(_) => None,
        }
    }

    /// Changes columns of a record, without rollback, and notes the inverse. Answers whether it isn't refused.
    fn modify(&mut self, rt: &impl Abort, alloc: Global, id: u64, edits: &[Edit]) -> bool
        requires { CanGoBack self.old.schema (C.shape self.old.rows) (C.plain self.old.rows) self.old.journal.sessions }
        ensures { CanGoBack self.new.schema (C.shape self.new.rows) (C.plain self.new.rows) self.new.journal.sessions }
    {
        self.journal.reserve(1, 0).expect(rt, "memory is there");
        check_below(rt, 0, self.journal.depth());
        self.rows.keeps_rules();
        check(rt, fits_edits(self.schema.columns(), edits), "edits");
        match modify(&mut self.rows, alloc, id, edits, false) {
            Ok(inverse) => {
                self.journal.note(0, inverse);
                true
            }
            Err(_) => false,
        }
    }

    /// Joins the newest session into the one below.
    fn squash(&mut self, rt: &impl Abort)
        requires { CanGoBack self.old.schema (C.shape self.old.rows) (C.plain self.old.rows) self.old.journal.sessions }
        ensures { CanGoBack self.new.schema (C.shape self.new.rows) (C.plain self.new.rows) self.new.journal.sessions }
    {
        check_below(rt, 1, self.journal.depth());
        self.journal.join_top();
    }

    /// Takes the newest change of the newest session back, and answers it; or none where there is no change.
    fn back(&mut self) -> Option<Noted>
        requires { CanGoBack self.old.schema (C.shape self.old.rows) (C.plain self.old.rows) self.old.journal.sessions }
        ensures { CanGoBack self.new.schema (C.shape self.new.rows) (C.plain self.new.rows) self.new.journal.sessions }
    {
        match self.journal.pop() {
            Some((table, inverse)) => {
                let lost = inverse.lost();
                unwind(&mut self.rows, inverse);
                Some((table, lost))
            }
            None => None,
        }
    }

    /// Settles the oldest change of the oldest session, and answers it; or none where there is no change.
    fn settle(&mut self) -> Option<Noted>
        requires { CanGoBack self.old.schema (C.shape self.old.rows) (C.plain self.old.rows) self.old.journal.sessions }
        ensures { CanGoBack self.new.schema (C.shape self.new.rows) (C.plain self.new.rows) self.new.journal.sessions }
    {
        self.rows.keeps_rules();
        match self.journal.take_oldest() {
            Some((table, inverse)) => {
                let lost = inverse.lost();
                settle(&mut self.rows, inverse);
                Some((table, lost))
            }
            None => None,
        }
    }

    /// Ends the oldest session, whose changes are all settled.
    fn end_oldest(&mut self, rt: &impl Abort)
        requires { CanGoBack self.old.schema (C.shape self.old.rows) (C.plain self.old.rows) self.old.journal.sessions }
        ensures { CanGoBack self.new.schema (C.shape self.new.rows) (C.plain self.new.rows) self.new.journal.sessions }
    {
        check_below(rt, 0, self.journal.depth());
        check(rt, self.journal.take_oldest().is_none(), "all are settled");
        self.journal.end_oldest();
    }

    /// Ends the newest session, whose changes are all taken back.
    fn end_newest(&mut self, rt: &impl Abort)
        requires { CanGoBack self.old.schema (C.shape self.old.rows) (C.plain self.old.rows) self.old.journal.sessions }
    {
        check_below(rt, 0, self.journal.depth());
        check(rt, self.journal.pop().is_none(), "all are taken back");
        self.journal.end_session();
    }
}

/// Adds a number, whose id is to be this one.
fn add<C: Container>(rt: &impl Abort, alloc: Global, kept: &mut Journaled<C>, n: i64, id: u64)
    requires { CanGoBack kept.old.schema (C.shape kept.old.rows) (C.plain kept.old.rows) kept.old.journal.sessions }
    ensures { CanGoBack kept.new.schema (C.shape kept.new.rows) (C.plain kept.new.rows) kept.new.journal.sessions }
{
    let row = Record::new(alloc, &[ValueRef::Int(n)]).expect(rt, "memory is there");
    assert_id(rt, kept.insert(rt, alloc, row), Some(id));
}

/// The number of a record, if it has one.
fn number_of(row: &Record) -> Option<i64> {
    match row.get(0) {
        Some(ValueRef::Int(n)) => Some(n),
        _ => None,
    }
}

/// Asserts the number of a record, if it is there.
fn assert_kept<C: Container>(rt: &impl Abort, kept: &Journaled<C>, id: u64, want: Option<i64>) {
    let got = match kept.rows.get(id, &mut Steps::new()) {
        Some(row) => number_of(row),
        None => None,
    };
    assert_eq!(rt; got, want);
}

/// Asserts which change is answered, if one is.
fn assert_change(rt: &impl Abort, got: Option<Noted>, want: Option<Noted>) {
    assert_eq!(rt; got, want);
}

/// Asserts how many sessions are open.
fn assert_depth<C: Container>(rt: &impl Abort, kept: &Journaled<C>, want: usize) {
    assert_number(rt, kept.journal.depth() as u64, want as u64);
}

/// Asserts that no session is open, and that one record is there.
fn assert_one_left<C: Container>(rt: &impl Abort, kept: &Journaled<C>) {
    assert_depth(rt, kept, 0);
    assert_number(rt, kept.rows.size(), 1);
}

/// Adds a number for good.
fn keep_one<C: Container>(rt: &impl Abort, alloc: Global, kept: &mut Journaled<C>)
    requires { CanGoBack kept.old.schema (C.shape kept.old.rows) (C.plain kept.old.rows) kept.old.journal.sessions }
    ensures { CanGoBack kept.new.schema (C.shape kept.new.rows) (C.plain kept.new.rows) kept.new.journal.sessions }
{
    kept.start(rt);
    add(rt, alloc, kept, 7, 0);
    assert_change(rt, kept.settle(), Some((0, None)));
    kept.end_oldest(rt);
    kept.make_room(rt);
}

/// Another number in one session, and in a second one it is set to the first and lost. The sessions join.
fn lose_one<C: Container>(rt: &impl Abort, alloc: Global, kept: &mut Journaled<C>)
    requires { CanGoBack kept.old.schema (C.shape kept.old.rows) (C.plain kept.old.rows) kept.old.journal.sessions }
    ensures { CanGoBack kept.new.schema (C.shape kept.new.rows) (C.plain kept.new.rows) kept.new.journal.sessions }
{
    keep_one(rt, alloc, kept);
    kept.start(rt);
    add(rt, alloc, kept, 8, 1);
    kept.start(rt);
    let changed = kept.modify(rt, alloc, 1, &[Edit::Put(0, Value::Int(7))]);
    check(rt, changed, "it is changed");
    assert_kept(rt, kept, 1, None);
    kept.squash(rt);
    assert_depth(rt, kept, 1);
}

/// The change that lost its record comes back first, and then the one that added it.
fn check_back<C: Container>(rt: &impl Abort, alloc: Global, kept: &mut Journaled<C>)
    requires { CanGoBack kept.old.schema (C.shape kept.old.rows) (C.plain kept.old.rows) kept.old.journal.sessions }
{
    lose_one(rt, alloc, kept);
    assert_change(rt, kept.back(), Some((0, Some((BY_N, 0)))));
    assert_kept(rt, kept, 1, Some(8));
    assert_change(rt, kept.back(), Some((0, None)));
    assert_kept(rt, kept, 1, None);
    assert_change(rt, kept.back(), None);
    kept.end_newest(rt);
    assert_one_left(rt, kept);
}

/// The one that added the record is settled first, and then the one that lost it, whose node is freed.
fn check_settled<C: Container>(rt: &impl Abort, alloc: Global, kept: &mut Journaled<C>)
    requires { CanGoBack kept.old.schema (C.shape kept.old.rows) (C.plain kept.old.rows) kept.old.journal.sessions }
{
    lose_one(rt, alloc, kept);
    assert_change(rt, kept.settle(), Some((0, None)));
    assert_change(rt, kept.settle(), Some((0, Some((BY_N, 0)))));
    assert_change(rt, kept.settle(), None);
    kept.end_oldest(rt);
    assert_kept(rt, kept, 0, Some(7));
    assert_one_left(rt, kept);
}

/// A container of numbers without a record.
fn opened<C: Container>(rt: &impl Abort, alloc: Global) -> Journaled<C>
    ensures { CanGoBack result.schema (C.shape result.rows) (C.plain result.rows) result.journal.sessions }
{
    let schema = read_schema(alloc, NUMBERS.as_bytes()).expect(rt, "the schema is read");
    Journaled::open(alloc, schema).expect(rt, "memory is there")
}

/// Of one container the changes are taken back, and of another they are settled.
fn check_both<C: Container>(rt: &impl Abort, alloc: Global) {
    check_back(rt, alloc, &mut opened::<C>(rt, alloc));
    check_settled(rt, alloc, &mut opened::<C>(rt, alloc));
}

/// Inverses come back from the newest, and are settled from the oldest.
#[test]
fn inverses_are_kept_in_order(rt: HostRuntime) {
    check_both::<MultiIndex>(&rt, rt.alloc());
}
