//! Rows by calls of a database, without lines, over both forms: nested sessions, and a block that was reserved for. One line, which
//! reserves.
ghost use Rattle.std.specs.Prelude.{IsTrue, [], ◌∷◌, pos};
ghost use Rattle.mi_value.specs.declared.edit.Edit.TheVariants.{Add};
ghost use Rattle.mi_catalog.specs.Fitting.{HasTable, FitsEdits};

use super::accounts::{account, catalog, is_account};
use super::serving::{answer, served};
use mi_catalog::Catalog;
use mi_container::Container;
use mi_database::Linked;
use mi_multi::MultiIndex;
use mi_plain::Plain;
use mi_sessions::Sessions;
use mi_value::{ColumnType, Edit, NoSession, Record, Refusal, Steps};
use std::alloc::{AllocError, Global};
use std::process::Abort;

/// A form of the database.
trait Opens: Sessions + Drop {
    /// The database that a catalog opens with.
    fn open(alloc: Global, catalog: Catalog) -> Result<Self, AllocError>;

    /// For how many changes inside sessions and for how many starts it has room.
    fn room_left(&self) -> (u64, u64);
}

impl Opens for Plain {
    fn open(alloc: Global, catalog: Catalog) -> Result<Plain, AllocError> {
        Plain::new(alloc, catalog)
    }

    /// It keeps whole tables and no changes, so that nothing bounds them.
    fn room_left(&self) -> (u64, u64) {
        (u64::MAX, u64::MAX)
    }
}

impl<C: Container> Opens for Linked<C> {
    fn open(alloc: Global, catalog: Catalog) -> Result<Linked<C>, AllocError> {
        Linked::new(alloc, catalog, 7)
    }

    fn room_left(&self) -> (u64, u64) {
        self.room()
    }
}

/// The database that the built-in table opens with.
fn opened<D: Opens>(rt: &impl Abort, alloc: Global) -> D {
    D::open(alloc, catalog(rt, alloc)).expect(rt, "memory is there")
}

/// The table shows this account for an id.
pub(super) fn assert_shows<D: Sessions>(
    rt: &impl Abort,
    database: &D,
    id: u64,
    owner: &str,
    balance: i64,
    vip: bool,
) {
    assert!(rt; database.catalog().table_count() == 1);
    let row = database.get(0, id, &mut Steps::new());
    assert!(rt; is_account(row.expect(rt, "the record is there"), owner, balance, vip));
}

/// Whether the table has one record.
fn has_one<D: Sessions>(database: &D) -> bool {
    database.catalog().table_count() == 1 && database.size(0) == 1
}

/// Whether the second column of the table has numbers, to which four can be added.
fn has_sums<D: Sessions>(database: &D) -> bool
    requires { HasTable (D.state database.now).catalog 0 }
    ensures { IsTrue result → FitsEdits (D.state database.now).catalog 0 (Add 1 (pos 4) ∷ []) }
{
    match database.catalog().table(0).columns().get(1) {
        Some(column) => column.kind == ColumnType::Int,
        None => false,
    }
}

/// Adds an account and wants this answer. One that is refused is handed back.
pub(super) fn add<D: Sessions>(
    rt: &impl Abort,
    alloc: Global,
    database: &mut D,
    owner: &str,
    balance: i64,
    vip: bool,
    want: Result<u64, Refusal>,
) {
    let row = account(rt, alloc, owner, balance, vip);
    assert!(rt; database.catalog().table_count() == 1);
    assert!(rt; database.catalog().table(0).fits_record(&row));
    let got = match database.insert(alloc, 0, row, None) {
        Ok(id) => Ok(id),
        Err((refusal, row)) => {
            assert!(rt; is_account(&row, owner, balance, vip));
            Err(refusal)
        }
    };
    assert_eq!(rt; got, want);
}

/// Adds four to the balance of the record 0.
fn add_four<D: Sessions>(rt: &impl Abort, alloc: Global, database: &mut D) {
    assert!(rt; database.catalog().table_count() == 1);
    assert!(rt; has_sums(database));
    let edited = database.modify(alloc, 0, 0, &[Edit::Add(1, 4)], false);
    assert!(rt; edited.is_ok());
}

/// Sets another record for an id.
fn replace<D: Sessions>(rt: &impl Abort, alloc: Global, database: &mut D, id: u64, row: Record) {
    assert!(rt; database.catalog().table_count() == 1);
    assert!(rt; database.catalog().table(0).fits_record(&row));
    assert!(rt; database.replace(alloc, 0, id, row).is_ok());
}

pub(super) fn erase<D: Sessions>(rt: &impl Abort, alloc: Global, database: &mut D, id: u64) {
    assert!(rt; database.catalog().table_count() == 1);
    assert!(rt; database.erase(alloc, 0, id).is_ok());
}

/// Opens the session of this number.
pub(super) fn start<D: Sessions>(rt: &impl Abort, alloc: Global, database: &mut D, want: u64) {
    assert!(rt; database.start(alloc) == Ok(want));
}

/// Undoes the newest session and wants this answer.
pub(super) fn undo<D: Sessions>(rt: &impl Abort, database: &mut D, want: Result<u64, NoSession>) {
    assert!(rt; database.undo() == want);
}

/// Joins the newest session into the one below it, whose number is this.
fn squash<D: Sessions>(rt: &impl Abort, database: &mut D, want: u64) {
    assert!(rt; database.squash() == Ok(want));
}

fn reserve<D: Sessions>(rt: &impl Abort, database: &mut D, changes: u64, sessions: u64) {
    assert!(rt; database.reserve(changes, sessions).is_ok());
}

/// As many sessions are open, and this is the revision.
pub(super) fn assert_open<D: Sessions>(rt: &impl Abort, database: &D, depth: u64, revision: u64) {
    assert!(rt; database.depth() == depth && database.revision() == revision);
}

/// There is room for at least so many changes inside sessions, and for so many starts.
fn assert_room<D: Opens>(rt: &impl Abort, database: &D, changes: u64, sessions: u64) {
    let room = database.room_left();
    assert!(rt; room.0 >= changes && room.1 >= sessions, "{room:?}");
}

/// Nested sessions: an inner one is squashed into the outer one, whose undo takes back what both changed.
fn check_nested<D: Opens>(rt: &impl Abort, alloc: Global, database: &mut D) {
    undo(rt, database, Err(NoSession));
    add(rt, alloc, database, "a", 1, false, Ok(0));
    start(rt, alloc, database, 1);
    add(rt, alloc, database, "b", 1, false, Ok(1));
    let refused = Refusal::Unique { index: 1, id: 0 };
    add(rt, alloc, database, "a", 2, true, Err(refused));
    assert_open(rt, database, 1, 1);
    start(rt, alloc, database, 2);
    add_four(rt, alloc, database);
    squash(rt, database, 1);
    assert_shows(rt, database, 0, "a", 5, false);
    undo(rt, database, Ok(0));
    assert_open(rt, database, 0, 0);
    assert_shows(rt, database, 0, "a", 1, false);
    assert!(rt; has_one(database));
    undo(rt, database, Err(NoSession));
    add(rt, alloc, database, "b", 1, false, Ok(1));
    reserve(rt, database, 3, 1);
    assert_room(rt, database, 3, 1);
}

/// A `reserve` that comes as a line takes its room in the database: no clause says so, since the room is in no reply.
fn check_line<D: Opens>(rt: &impl Abort, alloc: Global, database: D) {
    let mut hub = served(rt, alloc, database);
    let line = "{\"cmd\":\"reserve\",\"changes\":500,\"sessions\":20}\n";
    let reply = answer(rt, alloc, &mut hub, line);
    assert!(rt; reply.as_slice() == b"{\"ok\":true}\n".as_slice());
    assert_room(rt, hub.database(), 500, 20);
}

/// A request for so many bytes is the mark from which `scripts/faults.py` refuses memory.
const MARK: usize = 1_234_567;

/// A block of changes in a session that is undone, behind a reserve for it.
fn check_block<D: Sessions>(rt: &impl Abort, alloc: Global, database: &mut D) {
    add(rt, alloc, database, "a", 1, false, Ok(0));
    add(rt, alloc, database, "b", 2, false, Ok(1));
    let row = account(rt, alloc, "b", 3, true);
    reserve(rt, database, 2, 1);
    drop(Vec::<u8>::with_capacity(alloc, MARK).expect(rt, "memory is there"));
    start(rt, alloc, database, 1);
    replace(rt, alloc, database, 1, row);
    assert_shows(rt, database, 1, "b", 3, true);
    erase(rt, alloc, database, 0);
    undo(rt, database, Ok(0));
    assert_shows(rt, database, 0, "a", 1, false);
    assert_shows(rt, database, 1, "b", 2, false);
}

/// Each of the three over a form of the database. The block comes last.
fn check_form<D: Opens>(rt: &impl Abort, alloc: Global) {
    check_nested(rt, alloc, &mut opened::<D>(rt, alloc));
    check_line(rt, alloc, opened::<D>(rt, alloc));
    check_block(rt, alloc, &mut opened::<D>(rt, alloc));
}

#[test]
fn plain_has_sessions(rt: HostRuntime) {
    check_form::<Plain>(&rt, rt.alloc());
}

/// In the database that is served a start, a replacement, an erase and an undo behind a reserve for two changes and a session are
/// never refused. By itself this test has memory, and `make faults` runs it with each request behind the mark refused.
#[test]
fn a_reserved_block_needs_no_memory(rt: HostRuntime) {
    check_form::<Linked<MultiIndex>>(&rt, rt.alloc());
}
