//! How many bytes a container says that it takes: what the documents say of it, measured.
ghost use Rattle.test_container.specs.Undone.{CanTakeBack};

use super::asking::{assert_answer, assert_number, check};
use super::undoable::Undoable;
use mi_container::Container;
use mi_multi::MultiIndex;
use mi_schema::read_schema;
use mi_value::{Record, ValueRef};
use std::alloc::Global;
use std::process::Abort;

/// A table with three indexes beside `id`.
const TABLE: &str = r#"table = "t"
max_rows = 20000
column = [{name = "k", type = "int"}, {name = "s", type = "text"}]
index = [
    {name = "by_k", kind = "hashed", unique = true, key = ["k"]},
    {name = "by_s", kind = "ranked", key = ["s", "k"]},
    {name = "line", kind = "sequenced"},
]
"#;

/// How many rows are measured.
const ROWS: u64 = 10_000;

/// A text that fits a node, a number beside it: the record has 46 bytes.
const SHORT: &str = "32 characters, of one byte each.";

/// One that doesn't: the record has 47.
const LONG: &str = "33 characters, of one byte each .";

/// A record of this text.
fn record(rt: &impl Abort, alloc: Global, id: u64, s: &str) -> Record {
    let k = i64::try_from(id).unwrap_or(0);
    Record::new(alloc, &[ValueRef::Int(k), ValueRef::Text(s)]).expect(rt, "memory is there")
}

/// Puts a record in, whose id is this.
fn add<C: Container>(rt: &impl Abort, alloc: Global, undoable: &mut Undoable<C>, id: u64, s: &str)
    requires { CanTakeBack undoable.old.schema (C.shape undoable.old.rows) (C.plain undoable.old.rows) undoable.old.inverses.items }
    ensures { CanTakeBack undoable.new.schema (C.shape undoable.new.rows) (C.plain undoable.new.rows) undoable.new.inverses.items }
{
    let row = record(rt, alloc, id, s);
    assert_answer(rt, undoable.insert(rt, alloc, row, None), Ok(Some(id)));
}

/// Puts all rows in.
fn fill<C: Container>(rt: &impl Abort, alloc: Global, undoable: &mut Undoable<C>)
    requires { CanTakeBack undoable.old.schema (C.shape undoable.old.rows) (C.plain undoable.old.rows) undoable.old.inverses.items }
    ensures { CanTakeBack undoable.new.schema (C.shape undoable.new.rows) (C.plain undoable.new.rows) undoable.new.inverses.items }
{
    for id in 0..ROWS {
        add(rt, alloc, undoable, id, SHORT);
    }
}

/// Takes the newest change back, and asserts how many bytes the container then takes.
fn unwind_to<C: Container>(rt: &impl Abort, undoable: &mut Undoable<C>, bytes: u64)
    requires { CanTakeBack undoable.old.schema (C.shape undoable.old.rows) (C.plain undoable.old.rows) undoable.old.inverses.items }
    ensures { CanTakeBack undoable.new.schema (C.shape undoable.new.rows) (C.plain undoable.new.rows) undoable.new.inverses.items }
{
    check(rt, undoable.unwind(), "a change is taken back");
    assert_number(rt, undoable.rows.memory(), bytes);
}

/// A row that has a block of its own comes, gets a record that has none, and both changes are taken back.
fn check_block<C: Container>(rt: &impl Abort, alloc: Global, undoable: &mut Undoable<C>)
    requires { CanTakeBack undoable.old.schema (C.shape undoable.old.rows) (C.plain undoable.old.rows) undoable.old.inverses.items }
{
    let bytes = undoable.rows.memory();
    let more = bytes.saturating_add(47);
    add(rt, alloc, undoable, ROWS, LONG);
    assert_number(rt, undoable.rows.memory(), more);
    let row = record(rt, alloc, ROWS, SHORT);
    assert_answer(rt, undoable.replace(rt, ROWS, row), Ok(None));
    assert_number(rt, undoable.rows.memory(), bytes);
    unwind_to(rt, undoable, more);
    unwind_to(rt, undoable, bytes);
}

#[test]
fn a_row_takes_some_hundred_bytes(rt: HostRuntime) {
    let alloc = rt.alloc();
    let schema = read_schema(alloc, TABLE.as_bytes()).expect(&rt, "the schema is one");
    let mut undoable: Undoable<MultiIndex> = Undoable::open(alloc, schema).expect(
        &rt,
        "memory is there",
    );
    check(&rt, undoable.rows.memory() < 1_000_000, "an empty table");
    fill(&rt, alloc, &mut undoable);
    let bytes = undoable.rows.memory();
    check(
        &rt,
        bytes >= 200 * ROWS && bytes <= 600 * ROWS,
        "ten thousand rows",
    );
    check_block(&rt, alloc, &mut undoable);
}
