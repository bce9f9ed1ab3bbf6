//! Worked replies over the schema of accounts.
ghost use Rattle.std.specs.Prelude.{IsTrue};
ghost use Rattle.mi_protocol.specs.Replies.{said, IsSaidOf, IsRefusalOf};

use super::asking::{check, check_bytes};
use mi_catalog::{Catalog, built_in};
use mi_protocol::{Output, Reply, ReplyLabels};
use mi_value::{Record, Refusal, ValueRef};
use std::alloc::Global;
use std::process::Abort;

const UNIQUE: Refusal = Refusal::Unique { index: 1, id: 0 };

const LOST: Refusal = Refusal::Lost { index: 1, id: 0 };

const UNIQUE_TEXT: &str = "{\"error\":\"unique\",\"id\":0,\"index\":\"by_owner\",\"ok\":false}";

/// Of a modify that left the record as it was.
const KEPT_TEXT: &str =
    "{\"error\":\"unique\",\"id\":0,\"index\":\"by_owner\",\"lost\":false,\"ok\":false}";

const LOST_TEXT: &str =
    "{\"error\":\"unique\",\"id\":0,\"index\":\"by_owner\",\"lost\":true,\"ok\":false}";

/// The catalog of accounts.
pub(super) fn accounts(rt: &impl Abort, alloc: Global) -> Catalog {
    let schema = built_in(alloc).expect(rt, "memory is there");
    Catalog::of(alloc, schema).expect(rt, "memory is there")
}

fn account(rt: &impl Abort, alloc: Global, owner: &str, balance: i64, vip: bool) -> Record {
    let owner = ValueRef::Text(owner);
    Record::new(alloc, &[owner, ValueRef::Int(balance), ValueRef::Flag(vip)]).expect(
        rt,
        "memory is there",
    )
}

/// Whether the table and the index of a conflict are there.
fn is_refusal(catalog: &Catalog, table: usize, refusal: Refusal) -> bool
    ensures { IsTrue result → IsRefusalOf catalog.now table refusal }
{
    match refusal {
        Refusal::Unique { index, .. } => {
            table < catalog.table_count() && index < catalog.table(table).index_count()
        }
        Refusal::Lost { index, .. } => {
            table < catalog.table_count() && index < catalog.table(table).index_count()
        }
        _ => true,
    }
}

/// Whether what a reply names is there.
fn is_said(catalog: &Catalog, given: &Reply<'_>) -> bool
    ensures { IsTrue result → IsSaidOf catalog.now (said given.now) }
{
    match given {
        Reply::Shown { table, .. } => *table < catalog.table_count(),
        Reply::Rows { table, .. } => *table < catalog.table_count(),
        Reply::RefusedModify { table, refusal } => is_refusal(catalog, *table, *refusal),
        Reply::Refused { table, refusal } => is_refusal(catalog, *table, *refusal),
        _ => true,
    }
}

/// A reply's text is this one, made alone.
fn assert_made(rt: &impl Abort, alloc: Global, catalog: &Catalog, given: &Reply<'_>, want: &str)
    requires { IsSaidOf catalog.now (said given.now) }
{
    let text = given.text(alloc, catalog).expect(rt, "memory is there");
    check_bytes(rt, text.as_slice(), want);
}

/// What was put is this text, with a newline behind it.
fn assert_put(rt: &impl Abort, out: &Output, want: &str) {
    check_bytes(rt, out.as_slice(), want);
    check(rt, out.line().ends_with(b"\n"), want);
}

/// A reply's text is this one, put without labels and then with them.
fn assert_both_put(rt: &impl Abort, alloc: Global, catalog: &Catalog, given: &Reply<'_>, want: &str)
    requires { IsSaidOf catalog.now (said given.now) }
{
    let mut out = Output::new(alloc);
    out.put(alloc, given, catalog, &ReplyLabels::none(alloc));
    assert_put(rt, &out, want);
    let labels = ReplyLabels::of(alloc, catalog).expect(rt, "memory is there");
    out.put(alloc, given, catalog, &labels);
    assert_put(rt, &out, want);
}

/// A reply's text is this one, made alone, put without labels and with them, with a newline behind it.
fn assert_text(rt: &impl Abort, alloc: Global, catalog: &Catalog, given: &Reply<'_>, want: &str) {
    if !is_said(catalog, given) {
        return check(rt, false, want);
    }
    assert_made(rt, alloc, catalog, given, want);
    assert_both_put(rt, alloc, catalog, given, want);
}

const NUMBERS: [(Reply<'static>, &str); 11] = [
    (Reply::Inserted(0), "{\"id\":0,\"ok\":true}"),
    (Reply::Revised(1), "{\"ok\":true,\"revision\":1}"),
    (Reply::Done, "{\"ok\":true}"),
    (Reply::Counted(3), "{\"count\":3,\"ok\":true}"),
    (Reply::Ranked(1), "{\"ok\":true,\"rank\":1}"),
    (Reply::Sized(0), "{\"ok\":true,\"size\":0}"),
    (Reply::Committed(1), "{\"committed\":1,\"ok\":true}"),
    (Reply::Undone(2), "{\"ok\":true,\"undone\":2}"),
    (Reply::Pushed(1), "{\"ok\":true,\"pushed\":1}"),
    (Reply::Erased(2), "{\"erased\":2,\"ok\":true}"),
    (
        Reply::Status {
            depth: 1,
            held: 1,
            revision: 2,
        },
        "{\"depth\":1,\"held\":1,\"ok\":true,\"revision\":2}",
    ),
];

fn assert_numbers(rt: &impl Abort, alloc: Global, catalog: &Catalog) {
    for (given, want) in &NUMBERS {
        assert_text(rt, alloc, catalog, given, want);
    }
}

#[test]
fn numbers_have_their_texts(rt: HostRuntime) {
    assert_numbers(&rt, rt.alloc(), &accounts(&rt, rt.alloc()));
}

const REFUSED: [(Refusal, &str); 4] = [
    (Refusal::NoId, "{\"error\":\"id\",\"ok\":false}"),
    (Refusal::Memory, "{\"error\":\"memory\",\"ok\":false}"),
    (UNIQUE, UNIQUE_TEXT),
    (LOST, LOST_TEXT),
];

fn assert_refused(rt: &impl Abort, alloc: Global, catalog: &Catalog) {
    for (refusal, want) in &REFUSED {
        let refusal = *refusal;
        let given = Reply::Refused { table: 0, refusal };
        assert_text(rt, alloc, catalog, &given, want);
    }
}

const REFUSED_MODIFIES: [(Refusal, &str); 3] = [
    (Refusal::Range, "{\"error\":\"range\",\"ok\":false}"),
    (UNIQUE, KEPT_TEXT),
    (LOST, LOST_TEXT),
];

fn assert_refused_modifies(rt: &impl Abort, alloc: Global, catalog: &Catalog) {
    for (refusal, want) in &REFUSED_MODIFIES {
        let refusal = *refusal;
        let given = Reply::RefusedModify { table: 0, refusal };
        assert_text(rt, alloc, catalog, &given, want);
    }
}

#[test]
fn refusals_have_their_texts(rt: HostRuntime) {
    let catalog = accounts(&rt, rt.alloc());
    assert_refused(&rt, rt.alloc(), &catalog);
    assert_refused_modifies(&rt, rt.alloc(), &catalog);
}

fn assert_shown(rt: &impl Abort, alloc: Global, catalog: &Catalog, row: &Record, want: &str) {
    let shown = Reply::Shown {
        table: 0,
        id: 0,
        row,
    };
    assert_text(rt, alloc, catalog, &shown, want);
}

const ANN_TEXT: &str =
    "{\"ok\":true,\"row\":{\"balance\":50,\"id\":0,\"owner\":\"ann\",\"vip\":false}}";

const ESCAPED_TEXT: &str =
    "{\"ok\":true,\"row\":{\"balance\":-7,\"id\":0,\"owner\":\"\\u0001\\\"\\\\\",\"vip\":true}}";

#[test]
fn a_record_has_its_text(rt: HostRuntime) {
    let alloc = rt.alloc();
    let catalog = accounts(&rt, alloc);
    let ann = account(&rt, alloc, "ann", 50, false);
    assert_shown(&rt, alloc, &catalog, &ann, ANN_TEXT);
    let escaped = account(&rt, alloc, "\u{1}\"\\", -7, true);
    assert_shown(&rt, alloc, &catalog, &escaped, ESCAPED_TEXT);
}

/// The text of a reply of rows is this one.
fn assert_rows(
    rt: &impl Abort,
    alloc: Global,
    catalog: &Catalog,
    rows: Vec<(u64, &Record)>,
    more: bool,
    want: &str,
) {
    let given = Reply::Rows {
        table: 0,
        rows,
        more,
    };
    assert_text(rt, alloc, catalog, &given, want);
}

const NO_ROWS_TEXT: &str = "{\"more\":false,\"ok\":true,\"rows\":[]}";

const ROWS_TEXT: &str =
    r#"{"more":true,"ok":true,"rows":[{"balance":50,"id":0,"owner":"ann","vip":false},{"balance":7,"id":1,"owner":"bob","vip":true}]}"#;

/// Two rows, of the ids 0 and 1.
fn two_rows<'a>(
    rt: &impl Abort,
    alloc: Global,
    first: &'a Record,
    second: &'a Record,
) -> Vec<(u64, &'a Record)> {
    Vec::from_array(alloc, [(0, first), (1, second)]).expect(rt, "memory is there")
}

#[test]
fn rows_have_their_text(rt: HostRuntime) {
    let alloc = rt.alloc();
    let catalog = accounts(&rt, alloc);
    assert_rows(&rt, alloc, &catalog, Vec::new(alloc), false, NO_ROWS_TEXT);
    let ann = account(&rt, alloc, "ann", 50, false);
    let bob = account(&rt, alloc, "bob", 7, true);
    let rows = two_rows(&rt, alloc, &ann, &bob);
    assert_rows(&rt, alloc, &catalog, rows, true, ROWS_TEXT);
}
