//! Worked documents: which are schemas and catalogs, and what the others lack.
//!
//! A table of documents has the word of the fault, or `ok`, behind a mark, and from the next line on the document. Those that differ
//! in one place only are rows of a frame.
use super::asking::{check, check_number, check_text, split_row};
use super::replies::accounts;
use mi_schema::{Catalog, Schema, SchemaFault, built_in, read_catalog, read_schema};
use mi_value::{Record, Value, ValueRef};
use std::alloc::{AllocError, Global};
use std::process::Abort;

/// Schemas of which little is there, or whose first line is no column's and no table's.
const FAULTS: &str = r#"
=== toml
table =
=== shape

=== number
max_rows = 0
table = "t"
column = [{name = "a", type = "int"}]
=== shape
format = 1
table = "t"
column = [{name = "a", type = "int"}]"#;

/// Schemas that differ in one place. A row has the word of the fault, or `ok`, and what stands there, between the front and the back.
struct Frame {
    front: &'static str,
    rows: &'static str,
    back: &'static str,
}

const COLUMNS: Frame = Frame {
    front: "table = \"t\"\ncolumn = [",
    rows: r#"name {name = "id", type = "float"}
twice {name = "a", type = "int"}, {name = "a", type = "text"}
type {name = "a", type = "float"}
limit
ok {name = "a", type = "int"}
shape {name = "a", type = "int", key = 1}"#,
    back: "]",
};

const INDEXES: Frame = Frame {
    front: "table = \"t\"\ncolumn = [{name = \"a\", type = \"int\"}]\nindex = [{name = \"i\", kind = ",
    rows: r#"kind "btree", key = ["a"]
key "hashed", key = ["-a"]
key "sequenced", key = ["a"]
key "ordered", key = ["b"]
key "ordered"
key "ordered", key = []
key "ranked", key = ["a", "-a"]
key "ranked", key = ["--a"]
key "sequenced", unique = true
key "sequenced", key = []"#,
    back: "}]",
};

const NUMBERS: Frame = Frame {
    front: "table = \"t\"\n",
    rows: r#"shape max_rows = 1.0
number first_id = -1
number first_arrival = -1
number first_revision = -1
ok max_rows = 16777216
number max_rows = 16777217"#,
    back: "\ncolumn = [{name = \"a\", type = \"int\"}]",
};

const NAMES: Frame = Frame {
    front: "table = \"",
    rows: r#"name T
ok id
ok _1234567890123456789012345678901
name _12345678901234567890123456789012"#,
    back: "\"\ncolumn = [{name = \"a\", type = \"int\"}]",
};

/// Of two faults the first in the order of checks.
const TWO_FAULTS: &str = r#"
=== shape
table = 1
column = [{name = "id", type = "int"}]
=== twice
table = "t"
column = [{name = "a", type = "int"}, {name = "a", type = "float"}]
=== type
table = "t"
column = [{name = "a", type = "float"}]
index = [{name = "i", kind = "btree"}]
=== kind
table = "t"
column = [{name = "a", type = "int"}]
index = [{name = "i", kind = "ordered"}, {name = "j", kind = "btree"}]
=== key
table = "t"
column = []
index = [{name = "i", kind = "ordered"}]
=== limit
table = "t"
max_rows = 0
column = []"#;

const CATALOGS: &str = r#"
=== shape
format = 2
table = "t"
=== shape
format = "2"
table = []
=== limit
format = 2
table = []
=== twice
format = 2
[[table]]
name = "a"
column = [{name = "k", type = "int"}]
index = [{name = "u", kind = "ordered", unique = true, key = ["k"]}]
[[table]]
name = "a"
first_id = 10
max_rows = 1
column = [{name = "t", type = "text"}]
=== shape
format = 2
[[table]]
name = "a"
first_revision = 0
column = [{name = "k", type = "int"}]
=== number
format = 2
first_revision = -1
[[table]]
name = "a"
column = [{name = "k", type = "int"}]
=== name
format = 2
[[table]]
name = "a"
column = [{name = "k", type = "real"}]
[[table]]
name = "B"
column = [{name = "t", type = "text"}]"#;

const ACCOUNTS: &str = r#"table = "accounts"

[[column]]
name = "owner"
type = "text"

[[column]]
name = "balance"
type = "int"

[[column]]
name = "vip"
type = "flag"

[[index]]
name = "by_owner"
kind = "hashed"
unique = true
key = ["owner"]

[[index]]
name = "by_balance"
kind = "ranked"
key = ["balance"]

[[index]]
name = "by_vip"
kind = "hashed"
key = ["vip"]

[[index]]
name = "by_class"
kind = "ordered"
key = ["-vip", "balance"]

[[index]]
name = "line"
kind = "sequenced"
"#;

const TWO: &str = r#"format = 2
[[table]]
name = "a"
column = [{name = "k", type = "int"}]
index = [{name = "u", kind = "ordered", unique = true, key = ["k"]}]
[[table]]
name = "b"
first_id = 10
max_rows = 1
column = [{name = "t", type = "text"}]
"#;

/// What documents are read as.
#[derive(Clone, Copy)]
enum Documents {
    Schemas,
    Catalogs,
}

/// The word of the fault, or `ok`.
fn schema_verdict(alloc: Global, text: &str) -> &'static str {
    match read_schema(alloc, text.as_bytes()) {
        Ok(_schema) => "ok",
        Err(fault) => fault.word(),
    }
}

fn catalog_verdict(alloc: Global, text: &str) -> &'static str {
    match read_catalog(alloc, text.as_bytes()) {
        Ok(_catalog) => "ok",
        Err(fault) => fault.word(),
    }
}

fn verdict(alloc: Global, documents: Documents, text: &str) -> &'static str {
    match documents {
        Documents::Schemas => schema_verdict(alloc, text),
        Documents::Catalogs => catalog_verdict(alloc, text),
    }
}

/// Asserts the word of a document of a table.
fn assert_verdict(rt: &impl Abort, alloc: Global, documents: Documents, part: &str) {
    let (want, text) = part.split_once('\n').unwrap_or((part, ""));
    if !want.is_empty() {
        check_text(rt, verdict(alloc, documents, text), want, text);
    }
}

/// Asserts the word of each document in a table.
fn assert_verdicts(rt: &impl Abort, alloc: Global, documents: Documents, table: &str) {
    for part in table.split("\n=== ") {
        assert_verdict(rt, alloc, documents, part);
    }
}

/// Asserts the word of a schema of a frame.
fn assert_row(rt: &impl Abort, alloc: Global, frame: &Frame, row: &str) -> Result<(), AllocError> {
    let (want, part) = split_row(row);
    let text = format!(in alloc; "{}{part}{}", frame.front, frame.back)?;
    check_text(
        rt,
        schema_verdict(alloc, text.as_str()),
        want,
        text.as_str(),
    );
    Ok(())
}

/// Asserts the word of each schema of a frame.
fn assert_framed(rt: &impl Abort, alloc: Global, frame: &Frame) -> Result<(), AllocError> {
    for row in frame.rows.split('\n') {
        assert_row(rt, alloc, frame, row)?;
    }
    Ok(())
}

/// Whether a text is refused since it isn't TOML.
fn is_no_toml(alloc: Global, text: &[u8]) -> bool {
    matches!(read_schema(alloc, text), Err(SchemaFault::Toml))
}

fn schema_of(alloc: Global, text: &str) -> Result<Schema, SchemaFault> {
    read_schema(alloc, text.as_bytes())
}

fn catalog_of(alloc: Global, text: &str) -> Result<Catalog, SchemaFault> {
    read_catalog(alloc, text.as_bytes())
}

/// Whether two schemas have the same column of a number, which is found by its name.
fn same_column(a: &Schema, b: &Schema, i: usize) -> bool {
    match (a.columns().get(i), b.columns().get(i)) {
        (Some(column), Some(other)) => column.kind == other.kind
            && b.find_column(column.name.as_str()) == Some(i),
        _ => false,
    }
}

/// Whether two schemas have the same index of a number.
fn same_index(a: &Schema, b: &Schema, i: usize) -> bool {
    i < a.index_count()
        && i < b.index_count()
        && a.index_name(i) == b.index_name(i)
        && a.kind(i) == b.kind(i)
        && a.unique(i) == b.unique(i)
        && a.parts(i) == b.parts(i)
        && b.find_index(a.index_name(i)) == Some(i)
}

fn same_numbers(a: &Schema, b: &Schema) -> bool {
    a.first_id() == b.first_id()
        && a.first_arrival() == b.first_arrival()
        && a.first_revision() == b.first_revision()
        && a.max_rows() == b.max_rows()
}

fn assert_same_columns(rt: &impl Abort, a: &Schema, b: &Schema) {
    let count = a.columns().len();
    check_number(rt, count as u64, b.columns().len() as u64, "columns");
    for i in 0..count {
        check(rt, same_column(a, b, i), a.columns()[i].name.as_str());
    }
}

fn assert_same_indexes(rt: &impl Abort, a: &Schema, b: &Schema) {
    let count = a.index_count();
    check_number(rt, count as u64, b.index_count() as u64, "indexes");
    for i in 0..count {
        check(rt, same_index(a, b, i), a.index_name(i));
    }
}

/// Of each type a value.
const VALUES: [ValueRef<'static>; 3] = [
    ValueRef::Text("a"),
    ValueRef::Int(1),
    ValueRef::Flag(true),
];

/// From which value and to before which one those are that a record and a key are made of.
const PARTS: [(usize, usize); 6] = [(0, 0), (0, 1), (1, 2), (2, 3), (1, 3), (0, 3)];

/// A key of these values.
fn key_of(alloc: Global, values: &[ValueRef<'static>]) -> Result<Vec<Value>, AllocError> {
    let mut key = Vec::new(alloc);
    for value in values {
        key.push(value.to_value(alloc)?)?;
    }
    Ok(key)
}

/// Whether a key fits the same index of both schemas, or of neither, as a whole one and as the first values of one.
fn same_fit(a: &Schema, b: &Schema, i: usize, key: &[Value]) -> bool {
    i < a.index_count()
        && i < b.index_count()
        && a.fits_key(i, key, true) == b.fits_key(i, key, true)
        && a.fits_key(i, key, false) == b.fits_key(i, key, false)
}

/// Asserts that a key of some values fits alike.
fn assert_same_key(rt: &impl Abort, a: &Schema, b: &Schema, key: &[Value]) {
    for i in 0..a.index_count() {
        check(rt, same_fit(a, b, i, key), "a key of an index");
    }
}

/// Asserts that a record of some values fits both schemas or neither.
fn assert_same_record(rt: &impl Abort, a: &Schema, b: &Schema, record: &Record) {
    check(
        rt,
        a.fits_record(record) == b.fits_record(record),
        "a record",
    );
}

/// Asserts that a record and a key of each part of the values fit alike.
fn assert_same_fits(
    rt: &impl Abort,
    alloc: Global,
    a: &Schema,
    b: &Schema,
) -> Result<(), AllocError> {
    for (from, to) in &PARTS {
        let part = VALUES.get(*from..*to).unwrap_or(&VALUES);
        assert_same_record(rt, a, b, &Record::new(alloc, part)?);
        assert_same_key(rt, a, b, key_of(alloc, part)?.as_slice());
    }
    Ok(())
}

/// Asserts that two schemas are equal in every reader.
fn assert_same_schema(
    rt: &impl Abort,
    alloc: Global,
    a: &Schema,
    b: &Schema,
) -> Result<(), AllocError> {
    check_text(rt, a.table_name(), b.table_name(), "the name");
    assert_same_columns(rt, a, b);
    assert_same_indexes(rt, a, b);
    check(rt, same_numbers(a, b), "numbers");
    assert_same_fits(rt, alloc, a, b)
}

/// Asserts that two catalogs are equal in every reader.
fn assert_same_catalog(
    rt: &impl Abort,
    alloc: Global,
    a: &Catalog,
    b: &Catalog,
) -> Result<(), AllocError> {
    check_number(rt, a.first_revision(), b.first_revision(), "the revision");
    check_number(rt, a.table_count() as u64, b.table_count() as u64, "tables");
    for i in 0..a.table_count() {
        let table = a.table(i);
        check(
            rt,
            b.find_table(table.table_name()) == Some(i),
            "a table's number",
        );
        if i < b.table_count() {
            assert_same_schema(rt, alloc, table, b.table(i))?;
        }
    }
    Ok(())
}

/// A schema with n sequenced indexes.
fn many_indexes(alloc: Global, n: usize) -> Result<String, AllocError> {
    let mut text = String::from_str(
        alloc,
        "table = \"t\"\ncolumn = [{name = \"a\", type = \"int\"}]\n",
    )?;
    for i in 1..=n {
        let index = format!(in alloc; "[[index]]\nname = \"i{i}\"\nkind = \"sequenced\"\n")?;
        text.push_str(index.as_str())?;
    }
    Ok(text)
}

/// The schema of accounts as a catalog of a format.
fn accounts_in_format(alloc: Global, format: u64) -> Result<String, AllocError> {
    format!(in alloc; "format = {format}\n{ACCOUNTS}")
}

#[test]
fn schemas_are_read_or_refused(rt: HostRuntime) -> Result<(), AllocError> {
    let alloc = rt.alloc();
    assert_verdicts(&rt, alloc, Documents::Schemas, FAULTS);
    assert_verdicts(&rt, alloc, Documents::Schemas, TWO_FAULTS);
    assert_framed(&rt, alloc, &COLUMNS)?;
    assert_framed(&rt, alloc, &INDEXES)?;
    assert_framed(&rt, alloc, &NUMBERS)?;
    assert_framed(&rt, alloc, &NAMES)?;
    check(&rt, is_no_toml(alloc, b"table = \"\xff\""), "no UTF-8");
    Ok(())
}

/// Asserts the word of a schema with n sequenced indexes.
fn assert_many(rt: &impl Abort, alloc: Global, n: usize, want: &str) -> Result<(), AllocError> {
    let text = many_indexes(alloc, n)?;
    check_text(
        rt,
        schema_verdict(alloc, text.as_str()),
        want,
        "many indexes",
    );
    Ok(())
}

#[test]
fn indexes_have_a_limit(rt: HostRuntime) -> Result<(), AllocError> {
    assert_many(&rt, rt.alloc(), 15, "ok")?;
    assert_many(&rt, rt.alloc(), 16, "limit")
}

#[test]
fn faults_are_shown(rt: HostRuntime) -> Result<(), AllocError> {
    let shown = format!(in rt.alloc(); "schema: {}", SchemaFault::ColType)?;
    check_text(&rt, shown.as_str(), "schema: type", "a fault");
    Ok(())
}

fn assert_copied(rt: &impl Abort, alloc: Global, schema: &Schema) -> Result<(), AllocError> {
    assert_same_schema(rt, alloc, &schema.copy(alloc)?, schema)
}

fn assert_built_in(rt: &impl Abort, alloc: Global, schema: &Schema) -> Result<(), AllocError> {
    assert_same_schema(rt, alloc, schema, &built_in(alloc)?)
}

#[test]
fn accounts_are_built_in(rt: HostRuntime) -> Result<(), AllocError> {
    let alloc = rt.alloc();
    let read = schema_of(alloc, ACCOUNTS).expect(&rt, "accounts are read");
    assert_built_in(&rt, alloc, &read)?;
    assert_copied(&rt, alloc, &read)
}

#[test]
fn catalogs_are_read_or_refused(rt: HostRuntime) -> Result<(), AllocError> {
    let alloc = rt.alloc();
    assert_verdicts(&rt, alloc, Documents::Catalogs, CATALOGS);
    check_text(&rt, catalog_verdict(alloc, ACCOUNTS), "ok", "accounts");
    let third = accounts_in_format(alloc, 3)?;
    check_text(
        &rt,
        catalog_verdict(alloc, third.as_str()),
        "shape",
        "format 3",
    );
    Ok(())
}

/// Whether the second of two tables is `b` with its numbers.
fn has_second_table(catalog: &Catalog) -> bool {
    catalog.table_count() == 2
        && catalog.find_table("b") == Some(1)
        && catalog.table(1).first_id() == 10
        && catalog.table(1).max_rows() == 1
}

#[test]
fn catalogs_are_copied(rt: HostRuntime) -> Result<(), AllocError> {
    let two = catalog_of(rt.alloc(), TWO).expect(&rt, "two tables are read");
    check(&rt, has_second_table(&two), "the second table");
    assert_same_catalog(&rt, rt.alloc(), &two.copy(rt.alloc())?, &two)
}

/// The catalog of accounts, read from its text in the first format.
fn read_accounts(rt: &impl Abort, alloc: Global) -> Catalog {
    let text = accounts_in_format(alloc, 1).expect(rt, "memory is there");
    catalog_of(alloc, text.as_str()).expect(rt, "accounts are read")
}

#[test]
fn accounts_are_a_catalog(rt: HostRuntime) -> Result<(), AllocError> {
    let alloc = rt.alloc();
    assert_same_catalog(
        &rt,
        alloc,
        &accounts(&rt, alloc),
        &read_accounts(&rt, alloc),
    )
}
