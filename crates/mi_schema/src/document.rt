//! From a TOML document to a draft: which members each level has, and of which kind each is. It knows no other rule.
ghost use Rattle.std.specs.Prelude.{◌≡◌, [], Option, None, false, bytes_eq, codes, map, option_map, string_bytes};
ghost use Rattle.std.specs.List.{list_any, list_all};
ghost use Rattle.std.specs.BTreeMap.{keys};
ghost use Rattle.toml.specs.Data.{Data, get_member, as_str, as_array, as_table, as_integer, as_bool};
ghost use Rattle.toml.specs.View.{view, table_view, array_view, items_view};
ghost use Rattle.mi_schema.specs.Members.{IsReadAs, has_no_other, required, or_default, each, array_of, key_draft, column_draft, index_draft};
ghost use Rattle.mi_schema.specs.Members.{table_draft, one_table, named_table, several_tables, schema_draft, first_format, catalog_draft};
ghost use Rattle.mi_schema.specs.declared.document.Misread.TheVariants as misread;

use crate::draft::{Draft, DraftColumn, DraftIndex, DraftTable, Texts};
use mi_value::Text;
use mi_value::limits::DEFAULT_MAX_ROWS;
use std::alloc::{AllocError, AllocFailed, Global};
use toml::{Table, Value};

/// Why a value isn't read: its shape is another, or a growth was refused.
#[derive(Clone, Copy)]
pub(crate) enum Misread {
    Shape,
    Memory,
}

impl From<AllocError> for Misread {
    ghost from_gives = { λ _ e. e ≡ misread.Memory };

    fn from(_e: AllocError) -> Misread {
        Misread::Memory
    }
}

impl<T: Drop> From<AllocFailed<T>> for Misread {
    ghost from_gives = { λ _ e. e ≡ misread.Memory };

    fn from(_e: AllocFailed<T>) -> Misread {
        Misread::Memory
    }
}

/// Whether a name is one of these.
fn is_named(names: &[&str], name: &str) -> bool
    ensures { result ≡ list_any (λ n. bytes_eq name.now n.now) names.now }
{
    for n in names {
        if name == *n {
            return true;
        }
    }
    false
}

/// Whether each key is one of these names.
fn are_named(names: &[&str], members: &Table) -> bool
    ensures { result ≡ list_all (λ k. list_any (λ n. bytes_eq (string_bytes k) n.now) names.now) (keys members.now) }
{
    members.keys().all(|k| is_named(names, k.as_str()))
}

/// Whether no member has another name than these.
fn has_no_other(names: &[&str], members: &Table) -> bool
    ensures { result ≡ has_no_other (map (λ n. n.now) names.now) (table_view members.now) }
{
    are_named(names, members)
}

/// The member of this name.
fn member<'a>(members: &'a Table, name: &str) -> Option<&'a Value>
    ensures { option_map (λ v. view v.now) result ≡ get_member name.now (table_view members.now) }
{
    members.get(name)
}

/// What each value of an array is read as.
trait Item: Drop {
    ghost kind: { Data → Option Self };

    /// What a value is read as.
    fn read(alloc: Global, value: &Value) -> Result<Self, Misread>
        ensures { IsReadAs (λ x. x) result (kind (view value.now)) };
}

/// What the values of an array are read as.
fn items<T: Item>(alloc: Global, values: &[Value]) -> Result<Vec<T>, Misread>
    ensures { IsReadAs (λ xs. xs.items) result (each T.kind (items_view values.now)) }
{
    let mut items = Vec::new(alloc);
    for value in values {
        items.push(T::read(alloc, value)?)?;
    }
    Ok(items)
}

impl Item for Text {
    ghost kind = { as_str };

    fn read(alloc: Global, value: &Value) -> Result<Text, Misread> {
        match value.as_str() {
            Some(text) => Ok(Text::of(alloc, text)?),
            None => Err(Misread::Shape),
        }
    }
}

fn table(value: &Value) -> Result<&Table, Misread>
    ensures { IsReadAs (λ t. table_view t.now) result (as_table (view value.now)) }
{
    value.as_table().ok_or(Misread::Shape)
}

/// The text of a member that has to be there.
fn required_text(alloc: Global, members: &Table, name: &str) -> Result<Text, Misread>
    ensures { IsReadAs (λ t. t) result (required as_str name.now (table_view members.now)) }
{
    match member(members, name) {
        Some(value) => Text::read(alloc, value),
        None => Err(Misread::Shape),
    }
}

/// The whole number of a member that may be absent.
fn optional_number(members: &Table, name: &str, absent: i64) -> Result<i64, Misread>
    ensures { IsReadAs (λ n. n) result (or_default absent as_integer name.now (table_view members.now)) }
{
    match member(members, name) {
        Some(value) => value.as_integer().ok_or(Misread::Shape),
        None => Ok(absent),
    }
}

/// Whether a member that may be absent is true.
fn optional_flag(members: &Table, name: &str) -> Result<bool, Misread>
    ensures { IsReadAs (λ b. b) result (or_default false as_bool name.now (table_view members.now)) }
{
    match member(members, name) {
        Some(value) => value.as_bool().ok_or(Misread::Shape),
        None => Ok(false),
    }
}

fn array(value: &Value) -> Result<&Vec<Value>, Misread>
    ensures { IsReadAs (λ a. array_view a.now) result (as_array (view value.now)) }
{
    value.as_array().ok_or(Misread::Shape)
}

/// The key of an index, if it has one.
fn key(alloc: Global, members: &Table) -> Result<Option<Texts>, Misread>
    ensures { IsReadAs (λ k. k) result (or_default None key_draft (codes "key") (table_view members.now)) }
{
    match member(members, "key") {
        Some(value) => Ok(Some(Texts::new(items(alloc, array(value)?)?))),
        None => Ok(None),
    }
}

impl Item for DraftColumn {
    ghost kind = { column_draft };

    #[tactic(auto, unfolding(crate::specs::Members::column_draft))]
    fn read(alloc: Global, value: &Value) -> Result<DraftColumn, Misread> {
        let members = table(value)?;
        if !has_no_other(&["name", "type"], members) {
            return Err(Misread::Shape);
        }
        let name = required_text(alloc, members, "name")?;
        let kind = required_text(alloc, members, "type")?;
        Ok(DraftColumn { name, kind })
    }
}

impl Item for DraftIndex {
    ghost kind = { index_draft };

    #[tactic(auto, unfolding(crate::specs::Members::index_draft))]
    fn read(alloc: Global, value: &Value) -> Result<DraftIndex, Misread> {
        let members = table(value)?;
        if !has_no_other(&["name", "kind", "unique", "key"], members) {
            return Err(Misread::Shape);
        }
        let name = required_text(alloc, members, "name")?;
        let kind = required_text(alloc, members, "kind")?;
        let unique = optional_flag(members, "unique")?;
        let key = key(alloc, members)?;
        Ok(DraftIndex {
            name,
            kind,
            unique,
            key,
        })
    }
}

/// The columns, which have to be there.
fn required_columns(alloc: Global, members: &Table) -> Result<Vec<DraftColumn>, Misread>
    ensures { IsReadAs (λ cs. cs.items) result (required (array_of column_draft) (codes "column") (table_view members.now)) }
{
    match member(members, "column") {
        Some(value) => items(alloc, array(value)?),
        None => Err(Misread::Shape),
    }
}

/// The indexes, none where there is no such member.
fn optional_indexes(alloc: Global, members: &Table) -> Result<Vec<DraftIndex>, Misread>
    ensures { IsReadAs (λ is. is.items) result (or_default [] (array_of index_draft) (codes "index") (table_view members.now)) }
{
    match member(members, "index") {
        Some(value) => items(alloc, array(value)?),
        None => Ok(Vec::new(alloc)),
    }
}

/// A table of this name.
#[tactic(auto, unfolding(crate::specs::Members::table_draft))]
fn table_named(alloc: Global, name: Text, members: &Table) -> Result<DraftTable, Misread>
    ensures { IsReadAs (λ t. t) result (table_draft name (table_view members.now)) }
{
    let columns = required_columns(alloc, members)?;
    let indexes = optional_indexes(alloc, members)?;
    let first_id = optional_number(members, "first_id", 0)?;
    let first_arrival = optional_number(members, "first_arrival", 0)?;
    let max_rows = optional_number(members, "max_rows", DEFAULT_MAX_ROWS as i64)?;
    Ok(DraftTable {
        name,
        columns,
        indexes,
        first_id,
        first_arrival,
        max_rows,
    })
}

/// A document of one table, whose other members are not looked at.
#[tactic(auto, unfolding(crate::specs::Members::one_table))]
fn one_table(alloc: Global, members: &Table) -> Result<Draft, Misread>
    ensures { IsReadAs (λ d. d) result (one_table (table_view members.now)) }
{
    let name = required_text(alloc, members, "table")?;
    let table = table_named(alloc, name, members)?;
    let first_revision = optional_number(members, "first_revision", 0)?;
    let mut tables = Vec::new(alloc);
    tables.push(table)?;
    Ok(Draft {
        tables,
        first_revision,
    })
}

/// One of several tables.
impl Item for DraftTable {
    ghost kind = { named_table };

    #[tactic(auto, unfolding(crate::specs::Members::named_table))]
    fn read(alloc: Global, value: &Value) -> Result<DraftTable, Misread> {
        let members = table(value)?;
        if !has_no_other(
            &[
                "name",
                "column",
                "index",
                "first_id",
                "first_arrival",
                "max_rows",
            ],
            members,
        ) {
            return Err(Misread::Shape);
        }
        let name = required_text(alloc, members, "name")?;
        table_named(alloc, name, members)
    }
}

fn required_tables(alloc: Global, members: &Table) -> Result<Vec<DraftTable>, Misread>
    ensures { IsReadAs (λ ts. ts.items) result (required (array_of named_table) (codes "table") (table_view members.now)) }
{
    match member(members, "table") {
        Some(value) => items(alloc, array(value)?),
        None => Err(Misread::Shape),
    }
}

/// A document of several tables.
#[tactic(auto, unfolding(crate::specs::Members::several_tables))]
fn several_tables(alloc: Global, members: &Table) -> Result<Draft, Misread>
    ensures { IsReadAs (λ d. d) result (several_tables (table_view members.now)) }
{
    if !has_no_other(&["format", "table", "first_revision"], members) {
        return Err(Misread::Shape);
    }
    let tables = required_tables(alloc, members)?;
    let first_revision = optional_number(members, "first_revision", 0)?;
    Ok(Draft {
        tables,
        first_revision,
    })
}

/// A document that is a schema.
#[tactic(auto, unfolding(crate::specs::Members::schema_draft))]
pub(crate) fn schema_draft(alloc: Global, members: &Table) -> Result<Draft, Misread>
    ensures { IsReadAs (λ d. d) result (schema_draft (table_view members.now)) }
{
    if !has_no_other(
        &[
            "table",
            "column",
            "index",
            "first_id",
            "first_arrival",
            "first_revision",
            "max_rows",
        ],
        members,
    ) {
        return Err(Misread::Shape);
    }
    one_table(alloc, members)
}

/// A document of one table that may name its format.
#[tactic(auto, unfolding(crate::specs::Members::first_format))]
fn first_format(alloc: Global, members: &Table) -> Result<Draft, Misread>
    ensures { IsReadAs (λ d. d) result (first_format (table_view members.now)) }
{
    if !has_no_other(
        &[
            "format",
            "table",
            "column",
            "index",
            "first_id",
            "first_arrival",
            "first_revision",
            "max_rows",
        ],
        members,
    ) {
        return Err(Misread::Shape);
    }
    one_table(alloc, members)
}

/// A document that is a catalog: of one table, in the format that is meant where none is named, or of several.
#[tactic(auto, unfolding(crate::specs::Members::catalog_draft))]
pub(crate) fn catalog_draft(alloc: Global, members: &Table) -> Result<Draft, Misread>
    ensures { IsReadAs (λ d. d) result (catalog_draft (table_view members.now)) }
{
    let format = optional_number(members, "format", 1)?;
    if format == 1 {
        first_format(alloc, members)
    } else if format == 2 {
        several_tables(alloc, members)
    } else {
        Err(Misread::Shape)
    }
}
