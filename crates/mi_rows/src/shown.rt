//! The order of a row's members by their names, and a row to text token by token: of any values, fewer than there are columns or longer
//! than a table takes. It knows columns and values, and no tables.
ghost use Rattle.std.specs.Prelude.{◌≡◌, ◌++◌, ◌+◌, ◌*◌, ◌≤◌, ◌<◌, ℕ, List, codes, true, length, insert, slice_set, slice_index_or, OnOk, IfOk, IfErr};
ghost use Rattle.json.specs.Tree.{json_tokens};
ghost use Rattle.mi_value.specs.Lent.{lent};
ghost use Rattle.mi_value.specs.declared.limits.TheConstants.{MAX_COLUMNS};
ghost use Rattle.mi_value.specs.declared.value.Value.{Value as ValueSpec};
ghost use Rattle.serde_json.specs.Data.{boolean, object, member, no_members};
ghost use Rattle.serde_json.specs.Written.{compact_text, outline};
ghost use Rattle.arrayvec.specs.ArrayVec.{array_vec_len};
ghost use Rattle.mi_rows.specs.Rows as rows;
ghost use Rattle.mi_rows.specs.Rows.{row_data};
ghost use Rattle.mi_rows.specs.Labels.{members_room, texts_room};
ghost use Rattle.mi_rows.specs.declared.shown.Member.{Member as MemberSpec};
ghost use Rattle.mi_rows.specs.Shown.{source_data, shown_members, with_member};

use arrayvec::ArrayVec;
use json::Writer;
use mi_catalog::Column;
use mi_value::limits::MAX_COLUMNS;
use mi_value::{Record, ValueRef};
use std::alloc::{AllocError, Global};
use std::cmp::Ordering;

/// Room for the text of a reply that shows a row of a few columns.
const ROW_REPLY_ROOM: usize = 192;

/// Members of a row, at most: `id` and one for each column.
pub(crate) const MAX_MEMBERS: usize = MAX_COLUMNS + 1;

/// Where a member of a row stands: it is the row's id, or the value of a column.
#[derive(Clone, Copy, Default)]
pub(crate) enum Source {
    #[default]
    Id,
    Column(usize),
}

/// A member of a row: its name, and where its value stands.
#[derive(Clone, Copy, Default)]
pub(crate) struct Member<'a> {
    pub(crate) name: &'a str,
    pub(crate) source: Source,
}

/// The members of a row by their names.
pub(crate) type Order<'a> = ArrayVec<Member<'a>, MAX_MEMBERS>;

/// Where the member of this name stands, or else the place that is kept for it.
fn find_place(members: &[Member], name: &str) -> Result<usize, usize>
    ensures found { IfOk result (λ i. (i < length members.now)
        × ((m : MemberSpec) → m.name.now ≡ name.now → with_member m members.now
        ≡ slice_set members.now i (record (slice_index_or members.now i m) { source = m.source }))) }
    ensures free { IfErr result (λ i. (i ≤ length members.now)
        × ((m : MemberSpec) → m.name.now ≡ name.now → with_member m members.now ≡ insert members.now i m)) }
{
    'members: for (i, member) in members.iter().enumerate() {
        match name.cmp(member.name) {
            Ordering::Less => return Err(i),
            Ordering::Equal => return Ok(i),
            Ordering::Greater => {}
        }
    }
    Err(members.len())
}

/// Adds a member at the place of its name; one that has the name takes its value.
fn add_member<'a>(order: &mut Order<'a>, member: Member<'a>)
    requires { array_vec_len order.old < MAX_MEMBERS }
    ensures members { order.new.items ≡ with_member member.entry order.old.items }
    ensures len { array_vec_len order.new ≤ array_vec_len order.old + 1 }
{
    match find_place(order.as_slice(), member.name) {
        Ok(i) => order.as_mut_slice()[i].source = member.source,
        Err(i) => order.insert(i, member),
    }
}

/// Where the members of a row stand, by their names: `id` and all columns.
pub(crate) fn row_order<'a>(columns: &'a [Column]) -> Order<'a>
    requires { length columns.now ≤ MAX_COLUMNS }
    ensures members { (id : ℕ) (vs : List ValueSpec) → length columns.now ≤ length vs
        → shown_members id vs result.items ≡ rows.row_members columns.now id vs }
    ensures room { (vs : List ValueSpec) → members_room vs result.items ≤ 64 * (length columns.now + 1) + texts_room vs }
{
    let mut order = ArrayVec::new();
    let id = Member {
        name: "id",
        source: Source::Id,
    };
    add_member(&mut order, id);
    'columns: for (i, column) in columns.iter().enumerate() {
        let value = Member {
            name: column.name.as_str(),
            source: Source::Column(i),
        };
        add_member(&mut order, value);
    }
    order
}

fn write_value(writer: &mut Writer, value: ValueRef<'_>) -> Result<(), AllocError>
    ensures tokens { OnOk result (writer.new.tokens ≡ writer.old.tokens ++ json_tokens (outline (rows.value_data (lent value.entry)))) }
    ensures before { writer.new.before ≡ writer.old.before }
{
    match value {
        ValueRef::Int(n) => writer.i64(n),
        ValueRef::Text(text) => writer.string(text),
        ValueRef::Flag(b) => writer.boolean(b),
    }
}

/// Writes what stands at a place of a row; null where the row is too short for it.
fn write_source(
    writer: &mut Writer,
    id: u64,
    row: &Record,
    source: Source,
) -> Result<(), AllocError>
    ensures tokens { OnOk result (writer.new.tokens ≡ writer.old.tokens ++ json_tokens (outline (source_data id row.now source))) }
    ensures before { writer.new.before ≡ writer.old.before }
{
    match source {
        Source::Id => writer.u64(id),
        Source::Column(i) => match row.get(i) {
            Some(value) => write_value(writer, value),
            None => writer.null(),
        },
    }
}

/// Writes an object whose members stand in this order.
fn write_ordered(
    writer: &mut Writer,
    id: u64,
    row: &Record,
    order: &[Member],
) -> Result<(), AllocError>
    ensures tokens { OnOk result (writer.new.tokens ≡ writer.old.tokens ++ json_tokens (outline (object (shown_members id row.now order.now)))) }
    ensures before { OnOk result (writer.new.before ≡ writer.old.before) }
{
    writer.begin_object()?;
    'members: for member in order {
        writer.key(member.name)?;
        write_source(writer, id, row, member.source)?;
    }
    writer.end_object()?;
    Ok(())
}

/// Writes a row that has fewer values than there are columns: it shows those that it has.
fn write_short_row(
    writer: &mut Writer,
    id: u64,
    row: &Record,
    columns: &[Column],
) -> Result<(), AllocError>
    requires few { length columns.now ≤ MAX_COLUMNS }
    requires shorter { length row.now ≤ length columns.now }
    ensures tokens { OnOk result (writer.new.tokens ≡ writer.old.tokens ++ json_tokens (outline (row_data columns.now id row.now))) }
    ensures before { OnOk result (writer.new.before ≡ writer.old.before) }
{
    let (known, _) = columns.split_at(row.column_count());
    let order = row_order(known);
    write_ordered(writer, id, row, order.as_slice())
}

/// Writes a row as an object.
fn write_row(
    writer: &mut Writer,
    id: u64,
    row: &Record,
    columns: &[Column],
) -> Result<(), AllocError>
    requires { length columns.now ≤ MAX_COLUMNS }
    ensures tokens { OnOk result (writer.new.tokens ≡ writer.old.tokens ++ json_tokens (outline (row_data columns.now id row.now))) }
    ensures before { OnOk result (writer.new.before ≡ writer.old.before) }
{
    if row.column_count() < columns.len() {
        return write_short_row(writer, id, row, columns);
    }
    let order = row_order(columns);
    write_ordered(writer, id, row, order.as_slice())
}

/// The text of a row as an object.
#[inline(never)]
pub(crate) fn row_by_tokens(
    alloc: Global,
    id: u64,
    row: &Record,
    columns: &[Column],
) -> Result<Vec<u8>, AllocError>
    requires { length columns.now ≤ MAX_COLUMNS }
    ensures { IfOk result (λ t. t.items ≡ compact_text (row_data columns.now id row.now)) }
{
    let mut writer = Writer::new(Vec::with_capacity(alloc, ROW_REPLY_ROOM)?);
    write_row(&mut writer, id, row, columns)?;
    Ok(writer.into_inner())
}
