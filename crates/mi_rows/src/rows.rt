//! Rows to text: what is the same in each is prepared once for all of them, and each is put behind the last into room that is there. A few
//! rows, short ones, and such as no schema has, go the way of `shown`.
ghost use Rattle.std.specs.Prelude.{◌≡◌, ◌∷◌, ◌++◌, ◌+◌, ◌*◌, ◌≤◌, ◌<◌, [], ℕ, List, false, true, drop, length, map, nat_lt, take, codes, vec_len, IfNone, IfOk, IfSome, Some};
ghost use Rattle.std.specs.List.{All};
ghost use Rattle.json.specs.Filled.{Placed};
ghost use Rattle.mi_value.specs.declared.limits.TheConstants.{MAX_COLUMNS};
ghost use Rattle.mi_value.specs.declared.value.Value.{Value as ValueSpec};
ghost use Rattle.serde_json.specs.Data.{array, object, boolean, member, no_members};
ghost use Rattle.serde_json.specs.Written.{compact_text, comma_if, items_text};
ghost use Rattle.mi_rows.specs.Rows as rows;
ghost use Rattle.mi_rows.specs.Rows.{row_data, rows_items};
ghost use Rattle.mi_rows.specs.Shown as shown;
ghost use Rattle.mi_rows.specs.Shown.{first_data};
ghost use Rattle.mi_value.specs.Block.{texts_length};
ghost use Rattle.mi_rows.specs.Labels.{held, labelled_text, labels_room, first_room, text_room, AreLabels};

use crate::labels::{Label, Labels, RowLabels, labels_of};
use crate::row_values::{NO_ROW_VALUES, RowValue, lend_values};
use crate::shown::{MAX_MEMBERS, row_by_tokens};
use mi_catalog::Column;
use mi_print::{make_room, put_byte, put_comma, put_i64, put_label, put_string, put_text};
use mi_value::Record;
use mi_value::limits::MAX_PAGE;
use std::alloc::{AllocError, Global};

/// Room for the text of a reply that shows rows, beside that of the rows, and for texts of the last.
const PAGE_ROOM: usize = 128;

/// So many rows are written token by token in less time than labels take to be made.
const FEW_ROWS: usize = 3;

/// So many values are enough for a row of few columns, and take less time to be made.
const FEW_CELLS: usize = 5;

/// Room for a member of a row: a short name and a short value.
const SHORT_MEMBER: usize = 16;

/// Room for a member of a row beside the bytes of its text: the longest name and the longest number.
const MEMBER: usize = 64;

/// A byte of a text, escaped.
const ESCAPED: usize = 6;

/// The text before the row of a reply.
static ROW_FRONT: [u8; 17] = *b"{\"ok\":true,\"row\":";

/// Puts the value of a value.
#[inline(always)]
fn put_value(buf: &mut [u8], at: usize, value: &RowValue<'_>) -> usize
    requires { at + 21 + text_room (held value.now) ≤ length buf.old }
    ensures value { Placed buf.old buf.new at (compact_text (rows.value_data (held value.now))) result }
    ensures bound { result ≤ at + 21 + text_room (held value.now) }
{
    match value {
        RowValue::Int(n) => put_i64(buf, at, *n),
        RowValue::Text(text) => put_string(buf, at, text),
        RowValue::False => put_text(buf, at, b"false"),
        RowValue::True => put_text(buf, at, b"true"),
    }
}

/// Puts a member with what stands before it.
#[inline(always)]
fn put_member(buf: &mut [u8], at: usize, row_values: &[RowValue<'_>], label: &Label) -> usize
    requires there { label.now.place < length row_values.now }
    requires room { at + 64 + first_room (drop label.now.place (map held row_values.now)) ≤ length buf.old }
    ensures value { Placed buf.old buf.new at (label.now.text ++ compact_text (first_data (drop label.now.place (map held row_values.now)))) result }
    ensures bound { result ≤ at + 64 + first_room (drop label.now.place (map held row_values.now)) }
{
    let begun = put_label(buf, at, &label.bytes, label.len);
    put_value(buf, begun, &row_values[label.place])
}

/// Puts a row behind a comma, if there is one before it.
#[inline(always)]
fn put_row(
    buf: &mut [u8],
    at: usize,
    later: bool,
    row_values: &[RowValue<'_>],
    labels: &[Label],
) -> usize
    requires there { All (λ l. l.place < length row_values.now) labels.now }
    requires room { at + labels_room (map held row_values.now) labels.now + 3 ≤ length buf.old }
    ensures { Placed buf.old buf.new at (comma_if later ++ labelled_text (map held row_values.now) labels.now) result }
{
    let mut end = put_comma(buf, at, later);
    'members: for label in labels {
        end = put_member(buf, end, row_values, label);
    }
    put_byte(buf, end, b'}')
}

/// Puts a row by its labels, behind a comma, if there is one before it; none where the row doesn't fit them.
#[inline(always)]
fn put_labelled<'a>(
    buf: &mut [u8],
    at: usize,
    later: bool,
    id: u64,
    row: &'a Record,
    columns: &[Column],
    labels: &Labels,
    row_values: &mut [RowValue<'a>],
) -> Option<usize>
    requires few { length columns.now ≤ MAX_COLUMNS }
    requires row_values { length columns.now < length row_values.old }
    requires labels { AreLabels columns.now (Some labels.now) }
    requires room { at + 64 * (length columns.now + 1) + 6 * texts_length row.now + 3 ≤ length buf.old }
    ensures text { IfSome result (λ end. Placed buf.old buf.new at (comma_if later ++ compact_text (row_data columns.now id row.now)) end) }
    ensures kept { IfNone result (buf.new ≡ buf.old) }
    ensures row_values { length row_values.new ≡ length row_values.old }
{
    let count = columns.len() + 1;
    if !lend_values(id, row, row_values, count) {
        return None;
    }
    Some(put_row(buf, at, later, &row_values[..count], labels.as_slice()))
}

/// Puts rows from one on, with commas between them, as long as there is room for one and it fits its labels. Answers where they end and
/// how many of all are put.
#[inline(never)]
fn put_fitting<'a>(
    buf: &mut [u8],
    at: usize,
    rows: &[(u64, &'a Record)],
    from: usize,
    columns: &[Column],
    labels: &Labels,
    room: usize,
    row_values: &mut [RowValue<'a>],
) -> (usize, usize)
    requires few { length columns.now ≤ MAX_COLUMNS }
    requires row_values { length columns.now < length row_values.old }
    requires labels { AreLabels columns.now (Some labels.now) }
    requires room { All (λ r. 64 * (length columns.now + 1) + 6 * texts_length r.1.now + 3 ≤ room) rows.now }
    requires within { (at ≤ length buf.old) × (from ≤ length rows.now) }
    ensures text { take result.0 buf.new ++ items_text (nat_lt 0 result.1) (rows_items columns.now (map (λ r. (r.0, r.1.now)) (drop result.1 rows.now)))
        ≡ take at buf.old ++ items_text (nat_lt 0 from) (rows_items columns.now (map (λ r. (r.0, r.1.now)) (drop from rows.now))) }
    ensures within { (result.0 ≤ length buf.new) × (result.1 ≤ length rows.now) × (from ≤ result.1) }
    ensures len { length buf.new ≡ length buf.old }
{
    let mut end = at;
    let mut done = from;
    'rows: while done < rows.len() && room <= buf.len() - end {
        let (id, row) = rows[done];
        let Some(next) = put_labelled(buf, end, done > 0, id, row, columns, labels, row_values)
        else {
            return (end, done);
        };
        end = next;
        done += 1;
    }
    (end, done)
}

/// The room for a row by labels with a comma before it, where its texts have so many bytes.
fn row_room(columns: &[Column], bytes: usize) -> Result<usize, AllocError>
    requires { length columns.now ≤ MAX_COLUMNS }
    ensures { IfOk result (λ room. room ≡ 64 * (length columns.now + 1) + 6 * bytes + 3) }
{
    let texts = bytes.checked_mul(ESCAPED).ok_or(AllocError)?;
    texts
        .checked_add(MEMBER * (columns.len() + 1) + 3)
        .ok_or(AllocError)
}

/// Puts a text behind the first bytes of a vector, and answers how many count then. One byte at least is free behind them.
#[inline(always)]
fn put_behind(text: &mut Vec<u8>, at: usize, bytes: &[u8]) -> Result<usize, AllocError>
    requires { at ≤ vec_len text.old }
    ensures text { IfOk result (λ end. take end text.new.items ≡ take at text.old.items ++ bytes.now) }
    ensures within { IfOk result (λ end. end < vec_len text.new) }
{
    make_room(text, at, bytes.len() + 1)?;
    Ok(put_text(text.as_mut_slice(), at, bytes))
}

/// Adds the text of a row to the first bytes of a vector, behind a comma, if there is one before it, token by token. Answers how many
/// bytes count then.
fn add_slowly(
    alloc: Global,
    text: &mut Vec<u8>,
    len: usize,
    later: bool,
    id: u64,
    row: &Record,
    columns: &[Column],
) -> Result<usize, AllocError>
    requires few { length columns.now ≤ MAX_COLUMNS }
    requires within { len ≤ vec_len text.old }
    ensures text { IfOk result (λ end. take end text.new.items
        ≡ take len text.old.items ++ (comma_if later ++ compact_text (row_data columns.now id row.now))) }
    ensures within { IfOk result (λ end. end ≤ vec_len text.new) }
{
    let written = row_by_tokens(alloc, id, row, columns)?;
    make_room(text, len, written.len() + 1)?;
    let begun = put_comma(text.as_mut_slice(), len, later);
    Ok(put_text(text.as_mut_slice(), begun, written.as_slice()))
}

/// Adds the text of a row to the first bytes of a vector, behind a comma, if there is one before it, by its labels where there are some and
/// the row fits them. Answers how many bytes count then.
#[inline(always)]
fn add_row<'a>(
    alloc: Global,
    text: &mut Vec<u8>,
    len: usize,
    later: bool,
    id: u64,
    row: &'a Record,
    columns: &[Column],
    labels: &Option<Labels>,
    room: usize,
    row_values: &mut [RowValue<'a>],
) -> Result<usize, AllocError>
    requires few { length columns.now ≤ MAX_COLUMNS }
    requires row_values { length columns.now < length row_values.old }
    requires within { len ≤ vec_len text.old }
    requires labels { AreLabels columns.now labels.now }
    requires room { 64 * (length columns.now + 1) + 6 * texts_length row.now + 3 ≤ room }
    ensures text { IfOk result (λ end. take end text.new.items
        ≡ take len text.old.items ++ (comma_if later ++ compact_text (row_data columns.now id row.now))) }
    ensures within { IfOk result (λ end. end ≤ vec_len text.new) }
{
    if let Some(labels) = labels {
        make_room(text, len, room)?;
        let buf = text.as_mut_slice();
        if let Some(end) = put_labelled(buf, len, later, id, row, columns, labels, row_values) {
            return Ok(end);
        }
    }
    add_slowly(alloc, text, len, later, id, row, columns)
}

/// So many bytes at most has a row of these. It reads the records one right behind another, so that the processor fetches those that lie
/// far apart in memory side by side, before the first of them is written.
fn longest(rows: &[(u64, &Record)]) -> usize
    ensures { All (λ r. texts_length r.1.now ≤ result) rows.now }
{
    let mut most = 0;
    'rows: for row in rows {
        most = most.max(row.1.values().byte_count());
    }
    most
}

/// Adds the texts of rows, with commas between them, to the first bytes of a vector. Answers how many of its bytes count then.
fn add_rows(
    alloc: Global,
    text: &mut Vec<u8>,
    at: usize,
    rows: &[(u64, &Record)],
    columns: &[Column],
    labels: &Option<Labels>,
) -> Result<usize, AllocError>
    requires few { length columns.now ≤ MAX_COLUMNS }
    requires within { at ≤ vec_len text.old }
    requires labels { AreLabels columns.now labels.now }
    ensures text { IfOk result (λ end. take end text.new.items ++ 93 ∷ []
        ≡ take at text.old.items ++ items_text false (rows_items columns.now (map (λ r. (r.0, r.1.now)) rows.now))) }
    ensures within { IfOk result (λ end. end ≤ vec_len text.new) }
{
    let room = row_room(columns, longest(rows))?;
    let mut row_values = NO_ROW_VALUES;
    let mut end = at;
    let mut done = 0;
    'rows: while done < rows.len() {
        let (id, row) = rows[done];
        let later = done > 0;
        end = add_row(
            alloc,
            text,
            end,
            later,
            id,
            row,
            columns,
            labels,
            room,
            &mut row_values,
        )?;
        done += 1;
        if let Some(labels) = labels {
            let buf = text.as_mut_slice();
            (end, done) = put_fitting(buf, end, rows, done, columns, labels, room, &mut row_values);
        }
    }
    Ok(end)
}

/// The text before the rows of a reply, by whether more follow.
fn rows_front(more: bool) -> &'static [u8]
    ensures { result.now ≡ shown.rows_front more }
{
    if more {
        b"{\"more\":true,\"ok\":true,\"rows\":["
    } else {
        b"{\"more\":false,\"ok\":true,\"rows\":["
    }
}

/// Puts the text of the reply that shows several rows, by these labels.
fn put_page(
    alloc: Global,
    text: &mut Vec<u8>,
    at: usize,
    rows: &[(u64, &Record)],
    more: bool,
    columns: &[Column],
    labels: &Option<Labels>,
) -> Result<usize, AllocError>
    requires few { length columns.now ≤ MAX_COLUMNS }
    requires within { at ≤ vec_len text.old }
    requires labels { AreLabels columns.now labels.now }
    ensures text { IfOk result (λ end. take end text.new.items
        ≡ take at text.old.items ++ compact_text (object (member (codes "more") (boolean more) (member (codes "ok") (boolean true)
        (member (codes "rows") (array (rows_items columns.now (map (λ r. (r.0, r.1.now)) rows.now))) no_members))))) }
    ensures within { IfOk result (λ end. end < vec_len text.new) }
{
    let members = columns.len() + 1;
    let room = PAGE_ROOM + (rows.len().min(MAX_PAGE) * SHORT_MEMBER + MEMBER) * members;
    make_room(text, at, room)?;
    let begun = put_behind(text, at, rows_front(more))?;
    let end = add_rows(alloc, text, begun, rows, columns, labels)?;
    put_behind(text, end, b"]}")
}

/// The same without labels from before: for many rows they are made here.
#[inline(never)]
fn put_plain_page(
    alloc: Global,
    text: &mut Vec<u8>,
    at: usize,
    rows: &[(u64, &Record)],
    more: bool,
    columns: &[Column],
) -> Result<usize, AllocError>
    requires few { length columns.now ≤ MAX_COLUMNS }
    requires within { at ≤ vec_len text.old }
    ensures text { IfOk result (λ end. take end text.new.items
        ≡ take at text.old.items ++ compact_text (object (member (codes "more") (boolean more) (member (codes "ok") (boolean true)
        (member (codes "rows") (array (rows_items columns.now (map (λ r. (r.0, r.1.now)) rows.now))) no_members))))) }
    ensures within { IfOk result (λ end. end < vec_len text.new) }
{
    if rows.len() > FEW_ROWS {
        return put_page(alloc, text, at, rows, more, columns, &labels_of(columns));
    }
    put_page(alloc, text, at, rows, more, columns, &None)
}

/// Puts the text of the reply that shows several rows, and whether more follow, behind the first bytes of a vector, without a newline, and
/// answers how many bytes count then: `{"more":false,"ok":true,"rows":[..]}`. One byte at least is free behind them. Of columns there are at
/// most 16. Labels that were made of these columns before save time.
///
/// It errs where memory is refused; then nothing is said of the bytes behind the first.
pub fn put_rows_reply(
    alloc: Global,
    text: &mut Vec<u8>,
    at: usize,
    rows: &[(u64, &Record)],
    more: bool,
    columns: &[Column],
    labels: Option<&RowLabels>,
) -> Result<usize, AllocError>
    requires few { length columns.now ≤ MAX_COLUMNS }
    requires within { at ≤ vec_len text.old }
    requires labels { IfSome labels (λ labels. labels.now ≡ columns.now) }
    ensures text { IfOk result (λ end. take end text.new.items
        ≡ take at text.old.items ++ compact_text (object (member (codes "more") (boolean more) (member (codes "ok") (boolean true)
        (member (codes "rows") (array (rows_items columns.now (map (λ r. (r.0, r.1.now)) rows.now))) no_members))))) }
    ensures within { IfOk result (λ end. end < vec_len text.new) }
{
    match labels {
        Some(labels) => put_page(alloc, text, at, rows, more, columns, labels.members()),
        None => put_plain_page(alloc, text, at, rows, more, columns),
    }
}

/// Puts the text of the reply that shows a row, by these labels, with these values.
#[inline(always)]
fn put_one<'a>(
    alloc: Global,
    text: &mut Vec<u8>,
    at: usize,
    id: u64,
    row: &'a Record,
    columns: &[Column],
    labels: &Option<Labels>,
    row_values: &mut [RowValue<'a>],
) -> Result<usize, AllocError>
    requires few { length columns.now ≤ MAX_COLUMNS }
    requires row_values { length columns.now < length row_values.old }
    requires within { at ≤ vec_len text.old }
    requires labels { AreLabels columns.now labels.now }
    ensures text { IfOk result (λ end. take end text.new.items ≡ take at text.old.items
        ++ compact_text (object (member (codes "ok") (boolean true) (member (codes "row") (row_data columns.now id row.now) no_members)))) }
    ensures within { IfOk result (λ end. end < vec_len text.new) }
{
    let room = row_room(columns, row.values().byte_count())?;
    let begun = put_behind(text, at, &ROW_FRONT)?;
    let end = add_row(
        alloc, text, begun, false, id, row, columns, labels, room, row_values,
    )?;
    put_behind(text, end, b"}")
}

/// The same with values enough for any columns.
#[inline(never)]
fn put_wide(
    alloc: Global,
    text: &mut Vec<u8>,
    at: usize,
    id: u64,
    row: &Record,
    columns: &[Column],
    labels: &Option<Labels>,
) -> Result<usize, AllocError>
    requires few { length columns.now ≤ MAX_COLUMNS }
    requires within { at ≤ vec_len text.old }
    requires labels { AreLabels columns.now labels.now }
    ensures text { IfOk result (λ end. take end text.new.items ≡ take at text.old.items
        ++ compact_text (object (member (codes "ok") (boolean true) (member (codes "row") (row_data columns.now id row.now) no_members)))) }
    ensures within { IfOk result (λ end. end < vec_len text.new) }
{
    let mut row_values = NO_ROW_VALUES;
    put_one(alloc, text, at, id, row, columns, labels, &mut row_values)
}

/// The same without labels.
#[inline(never)]
fn put_plain_row(
    alloc: Global,
    text: &mut Vec<u8>,
    at: usize,
    id: u64,
    row: &Record,
    columns: &[Column],
) -> Result<usize, AllocError>
    requires few { length columns.now ≤ MAX_COLUMNS }
    requires within { at ≤ vec_len text.old }
    ensures text { IfOk result (λ end. take end text.new.items ≡ take at text.old.items
        ++ compact_text (object (member (codes "ok") (boolean true) (member (codes "row") (row_data columns.now id row.now) no_members)))) }
    ensures within { IfOk result (λ end. end < vec_len text.new) }
{
    put_wide(alloc, text, at, id, row, columns, &None)
}

/// Puts the text of the reply that shows a row behind the first bytes of a vector, without a newline, and answers how many bytes count then:
/// `{"ok":true,"row":{..}}`. One byte at least is free behind them. A row with fewer values than columns shows those that it has. Of columns
/// there are at most 16. Labels that were made of these columns before save time.
///
/// It errs where memory is refused; then nothing is said of the bytes behind the first.
pub fn put_row_reply(
    alloc: Global,
    text: &mut Vec<u8>,
    at: usize,
    id: u64,
    row: &Record,
    columns: &[Column],
    labels: Option<&RowLabels>,
) -> Result<usize, AllocError>
    requires few { length columns.now ≤ MAX_COLUMNS }
    requires within { at ≤ vec_len text.old }
    requires labels { IfSome labels (λ labels. labels.now ≡ columns.now) }
    ensures text { IfOk result (λ end. take end text.new.items ≡ take at text.old.items
        ++ compact_text (object (member (codes "ok") (boolean true) (member (codes "row") (row_data columns.now id row.now) no_members)))) }
    ensures within { IfOk result (λ end. end < vec_len text.new) }
{
    let Some(labels) = labels else {
        return put_plain_row(alloc, text, at, id, row, columns);
    };
    let labels = labels.members();
    if columns.len() >= FEW_CELLS {
        return put_wide(alloc, text, at, id, row, columns, labels);
    }
    let mut row_values = [RowValue::Int(0); FEW_CELLS];
    put_one(alloc, text, at, id, row, columns, labels, &mut row_values)
}
