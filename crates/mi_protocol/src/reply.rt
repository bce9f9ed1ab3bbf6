//! Replies and their text, put where it is to stand. Only a reply that shows rows takes memory; the others have less than 128 bytes.
ghost use Rattle.std.specs.Prelude.{◌≡◌, ◌+◌, ◌≤◌, ◌<◌, ◌++◌, length, map, take, codes, decimal, true, false, vec_len, IfOk, IfErr, IsOk, IfSome, MatchOption};
ghost use Rattle.json.specs.Filled.{Placed};
ghost use Rattle.mi_value.specs.declared.limits.TheConstants.{MAX_NAME, SHORT_REPLY};
ghost use Rattle.mi_protocol.specs.Labels.{AreLabelsOf};
ghost use Rattle.mi_protocol.specs.Replies as replies;
ghost use Rattle.mi_catalog.specs.Shape.{CatalogShape};
ghost use Rattle.mi_protocol.specs.Replies.{reply_text, said, is_short, says_number, index_name, shown, rows, IsSaidOf, IsRefusalOf};
ghost use Rattle.mi_protocol.specs.Text.{text_bytes, is_short_text};

use crate::labels::ReplyLabels;
use crate::text::ReplyText;
use arrayvec::ArrayVec;
use mi_catalog::Catalog;
use mi_print::{put_text, put_u64};
use mi_rows::{put_row_reply, put_rows_reply};
use mi_value::limits::SHORT_REPLY;
use mi_value::{Record, Refusal};
use std::alloc::{AllocError, Global};

/// What a command is answered. `table` is the number of the table that the command is over; of a refusal it matters for a
/// conflict alone.
#[derive(Drop)]
pub enum Reply<'a> {
    /// The id of the record that an insert added.
    Inserted(u64),
    /// The command is done.
    Done,
    /// How many records an erasure by key took.
    Erased(u64),
    /// A record of a table, by its id.
    Shown {
        table: usize,
        id: u64,
        row: &'a Record,
    },
    /// The revision that a session command left.
    Revised(u64),
    /// How many sessions were committed.
    Committed(u64),
    /// How many sessions were undone.
    Undone(u64),
    /// How many sessions were pushed.
    Pushed(u64),
    /// How many sessions are open, how many of them the asking connection holds, and the revision.
    Status {
        depth: u64,
        held: u64,
        revision: u64,
    },
    /// How many records have a key.
    Counted(u64),
    /// How many records stand before one or a key.
    Ranked(u64),
    /// How many records a table has.
    Sized(u64),
    /// Records of a table, by their ids, and whether more follow.
    Rows {
        table: usize,
        rows: Vec<(u64, &'a Record)>,
        more: bool,
    },
    /// Why a modify is refused. Of a conflict the text says whether the record is lost.
    RefusedModify {
        table: usize,
        refusal: Refusal,
    },
    /// Why another command is refused.
    Refused {
        table: usize,
        refusal: Refusal,
    },
}

/// Puts a text with a part in it that is given.
fn put_parts(buf: &mut [u8], at: usize, before: &[u8], part: &[u8], after: &[u8]) -> usize
    requires { at + length before.now + length part.now + length after.now ≤ length buf.old }
    ensures text { Placed buf.old buf.new at (before.now ++ part.now ++ after.now) result }
    ensures bound { result ≡ at + length before.now + length part.now + length after.now }
{
    let begun = put_text(buf, at, before);
    let end = put_text(buf, begun, part);
    put_text(buf, end, after)
}

/// Puts a text with a number in it.
fn put_number(buf: &mut [u8], at: usize, before: &[u8], n: u64, after: &[u8]) -> usize
    requires { at + length before.now + length after.now + 20 ≤ length buf.old }
    ensures text { Placed buf.old buf.new at (before.now ++ decimal n ++ after.now) result }
    ensures bound { result ≤ at + length before.now + length after.now + 20 }
{
    let begun = put_text(buf, at, before);
    let end = put_u64(buf, begun, n);
    put_text(buf, end, after)
}

/// Puts the text of a conflict with the record of this id in the index of this name.
fn put_conflict(buf: &mut [u8], at: usize, id: u64, index: &str, after: &[u8]) -> usize
    requires index { length index.now ≤ MAX_NAME }
    requires after { length after.now ≤ 32 }
    requires room { at + SHORT_REPLY ≤ length buf.old }
    ensures text { Placed buf.old buf.new at
        (codes "{\"error\":\"unique\",\"id\":" ++ decimal id ++ codes ",\"index\":\"" ++ index.now ++ after.now) result }
    ensures bound { result < at + SHORT_REPLY }
{
    let begun = put_number(
        buf,
        at,
        b"{\"error\":\"unique\",\"id\":",
        id,
        b",\"index\":\"",
    );
    let end = put_text(buf, begun, index.as_bytes());
    put_text(buf, end, after)
}

/// Puts the text of the sessions that are open and that are held, and of the revision.
fn put_status(buf: &mut [u8], at: usize, depth: u64, held: u64, revision: u64) -> usize
    requires { at + SHORT_REPLY ≤ length buf.old }
    ensures text { Placed buf.old buf.new at (codes "{\"depth\":" ++ decimal depth ++ codes ",\"held\":"
        ++ decimal held ++ codes ",\"ok\":true,\"revision\":" ++ decimal revision ++ codes "}") result }
    ensures bound { result < at + SHORT_REPLY }
{
    let opened = put_number(buf, at, b"{\"depth\":", depth, b",\"held\":");
    let begun = put_u64(buf, opened, held);
    put_number(buf, begun, b",\"ok\":true,\"revision\":", revision, b"}")
}

/// Puts the text of a refusal.
fn put_refusal(
    buf: &mut [u8],
    at: usize,
    catalog: &Catalog,
    table: usize,
    refusal: Refusal,
) -> usize
    requires said { IsRefusalOf catalog.now table refusal }
    requires room { at + SHORT_REPLY ≤ length buf.old }
    ensures text { Placed buf.old buf.new at (replies.refusal_text catalog.now table refusal) result }
    ensures bound { result < at + SHORT_REPLY }
{
    match refusal {
        Refusal::Unique { index, id } => {
            let name = catalog.table(table).index_name(index);
            put_conflict(buf, at, id, name, b"\",\"ok\":false}")
        }
        Refusal::Lost { index, id } => {
            let name = catalog.table(table).index_name(index);
            put_conflict(buf, at, id, name, b"\",\"lost\":true,\"ok\":false}")
        }
        other => put_parts(
            buf,
            at,
            b"{\"error\":\"",
            other.word().as_bytes(),
            b"\",\"ok\":false}",
        ),
    }
}

/// Puts the text of a modify's refusal, which says of a conflict whether the record is lost.
fn put_modify_refusal(
    buf: &mut [u8],
    at: usize,
    catalog: &Catalog,
    table: usize,
    refusal: Refusal,
) -> usize
    requires said { IsRefusalOf catalog.now table refusal }
    requires room { at + SHORT_REPLY ≤ length buf.old }
    ensures text { Placed buf.old buf.new at (replies.modify_refusal_text catalog.now table refusal) result }
    ensures bound { result < at + SHORT_REPLY }
{
    match refusal {
        Refusal::Unique { index, id } => {
            let name = catalog.table(table).index_name(index);
            put_conflict(buf, at, id, name, b"\",\"lost\":false,\"ok\":false}")
        }
        other => put_refusal(buf, at, catalog, table, other),
    }
}

/// Puts the text of a row of a table, by its labels where they were made.
fn put_shown(
    alloc: Global,
    text: &mut Vec<u8>,
    at: usize,
    catalog: &Catalog,
    labels: &ReplyLabels,
    table: usize,
    id: u64,
    row: &Record,
) -> Result<usize, AllocError>
    requires within { at ≤ vec_len text.old }
    requires table { table < length catalog.now.tables }
    requires labels { AreLabelsOf catalog.now labels.now }
    ensures text { IfOk result (λ end. take end text.new.items ≡ take at text.old.items ++ reply_text catalog.now (shown table id row.now)) }
    ensures within { IfOk result (λ end. end < vec_len text.new) }
{
    let schema = catalog.table(table);
    schema.keeps_rules();
    let columns = schema.columns();
    let labels = labels.of_table(table);
    put_row_reply(alloc, text, at, id, row, columns, labels)
}

/// Puts the text of rows of a table, by its labels where they were made.
fn put_page(
    alloc: Global,
    text: &mut Vec<u8>,
    at: usize,
    catalog: &Catalog,
    labels: &ReplyLabels,
    table: usize,
    records: &[(u64, &Record)],
    more: bool,
) -> Result<usize, AllocError>
    requires within { at ≤ vec_len text.old }
    requires table { table < length catalog.now.tables }
    requires labels { AreLabelsOf catalog.now labels.now }
    ensures text { IfOk result (λ end. take end text.new.items
        ≡ take at text.old.items ++ reply_text catalog.now (rows table (map (λ r. (r.0, r.1.now)) records.now) more)) }
    ensures within { IfOk result (λ end. end < vec_len text.new) }
{
    let schema = catalog.table(table);
    schema.keeps_rules();
    let columns = schema.columns();
    let labels = labels.of_table(table);
    put_rows_reply(alloc, text, at, records, more, columns, labels)
}

impl Reply<'_> {
    /// The number that is all that a reply says, between what stands before it and behind it.
    fn numbered(&self) -> Option<(&'static [u8], u64, &'static [u8])>
        ensures text { MatchOption result (says_number (said self.now) ≡ false)
            (λ p. (c : CatalogShape) → reply_text c (said self.now) ≡ p.0.now ++ decimal p.1 ++ p.2.now) }
        ensures room { IfSome result (λ p. length p.0.now + length p.2.now + 20 < SHORT_REPLY) }
    {
        match self {
            Reply::Inserted(id) => Some((b"{\"id\":", *id, b",\"ok\":true}")),
            Reply::Erased(n) => Some((b"{\"erased\":", *n, b",\"ok\":true}")),
            Reply::Revised(n) => Some((b"{\"ok\":true,\"revision\":", *n, b"}")),
            Reply::Committed(n) => Some((b"{\"committed\":", *n, b",\"ok\":true}")),
            Reply::Undone(n) => Some((b"{\"ok\":true,\"undone\":", *n, b"}")),
            Reply::Pushed(n) => Some((b"{\"ok\":true,\"pushed\":", *n, b"}")),
            Reply::Counted(n) => Some((b"{\"count\":", *n, b",\"ok\":true}")),
            Reply::Ranked(n) => Some((b"{\"ok\":true,\"rank\":", *n, b"}")),
            Reply::Sized(n) => Some((b"{\"ok\":true,\"size\":", *n, b"}")),
            _ => None,
        }
    }

    /// Puts the text of a reply that shows no row and says more than a number, or none.
    fn put_worded(&self, buf: &mut [u8], at: usize, catalog: &Catalog) -> usize
        requires said { IsSaidOf catalog.now (said self.now) }
        requires short { is_short (said self.now) ≡ true }
        requires words { says_number (said self.now) ≡ false }
        requires room { at + SHORT_REPLY ≤ length buf.old }
        ensures text { Placed buf.old buf.new at (reply_text catalog.now (said self.now)) result }
        ensures bound { result < at + SHORT_REPLY }
    {
        match self {
            Reply::Done => put_text(buf, at, b"{\"ok\":true}"),
            Reply::Status {
                depth,
                held,
                revision,
            } => put_status(buf, at, *depth, *held, *revision),
            Reply::RefusedModify { table, refusal } => {
                put_modify_refusal(buf, at, catalog, *table, *refusal)
            }
            Reply::Refused { table, refusal } => put_refusal(buf, at, catalog, *table, *refusal),
            _ => unreachable!(),
        }
    }

    /// Puts the text of a reply that shows no row, without a newline, and answers where it ends. It takes no memory. Its table, and the
    /// index of a conflict, are in the catalog.
    pub(crate) fn put_short(&self, buf: &mut [u8], at: usize, catalog: &Catalog) -> usize
        requires said { IsSaidOf catalog.now (said self.now) }
        requires short { is_short (said self.now) ≡ true }
        requires room { at + SHORT_REPLY ≤ length buf.old }
        ensures text { Placed buf.old buf.new at (reply_text catalog.now (said self.now)) result }
        ensures bound { result < at + SHORT_REPLY }
    {
        let Some((before, number, after)) = self.numbered() else {
            return self.put_worded(buf, at, catalog);
        };
        put_number(buf, at, before, number, after)
    }

    /// Puts the text of a reply that shows rows behind the first bytes of a vector, without a newline, and answers how many bytes count
    /// then; one byte at least is free behind them. The labels are the catalog's, or none.
    ///
    /// It errs where memory is refused.
    pub(crate) fn put_long(
        &self,
        alloc: Global,
        text: &mut Vec<u8>,
        at: usize,
        catalog: &Catalog,
        labels: &ReplyLabels,
    ) -> Result<usize, AllocError>
        requires said { IsSaidOf catalog.now (said self.now) }
        requires long { is_short (said self.now) ≡ false }
        requires labels { AreLabelsOf catalog.now labels.now }
        requires within { at ≤ vec_len text.old }
        ensures text { IfOk result (λ end. take end text.new.items ≡ take at text.old.items ++ reply_text catalog.now (said self.now)) }
        ensures within { IfOk result (λ end. end < vec_len text.new) }
    {
        match self {
            Reply::Shown { table, id, row } => {
                put_shown(alloc, text, at, catalog, labels, *table, *id, row)
            }
            Reply::Rows { table, rows, more } => put_page(
                alloc,
                text,
                at,
                catalog,
                labels,
                *table,
                rows.as_slice(),
                *more,
            ),
            _ => unreachable!(),
        }
    }

    /// Whether a reply shows no row.
    pub(crate) fn is_short(&self) -> bool
        ensures { result ≡ is_short (said self.now) }
    {
        !matches!(self, Reply::Shown { .. } | Reply::Rows { .. })
    }

    /// The text of a reply, without a newline. Its table, and the index of a conflict, are in the catalog. It is `Long`
    /// exactly where the reply shows rows; such a one answers `Memory` where a growth is refused, every other is `Short`
    /// and takes no memory.
    pub fn text(&self, alloc: Global, catalog: &Catalog) -> Result<ReplyText, Refusal>
        requires { IsSaidOf catalog.now (said self.now) }
        ensures text { IfOk result (λ t. text_bytes t ≡ reply_text catalog.now (said self.now)) }
        ensures short { is_short (said self.now) ≡ true → IsOk result }
        ensures form { IfOk result (λ t. is_short_text t ≡ is_short (said self.now)) }
        ensures memory { IfErr result (λ e. e ≡ Refusal.Memory) }
    {
        if self.is_short() {
            return Ok(self.short_text(catalog));
        }
        let mut text = Vec::new(alloc);
        let labels = ReplyLabels::none(alloc);
        let end = self.put_long(alloc, &mut text, 0, catalog, &labels)?;
        text.truncate(end);
        Ok(ReplyText::Long(text))
    }

    /// The text of a reply that shows no row.
    fn short_text(&self, catalog: &Catalog) -> ReplyText
        requires said { IsSaidOf catalog.now (said self.now) }
        requires short { is_short (said self.now) ≡ true }
        ensures text { text_bytes result ≡ reply_text catalog.now (said self.now) }
        ensures form { is_short_text result ≡ true }
    {
        let mut bytes = [0; SHORT_REPLY];
        let end = self.put_short(&mut bytes, 0, catalog);
        let mut text = ArrayVec::new();
        text.try_extend_from_slice(&bytes[..end]).unwrap();
        ReplyText::Short(text)
    }
}
