//! The text of the last reply, with its newline, where it is made and written from. A short one stands in an array, rows in memory that is kept.
ghost use Rattle.std.specs.Prelude.{◌≡◌, ◌≤◌, ◌<◌, ◌++◌, ◌∷◌, [], length, take, false, true, IfOk};
ghost use Rattle.mi_value.specs.declared.limits.TheConstants.{SHORT_REPLY as short_reply};
ghost use Rattle.mi_protocol.specs.Labels.{AreLabelsOf};
ghost use Rattle.mi_protocol.specs.Output.{PutOrMemory, EndsLine};
ghost use Rattle.mi_protocol.specs.Replies.{reply_text, said, is_short, IsSaidOf};

use crate::labels::ReplyLabels;
use crate::reply::Reply;
use mi_catalog::Catalog;
use mi_print::put_byte;
use mi_value::Refusal;
use mi_value::limits::SHORT_REPLY;
use std::alloc::{AllocError, Global};
use std::marker::Model;

/// An output's room for rows is kept for the next reply up to so many bytes.
const KEPT: usize = 65536;

/// What is answered in the place of rows that find no room.
const NO_ROOM: Reply<'static> = Reply::Refused {
    table: 0,
    refusal: Refusal::Memory,
};

/// The text of a reply and its newline. Each reply stands in the place of the one before.
#[derive(Drop)]
pub struct Output {
    short: [u8; SHORT_REPLY],
    long: Vec<u8>,
    len: usize,
    is_long: bool,
}

impl Model for Output {
    ghost use Rattle.std.specs.Prelude.{◌≡◌, ◌<◌, ℕ, List, false, take};
    ghost use Rattle.mi_value.specs.declared.limits.TheConstants.{SHORT_REPLY};
    ghost use Rattle.mi_protocol.specs.Output.{EndsLine, bytes_of};

    ghost Value = { List ℕ };

    ghost view = { λ o. take o.len (bytes_of o.is_long o.short o.long.items) };

    ghost invariant = { λ o. (o.is_long ≡ false → o.len < SHORT_REPLY) × EndsLine o.len (bytes_of o.is_long o.short o.long.items) };
}

/// Puts a newline behind the first bytes, this many.
fn end_line(buf: &mut [u8], at: usize)
    requires { at < length buf.old }
    ensures text { take at buf.new ≡ take at buf.old }
    ensures line { EndsLine at buf.new }
    ensures len { length buf.new ≡ length buf.old }
{
    put_byte(buf, at, b'\n');
}

/// Puts a reply that shows no row, and a newline behind it, and answers where that stands.
fn short_line(buf: &mut [u8], reply: &Reply<'_>, catalog: &Catalog) -> usize
    requires said { IsSaidOf catalog.now (said reply.now) }
    requires short { is_short (said reply.now) ≡ true }
    requires room { short_reply ≤ length buf.old }
    ensures text { take result buf.new ≡ reply_text catalog.now (said reply.now) }
    ensures line { EndsLine result buf.new }
    ensures bound { result < short_reply }
{
    let end = reply.put_short(buf, 0, catalog);
    end_line(buf, end);
    end
}

/// Puts a reply that shows rows, and a newline behind it, and answers where that stands.
fn long_line(
    alloc: Global,
    text: &mut Vec<u8>,
    reply: &Reply<'_>,
    catalog: &Catalog,
    labels: &ReplyLabels,
) -> Result<usize, AllocError>
    requires said { IsSaidOf catalog.now (said reply.now) }
    requires long { is_short (said reply.now) ≡ false }
    requires labels { AreLabelsOf catalog.now labels.now }
    ensures text { IfOk result (λ end. take end text.new.items ≡ reply_text catalog.now (said reply.now)) }
    ensures line { IfOk result (λ end. EndsLine end text.new.items) }
{
    let end = reply.put_long(alloc, text, 0, catalog, labels)?;
    end_line(text.as_mut_slice(), end);
    Ok(end)
}

impl Output {
    /// An empty line. It takes no memory.
    pub fn new(alloc: Global) -> Output
        ensures { result ≡ [] }
    {
        Output {
            short: [b'\n'; SHORT_REPLY],
            long: Vec::new(alloc),
            len: 0,
            is_long: false,
        }
    }

    /// The text, without its newline.
    pub fn as_slice(&self) -> &[u8]
        ensures { result.now ≡ self.now }
    {
        if self.is_long {
            &self.long[..self.len]
        } else {
            &self.short.as_slice()[..self.len]
        }
    }

    /// The text with its newline.
    pub fn line(&self) -> &[u8]
        ensures { result.now ≡ self.now ++ 10 ∷ [] }
    {
        if self.is_long {
            &self.long[..self.len + 1]
        } else {
            &self.short.as_slice()[..self.len + 1]
        }
    }

    /// Puts a reply that shows no row. It takes no memory.
    fn put_short(&mut self, reply: &Reply<'_>, catalog: &Catalog)
        requires said { IsSaidOf catalog.now (said reply.now) }
        requires short { is_short (said reply.now) ≡ true }
        ensures { self.new ≡ reply_text catalog.now (said reply.now) }
    {
        self.len = short_line(&mut self.short, reply, catalog);
        self.is_long = false;
    }

    /// Puts a reply that shows rows, or `memory` where it has no room for them.
    fn put_long(
        &mut self,
        alloc: Global,
        reply: &Reply<'_>,
        catalog: &Catalog,
        labels: &ReplyLabels,
    )
        requires said { IsSaidOf catalog.now (said reply.now) }
        requires long { is_short (said reply.now) ≡ false }
        requires labels { AreLabelsOf catalog.now labels.now }
        ensures { PutOrMemory catalog.now (said reply.now) self.new }
    {
        if self.long.len() > KEPT {
            self.long = Vec::new(alloc);
        }
        match long_line(alloc, &mut self.long, reply, catalog, labels) {
            Ok(end) => {
                self.len = end;
                self.is_long = true;
            }
            Err(_) => {
                self.len = short_line(&mut self.short, &NO_ROOM, catalog);
                self.is_long = false;
            }
        }
    }

    /// Puts a reply in the place of the one before. Its table, and the index of a conflict, are in the catalog. One that shows rows takes
    /// memory; where that is refused, the refusal `memory` is put. The labels are none or those of the catalog's tables: they save time.
    pub fn put(&mut self, alloc: Global, reply: &Reply<'_>, catalog: &Catalog, labels: &ReplyLabels)
        requires said { IsSaidOf catalog.now (said reply.now) }
        requires labels { AreLabelsOf catalog.now labels.now }
        ensures { PutOrMemory catalog.now (said reply.now) self.new }
    {
        if reply.is_short() {
            self.put_short(reply, catalog);
        } else {
            self.put_long(alloc, reply, catalog, labels);
        }
    }
}
