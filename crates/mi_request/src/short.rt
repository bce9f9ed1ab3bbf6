//! Lines whose members are names and whole numbers, read where they stand as they are written without spaces. It takes no memory.
ghost use Rattle.std.specs.Prelude.{◌≡◌, ◌∷◌, [], ℕ, List, IfSome, IsSome, is_some, Option, Some, codes, option_map, option_and_then};
ghost use Rattle.mi_request.specs.NullaryCommand.{nullary_line};
ghost use Rattle.mi_request.specs.Short.{short_line, asked_short, table_is, index_is, id_is, whole, maybe_whole, whole_front};
ghost use Rattle.mi_request.specs.ShortCode as code;
ghost use Rattle.mi_request.specs.ShortCode.{IsRead, Template, read_members, a_name, perhaps_name, a_whole, perhaps_whole};
ghost use Rattle.mi_request.specs.declared.request.ChangeRequest.{ChangeRequest as AskedChange};
ghost use Rattle.mi_request.specs.declared.request.Request.TheVariants as request;

use crate::name::Name;
use crate::nullary_command::NullaryCommand;
use crate::request::{ChangeRequest, NumberLookUpRequest, Request, SessionCommand, ShortRequest};
use crate::words::{
    behind, is_end, maybe_name_behind, maybe_whole_behind, name_behind, whole_behind,
};

/// Where the third letter of the command's name stands in such a line.
const LETTER_AT: usize = 10;

/// The table behind a front, if it is named, and what stands behind it.
#[inline(always)]
fn table_of<'a>(front: &[u8], line: &'a [u8]) -> Option<(Option<Name<'a>>, &'a [u8])>
    ensures { (hs : Template) → option_and_then (read_members ((codes "table", perhaps_name) ∷ hs)) (code.behind front.now line.now)
        ≡ option_and_then (λ p. option_map (λ ms. table_is p.0 ∷ ms) (read_members hs p.1.now)) result }
{
    maybe_name_behind(b",\"table\":\"", behind(front, line)?)
}

/// An index of a table, and what stands behind its name.
#[derive(Drop)]
struct IndexIn<'a> {
    table: Option<Name<'a>>,
    index: Name<'a>,
    rest: &'a [u8],
}

/// The index behind a front.
#[inline(always)]
fn index_of<'a>(front: &[u8], line: &'a [u8]) -> Option<IndexIn<'a>>
    ensures { (hs : Template) → option_and_then (read_members ((codes "table", perhaps_name) ∷ (codes "index", a_name) ∷ hs)) (code.behind front.now line.now)
        ≡ option_and_then (λ p. option_map (λ ms. table_is p.table ∷ index_is p.index ∷ ms) (read_members hs p.rest.now)) result }
{
    let (table, rest) = table_of(front, line)?;
    let (index, rest) = name_behind(b",\"index\":\"", rest)?;
    Some(IndexIn { table, index, rest })
}

/// The number behind this front, at the end of the line.
#[inline(always)]
fn last_whole(front: &[u8], text: &[u8]) -> Option<u64>
    ensures { (name : List ℕ) → front.now ≡ whole_front name
        → read_members ((name, a_whole) ∷ []) text.now ≡ option_map (λ n. (name, whole n) ∷ []) result }
{
    let (n, rest) = whole_behind(front, text)?;
    if is_end(rest) { Some(n) } else { None }
}

/// The ids of a relocation, at the end of the line: of the record, and of the one before which it goes, if there is one.
#[inline(always)]
fn ids_of(text: &[u8]) -> Option<(u64, Option<u64>)>
    ensures { read_members ((codes "id", a_whole) ∷ (codes "before", perhaps_whole) ∷ []) text.now
        ≡ option_map (λ p. id_is p.0 ∷ (codes "before", maybe_whole p.1) ∷ []) result }
{
    let (id, rest) = whole_behind(b",\"id\":", text)?;
    let (before, rest) = maybe_whole_behind(b",\"before\":", rest)?;
    if is_end(rest) {
        Some((id, before))
    } else {
        None
    }
}

/// The line of a look-up by id.
#[inline(always)]
fn get(line: &[u8]) -> Option<ShortRequest<'_>>
    ensures { IsRead (codes "get") ((codes "table", perhaps_name) ∷ (codes "id", a_whole) ∷ []) line.now (option_map asked_short result) }
{
    let (table, rest) = table_of(b"{\"cmd\":\"get\"", line)?;
    let id = last_whole(b",\"id\":", rest)?;
    Some(ShortRequest::NumberLookUp {
        table,
        look_up: NumberLookUpRequest::Get { id },
    })
}

/// The line of an erase.
#[inline(never)]
fn erase(line: &[u8]) -> Option<Request<'_>>
    ensures { IsRead (codes "erase") ((codes "table", perhaps_name) ∷ (codes "id", a_whole) ∷ []) line.now result }
{
    let (table, rest) = table_of(b"{\"cmd\":\"erase\"", line)?;
    let id = last_whole(b",\"id\":", rest)?;
    Some(Request::Change {
        table,
        change: ChangeRequest::Erase { id },
    })
}

/// The line that asks a record's rank.
#[inline(always)]
fn rank(line: &[u8]) -> Option<ShortRequest<'_>>
    ensures { IsRead (codes "rank") ((codes "table", perhaps_name) ∷ (codes "index", a_name) ∷ (codes "id", a_whole) ∷ []) line.now (option_map asked_short result) }
{
    let at = index_of(b"{\"cmd\":\"rank\"", line)?;
    let id = last_whole(b",\"id\":", at.rest)?;
    Some(ShortRequest::NumberLookUp {
        table: at.table,
        look_up: NumberLookUpRequest::Rank {
            index: at.index,
            id,
        },
    })
}

/// The line that asks the record of a rank.
#[inline(always)]
fn nth(line: &[u8]) -> Option<ShortRequest<'_>>
    ensures { IsRead (codes "nth") ((codes "table", perhaps_name) ∷ (codes "index", a_name) ∷ (codes "n", a_whole) ∷ []) line.now (option_map asked_short result) }
{
    let at = index_of(b"{\"cmd\":\"nth\"", line)?;
    let n = last_whole(b",\"n\":", at.rest)?;
    Some(ShortRequest::NumberLookUp {
        table: at.table,
        look_up: NumberLookUpRequest::Nth { index: at.index, n },
    })
}

/// The line that asks a table's size.
#[inline(always)]
fn size(line: &[u8]) -> Option<ShortRequest<'_>>
    ensures { IsRead (codes "size") ((codes "table", perhaps_name) ∷ []) line.now (option_map asked_short result) }
{
    let (table, rest) = table_of(b"{\"cmd\":\"size\"", line)?;
    if !is_end(rest) {
        return None;
    }
    Some(ShortRequest::NumberLookUp {
        table,
        look_up: NumberLookUpRequest::Size,
    })
}

/// The line of a commit.
#[inline(always)]
fn commit(line: &[u8]) -> Option<ShortRequest<'_>>
    ensures { IsRead (codes "commit") ((codes "revision", a_whole) ∷ []) line.now (option_map asked_short result) }
{
    let rest = behind(b"{\"cmd\":\"commit\"", line)?;
    let revision = last_whole(b",\"revision\":", rest)?;
    Some(ShortRequest::Session(SessionCommand::Commit { revision }))
}

/// The line of a relocation, before a record or to the end.
#[inline(never)]
fn relocate(line: &[u8]) -> Option<Request<'_>>
    ensures { IsRead (codes "relocate")
        ((codes "table", perhaps_name) ∷ (codes "index", a_name) ∷ (codes "id", a_whole) ∷ (codes "before", perhaps_whole) ∷ []) line.now result }
{
    let at = index_of(b"{\"cmd\":\"relocate\"", line)?;
    let (id, before) = ids_of(at.rest)?;
    Some(Request::Change {
        table: at.table,
        change: ChangeRequest::Relocate {
            index: at.index,
            id,
            before,
        },
    })
}

/// The command without members that a line is.
#[inline(always)]
fn without_members(line: &[u8]) -> Option<ShortRequest<'_>>
    ensures value { IfSome result (λ r. short_line (asked_short r) ≡ Some line.now) }
    ensures whole { is_some result ≡ is_some (nullary_line line.now) }
{
    let found = NullaryCommand::of_line(line)?;
    Some(ShortRequest::Session(found.command()))
}

/// The request of a line that is written as `short_line` writes it, where it is a change; none of any other line.
#[inline(always)]
pub(crate) fn short_change(line: &[u8]) -> Option<Request<'_>>
    ensures value { IfSome result (λ r. short_line r ≡ Some line.now) }
    ensures whole { (t : Option (List ℕ)) (x : AskedChange) → short_line (request.Change t x) ≡ Some line.now → IsSome result }
{
    if line.len() <= LETTER_AT {
        return None;
    }
    match line[LETTER_AT] {
        b'l' => relocate(line),
        b'a' => erase(line),
        _ => None,
    }
}

impl<'a> ShortRequest<'a> {
    ghost use Rattle.std.specs.Prelude.{◌≡◌, IfSome, IsSome, Some};
    ghost use Rattle.mi_request.specs.Short.{short_line, asked_short};
    ghost use Rattle.mi_request.specs.declared.request.ShortRequest.{ShortRequest as Short};

    /// The request of a line that is written as `short_line` writes it, where it is no change; none of any other line. It takes no memory.
    /// The third letter of the command's name tells which it can be. The readers stand in line, so that what they read is in registers.
    #[inline(always)]
    pub fn of(line: &'a [u8]) -> Option<ShortRequest<'a>>
        ensures value { IfSome result (λ r. short_line (asked_short r) ≡ Some line.now) }
        ensures whole { (r : Short) → short_line (asked_short r) ≡ Some line.now → IsSome result }
    {
        if line.len() <= LETTER_AT {
            return None;
        }
        match line[LETTER_AT] {
            b't' => get(line),
            b'n' => rank(line),
            b'm' => commit(line),
            b'h' => nth(line),
            b'z' => size(line),
            _ => without_members(line),
        }
    }

    /// The same request.
    pub(crate) fn request(self) -> Request<'a>
        ensures { result ≡ asked_short self.entry }
    {
        match self {
            ShortRequest::NumberLookUp { table, look_up } => {
                Request::NumberLookUp { table, look_up }
            }
            ShortRequest::Session(command) => Request::Session(command),
        }
    }
}
