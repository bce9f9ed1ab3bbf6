//! What a call with values tells, in numbers that C can take. Plain data.
ghost use Rattle.std.specs.Prelude.{◌≡◌};
ghost use Rattle.mi_protocol.specs.Replies.{said};
ghost use Rattle.mi_embed.specs.CallResults as meaning;
ghost use Rattle.mi_embed.specs.CallResults.{told_of, number_told};
ghost use Rattle.mi_embed.specs.Cursors.{cursor_told};

use mi_protocol::Reply;
use mi_value::Refusal;

/// Where there is no room for what is answered.
const ROOM: u32 = 19;

/// Where no record is left in the direction that was asked.
const END: u32 = 20;

/// The answer of a call.
#[repr(C)]
#[derive(Clone, Copy, Debug, Drop)]
pub struct CallResult {
    /// 0 where the call was accepted, 1 to 18 why it was refused, in the order of `Refusal`, 19 where there is no room for its answer, and 20 where a
    /// cursor is at the end.
    pub status: u32,
    /// Of a conflict the number of the index; of a page 1 where others remain, and else 0; of an answer without room the cells that it wants.
    pub index: u32,
    /// Of an accepted call an id, a count, a rank or a revision; of a page how many rows it has; of a conflict the id of the other record. Of an
    /// answer without room it is the bytes that its texts want.
    pub number: u64,
}

/// A number in 32 bits, or the greatest one where it is greater.
fn in_32(n: usize) -> u32
    ensures { result ≡ meaning.in_32 n }
{
    u32::try_from(n).unwrap_or(u32::MAX)
}

/// The number of a refusal.
pub(crate) fn refusal_number(refusal: Refusal) -> u32
    ensures { result ≡ meaning.refusal_number refusal }
{
    match refusal {
        Refusal::Line => 1,
        Refusal::Json => 2,
        Refusal::Form => 3,
        Refusal::Busy => 4,
        Refusal::NoTable => 5,
        Refusal::Index => 6,
        Refusal::Kind => 7,
        Refusal::Row => 8,
        Refusal::Key => 9,
        Refusal::NoId => 10,
        Refusal::Range => 11,
        Refusal::Full => 12,
        Refusal::Spent => 13,
        Refusal::Unique { .. } => 14,
        Refusal::Lost { .. } => 15,
        Refusal::Depth => 16,
        Refusal::Session => 17,
        Refusal::Memory => 18,
    }
}

impl CallResult {
    /// What is accepted, with a number.
    pub(crate) fn accepted(number: u64) -> CallResult
        ensures { result ≡ meaning.accepted number }
    {
        CallResult {
            status: 0,
            index: 0,
            number,
        }
    }

    /// What is refused.
    pub(crate) fn refused(refusal: Refusal) -> CallResult
        ensures { result ≡ meaning.refused refusal }
    {
        let (index, number) = match refusal {
            Refusal::Unique { index, id } | Refusal::Lost { index, id } => (in_32(index), id),
            _ => (0, 0),
        };
        CallResult {
            status: refusal_number(refusal),
            index,
            number,
        }
    }

    /// What wants room for so many cells and so many bytes.
    pub(crate) fn wanting(count: usize, bytes: u64) -> CallResult
        ensures { result ≡ meaning.wanting count bytes }
    {
        CallResult {
            status: ROOM,
            index: in_32(count),
            number: bytes,
        }
    }

    /// What is told of a page of so many rows: others remain, or don't.
    pub(crate) fn paged(count: usize, more: bool) -> CallResult
        ensures { result ≡ meaning.paged count more }
    {
        CallResult {
            status: 0,
            index: u32::from(more),
            number: count as u64,
        }
    }

    /// A number that is answered, or why it isn't.
    pub fn number(answer: Result<u64, Refusal>) -> CallResult
        ensures { result ≡ number_told answer }
    {
        match answer {
            Ok(number) => CallResult::accepted(number),
            Err(refusal) => CallResult::refused(refusal),
        }
    }

    /// The id that was looked for, the end where there is none, or why it isn't answered.
    pub fn cursor(answer: Result<Option<u64>, Refusal>) -> CallResult
        ensures { result ≡ cursor_told answer }
    {
        match answer {
            Ok(Some(id)) => CallResult::accepted(id),
            Ok(None) => CallResult {
                status: END,
                index: 0,
                number: 0,
            },
            Err(refusal) => CallResult::refused(refusal),
        }
    }

    /// What is told of an answer, aside what its rows are put into.
    pub(crate) fn of(reply: &Reply<'_>) -> CallResult
        ensures { result ≡ told_of (said reply.now) }
    {
        match reply {
            Reply::Done => CallResult::accepted(0),
            Reply::Inserted(n)
            | Reply::Erased(n)
            | Reply::Revised(n)
            | Reply::Committed(n)
            | Reply::Undone(n)
            | Reply::Pushed(n)
            | Reply::Counted(n)
            | Reply::Ranked(n)
            | Reply::Sized(n) => CallResult::accepted(*n),
            Reply::Shown { id, .. } => CallResult::accepted(*id),
            Reply::Status { revision, .. } => CallResult::accepted(*revision),
            Reply::Rows { rows, more, .. } => CallResult::paged(rows.len(), *more),
            Reply::RefusedModify { refusal, .. } | Reply::Refused { refusal, .. } => {
                CallResult::refused(*refusal)
            }
        }
    }
}
