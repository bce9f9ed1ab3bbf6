//! Which lines wait for room in the journal. It asks nobody.
ghost use Rattle.std.specs.Prelude.{◌≡◌, ◌+◌, length, IfOk};
ghost use Rattle.mi_durable.specs.Room as spec;

use mi_request::{LineReader, Request, SessionCommand};
use mi_value::Refusal;
use mi_value::limits::{MAX_LINE, MAX_SESSIONS};
use std::alloc::{AllocError, Global};

/// Bytes of the longest line of an undo for which room is kept, with its newline.
pub const SHORT_UNDO: usize = 64;

/// Bytes of room that a change asks for, whatever its length: as many as the longest line has with its newline, and as undoing the most sessions
/// takes behind it, each by a short line. So whether a log lacks room doesn't hang on which line asked last.
pub const CHANGE_ROOM: u64 = (MAX_LINE + 1 + SHORT_UNDO * MAX_SESSIONS) as u64;

/// Whether a request undoes sessions, where so many are open.
fn undoes_some(request: &Request<'_>, depth: u64) -> bool
    ensures { result ≡ spec.undoes_some depth request.now }
{
    match request {
        Request::Session(SessionCommand::Undo | SessionCommand::UndoAll) => depth >= 1,
        _ => false,
    }
}

/// Whether a line of this text waits for room, where so many sessions are open. A change does, but for a short undo of a session that is open.
/// An error where memory for reading it is refused.
pub fn waits_for_room(alloc: Global, text: &[u8], depth: u64) -> Result<bool, AllocError>
    ensures { IfOk result (λ waits. waits ≡ spec.waits_for_room depth text.now) }
{
    if text.len() > MAX_LINE {
        return Ok(false);
    }
    let mut reader = LineReader::new(alloc);
    match reader.parse(text) {
        Ok(request) => {
            let is_short_undo = undoes_some(&request, depth) && text.len() < SHORT_UNDO;
            Ok(request.keeps_out() && !is_short_undo)
        }
        Err(Refusal::Memory) => Err(AllocError),
        Err(_refused) => Ok(false),
    }
}
