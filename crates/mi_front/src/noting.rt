//! Lines of a journal, asked of a hub again, each of which is noted: behind it is kept how many sessions are open, and the revision. It opens no file.
ghost use Rattle.std.specs.Prelude.{◌≡◌, ◌+◌, ◌<◌, ◌^◌, ◌∷◌, List, [], Some, Ok, false, true, OnOk, IfSome};
ghost use Rattle.mi_commands.specs.Asked.{Asked};
ghost use Rattle.mi_hub.specs.Connections.{rest_at};
ghost use Rattle.mi_hub.specs.Ended.{ended};
ghost use Rattle.mi_hub.specs.Lines.{lines_of};
ghost use Rattle.mi_hub.specs.OneLine.{IsWholeLine};
ghost use Rattle.mi_log.specs.LogLines.{reader_of, line_of};
ghost use Rattle.mi_replay.specs.Replayed.{replayer};
ghost use Rattle.mi_front.specs.Noted.{Lines, HasGiven, GivesAll, Notes};

use mi_checkpoint::OpenStarts;
use mi_durable::{LineFault, ReplayFault, replay_line};
use mi_hub::Hub;
use mi_log::LogLines;
use mi_sessions::Sessions;
use std::alloc::Global;
use std::io::BufRead;

/// Asks a line of a journal, with its newline, and notes it. `Memory` also where there is no memory to note it.
fn note_line<D: Sessions + Drop>(
    alloc: Global,
    hub: &mut Hub<D>,
    starts: &mut OpenStarts,
    line: &[u8],
) -> Result<(), LineFault>
    requires here { rest_at replayer hub.old.attached ≡ Some (Some []) }
    requires whole { IsWholeLine line.now }
    requires room { starts.old.lines + 1 < 2 ^ 64 }
    ensures noted { OnOk result ((asked : Asked) × (lines_of line.now ≡ asked ∷ [])
        × Notes hub.old.held starts.old (asked ∷ []) hub.new.held starts.new) }
    ensures attached { OnOk result (hub.new.attached ≡ hub.old.attached) }
{
    replay_line(alloc, hub, line)?;
    let database = hub.database();
    match starts.note(database.depth(), database.revision()) {
        Ok(()) => Ok(()),
        Err(_refused) => Err(LineFault::Memory),
    }
}

/// Asks the next line, whose number this is, and notes it, where there is one.
fn note_next<D: Sessions + Drop, R: BufRead>(
    alloc: Global,
    hub: &mut Hub<D>,
    starts: &mut OpenStarts,
    lines: &mut LogLines<R>,
    number: u64,
) -> Result<bool, ReplayFault>
    requires here { rest_at replayer hub.old.attached ≡ Some (Some []) }
    requires room { starts.old.lines + 1 < 2 ^ 64 }
    ensures more { result ≡ Ok true
        → (asked : Asked) × HasGiven (R.remaining (reader_of lines.old)) (asked ∷ []) (R.remaining (reader_of lines.new))
        × Notes hub.old.held starts.old (asked ∷ []) hub.new.held starts.new }
    ensures end { result ≡ Ok false → (hub.new ≡ hub.old) × (starts.new ≡ starts.old)
        × IfSome (R.remaining (reader_of lines.old)) (λ bytes. (line_of lines.new ≡ bytes) × (ended bytes ≡ [])) }
    ensures attached { OnOk result (hub.new.attached ≡ hub.old.attached) }
{
    match lines.advance() {
        Ok(true) => match note_line(alloc, hub, starts, lines.line()) {
            Ok(()) => Ok(true),
            Err(LineFault::Refused) => Err(ReplayFault::Damaged(number)),
            Err(LineFault::Memory) => Err(ReplayFault::Memory),
        },
        Ok(false) => Ok(false),
        Err(_error) => Err(ReplayFault::Read),
    }
}

/// Asks a hub all whole lines that a reader has left behind a journal's header, and notes each. What stands behind the last newline isn't asked; it
/// is `line` of the reader then. The first line has the number 2.
pub(crate) fn note_lines<D: Sessions + Drop, R: BufRead>(
    alloc: Global,
    hub: &mut Hub<D>,
    starts: &mut OpenStarts,
    lines: &mut LogLines<R>,
) -> Result<(), ReplayFault>
    requires { rest_at replayer hub.old.attached ≡ Some (Some []) }
    ensures noted { OnOk result ((asked : Lines) × GivesAll (R.remaining (reader_of lines.old)) asked (line_of lines.new)
        × Notes hub.old.held starts.old asked hub.new.held starts.new) }
    ensures attached { OnOk result (hub.new.attached ≡ hub.old.attached) }
{
    let before = starts.lines();
    'lines: while starts.lines() < u64::MAX {
        let number = starts.lines().saturating_sub(before).saturating_add(2);
        if !note_next(alloc, hub, starts, lines, number)? {
            return Ok(());
        }
    }
    Err(ReplayFault::Turns)
}
