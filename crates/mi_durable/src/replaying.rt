//! A line of a journal, asked again of a hub that nobody else asks.
ghost use Rattle.std.specs.Prelude.{◌≡◌, ◌-◌, ◌⊎◌, ℕ, List, [], Bool, Some, Ok, Err, true, false, OnOk, IfSome};
ghost use Rattle.mi_log.specs.LogLines.{reader_of, line_of};
ghost use Rattle.mi_hub.specs.Ended.{after_newlines};
ghost use Rattle.mi_durable.specs.Replay.{Onward, HasPassed, IsTorn, IsTaken, IsForMemory};
ghost use Rattle.mi_hub.specs.Connections.{rest_at};
ghost use Rattle.mi_hub.specs.Lines.{lines_of};
ghost use Rattle.mi_replay.specs.Replayed.{replayer, replayed};
ghost use Rattle.mi_hub.specs.OneLine.{IsWholeLine, AsksLine};

use mi_hub::Hub;
use mi_log::LogLines;
use mi_sessions::Sessions;
use std::alloc::Global;
use std::io::BufRead;

/// The connection that asks a journal's lines.
pub const REPLAYER: u64 = 1;

/// Why a line isn't replayed. What the hub is then isn't said.
#[derive(Clone, Copy, Debug, PartialEq, Eq, Drop)]
pub enum LineFault {
    /// It isn't a line of a journal: it is no command, or was refused, or asks for no change.
    Refused,
    /// It was refused memory, or its reply was.
    Memory,
}

/// Why a journal isn't replayed to its end. What the hub is then isn't said.
#[derive(Clone, Copy, Debug, PartialEq, Eq, Drop)]
pub enum ReplayFault {
    /// A read failed, or a line has no room in memory.
    Read,
    /// The line of this number, from 1, isn't one of a journal. The header is line 1.
    Damaged(u64),
    /// A line, or its reply, was refused memory.
    Memory,
    /// The most lines of one replay, 2^64, were read.
    Turns,
}

/// Whether a line is one of a journal, of which is said whether it may have changed something: its reply, with the newline, tells a reserve,
/// which former journals have, and that memory was wanting.
fn judge(changed: bool, reply: &[u8]) -> Result<(), LineFault>
    ensures ok { OnOk result (IsTaken changed reply.now) }
    ensures refused { result ≡ Err LineFault.Refused → ¬ (IsTaken changed reply.now ⊎ IsForMemory reply.now) }
    ensures memory { result ≡ Err LineFault.Memory → IsForMemory reply.now }
{
    if changed {
        return Ok(());
    }
    if reply == b"{\"ok\":true}\n".as_slice() {
        return Ok(());
    }
    if reply == b"{\"error\":\"memory\",\"ok\":false}\n".as_slice() {
        return Err(LineFault::Memory);
    }
    Err(LineFault::Refused)
}

/// Asks a line of a journal, with its newline, as the one connection that asks them, which is attached. The hub is left as the line leaves it
/// where it is answered by the definition. The line is then one of a journal. So the lines of a journal, asked one after another, leave what its
/// run left.
pub fn replay_line<D: Sessions + Drop>(
    alloc: Global,
    hub: &mut Hub<D>,
    line: &[u8],
) -> Result<(), LineFault>
    requires attached { rest_at replayer hub.old.attached ≡ Some (Some []) }
    requires whole { IsWholeLine line.now }
    ensures ok { OnOk result (hub.new.held ≡ replayed (lines_of line.now) hub.old.held) }
    ensures taken { OnOk result ((out : List ℕ) × (changed : Bool) × AsksLine replayer line.now out changed hub.old hub.new × IsTaken changed out) }
    ensures refused { result ≡ Err LineFault.Refused
        → (out : List ℕ) × (changed : Bool) × AsksLine replayer line.now out changed hub.old hub.new × ¬ (IsTaken changed out ⊎ IsForMemory out) }
    ensures still { OnOk result (rest_at replayer hub.new.attached ≡ Some (Some [])) }
    ensures attached { OnOk result (hub.new.attached ≡ hub.old.attached) }
{
    let mut reply = Vec::new(alloc);
    match hub.ask_line(REPLAYER, line, &mut reply) {
        Ok(changed) => judge(changed, reply.as_slice()),
        Err(_error) => Err(LineFault::Memory),
    }
}

/// Replays the next line, whose number this is, where there is one.
fn replay_next<D: Sessions + Drop, R: BufRead>(
    alloc: Global,
    hub: &mut Hub<D>,
    lines: &mut LogLines<R>,
    number: u64,
) -> Result<bool, ReplayFault>
    requires { rest_at replayer hub.old.attached ≡ Some (Some []) }
    ensures more { result ≡ Ok true → Onward (R.remaining (reader_of lines.old)) (R.remaining (reader_of lines.new)) hub.old.held hub.new.held }
    ensures passed { result ≡ Ok true → HasPassed 1 (R.remaining (reader_of lines.old)) (R.remaining (reader_of lines.new)) }
    ensures damaged { (k : ℕ) → result ≡ Err (ReplayFault.Damaged k)
        → (k ≡ number) × HasPassed 1 (R.remaining (reader_of lines.old)) (R.remaining (reader_of lines.new)) }
    ensures end { result ≡ Ok false → (hub.new ≡ hub.old)
        × IfSome (R.remaining (reader_of lines.old)) (λ bytes. IsTorn bytes (line_of lines.new)) }
    ensures still { OnOk result (rest_at replayer hub.new.attached ≡ Some (Some [])) }
    ensures attached { OnOk result (hub.new.attached ≡ hub.old.attached) }
{
    match lines.advance() {
        Ok(true) => match replay_line(alloc, hub, lines.line()) {
            Ok(()) => Ok(true),
            Err(LineFault::Refused) => Err(ReplayFault::Damaged(number)),
            Err(LineFault::Memory) => Err(ReplayFault::Memory),
        },
        Ok(false) => Ok(false),
        Err(_error) => Err(ReplayFault::Read),
    }
}

/// Asks a hub all whole lines that a reader has left behind a journal's header, as the one connection that asks them, which is attached. What
/// stands behind the last newline isn't asked; it is `line` of the reader then. Where a line is damaged, it is the last that was read.
pub fn replay<D: Sessions + Drop, R: BufRead>(
    alloc: Global,
    hub: &mut Hub<D>,
    lines: &mut LogLines<R>,
) -> Result<(), ReplayFault>
    requires { rest_at replayer hub.old.attached ≡ Some (Some []) }
    ensures ok { OnOk result (IfSome (R.remaining (reader_of lines.old)) (λ bytes. hub.new.held ≡ replayed (lines_of bytes) hub.old.held)) }
    ensures torn { OnOk result (IfSome (R.remaining (reader_of lines.old)) (λ bytes. line_of lines.new ≡ after_newlines bytes)) }
    ensures damaged { (k : ℕ) → result ≡ Err (ReplayFault.Damaged k)
        → HasPassed (k - 1) (R.remaining (reader_of lines.old)) (R.remaining (reader_of lines.new)) }
    ensures still { OnOk result (rest_at replayer hub.new.attached ≡ Some (Some [])) }
    ensures attached { OnOk result (hub.new.attached ≡ hub.old.attached) }
{
    let mut number = 2u64;
    'lines: while number < u64::MAX {
        if !replay_next(alloc, hub, lines, number)? {
            return Ok(());
        }
        number += 1;
    }
    Err(ReplayFault::Turns)
}
