//! The lines of one connection, asked of the durable hub. It reads and writes no stream.
ghost use Rattle.std.specs.Prelude.{◌≡◌, ◌⊎◌, ◌<◌, ◌++◌, ℕ, List, [], ◌∷◌, Some, Err, true, false, not, ◌&&◌, length, IsTrue, IsFalse, OnOk, OnErr, IfOk, IsOk};
ghost use Rattle.std.specs.Io.KnownBytes.{Keeps};
ghost use Rattle.mi_commands.specs.Holder.{held_by, released};
ghost use Rattle.mi_hub.specs.Connections.{rest_at, others};
ghost use Rattle.mi_durable.specs.Durable.{hub_of, log_of, IsSettled, holder_conn, is_conn};
ghost use Rattle.mi_clients.specs.Steps.{Step, Makes, IsAskOf, is_denial, since_after, GivesNone, AsksNone, AreAsks, AreUndos, LeavesOthers, HoldsSome};
ghost use Rattle.mi_clients.specs.Input.{waiting, count_on};
ghost use Rattle.mi_durable.specs.HeldReplies.{bytes_of};
ghost use Rattle.mi_clients.specs.Output.{unsent};
ghost use Rattle.mi_clients.specs.Client.{owed, Owes, IsWhole, IsAsked, IsAtService, IsAsFar, AsksWithin, MayAsk};
ghost use Rattle.mi_hub.specs.Ended.{ended};
ghost use Rattle.mi_clients.specs.declared.client.Phase.TheVariants as phases;

use crate::client::{Client, Phase};
use crate::service_lines::is_service;
use mi_durable::{Durable, DurableFault, HeldReplies, is_holder};
use mi_log::Log;
use mi_sessions::Sessions;
use mi_value::limits::MAX_SESSIONS;
use std::alloc::Global;
use std::mem;

/// What a holder that goes away is taken to ask.
const UNDO: &[u8] = b"{\"cmd\":\"undo\"}\n";

/// Replies that stay wait for the stream behind those that do already. Without room for them the connection is broken.
pub(crate) fn hand_out<S>(client: &mut Client<S>, bytes: Vec<u8>)
    ensures unsent { ((client.new.phase ≡ phases.Broken) × (unsent client.new.output ≡ unsent client.old.output))
        ⊎ ((client.new.phase ≡ client.old.phase) × (unsent client.new.output ≡ unsent client.old.output ++ bytes.items)) }
    ensures input { client.new.input ≡ client.old.input }
    ensures has_lines { client.new.has_lines ≡ client.old.has_lines }
    ensures same { client.new ≡ record client.old { input = client.new.input; output = client.new.output; phase = client.new.phase; has_lines = client.new.has_lines; lines = client.new.lines; all_asked = client.new.all_asked } }
{
    match client.output.add(client.alloc, bytes) {
        Ok(()) => {}
        Err(_error) => client.phase = Phase::Broken,
    }
}

/// The replies of a connection that were held are held no more.
pub(crate) fn take_held<S>(client: &mut Client<S>) -> HeldReplies
    ensures held { bytes_of result ≡ bytes_of client.old.held }
    ensures none { bytes_of client.new.held ≡ [] }
    ensures same { client.new ≡ record client.old { held = client.new.held } }
{
    mem::replace(&mut client.held, HeldReplies::new(client.alloc))
}

/// Hands the replies of a connection out, once all that was appended stays. One whose replies have no room is broken.
pub fn release<D: Sessions + Drop, L: Log + Drop, S>(
    durable: &mut Durable<D, L>,
    client: &mut Client<S>,
) -> Result<(), DurableFault>
    requires settled { IsSettled L.appended L.synced durable.old }
    ensures stays { OnOk result ((client.new ≡ client.old) ⊎ Keeps (L.appended (log_of durable.new)) (L.synced (log_of durable.new))) }
    ensures owes { OnOk result (Owes [] client.old client.new) }
    ensures phase { OnOk result ((client.new.phase ≡ phases.Broken) ⊎ (client.new.phase ≡ client.old.phase)) }
    ensures input { OnOk result (client.new.input ≡ client.old.input) }
    ensures has_lines { OnOk result (client.new.has_lines ≡ client.old.has_lines) }
    ensures none { OnOk result (bytes_of client.new.held ≡ []) }
    ensures unsent { OnErr result (client.new.output ≡ client.old.output) }
    ensures hub { hub_of durable.new ≡ hub_of durable.old }
    ensures appended { Keeps (L.appended (log_of durable.old)) (L.appended (log_of durable.new)) }
    ensures room { OnOk result (L.lacks_room (log_of durable.new) ≡ L.lacks_room (log_of durable.old)) }
    ensures segment { OnOk result (L.segment (log_of durable.new) ≡ L.segment (log_of durable.old)) }
    ensures failed { OnErr result ((result ≡ Err DurableFault.Journal) × (L.has_failed (log_of durable.new) ≡ true)) }
    ensures settled { IsSettled L.appended L.synced durable.new }
{
    if client.held.is_empty() {
        return Ok(());
    }
    let held = take_held(client);
    let bytes = durable.release(held)?;
    hand_out(client, bytes);
    Ok(())
}

/// The same where that is done for each line.
fn release_each<D: Sessions + Drop, L: Log + Drop, S>(
    durable: &mut Durable<D, L>,
    client: &mut Client<S>,
    each: bool,
) -> Result<(), DurableFault>
    requires settled { IsSettled L.appended L.synced durable.old }
    ensures stays { OnOk result ((client.new ≡ client.old) ⊎ Keeps (L.appended (log_of durable.new)) (L.synced (log_of durable.new))) }
    ensures owes { OnOk result (Owes [] client.old client.new) }
    ensures phase { OnOk result ((client.new.phase ≡ phases.Broken) ⊎ (client.new.phase ≡ client.old.phase)) }
    ensures input { OnOk result (client.new.input ≡ client.old.input) }
    ensures hub { hub_of durable.new ≡ hub_of durable.old }
    ensures appended { Keeps (L.appended (log_of durable.old)) (L.appended (log_of durable.new)) }
    ensures room { OnOk result (L.lacks_room (log_of durable.new) ≡ L.lacks_room (log_of durable.old)) }
    ensures segment { OnOk result (L.segment (log_of durable.new) ≡ L.segment (log_of durable.old)) }
    ensures failed { OnErr result ((result ≡ Err DurableFault.Journal) × (L.has_failed (log_of durable.new) ≡ true)) }
    ensures settled { IsSettled L.appended L.synced durable.new }
{
    if each {
        release(durable, client)
    } else {
        Ok(())
    }
}

/// Whether a connection holds sessions.
fn holds_some<D: Sessions + Drop, L: Log + Drop>(durable: &Durable<D, L>, conn: u64) -> bool
    ensures { result ≡ is_conn (holder_conn (hub_of durable.now).held.holder) conn }
{
    is_holder(durable.hub().holder(), conn)
}

/// Whether a connection begins to hold sessions: it held none before, and holds some.
fn begins_to_hold(held: bool, holds: bool) -> bool
    ensures { result ≡ (not held && holds) }
{
    !held && holds
}

/// What came of asking the first whole line of a connection that waits.
#[derive(Clone, Copy, Drop)]
enum Found {
    /// It is asked, or turned away, and its reply is held.
    Asked,
    /// No whole line waits.
    Nothing,
    /// It is the service's own, and waits still.
    Service,
}

/// Asks the first whole line of a connection that waits, where it is none of the service's own. It is turned away where the durable hub has no
/// room for it.
fn ask_line<D: Sessions + Drop, L: Log + Drop, S>(
    durable: &mut Durable<D, L>,
    client: &mut Client<S>,
) -> Result<Found, DurableFault>
    requires here { rest_at client.old.conn (hub_of durable.old).attached ≡ Some (Some []) }
    requires lines { IsTrue client.old.has_lines }
    ensures one { IfOk result (λ found. found ≡ Found.Asked → (line : List ℕ) × (out : List ℕ) × (step : Step)
        × IsAskOf client.old.conn line out step × (0 < length line)
        × (waiting client.old.input ≡ line ++ waiting client.new.input) × (owed client.new ≡ owed client.old ++ out)
        × Makes (step ∷ []) (hub_of durable.old) (hub_of durable.new) (L.appended (log_of durable.old)) (L.appended (log_of durable.new))
        × (is_denial step ≡ true → L.lacks_room (log_of durable.new) ≡ true)
        × (client.new.input.lines ≡ count_on client.old.input.lines line)
        × (client.new.input.since ≡ since_after client.old.conn client.old.input.lines client.old.input.since (step ∷ []))) }
    ensures none { IfOk result (λ found. found ≡ Found.Nothing → (client.new ≡ client.old) × (durable.new ≡ durable.old) × (ended (waiting client.old.input) ≡ [])) }
    ensures service { IfOk result (λ found. found ≡ Found.Service → (client.new ≡ client.old) × (durable.new ≡ durable.old) × IsAtService client.old) }
    ensures same { OnOk result ((client.new.conn ≡ client.old.conn) × (client.new.phase ≡ client.old.phase) × (client.new.stream ≡ client.old.stream)) }
    ensures first { OnOk result (client.new.input.is_first ≡ client.old.input.is_first) }
    ensures attached { OnOk result ((hub_of durable.new).attached ≡ (hub_of durable.old).attached) }
    ensures failed { result ≡ Err DurableFault.Journal → L.has_failed (log_of durable.new) ≡ true }
    ensures settled { IsSettled L.appended L.synced durable.old → IsSettled L.appended L.synced durable.new }
{
    let Some(line) = client.input.line() else {
        return Ok(Found::Nothing);
    };
    if is_service(line) {
        return Ok(Found::Service);
    }
    let held = holds_some(durable, client.conn);
    durable.ask_in_room(client.alloc, client.conn, line, &mut client.held)?;
    let holds = holds_some(durable, client.conn);
    let begins = begins_to_hold(held, holds);
    let count = line.len();
    client.input.pass(count, begins);
    Ok(Found::Asked)
}

/// Asks the lines of a connection that have come, as long as its replies have room: all of them, unless it breaks, or the room ends, or the
/// next is the service's own. With `each` a reply is handed out, behind a sync, before the next line is asked.
pub fn ask_lines<D: Sessions + Drop, L: Log + Drop, S>(
    durable: &mut Durable<D, L>,
    client: &mut Client<S>,
    each: bool,
) -> Result<(), DurableFault>
    requires here { rest_at client.old.conn (hub_of durable.old).attached ≡ Some (Some []) }
    requires settled { IsSettled L.appended L.synced durable.old }
    ensures asks { OnOk result ((steps : List Step) × (taken : List ℕ) × (given : List ℕ) × AreAsks client.old.conn steps taken given
        × (waiting client.old.input ≡ taken ++ waiting client.new.input)
        × Owes given client.old client.new
        × Makes steps (hub_of durable.old) (hub_of durable.new) (L.appended (log_of durable.old)) (L.appended (log_of durable.new))
        × AsksWithin client.old steps
        × (client.new.input.lines ≡ count_on client.old.input.lines taken)
        × (client.new.input.since ≡ since_after client.old.conn client.old.input.lines client.old.input.since steps)) }
    ensures all { OnOk result (IsAsked client.new) }
    ensures phase { OnOk result (IsAsFar client.old client.new) }
    ensures first { OnOk result (client.new.input.is_first ≡ client.old.input.is_first) }
    ensures idle { ¬ MayAsk client.old → IsOk result × (client.new ≡ client.old) }
    ensures attached { OnOk result ((hub_of durable.new).attached ≡ (hub_of durable.old).attached) }
    ensures failed { result ≡ Err DurableFault.Journal → L.has_failed (log_of durable.new) ≡ true }
    ensures settled { OnOk result (IsSettled L.appended L.synced durable.new) }
{
    'lines: while client.may_ask() {
        match ask_line(durable, client)? {
            Found::Asked => release_each(durable, client, each)?,
            Found::Nothing => {
                client.has_lines = false;
                return Ok(());
            }
            Found::Service => return Ok(()),
        }
    }
    Ok(())
}

/// The sessions that a connection holds are undone, each by a line that is asked and whose reply nobody hears. Where it isn't the holder nothing
/// changes.
pub fn undo_all<D: Sessions + Drop, L: Log + Drop>(
    alloc: Global,
    durable: &mut Durable<D, L>,
    conn: u64,
) -> Result<(), DurableFault>
    requires here { rest_at conn (hub_of durable.old).attached ≡ Some (Some []) }
    ensures undoes { OnOk result ((steps : List Step) × AreUndos conn steps
        × Makes steps (hub_of durable.old) (hub_of durable.new) (L.appended (log_of durable.old)) (L.appended (log_of durable.new))) }
    ensures none { OnOk result (held_by conn (hub_of durable.new).held.holder ≡ 0) }
    ensures left { OnOk result (HoldsSome (hub_of durable.old).held.holder → (hub_of durable.new).held ≡ released conn (hub_of durable.old).held) }
    ensures still { ¬ (holder_conn (hub_of durable.old).held.holder ≡ Some conn) → durable.new ≡ durable.old }
    ensures room { OnOk result (L.lacks_room (log_of durable.new) ≡ L.lacks_room (log_of durable.old)) }
    ensures makes_stay { L.makes_stay (log_of durable.new) ≡ L.makes_stay (log_of durable.old) }
    ensures segment { L.segment (log_of durable.new) ≡ L.segment (log_of durable.old) }
    ensures attached { OnOk result ((hub_of durable.new).attached ≡ (hub_of durable.old).attached) }
    ensures failed { result ≡ Err DurableFault.Journal → L.has_failed (log_of durable.new) ≡ true }
    ensures settled { IsSettled L.appended L.synced durable.old → IsSettled L.appended L.synced durable.new }
{
    let mut unheard = HeldReplies::new(alloc);
    'sessions: for _session in 0..=MAX_SESSIONS {
        if !durable.holds(conn) {
            return Ok(());
        }
        durable.ask(conn, UNDO, &mut unheard)?;
    }
    Err(DurableFault::Memory)
}

/// Once all lines of a connection are asked whose bytes have ended, its sessions are undone. Before that nothing changes.
pub fn finish<D: Sessions + Drop, L: Log + Drop, S>(
    durable: &mut Durable<D, L>,
    client: &mut Client<S>,
) -> Result<(), DurableFault>
    requires here { rest_at client.old.conn (hub_of durable.old).attached ≡ Some (Some []) }
    ensures undoes { OnOk result ((steps : List Step) × AreUndos client.old.conn steps × Owes [] client.old client.new
        × Makes steps (hub_of durable.old) (hub_of durable.new) (L.appended (log_of durable.old)) (L.appended (log_of durable.new))
        × (¬ IsWhole client.old → steps ≡ [])) }
    ensures still { IsWhole client.old ⊎ (durable.new ≡ durable.old) }
    ensures none { OnOk result ((client.new ≡ client.old)
        ⊎ ((client.new.phase ≡ phases.Drained) × (IsWhole client.old × (held_by client.new.conn (hub_of durable.new).held.holder ≡ 0)))) }
    ensures whole { OnOk result (¬ IsWhole client.new) }
    ensures idle { ¬ IsWhole client.old → IsOk result }
    ensures left { OnOk result (IsWhole client.old → HoldsSome (hub_of durable.old).held.holder
        → (client.new.phase ≡ phases.Drained) × ((hub_of durable.new).held ≡ released client.old.conn (hub_of durable.old).held)) }
    ensures input { OnOk result (client.new.input ≡ client.old.input) }
    ensures attached { OnOk result ((hub_of durable.new).attached ≡ (hub_of durable.old).attached) }
    ensures failed { result ≡ Err DurableFault.Journal → L.has_failed (log_of durable.new) ≡ true }
    ensures settled { IsSettled L.appended L.synced durable.old → IsSettled L.appended L.synced durable.new }
{
    if client.phase == Phase::Ended && !client.has_lines {
        undo_all(client.alloc, durable, client.conn)?;
        client.phase = Phase::Drained;
    }
    Ok(())
}

/// A connection goes away: the sessions that it holds are undone.
pub fn disconnect<D: Sessions + Drop, L: Log + Drop>(
    alloc: Global,
    durable: &mut Durable<D, L>,
    conn: u64,
) -> Result<(), DurableFault>
    requires here { rest_at conn (hub_of durable.old).attached ≡ Some (Some []) }
    ensures goes { OnOk result ((steps : List Step) × GivesNone steps
        × Makes steps (hub_of durable.old) (hub_of durable.new) (L.appended (log_of durable.old)) (L.appended (log_of durable.new))
        × LeavesOthers conn steps × AsksNone steps) }
    ensures left { OnOk result (HoldsSome (hub_of durable.old).held.holder → (hub_of durable.new).held ≡ released conn (hub_of durable.old).held) }
    ensures still { OnOk result (¬ (holder_conn (hub_of durable.old).held.holder ≡ Some conn) → (hub_of durable.new).held ≡ (hub_of durable.old).held) }
    ensures attached { OnOk result ((hub_of durable.new).attached ≡ others conn (hub_of durable.old).attached) }
    ensures room { OnOk result (L.lacks_room (log_of durable.new) ≡ L.lacks_room (log_of durable.old)) }
    ensures makes_stay { L.makes_stay (log_of durable.new) ≡ L.makes_stay (log_of durable.old) }
    ensures segment { L.segment (log_of durable.new) ≡ L.segment (log_of durable.old) }
    ensures failed { result ≡ Err DurableFault.Journal → L.has_failed (log_of durable.new) ≡ true }
    ensures settled { IsSettled L.appended L.synced durable.old → IsSettled L.appended L.synced durable.new }
{
    undo_all(alloc, durable, conn)?;
    durable.leave(conn);
    Ok(())
}
