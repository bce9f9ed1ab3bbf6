//! A hub whose lines are journaled: what changed anything is appended to a log as it is executed, and the replies go out once that stays.
//! It reads and writes no stream.
ghost use Rattle.std.specs.Prelude.{◌≡◌, ◌↔◌, ◌<◌, ◌≤◌, ◌+◌, ◌++◌, ℕ, List, [], ◌⊎◌, ◌∷◌, Some, Ok, Err, true, false, length, OnOk, OnErr, IfOk, IfErr, IfSome, IsSome, IsNone, IsTrue, if◌then◌else◌};
ghost use Rattle.std.specs.Io.KnownBytes.{Appends, Keeps};
ghost use Rattle.mi_commands.specs.Holder.{held_by};
ghost use Rattle.mi_hub.specs.Connections.{rest_at};
ghost use Rattle.mi_hub.specs.Run.{attach, cut, Done, Refused};
ghost use Rattle.mi_replay.specs.Acts.{leaves};
ghost use Rattle.mi_durable.specs.HeldReplies.{bytes_of};
ghost use Rattle.mi_durable.specs.Durable.{is_conn, holder_conn};
ghost use Rattle.mi_durable.specs.Journals.{IsWholeLine, Journals, Asks};
ghost use Rattle.mi_durable.specs.Room.{NeedsNoRoom, IsTurnedAway, undo_room, change_room};
ghost use Rattle.mi_model.specs.Database.{depth};

use crate::fault::DurableFault;
use crate::replies::HeldReplies;
use crate::room::{CHANGE_ROOM, waits_for_room};
use mi_hub::{Hub, HubFault};
use mi_log::Log;
use mi_sessions::Sessions;
use std::alloc::Global;
use std::mem;

/// What is told to a line that waits for room.
const NO_ROOM: &[u8] = b"{\"error\":\"journal\",\"ok\":false}\n";

/// What is told to a line that there is no memory to read.
const NO_MEMORY: &[u8] = b"{\"error\":\"memory\",\"ok\":false}\n";

/// What became of a line that was to be asked.
#[derive(Clone, Copy, Debug, PartialEq, Eq, Drop)]
pub enum Admitted {
    /// It is asked.
    Asked,
    /// It isn't, and nothing has changed: the journal has no room for it, or there was no memory to read it.
    TurnedAway,
}

/// A hub, and the log that its journal is appended to.
#[derive(Drop)]
pub struct Durable<D: Sessions + Drop, L: Log + Drop> {
    hub: Hub<D>,
    log: L,
    unsynced: bool,
}

/// Whether a connection is the holder.
pub fn is_holder(holder: Option<u64>, conn: u64) -> bool
    ensures { result ≡ is_conn holder conn }
{
    match holder {
        Some(other) => other == conn,
        None => false,
    }
}

/// Cuts an attached connection.
fn cut_off<D: Sessions + Drop>(hub: &mut Hub<D>, conn: u64)
    requires { IsSome (rest_at conn hub.old.attached) }
    ensures { Done hub.old (cut conn) [] hub.new }
{
    let _ = hub.cut(conn);
}

impl<D: Sessions + Drop, L: Log + Drop> Durable<D, L> {
    ghost use Rattle.mi_durable.specs.Durable.{hub_of, log_of, IsSettled};

    /// A hub, and the log that has the journal of what it was until now.
    pub fn new(hub: Hub<D>, log: L) -> Durable<D, L>
        ensures hub { hub_of result ≡ hub }
        ensures log { log_of result ≡ log }
        ensures settled { IsSettled L.appended L.synced result }
    {
        Durable {
            hub,
            log,
            unsynced: true,
        }
    }

    /// What is served.
    pub fn hub(&self) -> &Hub<D>
        ensures { result.now ≡ hub_of self.now }
    {
        &self.hub
    }

    /// The hub and the log.
    pub fn into_parts(self) -> (Hub<D>, L)
        ensures hub { result.0 ≡ hub_of self }
        ensures log { result.1 ≡ log_of self }
    {
        (self.hub, self.log)
    }

    /// What the journal is appended to.
    pub fn log(&self) -> &L
        ensures { result.now ≡ log_of self.now }
    {
        &self.log
    }

    /// The journal goes on in another log, and the one before is answered. Nothing counts as synced in the new one.
    pub fn renew_log(&mut self, log: L) -> L
        ensures log { log_of self.new ≡ log }
        ensures before { result ≡ log_of self.old }
        ensures hub { hub_of self.new ≡ hub_of self.old }
        ensures settled { IsSettled L.appended L.synced self.new }
    {
        self.unsynced = true;
        mem::replace(&mut self.log, log)
    }

    /// Whether a connection holds open sessions.
    pub fn holds(&self, conn: u64) -> bool
        ensures holder { IsTrue result ↔ (holder_conn (hub_of self.now).held.holder ≡ Some conn) }
        ensures none { result ≡ false → held_by conn (hub_of self.now).held.holder ≡ 0 }
    {
        is_holder(self.hub.holder(), conn)
    }

    /// A connection comes. The journal has nothing of it.
    ///
    /// Its refusals are the hub's, and each changes nothing.
    pub fn attach(&mut self, conn: u64) -> Result<(), HubFault>
        ensures ok { OnOk result (Done (hub_of self.old) (attach conn) [] (hub_of self.new)) }
        ensures still { OnOk result (rest_at conn (hub_of self.new).attached ≡ Some (Some [])) }
        ensures refused { IfErr result (λ fault. Refused (hub_of self.old) (attach conn) fault × (hub_of self.new ≡ hub_of self.old)) }
        ensures log { log_of self.new ≡ log_of self.old }
        ensures settled { IsSettled L.appended L.synced self.old → IsSettled L.appended L.synced self.new }
    {
        self.hub.attach(conn)
    }

    /// A connection that holds no sessions goes away; nothing of it is asked or appended. One that holds some asks `undo` until it holds
    /// none, so that the journal has that.
    pub fn leave(&mut self, conn: u64)
        requires attached { IsSome (rest_at conn (hub_of self.old).attached) }
        requires none { held_by conn (hub_of self.old).held.holder ≡ 0 }
        ensures done { Done (hub_of self.old) (cut conn) [] (hub_of self.new) }
        ensures journal { Journals (hub_of self.old).held (hub_of self.new).held (L.appended (log_of self.old)) (L.appended (log_of self.new))
            (leaves conn ∷ []) }
        ensures log { log_of self.new ≡ log_of self.old }
        ensures settled { IsSettled L.appended L.synced self.old → IsSettled L.appended L.synced self.new }
    {
        cut_off(&mut self.hub, conn);
    }

    /// An attached connection asks a line: its bytes up to and with a newline, behind which it has sent nothing that was asked. Its reply
    /// goes to those that are held. The line is appended where it may have changed something.
    ///
    /// `Memory` where the reply has no room, and then nothing was appended; `Journal` where the line isn't appended whole.
    pub fn ask(
        &mut self,
        conn: u64,
        line: &[u8],
        replies: &mut HeldReplies,
    ) -> Result<(), DurableFault>
        requires attached { rest_at conn (hub_of self.old).attached ≡ Some (Some []) }
        requires whole { IsWholeLine line.now }
        ensures ok { OnOk result ((out : List ℕ) × (bytes_of replies.new ≡ bytes_of replies.old ++ out)
            × Asks conn line.now (hub_of self.old) (hub_of self.new) (L.appended (log_of self.old)) (L.appended (log_of self.new)) out) }
        ensures memory { result ≡ Err DurableFault.Memory → log_of self.new ≡ log_of self.old }
        ensures journal { result ≡ Err DurableFault.Journal → L.has_failed (log_of self.new) ≡ true }
        ensures makes_stay { L.makes_stay (log_of self.new) ≡ L.makes_stay (log_of self.old) }
        ensures segment { L.segment (log_of self.new) ≡ L.segment (log_of self.old) }
        ensures room { OnOk result (L.lacks_room (log_of self.new) ≡ L.lacks_room (log_of self.old)) }
        ensures left { OnOk result (L.room_left (log_of self.old) ≤ L.room_left (log_of self.new) + length line.now) }
        ensures settled { IsSettled L.appended L.synced self.old → IsSettled L.appended L.synced self.new }
    {
        match self.hub.ask_line(conn, line, &mut replies.bytes) {
            Ok(changed) => self.note(line, changed),
            Err(_error) => Err(DurableFault::Memory),
        }
    }

    /// The same where the journal has room for the longest line, and for undoing all sessions behind it. Where it has none a change is turned away,
    /// but for a short undo of a session that is open, for which room is kept; what is no change is asked. Its reply goes to those that are held.
    ///
    /// Each line asks for that room, whatever it is. So behind a line the log lacks room just where a change of any length would be turned away.
    ///
    /// `Memory` where a reply has no room, and then nothing was appended; `Journal` where the line isn't appended whole.
    pub fn ask_in_room(
        &mut self,
        alloc: Global,
        conn: u64,
        line: &[u8],
        replies: &mut HeldReplies,
    ) -> Result<Admitted, DurableFault>
        requires attached { rest_at conn (hub_of self.old).attached ≡ Some (Some []) }
        requires whole { IsWholeLine line.now }
        ensures asked { result ≡ Ok Admitted.Asked → (out : List ℕ) × (bytes_of replies.new ≡ bytes_of replies.old ++ out)
            × Asks conn line.now (hub_of self.old) (hub_of self.new) (L.appended (log_of self.old)) (L.appended (log_of self.new)) out }
        ensures room { result ≡ Ok Admitted.Asked
            → ((L.lacks_room (log_of self.new) ≡ false) × (undo_room ≤ L.room_left (log_of self.new)))
            ⊎ NeedsNoRoom (depth (hub_of self.old).held.database) line.now }
        ensures full { OnOk result (L.lacks_room (log_of self.new) ≡ false → change_room ≤ L.room_left (log_of self.new) + length line.now) }
        ensures turned_away { result ≡ Ok Admitted.TurnedAway → (out : List ℕ) × (bytes_of replies.new ≡ bytes_of replies.old ++ out)
            × IsTurnedAway (depth (hub_of self.old).held.database) line.now out × (L.lacks_room (log_of self.new) ≡ true)
            × (hub_of self.new ≡ hub_of self.old) × (L.appended (log_of self.new) ≡ L.appended (log_of self.old)) }
        ensures memory { result ≡ Err DurableFault.Memory → L.appended (log_of self.new) ≡ L.appended (log_of self.old) }
        ensures journal { result ≡ Err DurableFault.Journal → L.has_failed (log_of self.new) ≡ true }
        ensures makes_stay { L.makes_stay (log_of self.new) ≡ L.makes_stay (log_of self.old) }
        ensures segment { L.segment (log_of self.new) ≡ L.segment (log_of self.old) }
        ensures settled { IsSettled L.appended L.synced self.old → IsSettled L.appended L.synced self.new }
    {
        if self.log.make_room(CHANGE_ROOM) {
            self.ask(conn, line, replies)?;
            return Ok(Admitted::Asked);
        }
        let Some(reply) = self.turned_away(alloc, line) else {
            self.ask(conn, line, replies)?;
            return Ok(Admitted::Asked);
        };
        match replies.add(reply) {
            Ok(()) => Ok(Admitted::TurnedAway),
            Err(_error) => Err(DurableFault::Memory),
        }
    }

    /// The reply to a line that there is no room for, where it is to be turned away.
    fn turned_away(&self, alloc: Global, line: &[u8]) -> Option<&'static [u8]>
        requires { IsWholeLine line.now }
        ensures some { IfSome result (λ reply. IsTurnedAway (depth (hub_of self.now).held.database) line.now reply.now) }
        ensures none { IsNone result → NeedsNoRoom (depth (hub_of self.now).held.database) line.now }
    {
        let (text, _newline) = line.split_at(line.len().saturating_sub(1));
        match waits_for_room(alloc, text, self.hub.database().depth()) {
            Ok(true) => Some(NO_ROOM),
            Ok(false) => None,
            Err(_refused) => Some(NO_MEMORY),
        }
    }

    /// Appends a line, where it may have changed something.
    fn note(&mut self, line: &[u8], changed: bool) -> Result<(), DurableFault>
        requires { 0 < length line.now }
        ensures ok { OnOk result (Appends (L.appended (log_of self.old)) (L.appended (log_of self.new)) (if changed then line.now else [])) }
        ensures hub { hub_of self.new ≡ hub_of self.old }
        ensures journal { OnErr result (result ≡ Err DurableFault.Journal) }
        ensures failed { OnErr result (L.has_failed (log_of self.new) ≡ true) }
        ensures makes_stay { L.makes_stay (log_of self.new) ≡ L.makes_stay (log_of self.old) }
        ensures segment { L.segment (log_of self.new) ≡ L.segment (log_of self.old) }
        ensures room { OnOk result (L.lacks_room (log_of self.new) ≡ L.lacks_room (log_of self.old)) }
        ensures left { OnOk result (L.room_left (log_of self.old) ≤ L.room_left (log_of self.new) + length line.now) }
        ensures settled { IsSettled L.appended L.synced self.old → IsSettled L.appended L.synced self.new }
    {
        if !changed {
            return Ok(());
        }
        self.unsynced = true;
        match self.log.append(line) {
            Ok(()) => Ok(()),
            Err(_fault) => Err(DurableFault::Journal),
        }
    }

    /// Hands replies out, once all that was appended before stays.
    ///
    /// `Journal` where it can't be made to stay: none of them goes out.
    pub fn release(&mut self, replies: HeldReplies) -> Result<Vec<u8>, DurableFault>
        requires { IsSettled L.appended L.synced self.old }
        ensures stays { OnOk result (Keeps (L.appended (log_of self.new)) (L.synced (log_of self.new))) }
        ensures bytes { IfOk result (λ out. out.items ≡ bytes_of replies) }
        ensures hub { hub_of self.new ≡ hub_of self.old }
        ensures appended { Keeps (L.appended (log_of self.old)) (L.appended (log_of self.new)) }
        ensures journal { OnErr result (result ≡ Err DurableFault.Journal) }
        ensures failed { OnErr result (L.has_failed (log_of self.new) ≡ true) }
        ensures makes_stay { L.makes_stay (log_of self.new) ≡ L.makes_stay (log_of self.old) }
        ensures segment { L.segment (log_of self.new) ≡ L.segment (log_of self.old) }
        ensures room { OnOk result (L.lacks_room (log_of self.new) ≡ L.lacks_room (log_of self.old)) }
        ensures settled { IsSettled L.appended L.synced self.new }
    {
        if self.unsynced {
            if self.log.sync().is_err() {
                return Err(DurableFault::Journal);
            }
            self.unsynced = false;
        }
        Ok(replies.into_bytes())
    }
}
