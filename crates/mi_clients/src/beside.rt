//! The place beside those of a list. A connection there is attached to no hub, so none of its lines can reach the tables: it is served the
//! service's own lines alone, and turned away behind any other.
ghost use Rattle.std.specs.Prelude.{◌≡◌, ◌<◌, ◌⊎◌, ◌↔◌, List, [], ℕ, Some, None, true, length, not, is_some, option_map, IsTrue, IsFalse, IfSome, if◌then◌else◌};
ghost use Rattle.mi_durable.specs.HeldReplies.{bytes_of};
ghost use Rattle.mi_durable.specs.Durable.{hub_of, log_of};
ghost use Rattle.mi_clients.specs.Clients.{ids, IsNew};
ghost use Rattle.mi_clients.specs.Status.{IsStateOf, IsStatus, TellsStatus};
ghost use Rattle.mi_log.specs.declared.log.LogState.{LogState};
ghost use Rattle.std.specs.String.{string_bytes};
ghost use Rattle.mi_clients.specs.ServiceLines.{line_of};
ghost use Rattle.mi_clients.specs.Client.{IsBusy, IsWhole, woken};
ghost use Rattle.mi_clients.specs.Ending.{forgotten};
ghost use Rattle.mi_clients.specs.Beside.{shut, Answers, Attended, InPlace, IsIdler, IsTurnedAway, IsJudgedBeside, JudgedThere, EndedAs, end_there};
ghost use Rattle.mi_clients.specs.declared.client.Phase.TheVariants as phases;

use crate::client::{Client, Phase};
use crate::duplex::Duplex;
use crate::ending::end_one;
use crate::schema_line::SchemaLine;
use crate::service_lines::{PLACES, ended_in, is_service, told_beside};
use crate::telling::{MEMORY, put_behind, status_now};
use mi_durable::Durable;
use mi_log::Log;
use mi_sessions::Sessions;
use std::alloc::Global;

/// The place beside those of a list, for one connection.
#[derive(Drop)]
pub struct Beside<S> {
    client: Option<Client<S>>,
}

/// No more of a connection is read, unless its line was the service's own.
fn shut_unless<S>(client: &mut Client<S>, own: bool)
    ensures phase { client.new.phase ≡ (if own then client.old.phase else shut client.old.phase) }
    ensures input { client.new.input ≡ client.old.input }
    ensures has_lines { client.new.has_lines ≡ client.old.has_lines }
    ensures same { client.new ≡ record client.old { input = client.new.input; phase = client.new.phase; has_lines = client.new.has_lines; lines = client.new.lines; all_asked = client.new.all_asked } }
{
    if !own && client.phase == Phase::Open {
        client.phase = Phase::Ended;
    }
}

/// Answers the first whole line of a connection beside the others, where its lines may be asked. Behind one that is none of the service's no
/// more is read.
fn answer<S>(client: &mut Client<S>, status: &[u8], schema: &SchemaLine)
    ensures { Answers status.now (line_of schema.now) client.old client.new }
{
    if !client.may_ask() || !client.held.is_empty() {
        return;
    }
    let Some(line) = client.input.line() else {
        client.has_lines = false;
        return;
    };
    let text = told_beside(line, status, schema.as_slice());
    let ends = ended_in(line);
    let own = is_service(line);
    let count = line.len();
    client.input.pass(count, false);
    client.ends = ends;
    put_behind(client, Vec::new(client.alloc), text);
    shut_unless(client, own);
}

/// The line of the status, where a connection beside the others asks the service something. None where memory for it is refused.
fn asked_status<D: Sessions + Drop, L: Log + Drop, S>(
    alloc: Global,
    durable: &Durable<D, L>,
    clients: &[Client<S>],
    client: &Client<S>,
    seconds: u64,
) -> Option<String>
    ensures { IfSome result (λ line. (journal : LogState)
        × IsStateOf (L.appended (log_of durable.now)) (L.synced (log_of durable.now)) (L.lacks_room (log_of durable.now))
        (L.room_left (log_of durable.now)) (L.segment (log_of durable.now)) journal
        × TellsStatus clients.now (hub_of durable.now) journal seconds (string_bytes line)) }
{
    if client.service_line().is_none() {
        return None;
    }
    status_now(alloc, durable, clients, seconds)
}

/// The same by the status of a list, a hub and its journal, so many seconds after the start.
fn answer_now<D: Sessions + Drop, L: Log + Drop, S>(
    alloc: Global,
    durable: &Durable<D, L>,
    clients: &[Client<S>],
    client: &mut Client<S>,
    schema: &SchemaLine,
    seconds: u64,
)
    ensures { (status : List ℕ) × IsStatus (L.appended (log_of durable.now)) (L.synced (log_of durable.now)) (L.lacks_room (log_of durable.now))
        (L.room_left (log_of durable.now)) (L.segment (log_of durable.now)) seconds clients.now
        (hub_of durable.now) status
        × Answers status (line_of schema.now) client.old client.new }
{
    let line = asked_status(alloc, durable, clients, client, seconds);
    match &line {
        Some(line) => answer(client, line.as_bytes(), schema),
        None => answer(client, MEMORY, schema),
    }
}

/// Once all lines of a connection are answered whose bytes have ended, it is to be let go when it has taken its replies.
fn finish<S>(client: &mut Client<S>)
    ensures settled { (client.new ≡ client.old) ⊎ ((client.new.phase ≡ phases.Drained) × IsWhole client.old) }
    ensures input { client.new.input ≡ client.old.input }
    ensures has_lines { client.new.has_lines ≡ client.old.has_lines }
    ensures same { client.new ≡ record client.old { input = client.new.input; phase = client.new.phase; has_lines = client.new.has_lines; lines = client.new.lines; all_asked = client.new.all_asked } }
{
    if client.phase == Phase::Ended && !client.has_lines {
        client.phase = Phase::Drained;
    }
}

/// What is ready of a connection is read, its first whole line is answered, and what it is owed is sent.
fn attend<D: Sessions + Drop, L: Log + Drop, S: Duplex>(
    alloc: Global,
    durable: &Durable<D, L>,
    clients: &[Client<S>],
    client: &mut Client<S>,
    buffer: &mut [u8],
    schema: &SchemaLine,
    seconds: u64,
)
    requires room { 0 < length buffer.old }
    ensures { (status : List ℕ) × IsStatus (L.appended (log_of durable.now)) (L.synced (log_of durable.now)) (L.lacks_room (log_of durable.now))
        (L.room_left (log_of durable.now)) (L.segment (log_of durable.now)) seconds clients.now
        (hub_of durable.now) status
        × Attended S.contents S.remaining status (line_of schema.now) client.old client.new }
{
    client.read(buffer);
    answer_now(alloc, durable, clients, client, schema, seconds);
    finish(client);
    client.send();
}

/// A connection is told that there is no place for it, and no more of it is read.
fn turn_away<S>(client: &mut Client<S>)
    requires more { client.old.phase ≡ phases.Open }
    requires none { bytes_of client.old.held ≡ [] }
    ensures { IsTurnedAway client.old client.new }
{
    put_behind(client, Vec::new(client.alloc), PLACES);
    shut_unless(client, false);
}

/// Whether nothing was told to a connection yet, more of it may come, and it has been silent for too long.
fn is_idler<S>(client: &Client<S>, now: u64, limit: Option<u64>) -> bool
    ensures { IsTrue result ↔ IsIdler limit now client.now }
{
    client.phase == Phase::Open
        && client.lines() == 0
        && client.held.is_empty()
        && client.gives_up(now, limit)
}

/// A second of the clock, for a connection beside the others.
fn judge<S>(client: &mut Client<S>, now: u64, limit: Option<u64>)
    ensures { IsJudgedBeside limit now client.old client.new }
{
    if is_idler(client, now, limit) {
        turn_away(client);
    } else {
        client.judge(now, limit);
    }
}

impl<S> Beside<S> {
    /// Nobody is there.
    pub fn new() -> Beside<S>
        ensures { result.client ≡ None }
    {
        Beside { client: None }
    }

    /// Whether nobody is there.
    pub fn is_free(&self) -> bool
        ensures { result ≡ not (is_some self.now.client) }
    {
        self.client.is_none()
    }

    /// Whether something of the one that is there can be done at once.
    pub fn is_busy(&self) -> bool
        ensures busy { IsTrue result → (c : Client S) × (self.now.client ≡ Some c) × IsBusy c }
        ensures idle { IsFalse result → IfSome self.now.client (λ c. ¬ IsBusy c) }
    {
        match &self.client {
            Some(client) => client.is_busy(),
            None => false,
        }
    }

    /// Its stream may be ready for anything, which a read or a write will tell.
    pub fn wake(&mut self)
    where
        S: Drop,
        ensures { self.new.client ≡ option_map (woken true true true) self.old.client }
    {
        if let Some(client) = self.client.take() {
            let mut client = client;
            client.wake(true, true, true);
            self.client = Some(client);
        }
    }

    /// It is given up where it has sent nothing for more seconds than its limit; where nothing was told to it yet, it is told that there is no
    /// place for it first. What came is noted under this second.
    pub fn judge(&mut self, now: u64, limit: Option<u64>)
    where
        S: Drop,
        ensures { JudgedThere limit now self.old.client self.new.client }
    {
        if let Some(client) = self.client.take() {
            let mut client = client;
            judge(&mut client, now, limit);
            self.client = Some(client);
        }
    }

    /// A connection takes the place, which is free. Its stream reports under this number.
    pub fn push_client(&mut self, alloc: Global, conn: u64, stream: S)
    where
        S: Drop,
        requires { self.old.client ≡ None }
        ensures { (client : Client S) × (self.new.client ≡ Some client) × (client.conn ≡ conn) × (client.stream ≡ stream) × IsNew client []
            × (bytes_of client.held ≡ []) }
    {
        self.client = Some(Client::new(alloc, conn, stream));
    }

    /// The number that it has asked to end, which is noted no more.
    fn take_end(&mut self) -> Option<u64>
    where
        S: Drop,
        ensures taken { result ≡ end_there self.old.client }
        ensures same { self.new.client ≡ option_map forgotten self.old.client }
    {
        let Some(client) = self.client.take() else {
            return None;
        };
        let mut client = client;
        let ends = client.take_end();
        self.client = Some(client);
        ends
    }
}

impl<S: Duplex + Drop> Beside<S> {
    /// What is ready of the connection that is there is read, its first whole line is answered, and what it is owed is sent. Behind a line that is
    /// none of the service's no more of it is read. It goes once it is over. A status is that of this hub and journal, and of these connections, which it is none of, so many seconds after the start.
    ///
    /// Neither hub nor journal nor list is lent to be changed.
    pub fn serve<D: Sessions + Drop, L: Log + Drop>(
        &mut self,
        alloc: Global,
        durable: &Durable<D, L>,
        clients: &[Client<S>],
        buffer: &mut [u8],
        schema: &SchemaLine,
        seconds: u64,
    )
        requires room { 0 < length buffer.old }
        ensures { InPlace (λ old last. (status : List ℕ)
            × IsStatus (L.appended (log_of durable.now)) (L.synced (log_of durable.now)) (L.lacks_room (log_of durable.now))
            (L.room_left (log_of durable.now)) (L.segment (log_of durable.now)) seconds clients.now
            (hub_of durable.now) status
            × Attended S.contents S.remaining status (line_of schema.now) old last) self.old.client self.new.client }
    {
        let Some(client) = self.client.take() else {
            return;
        };
        let mut client = client;
        attend(
            alloc,
            durable,
            clients,
            &mut client,
            buffer,
            schema,
            seconds,
        );
        if !client.is_over() {
            self.client = Some(client);
        }
    }
}

/// Gives up the connection of a list that the one beside it has asked to end since the last call, where it is there, and no other. `serve_all`
/// then undoes its sessions, and lets it go.
pub fn end_beside<S: Drop>(beside: &mut Beside<S>, clients: &mut Vec<Client<S>>)
    ensures ids { ids clients.new.items ≡ ids clients.old.items }
    ensures ended { EndedAs (end_there beside.old.client) clients.old.items clients.new.items }
    ensures same { beside.new.client ≡ option_map forgotten beside.old.client }
{
    if let Some(conn) = beside.take_end() {
        end_one(clients, conn);
    }
}
