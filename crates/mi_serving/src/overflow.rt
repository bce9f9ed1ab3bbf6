//! Who comes while all places are taken. One waits at a time, unread, to see whether a place becomes free, and then stands beside the list, where
//! it is served the service's own lines alone. It asks the tables nothing.
ghost use Rattle.std.specs.Prelude.{◌≡◌, ◌≤◌, ◌<◌, ◌&&◌, List, [], ℕ, Some, None, Err, length, option_map, is_some, not, OnOk, OnErr};
ghost use Rattle.mi_value.specs.declared.limits.TheConstants.{MAX_CONNECTIONS as most_connections};
ghost use Rattle.mi_replay.specs.Replayed.{replayer};
ghost use Rattle.mi_durable.specs.Durable.{hub_of, log_of, IsSettled};
ghost use Rattle.mi_clients.specs.Beside.{Attended, InPlace, JudgedThere, EndedAs, end_there};
ghost use Rattle.mi_clients.specs.Ending.{forgotten};
ghost use Rattle.mi_clients.specs.Clients.{ids, Attends, Joins, AllOnlyAsk};
ghost use Rattle.mi_clients.specs.ServiceLines.{line_of};
ghost use Rattle.mi_clients.specs.Status.{IsStatus};
ghost use Rattle.mi_clients.specs.Steps.{Step, Makes, GivesNone, AsksNone};
ghost use Rattle.mi_serving.specs.Overflow.{WaitsUpTo, Comes, IsKept, IsPlaced, IsNobody};

use crate::acceptor::Acceptor;
use crate::link::Link;
use mi_clients::{Beside, Client, SchemaLine, connect, end_beside};
use mi_durable::{Durable, DurableFault};
use mi_log::Log;
use mi_sessions::Sessions;
use mi_value::limits::MAX_CONNECTIONS;
use std::alloc::Global;

/// Turns that one waits for a place, at most. Who left before it came has left by then, unless much of its lines is still to be asked.
const MOST_TURNS: u8 = 4;

/// Whole seconds beyond which the one beside the list has been silent for too long, so that it goes behind 2 seconds at most, and one wait.
const MOST_SILENT: u64 = 1;

/// A connection that has come while all places were taken. It is unread.
#[derive(Drop)]
struct Comer {
    /// The number under which it reports.
    conn: u64,
    link: Link,
    /// How many turns it has waited.
    turns: u8,
}

/// Those that have no place in the list: nobody, one that waits for a place, or the one beside the list.
#[derive(Drop)]
pub struct Overflow {
    comer: Option<Comer>,
    beside: Beside<Link>,
}

impl Overflow {
    /// Nobody is there.
    pub fn new() -> Overflow
        ensures { IsNobody result }
    {
        Overflow {
            comer: None,
            beside: Beside::new(),
        }
    }

    /// Whether nobody is there.
    pub fn is_free(&self) -> bool
        ensures { result ≡ (not (is_some self.now.comer) && not (is_some self.now.beside.client)) }
    {
        self.comer.is_none() && self.beside.is_free()
    }

    /// Whether something of who is there can be done at once.
    pub fn is_busy(&self) -> bool {
        self.comer.is_some() || self.beside.is_busy()
    }

    /// The stream of the one beside the list may be ready for anything, which a read or a write will tell.
    pub fn wake(&mut self)
        ensures comer { self.new.comer ≡ self.old.comer }
    {
        self.beside.wake();
    }

    /// The one beside the list is given up where it has sent nothing for some 2 seconds, by this second of the clock. Where nothing was told to it
    /// yet, it is told that there is no place for it first.
    pub fn judge(&mut self, now: u64)
        ensures judged { JudgedThere (Some 1) now self.old.beside.client self.new.beside.client }
        ensures comer { self.new.comer ≡ self.old.comer }
    {
        self.beside.judge(now, Some(MOST_SILENT));
    }

    /// Gives up the connection of the list that the one beside it has asked to end, and no other.
    pub fn end_asked(&mut self, clients: &mut Vec<Client<Link>>)
        ensures ids { ids clients.new.items ≡ ids clients.old.items }
        ensures ended { EndedAs (end_there self.old.beside.client) clients.old.items clients.new.items }
        ensures same { self.new.beside.client ≡ option_map forgotten self.old.beside.client }
        ensures comer { self.new.comer ≡ self.old.comer }
    {
        end_beside(&mut self.beside, clients);
    }

    /// Accepts one more, under a number that none has had, where nobody is there. `last` is the number of the connection that came last.
    pub fn receive(&mut self, acceptor: &mut Acceptor, last: &mut u64)
        requires own { replayer ≤ last.old }
        requires known { WaitsUpTo last.old self.old.comer }
        ensures comes { Comes last.old last.new self.old self.new }
        ensures known { WaitsUpTo last.new self.new.comer }
        ensures rises { last.old ≤ last.new }
    {
        if !self.is_free() || !acceptor.may_accept() || *last == u64::MAX {
            return;
        }
        let conn = *last + 1;
        if let Some(link) = acceptor.accept(conn) {
            *last = conn;
            self.comer = Some(Comer {
                conn,
                link,
                turns: 0,
            });
        }
    }

    /// One that the list has no place for waits on, or stands beside the list.
    fn keep(&mut self, alloc: Global, comer: Comer)
        requires { self.old.comer ≡ None }
        ensures { IsKept comer self.old self.new }
    {
        let Comer { conn, link, turns } = comer;
        if turns < MOST_TURNS || !self.beside.is_free() {
            let turns = turns.saturating_add(1);
            self.comer = Some(Comer { conn, link, turns });
        } else {
            self.beside.push_client(alloc, conn, link);
        }
    }

    /// Who waits is admitted where the list has a place. Else it waits on, or stands beside the list, and nothing else changes.
    ///
    /// `Memory` where the list has no room for it.
    pub fn place<D: Sessions + Drop, L: Log + Drop>(
        &mut self,
        alloc: Global,
        durable: &mut Durable<D, L>,
        clients: &mut Vec<Client<Link>>,
    ) -> Result<(), DurableFault>
        requires attends { Attends (ids clients.old.items) (hub_of durable.old).attached }
        requires settled { IsSettled L.appended L.synced durable.old }
        ensures comes { OnOk result ((steps : List Step) × GivesNone steps × Joins clients.old.items clients.new.items
            × Makes steps (hub_of durable.old) (hub_of durable.new) (L.appended (log_of durable.old)) (L.appended (log_of durable.new))
            × AllOnlyAsk steps (ids clients.old.items) × AsksNone steps) }
        ensures placed { OnOk result (IsPlaced self.old.comer self.old self.new (hub_of durable.old) (hub_of durable.new) clients.old.items clients.new.items) }
        ensures full { most_connections ≤ length clients.old.items → (durable.new ≡ durable.old) × (clients.new.items ≡ clients.old.items) }
        ensures attends { OnOk result (Attends (ids clients.new.items) (hub_of durable.new).attached) }
        ensures memory { OnErr result (result ≡ Err DurableFault.Memory) }
        ensures settled { OnOk result (IsSettled L.appended L.synced durable.new) }
    {
        let Some(comer) = self.comer.take() else {
            return Ok(());
        };
        if clients.len() < MAX_CONNECTIONS {
            connect(alloc, durable, clients, comer.conn, comer.link)?;
        } else {
            self.keep(alloc, comer);
        }
        Ok(())
    }

    /// What is ready of the one beside the list is read, its first whole line is answered, and what it is owed is sent. It goes once it is over. A
    /// status is that of this hub and journal, and of these connections, so many seconds after the start. Neither hub nor journal nor list is lent
    /// to be changed.
    pub fn serve<D: Sessions + Drop, L: Log + Drop>(
        &mut self,
        alloc: Global,
        durable: &Durable<D, L>,
        clients: &[Client<Link>],
        buffer: &mut [u8],
        schema: &SchemaLine,
        seconds: u64,
    )
        requires room { 0 < length buffer.old }
        ensures attended { InPlace (λ old last. (status : List ℕ)
            × IsStatus (L.appended (log_of durable.now)) (L.synced (log_of durable.now)) (L.lacks_room (log_of durable.now))
            (L.room_left (log_of durable.now)) (L.segment (log_of durable.now)) seconds clients.now
            (hub_of durable.now) status
            × Attended (λ _. None) (λ _. None) status (line_of schema.now) old last) self.old.beside.client self.new.beside.client }
        ensures comer { self.new.comer ≡ self.old.comer }
    {
        self.beside
            .serve(alloc, durable, clients, buffer, schema, seconds);
    }
}
