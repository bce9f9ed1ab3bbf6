//! The attached connections in a list, each step over all of them.
ghost use Rattle.std.specs.Prelude.{◌≡◌, ◌<◌, ◌↔◌, ◌++◌, ◌∷◌, List, [], Some, Err, length, map, true, IsTrue, OnOk, OnErr, IfOk, IsOk};
ghost use Rattle.std.specs.List.{All, Any};
ghost use Rattle.std.specs.Io.KnownBytes.{Keeps};
ghost use Rattle.mi_durable.specs.Durable.{hub_of, log_of, IsSettled};
ghost use Rattle.mi_clients.specs.ServiceLines.{line_of};
ghost use Rattle.mi_clients.specs.Client.{IsServed, IsAsked, IsHeard, IsSent, IsBusy, IsIdle, IsWhole, GoesOn, AsksWhatCame, KnowsSince, BreaksWith, IsSame, IsRead, told};
ghost use Rattle.mi_clients.specs.Steps.{Step, Makes, given_to, asked_by, GivesOnly, GivesNone, AsksOnly, AsksNone, OnlyAsks, LeavesOthers, TellsNone};
ghost use Rattle.mi_clients.specs.Clients.{ids, inputs, Attends, EachServed, EachAsked, EachUnread, StayersAsked, EachAsFar, OpenOnlyAsk, AllOnlyAsk, Joins, LetsGo, NoneIsOver, Serves, EachWoken};
ghost use Rattle.mi_clients.specs.Clients.{NoneIsWhole, AllBreakWith, NoneHasFailed, EachSame, EachRead, EachUncounted, StayersSame, StayersRead, Admits, TellsWhatIs};
ghost use Rattle.mi_hub.specs.Connections.{rest_at};

use crate::asking::{ask_lines, disconnect, finish, release};
use crate::client::Client;
use crate::duplex::Duplex;
use crate::schema_line::SchemaLine;
use crate::telling::tell_all;
use mi_durable::{Durable, DurableFault};
use mi_hub::HubFault;
use mi_log::Log;
use mi_sessions::Sessions;
use std::alloc::Global;

/// What became of a connection that came.
#[derive(Clone, Copy, Drop)]
pub enum ConnectOutcome {
    /// It is attached, and stands behind the others.
    Connected,
    /// The hub has refused it for this reason, and nothing has changed. Its stream is let go.
    Refused(HubFault),
}

/// What is ready of a connection is read, its lines are asked, and once its bytes have ended and all of them are asked its sessions are undone.
fn serve<D: Sessions + Drop, L: Log + Drop, S: Duplex>(
    durable: &mut Durable<D, L>,
    client: &mut Client<S>,
    buffer: &mut [u8],
    each: bool,
) -> Result<(), DurableFault>
    requires here { rest_at client.old.conn (hub_of durable.old).attached ≡ Some (Some []) }
    requires settled { IsSettled L.appended L.synced durable.old }
    requires room { 0 < length buffer.old }
    ensures serves { OnOk result ((steps : List Step) × GivesOnly client.old.conn steps
        × IsServed S.contents (given_to client.old.conn steps) client.old client.new
        × Makes steps (hub_of durable.old) (hub_of durable.new) (L.appended (log_of durable.old)) (L.appended (log_of durable.new))
        × AsksWhatCame S.remaining (asked_by client.old.conn steps) client.old client.new
        × LeavesOthers client.old.conn steps × (GoesOn client.new → OnlyAsks client.old.conn steps)
        × AsksOnly client.old.conn steps × TellsNone steps × KnowsSince steps client.old client.new) }
    ensures goes_on { OnOk result (GoesOn client.new → GoesOn client.old) }
    ensures asked { OnOk result (IsAsked client.new) }
    ensures whole { OnOk result (¬ IsWhole client.new) }
    ensures idle { IsIdle client.old → IsOk result }
    ensures same { OnOk result (IsSame S.handle client.old client.new) }
    ensures read { OnOk result (IsRead S.reads client.old client.new) }
    ensures broken { OnOk result (BreaksWith S.has_failed client.old → BreaksWith S.has_failed client.new) }
    ensures attached { OnOk result ((hub_of durable.new).attached ≡ (hub_of durable.old).attached) }
    ensures failed { result ≡ Err DurableFault.Journal → L.has_failed (log_of durable.new) ≡ true }
    ensures settled { OnOk result (IsSettled L.appended L.synced durable.new) }
{
    client.read(buffer);
    ask_lines(durable, client, each)?;
    finish(durable, client)
}

/// What is ready of each connection is read, and its lines are asked.
pub fn ask_all<D: Sessions + Drop, L: Log + Drop, S: Duplex>(
    durable: &mut Durable<D, L>,
    clients: &mut Vec<Client<S>>,
    buffer: &mut [u8],
    each: bool,
) -> Result<(), DurableFault>
    requires attends { Attends (ids clients.old.items) (hub_of durable.old).attached }
    requires settled { IsSettled L.appended L.synced durable.old }
    requires room { 0 < length buffer.old }
    ensures serves { OnOk result ((steps : List Step) × EachServed S.contents steps clients.old.items clients.new.items
        × Makes steps (hub_of durable.old) (hub_of durable.new) (L.appended (log_of durable.old)) (L.appended (log_of durable.new))
        × OpenOnlyAsk steps clients.new.items × EachAsked S.remaining steps clients.old.items clients.new.items × TellsNone steps) }
    ensures asked { OnOk result (All IsAsked clients.new.items) }
    ensures whole { OnOk result (NoneIsWhole clients.new.items) }
    ensures idle { All IsIdle clients.old.items → IsOk result }
    ensures same { OnOk result (EachSame S.handle clients.old.items clients.new.items) }
    ensures read { OnOk result (EachRead S.reads clients.old.items clients.new.items) }
    ensures broken { OnOk result (AllBreakWith S.has_failed clients.old.items → AllBreakWith S.has_failed clients.new.items) }
    ensures attends { OnOk result (Attends (ids clients.new.items) (hub_of durable.new).attached) }
    ensures failed { result ≡ Err DurableFault.Journal → L.has_failed (log_of durable.new) ≡ true }
    ensures settled { OnOk result (IsSettled L.appended L.synced durable.new) }
{
    for client in clients.iter_mut() {
        serve(durable, client, buffer, each)?;
    }
    Ok(())
}

/// What is ready of each connection is read, its lines are asked, and what it asks of the service is told.
pub fn hear_all<D: Sessions + Drop, L: Log + Drop, S: Duplex>(
    alloc: Global,
    durable: &mut Durable<D, L>,
    clients: &mut Vec<Client<S>>,
    buffer: &mut [u8],
    each: bool,
    schema: &SchemaLine,
    seconds: u64,
) -> Result<(), DurableFault>
    requires attends { Attends (ids clients.old.items) (hub_of durable.old).attached }
    requires settled { IsSettled L.appended L.synced durable.old }
    requires room { 0 < length buffer.old }
    ensures serves { OnOk result ((steps : List Step) × EachServed S.contents steps clients.old.items clients.new.items
        × Makes steps (hub_of durable.old) (hub_of durable.new) (L.appended (log_of durable.old)) (L.appended (log_of durable.new))
        × OpenOnlyAsk steps clients.new.items × EachAsked S.remaining steps clients.old.items clients.new.items
        × All (IsHeard steps) clients.new.items × TellsWhatIs S.contents (line_of schema.now) seconds steps (hub_of durable.old)
        (L.appended (log_of durable.old)) (L.lacks_room (log_of durable.new)) (L.segment (log_of durable.new)) clients.old.items) }
    ensures whole { OnOk result (NoneIsWhole clients.new.items) }
    ensures same { OnOk result (EachSame S.handle clients.old.items clients.new.items) }
    ensures read { OnOk result (EachRead S.reads clients.old.items clients.new.items) }
    ensures broken { OnOk result (AllBreakWith S.has_failed clients.old.items → AllBreakWith S.has_failed clients.new.items) }
    ensures attends { OnOk result (Attends (ids clients.new.items) (hub_of durable.new).attached) }
    ensures failed { result ≡ Err DurableFault.Journal → L.has_failed (log_of durable.new) ≡ true }
    ensures settled { OnOk result (IsSettled L.appended L.synced durable.new) }
{
    ask_all(durable, clients, buffer, each)?;
    tell_all(alloc, durable, clients, schema, seconds)
}

/// The replies of all connections are handed out, and each is sent what its stream takes.
pub fn send_all<D: Sessions + Drop, L: Log + Drop, S: Duplex>(
    durable: &mut Durable<D, L>,
    clients: &mut Vec<Client<S>>,
) -> Result<(), DurableFault>
    requires attends { Attends (ids clients.old.items) (hub_of durable.old).attached }
    requires settled { IsSettled L.appended L.synced durable.old }
    ensures sends { OnOk result (EachServed S.contents [] clients.old.items clients.new.items) }
    ensures sent { OnOk result (All IsSent clients.new.items) }
    ensures far { OnOk result (EachAsFar clients.old.items clients.new.items) }
    ensures inputs { OnOk result (inputs clients.new.items ≡ inputs clients.old.items) }
    ensures unread { OnOk result (EachUnread S.remaining clients.old.items clients.new.items) }
    ensures whole { OnOk result (NoneIsWhole clients.old.items → NoneIsWhole clients.new.items) }
    ensures same { OnOk result (EachSame S.handle clients.old.items clients.new.items) }
    ensures uncounted { OnOk result (EachUncounted S.reads clients.old.items clients.new.items) }
    ensures broken { OnOk result (AllBreakWith S.has_failed clients.old.items → AllBreakWith S.has_failed clients.new.items) }
    ensures hub { OnOk result (hub_of durable.new ≡ hub_of durable.old) }
    ensures appended { OnOk result (Keeps (L.appended (log_of durable.old)) (L.appended (log_of durable.new))) }
    ensures room { OnOk result (L.lacks_room (log_of durable.new) ≡ L.lacks_room (log_of durable.old)) }
    ensures segment { OnOk result (L.segment (log_of durable.new) ≡ L.segment (log_of durable.old)) }
    ensures attends { OnOk result (Attends (ids clients.new.items) (hub_of durable.new).attached) }
    ensures failed { OnErr result ((result ≡ Err DurableFault.Journal) × (L.has_failed (log_of durable.new) ≡ true)) }
    ensures settled { OnOk result (IsSettled L.appended L.synced durable.new) }
{
    for client in clients.iter_mut() {
        release(durable, client)?;
        client.send();
    }
    Ok(())
}

/// The connections that are over are let go.
pub fn let_go<D: Sessions + Drop, L: Log + Drop, S: Drop>(
    alloc: Global,
    durable: &mut Durable<D, L>,
    clients: &mut Vec<Client<S>>,
) -> Result<(), DurableFault>
    requires attends { Attends (ids clients.old.items) (hub_of durable.old).attached }
    requires settled { IsSettled L.appended L.synced durable.old }
    ensures goes { OnOk result ((steps : List Step) × GivesNone steps × LetsGo clients.old.items clients.new.items
        × Makes steps (hub_of durable.old) (hub_of durable.new) (L.appended (log_of durable.old)) (L.appended (log_of durable.new))
        × OpenOnlyAsk steps clients.new.items × AsksNone steps) }
    ensures stay { OnOk result (NoneIsOver clients.new.items) }
    ensures room { OnOk result (L.lacks_room (log_of durable.new) ≡ L.lacks_room (log_of durable.old)) }
    ensures segment { OnOk result (L.segment (log_of durable.new) ≡ L.segment (log_of durable.old)) }
    ensures attends { OnOk result (Attends (ids clients.new.items) (hub_of durable.new).attached) }
    ensures failed { result ≡ Err DurableFault.Journal → L.has_failed (log_of durable.new) ≡ true }
    ensures settled { OnOk result (IsSettled L.appended L.synced durable.new) }
{
    let mut at = 0;
    'clients: while at < clients.len() {
        if clients[at].is_over() {
            disconnect(alloc, durable, clients[at].conn)?;
            clients.remove(at);
        } else {
            at += 1;
        }
    }
    Ok(())
}

/// A connection stands behind the others.
fn push_client<S: Drop>(
    clients: &mut Vec<Client<S>>,
    client: Client<S>,
) -> Result<ConnectOutcome, DurableFault>
    ensures says { IfOk result (λ admission. admission ≡ ConnectOutcome.Connected) }
    ensures seated { OnOk result (clients.new.items ≡ clients.old.items ++ client ∷ []) }
    ensures memory { OnErr result (result ≡ Err DurableFault.Memory) }
{
    match clients.push(client) {
        Ok(()) => Ok(ConnectOutcome::Connected),
        Err(_error) => Err(DurableFault::Memory),
    }
}

/// The connections of a list are served. What is ready of each is read, its lines are asked, and what it asks of the service is told. The replies
/// are sent once all that was appended stays, and those that are over are let go.
///
/// What one is sent or owed are the replies to its own lines, whole and in their order. The service tells something to one line of a
/// connection at most, and what follows that line waits for the next call. A status says that so many seconds have passed since the start.
pub fn serve_all<D: Sessions + Drop, L: Log + Drop, S: Duplex + Drop>(
    alloc: Global,
    durable: &mut Durable<D, L>,
    clients: &mut Vec<Client<S>>,
    buffer: &mut [u8],
    each: bool,
    schema: &SchemaLine,
    seconds: u64,
) -> Result<(), DurableFault>
    requires attends { Attends (ids clients.old.items) (hub_of durable.old).attached }
    requires settled { IsSettled L.appended L.synced durable.old }
    requires room { 0 < length buffer.old }
    ensures serves { OnOk result ((steps : List Step) × Serves S.contents steps clients.old.items clients.new.items
        × Makes steps (hub_of durable.old) (hub_of durable.new) (L.appended (log_of durable.old)) (L.appended (log_of durable.new))
        × OpenOnlyAsk steps clients.new.items × StayersAsked S.remaining steps clients.old.items clients.new.items
        × TellsWhatIs S.contents (line_of schema.now) seconds steps (hub_of durable.old)
        (L.appended (log_of durable.old)) (L.lacks_room (log_of durable.new)) (L.segment (log_of durable.new)) clients.old.items) }
    ensures sent { OnOk result (All IsSent clients.new.items) }
    ensures stay { OnOk result (NoneIsOver clients.new.items) }
    ensures whole { OnOk result (NoneIsWhole clients.new.items) }
    ensures same { OnOk result (StayersSame S.handle clients.old.items clients.new.items) }
    ensures read { OnOk result (StayersRead S.reads clients.old.items clients.new.items) }
    ensures broken { OnOk result (AllBreakWith S.has_failed clients.old.items → NoneHasFailed S.has_failed clients.new.items) }
    ensures attends { OnOk result (Attends (ids clients.new.items) (hub_of durable.new).attached) }
    ensures failed { result ≡ Err DurableFault.Journal → L.has_failed (log_of durable.new) ≡ true }
    ensures settled { OnOk result (IsSettled L.appended L.synced durable.new) }
{
    hear_all(alloc, durable, clients, buffer, each, schema, seconds)?;
    send_all(durable, clients)?;
    let_go(alloc, durable, clients)
}

/// A connection comes: it is attached under this number, and stands behind the others. Where the hub refuses it, its stream is let go, nothing
/// has changed, and the answer is the hub's reason.
///
/// `Memory` where the list has no room for it; it is attached then, and the service is to end.
pub fn connect<D: Sessions + Drop, L: Log + Drop, S: Drop>(
    alloc: Global,
    durable: &mut Durable<D, L>,
    clients: &mut Vec<Client<S>>,
    conn: u64,
    stream: S,
) -> Result<ConnectOutcome, DurableFault>
    requires attends { Attends (ids clients.old.items) (hub_of durable.old).attached }
    requires settled { IsSettled L.appended L.synced durable.old }
    ensures comes { OnOk result ((steps : List Step) × GivesNone steps × Joins clients.old.items clients.new.items
        × Makes steps (hub_of durable.old) (hub_of durable.new) (L.appended (log_of durable.old)) (L.appended (log_of durable.new))
        × AllOnlyAsk steps (ids clients.old.items) × AsksNone steps) }
    ensures admits { IfOk result (λ admission. Admits conn stream (hub_of durable.old) (hub_of durable.new) clients.old.items clients.new.items admission) }
    ensures attends { OnOk result (Attends (ids clients.new.items) (hub_of durable.new).attached) }
    ensures memory { OnErr result (result ≡ Err DurableFault.Memory) }
    ensures settled { OnOk result (IsSettled L.appended L.synced durable.new) }
{
    match durable.attach(conn) {
        Ok(()) => push_client(clients, Client::new(alloc, conn, stream)),
        Err(fault) => Ok(ConnectOutcome::Refused(fault)),
    }
}

/// Tells a connection what is reported of the one of this number.
fn tell<S>(client: &mut Client<S>, conn: u64, readable: bool, writable: bool, closing: bool)
    ensures { client.new ≡ told conn readable writable closing client.old }
{
    if client.conn == conn {
        client.wake(readable, writable, closing);
    }
}

/// The stream of the connection of this number is ready: to be read, to be written to, or closed by its peer or failed. The others are as they
/// were, and so are all where none has this number.
pub fn wake_one<S>(
    clients: &mut Vec<Client<S>>,
    conn: u64,
    readable: bool,
    writable: bool,
    closing: bool,
)
    ensures told { clients.new.items ≡ map (told conn readable writable closing) clients.old.items }
    ensures ids { ids clients.new.items ≡ ids clients.old.items }
    ensures woken { EachWoken clients.old.items clients.new.items }
{
    for client in clients.iter_mut() {
        tell(client, conn, readable, writable, closing);
    }
}

/// Whether something of some connection can be done at once.
pub fn is_any_busy<S>(clients: &[Client<S>]) -> bool
    ensures { IsTrue result ↔ Any IsBusy clients.now }
{
    clients.iter().any(|client| client.is_busy())
}
