//! The loop of the service: it waits until something is ready, and takes a turn with those of the list, and with who has no place in it.
ghost use Rattle.std.specs.Prelude.{◌≡◌, ◌+◌, ◌^◌, ◌<◌, ◌≤◌, ◌⊎◌, List, [], length, Some, None, Err, true, IfOk, OnOk, OnErr};
ghost use Rattle.mi_value.specs.declared.limits.TheConstants.{MAX_CONNECTIONS as most_connections};
ghost use Rattle.mi_hub.specs.declared.fault.HubFault.{HubFault};
ghost use Rattle.mi_replay.specs.Replayed.{replayer};
ghost use Rattle.mi_log.specs.DeviceLog.{device_of, is_broken};
ghost use Rattle.mi_durable.specs.Durable.{hub_of, log_of, IsSettled};
ghost use Rattle.mi_recovery.specs.Device.{told_of};
ghost use Rattle.mi_clients.specs.Steps.{Step, Makes, GivesNone, AsksNone};
ghost use Rattle.mi_clients.specs.Clients.{ids, Attends, Joins, NoneIsOver, NoneIsWhole, SameStreams, Serves, AllOnlyAsk, StayersOnlyAsk, EachWoken, TellsWhatIs};
ghost use Rattle.mi_clients.specs.ServiceLines.{line_of};
ghost use Rattle.mi_serving.specs.Overflow.{WaitsUpTo};
ghost use Rattle.mi_serving.specs.Turns.{AllUpTo, GoesOver, IsTurn, ends_serving};

use crate::acceptor::Acceptor;
use crate::failure::Failure;
use crate::link::Link;
use crate::overflow::Overflow;
use crate::patience::Patience;
use mi_clients::{
    Client, ConnectOutcome, Duplex, SchemaLine, connect, end_asked, is_any_busy, serve_all,
};
use mi_durable::{Durable, DurableFault, REPLAYER};
use mi_log::Log;
use mi_recovery::{JournalDurable, JournalFile, JournalFiles, Rolling, roll};
use mi_sessions::Sessions;
use mi_value::limits::MAX_CONNECTIONS;
use std::alloc::Global;
use std::time::{Clock, Duration};

/// Turns of one service, at most: 2^62, which takes longer than a machine stands.
const MAX_TURNS: u64 = 4_611_686_018_427_387_904;

/// Bytes of one read, at most.
const READ: usize = 16_384;

/// Accepts a connection, where one has come, under a number that none has had. `last` is the number of the one that came last.
///
/// One that the hub refuses is let go; `Memory` is the only reason for that. `Memory` is the fault where the list has no room for it.
fn accept_one<D: Sessions + Drop, L: Log + Drop>(
    alloc: Global,
    durable: &mut Durable<D, L>,
    acceptor: &mut Acceptor,
    clients: &mut Vec<Client<Link>>,
    last: &mut u64,
) -> Result<Option<ConnectOutcome>, DurableFault>
    requires attends { Attends (ids clients.old.items) (hub_of durable.old).attached }
    requires settled { IsSettled L.appended L.synced durable.old }
    requires known { AllUpTo last.old clients.old.items }
    requires own { replayer ≤ last.old }
    requires room { length clients.old.items < most_connections }
    requires more { last.old + 1 < 2 ^ 64 }
    ensures comes { OnOk result ((steps : List Step) × GivesNone steps × Joins clients.old.items clients.new.items
        × Makes steps (hub_of durable.old) (hub_of durable.new) (L.appended (log_of durable.old)) (L.appended (log_of durable.new))
        × AllOnlyAsk steps (ids clients.old.items) × AsksNone steps) }
    ensures known { OnOk result (AllUpTo last.new clients.new.items) }
    ensures rises { last.old ≤ last.new }
    ensures same { OnOk result (SameStreams ⟦<Link as Duplex>⟧.handle last.old clients.old.items clients.new.items) }
    ensures refused { IfOk result (λ came. (fault : HubFault) → came ≡ Some (ConnectOutcome.Refused fault) → fault ≡ HubFault.Memory) }
    ensures attends { OnOk result (Attends (ids clients.new.items) (hub_of durable.new).attached) }
    ensures memory { OnErr result (result ≡ Err DurableFault.Memory) }
    ensures settled { OnOk result (IsSettled L.appended L.synced durable.new) }
{
    let conn = *last + 1;
    match acceptor.accept(conn) {
        Some(stream) => {
            *last = conn;
            let admission = connect(alloc, durable, clients, conn, stream)?;
            Ok(Some(admission))
        }
        None => Ok(None),
    }
}

/// Accepts what has come while there are places. `last` is the number of the connection that came last.
fn accept_all<D: Sessions + Drop, L: Log + Drop>(
    alloc: Global,
    durable: &mut Durable<D, L>,
    acceptor: &mut Acceptor,
    clients: &mut Vec<Client<Link>>,
    last: &mut u64,
) -> Result<(), DurableFault>
    requires attends { Attends (ids clients.old.items) (hub_of durable.old).attached }
    requires settled { IsSettled L.appended L.synced durable.old }
    requires known { AllUpTo last.old clients.old.items }
    requires own { replayer ≤ last.old }
    ensures comes { OnOk result ((steps : List Step) × GivesNone steps × Joins clients.old.items clients.new.items
        × Makes steps (hub_of durable.old) (hub_of durable.new) (L.appended (log_of durable.old)) (L.appended (log_of durable.new))
        × AllOnlyAsk steps (ids clients.old.items) × AsksNone steps) }
    ensures known { OnOk result (AllUpTo last.new clients.new.items) }
    ensures rises { last.old ≤ last.new }
    ensures same { OnOk result (SameStreams ⟦<Link as Duplex>⟧.handle last.old clients.old.items clients.new.items) }
    ensures attends { OnOk result (Attends (ids clients.new.items) (hub_of durable.new).attached) }
    ensures memory { OnErr result (result ≡ Err DurableFault.Memory) }
    ensures settled { OnOk result (IsSettled L.appended L.synced durable.new) }
{
    'places: for _place in 0..MAX_CONNECTIONS {
        if clients.len() >= MAX_CONNECTIONS || !acceptor.may_accept() || *last == u64::MAX {
            return Ok(());
        }
        accept_one(alloc, durable, acceptor, clients, last)?;
    }
    Ok(())
}

/// What is done once some connections are ready. Those that have come are accepted, what is ready is read, its lines are asked, and what it
/// asks of the service is told. The replies are sent once the journal stays, and those that are over are let go. What a connection receives
/// are the replies to its own lines, whole and in their order. A connection keeps its number and its stream, and once its bytes have ended
/// and its lines are asked nothing of it is held. A status says that so many seconds have passed since the start.
///
/// `Memory` where memory for a reply or for the list is refused, or one that goes holds sessions still once 1,025 lines undid some.
/// `Journal` where a line can't be appended whole, or what was appended can't be made to stay. Nothing is said of the hub then, and
/// the service ends.
pub fn take_turn<D: Sessions + Drop, L: Log + Drop>(
    alloc: Global,
    durable: &mut Durable<D, L>,
    acceptor: &mut Acceptor,
    clients: &mut Vec<Client<Link>>,
    last: &mut u64,
    each: bool,
    buffer: &mut [u8],
    schema: &SchemaLine,
    seconds: u64,
) -> Result<(), DurableFault>
    requires attends { Attends (ids clients.old.items) (hub_of durable.old).attached }
    requires settled { IsSettled L.appended L.synced durable.old }
    requires known { AllUpTo last.old clients.old.items }
    requires own { replayer ≤ last.old }
    requires room { 0 < length buffer.old }
    ensures serves { OnOk result ((steps : List Step) × Serves (λ _. None) steps clients.old.items clients.new.items
        × Makes steps (hub_of durable.old) (hub_of durable.new) (L.appended (log_of durable.old)) (L.appended (log_of durable.new))
        × StayersOnlyAsk steps clients.old.items clients.new.items
        × TellsWhatIs (λ _. None) (line_of schema.now) seconds steps (hub_of durable.old)
        (L.appended (log_of durable.old)) (L.lacks_room (log_of durable.new)) (L.segment (log_of durable.new)) clients.old.items) }
    ensures known { OnOk result (AllUpTo last.new clients.new.items) }
    ensures rises { last.old ≤ last.new }
    ensures same { OnOk result (SameStreams ⟦<Link as Duplex>⟧.handle last.old clients.old.items clients.new.items) }
    ensures whole { OnOk result (NoneIsWhole clients.new.items) }
    ensures stay { OnOk result (NoneIsOver clients.new.items) }
    ensures attends { OnOk result (Attends (ids clients.new.items) (hub_of durable.new).attached) }
    ensures failed { result ≡ Err DurableFault.Journal → L.has_failed (log_of durable.new) ≡ true }
    ensures settled { OnOk result (IsSettled L.appended L.synced durable.new) }
{
    accept_all(alloc, durable, acceptor, clients, last)?;
    serve_all(alloc, durable, clients, buffer, each, schema, seconds)
}

/// Accepts one more where all places of the list are taken.
fn receive(
    acceptor: &mut Acceptor,
    clients: &[Client<Link>],
    overflow: &mut Overflow,
    last: &mut u64,
)
    requires own { replayer ≤ last.old }
    requires waits { WaitsUpTo last.old overflow.old.comer }
    ensures beside { overflow.new.beside ≡ overflow.old.beside }
    ensures waits { WaitsUpTo last.new overflow.new.comer }
    ensures rises { last.old ≤ last.new }
    ensures room { length clients.now < most_connections → overflow.new ≡ overflow.old }
{
    if clients.len() >= MAX_CONNECTIONS {
        overflow.receive(acceptor, last);
    }
}

/// A turn of the list, behind which who waits is placed, the one beside the list is served, and one more is accepted where the list is full.
///
/// What is done are the steps of the list, and that one comes who has waited: the one beside it changes neither hub nor journal nor list, and is
/// told the status of what they leave. The faults are those of `take_turn`, and `Memory` where the list has no room for one.
pub fn turn<D: Sessions + Drop, L: Log + Drop>(
    alloc: Global,
    durable: &mut Durable<D, L>,
    acceptor: &mut Acceptor,
    clients: &mut Vec<Client<Link>>,
    overflow: &mut Overflow,
    last: &mut u64,
    each: bool,
    buffer: &mut [u8],
    schema: &SchemaLine,
    seconds: u64,
) -> Result<(), DurableFault>
    requires attends { Attends (ids clients.old.items) (hub_of durable.old).attached }
    requires settled { IsSettled L.appended L.synced durable.old }
    requires known { AllUpTo last.old clients.old.items }
    requires waits { WaitsUpTo last.old overflow.old.comer }
    requires own { replayer ≤ last.old }
    requires room { 0 < length buffer.old }
    ensures turns { OnOk result (IsTurn (line_of schema.now) seconds (hub_of durable.old) (hub_of durable.new) (L.appended (log_of durable.old))
        (L.appended (log_of durable.new)) (L.synced (log_of durable.new)) (L.lacks_room (log_of durable.new))
        (L.room_left (log_of durable.new)) (L.segment (log_of durable.new)) clients.old.items clients.new.items
        overflow.old overflow.new) }
    ensures known { OnOk result (AllUpTo last.new clients.new.items) }
    ensures waits { OnOk result (WaitsUpTo last.new overflow.new.comer) }
    ensures rises { OnOk result (last.old ≤ last.new) }
    ensures attends { OnOk result (Attends (ids clients.new.items) (hub_of durable.new).attached) }
    ensures failed { result ≡ Err DurableFault.Journal → L.has_failed (log_of durable.new) ≡ true }
    ensures settled { OnOk result (IsSettled L.appended L.synced durable.new) }
{
    take_turn(
        alloc, durable, acceptor, clients, last, each, buffer, schema, seconds,
    )?;
    overflow.place(alloc, durable, clients)?;
    overflow.serve(alloc, durable, clients.as_slice(), buffer, schema, seconds);
    receive(acceptor, clients.as_slice(), overflow, last);
    Ok(())
}

/// Waits until something is ready, or for the longest time that is given, and tells the connections.
fn wait(
    acceptor: &mut Acceptor,
    clients: &mut Vec<Client<Link>>,
    overflow: &mut Overflow,
    longest: Option<Duration>,
) -> Result<(), Failure>
    ensures ids { ids clients.new.items ≡ ids clients.old.items }
    ensures woken { EachWoken clients.old.items clients.new.items }
    ensures comer { overflow.new.comer ≡ overflow.old.comer }
    ensures poll { OnErr result (result ≡ Err Failure.Poll) }
{
    let comes = acceptor.may_accept() && (clients.len() < MAX_CONNECTIONS || overflow.is_free());
    let busy = is_any_busy(clients.as_slice()) || overflow.is_busy();
    acceptor.wait(comes || busy, longest)?;
    acceptor.wake(clients);
    overflow.wake();
    Ok(())
}

/// Gives up who of the list has been silent for longer than the patience lasts, and whom one of the list or the one beside it has asked to end. The
/// clock is read.
fn give_up<D: Sessions + Drop, L: Log + Drop, C: Clock>(
    durable: &Durable<D, L>,
    patience: &mut Patience<'_, C>,
    clients: &mut Vec<Client<Link>>,
    overflow: &mut Overflow,
)
    ensures ids { ids clients.new.items ≡ ids clients.old.items }
    ensures comer { overflow.new.comer ≡ overflow.old.comer }
{
    patience.give_up(durable, clients);
    end_asked(clients);
    overflow.end_asked(clients);
}

/// Serves connections that an acceptor accepts until something fails, and says what: `Poll`, `Memory`, `Journal` or `Turns`. With `each` a
/// line's reply waits for a sync of its own, else for one that all lines of a turn have together. Who is silent for longer than the patience
/// lasts, or was asked to end, is let go. `schema` is told to whoever asks for it. Where all places are taken one more is served lines of the service
/// alone. Behind a turn the journal goes on in its next segment, where `rolling` wants that.
pub fn serve<P: JournalFiles, D: Sessions + Drop, C: Clock>(
    alloc: Global,
    files: &P,
    durable: &mut JournalDurable<P::File, D>,
    acceptor: &mut Acceptor,
    patience: &mut Patience<'_, C>,
    each: bool,
    schema: &SchemaLine,
    rolling: &Rolling<'_>,
) -> Failure
    requires none { (hub_of durable.old).attached ≡ [] }
    requires settled { IsSettled (λ l. told_of P.File.contents (device_of l)) (λ l. told_of P.File.stays (device_of l)) durable.old }
    ensures turns { (result ≡ Failure.Turns) ⊎ (result ≡ Failure.Poll)
        → GoesOver (λ file. P.File.is_locked file ≡ true) P.File.contents rolling.now.schema.now rolling.now.keeping rolling.now.most (hub_of durable.old)
        (hub_of durable.new) (told_of P.File.contents (device_of (log_of durable.old))) (told_of P.File.contents (device_of (log_of durable.new))) }
    ensures failed { result ≡ Failure.Journal → is_broken (log_of durable.new) ≡ true }
    ensures ends { ends_serving result ≡ true }
{
    let Ok(mut clients) = Vec::with_capacity(alloc, MAX_CONNECTIONS) else {
        return Failure::Memory;
    };
    let mut buffer = [0u8; READ];
    let mut overflow = Overflow::new();
    let mut last = REPLAYER;
    let mut bytes = 0;
    'turns: for _turn in 0..MAX_TURNS {
        let longest = patience.longest_wait(!overflow.is_free());
        if let Err(failure) = wait(acceptor, &mut clients, &mut overflow, longest) {
            return failure;
        }
        give_up(durable, patience, &mut clients, &mut overflow);
        if let Err(fault) = turn(
            alloc,
            durable,
            acceptor,
            &mut clients,
            &mut overflow,
            &mut last,
            each,
            &mut buffer,
            schema,
            patience.second(),
        ) {
            return Failure::of_durable(fault);
        }
        overflow.judge(patience.second());
        if let Err(fault) = roll(alloc, files, rolling, &mut bytes, durable) {
            return Failure::of_durable(fault);
        }
    }
    Failure::Turns
}
