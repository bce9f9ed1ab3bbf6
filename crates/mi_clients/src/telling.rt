//! What the service tells to lines of its own. It asks the tables nothing, and changes no database.
ghost use Rattle.std.specs.Prelude.{◌≡◌, ◌⊎◌, ◌++◌, ℕ, List, [], true, Err, OnOk, OnErr, IfSome};
ghost use Rattle.std.specs.String.{string_bytes};
ghost use Rattle.std.specs.Io.KnownBytes.{Keeps};
ghost use Rattle.mi_durable.specs.Durable.{hub_of, log_of, IsSettled};
ghost use Rattle.mi_clients.specs.Client.{Owes, Takes, IsAsFar};
ghost use Rattle.mi_clients.specs.Output.{unsent};
ghost use Rattle.mi_clients.specs.Clients.{ids, Attends, EachServed, EachTakes};
ghost use Rattle.mi_clients.specs.ServiceLines.{line_of};
ghost use Rattle.mi_clients.specs.Status.{IsStateOf, IsStatus, TellsStatus};
ghost use Rattle.mi_log.specs.declared.log.LogState.{LogState};
ghost use Rattle.mi_clients.specs.Steps.{Step, Makes, AreTells, AllTell, TellsSo, given_to, asked_by};
ghost use Rattle.mi_clients.specs.declared.client.Phase.TheVariants as phases;

use crate::asking::{hand_out, take_held};
use crate::client::{Client, Phase};
use crate::duplex::Duplex;
use crate::schema_line::SchemaLine;
use crate::service_lines::{ended_in, told_to};
use crate::status::status_line;
use mi_durable::{Durable, DurableFault};
use mi_log::Log;
use mi_sessions::Sessions;
use std::alloc::Global;

/// What is told where memory for the status is refused.
pub(crate) const MEMORY: &[u8] = b"{\"error\":\"memory\",\"ok\":false}\n";

/// Bytes that were released, and a text behind them, wait for the stream. Without room for them the connection is broken.
pub(crate) fn put_behind<S>(client: &mut Client<S>, released: Vec<u8>, text: &[u8])
    ensures unsent { ((client.new.phase ≡ phases.Broken) × (unsent client.new.output ≡ unsent client.old.output))
        ⊎ ((client.new.phase ≡ client.old.phase) × (unsent client.new.output ≡ unsent client.old.output ++ (released.items ++ text.now))) }
    ensures input { client.new.input ≡ client.old.input }
    ensures has_lines { client.new.has_lines ≡ client.old.has_lines }
    ensures same { client.new ≡ record client.old { input = client.new.input; output = client.new.output; phase = client.new.phase; has_lines = client.new.has_lines; lines = client.new.lines; all_asked = client.new.all_asked } }
{
    let mut bytes = released;
    match bytes.extend_from_slice(text) {
        Ok(()) => hand_out(client, bytes),
        Err(_error) => client.phase = Phase::Broken,
    }
}

/// Hands the replies of a connection out, and a text behind them, once all that was appended stays. Without room for them it is broken.
fn give<D: Sessions + Drop, L: Log + Drop, S>(
    durable: &mut Durable<D, L>,
    client: &mut Client<S>,
    text: &[u8],
) -> Result<(), DurableFault>
    requires settled { IsSettled L.appended L.synced durable.old }
    requires sound { ¬ (client.old.phase ≡ phases.Broken) }
    ensures stays { OnOk result (Keeps (L.appended (log_of durable.new)) (L.synced (log_of durable.new))) }
    ensures owes { OnOk result (Owes text.now client.old client.new) }
    ensures far { OnOk result (IsAsFar client.old client.new) }
    ensures input { OnOk result (client.new.input ≡ client.old.input) }
    ensures has_lines { OnOk result (client.new.has_lines ≡ client.old.has_lines) }
    ensures ends { OnOk result (client.new.ends ≡ client.old.ends) }
    ensures hub { hub_of durable.new ≡ hub_of durable.old }
    ensures appended { Keeps (L.appended (log_of durable.old)) (L.appended (log_of durable.new)) }
    ensures room { OnOk result (L.lacks_room (log_of durable.new) ≡ L.lacks_room (log_of durable.old)) }
    ensures segment { OnOk result (L.segment (log_of durable.new) ≡ L.segment (log_of durable.old)) }
    ensures failed { OnErr result ((result ≡ Err DurableFault.Journal) × (L.has_failed (log_of durable.new) ≡ true)) }
    ensures settled { IsSettled L.appended L.synced durable.new }
{
    let held = take_held(client);
    let released = durable.release(held)?;
    put_behind(client, released, text);
    Ok(())
}

/// Tells a connection what the first line of it that waits asks of the service, where its lines may be asked and that line is the service's
/// own. What it asked before is replied in front of that.
fn tell<D: Sessions + Drop, L: Log + Drop, S>(
    durable: &mut Durable<D, L>,
    client: &mut Client<S>,
    status: &[u8],
    schema: &SchemaLine,
) -> Result<(), DurableFault>
    requires settled { IsSettled L.appended L.synced durable.old }
    requires some { ¬ (status.now ≡ []) }
    ensures tells { OnOk result ((steps : List Step) × AreTells client.old.conn steps × TellsSo status.now (line_of schema.now) steps
        × Owes (given_to client.old.conn steps) client.old client.new × Takes (asked_by client.old.conn steps) client.old client.new
        × Makes steps (hub_of durable.old) (hub_of durable.new) (L.appended (log_of durable.old)) (L.appended (log_of durable.new))) }
    ensures hub { OnOk result (hub_of durable.new ≡ hub_of durable.old) }
    ensures room { OnOk result (L.lacks_room (log_of durable.new) ≡ L.lacks_room (log_of durable.old)) }
    ensures segment { OnOk result (L.segment (log_of durable.new) ≡ L.segment (log_of durable.old)) }
    ensures failed { result ≡ Err DurableFault.Journal → L.has_failed (log_of durable.new) ≡ true }
    ensures settled { OnOk result (IsSettled L.appended L.synced durable.new) }
{
    let Some(line) = client.service_line() else {
        return Ok(());
    };
    let text = told_to(line, status, schema.as_slice());
    let ends = ended_in(line);
    let count = line.len();
    client.input.pass(count, false);
    client.ends = ends;
    give(durable, client, text)?;
    Ok(())
}

/// Tells each connection of a list what it asks of the service, by this line of the status.
fn tell_each<D: Sessions + Drop, L: Log + Drop, S: Duplex>(
    durable: &mut Durable<D, L>,
    clients: &mut Vec<Client<S>>,
    status: &[u8],
    schema: &SchemaLine,
) -> Result<(), DurableFault>
    requires attends { Attends (ids clients.old.items) (hub_of durable.old).attached }
    requires settled { IsSettled L.appended L.synced durable.old }
    requires some { ¬ (status.now ≡ []) }
    ensures tells { OnOk result ((steps : List Step) × AllTell steps × TellsSo status.now (line_of schema.now) steps
        × EachServed S.contents steps clients.old.items clients.new.items × EachTakes steps clients.old.items clients.new.items
        × Makes steps (hub_of durable.old) (hub_of durable.new) (L.appended (log_of durable.old)) (L.appended (log_of durable.new))) }
    ensures attends { OnOk result (Attends (ids clients.new.items) (hub_of durable.new).attached) }
    ensures room { OnOk result (L.lacks_room (log_of durable.new) ≡ L.lacks_room (log_of durable.old)) }
    ensures segment { OnOk result (L.segment (log_of durable.new) ≡ L.segment (log_of durable.old)) }
    ensures failed { result ≡ Err DurableFault.Journal → L.has_failed (log_of durable.new) ≡ true }
    ensures settled { OnOk result (IsSettled L.appended L.synced durable.new) }
{
    for client in clients.iter_mut() {
        tell(durable, client, status, schema)?;
    }
    Ok(())
}

/// The line of the status of a list, a hub and its journal. None where memory for it is refused.
pub(crate) fn status_now<D: Sessions + Drop, L: Log + Drop, S>(
    alloc: Global,
    durable: &Durable<D, L>,
    clients: &[Client<S>],
    seconds: u64,
) -> Option<String>
    ensures { IfSome result (λ line. (journal : LogState)
        × IsStateOf (L.appended (log_of durable.now)) (L.synced (log_of durable.now)) (L.lacks_room (log_of durable.now))
        (L.room_left (log_of durable.now)) (L.segment (log_of durable.now)) journal
        × TellsStatus clients.now (hub_of durable.now) journal seconds (string_bytes line)) }
{
    status_line(
        alloc,
        durable.hub(),
        durable.log().state(),
        seconds,
        clients,
    )
    .ok()
}

/// The same where a connection of the list asks the service something.
fn status_if_asked<D: Sessions + Drop, L: Log + Drop, S>(
    alloc: Global,
    durable: &Durable<D, L>,
    clients: &[Client<S>],
    seconds: u64,
) -> Option<String>
    ensures { IfSome result (λ line. (journal : LogState)
        × IsStateOf (L.appended (log_of durable.now)) (L.synced (log_of durable.now)) (L.lacks_room (log_of durable.now))
        (L.room_left (log_of durable.now)) (L.segment (log_of durable.now)) journal
        × TellsStatus clients.now (hub_of durable.now) journal seconds (string_bytes line)) }
{
    if !clients.iter().any(|client| client.service_line().is_some()) {
        return None;
    }
    status_now(alloc, durable, clients, seconds)
}

/// Tells each connection of a list what it asks of the service: the status of these connections and this hub, the schema, or that its form is
/// refused. The status is that of all of them, and of the journal, before any is told something, so many seconds
/// after the start.
pub fn tell_all<D: Sessions + Drop, L: Log + Drop, S: Duplex>(
    alloc: Global,
    durable: &mut Durable<D, L>,
    clients: &mut Vec<Client<S>>,
    schema: &SchemaLine,
    seconds: u64,
) -> Result<(), DurableFault>
    requires attends { Attends (ids clients.old.items) (hub_of durable.old).attached }
    requires settled { IsSettled L.appended L.synced durable.old }
    ensures tells { OnOk result ((steps : List Step) × (status : List ℕ)
        × IsStatus (L.appended (log_of durable.old)) (L.synced (log_of durable.old)) (L.lacks_room (log_of durable.new))
        (L.room_left (log_of durable.old)) (L.segment (log_of durable.new)) seconds clients.old.items
        (hub_of durable.old) status
        × AllTell steps × TellsSo status (line_of schema.now) steps
        × EachServed S.contents steps clients.old.items clients.new.items × EachTakes steps clients.old.items clients.new.items
        × Makes steps (hub_of durable.old) (hub_of durable.new) (L.appended (log_of durable.old)) (L.appended (log_of durable.new))) }
    ensures attends { OnOk result (Attends (ids clients.new.items) (hub_of durable.new).attached) }
    ensures failed { result ≡ Err DurableFault.Journal → L.has_failed (log_of durable.new) ≡ true }
    ensures settled { OnOk result (IsSettled L.appended L.synced durable.new) }
{
    let line = status_if_asked(alloc, durable, clients.as_slice(), seconds);
    match &line {
        Some(line) => tell_each(durable, clients, line.as_bytes(), schema),
        None => tell_each(durable, clients, MEMORY, schema),
    }
}
