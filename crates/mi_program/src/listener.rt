//! Connections of a listener by turns: one piece of each open one after another, until all have ended.
//! It knows of a connection what its stream reads and takes, and nothing of lines.
ghost use Rattle.std.specs.Prelude.{◌≡◌, ◌≢◌, ◌⊎◌, ◌≤◌, ◌<◌, ◌∷◌, ℕ, List, [], length, Err, None, IsSome, OnOk, OnErr, IfOk, true, false};
ghost use Rattle.mi_value.specs.declared.limits.TheConstants.{MAX_CONNECTIONS, MAX_READS, PIECE};
ghost use Rattle.mi_hub.specs.Run.{HubState, with_connection};
ghost use Rattle.mi_hub.specs.Connections.{rest_at};
ghost use Rattle.mi_hub.specs.Watching.{has_failed};
ghost use Rattle.mi_hub.specs.IoNotes.{reads_fail, writes_fail};
ghost use Rattle.mi_hub.specs.ConnectionTurn.{ConnectionTurn, outcome, Made};
ghost use Rattle.mi_program.specs.Turns.{with_clients, TakesTurn, row_after, ByTurns, turn_fault, first_fault, with_turn, all_noted};
ghost use Rattle.mi_program.specs.Turns.{client_ids, AllSound, HaveCome, Serves};
ghost use Rattle.mi_program.specs.declared.listener.Client.{Client};

use crate::buffered::Buffered;
use mi_hub::{Hub, IoErrors, ServeFault, Watched, take_turn};
use mi_sessions::Sessions;
use mi_value::limits::{MAX_READS, PIECE};
use std::alloc::Global;
use std::collections::VecDeque;
use std::io::{Read, Write};
use std::net::{OpenListener, OpenStream};

/// An open connection. Its replies are gathered, and go out behind each piece of its bytes.
#[derive(Drop)]
pub struct Client<S> {
    conn: u64,
    stream: Watched<Buffered<S>>,
}

/// Accepts one connection, which is told to send what is flushed at once, and attaches it. After a fault nothing has changed; that the stream
/// can't be told is none.
fn accept<D: Sessions + Drop, L: OpenListener>(
    alloc: Global,
    hub: &mut Hub<D>,
    listener: &L,
    conn: u64,
) -> Result<Client<L::Stream>, ServeFault>
where
    L::Stream: OpenStream,
    requires { rest_at conn hub.old.attached ≡ None }
    ensures ok { IfOk result (λ client. (client.conn ≡ conn) × (hub.new ≡ with_connection conn hub.old) × (has_failed client.stream ≡ false)) }
    ensures fault { OnErr result (hub.new ≡ hub.old) }
    ensures no_other { OnErr result ((result ≡ Err ServeFault.Accept) ⊎ (result ≡ Err ServeFault.Memory)) }
{
    let Ok((stream, _address)) = listener.accept() else {
        return Err(ServeFault::Accept);
    };
    let _ = stream.set_nodelay(true);
    let mut stream = Buffered::new(alloc, stream);
    if stream.make_room().is_err() {
        return Err(ServeFault::Memory);
    }
    if hub.attach(conn).is_err() {
        return Err(ServeFault::Memory);
    }
    Ok(Client {
        conn,
        stream: Watched::new(stream),
    })
}

/// Reads one piece of a connection, and makes the turn that it gives. Answers whether the connection is open still; after a fault it has been
/// cut, and the error of its stream is noted.
fn client_turn<D: Sessions + Drop, S: Read + Write>(
    hub: &mut Hub<D>,
    client: &mut Client<S>,
    buffer: &mut [u8],
    errors: &mut IoErrors,
) -> Result<bool, ServeFault>
    requires attached { IsSome (rest_at client.old.conn hub.old.attached) }
    requires room { length buffer.old ≡ PIECE }
    requires sound { has_failed client.old.stream ≡ false }
    ensures turn { (turn : ConnectionTurn) × (out : List ℕ) × TakesTurn S.remaining S.contents turn out client.old client.new
        × (result ≡ outcome turn) × Made hub.old turn out hub.new }
    ensures failed { OnErr result (has_failed client.new.stream ≡ true) }
    ensures sound { OnOk result (has_failed client.new.stream ≡ false) }
    ensures noted { errors.new ≡ with_turn result errors.old }
{
    match errors.read_from(&mut client.stream, buffer) {
        Ok(n) => {
            let is_open = take_turn(hub, client.conn, Some(&buffer[..n]), &mut client.stream);
            errors.note_write(&client.stream);
            is_open
        }
        Err(_) => take_turn(hub, client.conn, None, &mut client.stream),
    }
}

/// The first of a row of open connections takes its turn; where it stays open it goes behind the others, else it is let go.
fn next_turn<D: Sessions + Drop, S: Read + Write + Drop>(
    hub: &mut Hub<D>,
    row: &mut VecDeque<Client<S>>,
    buffer: &mut [u8],
    errors: &mut IoErrors,
) -> Result<(), ServeFault>
    requires some { 0 < length row.old.items }
    requires served { Serves (client_ids row.old.items) hub.old.attached }
    requires room { length buffer.old ≡ PIECE }
    requires sound { AllSound row.old.items }
    ensures turn { (turn : ConnectionTurn) × (out : List ℕ) × (first : Client S) × (after : Client S) × (others : List (Client S))
        × (row.old.items ≡ first ∷ others) × TakesTurn S.remaining S.contents turn out first after × Made hub.old turn out hub.new
        × (row.new.items ≡ row_after turn after others) × (result ≡ turn_fault (outcome turn)) × (errors.new ≡ with_turn (outcome turn) errors.old) }
    ensures sound { AllSound row.new.items }
{
    let mut client = row.pop_front().unwrap();
    if client_turn(hub, &mut client, buffer, errors)? {
        row.push_back(client).unwrap();
    }
    Ok(())
}

/// Cuts all connections of a row. Where nobody holds sessions that leaves the database as it was.
fn cut_all<D: Sessions + Drop, S: Drop>(hub: &mut Hub<D>, row: &mut VecDeque<Client<S>>)
    requires { Serves (client_ids row.old.items) hub.old.attached }
    ensures none { hub.new.attached ≡ [] }
    ensures held { hub.old.held.holder ≡ None → hub.new.held ≡ hub.old.held }
{
    'row: while let Some(client) = row.pop_front() {
        let _ = hub.cut(client.conn);
    }
}

/// Accepts so many connections, numbers them from 1 and attaches them. After a fault all of them have been cut, and the hub is as it was.
fn accept_all<D: Sessions + Drop, L: OpenListener>(
    alloc: Global,
    hub: &mut Hub<D>,
    listener: &L,
    count: usize,
) -> Result<VecDeque<Client<L::Stream>>, ServeFault>
where
    L::Stream: OpenStream,
    requires { hub.old.attached ≡ [] }
    ensures ok { IfOk result (λ row. HaveCome count row.items × (hub.new ≡ with_clients count hub.old)) }
    ensures none { OnErr result (hub.new.attached ≡ []) }
    ensures unserved { hub.old.held.holder ≡ None → OnErr result (hub.new ≡ hub.old) }
    ensures no_other { OnErr result ((result ≡ Err ServeFault.Accept) ⊎ (result ≡ Err ServeFault.Memory)) }
{
    let Ok(mut row) = VecDeque::with_capacity(alloc, count) else {
        return Err(ServeFault::Memory);
    };
    'row: for before in 0..count {
        match accept(alloc, hub, listener, before as u64 + 1) {
            Ok(client) => row.push_back(client).unwrap(),
            Err(fault) => {
                cut_all(hub, &mut row);
                return Err(fault);
            }
        }
    }
    Ok(row)
}

/// Serves a row of connections by turns until all have ended. After `Turns` those that had not have been cut.
fn serve_all<D: Sessions + Drop, S: Read + Write + Drop>(
    hub: &mut Hub<D>,
    row: VecDeque<Client<S>>,
    errors: &mut IoErrors,
) -> Result<(), ServeFault>
    requires some { 0 < length row.items }
    requires served { Serves (client_ids row.items) hub.old.attached }
    requires sound { AllSound row.items }
    ensures none { hub.new.attached ≡ [] }
    ensures served { result ≢ Err ServeFault.Turns → (turns : List ConnectionTurn)
        × ByTurns S.remaining S.contents row.items hub.old turns [] hub.new × (result ≡ first_fault turns) × (errors.new ≡ all_noted turns errors.old) }
    ensures turns { result ≡ Err ServeFault.Turns → (turns : List ConnectionTurn) × (left : List (Client S)) × (mid : HubState)
        × ByTurns S.remaining S.contents row.items hub.old turns left mid × (length turns ≡ MAX_READS) × (errors.new ≡ all_noted turns errors.old) }
{
    let mut row = row;
    let mut first = Ok(());
    let mut buffer = [0u8; PIECE];
    'turns: for _turn in 0..MAX_READS {
        first = first.and(next_turn(hub, &mut row, &mut buffer, errors));
        if row.is_empty() {
            return first;
        }
    }
    cut_all(hub, &mut row);
    Err(ServeFault::Turns)
}

/// Accepts so many connections, and serves them by turns until none is open, or up to the first fault.
fn serve_clients<D: Sessions + Drop, L: OpenListener>(
    alloc: Global,
    hub: &mut Hub<D>,
    listener: &L,
    clients: usize,
    errors: &mut IoErrors,
) -> Result<(), ServeFault>
where
    L::Stream: Read + Write + OpenStream,
    requires clients { 1 ≤ clients }
    requires none { hub.old.attached ≡ [] }
    ensures none { hub.new.attached ≡ [] }
    ensures served { result ≢ Err ServeFault.Accept → result ≢ Err ServeFault.Memory → result ≢ Err ServeFault.Turns →
        (row : List (Client L.Stream)) × (turns : List ConnectionTurn) × HaveCome clients row
        × ByTurns L.Stream.remaining L.Stream.contents row (with_clients clients hub.old) turns [] hub.new
        × (result ≡ first_fault turns) × (errors.new ≡ all_noted turns errors.old) }
    ensures turns { result ≡ Err ServeFault.Turns →
        (row : List (Client L.Stream)) × (turns : List ConnectionTurn) × (left : List (Client L.Stream)) × (mid : HubState) × HaveCome clients row
        × ByTurns L.Stream.remaining L.Stream.contents row (with_clients clients hub.old) turns left mid
        × (length turns ≡ MAX_READS) × (errors.new ≡ all_noted turns errors.old) }
    ensures unserved { (result ≡ Err ServeFault.Accept) ⊎ (result ≡ Err ServeFault.Memory) → errors.new ≡ errors.old }
    ensures unturned { (result ≡ Err ServeFault.Accept) ⊎ (result ≡ Err ServeFault.Memory) → hub.old.held.holder ≡ None → hub.new ≡ hub.old }
{
    match accept_all(alloc, hub, listener, clients) {
        Ok(row) => serve_all(hub, row, errors),
        Err(fault) => Err(fault),
    }
}

/// States that nobody holds sessions where no connection is attached. It does nothing.
fn nobody_holds<D: Sessions + Drop>(hub: &Hub<D>)
    requires { hub.now.attached ≡ [] }
    ensures { hub.now.held.holder ≡ None }
{
    let _ = hub.holder();
}

/// Accepts so many connections of a listener, from 1 to 64, numbers them from 1 in this order and attaches them. Then it reads
/// one piece of at most 4,096 bytes from each open one in turn, until all have ended. One whose input is at its end is closed, and
/// its stream is let go. Replies go to the connection's own stream, which is told to send what is flushed at once (`set_nodelay`): the reply to
/// a second piece doesn't wait for the peer to acknowledge the first.
///
/// A connection whose read or write fails is cut and the others go on; the first such fault is answered at the end, as `Read` or
/// `Write`. After `Accept`, `Memory` (the row had no room, or an attach was refused) and `Turns` (2^40 reads were made) all
/// have been cut; after the first two the hub has taken no turn, and is as it was. Whatever the answer, no connection is attached then, and nobody holds sessions.
///
/// The errors that streams answered are noted in `errors`, since the streams are let go: `Read` is answered only where a read of this
/// call has failed, and `Write` only where a write or a flush has.
pub fn serve_listener<D: Sessions + Drop, L: OpenListener>(
    alloc: Global,
    hub: &mut Hub<D>,
    listener: &L,
    clients: usize,
    errors: &mut IoErrors,
) -> Result<(), ServeFault>
where
    L::Stream: Read + Write + OpenStream,
    requires clients { (1 ≤ clients) × (clients ≤ MAX_CONNECTIONS) }
    requires none { hub.old.attached ≡ [] }
    ensures none { hub.new.attached ≡ [] }
    ensures nobody { hub.new.held.holder ≡ None }

    // All connections have come and have had their turns until none was open; in its turn the stream of a connection gave what the turn was given
    // and took its replies, and no other. The answer is the first fault, or that there was none.
    ensures served { result ≢ Err ServeFault.Accept → result ≢ Err ServeFault.Memory → result ≢ Err ServeFault.Turns →
        (row : List (Client L.Stream)) × (turns : List ConnectionTurn) × HaveCome clients row
        × ByTurns L.Stream.remaining L.Stream.contents row (with_clients clients hub.old) turns [] hub.new
        × (result ≡ first_fault turns) × (errors.new ≡ all_noted turns errors.old) }

    // So many turns were made; then those that were open still have been cut.
    ensures turns { result ≡ Err ServeFault.Turns →
        (row : List (Client L.Stream)) × (turns : List ConnectionTurn) × (left : List (Client L.Stream)) × (mid : HubState) × HaveCome clients row
        × ByTurns L.Stream.remaining L.Stream.contents row (with_clients clients hub.old) turns left mid
        × (length turns ≡ MAX_READS) × (errors.new ≡ all_noted turns errors.old) }

    // A fault of a stream is answered only where a stream has failed so.
    ensures read { result ≡ Err ServeFault.Read → reads_fail errors.new ≡ true }
    ensures write { result ≡ Err ServeFault.Write → writes_fail errors.new ≡ true }
    ensures sound { OnOk result (errors.new ≡ errors.old) }

    // Where it doesn't come to turns no stream has failed, and the hub is as it was. (Nobody holds sessions where no connection is attached.)
    ensures unserved { (result ≡ Err ServeFault.Accept) ⊎ (result ≡ Err ServeFault.Memory) → errors.new ≡ errors.old }
    ensures unturned { (result ≡ Err ServeFault.Accept) ⊎ (result ≡ Err ServeFault.Memory) → hub.old.held.holder ≡ None → hub.new ≡ hub.old }
{
    let served = serve_clients(alloc, hub, listener, clients, errors);
    nobody_holds(hub);
    served
}
