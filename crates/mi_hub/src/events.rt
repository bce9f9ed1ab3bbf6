//! What happens to connections, one event after another.
ghost use Rattle.std.specs.Prelude.{◌≡◌, ℕ, List, map, true, OnOk, IfErr};
ghost use Rattle.mi_hub.specs.Run.{Done, AllDone};
ghost use Rattle.mi_hub.specs.Drive.{event_of, NotDone, Stopped};
ghost use Rattle.mi_hub.specs.Watching.{has_failed, Writes};

use crate::fault::HubFault;
use crate::hub::Hub;
use crate::watched::Watched;
use mi_sessions::Sessions;
use std::io::Write;

/// What happens to one connection, by its number: it comes, a piece of its bytes comes, its bytes end, or it breaks off.
#[derive(Drop)]
pub enum Event {
    Attach(u64),
    Piece(u64, Vec<u8>),
    Close(u64),
    Cut(u64),
}

/// Does one event.
fn drive_one<D: Sessions + Drop, W: Write>(
    hub: &mut Hub<D>,
    event: &Event,
    writer: &mut Watched<W>,
) -> Result<(), HubFault>
    ensures ok { OnOk result ((out : List ℕ) × Writes W.contents writer.old writer.new out × Done hub.old (event_of event.now) out hub.new) }
    ensures sound { OnOk result (has_failed writer.new ≡ has_failed writer.old) }
    ensures fault { IfErr result (λ fault. (out : List ℕ) × Writes W.contents writer.old writer.new out
        × NotDone hub.old (event_of event.now) fault out hub.new) }
    ensures failed { IfErr result (λ fault. fault ≡ HubFault.Write → has_failed writer.new ≡ true) }
{
    match event {
        Event::Attach(conn) => hub.attach(*conn),
        Event::Piece(conn, bytes) => hub.feed(*conn, bytes.as_slice(), writer),
        Event::Close(conn) => hub.close(*conn, writer),
        Event::Cut(conn) => hub.cut(*conn),
    }
}

/// Does the events in order, with one writer for all replies, until one can't be done whole; answers the number of that one,
/// from 0, and its fault. Those before it are done, and those behind it are left out.
///
/// After `Write` the connection of that event has been cut; after any other fault that event has changed nothing.
pub fn drive<D: Sessions + Drop, W: Write>(
    hub: &mut Hub<D>,
    events: &[Event],
    writer: &mut Watched<W>,
) -> Result<(), (usize, HubFault)>
    ensures ok { OnOk result ((out : List ℕ) × Writes W.contents writer.old writer.new out × AllDone hub.old (map event_of events.now) out hub.new) }
    ensures sound { OnOk result (has_failed writer.new ≡ has_failed writer.old) }
    ensures fault { IfErr result (λ e. (out : List ℕ) × Writes W.contents writer.old writer.new out
        × Stopped hub.old (map event_of events.now) e.0 e.1 out hub.new) }
    ensures failed { IfErr result (λ e. e.1 ≡ HubFault.Write → has_failed writer.new ≡ true) }
{
    for (i, event) in events.iter().enumerate() {
        if let Err(fault) = drive_one(hub, event, writer) {
            return Err((i, fault));
        }
    }
    Ok(())
}
