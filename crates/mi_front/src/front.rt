//! A journal that is asked to its end, or to the end of its closed segments, and what its open sessions changed is undone: the hub is left where a base
//! may stand. It changes no file.
ghost use Rattle.std.specs.Prelude.{◌≡◌, ◌+◌, ◌∷◌, [], Some, true, option_map, OnOk, IfOk};
ghost use Rattle.std.specs.String.{string_bytes};
ghost use Rattle.mi_model.specs.Database.{depth};
ghost use Rattle.mi_hub.specs.Connections.{rest_at};
ghost use Rattle.mi_replay.specs.Replayed.{replayer, replayed, unheld};
ghost use Rattle.mi_clients.specs.Clients.{fresh};
ghost use Rattle.mi_recovery.specs.Names.{segment_name};
ghost use Rattle.mi_front.specs.Front.{IsFrontPlace, IsFront, undo_all_line};
ghost use Rattle.mi_front.specs.Closed.{IsClosedFront};

use crate::row::{NotedJournal, note_closed, note_row};
use mi_checkpoint::OpenStarts;
use mi_durable::replay_line;
use mi_hub::Hub;
use mi_recovery::{
    Asked, JournalFailure, JournalFault, JournalFile, JournalFiles, JournalSchema, Newest, Place,
    Position, attach_replayer,
};
use mi_sessions::Sessions;
use std::alloc::Global;

/// The line that ends all open sessions, and takes back what they changed.
const UNDO_ALL: &[u8] = b"{\"cmd\":\"undo_all\"}\n";

/// A journal whose lines were asked, and where among them a base may stand.
#[derive(Drop)]
pub struct Front<F> {
    /// What was found in its newest segment, which this process alone has.
    pub asked: Asked<F>,
    /// The place in the newest segment where a base of the hub stands. None where that would be in front of the newest.
    pub place: Option<Place>,
    /// How many lines stand behind the base.
    pub left: u64,
}

/// No session is open, and nobody is a holder. `Sessions` where that isn't so.
fn check_bare<D: Sessions + Drop>(hub: &Hub<D>) -> Result<(), JournalFailure>
    ensures depth { OnOk result (depth hub.now.held.database ≡ 0) }
    ensures unheld { OnOk result (hub.now.held ≡ unheld hub.now.held.database) }
{
    if hub.holder().is_some() || hub.database().depth() > 0 {
        return Err(JournalFailure::Sessions);
    }
    Ok(())
}

/// The place in a noted journal's newest segment behind so many of all lines. None where these lines end in front of that segment.
fn place_behind<F>(noted: &NotedJournal<F>, lines: u64) -> Result<Option<Place>, JournalFailure>
    ensures { IfOk result (λ place. IsFrontPlace noted.now.asked.place noted.now.older lines place) }
{
    let Some(inside) = lines.checked_sub(noted.older) else {
        return Ok(None);
    };
    let newest = &noted.asked.place;
    let Some(skip) = newest.skip.checked_add(inside) else {
        return Err(JournalFailure::Turns);
    };
    match newest.header.clone() {
        Ok(header) => Ok(Some(Place {
            number: newest.number,
            header,
            skip,
        })),
        Err(_refused) => Err(JournalFailure::Memory),
    }
}

/// Ends all sessions that are open in a hub, of which the replayer is a connection, and takes back what they changed. `Memory` where there is none.
fn undo_open<D: Sessions + Drop>(alloc: Global, hub: &mut Hub<D>) -> Result<(), JournalFailure>
    requires { rest_at replayer hub.old.attached ≡ Some (Some []) }
    ensures undone { OnOk result (hub.new.held ≡ replayed (undo_all_line ∷ []) hub.old.held) }
    ensures attached { OnOk result (hub.new.attached ≡ hub.old.attached) }
{
    match replay_line(alloc, hub, UNDO_ALL) {
        Ok(()) => Ok(()),
        Err(_fault) => Err(JournalFailure::Memory),
    }
}

/// Asks a hub that stands where a base does, or at the start, all lines of a path's journal behind that, as connection 1. Then what the sessions
/// changed that are open at the end is undone. So a base of the hub stands in front of the oldest of them.
///
/// This process has the newest segment. No file changes. The faults are those of `ask_journal` but for `Locked`, and `Sessions` where a session is open
/// before a line is asked. What the hub is behind a fault isn't said.
pub fn ask_front<P: JournalFiles, D: Sessions + Drop>(
    alloc: Global,
    files: &P,
    hub: &mut Hub<D>,
    path: &str,
    schema: &JournalSchema,
    position: Option<&Position>,
    newest: Newest<P::File>,
) -> Result<Front<P::File>, JournalFault>
    requires attached { hub.old.attached ≡ [] }
    requires locked { P.File.is_locked newest.file ≡ true }
    requires newest { P.is_newest files.now path.now newest.number }
    requires path { string_bytes newest.path ≡ segment_name path.now newest.number }
    ensures front { IfOk result (λ front. IsFront (λ file. P.File.is_locked file ≡ true) (P.is_seen files.now) (P.is_newest files.now path.now)
        P.File.contents path.now schema.now (option_map (λ p. p.now) position.entry) hub.old.held front hub.new.held) }
    ensures depth { OnOk result (depth hub.new.held.database ≡ 0) }
    ensures attached { OnOk result (hub.new.attached ≡ fresh replayer ∷ []) }
{
    check_bare(hub)?;
    attach_replayer(hub)?;
    let mut starts = OpenStarts::new(alloc, hub.database().revision());
    let noted = note_row(
        alloc,
        files,
        hub,
        &mut starts,
        path,
        schema,
        position,
        newest,
    )?;
    let lines = starts.settled_lines();
    let place = place_behind(&noted, lines)?;
    let count = starts.lines();
    undo_open(alloc, hub)?;
    Ok(Front {
        asked: noted.asked,
        place,
        left: count.saturating_sub(lines),
    })
}

/// Asks a hub that stands where a base does, or at the start, the lines behind that of all segments in front of this number, as connection 1. Then what
/// the sessions changed that are open there is undone. So a base of the hub stands in front of the oldest of them, in whichever segment that began. The
/// answer is its place; where no session is open it is where the segment of this number begins.
///
/// These segments are closed if the number is the newest one's. They never change then, so another process may have the newest, and go on. No file is
/// claimed, and none changes. The faults are those of `ask_front`; `Segment` also where the base stands behind that number. What the hub is behind a fault
/// isn't said.
pub fn ask_closed<P: JournalFiles, D: Sessions + Drop>(
    alloc: Global,
    files: &P,
    hub: &mut Hub<D>,
    path: &str,
    schema: &JournalSchema,
    position: Option<&Position>,
    newest: u64,
) -> Result<Place, JournalFault>
    requires { hub.old.attached ≡ [] }
    ensures front { IfOk result (λ place. IsClosedFront (P.is_seen files.now) P.File.contents path.now schema.now (option_map (λ p. p.now) position.entry) newest
        hub.old.held place hub.new.held) }
    ensures depth { OnOk result (depth hub.new.held.database ≡ 0) }
    ensures attached { OnOk result (hub.new.attached ≡ fresh replayer ∷ []) }
{
    check_bare(hub)?;
    attach_replayer(hub)?;
    let mut starts = OpenStarts::new(alloc, hub.database().revision());
    let row = note_closed(
        alloc,
        files,
        hub,
        &mut starts,
        path,
        schema,
        position,
        newest,
    )?;
    let place = row.place_behind(starts.settled_lines(), starts.lines())?;
    undo_open(alloc, hub)?;
    Ok(place)
}
