//! A journal in segments at a start: what was asked is gone on with. The newest segment alone changes.
ghost use Rattle.std.specs.Prelude.{◌≡◌, ◌∷◌, [], true, List, length, Some, option_map, IfOk, IfSome};
ghost use Rattle.std.specs.String.{string_bytes};
ghost use Rattle.std.specs.Io.KnownBytes.{Keeps};
ghost use Rattle.mi_log.specs.DeviceLog.{device_of, segment_of};
ghost use Rattle.mi_replay.specs.Replayed.{replayer};
ghost use Rattle.mi_durable.specs.Durable.{hub_of, log_of};
ghost use Rattle.mi_clients.specs.Clients.{fresh};
ghost use Rattle.mi_clients.specs.Steps.{Step, Makes, GivesNone};
ghost use Rattle.mi_recovery.specs.Device.{is_synced, is_staying, told_of};
ghost use Rattle.mi_recovery.specs.JournalFile.{text_of};
ghost use Rattle.mi_recovery.specs.Recovery.{IsFound, IsUndone, Has, kept_bytes};
ghost use Rattle.mi_recovery.specs.Segments.{GoesOn, IsOpenedBehind};

use crate::asking::{Asked, ask_journal};
use crate::device::{JournalDevice, Keeping};
use crate::fault::{JournalFailure, JournalFault};
use crate::journal_file::{JournalFile, JournalFiles};
use crate::opening::{JournalDurable, continued, named};
use crate::place::{JournalSchema, Position};
use mi_clients::disconnect;
use mi_durable::{Durable, HeldReplies, REPLAYER};
use mi_hub::Hub;
use mi_log::{DeviceLog, Log};
use mi_sessions::Sessions;
use std::alloc::Global;

/// A hub of which the replayer is the one connection goes on with its log: the replayer goes away, and the sessions that it holds are undone
/// by lines that are appended. All that is appended stays.
fn undone<D: Sessions + Drop, L: Log + Drop>(
    alloc: Global,
    hub: Hub<D>,
    log: L,
) -> Result<Durable<D, L>, JournalFailure>
    requires { hub.attached ≡ fresh replayer ∷ [] }
    ensures makes { IfOk result (λ durable. (steps : List Step) × GivesNone steps
        × Makes steps hub (hub_of durable) (L.appended log) (L.appended (log_of durable))) }
    ensures held { IfOk result (λ durable. IsUndone hub.held (hub_of durable).held) }
    ensures stay { IfOk result (λ durable. Keeps (L.appended (log_of durable)) (L.synced (log_of durable))) }
    ensures attached { IfOk result (λ durable. (hub_of durable).attached ≡ []) }
    ensures makes_stay { IfOk result (λ durable. L.makes_stay (log_of durable) ≡ L.makes_stay log) }
    ensures segment { IfOk result (λ durable. L.segment (log_of durable) ≡ L.segment log) }
{
    let mut durable = Durable::new(hub, log);
    disconnect(alloc, &mut durable, REPLAYER)?;
    durable.release(HeldReplies::new(alloc))?;
    Ok(durable)
}

/// The log of the newest segment, which goes on behind what was found there. Its name stays, where it is synced.
///
/// `File` where the file can't be cut, or has something behind the beginning of its header, and `Write` where it can't be appended to.
pub fn log_of_newest<P: JournalFiles>(
    files: &P,
    asked: Asked<P::File>,
    keeping: Keeping,
) -> Result<DeviceLog<JournalDevice<P::File>>, JournalFault>
    requires text { IfSome (P.File.contents asked.file) (λ bytes. asked.text ≡ length (text_of bytes)) }
    requires found { IfSome (P.File.contents asked.file) (λ bytes. IsFound (string_bytes asked.place.header) (text_of bytes) asked.found) }
    ensures has { IfOk result (λ log. IfSome (P.File.contents asked.file)
        (λ bytes. Has keeping (kept_bytes (string_bytes asked.place.header) (text_of bytes) asked.found) (told_of P.File.contents (device_of log)))) }
    ensures makes_stay { IfOk result (λ log. is_staying (device_of log) ≡ is_synced keeping) }
    ensures segment { IfOk result (λ log. segment_of log ≡ Some asked.place.number) }
{
    named(files, asked.path.as_str(), keeping)?;
    let Asked {
        place,
        file,
        text,
        found,
        ..
    } = asked;
    continued(
        file,
        text,
        keeping,
        found,
        place.number,
        place.header.as_bytes(),
    )
}

/// A hub that stands where a base does, or at the start, and that the lines of a path's journal behind that were asked of again. The journal
/// goes on with its newest segment, which is claimed first. In that a torn end is cut off, or what it lacks of its header is appended; the sessions
/// that were held at its end are undone, by lines that are appended. What it has stays, its name too. No other segment changes.
///
/// The faults are those of `ask_journal`, and `Write` where the newest segment can't be appended to or made to stay. The files are as they were then,
/// but that the newest may lack what stands behind its whole lines, or have its header.
pub fn opened_behind<P: JournalFiles, D: Sessions + Drop>(
    alloc: Global,
    files: &P,
    hub: Hub<D>,
    path: &str,
    keeping: Keeping,
    schema: &JournalSchema,
    position: Option<&Position>,
) -> Result<JournalDurable<P::File, D>, JournalFault>
    requires { hub.attached ≡ [] }
    ensures opened { IfOk result (λ durable. IsOpenedBehind (λ file. P.File.is_locked file ≡ true) (P.is_seen files.now) (P.is_newest files.now path.now)
        P.File.contents path.now schema.now (option_map (λ p. p.now) position.entry) keeping hub (hub_of durable)
        (told_of P.File.contents (device_of (log_of durable))) (segment_of (log_of durable))) }
    ensures attached { IfOk result (λ durable. (hub_of durable).attached ≡ []) }
    ensures settled { IfOk result (λ durable. Keeps (told_of P.File.contents (device_of (log_of durable))) (told_of P.File.stays (device_of (log_of durable)))) }
    ensures stays { IfOk result (λ durable. is_staying (device_of (log_of durable)) ≡ is_synced keeping) }
{
    let mut hub = hub;
    let asked = ask_journal(alloc, files, &mut hub, path, schema, position)?;
    let log = log_of_newest(files, asked, keeping)?;
    Ok(undone(alloc, hub, log)?)
}
