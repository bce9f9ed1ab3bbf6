//! A journal that is asked to its end, where no session is open. It changes no file but by claiming the newest segment.
ghost use Rattle.std.specs.Prelude.{◌≡◌, ◌<◌, ◌∷◌, [], true, option_map, OnOk, IfOk};
ghost use Rattle.mi_model.specs.Database.{depth};
ghost use Rattle.mi_replay.specs.Replayed.{replayer};
ghost use Rattle.mi_clients.specs.Clients.{fresh};
ghost use Rattle.mi_recovery.specs.Segments.{IsAskedBehind};
ghost use Rattle.mi_rebase.specs.Rebase.{HasSegment};

use mi_hub::Hub;
use mi_recovery::{
    Asked, JournalFailure, JournalFault, JournalFile, JournalFiles, JournalSchema, Position,
    ask_journal,
};
use mi_sessions::Sessions;
use std::alloc::Global;
use std::io::{Error, ErrorKind};

/// What is said where no segment is there: which one the base names, or that no journal is there.
fn lacking(position: Option<&Position>) -> JournalFault {
    match position {
        Some(position) => JournalFault::from(JournalFailure::Segment(position.segment)),
        None => JournalFault::of(
            JournalFailure::File,
            Error::new(ErrorKind::NotFound, "no journal is there"),
        ),
    }
}

/// The number of the newest segment of a journal that is there. Where none is, `Segment` where a base names one, else `File`; and `File` where the folder can't be read.
pub(crate) fn check_there<P: JournalFiles>(
    files: &P,
    path: &str,
    position: Option<&Position>,
) -> Result<u64, JournalFault>
    ensures newest { IfOk result (λ number. P.is_newest files.now path.now number) }
    ensures there { IfOk result (λ number. 0 < number) }
{
    match files.newest(path) {
        Ok(0) => Err(lacking(position)),
        Ok(number) => Ok(number),
        Err(error) => Err(JournalFault::of(JournalFailure::File, error)),
    }
}

/// No session is open. `Sessions` where one is.
fn check_settled<D: Sessions + Drop>(hub: &Hub<D>) -> Result<(), JournalFailure>
    ensures { OnOk result (depth hub.now.held.database ≡ 0) }
{
    if hub.database().depth() == 0 {
        return Ok(());
    }
    Err(JournalFailure::Sessions)
}

/// Asks a hub, which stands where a base does or at the start, all lines of a path's journal behind that. A segment of it is there, and no session is
/// open at its end. This process alone has the newest segment while it keeps the answer.
///
/// Where no segment is there it is refused by `File`, or by `Segment` where a base names one. The other faults are those of `ask_journal`, and
/// `Sessions` where sessions are open at the end. No file changes. What the hub is behind a fault isn't said.
pub fn settled<P: JournalFiles, D: Sessions + Drop>(
    alloc: Global,
    files: &P,
    hub: &mut Hub<D>,
    path: &str,
    schema: &JournalSchema,
    position: Option<&Position>,
) -> Result<Asked<P::File>, JournalFault>
    requires { hub.old.attached ≡ [] }
    ensures there { OnOk result (HasSegment (P.is_newest files.now path.now)) }
    ensures asked { IfOk result (λ asked. IsAskedBehind (λ file. P.File.is_locked file ≡ true) (P.is_seen files.now) (P.is_newest files.now path.now)
        P.File.contents path.now schema.now (option_map (λ p. p.now) position.entry) hub.old.held asked hub.new.held) }
    ensures depth { OnOk result (depth hub.new.held.database ≡ 0) }
    ensures attached { OnOk result (hub.new.attached ≡ fresh replayer ∷ []) }
{
    check_there(files, path, position)?;
    let asked = ask_journal(alloc, files, hub, path, schema, position)?;
    check_settled(hub)?;
    Ok(asked)
}
