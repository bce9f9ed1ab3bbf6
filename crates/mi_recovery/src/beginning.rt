//! The segment behind the newest one of a journal: it is made with its header, which stays. It looks at no other file.
ghost use Rattle.std.specs.Prelude.{◌≡◌, ◌∷◌, ◌++◌, [], true, Some, OnOk, IfOk, IfSome};
ghost use Rattle.std.specs.String.{string_bytes};
ghost use Rattle.std.specs.Io.KnownBytes.{Keeps};
ghost use Rattle.mi_log.specs.DeviceLog.{device_of, segment_of};
ghost use Rattle.mi_recovery.specs.declared.device.Keeping.TheVariants as kept;
ghost use Rattle.mi_recovery.specs.Device.{told_of, is_staying, is_synced};
ghost use Rattle.mi_recovery.specs.Recovery.{Has};
ghost use Rattle.mi_recovery.specs.Segments.{IsBegunWith};

use crate::claim::lock;
use crate::device::{JournalDevice, Keeping};
use crate::fault::{JournalFailure, JournalFault};
use crate::journal_file::{JournalFile, JournalFiles};
use crate::names::segment_path;
use crate::opening::{begun, log_error, named, size_of};
use crate::place::Place;
use mi_log::{Device, DeviceLog, Log};
use std::alloc::Global;

/// A file that is made at a path, which this process alone has. `File` where one is there or it can't be made, `Locked` where another process was
/// quicker, and has it or has written to it.
fn made<P: JournalFiles>(files: &P, path: &str) -> Result<P::File, JournalFault>
    ensures locked { IfOk result (λ file. P.File.is_locked file ≡ true) }
    ensures empty { IfOk result (λ file. IfSome (P.File.contents file) (λ bytes. bytes ≡ [])) }
{
    let mut file = match files.make(path) {
        Ok(file) => file,
        Err(error) => return Err(JournalFault::of(JournalFailure::File, error)),
    };
    lock(&mut file)?;
    if size_of(&file)? > 0 {
        return Err(JournalFault::from(JournalFailure::Locked));
    }
    Ok(file)
}

/// Makes what was appended stay.
pub fn sync<D: Device>(log: &mut DeviceLog<D>) -> Result<(), JournalFault>
    ensures contents { Keeps (D.contents (device_of log.old)) (D.contents (device_of log.new)) }
    ensures stays { OnOk result (Keeps (D.contents (device_of log.new)) (D.stays (device_of log.new))) }
    ensures makes_stay { D.makes_stay (device_of log.new) ≡ D.makes_stay (device_of log.old) }
    ensures segment { segment_of log.new ≡ segment_of log.old }
{
    match log.sync() {
        Ok(()) => Ok(()),
        Err(_fault) => Err(JournalFault {
            failure: JournalFailure::Write,
            error: log_error(log),
        }),
    }
}

/// The log of a segment that is made at a path, with the header that a place has and no line. What it has stays, where it is synced.
pub(crate) fn begun_at<P: JournalFiles>(
    files: &P,
    path: &str,
    next: &Place,
    keeping: Keeping,
) -> Result<DeviceLog<JournalDevice<P::File>>, JournalFault>
    ensures has { IfOk result (λ log. IsBegunWith (λ file. P.File.is_locked file ≡ true) P.File.contents keeping (string_bytes next.now.header)
        (told_of P.File.contents (device_of log))) }
    ensures settled { IfOk result (λ log. Keeps (told_of P.File.contents (device_of log)) (told_of P.File.stays (device_of log))) }
    ensures stays { IfOk result (λ log. is_staying (device_of log) ≡ is_synced keeping) }
    ensures segment { IfOk result (λ log. segment_of log ≡ Some next.now.number) }
{
    let file = made(files, path)?;
    let mut log = begun(file, keeping, next.number, next.header.as_bytes())?;
    sync(&mut log)?;
    Ok(log)
}

/// Makes the segment that stands at a place, with its header and no line, and answers its log. This process alone has it; what it has stays, its
/// name too.
///
/// `File` where its file is there or can't be made, `Locked` where another process was quicker, `Write` where the header isn't written or doesn't
/// stay. A file with a beginning of the header may be left then: a start completes it.
pub fn next_segment<P: JournalFiles>(
    alloc: Global,
    files: &P,
    path: &str,
    next: &Place,
) -> Result<DeviceLog<JournalDevice<P::File>>, JournalFault>
    ensures has { IfOk result (λ log. (file : P.File) × (P.File.is_locked file ≡ true) × IfSome (P.File.contents file)
        (λ _. Has kept.Synced (string_bytes next.now.header ++ 10 ∷ []) (told_of P.File.contents (device_of log)))) }
    ensures settled { IfOk result (λ log. Keeps (told_of P.File.contents (device_of log)) (told_of P.File.stays (device_of log))) }
    ensures stays { IfOk result (λ log. is_staying (device_of log) ≡ true) }
    ensures segment { IfOk result (λ log. segment_of log ≡ Some next.now.number) }
{
    let Ok(name) = segment_path(alloc, path, next.number) else {
        return Err(JournalFault::from(JournalFailure::Memory));
    };
    let log = begun_at(files, name.as_str(), next, Keeping::Synced)?;
    named(files, name.as_str(), Keeping::Synced)?;
    Ok(log)
}
