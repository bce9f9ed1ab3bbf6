//! A journal goes on in its next segment while it is served, once the newest one is long enough. The next one is made apart, and takes its name when the
//! one before is closed: so whoever looks finds the newest segment locked, and with its header. It asks no line.
ghost use Rattle.std.specs.Prelude.{◌≡◌, ◌≤◌, ◌+◌, ◌⊎◌, length, true, Some, Err, IfOk, IfSome, OnOk, OnErr};
ghost use Rattle.std.specs.String.{string_bytes};
ghost use Rattle.std.specs.Io.KnownBytes.{Keeps};
ghost use Rattle.mi_log.specs.DeviceLog.{device_of, segment_of, is_broken};
ghost use Rattle.mi_durable.specs.Durable.{hub_of, log_of, IsSettled};
ghost use Rattle.mi_recovery.specs.declared.place.Place.{Place};
ghost use Rattle.mi_recovery.specs.Device.{told_of};
ghost use Rattle.mi_recovery.specs.JournalFile.{text_of};
ghost use Rattle.mi_recovery.specs.Segments.{IsBegunWith, IsNext, IsRolled, hash_of, segment_header_of};

use crate::beginning::begun_at;
use crate::device::{JournalDevice, Keeping};
use crate::fault::{JournalFailure, JournalFault};
use crate::journal_file::{JournalFile, JournalFiles};
use crate::journal_text::text_size;
use crate::names::{next_path, segment_path};
use crate::opening::{JournalDurable, named, size_of};
use crate::place::{JournalSchema, Place};
use crate::segments::next_place;
use mi_durable::{CHANGE_ROOM, DurableFault};
use mi_log::{Device, DeviceLog, Log};
use mi_sessions::Sessions;
use std::alloc::Global;
use std::io::{Error, ErrorKind};

/// When a journal goes on in its next segment, and where its files are.
#[derive(Drop)]
pub struct Rolling<'a> {
    /// The path of its first segment.
    pub path: &'a str,
    /// What each header tells of its schema.
    pub schema: &'a JournalSchema,
    /// Whether what is appended is made to stay.
    pub keeping: Keeping,
    /// How many bytes of text a segment has at least before the next one is begun.
    pub most: u64,
}

/// The number of the segment that a log appends to, where that has so many bytes of text, and as many as it waits for.
fn due_number<L: Log>(log: &L, most: u64, wait: u64) -> Option<u64>
    ensures { IfSome result (λ number. (L.segment log.now ≡ Some number) × IfSome (L.appended log.now) (λ bytes. most ≤ length bytes)) }
{
    let state = log.state();
    let bytes = state.bytes?;
    if bytes < most || bytes < wait {
        return None;
    }
    state.segment
}

/// How many bytes the segment of a log is to have before the next one is tried again: so many more.
fn put_off<L: Log>(log: &L, most: u64) -> u64 {
    match log.state().bytes {
        Some(bytes) => bytes.saturating_add(most),
        None => 0,
    }
}

/// The place behind a segment with this number, to whose file this log appends.
pub fn place_behind<F: JournalFile + Drop>(
    alloc: Global,
    schema: &JournalSchema,
    number: u64,
    log: &DeviceLog<JournalDevice<F>>,
) -> Result<Place, JournalFault>
    ensures number { IfOk result (λ next. next.number ≡ number + 1) }
    ensures next { IfOk result (λ next. IfSome (told_of F.contents (device_of log.now))
        (λ bytes. (place : Place) → place.number ≡ number → IsNext schema.now place (text_of bytes) next)) }
{
    let Some(file) = log.device().file() else {
        return Err(JournalFault::from(JournalFailure::File));
    };
    let text = text_size(file)?;
    next_place(alloc, schema, number, file, text)
}

/// Makes room for a change and for undoing behind it. `Write` where the disk hasn't that.
fn make_roomy<D: Device>(log: &mut DeviceLog<D>) -> Result<(), JournalFault>
    ensures contents { D.contents (device_of log.new) ≡ D.contents (device_of log.old) }
    ensures segment { segment_of log.new ≡ segment_of log.old }
{
    if log.make_room(CHANGE_ROOM) {
        return Ok(());
    }
    Err(JournalFault::of(JournalFailure::Write, Error::from(ErrorKind::StorageFull)))
}

/// The log of a segment that is made at a path, with the header that a place has, room, and no line.
fn begun_apart<P: JournalFiles>(
    files: &P,
    path: &str,
    next: &Place,
    keeping: Keeping,
) -> Result<DeviceLog<JournalDevice<P::File>>, JournalFault>
    ensures begins { IfOk result (λ log. IsBegunWith (λ file. P.File.is_locked file ≡ true) P.File.contents keeping (string_bytes next.now.header)
        (told_of P.File.contents (device_of log))) }
    ensures segment { IfOk result (λ log. segment_of log ≡ Some next.now.number) }
{
    let mut log = begun_at(files, path, next, keeping)?;
    make_roomy(&mut log)?;
    Ok(log)
}

/// The log of the segment behind one of this number, to which a log appends. It is made under the path of one that isn't begun yet; where that fails nothing
/// is left there.
fn next_log<P: JournalFiles>(
    alloc: Global,
    files: &P,
    rolling: &Rolling<'_>,
    number: u64,
    log: &DeviceLog<JournalDevice<P::File>>,
) -> Result<DeviceLog<JournalDevice<P::File>>, JournalFault>
    ensures begins { IfOk result (λ next. (place : Place) × IfSome (told_of P.File.contents (device_of log.now)) (λ bytes. string_bytes place.header
        ≡ segment_header_of (hash_of (text_of bytes)) rolling.now.schema.now.revision (string_bytes rolling.now.schema.now.hash) (number + 1))
        × IsBegunWith (λ file. P.File.is_locked file ≡ true) P.File.contents rolling.now.keeping (string_bytes place.header)
        (told_of P.File.contents (device_of next))) }
    ensures segment { IfOk result (λ next. segment_of next ≡ Some (number + 1)) }
{
    let Ok(path) = next_path(alloc, rolling.path) else {
        return Err(JournalFault::from(JournalFailure::Memory));
    };
    let place = place_behind(alloc, rolling.schema, number, log)?;
    let _ = files.remove(path.as_str());
    let begun = begun_apart(files, path.as_str(), &place, rolling.keeping);
    if begun.is_err() {
        let _ = files.remove(path.as_str());
    }
    begun
}

/// A segment's file that is gone on from: room behind its text is cut off, and what it has stays.
fn closed<F: JournalFile + Drop>(file: F) -> Result<F, JournalFault>
    ensures contents { IfOk result (λ after. IfSome (F.contents file) (λ bytes. F.contents after ≡ Some bytes)) }
    ensures stays { IfOk result (λ after. Keeps (F.contents after) (F.stays after)) }
{
    let mut file = file;
    let size = size_of(&file)?;
    if let Err(error) = file.cut_to(size) {
        return Err(JournalFault::of(JournalFailure::Write, error));
    }
    match file.sync_data() {
        Ok(()) => Ok(file),
        Err(error) => Err(JournalFault::of(JournalFailure::Write, error)),
    }
}

/// The segment that was made apart takes the name of one of this number, which stays where it is synced.
fn put_in_place<P: JournalFiles>(
    alloc: Global,
    files: &P,
    rolling: &Rolling<'_>,
    number: u64,
) -> Result<(), JournalFault> {
    let (Ok(from), Ok(to)) = (
        next_path(alloc, rolling.path),
        segment_path(alloc, rolling.path, number),
    ) else {
        return Err(JournalFault::from(JournalFailure::Memory));
    };
    if let Err(error) = files.rename(from.as_str(), to.as_str()) {
        return Err(JournalFault::of(JournalFailure::Write, error));
    }
    named(files, to.as_str(), rolling.keeping)
}

/// The segment of this number, to which a log appends, is closed, and then the next one takes its name. The file is locked until both is done.
fn hand_over<P: JournalFiles>(
    alloc: Global,
    files: &P,
    rolling: &Rolling<'_>,
    number: u64,
    log: DeviceLog<JournalDevice<P::File>>,
) -> Result<(), JournalFault> {
    let Some(file) = log.into_device().into_file() else {
        return Err(JournalFault::from(JournalFailure::File));
    };
    let _closed = closed(file)?;
    put_in_place(alloc, files, rolling, number.saturating_add(1))
}

/// What is said of a fault in a log.
fn error_of(fault: JournalFault) -> Error {
    match fault.error {
        Some(error) => error,
        None => Error::from(ErrorKind::Other),
    }
}

/// A journal can't go on: its log isn't used again.
fn fail<F: JournalFile + Drop, D: Sessions + Drop>(
    durable: &mut JournalDurable<F, D>,
    fault: JournalFault,
) -> DurableFault
    ensures is { result ≡ DurableFault.Journal }
    ensures hub { hub_of durable.new ≡ hub_of durable.old }
    ensures failed { is_broken (log_of durable.new) ≡ true }
    ensures settled { IsSettled (λ l. told_of F.contents (device_of l)) (λ l. told_of F.stays (device_of l)) durable.new }
{
    let device = JournalDevice::new(None, Keeping::Unsynced);
    let _closed = durable.renew_log(DeviceLog::failed(device, error_of(fault)));
    DurableFault::Journal
}

/// Whether a journal goes on in the segment that it has, where the next one isn't made for this: the disk is full, the folder is gone or takes no file,
/// or memory was refused. Nothing of the journal is lost then.
fn may_wait(fault: &JournalFault) -> bool {
    match &fault.error {
        Some(error) => matches!(
            error.kind(),
            ErrorKind::StorageFull
                | ErrorKind::QuotaExceeded
                | ErrorKind::NotFound
                | ErrorKind::PermissionDenied
        ),
        None => matches!(fault.failure, JournalFailure::Memory),
    }
}

/// A hub goes on in the next segment's log: the one before is closed.
fn go_on<P: JournalFiles, D: Sessions + Drop>(
    alloc: Global,
    files: &P,
    rolling: &Rolling<'_>,
    number: u64,
    next: DeviceLog<JournalDevice<P::File>>,
    durable: &mut JournalDurable<P::File, D>,
) -> Result<(), DurableFault>
    ensures hub { hub_of durable.new ≡ hub_of durable.old }
    ensures log { OnOk result (log_of durable.new ≡ next) }
    ensures journal { OnErr result (result ≡ Err DurableFault.Journal) }
    ensures failed { OnErr result (is_broken (log_of durable.new) ≡ true) }
    ensures settled { IsSettled (λ l. told_of P.File.contents (device_of l)) (λ l. told_of P.File.stays (device_of l)) durable.new }
{
    let before = durable.renew_log(next);
    match hand_over(alloc, files, rolling, number, before) {
        Ok(()) => Ok(()),
        Err(fault) => Err(fail(durable, fault)),
    }
}

/// Goes on in the next segment, where the newest has as many bytes of text as `rolling` wants. What the newest has stays then, room behind it is cut
/// off, and the next has its header, room for a change, and its name. Else nothing changes; nor does it where the disk is full or the folder takes no
/// file, and then `wait` is how many bytes the newest is to have before that is tried again.
///
/// `Journal` where a file can't be locked, written, cut, made to stay or renamed: the log isn't used again. A start behind that asks the same lines. No
/// clause says under which path the next segment stands.
pub fn roll<P: JournalFiles, D: Sessions + Drop>(
    alloc: Global,
    files: &P,
    rolling: &Rolling<'_>,
    wait: &mut u64,
    durable: &mut JournalDurable<P::File, D>,
) -> Result<(), DurableFault>
    ensures hub { hub_of durable.new ≡ hub_of durable.old }
    ensures rolled { OnOk result ((durable.new ≡ durable.old) ⊎ IsRolled (λ file. P.File.is_locked file ≡ true) P.File.contents rolling.now.schema.now
        rolling.now.keeping rolling.now.most (segment_of (log_of durable.old)) (told_of P.File.contents (device_of (log_of durable.old)))
        (segment_of (log_of durable.new)) (told_of P.File.contents (device_of (log_of durable.new)))) }
    ensures journal { OnErr result (result ≡ Err DurableFault.Journal) }
    ensures failed { OnErr result (is_broken (log_of durable.new) ≡ true) }
    ensures settled { IsSettled (λ l. told_of P.File.contents (device_of l)) (λ l. told_of P.File.stays (device_of l)) durable.old
        → IsSettled (λ l. told_of P.File.contents (device_of l)) (λ l. told_of P.File.stays (device_of l)) durable.new }
{
    let Some(number) = due_number(durable.log(), rolling.most, *wait) else {
        return Ok(());
    };
    match next_log(alloc, files, rolling, number, durable.log()) {
        Ok(next) => {
            *wait = 0;
            go_on(alloc, files, rolling, number, next, durable)
        }
        Err(fault) => {
            if may_wait(&fault) {
                *wait = put_off(durable.log(), rolling.most);
                return Ok(());
            }
            Err(fail(durable, fault))
        }
    }
}
