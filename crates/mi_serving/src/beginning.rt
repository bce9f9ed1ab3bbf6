//! How a service begins with its journal: the base is read, and the lines behind it are asked. Where a rebase takes a segment away meanwhile, it begins
//! anew with the base that has it. The newest segment alone changes.
ghost use Rattle.std.specs.Prelude.{◌≡◌, [], None, true, false, option_map, IfOk, MatchOption};
ghost use Rattle.std.specs.Io.KnownBytes.{Keeps};
ghost use Rattle.mi_log.specs.DeviceLog.{device_of, segment_of};
ghost use Rattle.mi_durable.specs.Durable.{hub_of, log_of};
ghost use Rattle.mi_recovery.specs.Device.{is_staying, is_synced, told_of};
ghost use Rattle.mi_serving.specs.Words as spec;
ghost use Rattle.mi_serving.specs.Served.{Begins, HasBegun};

use crate::failure::{Failure, Fault};
use crate::start::{Tables, read_base, standing};
use crate::words::{JournalWords, SyncMode};
use mi_catalog::Catalog;
use mi_hub::Hub;
use mi_recovery::{
    JournalDurable, JournalFile, JournalFiles, JournalSchema, Keeping, Position, opened_behind,
    without,
};
use mi_sessions::Sessions;
use std::alloc::{AllocGlobal, Global};
use std::random::RandomSource;

/// Times that a journal is read again, at most, while rebases take segments away.
pub(crate) const MOST_TRIES: usize = 16;

/// What is done of a sync that is asked for.
pub(crate) fn keeping_by(sync: SyncMode) -> Keeping
    ensures { result ≡ spec.keeping_by sync }
{
    match sync {
        SyncMode::Always | SyncMode::Turn => Keeping::Synced,
        SyncMode::Never => Keeping::Unsynced,
    }
}

/// A hub that goes on with the journal that the words name, where they name one. It stands behind that position, or at the journal's start.
fn durable_of<P: JournalFiles, D: Sessions + Drop>(
    alloc: Global,
    files: &P,
    hub: Hub<D>,
    schema: &JournalSchema,
    position: Option<&Position>,
    journal: Option<&JournalWords>,
) -> Result<JournalDurable<P::File, D>, Fault>
    requires { hub.attached ≡ [] }
    ensures begins { IfOk result (λ durable. Begins (λ file. P.File.is_locked file ≡ true) (P.is_seen files.now) (P.is_newest files.now) P.File.contents
        schema.now (option_map (λ p. p.now) position.entry) hub (option_map (λ words. words.now) journal.entry) (hub_of durable)
        (told_of P.File.contents (device_of (log_of durable))) (segment_of (log_of durable))) }
    ensures attached { IfOk result (λ durable. (hub_of durable).attached ≡ []) }
    ensures settled { IfOk result (λ durable. Keeps (told_of P.File.contents (device_of (log_of durable))) (told_of P.File.stays (device_of (log_of durable)))) }
    ensures stays { IfOk result (λ durable. MatchOption journal.entry (is_staying (device_of (log_of durable)) ≡ false)
        (λ words. is_staying (device_of (log_of durable)) ≡ is_synced (spec.keeping_by words.now.sync))) }
{
    match journal {
        Some(words) => Ok(opened_behind(
            alloc,
            files,
            hub,
            words.file.as_str(),
            keeping_by(words.sync),
            schema,
            position,
        )?),
        None => Ok(without(hub)),
    }
}

/// An equal catalog. The failure is `Memory`.
pub(crate) fn copied(alloc: Global, catalog: &Catalog) -> Result<Catalog, Failure>
    ensures { IfOk result (λ copied. copied ≡ catalog.now) }
{
    match catalog.copy(alloc) {
        Ok(copied) => Ok(copied),
        Err(_refused) => Err(Failure::Memory),
    }
}

/// Whether it failed since a segment isn't there that the base has by now: a rebase has taken it away.
pub(crate) fn is_overtaken<P: JournalFiles>(
    alloc: Global,
    files: &P,
    journal: Option<&JournalWords>,
    catalog: &Catalog,
    schema: &JournalSchema,
    fault: &Fault,
) -> bool {
    let Failure::JournalSegment(segment) = fault.failure else {
        return false;
    };
    match read_base(alloc, files, journal, catalog, schema) {
        Ok(Some(base)) => base.heading.segment > segment,
        Ok(None) | Err(_) => false,
    }
}

/// The tables of a catalog with what the journal has that the words name, read once.
fn begun_once<R: AllocGlobal + RandomSource, P: JournalFiles>(
    rt: &R,
    files: &P,
    journal: Option<&JournalWords>,
    catalog: &Catalog,
    schema: &JournalSchema,
) -> Result<JournalDurable<P::File, Tables>, Fault>
    ensures begins { IfOk result (λ durable. HasBegun (λ file. P.File.is_locked file ≡ true) (P.is_seen files.now) (P.is_newest files.now) P.File.contents
        catalog.now schema.now (option_map (λ words. words.now) journal.entry) (hub_of durable) (told_of P.File.contents (device_of (log_of durable)))
        (segment_of (log_of durable))) }
    ensures attached { IfOk result (λ durable. (hub_of durable).attached ≡ []) }
    ensures settled { IfOk result (λ durable. Keeps (told_of P.File.contents (device_of (log_of durable))) (told_of P.File.stays (device_of (log_of durable)))) }
{
    let alloc = rt.alloc();
    let (hub, position) = standing(rt, files, journal, copied(alloc, catalog)?, schema)?;
    durable_of(alloc, files, hub, schema, position.as_ref(), journal)
}

/// The tables of a catalog with what the journal has that the words name, if they name one. The journal is opened, and goes on.
///
/// Where a segment is taken away before it was asked, and a base has it, all is read again, up to 16 times. The failures are those of a start:
///
/// | Failure | When |
/// |---|---|
/// | `JournalBase` | the base is torn, or one of another schema or journal |
/// | `JournalSchema`, `JournalLine`, `JournalSegment`, `JournalSegmentLine` | a segment isn't there, is one of another schema or journal, or has a damaged line |
/// | `JournalLocked` | another process has the newest segment |
/// | `JournalFile`, `Journal` | a file can't be read, or the newest segment can't be written |
/// | `Memory` | memory was refused |
///
/// No clause says that all is read again.
pub(crate) fn begun<R: AllocGlobal + RandomSource, P: JournalFiles>(
    rt: &R,
    files: &P,
    journal: Option<&JournalWords>,
    catalog: &Catalog,
    schema: &JournalSchema,
) -> Result<JournalDurable<P::File, Tables>, Fault>
    ensures begins { IfOk result (λ durable. HasBegun (λ file. P.File.is_locked file ≡ true) (P.is_seen files.now) (P.is_newest files.now) P.File.contents
        catalog.now schema.now (option_map (λ words. words.now) journal.entry) (hub_of durable) (told_of P.File.contents (device_of (log_of durable)))
        (segment_of (log_of durable))) }
    ensures attached { IfOk result (λ durable. (hub_of durable).attached ≡ []) }
    ensures settled { IfOk result (λ durable. Keeps (told_of P.File.contents (device_of (log_of durable))) (told_of P.File.stays (device_of (log_of durable)))) }
{
    for _try in 1..MOST_TRIES {
        match begun_once(rt, files, journal, catalog, schema) {
            Ok(durable) => return Ok(durable),
            Err(fault) => {
                if !is_overtaken(rt.alloc(), files, journal, catalog, schema, &fault) {
                    return Err(fault);
                }
            }
        }
    }
    begun_once(rt, files, journal, catalog, schema)
}
