//! The newest segment of a journal, closed: a torn end of it is cut off, and what it has stays. No other file changes.
ghost use Rattle.std.specs.Prelude.{◌≡◌, length, IfOk, IfSome};
ghost use Rattle.std.specs.String.{string_bytes};
ghost use Rattle.mi_log.specs.DeviceLog.{device_of};
ghost use Rattle.mi_recovery.specs.declared.device.Keeping.TheVariants.{Synced};
ghost use Rattle.mi_recovery.specs.Device.{told_of};
ghost use Rattle.mi_recovery.specs.JournalFile.{text_of};
ghost use Rattle.mi_recovery.specs.Recovery.{IsFound, Has, kept_bytes};

use mi_log::DeviceLog;
use mi_recovery::{Asked, JournalDevice, JournalFault, JournalFiles, Keeping, log_of_newest, sync};

/// The log of the newest segment, which has whole lines alone. What it has stays.
///
/// `File` where it can't be cut, `Write` where it can't be appended to or made to stay.
pub(crate) fn closed<P: JournalFiles>(
    files: &P,
    asked: Asked<P::File>,
) -> Result<DeviceLog<JournalDevice<P::File>>, JournalFault>
    requires text { IfSome (P.File.contents asked.file) (λ bytes. asked.text ≡ length (text_of bytes)) }
    requires found { IfSome (P.File.contents asked.file) (λ bytes. IsFound (string_bytes asked.place.header) (text_of bytes) asked.found) }
    ensures { IfOk result (λ log. IfSome (P.File.contents asked.file)
        (λ bytes. Has Synced (kept_bytes (string_bytes asked.place.header) (text_of bytes) asked.found) (told_of P.File.contents (device_of log)))) }
{
    let mut log = log_of_newest(files, asked, Keeping::Synced)?;
    sync(&mut log)?;
    Ok(log)
}
