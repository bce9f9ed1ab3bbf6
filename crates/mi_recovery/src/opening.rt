//! A segment at a start: its header is read, a torn end of it is cut off, and it is gone on with, under a name that stays. It asks no line.
ghost use Rattle.std.specs.Prelude.{◌≡◌, ◌-◌, ◌++◌, ◌∷◌, [], true, false, take, length, None, Some, Ok, OnOk, IfOk, IfErr, IfSome};
ghost use Rattle.std.specs.Io.BufRead.{ends_with_byte};
ghost use Rattle.std.specs.Io.KnownBytes.{Keeps, Appends};
ghost use Rattle.mi_log.specs.LogLines.{reader_of};
ghost use Rattle.mi_log.specs.DeviceLog.{device_of, segment_of};
ghost use Rattle.mi_recovery.specs.JournalFile.{text_of};
ghost use Rattle.mi_durable.specs.Durable.{hub_of, log_of};
ghost use Rattle.mi_recovery.specs.Device.{is_synced, is_staying, told_of};
ghost use Rattle.mi_recovery.specs.Recovery.{HasHeader, IsBeginning, IsFound, Has, kept_bytes, ends_replay};

use crate::device::{JournalDevice, Keeping};
use crate::fault::{JournalFailure, JournalFault};
use crate::journal_file::{JournalFile, JournalFiles};
use mi_durable::Durable;
use mi_hub::Hub;
use mi_log::{Device, DeviceLog, Heading, Log, LogLines, judge_heading};
use mi_sessions::Sessions;
use std::io::{BufRead, Error};

/// A durable hub over a journal in a file, or over none.
pub type JournalDurable<F, D> = Durable<D, DeviceLog<JournalDevice<F>>>;

/// Makes the name of a journal's file stay, where what is appended to it is made to stay.
pub(crate) fn named<P: JournalFiles>(
    files: &P,
    path: &str,
    keeping: Keeping,
) -> Result<(), JournalFault> {
    match keeping {
        Keeping::Synced => match files.keep_name(path) {
            Ok(()) => Ok(()),
            Err(error) => Err(JournalFault::of(JournalFailure::Write, error)),
        },
        Keeping::Unsynced => Ok(()),
    }
}

/// What a journal's file has.
#[derive(Clone, Copy, Drop)]
pub enum Journaled {
    /// No journal yet, or the beginning of its header.
    Nothing,
    /// A journal, whose lines are asked, and then so many bytes of a torn line.
    Journal(u64),
}

/// Whether a first line, which has its newline, is the header, which it is to be.
fn check_heading(line: &[u8], header: &[u8]) -> Result<(), JournalFailure>
    requires { ends_with_byte 10 line.now ≡ true }
    ensures wanted { OnOk result (line.now ≡ header.now ++ 10 ∷ []) }
    ensures fails { IfErr result (λ failure. ends_replay failure ≡ true) }
{
    let Some((_newline, text)) = line.split_last() else {
        return Err(JournalFailure::Line(1));
    };
    match judge_heading(text, header) {
        Heading::Wanted => Ok(()),
        Heading::Another => Err(JournalFailure::Schema),
        Heading::Missing => Err(JournalFailure::Line(1)),
    }
}

/// Whether bytes are a beginning of the header, or nothing.
fn is_beginning(header: &[u8], bytes: &[u8]) -> bool
    ensures { result ≡ true → IsBeginning header.now bytes.now }
{
    if bytes.len() > header.len() {
        return false;
    }
    let (front, _) = header.split_at(bytes.len());
    front == bytes
}

/// Reads the first line, which is to be the header, and answers whether there is one: else there is no more than a beginning of it. `Schema` where it
/// is another journal's header, `Line` where it is none, `File` where it can't be read.
pub fn read_heading<R: BufRead>(
    lines: &mut LogLines<R>,
    header: &[u8],
) -> Result<bool, JournalFailure>
    ensures found { result ≡ Ok true → HasHeader header.now (R.remaining (reader_of lines.old)) (R.remaining (reader_of lines.new)) }
    ensures none { result ≡ Ok false → IfSome (R.remaining (reader_of lines.old)) (IsBeginning header.now) }
    ensures fails { IfErr result (λ failure. ends_replay failure ≡ true) }
{
    match lines.advance() {
        Ok(true) => match check_heading(lines.line(), header) {
            Ok(()) => Ok(true),
            Err(failure) => Err(failure),
        },
        Ok(false) => {
            if is_beginning(header, lines.line()) {
                Ok(false)
            } else {
                Err(JournalFailure::Line(1))
            }
        }
        Err(_error) => Err(JournalFailure::File),
    }
}

/// What a log's device has said, where it has failed.
pub fn log_error<D>(log: &DeviceLog<D>) -> Option<Error> {
    let error = log.error()?;
    let code = error.raw_os_error()?;
    Some(Error::from_raw_os_error(code))
}

/// Appends some bytes, or none.
fn append<D: Device>(log: &mut DeviceLog<D>, bytes: &[u8]) -> Result<(), JournalFault>
    ensures appended { OnOk result (Appends (D.contents (device_of log.old)) (D.contents (device_of log.new)) bytes.now) }
    ensures makes_stay { D.makes_stay (device_of log.new) ≡ D.makes_stay (device_of log.old) }
    ensures segment { segment_of log.new ≡ segment_of log.old }
{
    if bytes.is_empty() {
        return Ok(());
    }
    match log.append(bytes) {
        Ok(()) => Ok(()),
        Err(_fault) => Err(JournalFault {
            failure: JournalFailure::Write,
            error: log_error(log),
        }),
    }
}

/// How many bytes a file has.
pub(crate) fn size_of<F: JournalFile>(file: &F) -> Result<u64, JournalFault>
    ensures { IfOk result (λ size. IfSome (F.contents file.now) (λ bytes. size ≡ length bytes)) }
{
    match file.size() {
        Ok(size) => Ok(size),
        Err(error) => Err(JournalFault::of(JournalFailure::File, error)),
    }
}

/// The log of a segment of this number that begins: what its file lacks of the header is appended to it. Nothing is cut off the file.
///
/// `File` where the file is longer than the header, `Write` where it can't be appended to.
pub(crate) fn begun<F: JournalFile + Drop>(
    file: F,
    keeping: Keeping,
    number: u64,
    header: &[u8],
) -> Result<DeviceLog<JournalDevice<F>>, JournalFault>
    requires { IfSome (F.contents file) (IsBeginning header.now) }
    ensures has { IfOk result (λ log. IfSome (F.contents file) (λ _. Has keeping (header.now ++ 10 ∷ []) (told_of F.contents (device_of log)))) }
    ensures makes_stay { IfOk result (λ log. is_staying (device_of log) ≡ is_synced keeping) }
    ensures segment { IfOk result (λ log. segment_of log ≡ Some number) }
{
    let size = size_of(&file)?;
    if size > header.len() as u64 {
        return Err(JournalFault::from(JournalFailure::File));
    }
    let (_, missing) = header.split_at(size as usize);
    let mut log = DeviceLog::new(JournalDevice::new(Some(file), keeping), Some(number));
    append(&mut log, missing)?;
    append(&mut log, b"\n")?;
    Ok(log)
}

/// A file that has nothing behind its text, which has so many bytes. `File` where it has: it is as it was then.
fn check_end<F: JournalFile>(file: &F, text: u64) -> Result<(), JournalFault>
    ensures { OnOk result (IfSome (F.contents file.now) (λ bytes. text ≡ length bytes)) }
{
    if size_of(file)? == text {
        return Ok(());
    }
    Err(JournalFault::from(JournalFailure::File))
}

/// Cuts a file to the whole lines of its text, which has so many bytes, of which so many are torn.
fn cut_off<F: JournalFile>(file: &mut F, text: u64, torn: u64) -> Result<(), JournalFault>
    requires { IfSome (F.contents file.old) (λ bytes. text ≡ length (text_of bytes)) }
    ensures { OnOk result (IfSome (F.contents file.old) (λ bytes. F.contents file.new ≡ Some (take (text - torn) (text_of bytes)))) }
{
    match file.cut_to(text.saturating_sub(torn)) {
        Ok(()) => Ok(()),
        Err(error) => Err(JournalFault::of(JournalFailure::File, error)),
    }
}

/// The log of a segment of this number, which goes on behind what was found in its text, which has so many bytes.
pub(crate) fn continued<F: JournalFile + Drop>(
    file: F,
    text: u64,
    keeping: Keeping,
    found: Journaled,
    number: u64,
    header: &[u8],
) -> Result<DeviceLog<JournalDevice<F>>, JournalFault>
    requires text { IfSome (F.contents file) (λ bytes. text ≡ length (text_of bytes)) }
    requires found { IfSome (F.contents file) (λ bytes. IsFound header.now (text_of bytes) found) }
    ensures has { IfOk result (λ log. IfSome (F.contents file)
        (λ bytes. Has keeping (kept_bytes header.now (text_of bytes) found) (told_of F.contents (device_of log)))) }
    ensures makes_stay { IfOk result (λ log. is_staying (device_of log) ≡ is_synced keeping) }
    ensures segment { IfOk result (λ log. segment_of log ≡ Some number) }
{
    match found {
        Journaled::Nothing => {
            check_end(&file, text)?;
            begun(file, keeping, number, header)
        }
        Journaled::Journal(torn) => {
            let mut file = file;
            cut_off(&mut file, text, torn)?;
            Ok(DeviceLog::new(JournalDevice::new(Some(file), keeping), Some(number)))
        }
    }
}

/// A hub with no journal.
pub fn without<F: JournalFile + Drop, D: Sessions + Drop>(hub: Hub<D>) -> JournalDurable<F, D>
    ensures hub { hub_of result ≡ hub }
    ensures settled { Keeps (told_of F.contents (device_of (log_of result))) (told_of F.stays (device_of (log_of result))) }
    ensures stays { is_staying (device_of (log_of result)) ≡ false }
    ensures segment { segment_of (log_of result) ≡ None }
{
    Durable::new(
        hub,
        DeviceLog::new(JournalDevice::new(None, Keeping::Unsynced), None),
    )
}
