//! The claim on a journal's file: it is opened, locked for this process alone, and seen under its path. It reads no journal.
ghost use Rattle.std.specs.Prelude.{◌≡◌, true, IfOk, OnOk};
ghost use Rattle.std.specs.Io.KnownBytes.{Keeps};

use crate::fault::{JournalFailure, JournalFault};
use crate::journal_file::{JournalFile, JournalFiles};
use std::fs::TryLockError;
use std::io::{Error, ErrorKind};

/// Times that a path is opened again, at most, while other files take its place.
const MOST_TRIES: usize = 16;

/// Locks a file for this process alone. `Locked` where another has it, `File` where it can't be locked.
pub(crate) fn lock<F: JournalFile>(file: &mut F) -> Result<(), JournalFault>
    ensures locked { OnOk result (F.is_locked file.new ≡ true) }
    ensures contents { Keeps (F.contents file.old) (F.contents file.new) }
{
    match file.try_lock() {
        Ok(()) => Ok(()),
        Err(TryLockError::WouldBlock) => Err(JournalFault::from(JournalFailure::Locked)),
        Err(TryLockError::Error(error)) => Err(JournalFault::of(JournalFailure::File, error)),
    }
}

/// Whether a path names a file now.
fn is_named<P: JournalFiles>(files: &P, path: &str, file: &P::File) -> Result<bool, JournalFault>
    ensures { IfOk result (λ named. named ≡ true → P.is_seen files.now path.now file.now) }
{
    match files.names(path, file) {
        Ok(named) => Ok(named),
        Err(error) => Err(JournalFault::of(JournalFailure::File, error)),
    }
}

/// Opens a path's file, which may be made where none is there. `Locked` where it may not: it was moved since it was seen.
fn opened_file<P: JournalFiles>(
    files: &P,
    path: &str,
    may_make: bool,
) -> Result<P::File, JournalFault> {
    let opened = if may_make {
        match files.open(path) {
            Ok(file) => Ok(Some(file)),
            Err(error) => Err(error),
        }
    } else {
        files.open_there(path)
    };
    match opened {
        Ok(Some(file)) => Ok(file),
        Ok(None) => Err(JournalFault::from(JournalFailure::Locked)),
        Err(error) => Err(JournalFault::of(JournalFailure::File, error)),
    }
}

/// The file of a journal, which this process alone has; it may be made where none is there. `Locked` where another process has it.
///
/// Who makes a journal shorter puts another file in its place, and has the old one locked until then. Where that was done between the open
/// and the lock, the file that was opened has no name any more, and the path is opened again.
pub fn claimed<P: JournalFiles>(
    files: &P,
    path: &str,
    may_make: bool,
) -> Result<P::File, JournalFault>
    ensures locked { IfOk result (λ file. P.File.is_locked file ≡ true) }
    ensures seen { IfOk result (λ file. P.is_seen files.now path.now file) }
{
    for _try in 0..MOST_TRIES {
        let mut file = opened_file(files, path, may_make)?;
        lock(&mut file)?;
        if is_named(files, path, &file)? {
            return Ok(file);
        }
    }
    Err(JournalFault::from(JournalFailure::Locked))
}

/// Whether a path names the claimed file still, now that it was read. `File` where it doesn't: whoever moved it has the journal,
/// which is left as it is.
pub fn check_name<P: JournalFiles>(
    files: &P,
    path: &str,
    file: &P::File,
) -> Result<(), JournalFault>
    ensures { OnOk result (P.is_seen files.now path.now file.now) }
{
    if is_named(files, path, file)? {
        return Ok(());
    }
    Err(JournalFault::of(
        JournalFailure::File,
        Error::new(ErrorKind::NotFound, "it was moved while it was read"),
    ))
}
