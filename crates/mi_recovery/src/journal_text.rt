//! The text of a journal's file: what stands in front of the first zero byte. It looks at no line.
ghost use Rattle.std.specs.Prelude.{◌≡◌, ◌+◌, length, IfOk, IfSome};
ghost use Rattle.mi_recovery.specs.JournalFile.{text_of};

use crate::fault::{JournalFailure, JournalFault};
use crate::journal_file::JournalFile;
use memchr::memchr;
use std::io::{Error, ErrorKind};

/// Bytes of one read.
const PIECE: usize = 16_384;

/// The place so many bytes behind another.
fn place_behind(at: u64, count: usize) -> Result<u64, JournalFault>
    ensures { IfOk result (λ place. place ≡ at + count) }
{
    match at.checked_add(count as u64) {
        Some(place) => Ok(place),
        None => Err(JournalFault::of(JournalFailure::File, Error::from(ErrorKind::FileTooLarge))),
    }
}

/// How many bytes the text of a file has. Behind it stands room, or a page that a stop of the machine lost.
///
/// `File` where the file can't be read.
pub fn text_size<F: JournalFile>(file: &F) -> Result<u64, JournalFault>
    ensures { IfOk result (λ size. IfSome (F.contents file.now) (λ bytes. size ≡ length (text_of bytes))) }
{
    let mut buffer = [0u8; PIECE];
    let mut at = 0u64;
    'pieces: for _piece in 0..u64::MAX {
        let count = match file.read_at(&mut buffer, at) {
            Ok(count) => count,
            Err(error) => return Err(JournalFault::of(JournalFailure::File, error)),
        };
        let (piece, _) = buffer.split_at(count);
        if let Some(zero) = memchr(0, piece) {
            return place_behind(at, zero);
        }
        if count == 0 {
            return Ok(at);
        }
        at = place_behind(at, count)?;
    }
    Err(JournalFault::from(JournalFailure::Turns))
}
