//! The SHA-256 of a file's text. It looks at no line.
ghost use Rattle.std.specs.Prelude.{◌≡◌, ◌≤◌, ◌<◌, take, drop, length, IfOk, IfSome};
ghost use Rattle.std.specs.String.{string_bytes};
ghost use Rattle.sha2.specs.Sha256.{sha256};
ghost use Rattle.mi_recovery.specs.JournalFile.{text_of};
ghost use Rattle.mi_recovery.specs.Segments.{hash_of};

use crate::fault::{JournalFailure, JournalFault};
use crate::journal_file::JournalFile;
use sha2::{Digest, Sha256};
use std::alloc::Global;

/// Bytes of one read.
const PIECE: usize = 16_384;

/// Reads from the byte `at` on, a byte at least and so many at most. `File` where the file can't be read, or has no byte there.
fn read_piece<F: JournalFile>(
    file: &F,
    buffer: &mut [u8],
    at: u64,
    most: u64,
) -> Result<usize, JournalFault>
    ensures bound { IfOk result (λ count. (0 < count) × (count ≤ length buffer.new) × (count ≤ most)) }
    ensures bytes { IfOk result (λ count. IfSome (F.contents file.now) (λ bytes. take count (drop at bytes) ≡ take count buffer.new)) }
{
    let count = match file.read_at(buffer, at) {
        Ok(count) => count,
        Err(error) => return Err(JournalFault::of(JournalFailure::File, error)),
    };
    let wanted = (count as u64).min(most) as usize;
    if wanted == 0 {
        return Err(JournalFault::from(JournalFailure::File));
    }
    Ok(wanted)
}

/// The SHA-256 of a file's first bytes, of which there are so many.
fn digest_of<F: JournalFile>(file: &F, size: u64) -> Result<[u8; 32], JournalFault>
    ensures { IfOk result (λ digest. IfSome (F.contents file.now) (λ bytes. digest ≡ sha256 (take size bytes))) }
{
    let mut hasher = Sha256::new();
    let mut buffer = [0u8; PIECE];
    let mut at = 0u64;
    'pieces: while at < size {
        let count = read_piece(file, &mut buffer, at, size - at)?;
        let (piece, _) = buffer.split_at(count);
        hasher.update(piece);
        at += count as u64;
    }
    Ok(hasher.finalize())
}

/// The SHA-256 of a file's text, which has so many bytes, as 64 hexadecimal digits.
///
/// `File` where the file can't be read, `Memory` where the digits have no room.
pub fn text_hash<F: JournalFile>(alloc: Global, file: &F, text: u64) -> Result<String, JournalFault>
    requires { IfSome (F.contents file.now) (λ bytes. text ≡ length (text_of bytes)) }
    ensures { IfOk result (λ hash. IfSome (F.contents file.now) (λ bytes. string_bytes hash ≡ hash_of (text_of bytes))) }
{
    let digest = digest_of(file, text)?;
    match hex::encode(alloc, digest) {
        Ok(hash) => Ok(hash),
        Err(_refused) => Err(JournalFault::from(JournalFailure::Memory)),
    }
}
