//! A journal's file as a reader from its start. The file is lent, so it is as it was when the reader is gone.
ghost use Rattle.std.specs.Prelude.{◌≡◌};
ghost use Rattle.mi_recovery.specs.JournalFile.{from_byte};

use crate::journal_file::JournalFile;
use std::io;
use std::io::{Error, ErrorKind, Read};

/// The bytes of a file from `at` on.
#[derive(Drop)]
pub struct FileReader<'a, F> {
    file: &'a F,
    at: u64,
}

impl<'a, F: JournalFile> FileReader<'a, F> {
    /// All bytes of a file.
    pub fn new(file: &'a F) -> FileReader<'a, F>
        ensures { from_byte (F.contents result.file.now) result.at ≡ F.contents file.now }
    {
        FileReader { file, at: 0 }
    }
}

impl<'a, F: JournalFile> Read for FileReader<'a, F> {
    ghost use Rattle.mi_recovery.specs.JournalFile.{from_byte};

    ghost remaining = { λ r. from_byte (F.contents r.file.now) r.at };

    fn read(&mut self, buffer: &mut [u8]) -> io::Result<usize> {
        let count = self.file.read_at(buffer, self.at)?;
        match self.at.checked_add(count as u64) {
            Some(at) => {
                self.at = at;
                Ok(count)
            }
            None => Err(Error::from(ErrorKind::FileTooLarge)),
        }
    }
}
