//! The files of the system as a journal's: opened, locked, found in their folder, renamed and taken away. It looks at no byte of a journal.
use crate::journal_file::{JournalFile, JournalFiles};
use crate::names::segment_number;
use mi_log::RoomFile;
use std::alloc::{AllocGlobal, Global};
use std::fs::{File, OpenOptions, TryLockError};
use std::io::{BufRead, BufReader, ErrorKind};
use std::os::unix::fs::{FileExt, MetadataExt};
use std::path::Path;
use std::rt::Files;
use std::{fs, io};

/// No clause can say what a file of the system has, so it tells nothing of its bytes.
impl JournalFile for RoomFile<File> {
    fn try_lock(&mut self) -> Result<(), TryLockError> {
        self.file().try_lock()?;
        match self.file().metadata() {
            Ok(metadata) => {
                self.renew(metadata.len());
                Ok(())
            }
            Err(error) => Err(TryLockError::Error(error)),
        }
    }

    fn read_at(&self, buffer: &mut [u8], at: u64) -> io::Result<usize> {
        self.file().read_at(buffer, at)
    }

    fn size(&self) -> io::Result<u64> {
        Ok(self.len())
    }

    fn cut_to(&mut self, size: u64) -> io::Result<()> {
        self.cut(size)
    }
}

/// The files of the system.
#[derive(Drop)]
pub struct SystemFiles<'a, R> {
    rt: &'a R,
}

impl<'a, R> SystemFiles<'a, R> {
    /// The files that a runtime opens.
    pub fn new(rt: &'a R) -> SystemFiles<'a, R> {
        SystemFiles { rt }
    }
}

/// The folder that a path's file stands in.
fn folder_of(path: &str) -> Path<'_> {
    match Path::new(path).parent() {
        Some(folder) if !folder.as_str().is_empty() => folder,
        _ => Path::new("."),
    }
}

/// The name that a path's file has in its folder.
fn name_of(path: &str) -> &str {
    match path.rsplit_once('/') {
        Some((_, name)) => name,
        None => path,
    }
}

/// The number of a segment of the journal whose first one has the name `first`, or 0 where a name isn't one's.
fn number_of(alloc: Global, first: &str, name: &[u8]) -> io::Result<u64> {
    let Ok(name) = str::from_utf8(name) else {
        return Ok(0);
    };
    match segment_number(alloc, first, name)? {
        Some(number) => Ok(number),
        None => Ok(0),
    }
}

/// The highest number of a segment among a folder's names, each of which ends with a zero byte.
fn newest_named<R: BufRead>(alloc: Global, names: &mut R, first: &str) -> io::Result<u64> {
    let mut name = Vec::new(alloc);
    let mut newest = 0;
    for _name in 0..u64::MAX {
        name.clear();
        if names.read_until(0, &mut name)? == 0 {
            break;
        }
        let (text, _zero) = name.as_slice().split_at(name.len().saturating_sub(1));
        newest = number_of(alloc, first, text)?.max(newest);
    }
    Ok(newest)
}

impl<'a, R: Files<File = File> + AllocGlobal> JournalFiles for SystemFiles<'a, R> {
    ghost use Rattle.std.specs.Prelude.{⊤};

    type File = RoomFile<File>;

    ghost is_seen = { λ _ _ _. ⊤ };

    ghost is_newest = { λ _ _ _. ⊤ };

    fn open(&self, path: &str) -> io::Result<RoomFile<File>> {
        let file = OpenOptions::new()
            .read(true)
            .write(true)
            .create(true)
            .open(self.rt, path)?;
        Ok(RoomFile::new(file, 0))
    }

    fn open_there(&self, path: &str) -> io::Result<Option<RoomFile<File>>> {
        let opened = OpenOptions::new()
            .read(true)
            .write(true)
            .open(self.rt, path);
        match opened {
            Ok(file) => Ok(Some(RoomFile::new(file, 0))),
            Err(error) => match error.kind() {
                ErrorKind::NotFound => Ok(None),
                _ => Err(error),
            },
        }
    }

    fn make(&self, path: &str) -> io::Result<RoomFile<File>> {
        let file = OpenOptions::new()
            .read(true)
            .write(true)
            .create_new(true)
            .open(self.rt, path)?;
        Ok(RoomFile::new(file, 0))
    }

    fn newest(&self, path: &str) -> io::Result<u64> {
        let alloc = self.rt.alloc();
        let folder = self.rt.open_dir(folder_of(path).as_str())?;
        newest_named(alloc, &mut BufReader::new(alloc, folder)?, name_of(path))
    }

    fn rename(&self, from: &str, to: &str) -> io::Result<()> {
        fs::rename(self.rt, from, to)
    }

    fn remove(&self, path: &str) -> io::Result<()> {
        fs::remove_file(self.rt, path)
    }

    fn names(&self, path: &str, file: &RoomFile<File>) -> io::Result<bool> {
        let opened = file.file().metadata()?;
        match fs::metadata(self.rt, path) {
            Ok(named) => Ok(named.ino() == opened.ino() && named.dev() == opened.dev()),
            Err(error) => match error.kind() {
                ErrorKind::NotFound => Ok(false),
                _ => Err(error),
            },
        }
    }

    fn keep_name(&self, path: &str) -> io::Result<()> {
        let folder = fs::open(self.rt, folder_of(path))?;
        match folder.sync_all() {
            Ok(()) => Ok(()),
            Err(error) => match error.kind() {
                ErrorKind::InvalidInput => Ok(()),
                _ => Err(error),
            },
        }
    }
}
