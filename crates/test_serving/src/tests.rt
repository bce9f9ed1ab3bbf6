//! A journal that is opened again: torn lines at each byte, a reserve, a damaged line, another header, and none. Its file is taken by another
//! process, moved while it is read, or longer than what was read of it.
ghost use Rattle.std.specs.Prelude.{◌≡◌, [], IfOk};

use mi_catalog::{Catalog, built_in};
use mi_hub::Hub;
use mi_log::Device;
use mi_plain::Plain;
use mi_recovery::{JournalFile, JournalFiles, JournalSchema, Keeping, fingerprint, opened_behind};
use mi_schema::read_catalog;
use mi_serving::{BUILT_IN, Failure};
use std::alloc::{AllocGlobal, Global};
use std::cell::Cell;
use std::fs::TryLockError;
use std::io;
use std::io::{Error, ErrorKind};
use std::process::Abort;
use std::test::Fail;

/// A hub over the table `accounts`, with no connection.
pub(crate) fn hub(alloc: Global) -> Result<Hub<Plain>, Fail>
    ensures { IfOk result (λ h. h.attached ≡ []) }
{
    let catalog = Catalog::of(alloc, built_in(alloc)?)?;
    Ok(Hub::new(alloc, Plain::new(alloc, catalog)?))
}

/// The text that tells the built-in schema is read as that schema.
#[test]
fn the_built_in_text_is_that_schema(rt: HostRuntime) -> Result<(), Fail> {
    let catalog = Catalog::of(rt.alloc(), built_in(rt.alloc())?)?;
    match read_catalog(rt.alloc(), BUILT_IN.as_bytes()) {
        Ok(read) => {
            let (one, other) = (
                fingerprint(rt.alloc(), &catalog)?,
                fingerprint(rt.alloc(), &read)?,
            );
            assert!(rt; one.as_str() == other.as_str());
        }
        Err(_fault) => assert!(rt; false),
    }
    Ok(())
}

/// A file in memory, which tells no clause what it has.
#[derive(Drop)]
struct MemoryFile {
    bytes: Vec<u8>,
    is_taken: bool,
}

impl Device for MemoryFile {
    ghost room_left = { λ _. 18446744073709551615 };

    fn make_room(&mut self, _bytes: u64) -> bool {
        true
    }

    fn is_full(&self) -> bool {
        false
    }

    fn room(&self) -> u64 {
        u64::MAX
    }

    fn written(&self) -> Option<u64> {
        None
    }

    fn synced(&self) -> Option<u64> {
        None
    }

    fn write(&mut self, bytes: &[u8]) -> io::Result<usize> {
        match self.bytes.extend_from_slice(bytes) {
            Ok(()) => Ok(bytes.len()),
            Err(_error) => Err(Error::from(ErrorKind::OutOfMemory)),
        }
    }

    fn sync_data(&mut self) -> io::Result<()> {
        Ok(())
    }
}

impl JournalFile for MemoryFile {
    fn try_lock(&mut self) -> Result<(), TryLockError> {
        if self.is_taken {
            return Err(TryLockError::WouldBlock);
        }
        Ok(())
    }

    fn read_at(&self, buffer: &mut [u8], at: u64) -> io::Result<usize> {
        let bytes = self.bytes.as_slice();
        let (_, left) = bytes.split_at(bytes.len().min(at as usize));
        let count = left.len().min(buffer.len()).min(3);
        buffer[..count].copy_from_slice(&left[..count]);
        Ok(count)
    }

    fn size(&self) -> io::Result<u64> {
        Ok(self.bytes.len() as u64)
    }

    fn cut_to(&mut self, size: u64) -> io::Result<()> {
        self.bytes.truncate(size as usize);
        Ok(())
    }
}

/// One file, under any path, which names it so often.
#[derive(Drop)]
struct OneFile<'a> {
    alloc: Global,
    bytes: &'a [u8],
    is_taken: bool,
    named: Cell<u64>,
}

impl<'a> JournalFiles for OneFile<'a> {
    ghost use Rattle.std.specs.Prelude.{⊤};

    type File = MemoryFile;

    ghost is_seen = { λ _ _ _. ⊤ };

    ghost is_newest = { λ _ _ _. ⊤ };

    fn open(&self, _path: &str) -> io::Result<MemoryFile> {
        match Vec::from_slice(self.alloc, self.bytes) {
            Ok(bytes) => Ok(MemoryFile {
                bytes,
                is_taken: self.is_taken,
            }),
            Err(_error) => Err(Error::from(ErrorKind::OutOfMemory)),
        }
    }

    fn open_there(&self, path: &str) -> io::Result<Option<MemoryFile>> {
        Ok(Some(self.open(path)?))
    }

    fn make(&self, path: &str) -> io::Result<MemoryFile> {
        self.open(path)
    }

    fn newest(&self, _path: &str) -> io::Result<u64> {
        Ok(1)
    }

    fn rename(&self, _from: &str, _to: &str) -> io::Result<()> {
        Ok(())
    }

    fn remove(&self, _path: &str) -> io::Result<()> {
        Ok(())
    }

    fn names(&self, _path: &str, _file: &MemoryFile) -> io::Result<bool> {
        let left = self.named.get();
        self.named.set(left.saturating_sub(1));
        Ok(left > 0)
    }

    fn keep_name(&self, _path: &str) -> io::Result<()> {
        Ok(())
    }
}

/// What a journal's file has, where there is one.
fn bytes_of(alloc: Global, file: Option<&MemoryFile>) -> Result<Result<String, String>, Fail> {
    match file {
        Some(file) => Ok(Ok(String::from_utf8_lossy(alloc, file.bytes.as_slice())?)),
        None => Ok(Err(String::from_str(alloc, "no file")?)),
    }
}

/// What a file has once it is opened, or the line of the failure.
fn left_of(
    alloc: Global,
    bytes: &[u8],
    is_taken: bool,
    named: u64,
) -> Result<Result<String, String>, Fail> {
    let files = OneFile {
        alloc,
        bytes,
        is_taken,
        named: Cell::new(named),
    };
    let schema = JournalSchema {
        revision: 0,
        hash: String::from_str(alloc, "head")?,
    };
    match opened_behind(
        alloc,
        &files,
        hub(alloc)?,
        "j",
        Keeping::Synced,
        &schema,
        None,
    ) {
        Ok(durable) => bytes_of(alloc, durable.log().device().file()),
        Err(fault) => Ok(Err(Failure::of_journal(fault.failure).to_string(alloc)?)),
    }
}

/// The header of these journals, without its newline.
const HEADER: &str = "{\"journal\":1,\"revision\":0,\"schema\":\"head\"}";

/// Behind a start a file with these bytes has the header, and these lines.
fn goes_on(rt: &(impl Abort + AllocGlobal), bytes: &[u8], lines: &str) -> Result<(), Fail> {
    match left_of(rt.alloc(), bytes, false, 2)? {
        Ok(left) => {
            let want = format!(in rt.alloc(); "{HEADER}\n{lines}")?;
            assert!(rt; left.as_str() == want.as_str());
        }
        Err(_word) => assert!(rt; false),
    }
    Ok(())
}

#[test]
fn beginnings_go_on(rt: HostRuntime) -> Result<(), Fail> {
    for count in 0..=HEADER.len() {
        let (front, _) = HEADER.as_bytes().split_at(count);
        goes_on(&rt, front, "")?;
    }
    Ok(())
}

#[test]
fn files_go_on(rt: HostRuntime) -> Result<(), Fail> {
    let whole = "{\"cmd\":\"start\"}\n{\"cmd\":\"undo\"}\n";
    for (lines, want) in [
        ("", ""),
        ("{\"cmd\":\"st", ""),
        ("\0\0\0", ""),
        ("{\"cmd\":\"start\"}\n{\"c", whole),
        (
            "{\"cmd\":\"start\"}\n{\"c\0\0\0md\":\"undo\"}\n{\"cmd\":\"push\"}\n",
            whole,
        ),
        (
            "{\"cmd\":\"reserve\",\"changes\":1,\"sessions\":1}\n",
            "{\"cmd\":\"reserve\",\"changes\":1,\"sessions\":1}\n",
        ),
    ] {
        let text = format!(in rt.alloc(); "{HEADER}\n{lines}")?;
        goes_on(&rt, text.as_bytes(), want)?;
    }
    let text = format!(in rt.alloc(); "{HEADER}\n{whole}")?;
    for torn in 0..=15usize {
        let (front, _) = text.as_bytes().split_at(text.len() - torn);
        goes_on(&rt, front, whole)?;
    }
    Ok(())
}

#[test]
fn files_are_refused(rt: HostRuntime) -> Result<(), Fail> {
    for (header, lines, is_taken, named, want) in [
        ("heads", "", false, 2, "journal: line 1"),
        ("{\"jour\0\0", "", false, 2, "journal: file"),
        ("\0", "", false, 2, "journal: file"),
        (
            "{\"journal\":1,\"revision\":0,\"schema\":\"foot\"}",
            "\n",
            false,
            2,
            "journal: schema",
        ),
        (
            HEADER,
            "\n{\"cmd\":\"size\"}\n",
            false,
            2,
            "journal: line 2",
        ),
        (HEADER, "\nstart\n", false, 2, "journal: line 2"),
        (HEADER, "\n", true, 2, "journal: locked"),
        (HEADER, "\n", false, 0, "journal: locked"),
        (HEADER, "\n", false, 1, "journal: file"),
    ] {
        let text = format!(in rt.alloc(); "{header}{lines}")?;
        match left_of(rt.alloc(), text.as_bytes(), is_taken, named)? {
            Ok(_left) => assert!(rt; false),
            Err(word) => assert!(rt; word.as_str() == want),
        }
    }
    Ok(())
}
