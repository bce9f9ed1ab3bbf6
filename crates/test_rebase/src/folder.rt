//! A folder in memory: from some call on each that changes it fails, and what wasn't synced may be forgotten.
ghost use Rattle.std.specs.Prelude.{◌≤◌, length};
ghost use Rattle.std.specs.Io.{WritesAtMost};

use mi_log::Device;
use mi_recovery::{JournalFile, JournalFiles, segment_number};
use std::alloc::{AllocError, Global};
use std::cell::{RefCell, RefMut};
use std::fs::TryLockError;
use std::io;
use std::io::{Error, ErrorKind};

/// Bytes that a write takes at most: a base and a header are written by several.
const MOST_WRITTEN: usize = 200;

/// What a file has: all that was written, and what of it stays.
#[derive(Drop)]
struct Inode {
    written: Vec<u8>,
    synced: Vec<u8>,
}

/// A name, and which file it names.
#[derive(Drop)]
struct Entry {
    name: String,
    inode: usize,
}

/// Which names are found behind a stop. Until the folder is synced no order is kept between what is done to its names.
#[derive(Clone, Copy)]
pub(crate) enum Names {
    /// Those that there are.
    All,
    /// Those that there were when the folder was last synced.
    Synced,
    /// The same, less those that were taken away since.
    Removed,
}

/// Files, and their names: all, those that were synced, and of these the ones that weren't taken away since. Another process has locked some. So many
/// calls more may change it.
#[derive(Drop)]
pub(crate) struct Folder {
    alloc: Global,
    inodes: Vec<Inode>,
    entries: Vec<Entry>,
    synced: Vec<Entry>,
    removed: Vec<Entry>,
    locked: Vec<usize>,
    calls: u64,
}

/// Takes a name away.
fn unlink(entries: &mut Vec<Entry>, name: &str) {
    entries.retain(|entry| entry.name.as_str() != name);
}

fn copy_entries(alloc: Global, entries: &[Entry]) -> Result<Vec<Entry>, AllocError> {
    let mut all = Vec::new(alloc);
    for entry in entries {
        all.push(Entry {
            name: String::from_str(alloc, entry.name.as_str())?,
            inode: entry.inode,
        })?;
    }
    Ok(all)
}

/// Files that have what was written, or only what stays of it.
fn copy_inodes(
    alloc: Global,
    inodes: &[Inode],
    keeps_bytes: bool,
) -> Result<Vec<Inode>, AllocError> {
    let mut all = Vec::new(alloc);
    for inode in inodes {
        let bytes = if keeps_bytes {
            &inode.written
        } else {
            &inode.synced
        };
        all.push(Inode {
            written: bytes.as_slice().to_vec(alloc)?,
            synced: bytes.as_slice().to_vec(alloc)?,
        })?;
    }
    Ok(all)
}

impl Folder {
    /// An empty one. No call of it fails.
    pub(crate) fn new(alloc: Global) -> Folder {
        Folder {
            alloc,
            inodes: Vec::new(alloc),
            entries: Vec::new(alloc),
            synced: Vec::new(alloc),
            removed: Vec::new(alloc),
            locked: Vec::new(alloc),
            calls: u64::MAX,
        }
    }

    /// The folder that is found behind a stop: it has all that was written or only what was synced, under these names. Nobody has locked a file. So many
    /// calls may change it.
    pub(crate) fn found(
        &self,
        keeps_bytes: bool,
        names: Names,
        calls: u64,
    ) -> Result<Folder, AllocError> {
        let entries = match names {
            Names::All => self.entries.as_slice(),
            Names::Synced => self.synced.as_slice(),
            Names::Removed => self.removed.as_slice(),
        };
        Ok(Folder {
            alloc: self.alloc,
            inodes: copy_inodes(self.alloc, self.inodes.as_slice(), keeps_bytes)?,
            entries: copy_entries(self.alloc, entries)?,
            synced: copy_entries(self.alloc, entries)?,
            removed: copy_entries(self.alloc, entries)?,
            locked: Vec::new(self.alloc),
            calls,
        })
    }

    /// The same folder, no call of which fails: all that it has stays.
    pub(crate) fn copy(&self) -> Result<Folder, AllocError> {
        self.found(true, Names::All, u64::MAX)
    }

    /// How many names there are.
    pub(crate) fn len(&self) -> usize {
        self.entries.len()
    }

    /// Whether a name is there.
    pub(crate) fn has(&self, name: &str) -> bool {
        self.find(name).is_some()
    }

    /// What the file of a name has doesn't stay: it was written without a sync.
    pub(crate) fn unsync(&mut self, name: &str) {
        if let Some(inode) = self.find(name) {
            if let Some(found) = self.inodes.get_mut(inode) {
                found.synced.clear();
            }
        }
    }

    /// Another process locks the file of a name.
    pub(crate) fn lock(&mut self, name: &str) -> Result<(), AllocError> {
        match self.find(name) {
            Some(inode) => Ok(self.locked.push(inode)?),
            None => Ok(()),
        }
    }

    /// Whether another process has locked a file.
    fn is_locked(&self, inode: usize) -> bool {
        self.locked.as_slice().contains(&inode)
    }

    /// Which file a name names.
    fn find(&self, name: &str) -> Option<usize> {
        for entry in &self.entries {
            if entry.name.as_str() == name {
                return Some(entry.inode);
            }
        }
        None
    }

    /// A call that changes something: it fails where no more may.
    fn change(&mut self) -> io::Result<()> {
        let Some(left) = self.calls.checked_sub(1) else {
            return Err(Error::from(ErrorKind::Other));
        };
        self.calls = left;
        Ok(())
    }

    /// Makes a file under a name that isn't there yet.
    fn make(&mut self, name: &str) -> io::Result<usize> {
        if self.has(name) {
            return Err(Error::from(ErrorKind::AlreadyExists));
        }
        self.change()?;
        let inode = self.inodes.len();
        let name = String::from_str(self.alloc, name)?;
        self.inodes.push(Inode {
            written: Vec::new(self.alloc),
            synced: Vec::new(self.alloc),
        })?;
        self.entries.push(Entry { name, inode })?;
        Ok(inode)
    }

    fn rename(&mut self, from: &str, to: &str) -> io::Result<()> {
        let Some(inode) = self.find(from) else {
            return Err(Error::from(ErrorKind::NotFound));
        };
        self.change()?;
        let name = String::from_str(self.alloc, to)?;
        unlink(&mut self.entries, from);
        unlink(&mut self.entries, to);
        self.entries.push(Entry { name, inode })?;
        Ok(())
    }

    pub(crate) fn remove(&mut self, name: &str) -> io::Result<()> {
        if !self.has(name) {
            return Err(Error::from(ErrorKind::NotFound));
        }
        self.change()?;
        unlink(&mut self.entries, name);
        unlink(&mut self.removed, name);
        Ok(())
    }

    fn keep_names(&mut self) -> io::Result<()> {
        self.change()?;
        self.synced = copy_entries(self.alloc, self.entries.as_slice())?;
        self.removed = copy_entries(self.alloc, self.entries.as_slice())?;
        Ok(())
    }

    fn newest(&self, path: &str) -> io::Result<u64> {
        let mut newest = 0;
        for entry in &self.entries {
            let number = segment_number(self.alloc, path, entry.name.as_str())?;
            newest = number.unwrap_or(0).max(newest);
        }
        Ok(newest)
    }

    /// Writes a front of the bytes, and answers how many they are.
    fn write(&mut self, inode: usize, bytes: &[u8]) -> io::Result<usize>
        ensures { WritesAtMost result bytes.now }
    {
        self.change()?;
        let (front, _) = bytes.split_at(bytes.len().min(MOST_WRITTEN));
        match self.inodes.get_mut(inode) {
            Some(found) => found.written.extend_from_slice(front)?,
            None => return Err(Error::from(ErrorKind::NotFound)),
        }
        Ok(front.len())
    }

    fn sync(&mut self, inode: usize) -> io::Result<()> {
        self.change()?;
        match self.inodes.get_mut(inode) {
            Some(found) => {
                found.synced = found.written.as_slice().to_vec(self.alloc)?;
                Ok(())
            }
            None => Err(Error::from(ErrorKind::NotFound)),
        }
    }

    fn cut(&mut self, inode: usize, size: u64) -> io::Result<()> {
        self.change()?;
        match self.inodes.get_mut(inode) {
            Some(found) => {
                found.written.truncate(size as usize);
                Ok(())
            }
            None => Err(Error::from(ErrorKind::NotFound)),
        }
    }

    /// What a file has.
    fn bytes(&self, inode: usize) -> &[u8] {
        match self.inodes.get(inode) {
            Some(found) => found.written.as_slice(),
            None => &[],
        }
    }

    /// What the file of a name has, or nothing.
    pub(crate) fn text(&self, name: &str) -> &[u8] {
        match self.find(name) {
            Some(inode) => self.bytes(inode),
            None => &[],
        }
    }

    /// Gives a name a file that has these bytes.
    pub(crate) fn put(&mut self, name: &str, bytes: &[u8]) -> Result<(), AllocError> {
        unlink(&mut self.entries, name);
        let entry = Entry {
            name: String::from_str(self.alloc, name)?,
            inode: self.inodes.len(),
        };
        self.inodes.push(Inode {
            written: bytes.to_vec(self.alloc)?,
            synced: bytes.to_vec(self.alloc)?,
        })?;
        self.entries.push(entry)?;
        Ok(())
    }
}

/// An open file of a folder. It tells no clause what it has.
#[derive(Drop)]
pub(crate) struct FolderFile<'a> {
    folder: &'a RefCell<Folder>,
    inode: usize,
}

/// The files of a folder.
#[derive(Drop)]
pub(crate) struct FolderFiles<'a> {
    pub(crate) folder: &'a RefCell<Folder>,
}

/// The folder, which nobody else reads or changes now.
fn lent(folder: &RefCell<Folder>) -> io::Result<RefMut<'_, Folder>> {
    match folder.try_borrow_mut() {
        Ok(lent) => Ok(lent),
        Err(_error) => Err(Error::from(ErrorKind::Other)),
    }
}

impl<'a> Device for FolderFile<'a> {
    ghost room_left = { λ _. 18446744073709551615 };

    fn make_room(&mut self, _bytes: u64) -> bool {
        true
    }

    fn is_full(&self) -> bool {
        false
    }

    fn room(&self) -> u64 {
        u64::MAX
    }

    fn written(&self) -> Option<u64> {
        None
    }

    fn synced(&self) -> Option<u64> {
        None
    }

    fn write(&mut self, bytes: &[u8]) -> io::Result<usize> {
        lent(self.folder)?.write(self.inode, bytes)
    }

    fn sync_data(&mut self) -> io::Result<()> {
        lent(self.folder)?.sync(self.inode)
    }
}

/// Copies what bytes have from one on, and answers how many that are.
fn copy_from(bytes: &[u8], buffer: &mut [u8], at: u64) -> usize
    ensures { result ≤ length buffer.new }
{
    let (_, left) = bytes.split_at(bytes.len().min(at as usize));
    let count = left.len().min(buffer.len());
    buffer[..count].copy_from_slice(&left[..count]);
    count
}

impl<'a> JournalFile for FolderFile<'a> {
    fn try_lock(&mut self) -> Result<(), TryLockError> {
        match self.folder.try_borrow_mut() {
            Ok(folder) if folder.is_locked(self.inode) => Err(TryLockError::WouldBlock),
            Ok(_folder) => Ok(()),
            Err(_error) => Err(TryLockError::Error(Error::from(ErrorKind::Other))),
        }
    }

    fn read_at(&self, buffer: &mut [u8], at: u64) -> io::Result<usize> {
        let folder = lent(self.folder)?;
        Ok(copy_from(folder.bytes(self.inode), buffer, at))
    }

    fn size(&self) -> io::Result<u64> {
        Ok(lent(self.folder)?.bytes(self.inode).len() as u64)
    }

    fn cut_to(&mut self, size: u64) -> io::Result<()> {
        lent(self.folder)?.cut(self.inode, size)
    }
}

impl<'a> FolderFiles<'a> {
    fn file(&self, inode: usize) -> FolderFile<'a> {
        FolderFile {
            folder: self.folder,
            inode,
        }
    }
}

impl<'a> JournalFiles for FolderFiles<'a> {
    ghost use Rattle.std.specs.Prelude.{⊤};

    type File = FolderFile<'a>;

    ghost is_seen = { λ _ _ _. ⊤ };

    ghost is_newest = { λ _ _ _. ⊤ };

    fn open(&self, path: &str) -> io::Result<FolderFile<'a>> {
        match self.open_there(path)? {
            Some(file) => Ok(file),
            None => self.make(path),
        }
    }

    fn open_there(&self, path: &str) -> io::Result<Option<FolderFile<'a>>> {
        match lent(self.folder)?.find(path) {
            Some(inode) => Ok(Some(self.file(inode))),
            None => Ok(None),
        }
    }

    fn make(&self, path: &str) -> io::Result<FolderFile<'a>> {
        let inode = lent(self.folder)?.make(path)?;
        Ok(self.file(inode))
    }

    fn newest(&self, path: &str) -> io::Result<u64> {
        lent(self.folder)?.newest(path)
    }

    fn rename(&self, from: &str, to: &str) -> io::Result<()> {
        lent(self.folder)?.rename(from, to)
    }

    fn remove(&self, path: &str) -> io::Result<()> {
        lent(self.folder)?.remove(path)
    }

    fn names(&self, path: &str, file: &FolderFile<'a>) -> io::Result<bool> {
        Ok(lent(self.folder)?.find(path) == Some(file.inode))
    }

    fn keep_name(&self, _path: &str) -> io::Result<()> {
        lent(self.folder)?.keep_names()
    }
}
