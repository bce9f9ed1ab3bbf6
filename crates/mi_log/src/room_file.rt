//! A file that has room behind what was written to it: bytes of the file, which are written over.
ghost use Rattle.std.specs.Prelude.{◌≡◌, ◌≤◌, ◌-◌, ◌+◌, min, true, length, take, Some, IfSome, IsTrue, OnOk};
ghost use Rattle.std.specs.Io.KnownBytes.{Keeps};
ghost use Rattle.mi_log.specs.Room.{IsRoomy, front_of};

use crate::device::Device;
use crate::placed::PlacedFile;
use std::io;
use std::io::{Error, ErrorKind};

/// How much room is made at once, in bytes, where the disk has it.
const ROOM: u64 = 1_048_576;

/// Bytes of one write that makes room.
const PIECE: usize = 16_384;

/// A file, and where what was written to it ends. What stands behind that is room: zeros, which are written over. A write into room takes no
/// more of the disk, unless the file system copies what is written over.
///
/// No clause can say what a file of the system has, so it tells nothing of its bytes; but what it is given is written to the file.
#[derive(Drop)]
pub struct RoomFile<F: PlacedFile> {
    file: F,
    end: u64,
    size: u64,
    synced: u64,
    lacks: bool,
    ghost is_roomy: { IsRoomy (F.contents file) end size },
    ghost has_synced: { synced ≤ end },
}

impl<F: PlacedFile> RoomFile<F> {
    /// A file of this size, all of whose bytes count as written. None counts as synced.
    pub fn new(file: F, size: u64) -> RoomFile<F>
        requires { IfSome (F.contents file) (λ all. size ≡ length all) }
        ensures file { result.file ≡ file }
        ensures written { front_of result.end (F.contents result.file) ≡ F.contents file }
        ensures synced { result.synced ≡ 0 }
    {
        RoomFile {
            file,
            end: size,
            size,
            synced: 0,
            lacks: false,
        }
    }

    /// All bytes of the file count as written, of which there are so many. None counts as synced.
    pub fn renew(&mut self, size: u64)
        requires { IfSome (F.contents self.old.file) (λ all. size ≡ length all) }
        ensures file { self.new.file ≡ self.old.file }
        ensures written { front_of self.new.end (F.contents self.new.file) ≡ F.contents self.new.file }
        ensures synced { self.new.synced ≡ 0 }
    {
        self.end = size;
        self.size = size;
        self.synced = 0;
    }

    /// The file itself.
    pub fn file(&self) -> &F
        ensures { result.now ≡ self.now.file }
    {
        &self.file
    }

    /// How many bytes were written to it.
    pub fn len(&self) -> u64
        ensures { IfSome (front_of self.now.end (F.contents self.now.file)) (λ bytes. result ≡ length bytes) }
    {
        self.end
    }

    /// The file is cut to the first `size` bytes that were written. It has no room then. Bytes of these that were synced stay so.
    pub fn cut(&mut self, size: u64) -> io::Result<()>
        ensures cut { OnOk result (IfSome (front_of self.old.end (F.contents self.old.file)) (λ bytes. size ≤ length bytes
            → front_of self.new.end (F.contents self.new.file) ≡ Some (take size bytes))) }
        ensures synced { OnOk result (self.new.synced ≡ min self.old.synced self.new.end) }
    {
        let end = self.end.min(size);
        self.file.set_len(end)?;
        self.end = end;
        self.size = end;
        self.synced = self.synced.min(end);
        Ok(())
    }

    /// Writes zeros behind the file's end, until it has so much room or a write is refused.
    fn grow(&mut self, room: u64)
        ensures written { Keeps (front_of self.old.end (F.contents self.old.file)) (front_of self.new.end (F.contents self.new.file)) }
        ensures room { self.old.size - self.old.end ≤ self.new.size - self.new.end }
        ensures synced { self.new.synced ≡ self.old.synced }
    {
        let zeros = [0u8; PIECE];
        'pieces: while self.size - self.end < room {
            if self.size.checked_add(PIECE as u64).is_none() {
                return;
            }
            let Ok(count) = self.file.write_at(&zeros, self.size) else {
                return;
            };
            self.size += count as u64;
            if count == 0 {
                return;
            }
        }
    }
}

impl<F: PlacedFile> Device for RoomFile<F> {
    ghost use Rattle.std.specs.Prelude.{◌≡◌, ◌≤◌, ◌-◌, ◌+◌, None, Some, not, IfOk, IsTrue, OnOk, OnErr};
    ghost use Rattle.std.specs.Io.{WritesAtMost};
    ghost use Rattle.std.specs.Io.KnownBytes.{WriteAppends, Keeps};
    ghost use Rattle.mi_log.specs.Room.{front_of};

    ghost lacks_room = { λ r. r.lacks };

    ghost room_left = { λ r. r.size - r.end };

    /// Room that is there is kept; else the file grows by 1 MiB, or as far as the disk lets it.
    fn make_room(&mut self, bytes: u64) -> bool
        ensures room { result ≡ not self.new.lacks }
        ensures there { IsTrue result → bytes ≤ self.new.size - self.new.end }
        ensures left { self.old.size - self.old.end ≤ self.new.size - self.new.end }
        ensures enough { bytes ≤ self.old.size - self.old.end → result ≡ true }
        ensures synced { self.new.synced ≡ self.old.synced }
        ensures written { Keeps (front_of self.old.end (F.contents self.old.file)) (front_of self.new.end (F.contents self.new.file)) }
    {
        if self.size - self.end < bytes {
            self.grow(bytes.saturating_add(ROOM));
        }
        self.lacks = self.size - self.end < bytes;
        !self.lacks
    }

    fn is_full(&self) -> bool {
        self.lacks
    }

    fn room(&self) -> u64 {
        self.size - self.end
    }

    fn written(&self) -> Option<u64>
        ensures told { IfSome result (λ count. IfSome (front_of self.now.end (F.contents self.now.file)) (λ bytes. count ≡ length bytes)) }
    {
        Some(self.end)
    }

    fn synced(&self) -> Option<u64>
        ensures count { result ≡ Some self.now.synced }
    {
        Some(self.synced)
    }

    /// The file has what it took, behind what was written before.
    fn write(&mut self, bytes: &[u8]) -> io::Result<usize>
        ensures bound { WritesAtMost result bytes.now }
        ensures bytes { WriteAppends None None result bytes.now }
        ensures stays { Keeps None None }
        ensures room { self.new.lacks ≡ self.old.lacks }
        ensures synced { self.new.synced ≡ self.old.synced }
        ensures left { IfOk result (λ count. self.old.size - self.old.end ≤ self.new.size - self.new.end + count) }
        ensures written { WriteAppends (front_of self.old.end (F.contents self.old.file)) (front_of self.new.end (F.contents self.new.file)) result bytes.now }
    {
        if self.end.checked_add(bytes.len() as u64).is_none() {
            return Err(Error::from(ErrorKind::FileTooLarge));
        }
        let count = self.file.write_at(bytes, self.end)?;
        self.end += count as u64;
        self.size = self.size.max(self.end);
        Ok(count)
    }

    fn sync_data(&mut self) -> io::Result<()>
        ensures written { front_of self.new.end (F.contents self.new.file) ≡ front_of self.old.end (F.contents self.old.file) }
        ensures room { self.new.size - self.new.end ≡ self.old.size - self.old.end }
        ensures lacks { self.new.lacks ≡ self.old.lacks }
        ensures synced { OnOk result (self.new.synced ≡ self.new.end) }
        ensures failed { OnErr result (self.new.synced ≡ self.old.synced) }
    {
        self.file.sync_data()?;
        self.synced = self.end;
        Ok(())
    }
}
