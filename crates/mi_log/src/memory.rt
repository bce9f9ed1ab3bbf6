//! A device in memory, for tests: a call of it fails, and all behind that.
ghost use Rattle.std.specs.Prelude.{◌≡◌, [], Some, OnErr, IsErr};

use crate::device::Device;
use std::alloc::Global;
use std::io;
use std::io::{Error, ErrorKind};

/// What was written, and how much of it stays.
#[derive(Drop)]
pub struct MemoryDevice {
    bytes: Vec<u8>,
    staying: usize,
    calls: u64,
    most: usize,
    size: usize,
    lacks: bool,
}

impl MemoryDevice {
    ghost use Rattle.mi_log.specs.MemoryDevice.{written, kept, sound_calls, size_of};

    /// An empty device with all the room that is asked for. Its first `calls` calls, writes and syncs, don't fail, but for memory; each
    /// later one does. A write takes at most `most` bytes.
    pub fn new(alloc: Global, calls: u64, most: usize) -> MemoryDevice
        ensures written { written result ≡ [] }
        ensures kept { kept result ≡ [] }
        ensures calls { sound_calls result ≡ calls }
    {
        MemoryDevice {
            bytes: Vec::new(alloc),
            staying: 0,
            calls,
            most,
            size: usize::MAX,
            lacks: false,
        }
    }

    /// It has room for so many bytes in all.
    pub fn set_size(&mut self, size: usize)
        ensures size { size_of self.new ≡ size }
        ensures written { written self.new ≡ written self.old }
        ensures kept { kept self.new ≡ kept self.old }
        ensures calls { sound_calls self.new ≡ sound_calls self.old }
    {
        self.size = size;
    }

    /// All that was written.
    pub fn bytes(&self) -> &[u8]
        ensures { result.now ≡ written self.now }
    {
        self.bytes.as_slice()
    }

    /// What of it stays.
    pub fn kept(&self) -> &[u8]
        ensures { result.now ≡ kept self.now }
    {
        let bytes = self.bytes.as_slice();
        let (kept, _) = bytes.split_at(bytes.len().min(self.staying));
        kept
    }
}

impl Device for MemoryDevice {
    ghost use Rattle.std.specs.Prelude.{◌≡◌, Some, IsErr, OnOk, OnErr};
    ghost use Rattle.std.specs.Io.{WritesAtMost};
    ghost use Rattle.std.specs.Io.KnownBytes.{WriteAppends, Keeps};
    ghost use Rattle.mi_log.specs.MemoryDevice.{written, kept, sound_calls, size_of};
    ghost use Rattle.std.specs.Prelude.{◌≤◌, ◌↔◌, ◌+◌, ◌-◌, not, length, IfOk, IsTrue};

    ghost contents = { λ d. Some (written d) };

    ghost stays = { λ d. Some (kept d) };

    ghost lacks_room = { λ d. d.lacks };

    ghost room_left = { λ d. size_of d - length (written d) };

    fn make_room(&mut self, bytes: u64) -> bool
        ensures room { result ≡ not self.new.lacks }
        ensures there { IsTrue result ↔ (length (written self.old) + bytes ≤ size_of self.old) }
        ensures left { size_of self.new - length (written self.new) ≡ size_of self.old - length (written self.old) }
        ensures contents { written self.new ≡ written self.old }
        ensures stays { kept self.new ≡ kept self.old }
    {
        let size = self.size as u64;
        self.lacks = match (self.bytes.len() as u64).checked_add(bytes) {
            Some(end) => end > size,
            None => true,
        };
        !self.lacks
    }

    fn is_full(&self) -> bool {
        self.lacks
    }

    fn room(&self) -> u64 {
        self.size.saturating_sub(self.bytes.len()) as u64
    }

    fn written(&self) -> Option<u64> {
        Some(self.bytes.len() as u64)
    }

    fn synced(&self) -> Option<u64>
        ensures count { result ≡ Some (length (kept self.now)) }
    {
        Some(self.kept().len() as u64)
    }

    fn write(&mut self, bytes: &[u8]) -> io::Result<usize> {
        if self.calls == 0 {
            return Err(Error::from(ErrorKind::Other));
        }
        self.calls -= 1;
        let (front, _) = bytes.split_at(bytes.len().min(self.most));
        self.staying = self.staying.min(self.bytes.len());
        match self.bytes.extend_from_slice(front) {
            Ok(()) => Ok(front.len()),
            Err(_error) => Err(Error::from(ErrorKind::OutOfMemory)),
        }
    }

    fn sync_data(&mut self) -> io::Result<()> {
        if self.calls == 0 {
            return Err(Error::from(ErrorKind::Other));
        }
        self.calls -= 1;
        self.staying = self.bytes.len();
        Ok(())
    }
}
