//! Readers and writers over memory with switches: how much a call gives or takes, which call fails, and how.
use std::alloc::Global;
use std::io::{Error, ErrorKind, Read, Result, Write};

/// Bytes that are read at most `size` at a time; the read behind `reads` sound ones fails.
#[derive(Drop)]
pub(super) struct Source<'a> {
    pub(super) left: &'a [u8],
    pub(super) size: usize,
    pub(super) reads: usize,
}

impl Read for Source<'_> {
    fn read(&mut self, buf: &mut [u8]) -> Result<usize> {
        let Some(reads) = self.reads.checked_sub(1) else {
            return Err(Error::from(ErrorKind::Other));
        };
        self.reads = reads;
        let count = self.size.min(buf.len()).min(self.left.len());
        let (front, back) = self.left.split_at(count);
        buf[..count].copy_from_slice(front);
        self.left = back;
        Ok(count)
    }
}

/// What a writer does that takes no more.
#[derive(Clone, Copy, Debug)]
pub(super) enum Full {
    Fails,
    TakesNone,
}

/// A writer that takes at most `size` bytes a write. The write behind `writes` sound ones isn't taken, and the flush behind
/// `flushes` sound ones fails.
#[derive(Drop)]
pub(super) struct Sink {
    pub(super) taken: Vec<u8>,
    pub(super) size: usize,
    pub(super) writes: usize,
    pub(super) flushes: usize,
    pub(super) full: Full,
}

impl Sink {
    /// A writer that takes all.
    pub(super) fn sound(alloc: Global) -> Sink {
        Sink {
            taken: Vec::new(alloc),
            size: usize::MAX,
            writes: usize::MAX,
            flushes: usize::MAX,
            full: Full::Fails,
        }
    }
}

impl Write for Sink {
    fn write(&mut self, buf: &[u8]) -> Result<usize> {
        let Some(writes) = self.writes.checked_sub(1) else {
            return match self.full {
                Full::Fails => Err(Error::from(ErrorKind::Other)),
                Full::TakesNone => Ok(0),
            };
        };
        self.writes = writes;
        let count = self.size.min(buf.len());
        self.taken.extend_from_slice(&buf[..count])?;
        Ok(count)
    }

    fn flush(&mut self) -> Result<()> {
        let Some(flushes) = self.flushes.checked_sub(1) else {
            return Err(Error::from(ErrorKind::Other));
        };
        self.flushes = flushes;
        Ok(())
    }
}
