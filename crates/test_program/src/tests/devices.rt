//! Readers and writers over memory that give or take a little at a time, or fail.
use std::io::{Error, ErrorKind, Read, Result, Write};

/// Bytes that are read at most `size` at a time; with `sound` false a read that finds none left fails.
#[derive(Drop)]
pub(super) struct Pieces<'a> {
    pub(super) left: &'a [u8],
    pub(super) size: usize,
    pub(super) sound: bool,
}

impl Read for Pieces<'_> {
    fn read(&mut self, buf: &mut [u8]) -> Result<usize> {
        if self.left.is_empty() && !self.sound {
            return Err(Error::from(ErrorKind::Other));
        }
        let count = self.size.min(buf.len()).min(self.left.len());
        let (front, back) = self.left.split_at(count);
        buf[..count].copy_from_slice(front);
        self.left = back;
        Ok(count)
    }
}

/// The pieces that a client sends, one a read; a read behind them is at its end, or with `sound` false fails.
#[derive(Drop)]
pub(super) struct Sent {
    pub(super) pieces: &'static [&'static [u8]],
    pub(super) sound: bool,
}

impl Read for Sent {
    fn read(&mut self, buf: &mut [u8]) -> Result<usize> {
        let [piece, later @ ..] = self.pieces else {
            return if self.sound {
                Ok(0)
            } else {
                Err(Error::from(ErrorKind::Other))
            };
        };
        let count = piece.len().min(buf.len());
        let (front, _) = piece.split_at(count);
        buf[..count].copy_from_slice(front);
        self.pieces = later;
        Ok(count)
    }
}

/// What a writer does once its room is used up.
#[derive(Clone, Copy)]
pub(super) enum AtEnd {
    Fail,
    TakeNone,
}

/// A writer that takes at most `step` bytes a write, `room` in all.
#[derive(Drop)]
pub(super) struct Narrow {
    pub(super) taken: Vec<u8>,
    pub(super) step: usize,
    pub(super) room: usize,
    pub(super) at_end: AtEnd,
}

impl Write for Narrow {
    fn write(&mut self, buf: &[u8]) -> Result<usize> {
        let count = self.step.min(buf.len()).min(self.room);
        if count == 0 && !buf.is_empty() {
            return match self.at_end {
                AtEnd::Fail => Err(Error::from(ErrorKind::Other)),
                AtEnd::TakeNone => Ok(0),
            };
        }
        self.taken.extend_from_slice(&buf[..count])?;
        self.room -= count;
        Ok(count)
    }

    fn flush(&mut self) -> Result<()> {
        Ok(())
    }
}
