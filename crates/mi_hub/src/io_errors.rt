//! Which errors streams have answered, for a caller that lets the streams go before it could ask them.
//! A read is noted by the call that makes it, and a write by a stream that has failed; nothing else is.
ghost use Rattle.std.specs.Prelude.{◌≡◌, is_ok, not, false, length};
ghost use Rattle.std.specs.Io.{ReadsAtMost};
ghost use Rattle.std.specs.Io.KnownBytes.{ReadConsumes};
ghost use Rattle.mi_hub.specs.Watching.{watched, has_failed};

use crate::watched::Watched;
use std::io;
use std::io::Read;

/// Whether a read of some stream has failed, and whether a write or a flush of some stream has.
#[derive(Clone, Copy, Drop)]
pub struct IoErrors {
    read: bool,
    write: bool,
}

impl IoErrors {
    ghost use Rattle.mi_hub.specs.IoNotes.{no_errors, reads_fail, writes_fail, with_read, with_write};

    /// None so far.
    pub fn none() -> IoErrors
        ensures { result ≡ no_errors }
    {
        IoErrors {
            read: false,
            write: false,
        }
    }

    /// Whether a read has failed.
    pub fn read(&self) -> bool
        ensures { result ≡ reads_fail self.now }
    {
        self.read
    }

    /// Whether a write or a flush has failed.
    pub fn write(&self) -> bool
        ensures { result ≡ writes_fail self.now }
    {
        self.write
    }

    /// Reads once from a stream that is sound, and notes it where that fails.
    pub fn read_from<R: Read>(
        &mut self,
        stream: &mut Watched<R>,
        buf: &mut [u8],
    ) -> io::Result<usize>
        requires { has_failed stream.old ≡ false }
        ensures bound { ReadsAtMost result buf.new }
        ensures bytes { ReadConsumes (R.remaining (watched stream.old)) (R.remaining (watched stream.new)) result buf.new }
        ensures failed { has_failed stream.new ≡ not (is_ok result) }
        ensures noted { self.new ≡ with_read (not (is_ok result)) self.old }
    {
        let result = stream.read(buf);
        self.read |= result.is_err();
        result
    }

    /// Notes a stream whose last read was sound: it has failed since then only by a write or a flush.
    pub fn note_write<W>(&mut self, stream: &Watched<W>)
        ensures { self.new ≡ with_write (has_failed stream.now) self.old }
    {
        self.write |= stream.failed();
    }
}
