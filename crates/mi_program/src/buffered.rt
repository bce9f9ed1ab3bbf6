//! A stream whose writes are gathered and go out together: where it is flushed, or where its buffer has no room for the next.
//! It doesn't look at the bytes.
ghost use Rattle.std.specs.Prelude.{◌≡◌, [], OnOk, ◌+◌, ◌≤◌, length, vec_len, vec_capacity};
ghost use Rattle.std.specs.Io.{WritesAtMost};
ghost use Rattle.std.specs.Io.KnownBytes.{Appends, WriteAppends, Keeps};

use std::alloc::{AllocError, Global};
use std::io;
use std::io::{Error, ErrorKind, Read, Write};

/// Bytes that are gathered before they go out; more than the replies to most pieces take.
const ROOM: usize = 8192;

/// A stream and the bytes that were written to it and haven't gone out yet, from `sent` on. Without room none wait.
#[derive(Drop)]
pub struct Buffered<S> {
    inner: S,
    gathered: Vec<u8>,
    sent: usize,
    ghost within: { sent ≤ length gathered.items },
}

impl<S> Buffered<S> {
    ghost use Rattle.mi_program.specs.Buffer.{stream_of, waiting};

    /// Nothing is gathered yet, and no room is taken for it.
    pub fn new(alloc: Global, inner: S) -> Buffered<S>
        ensures inner { stream_of result ≡ inner }
        ensures none { waiting result ≡ [] }
    {
        Buffered {
            inner,
            gathered: Vec::new(alloc),
            sent: 0,
        }
    }

    /// Takes the room for what will wait, where it isn't there. What waits stays, whatever the result.
    pub fn make_room(&mut self) -> Result<(), AllocError>
        ensures inner { stream_of self.new ≡ stream_of self.old }
        ensures waiting { waiting self.new ≡ waiting self.old }
        ensures room { OnOk result (ROOM ≤ vec_capacity self.new.gathered) }
    {
        self.gathered.reserve(ROOM)
    }

    /// The stream itself.
    pub fn inner(&self) -> &S
        ensures { result.now ≡ stream_of self.now }
    {
        &self.inner
    }
}

impl<S: Write> Buffered<S> {
    ghost use Rattle.mi_program.specs.Buffer.{waiting, contents_of};

    /// All that is gathered goes out; what a failure leaves stays gathered.
    fn send_out(&mut self) -> io::Result<()>
        ensures none { OnOk result (self.new.gathered.items ≡ []) }
        ensures bytes { Keeps (contents_of S.contents self.old) (contents_of S.contents self.new) }
    {
        'out: while self.sent < self.gathered.len() {
            let (_, left) = self.gathered.as_slice().split_at(self.sent);
            let taken = self.inner.write(left)?;
            if taken == 0 {
                return Err(Error::from(ErrorKind::WriteZero));
            }
            self.sent += taken;
        }
        self.gathered.clear();
        self.sent = 0;
        Ok(())
    }

    /// Bytes that there is room for wait behind those that do already.
    fn gather(&mut self, bytes: &[u8])
        requires { length bytes.now + vec_len self.old.gathered ≤ vec_capacity self.old.gathered }
        ensures { Appends (contents_of S.contents self.old) (contents_of S.contents self.new) bytes.now }
    {
        self.gathered.extend_from_slice(bytes).unwrap();
    }

    /// Bytes that find no room: what is gathered goes out first, and bytes that never find room go to the stream as they are.
    #[cold]
    #[inline(never)]
    fn write_out(&mut self, bytes: &[u8]) -> io::Result<usize>
        ensures bound { WritesAtMost result bytes.now }
        ensures bytes { WriteAppends (contents_of S.contents self.old) (contents_of S.contents self.new) result bytes.now }
    {
        self.send_out()?;
        if bytes.len() > self.gathered.capacity() {
            return self.pass(bytes);
        }
        self.gather(bytes);
        Ok(bytes.len())
    }

    /// Where nothing waits, bytes go to the stream as they are.
    fn pass(&mut self, bytes: &[u8]) -> io::Result<usize>
        requires { self.old.gathered.items ≡ [] }
        ensures bound { WritesAtMost result bytes.now }
        ensures bytes { WriteAppends (contents_of S.contents self.old) (contents_of S.contents self.new) result bytes.now }
    {
        self.inner.write(bytes)
    }
}

impl<S: Read> Read for Buffered<S> {
    ghost use Rattle.mi_program.specs.Buffer.{remaining_of};

    ghost remaining = { remaining_of S.remaining };

    fn read(&mut self, buf: &mut [u8]) -> io::Result<usize> {
        self.inner.read(buf)
    }
}

impl<S: Write> Write for Buffered<S> {
    ghost use Rattle.mi_program.specs.Buffer.{waiting, contents_of};

    ghost contents = { contents_of S.contents };

    #[inline(always)]
    fn write(&mut self, buf: &[u8]) -> io::Result<usize> {
        if buf.len() > self.gathered.capacity() - self.gathered.len() {
            return self.write_out(buf);
        }
        self.gather(buf);
        Ok(buf.len())
    }

    fn flush(&mut self) -> io::Result<()>
        ensures bytes { Keeps (contents_of S.contents self.old) (contents_of S.contents self.new) }
        ensures none { OnOk result (waiting self.new ≡ []) }
    {
        self.send_out()?;
        self.inner.flush()
    }
}
