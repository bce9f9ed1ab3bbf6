//! A reader or writer that remembers whether it has failed, and isn't used again once it has.
ghost use Rattle.std.specs.Prelude.{◌≡◌, ◌<◌, ◌||◌, ◌&&◌, nat_lt, is_ok, not, false, true, length, IfOk, OnOk, OnErr, IsErr};
ghost use Rattle.std.specs.Borrow.{Lends, sem};
ghost use Rattle.std.specs.Io.{ReadsAtMost, WritesAtMost};
ghost use Rattle.std.specs.Io.KnownBytes.{ReadConsumes, WriteAppends, Keeps};

use std::io;
use std::io::{Error, ErrorKind, Read, Write};

/// A reader or writer. Once a read, a write or a flush of it has failed, each further call answers an error and leaves all as it is:
/// nothing is read, written or flushed behind a failure. It also remembers whether that was a flush, and whether bytes were written since the
/// last flush.
#[derive(Drop)]
pub struct Watched<T> {
    inner: T,
    failed: bool,
    waiting: bool,
    unflushed: bool,
}

impl<T> Watched<T> {
    ghost use Rattle.mi_hub.specs.Watching.{watched, has_failed, flush_failed, is_flushed, with_watched};
    ghost use Rattle.mi_hub.specs.contracts.watched.Watched.{the_row};

    /// A reader or a writer that hasn't failed, with nothing that waits for a flush.
    pub fn new(inner: T) -> Watched<T>
        ensures inner { watched result ≡ inner }
        ensures sound { has_failed result ≡ false }
        ensures sound_flushes { flush_failed result ≡ false }
        ensures flushed { is_flushed result ≡ true }
    {
        Watched {
            inner,
            failed: false,
            waiting: false,
            unflushed: false,
        }
    }

    /// The reader or the writer itself.
    pub fn inner(&self) -> &T
        ensures { result.now ≡ watched self.now }
    {
        &self.inner
    }

    /// The reader or the writer itself, for what is neither read, written nor flushed. What is remembered of it stays.
    pub fn inner_mut(&mut self) -> &mut T
        ensures value { result.now ≡ watched self.old }
        ensures* writes_back { sem 𝓛 (Lends (the_row T.row) T.row self.entry result (λ inner. with_watched inner self.old)) }
    {
        &mut self.inner
    }

    /// Whether a read or a flush has answered an error, or a write of one or more bytes an error or 0.
    pub fn failed(&self) -> bool
        ensures { result ≡ has_failed self.now }
    {
        self.failed
    }

    /// Whether what failed was a flush.
    pub fn flush_failed(&self) -> bool
        ensures { result ≡ flush_failed self.now }
    {
        self.unflushed
    }

    /// Whether nothing was written since the last flush that was sound.
    pub fn flushed(&self) -> bool
        ensures { result ≡ is_flushed self.now }
    {
        !self.waiting
    }
}

impl<R: Read> Read for Watched<R> {
    ghost use Rattle.mi_hub.specs.Watching.{watched, has_failed, flush_failed, is_flushed};

    ghost remaining = { λ w. R.remaining (watched w) };

    fn read(&mut self, buf: &mut [u8]) -> io::Result<usize>
        ensures bound { ReadsAtMost result buf.new }
        ensures bytes { ReadConsumes (R.remaining (watched self.old)) (R.remaining (watched self.new)) result buf.new }
        ensures failed { has_failed self.new ≡ (has_failed self.old || not (is_ok result)) }
        ensures flushes { flush_failed self.new ≡ flush_failed self.old }
        ensures flushed { is_flushed self.new ≡ is_flushed self.old }
        ensures over { has_failed self.old ≡ true → IsErr result × (self.new ≡ self.old) }
    {
        if self.failed {
            return Err(Error::from(ErrorKind::Other));
        }
        let result = self.inner.read(buf);
        if result.is_err() {
            self.failed = true;
        }
        result
    }
}

impl<W: Write> Write for Watched<W> {
    ghost use Rattle.mi_hub.specs.Watching.{watched, has_failed, flush_failed, is_flushed, takes_none};

    ghost contents = { λ w. W.contents (watched w) };

    #[inline(always)]
    fn write(&mut self, buf: &[u8]) -> io::Result<usize>
        ensures bound { WritesAtMost result buf.now }
        ensures bytes { WriteAppends (W.contents (watched self.old)) (W.contents (watched self.new)) result buf.now }
        ensures failed { has_failed self.new
            ≡ (has_failed self.old || (nat_lt 0 (length buf.now) && takes_none result)) }
        ensures flushes { flush_failed self.new ≡ flush_failed self.old }
        ensures waiting { IfOk result (λ n. 0 < n → is_flushed self.new ≡ false) }
        ensures over { has_failed self.old ≡ true → IsErr result × (self.new ≡ self.old) }
    {
        if self.failed {
            return Err(Error::from(ErrorKind::Other));
        }
        self.waiting = true;
        let result = self.inner.write(buf);
        if !buf.is_empty() && !matches!(&result, Ok(n) if *n > 0) {
            self.failed = true;
        }
        result
    }

    fn flush(&mut self) -> io::Result<()>
        ensures bytes { Keeps (W.contents (watched self.old)) (W.contents (watched self.new)) }
        ensures failed { has_failed self.new ≡ (has_failed self.old || not (is_ok result)) }
        ensures flushes { OnOk result (flush_failed self.new ≡ flush_failed self.old) }
        ensures told { has_failed self.old ≡ false → OnErr result (flush_failed self.new ≡ true) }
        ensures flushed { OnOk result (is_flushed self.new ≡ true) }
        ensures over { has_failed self.old ≡ true → IsErr result × (self.new ≡ self.old) }
    {
        if self.failed {
            return Err(Error::from(ErrorKind::Other));
        }
        let result = self.inner.flush();
        if result.is_err() {
            self.failed = true;
            self.unflushed = true;
        } else {
            self.waiting = false;
        }
        result
    }
}
