//! What the bytes of a connection come from and go to.
use mio::net::TcpStream;
use std::io;
use std::io::{Read, Write};

/// A stream both ways: what it was written stays as it is while it is read, and what it has to be read while it is written to.
pub trait Duplex {
    ghost use Rattle.std.specs.Prelude.{◌≡◌, ◌<◌, ℕ, ℤ, List, Bool, Option, None, true, false, length};
    ghost use Rattle.std.specs.Io.{ReadsAtMost, WritesAtMost};
    ghost use Rattle.std.specs.Io.KnownBytes.{ReadConsumes, WriteAppends, Keeps};
    ghost use Rattle.mi_clients.specs.Stream.{FailsBy, OnWait, OnLoss, one_more};

    /// The bytes that reads will give from here on, where it tells.
    ghost remaining: { Self → Option (List ℕ) } = { λ _. None };

    /// What was written to it, where it tells.
    ghost contents: { Self → Option (List ℕ) } = { λ _. None };

    /// What it is known by, as its descriptor. No call changes it.
    ghost handle: { Self → ℤ };

    /// Whether a call has answered an error other than `WouldBlock` and `Interrupted`; false where it doesn't tell.
    ghost has_failed: { Self → Bool } = { λ _. false };

    /// How often it was read, where it tells.
    ghost reads: { Self → Option ℕ } = { λ _. None };

    /// Whether its last read would have waited; true where it doesn't tell.
    ghost is_dry: { Self → Bool } = { λ _. true };

    /// Whether its last write would have waited; true where it doesn't tell.
    ghost is_full: { Self → Bool } = { λ _. true };

    /// Whether its last write of some bytes took none, or answered another error than `WouldBlock`; true where it doesn't tell.
    ghost is_lost: { Self → Bool } = { λ _. true };

    /// Reads what is there, as much as there is room for, and answers how many bytes that are; 0 is the end.
    fn read(&mut self, buffer: &mut [u8]) -> io::Result<usize>
        ensures bound { ReadsAtMost result buffer.new }
        ensures bytes { ReadConsumes (remaining self.old) (remaining self.new) result buffer.new }
        ensures contents { Keeps (contents self.old) (contents self.new) }
        ensures handle { handle self.new ≡ handle self.old }
        ensures failed { FailsBy (has_failed self.old) (has_failed self.new) result }
        ensures counted { reads self.new ≡ one_more (reads self.old) }
        ensures dry { OnWait result (is_dry self.new) };

    /// Writes a front of the bytes, and answers how many they are.
    fn write(&mut self, bytes: &[u8]) -> io::Result<usize>
        ensures bound { WritesAtMost result bytes.now }
        ensures bytes { WriteAppends (contents self.old) (contents self.new) result bytes.now }
        ensures remaining { Keeps (remaining self.old) (remaining self.new) }
        ensures handle { handle self.new ≡ handle self.old }
        ensures failed { FailsBy (has_failed self.old) (has_failed self.new) result }
        ensures reads { reads self.new ≡ reads self.old }
        ensures full { OnWait result (is_full self.new) }
        ensures lost { 0 < length bytes.now → OnLoss result (is_lost self.new) };
}

/// No clause can say what a socket gives or takes, so it tells nothing of its bytes, and not whether it has failed. Its descriptor stays.
impl Duplex for TcpStream {
    ghost use Rattle.mio.specs.Net.{stream_fd};

    ghost handle = { λ s. stream_fd s };

    fn read(&mut self, buffer: &mut [u8]) -> io::Result<usize> {
        Read::read(self, buffer)
    }

    fn write(&mut self, bytes: &[u8]) -> io::Result<usize> {
        Write::write(self, bytes)
    }
}
