//! A file whose bytes are written at places.
use std::fs::{File, OpenFile};
use std::io;
use std::os::unix::fs::FileExt;

/// A file whose bytes are written at places, and made to stay.
pub trait PlacedFile {
    ghost use Rattle.std.specs.Prelude.{◌≡◌, ◌≤◌, ℕ, List, Option, None, length, IfSome, OnOk, OnErr};
    ghost use Rattle.std.specs.Io.{WritesAtMost};
    ghost use Rattle.mi_log.specs.Placed.{WritesAt, IsCutTo};

    /// Its bytes, where it tells.
    ghost contents: { Self → Option (List ℕ) } = { λ _. None };

    /// Writes a front of these bytes over those from the place `at` on, and behind the end of the file what goes beyond it, and answers how
    /// many they are.
    fn write_at(&mut self, bytes: &[u8], at: u64) -> io::Result<usize>
        requires { IfSome (contents self.old) (λ all. at ≤ length all) }
        ensures bound { WritesAtMost result bytes.now }
        ensures bytes { WritesAt at bytes.now (contents self.old) (contents self.new) result };

    /// Cuts it to its first `size` bytes.
    fn set_len(&mut self, size: u64) -> io::Result<()>
        requires { IfSome (contents self.old) (λ all. size ≤ length all) }
        ensures ok { OnOk result (IsCutTo size (contents self.old) (contents self.new)) }
        ensures err { OnErr result (contents self.new ≡ contents self.old) };

    /// Makes what was written stay.
    fn sync_data(&mut self) -> io::Result<()>
        ensures { contents self.new ≡ contents self.old };
}

/// No clause can say what a file of the system has, so it tells nothing.
impl PlacedFile for File {
    fn write_at(&mut self, bytes: &[u8], at: u64) -> io::Result<usize> {
        FileExt::write_at(self, bytes, at)
    }

    fn set_len(&mut self, size: u64) -> io::Result<()> {
        OpenFile::set_len(self, size)
    }

    fn sync_data(&mut self) -> io::Result<()> {
        OpenFile::sync_data(self)
    }
}
