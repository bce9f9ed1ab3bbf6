//! The files that a journal is kept in, and where they are found: what is asked of them. It opens none.
use mi_log::Device;
use std::fs::TryLockError;
use std::io;

/// An open file of a journal: it is locked, read from its start, cut where its text ends, and written to behind its end.
pub trait JournalFile: Device {
    ghost use Rattle.std.specs.Prelude.{◌≡◌, ℕ, List, Option, Bool, true, length, OnOk, IfOk, IfSome};
    ghost use Rattle.std.specs.Io.{ReadsAtMost};
    ghost use Rattle.std.specs.Io.KnownBytes.{Keeps};
    ghost use Rattle.mi_recovery.specs.JournalFile.{ReadsFrom, IsCutTo};

    /// Whether this process has locked it.
    ghost is_locked: { Self → Bool } = { λ _. true };

    /// Locks it for this process alone, for as long as it is open.
    fn try_lock(&mut self) -> Result<(), TryLockError>
        ensures locked { OnOk result (is_locked self.new ≡ true) }
        ensures contents { Keeps (Self.contents self.old) (Self.contents self.new) };

    /// Reads from the byte `at` on, as much as there is room for and the system gives at once; 0 bytes are its end.
    fn read_at(&self, buffer: &mut [u8], at: u64) -> io::Result<usize>
        ensures bound { ReadsAtMost result buffer.new }
        ensures bytes { ReadsFrom (Self.contents self.now) at result buffer.new };

    /// How many bytes it has.
    fn size(&self) -> io::Result<u64>
        ensures { IfOk result (λ size. IfSome (Self.contents self.now) (λ bytes. size ≡ length bytes)) };

    /// Cuts it to its first `size` bytes.
    fn cut_to(&mut self, size: u64) -> io::Result<()>
        ensures cut { OnOk result (IsCutTo size (Self.contents self.old) (Self.contents self.new)) }
        ensures locked { is_locked self.new ≡ is_locked self.old };
}

/// Where journals are found by their paths.
pub trait JournalFiles {
    ghost use Rattle.std.specs.Prelude.{◌≡◌, ℕ, List, [], true, Ok, IfOk, IfSome};

    /// What a path opens.
    type File: JournalFile + Drop;

    /// Whether a file was seen under a path.
    ghost is_seen: { Self → List ℕ → Self.File → Type 0 };

    /// Whether a journal's newest segment was seen to have this number: no later one was there. It is 0 where no segment was.
    ghost is_newest: { Self → List ℕ → ℕ → Type 0 };

    /// Opens the file at a path, to be read and written to behind its end; it is made where none is there.
    fn open(&self, path: &str) -> io::Result<Self::File>
        ensures { IfOk result (λ file. is_seen self.now path.now file) };

    /// Opens the file at a path in the same way, where one is there.
    fn open_there(&self, path: &str) -> io::Result<Option<Self::File>>
        ensures { IfOk result (λ file. IfSome file (λ f. is_seen self.now path.now f)) };

    /// Makes a file at a path, where none is there, and opens it in the same way. An error where one is there, which stays as it is.
    fn make(&self, path: &str) -> io::Result<Self::File>
        ensures { IfOk result (λ file. IfSome (Self.File.contents file) (λ bytes. bytes ≡ [])) };

    /// The number of the newest segment of the journal at a path, or 0 where it has none.
    fn newest(&self, path: &str) -> io::Result<u64>
        ensures { IfOk result (λ number. is_newest self.now path.now number) };

    /// Gives a path's file another path, in the place of what has that. Its folder isn't synced.
    fn rename(&self, from: &str, to: &str) -> io::Result<()>;

    /// Takes a path's file away. Its folder isn't synced.
    fn remove(&self, path: &str) -> io::Result<()>;

    /// Whether a path names this file now.
    fn names(&self, path: &str, file: &Self::File) -> io::Result<bool>
        ensures { result ≡ Ok true → is_seen self.now path.now file.now };

    /// Makes the name of a path's file stay: its folder is synced, where the file system knows that.
    fn keep_name(&self, path: &str) -> io::Result<()>;
}
