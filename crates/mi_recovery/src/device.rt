//! Where a journal is appended to: nowhere, or a file that is synced or isn't.
use mi_log::Device;
use std::io;

/// Whether what is appended is made to stay where that is asked.
#[derive(Clone, Copy, Drop)]
pub enum Keeping {
    /// A sync is made.
    Synced,
    /// The system decides when what was written stays.
    Unsynced,
}

/// What a service's journal is appended to. What it is given is written to its file, where it has one; where that is synced, it tells what
/// its file tells.
#[derive(Drop)]
pub struct JournalDevice<F> {
    file: Option<F>,
    keeping: Keeping,
}

impl<F> JournalDevice<F> {
    ghost use Rattle.std.specs.Prelude.{◌≡◌, option_map};
    ghost use Rattle.mi_recovery.specs.Device.{file_of, keeping_of};

    /// A file, or none, which takes what it is given and keeps nothing.
    pub fn new(file: Option<F>, keeping: Keeping) -> JournalDevice<F>
        ensures file { file_of result ≡ file }
        ensures keeping { keeping_of result ≡ keeping }
    {
        JournalDevice { file, keeping }
    }

    /// Its file, where it has one, which it lets go of.
    pub fn into_file(self) -> Option<F>
        ensures { result ≡ file_of self }
    {
        let JournalDevice { file, .. } = self;
        file
    }

    /// Its file, where it has one.
    pub fn file(&self) -> Option<&F>
        ensures { option_map (λ file. file.now) result ≡ file_of self.now }
    {
        self.file.as_ref()
    }
}

impl<F: Device> Device for JournalDevice<F> {
    ghost use Rattle.std.specs.Prelude.{◌≡◌, ◌≤◌, ◌+◌, None, not, true, false, length, IfSome, IfOk, IsTrue};
    ghost use Rattle.std.specs.Io.{WritesAtMost};
    ghost use Rattle.std.specs.Io.KnownBytes.{WriteAppends, Keeps};
    ghost use Rattle.mi_recovery.specs.Device.{file_of, keeping_of, written_to, told_of, is_staying, lacks_room, room_left};

    ghost contents = { λ d. told_of F.contents d };

    ghost stays = { λ d. told_of F.stays d };

    ghost makes_stay = { λ d. is_staying d };

    ghost lacks_room = { λ d. lacks_room F.lacks_room d };

    ghost room_left = { λ d. room_left F.room_left d };

    /// Its file has what it took.
    fn write(&mut self, bytes: &[u8]) -> io::Result<usize>
        ensures bound { WritesAtMost result bytes.now }
        ensures bytes { WriteAppends (told_of F.contents self.old) (told_of F.contents self.new) result bytes.now }
        ensures stays { Keeps (told_of F.stays self.old) (told_of F.stays self.new) }
        ensures file { WriteAppends (written_to F.contents self.old) (written_to F.contents self.new) result bytes.now }
        ensures keeping { keeping_of self.new ≡ keeping_of self.old }
        ensures makes_stay { is_staying self.new ≡ is_staying self.old }
        ensures room { lacks_room F.lacks_room self.new ≡ lacks_room F.lacks_room self.old }
        ensures left { IfOk result (λ count. room_left F.room_left self.old ≤ room_left F.room_left self.new + count) }
    {
        match &mut self.file {
            Some(file) => file.write(bytes),
            None => Ok(bytes.len()),
        }
    }

    fn make_room(&mut self, bytes: u64) -> bool
        ensures room { result ≡ not (lacks_room F.lacks_room self.new) }
        ensures there { IsTrue result → bytes ≤ room_left F.room_left self.new }
        ensures left { room_left F.room_left self.old ≤ room_left F.room_left self.new }
        ensures contents { told_of F.contents self.new ≡ told_of F.contents self.old }
        ensures stays { told_of F.stays self.new ≡ told_of F.stays self.old }
        ensures makes_stay { is_staying self.new ≡ is_staying self.old }
        ensures none { file_of self.old ≡ None → result ≡ true }
        ensures file { written_to F.contents self.new ≡ written_to F.contents self.old }
        ensures keeping { keeping_of self.new ≡ keeping_of self.old }
    {
        match &mut self.file {
            Some(file) => file.make_room(bytes),
            None => true,
        }
    }

    fn is_full(&self) -> bool
        ensures { result ≡ lacks_room F.lacks_room self.now }
    {
        match &self.file {
            Some(file) => file.is_full(),
            None => false,
        }
    }

    fn room(&self) -> u64
        ensures { result ≡ room_left F.room_left self.now }
    {
        match &self.file {
            Some(file) => file.room(),
            None => u64::MAX,
        }
    }

    fn written(&self) -> Option<u64>
        ensures counted { IfSome result (λ count. IfSome (told_of F.contents self.now) (λ bytes. count ≡ length bytes)) }
        ensures none { file_of self.now ≡ None → result ≡ None }
    {
        match &self.file {
            Some(file) => file.written(),
            None => None,
        }
    }

    fn synced(&self) -> Option<u64>
        ensures count { IfSome result (λ count. IfSome (told_of F.stays self.now) (λ bytes. count ≡ length bytes)) }
        ensures made { is_staying self.now ≡ false → result ≡ None }
    {
        match (&self.file, self.keeping) {
            (Some(file), Keeping::Synced) => file.synced(),
            _ => None,
        }
    }

    fn sync_data(&mut self) -> io::Result<()> {
        match (&mut self.file, self.keeping) {
            (Some(file), Keeping::Synced) => file.sync_data(),
            _ => Ok(()),
        }
    }
}
