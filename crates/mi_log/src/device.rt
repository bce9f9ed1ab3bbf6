//! What a log stands on: bytes that are written one behind another.
use std::io;

/// Bytes that are written one behind another, and made to stay. Room for them can be made before they are written.
pub trait Device {
    ghost use Rattle.std.specs.Prelude.{◌≡◌, ◌≤◌, ◌+◌, ℕ, List, Option, Bool, true, false, None, not, length, IfSome, IfOk, IsTrue, OnOk, OnErr};
    ghost use Rattle.std.specs.Io.{WritesAtMost};
    ghost use Rattle.std.specs.Io.KnownBytes.{WriteAppends, Keeps};

    /// What was written to it, where it tells.
    ghost contents: { Self → Option (List ℕ) } = { λ _. None };

    /// What of it stays, where it tells: what was written when it was last synced.
    ghost stays: { Self → Option (List ℕ) } = { λ _. None };

    /// Whether what was written is made to stay where that is asked, and not only said to. No call changes it.
    ghost makes_stay: { Self → Bool } = { λ _. true };

    /// Whether room was last asked for, and wasn't there.
    ghost lacks_room: { Self → Bool } = { λ _. false };

    /// For how many bytes room is there, behind what was written.
    ghost room_left: { Self → ℕ } = { λ _. 0 };

    /// Makes room for so many bytes behind what was written, and answers whether it is there. Where it is, it stays until as many are
    /// written, whoever else writes to the disk.
    fn make_room(&mut self, bytes: u64) -> bool
        ensures room { result ≡ not (lacks_room self.new) }
        ensures there { IsTrue result → bytes ≤ room_left self.new }
        ensures left { room_left self.old ≤ room_left self.new }
        ensures contents { contents self.new ≡ contents self.old }
        ensures stays { stays self.new ≡ stays self.old }
        ensures makes_stay { makes_stay self.new ≡ makes_stay self.old };

    /// Whether room was last asked for, and wasn't there.
    fn is_full(&self) -> bool
        ensures { result ≡ lacks_room self.now };

    /// For how many bytes room is there, behind what was written.
    fn room(&self) -> u64
        ensures { result ≡ room_left self.now };

    /// How many bytes were written to it, where it counts them.
    fn written(&self) -> Option<u64>
        ensures { IfSome result (λ count. IfSome (contents self.now) (λ bytes. count ≡ length bytes)) };

    /// How many of those bytes stay since it was last synced, where it counts them; none where a sync isn't made.
    fn synced(&self) -> Option<u64>
        ensures count { IfSome result (λ count. IfSome (stays self.now) (λ bytes. count ≡ length bytes)) }
        ensures made { makes_stay self.now ≡ false → result ≡ None };

    /// Writes a front of the bytes, and answers how many they are. They take as much of the room at most.
    fn write(&mut self, bytes: &[u8]) -> io::Result<usize>
        ensures bound { WritesAtMost result bytes.now }
        ensures bytes { WriteAppends (contents self.old) (contents self.new) result bytes.now }
        ensures stays { Keeps (stays self.old) (stays self.new) }
        ensures makes_stay { makes_stay self.new ≡ makes_stay self.old }
        ensures room { lacks_room self.new ≡ lacks_room self.old }
        ensures left { IfOk result (λ count. room_left self.old ≤ room_left self.new + count) };

    /// Makes what was written stay.
    fn sync_data(&mut self) -> io::Result<()>
        ensures ok { OnOk result (Keeps (contents self.new) (stays self.new)) }
        ensures err { OnErr result (Keeps (stays self.old) (stays self.new)) }
        ensures contents { Keeps (contents self.old) (contents self.new) }
        ensures makes_stay { makes_stay self.new ≡ makes_stay self.old }
        ensures room { lacks_room self.new ≡ lacks_room self.old }
        ensures left { room_left self.old ≤ room_left self.new };
}
