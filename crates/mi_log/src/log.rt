//! What a journal is written to. A log is appended to and made to stay; it doesn't look at the bytes.

/// A write or a sync has failed.
#[derive(Clone, Copy, Debug, Drop)]
pub struct LogFault;

/// How far a log has come.
#[derive(Clone, Copy, Debug, Drop)]
pub struct LogState {
    /// How many bytes it has, where it keeps some.
    pub bytes: Option<u64>,
    /// How many of its bytes stay since it was last synced, where it is synced and counts them.
    pub synced: Option<u64>,
    /// Whether room was last asked for, and wasn't there.
    pub is_full: bool,
    /// For how many bytes room is there.
    pub room: u64,
    /// The number of the segment that it appends to, where it has one.
    pub segment: Option<u64>,
}

/// Bytes that are appended one behind another, and made to stay.
///
/// What has failed isn't used again: once a call has failed, each further one answers an error and changes nothing. So nothing is appended
/// behind a gap, and no sync is believed behind one that failed.
pub trait Log {
    ghost use Rattle.std.specs.Prelude.{◌≡◌, ◌<◌, ◌≤◌, ◌+◌, ℕ, List, Option, Bool, None, true, false, not, is_ok, length, IfSome, IsTrue, OnOk, OnErr, IsErr};
    ghost use Rattle.std.specs.Io.KnownBytes.{Appends, Keeps};
    ghost use Rattle.mi_log.specs.Kept.{AppendsFront};

    /// All bytes that are appended, where the log tells.
    ghost appended: { Self → Option (List ℕ) };

    /// Those that stay, whatever becomes of the process or the machine, where the log tells: what was appended when a sync last answered `Ok`.
    ghost synced: { Self → Option (List ℕ) };

    /// Whether what was appended is made to stay where that is asked, and not only said to. No call changes it.
    ghost makes_stay: { Self → Bool };

    /// Whether a call has failed.
    ghost has_failed: { Self → Bool };

    /// Whether room was last asked for, and wasn't there.
    ghost lacks_room: { Self → Bool };

    /// For how many bytes room is there, which an append takes no more of the disk for.
    ghost room_left: { Self → ℕ };

    /// The number of the segment that it appends to, where it has one. No call changes it.
    ghost segment: { Self → Option ℕ };

    /// Makes room for so many bytes, and answers whether it is there; it isn't where a call has failed. Where it is, it stays until as many
    /// are appended, whoever else writes to the disk.
    fn make_room(&mut self, bytes: u64) -> bool
        ensures room { result ≡ not (lacks_room self.new) }
        ensures there { IsTrue result → bytes ≤ room_left self.new }
        ensures left { room_left self.old ≤ room_left self.new }
        ensures appended { appended self.new ≡ appended self.old }
        ensures synced { synced self.new ≡ synced self.old }
        ensures makes_stay { makes_stay self.new ≡ makes_stay self.old }
        ensures segment { segment self.new ≡ segment self.old }
        ensures failed { has_failed self.new ≡ has_failed self.old };

    /// How far it has come.
    fn state(&self) -> LogState
        ensures full { result.is_full ≡ lacks_room self.now }
        ensures room { result.room ≡ room_left self.now }
        ensures segment { result.segment ≡ segment self.now }
        ensures bytes { IfSome result.bytes (λ count. IfSome (appended self.now) (λ bytes. count ≡ length bytes)) }
        ensures synced { IfSome result.synced (λ count. IfSome (synced self.now) (λ bytes. count ≡ length bytes)) }
        ensures made { makes_stay self.now ≡ false → result.synced ≡ None };

    /// Appends some bytes, which take as much of the room at most. After an error a front of them stands there, and not all.
    fn append(&mut self, bytes: &[u8]) -> Result<(), LogFault>
        requires { 0 < length bytes.now }
        ensures ok { OnOk result (Appends (appended self.old) (appended self.new) bytes.now) }
        ensures err { OnErr result (AppendsFront (appended self.old) (appended self.new) bytes.now) }
        ensures synced { Keeps (synced self.old) (synced self.new) }
        ensures makes_stay { makes_stay self.new ≡ makes_stay self.old }
        ensures failed { has_failed self.new ≡ not (is_ok result) }
        ensures segment { segment self.new ≡ segment self.old }
        ensures room { OnOk result (lacks_room self.new ≡ lacks_room self.old) }
        ensures left { OnOk result (room_left self.old ≤ room_left self.new + length bytes.now) }
        ensures over { has_failed self.old ≡ true → IsErr result × (self.new ≡ self.old) };

    /// Makes all that was appended stay.
    fn sync(&mut self) -> Result<(), LogFault>
        ensures ok { OnOk result (Keeps (appended self.new) (synced self.new)) }
        ensures err { OnErr result (Keeps (synced self.old) (synced self.new)) }
        ensures appended { Keeps (appended self.old) (appended self.new) }
        ensures makes_stay { makes_stay self.new ≡ makes_stay self.old }
        ensures failed { has_failed self.new ≡ not (is_ok result) }
        ensures segment { segment self.new ≡ segment self.old }
        ensures room { OnOk result (lacks_room self.new ≡ lacks_room self.old) }
        ensures left { OnOk result (room_left self.old ≤ room_left self.new) }
        ensures over { has_failed self.old ≡ true → IsErr result × (self.new ≡ self.old) };
}
