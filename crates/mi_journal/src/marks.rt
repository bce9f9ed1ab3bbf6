//! For each index of a table whether a put has an old place there, in four bytes. Plain data.
ghost use Rattle.std.specs.Prelude.{◌≡◌, ◌<◌, ◌≤◌, ◌^◌, [], ◌∷◌, ◌++◌, length};
ghost use Rattle.std.specs.Option.{option_to_list};

use std::marker::Model;

/// Marks, the first of which is the lowest bit: contracts see them as a list.
#[derive(Drop)]
pub struct Marks {
    bits: u32,
    count: u8,
}

impl Model for Marks {
    ghost use Rattle.std.specs.Prelude.{◌<◌, ◌≤◌, ◌^◌, List, Bool};
    ghost use Rattle.mi_journal.specs.Flags.{flags};

    ghost Value = { List Bool };

    ghost view = { λ a. flags a.count a.bits };

    ghost invariant = { λ a. (a.count ≤ 16) × (a.bits < 2 ^ a.count) };
}

impl Marks {
    /// No marks.
    pub fn new() -> Marks
        ensures { result ≡ [] }
    {
        Marks { bits: 0, count: 0 }
    }

    /// States how many marks there are at most. It does nothing.
    pub fn keeps_rules(&self)
        ensures { length self.now ≤ 16 }
    {
        let _count = self.count;
    }

    /// One more mark, before the others.
    pub fn put_first(&mut self, mark: bool)
        requires { length self.old < 16 }
        ensures { self.new ≡ mark ∷ self.old }
    {
        self.bits = self.bits * 2 + mark as u32;
        self.count += 1;
    }

    /// Takes the first mark away, if there is one.
    pub fn take_first(&mut self) -> Option<bool>
        ensures split { self.old ≡ option_to_list result ++ self.new }
        ensures none { result ≡ None → self.old ≡ [] }
    {
        if self.count == 0 {
            return None;
        }
        let mark = self.bits % 2 == 1;
        self.bits /= 2;
        self.count -= 1;
        Some(mark)
    }
}
