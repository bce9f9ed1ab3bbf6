//! A journal as one ring of entries, the oldest first, and one ring with the number of entries of each open session.
//! A session that joins the one below adds its number to that one's, and no entry moves. It never looks into an inverse.
use std::alloc::{AllocError, Global};
use std::collections::VecDeque;
use std::marker::Model;

/// Inverses of changes by open session, each with the number of its table.
///
/// Room is what `reserve` took. It falls by one with each entry that is noted and each session that is opened, and rises by
/// one with each that leaves or ends. No other call takes memory or gives any away.
#[derive(Drop)]
pub struct Journal<T> {
    entries: VecDeque<(usize, T)>,
    counts: VecDeque<usize>,
}

impl<T> Model for Journal<T> {
    ghost use Rattle.std.specs.Prelude.{◌≡◌, ◌-◌, length, reverse, sum};
    ghost use Rattle.std.specs.VecDeque.{deque_len, deque_capacity};
    ghost use Rattle.mi_journal.specs.Noted.{Noted, cut};

    ghost Value = { Noted T };

    ghost view = { λ a. record {
      sessions = cut (reverse a.counts.items) (reverse a.entries.items);
      changes = deque_capacity a.entries - deque_len a.entries;
      starts = deque_capacity a.counts - deque_len a.counts;
    } };

    ghost invariant = { λ a. sum a.counts.items ≡ length a.entries.items };
}

impl<T> Journal<T> {
    ghost use Rattle.std.specs.Prelude.{◌≡◌, ◌+◌, ◌<◌, ◌≤◌, [], ◌∷◌, ◌++◌, length, OnOk};
    ghost use Rattle.std.specs.Option.{option_to_list};
    ghost use Rattle.mi_journal.specs.Noted.{noted, top_joined, newest_entry, without_entry, without_newest};
    ghost use Rattle.mi_journal.specs.Noted.{NewestIsEmpty, TwoAreOpen, OldestIsEmpty, TakesOldest};

    /// No open session, and no room.
    pub fn new(alloc: Global) -> Journal<T>
        ensures { result.sessions ≡ [] }
    {
        Journal {
            entries: VecDeque::new(alloc),
            counts: VecDeque::new(alloc),
        }
    }

    /// Room for so many entries and so many sessions more. Where memory is refused the room for entries may have grown.
    pub fn reserve(&mut self, changes: usize, sessions: usize) -> Result<(), AllocError>
        ensures sessions { self.new.sessions ≡ self.old.sessions }
        ensures changes { self.old.changes ≤ self.new.changes }
        ensures starts { self.old.starts ≤ self.new.starts }
        ensures room { OnOk result ((changes ≤ self.new.changes) × (sessions ≤ self.new.starts)) }
    {
        self.entries.reserve(changes)?;
        self.counts.reserve(sessions)
    }

    /// Opens a session.
    pub fn open_session(&mut self)
        requires { 0 < self.old.starts }
        ensures sessions { self.new.sessions ≡ [] ∷ self.old.sessions }
        ensures changes { self.new.changes ≡ self.old.changes }
        ensures starts { self.new.starts + 1 ≡ self.old.starts }
    {
        self.counts.push_back_reserved(0);
    }

    /// Notes an entry in the newest session.
    pub fn note(&mut self, table: usize, inverse: T)
        requires open { 0 < length self.old.sessions }
        requires room { 0 < self.old.changes }
        ensures sessions { self.new.sessions ≡ noted (table, inverse) self.old.sessions }
        ensures changes { self.new.changes + 1 ≡ self.old.changes }
        ensures starts { self.new.starts ≡ self.old.starts }
    {
        self.entries.push_back_reserved((table, inverse));
        let newest = self.counts.len() - 1;
        self.counts[newest] += 1;
    }

    /// The newest entry of the newest session, which leaves it; or none where it has none.
    pub fn pop(&mut self) -> Option<(usize, T)>
        ensures entry { result ≡ newest_entry self.old.sessions }
        ensures sessions { self.new.sessions ≡ without_entry self.old.sessions }
        ensures changes { self.new.changes ≡ self.old.changes + length (option_to_list result) }
        ensures starts { self.new.starts ≡ self.old.starts }
    {
        let open = self.counts.len();
        if open == 0 || self.counts[open - 1] == 0 {
            return None;
        }
        self.counts[open - 1] -= 1;
        self.entries.pop_back()
    }

    /// Ends the newest session, which has no entry.
    pub fn end_session(&mut self)
        requires { NewestIsEmpty self.old.sessions }
        ensures sessions { self.new.sessions ≡ without_newest self.old.sessions }
        ensures changes { self.new.changes ≡ self.old.changes }
        ensures starts { self.new.starts ≡ self.old.starts + 1 }
    {
        self.counts.pop_back();
    }

    /// Joins the newest session into the one below it. No entry moves.
    pub fn join_top(&mut self)
        requires { TwoAreOpen self.old.sessions }
        ensures sessions { self.new.sessions ≡ top_joined self.old.sessions }
        ensures changes { self.new.changes ≡ self.old.changes }
        ensures starts { self.new.starts ≡ self.old.starts + 1 }
    {
        if let Some(count) = self.counts.pop_back() {
            let below = self.counts.len() - 1;
            self.counts[below] += count;
        }
    }

    /// The oldest entry of the oldest session, which leaves it; or none where it has none.
    pub fn take_oldest(&mut self) -> Option<(usize, T)>
        ensures sessions { TakesOldest result self.old.sessions self.new.sessions }
        ensures changes { self.new.changes ≡ self.old.changes + length (option_to_list result) }
        ensures starts { self.new.starts ≡ self.old.starts }
    {
        let open = self.counts.len();
        if open == 0 || self.counts[0] == 0 {
            return None;
        }
        self.counts[0] -= 1;
        self.entries.pop_front()
    }

    /// Ends the oldest session, which has no entry.
    pub fn end_oldest(&mut self)
        requires { OldestIsEmpty self.old.sessions }
        ensures sessions { self.old.sessions ≡ self.new.sessions ++ [] ∷ [] }
        ensures changes { self.new.changes ≡ self.old.changes }
        ensures starts { self.new.starts ≡ self.old.starts + 1 }
    {
        self.counts.pop_front();
    }

    /// How many sessions are open.
    pub fn depth(&self) -> usize
        ensures { result ≡ length self.now.sessions }
    {
        self.counts.len()
    }

    /// For how many entries and how many sessions more there is room.
    pub fn room(&self) -> (usize, usize)
        ensures changes { result.0 ≡ self.now.changes }
        ensures starts { result.1 ≡ self.now.starts }
    {
        (
            self.entries.capacity() - self.entries.len(),
            self.counts.capacity() - self.counts.len(),
        )
    }
}
