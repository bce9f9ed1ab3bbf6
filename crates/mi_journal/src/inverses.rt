//! The inverses of open sessions. Of an inverse only what each has stands in the journal; the old record of a put and the places
//! that it has stand in two rings, the newest last. A step is put together again as it leaves the newest session.
use crate::entry::Entry;
use crate::journal::Journal;
use crate::store::{fetch, fetch_to_settle, store};
use mi_container::{OldPlaces, Step};
use mi_node::MaybePlace;
use mi_value::Record;
use std::alloc::{AllocError, Global};
use std::collections::VecDeque;
use std::marker::Model;

/// Inverses of changes by open session, each with the number of its table.
///
/// Room is what `reserve` took. It falls by at most one with each inverse that is noted, and by one with each session that is
/// opened. No other call takes memory or gives any away.
#[derive(Drop)]
pub struct Inverses {
    entries: Journal<Entry>,
    records: VecDeque<Record>,
    places: VecDeque<MaybePlace>,
    most: usize,
}

impl Model for Inverses {
    ghost use Rattle.std.specs.Prelude.{◌≡◌, ◌+◌, ◌-◌, ◌<◌, length, reverse};
    ghost use Rattle.std.specs.List.{All};
    ghost use Rattle.std.specs.VecDeque.{deque_len, deque_capacity};
    ghost use Rattle.mi_journal.specs.Filled.{decoded_all, records_of_all, places_of_all, IsThere};
    ghost use Rattle.mi_journal.specs.Stored.{Stored, entries_of_all, room_in};

    ghost Value = { Stored };

    ghost view = { λ a. record {
      sessions = decoded_all a.entries.sessions (reverse a.records.items) (reverse a.places.items);
      changes = room_in a.most a.entries.changes (deque_capacity a.records - deque_len a.records) (deque_capacity a.places - deque_len a.places);
      starts = a.entries.starts;
      most = a.most;
      rings = record {
        entries = a.entries.changes + entries_of_all a.entries.sessions;
        records = deque_capacity a.records;
        places = deque_capacity a.places;
      };
    } };

    ghost invariant = { λ a. (length a.records.items ≡ records_of_all a.entries.sessions) × (length a.places.items ≡ places_of_all a.entries.sessions)
        × All IsThere a.places.items };
}

impl Inverses {
    ghost use Rattle.std.specs.Prelude.{◌≡◌, ◌+◌, ◌<◌, ◌≤◌, [], ◌∷◌, ◌++◌, length, OnOk};
    ghost use Rattle.std.specs.Option.{option_map};
    ghost use Rattle.mi_container.specs.Backs.{places_seen, step_seen};
    ghost use Rattle.mi_journal.specs.Noted.{noted, top_joined, newest_entry, without_entry, without_newest};
    ghost use Rattle.mi_journal.specs.Noted.{NewestIsEmpty, TwoAreOpen, OldestIsEmpty};
    ghost use Rattle.mi_journal.specs.Stored.{IsWithin, TakesToSettle, room_beside};

    /// No open session, and no room. `most` is how many old places a put has at most.
    pub fn new(alloc: Global, most: usize) -> Inverses
        ensures sessions { result.sessions ≡ [] }
        ensures most { result.most ≡ most }
    {
        Inverses {
            entries: Journal::new(alloc),
            records: VecDeque::new(alloc),
            places: VecDeque::new(alloc),
            most,
        }
    }

    /// Room for so many changes and so many sessions more, whichever changes they are: 40 bytes a change for its entry, 48 for an
    /// old record and 16 for each of `most` old places. Where memory is refused, or the places are more than can be counted, the
    /// room for some of it may have grown.
    pub fn reserve(&mut self, changes: usize, sessions: usize) -> Result<(), AllocError>
        ensures sessions { self.new.sessions ≡ self.old.sessions }
        ensures changes { self.old.changes ≤ self.new.changes }
        ensures starts { self.old.starts ≤ self.new.starts }
        ensures room { OnOk result ((changes ≤ self.new.changes) × (sessions ≤ self.new.starts)) }
        ensures most { self.new.most ≡ self.old.most }
    {
        let Some(places) = changes.checked_mul(self.most) else {
            return Err(AllocError);
        };
        self.entries.reserve(changes, sessions)?;
        self.records.reserve(changes)?;
        self.places.reserve(places)
    }

    /// Opens a session.
    pub fn open_session(&mut self)
        requires { 0 < self.old.starts }
        ensures sessions { self.new.sessions ≡ [] ∷ self.old.sessions }
        ensures changes { self.new.changes ≡ self.old.changes }
        ensures starts { self.new.starts + 1 ≡ self.old.starts }
        ensures most { self.new.most ≡ self.old.most }
        ensures rings { self.new.rings ≡ self.old.rings }
    {
        self.entries.open_session();
    }

    /// Notes an inverse in the newest session: a step, and the old places that are laid down beside it if it is a put. Those are taken out.
    pub fn note(&mut self, table: usize, step: Step, laid: &mut OldPlaces)
        requires open { 0 < length self.old.sessions }
        requires room { 0 < self.old.changes }
        requires within { IsWithin self.old.most (step_seen step (places_seen laid.old.items)) }
        ensures sessions { self.new.sessions ≡ noted (table, step_seen step (places_seen laid.old.items)) self.old.sessions }
        ensures changes { self.old.changes ≤ self.new.changes + 1 }
        ensures starts { self.new.starts ≡ self.old.starts }
        ensures most { self.new.most ≡ self.old.most }
        ensures rings { self.new.rings ≡ self.old.rings }
    {
        let entry = store(step, laid, &mut self.records, &mut self.places, self.most);
        self.entries.note(table, entry);
    }

    /// The newest inverse of the newest session, which leaves it; or none where it has none. The old places of a put are laid down, in
    /// place of what stands there.
    pub fn pop(&mut self, laid: &mut OldPlaces) -> Option<(usize, Step)>
        ensures entry { option_map (λ e. (e.0, step_seen e.1 (places_seen laid.new.items))) result ≡ newest_entry self.old.sessions }
        ensures sessions { self.new.sessions ≡ without_entry self.old.sessions }
        ensures changes { self.old.changes ≤ self.new.changes }
        ensures starts { self.new.starts ≡ self.old.starts }
        ensures most { self.new.most ≡ self.old.most }
        ensures rings { self.new.rings ≡ self.old.rings }
    {
        match self.entries.pop() {
            Some((table, entry)) => {
                let step = fetch(entry, &mut self.records, &mut self.places, laid);
                Some((table, step))
            }
            None => None,
        }
    }

    /// Ends the newest session, which has no inverse.
    pub fn end_session(&mut self)
        requires { NewestIsEmpty self.old.sessions }
        ensures sessions { self.new.sessions ≡ without_newest self.old.sessions }
        ensures changes { self.new.changes ≡ self.old.changes }
        ensures starts { self.new.starts ≡ self.old.starts + 1 }
        ensures most { self.new.most ≡ self.old.most }
        ensures rings { self.new.rings ≡ self.old.rings }
    {
        self.entries.end_session();
    }

    /// Joins the newest session into the one below it. No inverse moves.
    pub fn join_top(&mut self)
        requires { TwoAreOpen self.old.sessions }
        ensures sessions { self.new.sessions ≡ top_joined self.old.sessions }
        ensures changes { self.new.changes ≡ self.old.changes }
        ensures starts { self.new.starts ≡ self.old.starts + 1 }
        ensures most { self.new.most ≡ self.old.most }
        ensures rings { self.new.rings ≡ self.old.rings }
    {
        self.entries.join_top();
    }

    /// The oldest inverse of the oldest session leaves it, and what settles it is answered; or none where it has none. A put
    /// is settled by nothing, so its record and its places aren't put together again.
    pub fn take_oldest(&mut self) -> Option<(usize, Step)>
        ensures sessions { TakesToSettle (option_map (λ e. (e.0, step_seen e.1 [])) result) self.old.sessions self.new.sessions }
        ensures changes { self.old.changes ≤ self.new.changes }
        ensures starts { self.new.starts ≡ self.old.starts }
        ensures most { self.new.most ≡ self.old.most }
        ensures rings { self.new.rings ≡ self.old.rings }
    {
        match self.entries.take_oldest() {
            Some((table, entry)) => {
                let step = fetch_to_settle(entry, &mut self.records, &mut self.places);
                Some((table, step))
            }
            None => None,
        }
    }

    /// Ends the oldest session, which has no inverse.
    pub fn end_oldest(&mut self)
        requires { OldestIsEmpty self.old.sessions }
        ensures sessions { self.old.sessions ≡ self.new.sessions ++ [] ∷ [] }
        ensures changes { self.new.changes ≡ self.old.changes }
        ensures starts { self.new.starts ≡ self.old.starts + 1 }
        ensures most { self.new.most ≡ self.old.most }
        ensures rings { self.new.rings ≡ self.old.rings }
    {
        self.entries.end_oldest();
    }

    /// How many sessions are open.
    pub fn depth(&self) -> usize
        ensures { result ≡ length self.now.sessions }
    {
        self.entries.depth()
    }

    /// For how many changes and how many sessions more there is room: for what the rings have memory for, but for what the sessions
    /// take of it.
    pub fn room(&self) -> (usize, usize)
        ensures changes { result.0 ≡ self.now.changes }
        ensures starts { result.1 ≡ self.now.starts }
        ensures beside { self.now.changes ≡ room_beside self.now.most self.now.rings self.now.sessions }
    {
        let (entries, starts) = self.entries.room();
        let records = self.records.capacity() - self.records.len();
        let places = self.places.capacity() - self.places.len();
        let changes = if self.most == 0 {
            entries.min(records)
        } else {
            entries.min(records).min(places / self.most)
        };
        (changes, starts)
    }
}
