//! The lines in front of which the open sessions of a replay began. It is told how many sessions are open and the revision, line by line, and
//! touches neither the lines nor the database.
ghost use Rattle.std.specs.Prelude.{◌≡◌, ℕ, ◌-◌, List, take, drop, length};

use std::alloc::{AllocError, Global};
use std::collections::VecDeque;
use std::marker::Model;

/// Where the open sessions of a replay began, and so where a base of it may stand.
#[derive(Drop)]
pub struct OpenStarts {
    starts: VecDeque<u64>,
    lines: u64,
    revision: u64,
}

impl Model for OpenStarts {
    ghost use Rattle.mi_checkpoint.specs.OpenStarts.{Starts};

    ghost Value = { Starts };

    ghost view = { λ o. record { places = o.starts.items; lines = o.lines; revision = o.revision } };
}

/// So many of the newest go.
fn end_newest(starts: &mut VecDeque<u64>, count: u64)
    ensures { starts.new.items ≡ take (length starts.old.items - count) starts.old.items }
{
    let left = starts.len().saturating_sub(count as usize);
    starts.truncate(left);
}

/// The oldest go, until no more than so many are left.
fn end_oldest(starts: &mut VecDeque<u64>, left: u64)
    ensures { starts.new.items ≡ drop (length starts.old.items - left) starts.old.items }
{
    let ended = starts.len().saturating_sub(left as usize);
    'ended: for _ in 0..ended {
        starts.pop_front();
    }
}

impl OpenStarts {
    ghost use Rattle.std.specs.Prelude.{◌≡◌, ℕ, ◌+◌, ◌-◌, ◌<◌, ◌^◌, List, [], ◌∷◌, ◌++◌, OnOk, OnErr};
    ghost use Rattle.mi_commands.specs.Asked.{Asked};
    ghost use Rattle.mi_commands.specs.Holder.{HeldDatabase};
    ghost use Rattle.mi_replay.specs.Replayed.{replayed};
    ghost use Rattle.mi_checkpoint.specs.Settled.{AreTaken, IsReplaying};
    ghost use Rattle.mi_checkpoint.specs.OpenStarts.{MovesOn, Knows, IsLastUpTo, StandsAt, IsTold, IsCheckpoint, BaseReplays};

    /// A replay begins at this revision, with no session open. It takes no memory.
    pub fn new(alloc: Global, revision: u64) -> OpenStarts
        ensures told { (s : HeldDatabase) → StandsAt s 0 revision → IsTold s [] result }
        ensures lines { result.lines ≡ 0 }
        ensures revision { result.revision ≡ revision }
    {
        OpenStarts {
            starts: VecDeque::new(alloc),
            lines: 0,
            revision,
        }
    }

    /// One line more was asked. So many sessions are open behind it, at this revision.
    ///
    /// `AllocError` where a session began and there is no memory to keep where. Then nothing has changed.
    pub fn note(&mut self, depth: u64, revision: u64) -> Result<(), AllocError>
        requires { self.old.lines + 1 < 2 ^ 64 }
        ensures told { OnOk result ((s : HeldDatabase) (lines : List Asked) (line : Asked) → IsReplaying s → IsTold s lines self.old
            → StandsAt (replayed (lines ++ line ∷ []) s) depth revision → IsTold s (lines ++ line ∷ []) self.new) }
        ensures knows { OnOk result ((rs : List ℕ) (k : ℕ) → Knows rs k self.old → MovesOn k self.old.revision depth revision
            → Knows (rs ++ revision ∷ []) depth self.new) }
        ensures lines { OnOk result (self.new.lines ≡ self.old.lines + 1) }
        ensures revision { OnOk result (self.new.revision ≡ revision) }
        ensures memory { OnErr result ((self.new ≡ self.old) × (self.old.revision < revision)) }
    {
        if revision > self.revision {
            self.starts.reserve(1)?;
            self.starts.push_back_reserved(self.lines);
        } else {
            end_newest(&mut self.starts, self.revision - revision);
            end_oldest(&mut self.starts, depth);
        }
        self.revision = revision;
        self.lines += 1;
        Ok(())
    }

    /// How many lines it was told of.
    pub fn lines(&self) -> u64
        ensures { result ≡ self.now.lines }
    {
        self.lines
    }

    /// Where the oldest open session began, or behind all lines.
    fn oldest(&self) -> u64
        ensures { (rs : List ℕ) (k : ℕ) → Knows rs k self.now → IsLastUpTo rs (self.now.revision - k) result }
    {
        match self.starts.front() {
            Some(place) => *place,
            None => self.lines,
        }
    }

    /// The most of the lines behind which a base may stand. Every session that is open there has ended by now, so all of them may be ended at
    /// once. Where no session is open now, these are all lines, and else those in front of the oldest open start.
    pub fn settled_lines(&self) -> u64
        ensures place { (s : HeldDatabase) (lines : List Asked) → IsTold s lines self.now → IsCheckpoint s lines result }
        ensures replays { (s : HeldDatabase) (lines : List Asked) → IsReplaying s → AreTaken lines s → IsTold s lines self.now → BaseReplays s lines result }
    {
        self.oldest()
    }
}
