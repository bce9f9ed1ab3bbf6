//! What a connection has sent and wasn't asked yet: whole lines, and the beginning of one. It reads no stream.
ghost use Rattle.std.specs.Prelude.{◌≡◌, ◌≤◌, ◌++◌, ℕ, List, [], length, drop, OnOk, OnErr, IfOk, IsTrue, MatchOption, if◌then◌else◌};
ghost use Rattle.mi_hub.specs.Ended.{ended};
ghost use Rattle.mi_durable.specs.Journals.{IsWholeLine};
ghost use Rattle.mi_clients.specs.Lines.{SameLines, Ends, IsFilled};
ghost use Rattle.mi_clients.specs.Heard as hearing;

use crate::lines::{closing, heard_of, is_last, is_still_first, kept_of};
use memchr::memchr;
use std::alloc::{AllocError, Global};

/// Bytes that a connection has sent, from the first that wasn't asked on.
///
/// Of a line that is longer than a line may be no more is kept than tells that it is over-long. Behind the first line nothing is kept, where
/// that begins as no command does.
#[derive(Drop)]
pub struct Input {
    bytes: Vec<u8>,
    asked: usize,
    /// How many lines of it were asked, as far as 64 bits count.
    lines: u64,
    /// The number of the line, among these, with which it last began to hold sessions; 0 where it never did.
    since: u64,
    /// Whether its first line is still to come.
    is_first: bool,
    ghost within: { asked ≤ length bytes.items },
    /// Where its first line is still to come, no whole line waits.
    ghost first: { IsTrue is_first → ended (drop asked bytes.items) ≡ [] },
}

/// The number of the line with which it last began to hold sessions, where it has asked this line, and that was its number before.
fn since_line(begins: bool, line: u64, before: u64) -> u64
    ensures { result ≡ (if begins then line else before) }
{
    if begins { line } else { before }
}

impl Input {
    ghost use Rattle.mi_clients.specs.Input.{waiting, kept, after_line};

    /// Nothing was sent yet.
    pub fn new(alloc: Global) -> Input
        ensures none { waiting result ≡ [] }
        ensures first { IsTrue result.is_first }
        ensures lines { result.lines ≡ 0 }
        ensures since { result.since ≡ 0 }
    {
        Input {
            bytes: Vec::new(alloc),
            asked: 0,
            lines: 0,
            since: 0,
            is_first: true,
        }
    }

    /// What wasn't asked yet.
    pub fn waiting(&self) -> &[u8]
        ensures { result.now ≡ waiting self.now }
    {
        let (_, waiting) = self.bytes.as_slice().split_at(self.asked);
        waiting
    }

    /// The first whole line, with its newline.
    pub fn line(&self) -> Option<&[u8]>
        ensures { MatchOption result (ended (waiting self.now) ≡ [])
            (λ line. IsWholeLine line.now × (rest : List ℕ) × (waiting self.now ≡ line.now ++ rest)) }
    {
        let waiting = self.waiting();
        let at = memchr(b'\n', waiting)?;
        let (line, _) = waiting.split_at(at + 1);
        Some(line)
    }

    /// How many lines of it were asked.
    pub fn lines(&self) -> u64
        ensures { result ≡ self.now.lines }
    {
        self.lines
    }

    /// The number of the line with which it last began to hold sessions; 0 where it never did.
    pub fn since(&self) -> u64
        ensures { result ≡ self.now.since }
    {
        self.since
    }

    /// The first line, of so many bytes, has been asked. It may have begun to hold sessions by it.
    pub fn pass(&mut self, count: usize, begins: bool)
        requires { count ≤ length (waiting self.old) }
        ensures waiting { waiting self.new ≡ drop count (waiting self.old) }
        ensures first { self.new.is_first ≡ self.old.is_first }
        ensures lines { self.new.lines ≡ after_line self.old.lines }
        ensures since { self.new.since ≡ (if begins then after_line self.old.lines else self.old.since) }
    {
        self.asked += count;
        self.lines = self.lines.saturating_add(1);
        self.since = since_line(begins, self.lines, self.since);
    }

    /// What was asked is let go.
    fn compact(&mut self)
        ensures waiting { waiting self.new ≡ waiting self.old }
        ensures let_go { kept self.new ≡ waiting self.new }
        ensures none { self.new.asked ≡ 0 }
        ensures first { self.new.is_first ≡ self.old.is_first }
        ensures lines { self.new.lines ≡ self.old.lines }
        ensures since { self.new.since ≡ self.old.since }
    {
        let left = self.bytes.len() - self.asked;
        self.bytes.rotate_left(self.asked);
        self.bytes.truncate(left);
        self.asked = 0;
    }

    /// A piece comes behind the beginning of a line, and what was asked is let go. The answer is whether the connection has ended by it: its first
    /// line is whole and begins as no command does, and nothing behind that is heard. An error leaves what waits as it is.
    pub fn fill(&mut self, piece: &[u8]) -> Result<bool, AllocError>
        requires { ended (waiting self.old) ≡ [] }
        ensures ok { OnOk result (SameLines (hearing.heard self.old.is_first (waiting self.old ++ piece.now)) (waiting self.new)) }
        ensures first { OnOk result (self.new.is_first ≡ hearing.still_first self.old.is_first (waiting self.old ++ piece.now)) }
        ensures last { IfOk result (λ last. last ≡ hearing.is_last self.old.is_first (waiting self.old ++ piece.now)) }
        ensures kept { OnOk result ((part : List ℕ) × (waiting self.old ++ part ≡ hearing.heard self.old.is_first (waiting self.old ++ piece.now))
            × IsFilled (waiting self.old) part (waiting self.new)) }
        ensures err { OnErr result (waiting self.new ≡ waiting self.old) }
        ensures let_go { kept self.new ≡ waiting self.new }
        ensures lines { self.new.lines ≡ self.old.lines }
        ensures since { self.new.since ≡ self.old.since }
    {
        self.compact();
        let is_last = is_last(self.is_first, self.waiting(), piece);
        let heard = heard_of(self.is_first, self.waiting(), piece);
        let kept = kept_of(self.waiting(), heard);
        self.bytes.extend_from_slice(kept)?;
        self.is_first = is_still_first(self.is_first, piece);
        Ok(is_last)
    }

    /// Nothing more comes: what no newline ended is a line all the same, and no carriage return of it is dropped.
    ///
    /// One case is left: where it is as long as a line may be and ends in a carriage return, it isn't asked.
    pub fn end(&mut self) -> Result<(), AllocError>
        requires { ended (waiting self.old) ≡ [] }
        ensures ends { OnOk result (Ends (waiting self.old) (waiting self.new)) }
        ensures lines { self.new.lines ≡ self.old.lines }
        ensures since { self.new.since ≡ self.old.since }
    {
        self.is_first = false;
        match closing(self.waiting()) {
            Some(more) => self.bytes.extend_from_slice(more),
            None => {
                self.asked = self.bytes.len();
                Ok(())
            }
        }
    }
}
