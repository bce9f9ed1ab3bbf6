//! A connection: its stream, what came of it and wasn't asked yet, and what it is to be sent. It asks nobody.
ghost use Rattle.std.specs.Prelude.{◌≡◌, ◌<◌, ◌⊎◌, ◌↔◌, ◌++◌, ◌||◌, ℕ, List, [], length, true, IsTrue, IsFalse};
ghost use Rattle.mi_hub.specs.Ended.{ended};
ghost use Rattle.mi_durable.specs.HeldReplies.{bytes_of};
ghost use Rattle.mi_clients.specs.Input.{waiting};
ghost use Rattle.mi_clients.specs.declared.client.Phase.TheVariants as phases;

use crate::duplex::Duplex;
use crate::input::Input;
use crate::output::Output;
use crate::sending::{Sending, send_out};
use crate::service_lines::is_service;
use crate::silence::has_passed;
use mi_durable::HeldReplies;
use std::alloc::Global;
use std::io::ErrorKind;

/// Unsent bytes of a connection beyond which no line of it is asked.
pub const MOST_UNSENT: usize = 65_536;

/// How far a connection has come.
#[derive(Clone, Copy, PartialEq, Eq, Drop)]
pub enum Phase {
    /// More may come of it.
    Open,
    /// Its bytes have ended; lines of it may wait to be asked.
    Ended,
    /// All its lines are asked, and it holds no session; replies may wait to be sent.
    Drained,
    /// Its stream has failed, or memory for it was refused. Nothing more of it is asked or sent.
    Broken,
}

/// A connection. It is made by `connect`, and owes its peer the replies to its own lines alone.
#[derive(Drop)]
pub struct Client<S> {
    /// The number under which the hub has it attached.
    pub(crate) conn: u64,
    /// What its bytes come from and go to.
    pub(crate) stream: S,
    /// What it has sent and wasn't asked yet.
    pub(crate) input: Input,
    /// Replies that wait until their lines stay in the journal.
    pub(crate) held: HeldReplies,
    /// Replies that were handed out, and that its stream hasn't taken.
    pub(crate) output: Output,
    /// How far it has come.
    pub(crate) phase: Phase,
    /// Whether a read may give something, as far as was reported.
    may_read: bool,
    /// Whether a write may take something, as far as was reported.
    may_write: bool,
    /// Whether its peer has closed, or its stream has failed, as was reported.
    is_closing: bool,
    /// Whether a piece of it came since the clock was noted. One that has just come counts as heard.
    has_come: bool,
    /// The second of the service's clock when that was noted.
    heard_at: u64,
    /// Whether a whole line of it may wait to be asked.
    pub(crate) has_lines: bool,
    /// The number of a connection that it has asked to end, as long as that isn't done.
    pub(crate) ends: Option<u64>,
    /// Where memory for it comes from.
    pub(crate) alloc: Global,
    /// Where no line may wait, none does.
    ghost lines: { IsFalse has_lines → ended (waiting input) ≡ [] },
    /// Of one that counts as asked none waits.
    ghost all_asked: { phase ≡ phases.Drained → ended (waiting input) ≡ [] },
}

impl<S> Client<S> {
    ghost use Rattle.std.specs.Prelude.{MatchOption};
    ghost use Rattle.mi_durable.specs.Journals.{IsWholeLine};
    ghost use Rattle.mi_clients.specs.ServiceLines.{is_service};
    ghost use Rattle.mi_clients.specs.Client.{owed, IsOver, HasRoom, MayAsk, MayTell, IsAsked, WantsBytes, IsBusy, IsWoken, woken};
    ghost use Rattle.mi_clients.specs.Silence.{IsSilent, IsJudged};
    ghost use Rattle.mi_clients.specs.Ending.{forgotten, IsEnded};

    /// A connection that has just come.
    pub(crate) fn new(alloc: Global, conn: u64, stream: S) -> Client<S>
    where
        S: Drop,
        ensures conn { result.conn ≡ conn }
        ensures stream { result.stream ≡ stream }
        ensures open { result.phase ≡ phases.Open }
        ensures none { (waiting result.input ≡ []) × (owed result ≡ []) }
        ensures first { IsTrue result.input.is_first }
        ensures lines { result.input.lines ≡ 0 }
        ensures since { result.input.since ≡ 0 }
        ensures held { bytes_of result.held ≡ [] }
        ensures comes { IsTrue result.has_come }
    {
        Client {
            conn,
            stream,
            input: Input::new(alloc),
            held: HeldReplies::new(alloc),
            output: Output::new(alloc),
            phase: Phase::Open,
            may_read: true,
            may_write: true,
            is_closing: false,
            has_come: true,
            heard_at: 0,
            has_lines: false,
            ends: None,
            alloc,
        }
    }

    /// The number under which the hub has it attached.
    pub fn conn(&self) -> u64
        ensures { result ≡ self.now.conn }
    {
        self.conn
    }

    /// How many lines of it were asked, of the tables or of the service.
    pub(crate) fn lines(&self) -> u64
        ensures { result ≡ self.now.input.lines }
    {
        self.input.lines()
    }

    /// The number of its line with which it last began to hold sessions; 0 where it never did.
    pub(crate) fn since(&self) -> u64
        ensures { result ≡ self.now.input.since }
    {
        self.input.since()
    }

    /// How many bytes of its replies are unsent.
    pub(crate) fn owed_bytes(&self) -> usize
        ensures { result ≡ length (owed self.now) }
    {
        self.held.len() + self.output.waiting().len()
    }

    /// Whether so little of its replies is unsent that a line may be asked.
    fn has_room(&self) -> bool
        ensures { IsTrue result ↔ HasRoom self.now }
    {
        let held = self.held.len();
        held <= MOST_UNSENT && self.output.waiting().len() <= MOST_UNSENT - held
    }

    /// Whether its lines may be asked.
    pub(crate) fn may_ask(&self) -> bool
        ensures may { IsTrue result ↔ MayAsk self.now }
        ensures not { IsFalse result → IsAsked self.now }
    {
        self.phase != Phase::Broken && self.has_lines && self.has_room()
    }

    /// The first whole line of it that waits, where its lines may be asked and that line is the service's own.
    pub(crate) fn service_line(&self) -> Option<&[u8]>
        ensures { MatchOption result (¬ MayTell self.now) (λ line. MayTell self.now × IsWholeLine line.now × (is_service line.now ≡ true)
            × (rest : List ℕ) × (waiting self.now.input ≡ line.now ++ rest)) }
    {
        if !self.may_ask() {
            return None;
        }
        let Some(line) = self.input.line() else {
            return None;
        };
        if is_service(line) { Some(line) } else { None }
    }

    /// Whether its stream is to be read.
    fn wants_bytes(&self) -> bool
        ensures { IsTrue result ↔ WantsBytes self.now }
    {
        self.phase == Phase::Open && self.may_read && !self.has_lines && self.has_room()
    }

    /// Whether something of it can be done at once, without waiting for its stream.
    pub(crate) fn is_busy(&self) -> bool
        ensures { IsTrue result ↔ IsBusy self.now }
    {
        self.may_ask()
            || self.wants_bytes()
            || self.may_write && !self.output.waiting().is_empty()
            || self.ends.is_some()
    }

    /// Whether nothing of its replies is unsent.
    fn owes_nothing(&self) -> bool
        ensures { IsTrue result ↔ (owed self.now ≡ []) }
    {
        self.held.is_empty() && self.output.waiting().is_empty()
    }

    /// Whether it is to be let go: its stream has failed, or all of it is asked and sent.
    pub(crate) fn is_over(&self) -> bool
        ensures { IsTrue result ↔ IsOver self.now }
    {
        match self.phase {
            Phase::Open | Phase::Ended => false,
            Phase::Drained => self.owes_nothing(),
            Phase::Broken => true,
        }
    }

    /// Its stream is ready again: to be read, to be written to, or closed by its peer or failed, which a read or a write will tell.
    pub fn wake(&mut self, readable: bool, writable: bool, closing: bool)
        ensures woken { IsWoken self.old self.new }
        ensures told { self.new ≡ woken readable writable closing self.old }
    {
        self.may_read = self.may_read || readable || closing;
        self.may_write = self.may_write || writable || closing;
        self.is_closing = self.is_closing || closing;
    }

    /// Whether it has sent nothing for more seconds than its limit. While its stream is to be read something may have come.
    fn is_silent(&self, now: u64, limit: Option<u64>) -> bool
        ensures { IsTrue result ↔ IsSilent limit now self.now }
    {
        self.phase != Phase::Broken && !self.wants_bytes() && has_passed(limit, self.heard_at, now)
    }

    /// Whether nothing has come since the clock was noted, and it is silent.
    pub(crate) fn gives_up(&self, now: u64, limit: Option<u64>) -> bool
        ensures { IsTrue result ↔ (IsFalse self.now.has_come × IsSilent limit now self.now) }
    {
        !self.has_come && self.is_silent(now, limit)
    }

    /// A second of the clock: where a piece of it came, that is noted under this second; else it is given up where it is silent.
    pub(crate) fn judge(&mut self, now: u64, limit: Option<u64>)
        ensures { IsJudged limit now self.old self.new }
    {
        if self.has_come {
            self.has_come = false;
            self.heard_at = now;
        } else if self.is_silent(now, limit) {
            self.phase = Phase::Broken;
        }
    }

    /// What it has asked to end, which is noted no more.
    pub(crate) fn take_end(&mut self) -> Option<u64>
        ensures taken { result ≡ self.old.ends }
        ensures same { self.new ≡ forgotten self.old }
    {
        let ends = self.ends;
        self.ends = None;
        ends
    }

    /// It is given up, where it has this number.
    pub(crate) fn end(&mut self, conn: u64)
        ensures { IsEnded conn self.old self.new }
    {
        if self.conn == conn {
            self.phase = Phase::Broken;
        }
    }
}

impl<S: Duplex> Client<S> {
    ghost use Rattle.std.specs.Io.KnownBytes.{Keeps, Consumes, IsAtEnd};
    ghost use Rattle.mi_clients.specs.Client.{owed, HasSent, GoesOn, WantsBytes, BreaksWith, Hears, IsSame, IsRead, StopsReading};
    ghost use Rattle.mi_clients.specs.Stream.{Passes};
    ghost use Rattle.mi_clients.specs.Output.{Sends};
    ghost use Rattle.mi_clients.specs.Lines.{Ends};

    /// Reads one piece, where it is to be read: what comes waits to be asked, or its bytes have ended, or it is broken.
    pub(crate) fn read(&mut self, buffer: &mut [u8])
        requires room { 0 < length buffer.old }
        ensures piece { (piece : List ℕ) × Consumes (S.remaining self.old.stream) (S.remaining self.new.stream) piece
            × (¬ (self.old.phase ≡ phases.Open) → piece ≡ [])
            × ((self.new.phase ≡ phases.Broken) ⊎ (Hears (waiting self.old.input ++ piece) [] self.old self.new
            ⊎ ((self.new.phase ≡ phases.Ended) × (piece ≡ []) × IsAtEnd (S.remaining self.new.stream)
            × Ends (waiting self.old.input) (waiting self.new.input))))
            × StopsReading S.is_dry piece (length buffer.old) self.old self.new }
        ensures contents { Keeps (S.contents self.old.stream) (S.contents self.new.stream) }
        ensures owed { owed self.new ≡ owed self.old }
        ensures held { self.new.held ≡ self.old.held }
        ensures ends { self.new.ends ≡ self.old.ends }
        ensures lines { self.new.input.lines ≡ self.old.input.lines }
        ensures since { self.new.input.since ≡ self.old.input.since }
        ensures broken { self.old.phase ≡ phases.Broken → self.new.phase ≡ phases.Broken }
        ensures goes_on { GoesOn self.new → GoesOn self.old }
        ensures opens { self.new.phase ≡ phases.Open → self.old.phase ≡ phases.Open }
        ensures same { IsSame S.handle self.old self.new }
        ensures read { IsRead S.reads self.old self.new }
        ensures unread { ¬ WantsBytes self.old → self.new ≡ self.old }
        ensures failed { BreaksWith S.has_failed self.old → BreaksWith S.has_failed self.new }
    {
        if !self.wants_bytes() {
            return;
        }
        match self.stream.read(buffer) {
            Ok(0) => self.finish(),
            Ok(count) => {
                self.note_short_read(count < buffer.len());
                self.take(&buffer[..count]);
            }
            Err(error) => self.fail(error.kind()),
        }
    }

    /// A piece was read, and less than there was room for: then no more is there now, unless the peer has closed.
    fn note_short_read(&mut self, short: bool)
        ensures same { self.new ≡ record self.old { may_read = self.new.may_read } }
        ensures stops { IsFalse self.new.may_read → IsFalse self.old.may_read ⊎ (IsTrue short × IsFalse self.old.is_closing) }
    {
        if short && !self.is_closing {
            self.may_read = false;
        }
    }

    /// A read has failed, or would wait.
    fn fail(&mut self, kind: ErrorKind)
        ensures lasts { ¬ Passes kind → self.new.phase ≡ phases.Broken }
        ensures stops { IsFalse self.new.may_read → IsFalse self.old.may_read ⊎ (kind ≡ ErrorKind.WouldBlock) }
        ensures input { self.new.input ≡ self.old.input }
        ensures has_lines { self.new.has_lines ≡ self.old.has_lines }
        ensures same { self.new ≡ record self.old { input = self.new.input; may_read = self.new.may_read; phase = self.new.phase; has_lines = self.new.has_lines; lines = self.new.lines; all_asked = self.new.all_asked } }
    {
        match kind {
            ErrorKind::WouldBlock => self.may_read = false,
            ErrorKind::Interrupted => {}
            _ => self.phase = Phase::Broken,
        }
    }

    /// A piece has come. Behind a first line that begins as no command does no more is read.
    fn take(&mut self, piece: &[u8])
        requires open { self.old.phase ≡ phases.Open }
        requires lines { ended (waiting self.old.input) ≡ [] }
        ensures waits { (self.new.phase ≡ phases.Broken) ⊎ Hears (waiting self.old.input ++ piece.now) [] self.old self.new }
        ensures comes { IsTrue self.new.has_come }
        ensures lines { self.new.input.lines ≡ self.old.input.lines }
        ensures since { self.new.input.since ≡ self.old.input.since }
        ensures same { self.new ≡ record self.old { input = self.new.input; phase = self.new.phase; has_lines = self.new.has_lines; has_come = self.new.has_come; lines = self.new.lines; all_asked = self.new.all_asked } }
    {
        self.has_come = true;
        self.has_lines = true;
        match self.input.fill(piece) {
            Ok(true) => self.phase = Phase::Ended,
            Ok(false) => {}
            Err(_error) => self.phase = Phase::Broken,
        }
    }

    /// Nothing more comes.
    fn finish(&mut self)
        requires { ended (waiting self.old.input) ≡ [] }
        ensures ends { (self.new.phase ≡ phases.Broken) ⊎ ((self.new.phase ≡ phases.Ended) × Ends (waiting self.old.input) (waiting self.new.input)) }
        ensures lines { self.new.input.lines ≡ self.old.input.lines }
        ensures since { self.new.input.since ≡ self.old.input.since }
        ensures same { self.new ≡ record self.old { input = self.new.input; phase = self.new.phase; has_lines = self.new.has_lines; lines = self.new.lines; all_asked = self.new.all_asked } }
    {
        self.has_lines = true;
        match self.input.end() {
            Ok(()) => self.phase = Phase::Ended,
            Err(_error) => self.phase = Phase::Broken,
        }
    }

    /// Sends what was handed out, as much as its stream takes now. Each byte is sent or owed still; once all is sent its memory is let go.
    pub(crate) fn send(&mut self)
        ensures sent { Sends S.contents self.old.stream self.new.stream (owed self.old) (owed self.new) }
        ensures remaining { Keeps (S.remaining self.old.stream) (S.remaining self.new.stream) }
        ensures handle { S.handle self.new.stream ≡ S.handle self.old.stream }
        ensures reads { S.reads self.new.stream ≡ S.reads self.old.stream }
        ensures failed { BreaksWith S.has_failed self.old → BreaksWith S.has_failed self.new }
        ensures lost { self.new.phase ≡ phases.Broken → (self.old.phase ≡ phases.Broken) ⊎ (S.is_lost self.new.stream ≡ true) }
        ensures full { IsFalse self.new.may_write → IsFalse self.old.may_write ⊎ (S.is_full self.new.stream ≡ true) }
        ensures all { HasSent self.new }
        ensures broken { self.old.phase ≡ phases.Broken → self.new.phase ≡ phases.Broken }
        ensures phase { (self.new.phase ≡ phases.Broken) ⊎ (self.new.phase ≡ self.old.phase) }
        ensures input { self.new.input ≡ self.old.input }
        ensures has_lines { self.new.has_lines ≡ self.old.has_lines }
        ensures same { self.new ≡ record self.old { stream = self.new.stream; input = self.new.input; output = self.new.output; phase = self.new.phase; may_write = self.new.may_write; has_lines = self.new.has_lines; lines = self.new.lines; all_asked = self.new.all_asked } }
    {
        if !self.may_write || self.phase == Phase::Broken {
            return;
        }
        match send_out(&mut self.stream, &mut self.output) {
            Sending::All => self.output = Output::new(self.alloc),
            Sending::Blocked => self.may_write = false,
            Sending::Failed => self.phase = Phase::Broken,
        }
    }
}
