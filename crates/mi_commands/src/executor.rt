//! Commands, one line at a time, over the database: parsed, kept out where another connection holds sessions, bound, done, said.
//! It reads and writes no stream, and knows of the database what `Sessions` says.
ghost use Rattle.std.specs.Prelude.{◌≡◌, ◌≤◌, ℕ, true, false, None, Some, Err, IfOk, IfErr, option_map};
ghost use Rattle.mi_model.specs.Database.{depth, undone_times};
ghost use Rattle.mi_protocol.specs.Binding.{FitsCatalog};
ghost use Rattle.mi_request.specs.Answers.{NamesNoIndex};
ghost use Rattle.mi_protocol.specs.Replies.{reply_text, refused};

use crate::holder::{Holder, held_by, is_busy, without_holder};
use crate::line::Line;
use mi_protocol::{
    Change, Command, KeyLookUp, LineReader, Name, NumberLookUp, NumberLookUpRequest, Output, Reply,
    ReplyLabels, Request, SessionCommand, ShortRequest, bind_change, bind_key_look_up,
    bind_number_look_up,
};
use mi_sessions::Sessions;
use mi_value::Refusal;
use std::alloc::Global;
use std::marker::Model;

/// A database, who holds its open sessions, what reads the lines that ask it, and the labels of the rows that are shown. The labels are
/// none, or those of the database's catalog, which never changes.
#[derive(Drop)]
pub struct Executor<D: Sessions + Drop> {
    pub(crate) database: D,
    pub(crate) holder: Option<Holder>,
    pub(crate) alloc: Global,
    lines: LineReader,
    pub(crate) labels: ReplyLabels,
}

impl<D: Sessions + Drop> Model for Executor<D> {
    ghost use Rattle.std.specs.Prelude.{◌≤◌, length};
    ghost use Rattle.mi_commands.specs.Holder.{HeldDatabase, held_count};
    ghost use Rattle.mi_model.specs.Database.{depth};
    ghost use Rattle.mi_protocol.specs.Labels.{AreLabelsOf};

    ghost Value = { HeldDatabase };

    ghost view = { λ d. record { database = D.state d.database; holder = d.holder } };

    ghost invariant = { λ d. (held_count d.holder ≤ depth (D.state d.database)) × AreLabelsOf (D.state d.database).catalog d.labels };
}

impl<D: Sessions + Drop> Executor<D> {
    ghost use Rattle.mi_commands.specs.Holder as holder;
    ghost use Rattle.mi_commands.specs.Holder.{released};
    ghost use Rattle.mi_commands.specs.Answer.{IsAnswered, IsAsked, MayGive, MayAnswer};
    ghost use Rattle.mi_commands.specs.Asked.{text, asked_of};
    ghost use Rattle.mi_request.specs.Short.{short_line, asked_short};
    ghost use Rattle.mi_request.specs.declared.request.ShortRequest.{ShortRequest as Short};

    /// A database that nobody holds sessions of. It takes no memory; until `make_labels` has made labels, rows are written without.
    pub fn new(alloc: Global, database: D) -> Executor<D>
        ensures { result ≡ record { database = D.state database; holder = None } }
    {
        Executor {
            database,
            holder: None,
            alloc,
            lines: LineReader::new(alloc),
            labels: ReplyLabels::none(alloc),
        }
    }

    /// Makes the labels of the rows that are shown, if there are none yet: they save time, and no answer depends on them. Where memory
    /// for them is refused there are none still.
    pub fn make_labels(&mut self)
        ensures { self.new ≡ self.old }
    {
        if !self.labels.is_empty() {
            return;
        }
        if let Ok(labels) = ReplyLabels::of(self.alloc, self.database.catalog()) {
            self.labels = labels;
        }
    }

    /// What is served.
    pub fn database(&self) -> &D
        ensures { D.state result.now ≡ self.now.database }
    {
        &self.database
    }

    /// The connection that holds open sessions.
    pub fn holder(&self) -> Option<u64>
        ensures { result ≡ option_map (λ h. h.conn) self.now.holder }
    {
        match &self.holder {
            Some(holder) => Some(holder.conn),
            None => None,
        }
    }

    /// Whether another connection holds sessions.
    pub fn keeps_out(&self, conn: u64) -> bool
        ensures { result ≡ holder.is_busy self.now.holder conn }
    {
        is_busy(&self.holder, conn)
    }

    /// A connection goes away: the sessions that it holds are undone.
    pub fn release(&mut self, conn: u64)
        ensures { self.new ≡ released conn self.old }
    {
        let count = held_by(&self.holder, conn);
        self.holder = without_holder(self.holder, conn);
        undo_times(&mut self.database, count);
    }

    /// Answers a line of a connection: the output has its reply then, and nothing else. It says whether tables, sessions or holder may have
    /// changed; where they haven't, all is as before. `memory` may stand in the place of any answer, and then nothing has changed. It never
    /// answers an over-long line, nor some that are written without spaces: `revision`, `size`, `rank`, and session commands other than
    /// `start`.
    pub fn answer(&mut self, conn: u64, line: Line<'_>, out: &mut Output) -> bool
        ensures given { MayGive conn self.old (asked_of line.entry) out.new self.new }
        ensures changed { MayAnswer conn self.old (asked_of line.entry) out.new result self.new }
        ensures kept { result ≡ false → self.new ≡ self.old }
    {
        self.answer_line(conn, line, out)
    }

    /// Answers a line, and says whether anything may have changed.
    fn answer_line(&mut self, conn: u64, line: Line<'_>, out: &mut Output) -> bool
        ensures { MayAnswer conn self.old (asked_of line.entry) out.new result self.new }
    {
        match line {
            Line::Text(text) => self.answer_text(conn, text, out),
            Line::TooLong => self.refuse(Refusal::Line, out),
        }
    }

    /// Answers a look-up by numbers, and says that nothing has changed.
    fn answer_numbers(&self, table: usize, look_up: &NumberLookUp, out: &mut Output) -> bool
        requires fits { FitsCatalog self.now.database.catalog (Command.NumberLookUp table look_up.now) }
        ensures { IsAnswered self.now 0 (Command.NumberLookUp table look_up.now) out.new result self.now }
    {
        let reply = self.look_by_numbers(table, look_up);
        out.put(self.alloc, &reply, self.database.catalog(), &self.labels);
        false
    }

    /// Answers a look-up by keys, and says that nothing has changed. It is a call of its own, so that it clears no room that only a change needs.
    #[inline(never)]
    fn answer_keys(&self, table: usize, look_up: &KeyLookUp, out: &mut Output) -> bool
        requires fits { FitsCatalog self.now.database.catalog (Command.KeyLookUp table look_up.now) }
        ensures { IsAnswered self.now 0 (Command.KeyLookUp table look_up.now) out.new result self.now }
    {
        let reply = self.look_by_keys(table, look_up);
        out.put(self.alloc, &reply, self.database.catalog(), &self.labels);
        false
    }

    /// Changes a table, and says whether anything may have changed.
    fn answer_change(&mut self, table: usize, change: Change, out: &mut Output) -> bool
        requires fits { FitsCatalog self.old.database.catalog (Command.Change table change) }
        ensures { IsAnswered self.old 0 (Command.Change table change) out.new result self.new }
    {
        let outcome = self.change(table, change);
        out.put(
            self.alloc,
            &outcome.reply,
            self.database.catalog(),
            &self.labels,
        );
        outcome.changed
    }

    /// Does a command over sessions, and says whether anything may have changed.
    fn answer_session(&mut self, conn: u64, command: SessionCommand, out: &mut Output) -> bool
        ensures { IsAnswered self.old conn (Command.Session command) out.new result self.new }
    {
        let outcome = self.session(conn, command);
        out.put(
            self.alloc,
            &outcome.reply,
            self.database.catalog(),
            &self.labels,
        );
        outcome.changed
    }

    /// Answers a command over sessions, unless another connection keeps it out.
    fn ask_session(&mut self, conn: u64, command: SessionCommand, out: &mut Output) -> bool
        ensures { IsAsked self.old conn (Request.Session command) out.new result self.new }
    {
        if command.keeps_out() && is_busy(&self.holder, conn) {
            return self.refuse(Refusal::Busy, out);
        }
        self.answer_session(conn, command, out)
    }

    /// Answers a look-up by numbers that is asked, whoever asks it.
    fn ask_numbers(
        &self,
        table: Option<Name<'_>>,
        look_up: NumberLookUpRequest<'_>,
        out: &mut Output,
    ) -> bool
        ensures { (conn : ℕ) → IsAsked self.now conn (Request.NumberLookUp table.entry look_up.entry) out.new result self.now }
    {
        match bind_number_look_up(table, look_up, self.database.catalog()) {
            Ok((table, look_up)) => self.answer_numbers(table, &look_up, out),
            Err(refusal) => self.refuse(refusal, out),
        }
    }

    /// Answers a line that is not over-long, and says whether anything may have changed. Each kind of request goes its own way, so that none is
    /// moved with the fields of another.
    fn answer_text(&mut self, conn: u64, bytes: &[u8], out: &mut Output) -> bool
        ensures { MayAnswer conn self.old (text bytes.now) out.new result self.new }
    {
        match ShortRequest::of(bytes) {
            Some(ShortRequest::Session(command)) => self.ask_session(conn, command, out),
            Some(ShortRequest::NumberLookUp { table, look_up }) => {
                self.ask_numbers(table, look_up, out)
            }
            None => self.answer_read(conn, bytes, out),
        }
    }

    /// Answers a line that `ShortRequest::of` doesn't read. What is read of it is lent by the reader, so each kind is bound here.
    #[inline(never)]
    fn answer_read(&mut self, conn: u64, bytes: &[u8], out: &mut Output) -> bool
        requires { (r : Short) → short_line (asked_short r) ≡ Some bytes.now → ⊥ }
        ensures { MayAnswer conn self.old (text bytes.now) out.new result self.new }
    {
        match self.lines.read(bytes) {
            Ok(Request::KeyLookUp { table, look_up }) => {
                let catalog = self.database.catalog();
                match bind_key_look_up(self.alloc, table, look_up, catalog) {
                    Ok((table, look_up)) => self.answer_keys(table, &look_up, out),
                    Err(refusal) => self.refuse(refusal, out),
                }
            }
            Ok(Request::Change { table, change }) => {
                if is_busy(&self.holder, conn) {
                    return self.refuse(Refusal::Busy, out);
                }
                let catalog = self.database.catalog();
                match bind_change(self.alloc, table, change, catalog) {
                    Ok((table, change)) => self.answer_change(table, change, out),
                    Err(refusal) => self.refuse(refusal, out),
                }
            }
            Ok(Request::NumberLookUp { table, look_up }) => {
                let catalog = self.database.catalog();
                match bind_number_look_up(table, look_up, catalog) {
                    Ok((table, look_up)) => self.answer_numbers(table, &look_up, out),
                    Err(refusal) => self.refuse(refusal, out),
                }
            }
            Ok(Request::Session(command)) => self.ask_session(conn, command, out),
            Err(refusal) => self.refuse(refusal, out),
        }
    }

    /// Puts the text of a refusal that names no index, and says that nothing has changed. It takes no memory.
    fn refuse(&self, refusal: Refusal, out: &mut Output) -> bool
        requires { NamesNoIndex refusal }
        ensures text { out.new ≡ reply_text self.now.database.catalog (refused 0 refusal) }
        ensures none { result ≡ false }
    {
        out.put(
            self.alloc,
            &Reply::Refused { table: 0, refusal },
            self.database.catalog(),
            &self.labels,
        );
        false
    }
}

/// Undoes the newest sessions, this many. It takes no memory.
pub(crate) fn undo_times<D: Sessions>(database: &mut D, count: u64)
    requires { count ≤ depth (D.state database.old) }
    ensures { D.state database.new ≡ undone_times count (D.state database.old) }
{
    let mut left = count;
    'sessions: while left > 0 {
        let _ = database.undo();
        left -= 1;
    }
}
