//! The commands over sessions, and who holds the open sessions after each.
ghost use Rattle.std.specs.Prelude.{◌≡◌, false};
ghost use Rattle.mi_protocol.specs.Replies.{said, IsSaidOf};

use crate::executor::Executor;
use crate::holder::{at_most, held_by, one_less, one_more, without_holder};
use crate::outcome::Outcome;
use mi_protocol::{Command, Reply, SessionCommand};
use mi_sessions::Sessions;
use mi_value::Refusal;

impl<D: Sessions + Drop> Executor<D> {
    ghost use Rattle.mi_commands.specs.Performed.{performed as done};
    ghost use Rattle.mi_commands.specs.Answer.{session_needs_none};
    ghost use Rattle.mi_commands.specs.Told.{ToldOrMemory, may_change};

    /// Does a command over sessions. `Memory` may stand in the place of the answer to a start and to a reserve, and then nothing has changed.
    /// Where it isn't `changed`, tables, sessions and holder are as before.
    pub fn session(&mut self, conn: u64, command: SessionCommand) -> Outcome
        ensures told { ToldOrMemory (session_needs_none command ≡ false) (done self.old conn (Command.Session command))
            self.old (said result.reply) self.new }
        ensures fits { IsSaidOf self.new.database.catalog (said result.reply) }
        ensures changed { result.changed ≡ may_change (Command.Session command) (said result.reply) }
        ensures kept { result.changed ≡ false → self.new ≡ self.old }
    {
        let reserves = matches!(command, SessionCommand::Reserve { .. });
        Outcome::new(self.do_session(conn, command), reserves)
    }

    /// Does a command over sessions.
    fn do_session(&mut self, conn: u64, command: SessionCommand) -> Reply<'static>
        ensures told { ToldOrMemory (session_needs_none command ≡ false) (done self.old conn (Command.Session command))
            self.old (said result) self.new }
        ensures fits { IsSaidOf self.new.database.catalog (said result) }
    {
        match command {
            SessionCommand::Start => self.start(conn),
            SessionCommand::Undo => self.undo(),
            SessionCommand::Squash => self.squash(),
            SessionCommand::Commit { revision } => self.commit(revision),
            SessionCommand::UndoAll => self.undo_all(),
            SessionCommand::Push => self.push(conn),
            SessionCommand::Reserve { changes, sessions } => self.reserve(changes, sessions),
            SessionCommand::Revision => self.status(conn),
        }
    }

    /// Opens a session, which the connection then holds.
    fn start(&mut self, conn: u64) -> Reply<'static>
        ensures told { ToldOrMemory (Unit {0}) (done self.old conn (Command.Session SessionCommand.Start)) self.old (said result) self.new }
        ensures fits { IsSaidOf self.new.database.catalog (said result) }
    {
        match self.database.start(self.alloc) {
            Ok(revision) => {
                let opened = self.database.depth();
                self.holder = one_more(self.holder, conn, opened);
                Reply::Revised(revision)
            }
            Err(refusal) => Reply::Refused { table: 0, refusal },
        }
    }

    /// Undoes the newest session. It takes no memory.
    fn undo(&mut self) -> Reply<'static>
        ensures said { said result ≡ (done self.old 0 (Command.Session SessionCommand.Undo)).0 }
        ensures left { self.new ≡ (done self.old 0 (Command.Session SessionCommand.Undo)).1 }
        ensures fits { IsSaidOf self.new.database.catalog (said result) }
    {
        match self.database.undo() {
            Ok(revision) => {
                self.holder = one_less(self.holder);
                Reply::Revised(revision)
            }
            Err(_none) => Reply::Refused {
                table: 0,
                refusal: Refusal::Session,
            },
        }
    }

    /// Joins the newest session into the one below. It takes no memory.
    fn squash(&mut self) -> Reply<'static>
        ensures said { said result ≡ (done self.old 0 (Command.Session SessionCommand.Squash)).0 }
        ensures left { self.new ≡ (done self.old 0 (Command.Session SessionCommand.Squash)).1 }
        ensures fits { IsSaidOf self.new.database.catalog (said result) }
    {
        match self.database.squash() {
            Ok(revision) => {
                self.holder = one_less(self.holder);
                Reply::Revised(revision)
            }
            Err(_none) => Reply::Refused {
                table: 0,
                refusal: Refusal::Session,
            },
        }
    }

    /// Ends the sessions up to a number. It takes no memory.
    fn commit(&mut self, number: u64) -> Reply<'static>
        ensures said { said result ≡ (done self.old 0 (Command.Session (SessionCommand.Commit number))).0 }
        ensures left { self.new ≡ (done self.old 0 (Command.Session (SessionCommand.Commit number))).1 }
        ensures fits { IsSaidOf self.new.database.catalog (said result) }
    {
        let ended = self.database.commit(number);
        self.holder = at_most(self.holder, self.database.depth());
        Reply::Committed(ended)
    }

    /// Undoes every open session. It takes no memory.
    fn undo_all(&mut self) -> Reply<'static>
        ensures said { said result ≡ (done self.old 0 (Command.Session SessionCommand.UndoAll)).0 }
        ensures left { self.new ≡ (done self.old 0 (Command.Session SessionCommand.UndoAll)).1 }
        ensures fits { IsSaidOf self.new.database.catalog (said result) }
    {
        let undone = self.database.undo_all();
        self.holder = None;
        Reply::Undone(undone)
    }

    /// Lets go of the sessions that the connection holds; they stay open. It takes no memory.
    fn push(&mut self, conn: u64) -> Reply<'static>
        ensures said { said result ≡ (done self.old conn (Command.Session SessionCommand.Push)).0 }
        ensures left { self.new ≡ (done self.old conn (Command.Session SessionCommand.Push)).1 }
        ensures fits { IsSaidOf self.new.database.catalog (said result) }
    {
        let pushed = held_by(&self.holder, conn);
        self.holder = without_holder(self.holder, conn);
        Reply::Pushed(pushed)
    }

    /// Asks the database for room for so many changes and so many sessions.
    fn reserve(&mut self, changes: u64, sessions: u64) -> Reply<'static>
        ensures told { ToldOrMemory (Unit {0}) (done self.old 0 (Command.Session (SessionCommand.Reserve changes sessions))) self.old (said result) self.new }
        ensures fits { IsSaidOf self.new.database.catalog (said result) }
    {
        match self.database.reserve(changes, sessions) {
            Ok(()) => Reply::Done,
            Err(refusal) => Reply::Refused { table: 0, refusal },
        }
    }

    /// The revision, and how many sessions are open and held by the connection.
    fn status(&self, conn: u64) -> Reply<'static>
        ensures said { said result ≡ (done self.now conn (Command.Session SessionCommand.Revision)).0 }
        ensures fits { IsSaidOf self.now.database.catalog (said result) }
    {
        Reply::Status {
            depth: self.database.depth(),
            held: held_by(&self.holder, conn),
            revision: self.database.revision(),
        }
    }
}
