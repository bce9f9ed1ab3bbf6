//! The commands over sessions as calls, and what a change tells.
ghost use Rattle.std.specs.Prelude.{IfOk};
ghost use Rattle.mi_protocol.specs.Binding.{FitsCatalog};
ghost use Rattle.mi_protocol.specs.declared.command.Command.TheVariants as command;
ghost use Rattle.mi_embed.specs.Calls as call;
ghost use Rattle.mi_embed.specs.Calls.{Tells, TellsChange, TellsDone, TellsStep};

use crate::call_result::CallResult;
use crate::engine::Engine;
use mi_protocol::{Change, SessionCommand};
use mi_value::Refusal;

impl Engine {
    /// Changes a table as it is asked, or tells why that is refused.
    pub(crate) fn told(&mut self, table: usize, asked: Result<Change, Refusal>) -> CallResult
        requires { IfOk asked (λ change. FitsCatalog self.old.held.database.catalog (command.Change table change)) }
        ensures { TellsChange table asked result self.old self.new }
    {
        match asked {
            Ok(change) => CallResult::of(&self.executor.change(table, change).reply),
            Err(refusal) => CallResult::refused(refusal),
        }
    }

    /// Does a command over sessions, and tells its answer.
    fn done(&mut self, conn: u64, step: SessionCommand) -> CallResult
        ensures { TellsDone conn step result self.old self.new }
    {
        CallResult::of(&self.executor.session(conn, step).reply)
    }

    /// Does a command over sessions, unless another connection holds some.
    #[tactic(auto, using(crate::proofs::CallLemmas::tells_busy))]
    fn step(&mut self, conn: u64, step: SessionCommand) -> CallResult
        ensures { TellsStep conn step result self.old self.new }
    {
        if self.executor.keeps_out(conn) {
            return CallResult::refused(Refusal::Busy);
        }
        self.done(conn, step)
    }
}

/// `Busy`, while another connection holds sessions, comes first. Of these calls a start alone may tell `Memory`, and then nothing has changed.
/// The reply to the last line stays.
impl Engine {
    /// Opens a session, which the connection then holds, and tells the new revision. Refusals: `Busy`, and those of `Sessions::start`.
    pub fn start(&mut self, conn: u64) -> CallResult
        ensures { Tells conn call.start result self.old self.new }
    {
        self.step(conn, SessionCommand::Start)
    }

    /// Undoes the newest session, and tells the new revision. Refusals: `Busy` and `Session`. It takes no memory.
    pub fn undo(&mut self, conn: u64) -> CallResult
        ensures { Tells conn call.undo result self.old self.new }
    {
        self.step(conn, SessionCommand::Undo)
    }

    /// Joins the newest session into the one below, and tells the new revision. Refusals: `Busy` and `Session`. It takes no memory.
    pub fn squash(&mut self, conn: u64) -> CallResult
        ensures { Tells conn call.squash result self.old self.new }
    {
        self.step(conn, SessionCommand::Squash)
    }

    /// Ends the sessions up to a number, keeps their changes, and tells how many. Refusal: `Busy`. It takes no memory.
    pub fn commit(&mut self, conn: u64, number: u64) -> CallResult
        ensures { Tells conn (call.commit number) result self.old self.new }
    {
        self.step(conn, SessionCommand::Commit { revision: number })
    }

    /// Undoes every open session, and tells how many. Refusal: `Busy`. It takes no memory.
    pub fn undo_all(&mut self, conn: u64) -> CallResult
        ensures { Tells conn call.undo_all result self.old self.new }
    {
        self.step(conn, SessionCommand::UndoAll)
    }

    /// Lets go of the sessions that the connection holds, which stay open, and tells how many. Refusal: `Busy`. It takes no memory.
    pub fn push(&mut self, conn: u64) -> CallResult
        ensures { Tells conn call.push result self.old self.new }
    {
        self.step(conn, SessionCommand::Push)
    }
}
