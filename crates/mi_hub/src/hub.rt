//! Connections by turns over one database. A call does one event of one connection, and nothing else changes.
ghost use Rattle.std.specs.Prelude.{◌≡◌, ◌≢◌, ◌↔◌, ◌⊎◌, ◌≤◌, ℕ, List, [], true, None, Some, Err};
ghost use Rattle.std.specs.Prelude.{MatchOption, IfSome, IsSome, IfOk, OnOk, OnErr, Ok, false, ◌++◌, length, ◌<◌, option_map};
ghost use Rattle.std.specs.List.{remove};
ghost use Rattle.mi_value.specs.declared.limits.TheConstants.{MAX_CONNECTIONS};
ghost use Rattle.mi_hub.specs.Lines.{extended};
ghost use Rattle.mi_commands.specs.Asked.{asked_of};
ghost use Rattle.mi_commands.specs.Answer.{MayAnswer};
ghost use Rattle.mi_commands.specs.Holder.{released};
ghost use Rattle.mi_hub.specs.Connections.{rest_at, others};
ghost use Rattle.mi_hub.specs.OneLine.{IsWholeLine, AsksLine};
ghost use Rattle.mi_hub.specs.Places.{StandsAt};
ghost use Rattle.mi_hub.specs.Run.{piece, close, cut, attach, Done, Failed};
ghost use Rattle.mi_hub.specs.Served.{with_newline};
ghost use Rattle.mi_hub.specs.Watching.{has_failed, Writes};

use crate::connection::{Connection, place_of};
use crate::fault::HubFault;
use crate::line::{LineBuffer, whole_line};
use crate::serve::{Answering, serve_last, serve_piece};
use crate::watched::Watched;
use mi_commands::{Executor, Line};
use mi_protocol::Output;
use mi_sessions::Sessions;
use mi_value::limits::MAX_CONNECTIONS;
use std::alloc::{AllocError, Global};
use std::io::Write;
use std::marker::Model;

impl<D: Sessions + Drop> Answering for Executor<D> {
    ghost use Rattle.mi_commands.specs.Answer.{MayGive};

    ghost gives = { λ conn old line reply new. MayGive conn old line reply new };

    fn answer(&mut self, conn: u64, line: Line<'_>, out: &mut Output) {
        Executor::answer(self, conn, line, out);
    }
}

/// A database, who holds its open sessions, the attached connections, and where the reply to a line is made, whichever asks.
#[derive(Drop)]
pub struct Hub<D: Sessions + Drop> {
    executor: Executor<D>,
    connections: Vec<Connection>,
    output: Output,
    alloc: Global,
}

impl<D: Sessions + Drop> Model for Hub<D> {
    ghost use Rattle.std.specs.Prelude.{◌≡◌, true};
    ghost use Rattle.mi_hub.specs.Connections.{holder_is_attached};
    ghost use Rattle.mi_hub.specs.Run.{HubState};

    ghost Value = { HubState };

    ghost view = { λ h. record { held = h.executor; attached = h.connections.items } };

    ghost invariant = { λ h. holder_is_attached h.executor.holder h.connections.items ≡ true };
}

impl<D: Sessions + Drop> Hub<D> {
    /// A hub over this database, whose open sessions nobody holds, with no connection. It takes no memory.
    pub fn new(alloc: Global, database: D) -> Hub<D>
        ensures { result ≡ record { held = record { database = D.state database; holder = None }; attached = [] } }
    {
        Hub {
            executor: Executor::new(alloc, database),
            connections: Vec::new(alloc),
            output: Output::new(alloc),
            alloc,
        }
    }

    /// What is served, with who holds its open sessions. The connections go.
    pub fn into_executor(self) -> Executor<D>
        ensures { result ≡ self.held }
    {
        self.executor
    }

    /// What is served.
    pub fn database(&self) -> &D
        ensures { D.state result.now ≡ self.now.held.database }
    {
        self.executor.database()
    }

    /// The connection that holds open sessions, where one does. It is attached.
    pub fn holder(&self) -> Option<u64>
        ensures is { result ≡ option_map (λ h. h.conn) self.now.held.holder }
        ensures attached { IfSome result (λ conn. IsSome (rest_at conn self.now.attached)) }
    {
        let _ = &self.connections;
        self.executor.holder()
    }

    /// A connection comes, with no bytes. The whole room of its longest line is taken here, and what rows are shown by, if it isn't there
    /// yet; without that rows are shown all the same.
    ///
    /// Refusals, in this order, each of which changes nothing: `AlreadyAttached`, `TooMany`, `Memory`.
    pub fn attach(&mut self, conn: u64) -> Result<(), HubFault>
        ensures ok { OnOk result (Done self.old (attach conn) [] self.new) }
        ensures refused { OnErr result (self.new ≡ self.old) }
        ensures already { (result ≡ Err HubFault.AlreadyAttached) ↔ IsSome (rest_at conn self.old.attached) }
        ensures full { (result ≡ Err HubFault.TooMany) ↔ (rest_at conn self.old.attached ≡ None) × (MAX_CONNECTIONS ≤ length self.old.attached) }
        ensures memory { result ≡ Err HubFault.Memory → (rest_at conn self.old.attached ≡ None) × (length self.old.attached < MAX_CONNECTIONS) }
        ensures no_other { (result ≢ Err HubFault.NotAttached) × (result ≢ Err HubFault.Write) }
    {
        if self.place(conn).is_some() {
            return Err(HubFault::AlreadyAttached);
        }
        if self.connections.len() >= MAX_CONNECTIONS {
            return Err(HubFault::TooMany);
        }
        let Ok(rest) = LineBuffer::new(self.alloc) else {
            return Err(HubFault::Memory);
        };
        match self.connections.push(Connection { id: conn, rest }) {
            Ok(()) => {
                self.executor.make_labels();
                Ok(())
            }
            Err(_) => Err(HubFault::Memory),
        }
    }

    /// A piece of a connection's bytes: each line that ends in it is answered.
    ///
    /// `NotAttached` changes nothing. After `Write` the connection has been cut.
    pub fn feed<W: Write>(
        &mut self,
        conn: u64,
        bytes: &[u8],
        writer: &mut Watched<W>,
    ) -> Result<(), HubFault>
        ensures ok { OnOk result ((out : List ℕ) × Writes W.contents writer.old writer.new out × Done self.old (piece conn bytes.now) out self.new) }
        ensures sound { OnOk result (has_failed writer.new ≡ has_failed writer.old) }
        ensures not_attached { (result ≡ Err HubFault.NotAttached) ↔ (rest_at conn self.old.attached ≡ None) }
        ensures unchanged { result ≡ Err HubFault.NotAttached → (self.new ≡ self.old) × (writer.new ≡ writer.old) }
        ensures write { result ≡ Err HubFault.Write
            → (out : List ℕ) × Writes W.contents writer.old writer.new out × Failed self.old (piece conn bytes.now) out self.new }
        ensures failed { result ≡ Err HubFault.Write → has_failed writer.new ≡ true }
        ensures no_other { OnErr result ((result ≡ Err HubFault.NotAttached) ⊎ (result ≡ Err HubFault.Write)) }
    {
        let Some(at) = self.place(conn) else {
            return Err(HubFault::NotAttached);
        };
        match serve_piece(
            &mut self.executor,
            conn,
            &mut self.connections[at].rest,
            bytes,
            &mut self.output,
            writer,
        ) {
            Ok(()) => Ok(()),
            Err(_) => {
                self.leave(at, conn);
                Err(HubFault::Write)
            }
        }
    }

    /// An attached connection asks one line: its bytes up to and with a newline, behind which it has sent nothing that isn't asked. The reply
    /// goes behind `replies` with its newline. It says whether tables, sessions or holder may have changed; where they haven't, all is as before.
    ///
    /// An error where the reply has no room: what was asked may be done.
    pub fn ask_line(
        &mut self,
        conn: u64,
        line: &[u8],
        replies: &mut Vec<u8>,
    ) -> Result<bool, AllocError>
        requires attached { rest_at conn self.old.attached ≡ Some (Some []) }
        requires whole { IsWholeLine line.now }
        ensures ok { IfOk result (λ changed. (out : List ℕ) × (replies.new.items ≡ replies.old.items ++ out)
            × AsksLine conn line.now out changed self.old self.new) }
        ensures kept { result ≡ Ok false → self.new.held ≡ self.old.held }
        ensures attached { self.new.attached ≡ self.old.attached }
    {
        match whole_line(line) {
            Some(asked) => self.ask(conn, asked, replies),
            None => Ok(false),
        }
    }

    /// Asks a line of an attached connection, and puts its reply behind `replies`.
    fn ask(&mut self, conn: u64, line: Line<'_>, replies: &mut Vec<u8>) -> Result<bool, AllocError>
        requires { IsSome (rest_at conn self.old.attached) }
        ensures ok { IfOk result (λ changed. (reply : List ℕ) × (replies.new.items ≡ replies.old.items ++ with_newline reply)
            × MayAnswer conn self.old.held (asked_of line.entry) reply changed self.new.held) }
        ensures kept { result ≡ Ok false → self.new.held ≡ self.old.held }
        ensures attached { self.new.attached ≡ self.old.attached }
    {
        let changed = self.executor.answer(conn, line, &mut self.output);
        match replies.extend_from_slice(self.output.line()) {
            Ok(()) => Ok(changed),
            Err(error) => Err(error),
        }
    }

    /// A connection's bytes end: its last line is answered, then the sessions that it holds are undone and it is gone.
    ///
    /// `NotAttached` changes nothing. After `Write` the connection has been cut.
    pub fn close<W: Write>(&mut self, conn: u64, writer: &mut Watched<W>) -> Result<(), HubFault>
        ensures ok { OnOk result ((out : List ℕ) × Writes W.contents writer.old writer.new out × Done self.old (close conn) out self.new) }
        ensures sound { OnOk result (has_failed writer.new ≡ has_failed writer.old) }
        ensures not_attached { (result ≡ Err HubFault.NotAttached) ↔ (rest_at conn self.old.attached ≡ None) }
        ensures unchanged { result ≡ Err HubFault.NotAttached → (self.new ≡ self.old) × (writer.new ≡ writer.old) }
        ensures write { result ≡ Err HubFault.Write → (out : List ℕ) × Writes W.contents writer.old writer.new out × Failed self.old (close conn) out self.new }
        ensures failed { result ≡ Err HubFault.Write → has_failed writer.new ≡ true }
        ensures no_other { OnErr result ((result ≡ Err HubFault.NotAttached) ⊎ (result ≡ Err HubFault.Write)) }
    {
        let Some(at) = self.place(conn) else {
            return Err(HubFault::NotAttached);
        };
        let served = serve_last(
            &mut self.executor,
            conn,
            &self.connections[at].rest,
            &mut self.output,
            writer,
        );
        self.leave(at, conn);
        match served {
            Ok(()) => Ok(()),
            Err(_) => Err(HubFault::Write),
        }
    }

    /// A connection goes away with nothing more asked: the sessions that it holds are undone. It takes no memory.
    ///
    /// `NotAttached` changes nothing.
    pub fn cut(&mut self, conn: u64) -> Result<(), HubFault>
        ensures ok { OnOk result (Done self.old (cut conn) [] self.new) }
        ensures not_attached { (result ≡ Err HubFault.NotAttached) ↔ (rest_at conn self.old.attached ≡ None) }
        ensures refused { OnErr result ((result ≡ Err HubFault.NotAttached) × (self.new ≡ self.old)) }
    {
        let Some(at) = self.place(conn) else {
            return Err(HubFault::NotAttached);
        };
        self.leave(at, conn);
        Ok(())
    }

    /// Where a connection stands.
    fn place(&self, conn: u64) -> Option<usize>
        ensures { MatchOption result (rest_at conn self.now.attached ≡ None) (λ i. StandsAt conn i self.now.attached) }
    {
        place_of(self.connections.as_slice(), conn)
    }

    /// The connection of this number in the list goes away.
    fn leave(&mut self, at: usize, conn: u64)
        requires within { at < length self.old.attached }
        requires there { remove self.old.attached at ≡ others conn self.old.attached }
        ensures { self.new ≡ record { held = released conn self.old.held; attached = remove self.old.attached at } }
    {
        self.connections.remove(at);
        self.executor.release(conn);
    }

    /// No rest that is kept is over-long. It changes nothing.
    pub(crate) fn keeps_limit(&self, conn: u64)
        ensures { IfSome (rest_at conn self.now.attached) (λ r. extended r [] ≡ r) }
    {
        if let Some(at) = self.place(conn) {
            self.connections[at].rest.keeps_limit();
        }
    }
}
