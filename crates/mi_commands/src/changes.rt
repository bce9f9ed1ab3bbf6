//! The changes of a table by their command. What they answer lends nothing.
ghost use Rattle.std.specs.Prelude.{◌≡◌, false};
ghost use Rattle.mi_protocol.specs.Binding.{FitsCatalog};
ghost use Rattle.mi_protocol.specs.Replies.{said, IsSaidOf};

use crate::executor::Executor;
use crate::outcome::Outcome;
use mi_protocol::{Change, Command, Reply};
use mi_sessions::Sessions;
use mi_value::{Edit, Record, Value};

impl<D: Sessions + Drop> Executor<D> {
    ghost use Rattle.mi_commands.specs.Performed.{performed as done};
    ghost use Rattle.mi_commands.specs.Told.{ToldOrMemory, tells_change};

    /// Changes a table. `Memory` may stand in the place of any answer, and then nothing has changed. Where it isn't `changed`, tables,
    /// sessions and holder are as before.
    pub fn change(&mut self, table: usize, change: Change) -> Outcome
        requires fits { FitsCatalog self.old.database.catalog (Command.Change table change) }
        ensures told { ToldOrMemory (Unit {0}) (done self.old 0 (Command.Change table change)) self.old (said result.reply) self.new }
        ensures fits { IsSaidOf self.new.database.catalog (said result.reply) }
        ensures changed { result.changed ≡ tells_change (said result.reply) }
        ensures kept { result.changed ≡ false → self.new ≡ self.old }
    {
        Outcome::new(self.do_change(table, change), false)
    }

    /// Does a change.
    fn do_change(&mut self, table: usize, change: Change) -> Reply<'static>
        requires fits { FitsCatalog self.old.database.catalog (Command.Change table change) }
        ensures told { ToldOrMemory (Unit {0}) (done self.old 0 (Command.Change table change)) self.old (said result) self.new }
        ensures fits { IsSaidOf self.new.database.catalog (said result) }
    {
        match change {
            Change::Insert { row, before } => self.insert(table, row, before),
            Change::Replace { id, row } => self.replace(table, id, row),
            Change::Modify {
                id,
                edits,
                rollback,
            } => self.modify(table, id, edits.as_slice(), rollback),
            Change::Erase { id } => self.erase(table, id),
            Change::EraseKey { index, key } => self.erase_key(table, index, key.values()),
            Change::Relocate { index, id, before } => self.relocate(table, index, id, before),
        }
    }

    /// Adds a record to a table, before a place where one is given.
    fn insert(&mut self, table: usize, row: Record, before: Option<(usize, u64)>) -> Reply<'static>
        requires { FitsCatalog self.old.database.catalog (Command.Change table (Change.Insert row before)) }
        ensures told { ToldOrMemory (Unit {0}) (done self.old 0 (Command.Change table (Change.Insert row before))) self.old (said result) self.new }
        ensures fits { IsSaidOf self.new.database.catalog (said result) }
    {
        match self.database.insert(self.alloc, table, row, before) {
            Ok(id) => Reply::Inserted(id),
            Err((refusal, _row)) => Reply::Refused { table, refusal },
        }
    }

    /// Sets another record for an id.
    fn replace(&mut self, table: usize, id: u64, row: Record) -> Reply<'static>
        requires { FitsCatalog self.old.database.catalog (Command.Change table (Change.Replace id row)) }
        ensures told { ToldOrMemory (Unit {0}) (done self.old 0 (Command.Change table (Change.Replace id row))) self.old (said result) self.new }
        ensures fits { IsSaidOf self.new.database.catalog (said result) }
    {
        match self.database.replace(self.alloc, table, id, row) {
            Ok(()) => Reply::Done,
            Err((refusal, _row)) => Reply::Refused { table, refusal },
        }
    }

    /// Changes columns of a record.
    fn modify(&mut self, table: usize, id: u64, edits: &[Edit], rollback: bool) -> Reply<'static>
        requires { FitsCatalog self.old.database.catalog (Command.Change table (Change.Modify id edits.now rollback)) }
        ensures told { ToldOrMemory (Unit {0}) (done self.old 0 (Command.Change table (Change.Modify id edits.now rollback))) self.old (said result) self.new }
        ensures fits { IsSaidOf self.new.database.catalog (said result) }
    {
        match self.database.modify(self.alloc, table, id, edits, rollback) {
            Ok(()) => Reply::Done,
            Err(refusal) => Reply::RefusedModify { table, refusal },
        }
    }

    /// Erases a record.
    fn erase(&mut self, table: usize, id: u64) -> Reply<'static>
        requires { FitsCatalog self.old.database.catalog (Command.Change table (Change.Erase id)) }
        ensures told { ToldOrMemory (Unit {0}) (done self.old 0 (Command.Change table (Change.Erase id))) self.old (said result) self.new }
        ensures fits { IsSaidOf self.new.database.catalog (said result) }
    {
        match self.database.erase(self.alloc, table, id) {
            Ok(()) => Reply::Done,
            Err(refusal) => Reply::Refused { table, refusal },
        }
    }

    /// Erases every record with a key.
    fn erase_key(&mut self, table: usize, index: usize, key: &[Value]) -> Reply<'static>
        requires { FitsCatalog self.old.database.catalog (Command.Change table (Change.EraseKey index key.now)) }
        ensures told { ToldOrMemory (Unit {0}) (done self.old 0 (Command.Change table (Change.EraseKey index key.now))) self.old (said result) self.new }
        ensures fits { IsSaidOf self.new.database.catalog (said result) }
    {
        match self.database.erase_key(self.alloc, table, index, key) {
            Ok(count) => Reply::Erased(count),
            Err(refusal) => Reply::Refused { table, refusal },
        }
    }

    /// Moves a record in a sequenced index.
    fn relocate(
        &mut self,
        table: usize,
        index: usize,
        id: u64,
        before: Option<u64>,
    ) -> Reply<'static>
        requires { FitsCatalog self.old.database.catalog (Command.Change table (Change.Relocate index id before)) }
        ensures told { ToldOrMemory (Unit {0}) (done self.old 0 (Command.Change table (Change.Relocate index id before))) self.old (said result) self.new }
        ensures fits { IsSaidOf self.new.database.catalog (said result) }
    {
        match self.database.relocate(self.alloc, table, index, id, before) {
            Ok(()) => Reply::Done,
            Err(refusal) => Reply::Refused { table, refusal },
        }
    }
}
