//! The look-ups, by numbers and by keys. They change nothing; what they answer lends its rows of the database, and takes memory for pages
//! alone.
ghost use Rattle.std.specs.Prelude.{◌≡◌, ◌<◌, Some, length, false, IfSome};
ghost use Rattle.std.specs.Option.{option_map};
ghost use Rattle.mi_protocol.specs.Binding.{FitsCatalog};
ghost use Rattle.mi_protocol.specs.Replies.{said, is_short, IsSaidOf};

use crate::executor::Executor;
use mi_protocol::{Command, KeyLookUp, NumberLookUp, Reply};
use mi_query::{count, list, lower_rank, range, rank, size, upper_rank};
use mi_sessions::Sessions;
use mi_value::{Lower, Record, Refusal, Steps, Upper, Value};

impl<D: Sessions + Drop> Executor<D> {
    ghost use Rattle.mi_model.specs.Database.{table_of};
    ghost use Rattle.mi_model.specs.Table.{get as get_row};
    ghost use Rattle.mi_commands.specs.Performed as performed;
    ghost use Rattle.mi_commands.specs.Performed.{number_looked, key_looked};
    ghost use Rattle.mi_commands.specs.Told.{SaidOrMemory};

    /// Answers a look-up by numbers of a table. `Memory` may stand in the place of rows alone.
    pub fn look_by_numbers(&self, table: usize, look_up: &NumberLookUp) -> Reply<'_>
        requires fits { FitsCatalog self.now.database.catalog (Command.NumberLookUp table look_up.now) }
        ensures told { SaidOrMemory (is_short (number_looked self.now.database table look_up.now) ≡ false)
            (number_looked self.now.database table look_up.now) (said result) }
        ensures fits { IsSaidOf self.now.database.catalog (said result) }
    {
        match look_up {
            NumberLookUp::Get { id } => self.get(table, *id),
            NumberLookUp::Nth { index, n } => self.nth(table, *index, *n),
            NumberLookUp::List {
                index,
                after,
                limit,
            } => self.list(table, *index, *after, *limit),
            NumberLookUp::Rank { index, id } => self.rank(table, *index, *id),
            NumberLookUp::Size => self.size(table),
        }
    }

    /// Answers a look-up by keys of a table. `Memory` may stand in the place of rows alone.
    pub fn look_by_keys(&self, table: usize, look_up: &KeyLookUp) -> Reply<'_>
        requires fits { FitsCatalog self.now.database.catalog (Command.KeyLookUp table look_up.now) }
        ensures told { SaidOrMemory (is_short (key_looked self.now.database table look_up.now) ≡ false)
            (key_looked self.now.database table look_up.now) (said result) }
        ensures fits { IsSaidOf self.now.database.catalog (said result) }
    {
        match look_up {
            KeyLookUp::Find { index, key } => self.find(table, *index, key.values()),
            KeyLookUp::Count { index, key } => self.count(table, *index, key.values()),
            KeyLookUp::Range {
                index,
                lower,
                upper,
                reverse,
                limit,
            } => self.range(table, *index, lower, upper, *reverse, *limit),
            KeyLookUp::LowerRank { index, key } => self.lower_rank(table, *index, key.values()),
            KeyLookUp::UpperRank { index, key } => self.upper_rank(table, *index, key.values()),
        }
    }

    /// A record.
    fn get(&self, table: usize, id: u64) -> Reply<'_>
        requires { table < length self.now.database.catalog.tables }
        ensures said { said result ≡ number_looked self.now.database table (NumberLookUp.Get id) }
        ensures fits { IsSaidOf self.now.database.catalog (said result) }
    {
        let mut steps = Steps::new();
        match self.database.get(table, id, &mut steps) {
            Some(row) => Reply::Shown { table, id, row },
            None => Reply::Refused {
                table,
                refusal: Refusal::NoId,
            },
        }
    }

    /// The record that a look-up found.
    fn found<'a>(&'a self, table: usize, found: Option<(u64, &'a Record)>) -> Reply<'a>
        requires table { table < length self.now.database.catalog.tables }
        requires row { IfSome found (λ r. get_row (table_of self.now.database table) r.0 ≡ Some r.1.now) }
        ensures said { said result ≡ performed.show_found table (table_of self.now.database table) (option_map (λ r. r.0) found.entry) }
        ensures fits { IsSaidOf self.now.database.catalog (said result) }
    {
        match found {
            Some((id, row)) => Reply::Shown { table, id, row },
            None => Reply::Refused {
                table,
                refusal: Refusal::NoId,
            },
        }
    }

    /// The first record of a key.
    fn find(&self, table: usize, index: usize, key: &[Value]) -> Reply<'_>
        requires { FitsCatalog self.now.database.catalog (Command.KeyLookUp table (KeyLookUp.Find index key.now)) }
        ensures said { said result ≡ key_looked self.now.database table (KeyLookUp.Find index key.now) }
        ensures fits { IsSaidOf self.now.database.catalog (said result) }
    {
        let mut steps = Steps::new();
        let found = self.database.find_row(table, index, key, &mut steps);
        self.found(table, found)
    }

    /// The record of a rank.
    fn nth(&self, table: usize, index: usize, n: u64) -> Reply<'_>
        requires { FitsCatalog self.now.database.catalog (Command.NumberLookUp table (NumberLookUp.Nth index n)) }
        ensures said { said result ≡ number_looked self.now.database table (NumberLookUp.Nth index n) }
        ensures fits { IsSaidOf self.now.database.catalog (said result) }
    {
        self.found(table, self.database.nth_row(table, index, n))
    }

    /// How many records have a key.
    fn count(&self, table: usize, index: usize, key: &[Value]) -> Reply<'_>
        requires { FitsCatalog self.now.database.catalog (Command.KeyLookUp table (KeyLookUp.Count index key.now)) }
        ensures said { said result ≡ key_looked self.now.database table (KeyLookUp.Count index key.now) }
        ensures fits { IsSaidOf self.now.database.catalog (said result) }
    {
        let mut steps = Steps::new();
        Reply::Counted(count(&self.database, table, index, key, &mut steps))
    }

    /// The records between two bounds.
    fn range(
        &self,
        table: usize,
        index: usize,
        lower: &Lower,
        upper: &Upper,
        reverse: bool,
        limit: usize,
    ) -> Reply<'_>
        requires { FitsCatalog self.now.database.catalog (Command.KeyLookUp table (KeyLookUp.Range index lower.now upper.now reverse limit)) }
        ensures told { SaidOrMemory (is_short (key_looked self.now.database table (KeyLookUp.Range index lower.now upper.now reverse limit)) ≡ false)
            (key_looked self.now.database table (KeyLookUp.Range index lower.now upper.now reverse limit)) (said result) }
        ensures fits { IsSaidOf self.now.database.catalog (said result) }
    {
        let mut steps = Steps::new();
        match range(
            &self.database,
            self.alloc,
            table,
            index,
            lower,
            upper,
            reverse,
            limit,
            &mut steps,
        ) {
            Ok(page) => Reply::Rows {
                table,
                rows: page.rows,
                more: page.more,
            },
            Err(refusal) => Reply::Refused { table, refusal },
        }
    }

    /// The records of a sequenced index.
    fn list(&self, table: usize, index: usize, after: Option<u64>, limit: usize) -> Reply<'_>
        requires { FitsCatalog self.now.database.catalog (Command.NumberLookUp table (NumberLookUp.List index after limit)) }
        ensures told { SaidOrMemory (is_short (number_looked self.now.database table (NumberLookUp.List index after limit)) ≡ false)
            (number_looked self.now.database table (NumberLookUp.List index after limit)) (said result) }
        ensures fits { IsSaidOf self.now.database.catalog (said result) }
    {
        let mut steps = Steps::new();
        match list(
            &self.database,
            self.alloc,
            table,
            index,
            after,
            limit,
            &mut steps,
        ) {
            Ok(page) => Reply::Rows {
                table,
                rows: page.rows,
                more: page.more,
            },
            Err(refusal) => Reply::Refused { table, refusal },
        }
    }

    /// How many records stand before one.
    fn rank(&self, table: usize, index: usize, id: u64) -> Reply<'_>
        requires { FitsCatalog self.now.database.catalog (Command.NumberLookUp table (NumberLookUp.Rank index id)) }
        ensures said { said result ≡ number_looked self.now.database table (NumberLookUp.Rank index id) }
        ensures fits { IsSaidOf self.now.database.catalog (said result) }
    {
        let mut steps = Steps::new();
        match rank(&self.database, table, index, id, &mut steps) {
            Ok(before) => Reply::Ranked(before),
            Err(refusal) => Reply::Refused { table, refusal },
        }
    }

    /// How many keys are less than a key.
    fn lower_rank(&self, table: usize, index: usize, key: &[Value]) -> Reply<'_>
        requires { FitsCatalog self.now.database.catalog (Command.KeyLookUp table (KeyLookUp.LowerRank index key.now)) }
        ensures said { said result ≡ key_looked self.now.database table (KeyLookUp.LowerRank index key.now) }
        ensures fits { IsSaidOf self.now.database.catalog (said result) }
    {
        let mut steps = Steps::new();
        Reply::Ranked(lower_rank(&self.database, table, index, key, &mut steps))
    }

    /// How many keys are not greater than a key.
    fn upper_rank(&self, table: usize, index: usize, key: &[Value]) -> Reply<'_>
        requires { FitsCatalog self.now.database.catalog (Command.KeyLookUp table (KeyLookUp.UpperRank index key.now)) }
        ensures said { said result ≡ key_looked self.now.database table (KeyLookUp.UpperRank index key.now) }
        ensures fits { IsSaidOf self.now.database.catalog (said result) }
    {
        let mut steps = Steps::new();
        Reply::Ranked(upper_rank(&self.database, table, index, key, &mut steps))
    }

    /// How many records a table has.
    fn size(&self, table: usize) -> Reply<'_>
        requires { table < length self.now.database.catalog.tables }
        ensures said { said result ≡ number_looked self.now.database table NumberLookUp.Size }
        ensures fits { IsSaidOf self.now.database.catalog (said result) }
    {
        Reply::Sized(size(&self.database, table))
    }
}
