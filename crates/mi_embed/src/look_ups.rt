//! Look-ups with values in place of a line. They are answered whoever holds sessions, change nothing, and take memory for keys alone.
ghost use Rattle.std.specs.Prelude.{◌≡◌, IfOk, MatchResult, Ok, Err};
ghost use Rattle.mi_catalog.specs.Fitting.{HasTable};
ghost use Rattle.mi_model.specs.Database.{table_of};
ghost use Rattle.mi_protocol.specs.Binding.{FitsCatalog};
ghost use Rattle.mi_protocol.specs.declared.command.Command.TheVariants as command;
ghost use Rattle.mi_protocol.specs.declared.look_ups.KeyLookUp.TheVariants as by_key;
ghost use Rattle.mi_request.specs.Answers.{IsAnswer};
ghost use Rattle.mi_embed.specs.Asked as asked;
ghost use Rattle.mi_embed.specs.LookUps as meaning;
ghost use Rattle.mi_embed.specs.LookUps.{TellsFound, MayTellFound};

use crate::arguments::{key_for, keyed_index, ranked_index, schema_of};
use crate::call_result::CallResult;
use crate::cell::Cell;
use crate::engine::Engine;
use crate::rows::shown;
use mi_query::{count, find, lower_rank, nth, rank, size, upper_rank};
use mi_sessions::Sessions;
use mi_value::{Key, Record, Refusal, Steps};

/// A table and an index are named by their numbers. Where a text is in a key, and where a key has several values, `Memory` may stand in the
/// place of any answer.
impl Engine {
    /// How many records a table has. Refusal: `NoTable`.
    pub fn size(&self, table: usize) -> Result<u64, Refusal>
        ensures { result ≡ meaning.size_by self.now.held table }
    {
        let _ = schema_of(self.executor.database().catalog(), table)?;
        Ok(size(self.executor.database(), table))
    }

    /// A key of an index that has keys, or in an ordered or ranked one the first values of one.
    fn key_or_prefix(
        &self,
        table: usize,
        index: usize,
        key: &[Cell],
        texts: &[u8],
    ) -> Result<Key, Refusal>
        ensures key { IsAnswer result (asked.key_or_prefix self.now.held table index key.now texts.now) }
        ensures fits { IfOk result (λ key. FitsCatalog self.now.held.database.catalog (command.KeyLookUp table (by_key.Find index key))) }
    {
        let schema = schema_of(self.executor.database().catalog(), table)?;
        let index = keyed_index(schema, index)?;
        let whole = schema.kind(index).is_hashed();
        key_for(self.alloc, schema, index, whole, key, texts)
    }

    /// How many records have a key, or in an ordered or ranked index the first values of one. Refusals, in this order: `NoTable`, `Index`,
    /// `Kind` (a sequenced index) and `Key`.
    pub fn count(
        &self,
        table: usize,
        index: usize,
        key: &[Cell],
        texts: &[u8],
    ) -> Result<u64, Refusal>
        ensures { IsAnswer result (meaning.count_by self.now.held table index key.now texts.now) }
    {
        let key = self.key_or_prefix(table, index, key, texts)?;
        let database = self.executor.database();
        Ok(count(database, table, index, key.values(), &mut Steps::new()))
    }

    /// How many records stand before one in a ranked index. Refusals, in this order: `NoTable`, `Index`, `Kind` and `NoId`.
    pub fn rank(&self, table: usize, index: usize, id: u64) -> Result<u64, Refusal>
        ensures { result ≡ meaning.rank_by self.now.held table index id }
    {
        let index = ranked_index(schema_of(self.executor.database().catalog(), table)?, index)?;
        let database = self.executor.database();
        rank(database, table, index, id, &mut Steps::new())
    }

    /// A key of a ranked index, or the first values of one.
    fn ranked_key(
        &self,
        table: usize,
        index: usize,
        key: &[Cell],
        texts: &[u8],
    ) -> Result<Key, Refusal>
        ensures key { IsAnswer result (asked.ranked_key self.now.held table index key.now texts.now) }
        ensures fits { IfOk result (λ key. FitsCatalog self.now.held.database.catalog (command.KeyLookUp table (by_key.LowerRank index key))) }
    {
        let schema = schema_of(self.executor.database().catalog(), table)?;
        let index = ranked_index(schema, index)?;
        key_for(self.alloc, schema, index, false, key, texts)
    }

    /// How many keys of a ranked index are less than a key or the first values of one. Refusals, in this order: `NoTable`, `Index`, `Kind`
    /// and `Key`.
    pub fn lower_rank(
        &self,
        table: usize,
        index: usize,
        key: &[Cell],
        texts: &[u8],
    ) -> Result<u64, Refusal>
        ensures { IsAnswer result (meaning.lower_rank_by self.now.held table index key.now texts.now) }
    {
        let key = self.ranked_key(table, index, key, texts)?;
        let database = self.executor.database();
        Ok(lower_rank(database, table, index, key.values(), &mut Steps::new()))
    }

    /// How many keys of a ranked index are not greater than a key or the first values of one. Refusals, in this order: `NoTable`, `Index`,
    /// `Kind` and `Key`.
    pub fn upper_rank(
        &self,
        table: usize,
        index: usize,
        key: &[Cell],
        texts: &[u8],
    ) -> Result<u64, Refusal>
        ensures { IsAnswer result (meaning.upper_rank_by self.now.held table index key.now texts.now) }
    {
        let key = self.ranked_key(table, index, key, texts)?;
        let database = self.executor.database();
        Ok(upper_rank(database, table, index, key.values(), &mut Steps::new()))
    }

    /// The record of the id that a look-up found, and the id. Refusal: `NoId`.
    fn found(&self, table: usize, id: Option<u64>) -> Result<(u64, &Record), Refusal>
        requires { HasTable self.now.held.database.catalog table }
        ensures { MatchResult result
            (λ r. meaning.found (table_of self.now.held.database table) id ≡ Ok (r.0, r.1.now))
            (λ e. (e ≡ Refusal.NoId) × (meaning.found (table_of self.now.held.database table) id ≡ Err e)) }
    {
        let id = id.ok_or(Refusal::NoId)?;
        let database = self.executor.database();
        match database.get(table, id, &mut Steps::new()) {
            Some(row) => Ok((id, row)),
            None => Err(Refusal::NoId),
        }
    }

    /// The first record of a key, and its id.
    fn first_of(
        &self,
        table: usize,
        index: usize,
        key: &[Cell],
        texts: &[u8],
    ) -> Result<(u64, &Record), Refusal>
        ensures { MatchResult result
            (λ r. meaning.find_by self.now.held table index key.now texts.now ≡ Ok (r.0, r.1.now))
            (λ e. IsAnswer (Err e) (meaning.find_by self.now.held table index key.now texts.now)) }
    {
        let key = self.key_or_prefix(table, index, key, texts)?;
        let database = self.executor.database();
        let id = find(database, table, index, key.values(), &mut Steps::new());
        self.found(table, id)
    }

    /// The record of a rank, and its id.
    fn at_rank(&self, table: usize, index: usize, n: u64) -> Result<(u64, &Record), Refusal>
        ensures { MatchResult result
            (λ r. meaning.nth_by self.now.held table index n ≡ Ok (r.0, r.1.now))
            (λ e. meaning.nth_by self.now.held table index n ≡ Err e) }
    {
        let index = ranked_index(schema_of(self.executor.database().catalog(), table)?, index)?;
        self.found(table, nth(self.executor.database(), table, index, n))
    }

    /// Shows the first record of a key, or in an ordered or ranked index of the first values of one, as `get` shows a record, and tells its
    /// id. Refusals, in this order: `NoTable`, `Index`, `Kind` (a sequenced index), `Key` and `NoId`; then cells and bytes stay as they are.
    pub fn find(
        &self,
        table: usize,
        index: usize,
        key: &[Cell],
        key_texts: &[u8],
        cells: &mut [Cell],
        texts: &mut [u8],
    ) -> CallResult
        ensures { MayTellFound (meaning.find_by self.now.held table index key.now key_texts.now) result cells.old cells.new texts.old texts.new }
    {
        match self.first_of(table, index, key, key_texts) {
            Ok((id, row)) => shown(id, row, cells, texts),
            Err(refusal) => CallResult::refused(refusal),
        }
    }

    /// Shows the record with n records before it in a ranked index, as `get` shows a record, and tells its id. Refusals, in this order:
    /// `NoTable`, `Index`, `Kind` and `NoId`; then cells and bytes stay as they are.
    pub fn nth(
        &self,
        table: usize,
        index: usize,
        n: u64,
        cells: &mut [Cell],
        texts: &mut [u8],
    ) -> CallResult
        ensures { TellsFound (meaning.nth_by self.now.held table index n) result cells.old cells.new texts.old texts.new }
    {
        match self.at_rank(table, index, n) {
            Ok((id, row)) => shown(id, row, cells, texts),
            Err(refusal) => CallResult::refused(refusal),
        }
    }
}
