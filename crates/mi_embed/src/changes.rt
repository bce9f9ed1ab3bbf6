//! The changes with values in place of a line: from cells to a change, and from its answer to what is told. What a line's text would be refused
//! for is refused here.
ghost use Rattle.std.specs.Prelude.{◌≡◌, IfOk, MatchResult, true, false};
ghost use Rattle.mi_catalog.specs.Fits.{fits_edit};
ghost use Rattle.mi_commands.specs.Holder.{is_busy};
ghost use Rattle.mi_protocol.specs.Binding.{FitsCatalog};
ghost use Rattle.mi_protocol.specs.declared.command.Command.TheVariants as command;
ghost use Rattle.mi_request.specs.Answers.{IsAnswer};
ghost use Rattle.mi_value.specs.declared.edit.Edit.TheVariants as edit;
ghost use Rattle.mi_embed.specs.Calls as call;
ghost use Rattle.mi_embed.specs.Calls.{of_table, Tells};

use crate::arguments::{key_for, keyed_index, row_of, schema_of, sequenced_index};
use crate::call_result::CallResult;
use crate::cell::Cell;
use crate::edits::{EditCell, edits_for};
use crate::engine::Engine;
use mi_catalog::{Catalog, Column};
use mi_protocol::{Change, Edits};
use mi_sessions::Sessions;
use mi_value::{ColumnType, Edit, Refusal};

/// Whether a number can be added to a column: it is there, and is an `int`.
fn can_add(columns: &[Column], column: usize, n: i64) -> bool
    ensures { result ≡ fits_edit columns.now (edit.Add column n) }
{
    match columns.get(column) {
        Some(column) => matches!(column.kind, ColumnType::Int),
        None => false,
    }
}

/// Which change a call asks, where nothing is refused first. `Busy`, while another connection holds sessions, comes before all else.
impl Engine {
    /// The catalog, where this connection may change tables. Refusal: `Busy`.
    fn changeable(&self, conn: u64) -> Result<&Catalog, Refusal>
        ensures { MatchResult result
            (λ c. (is_busy self.now.held.holder conn ≡ false) × (c.now ≡ self.now.held.database.catalog))
            (λ e. (is_busy self.now.held.holder conn ≡ true) × (e ≡ Refusal.Busy)) }
    {
        if self.executor.keeps_out(conn) {
            return Err(Refusal::Busy);
        }
        Ok(self.executor.database().catalog())
    }

    /// What an insert asks.
    fn insert_asked(
        &self,
        conn: u64,
        table: usize,
        cells: &[Cell],
        texts: &[u8],
    ) -> Result<Change, Refusal>
        ensures asked { IsAnswer (of_table command.Change table result) (call.asked self.now.held conn (call.insert table cells.now texts.now)) }
        ensures fits { IfOk result (λ change. FitsCatalog self.now.held.database.catalog (command.Change table change)) }
    {
        let schema = schema_of(self.changeable(conn)?, table)?;
        let row = row_of(self.alloc, schema, cells, texts)?;
        let before = None;
        Ok(Change::Insert { row, before })
    }

    /// What an insert before a record asks: its index is judged before its row.
    fn insert_before_asked(
        &self,
        conn: u64,
        table: usize,
        cells: &[Cell],
        texts: &[u8],
        index: usize,
        before: u64,
    ) -> Result<Change, Refusal>
        ensures asked { IsAnswer (of_table command.Change table result) (call.asked self.now.held conn (call.insert_before table cells.now texts.now index before)) }
        ensures fits { IfOk result (λ change. FitsCatalog self.now.held.database.catalog (command.Change table change)) }
    {
        let schema = schema_of(self.changeable(conn)?, table)?;
        let index = sequenced_index(schema, index)?;
        let row = row_of(self.alloc, schema, cells, texts)?;
        let before = Some((index, before));
        Ok(Change::Insert { row, before })
    }

    /// What a replacement asks.
    fn replace_asked(
        &self,
        conn: u64,
        table: usize,
        id: u64,
        cells: &[Cell],
        texts: &[u8],
    ) -> Result<Change, Refusal>
        ensures asked { IsAnswer (of_table command.Change table result) (call.asked self.now.held conn (call.replace table id cells.now texts.now)) }
        ensures fits { IfOk result (λ change. FitsCatalog self.now.held.database.catalog (command.Change table change)) }
    {
        let schema = schema_of(self.changeable(conn)?, table)?;
        let row = row_of(self.alloc, schema, cells, texts)?;
        Ok(Change::Replace { id, row })
    }

    /// What an addition asks. It takes no memory.
    fn modify_add_asked(
        &self,
        conn: u64,
        table: usize,
        id: u64,
        column: usize,
        n: i64,
        rollback: bool,
    ) -> Result<Change, Refusal>
        ensures asked { IsAnswer (of_table command.Change table result) (call.asked self.now.held conn (call.modify_add table id column n rollback)) }
        ensures fits { IfOk result (λ change. FitsCatalog self.now.held.database.catalog (command.Change table change)) }
    {
        let schema = schema_of(self.changeable(conn)?, table)?;
        if !can_add(schema.columns(), column, n) {
            return Err(Refusal::Row);
        }
        Ok(Change::Modify {
            id,
            edits: Edits::one(Edit::Add(column, n)),
            rollback,
        })
    }

    /// What a modification asks.
    fn modify_asked(
        &self,
        conn: u64,
        table: usize,
        id: u64,
        edits: &[EditCell],
        texts: &[u8],
        rollback: bool,
    ) -> Result<Change, Refusal>
        ensures asked { IsAnswer (of_table command.Change table result) (call.asked self.now.held conn (call.modify table id edits.now texts.now rollback)) }
        ensures fits { IfOk result (λ change. FitsCatalog self.now.held.database.catalog (command.Change table change)) }
    {
        let schema = schema_of(self.changeable(conn)?, table)?;
        let edits = edits_for(self.alloc, schema, edits, texts)?;
        Ok(Change::Modify {
            id,
            edits: Edits::of(edits),
            rollback,
        })
    }

    /// What an erasure asks.
    fn erase_asked(&self, conn: u64, table: usize, id: u64) -> Result<Change, Refusal>
        ensures asked { IsAnswer (of_table command.Change table result) (call.asked self.now.held conn (call.erase table id)) }
        ensures fits { IfOk result (λ change. FitsCatalog self.now.held.database.catalog (command.Change table change)) }
    {
        let _ = schema_of(self.changeable(conn)?, table)?;
        Ok(Change::Erase { id })
    }

    /// What an erasure by a whole key asks.
    fn erase_key_asked(
        &self,
        conn: u64,
        table: usize,
        index: usize,
        key: &[Cell],
        texts: &[u8],
    ) -> Result<Change, Refusal>
        ensures asked { IsAnswer (of_table command.Change table result) (call.asked self.now.held conn (call.erase_key table index key.now texts.now)) }
        ensures fits { IfOk result (λ change. FitsCatalog self.now.held.database.catalog (command.Change table change)) }
    {
        let schema = schema_of(self.changeable(conn)?, table)?;
        let index = keyed_index(schema, index)?;
        let key = key_for(self.alloc, schema, index, true, key, texts)?;
        Ok(Change::EraseKey { index, key })
    }

    /// What a relocation asks.
    fn relocate_asked(
        &self,
        conn: u64,
        table: usize,
        index: usize,
        id: u64,
        before: Option<u64>,
    ) -> Result<Change, Refusal>
        ensures asked { IsAnswer (of_table command.Change table result) (call.asked self.now.held conn (call.relocate table index id before)) }
        ensures fits { IfOk result (λ change. FitsCatalog self.now.held.database.catalog (command.Change table change)) }
    {
        let schema = schema_of(self.changeable(conn)?, table)?;
        let index = sequenced_index(schema, index)?;
        Ok(Change::Relocate { index, id, before })
    }
}

/// A table is named by its number in the catalog, and refused as `NoTable` where it isn't there. `Busy`, while another connection holds
/// sessions, comes first. `Memory` may stand in the place of any answer, and then nothing has changed. The reply to the last line stays.
impl Engine {
    /// Adds the record that cells are, last in each index among its equals, and tells its id. Refusals, in this order: `Busy`, `NoTable`,
    /// `Row`, and those of `Sessions::insert`.
    #[tactic(auto, using(crate::proofs::CallLemmas::tells))]
    pub fn insert(&mut self, conn: u64, table: usize, cells: &[Cell], texts: &[u8]) -> CallResult
        ensures { Tells conn (call.insert table cells.now texts.now) result self.old self.new }
    {
        let asked = self.insert_asked(conn, table, cells, texts);
        self.told(table, asked)
    }

    /// Adds the record that cells are as `insert` does, in a sequenced index directly before a record, and tells its id. Refusals, in this
    /// order: `Busy`, `NoTable`, `Index`, `Kind` (the index isn't sequenced), `Row`, and those of `Sessions::insert`.
    #[tactic(auto, using(crate::proofs::CallLemmas::tells))]
    pub fn insert_before(
        &mut self,
        conn: u64,
        table: usize,
        cells: &[Cell],
        texts: &[u8],
        index: usize,
        before: u64,
    ) -> CallResult
        ensures { Tells conn (call.insert_before table cells.now texts.now index before) result self.old self.new }
    {
        let asked = self.insert_before_asked(conn, table, cells, texts, index, before);
        self.told(table, asked)
    }

    /// Sets the record that cells are for an id. Refusals, in this order: `Busy`, `NoTable`, `Row`, and those of `Sessions::replace`.
    #[tactic(auto, using(crate::proofs::CallLemmas::tells))]
    pub fn replace(
        &mut self,
        conn: u64,
        table: usize,
        id: u64,
        cells: &[Cell],
        texts: &[u8],
    ) -> CallResult
        ensures { Tells conn (call.replace table id cells.now texts.now) result self.old self.new }
    {
        let asked = self.replace_asked(conn, table, id, cells, texts);
        self.told(table, asked)
    }

    /// Adds a number to a column of a record. Refusals, in this order: `Busy`, `NoTable`, `Row` (no column of whole numbers has this
    /// number), and those of `Sessions::modify`.
    #[tactic(auto, using(crate::proofs::CallLemmas::tells))]
    pub fn modify_add(
        &mut self,
        conn: u64,
        table: usize,
        id: u64,
        column: usize,
        n: i64,
        rollback: bool,
    ) -> CallResult
        ensures { Tells conn (call.modify_add table id column n rollback) result self.old self.new }
    {
        let asked = self.modify_add_asked(conn, table, id, column, n, rollback);
        self.told(table, asked)
    }

    /// Changes columns of a record. Refusals, in this order: `Busy`, `NoTable`, `Row` (an edit is none, or doesn't fit its column, or two are of
    /// one column), and those of `Sessions::modify`.
    #[tactic(auto, using(crate::proofs::CallLemmas::tells))]
    pub fn modify(
        &mut self,
        conn: u64,
        table: usize,
        id: u64,
        edits: &[EditCell],
        texts: &[u8],
        rollback: bool,
    ) -> CallResult
        ensures { Tells conn (call.modify table id edits.now texts.now rollback) result self.old self.new }
    {
        let asked = self.modify_asked(conn, table, id, edits, texts, rollback);
        self.told(table, asked)
    }

    /// Erases a record. Refusals, in this order: `Busy`, `NoTable`, and those of `Sessions::erase`.
    #[tactic(auto, using(crate::proofs::CallLemmas::tells))]
    pub fn erase(&mut self, conn: u64, table: usize, id: u64) -> CallResult
        ensures { Tells conn (call.erase table id) result self.old self.new }
    {
        let asked = self.erase_asked(conn, table, id);
        self.told(table, asked)
    }

    /// Erases the records of a whole key, and tells how many. Refusals, in this order: `Busy`, `NoTable`, `Index`, `Kind` (a sequenced index),
    /// `Key`, and those of `Sessions::erase_key`.
    #[tactic(auto, using(crate::proofs::CallLemmas::tells))]
    pub fn erase_key(
        &mut self,
        conn: u64,
        table: usize,
        index: usize,
        key: &[Cell],
        texts: &[u8],
    ) -> CallResult
        ensures { Tells conn (call.erase_key table index key.now texts.now) result self.old self.new }
    {
        let asked = self.erase_key_asked(conn, table, index, key, texts);
        self.told(table, asked)
    }

    /// Moves a record in a sequenced index directly before another, or to its end. Refusals, in this order: `Busy`, `NoTable`, `Index`, `Kind`,
    /// and those of `Sessions::relocate`.
    #[tactic(auto, using(crate::proofs::CallLemmas::tells))]
    pub fn relocate(
        &mut self,
        conn: u64,
        table: usize,
        index: usize,
        id: u64,
        before: Option<u64>,
    ) -> CallResult
        ensures { Tells conn (call.relocate table index id before) result self.old self.new }
    {
        let asked = self.relocate_asked(conn, table, index, id, before);
        self.told(table, asked)
    }
}
