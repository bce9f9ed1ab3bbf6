//! The calls of a database: several tables under one stack of nested sessions. It says what each call answers and leaves,
//! by the definitions of `mi_model`, and nothing of how rows are kept.
ghost use Rattle.std.specs.Prelude.{◌≡◌, ℕ, Some, None, length, map, IsTrue, IfSome, IfOk, IfErr, if◌then◌else◌};
ghost use Rattle.std.specs.declared.option.Option.{Option as Maybe};
ghost use Rattle.std.specs.Option.{option_copied, option_map};
ghost use Rattle.mi_value.specs.declared.refusal.Refusal.TheVariants.{Memory};
ghost use Rattle.mi_catalog.specs.Fitting.{HasTable, IsKeyedIndex, IsHashedIndex, IsSortedIndex, IsSequencedIndex, IsListedIndex};
ghost use Rattle.mi_catalog.specs.Fitting.{FitsTable, FitsEdits, FitsWhole, FitsPrefix, FitsLookUp};
ghost use Rattle.mi_model.specs.Table.{get as get_row, has as has_row, row as row_of, size as size_of};
ghost use Rattle.mi_model.specs.LookUp as look;
ghost use Rattle.mi_model.specs.Page.{range as range_of};
ghost use Rattle.mi_model.specs.Walk.{rows_from};
ghost use Rattle.mi_model.specs.Database.{Database, IsDatabase, schema_of, table_of, depth as depth_of};
ghost use Rattle.mi_model.specs.Database.{start_step, undo_step, squash_step, ending, committed, undone_times};
ghost use Rattle.mi_model.specs.DatabaseChange.{Meets, without_value, insert_step, replace_step, modify_step, erase_step, erase_key_step, relocate_step};
ghost use Rattle.mi_sessions.specs.LookUps.{WithinLookUps, WithinRange};

use mi_catalog::Catalog;
use mi_value::{Edit, Lower, NoSession, Record, Refusal, Steps, Upper, Value};
use std::alloc::Global;

/// Tables under one stack of nested sessions.
///
/// The tables are named by their number in the catalog. A refused call changes nothing, but for a modify that loses its record
/// (`Lost`). Where a growth is refused a call that can answer `Memory` does. Of the calls that read the walks alone take memory.
/// `Memory` stands last where refusals have an order, but a database may ask for memory first: it may stand in the place of any
/// other answer, and then nothing has changed.
///
/// A call that takes `steps` counts each comparison of keys along an order on them; `first_of` and `next_of` count nothing.
/// `bound` says how many one look-up in a table of so many rows makes at most, if the database promises it.
pub trait Sessions {
    ghost state: { Self → Database };

    ghost bound: { ℕ → Maybe ℕ };

    /// States what holds of every database: in each table every index lists each record once, and no id is used twice. It
    /// does nothing.
    fn keeps_rules(&self)
        ensures { IsDatabase (state self.now) };

    /// The tables' schemas. It never changes.
    fn catalog(&self) -> &Catalog
        ensures { result.now ≡ (state self.now).catalog };

    /// Adds a record and answers its id. It goes last in each index among its equals; in the sequenced index that `before`
    /// names it stands directly before the record that `before` names.
    ///
    /// Refusals, in this order: `NoId` (the record of `before` isn't there), `Full`, `Spent` (next id or arrivals),
    /// `Unique` (the first unique index in schema order that refuses, with the record that has the key), `Memory`.
    /// The refused record is handed back.
    fn insert(
        &mut self,
        alloc: Global,
        table: usize,
        row: Record,
        before: Option<(usize, u64)>,
    ) -> Result<u64, (Refusal, Record)>
        requires table { HasTable (state self.old).catalog table }
        requires row { FitsTable (state self.old).catalog table row }
        requires before { IfSome before (λ at. IsSequencedIndex (state self.old).catalog table at.0) }
        ensures outcome { Meets (insert_step table before row (state self.old)) (without_value result) (state self.old) (state self.new) }
        ensures handed_back { IfErr result (λ e. e.1 ≡ row) };

    /// Sets another record for an id. In each index where its key stays, and in each sequenced one, it keeps its place; where
    /// its key changes it goes last among its new equals.
    ///
    /// Refusals, in this order: `NoId`, `Spent` (arrivals), `Unique`, `Memory`. The refused record is handed back.
    fn replace(
        &mut self,
        alloc: Global,
        table: usize,
        id: u64,
        row: Record,
    ) -> Result<(), (Refusal, Record)>
        requires table { HasTable (state self.old).catalog table }
        requires row { FitsTable (state self.old).catalog table row }
        ensures outcome { Meets (replace_step table id row (state self.old)) (without_value result) (state self.old) (state self.new) }
        ensures handed_back { IfErr result (λ e. e.1 ≡ row) };

    /// Changes columns of a record, whose places move as by `replace`. Each edit is of a column of its type, and no column is
    /// edited twice; with no edits the record stays.
    ///
    /// Refusals, in this order: `NoId`, `Range` (a sum leaves 64 bits), `Spent` (arrivals), then where a unique index refuses
    /// the result `Unique` with `rollback`, which changes nothing, or without it `Lost`, and the record is erased; `Memory`.
    fn modify(
        &mut self,
        alloc: Global,
        table: usize,
        id: u64,
        edits: &[Edit],
        rollback: bool,
    ) -> Result<(), Refusal>
        requires table { HasTable (state self.old).catalog table }
        requires edits { FitsEdits (state self.old).catalog table edits.now }
        ensures { Meets (modify_step table id edits.now rollback (state self.old)) result (state self.old) (state self.new) };

    /// Erases a record. Refusals: `NoId`, `Memory`.
    fn erase(&mut self, alloc: Global, table: usize, id: u64) -> Result<(), Refusal>
        requires { HasTable (state self.old).catalog table }
        ensures { Meets (erase_step table id (state self.old)) result (state self.old) (state self.new) };

    /// Erases every record with a key in an index that has keys, and answers how many. The key is whole. Refusal: `Memory`.
    fn erase_key(
        &mut self,
        alloc: Global,
        table: usize,
        index: usize,
        key: &[Value],
    ) -> Result<u64, Refusal>
        requires table { HasTable (state self.old).catalog table }
        requires index { IsKeyedIndex (state self.old).catalog table index }
        requires key { FitsWhole (state self.old).catalog table index key.now }
        ensures { Meets (erase_key_step table index key.now (state self.old)) result (state self.old) (state self.new) };

    /// Moves a record in a sequenced index directly before another, or to its end; before itself it stays. Refusals: `NoId`
    /// (of either record), `Memory`.
    fn relocate(
        &mut self,
        alloc: Global,
        table: usize,
        index: usize,
        id: u64,
        before: Option<u64>,
    ) -> Result<(), Refusal>
        requires table { HasTable (state self.old).catalog table }
        requires index { IsSequencedIndex (state self.old).catalog table index }
        ensures { Meets (relocate_step table index id before (state self.old)) result (state self.old) (state self.new) };

    /// How many records a table has.
    fn size(&self, table: usize) -> u64
        requires { HasTable (state self.now).catalog table }
        ensures { result ≡ size_of (table_of (state self.now) table) };

    /// How many bytes of memory a table takes: its nodes, its indexes, its map of ids, and records that don't lie in their nodes. None, where
    /// the database doesn't count them. No clause says how many; tests do.
    fn memory(&self, table: usize) -> Option<u64>
        requires { HasTable (state self.now).catalog table };

    /// The record of an id, or none. At most one look-up.
    fn get(&self, table: usize, id: u64, steps: &mut Steps) -> Option<&Record>
        requires { HasTable (state self.now).catalog table }
        ensures record { option_copied result ≡ get_row (table_of (state self.now) table) id }
        ensures steps { WithinLookUps bound 1 (size_of (table_of (state self.now) table)) steps.old.count steps.new.count };

    /// The first id of a key in an index with keys and its record, or none: of equal keys that of the record that arrived first. A hashed
    /// index is asked for a whole key, an ordered or ranked one also for the first values of one. At most one look-up.
    fn find_row(
        &self,
        table: usize,
        index: usize,
        key: &[Value],
        steps: &mut Steps,
    ) -> Option<(u64, &Record)>
        requires table { HasTable (state self.now).catalog table }
        requires index { IsKeyedIndex (state self.now).catalog table index }
        requires key { FitsLookUp (state self.now).catalog table index key.now }
        ensures id { option_map (λ r. r.0) result ≡ look.find (schema_of (state self.now) table) (table_of (state self.now) table) index key.now }
        ensures row { IfSome result (λ r. get_row (table_of (state self.now) table) r.0 ≡ Some r.1.now) }
        ensures steps { WithinLookUps bound 1 (size_of (table_of (state self.now) table)) steps.old.count steps.new.count };

    /// How many records have a key in an index with keys, which is asked as by `find_row`. At most two look-ups.
    fn count(&self, table: usize, index: usize, key: &[Value], steps: &mut Steps) -> u64
        requires table { HasTable (state self.now).catalog table }
        requires index { IsKeyedIndex (state self.now).catalog table index }
        requires key { FitsLookUp (state self.now).catalog table index key.now }
        ensures count { result ≡ look.count (schema_of (state self.now) table) (table_of (state self.now) table) index key.now }
        ensures steps { WithinLookUps bound 2 (size_of (table_of (state self.now) table)) steps.old.count steps.new.count };

    /// The first id that an index shows, or none of an empty table. A hashed index has no order.
    fn first(&self, table: usize, index: usize) -> Option<u64>
        requires table { HasTable (state self.now).catalog table }
        requires index { IsListedIndex (state self.now).catalog table index }
        ensures { result ≡ look.first (schema_of (state self.now) table) (table_of (state self.now) table) index };

    /// The last id that an index shows, or none of an empty table.
    fn last(&self, table: usize, index: usize) -> Option<u64>
        requires table { HasTable (state self.now).catalog table }
        requires index { IsListedIndex (state self.now).catalog table index }
        ensures { result ≡ look.last (schema_of (state self.now) table) (table_of (state self.now) table) index };

    /// The id that an index shows directly after another, or none behind the last.
    fn after(&self, table: usize, index: usize, id: u64) -> Option<u64>
        requires table { HasTable (state self.now).catalog table }
        requires index { IsListedIndex (state self.now).catalog table index }
        requires id { IsTrue (has_row (table_of (state self.now) table) id) }
        ensures { result ≡ look.after (schema_of (state self.now) table) (table_of (state self.now) table) index id };

    /// The id that an index shows directly before another, or none before the first.
    fn before(&self, table: usize, index: usize, id: u64) -> Option<u64>
        requires table { HasTable (state self.now).catalog table }
        requires index { IsListedIndex (state self.now).catalog table index }
        requires id { IsTrue (has_row (table_of (state self.now) table) id) }
        ensures { result ≡ look.before (schema_of (state self.now) table) (table_of (state self.now) table) index id };

    /// The rows that a sequenced index shows from one on, in its order or in the reverse of it, at most `limit` of them: their ids
    /// with their records, lent. It is one walk from that row, and the vector is the one memory that it takes. Refusal: `Memory`.
    fn walk(
        &self,
        alloc: Global,
        table: usize,
        index: usize,
        reverse: bool,
        first: u64,
        limit: usize,
    ) -> Result<Vec<(u64, &Record)>, Refusal>
        requires table { HasTable (state self.now).catalog table }
        requires index { IsSequencedIndex (state self.now).catalog table index }
        requires first { IsTrue (has_row (table_of (state self.now) table) first) }
        ensures rows { IfOk result (λ rows. map (λ r. (r.0, r.1.now)) rows.items ≡
            rows_from (schema_of (state self.now) table) (table_of (state self.now) table) index reverse first limit) }
        ensures err { IfErr result (λ e. e ≡ Memory) };

    /// The first rows of those that an ordered or ranked index shows between two bounds, in its order or in the reverse of it, at most
    /// `limit` of them: their ids with their records, lent. It is one look-up and one walk, with at most one comparison for each row
    /// and no row past the bound where it ends; the vector is the one memory that it takes. Refusal: `Memory`.
    fn walk_range(
        &self,
        alloc: Global,
        table: usize,
        index: usize,
        lower: &Lower,
        upper: &Upper,
        reverse: bool,
        limit: usize,
        steps: &mut Steps,
    ) -> Result<Vec<(u64, &Record)>, Refusal>
        requires table { HasTable (state self.now).catalog table }
        requires index { IsSortedIndex (state self.now).catalog table index }
        ensures rows { IfOk result (λ rows. map (λ r. (r.0, r.1.now)) rows.items ≡ map (row_of (table_of (state self.now) table))
            (range_of (schema_of (state self.now) table) (table_of (state self.now) table) index lower.now upper.now reverse limit).ids) }
        ensures err { IfErr result (λ e. e ≡ Memory) }
        ensures steps { WithinRange bound
            (length (range_of (schema_of (state self.now) table) (table_of (state self.now) table) index lower.now upper.now reverse limit).ids)
            (size_of (table_of (state self.now) table)) steps.old.count steps.new.count };

    /// The first id of an ordered or ranked index whose key isn't less than a key or the first values of one, or none. At
    /// most one look-up.
    fn lower(&self, table: usize, index: usize, key: &[Value], steps: &mut Steps) -> Option<u64>
        requires table { HasTable (state self.now).catalog table }
        requires index { IsSortedIndex (state self.now).catalog table index }
        requires key { FitsPrefix (state self.now).catalog table index key.now }
        ensures id { result ≡ look.lower (schema_of (state self.now) table) (table_of (state self.now) table) index key.now }
        ensures steps { WithinLookUps bound 1 (size_of (table_of (state self.now) table)) steps.old.count steps.new.count };

    /// The first id of an ordered or ranked index whose key is greater than a key or the first values of one, or none. At
    /// most one look-up.
    fn upper(&self, table: usize, index: usize, key: &[Value], steps: &mut Steps) -> Option<u64>
        requires table { HasTable (state self.now).catalog table }
        requires index { IsSortedIndex (state self.now).catalog table index }
        requires key { FitsPrefix (state self.now).catalog table index key.now }
        ensures id { result ≡ look.upper (schema_of (state self.now) table) (table_of (state self.now) table) index key.now }
        ensures steps { WithinLookUps bound 1 (size_of (table_of (state self.now) table)) steps.old.count steps.new.count };

    /// The first id of a whole key in a hashed index, or none.
    fn first_of(&self, table: usize, index: usize, key: &[Value]) -> Option<u64>
        requires table { HasTable (state self.now).catalog table }
        requires index { IsHashedIndex (state self.now).catalog table index }
        requires key { FitsWhole (state self.now).catalog table index key.now }
        ensures { result ≡ look.first_with_key (schema_of (state self.now) table) (table_of (state self.now) table) index key.now };

    /// The id that follows another among those of its key in a hashed index, or none behind the last.
    fn next_of(&self, table: usize, index: usize, id: u64) -> Option<u64>
        requires table { HasTable (state self.now).catalog table }
        requires index { IsHashedIndex (state self.now).catalog table index }
        requires id { IsTrue (has_row (table_of (state self.now) table) id) }
        ensures { result ≡ look.next_with_key (schema_of (state self.now) table) (table_of (state self.now) table) index id };

    /// The id with n records before it in an ordered or ranked index, or none.
    fn nth(&self, table: usize, index: usize, n: u64) -> Option<u64>
        requires table { HasTable (state self.now).catalog table }
        requires index { IsSortedIndex (state self.now).catalog table index }
        ensures { result ≡ look.nth (schema_of (state self.now) table) (table_of (state self.now) table) index n };

    /// The id with n records before it in an ordered or ranked index and its record, or none. It compares nothing.
    fn nth_row(&self, table: usize, index: usize, n: u64) -> Option<(u64, &Record)>
        requires table { HasTable (state self.now).catalog table }
        requires index { IsSortedIndex (state self.now).catalog table index }
        ensures id { option_map (λ r. r.0) result ≡ look.nth (schema_of (state self.now) table) (table_of (state self.now) table) index n }
        ensures row { IfSome result (λ r. get_row (table_of (state self.now) table) r.0 ≡ Some r.1.now) };

    /// How many records stand before a record in an ordered or ranked index, or none where it isn't there. At most one look-up.
    fn rank(&self, table: usize, index: usize, id: u64, steps: &mut Steps) -> Option<u64>
        requires table { HasTable (state self.now).catalog table }
        requires index { IsSortedIndex (state self.now).catalog table index }
        ensures rank { result ≡ (if has_row (table_of (state self.now) table) id
            then Some (look.rank (schema_of (state self.now) table) (table_of (state self.now) table) index id) else None) }
        ensures steps { WithinLookUps bound 1 (size_of (table_of (state self.now) table)) steps.old.count steps.new.count };

    /// How many records stand before a record in an ordered or ranked index. At most one look-up.
    fn rank_of(&self, table: usize, index: usize, id: u64, steps: &mut Steps) -> u64
        requires table { HasTable (state self.now).catalog table }
        requires index { IsSortedIndex (state self.now).catalog table index }
        requires id { IsTrue (has_row (table_of (state self.now) table) id) }
        ensures rank { result ≡ look.rank (schema_of (state self.now) table) (table_of (state self.now) table) index id }
        ensures steps { WithinLookUps bound 1 (size_of (table_of (state self.now) table)) steps.old.count steps.new.count };

    /// How many records of an ordered or ranked index have a key less than a key or the first values of one. At most one
    /// look-up.
    fn lower_rank(&self, table: usize, index: usize, key: &[Value], steps: &mut Steps) -> u64
        requires table { HasTable (state self.now).catalog table }
        requires index { IsSortedIndex (state self.now).catalog table index }
        requires key { FitsPrefix (state self.now).catalog table index key.now }
        ensures rank { result ≡ look.lower_rank (schema_of (state self.now) table) (table_of (state self.now) table) index key.now }
        ensures steps { WithinLookUps bound 1 (size_of (table_of (state self.now) table)) steps.old.count steps.new.count };

    /// How many records of an ordered or ranked index have a key not greater than a key or the first values of one. At most
    /// one look-up.
    fn upper_rank(&self, table: usize, index: usize, key: &[Value], steps: &mut Steps) -> u64
        requires table { HasTable (state self.now).catalog table }
        requires index { IsSortedIndex (state self.now).catalog table index }
        requires key { FitsPrefix (state self.now).catalog table index key.now }
        ensures rank { result ≡ look.upper_rank (schema_of (state self.now) table) (table_of (state self.now) table) index key.now }
        ensures steps { WithinLookUps bound 1 (size_of (table_of (state self.now) table)) steps.old.count steps.new.count };

    /// Opens a session and answers its number, the new revision. Refusals, in this order: `Spent` (the revision is
    /// 2^63 - 1), `Depth` (1,024 are open), `Memory`.
    fn start(&mut self, alloc: Global) -> Result<u64, Refusal>
        ensures { Meets (start_step (state self.old)) result (state self.old) (state self.new) };

    /// Takes back all changes since the newest start, in all tables, and answers the new revision. It takes no memory;
    /// its one refusal is that no session is open.
    fn undo(&mut self) -> Result<u64, NoSession>
        ensures answer { result ≡ (undo_step (state self.old)).0 }
        ensures state { state self.new ≡ (undo_step (state self.old)).1 };

    /// Joins the newest session into the one below it, or with one open ends it and keeps its changes; answers the new
    /// revision. Its one refusal is that no session is open.
    fn squash(&mut self) -> Result<u64, NoSession>
        ensures answer { result ≡ (squash_step (state self.old)).0 }
        ensures state { state self.new ≡ (squash_step (state self.old)).1 };

    /// Ends the sessions with a number of at most this, the oldest first, and keeps their changes; answers how many. The
    /// revision stays, and so do the numbers of the others.
    fn commit(&mut self, number: u64) -> u64
        ensures answer { result ≡ ending number (state self.old) }
        ensures state { state self.new ≡ committed number (state self.old) };

    /// Takes back all changes since the oldest start and answers how many sessions it undid.
    fn undo_all(&mut self) -> u64
        ensures answer { result ≡ depth_of (state self.old) }
        ensures state { state self.new ≡ undone_times (depth_of (state self.old)) (state self.old) };

    /// Asks for memory ahead of its use: for so many changes inside sessions, and for so many starts. Which calls are then not
    /// refused for memory is the database's to say. Tables, sessions and the revision stay as they are, whatever is
    /// answered. Refusal: `Memory`.
    fn reserve(&mut self, changes: u64, sessions: u64) -> Result<(), Refusal>
        ensures same { state self.new ≡ state self.old }
        ensures memory { IfErr result (λ e. e ≡ Memory) };

    /// The revision: one more after each start, one less after each undo and each squash, and the same after a commit. While a
    /// session is open it is the number of the newest one, and before the first start it is the catalog's first revision.
    fn revision(&self) -> u64
        ensures { result ≡ (state self.now).revision };

    /// How many sessions are open.
    fn depth(&self) -> u64
        ensures { result ≡ depth_of (state self.now) };
}
