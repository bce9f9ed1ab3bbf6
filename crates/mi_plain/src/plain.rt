//! The plain database: its tables, and whole copies of them for the open sessions.
use crate::table::PlainTable;
use mi_catalog::{Catalog, Schema};
use mi_sessions::Sessions;
use mi_value::limits::{LAST_COUNT, MAX_SESSIONS};
use mi_value::{Edit, Lower, NoSession, Record, Refusal, Steps, Upper, Value};
use std::alloc::{AllocError, Global};
use std::marker::Model;

/// All tables as they were at the start of a session.
#[derive(Drop)]
struct Copies {
    tables: Vec<PlainTable>,
}

impl Model for Copies {
    ghost use Rattle.std.specs.Prelude.{List};
    ghost use Rattle.mi_model.specs.Table.{Table};

    ghost Value = { List Table };

    ghost view = { λ a. a.tables.items };
}

/// A database as tables of rows and whole copies of them, the newest last.
#[derive(Drop)]
pub struct Plain {
    catalog: Catalog,
    tables: Vec<PlainTable>,
    old: Vec<Copies>,
    revision: u64,
}

impl Model for Plain {
    ghost use Rattle.std.specs.Prelude.{◌≡◌, ◌≤◌, length, reverse};
    ghost use Rattle.mi_value.specs.declared.limits.TheConstants.{LAST_COUNT};
    ghost use Rattle.mi_model.specs.Database.{Database, IsDatabase};

    ghost Value = { Database };

    ghost view = { λ a. record { catalog = a.catalog; tables = a.tables.items; old = reverse a.old.items; revision = a.revision } };

    ghost invariant = { λ a. IsDatabase (record { catalog = a.catalog; tables = a.tables.items; old = reverse a.old.items; revision = a.revision })
        × (length a.tables.items ≡ length a.catalog.tables) × (length a.old.items ≤ a.revision) × (a.revision ≤ LAST_COUNT) };
}

ghost use Rattle.std.specs.Prelude.{◌≡◌, IfOk, map};
ghost use Rattle.mi_model.specs.Table.{opened};

/// The same tables.
fn copy_tables(alloc: Global, tables: &[PlainTable]) -> Result<Vec<PlainTable>, Refusal>
    ensures { IfOk result (λ new. new.items ≡ tables.now) }
{
    let mut new = Vec::new(alloc);
    for table in tables {
        new.push(table.copy(alloc)?)?;
    }
    Ok(new)
}

/// The tables that a catalog opens with.
fn open_tables(alloc: Global, catalog: &Catalog) -> Result<Vec<PlainTable>, AllocError>
    ensures { IfOk result (λ new. new.items ≡ map opened catalog.now.tables) }
{
    let mut new = Vec::new(alloc);
    for i in 0..catalog.table_count() {
        new.push(PlainTable::opened(alloc, catalog.table(i))?)?;
    }
    Ok(new)
}

impl Plain {
    ghost use Rattle.std.specs.Prelude.{◌≡◌, ◌<◌, length, IfOk};
    ghost use Rattle.mi_model.specs.Table.{IsTable};
    ghost use Rattle.mi_model.specs.Database.{opened_database, schema_of, table_of};

    /// A table and its schema.
    fn at(&self, n: usize) -> (&Schema, &PlainTable)
        requires { n < length self.now.catalog.tables }
        ensures schema { result.0.now ≡ schema_of self.now n }
        ensures table { result.1.now ≡ table_of self.now n }
        ensures is { IsTable result.0.now result.1.now }
    {
        (self.catalog.table(n), &self.tables[n])
    }

    /// The database that a catalog opens with: no rows, no open session, the first counters and the first revision.
    pub fn new(alloc: Global, catalog: Catalog) -> Result<Plain, AllocError>
        ensures { IfOk result (λ d. d ≡ opened_database catalog) }
    {
        catalog.keeps_rules();
        let tables = open_tables(alloc, &catalog)?;
        let revision = catalog.first_revision();
        Ok(Plain {
            catalog,
            tables,
            old: Vec::new(alloc),
            revision,
        })
    }
}

impl Sessions for Plain {
    ghost use Rattle.std.specs.declared.option.Option.TheVariants.{None};

    ghost state = { λ s. s };

    ghost bound = { λ n. None };

    fn keeps_rules(&self) {
        let _ = &self.catalog;
    }

    fn catalog(&self) -> &Catalog {
        &self.catalog
    }

    fn insert(
        &mut self,
        alloc: Global,
        table: usize,
        row: Record,
        before: Option<(usize, u64)>,
    ) -> Result<u64, (Refusal, Record)> {
        let schema = self.catalog.table(table);
        self.tables[table].insert(alloc, schema, row, before)
    }

    fn replace(
        &mut self,
        alloc: Global,
        table: usize,
        id: u64,
        row: Record,
    ) -> Result<(), (Refusal, Record)> {
        let schema = self.catalog.table(table);
        self.tables[table].replace(alloc, schema, id, row)
    }

    fn modify(
        &mut self,
        alloc: Global,
        table: usize,
        id: u64,
        edits: &[Edit],
        rollback: bool,
    ) -> Result<(), Refusal> {
        let schema = self.catalog.table(table);
        self.tables[table].modify(alloc, schema, id, edits, rollback)
    }

    fn erase(&mut self, alloc: Global, table: usize, id: u64) -> Result<(), Refusal> {
        let _ = alloc;
        self.tables[table].erase(id)
    }

    fn erase_key(
        &mut self,
        alloc: Global,
        table: usize,
        index: usize,
        key: &[Value],
    ) -> Result<u64, Refusal> {
        let schema = self.catalog.table(table);
        self.tables[table].erase_key(alloc, schema, index, key)
    }

    fn relocate(
        &mut self,
        alloc: Global,
        table: usize,
        index: usize,
        id: u64,
        before: Option<u64>,
    ) -> Result<(), Refusal> {
        self.tables[table].relocate(alloc, index, id, before)
    }

    fn size(&self, table: usize) -> u64 {
        self.tables[table].size()
    }

    fn memory(&self, table: usize) -> Option<u64> {
        let _ = table;
        None
    }

    fn get(&self, table: usize, id: u64, steps: &mut Steps) -> Option<&Record> {
        let _ = steps;
        self.tables[table].get(id)
    }

    fn find_row(
        &self,
        table: usize,
        index: usize,
        key: &[Value],
        steps: &mut Steps,
    ) -> Option<(u64, &Record)> {
        let _ = steps;
        let (schema, rows) = self.at(table);
        rows.find_row(schema, index, key)
    }

    fn count(&self, table: usize, index: usize, key: &[Value], steps: &mut Steps) -> u64 {
        let _ = steps;
        let (schema, rows) = self.at(table);
        rows.count(schema, index, key)
    }

    fn first(&self, table: usize, index: usize) -> Option<u64> {
        let (schema, rows) = self.at(table);
        rows.first(schema, index)
    }

    fn last(&self, table: usize, index: usize) -> Option<u64> {
        let (schema, rows) = self.at(table);
        rows.last(schema, index)
    }

    fn after(&self, table: usize, index: usize, id: u64) -> Option<u64> {
        let (schema, rows) = self.at(table);
        rows.after(schema, index, id)
    }

    fn before(&self, table: usize, index: usize, id: u64) -> Option<u64> {
        let (schema, rows) = self.at(table);
        rows.before(schema, index, id)
    }

    fn walk(
        &self,
        alloc: Global,
        table: usize,
        index: usize,
        reverse: bool,
        first: u64,
        limit: usize,
    ) -> Result<Vec<(u64, &Record)>, Refusal> {
        let (schema, rows) = self.at(table);
        rows.walk(alloc, schema, index, reverse, first, limit)
    }

    fn walk_range(
        &self,
        alloc: Global,
        table: usize,
        index: usize,
        lower: &Lower,
        upper: &Upper,
        reverse: bool,
        limit: usize,
        steps: &mut Steps,
    ) -> Result<Vec<(u64, &Record)>, Refusal> {
        let _ = steps;
        let (schema, rows) = self.at(table);
        rows.walk_range(alloc, schema, index, lower, upper, reverse, limit)
    }

    fn lower(&self, table: usize, index: usize, key: &[Value], steps: &mut Steps) -> Option<u64> {
        let _ = steps;
        let (schema, rows) = self.at(table);
        rows.lower(schema, index, key)
    }

    fn upper(&self, table: usize, index: usize, key: &[Value], steps: &mut Steps) -> Option<u64> {
        let _ = steps;
        let (schema, rows) = self.at(table);
        rows.upper(schema, index, key)
    }

    fn first_of(&self, table: usize, index: usize, key: &[Value]) -> Option<u64> {
        let (schema, rows) = self.at(table);
        rows.first_of(schema, index, key)
    }

    fn next_of(&self, table: usize, index: usize, id: u64) -> Option<u64> {
        let (schema, rows) = self.at(table);
        rows.next_of(schema, index, id)
    }

    fn nth(&self, table: usize, index: usize, n: u64) -> Option<u64> {
        let (schema, rows) = self.at(table);
        rows.nth(schema, index, n)
    }

    fn nth_row(&self, table: usize, index: usize, n: u64) -> Option<(u64, &Record)> {
        let (schema, rows) = self.at(table);
        rows.nth_row(schema, index, n)
    }

    fn rank(&self, table: usize, index: usize, id: u64, steps: &mut Steps) -> Option<u64> {
        let _ = steps;
        let (schema, rows) = self.at(table);
        rows.rank(schema, index, id)
    }

    fn rank_of(&self, table: usize, index: usize, id: u64, steps: &mut Steps) -> u64 {
        let _ = steps;
        let (schema, rows) = self.at(table);
        rows.rank_of(schema, index, id)
    }

    fn lower_rank(&self, table: usize, index: usize, key: &[Value], steps: &mut Steps) -> u64 {
        let _ = steps;
        let (schema, rows) = self.at(table);
        rows.lower_rank(schema, index, key)
    }

    fn upper_rank(&self, table: usize, index: usize, key: &[Value], steps: &mut Steps) -> u64 {
        let _ = steps;
        let (schema, rows) = self.at(table);
        rows.upper_rank(schema, index, key)
    }

    fn start(&mut self, alloc: Global) -> Result<u64, Refusal> {
        if self.revision == LAST_COUNT {
            return Err(Refusal::Spent);
        }
        if self.old.len() == MAX_SESSIONS {
            return Err(Refusal::Depth);
        }
        let Ok(tables) = copy_tables(alloc, self.tables.as_slice()) else {
            return Err(Refusal::Memory);
        };
        if self.old.push(Copies { tables }).is_err() {
            return Err(Refusal::Memory);
        }
        self.revision += 1;
        Ok(self.revision)
    }

    fn undo(&mut self) -> Result<u64, NoSession> {
        let Some(Copies { tables }) = self.old.pop() else {
            return Err(NoSession);
        };
        self.tables = tables;
        self.revision -= 1;
        Ok(self.revision)
    }

    fn squash(&mut self) -> Result<u64, NoSession> {
        match self.old.pop() {
            None => Err(NoSession),
            Some(_joined) => {
                self.revision -= 1;
                Ok(self.revision)
            }
        }
    }

    fn commit(&mut self, number: u64) -> u64 {
        let open = self.old.len() as u64;
        let ending = number.saturating_sub(self.revision - open).min(open);
        self.old.drain(..ending as usize);
        ending
    }

    fn undo_all(&mut self) -> u64 {
        let open = self.depth();
        for _ in 0..open {
            let _ = self.undo();
        }
        open
    }

    /// It takes memory for whole copies when a change or a start needs them, and none ahead, so this promises nothing.
    fn reserve(&mut self, changes: u64, sessions: u64) -> Result<(), Refusal> {
        let _ = (changes, sessions);
        Ok(())
    }

    fn revision(&self) -> u64 {
        self.revision
    }

    fn depth(&self) -> u64 {
        self.old.len() as u64
    }
}
