//! The containers and the journal. A change is made by its container, which answers a step; with a session open the step is noted with
//! its old places, else it is settled at once. This file knows nothing of how a container keeps its rows.
use mi_catalog::{Catalog, Schema};
use mi_container::{Container, OldPlaces, RowRef, Step};
use mi_journal::Inverses;
use std::alloc::{AllocError, Global};
use std::marker::Model;

/// A database as linked containers, and a journal of inverses.
#[derive(Drop)]
pub struct Linked<C: Container> {
    pub(crate) catalog: Catalog,
    pub(crate) containers: Vec<C>,
    pub(crate) journal: Inverses,
    pub(crate) revision: u64,
    /// Where a change lays down its old places, until they are noted, and where they are laid down again to take it back.
    pub(crate) laid: OldPlaces,
}

impl<C: Container> Model for Linked<C> {
    ghost use Rattle.std.specs.Prelude.{map};
    ghost use Rattle.mi_database.specs.LinkedData.{LinkedData, data_seen, IsLinkedData};
    ghost use Rattle.mi_database.specs.Most.{AllHaveAtMost};

    ghost Value = { LinkedData };

    ghost view = { λ a. data_seen a.catalog (map C.plain a.containers.items) a.journal a.revision (map C.held a.containers.items) (map C.secrets a.containers.items) };

    ghost invariant = { λ a. IsLinkedData (map C.shape a.containers.items) a.catalog (map C.plain a.containers.items) a.journal.sessions a.revision
        × AllHaveAtMost a.journal.most a.catalog };
}

ghost use Rattle.std.specs.Prelude.{◌≡◌, ◌<◌, ◌≤◌, ◌+◌, true, List, Option, [], length, map, vec_len, IfOk, OnErr};
ghost use Rattle.mi_container.specs.Changes.{opened_data};
ghost use Rattle.mi_container.specs.Secrets.{opened_secrets};
ghost use Rattle.mi_container.specs.Backs.{row_seen, places_seen, step_seen};
ghost use Rattle.mi_container.specs.Fits.{KeptBy};
ghost use Rattle.mi_container.specs.Inverse.{OldPlace};
ghost use Rattle.mi_container.specs.Inverse.Inverse.{Inserted};
ghost use Rattle.mi_database.specs.Journal.{data_at};
ghost use Rattle.mi_journal.specs.Noted.{noted};
ghost use Rattle.mi_journal.specs.Stored.{IsWithin};
ghost use Rattle.mi_database.specs.LinkedData.{kept_datas, AreNoted};
ghost use Rattle.mi_database.specs.Most.{keyed_count, AllHaveAtMost, SomeHas};

/// The containers that a catalog opens with, all with one secret.
fn open_containers<C: Container>(
    alloc: Global,
    catalog: &Catalog,
    secret: u64,
) -> Result<Vec<C>, AllocError>
    ensures shapes { IfOk result (λ new. map C.shape new.items ≡ catalog.now.tables) }
    ensures datas { IfOk result (λ new. map C.plain new.items ≡ map opened_data catalog.now.tables) }
    ensures held { IfOk result (λ new. map C.held new.items ≡ map (λ _. []) catalog.now.tables) }
    ensures secrets { IfOk result (λ new. map C.secrets new.items ≡ map (opened_secrets secret) catalog.now.tables) }
{
    let mut new = Vec::new(alloc);
    for i in 0..catalog.table_count() {
        new.push(C::new(alloc, catalog.table(i).copy(alloc)?, secret)?)?;
    }
    Ok(new)
}

/// How many indexes of a table have keys: a put has old places in those at most.
fn keyed_indexes(table: &Schema) -> usize
    ensures { result ≡ keyed_count table.now.indexes }
{
    let mut count = 0;
    for i in 0..table.index_count() {
        if table.parts(i).len() > 0 {
            count += 1;
        }
    }
    count
}

/// The most that a table of a catalog has: each has so many at most, and some has as many, unless it is 0.
pub(crate) fn most_keyed_indexes(catalog: &Catalog) -> usize
    ensures all { AllHaveAtMost result catalog.now }
    ensures some { SomeHas result catalog.now }
{
    let mut most = 0;
    for n in 0..catalog.table_count() {
        let table = catalog.table(n);
        table.keeps_rules();
        most = most.max(keyed_indexes(table));
    }
    most
}

/// Whether a change is noted: a session is open.
pub(crate) fn notes(journal: &Inverses) -> bool
    ensures { 0 < length journal.now.sessions → result ≡ true }
{
    journal.depth() > 0
}

/// Notes the step of a change that a container has just made, with the old places that are laid down, or settles it where no session
/// is open: then any places are its own.
pub(crate) fn keep<C: Container>(
    containers: &mut Vec<C>,
    journal: &mut Inverses,
    table: usize,
    step: Step,
    laid: &mut OldPlaces,
)
    requires table { table < vec_len containers.old }
    requires kept { KeptBy (step_seen step []) (data_at (map C.plain containers.old.items) table) }
    requires room { 0 < length journal.old.sessions → 0 < journal.old.changes }
    requires within { 0 < length journal.old.sessions → IsWithin journal.old.most (step_seen step (places_seen laid.old.items)) }
    ensures datas { (ps : List (Option OldPlace)) → AreNoted journal.old.sessions ps laid.old.items →
        map C.plain containers.new.items ≡ kept_datas table (step_seen step ps) journal.old.sessions (map C.plain containers.old.items) }
    ensures shapes { map C.shape containers.new.items ≡ map C.shape containers.old.items }
    ensures secrets { map C.secrets containers.new.items ≡ map C.secrets containers.old.items }
    ensures journal { (ps : List (Option OldPlace)) → AreNoted journal.old.sessions ps laid.old.items →
        journal.new.sessions ≡ noted (table, step_seen step ps) journal.old.sessions }
    ensures changes { journal.old.changes ≤ journal.new.changes + 1 }
    ensures starts { journal.new.starts ≡ journal.old.starts }
    ensures most { journal.new.most ≡ journal.old.most }
{
    if journal.depth() == 0 {
        containers[table].settle(step);
    } else {
        journal.note(table, step, laid);
    }
}

/// Notes that a container has inserted a row, where a session is open. Where none is, its inverse settles nothing and isn't laid down.
pub(crate) fn keep_inserted(journal: &mut Inverses, table: usize, row: RowRef, laid: &mut OldPlaces)
    requires room { 0 < length journal.old.sessions → 0 < journal.old.changes }
    ensures journal { journal.new.sessions ≡ noted (table, Inserted (row_seen row)) journal.old.sessions }
    ensures changes { journal.old.changes ≤ journal.new.changes + 1 }
    ensures starts { journal.new.starts ≡ journal.old.starts }
    ensures most { journal.new.most ≡ journal.old.most }
{
    if journal.depth() > 0 {
        journal.note(table, Step::Inserted(row), laid);
    }
}

impl<C: Container> Linked<C> {
    ghost use Rattle.mi_database.specs.LinkedData.{with_room, RoomFor};
    ghost use Rattle.std.specs.Prelude.{OnOk};
    ghost use Rattle.mi_database.specs.LinkedData.{meaning, opened_linked};
    ghost use Rattle.mi_catalog.specs.Fitting.{HasTable};
    ghost use Rattle.mi_container.specs.Data.{as_table};
    ghost use Rattle.mi_database.specs.Kept.{NodesAreKept};
    ghost use Rattle.mi_model.specs.Table.{IsTable};
    ghost use Rattle.mi_model.specs.Database.{opened_database, schema_of, table_of as table_at};

    /// The database that a catalog opens with: no rows, no open session, the first counters and the first revision. Each
    /// hashed index of each table hashes keys under the secret: who doesn't know it, and can't measure single look-ups, has no
    /// known way to aim keys at one bucket, which isn't proved. What is answered is the same for every secret.
    pub fn new(alloc: Global, catalog: Catalog, secret: u64) -> Result<Linked<C>, AllocError>
        ensures held { IfOk result (λ d. d ≡ opened_linked d.changes d.starts secret catalog) }
        ensures state { IfOk result (λ d. meaning d ≡ opened_database catalog) }
    {
        catalog.keeps_rules();
        let containers = open_containers(alloc, &catalog, secret)?;
        let revision = catalog.first_revision();
        let most = most_keyed_indexes(&catalog);
        Ok(Linked {
            catalog,
            containers,
            journal: Inverses::new(alloc, most),
            revision,
            laid: OldPlaces::new(),
        })
    }

    /// Room for so many changes inside a session, and for so many sessions.
    pub fn room(&self) -> (u64, u64)
        ensures changes { result.0 ≡ self.now.changes }
        ensures starts { result.1 ≡ self.now.starts }
    {
        let (changes, starts) = self.journal.room();
        (changes as u64, starts as u64)
    }

    /// States that the nodes in the pool of a table are its rows and those that the inverses of the open sessions keep, each
    /// by one, and no others. It does nothing.
    pub fn keeps_nodes(&self, n: usize)
        requires { HasTable self.now.catalog n }
        ensures { NodesAreKept self.now n }
    {
        self.containers[n].keeps_nodes();
    }

    /// The container of a table.
    pub(crate) fn at(&self, n: usize) -> &C
        requires { HasTable self.now.catalog n }
        ensures shape { C.shape result.now ≡ schema_of (meaning self.now) n }
        ensures table { as_table (C.plain result.now) ≡ table_at (meaning self.now) n }
        ensures within { n < length (meaning self.now).tables }
        ensures is { IsTable (schema_of (meaning self.now) n) (table_at (meaning self.now) n) }
    {
        &self.containers[n]
    }

    /// Room for so many inverses, where a session is open.
    pub(crate) fn make_room(&mut self, changes: usize) -> Result<(), AllocError>
        ensures same { self.new ≡ with_room self.new.changes self.new.starts self.old }
        ensures changes { self.old.changes ≤ self.new.changes }
        ensures starts { self.old.starts ≤ self.new.starts }
        ensures room { OnOk result (RoomFor changes self.new) }
        ensures short { OnErr result ((0 < length self.old.journal) × (self.old.changes < changes)) }
    {
        if self.journal.depth() == 0 || changes <= self.journal.room().0 {
            return Ok(());
        }
        self.journal.reserve(changes, 0)
    }

    /// Room for one more session.
    pub(crate) fn reserve_session(&mut self) -> Result<(), AllocError>
        ensures same { self.new ≡ with_room self.new.changes self.new.starts self.old }
        ensures changes { self.old.changes ≤ self.new.changes }
        ensures starts { self.old.starts ≤ self.new.starts }
        ensures room { OnOk result (0 < self.new.starts) }
        ensures short { OnErr result (self.old.starts ≡ 0) }
    {
        if self.journal.room().1 > 0 {
            return Ok(());
        }
        self.journal.reserve(0, 1)
    }
}
