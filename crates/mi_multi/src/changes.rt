//! Changes of a container, and what takes each back.
ghost use Rattle.std.specs.Prelude.{◌≡◌, not, None, [], IfOk, IfErr, IfSome};
ghost use Rattle.std.specs.Option.{option_map};
ghost use Rattle.mi_model.specs.Table.{has as has_row};
ghost use Rattle.mi_model.specs.Verdict.{has_place, insert_refusal, insert_outcome};
ghost use Rattle.mi_container.specs.Asked.{IsSequenced, RecordFits};
ghost use Rattle.mi_container.specs.Data.{IsData, as_table};
ghost use Rattle.mi_container.specs.Makes.{MakesInsert, MeetsOn, insert_row_answer};
ghost use Rattle.mi_container.specs.Inverse.{taken_back, settled};
ghost use Rattle.mi_container.specs.Inverse.Inverse.{Inserted, Relocated};
ghost use Rattle.mi_container.specs.Fits.{Ready, KeptBy};
ghost use Rattle.mi_container.specs.Backs.{row_seen, step_seen};
ghost use Rattle.mi_multi.specs.Before.{node_before, row_kept_by};

use crate::conflicts::unique_refusal;
use crate::multi::MultiIndex;
use mi_container::{RowRef, Step};
use mi_ids::Ids;
use mi_index::Stored;
use mi_node::NodeRef;
use mi_value::limits::LAST_COUNT;
use mi_value::{Record, Refusal};
use std::alloc::Global;

/// The most nodes, live and kept, that a container has. A pool has no more places.
const MOST_NODES: usize = 2_147_483_648;

/// The node of a live row that is given with an index, or none.
fn node_at(ids: &Ids, before: Option<(usize, u64)>) -> Option<(usize, NodeRef)>
    ensures { result ≡ node_before ids.now.entries before }
{
    let (index, id) = before?;
    let node = ids.live(id)?;
    Some((index, node))
}

/// The node of a row, if one is given.
fn node_of(row: Option<RowRef>) -> Option<NodeRef>
    ensures { result ≡ option_map (λ r. (row_seen r).at) row }
{
    match row {
        Some(row) => Some(row.node),
        None => None,
    }
}

/// The row whose node a step keeps, if any.
fn kept_row(step: &Step) -> Option<RowRef>
    ensures { option_map row_seen result ≡ row_kept_by (step_seen step.now []) }
{
    match step {
        Step::Erased(row, _) => Some(*row),
        _ => None,
    }
}

impl MultiIndex {
    /// Adds a record that no rule refuses and answers its row. It goes last in each index among its equals; in the sequenced
    /// index that `before` names it stands directly before the record that `before` names.
    ///
    /// Where memory is refused, the record is handed back.
    pub(crate) fn insert_accepted(
        &mut self,
        alloc: Global,
        row: Record,
        before: Option<(usize, u64)>,
    ) -> Result<RowRef, Record>
        requires before { IfSome before (λ at. IsSequenced self.old.shape at.0) }
        requires accepted { insert_refusal self.old.shape before row (as_table self.old.plain) ≡ None }
        ensures id { IfOk result (λ r. r.id ≡ self.old.plain.next) }
        ensures made { IfOk result (λ r. MakesInsert self.old.shape before row self.old.plain (Inserted (row_seen r)) self.new.plain) }
        ensures refused { IfErr result (λ _. self.new.plain ≡ self.old.plain) }
        ensures handed_back { IfErr result (λ e. e ≡ row) }
        ensures shape { self.new.shape ≡ self.old.shape }
        ensures secrets { self.new.secrets ≡ self.old.secrets }
    {
        if self.ids.len() >= MOST_NODES {
            return Err(row);
        }
        let Ok(()) = self.ids.make_room() else {
            return Err(row);
        };
        let id = self.next;
        let place = node_at(&self.ids, before);
        let count = self.ids.len() as u64 + 1;
        let stored = Stored { id, row };
        match self
            .nodes
            .link_in(alloc, stored, count, self.arrivals, place)
        {
            Ok(node) => {
                self.ids.insert(id, node);
                self.next += 1;
                self.arrivals += 1;
                Ok(RowRef { id, node })
            }
            Err((_, stored)) => Err(stored.row),
        }
    }

    /// Whether an id is of a live row.
    pub(crate) fn has(&self, id: u64) -> bool
        ensures { result ≡ has_row (as_table self.now.plain) id }
    {
        self.ids.live(id).is_some()
    }

    /// Whether a row is given that isn't there.
    fn is_missing(&self, before: Option<(usize, u64)>) -> bool
        ensures { result ≡ not (has_place (as_table self.now.plain) (option_map (λ p. p.1) before)) }
    {
        match before {
            Some((_, id)) => !self.has(id),
            None => false,
        }
    }

    /// Why a record may not be inserted there, or none.
    fn insert_refusal(&self, row: &Record, before: Option<(usize, u64)>) -> Option<Refusal>
        ensures { result ≡ insert_refusal self.now.shape before row.now (as_table self.now.plain) }
    {
        if self.is_missing(before) {
            return Some(Refusal::NoId);
        }
        if self.size() == self.schema.max_rows() {
            return Some(Refusal::Full);
        }
        if self.next == LAST_COUNT {
            return Some(Refusal::Spent);
        }
        if self.arrivals == LAST_COUNT {
            return Some(Refusal::Spent);
        }
        unique_refusal(self.conflict(row, None))
    }

    /// Adds a record and answers its row, of which `Step::Inserted` is the step. It goes last in each index among its equals; in
    /// the sequenced index that `before` names it stands directly before the record that `before` names.
    ///
    /// Refusals, in this order: `NoId`, `Full`, `Spent`, `Unique`, `Memory`. The refused record is handed back.
    pub fn insert_row(
        &mut self,
        alloc: Global,
        row: Record,
        before: Option<(usize, u64)>,
    ) -> Result<RowRef, (Refusal, Record)>
        requires row { RecordFits self.old.shape row }
        requires before { IfSome before (λ at. IsSequenced self.old.shape at.0) }
        ensures outcome { MeetsOn (insert_outcome self.old.shape before row) (insert_row_answer result) self.old.plain self.new.plain }
        ensures made { IfOk result (λ r. MakesInsert self.old.shape before row self.old.plain (Inserted (row_seen r)) self.new.plain) }
        ensures refused { IfErr result (λ e. self.new.plain ≡ self.old.plain) }
        ensures handed_back { IfErr result (λ e. e.1 ≡ row) }
        ensures shape { self.new.shape ≡ self.old.shape }
        ensures secrets { self.new.secrets ≡ self.old.secrets }
    {
        self.keeps_rules();
        if let Some(refusal) = self.insert_refusal(&row, before) {
            return Err((refusal, row));
        }
        match self.insert_accepted(alloc, row, before) {
            Ok(inserted) => Ok(inserted),
            Err(row) => Err((Refusal::Memory, row)),
        }
    }

    /// Takes back that a row was inserted: its node leaves every index and is freed, and its id and its place in time are
    /// used again. Takes no memory.
    pub(crate) fn take_back_inserted(&mut self, row: RowRef)
        requires ready { Ready (Inserted (row_seen row)) self.old.plain }
        requires before { IsData self.old.shape (taken_back (Inserted (row_seen row)) self.old.plain) }
        ensures plain { self.new.plain ≡ taken_back (Inserted (row_seen row)) self.old.plain }
        ensures shape { self.new.shape ≡ self.old.shape }
        ensures secrets { self.new.secrets ≡ self.old.secrets }
    {
        self.nodes.take_out(row.node);
        let freed = self.nodes.free(row.node);
        drop(freed);
        self.ids.remove(row.id);
        self.next -= 1;
        self.arrivals -= 1;
    }

    /// Has a row stand in a sequenced index directly before the row that is named, or last. A move and what takes it back are
    /// both this step: each is said as a move that is taken back. Takes no memory.
    pub(crate) fn stand_before(&mut self, index: usize, row: RowRef, behind: Option<RowRef>)
        requires ready { Ready (Relocated index (row_seen row) (option_map row_seen behind)) self.old.plain }
        requires before { IsData self.old.shape (taken_back (Relocated index (row_seen row) (option_map row_seen behind)) self.old.plain) }
        ensures plain { self.new.plain ≡ taken_back (Relocated index (row_seen row) (option_map row_seen behind)) self.old.plain }
        ensures shape { self.new.shape ≡ self.old.shape }
        ensures secrets { self.new.secrets ≡ self.old.secrets }
    {
        self.nodes.relocate(index, row.node, node_of(behind));
    }

    /// Frees the node that a step keeps, if any. Old places aren't asked for. Takes no memory.
    pub fn settle(&mut self, step: Step)
        requires { KeptBy (step_seen step []) self.old.plain }
        ensures plain { self.new.plain ≡ settled (step_seen step []) self.old.plain }
        ensures shape { self.new.shape ≡ self.old.shape }
        ensures secrets { self.new.secrets ≡ self.old.secrets }
    {
        let Some(row) = kept_row(&step) else {
            return;
        };
        self.settle_erased(row);
    }
}
