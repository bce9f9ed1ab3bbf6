//! Other records for rows, and changes of their columns.
ghost use Rattle.std.specs.Prelude.{◌≡◌, ◌≢◌, ◌<◌, Bool, true, false, Some, None, IfOk, IfErr};
ghost use Rattle.mi_value.specs.declared.limits.TheConstants.{LAST_COUNT as last_count};
ghost use Rattle.mi_value.specs.declared.refusal.Refusal.TheVariants.{Memory};
ghost use Rattle.mi_value.specs.Edits.{apply as apply_edits};
ghost use Rattle.mi_model.specs.Table.{has as has_row, row as row_of};
ghost use Rattle.mi_model.specs.DatabaseChange.{MeetsRefusal};
ghost use Rattle.mi_model.specs.Verdict.{replace_refusal, replace_outcome, modified, modify_outcome};
ghost use Rattle.mi_container.specs.Asked.{RecordFits, EditsFit};
ghost use Rattle.mi_container.specs.Data.{as_table};
ghost use Rattle.mi_container.specs.Fits.{IsLive};
ghost use Rattle.mi_container.specs.Backs.{row_seen, lost_by};
ghost use Rattle.mi_container.specs.Run.Change.{Replace};
ghost use Rattle.mi_container.specs.Makes.{Makes, MakesModify, Tells, MeetsOn, replace_answer, modify_answer, IsNoLoss};
ghost use Rattle.mi_multi.specs.Changed.{changed_by};

use crate::conflicts::unique_refusal;
use crate::multi::MultiIndex;
use mi_container::{OldPlaces, RowRef, Step};
use mi_node::NodeRef;
use mi_value::limits::LAST_COUNT;
use mi_value::{Edit, Record, Refusal, apply};
use std::alloc::Global;

impl MultiIndex {
    /// Why a record may not be set for a live row, or none. The indexes in which its key changes are marked.
    fn put_refusal(&self, id: u64, row: &Record, marks: &[bool]) -> Option<Refusal>
        requires live { has_row (as_table self.now.plain) id ≡ true }
        requires marks { marks.now ≡ changed_by self.now id row.now }
        ensures refusal { result ≡ replace_refusal self.now.shape id row.now (as_table self.now.plain) }
        ensures times { result ≡ None → self.now.plain.arrivals < last_count }
    {
        if self.arrivals == LAST_COUNT {
            return Some(Refusal::Spent);
        }
        unique_refusal(self.conflict_of_put(id, row, marks))
    }

    /// Sets another record for an id. Where the change is noted its old places are laid down, in place of what stands there; else
    /// `laid` stays as it is. Takes no memory.
    ///
    /// Refusals, in this order: `NoId`, `Spent`, `Unique`. The refused record is handed back, and `laid` stays as it is.
    pub fn replace(
        &mut self,
        id: u64,
        row: Record,
        noted: bool,
        laid: &mut OldPlaces,
    ) -> Result<Step, (Refusal, Record)>
        requires { RecordFits self.old.shape row }
        ensures outcome { MeetsOn (replace_outcome self.old.shape id row) (replace_answer result) self.old.plain self.new.plain }
        ensures memory { IfErr result (λ e. e.0 ≢ Memory) }
        ensures made { IfOk result (λ k. Tells noted k laid.new.items (λ i. Makes self.old.shape (Replace id row) self.old.plain i self.new.plain)) }
        ensures unnoted { noted ≡ false → laid.new.items ≡ laid.old.items }
        ensures unlaid { IfErr result (λ _. laid.new.items ≡ laid.old.items) }
        ensures refused { IfErr result (λ e. self.new.plain ≡ self.old.plain) }
        ensures handed_back { IfErr result (λ e. e.1 ≡ row) }
        ensures shape { self.new.shape ≡ self.old.shape }
        ensures secrets { self.new.secrets ≡ self.old.secrets }
    {
        self.keeps_rules();
        let Some(node) = self.ids.live(id) else {
            return Err((Refusal::NoId, row));
        };
        let marks = self.changed_by(id, node, &row);
        if let Some(refusal) = self.put_refusal(id, &row, marks.as_slice()) {
            return Err((refusal, row));
        }
        let old = self.put(id, node, row, marks.as_slice(), noted, laid);
        Ok(Step::Put(RowRef { id, node }, old))
    }

    /// The record that edits make of a live row's. Refusals: `Range` and `Memory`.
    fn edited(&self, alloc: Global, row: RowRef, edits: &[Edit]) -> Result<Record, Refusal>
        requires { IsLive self.now.plain.rows (row_seen row) }
        ensures there { IfOk result (λ r. has_row (as_table self.now.plain) row.id ≡ true) }
        ensures edited { IfOk result (λ r. apply_edits edits.now (row_of (as_table self.now.plain) row.id).1 ≡ Some r) }
        ensures refused { (rollback : Bool) → IfErr result (λ e.
            MeetsRefusal (modify_outcome self.now.shape row.id edits.now rollback (as_table self.now.plain))
            e (as_table self.now.plain) (as_table self.now.plain)) }
        ensures loss { IfErr result IsNoLoss }
    {
        apply(alloc, &self.nodes.pool.value(row.node).row, edits)
    }

    /// Sets the record that a modify made for a live row, unless a unique index refuses it: then with `rollback` nothing
    /// changes, and without it the row is erased. The indexes in which its key changes are marked. Takes no memory.
    fn modify_to(
        &mut self,
        id: u64,
        node: NodeRef,
        row: Record,
        marks: &[bool],
        rollback: bool,
        noted: bool,
        laid: &mut OldPlaces,
    ) -> Result<Step, Refusal>
        requires there { has_row (as_table self.old.plain) id ≡ true }
        requires live { IsLive self.old.plain.rows (record { id = id; at = node }) }
        requires marks { marks.now ≡ changed_by self.old id row }
        ensures outcome { MeetsOn (modified self.old.shape id rollback (Some row)) (modify_answer result) self.old.plain self.new.plain }
        ensures made { IfOk result (λ k. Tells noted k laid.new.items (λ i. MakesModify (lost_by k) self.old.shape id self.old.plain i self.new.plain)) }
        ensures unnoted { noted ≡ false → laid.new.items ≡ laid.old.items }
        ensures unlaid { IfErr result (λ _. laid.new.items ≡ laid.old.items) }
        ensures loss { IfErr result (λ e. IsNoLoss e) }
        ensures refused { IfErr result (λ e. self.new.plain ≡ self.old.plain) }
        ensures shape { self.new.shape ≡ self.old.shape }
        ensures secrets { self.new.secrets ≡ self.old.secrets }
    {
        self.keeps_rules();
        if self.arrivals == LAST_COUNT {
            return Err(Refusal::Spent);
        }
        match self.conflict_of_put(id, &row, marks) {
            None => {
                let old = self.put(id, node, row, marks, noted, laid);
                Ok(Step::Put(RowRef { id, node }, old))
            }
            Some((index, other)) if rollback => Err(Refusal::Unique { index, id: other }),
            Some(rival) => self.erase_for(id, Some(rival)),
        }
    }

    /// Changes columns of a record. Where a unique index refuses the result without `rollback` the record is erased: then the
    /// answer is a step that is `lost`. Where the change is noted its old places are laid down, in place of what stands there; else
    /// `laid` stays as it is.
    ///
    /// Refusals, in this order: `NoId`, `Range`, `Spent`, with `rollback` `Unique`, `Memory`. Then `laid` stays as it is.
    pub fn modify(
        &mut self,
        alloc: Global,
        id: u64,
        edits: &[Edit],
        rollback: bool,
        noted: bool,
        laid: &mut OldPlaces,
    ) -> Result<Step, Refusal>
        requires { EditsFit self.old.shape edits.now }
        ensures outcome { MeetsOn (modify_outcome self.old.shape id edits.now rollback) (modify_answer result) self.old.plain self.new.plain }
        ensures made { IfOk result (λ k. Tells noted k laid.new.items (λ i. MakesModify (lost_by k) self.old.shape id self.old.plain i self.new.plain)) }
        ensures unnoted { noted ≡ false → laid.new.items ≡ laid.old.items }
        ensures unlaid { IfErr result (λ _. laid.new.items ≡ laid.old.items) }
        ensures loss { IfErr result (λ e. IsNoLoss e) }
        ensures refused { IfErr result (λ e. self.new.plain ≡ self.old.plain) }
        ensures shape { self.new.shape ≡ self.old.shape }
        ensures secrets { self.new.secrets ≡ self.old.secrets }
    {
        let Some(node) = self.ids.live(id) else {
            return Err(Refusal::NoId);
        };
        let row = self.edited(alloc, RowRef { id, node }, edits)?;
        let marks = self.changed_by_edits(id, node, edits, &row);
        self.modify_to(id, node, row, marks.as_slice(), rollback, noted, laid)
    }
}
