//! Moving a record in the list of a sequenced index.
ghost use Rattle.std.specs.Prelude.{◌≡◌, ◌≢◌, false, None, IfOk, IfErr, IfSome};
ghost use Rattle.std.specs.Option.{option_map};
ghost use Rattle.mi_value.specs.declared.refusal.Refusal.TheVariants.{Memory};
ghost use Rattle.mi_model.specs.Table.{has as has_row};
ghost use Rattle.mi_model.specs.Verdict.{relocate_outcome};
ghost use Rattle.mi_container.specs.Asked.{IsSequenced};
ghost use Rattle.mi_container.specs.Data.{order_at, as_table};
ghost use Rattle.mi_container.specs.Inverse.{row_ref, next_in_order};
ghost use Rattle.mi_container.specs.Fits.{IsLive, IsOther};
ghost use Rattle.mi_container.specs.Makes.{Makes, TellsAlone, MeetsOn, erase_answer};
ghost use Rattle.mi_container.specs.Run.Change.{Relocate};
ghost use Rattle.mi_container.specs.Backs.{row_seen};
ghost use Rattle.mi_node.specs.Pool.{IsHeld};
ghost use Rattle.mi_multi.specs.RowAt.{row_ref_at};

use crate::multi::MultiIndex;
use crate::reading::structure_at;
use mi_container::{RowRef, Step};
use mi_index::Stored;
use mi_node::{NodeRef, Pool};
use mi_value::Refusal;

/// The row of a node, if there is one.
fn row_of(p: &Pool<Stored>, node: Option<NodeRef>) -> Option<RowRef>
    requires { IfSome node (λ r. IsHeld p.now r) }
    ensures { option_map row_seen result ≡ option_map (row_ref_at p.now) node }
{
    match node {
        Some(node) => Some(RowRef {
            id: p.value(node).id,
            node,
        }),
        None => None,
    }
}

impl MultiIndex {
    /// The live row of an id, or none.
    pub(crate) fn live_row(&self, id: u64) -> Option<RowRef>
        ensures id { IfSome result (λ r. r.id ≡ id) }
        ensures live { IfSome result (λ r. IsLive self.now.plain.rows (row_seen r)) }
        ensures absent { result ≡ None → has_row (as_table self.now.plain) id ≡ false }
    {
        let node = self.ids.live(id)?;
        Some(RowRef { id, node })
    }

    /// The row directly behind another in the list of a sequenced index, if there is one.
    fn row_behind(&self, index: usize, id: u64, node: NodeRef) -> Option<RowRef>
        requires index { IsSequenced self.now.shape index }
        requires row { IsLive self.now.plain.rows (record { id = id; at = node }) }
        ensures { option_map row_seen result ≡ option_map (row_ref self.now.plain.rows) (next_in_order id (order_at self.now.plain.orders index)) }
    {
        let next = structure_at(&self.nodes, index).next(&self.nodes.pool, node);
        row_of(&self.nodes.pool, next)
    }

    /// Moves a row in a sequenced index directly before another one, or to its end, and answers what takes that back.
    pub(crate) fn move_row(&mut self, index: usize, row: RowRef, before: Option<RowRef>) -> Step
        requires index { IsSequenced self.old.shape index }
        requires row { IsLive self.old.plain.rows (row_seen row) }
        requires before { IsOther self.old.plain.rows row.id (option_map row_seen before) }
        ensures made { TellsAlone result (λ i. Makes self.old.shape (Relocate index row.id (option_map (λ b. b.id) before)) self.old.plain i self.new.plain) }
        ensures shape { self.new.shape ≡ self.old.shape }
        ensures secrets { self.new.secrets ≡ self.old.secrets }
    {
        self.keeps_rules();
        let RowRef { id, node } = row;
        let behind = self.row_behind(index, id, node);
        self.stand_before(index, RowRef { id, node }, before);
        Step::Relocated(index, RowRef { id, node }, behind)
    }

    /// Moves a record in a sequenced index directly before another, or to its end. Nothing changes where both are one. The inverse is a
    /// step without places. Takes no memory. Refusal: `NoId`.
    pub fn relocate(&mut self, index: usize, id: u64, before: Option<u64>) -> Result<Step, Refusal>
        requires { IsSequenced self.old.shape index }
        ensures outcome { MeetsOn (relocate_outcome index id before) (erase_answer result) self.old.plain self.new.plain }
        ensures memory { IfErr result (λ e. e ≢ Memory) }
        ensures made { IfOk result (λ k. TellsAlone k (λ i. Makes self.old.shape (Relocate index id before) self.old.plain i self.new.plain)) }
        ensures refused { IfErr result (λ e. self.new.plain ≡ self.old.plain) }
        ensures shape { self.new.shape ≡ self.old.shape }
        ensures secrets { self.new.secrets ≡ self.old.secrets }
    {
        self.keeps_rules();
        let Some(row) = self.live_row(id) else {
            return Err(Refusal::NoId);
        };
        let Some(other) = before else {
            return Ok(self.move_row(index, row, None));
        };
        let Some(other) = self.live_row(other) else {
            return Err(Refusal::NoId);
        };
        if other.id == row.id {
            return Ok(Step::Nothing);
        }
        Ok(self.move_row(index, row, Some(other)))
    }
}
