//! The rows of one table as shared nodes, linked into every index.
//! It knows nothing of sessions: each change gives its step.
ghost use Rattle.std.specs.Prelude.{◌≡◌, ◌≢◌, ◌<◌, ◌≤◌, ◌+◌, ◌*◌, ◌^◌, ℕ, [], None, IfOk, IfErr};
ghost use Rattle.mi_value.specs.declared.refusal.Refusal.TheVariants.{Memory};
ghost use Rattle.mi_model.specs.Verdict.{erase_outcome};
ghost use Rattle.mi_container.specs.Makes.{Makes, TellsAlone, MeetsOn, erase_answer};
ghost use Rattle.mi_container.specs.Changes.{opened_data};
ghost use Rattle.mi_container.specs.Secrets.{opened_secrets};
ghost use Rattle.mi_container.specs.Held.{HoldsNodes};
ghost use Rattle.mi_container.specs.Run.Change.{Erase};
ghost use Rattle.mi_container.specs.Data.{IsData, as_table};
ghost use Rattle.std.specs.Option.{option_copied};
ghost use Rattle.mi_model.specs.Table.{get as get_row, size as size_of};
ghost use Rattle.mi_container.specs.Inverse.{taken_back, settled};
ghost use Rattle.mi_container.specs.Inverse.Inverse.{Erased};
ghost use Rattle.mi_container.specs.Fits.{Ready, KeptBy};
ghost use Rattle.mi_container.specs.Backs.{row_seen, lost_by};

use mi_catalog::Schema;
use mi_container::{RowRef, Step};
use mi_ids::Ids;
use mi_index::Nodes;
use mi_value::{Record, Refusal, Steps};
use std::alloc::{AllocError, Global};
use std::marker::Model;

/// The rows of one table under all its indexes, which share one node a row.
#[derive(Drop)]
pub struct MultiIndex {
    pub(crate) schema: Schema,
    pub(crate) nodes: Nodes,
    pub(crate) ids: Ids,
    pub(crate) next: u64,
    pub(crate) arrivals: u64,
}

impl Model for MultiIndex {
    ghost use Rattle.mi_multi.specs.Seen.{Seen, seen_of, AreMulti};

    ghost Value = { Seen };

    ghost view = { seen_of };

    ghost invariant = { AreMulti };
}

impl MultiIndex {
    /// A container without records. Each hashed index hashes keys under the secret. Where memory is refused there is none.
    pub fn new(alloc: Global, schema: Schema, secret: u64) -> Result<MultiIndex, AllocError>
        ensures shape { IfOk result (λ made. made.shape ≡ schema) }
        ensures plain { IfOk result (λ made. made.plain ≡ opened_data schema) }
        ensures held { IfOk result (λ made. made.held ≡ []) }
        ensures secrets { IfOk result (λ made. made.secrets ≡ opened_secrets secret schema) }
    {
        schema.keeps_rules();
        let nodes = Nodes::new(alloc, &schema, secret)?;
        let next = schema.first_id();
        let arrivals = schema.first_arrival();
        Ok(MultiIndex {
            schema,
            nodes,
            ids: Ids::new(alloc),
            next,
            arrivals,
        })
    }

    /// States what holds of every container's data. It does nothing.
    pub fn keeps_rules(&self)
        ensures { IsData self.now.shape self.now.plain }
    {
        let _next = self.next;
    }

    /// States that the pool's nodes are those of the rows and those that are kept, each once, and no others. It does
    /// nothing.
    pub fn keeps_nodes(&self)
        ensures { HoldsNodes self.now.held self.now.plain }
    {
        let _next = self.next;
    }

    /// The record of an id, or none. It compares nothing.
    pub fn get(&self, id: u64, steps: &mut Steps) -> Option<&Record>
        ensures record { option_copied result ≡ get_row (as_table self.now.plain) id }
        ensures steps { (b : ℕ) → size_of (as_table self.now.plain) < 2 ^ b → steps.new.count ≤ steps.old.count + (2 * b + 1) }
    {
        let _ = steps;
        let Some(node) = self.ids.live(id) else {
            return None;
        };
        Some(&self.nodes.pool.value(node).row)
    }

    /// Erases a record, whose node is kept for the inverse. The step says by which index and id a modify lost the record, if
    /// one did. Takes no memory. Refusal: `NoId`.
    pub(crate) fn erase_for(&mut self, id: u64, why: Option<(usize, u64)>) -> Result<Step, Refusal>
        ensures outcome { MeetsOn (erase_outcome id) (erase_answer result) self.old.plain self.new.plain }
        ensures memory { IfErr result (λ e. e ≢ Memory) }
        ensures made { IfOk result (λ k. TellsAlone k (λ i. Makes self.old.shape (Erase id why) self.old.plain i self.new.plain)) }
        ensures lost { IfOk result (λ k. lost_by k ≡ why) }
        ensures refused { IfErr result (λ e. self.new.plain ≡ self.old.plain) }
        ensures shape { self.new.shape ≡ self.old.shape }
        ensures secrets { self.new.secrets ≡ self.old.secrets }
    {
        let Some(node) = self.ids.live(id) else {
            return Err(Refusal::NoId);
        };
        self.nodes.take_out(node);
        self.ids.keep(id);
        Ok(Step::Erased(RowRef { id, node }, why))
    }

    /// Erases a record, whose node is kept for the inverse, a step without places. Takes no memory. Refusal: `NoId`.
    pub fn erase(&mut self, id: u64) -> Result<Step, Refusal>
        ensures outcome { MeetsOn (erase_outcome id) (erase_answer result) self.old.plain self.new.plain }
        ensures memory { IfErr result (λ e. e ≢ Memory) }
        ensures made { IfOk result (λ k. TellsAlone k (λ i. Makes self.old.shape (Erase id None) self.old.plain i self.new.plain)) }
        ensures refused { IfErr result (λ e. self.new.plain ≡ self.old.plain) }
        ensures shape { self.new.shape ≡ self.old.shape }
        ensures secrets { self.new.secrets ≡ self.old.secrets }
    {
        self.erase_for(id, None)
    }

    /// Takes back that a row was erased: its node stands again in every index, where it stood. Takes no memory.
    pub(crate) fn take_back_erased(&mut self, row: RowRef)
        requires ready { Ready (Erased (row_seen row) None) self.old.plain }
        requires before { IsData self.old.shape (taken_back (Erased (row_seen row) None) self.old.plain) }
        ensures plain { self.new.plain ≡ taken_back (Erased (row_seen row) None) self.old.plain }
        ensures shape { self.new.shape ≡ self.old.shape }
        ensures secrets { self.new.secrets ≡ self.old.secrets }
    {
        self.nodes.put_back(row.node);
        self.ids.revive(row.id);
    }

    /// Gives the node that an erased row kept back to the pool. Takes no memory.
    pub(crate) fn settle_erased(&mut self, row: RowRef)
        requires { KeptBy (Erased (row_seen row) None) self.old.plain }
        ensures plain { self.new.plain ≡ settled (Erased (row_seen row) None) self.old.plain }
        ensures shape { self.new.shape ≡ self.old.shape }
        ensures secrets { self.new.secrets ≡ self.old.secrets }
    {
        let freed = self.nodes.free(row.node);
        drop(freed);
        self.ids.remove(row.id);
    }
}
