//! An inverse as tests keep it, a step with its old places, and the changes of a container that answer one.
ghost use Rattle.std.specs.Prelude.{◌≡◌, IfOk, IfErr, IfSome};
ghost use Rattle.mi_container.specs.Asked.{IsSequenced, RecordFits, EditsFit};
ghost use Rattle.mi_container.specs.Data.{IsData};
ghost use Rattle.mi_container.specs.Inverse.{taken_back, settled, lost_to};
ghost use Rattle.mi_container.specs.Fits.{Ready, KeptBy};
ghost use Rattle.mi_container.specs.Backs.{row_seen, places_seen, step_seen};
ghost use Rattle.mi_container.specs.Inverse.Inverse.{Inserted};
ghost use Rattle.mi_container.specs.Run.Change.{Replace, Erase, Relocate};
ghost use Rattle.mi_container.specs.Makes.{Makes, MakesInsert, MakesModify};

use mi_container::{Container, OldPlaces, RowRef, Step};
use mi_value::{Edit, Record, Refusal};
use std::alloc::Global;
use std::marker::Model;

/// A step, and the old places beside it.
#[derive(Drop)]
pub(super) struct Inverse {
    step: Step,
    laid: OldPlaces,
}

impl Model for Inverse {
    ghost use Rattle.mi_container.specs.Inverse.{Inverse};
    ghost use Rattle.mi_container.specs.Backs.{places_seen, step_seen};

    ghost Value = { Inverse };

    ghost view = { λ a. step_seen a.step (places_seen a.laid.items) };
}

impl Inverse {
    /// The inverse that a step is with these places.
    fn new(step: Step, laid: OldPlaces) -> Inverse
        ensures { result ≡ step_seen step (places_seen laid.items) }
    {
        Inverse { step, laid }
    }

    /// The index and the id by which a modify lost its record, if it did.
    pub(super) fn lost(&self) -> Option<(usize, u64)> {
        self.step.lost()
    }
}

/// The inverse of an inserted row.
fn of_inserted(row: RowRef) -> Inverse
    ensures { result ≡ Inserted (row_seen row) }
{
    Inverse::new(Step::Inserted(row), OldPlaces::new())
}

/// Adds a record, and answers its id. A refused record is handed back.
pub(super) fn insert<C: Container>(
    rows: &mut C,
    alloc: Global,
    row: Record,
    before: Option<(usize, u64)>,
) -> Result<(u64, Inverse), (Refusal, Record)>
    requires row { RecordFits (C.shape rows.old) row }
    requires before { IfSome before (λ at. IsSequenced (C.shape rows.old) at.0) }
    ensures made { IfOk result (λ p. MakesInsert (C.shape rows.old) before row (C.plain rows.old) p.1 (C.plain rows.new)) }
    ensures refused { IfErr result (λ _. C.plain rows.new ≡ C.plain rows.old) }
    ensures shape { C.shape rows.new ≡ C.shape rows.old }
{
    match rows.insert_row(alloc, row, before) {
        Ok(inserted) => {
            let id = inserted.id;
            Ok((id, of_inserted(inserted)))
        }
        Err(refused) => Err(refused),
    }
}

/// Sets another record.
pub(super) fn replace<C: Container>(rows: &mut C, id: u64, row: Record) -> Result<Inverse, Refusal>
    requires { RecordFits (C.shape rows.old) row }
    ensures made { IfOk result (λ i. Makes (C.shape rows.old) (Replace id row) (C.plain rows.old) i (C.plain rows.new)) }
    ensures refused { IfErr result (λ _. C.plain rows.new ≡ C.plain rows.old) }
    ensures shape { C.shape rows.new ≡ C.shape rows.old }
{
    let mut laid = OldPlaces::new();
    match rows.replace(id, row, true, &mut laid) {
        Ok(step) => Ok(Inverse::new(step, laid)),
        Err((refusal, _)) => Err(refusal),
    }
}

/// Changes columns of a record.
pub(super) fn modify<C: Container>(
    rows: &mut C,
    alloc: Global,
    id: u64,
    edits: &[Edit],
    rollback: bool,
) -> Result<Inverse, Refusal>
    requires { EditsFit (C.shape rows.old) edits.now }
    ensures made { IfOk result (λ i. MakesModify (lost_to i) (C.shape rows.old) id (C.plain rows.old) i (C.plain rows.new)) }
    ensures refused { IfErr result (λ _. C.plain rows.new ≡ C.plain rows.old) }
    ensures shape { C.shape rows.new ≡ C.shape rows.old }
{
    let mut laid = OldPlaces::new();
    match rows.modify(alloc, id, edits, rollback, true, &mut laid) {
        Ok(step) => Ok(Inverse::new(step, laid)),
        Err(refusal) => Err(refusal),
    }
}

/// Erases a record.
pub(super) fn erase<C: Container>(rows: &mut C, id: u64) -> Result<Inverse, Refusal>
    ensures made { IfOk result (λ i. Makes (C.shape rows.old) (Erase id None) (C.plain rows.old) i (C.plain rows.new)) }
    ensures refused { IfErr result (λ _. C.plain rows.new ≡ C.plain rows.old) }
    ensures shape { C.shape rows.new ≡ C.shape rows.old }
{
    match rows.erase(id) {
        Ok(step) => Ok(Inverse::new(step, OldPlaces::new())),
        Err(refusal) => Err(refusal),
    }
}

/// Moves a record in a sequenced index.
pub(super) fn relocate<C: Container>(
    rows: &mut C,
    index: usize,
    id: u64,
    before: Option<u64>,
) -> Result<Inverse, Refusal>
    requires { IsSequenced (C.shape rows.old) index }
    ensures made { IfOk result (λ i. Makes (C.shape rows.old) (Relocate index id before) (C.plain rows.old) i (C.plain rows.new)) }
    ensures refused { IfErr result (λ _. C.plain rows.new ≡ C.plain rows.old) }
    ensures shape { C.shape rows.new ≡ C.shape rows.old }
{
    match rows.relocate(index, id, before) {
        Ok(step) => Ok(Inverse::new(step, OldPlaces::new())),
        Err(refusal) => Err(refusal),
    }
}

/// Takes the newest change back.
pub(super) fn unwind<C: Container>(rows: &mut C, inverse: Inverse)
    requires ready { Ready inverse (C.plain rows.old) }
    requires before { IsData (C.shape rows.old) (taken_back inverse (C.plain rows.old)) }
    ensures plain { C.plain rows.new ≡ taken_back inverse (C.plain rows.old) }
    ensures shape { C.shape rows.new ≡ C.shape rows.old }
{
    let Inverse { step, laid } = inverse;
    rows.unwind(step, &laid);
}

/// Settles a change.
pub(super) fn settle<C: Container>(rows: &mut C, inverse: Inverse)
    requires { KeptBy inverse (C.plain rows.old) }
    ensures plain { C.plain rows.new ≡ settled inverse (C.plain rows.old) }
    ensures shape { C.shape rows.new ≡ C.shape rows.old }
{
    let Inverse { step, laid: _ } = inverse;
    rows.settle(step);
}
