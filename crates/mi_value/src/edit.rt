//! Edits: what a modify does to the columns of one record.
ghost use Rattle.std.specs.Prelude.{◌≡◌, ◌≤◌, ◌⊎◌, Some, None, Err, IfSome, IfOk, IfErr, OnOk, length, take, map, option_map, slice_set};
ghost use Rattle.mi_value.specs.Lent.{lent};
ghost use Rattle.mi_value.specs.Edits as meaning;
ghost use Rattle.mi_value.specs.Numbers.{IsMade};
ghost use Rattle.mi_value.specs.declared.value.Value.TheVariants.{Int};

use crate::record::{self, InPlace, Record};
use crate::refusal::Refusal;
use crate::value::{Value, ValueRef};
use std::alloc::Global;

/// A change of one column, named by its number.
#[derive(Debug, Drop)]
pub enum Edit {
    /// The column gets this value.
    Put(usize, Value),
    /// This number is added to the column, whose sum must stay within -2^63 and 2^63 - 1.
    Add(usize, i64),
}

/// The sum of a value and a number, unless it leaves -2^63 to 2^63 - 1 or there is no number.
fn sum(value: Option<&ValueRef<'_>>, n: i64) -> Option<i64>
    ensures { option_map Int result ≡ meaning.add_to (option_map (λ v. lent v.now) value.entry) n }
{
    match value {
        Some(ValueRef::Int(m)) => record::sum(*m, n),
        _ => None,
    }
}

/// Another value in a column; where there is no such column, the values stay as they are.
fn set<'a>(values: &mut [ValueRef<'a>], column: usize, value: ValueRef<'a>)
    ensures { map lent values.new ≡ slice_set (map lent values.old) column (lent value.entry) }
{
    if column < values.len() {
        values[column] = value;
    }
}

/// Changes one column. Refuses `Range`, and then leaves the values as they were.
fn edit_one<'a>(values: &mut [ValueRef<'a>], edit: &'a Edit) -> Result<(), Refusal>
    ensures ok { OnOk result (meaning.edited edit.now (map lent values.old) ≡ Some (map lent values.new)) }
    ensures err { IfErr result (λ e. (e ≡ Refusal.Range) × (meaning.edited edit.now (map lent values.old) ≡ None)) }
{
    match edit {
        Edit::Put(column, value) => {
            set(values, *column, value.lend());
            Ok(())
        }
        Edit::Add(column, n) => {
            let Some(value) = sum(values.get(*column), *n) else {
                return Err(Refusal::Range);
            };
            set(values, *column, ValueRef::Int(value));
            Ok(())
        }
    }
}

/// Records of up to so many values are edited where no memory is taken for the values.
const FEW: usize = 8;

/// Lays the values of a record into the first places, and answers how many there are; none where there are more than places.
fn lay<'a>(places: &mut [ValueRef<'a>], row: &'a Record) -> Option<usize>
    ensures { IfSome result (λ n. (n ≤ length places.new) × (map lent (take n places.new) ≡ row.now)) }
{
    let mut count = 0;
    for value in row.values() {
        if count == places.len() {
            return None;
        }
        places[count] = value;
        count += 1;
    }
    Some(count)
}

/// The record of these values after these edits, one after another.
fn edited<'a>(
    alloc: Global,
    values: &mut [ValueRef<'a>],
    edits: &'a [Edit],
) -> Result<Record, Refusal>
    ensures ok { IfOk result (λ row. meaning.apply edits.now (map lent values.old) ≡ Some row) }
    ensures range { result ≡ Err Refusal.Range → meaning.apply edits.now (map lent values.old) ≡ None }
    ensures only { IfErr result (λ e. (e ≡ Refusal.Range) ⊎ (e ≡ Refusal.Memory)) }
{
    for edit in edits {
        edit_one(values, edit)?;
    }
    Ok(Record::new(alloc, values)?)
}

/// What comes of one edit in a copy of a record's bytes.
fn edit_in_place(row: &Record, edit: &Edit) -> InPlace
    ensures { IsMade edit.now row.now result }
{
    match edit {
        Edit::Put(column, value) => row.exchanged(*column, value),
        Edit::Add(column, n) => row.added(*column, *n),
    }
}

/// The record after these edits, one after another; where no column is named twice their order doesn't matter
/// (`laws::edits_in_any_order`).
///
/// Refusals: `Range` exactly where a sum leaves -2^63 to 2^63 - 1 (or the column holds no number, which no edit that fits
/// the columns asks), and `Memory`.
pub fn apply(alloc: Global, row: &Record, edits: &[Edit]) -> Result<Record, Refusal>
    ensures ok { IfOk result (λ edited. meaning.apply edits.now row.now ≡ Some edited) }
    ensures range { result ≡ Err Refusal.Range → meaning.apply edits.now row.now ≡ None }
    ensures only { IfErr result (λ e. (e ≡ Refusal.Range) ⊎ (e ≡ Refusal.Memory)) }
{
    if let [edit] = edits {
        match edit_in_place(row, edit) {
            InPlace::Done(edited) => return Ok(edited),
            InPlace::Range => return Err(Refusal::Range),
            InPlace::Undone => {}
        }
    }
    let mut few = [ValueRef::default(); FEW];
    if let Some(count) = lay(&mut few, row) {
        return edited(alloc, &mut few[..count], edits);
    }
    let mut values: Vec<ValueRef<'_>> = row.values().collect(alloc)?;
    edited(alloc, values.as_mut_slice(), edits)
}
