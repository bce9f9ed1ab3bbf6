//! The values of a row, its id and its values, lent one beside another, so that they can be written in the order of their names. It takes no
//! memory.
ghost use Rattle.std.specs.Prelude.{◌≡◌, ◌∷◌, ◌<◌, ◌≤◌, length, map, pos, take, IfSome};
ghost use Rattle.mi_value.specs.declared.value.Value.TheVariants.{Int};
ghost use Rattle.std.specs.Bool.{OnTrue};
ghost use Rattle.mi_value.specs.Lent.{lent};
ghost use Rattle.mi_rows.specs.Labels.{row_values_of, held};

use crate::shown::MAX_MEMBERS;
use mi_value::{Record, ValueRef, Values};

/// What a value holds. The two flags are two cases, so that they are told apart as numbers and texts are.
#[derive(Clone, Copy)]
pub(crate) enum RowValue<'a> {
    Int(i64),
    Text(&'a str),
    False,
    True,
}

/// Values of a row, before any is lent.
pub(crate) const NO_ROW_VALUES: [RowValue<'static>; MAX_MEMBERS] = [RowValue::Int(0); MAX_MEMBERS];

/// Lends the next value of a row, and answers whether there is one. Each kind is stored where it is told, so that no more is stored than it has.
#[inline(always)]
fn lend_next<'a>(values: &mut Values<'a>, row_value: &mut RowValue<'a>) -> bool
    ensures { OnTrue result (values.old ≡ held row_value.new ∷ values.new) }
{
    match values.next() {
        Some(ValueRef::Int(n)) => *row_value = RowValue::Int(n),
        Some(ValueRef::Text(text)) => *row_value = RowValue::Text(text),
        Some(ValueRef::Flag(false)) => *row_value = RowValue::False,
        Some(ValueRef::Flag(true)) => *row_value = RowValue::True,
        None => return false,
    }
    true
}

/// The value of an id, if it is a signed number.
#[inline(always)]
fn lend_id<'a>(id: u64) -> Option<RowValue<'a>>
    ensures { IfSome result (λ row_value. held row_value ≡ Int (pos id)) }
{
    let Ok(number) = i64::try_from(id) else {
        return None;
    };
    Some(RowValue::Int(number))
}

/// Lends the id and the values of a row to the first of these values, and answers whether the row fills exactly so many, and its id is a
/// signed number.
#[inline(always)]
pub(crate) fn lend_values<'a>(
    id: u64,
    row: &'a Record,
    row_values: &mut [RowValue<'a>],
    count: usize,
) -> bool
    requires { (0 < count) × (count ≤ length row_values.old) }
    ensures row_values { OnTrue result (map held (take count row_values.new) ≡ row_values_of id row.now) }
    ensures len { length row_values.new ≡ length row_values.old }
{
    let Some(number) = lend_id(id) else {
        return false;
    };
    row_values[0] = number;
    let mut values = row.values();
    let mut done = 1;
    'row_values: while done < count {
        if !lend_next(&mut values, &mut row_values[done]) {
            return false;
        }
        done += 1;
    }
    values.next().is_none()
}
