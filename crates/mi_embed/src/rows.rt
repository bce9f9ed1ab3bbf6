//! Look-ups with values in place of a line: records are put into cells and bytes of the caller's. They change nothing, and take no memory.
ghost use Rattle.std.specs.Prelude.{◌≡◌, ◌<◌, ◌^◌, length, map, MatchResult, Ok, Err};
ghost use Rattle.mi_embed.specs.Cells.{texts_of};
ghost use Rattle.mi_embed.specs.CallResults.{in_64};
ghost use Rattle.mi_embed.specs.Shown.{got, IsShown, TellsRow};

use crate::call_result::CallResult;
use crate::cell::Cell;
use crate::copying::{Taken, put_values};
use crate::engine::Engine;
use mi_sessions::Sessions;
use mi_value::{Record, Refusal, Steps, ValueRef, Values};

/// How many bytes the texts of values have, or the greatest number where it is greater.
pub(crate) fn text_bytes(values: Values<'_>) -> u64
    ensures { result ≡ in_64 (length (texts_of values.entry)) }
{
    let mut left = values;
    match left.next() {
        Some(ValueRef::Text(text)) => (text.len() as u64).saturating_add(text_bytes(left)),
        Some(_) => text_bytes(left),
        None => 0,
    }
}

/// Shows a record, and tells its id, or the room that it wants.
pub(crate) fn shown(id: u64, row: &Record, cells: &mut [Cell], texts: &mut [u8]) -> CallResult
    ensures { IsShown id row.now result cells.old cells.new texts.old texts.new }
{
    let none = Taken { cells: 0, bytes: 0 };
    if put_values(row.values(), cells, texts, none).is_some() {
        CallResult::accepted(id)
    } else {
        CallResult::wanting(row.column_count(), text_bytes(row.values()))
    }
}

impl Engine {
    /// The record of an id. Refusals, in this order: `NoTable` and `NoId`.
    fn record(&self, table: usize, id: u64) -> Result<&Record, Refusal>
        ensures { MatchResult result (λ row. got self.now.held table id ≡ Ok row.now) (λ e. got self.now.held table id ≡ Err e) }
    {
        let database = self.executor.database();
        if table >= database.catalog().table_count() {
            return Err(Refusal::NoTable);
        }
        database
            .get(table, id, &mut Steps::new())
            .ok_or(Refusal::NoId)
    }

    /// Puts the record of an id into cells, one for each column, and its texts into bytes, and tells the id. Refusals, in this order:
    /// `NoTable` and `NoId`; then both stay as they are. Without room for both it tells what is wanted, and nothing is said of either.
    pub fn get(&self, table: usize, id: u64, cells: &mut [Cell], texts: &mut [u8]) -> CallResult
        ensures { TellsRow id (got self.now.held table id) result cells.old cells.new texts.old texts.new }
    {
        match self.record(table, id) {
            Ok(row) => shown(id, row, cells, texts),
            Err(refusal) => CallResult::refused(refusal),
        }
    }
}
