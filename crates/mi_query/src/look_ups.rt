//! Records by key: the first, and how many. It takes no memory.
ghost use Rattle.std.specs.Prelude.{◌≡◌};
ghost use Rattle.mi_sessions.specs.Fitting.{HasTable, IsKeyedIndex, FitsLookUp};
ghost use Rattle.mi_model.specs.Table.{size as size_of};
ghost use Rattle.mi_model.specs.Database.{schema_of, table_of};
ghost use Rattle.mi_model.specs.LookUp as look;
ghost use Rattle.mi_sessions.specs.LookUps.{WithinLookUps};

use mi_sessions::Sessions;
use mi_value::{Steps, Value};

/// The first id of a key in an index, or none: of equal keys that of the record that arrived first. A hashed index is asked
/// for a whole key, an ordered or ranked one also for the first values of one. At most one look-up.
pub fn find<D: Sessions>(
    db: &D,
    table: usize,
    index: usize,
    key: &[Value],
    steps: &mut Steps,
) -> Option<u64>
    requires table { HasTable (D.state db.now).catalog table }
    requires index { IsKeyedIndex (D.state db.now).catalog table index }
    requires key { FitsLookUp (D.state db.now).catalog table index key.now }
    ensures id { result ≡ look.find (schema_of (D.state db.now) table) (table_of (D.state db.now) table) index key.now }
    ensures steps { WithinLookUps D.bound 1 (size_of (table_of (D.state db.now) table)) steps.old.count steps.new.count }
{
    match db.find_row(table, index, key, steps) {
        Some((id, _row)) => Some(id),
        None => None,
    }
}

/// How many records have a key in an index. A hashed index is asked for a whole key and walks its records, an ordered or
/// ranked one also for the first values of one, in at most two look-ups.
pub fn count<D: Sessions>(
    db: &D,
    table: usize,
    index: usize,
    key: &[Value],
    steps: &mut Steps,
) -> u64
    requires table { HasTable (D.state db.now).catalog table }
    requires index { IsKeyedIndex (D.state db.now).catalog table index }
    requires key { FitsLookUp (D.state db.now).catalog table index key.now }
    ensures count { result ≡ look.count (schema_of (D.state db.now) table) (table_of (D.state db.now) table) index key.now }
    ensures steps { WithinLookUps D.bound 2 (size_of (table_of (D.state db.now) table)) steps.old.count steps.new.count }
{
    db.count(table, index, key, steps)
}
