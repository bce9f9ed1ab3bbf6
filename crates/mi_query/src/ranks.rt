//! Ranks and sizes: how many records stand before a record or a key. It takes no memory.
ghost use Rattle.std.specs.Prelude.{◌≡◌, if◌then◌else◌, Ok, Err};
ghost use Rattle.mi_value.specs.declared.refusal.Refusal.TheVariants.{NoId};
ghost use Rattle.mi_sessions.specs.Fitting.{HasTable, IsSortedIndex, FitsPrefix};
ghost use Rattle.mi_model.specs.Table.{has as has_row, size as size_of};
ghost use Rattle.mi_model.specs.Database.{schema_of, table_of};
ghost use Rattle.mi_model.specs.LookUp as look;
ghost use Rattle.mi_sessions.specs.LookUps.{WithinLookUps};

use mi_sessions::Sessions;
use mi_value::{Refusal, Steps, Value};

/// How many records a table has.
pub fn size<D: Sessions>(db: &D, table: usize) -> u64
    requires { HasTable (D.state db.now).catalog table }
    ensures { result ≡ size_of (table_of (D.state db.now) table) }
{
    db.size(table)
}

/// How many records stand before a record in an ordered or ranked index: those of a smaller key, and of its equals those
/// that arrived earlier. Its one refusal is `NoId`, where the record isn't there. At most one look-up.
pub fn rank<D: Sessions>(
    db: &D,
    table: usize,
    index: usize,
    id: u64,
    steps: &mut Steps,
) -> Result<u64, Refusal>
    requires table { HasTable (D.state db.now).catalog table }
    requires index { IsSortedIndex (D.state db.now).catalog table index }
    ensures rank { result ≡ (if has_row (table_of (D.state db.now) table) id
        then Ok (look.rank (schema_of (D.state db.now) table) (table_of (D.state db.now) table) index id)
        else Err NoId) }
    ensures steps { WithinLookUps D.bound 1 (size_of (table_of (D.state db.now) table)) steps.old.count steps.new.count }
{
    match db.rank(table, index, id, steps) {
        Some(before) => Ok(before),
        None => Err(Refusal::NoId),
    }
}

/// The id with n records before it in an ordered or ranked index, or none.
pub fn nth<D: Sessions>(db: &D, table: usize, index: usize, n: u64) -> Option<u64>
    requires table { HasTable (D.state db.now).catalog table }
    requires index { IsSortedIndex (D.state db.now).catalog table index }
    ensures { result ≡ look.nth (schema_of (D.state db.now) table) (table_of (D.state db.now) table) index n }
{
    db.nth(table, index, n)
}

/// How many records of an ordered or ranked index have a key less than a key or the first values of one. At most one
/// look-up.
pub fn lower_rank<D: Sessions>(
    db: &D,
    table: usize,
    index: usize,
    key: &[Value],
    steps: &mut Steps,
) -> u64
    requires table { HasTable (D.state db.now).catalog table }
    requires index { IsSortedIndex (D.state db.now).catalog table index }
    requires key { FitsPrefix (D.state db.now).catalog table index key.now }
    ensures rank { result ≡ look.lower_rank (schema_of (D.state db.now) table) (table_of (D.state db.now) table) index key.now }
    ensures steps { WithinLookUps D.bound 1 (size_of (table_of (D.state db.now) table)) steps.old.count steps.new.count }
{
    db.lower_rank(table, index, key, steps)
}

/// How many records of an ordered or ranked index have a key not greater than a key or the first values of one. At most
/// one look-up.
pub fn upper_rank<D: Sessions>(
    db: &D,
    table: usize,
    index: usize,
    key: &[Value],
    steps: &mut Steps,
) -> u64
    requires table { HasTable (D.state db.now).catalog table }
    requires index { IsSortedIndex (D.state db.now).catalog table index }
    requires key { FitsPrefix (D.state db.now).catalog table index key.now }
    ensures rank { result ≡ look.upper_rank (schema_of (D.state db.now) table) (table_of (D.state db.now) table) index key.now }
    ensures steps { WithinLookUps D.bound 1 (size_of (table_of (D.state db.now) table)) steps.old.count steps.new.count }
{
    db.upper_rank(table, index, key, steps)
}
