//! What an index shows of its table, for the other files: each record once. It takes no memory.
ghost use Rattle.std.specs.Prelude.{◌≡◌, ◌<◌, ◌^◌, length};
ghost use Rattle.mi_sessions.specs.Fitting.{HasTable, HasIndex};
ghost use Rattle.mi_model.specs.Table.{ListsEach, size as size_of};
ghost use Rattle.mi_model.specs.Database.{table_of};
ghost use Rattle.mi_query.specs.Pages.{shown_by};

use mi_sessions::Sessions;

/// States that an index shows each record of its table once and nothing else, fewer than 2^64 in all. It does nothing.
pub(crate) fn shows_each<D: Sessions>(db: &D, table: usize, index: usize)
    requires table { HasTable (D.state db.now).catalog table }
    requires index { HasIndex (D.state db.now).catalog table index }
    ensures each { ListsEach (table_of (D.state db.now) table) (shown_by (D.state db.now) table index) }
    ensures long { length (shown_by (D.state db.now) table index) ≡ size_of (table_of (D.state db.now) table) }
    ensures few { size_of (table_of (D.state db.now) table) < 2 ^ 64 }
{
    db.keeps_rules();
    let _ = db.size(table);
}
