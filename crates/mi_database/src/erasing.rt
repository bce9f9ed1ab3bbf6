//! Erasing, where there is room for the inverses: one row by its id, and the first row of a key.
ghost use Rattle.std.specs.Prelude.{◌≡◌, ◌≢◌, ◌<◌, ◌≤◌, ◌+◌, length, IfErr, Err};
ghost use Rattle.mi_value.specs.declared.refusal.Refusal.TheVariants.{Memory};
ghost use Rattle.mi_catalog.specs.Fitting.{HasTable, IsKeyedIndex, FitsWhole};
ghost use Rattle.mi_model.specs.DatabaseChange.{Meets, erase_step};
ghost use Rattle.mi_model.specs.Run.Command.{Erase as EraseCommand};
ghost use Rattle.mi_database.specs.LinkedData.{meaning, RoomFor};
ghost use Rattle.mi_database.specs.Kept.{kept_with, KeptAfter};
ghost use Rattle.mi_database.specs.Keyed.{keyed, ErasesOne};

use crate::linked::{Linked, keep};
use mi_container::Container;
use mi_value::{Refusal, Value};

impl<C: Container> Linked<C> {
    /// Erases a row, whose inverse there is room for.
    pub(crate) fn erase_row(&mut self, table: usize, id: u64) -> Result<(), Refusal>
        requires table { HasTable self.old.catalog table }
        requires room { RoomFor 1 self.old }
        ensures outcome { Meets (erase_step table id (meaning self.old)) result (meaning self.old) (meaning self.new) }
        ensures memory { result ≢ Err Memory }
        ensures footprint { KeptAfter (EraseCommand table id) result self.old self.new }
        ensures catalog { self.new.catalog ≡ self.old.catalog }
        ensures secrets { self.new.secrets ≡ self.old.secrets }
        ensures depth { length self.new.journal ≡ length self.old.journal }
        ensures changes { self.old.changes ≤ self.new.changes + 1 }
        ensures unspent { IfErr result (λ e. self.old.changes ≤ self.new.changes) }
        ensures starts { self.new.starts ≡ self.old.starts }
    {
        match self.containers[table].erase(id) {
            Ok(step) => {
                keep(
                    &mut self.containers,
                    &mut self.journal,
                    table,
                    step,
                    &mut self.laid,
                );
                Ok(())
            }
            Err(refused) => Err(refused),
        }
    }

    /// Erases the first row of a key, whose inverse there is room for.
    pub(crate) fn erase_first(&mut self, table: usize, index: usize, key: &[Value])
        requires table { HasTable self.old.catalog table }
        requires index { IsKeyedIndex (meaning self.old).catalog table index }
        requires key { FitsWhole (meaning self.old).catalog table index key.now }
        requires some { 0 < length (keyed table index key.now (meaning self.old)) }
        requires room { RoomFor 1 self.old }
        ensures footprint { kept_with table index key.now self.new ≡ kept_with table index key.now self.old }
        ensures one { ErasesOne table index key.now (meaning self.old) (meaning self.new) }
        ensures catalog { self.new.catalog ≡ self.old.catalog }
        ensures secrets { self.new.secrets ≡ self.old.secrets }
        ensures depth { length self.new.journal ≡ length self.old.journal }
        ensures changes { self.old.changes ≤ self.new.changes + 1 }
        ensures starts { self.new.starts ≡ self.old.starts }
    {
        if let Some(id) = self.at(table).find(index, key) {
            let _ = self.erase_row(table, id);
        }
    }
}
