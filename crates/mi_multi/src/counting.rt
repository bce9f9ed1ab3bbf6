//! How many records have a key. It changes nothing.
ghost use Rattle.std.specs.Prelude.{◌≡◌, ◌<◌, ◌≤◌, ◌+◌, ◌*◌, ◌^◌, ℕ};
ghost use Rattle.mi_model.specs.Table.{size as size_of};
ghost use Rattle.mi_model.specs.LookUp as look;
ghost use Rattle.mi_container.specs.Asked.{IsKeyed, LookUpKey};
ghost use Rattle.mi_container.specs.Data.{as_table};

use crate::multi::MultiIndex;
use crate::reading::structure_at;
use mi_value::{Probe, Steps, Value};

impl MultiIndex {
    /// How many records have a key in an index with keys, which is asked as by `find_row`. It costs one way down a sorted index, which parts
    /// at the first of them, at most two look-ups, and a step for each of the records in a hashed one. Takes no memory.
    pub fn count(&self, index: usize, key: &[Value], steps: &mut Steps) -> u64
        requires index { IsKeyed self.now.shape index }
        requires key { LookUpKey self.now.shape index key.now }
        ensures count { result ≡ look.count self.now.shape (as_table self.now.plain) index key.now }
        ensures steps { (b : ℕ) → size_of (as_table self.now.plain) < 2 ^ b → steps.new.count ≤ steps.old.count + 2 * (2 * b + 1) }
    {
        self.schema.keeps_rules();
        let structure = structure_at(&self.nodes, index);
        structure.count(&self.nodes.pool, Probe::Key(key), steps) as u64
    }
}
