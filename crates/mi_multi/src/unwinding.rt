//! Taking changes of a container back, each by its step.
ghost use Rattle.std.specs.Prelude.{◌≡◌};
ghost use Rattle.mi_container.specs.Data.{IsData};
ghost use Rattle.mi_container.specs.Inverse.{taken_back};
ghost use Rattle.mi_container.specs.Inverse.Inverse.{Put};
ghost use Rattle.mi_container.specs.Fits.{Ready};
ghost use Rattle.mi_container.specs.Backs.{row_seen, places_seen, step_seen};
ghost use Rattle.mi_multi.specs.Restored.{old_seen};

use crate::multi::MultiIndex;
use mi_container::{OldPlaces, RowRef, Step};
use mi_index::Stored;
use mi_value::Record;

impl MultiIndex {
    /// Takes back that a row got another record: it has the old one again, and stands where it stood in each index in which
    /// its key had changed. Takes no memory.
    fn take_back_put(&mut self, row: RowRef, old: Record, places: &OldPlaces)
        requires ready { Ready (Put (row_seen row) (old_seen old places.now.items)) self.old.plain }
        requires before { IsData self.old.shape (taken_back (Put (row_seen row) (old_seen old places.now.items)) self.old.plain) }
        ensures plain { self.new.plain ≡ taken_back (Put (row_seen row) (old_seen old places.now.items)) self.old.plain }
        ensures shape { self.new.shape ≡ self.old.shape }
        ensures secrets { self.new.secrets ≡ self.old.secrets }
    {
        let stored = Stored {
            id: row.id,
            row: old,
        };
        let put = self.nodes.rekey_back(row.node, stored, places.as_slice());
        drop(put);
        self.arrivals -= 1;
    }

    /// Takes a change back, by its step and the old places that were laid down: of the changes not yet taken back it is the newest.
    /// Takes no memory.
    pub fn unwind(&mut self, step: Step, laid: &OldPlaces)
        requires ready { Ready (step_seen step (places_seen laid.now.items)) self.old.plain }
        requires before { IsData self.old.shape (taken_back (step_seen step (places_seen laid.now.items)) self.old.plain) }
        ensures plain { self.new.plain ≡ taken_back (step_seen step (places_seen laid.now.items)) self.old.plain }
        ensures shape { self.new.shape ≡ self.old.shape }
        ensures secrets { self.new.secrets ≡ self.old.secrets }
    {
        match step {
            Step::Inserted(row) => self.take_back_inserted(row),
            Step::Put(row, old) => self.take_back_put(row, old, laid),
            Step::Erased(row, _) => self.take_back_erased(row),
            Step::Relocated(index, row, behind) => self.stand_before(index, row, behind),
            Step::Nothing => {}
        }
    }
}
