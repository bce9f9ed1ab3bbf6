//! Another record for a live row, and the places that the row had.
ghost use Rattle.std.specs.Prelude.{◌≡◌, ◌<◌, true, false, [], length, map};
ghost use Rattle.std.specs.Option.{option_map};
ghost use Rattle.mi_value.specs.declared.limits.TheConstants.{LAST_COUNT};
ghost use Rattle.mi_catalog.specs.Shape.{index_at};
ghost use Rattle.mi_container.specs.Data.{content_of, stamp_of, order_at};
ghost use Rattle.mi_container.specs.Inverse as inverse;
ghost use Rattle.mi_container.specs.Inverse.Inverse.{Put};
ghost use Rattle.mi_container.specs.Fits.{IsLive};
ghost use Rattle.mi_container.specs.Makes.{Makes, Laid};
ghost use Rattle.mi_container.specs.Run.{Allowed};
ghost use Rattle.mi_container.specs.Run.Change.{Replace};
ghost use Rattle.mi_container.specs.Backs.{row_seen, place_seen, places_seen};
ghost use Rattle.mi_multi.specs.Changed.{is_changed, changed_by};

use crate::multi::MultiIndex;
use crate::reading::structure_at;
use mi_container::{OldPlaces, RowRef};
use mi_index::Stored;
use mi_node::{MaybePlace, NodeRef};
use mi_value::Record;

impl MultiIndex {
    /// The place of a row in an index, if another record has another key there, which `changed` says.
    fn old_place(&self, index: usize, row: RowRef, new: &Record, changed: bool) -> MaybePlace
        requires index { index < length self.now.shape.indexes }
        requires row { IsLive self.now.plain.rows (row_seen row) }
        requires changed { changed ≡ is_changed (index_at self.now.shape index).parts (content_of self.now.plain.rows row.id).values new.now }
        ensures { option_map place_seen result ≡ inverse.old_place index self.now.plain.rows row.id (content_of self.now.plain.rows row.id).values new.now
            (order_at self.now.plain.orders index) (stamp_of self.now.plain.rows index row.id) }
    {
        let _ = new;
        self.schema.keeps_rules();
        if !changed {
            return MaybePlace::none();
        }
        let structure = structure_at(&self.nodes, index);
        MaybePlace::new(structure.place(&self.nodes.pool, index, row.node))
    }

    /// Lays down the places of a row in the indexes in which another record has another key, which are marked.
    fn old_places(
        &self,
        id: u64,
        node: NodeRef,
        new: &Record,
        marks: &[bool],
        places: &mut OldPlaces,
    )
        requires row { IsLive self.now.plain.rows (record { id = id; at = node }) }
        requires marks { marks.now ≡ changed_by self.now id new.now }
        requires empty { places.old.items ≡ [] }
        ensures { map (option_map place_seen) places.new.items ≡ inverse.old_places 0 self.now.plain.rows id (content_of self.now.plain.rows id).values new.now
            self.now.plain.orders (content_of self.now.plain.rows id).stamps }
    {
        self.schema.keeps_rules();
        for index in 0..self.schema.index_count() {
            places.push(self.old_place(index, RowRef { id, node }, new, marks[index]));
        }
    }

    /// Lays down the places of a row, where the put of another record is noted.
    fn lay_places(
        &self,
        id: u64,
        node: NodeRef,
        new: &Record,
        marks: &[bool],
        noted: bool,
        laid: &mut OldPlaces,
    )
        requires row { IsLive self.now.plain.rows (record { id = id; at = node }) }
        requires marks { marks.now ≡ changed_by self.now id new.now }
        ensures places { noted ≡ true → places_seen laid.new.items ≡ inverse.old_places 0 self.now.plain.rows id (content_of self.now.plain.rows id).values new.now
            self.now.plain.orders (content_of self.now.plain.rows id).stamps }
        ensures unnoted { noted ≡ false → laid.new.items ≡ laid.old.items }
    {
        if noted {
            laid.clear();
            self.old_places(id, node, new, marks, laid);
        }
    }

    /// Sets another record for a live row, and answers the one that it had; its old places are laid down where that is noted. In the
    /// marked indexes its key changes, and it goes last among its new equals; in the others it keeps its place. Takes no memory.
    pub(crate) fn put(
        &mut self,
        id: u64,
        node: NodeRef,
        row: Record,
        marks: &[bool],
        noted: bool,
        laid: &mut OldPlaces,
    ) -> Record
        requires live { IsLive self.old.plain.rows (record { id = id; at = node }) }
        requires marks { marks.now ≡ changed_by self.old id row }
        requires allowed { Allowed self.old.shape (Replace id row) self.old.plain }
        requires times { self.old.plain.arrivals < LAST_COUNT }
        ensures made { Laid noted laid.new.items (λ ps. Makes self.old.shape (Replace id row) self.old.plain
            (Put (record { id = id; at = node }) (record { values = result; places = ps })) self.new.plain) }
        ensures unnoted { noted ≡ false → laid.new.items ≡ laid.old.items }
        ensures shape { self.new.shape ≡ self.old.shape }
        ensures secrets { self.new.secrets ≡ self.old.secrets }
    {
        self.lay_places(id, node, &row, marks, noted, laid);
        let stored = Stored { id, row };
        let old = self.nodes.rekey(node, stored, marks, self.arrivals);
        self.arrivals += 1;
        old.row
    }
}
