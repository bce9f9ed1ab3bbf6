//! A container that is restored from a table: its rows come in by their ids, with rising stamps. Then an index whose list is another one is
//! put in its order: the rows behind those of the list that rise get new stamps. No stamp crosses the border, only order.
ghost use Rattle.std.specs.Prelude.{◌≡◌, ◌≢◌, ◌+◌, ◌-◌, ◌^◌, ◌<◌, ◌≤◌, ◌==◌, ℕ, true, false, List, [], ◌∷◌, ◌++◌, map, take, drop, length, slice_index_or, IfOk, IfErr};
ghost use Rattle.std.specs.List.{AllByRecursion};
ghost use Rattle.mi_value.specs.declared.limits.TheConstants.{LAST_COUNT as last_count};
ghost use Rattle.mi_model.specs.Table.{ListsEach, list_of, size as size_of};
ghost use Rattle.mi_value.specs.declared.value.Value.{Value};
ghost use Rattle.mi_index.specs.Places.{mark_at};
ghost use Rattle.mi_container.specs.Asked.{IsSequenced};
ghost use Rattle.mi_container.specs.Changes.{relocated_in, sorted_order};
ghost use Rattle.std.specs.declared.option.Option.TheVariants.{None};
ghost use Rattle.mi_container.specs.Data.{IsData, as_table, has_stamps, order_at, stamp_of, ids_of};
ghost use Rattle.mi_container.specs.Data.Order.{ById};
ghost use Rattle.mi_container.specs.Fits.{IsLive, IsThere, HasOwnList};
ghost use Rattle.mi_container.specs.Backs.{row_seen};
ghost use Rattle.mi_container.specs.Secrets.{opened_secrets};
ghost use Rattle.mi_container.specs.Restore.{restamped_in, restamped_all, raised_all, Rising, moved_all, High, Low, SameBut, AreByIds, InOrderTo, HasRows, RowsFit, IsFitFault, IsRowFault, IsRowsFault, IsListFault, IsListsFault, IsRestoreFault};
ghost use Rattle.mi_multi.specs.Restoring.{keeping_of};

use crate::multi::MultiIndex;
use mi_catalog::{IndexKind, Schema};
use mi_container::{MAX_PLACES, RestoreFault, RowRef};
use mi_value::limits::LAST_COUNT;
use mi_value::{KeyPart, Record};
use std::alloc::{AllocError, Global};

/// How an index keeps the order of its rows: by their ids, by stamps, or by a list of its own.
#[derive(Clone, Copy)]
pub(crate) enum Keeping {
    Ids,
    Stamps,
    List,
}

/// How a sorted index of these parts keeps it: without parts it goes by the ids.
fn by_parts(parts: &[KeyPart]) -> Keeping
    ensures { result ≡ keeping_of (sorted_order parts.now) }
{
    if parts.is_empty() {
        Keeping::Ids
    } else {
        Keeping::Stamps
    }
}

/// Whether two lists of ids are the same.
fn are_same(left: &[u64], right: &[u64]) -> bool
    ensures yes { result ≡ true → left.now ≡ right.now }
    ensures no { result ≡ false → left.now ≡ right.now → ⊥ }
{
    left == right
}

/// The ids behind the first ones.
fn behind(ids: &[u64], kept: usize) -> &[u64]
    requires { kept ≤ length ids.now }
    ensures { result.now ≡ drop kept ids.now }
{
    &ids[kept..]
}

/// How many of the first ids rise.
fn first_rising(ids: &[u64]) -> usize
    ensures within { result ≤ length ids.now }
    ensures up { Rising (take result ids.now) }
{
    let mut last = 0;
    'ids: for (place, id) in ids.iter().enumerate() {
        if place > 0 && *id <= last {
            return place;
        }
        last = *id;
    }
    ids.len()
}

/// A mark for each index that a table may have; that of one index is set.
fn only(index: usize) -> [bool; MAX_PLACES]
    requires { index < 16 }
    ensures { (k : ℕ) → mark_at result k ≡ (k == index) }
{
    let mut marks = [false; MAX_PLACES];
    marks[index] = true;
    marks
}

impl MultiIndex {
    /// A row goes in an index that has stamps to the place of another stamp, which no other row has there. The index alone is
    /// marked. Takes no memory.
    fn restamp(&mut self, index: usize, row: RowRef, stamp: u64, marks: &[bool])
        requires row { IsLive self.old.plain.rows (row_seen row) }
        requires stamped { has_stamps (order_at self.old.plain.orders index) ≡ true }
        requires early { stamp < self.old.plain.arrivals }
        requires free { (b : ℕ) → b ≢ row.id → IsThere self.old.plain.rows b → stamp_of self.old.plain.rows index b ≢ stamp }
        requires marks { (k : ℕ) → mark_at marks.now k ≡ (k == index) }
        ensures plain { self.new.plain ≡ restamped_in index row.id stamp self.old.plain }
        ensures shape { self.new.shape ≡ self.old.shape }
        ensures secrets { self.new.secrets ≡ self.old.secrets }
    {
        let _ = index;
        self.nodes.restamp(row.node, marks, stamp);
    }

    /// The same of the row of an id.
    fn restamp_id(&mut self, index: usize, id: u64, stamp: u64, marks: &[bool])
        requires row { IsThere self.old.plain.rows id }
        requires stamped { has_stamps (order_at self.old.plain.orders index) ≡ true }
        requires early { stamp < self.old.plain.arrivals }
        requires free { (b : ℕ) → b ≢ id → IsThere self.old.plain.rows b → stamp_of self.old.plain.rows index b ≢ stamp }
        requires marks { (k : ℕ) → mark_at marks.now k ≡ (k == index) }
        ensures plain { self.new.plain ≡ restamped_in index id stamp self.old.plain }
        ensures shape { self.new.shape ≡ self.old.shape }
        ensures secrets { self.new.secrets ≡ self.old.secrets }
    {
        if let Some(row) = self.live_row(id) {
            self.restamp(index, row, stamp, marks);
        }
    }

    /// Gives the rows of these ids rising stamps in an index that has stamps, from 0 on. The last one gets its stamp first, so each one
    /// goes to the front of those of its key, where it is looked for at once. Takes no memory.
    fn restamp_rows(&mut self, index: usize, ids: &[u64], marks: &[bool])
        requires index { index < length self.old.plain.orders }
        requires each { ListsEach (as_table self.old.plain) ids.now }
        requires stamped { has_stamps (order_at self.old.plain.orders index) ≡ true }
        requires high { High index (length ids.now) self.old.plain }
        requires early { length ids.now ≤ self.old.plain.arrivals }
        requires marks { (k : ℕ) → mark_at marks.now k ≡ (k == index) }
        ensures plain { self.new.plain ≡ restamped_all index ids.now 0 self.old.plain }
        ensures shape { self.new.shape ≡ self.old.shape }
        ensures secrets { self.new.secrets ≡ self.old.secrets }
    {
        self.keeps_rules();
        for place in (0..ids.len()).rev() {
            self.restamp_id(index, ids[place], place as u64, marks);
        }
    }

    /// Gives the rows of these ids rising stamps in an index that has stamps. No row has a stamp there yet that is as high: so each one goes
    /// behind those of its key, where it is looked for at once. Takes no memory.
    fn raise_rows(&mut self, index: usize, ids: &[u64], first: u64, marks: &[bool])
        requires index { index < length self.old.plain.orders }
        requires there { AllByRecursion (IsThere self.old.plain.rows) ids.now }
        requires stamped { has_stamps (order_at self.old.plain.orders index) ≡ true }
        requires low { Low index first self.old.plain }
        requires early { first + length ids.now ≤ self.old.plain.arrivals }
        requires few { first + length ids.now < 2 ^ 63 }
        requires marks { (k : ℕ) → mark_at marks.now k ≡ (k == index) }
        ensures plain { self.new.plain ≡ raised_all index ids.now first self.old.plain }
        ensures shape { self.new.shape ≡ self.old.shape }
        ensures secrets { self.new.secrets ≡ self.old.secrets }
    {
        self.keeps_rules();
        for place in 0..ids.len() {
            self.restamp_id(index, ids[place], first + place as u64, marks);
        }
    }

    /// The row of an id goes to the end of the list of a sequenced index. Takes no memory.
    fn move_last(&mut self, index: usize, id: u64)
        requires index { IsSequenced self.old.shape index }
        requires row { IsThere self.old.plain.rows id }
        ensures plain { self.new.plain ≡ relocated_in index id None self.old.plain }
        ensures shape { self.new.shape ≡ self.old.shape }
        ensures secrets { self.new.secrets ≡ self.old.secrets }
    {
        if let Some(row) = self.live_row(id) {
            let _moved = self.move_row(index, row, None);
        }
    }

    /// The rows of these ids go to the end of the list of a sequenced index, one after another. Takes no memory.
    fn move_rows(&mut self, index: usize, ids: &[u64])
        requires index { IsSequenced self.old.shape index }
        requires few { index < length self.old.plain.orders }
        requires each { ListsEach (as_table self.old.plain) ids.now }
        ensures plain { self.new.plain ≡ moved_all index ids.now self.old.plain }
        ensures shape { self.new.shape ≡ self.old.shape }
        ensures secrets { self.new.secrets ≡ self.old.secrets }
    {
        for place in 0..ids.len() {
            self.move_last(index, ids[place]);
        }
    }

    /// How an index keeps the order of its rows.
    pub(crate) fn keeping(&self, index: usize) -> Keeping
        requires { index < length self.now.shape.indexes }
        ensures { result ≡ keeping_of (order_at self.now.plain.orders index) }
    {
        match self.schema.kind(index) {
            IndexKind::Sequenced => Keeping::List,
            IndexKind::Hashed => Keeping::Stamps,
            IndexKind::Ordered => by_parts(self.schema.parts(index)),
            IndexKind::Ranked => by_parts(self.schema.parts(index)),
        }
    }

    /// An index that has stamps is put in the order of a list: the rows behind the first ones, whose ids rise, get stamps above all others.
    /// Takes no memory.
    fn put_behind(&mut self, index: usize, list: &[u64], kept: usize, first: u64)
        requires index { index < length self.old.shape.indexes }
        requires each { ListsEach (as_table self.old.plain) list.now }
        requires stamped { has_stamps (order_at self.old.plain.orders index) ≡ true }
        requires by_ids { list_of (as_table self.old.plain) index ≡ ids_of self.old.plain.rows }
        requires within { kept ≤ length list.now }
        requires up { Rising (take kept list.now) }
        requires low { Low index first self.old.plain }
        requires early { first + length list.now ≤ self.old.plain.arrivals }
        requires few { first + length list.now < 2 ^ 63 }
        ensures same { SameBut index self.old.plain self.new.plain }
        ensures list { list_of (as_table self.new.plain) index ≡ list.now }
        ensures low { Low index (first + (length list.now - kept)) self.new.plain }
        ensures shape { self.new.shape ≡ self.old.shape }
        ensures secrets { self.new.secrets ≡ self.old.secrets }
    {
        self.keeps_rules();
        self.schema.keeps_rules();
        let marks = only(index);
        self.raise_rows(index, behind(list, kept), first, &marks);
        self.keeps_rules();
    }

    /// An index that has stamps is put in the order of a list, with the lowest stamps there are: all get stamps above all others first. Takes no
    /// memory.
    fn put_all_anew(&mut self, index: usize, list: &[u64])
        requires index { index < length self.old.shape.indexes }
        requires each { ListsEach (as_table self.old.plain) list.now }
        requires stamped { has_stamps (order_at self.old.plain.orders index) ≡ true }
        requires low { Low index (length list.now) self.old.plain }
        requires early { length list.now + length list.now ≤ self.old.plain.arrivals }
        requires few { length list.now < 2 ^ 62 }
        ensures same { SameBut index self.old.plain self.new.plain }
        ensures list { list_of (as_table self.new.plain) index ≡ list.now }
        ensures low { Low index (length list.now) self.new.plain }
        ensures shape { self.new.shape ≡ self.old.shape }
        ensures secrets { self.new.secrets ≡ self.old.secrets }
    {
        self.keeps_rules();
        self.schema.keeps_rules();
        let marks = only(index);
        self.raise_rows(index, list, list.len() as u64, &marks);
        self.keeps_rules();
        self.restamp_rows(index, list, &marks);
        self.keeps_rules();
    }

    /// An index that has stamps is put in the order of a list, with stamps below a number. Takes no memory.
    fn put_by_stamps(&mut self, index: usize, list: &[u64], most: u64)
        requires index { index < length self.old.shape.indexes }
        requires each { ListsEach (as_table self.old.plain) list.now }
        requires stamped { has_stamps (order_at self.old.plain.orders index) ≡ true }
        requires by_ids { list_of (as_table self.old.plain) index ≡ ids_of self.old.plain.rows }
        requires low { Low index (length list.now) self.old.plain }
        requires early { length list.now + length list.now ≤ self.old.plain.arrivals }
        requires few { length list.now < 2 ^ 62 }
        requires most { length list.now ≤ most }
        ensures same { SameBut index self.old.plain self.new.plain }
        ensures list { list_of (as_table self.new.plain) index ≡ list.now }
        ensures low { Low index most self.new.plain }
        ensures shape { self.new.shape ≡ self.old.shape }
        ensures secrets { self.new.secrets ≡ self.old.secrets }
    {
        let kept = first_rising(list);
        if (list.len() - kept) as u64 <= most - list.len() as u64 {
            self.put_behind(index, list, kept, list.len() as u64);
        } else {
            self.put_all_anew(index, list);
        }
    }

    /// A sequenced index is put in the order of a list. Takes no memory.
    fn put_by_list(&mut self, index: usize, ids: &[u64])
        requires index { index < length self.old.shape.indexes }
        requires sequenced { IsSequenced self.old.shape index }
        requires each { ListsEach (as_table self.old.plain) ids.now }
        requires listed { HasOwnList (order_at self.old.plain.orders index) }
        ensures same { SameBut index self.old.plain self.new.plain }
        ensures list { list_of (as_table self.new.plain) index ≡ ids.now }
        ensures shape { self.new.shape ≡ self.old.shape }
        ensures secrets { self.new.secrets ≡ self.old.secrets }
    {
        self.keeps_rules();
        self.move_rows(index, ids);
    }

    /// An index whose rows stand by their ids is put in the order of a list, which is that of the ids where the index goes by them alone. Stamps
    /// are then below a number. Takes no memory.
    fn put_in_order(&mut self, index: usize, list: &[u64], ids: &[u64], most: u64)
        requires index { index < length self.old.shape.indexes }
        requires ids { ids.now ≡ ids_of self.old.plain.rows }
        requires by_ids { list_of (as_table self.old.plain) index ≡ ids_of self.old.plain.rows }
        requires each { ListsEach (as_table self.old.plain) list.now }
        requires long { length list.now ≡ length ids.now }
        requires by_id { order_at self.old.plain.orders index ≡ ById → list.now ≡ ids_of self.old.plain.rows }
        requires low { has_stamps (order_at self.old.plain.orders index) ≡ true → Low index (length ids.now) self.old.plain }
        requires early { length ids.now + length ids.now ≤ self.old.plain.arrivals }
        requires few { length ids.now < 2 ^ 62 }
        requires most { length ids.now ≤ most }
        ensures same { SameBut index self.old.plain self.new.plain }
        ensures list { list_of (as_table self.new.plain) index ≡ list.now }
        ensures low { has_stamps (order_at self.new.plain.orders index) ≡ true → Low index most self.new.plain }
        ensures shape { self.new.shape ≡ self.old.shape }
        ensures secrets { self.new.secrets ≡ self.old.secrets }
    {
        if are_same(list, ids) {
            return;
        }
        self.keeps_rules();
        match self.keeping(index) {
            Keeping::Ids => {}
            Keeping::Stamps => self.put_by_stamps(index, list, most),
            Keeping::List => self.put_by_list(index, list),
        }
    }

    /// Each index is put in the order of its list. Now all have their rows by their ids, with stamps below how many there are; then stamps
    /// are below a number. Takes no memory.
    fn put_all_in_order(&mut self, lists: &[Vec<u64>], ids: &[u64], most: u64)
        requires long { length lists.now ≡ length self.old.shape.indexes }
        requires ids { ids.now ≡ ids_of self.old.plain.rows }
        requires by_ids { AreByIds self.old.plain }
        requires counts { AllByRecursion (λ l. length l ≡ length ids.now) (map (λ l. l.items) lists.now) }
        requires each { AllByRecursion (ListsEach (as_table self.old.plain)) (map (λ l. l.items) lists.now) }
        requires by_id { (x : ℕ) → x < length self.old.shape.indexes → order_at self.old.plain.orders x ≡ ById
            → slice_index_or (map (λ l. l.items) lists.now) x [] ≡ ids_of self.old.plain.rows }
        requires low { (x : ℕ) → has_stamps (order_at self.old.plain.orders x) ≡ true → Low x (length ids.now) self.old.plain }
        requires early { length ids.now + length ids.now ≤ self.old.plain.arrivals }
        requires few { length ids.now < 2 ^ 62 }
        requires most { length ids.now ≤ most }
        ensures ordered { InOrderTo (length lists.now) most (map (λ l. l.items) lists.now) self.old.plain self.new.plain }
        ensures shape { self.new.shape ≡ self.old.shape }
        ensures secrets { self.new.secrets ≡ self.old.secrets }
    {
        self.keeps_rules();
        for index in 0..lists.len() {
            self.put_in_order(index, lists[index].as_slice(), ids, most);
        }
    }

    /// Sets both counters.
    fn set_counters(&mut self, next: u64, arrivals: u64)
        requires next { next ≤ last_count }
        requires arrivals { arrivals ≤ last_count }
        requires data { IsData self.old.shape (record self.old.plain { next = next; arrivals = arrivals }) }
        ensures plain { self.new.plain ≡ record self.old.plain { next = next; arrivals = arrivals } }
        ensures shape { self.new.shape ≡ self.old.shape }
        ensures secrets { self.new.secrets ≡ self.old.secrets }
    {
        self.next = next;
        self.arrivals = arrivals;
    }

    /// A row comes in with the next stamp, if no unique index refuses it.
    fn add_row(&mut self, alloc: Global, id: u64, row: Record) -> Result<(), RestoreFault>
        requires id { self.old.plain.next ≤ id }
        requires last { id < last_count }
        requires arrivals { self.old.plain.arrivals < last_count }
        requires room { size_of (as_table self.old.plain) < self.old.shape.max_rows }
        requires kept { self.old.plain.kept ≡ [] }
        ensures added { (rows : List (ℕ × List Value)) → HasRows rows self.old.plain
            → IfOk result (λ _. HasRows (rows ++ (id, row) ∷ []) self.new.plain) }
        ensures next { IfOk result (λ _. self.new.plain.next ≡ id + 1) }
        ensures fault { IfErr result (λ e. IsRowFault self.old.shape (as_table self.old.plain).rows id row e) }
        ensures shape { self.new.shape ≡ self.old.shape }
        ensures secrets { self.new.secrets ≡ self.old.secrets }
    {
        self.keeps_rules();
        self.set_counters(id, self.arrivals);
        self.keeps_rules();
        if let Some((index, first)) = self.conflict(&row, None) {
            return Err(RestoreFault::Unique {
                index,
                first,
                second: id,
            });
        }
        match self.insert_accepted(alloc, row, None) {
            Ok(_row) => Ok(()),
            Err(_row) => Err(RestoreFault::Memory),
        }
    }

    /// Rows come in by their ids, which rise below the next one.
    fn add_rows(
        &mut self,
        alloc: Global,
        rows: Vec<(u64, Record)>,
        next: u64,
    ) -> Result<(), RestoreFault>
        requires first { self.old.plain.next ≡ 0 }
        requires none { HasRows [] self.old.plain }
        requires few { length rows.items ≤ self.old.shape.max_rows }
        requires most { length rows.items < 2 ^ 62 }
        requires next { next ≤ last_count }
        ensures added { IfOk result (λ _. HasRows rows.items self.new.plain) }
        ensures next { IfOk result (λ _. self.new.plain.next ≤ next) }
        ensures fault { IfErr result (λ e. IsRowsFault self.old.shape next rows.items e) }
        ensures shape { self.new.shape ≡ self.old.shape }
        ensures secrets { self.new.secrets ≡ self.old.secrets }
    {
        let mut rest = rows;
        rest.reverse();
        'rows: while let Some((id, row)) = rest.pop() {
            if id < self.next || next <= id {
                return Err(RestoreFault::Id(id));
            }
            self.add_row(alloc, id, row)?;
        }
        Ok(())
    }

    /// Whether a list has each id once and nothing else. The ids are those of the rows.
    fn has_each(&self, alloc: Global, ids: &[u64], list: &[u64]) -> Result<bool, AllocError>
        requires { ids.now ≡ ids_of self.now.plain.rows }
        ensures yes { IfOk result (λ b. b ≡ true → ListsEach (as_table self.now.plain) list.now) }
        ensures long { IfOk result (λ b. b ≡ true → length list.now ≡ length ids.now) }
        ensures other { IfOk result (λ b. b ≡ false → ListsEach (as_table self.now.plain) list.now → ⊥) }
    {
        self.keeps_rules();
        if are_same(list, ids) {
            return Ok(true);
        }
        let mut copy = Vec::from_slice(alloc, list)?;
        copy.sort()?;
        Ok(are_same(copy.as_slice(), ids))
    }

    /// Refuses a list that is none of the index of a number.
    fn check_list(
        &self,
        alloc: Global,
        index: usize,
        ids: &[u64],
        list: &[u64],
    ) -> Result<(), RestoreFault>
        requires index { index < length self.now.shape.indexes }
        requires ids { ids.now ≡ ids_of self.now.plain.rows }
        ensures each { IfOk result (λ _. ListsEach (as_table self.now.plain) list.now) }
        ensures long { IfOk result (λ _. length list.now ≡ length ids.now) }
        ensures by_id { IfOk result (λ _. order_at self.now.plain.orders index ≡ ById → list.now ≡ ids_of self.now.plain.rows) }
        ensures fault { IfErr result (λ e. IsListFault self.now.shape (as_table self.now.plain) index list.now e) }
    {
        self.keeps_rules();
        if !self.has_each(alloc, ids, list)? {
            return Err(RestoreFault::List(index));
        }
        match self.keeping(index) {
            Keeping::Ids if !are_same(list, ids) => Err(RestoreFault::List(index)),
            _ => Ok(()),
        }
    }

    /// Refuses lists of which one is none of its index.
    fn check_lists(
        &self,
        alloc: Global,
        ids: &[u64],
        lists: &[Vec<u64>],
    ) -> Result<(), RestoreFault>
        requires long { length lists.now ≡ length self.now.shape.indexes }
        requires ids { ids.now ≡ ids_of self.now.plain.rows }
        ensures each { IfOk result (λ _. AllByRecursion (ListsEach (as_table self.now.plain)) (map (λ l. l.items) lists.now)) }
        ensures counts { IfOk result (λ _. AllByRecursion (λ l. length l ≡ length ids.now) (map (λ l. l.items) lists.now)) }
        ensures by_id { IfOk result (λ _. (x : ℕ) → x < length self.now.shape.indexes → order_at self.now.plain.orders x ≡ ById
            → slice_index_or (map (λ l. l.items) lists.now) x [] ≡ ids_of self.now.plain.rows) }
        ensures fault { IfErr result (λ e. IsListsFault self.now.shape (as_table self.now.plain) (map (λ l. l.items) lists.now) e) }
    {
        for index in 0..lists.len() {
            self.check_list(alloc, index, ids, lists[index].as_slice())?;
        }
        Ok(())
    }

    /// Has a container without rows hold these, each index in the order of its list.
    fn fill(
        &mut self,
        alloc: Global,
        rows: Vec<(u64, Record)>,
        lists: &[Vec<u64>],
        next: u64,
        arrivals: u64,
    ) -> Result<(), RestoreFault>
        requires none { self.old.plain.rows ≡ [] }
        requires kept { self.old.plain.kept ≡ [] }
        requires few { length rows.items ≤ self.old.shape.max_rows }
        requires most { length rows.items < 2 ^ 62 }
        requires long { length lists.now ≡ length self.old.shape.indexes }
        requires next { next ≤ last_count }
        requires arrivals { arrivals ≤ last_count }
        requires enough { length rows.items ≤ arrivals }
        ensures table { IfOk result (λ _. as_table self.new.plain ≡
            record { rows = rows.items; lists = map (λ l. l.items) lists.now; next = next; arrivals = arrivals }) }
        ensures kept { IfOk result (λ _. self.new.plain.kept ≡ []) }
        ensures fault { IfErr result (λ e. IsRestoreFault self.old.shape
            (record { rows = rows.items; lists = map (λ l. l.items) lists.now; next = next; arrivals = arrivals }) e) }
        ensures shape { self.new.shape ≡ self.old.shape }
        ensures secrets { self.new.secrets ≡ self.old.secrets }
    {
        let ids = row_ids(alloc, rows.as_slice())?;
        self.keeps_rules();
        self.set_counters(0, 0);
        self.add_rows(alloc, rows, next)?;
        match self.check_lists(alloc, ids.as_slice(), lists) {
            Err(fault) => Err(fault),
            Ok(()) => {
                self.keeps_rules();
                self.set_counters(self.next, LAST_COUNT);
                self.put_all_in_order(lists, ids.as_slice(), arrivals);
                self.keeps_rules();
                self.set_counters(next, arrivals);
                Ok(())
            }
        }
    }

    /// A container that holds a table: these rows, by ids that rise below `next`, and each index in the order of its list, of
    /// which there is one an index. A list has each id once; that of a sequenced index is its order, and that of an ordered, ranked
    /// or hashed one with parts the order in which rows of one key stand. No session is open, and no node is kept.
    ///
    /// A refusal says what is wrong with the table, or that memory was refused; then nothing is left.
    pub fn restored(
        alloc: Global,
        schema: Schema,
        secret: u64,
        rows: Vec<(u64, Record)>,
        lists: &[Vec<u64>],
        next: u64,
        arrivals: u64,
    ) -> Result<MultiIndex, RestoreFault>
        ensures shape { IfOk result (λ made. made.shape ≡ schema) }
        ensures table { IfOk result (λ made. as_table made.plain ≡
            record { rows = rows.items; lists = map (λ l. l.items) lists.now; next = next; arrivals = arrivals }) }
        ensures fit { IfOk result (λ _. RowsFit schema rows.items) }
        ensures kept { IfOk result (λ made. made.plain.kept ≡ []) }
        ensures secrets { IfOk result (λ made. made.secrets ≡ opened_secrets secret schema) }
        ensures fault { IfErr result (λ e. IsRestoreFault schema
            (record { rows = rows.items; lists = map (λ l. l.items) lists.now; next = next; arrivals = arrivals }) e) }
    {
        schema.keeps_rules();
        let count = rows.len() as u64;
        if next > LAST_COUNT || arrivals > LAST_COUNT || arrivals < count {
            return Err(RestoreFault::Counters);
        }
        if count > schema.max_rows() {
            return Err(RestoreFault::Full);
        }
        if lists.len() != schema.index_count() {
            return Err(RestoreFault::Lists);
        }
        check_rows(&schema, rows.as_slice())?;
        let mut made = MultiIndex::new(alloc, schema, secret)?;
        match made.fill(alloc, rows, lists, next, arrivals) {
            Ok(()) => Ok(made),
            Err(fault) => Err(fault),
        }
    }
}

/// Refuses rows of which one doesn't fit the columns.
fn check_rows(schema: &Schema, rows: &[(u64, Record)]) -> Result<(), RestoreFault>
    ensures fit { IfOk result (λ _. RowsFit schema.now rows.now) }
    ensures fault { IfErr result (λ e. IsFitFault schema.now rows.now e) }
{
    'rows: for (id, row) in rows {
        if !schema.fits_record(row) {
            return Err(RestoreFault::Row(*id));
        }
    }
    Ok(())
}

/// The ids of rows.
pub(crate) fn row_ids(alloc: Global, rows: &[(u64, Record)]) -> Result<Vec<u64>, AllocError>
    ensures { IfOk result (λ ids. ids.items ≡ map (λ r. r.0) rows.now) }
{
    let mut ids = Vec::new(alloc);
    for (id, _row) in rows {
        ids.push(*id)?;
    }
    Ok(ids)
}
