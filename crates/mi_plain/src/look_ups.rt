//! The look-ups of a table. Each goes once or twice over the list of an index, but `nth`, which ranks one id after another. They
//! read rows and take no memory.
use crate::pass::Boundary;
use crate::table::PlainTable;
use mi_catalog::Schema;
use mi_value::{Record, Value};

impl PlainTable {
    ghost use Rattle.std.specs.Prelude.{◌≡◌, ◌<◌, Some, None, IsTrue, IfSome, length, if◌then◌else◌};
    ghost use Rattle.std.specs.Option.{option_map};
    ghost use Rattle.mi_catalog.specs.Shape.{index_at};
    ghost use Rattle.mi_catalog.specs.declared.index.IndexKind.TheVariants.{Hashed};
    ghost use Rattle.mi_model.specs.Table.{get as get_row, has as has_row, IsTable};
    ghost use Rattle.mi_catalog.specs.Kinds.{has_keys, is_sorted, shows_one_list};
    ghost use Rattle.mi_model.specs.LookUp as look;

    /// The first id that index x shows.
    pub(crate) fn first(&self, schema: &Schema, x: usize) -> Option<u64>
        requires is { IsTable schema.now self.now }
        requires kind { IsTrue (shows_one_list (index_at schema.now x).kind) }
        ensures { result ≡ look.first schema.now self.now x }
    {
        self.first_past(schema.index(x), x, &[], Boundary::Start)
    }

    /// The last id that index x shows.
    pub(crate) fn last(&self, schema: &Schema, x: usize) -> Option<u64>
        requires is { IsTable schema.now self.now }
        requires kind { IsTrue (shows_one_list (index_at schema.now x).kind) }
        ensures { result ≡ look.last schema.now self.now x }
    {
        self.last_before(schema.index(x), x, &[], Boundary::End)
    }

    /// The id that index x shows directly after another.
    pub(crate) fn after(&self, schema: &Schema, x: usize, id: u64) -> Option<u64>
        requires is { IsTable schema.now self.now }
        requires kind { IsTrue (shows_one_list (index_at schema.now x).kind) }
        requires id { IsTrue (has_row self.now id) }
        ensures { result ≡ look.after schema.now self.now x id }
    {
        let boundary = Boundary::Behind(id, self.place_of(x, id));
        self.first_past(schema.index(x), x, &[], boundary)
    }

    /// The id that index x shows directly before another.
    pub(crate) fn before(&self, schema: &Schema, x: usize, id: u64) -> Option<u64>
        requires is { IsTable schema.now self.now }
        requires kind { IsTrue (shows_one_list (index_at schema.now x).kind) }
        requires id { IsTrue (has_row self.now id) }
        ensures { result ≡ look.before schema.now self.now x id }
    {
        let boundary = Boundary::Before(id, self.place_of(x, id));
        self.last_before(schema.index(x), x, &[], boundary)
    }

    /// The first id of a sorted index whose key isn't less.
    pub(crate) fn lower(&self, schema: &Schema, x: usize, key: &[Value]) -> Option<u64>
        requires is { IsTable schema.now self.now }
        requires kind { IsTrue (is_sorted (index_at schema.now x).kind) }
        ensures { result ≡ look.lower schema.now self.now x key.now }
    {
        self.first_past(schema.index(x), x, key, Boundary::Lower)
    }

    /// The first id of a sorted index whose key is greater.
    pub(crate) fn upper(&self, schema: &Schema, x: usize, key: &[Value]) -> Option<u64>
        requires is { IsTable schema.now self.now }
        requires kind { IsTrue (is_sorted (index_at schema.now x).kind) }
        ensures { result ≡ look.upper schema.now self.now x key.now }
    {
        self.first_past(schema.index(x), x, key, Boundary::Upper)
    }

    /// How many rows stand before a row in a sorted index.
    pub(crate) fn rank_of(&self, schema: &Schema, x: usize, id: u64) -> u64
        requires is { IsTable schema.now self.now }
        requires kind { IsTrue (is_sorted (index_at schema.now x).kind) }
        requires id { IsTrue (has_row self.now id) }
        ensures { result ≡ look.rank schema.now self.now x id }
    {
        let boundary = Boundary::Before(id, self.place_of(x, id));
        self.count_before(schema.index(x), x, &[], boundary)
    }

    /// How many keys of a sorted index are less.
    pub(crate) fn lower_rank(&self, schema: &Schema, x: usize, key: &[Value]) -> u64
        requires is { IsTable schema.now self.now }
        requires kind { IsTrue (is_sorted (index_at schema.now x).kind) }
        ensures { result ≡ look.lower_rank schema.now self.now x key.now }
    {
        self.count_before(schema.index(x), x, key, Boundary::Lower)
    }

    /// How many keys of a sorted index aren't greater.
    pub(crate) fn upper_rank(&self, schema: &Schema, x: usize, key: &[Value]) -> u64
        requires is { IsTable schema.now self.now }
        requires kind { IsTrue (is_sorted (index_at schema.now x).kind) }
        ensures { result ≡ look.upper_rank schema.now self.now x key.now }
    {
        self.count_before(schema.index(x), x, key, Boundary::Upper)
    }

    /// The id with n rows before it in a sorted index.
    pub(crate) fn nth(&self, schema: &Schema, x: usize, n: u64) -> Option<u64>
        requires is { IsTable schema.now self.now }
        requires kind { IsTrue (is_sorted (index_at schema.now x).kind) }
        ensures { result ≡ look.nth schema.now self.now x n }
    {
        let ids = self.ids(x);
        for id in ids {
            if self.rank_of(schema, x, *id) == n {
                return Some(*id);
            }
        }
        None
    }

    /// The record of an id, if it is there.
    fn row_of(&self, found: Option<u64>) -> Option<(u64, &Record)>
        requires { IfSome found (λ id. IsTrue (has_row self.now id)) }
        ensures id { option_map (λ r. r.0) result ≡ found }
        ensures row { IfSome result (λ r. get_row self.now r.0 ≡ Some r.1.now) }
    {
        let Some(id) = found else {
            return None;
        };
        let Some(row) = self.get(id) else {
            unreachable!()
        };
        Some((id, row))
    }

    /// The id with n rows before it in a sorted index, and its record.
    pub(crate) fn nth_row(&self, schema: &Schema, x: usize, n: u64) -> Option<(u64, &Record)>
        requires is { IsTable schema.now self.now }
        requires kind { IsTrue (is_sorted (index_at schema.now x).kind) }
        ensures id { option_map (λ r. r.0) result ≡ look.nth schema.now self.now x n }
        ensures row { IfSome result (λ r. get_row self.now r.0 ≡ Some r.1.now) }
    {
        let found = self.nth(schema, x, n);
        self.row_of(found)
    }

    /// How many rows stand before a row in a sorted index, if it is there.
    pub(crate) fn rank(&self, schema: &Schema, x: usize, id: u64) -> Option<u64>
        requires is { IsTable schema.now self.now }
        requires kind { IsTrue (is_sorted (index_at schema.now x).kind) }
        ensures { result ≡ (if has_row self.now id then Some (look.rank schema.now self.now x id) else None) }
    {
        if self.has(id) {
            Some(self.rank_of(schema, x, id))
        } else {
            None
        }
    }

    /// The first id of a key in a sorted index: the first whose key isn't less, if it has the key.
    fn find_sorted(&self, schema: &Schema, x: usize, key: &[Value]) -> Option<u64>
        requires is { IsTable schema.now self.now }
        requires kind { IsTrue (is_sorted (index_at schema.now x).kind) }
        ensures { result ≡ look.find schema.now self.now x key.now }
    {
        let Some(id) = self.lower(schema, x, key) else {
            return None;
        };
        if self.compare_to_id(schema.index(x), key, id).is_eq() {
            Some(id)
        } else {
            None
        }
    }

    /// The first id of a key in an index with keys.
    fn find(&self, schema: &Schema, x: usize, key: &[Value]) -> Option<u64>
        requires is { IsTable schema.now self.now }
        requires within { x < length schema.now.indexes }
        requires keyed { IsTrue (has_keys (index_at schema.now x).kind) }
        ensures { result ≡ look.find schema.now self.now x key.now }
    {
        if schema.kind(x).is_hashed() {
            self.first_of(schema, x, key)
        } else {
            self.find_sorted(schema, x, key)
        }
    }

    /// The first id of a key in an index with keys, and its record.
    pub(crate) fn find_row(
        &self,
        schema: &Schema,
        x: usize,
        key: &[Value],
    ) -> Option<(u64, &Record)>
        requires is { IsTable schema.now self.now }
        requires within { x < length schema.now.indexes }
        requires keyed { IsTrue (has_keys (index_at schema.now x).kind) }
        ensures id { option_map (λ r. r.0) result ≡ look.find schema.now self.now x key.now }
        ensures row { IfSome result (λ r. get_row self.now r.0 ≡ Some r.1.now) }
    {
        let found = self.find(schema, x, key);
        self.row_of(found)
    }

    /// How many ids of an index have a key: those before the upper end of the key that aren't before its lower end.
    pub(crate) fn count(&self, schema: &Schema, x: usize, key: &[Value]) -> u64
        requires is { IsTable schema.now self.now }
        requires within { x < length schema.now.indexes }
        ensures { result ≡ look.count schema.now self.now x key.now }
    {
        let index = schema.index(x);
        let lower = self.count_before(index, x, key, Boundary::Lower);
        let upper = self.count_before(index, x, key, Boundary::Upper);
        upper - lower
    }

    /// The first id of a key in a hashed index.
    pub(crate) fn first_of(&self, schema: &Schema, x: usize, key: &[Value]) -> Option<u64>
        requires is { IsTable schema.now self.now }
        requires within { x < length schema.now.indexes }
        requires kind { (index_at schema.now x).kind ≡ Hashed }
        ensures { result ≡ look.first_with_key schema.now self.now x key.now }
    {
        let index = schema.index(x);
        let ids = self.ids(x);
        for id in ids {
            if self.compare_to_id(index, key, *id).is_eq() {
                return Some(*id);
            }
        }
        None
    }

    /// The id that follows another among those of its key in a hashed index.
    pub(crate) fn next_of(&self, schema: &Schema, x: usize, id: u64) -> Option<u64>
        requires is { IsTable schema.now self.now }
        requires within { x < length schema.now.indexes }
        requires kind { (index_at schema.now x).kind ≡ Hashed }
        requires id { IsTrue (has_row self.now id) }
        ensures { result ≡ look.next_with_key schema.now self.now x id }
    {
        let index = schema.index(x);
        let ids = self.ids(x);
        for i in self.place_of(x, id) + 1..ids.len() {
            if self.compare_ids(index, id, ids[i]).is_eq() {
                return Some(ids[i]);
            }
        }
        None
    }
}
