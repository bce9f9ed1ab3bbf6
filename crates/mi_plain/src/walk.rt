//! The rows that an index shows one after another. They are found step by step: each step goes once over the list of the
//! index. The rows that are lent stand in a vector, and nothing else takes memory.
use crate::table::PlainTable;
use mi_catalog::Schema;
use mi_value::{Lower, Record, Refusal, Upper};
use std::alloc::Global;

impl PlainTable {
    ghost use Rattle.std.specs.Prelude.{◌≡◌, ◌+◌, ℕ, not, Some, true, map, IsTrue, IfOk, IfErr, IfSome, slice_get, if◌then◌else◌};
    ghost use Rattle.std.specs.List.{count_by};
    ghost use Rattle.mi_value.specs.declared.refusal.Refusal.TheVariants.{Memory};
    ghost use Rattle.mi_catalog.specs.Shape.{index_at};
    ghost use Rattle.mi_catalog.specs.Kinds.{is_sorted, shows_one_list};
    ghost use Rattle.mi_value.specs.declared.bound.Lower.TheVariants as Lower;
    ghost use Rattle.mi_value.specs.declared.bound.Upper.TheVariants as Upper;
    ghost use Rattle.mi_model.specs.LookUp.{before_place};
    ghost use Rattle.mi_model.specs.Page.{meets_lower, meets_upper, between, range as range_of};
    ghost use Rattle.mi_model.specs.Table.{has as has_row, row as row_of, IsTable};
    ghost use Rattle.mi_model.specs.View.{view};
    ghost use Rattle.mi_model.specs.Walk.{turned, rows_from};
    ghost use Rattle.mi_plain.specs.Boundary.{begun};

    /// The id that index x shows directly after another, or in the reverse of its order directly before it.
    fn following(&self, schema: &Schema, x: usize, reverse: bool, id: u64) -> Option<u64>
        requires is { IsTable schema.now self.now }
        requires kind { IsTrue (shows_one_list (index_at schema.now x).kind) }
        requires id { IsTrue (has_row self.now id) }
        ensures next { (k : ℕ) → slice_get (turned reverse (view schema.now self.now x)) k ≡ Some id
            → result ≡ slice_get (turned reverse (view schema.now self.now x)) (k + 1) }
        ensures there { IfSome result (λ next. IsTrue (has_row self.now next)) }
    {
        if reverse {
            self.before(schema, x, id)
        } else {
            self.after(schema, x, id)
        }
    }

    /// The rows that index x shows from one on, in its order or in the reverse of it, at most `limit` of them. Refusal: `Memory`.
    pub(crate) fn walk(
        &self,
        alloc: Global,
        schema: &Schema,
        x: usize,
        reverse: bool,
        first: u64,
        limit: usize,
    ) -> Result<Vec<(u64, &Record)>, Refusal>
        requires is { IsTable schema.now self.now }
        requires kind { IsTrue (shows_one_list (index_at schema.now x).kind) }
        requires first { IsTrue (has_row self.now first) }
        ensures rows { IfOk result (λ rows. map (λ r. (r.0, r.1.now)) rows.items ≡ rows_from schema.now self.now x reverse first limit) }
        ensures err { IfErr result (λ e. e ≡ Memory) }
    {
        let mut rows = Vec::new(alloc);
        let mut next = Some(first);
        'ids: while rows.len() < limit {
            let Some(id) = next else { break };
            let Some(row) = self.get(id) else {
                unreachable!()
            };
            rows.push((id, row))?;
            next = self.following(schema, x, reverse, id);
        }
        Ok(rows)
    }

    /// The id with n - 1 rows before it in sorted index x; none where n is 0.
    fn before_nth(&self, schema: &Schema, x: usize, n: u64) -> Option<u64>
        requires is { IsTable schema.now self.now }
        requires kind { IsTrue (is_sorted (index_at schema.now x).kind) }
        ensures { result ≡ before_place (view schema.now self.now x) n }
    {
        if n == 0 {
            None
        } else {
            self.nth(schema, x, n - 1)
        }
    }

    /// The first id of sorted index x that meets a lower bound.
    fn first_from(&self, schema: &Schema, x: usize, lower: &Lower) -> Option<u64>
        requires is { IsTable schema.now self.now }
        requires kind { IsTrue (is_sorted (index_at schema.now x).kind) }
        ensures { result ≡ slice_get (between schema.now self.now x lower.now Upper.All) 0 }
    {
        match lower {
            Lower::All => self.first(schema, x),
            Lower::From(key) => self.lower(schema, x, key.values()),
            Lower::Beyond(key) => self.upper(schema, x, key.values()),
        }
    }

    /// The last id of sorted index x that meets an upper bound.
    fn last_to(&self, schema: &Schema, x: usize, upper: &Upper) -> Option<u64>
        requires is { IsTable schema.now self.now }
        requires kind { IsTrue (is_sorted (index_at schema.now x).kind) }
        ensures { result ≡ slice_get (turned true (between schema.now self.now x Lower.All upper.now)) 0 }
    {
        match upper {
            Upper::All => self.last(schema, x),
            Upper::UpTo(key) => {
                self.before_nth(schema, x, self.upper_rank(schema, x, key.values()))
            }
            Upper::Below(key) => {
                self.before_nth(schema, x, self.lower_rank(schema, x, key.values()))
            }
        }
    }

    /// How many ids of sorted index x don't meet a lower bound.
    fn rank_from(&self, schema: &Schema, x: usize, lower: &Lower) -> u64
        requires is { IsTable schema.now self.now }
        requires kind { IsTrue (is_sorted (index_at schema.now x).kind) }
        ensures { result ≡ count_by (λ id. not (meets_lower (index_at schema.now x) self.now lower.now id)) (view schema.now self.now x) }
    {
        match lower {
            Lower::All => 0,
            Lower::From(key) => self.lower_rank(schema, x, key.values()),
            Lower::Beyond(key) => self.upper_rank(schema, x, key.values()),
        }
    }

    /// How many meet an upper bound.
    fn rank_to(&self, schema: &Schema, x: usize, upper: &Upper) -> u64
        requires is { IsTable schema.now self.now }
        requires kind { IsTrue (is_sorted (index_at schema.now x).kind) }
        ensures { result ≡ count_by (meets_upper (index_at schema.now x) self.now upper.now) (view schema.now self.now x) }
    {
        match upper {
            Upper::All => self.size(),
            Upper::UpTo(key) => self.upper_rank(schema, x, key.values()),
            Upper::Below(key) => self.lower_rank(schema, x, key.values()),
        }
    }

    /// The id at which a range begins, wherever it ends.
    fn begin(
        &self,
        schema: &Schema,
        x: usize,
        lower: &Lower,
        upper: &Upper,
        reverse: bool,
    ) -> Option<u64>
        requires is { IsTable schema.now self.now }
        requires kind { IsTrue (is_sorted (index_at schema.now x).kind) }
        ensures { result ≡ slice_get (begun schema.now self.now x lower.now upper.now reverse) 0 }
    {
        if reverse {
            self.last_to(schema, x, upper)
        } else {
            self.first_from(schema, x, lower)
        }
    }

    /// The first rows of those that sorted index x shows between two bounds, in its order or in the reverse of it, at most `limit` of
    /// them: as many as stand between the ranks of the bounds. Refusal: `Memory`.
    pub(crate) fn walk_range(
        &self,
        alloc: Global,
        schema: &Schema,
        x: usize,
        lower: &Lower,
        upper: &Upper,
        reverse: bool,
        limit: usize,
    ) -> Result<Vec<(u64, &Record)>, Refusal>
        requires is { IsTable schema.now self.now }
        requires kind { IsTrue (is_sorted (index_at schema.now x).kind) }
        ensures rows { IfOk result (λ rows. map (λ r. (r.0, r.1.now)) rows.items ≡
            map (row_of self.now) (range_of schema.now self.now x lower.now upper.now reverse limit).ids) }
        ensures err { IfErr result (λ e. e ≡ Memory) }
    {
        let from = self.rank_from(schema, x, lower);
        let to = self.rank_to(schema, x, upper);
        let count = limit.min(to.saturating_sub(from) as usize);
        let Some(first) = self.begin(schema, x, lower, upper, reverse) else {
            return Ok(Vec::new(alloc));
        };
        self.walk(alloc, schema, x, reverse, first, count)
    }
}
