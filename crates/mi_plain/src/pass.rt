//! Passes over the list of an index: which ids stand before a place in what it shows, how many, and those next to it. They
//! read rows and take no memory.
use crate::table::PlainTable;
use mi_catalog::{Index, compare_rows, compare_to_row};
use mi_value::Value;
use std::cmp::Ordering;

/// A place between the ids that an index shows.
#[derive(Clone, Copy)]
pub(crate) enum Boundary {
    /// Before all of them.
    Start,
    /// Behind all of them.
    End,
    /// Before the ids of a key.
    Lower,
    /// Behind the ids of a key.
    Upper,
    /// Before this id, which has this place in the list.
    Before(u64, usize),
    /// Behind this id, which has this place in the list.
    Behind(u64, usize),
}

ghost use Rattle.std.specs.Prelude.{◌≡◌, ◌==◌};
ghost use Rattle.std.specs.List.{position};
ghost use Rattle.mi_model.specs.LookUp.{rank_in};

/// The place of an id in a list.
fn find_in(ids: &[u64], id: u64) -> Option<usize>
    ensures { result ≡ position (λ a. a == id) ids.now }
{
    ids.iter().position(|a| *a == id)
}

/// The place of an id in a list, or where it isn't there the list's length.
pub(crate) fn place_in(ids: &[u64], id: u64) -> usize
    ensures { result ≡ rank_in ids.now id }
{
    match find_in(ids, id) {
        Some(i) => i,
        None => ids.len(),
    }
}

impl PlainTable {
    ghost use Rattle.std.specs.Prelude.{◌≡◌, not, true, Some, if◌then◌else◌, IsTrue, IfSome, length, slice_get};
    ghost use Rattle.std.specs.List.{filter};
    ghost use Rattle.std.specs.Option.{option_map_or};
    ghost use Rattle.std.specs.Ordering.{is_lt, nat_cmp, ordering_then};
    ghost use Rattle.mi_model.specs.Table.{has as has_row, list_of, ListsEach};
    ghost use Rattle.mi_model.specs.View as shows;
    ghost use Rattle.mi_model.specs.View.{sorted};
    ghost use Rattle.mi_model.specs.LookUp.{rank_in};
    ghost use Rattle.mi_plain.specs.Boundary.{order_in, is_before as stands_before, StandsIn, last_id};

    /// A key, or the first values of one, against the key of an id.
    pub(crate) fn compare_to_id(&self, index: &Index, key: &[Value], id: u64) -> Ordering
        requires { IsTrue (has_row self.now id) }
        ensures { result ≡ shows.compare_to_id index.now self.now key.now id }
    {
        match self.get(id) {
            Some(row) => compare_to_row(index.parts.as_slice(), key, id, row),
            None => Ordering::Equal,
        }
    }

    /// Two ids by their keys.
    pub(crate) fn compare_ids(&self, index: &Index, a: u64, b: u64) -> Ordering
        requires a { IsTrue (has_row self.now a) }
        requires b { IsTrue (has_row self.now b) }
        ensures { result ≡ shows.compare_ids index.now self.now a b }
    {
        match (self.get(a), self.get(b)) {
            (Some(row), Some(other)) => compare_rows(index.parts.as_slice(), a, row, b, other),
            _ => Ordering::Equal,
        }
    }

    /// Two ids by their keys, if the index goes by keys.
    fn order(&self, index: &Index, a: u64, b: u64) -> Ordering
        requires a { IsTrue (has_row self.now a) }
        requires b { IsTrue (has_row self.now b) }
        ensures { result ≡ order_in index.now self.now a b }
    {
        if index.kind.is_sorted() {
            self.compare_ids(index, a, b)
        } else {
            Ordering::Equal
        }
    }

    /// Whether an id with its place in the list stands before another.
    fn precedes(&self, index: &Index, a: (u64, usize), b: (u64, usize)) -> bool
        requires a { IsTrue (has_row self.now a.0) }
        requires b { IsTrue (has_row self.now b.0) }
        ensures { result ≡ is_lt (ordering_then (order_in index.now self.now a.0 b.0) (nat_cmp a.1 b.1)) }
    {
        self.order(index, a.0, b.0).then(a.1.cmp(&b.1)).is_lt()
    }

    /// Whether the id at place i of the list stands before a boundary.
    fn is_before(
        &self,
        index: &Index,
        x: usize,
        key: &[Value],
        boundary: Boundary,
        id: u64,
        i: usize,
    ) -> bool
        requires place { i ≡ rank_in (list_of self.now x) id }
        requires id { IsTrue (has_row self.now id) }
        requires boundary { StandsIn self.now boundary }
        ensures { result ≡ stands_before index.now self.now (list_of self.now x) key.now boundary id }
    {
        match boundary {
            Boundary::Start => false,
            Boundary::End => true,
            Boundary::Lower => self.compare_to_id(index, key, id).is_gt(),
            Boundary::Upper => self.compare_to_id(index, key, id).is_ge(),
            Boundary::Before(e, at) => self.precedes(index, (id, i), (e, at)),
            Boundary::Behind(e, at) => !self.precedes(index, (e, at), (id, i)),
        }
    }

    /// The one of two ids that goes first; of equals the one that is there.
    fn sooner(&self, index: &Index, id: u64, best: Option<u64>) -> Option<u64>
        requires id { IsTrue (has_row self.now id) }
        requires best { IfSome best (λ b. IsTrue (has_row self.now b)) }
        ensures first { result ≡ (if option_map_or (λ b. is_lt (order_in index.now self.now id b)) best true then Some id else best) }
        ensures there { IfSome result (λ b. IsTrue (has_row self.now b)) }
    {
        match best {
            Some(b) if !self.order(index, id, b).is_lt() => best,
            _ => Some(id),
        }
    }

    /// The one of two ids that goes last; of equals the new one.
    fn later(&self, index: &Index, id: u64, best: Option<u64>) -> Option<u64>
        requires id { IsTrue (has_row self.now id) }
        requires best { IfSome best (λ b. IsTrue (has_row self.now b)) }
        ensures last { result ≡ (if option_map_or (λ b. not (is_lt (order_in index.now self.now id b))) best true then Some id else best) }
        ensures there { IfSome result (λ b. IsTrue (has_row self.now b)) }
    {
        match best {
            Some(b) if self.order(index, id, b).is_lt() => best,
            _ => Some(id),
        }
    }

    /// The first id, by this index, of those that don't stand before a boundary.
    pub(crate) fn first_past(
        &self,
        index: &Index,
        x: usize,
        key: &[Value],
        boundary: Boundary,
    ) -> Option<u64>
        requires listed { ListsEach self.now (list_of self.now x) }
        requires boundary { StandsIn self.now boundary }
        ensures { result ≡ slice_get (sorted (order_in index.now self.now)
            (filter (λ a. not (stands_before index.now self.now (list_of self.now x) key.now boundary a)) (list_of self.now x)))
            0 }
    {
        let ids = self.ids(x);
        let mut best = None;
        for (i, a) in ids.iter().enumerate() {
            if !self.is_before(index, x, key, boundary, *a, i) {
                best = self.sooner(index, *a, best);
            }
        }
        best
    }

    /// The last id, by this index, of those that stand before a boundary.
    pub(crate) fn last_before(
        &self,
        index: &Index,
        x: usize,
        key: &[Value],
        boundary: Boundary,
    ) -> Option<u64>
        requires listed { ListsEach self.now (list_of self.now x) }
        requires boundary { StandsIn self.now boundary }
        ensures { result ≡ last_id (sorted (order_in index.now self.now)
            (filter (λ a. stands_before index.now self.now (list_of self.now x) key.now boundary a) (list_of self.now x))) }
    {
        let ids = self.ids(x);
        let mut best = None;
        for (i, a) in ids.iter().enumerate() {
            if self.is_before(index, x, key, boundary, *a, i) {
                best = self.later(index, *a, best);
            }
        }
        best
    }

    /// How many ids of this index stand before a boundary.
    pub(crate) fn count_before(
        &self,
        index: &Index,
        x: usize,
        key: &[Value],
        boundary: Boundary,
    ) -> u64
        requires listed { ListsEach self.now (list_of self.now x) }
        requires boundary { StandsIn self.now boundary }
        ensures { result ≡ length (filter (λ a. stands_before index.now self.now (list_of self.now x) key.now boundary a) (list_of self.now x)) }
    {
        let ids = self.ids(x);
        let mut n = 0;
        for (i, a) in ids.iter().enumerate() {
            if self.is_before(index, x, key, boundary, *a, i) {
                n += 1;
            }
        }
        n
    }

    /// The place of an id in the list of index x, or where it isn't there the list's length.
    pub(crate) fn place_of(&self, x: usize, id: u64) -> usize
        ensures { result ≡ rank_in (list_of self.now x) id }
    {
        place_in(self.ids(x), id)
    }
}
