//! Pages of ranges and lists. A page takes memory for its rows alone, which are lent: the index is walked once, from where
//! the page begins.
ghost use Rattle.std.specs.Prelude.{◌≡◌, ◌+◌, length, map, take, nat_lt, IsTrue, IfOk, IfErr, Ok, Err, slice_get, if◌then◌else◌};
ghost use Rattle.mi_value.specs.declared.refusal.Refusal.TheVariants.{Memory, NoId};
ghost use Rattle.mi_sessions.specs.Fitting.{HasTable, index_of, IsSortedIndex, IsSequencedIndex, FitsLower, FitsUpper};
ghost use Rattle.mi_catalog.specs.Key.{Row};
ghost use Rattle.mi_sessions.specs.LookUps.{WithinLookUps, WithinRange};
ghost use Rattle.mi_model.specs.Table.{has as has_row, row as row_of, size as size_of};
ghost use Rattle.mi_model.specs.Verdict.{has_place};
ghost use Rattle.mi_model.specs.Database.{schema_of, table_of};
ghost use Rattle.mi_model.specs.Page.{page_of, range as range_of, list as list_of};
ghost use Rattle.mi_model.specs.Walk.{from_in};
ghost use Rattle.mi_query.specs.Pages.{shown_by, place_behind};

use crate::shown::shows_each;
use mi_sessions::Sessions;
use mi_value::{Lower, Record, Refusal, Steps, Upper};
use std::alloc::Global;

/// The first rows of a range or list, by their ids, and whether others remain after the last one given (with none given,
/// whether there are any).
#[derive(Drop)]
pub struct Page<'a> {
    pub rows: Vec<(u64, &'a Record)>,
    pub more: bool,
}

/// The page of a walk that has one row more than the page may have, where others remain.
fn page_of_walk<'a>(rows: Vec<(u64, &'a Record)>, limit: usize) -> Page<'a>
    ensures rows { map {B = Row} (λ r. (r.0, r.1.now)) result.rows.items ≡ take limit (map {B = Row} (λ r. (r.0, r.1.now)) rows.entry.items) }
    ensures more { result.more ≡ nat_lt limit (length rows.entry.items) }
{
    let more = rows.len() > limit;
    let mut rows = rows;
    rows.truncate(limit);
    Page { rows, more }
}

/// The first rows of those that an ordered or ranked index shows between two bounds, in its order or in the reverse of it,
/// at most `limit` of them. Where it begins is one look-up; from there the index is walked once, with at most one comparison for each
/// row shown and one more, and no row past its end but one is read. Refusal: `Memory`.
pub fn range<'a, D: Sessions>(
    db: &'a D,
    alloc: Global,
    table: usize,
    index: usize,
    lower: &Lower,
    upper: &Upper,
    reverse: bool,
    limit: usize,
    steps: &mut Steps,
) -> Result<Page<'a>, Refusal>
    requires table { HasTable (D.state db.now).catalog table }
    requires index { IsSortedIndex (D.state db.now).catalog table index }
    requires lower { FitsLower (D.state db.now).catalog table index lower.now }
    requires upper { FitsUpper (D.state db.now).catalog table index upper.now }
    ensures rows { IfOk result (λ p. map (λ r. (r.0, r.1.now)) p.rows.items ≡ map (row_of (table_of (D.state db.now) table))
        (range_of (schema_of (D.state db.now) table) (table_of (D.state db.now) table) index lower.now upper.now reverse limit).ids) }
    ensures more { IfOk result (λ p. p.more ≡
        (range_of (schema_of (D.state db.now) table) (table_of (D.state db.now) table) index lower.now upper.now reverse limit).more) }
    ensures err { IfErr result (λ e. e ≡ Memory) }
    ensures steps { WithinRange D.bound
        (length (range_of (schema_of (D.state db.now) table) (table_of (D.state db.now) table) index lower.now upper.now reverse limit).ids + 1)
        (size_of (table_of (D.state db.now) table)) steps.old.count steps.new.count }
{
    shows_each(db, table, index);
    let more = limit.saturating_add(1);
    let rows = db.walk_range(alloc, table, index, lower, upper, reverse, more, steps)?;
    Ok(page_of_walk(rows, limit))
}

/// The first rows of those that a sequenced index shows from an id on, at most `limit` of them. It is one walk, of one row more than
/// the page may have. Refusal: `Memory`.
fn page_from<'a, D: Sessions>(
    db: &'a D,
    alloc: Global,
    table: usize,
    index: usize,
    first: u64,
    limit: usize,
) -> Result<Page<'a>, Refusal>
    requires table { HasTable (D.state db.now).catalog table }
    requires index { IsSequencedIndex (D.state db.now).catalog table index }
    requires first { IsTrue (has_row (table_of (D.state db.now) table) first) }
    ensures rows { IfOk result (λ p. map (λ r. (r.0, r.1.now)) p.rows.items ≡ map (row_of (table_of (D.state db.now) table))
        (page_of limit (from_in (shown_by (D.state db.now) table index) first)).ids) }
    ensures more { IfOk result (λ p. p.more ≡ (page_of limit (from_in (shown_by (D.state db.now) table index) first)).more) }
    ensures err { IfErr result (λ e. e ≡ Memory) }
{
    shows_each(db, table, index);
    let rows = db.walk(alloc, table, index, false, first, limit.saturating_add(1))?;
    Ok(page_of_walk(rows, limit))
}

/// The first rows of a sequenced index, or of those behind an id, at most `limit` of them. At most one look-up, and one walk.
/// Refusals: `NoId`, exactly where that id isn't there, and `Memory`.
pub fn list<'a, D: Sessions>(
    db: &'a D,
    alloc: Global,
    table: usize,
    index: usize,
    after: Option<u64>,
    limit: usize,
    steps: &mut Steps,
) -> Result<Page<'a>, Refusal>
    requires table { HasTable (D.state db.now).catalog table }
    requires index { IsSequencedIndex (D.state db.now).catalog table index }
    ensures rows { IfOk result (λ p. map (λ r. (r.0, r.1.now)) p.rows.items ≡ map (row_of (table_of (D.state db.now) table))
        (list_of (schema_of (D.state db.now) table) (table_of (D.state db.now) table) index after limit).ids) }
    ensures more { IfOk result (λ p. p.more ≡ (list_of (schema_of (D.state db.now) table) (table_of (D.state db.now) table) index after limit).more) }
    ensures there { IfOk result (λ _. IsTrue (has_place (table_of (D.state db.now) table) after)) }
    ensures err { IfErr result (λ e. e ≡ (if has_place (table_of (D.state db.now) table) after then Memory else NoId)) }
    ensures steps { WithinLookUps D.bound 1 (size_of (table_of (D.state db.now) table)) steps.old.count steps.new.count }
{
    db.keeps_rules();
    shows_each(db, table, index);
    let Some(first) = first_behind(db, table, index, after, steps)? else {
        return Ok(Page {
            rows: Vec::new(alloc),
            more: false,
        });
    };
    page_from(db, alloc, table, index, first, limit)
}

/// The id directly behind another in a sequenced index, or behind none the first. Refusal: `NoId`. At most one look-up.
fn first_behind<D: Sessions>(
    db: &D,
    table: usize,
    index: usize,
    after: Option<u64>,
    steps: &mut Steps,
) -> Result<Option<u64>, Refusal>
    requires table { HasTable (D.state db.now).catalog table }
    requires index { IsSequencedIndex (D.state db.now).catalog table index }
    ensures first { result ≡ (if has_place (table_of (D.state db.now) table) after
        then Ok (slice_get (shown_by (D.state db.now) table index) (place_behind (shown_by (D.state db.now) table index) after))
        else Err NoId) }
    ensures steps { WithinLookUps D.bound 1 (size_of (table_of (D.state db.now) table)) steps.old.count steps.new.count }
{
    let Some(id) = after else {
        return Ok(db.first(table, index));
    };
    if db.get(table, id, steps).is_none() {
        return Err(Refusal::NoId);
    }
    Ok(db.after(table, index, id))
}
