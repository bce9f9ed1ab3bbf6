//! Pages of ranges and lists with values in place of a line: rows are put into ids, cells and bytes of the caller's. They change nothing, and take
//! memory for keys and for a page's list of rows, which are lent.
ghost use Rattle.std.specs.Prelude.{◌≡◌, ◌<◌, ◌≤◌, length, map, Ok, Err, IsTrue, IfOk, MatchResult};
ghost use Rattle.std.specs.Option.{ok_or};
ghost use Rattle.mi_catalog.specs.Fits.{fits_lower, fits_upper};
ghost use Rattle.mi_catalog.specs.Fitting.{HasTable, IsSortedIndex, FitsLower, FitsUpper};
ghost use Rattle.mi_catalog.specs.Shape.{index_at};
ghost use Rattle.mi_request.specs.Answers.{IsAnswer};
ghost use Rattle.mi_embed.specs.Asked.{lower_in, upper_in};
ghost use Rattle.mi_embed.specs.Pages as meaning;
ghost use Rattle.mi_embed.specs.Pages.{page_limit, IsPaged, MayTellPage};

use crate::arguments::{key_for, schema_of, sequenced_index, sorted_index};
use crate::call_result::CallResult;
use crate::cell::Cell;
use crate::engine::Engine;
use crate::room::{put_rows, wanted};
use mi_catalog::Schema;
use mi_query::{Page, list, range};
use mi_sessions::Sessions;
use mi_value::limits::MAX_PAGE;
use mi_value::{Lower, Refusal, Steps, Upper};
use std::alloc::Global;

/// An end of a range: by its kind it is none (0), this key and on, or up to it (1), or beyond this key, or below it (2). The key may be the first
/// values of one.
#[derive(Clone, Copy)]
pub struct End<'a> {
    /// Which of the three, as above.
    pub kind: u32,
    /// The key. Of kind 0 it isn't looked at.
    pub key: &'a [Cell],
}

/// The lower bound of a range in an index. Refusals: `Key` and `Memory`.
fn lower_of(
    alloc: Global,
    schema: &Schema,
    index: usize,
    end: End<'_>,
    texts: &[u8],
) -> Result<Lower, Refusal>
    requires { index < length schema.now.indexes }
    ensures bound { IsAnswer result (ok_or (lower_in schema.now index end.entry.kind texts.now end.entry.key.now) Refusal.Key) }
    ensures fits { IfOk result (λ low. IsTrue (fits_lower schema.now.columns (index_at schema.now index).parts low)) }
{
    match end.kind {
        0 => Ok(Lower::All),
        1 => Ok(Lower::From(key_for(alloc, schema, index, false, end.key, texts)?)),
        2 => Ok(Lower::Beyond(key_for(alloc, schema, index, false, end.key, texts)?)),
        _ => Err(Refusal::Key),
    }
}

/// The upper bound of a range in an index. Refusals: `Key` and `Memory`.
fn upper_of(
    alloc: Global,
    schema: &Schema,
    index: usize,
    end: End<'_>,
    texts: &[u8],
) -> Result<Upper, Refusal>
    requires { index < length schema.now.indexes }
    ensures bound { IsAnswer result (ok_or (upper_in schema.now index end.entry.kind texts.now end.entry.key.now) Refusal.Key) }
    ensures fits { IfOk result (λ high. IsTrue (fits_upper schema.now.columns (index_at schema.now index).parts high)) }
{
    match end.kind {
        0 => Ok(Upper::All),
        1 => Ok(Upper::UpTo(key_for(alloc, schema, index, false, end.key, texts)?)),
        2 => Ok(Upper::Below(key_for(alloc, schema, index, false, end.key, texts)?)),
        _ => Err(Refusal::Key),
    }
}

/// The most rows that are asked for where there is room for so many ids.
fn page_limit(ids: &[u64]) -> usize
    ensures { result ≡ page_limit ids.now }
{
    ids.len().min(MAX_PAGE)
}

/// Shows the rows of a page, and tells how many they are and whether others remain, or the room that they want.
fn show_page(page: &Page<'_>, ids: &mut [u64], cells: &mut [Cell], texts: &mut [u8]) -> CallResult
    requires { length page.now.rows.items ≤ length ids.old }
    ensures { IsPaged (map (λ r. (r.0, r.1.now)) page.now.rows.items, page.now.more) result ids.old ids.new cells.old cells.new texts.old texts.new }
{
    let rows = page.rows.as_slice();
    if put_rows(rows, ids, cells, texts) {
        CallResult::paged(rows.len(), page.more)
    } else {
        wanted(rows)
    }
}

impl Engine {
    /// The bounds of a range in an ordered or ranked index. Refusals, in this order: `NoTable`, `Index`, `Kind` and `Key`.
    fn bounds(
        &self,
        table: usize,
        index: usize,
        lower: End<'_>,
        upper: End<'_>,
        texts: &[u8],
    ) -> Result<(Lower, Upper), Refusal>
        ensures bounds { IsAnswer result (meaning.bounds_in self.now.held table index lower.entry.kind lower.entry.key.now upper.entry.kind
            upper.entry.key.now texts.now) }
        ensures there { IfOk result (λ _. HasTable self.now.held.database.catalog table × IsSortedIndex self.now.held.database.catalog table index) }
        ensures fits { IfOk result (λ ends. FitsLower self.now.held.database.catalog table index ends.0
            × FitsUpper self.now.held.database.catalog table index ends.1) }
    {
        let schema = schema_of(self.executor.database().catalog(), table)?;
        let index = sorted_index(schema, index)?;
        let lower = lower_of(self.alloc, schema, index, lower, texts)?;
        let upper = upper_of(self.alloc, schema, index, upper, texts)?;
        Ok((lower, upper))
    }

    /// The first rows between two bounds, at most so many.
    fn range_page(
        &self,
        table: usize,
        index: usize,
        lower: End<'_>,
        upper: End<'_>,
        texts: &[u8],
        reverse: bool,
        limit: usize,
    ) -> Result<Page<'_>, Refusal>
        ensures rows { MatchResult result
            (λ p. meaning.range_by self.now.held table index lower.entry.kind lower.entry.key.now upper.entry.kind upper.entry.key.now texts.now reverse limit
            ≡ Ok (map (λ r. (r.0, r.1.now)) p.rows.items, p.more))
            (λ e. IsAnswer (Err e) (meaning.range_by self.now.held table index lower.entry.kind lower.entry.key.now upper.entry.kind upper.entry.key.now
            texts.now reverse limit)) }
        ensures few { IfOk result (λ p. length p.rows.items ≤ limit) }
    {
        let (lower, upper) = self.bounds(table, index, lower, upper, texts)?;
        let database = self.executor.database();
        range(
            database,
            self.alloc,
            table,
            index,
            &lower,
            &upper,
            reverse,
            limit,
            &mut Steps::new(),
        )
    }

    /// Puts the rows between two bounds of an ordered or ranked index, in its order or in the reverse of it: their ids, their values one row behind
    /// another, and their texts one behind another. At most as many rows as there is room for ids, and at most 1,000. Tells how many they are, and
    /// whether others remain. Without room for the values or their texts it tells what is wanted, and nothing is said of ids, cells and bytes.
    ///
    /// Refusals, in this order: `NoTable`, `Index`, `Kind` (a hashed or sequenced index), `Key` and `Memory`. A `Key` is of the lower end, of the
    /// upper one, or of a number that is none of an end. Then ids, cells and bytes stay as they are.
    pub fn range(
        &self,
        table: usize,
        index: usize,
        lower: End<'_>,
        upper: End<'_>,
        key_texts: &[u8],
        reverse: bool,
        ids: &mut [u64],
        cells: &mut [Cell],
        texts: &mut [u8],
    ) -> CallResult
        ensures { MayTellPage (meaning.range_by self.now.held table index lower.entry.kind lower.entry.key.now upper.entry.kind upper.entry.key.now
            key_texts.now reverse (page_limit ids.old)) result ids.old ids.new cells.old cells.new texts.old texts.new }
    {
        let limit = page_limit(ids);
        match self.range_page(table, index, lower, upper, key_texts, reverse, limit) {
            Ok(page) => show_page(&page, ids, cells, texts),
            Err(refusal) => CallResult::refused(refusal),
        }
    }

    /// The first rows of a sequenced index, or of those behind a record, at most so many.
    fn list_page(
        &self,
        table: usize,
        index: usize,
        after: Option<u64>,
        limit: usize,
    ) -> Result<Page<'_>, Refusal>
        ensures rows { MatchResult result
            (λ p. meaning.list_by self.now.held table index after limit ≡ Ok (map (λ r. (r.0, r.1.now)) p.rows.items, p.more))
            (λ e. IsAnswer (Err e) (meaning.list_by self.now.held table index after limit)) }
        ensures few { IfOk result (λ p. length p.rows.items ≤ limit) }
    {
        let index = sequenced_index(schema_of(self.executor.database().catalog(), table)?, index)?;
        let database = self.executor.database();
        list(
            database,
            self.alloc,
            table,
            index,
            after,
            limit,
            &mut Steps::new(),
        )
    }

    /// Puts the rows of a sequenced index, or those behind a record, as `range` does.
    ///
    /// Refusals, in this order: `NoTable`, `Index`, `Kind`, `NoId` and `Memory`; then ids, cells and bytes stay as they are.
    pub fn list(
        &self,
        table: usize,
        index: usize,
        after: Option<u64>,
        ids: &mut [u64],
        cells: &mut [Cell],
        texts: &mut [u8],
    ) -> CallResult
        ensures { MayTellPage (meaning.list_by self.now.held table index after (page_limit ids.old)) result ids.old ids.new cells.old cells.new
            texts.old texts.new }
    {
        match self.list_page(table, index, after, page_limit(ids)) {
            Ok(page) => show_page(&page, ids, cells, texts),
            Err(refusal) => CallResult::refused(refusal),
        }
    }
}
