//! A base out of a reader's bytes, over one catalog: each byte is the one that a writer of the same base gives.
ghost use Rattle.std.specs.Prelude.{◌≡◌, ◌++◌, ◌+◌, IfOk, IfErr, IfSome, OnOk, MatchResult, [], ◌∷◌, ℕ, List, map, take, drop, length, true};
ghost use Rattle.std.specs.List.{AllByRecursion, AllZip};
ghost use Rattle.sha2.specs.Hashers.{Holds256};
ghost use Rattle.serde_json.specs.View.{view};
ghost use Rattle.mi_catalog.specs.Key.{Row};
ghost use Rattle.mi_catalog.specs.Fits.{fits_record};
ghost use Rattle.mi_model.specs.Table.{Table};
ghost use Rattle.mi_container.specs.Restore.{image_table};
ghost use Rattle.mi_base.specs.declared.heading.Heading.{Heading as HeadingSpec};
ghost use Rattle.mi_base.specs.declared.heading.Head.{Head as HeadSpec};
ghost use Rattle.mi_base.specs.Lines.{line_text, lines_text, IsPlain};
ghost use Rattle.mi_base.specs.Base.{row_data, list_data, head_data, heading_data, table_lines, tables_lines, digest_data, base_text};
ghost use Rattle.mi_base.specs.Reads.{FitsRow, IsRead, IsImage, IsFormat, Reads, CanRead};
ghost use Rattle.mi_base.specs.Writes.{Hashes};
ghost use Rattle.mi_base.specs.Reader.{reader_of, digest_of, line_of, Takes};

use crate::fault::BaseFault;
use crate::heading::{Head, Heading};
use crate::lines::BaseLines;
use crate::lists::{ids_of, list_line, list_of, list_value, put, put_first};
use crate::rows::{row_of, row_value};
use mi_catalog::{Catalog, Schema};
use mi_container::TableImage;
use mi_value::Record;
use serde_json::Value;
use std::alloc::Global;
use std::io::BufRead;

/// The row that the line that was read last is, as JSON.
fn take_row<R>(
    alloc: Global,
    schema: &Schema,
    value: &Value,
    lines: &mut BaseLines<R>,
) -> Result<(u64, Record), BaseFault>
    ensures ok { IfOk result (λ r. line_of lines.old ≡ line_text (row_data r)) }
    ensures fits { IfOk result (λ r. fits_record schema.now.columns r.1 ≡ true) }
    ensures exact { (r : Row) → FitsRow schema.now r → view value.now ≡ row_data r → line_of lines.old ≡ line_text (row_data r)
        → MatchResult result (λ found. found ≡ r) (λ e. IsFormat e → ⊥) }
    ensures hashed { OnOk result (Hashes (digest_of lines.old) (digest_of lines.new) (line_of lines.old)) }
    ensures reader { reader_of lines.new ≡ reader_of lines.old }
{
    let Some(row) = row_of(alloc, schema, value)? else {
        return Err(lines.fault());
    };
    let written = row_value(alloc, row.0, &row.1)?;
    lines.accept(alloc, &written)?;
    Ok(row)
}

/// Reads a row.
fn read_row<R: BufRead>(
    alloc: Global,
    schema: &Schema,
    lines: &mut BaseLines<R>,
) -> Result<(u64, Record), BaseFault>
    ensures ok { IfOk result (λ r. Takes (R.remaining (reader_of lines.old)) (R.remaining (reader_of lines.new)) (digest_of lines.old) (digest_of lines.new) (row_data r ∷ [])) }
    ensures fits { IfOk result (λ r. fits_record schema.now.columns r.1 ≡ true) }
    ensures exact { Reads (λ r. line_text (row_data r)) (λ r. FitsRow schema.now r × IsPlain (row_data r)) (λ r a. r ≡ a)
        (R.remaining (reader_of lines.old)) (R.remaining (reader_of lines.new)) result }
{
    let value = lines.next_value(alloc)?;
    take_row(alloc, schema, &value, lines)
}

/// Reads so many rows.
fn read_rows<R: BufRead>(
    alloc: Global,
    schema: &Schema,
    count: u64,
    lines: &mut BaseLines<R>,
) -> Result<Vec<(u64, Record)>, BaseFault>
    ensures ok { IfOk result (λ rows. Takes (R.remaining (reader_of lines.old)) (R.remaining (reader_of lines.new)) (digest_of lines.old) (digest_of lines.new)
        (map row_data rows.items)) }
    ensures count { IfOk result (λ rows. length rows.items ≡ count) }
    ensures fits { IfOk result (λ rows. AllByRecursion (λ r. fits_record schema.now.columns r.1 ≡ true) rows.items) }
    ensures exact { Reads (λ rows. lines_text (map row_data rows))
        (λ rows. (length rows ≡ count) × (AllByRecursion (FitsRow schema.now) rows × AllByRecursion IsPlain (map row_data rows))) (λ rows a. rows.items ≡ a)
        (R.remaining (reader_of lines.old)) (R.remaining (reader_of lines.new)) result }
{
    let mut rows = Vec::new(alloc);
    'rows: for _row in 0..count {
        put(&mut rows, read_row(alloc, schema, lines)?)?;
    }
    Ok(rows)
}

/// The list of ids that the line that was read last is, as JSON.
fn take_list<R>(
    alloc: Global,
    value: &Value,
    lines: &mut BaseLines<R>,
) -> Result<Vec<u64>, BaseFault>
    ensures ok { IfOk result (λ ids. line_of lines.old ≡ line_text (list_data ids.items)) }
    ensures exact { (ids : List ℕ) → view value.now ≡ list_data ids → line_of lines.old ≡ line_text (list_data ids)
        → MatchResult result (λ found. found.items ≡ ids) (λ e. IsFormat e → ⊥) }
    ensures hashed { OnOk result (Hashes (digest_of lines.old) (digest_of lines.new) (line_of lines.old)) }
    ensures reader { reader_of lines.new ≡ reader_of lines.old }
{
    let Some(ids) = list_of(alloc, value)? else {
        return Err(lines.fault());
    };
    let written = list_value(alloc, ids.as_slice())?;
    lines.accept(alloc, &written)?;
    Ok(ids)
}

/// Reads a list of ids. It isn't parsed where it's that of ids whose line is known.
fn read_list<R: BufRead>(
    alloc: Global,
    ids: &[u64],
    known: &str,
    lines: &mut BaseLines<R>,
) -> Result<Vec<u64>, BaseFault>
    requires known { known.now ≡ line_text (list_data ids.now) }
    requires plain { IsPlain (list_data ids.now) }
    ensures ok { IfOk result (λ ids. Takes (R.remaining (reader_of lines.old)) (R.remaining (reader_of lines.new)) (digest_of lines.old) (digest_of lines.new) (list_data ids.items ∷ [])) }
    ensures exact { Reads (λ ids. line_text (list_data ids)) (λ ids. IsPlain (list_data ids)) (λ ids a. ids.items ≡ a)
        (R.remaining (reader_of lines.old)) (R.remaining (reader_of lines.new)) result }
{
    lines.advance()?;
    if lines.take_same(known) {
        return Ok(Vec::from_slice(alloc, ids)?);
    }
    let value = lines.value(alloc)?;
    take_list(alloc, &value, lines)
}

/// Reads so many lists.
fn read_lists<R: BufRead>(
    alloc: Global,
    count: usize,
    ids: &[u64],
    known: &str,
    lines: &mut BaseLines<R>,
) -> Result<Vec<Vec<u64>>, BaseFault>
    requires known { known.now ≡ line_text (list_data ids.now) }
    requires plain { IsPlain (list_data ids.now) }
    ensures ok { IfOk result (λ lists. Takes (R.remaining (reader_of lines.old)) (R.remaining (reader_of lines.new)) (digest_of lines.old) (digest_of lines.new)
        (map list_data (map (λ l. l.items) lists.items))) }
    ensures count { IfOk result (λ lists. length (map (λ l. l.items) lists.items) ≡ count) }
    ensures exact { Reads (λ ids. lines_text (map list_data ids))
        (λ ids. (length ids ≡ count) × (AllByRecursion (λ _. Unit {0}) ids × AllByRecursion IsPlain (map list_data ids)))
        (λ lists a. map (λ l. l.items) lists.items ≡ a)
        (R.remaining (reader_of lines.old)) (R.remaining (reader_of lines.new)) result }
{
    let mut lists = Vec::new(alloc);
    'lists: for _list in 0..count {
        put(&mut lists, read_list(alloc, ids, known, lines)?)?;
    }
    Ok(lists)
}

/// Reads so many lists behind rows. Many are those of the rows' ids, whose line is made once.
fn read_lists_of<R: BufRead>(
    alloc: Global,
    count: usize,
    rows: &[(u64, Record)],
    lines: &mut BaseLines<R>,
) -> Result<Vec<Vec<u64>>, BaseFault>
    ensures ok { IfOk result (λ lists. Takes (R.remaining (reader_of lines.old)) (R.remaining (reader_of lines.new)) (digest_of lines.old) (digest_of lines.new)
        (map list_data (map (λ l. l.items) lists.items))) }
    ensures count { IfOk result (λ lists. length (map (λ l. l.items) lists.items) ≡ count) }
    ensures exact { Reads (λ ids. lines_text (map list_data ids))
        (λ ids. (length ids ≡ count) × (AllByRecursion (λ _. Unit {0}) ids × AllByRecursion IsPlain (map list_data ids)))
        (λ lists a. map (λ l. l.items) lists.items ≡ a)
        (R.remaining (reader_of lines.old)) (R.remaining (reader_of lines.new)) result }
{
    let ids = ids_of(alloc, rows)?;
    let known = list_line(alloc, ids.as_slice())?;
    read_lists(alloc, count, ids.as_slice(), known.as_str(), lines)
}

/// The numbers in front of a table's rows that the line that was read last is, as JSON.
fn take_head<R>(
    alloc: Global,
    name: &str,
    value: &Value,
    lines: &mut BaseLines<R>,
) -> Result<Head, BaseFault>
    ensures ok { IfOk result (λ h. line_of lines.old ≡ line_text (head_data name.now h)) }
    ensures exact { (h : HeadSpec) → view value.now ≡ head_data name.now h → line_of lines.old ≡ line_text (head_data name.now h)
        → MatchResult result (λ found. found ≡ h) (λ e. IsFormat e → ⊥) }
    ensures hashed { OnOk result (Hashes (digest_of lines.old) (digest_of lines.new) (line_of lines.old)) }
    ensures reader { reader_of lines.new ≡ reader_of lines.old }
{
    let Some(head) = Head::of(value) else {
        return Err(lines.fault());
    };
    let written = head.to_value(alloc, name)?;
    lines.accept(alloc, &written)?;
    Ok(head)
}

/// Reads the numbers in front of the rows of the table of this name.
fn read_head<R: BufRead>(
    alloc: Global,
    name: &str,
    lines: &mut BaseLines<R>,
) -> Result<Head, BaseFault>
    ensures ok { IfOk result (λ h. Takes (R.remaining (reader_of lines.old)) (R.remaining (reader_of lines.new)) (digest_of lines.old) (digest_of lines.new) (head_data name.now h ∷ [])) }
    ensures exact { Reads (λ h. line_text (head_data name.now h)) (λ h. IsPlain (head_data name.now h)) (λ h a. h ≡ a)
        (R.remaining (reader_of lines.old)) (R.remaining (reader_of lines.new)) result }
{
    let value = lines.next_value(alloc)?;
    take_head(alloc, name, &value, lines)
}

/// Reads the image of a table of this schema.
fn read_table<R: BufRead>(
    alloc: Global,
    schema: &Schema,
    lines: &mut BaseLines<R>,
) -> Result<TableImage, BaseFault>
    ensures ok { IfOk result (λ image. Takes (R.remaining (reader_of lines.old)) (R.remaining (reader_of lines.new)) (digest_of lines.old) (digest_of lines.new)
        (table_lines schema.now (image_table image))) }
    ensures image { IfOk result (λ image. IsRead schema.now (image_table image)) }
    ensures exact { Reads (λ t. lines_text (table_lines schema.now t)) (λ t. IsImage schema.now t × AllByRecursion IsPlain (table_lines schema.now t))
        (λ image t. image_table image ≡ t) (R.remaining (reader_of lines.old)) (R.remaining (reader_of lines.new)) result }
{
    schema.keeps_rules();
    let head = read_head(alloc, schema.table_name(), lines)?;
    let rows = read_rows(alloc, schema, head.rows, lines)?;
    let mut lists = read_lists_of(alloc, schema.index_count() - 1, rows.as_slice(), lines)?;
    put_first(&mut lists, ids_of(alloc, rows.as_slice())?)?;
    Ok(TableImage {
        rows,
        lists,
        next: head.next,
        arrivals: head.arrivals,
    })
}

/// Reads the images of the tables from a number on, behind those that are there.
fn read_tables<R: BufRead>(
    alloc: Global,
    catalog: &Catalog,
    images: &mut Vec<TableImage>,
    lines: &mut BaseLines<R>,
) -> Result<(), BaseFault>
    requires { images.old.items ≡ [] }
    ensures ok { OnOk result (Takes (R.remaining (reader_of lines.old)) (R.remaining (reader_of lines.new)) (digest_of lines.old) (digest_of lines.new)
        (tables_lines catalog.now.tables (map image_table images.new.items))) }
    ensures images { OnOk result (AllZip IsRead catalog.now.tables (map image_table images.new.items)) }
    ensures exact { Reads (λ ts. lines_text (tables_lines catalog.now.tables ts))
        (λ ts. AllZip IsImage catalog.now.tables ts × AllByRecursion IsPlain (tables_lines catalog.now.tables ts))
        (λ _ ts. map image_table images.new.items ≡ ts) (R.remaining (reader_of lines.old)) (R.remaining (reader_of lines.new)) result }
{
    'tables: for table in 0..catalog.table_count() {
        put(images, read_table(alloc, catalog.table(table), lines)?)?;
    }
    Ok(())
}

/// The heading that the line that was read last is, as JSON.
fn take_heading<R>(
    alloc: Global,
    value: &Value,
    lines: &mut BaseLines<R>,
) -> Result<Heading, BaseFault>
    ensures ok { IfOk result (λ h. line_of lines.old ≡ line_text (heading_data h)) }
    ensures exact { (h : HeadingSpec) → view value.now ≡ heading_data h → line_of lines.old ≡ line_text (heading_data h)
        → MatchResult result (λ found. heading_data found ≡ heading_data h) (λ e. IsFormat e → ⊥) }
    ensures hashed { OnOk result (Hashes (digest_of lines.old) (digest_of lines.new) (line_of lines.old)) }
    ensures reader { reader_of lines.new ≡ reader_of lines.old }
{
    let Some(heading) = Heading::of(alloc, value)? else {
        return Err(lines.fault());
    };
    let written = heading.to_value(alloc)?;
    lines.accept(alloc, &written)?;
    Ok(heading)
}

/// Reads the heading.
fn read_heading<R: BufRead>(alloc: Global, lines: &mut BaseLines<R>) -> Result<Heading, BaseFault>
    ensures ok { IfOk result (λ h. Takes (R.remaining (reader_of lines.old)) (R.remaining (reader_of lines.new)) (digest_of lines.old) (digest_of lines.new) (heading_data h ∷ [])) }
    ensures exact { Reads (λ h. line_text (heading_data h)) (λ h. IsPlain (heading_data h)) (λ h a. heading_data h ≡ heading_data a)
        (R.remaining (reader_of lines.old)) (R.remaining (reader_of lines.new)) result }
{
    let value = lines.next_value(alloc)?;
    take_heading(alloc, &value, lines)
}

/// Reads the digest, behind which nothing stands.
fn read_end<R: BufRead>(alloc: Global, lines: &mut BaseLines<R>) -> Result<(), BaseFault>
    ensures ok { OnOk result ((front : List ℕ) → Holds256 (digest_of lines.old) front
        → IfSome (R.remaining (reader_of lines.old)) (λ bytes. bytes ≡ line_text (digest_data front))) }
    ensures exact { (front : List ℕ) → Holds256 (digest_of lines.old) front
        → IfErr result (λ e. IsFormat e → IfSome (R.remaining (reader_of lines.old)) (λ bytes. bytes ≡ line_text (digest_data front) → ⊥)) }
{
    lines.ends(alloc)?;
    lines.is_at_end()
}

/// Reads a whole base of a catalog: its heading, and the image of each table in the catalog's order. Each byte that was read is that of such a
/// base, up to the end. Of each table rows and lists are in memory, and one line more. The rows fit their columns; whether lists fit the
/// rows isn't looked at, which a restored container does.
///
/// `Read` where a read fails, and `Memory` where memory is refused. `Torn` where a line ends without a newline, or the last line isn't the digest of
/// those in front of it. `Line` where another line isn't one of a base of this catalog, or one follows the digest. Nothing is left then.
pub fn read_base<R: BufRead + Drop>(
    alloc: Global,
    catalog: &Catalog,
    reader: R,
) -> Result<(Heading, Vec<TableImage>), BaseFault>
    ensures bytes { IfOk result (λ p. IfSome (R.remaining reader) (λ bytes. bytes ≡ base_text p.0 catalog.now (map image_table p.1.items))) }
    ensures images { IfOk result (λ p. AllZip IsRead catalog.now.tables (map image_table p.1.items)) }
    ensures whole { IfSome (R.remaining reader) (λ bytes. (h : HeadingSpec) (ts : List Table) → CanRead catalog.now h ts → bytes ≡ base_text h catalog.now ts
        → MatchResult result (λ p. (heading_data p.0 ≡ heading_data h) × (map image_table p.1.items ≡ ts)) (λ e. IsFormat e → ⊥)) }
{
    let mut lines = BaseLines::new(alloc, reader);
    let heading = read_heading(alloc, &mut lines)?;
    let mut images = Vec::new(alloc);
    read_tables(alloc, catalog, &mut images, &mut lines)?;
    read_end(alloc, &mut lines)?;
    Ok((heading, images))
}
