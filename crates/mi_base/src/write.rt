//! The text of a base, written behind what a writer has: heading, tables, digest. A line is in memory at a time.
ghost use Rattle.std.specs.Prelude.{◌≡◌, ◌++◌, IfOk, OnOk, [], ◌∷◌, ℕ, List, map, drop, length};
ghost use Rattle.std.specs.Io.KnownBytes.{Appends};
ghost use Rattle.sha2.specs.Hashers.{Holds256};
ghost use Rattle.mi_container.specs.Restore.{image_table};
ghost use Rattle.mi_base.specs.Lines.{line_text};
ghost use Rattle.mi_base.specs.Base.{row_data, list_data, head_of, head_data, heading_data, table_lines, tables_lines, digest_data, base_text};
ghost use Rattle.mi_base.specs.Writes.{Puts};
ghost use Rattle.mi_base.specs.Reads.{ArePlain};

use crate::fault::WriteFault;
use crate::heading::{Head, Heading, digest_value};
use crate::line::{line_of, put_line};
use crate::lists::list_value;
use crate::rows::row_value;
use mi_catalog::{Catalog, Schema};
use mi_container::TableImage;
use mi_value::Record;
use sha2::{Digest, Sha256};
use std::alloc::Global;
use std::io::Write;

/// Writes a row.
fn put_row<W: Write>(
    alloc: Global,
    row: &(u64, Record),
    digest: &mut Sha256,
    out: &mut W,
) -> Result<(), WriteFault>
    ensures { OnOk result (Puts (W.contents out.old) (W.contents out.new) digest.old digest.new (row_data row.now ∷ [])) }
{
    let value = row_value(alloc, row.0, &row.1)?;
    put_line(alloc, &value, digest, out)
}

/// Writes rows.
fn put_rows<W: Write>(
    alloc: Global,
    rows: &[(u64, Record)],
    digest: &mut Sha256,
    out: &mut W,
) -> Result<(), WriteFault>
    ensures { OnOk result (Puts (W.contents out.old) (W.contents out.new) digest.old digest.new (map row_data rows.now)) }
{
    'rows: for row in rows {
        put_row(alloc, row, digest, out)?;
    }
    Ok(())
}

/// Writes a list of ids.
fn put_list<W: Write>(
    alloc: Global,
    ids: &[u64],
    digest: &mut Sha256,
    out: &mut W,
) -> Result<(), WriteFault>
    ensures { OnOk result (Puts (W.contents out.old) (W.contents out.new) digest.old digest.new (list_data ids.now ∷ [])) }
{
    let value = list_value(alloc, ids)?;
    put_line(alloc, &value, digest, out)
}

/// Writes lists of ids.
fn put_lists<W: Write>(
    alloc: Global,
    lists: &[Vec<u64>],
    digest: &mut Sha256,
    out: &mut W,
) -> Result<(), WriteFault>
    ensures { OnOk result (Puts (W.contents out.old) (W.contents out.new) digest.old digest.new (map (λ l. list_data l.items) lists.now)) }
{
    'lists: for list in lists {
        put_list(alloc, list.as_slice(), digest, out)?;
    }
    Ok(())
}

/// Writes the line in front of a table's rows.
fn put_head<W: Write>(
    alloc: Global,
    name: &str,
    head: Head,
    digest: &mut Sha256,
    out: &mut W,
) -> Result<(), WriteFault>
    ensures { OnOk result (Puts (W.contents out.old) (W.contents out.new) digest.old digest.new (head_data name.now head ∷ [])) }
{
    let value = head.to_value(alloc, name)?;
    put_line(alloc, &value, digest, out)
}

/// The lists behind the first.
fn others(lists: &[Vec<u64>]) -> &[Vec<u64>]
    ensures { result.now ≡ drop 1 lists.now }
{
    match lists.split_first() {
        Some((_ids, others)) => others,
        None => lists,
    }
}

/// Writes a table: its numbers, its rows, and the lists of all indexes but the first.
fn put_image<W: Write>(
    alloc: Global,
    schema: &Schema,
    image: &TableImage,
    digest: &mut Sha256,
    out: &mut W,
) -> Result<(), WriteFault>
    ensures { OnOk result (Puts (W.contents out.old) (W.contents out.new) digest.old digest.new (table_lines schema.now (image_table image.now))) }
{
    let head = Head {
        arrivals: image.arrivals,
        next: image.next,
        rows: image.rows.as_slice().len() as u64,
    };
    put_head(alloc, schema.table_name(), head, digest, out)?;
    put_rows(alloc, image.rows.as_slice(), digest, out)?;
    put_lists(alloc, others(image.lists.as_slice()), digest, out)
}

/// Writes the images of all tables of a catalog, of which there is one a table.
fn put_tables<W: Write>(
    alloc: Global,
    catalog: &Catalog,
    images: &[TableImage],
    digest: &mut Sha256,
    out: &mut W,
) -> Result<(), WriteFault>
    requires { length images.now ≡ length catalog.now.tables }
    ensures { OnOk result (Puts (W.contents out.old) (W.contents out.new) digest.old digest.new (tables_lines catalog.now.tables (map image_table images.now))) }
{
    'tables: for (table, image) in images.iter().enumerate() {
        put_image(alloc, catalog.table(table), image, digest, out)?;
    }
    Ok(())
}

/// Writes the heading.
fn put_heading<W: Write>(
    alloc: Global,
    heading: &Heading,
    digest: &mut Sha256,
    out: &mut W,
) -> Result<(), WriteFault>
    ensures { OnOk result (Puts (W.contents out.old) (W.contents out.new) digest.old digest.new (heading_data heading.now ∷ [])) }
{
    let value = heading.to_value(alloc)?;
    put_line(alloc, &value, digest, out)
}

/// Writes the digest of all that was hashed.
fn put_digest<W: Write>(alloc: Global, digest: Sha256, out: &mut W) -> Result<(), WriteFault>
    ensures { OnOk result ((front : List ℕ) → Holds256 digest front → Appends (W.contents out.old) (W.contents out.new) (line_text (digest_data front))) }
{
    let value = digest_value(alloc, &digest.finalize())?;
    let line = line_of(alloc, &value)?;
    match out.write_all(line.as_bytes()) {
        Ok(()) => Ok(()),
        Err(_error) => Err(WriteFault::Write),
    }
}

/// Writes the base of these images, one for each table of the catalog in its order, behind what the writer has: a heading, the tables, and a
/// digest. It writes a line at a time.
///
/// `Memory` where memory is refused, and `Write` where a write fails; then nothing is said of what was written.
pub fn write_base<W: Write>(
    alloc: Global,
    catalog: &Catalog,
    heading: &Heading,
    images: &[TableImage],
    out: &mut W,
) -> Result<(), WriteFault>
    requires { length images.now ≡ length catalog.now.tables }
    ensures text { OnOk result (Appends (W.contents out.old) (W.contents out.new) (base_text heading.now catalog.now (map image_table images.now))) }
    ensures plain { OnOk result (ArePlain heading.now catalog.now (map image_table images.now)) }
{
    let mut digest = Sha256::new();
    put_heading(alloc, heading, &mut digest, out)?;
    put_tables(alloc, catalog, images, &mut digest, out)?;
    put_digest(alloc, digest, out)
}
