//! A journal's tables under another schema: the journal is asked to its end, its tables are put under the new schema, and a new journal begins with
//! them. It says what is dropped. Of the old journal it changes no file, but makes an empty one where none is.
ghost use Rattle.std.specs.Prelude.{◌≡◌, ◌⊎◌, true, None, Ok, is_some, map, IfOk, IfErr, OnOk};
ghost use Rattle.std.specs.List.{AllByRecursion};
ghost use Rattle.std.specs.String.{string_bytes};
ghost use Rattle.mi_catalog.specs.Shape.{CatalogShape, index_at};
ghost use Rattle.mi_container.specs.Restore.{image_table};
ghost use Rattle.mi_database.specs.LinkedData.{meaning};
ghost use Rattle.mi_database.specs.Restored.{restored_database};
ghost use Rattle.mi_program.specs.Source.{IsCatalog};
ghost use Rattle.mi_recovery.specs.declared.place.JournalSchema.{JournalSchema as SchemaOf};
ghost use Rattle.mi_rebase.specs.Rebase.{IsBegun};
ghost use Rattle.mi_reshape.specs.Catalogs.{tables_under as put_under, other_column};
ghost use Rattle.mi_reshape.specs.Reshaped.{column_at};
ghost use Rattle.mi_serving.specs.Moved.{part_name, failure_of_table, Tells, TellsType, TellsIndex, IsRestoreRefusal, IsRefusal, IsSettled, IsUnder, HasMoved};
ghost use Rattle.mi_serving.specs.Served.{IsSchemaOf};

use crate::beginning::{MOST_TRIES, copied, is_overtaken};
use crate::failure::{Failure, Fault};
use crate::move_words::MoveWords;
use crate::source::{Source, catalog};
use crate::start::{Tables, journal_schema, standing};
use crate::words::{JournalWords, Options};
use mi_catalog::{Catalog, Schema};
use mi_container::{RestoreFault, TableImage};
use mi_database::{DatabaseFault, Linked};
use mi_hub::Hub;
use mi_program::drawn;
use mi_rebase::{Imaged, begun_with, settled};
use mi_recovery::{Asked, JournalFile, JournalFiles, JournalSchema};
use mi_reshape::{CatalogFault, DroppedPart, dropped, reshaped_all};
use mi_sessions::Sessions;
use std::alloc::{AllocError, AllocGlobal, Global};
use std::fs::File;
use std::io;
use std::io::Write;
use std::random::RandomSource;
use std::rt::Files;

/// The schema of a table, where the catalog has one of this number.
fn table_of(catalog: &Catalog, table: usize) -> Option<&Schema> {
    if table < catalog.table_count() {
        Some(catalog.table(table))
    } else {
        None
    }
}

/// The name of a column, or the empty text beyond the last one.
fn column_name(schema: &Schema, column: usize) -> &str
    ensures { result.now ≡ (column_at schema.now column).name }
{
    match schema.columns().get(column) {
        Some(column) => column.name.as_str(),
        None => "",
    }
}

/// The name of an index, or the empty text beyond the last one.
fn index_name(schema: &Schema, index: usize) -> &str
    ensures { result.now ≡ (index_at schema.now index).name }
{
    match schema.indexes().get(index) {
        Some(index) => index.name.as_str(),
        None => "",
    }
}

/// How a part of a table is called: `accounts.balance`.
fn name_of_part(alloc: Global, table: &str, part: &str) -> Result<String, AllocError>
    ensures { IfOk result (λ name. string_bytes name ≡ part_name table.now part.now) }
{
    let mut name = String::from_str(alloc, table)?;
    name.push_str(".")?;
    name.push_str(part)?;
    Ok(name)
}

/// A failure that is about a part of a table: a column or an index. It is `Memory` where no memory is there for the part's name.
fn about_part(alloc: Global, failure: Failure, table: &str, part: &str) -> Fault
    ensures { (result.failure ≡ Failure.Memory) ⊎ ((result.failure ≡ failure) × Tells result (part_name table.now part.now)) }
{
    match name_of_part(alloc, table, part) {
        Ok(name) => Fault::from(failure).about(alloc, name.as_str()),
        Err(_refused) => Fault::from(Failure::Memory),
    }
}

/// What a table breaks of its new schema. What a unique index refuses tells the index, another fault the table.
fn table_fault(alloc: Global, schema: &Schema, fault: RestoreFault) -> Fault
    ensures failure { (result.failure ≡ Failure.Memory) ⊎ (result.failure ≡ failure_of_table fault) }
    ensures rows { TellsIndex schema.now fault result }
{
    match fault {
        RestoreFault::Unique { index, .. } => {
            let index = index_name(schema, index);
            about_part(alloc, Failure::of_table(fault), schema.table_name(), index)
        }
        RestoreFault::Memory => Fault::from(Failure::Memory),
        other => Fault::from(Failure::of_table(other)).about(alloc, schema.table_name()),
    }
}

/// Images of a database's tables, put under another catalog.
///
/// `MovedType` where a column has another type, and `Memory`.
fn images_under<D: Imaged>(
    alloc: Global,
    database: &D,
    to: &Catalog,
) -> Result<Vec<TableImage>, Fault>
    ensures tables { IfOk result (λ made. map image_table made.items ≡ put_under (D.state database.now).catalog to.now (D.state database.now).tables) }
    ensures types { OnOk result (AllByRecursion (λ s. other_column (D.state database.now).catalog s ≡ None) to.now.tables) }
    ensures refused { IfErr result (λ fault. (fault.failure ≡ Failure.Memory)
        ⊎ ((fault.failure ≡ Failure.MovedType) × TellsType (D.state database.now).catalog to.now fault)) }
{
    let Ok(images) = database.images(alloc) else {
        return Err(Fault::from(Failure::Memory));
    };
    match reshaped_all(alloc, database.catalog(), to, images) {
        Ok(made) => Ok(made),
        Err(CatalogFault::Column { table, column }) => {
            let schema = to.table(table);
            let column = column_name(schema, column);
            Err(about_part(alloc, Failure::MovedType, schema.table_name(), column))
        }
        Err(CatalogFault::Memory) => Err(Fault::from(Failure::Memory)),
    }
}

/// The database of a catalog that has these tables, at that revision.
///
/// `MovedUnique` where two rows have one key in a unique index, `MovedFull` where a table has more rows than its schema allows, `MovedTable` where it
/// breaks another rule of that, and `Memory`.
fn restored_under<R: AllocGlobal + RandomSource>(
    rt: &R,
    to: &Catalog,
    images: Vec<TableImage>,
    revision: u64,
) -> Result<Tables, Fault>
    ensures is { IfOk result (λ tables. meaning tables ≡ restored_database to.now images.items revision) }
    ensures refused { IfErr result (IsRestoreRefusal to.now (map image_table images.items)) }
{
    let alloc = rt.alloc();
    let Ok(catalog) = to.copy(alloc) else {
        return Err(Fault::from(Failure::Memory));
    };
    match Linked::restored(alloc, catalog, drawn(rt), images, revision) {
        Ok(tables) => Ok(tables),
        Err(DatabaseFault::Table { table, fault }) => {
            Err(table_fault(alloc, to.table(table), fault))
        }
        Err(DatabaseFault::Tables | DatabaseFault::Revision) => {
            Err(Fault::from(Failure::MovedTable))
        }
    }
}

/// The tables of a database, put under another catalog, at its revision. The failures are those of `images_under` and `restored_under`.
fn tables_under<R: AllocGlobal + RandomSource, D: Imaged>(
    rt: &R,
    database: &D,
    to: &Catalog,
) -> Result<Tables, Fault>
    ensures is { IfOk result (λ tables. IsUnder (D.state database.now) to.now (meaning tables)) }
    ensures refused { IfErr result (IsRefusal (D.state database.now) to.now) }
{
    let images = images_under(rt.alloc(), database, to)?;
    restored_under(rt, to, images, database.revision())
}

/// Writes the line of a part that is dropped: its table, and its column where it is one.
fn write_part<W: Write>(output: &mut W, from: &Catalog, part: DroppedPart) -> io::Result<()> {
    let Some(schema) = table_of(from, part.table) else {
        return Ok(());
    };
    let table = schema.table_name();
    match part.column {
        Some(column) => {
            let column = column_name(schema, column);
            writeln!(output, "dropped: {table}.{column}")
        }
        None => writeln!(output, "dropped: {table}"),
    }
}

/// Writes a line for each part that is dropped.
fn write_parts<W: Write>(output: &mut W, from: &Catalog, parts: &[DroppedPart]) -> io::Result<()> {
    for part in parts {
        write_part(output, from, *part)?;
    }
    output.flush()
}

/// Says what is dropped of a catalog's tables under another catalog. No clause says what was written.
fn tell_dropped<W: Write>(
    alloc: Global,
    from: &Catalog,
    to: &Catalog,
    output: &mut W,
) -> Result<(), Failure> {
    let Ok(parts) = dropped(alloc, from, to) else {
        return Err(Failure::Memory);
    };
    match write_parts(output, from, parts.as_slice()) {
        Ok(()) => Ok(()),
        Err(_error) => Err(Failure::Output),
    }
}

/// Begins a journal at a path with the tables of a database. A failure tells this path.
fn begin<P: JournalFiles, D: Imaged>(
    alloc: Global,
    files: &P,
    path: &str,
    database: &D,
) -> Result<(), Fault>
    ensures { OnOk result ((schema : SchemaOf) × IsSchemaOf (D.state database.now).catalog schema
        × IsBegun (λ file. P.File.is_locked file ≡ true) (P.is_seen files.now) (P.is_newest files.now path.now) P.File.contents P.File.stays path.now schema
        (D.state database.now)) }
{
    let Ok(schema) = journal_schema(alloc, database.catalog()) else {
        return Err(Fault::from(Failure::Memory));
    };
    match begun_with(alloc, files, path, &schema, database) {
        Ok(()) => Ok(()),
        Err(fault) => Err(Fault::from(fault).about(alloc, path)),
    }
}

/// The tables that the journal which the words name has at its end, where no session is open, and its newest segment, which this process has. It is read
/// once.
fn settled_once<R: AllocGlobal + RandomSource, P: JournalFiles>(
    rt: &R,
    files: &P,
    journal: &JournalWords,
    from: &Catalog,
    schema: &JournalSchema,
) -> Result<(Hub<Tables>, Asked<P::File>), Fault>
    ensures { IfOk result (λ r. IsSettled (λ file. P.File.is_locked file ≡ true) (P.is_seen files.now) (P.is_newest files.now) P.File.contents
        from.now journal.now schema.now r.1 r.0.held) }
{
    let catalog = copied(rt.alloc(), from)?;
    let (hub, position) = standing(rt, files, Some(journal), catalog, schema)?;
    let mut hub = hub;
    let path = journal.file.as_str();
    let asked = settled(rt.alloc(), files, &mut hub, path, schema, position.as_ref())?;
    Ok((hub, asked))
}

/// The same. Where a segment is taken away before it was asked, and a base has it, all is read again, up to 16 times.
fn settled_tables<R: AllocGlobal + RandomSource, P: JournalFiles>(
    rt: &R,
    files: &P,
    journal: &JournalWords,
    from: &Catalog,
    schema: &JournalSchema,
) -> Result<(Hub<Tables>, Asked<P::File>), Fault>
    ensures { IfOk result (λ r. IsSettled (λ file. P.File.is_locked file ≡ true) (P.is_seen files.now) (P.is_newest files.now) P.File.contents
        from.now journal.now schema.now r.1 r.0.held) }
{
    for _try in 1..MOST_TRIES {
        match settled_once(rt, files, journal, from, schema) {
            Ok(found) => return Ok(found),
            Err(fault) => {
                if !is_overtaken(rt.alloc(), files, Some(journal), from, schema, &fault) {
                    return Err(fault);
                }
            }
        }
    }
    settled_once(rt, files, journal, from, schema)
}

/// Puts the tables of a journal under another catalog: a journal at that path begins with them. The old journal is asked to its end, and this process
/// alone has it meanwhile. None of its files changes; where none is there, an empty one is made, and the new journal has empty tables. What is dropped
/// is said before that begins.
///
/// | Failure | When |
/// |---|---|
/// | those of a start, and `JournalSessions` | the old journal can't be read or has open sessions, or another process has it |
/// | `MovedType` | a column has another type in the old schema |
/// | `MovedUnique`, `MovedFull`, `MovedTable` | a table breaks a rule of its new schema |
/// | `Output` | what is dropped can't be said |
/// | `JournalFile`, `Journal`, `JournalLocked`, about the new path | a journal is there, or it can't be written |
/// | `Memory` | memory was refused |
///
/// With each of the first four the new journal has no file.
pub(crate) fn moved<R: AllocGlobal + RandomSource, P: JournalFiles, W: Write>(
    rt: &R,
    files: &P,
    journal: &JournalWords,
    from: Catalog,
    to: &Catalog,
    path: &str,
    output: &mut W,
) -> Result<(), Fault>
    ensures { OnOk result (HasMoved (λ file. P.File.is_locked file ≡ true) (P.is_seen files.now) (P.is_newest files.now) P.File.contents P.File.stays
        from to.now journal.now path.now) }
{
    let alloc = rt.alloc();
    let Ok(schema) = journal_schema(alloc, &from) else {
        return Err(Fault::from(Failure::Memory));
    };
    let (hub, _asked) = settled_tables(rt, files, journal, &from, &schema)?;
    let tables = tables_under(rt, hub.database(), to)?;
    tell_dropped(alloc, hub.database().catalog(), to, output)?;
    begin(alloc, files, path, &tables)
}

/// The catalog that the new schema's file describes. A failure tells that file.
fn new_catalog<R: Files + AllocGlobal>(rt: &R, file: &str) -> Result<Catalog, Fault>
    ensures { IfOk result (λ to. IsCatalog R.File.remaining true (Ok to)) }
{
    match catalog(rt, Some(file)) {
        Ok(Source { catalog, .. }) => Ok(catalog),
        Err(fault) => Err(fault.about(rt.alloc(), file)),
    }
}

/// Puts the journal that the words name under the schema that the words for it name.
pub(crate) fn move_journal<R: Files + AllocGlobal + RandomSource, P: JournalFiles, W: Write>(
    rt: &R,
    files: &P,
    options: &Options,
    journal: &JournalWords,
    words: &MoveWords,
    output: &mut W,
) -> Result<(), Fault>
    ensures { OnOk result ((from : CatalogShape) × IsCatalog R.File.remaining (is_some options.now.schema) (Ok from)
        × (to : CatalogShape) × IsCatalog R.File.remaining true (Ok to)
        × HasMoved (λ file. P.File.is_locked file ≡ true) (P.is_seen files.now) (P.is_newest files.now) P.File.contents P.File.stays from to journal.now
        (string_bytes words.now.file)) }
{
    let Source { catalog: from, .. } = catalog(rt, options.schema.as_deref())?;
    let to = new_catalog(rt, words.schema.as_str())?;
    moved(rt, files, journal, from, &to, words.file.as_str(), output)
}
