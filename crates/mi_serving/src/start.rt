//! What a service begins with: the tables that its journal's base has, or where it has none those that its catalog opens with. It reads the base, and
//! changes no file.
ghost use Rattle.std.specs.Prelude.{◌≡◌, IfOk, IfSome, option_map};
ghost use Rattle.std.specs.String.{string_bytes};
ghost use Rattle.mi_container.specs.Restore.{image_table};
ghost use Rattle.mi_database.specs.Restored.{restored_database};
ghost use Rattle.mi_serving.specs.Served.{empty_hub, hub_over, IsSchemaOf, IsNamed, HasBase, StandsAt, path_of};

use crate::failure::{Failure, Fault};
use crate::words::JournalWords;
use mi_base::Heading;
use mi_catalog::Catalog;
use mi_container::{RestoreFault, TableImage};
use mi_database::{DatabaseFault, Linked};
use mi_hub::Hub;
use mi_multi::MultiIndex;
use mi_program::drawn;
use mi_rebase::{Base, base_of};
use mi_recovery::{JournalFiles, JournalSchema, Position, fingerprint};
use std::alloc::{AllocError, AllocGlobal, Global};
use std::random::RandomSource;

/// The database that is served.
pub(crate) type Tables = Linked<MultiIndex>;

/// What tells the schema of a catalog's journal.
pub(crate) fn journal_schema(alloc: Global, catalog: &Catalog) -> Result<JournalSchema, AllocError>
    ensures { IfOk result (λ schema. IsSchemaOf catalog.now schema) }
{
    let hash = fingerprint(alloc, catalog)?;
    Ok(JournalSchema {
        revision: catalog.first_revision(),
        hash,
    })
}

/// Where a base's heading says that it stands.
fn position_of(heading: Heading) -> Position
    ensures { IsNamed heading result }
{
    Position {
        segment: heading.segment,
        line: heading.line,
        sum: heading.sum,
    }
}

/// Why no tables are made of a base that was read: memory was refused, or it is none.
fn failure_of(fault: DatabaseFault) -> Failure {
    match fault {
        DatabaseFault::Table {
            fault: RestoreFault::Memory,
            ..
        } => Failure::Memory,
        _ => Failure::JournalBase,
    }
}

/// The tables of a catalog, none of which has a list, under a hub with no connection. The failure is `Memory`.
fn open_tables<R: AllocGlobal + RandomSource>(
    rt: &R,
    catalog: Catalog,
) -> Result<Hub<Tables>, Failure>
    ensures { IfOk result (λ hub. hub ≡ empty_hub catalog) }
{
    match Linked::new(rt.alloc(), catalog, drawn(rt)) {
        Ok(tables) => Ok(Hub::new(rt.alloc(), tables)),
        Err(_refused) => Err(Failure::Memory),
    }
}

/// The tables that these images are, at that revision, under a hub with no connection. `JournalBase` where they are none of the catalog.
fn restored_tables<R: AllocGlobal + RandomSource>(
    rt: &R,
    catalog: Catalog,
    images: Vec<TableImage>,
    revision: u64,
) -> Result<Hub<Tables>, Failure>
    ensures { IfOk result (λ hub. hub ≡ hub_over (restored_database catalog images.items revision)) }
{
    match Linked::restored(rt.alloc(), catalog, drawn(rt), images, revision) {
        Ok(tables) => Ok(Hub::new(rt.alloc(), tables)),
        Err(fault) => Err(failure_of(fault)),
    }
}

/// The base of the journal that the words name, where they name one and it has one.
pub(crate) fn read_base<P: JournalFiles>(
    alloc: Global,
    files: &P,
    journal: Option<&JournalWords>,
    catalog: &Catalog,
    schema: &JournalSchema,
) -> Result<Option<Base>, Fault>
    ensures { IfOk result (λ found. IfSome found (λ base. HasBase (P.is_seen files.now) P.File.contents catalog.now (string_bytes schema.now.hash)
        (path_of (option_map (λ words. words.now) journal.entry)) base.heading base.images.items)) }
{
    let Some(words) = journal else {
        return Ok(None);
    };
    let found = base_of(
        alloc,
        files,
        words.file.as_str(),
        catalog,
        schema.hash.as_str(),
    )?;
    Ok(found)
}

/// The tables with which a service begins, under a hub with no connection, and behind which line of its journal they stand, where that has a base.
///
/// `JournalBase` where the base is torn, or one of another schema, or its tables break a rule of this one; `JournalFile` where it can't be read.
pub(crate) fn standing<R: AllocGlobal + RandomSource, P: JournalFiles>(
    rt: &R,
    files: &P,
    journal: Option<&JournalWords>,
    catalog: Catalog,
    schema: &JournalSchema,
) -> Result<(Hub<Tables>, Option<Position>), Fault>
    ensures { IfOk result (λ r. StandsAt (P.is_seen files.now) P.File.contents catalog (string_bytes schema.now.hash)
        (path_of (option_map (λ words. words.now) journal.entry)) r.1 r.0) }
{
    match read_base(rt.alloc(), files, journal, &catalog, schema)? {
        Some(Base { heading, images }) => {
            let hub = restored_tables(rt, catalog, images, heading.revision)?;
            Ok((hub, Some(position_of(heading))))
        }
        None => Ok((open_tables(rt, catalog)?, None)),
    }
}
