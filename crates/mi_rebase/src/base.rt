//! The base beside a journal, read at a start. No file changes.
ghost use Rattle.std.specs.Prelude.{◌≡◌, map, IfOk, IfSome};
ghost use Rattle.std.specs.String.{string_bytes};
ghost use Rattle.mi_base.specs.Base.{base_text};
ghost use Rattle.mi_container.specs.Restore.{image_table};
ghost use Rattle.mi_recovery.specs.Names.{base_name};

use mi_base::{BaseFault, Heading, read_base};
use mi_catalog::Catalog;
use mi_container::TableImage;
use mi_recovery::{FileReader, JournalFailure, JournalFault, JournalFile, JournalFiles, base_path};
use std::alloc::Global;
use std::io::BufReader;

/// What a base has.
#[derive(Drop)]
pub struct Base {
    /// Behind which line it stands, and the revision there.
    pub heading: Heading,
    /// An image of each table of the catalog, in its order.
    pub images: Vec<TableImage>,
}

/// What is said of a base that can't be read.
fn failure_of(fault: BaseFault) -> JournalFailure {
    match fault {
        BaseFault::Read => JournalFailure::File,
        BaseFault::Memory => JournalFailure::Memory,
        BaseFault::Torn | BaseFault::Line(_) => JournalFailure::Base,
    }
}

/// The base that a file has, which is to be one of this schema. `Base` where it is none, or is torn.
fn base_in<F: JournalFile>(
    alloc: Global,
    file: &F,
    catalog: &Catalog,
    schema: &str,
) -> Result<Base, JournalFailure>
    ensures { IfOk result (λ base. (string_bytes base.heading.schema ≡ schema.now) × IfSome (F.contents file.now)
        (λ bytes. bytes ≡ base_text base.heading catalog.now (map image_table base.images.items))) }
{
    let Ok(reader) = BufReader::with_capacity(alloc, 65_536, FileReader::new(file)) else {
        return Err(JournalFailure::Memory);
    };
    match read_base(alloc, catalog, reader) {
        Ok((heading, images)) if heading.schema.as_str() == schema => Ok(Base { heading, images }),
        Ok(_another) => Err(JournalFailure::Base),
        Err(fault) => Err(failure_of(fault)),
    }
}

/// The base of the journal at a path, where there is one. It is one of this catalog, whose fingerprint is `schema`.
///
/// `Base` where it is torn, or one of another schema; `File` where it can't be opened or read; `Memory`.
pub fn base_of<P: JournalFiles>(
    alloc: Global,
    files: &P,
    path: &str,
    catalog: &Catalog,
    schema: &str,
) -> Result<Option<Base>, JournalFault>
    ensures { IfOk result (λ found. IfSome found (λ base. (string_bytes base.heading.schema ≡ schema.now) × (file : P.File)
        × P.is_seen files.now (base_name path.now) file × IfSome (P.File.contents file)
        (λ bytes. bytes ≡ base_text base.heading catalog.now (map image_table base.images.items)))) }
{
    let Ok(name) = base_path(alloc, path) else {
        return Err(JournalFault::from(JournalFailure::Memory));
    };
    match files.open_there(name.as_str()) {
        Ok(Some(file)) => Ok(Some(base_in(alloc, &file, catalog, schema)?)),
        Ok(None) => Ok(None),
        Err(error) => Err(JournalFault::of(JournalFailure::File, error)),
    }
}
