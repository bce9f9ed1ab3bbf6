//! Where the catalog comes from: the built-in schema or a file.
ghost use Rattle.std.specs.Prelude.{◌≡◌, ◌≤◌, ◌∷◌, [], is_some, length, IfOk, IfErr, IfSome};
ghost use Rattle.mi_value.specs.declared.limits.TheConstants.{MAX_SCHEMA_FILE as most_bytes};
ghost use Rattle.mi_catalog.specs.Accounts.{accounts};
ghost use Rattle.mi_program.specs.Source.{IsRead, IsUnread, IsCatalog};

use crate::failure::Failure;
use mi_schema::{Catalog, SchemaFault, built_in, read_catalog};
use mi_value::limits::MAX_SCHEMA_FILE;
use std::alloc::{AllocError, Global};
use std::io::{ErrorKind, Read};
use std::rt::Files;
use std::{fs, io};

/// The catalog of the built-in schema.
fn built_in_catalog(alloc: Global) -> Result<Catalog, AllocError>
    ensures { IfOk result (λ c. c ≡ record { tables = accounts ∷ []; first_revision = 0 }) }
{
    Catalog::of(alloc, built_in(alloc)?)
}

/// Why a file wasn't opened or read.
fn file_failure(error: &io::Error) -> Failure
    ensures { IsUnread result }
{
    match error.kind() {
        ErrorKind::OutOfMemory => Failure::Schema(SchemaFault::Memory),
        _other => Failure::SchemaFile,
    }
}

/// All bytes of a reader that has no more than a schema's file may have, 65,536.
///
/// `SchemaFile` where it has more or can't be read, `Schema` where memory was refused.
pub fn whole_text<R: Read + Drop>(alloc: Global, reader: R) -> Result<Vec<u8>, Failure>
    ensures ok { IfOk result (λ text. IfSome (R.remaining reader) (λ bytes. (text.items ≡ bytes) × (length bytes ≤ most_bytes))) }
    ensures err { IfErr result IsUnread }
{
    let mut text = Vec::new(alloc);
    let mut limited = reader.take(MAX_SCHEMA_FILE as u64 + 1);
    match limited.read_to_end(&mut text) {
        Ok(_count) => {
            if text.len() > MAX_SCHEMA_FILE {
                return Err(Failure::SchemaFile);
            }
            Ok(text)
        }
        Err(error) => Err(file_failure(&error)),
    }
}

/// The catalog that a text of a file's length describes.
fn described(alloc: Global, text: &[u8]) -> Result<Catalog, Failure>
    ensures { length text.now ≤ most_bytes → IsRead text.now result }
{
    Ok(read_catalog(alloc, text)?)
}

/// The catalog that a reader's text describes.
fn catalog_in<R: Read + Drop>(alloc: Global, reader: R) -> Result<Catalog, Failure>
    ensures { IfSome (R.remaining reader) (λ bytes. IsRead bytes result) }
{
    let text = whole_text(alloc, reader)?;
    described(alloc, text.as_slice())
}

/// The catalog of the named file, or the built-in one where none is named.
///
/// `SchemaFile` where the file can't be read or is too long, `Schema` where it is no schema or memory was refused.
pub fn catalog<R: Files + AllocGlobal>(rt: &R, file: Option<&str>) -> Result<Catalog, Failure>
    ensures { IsCatalog R.File.remaining (is_some file.entry) result }
{
    let alloc = rt.alloc();
    match file {
        Some(path) => match fs::open(rt, path) {
            Ok(opened) => catalog_in(alloc, opened),
            Err(error) => Err(file_failure(&error)),
        },
        None => built_in_catalog(alloc).map_err(|_| Failure::Schema(SchemaFault::Memory)),
    }
}
