//! Where the catalog and its text come from: the built-in schema or a file, which is read whole.
ghost use Rattle.std.specs.Prelude.{◌≡◌, ◌≤◌, ◌∷◌, [], true, Ok, is_some, length, IfOk, IfSome};
ghost use Rattle.mi_value.specs.declared.limits.TheConstants.{MAX_SCHEMA_FILE as most_bytes};
ghost use Rattle.mi_catalog.specs.Accounts.{accounts};
ghost use Rattle.mi_schema.specs.Reading.{catalog_read};
ghost use Rattle.mi_program.specs.Source.{IsRead, IsCatalog};
ghost use Rattle.mi_clients.specs.SchemaText.{schema_line};
ghost use Rattle.mi_clients.specs.ServiceLines.{line_of};
ghost use Rattle.mi_serving.specs.SchemaSource.{TellsText};

use crate::failure::{Failure, Fault};
use mi_clients::SchemaLine;
use mi_program::whole_text;
use mi_schema::{Catalog, SchemaFault, built_in, read_catalog};
use std::alloc::{AllocError, Global};
use std::fs;
use std::io::Read;
use std::rt::Files;

/// The text of the built-in schema.
pub const BUILT_IN: &str = "table = \"accounts\"

[[column]]
name = \"owner\"
type = \"text\"

[[column]]
name = \"balance\"
type = \"int\"

[[column]]
name = \"vip\"
type = \"flag\"

[[index]]
name = \"by_owner\"
kind = \"hashed\"
unique = true
key = [\"owner\"]

[[index]]
name = \"by_balance\"
kind = \"ranked\"
key = [\"balance\"]

[[index]]
name = \"by_vip\"
kind = \"hashed\"
key = [\"vip\"]

[[index]]
name = \"by_class\"
kind = \"ordered\"
key = [\"-vip\", \"balance\"]

[[index]]
name = \"line\"
kind = \"sequenced\"
";

/// A catalog, and the line that tells the text it was read from.
#[derive(Drop)]
pub struct Source {
    /// What is described.
    pub catalog: Catalog,
    /// The line that tells the text.
    pub line: SchemaLine,
}

/// The catalog of the built-in schema.
fn built_in_catalog(alloc: Global) -> Result<Catalog, AllocError>
    ensures { IfOk result (λ c. c ≡ record { tables = accounts ∷ []; first_revision = 0 }) }
{
    Catalog::of(alloc, built_in(alloc)?)
}

/// All bytes of a schema's file, as the program reads them.
fn file_text<R: Read + Drop>(alloc: Global, file: R) -> Result<Vec<u8>, Failure>
    ensures { IfOk result (λ text. IfSome (R.remaining file) (λ bytes. (text.items ≡ bytes) × (length bytes ≤ most_bytes))) }
{
    match whole_text(alloc, file) {
        Ok(text) => Ok(text),
        Err(mi_program::Failure::Schema(_refused)) => Err(Failure::Memory),
        Err(_other) => Err(Failure::SchemaFile),
    }
}

/// The catalog that a text of a file's length describes.
fn described(alloc: Global, text: &[u8]) -> Result<Catalog, Failure>
    ensures { IfOk result (λ catalog. catalog_read text.now ≡ Ok catalog) }
{
    match read_catalog(alloc, text) {
        Ok(catalog) => Ok(catalog),
        Err(fault) => Err(Failure::Schema(fault)),
    }
}

/// The line that tells a schema's text, which is UTF-8.
fn line_for(alloc: Global, text: &[u8]) -> Result<SchemaLine, Failure>
    ensures { IfOk result (λ line. line_of line ≡ schema_line text.now) }
{
    let Ok(text) = str::from_utf8(text) else {
        return Err(Failure::Schema(SchemaFault::Toml));
    };
    match SchemaLine::of(alloc, text) {
        Ok(line) => Ok(line),
        Err(_refused) => Err(Failure::Memory),
    }
}

/// The catalog that a file describes, and the line of its text.
fn catalog_in<R: Read + Drop>(alloc: Global, file: R) -> Result<Source, Failure>
    ensures catalog { IfOk result (λ source. IfSome (R.remaining file) (λ bytes. IsRead bytes (Ok source.catalog))) }
    ensures line { IfOk result (λ source. TellsText source.catalog (line_of source.line)) }
{
    let text = file_text(alloc, file)?;
    let catalog = described(alloc, text.as_slice())?;
    let line = line_for(alloc, text.as_slice())?;
    Ok(Source { catalog, line })
}

/// The catalog of the built-in schema, and the line of its text.
fn built_in_source(alloc: Global) -> Result<Source, Fault>
    ensures { IfOk result (λ source. source.catalog ≡ record { tables = accounts ∷ []; first_revision = 0 }) }
{
    let Ok(catalog) = built_in_catalog(alloc) else {
        return Err(Fault::from(Failure::Schema(SchemaFault::Memory)));
    };
    let line = line_for(alloc, BUILT_IN.as_bytes())?;
    Ok(Source { catalog, line })
}

/// The catalog of the named file, or the built-in one where none is named, and the line that tells the text of it.
pub fn catalog<R: Files + AllocGlobal>(rt: &R, file: Option<&str>) -> Result<Source, Fault>
    ensures catalog { IfOk result (λ source. IsCatalog R.File.remaining (is_some file.entry) (Ok source.catalog)) }
    ensures line { IfOk result (λ source. is_some file.entry ≡ true → TellsText source.catalog (line_of source.line)) }
{
    let alloc = rt.alloc();
    match file {
        Some(path) => match fs::open(rt, path) {
            Ok(opened) => Ok(catalog_in(alloc, opened)?),
            Err(error) => Err(Fault::of(Failure::SchemaFile, error)),
        },
        None => built_in_source(alloc),
    }
}
