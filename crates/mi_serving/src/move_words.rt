//! The words that put a journal under another schema: where the new journal is, and which schema it has.
ghost use Rattle.std.specs.Prelude.{◌≡◌, codes, IfOk};
ghost use Rattle.clap.specs.Words.{App, rows_of, found_of, first_of};
ghost use Rattle.mi_program.specs.Words.{HasOptions};
ghost use Rattle.mi_serving.specs.Words.{with_moving, IsMove};

use crate::words::{option, owned};
use clap::{ArgMatches, Command};
use mi_program::WordsFault;
use std::alloc::{AllocError, Global};

/// Where the tables of a journal are put under another schema.
#[derive(Drop)]
pub struct MoveWords {
    /// The file of the new journal.
    pub file: String,
    /// The file that the new schema is read from.
    pub schema: String,
}

/// A command, and the options that put a journal under another schema.
pub(crate) fn movable<'a>(alloc: Global, command: Command<'a>) -> Result<Command<'a>, AllocError>
    ensures { IfOk result (λ c. (app : App) → HasOptions command.entry app → HasOptions c (with_moving app)) }
{
    let with_path = command.arg(option(
        alloc,
        "rebase-to",
        "FILE",
        "Begins the journal FILE with the tables of the journal under the schema of --new-schema, and ends; nobody may serve it meanwhile",
    ))?;
    let with_schema = with_path.arg(option(
        alloc,
        "new-schema",
        "FILE",
        "Reads the schema of the journal that --rebase-to begins from this TOML file",
    ))?;
    Ok(with_schema)
}

/// Where a journal's tables are put under another schema, by the options that were matched. `Rules` where one of both options is missing.
pub(crate) fn move_words(
    alloc: Global,
    matches: &ArgMatches<'_>,
) -> Result<Option<MoveWords>, WordsFault>
    ensures { IfOk result (IsMove (first_of (codes "rebase-to") (rows_of (found_of matches.now)))
        (first_of (codes "new-schema") (rows_of (found_of matches.now)))) }
{
    let file = owned(alloc, matches.get_str("rebase-to"))?;
    let schema = owned(alloc, matches.get_str("new-schema"))?;
    match (file, schema) {
        (Some(file), Some(schema)) => Ok(Some(MoveWords { file, schema })),
        (None, None) => Ok(None),
        _ => Err(WordsFault::Rules),
    }
}
