//! A journal that begins with the tables of a database: its base is written, and then its first segment is made, which has no line. It looks at no
//! other journal.
ghost use Rattle.std.specs.Prelude.{◌≡◌, [], true, None, OnOk, IfOk};
ghost use Rattle.mi_base.specs.declared.heading.Heading.{Heading};
ghost use Rattle.mi_recovery.specs.Segments.{IsStart};
ghost use Rattle.mi_rebase.specs.Rebase.{IsHeadingAt, IsWritten, IsMade, IsBegun};

use crate::claiming::claim_new_base;
use crate::images::Imaged;
use crate::writing::{put_in_place, write_at};
use mi_recovery::{
    JournalFailure, JournalFault, JournalFile, JournalFiles, JournalSchema, Place, first_place,
    next_segment,
};
use std::alloc::Global;
use std::io::{Error, ErrorKind};

/// No segment of a journal is there at a path. `File` where one is.
fn check_nothing<P: JournalFiles>(files: &P, path: &str) -> Result<(), JournalFault>
    ensures { OnOk result (P.is_newest files.now path.now 0) }
{
    match files.newest(path) {
        Ok(0) => Ok(()),
        Ok(_number) => Err(JournalFault::of(
            JournalFailure::File,
            Error::new(ErrorKind::AlreadyExists, "a journal is there"),
        )),
        Err(error) => Err(JournalFault::of(JournalFailure::File, error)),
    }
}

/// Where the first segment of a schema's journal stands.
fn beginning(alloc: Global, schema: &JournalSchema) -> Result<Place, JournalFault>
    ensures { IfOk result (λ place. IsStart schema.now None place) }
{
    match first_place(alloc, schema) {
        Ok(place) => Ok(place),
        Err(_refused) => Err(JournalFault::from(JournalFailure::Memory)),
    }
}

/// Writes the base of a database that stands at a place, and puts it where the base of a path's journal is.
fn put_base<P: JournalFiles, D: Imaged>(
    alloc: Global,
    files: &P,
    path: &str,
    schema: &JournalSchema,
    place: &Place,
    database: &D,
) -> Result<(), JournalFault>
    ensures { OnOk result ((heading : Heading) × IsHeadingAt schema.now (D.state database.now).revision place.now heading
        × IsWritten (λ file. P.File.is_locked file ≡ true) (P.is_seen files.now) P.File.contents P.File.stays path.now heading (D.state database.now)) }
{
    let new = claim_new_base(alloc, files, path)?;
    let new = write_at(alloc, files, path, schema, place, database, new)?;
    put_in_place(alloc, files, path, new)
}

/// Makes the segment that stands at a place, with its header and no line, which stay.
fn make_segment<P: JournalFiles>(
    alloc: Global,
    files: &P,
    path: &str,
    place: &Place,
) -> Result<(), JournalFault>
    ensures { OnOk result (IsMade (λ file. P.File.is_locked file ≡ true) P.File.contents P.File.stays place.now) }
{
    let _log = next_segment(alloc, files, path, place)?;
    Ok(())
}

/// Begins a journal at a path with the tables of a database, at its revision. Its base stands in front of segment 1. First the base is written, and
/// put where the journal's base is; then segment 1 is made, and has no line.
///
/// `File` where a segment of a journal is there at the path; then nothing is written. `File` and `Write` where a file can't be opened, made, written,
/// renamed or made to stay, `Memory`; and `Locked` where another process was quicker. Then a base may be there without its segment, or with a segment
/// that lacks its header. A start refuses such a journal by `Base`. Where the segment's file is there it has to be taken away before this is done again.
///
/// The clause says what was written. It doesn't say that the base took its place, in which order this was done, or under which path the segment was
/// made: no file's path and no rename has a clause.
pub fn begun_with<P: JournalFiles, D: Imaged>(
    alloc: Global,
    files: &P,
    path: &str,
    schema: &JournalSchema,
    database: &D,
) -> Result<(), JournalFault>
    ensures { OnOk result (IsBegun (λ file. P.File.is_locked file ≡ true) (P.is_seen files.now) (P.is_newest files.now path.now) P.File.contents
        P.File.stays path.now schema.now (D.state database.now)) }
{
    check_nothing(files, path)?;
    let place = beginning(alloc, schema)?;
    put_base(alloc, files, path, schema, &place, database)?;
    make_segment(alloc, files, path, &place)?;
    Ok(())
}
