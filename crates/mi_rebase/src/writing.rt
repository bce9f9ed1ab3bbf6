//! The base of a database, written: first to a file of its own, which then takes the place of the base before. It begins no segment.
ghost use Rattle.std.specs.Prelude.{◌≡◌, [], length, Some, map, true, List, OnOk, IfOk, IfSome};
ghost use Rattle.std.specs.Io.KnownBytes.{Appends, Keeps};
ghost use Rattle.mi_container.specs.Restore.{image_table};
ghost use Rattle.mi_model.specs.Table.{Table};
ghost use Rattle.mi_base.specs.declared.heading.Heading.{Heading};
ghost use Rattle.mi_base.specs.Base.{base_text};
ghost use Rattle.mi_recovery.specs.Names.{new_base_name};
ghost use Rattle.mi_rebase.specs.Images.{AreImagesOf};
ghost use Rattle.mi_rebase.specs.Rebase.{IsHeadingAt, IsWritten};

use crate::claiming::NewBase;
use crate::images::Imaged;
use mi_base::{Heading, WriteFault, write_base};
use mi_catalog::Catalog;
use mi_container::TableImage;
use mi_log::Device;
use mi_recovery::{
    FileWriter, JournalFailure, JournalFault, JournalFile, JournalFiles, JournalSchema, Place,
    base_path, check_name,
};
use sha2::{Digest, Sha256};
use std::alloc::{AllocError, Global};
use std::io::{BufWriter, Write};

/// What a base's first line says that stands at a place.
fn heading_at(
    alloc: Global,
    schema: &JournalSchema,
    revision: u64,
    place: &Place,
) -> Result<Heading, AllocError>
    ensures { IfOk result (λ heading. IsHeadingAt schema.now revision place.now heading) }
{
    Ok(Heading {
        schema: String::from_str(alloc, schema.hash.as_str())?,
        revision,
        segment: place.number,
        line: place.skip,
        sum: hex::encode(alloc, Sha256::digest(place.header.as_bytes()))?,
    })
}

/// A file that has nothing: it is emptied.
fn emptied<F: JournalFile + Drop>(file: F) -> Result<F, JournalFault>
    ensures { IfOk result (λ after. IfSome (F.contents file) (λ _. F.contents after ≡ Some [])) }
{
    let mut file = file;
    match file.cut_to(0) {
        Ok(()) => Ok(file),
        Err(error) => Err(JournalFault::of(JournalFailure::File, error)),
    }
}

/// Writes the base of these images behind what a writer has, by writes of up to 64 KiB.
fn write_behind<W: Write + Drop>(
    alloc: Global,
    catalog: &Catalog,
    heading: &Heading,
    images: &[TableImage],
    writer: W,
) -> Result<W, JournalFailure>
    requires { length images.now ≡ length catalog.now.tables }
    ensures { IfOk result (λ after. Appends (W.contents writer) (W.contents after) (base_text heading.now catalog.now (map image_table images.now))) }
{
    let Ok(mut out) = BufWriter::with_capacity(alloc, 65_536, writer) else {
        return Err(JournalFailure::Memory);
    };
    match write_base(alloc, catalog, heading, images, &mut out) {
        Ok(()) => {}
        Err(WriteFault::Memory) => return Err(JournalFailure::Memory),
        Err(WriteFault::Write) => return Err(JournalFailure::Write),
    }
    match out.into_inner() {
        Ok(after) => Ok(after),
        Err(_error) => Err(JournalFailure::Write),
    }
}

/// Writes the base of a database behind what a file has.
fn write_into<F: JournalFile + Drop, D: Imaged>(
    alloc: Global,
    database: &D,
    heading: &Heading,
    file: F,
) -> Result<F, JournalFailure>
    ensures { IfOk result (λ after. (images : List Table) × AreImagesOf (D.state database.now) images
        × Appends (F.contents file) (F.contents after) (base_text heading.now (D.state database.now).catalog images)) }
{
    let Ok(images) = database.images(alloc) else {
        return Err(JournalFailure::Memory);
    };
    let catalog = database.catalog();
    let written = write_behind(
        alloc,
        catalog,
        heading,
        images.as_slice(),
        FileWriter::new(file),
    )?;
    Ok(written.into_file())
}

/// Makes what a file has stay. `Write` where that fails.
pub(crate) fn make_stay<F: JournalFile>(file: &mut F) -> Result<(), JournalFault>
    ensures contents { Keeps (F.contents file.old) (F.contents file.new) }
    ensures stays { OnOk result (Keeps (F.contents file.new) (F.stays file.new)) }
{
    match file.sync_data() {
        Ok(()) => Ok(()),
        Err(error) => Err(JournalFault::of(JournalFailure::Write, error)),
    }
}

/// Writes the base of a database to a file in the place of what that has, and makes it stay.
fn write_new<F: JournalFile + Drop, D: Imaged>(
    alloc: Global,
    database: &D,
    heading: &Heading,
    file: F,
) -> Result<F, JournalFault>
    ensures { IfOk result (λ after. (images : List Table) × AreImagesOf (D.state database.now) images
        × IfSome (F.contents file) (λ _. F.contents after ≡ Some (base_text heading.now (D.state database.now).catalog images))
        × Keeps (F.contents after) (F.stays after)) }
{
    let file = emptied(file)?;
    let mut file = write_into(alloc, database, heading, file)?;
    make_stay(&mut file)?;
    Ok(file)
}

/// Writes the base of a database that stands at a place to the file of a base that isn't whole yet, and makes it stay. This process has that file still.
pub(crate) fn write_at<P: JournalFiles, D: Imaged>(
    alloc: Global,
    files: &P,
    path: &str,
    schema: &JournalSchema,
    place: &Place,
    database: &D,
    new: NewBase<P::File>,
) -> Result<NewBase<P::File>, JournalFault>
    requires locked { P.File.is_locked new.file ≡ true }
    requires seen { P.is_seen files.now (new_base_name path.now) new.file }
    ensures { OnOk result ((heading : Heading) × IsHeadingAt schema.now (D.state database.now).revision place.now heading
        × IsWritten (λ file. P.File.is_locked file ≡ true) (P.is_seen files.now) P.File.contents P.File.stays path.now heading (D.state database.now)) }
{
    let Ok(heading) = heading_at(alloc, schema, database.revision(), place) else {
        return Err(JournalFault::from(JournalFailure::Memory));
    };
    let NewBase { path: name, file } = new;
    let file = write_new(alloc, database, &heading, file)?;
    Ok(NewBase { path: name, file })
}

/// What was named, renamed or taken away in the folder of a path stays so. `Write` where that fails.
pub(crate) fn keep_names<P: JournalFiles>(files: &P, path: &str) -> Result<(), JournalFault> {
    match files.keep_name(path) {
        Ok(()) => Ok(()),
        Err(error) => Err(JournalFault::of(JournalFailure::Write, error)),
    }
}

/// The base that was written takes the place of the one before, and its name stays. No clause says either.
pub(crate) fn put_in_place<P: JournalFiles>(
    alloc: Global,
    files: &P,
    path: &str,
    new: NewBase<P::File>,
) -> Result<(), JournalFault> {
    let Ok(to) = base_path(alloc, path) else {
        return Err(JournalFault::from(JournalFailure::Memory));
    };
    check_name(files, new.path.as_str(), &new.file)?;
    if let Err(error) = files.rename(new.path.as_str(), to.as_str()) {
        return Err(JournalFault::of(JournalFailure::Write, error));
    }
    keep_names(files, to.as_str())
}
