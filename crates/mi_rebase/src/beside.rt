//! A base that is made anew while another process has the newest segment, and goes on with it. The closed segments alone are read, and none is claimed.
//! The order of the steps is to let a start give the same tables wherever they end; no clause says so.
ghost use Rattle.std.specs.Prelude.{◌≡◌, ◌<◌, ◌⊎◌, [], true, option_map, OnOk};
ghost use Rattle.mi_base.specs.declared.heading.Heading.{Heading};
ghost use Rattle.mi_recovery.specs.Names.{new_base_name};
ghost use Rattle.mi_rebase.specs.Rebase.{IsHeadingAt, IsWritten, IsStanding, IsRebasedBeside};

use crate::claiming::NewBase;
use crate::images::Imaged;
use crate::removing::remove_up_to;
use crate::writing::{keep_names, make_stay, put_in_place, write_at};
use mi_front::ask_closed;
use mi_hub::Hub;
use mi_log::LogLines;
use mi_recovery::{
    FileReader, JournalFailure, JournalFault, JournalFile, JournalFiles, JournalSchema, Place,
    Position, read_heading, segment_file,
};
use mi_sessions::Sessions;
use std::alloc::Global;
use std::io::BufReader;

/// Whether a base stands at this place; without one, whether that is the journal's start.
fn is_standing(position: Option<&Position>, place: &Place) -> bool
    ensures { result ≡ true → IsStanding (option_map (λ p. p.now) position.entry) place.now }
{
    match position {
        Some(position) => position.segment == place.number && position.line == place.skip,
        None => place.number == 1 && place.skip == 0,
    }
}

/// Whether the file of a segment has the whole header that a place has.
fn has_header<F: JournalFile>(
    alloc: Global,
    file: &F,
    place: &Place,
) -> Result<bool, JournalFailure> {
    let Ok(reader) = BufReader::new(alloc, FileReader::new(file)) else {
        return Err(JournalFailure::Memory);
    };
    let mut lines = LogLines::new(alloc, reader);
    read_heading(&mut lines, place.header.as_bytes())
}

/// Makes what the segment at a place has stay. A base names its header, which another process may have written without a sync. `Locked` where it has none
/// yet: a start is about to complete it.
fn keep_segment<P: JournalFiles>(
    alloc: Global,
    files: &P,
    path: &str,
    place: &Place,
) -> Result<(), JournalFault> {
    let mut file = segment_file(alloc, files, path, place.number)?;
    if !has_header(alloc, &file, place)? {
        return Err(JournalFault::from(JournalFailure::Locked));
    }
    make_stay(&mut file)
}

/// Writes the base of a database that stands at a place, and puts it where the journal's base is. Where that stands there already it is kept. Its name
/// stays either way.
fn put_at<P: JournalFiles, D: Imaged>(
    alloc: Global,
    files: &P,
    path: &str,
    schema: &JournalSchema,
    position: Option<&Position>,
    place: &Place,
    database: &D,
    new: NewBase<P::File>,
) -> Result<(), JournalFault>
    requires locked { P.File.is_locked new.file ≡ true }
    requires seen { P.is_seen files.now (new_base_name path.now) new.file }
    ensures { OnOk result (IsStanding (option_map (λ p. p.now) position.entry) place.now
        ⊎ ((heading : Heading) × IsHeadingAt schema.now (D.state database.now).revision place.now heading
        × IsWritten (λ file. P.File.is_locked file ≡ true) (P.is_seen files.now) P.File.contents P.File.stays path.now heading (D.state database.now))) }
{
    if is_standing(position, place) {
        return keep_names(files, path);
    }
    let new = write_at(alloc, files, path, schema, place, database, new)?;
    keep_segment(alloc, files, path, place)?;
    put_in_place(alloc, files, path, new)
}

/// Makes the base of a path's journal anew, of the segments in front of this number, which never change. What is open behind them is undone in the hub, and
/// the base has what is left. The segments in front of it are taken away once its name stays.
pub(crate) fn rebased_beside<P: JournalFiles, D: Imaged + Drop>(
    alloc: Global,
    files: &P,
    hub: Hub<D>,
    path: &str,
    schema: &JournalSchema,
    position: Option<&Position>,
    newest: u64,
    new: NewBase<P::File>,
) -> Result<(), JournalFault>
    requires attached { hub.attached ≡ [] }
    requires newest { P.is_newest files.now path.now newest }
    requires there { 0 < newest }
    requires locked { P.File.is_locked new.file ≡ true }
    requires seen { P.is_seen files.now (new_base_name path.now) new.file }
    ensures { OnOk result (IsRebasedBeside (λ file. P.File.is_locked file ≡ true) (P.is_seen files.now) (P.is_newest files.now path.now) P.File.contents
        P.File.stays path.now schema.now (option_map (λ p. p.now) position.entry) hub.held) }
{
    let mut hub = hub;
    let place = ask_closed(alloc, files, &mut hub, path, schema, position, newest)?;
    put_at(
        alloc,
        files,
        path,
        schema,
        position,
        &place,
        hub.database(),
        new,
    )?;
    remove_up_to(alloc, files, path, place.number.saturating_sub(1))?;
    keep_names(files, path)
}
