//! The lines of a journal's segments, asked of a hub again one segment behind another. It changes no file.
ghost use Rattle.std.specs.Prelude.{◌≡◌, ◌≤◌, ◌+◌, ◌++◌, ◌∷◌, List, [], true, length, Some, OnOk, IfOk, IfErr, IfSome};
ghost use Rattle.std.specs.String.{string_bytes};
ghost use Rattle.mi_log.specs.LogLines.{reader_of};
ghost use Rattle.mi_hub.specs.Connections.{rest_at};
ghost use Rattle.mi_replay.specs.Replayed.{replayer};
ghost use Rattle.mi_durable.specs.Replay.{HasPassed};
ghost use Rattle.mi_recovery.specs.JournalFile.{text_of};
ghost use Rattle.mi_recovery.specs.Names.{segment_name};
ghost use Rattle.mi_recovery.specs.Recovery.{ends_replay};
ghost use Rattle.mi_recovery.specs.Segments.{AsksUpTo, IsAsked, IsNext, hash_of};

use crate::fault::{JournalFailure, JournalFault};
use crate::file_reader::FileReader;
use crate::journal_file::{JournalFile, JournalFiles};
use crate::journal_text::text_size;
use crate::names::segment_path;
use crate::opening::{Journaled, read_heading};
use crate::place::{JournalSchema, Place, segment_header};
use crate::text_hash::text_hash;
use mi_durable::replay;
use mi_hub::Hub;
use mi_log::LogLines;
use mi_sessions::Sessions;
use std::alloc::Global;
use std::io::{BufRead, BufReader, Read};

/// Reads a whole line. `Line` where none is left.
fn next_line<R: BufRead>(lines: &mut LogLines<R>) -> Result<(), JournalFailure>
    ensures passed { OnOk result (HasPassed 1 (R.remaining (reader_of lines.old)) (R.remaining (reader_of lines.new))) }
    ensures fails { IfErr result (λ failure. ends_replay failure ≡ true) }
{
    match lines.advance() {
        Ok(true) => Ok(()),
        Ok(false) => Err(JournalFailure::Line(2)),
        Err(_error) => Err(JournalFailure::File),
    }
}

/// Reads so many whole lines, and asks none. `Line` where there are fewer, `File` where they can't be read.
pub fn pass_over<R: BufRead>(lines: &mut LogLines<R>, count: u64) -> Result<(), JournalFailure>
    ensures passed { OnOk result (HasPassed count (R.remaining (reader_of lines.old)) (R.remaining (reader_of lines.new))) }
    ensures fails { IfErr result (λ failure. ends_replay failure ≡ true) }
{
    let mut passed = 0u64;
    'lines: while passed < count {
        next_line(lines)?;
        passed += 1;
    }
    Ok(())
}

/// Asks a hub, of which the replayer is a connection, the lines that a reader has behind this header and so many lines.
fn ask_text<D: Sessions + Drop, R: BufRead + Drop>(
    alloc: Global,
    hub: &mut Hub<D>,
    reader: R,
    header: &[u8],
    skip: u64,
) -> Result<Journaled, JournalFailure>
    requires { rest_at replayer hub.old.attached ≡ Some (Some []) }
    ensures asked { IfOk result (λ found. IfSome (R.remaining reader) (λ bytes. IsAsked header.now skip bytes found hub.old.held hub.new.held)) }
    ensures attached { OnOk result (hub.new.attached ≡ hub.old.attached) }
    ensures fails { IfErr result (λ failure. ends_replay failure ≡ true) }
{
    let mut lines = LogLines::new(alloc, reader);
    if !read_heading(&mut lines, header)? {
        return Ok(Journaled::Nothing);
    }
    pass_over(&mut lines, skip)?;
    match replay(alloc, hub, &mut lines) {
        Ok(()) => Ok(Journaled::Journal(lines.line().len() as u64)),
        Err(fault) => Err(JournalFailure::of_replay(fault)),
    }
}

/// The same of a reader, by reads of up to 64 KiB.
fn ask_reader<D: Sessions + Drop, R: Read + Drop>(
    alloc: Global,
    hub: &mut Hub<D>,
    reader: R,
    header: &[u8],
    skip: u64,
) -> Result<Journaled, JournalFailure>
    requires { rest_at replayer hub.old.attached ≡ Some (Some []) }
    ensures asked { IfOk result (λ found. IfSome (R.remaining reader) (λ bytes. IsAsked header.now skip bytes found hub.old.held hub.new.held)) }
    ensures attached { OnOk result (hub.new.attached ≡ hub.old.attached) }
    ensures fails { IfErr result (λ failure. ends_replay failure ≡ true) }
{
    match BufReader::with_capacity(alloc, 65_536, reader) {
        Ok(reader) => ask_text(alloc, hub, reader, header, skip),
        Err(_error) => Err(JournalFailure::Memory),
    }
}

/// Asks a hub the text of a file, which has so many bytes. A failure names the segment.
pub(crate) fn ask_file<F: JournalFile, D: Sessions + Drop>(
    alloc: Global,
    hub: &mut Hub<D>,
    file: &F,
    text: u64,
    place: &Place,
) -> Result<Journaled, JournalFailure>
    requires here { rest_at replayer hub.old.attached ≡ Some (Some []) }
    requires text { IfSome (F.contents file.now) (λ bytes. text ≡ length (text_of bytes)) }
    ensures asked { IfOk result (λ found. IfSome (F.contents file.now)
        (λ bytes. IsAsked (string_bytes place.now.header) place.now.skip (text_of bytes) found hub.old.held hub.new.held)) }
    ensures attached { OnOk result (hub.new.attached ≡ hub.old.attached) }
    ensures fails { IfErr result (λ failure. ends_replay failure ≡ true) }
{
    let reader = FileReader::new(file).take(text);
    match ask_reader(alloc, hub, reader, place.header.as_bytes(), place.skip) {
        Ok(found) => Ok(found),
        Err(failure) => Err(failure.in_segment(place.number, place.skip)),
    }
}

/// Asks a hub a file's text, which has so many bytes and is to be whole: its header and whole lines. `Segment` where it isn't.
fn ask_whole<F: JournalFile, D: Sessions + Drop>(
    alloc: Global,
    hub: &mut Hub<D>,
    file: &F,
    text: u64,
    place: &Place,
) -> Result<(), JournalFailure>
    requires here { rest_at replayer hub.old.attached ≡ Some (Some []) }
    requires text { IfSome (F.contents file.now) (λ bytes. text ≡ length (text_of bytes)) }
    ensures asked { OnOk result (IfSome (F.contents file.now)
        (λ bytes. IsAsked (string_bytes place.now.header) place.now.skip (text_of bytes) (Journaled.Journal 0) hub.old.held hub.new.held)) }
    ensures attached { OnOk result (hub.new.attached ≡ hub.old.attached) }
{
    match ask_file(alloc, hub, file, text, place)? {
        Journaled::Journal(0) => Ok(()),
        _ => Err(JournalFailure::Segment(place.number)),
    }
}

/// The place behind a segment that has this file, whose text has so many bytes. `Turns` where there is no number more.
pub fn next_place<F: JournalFile>(
    alloc: Global,
    schema: &JournalSchema,
    number: u64,
    file: &F,
    text: u64,
) -> Result<Place, JournalFault>
    requires { IfSome (F.contents file.now) (λ bytes. text ≡ length (text_of bytes)) }
    ensures number { IfOk result (λ next. next.number ≡ number + 1) }
    ensures next { IfOk result (λ next. IfSome (F.contents file.now) (λ bytes. (place : Place) → place.number ≡ number
        → IsNext schema.now place (text_of bytes) next)) }
{
    let hash = text_hash(alloc, file, text)?;
    let Some(next) = number.checked_add(1) else {
        return Err(JournalFault::from(JournalFailure::Turns));
    };
    match segment_header(alloc, hash.as_str(), schema, next) {
        Ok(header) => Ok(Place {
            number: next,
            header,
            skip: 0,
        }),
        Err(_refused) => Err(JournalFault::from(JournalFailure::Memory)),
    }
}

/// The file of a journal's segment. `Segment` where it isn't there, `File` where it can't be opened.
pub fn segment_file<P: JournalFiles>(
    alloc: Global,
    files: &P,
    path: &str,
    number: u64,
) -> Result<P::File, JournalFault>
    ensures { IfOk result (λ file. P.is_seen files.now (segment_name path.now number) file) }
{
    let Ok(name) = segment_path(alloc, path, number) else {
        return Err(JournalFault::from(JournalFailure::Memory));
    };
    match files.open_there(name.as_str()) {
        Ok(Some(file)) => Ok(file),
        Ok(None) => Err(JournalFault::from(JournalFailure::Segment(number))),
        Err(error) => Err(JournalFault::of(JournalFailure::File, error)),
    }
}

/// Asks a hub, of which the replayer is a connection, the segment at a place, behind which another one is there, and answers where that stands.
fn ask_segment<P: JournalFiles, D: Sessions + Drop>(
    alloc: Global,
    files: &P,
    hub: &mut Hub<D>,
    path: &str,
    schema: &JournalSchema,
    place: &Place,
) -> Result<Place, JournalFault>
    requires { rest_at replayer hub.old.attached ≡ Some (Some []) }
    ensures asked { IfOk result (λ next. (file : P.File) × P.is_seen files.now (segment_name path.now place.now.number) file
        × IfSome (P.File.contents file) (λ bytes. IsNext schema.now place.now (text_of bytes) next
        × IsAsked (string_bytes place.now.header) place.now.skip (text_of bytes) (Journaled.Journal 0) hub.old.held hub.new.held)) }
    ensures number { IfOk result (λ next. next.number ≡ place.now.number + 1) }
    ensures attached { OnOk result (hub.new.attached ≡ hub.old.attached) }
{
    let file = segment_file(alloc, files, path, place.number)?;
    let text = text_size(&file)?;
    ask_whole(alloc, hub, &file, text, place)?;
    next_place(alloc, schema, place.number, &file, text)
}

/// Asks a hub, of which the replayer is a connection, the segments from a place on to the one of this number, and answers where that stands.
///
/// `Segment` where one isn't there, is one of another journal or schema, or ends within a line. `Line` and `SegmentLine` where one is damaged.
pub fn ask_segments<P: JournalFiles, D: Sessions + Drop>(
    alloc: Global,
    files: &P,
    hub: &mut Hub<D>,
    path: &str,
    schema: &JournalSchema,
    start: Place,
    newest: u64,
) -> Result<Place, JournalFault>
    requires here { rest_at replayer hub.old.attached ≡ Some (Some []) }
    requires within { start.number ≤ newest }
    ensures asked { IfOk result (λ last. (row : List P.File)
        × AsksUpTo (P.is_seen files.now) P.File.contents path.now schema.now start row last hub.old.held hub.new.held) }
    ensures number { IfOk result (λ last. last.number ≡ newest) }
    ensures attached { OnOk result (hub.new.attached ≡ hub.old.attached) }
{
    let mut place = start;
    'segments: while place.number < newest {
        place = ask_segment(alloc, files, hub, path, schema, &place)?;
    }
    Ok(place)
}
