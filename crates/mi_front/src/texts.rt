//! The text of a segment, whose lines are asked and noted: its header is read first, and some lines are passed over. It changes no file.
ghost use Rattle.std.specs.Prelude.{◌≡◌, List, [], Some, OnOk, IfOk, IfSome, length};
ghost use Rattle.std.specs.String.{string_bytes};
ghost use Rattle.mi_hub.specs.Connections.{rest_at};
ghost use Rattle.mi_replay.specs.Replayed.{replayer};
ghost use Rattle.mi_recovery.specs.JournalFile.{text_of};
ghost use Rattle.mi_recovery.specs.declared.opening.Journaled.TheVariants.{Journal};
ghost use Rattle.mi_front.specs.Noted.{Lines, Notes};
ghost use Rattle.mi_front.specs.Front.{HasLines};

use crate::noting::note_lines;
use mi_checkpoint::OpenStarts;
use mi_hub::Hub;
use mi_log::LogLines;
use mi_recovery::{
    FileReader, JournalFailure, JournalFile, Journaled, Place, pass_over, read_heading,
};
use mi_sessions::Sessions;
use std::alloc::Global;
use std::io::{BufRead, BufReader, Read};

/// Asks and notes the lines that a reader has behind this header and so many lines.
fn note_text<D: Sessions + Drop, R: BufRead + Drop>(
    alloc: Global,
    hub: &mut Hub<D>,
    starts: &mut OpenStarts,
    reader: R,
    header: &[u8],
    skip: u64,
) -> Result<Journaled, JournalFailure>
    requires { rest_at replayer hub.old.attached ≡ Some (Some []) }
    ensures noted { IfOk result (λ found. (lines : Lines) × Notes hub.old.held starts.old lines hub.new.held starts.new
        × IfSome (R.remaining reader) (λ bytes. HasLines header.now skip bytes found lines)) }
    ensures attached { OnOk result (hub.new.attached ≡ hub.old.attached) }
{
    let mut lines = LogLines::new(alloc, reader);
    if !read_heading(&mut lines, header)? {
        return Ok(Journaled::Nothing);
    }
    pass_over(&mut lines, skip)?;
    match note_lines(alloc, hub, starts, &mut lines) {
        Ok(()) => Ok(Journaled::Journal(lines.line().len() as u64)),
        Err(fault) => Err(JournalFailure::of_replay(fault)),
    }
}

/// The same of a reader, by reads of up to 64 KiB.
fn note_reader<D: Sessions + Drop, R: Read + Drop>(
    alloc: Global,
    hub: &mut Hub<D>,
    starts: &mut OpenStarts,
    reader: R,
    header: &[u8],
    skip: u64,
) -> Result<Journaled, JournalFailure>
    requires { rest_at replayer hub.old.attached ≡ Some (Some []) }
    ensures noted { IfOk result (λ found. (lines : Lines) × Notes hub.old.held starts.old lines hub.new.held starts.new
        × IfSome (R.remaining reader) (λ bytes. HasLines header.now skip bytes found lines)) }
    ensures attached { OnOk result (hub.new.attached ≡ hub.old.attached) }
{
    match BufReader::with_capacity(alloc, 65_536, reader) {
        Ok(reader) => note_text(alloc, hub, starts, reader, header, skip),
        Err(_error) => Err(JournalFailure::Memory),
    }
}

/// Asks and notes the text of a file, which has so many bytes. A failure names the segment.
pub(crate) fn note_file<F: JournalFile, D: Sessions + Drop>(
    alloc: Global,
    hub: &mut Hub<D>,
    starts: &mut OpenStarts,
    file: &F,
    text: u64,
    place: &Place,
) -> Result<Journaled, JournalFailure>
    requires here { rest_at replayer hub.old.attached ≡ Some (Some []) }
    requires text { IfSome (F.contents file.now) (λ bytes. text ≡ length (text_of bytes)) }
    ensures noted { IfOk result (λ found. (lines : Lines) × Notes hub.old.held starts.old lines hub.new.held starts.new
        × IfSome (F.contents file.now) (λ bytes. HasLines (string_bytes place.now.header) place.now.skip (text_of bytes) found lines)) }
    ensures attached { OnOk result (hub.new.attached ≡ hub.old.attached) }
{
    let reader = FileReader::new(file).take(text);
    match note_reader(
        alloc,
        hub,
        starts,
        reader,
        place.header.as_bytes(),
        place.skip,
    ) {
        Ok(found) => Ok(found),
        Err(failure) => Err(failure.in_segment(place.number, place.skip)),
    }
}

/// Asks and notes a file's text, which has so many bytes and is to be whole: its header and whole lines. `Segment` where it isn't.
pub(crate) fn note_whole<F: JournalFile, D: Sessions + Drop>(
    alloc: Global,
    hub: &mut Hub<D>,
    starts: &mut OpenStarts,
    file: &F,
    text: u64,
    place: &Place,
) -> Result<(), JournalFailure>
    requires here { rest_at replayer hub.old.attached ≡ Some (Some []) }
    requires text { IfSome (F.contents file.now) (λ bytes. text ≡ length (text_of bytes)) }
    ensures noted { OnOk result ((lines : Lines) × Notes hub.old.held starts.old lines hub.new.held starts.new
        × IfSome (F.contents file.now) (λ bytes. HasLines (string_bytes place.now.header) place.now.skip (text_of bytes) (Journal 0) lines)) }
    ensures attached { OnOk result (hub.new.attached ≡ hub.old.attached) }
{
    match note_file(alloc, hub, starts, file, text, place)? {
        Journaled::Journal(0) => Ok(()),
        _ => Err(JournalFailure::Segment(place.number)),
    }
}
