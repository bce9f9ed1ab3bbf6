//! A journal in segments, asked of a hub at a start: its newest segment is claimed, and all lines behind a position are asked. It changes no file.
ghost use Rattle.std.specs.Prelude.{◌≡◌, ◌∷◌, [], true, Some, length, option_map, OnOk, IfOk, IfSome};
ghost use Rattle.std.specs.String.{string_bytes};
ghost use Rattle.mi_hub.specs.Connections.{rest_at};
ghost use Rattle.mi_replay.specs.Replayed.{replayer};
ghost use Rattle.mi_clients.specs.Clients.{fresh};
ghost use Rattle.mi_recovery.specs.JournalFile.{text_of};
ghost use Rattle.mi_recovery.specs.Names.{segment_name};
ghost use Rattle.mi_recovery.specs.Segments.{IsAsked, IsAskedBehind, IsStart, hash_of};

use crate::claim::{check_name, claimed};
use crate::fault::{JournalFailure, JournalFault};
use crate::file_reader::FileReader;
use crate::journal_file::{JournalFile, JournalFiles};
use crate::journal_text::text_size;
use crate::names::segment_path;
use crate::opening::Journaled;
use crate::place::{JournalSchema, Place, Position, first_place};
use crate::segments::{ask_file, ask_segments, segment_file};
use mi_durable::REPLAYER;
use mi_hub::Hub;
use mi_log::LogLines;
use mi_sessions::Sessions;
use sha2::{Digest, Sha256};
use std::alloc::Global;
use std::io::BufReader;

/// A journal whose lines were asked: its newest segment, which this process alone has, and what was found there. Its files are as they were.
#[derive(Drop)]
pub struct Asked<F> {
    /// Where the newest segment stands.
    pub place: Place,
    /// The path of its file.
    pub path: String,
    /// Its file.
    pub file: F,
    /// How many bytes its text has.
    pub text: u64,
    /// What its text is.
    pub found: Journaled,
}

/// The newest segment of a journal, which this process alone has.
#[derive(Drop)]
pub struct Newest<F> {
    /// Its number.
    pub number: u64,
    /// The path of its file.
    pub path: String,
    /// Its file.
    pub file: F,
}

/// The number of the newest segment of a path's journal, or 0. `File` where the folder can't be read.
fn newest_number<P: JournalFiles>(files: &P, path: &str) -> Result<u64, JournalFault>
    ensures { IfOk result (λ number. P.is_newest files.now path.now number) }
{
    match files.newest(path) {
        Ok(number) => Ok(number),
        Err(error) => Err(JournalFault::of(JournalFailure::File, error)),
    }
}

/// Claims the newest segment of a path's journal; the first is made where none is there. `Locked` where another process has it, or has begun
/// the next one meanwhile, `File` where a file can't be opened or made.
pub fn claim_newest<P: JournalFiles>(
    alloc: Global,
    files: &P,
    path: &str,
) -> Result<Newest<P::File>, JournalFault>
    ensures locked { IfOk result (λ newest. P.File.is_locked newest.file ≡ true) }
    ensures newest { IfOk result (λ newest. P.is_newest files.now path.now newest.number) }
    ensures path { IfOk result (λ newest. string_bytes newest.path ≡ segment_name path.now newest.number) }
{
    let number = newest_number(files, path)?.max(1);
    let Ok(name) = segment_path(alloc, path, number) else {
        return Err(JournalFault::from(JournalFailure::Memory));
    };
    let file = claimed(files, name.as_str(), number <= 1)?;
    if newest_number(files, path)? != number {
        return Err(JournalFault::from(JournalFailure::Locked));
    }
    Ok(Newest {
        number,
        path: name,
        file,
    })
}

/// The header of a file, without its newline. `Base` where its first line isn't whole or isn't UTF-8.
fn first_line<F: JournalFile>(alloc: Global, file: &F) -> Result<String, JournalFailure> {
    let Ok(reader) = BufReader::new(alloc, FileReader::new(file)) else {
        return Err(JournalFailure::Memory);
    };
    let mut lines = LogLines::new(alloc, reader);
    if lines.advance().is_err() {
        return Err(JournalFailure::File);
    }
    let Some((_newline, text)) = lines.line().split_last() else {
        return Err(JournalFailure::Base);
    };
    let Ok(text) = str::from_utf8(text) else {
        return Err(JournalFailure::Base);
    };
    match String::from_str(alloc, text) {
        Ok(header) => Ok(header),
        Err(_refused) => Err(JournalFailure::Memory),
    }
}

/// The place behind a position, whose segment has this header. `Base` where the position names another one's sum.
fn place_at(alloc: Global, position: &Position, header: String) -> Result<Place, JournalFailure>
    ensures { IfOk result (λ place. (place.number ≡ position.now.segment) × (hash_of (string_bytes place.header) ≡ string_bytes position.now.sum)
        × (place.skip ≡ position.now.line)) }
{
    let Ok(sum) = hex::encode(alloc, Sha256::digest(header.as_bytes())) else {
        return Err(JournalFailure::Memory);
    };
    if sum.as_str() != position.sum.as_str() {
        return Err(JournalFailure::Base);
    }
    Ok(Place {
        number: position.segment,
        header,
        skip: position.line,
    })
}

/// The place that a base's position names. `Base` where it is none of this journal, `Segment` where its segment isn't there.
fn named_place<P: JournalFiles>(
    alloc: Global,
    files: &P,
    path: &str,
    position: &Position,
) -> Result<Place, JournalFault>
    ensures { IfOk result (λ place. (place.number ≡ position.now.segment) × (hash_of (string_bytes place.header) ≡ string_bytes position.now.sum)
        × (place.skip ≡ position.now.line)) }
{
    if position.segment == 0 {
        return Err(JournalFault::from(JournalFailure::Base));
    }
    let file = segment_file(alloc, files, path, position.segment)?;
    let header = first_line(alloc, &file)?;
    Ok(place_at(alloc, position, header)?)
}

/// Where the lines begin that are asked: in front of segment 1, or behind what a base's position names. `Base` where that is none of this journal,
/// `Segment` where its segment isn't there, and `Memory`.
pub fn start_place<P: JournalFiles>(
    alloc: Global,
    files: &P,
    path: &str,
    schema: &JournalSchema,
    position: Option<&Position>,
) -> Result<Place, JournalFault>
    ensures { IfOk result (λ place. IsStart schema.now (option_map (λ p. p.now) position.entry) place) }
{
    let Some(position) = position else {
        return match first_place(alloc, schema) {
            Ok(place) => Ok(place),
            Err(_refused) => Err(JournalFault::from(JournalFailure::Memory)),
        };
    };
    named_place(alloc, files, path, position)
}

/// The replayer comes to a hub that has no connection. The failure is `Memory`.
pub fn attach_replayer<D: Sessions + Drop>(hub: &mut Hub<D>) -> Result<(), JournalFailure>
    requires { hub.old.attached ≡ [] }
    ensures attached { OnOk result (hub.new.attached ≡ fresh replayer ∷ []) }
    ensures held { OnOk result (hub.new.held ≡ hub.old.held) }
{
    match hub.attach(REPLAYER) {
        Ok(()) => Ok(()),
        Err(_fault) => Err(JournalFailure::Memory),
    }
}

/// Asks a hub, of which the replayer is a connection, the newest segment, which stands at this place. Behind that it is seen under its path.
fn ask_newest<P: JournalFiles, D: Sessions + Drop>(
    alloc: Global,
    files: &P,
    hub: &mut Hub<D>,
    newest: Newest<P::File>,
    place: Place,
) -> Result<Asked<P::File>, JournalFault>
    requires { rest_at replayer hub.old.attached ≡ Some (Some []) }
    ensures place { IfOk result (λ asked. asked.place ≡ place) }
    ensures file { IfOk result (λ asked. asked.file ≡ newest.file) }
    ensures path { IfOk result (λ asked. asked.path ≡ newest.path) }
    ensures seen { OnOk result (P.is_seen files.now (string_bytes newest.path) newest.file) }
    ensures text { IfOk result (λ asked. IfSome (P.File.contents newest.file) (λ bytes. asked.text ≡ length (text_of bytes))) }
    ensures asked { IfOk result (λ asked. IfSome (P.File.contents newest.file)
        (λ bytes. IsAsked (string_bytes place.header) place.skip (text_of bytes) asked.found hub.old.held hub.new.held)) }
    ensures attached { OnOk result (hub.new.attached ≡ hub.old.attached) }
{
    let Newest { path, file, .. } = newest;
    let text = text_size(&file)?;
    let found = ask_file(alloc, hub, &file, text, &place)?;
    check_name(files, path.as_str(), &file)?;
    Ok(Asked {
        place,
        path,
        file,
        text,
        found,
    })
}

/// Asks a hub, of which the replayer is a connection, all segments from a place on. `Segment` where the place stands behind the newest.
fn ask_row<P: JournalFiles, D: Sessions + Drop>(
    alloc: Global,
    files: &P,
    hub: &mut Hub<D>,
    path: &str,
    schema: &JournalSchema,
    position: Option<&Position>,
    newest: Newest<P::File>,
) -> Result<Asked<P::File>, JournalFault>
    requires here { rest_at replayer hub.old.attached ≡ Some (Some []) }
    requires locked { P.File.is_locked newest.file ≡ true }
    requires newest { P.is_newest files.now path.now newest.number }
    requires path { string_bytes newest.path ≡ segment_name path.now newest.number }
    ensures asked { IfOk result (λ asked. IsAskedBehind (λ file. P.File.is_locked file ≡ true) (P.is_seen files.now) (P.is_newest files.now path.now)
        P.File.contents path.now schema.now (option_map (λ p. p.now) position.entry) hub.old.held asked hub.new.held) }
    ensures attached { OnOk result (hub.new.attached ≡ hub.old.attached) }
{
    let start = start_place(alloc, files, path, schema, position)?;
    if start.number > newest.number {
        return Err(JournalFault::from(JournalFailure::Segment(start.number)));
    }
    let last = ask_segments(alloc, files, hub, path, schema, start, newest.number)?;
    ask_newest(alloc, files, hub, newest, last)
}

/// Asks a hub that stands where a base does, or at the start, all lines of a path's journal behind that, as connection 1. The newest segment is
/// claimed first, and the first one is made where none is there. No other file changes.
///
/// `Locked` where another process has the newest segment. `File` where a file can't be opened or read, or was moved meanwhile. `Base` where the
/// position is none of this journal. `Segment` where a segment isn't there, is one of another journal, or ends within a line though another
/// follows. `Schema` where the first is one of another schema. `Line` and `SegmentLine` where a line isn't one of a journal. What the hub is then
/// isn't said.
pub fn ask_journal<P: JournalFiles, D: Sessions + Drop>(
    alloc: Global,
    files: &P,
    hub: &mut Hub<D>,
    path: &str,
    schema: &JournalSchema,
    position: Option<&Position>,
) -> Result<Asked<P::File>, JournalFault>
    requires { hub.old.attached ≡ [] }
    ensures asked { IfOk result (λ asked. IsAskedBehind (λ file. P.File.is_locked file ≡ true) (P.is_seen files.now) (P.is_newest files.now path.now)
        P.File.contents path.now schema.now (option_map (λ p. p.now) position.entry) hub.old.held asked hub.new.held) }
    ensures attached { OnOk result (hub.new.attached ≡ fresh replayer ∷ []) }
{
    let newest = claim_newest(alloc, files, path)?;
    attach_replayer(hub)?;
    ask_row(alloc, files, hub, path, schema, position, newest)
}
