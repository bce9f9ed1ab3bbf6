//! The segments of a journal, whose lines are asked and noted one segment behind another. It changes no file.
ghost use Rattle.std.specs.Prelude.{◌≡◌, ◌+◌, ◌≤◌, ◌<◌, ◌⊎◌, ◌++◌, ◌∷◌, List, [], Some, true, length, option_map, OnOk, IfOk, IfSome};
ghost use Rattle.std.specs.List.{All};
ghost use Rattle.std.specs.String.{string_bytes};
ghost use Rattle.mi_hub.specs.Connections.{rest_at};
ghost use Rattle.mi_replay.specs.Replayed.{replayer};
ghost use Rattle.mi_recovery.specs.JournalFile.{text_of};
ghost use Rattle.mi_recovery.specs.Names.{segment_name};
ghost use Rattle.mi_recovery.specs.declared.place.Place.{Place};
ghost use Rattle.mi_recovery.specs.Segments.{IsNext, IsStart};
ghost use Rattle.mi_recovery.specs.declared.opening.Journaled.TheVariants.{Journal};
ghost use Rattle.mi_front.specs.Noted.{Lines, Notes};
ghost use Rattle.mi_front.specs.Front.{HasLines, IsNoted};
ghost use Rattle.mi_front.specs.Closed.{HasLinesUpTo, IsPlaceIn, Reaches};

use crate::texts::{note_file, note_whole};
use mi_checkpoint::OpenStarts;
use mi_hub::Hub;
use mi_recovery::{
    Asked, JournalFailure, JournalFault, JournalFiles, JournalSchema, Newest, Place, Position,
    check_name, next_place, segment_file, start_place, text_size,
};
use mi_sessions::Sessions;
use std::alloc::Global;
use std::mem;

/// A journal whose lines were asked and noted.
#[derive(Drop)]
pub(crate) struct NotedJournal<F> {
    /// What was found in its newest segment.
    pub(crate) asked: Asked<F>,
    /// How many lines were noted in front of that.
    pub(crate) older: u64,
}

/// A segment whose lines were noted: where it stands, how many lines were noted before it, and how many up to its end.
#[derive(Drop)]
pub(crate) struct NotedSegment {
    place: Place,
    before: u64,
    behind: u64,
}

impl NotedSegment {
    /// Whether one of its lines stands behind so many of all.
    fn holds(&self, lines: u64) -> bool
        ensures { result ≡ true → (self.now.before ≤ lines) × (lines < self.now.behind) }
    {
        self.before <= lines && lines < self.behind
    }

    /// The place in it behind so many of all lines. `Turns` where that is past all numbers.
    fn place_behind(self, lines: u64) -> Result<Place, JournalFailure>
        requires { self.before ≤ lines }
        ensures { IfOk result (λ place. IsPlaceIn self lines place) }
    {
        let Some(skip) = self.place.skip.checked_add(lines - self.before) else {
            return Err(JournalFailure::Turns);
        };
        Ok(Place { skip, ..self.place })
    }
}

/// Segments whose lines were noted, one behind another.
#[derive(Drop)]
pub(crate) struct NotedRow {
    /// The segments, in their order.
    pub(crate) segments: Vec<NotedSegment>,
    /// Where the segment behind them stands.
    pub(crate) next: Place,
}

impl NotedRow {
    /// Another segment was noted, and behind it the next one stands. `Memory` where the row has no room.
    fn push(&mut self, next: Place, before: u64, behind: u64) -> Result<(), JournalFailure>
        ensures next { OnOk result (self.new.next ≡ next) }
        ensures segments { OnOk result (self.new.segments.items
            ≡ self.old.segments.items ++ record { place = self.old.next; before = before; behind = behind } ∷ []) }
    {
        let place = mem::replace(&mut self.next, next);
        let segment = NotedSegment {
            place,
            before,
            behind,
        };
        match self.segments.push(segment) {
            Ok(()) => Ok(()),
            Err(_refused) => Err(JournalFailure::Memory),
        }
    }

    /// The place behind so many of the row's lines, of which there are `count`: where the next segment stands if these are all.
    ///
    /// `Turns` where no segment has it, or its number is past all numbers.
    pub(crate) fn place_behind(self, lines: u64, count: u64) -> Result<Place, JournalFailure>
        ensures { IfOk result (λ place. ((count ≤ lines) × (place ≡ self.next)) ⊎ ((front : List NotedSegment) × (s : NotedSegment)
            × (later : List NotedSegment) × (self.segments.items ≡ front ++ s ∷ later) × (s.before ≤ lines) × (lines < s.behind) × IsPlaceIn s lines place)) }
    {
        let NotedRow { segments, next } = self;
        if lines >= count {
            return Ok(next);
        }
        let mut segments = segments;
        'segments: while let Some(segment) = segments.pop() {
            if segment.holds(lines) {
                return segment.place_behind(lines);
            }
        }
        Err(JournalFailure::Turns)
    }
}

/// Asks and notes the segment at a place, behind which another one is there, and answers where that stands.
fn note_segment<P: JournalFiles, D: Sessions + Drop>(
    alloc: Global,
    files: &P,
    hub: &mut Hub<D>,
    starts: &mut OpenStarts,
    path: &str,
    schema: &JournalSchema,
    place: &Place,
) -> Result<Place, JournalFault>
    requires { rest_at replayer hub.old.attached ≡ Some (Some []) }
    ensures noted { IfOk result (λ next. (lines : Lines) × Notes hub.old.held starts.old lines hub.new.held starts.new
        × (file : P.File) × P.is_seen files.now (segment_name path.now place.now.number) file
        × IfSome (P.File.contents file) (λ bytes. IsNext schema.now place.now (text_of bytes) next
        × HasLines (string_bytes place.now.header) place.now.skip (text_of bytes) (Journal 0) lines)) }
    ensures number { IfOk result (λ next. next.number ≡ place.now.number + 1) }
    ensures attached { OnOk result (hub.new.attached ≡ hub.old.attached) }
{
    let file = segment_file(alloc, files, path, place.number)?;
    let text = text_size(&file)?;
    note_whole(alloc, hub, starts, &file, text, place)?;
    next_place(alloc, schema, place.number, &file, text)
}

/// Asks and notes the segment behind a row, behind which another one is there, and puts it into the row.
fn note_another<P: JournalFiles, D: Sessions + Drop>(
    alloc: Global,
    files: &P,
    hub: &mut Hub<D>,
    starts: &mut OpenStarts,
    path: &str,
    schema: &JournalSchema,
    row: &mut NotedRow,
) -> Result<(), JournalFault>
    requires { rest_at replayer hub.old.attached ≡ Some (Some []) }
    ensures noted { OnOk result ((lines : Lines) × Notes hub.old.held starts.old lines hub.new.held starts.new
        × (file : P.File) × P.is_seen files.now (segment_name path.now row.old.next.number) file
        × IfSome (P.File.contents file) (λ bytes. IsNext schema.now row.old.next (text_of bytes) row.new.next
        × HasLines (string_bytes row.old.next.header) row.old.next.skip (text_of bytes) (Journal 0) lines)) }
    ensures segments { OnOk result (row.new.segments.items
        ≡ row.old.segments.items ++ record { place = row.old.next; before = starts.old.lines; behind = starts.new.lines } ∷ []) }
    ensures number { OnOk result (row.new.next.number ≡ row.old.next.number + 1) }
    ensures attached { OnOk result (hub.new.attached ≡ hub.old.attached) }
{
    let before = starts.lines();
    let next = note_segment(alloc, files, hub, starts, path, schema, &row.next)?;
    Ok(row.push(next, before, starts.lines())?)
}

/// Asks and notes the segments from a place on to the one of this number.
///
/// `Segment` where one isn't there, is one of another journal or schema, or ends within a line. `Line` and `SegmentLine` where one is damaged.
fn note_segments<P: JournalFiles, D: Sessions + Drop>(
    alloc: Global,
    files: &P,
    hub: &mut Hub<D>,
    starts: &mut OpenStarts,
    path: &str,
    schema: &JournalSchema,
    start: Place,
    newest: u64,
) -> Result<NotedRow, JournalFault>
    requires here { rest_at replayer hub.old.attached ≡ Some (Some []) }
    requires none { starts.old.lines ≡ 0 }
    requires within { start.number ≤ newest }
    ensures noted { IfOk result (λ row. (lines : Lines) × (seen : List P.File) × Notes hub.old.held starts.old lines hub.new.held starts.new
        × HasLinesUpTo (P.is_seen files.now) P.File.contents path.now schema.now start seen row.next lines
        × All (λ s. Reaches (P.is_seen files.now) P.File.contents path.now schema.now row.next lines s) row.segments.items) }
    ensures number { IfOk result (λ row. row.next.number ≡ newest) }
    ensures attached { OnOk result (hub.new.attached ≡ hub.old.attached) }
{
    let mut row = NotedRow {
        segments: Vec::new(alloc),
        next: start,
    };
    'segments: while row.next.number < newest {
        note_another(alloc, files, hub, starts, path, schema, &mut row)?;
    }
    Ok(row)
}

/// Asks and notes all segments from the start, or from behind a base, on to the one of this number. `Segment` where the start stands behind that.
pub(crate) fn note_closed<P: JournalFiles, D: Sessions + Drop>(
    alloc: Global,
    files: &P,
    hub: &mut Hub<D>,
    starts: &mut OpenStarts,
    path: &str,
    schema: &JournalSchema,
    position: Option<&Position>,
    newest: u64,
) -> Result<NotedRow, JournalFault>
    requires here { rest_at replayer hub.old.attached ≡ Some (Some []) }
    requires none { starts.old.lines ≡ 0 }
    ensures noted { IfOk result (λ row. (start : Place) × (lines : Lines) × (seen : List P.File)
        × IsStart schema.now (option_map (λ p. p.now) position.entry) start × Notes hub.old.held starts.old lines hub.new.held starts.new
        × HasLinesUpTo (P.is_seen files.now) P.File.contents path.now schema.now start seen row.next lines
        × All (λ s. Reaches (P.is_seen files.now) P.File.contents path.now schema.now row.next lines s) row.segments.items) }
    ensures number { IfOk result (λ row. row.next.number ≡ newest) }
    ensures attached { OnOk result (hub.new.attached ≡ hub.old.attached) }
{
    let start = start_place(alloc, files, path, schema, position)?;
    if start.number > newest {
        return Err(JournalFault::from(JournalFailure::Segment(start.number)));
    }
    note_segments(alloc, files, hub, starts, path, schema, start, newest)
}

/// Asks and notes the newest segment, which stands at this place. Behind that it is seen under its path.
fn note_newest<P: JournalFiles, D: Sessions + Drop>(
    alloc: Global,
    files: &P,
    hub: &mut Hub<D>,
    starts: &mut OpenStarts,
    newest: Newest<P::File>,
    place: Place,
) -> Result<Asked<P::File>, JournalFault>
    requires { rest_at replayer hub.old.attached ≡ Some (Some []) }
    ensures place { IfOk result (λ asked. asked.place ≡ place) }
    ensures file { IfOk result (λ asked. asked.file ≡ newest.file) }
    ensures path { IfOk result (λ asked. asked.path ≡ newest.path) }
    ensures seen { OnOk result (P.is_seen files.now (string_bytes newest.path) newest.file) }
    ensures text { IfOk result (λ asked. IfSome (P.File.contents newest.file) (λ bytes. asked.text ≡ length (text_of bytes))) }
    ensures noted { IfOk result (λ asked. (lines : Lines) × Notes hub.old.held starts.old lines hub.new.held starts.new
        × IfSome (P.File.contents newest.file) (λ bytes. HasLines (string_bytes place.header) place.skip (text_of bytes) asked.found lines)) }
    ensures attached { OnOk result (hub.new.attached ≡ hub.old.attached) }
{
    let Newest { path, file, .. } = newest;
    let text = text_size(&file)?;
    let found = note_file(alloc, hub, starts, &file, text, &place)?;
    check_name(files, path.as_str(), &file)?;
    Ok(Asked {
        place,
        path,
        file,
        text,
        found,
    })
}

/// Asks and notes all segments from the start, or from behind a base, on. `Segment` where that stands behind the newest.
pub(crate) fn note_row<P: JournalFiles, D: Sessions + Drop>(
    alloc: Global,
    files: &P,
    hub: &mut Hub<D>,
    starts: &mut OpenStarts,
    path: &str,
    schema: &JournalSchema,
    position: Option<&Position>,
    newest: Newest<P::File>,
) -> Result<NotedJournal<P::File>, JournalFault>
    requires here { rest_at replayer hub.old.attached ≡ Some (Some []) }
    requires none { starts.old.lines ≡ 0 }
    requires locked { P.File.is_locked newest.file ≡ true }
    requires newest { P.is_newest files.now path.now newest.number }
    requires path { string_bytes newest.path ≡ segment_name path.now newest.number }
    ensures noted { IfOk result (λ noted. (older : Lines) × (last : Lines) × Notes hub.old.held starts.old (older ++ last) hub.new.held starts.new
        × (noted.older ≡ starts.old.lines + length older) × IsNoted (λ file. P.File.is_locked file ≡ true) (P.is_seen files.now)
        (P.is_newest files.now path.now) P.File.contents path.now schema.now (option_map (λ p. p.now) position.entry) hub.old.held noted.asked older last
        hub.new.held) }
    ensures attached { OnOk result (hub.new.attached ≡ hub.old.attached) }
{
    let row = note_closed(
        alloc,
        files,
        hub,
        starts,
        path,
        schema,
        position,
        newest.number,
    )?;
    let older = starts.lines();
    let asked = note_newest(alloc, files, hub, starts, newest, row.next)?;
    Ok(NotedJournal { asked, older })
}
