//! A base, made anew: a journal is asked to its end, its tables are written as they stood in front of what is open there, and what the base has is
//! taken away. Where another process has the newest segment, it is made of the others. The order of these steps is to let a start give the same tables
//! wherever they end; no clause says so. It looks at no line.
ghost use Rattle.std.specs.Prelude.{◌≡◌, ◌+◌, ◌<◌, ◌⊎◌, [], length, true, option_map, OnOk, IfOk, IfSome};
ghost use Rattle.std.specs.String.{string_bytes};
ghost use Rattle.mi_recovery.specs.JournalFile.{text_of};
ghost use Rattle.mi_recovery.specs.Names.{new_base_name, segment_name};
ghost use Rattle.mi_recovery.specs.Recovery.{IsFound, kept_bytes};
ghost use Rattle.mi_recovery.specs.Segments.{IsNext};
ghost use Rattle.mi_base.specs.declared.heading.Heading.{Heading};
ghost use Rattle.mi_rebase.specs.Rebase.{IsHeadingAt, IsWithin, base_place, IsRebased, IsRebasedBeside, IsWritten, HasSegment};

use crate::beside::rebased_beside;
use crate::claiming::NewBase;
use crate::closing::closed;
use crate::images::Imaged;
use crate::removing::remove_up_to;
use crate::settling::check_there;
use crate::writing::{keep_names, put_in_place, write_at};
use mi_front::{Front, ask_front};
use mi_hub::Hub;
use mi_log::DeviceLog;
use mi_recovery::{
    JournalDevice, JournalFailure, JournalFault, JournalFile, JournalFiles, JournalSchema, Newest,
    Place, Position, claim_newest, next_segment, place_behind,
};
use mi_sessions::Sessions;
use std::alloc::Global;

/// Where a base is to stand.
#[derive(Drop)]
struct Stand<F> {
    /// The place in the newest segment. Without one it stands where the next begins.
    within: Option<Place>,
    /// Where the next segment begins.
    next: Place,
    /// The log of the newest segment, which this process has still.
    newest: DeviceLog<JournalDevice<F>>,
}

impl<F> Stand<F> {
    /// The place of the base.
    fn place(&self) -> &Place
        ensures { result.now ≡ base_place self.now.within self.now.next }
    {
        match &self.within {
            Some(place) => place,
            None => &self.next,
        }
    }
}

/// The newest segment is closed. A base stands behind it, or in it, in front of the lines that are left. `Sessions` where the oldest open session began
/// in a segment before.
fn stand_of<P: JournalFiles>(
    alloc: Global,
    files: &P,
    schema: &JournalSchema,
    front: Front<P::File>,
) -> Result<Stand<P::File>, JournalFault>
    requires text { IfSome (P.File.contents front.asked.file) (λ bytes. front.asked.text ≡ length (text_of bytes)) }
    requires found { IfSome (P.File.contents front.asked.file) (λ bytes. IsFound (string_bytes front.asked.place.header) (text_of bytes) front.asked.found) }
    ensures within { IfOk result (λ stand. IsWithin front.left front.place stand.within) }
    ensures number { IfOk result (λ stand. stand.next.number ≡ front.asked.place.number + 1) }
    ensures closes { IfOk result (λ stand. IfSome (P.File.contents front.asked.file) (λ bytes. IsNext schema.now front.asked.place
        (text_of (kept_bytes (string_bytes front.asked.place.header) (text_of bytes) front.asked.found)) stand.next)) }
{
    let Front { asked, place, left } = front;
    let Some(place) = place else {
        return Err(JournalFault::from(JournalFailure::Sessions));
    };
    let number = asked.place.number;
    let newest = closed(files, asked)?;
    let next = place_behind(alloc, schema, number, &newest)?;
    Ok(Stand {
        within: if left > 0 { Some(place) } else { None },
        next,
        newest,
    })
}

/// The next segment is begun, and the base that was written takes its place. What is in front of the base is taken away for good.
///
/// A base in the newest segment takes its place first: until the next one is begun a later rebase finds the open sessions in the newest.
fn replaced<P: JournalFiles>(
    alloc: Global,
    files: &P,
    path: &str,
    stand: &Stand<P::File>,
    new: NewBase<P::File>,
) -> Result<(), JournalFault> {
    let _begun = if stand.within.is_some() {
        put_in_place(alloc, files, path, new)?;
        next_segment(alloc, files, path, &stand.next)?
    } else {
        let begun = next_segment(alloc, files, path, &stand.next)?;
        put_in_place(alloc, files, path, new)?;
        begun
    };
    remove_up_to(alloc, files, path, stand.place().number.saturating_sub(1))?;
    keep_names(files, path)
}

/// Writes the base of a database where it is to stand, and puts it in its place.
fn made<P: JournalFiles, D: Imaged>(
    alloc: Global,
    files: &P,
    path: &str,
    schema: &JournalSchema,
    stand: &Stand<P::File>,
    database: &D,
    new: NewBase<P::File>,
) -> Result<(), JournalFault>
    requires locked { P.File.is_locked new.file ≡ true }
    requires seen { P.is_seen files.now (new_base_name path.now) new.file }
    ensures { OnOk result ((heading : Heading) × IsHeadingAt schema.now (D.state database.now).revision (base_place stand.now.within stand.now.next) heading
        × IsWritten (λ file. P.File.is_locked file ≡ true) (P.is_seen files.now) P.File.contents P.File.stays path.now heading (D.state database.now)) }
{
    let new = write_at(alloc, files, path, schema, stand.place(), database, new)?;
    replaced(alloc, files, path, stand, new)
}

/// Makes the base of a path's journal anew, whose newest segment this process has, and begins its next segment.
fn rebased_alone<P: JournalFiles, D: Imaged + Drop>(
    alloc: Global,
    files: &P,
    hub: Hub<D>,
    path: &str,
    schema: &JournalSchema,
    position: Option<&Position>,
    newest: Newest<P::File>,
    new: NewBase<P::File>,
) -> Result<(), JournalFault>
    requires attached { hub.attached ≡ [] }
    requires there { HasSegment (P.is_newest files.now path.now) }
    requires locked { P.File.is_locked newest.file ≡ true }
    requires newest { P.is_newest files.now path.now newest.number }
    requires path { string_bytes newest.path ≡ segment_name path.now newest.number }
    requires claimed { P.File.is_locked new.file ≡ true }
    requires seen { P.is_seen files.now (new_base_name path.now) new.file }
    ensures { OnOk result (IsRebased (λ file. P.File.is_locked file ≡ true) (P.is_seen files.now) (P.is_newest files.now path.now) P.File.contents
        P.File.stays path.now schema.now (option_map (λ p. p.now) position.entry) hub.held) }
{
    let mut hub = hub;
    let front = ask_front(alloc, files, &mut hub, path, schema, position, newest)?;
    let stand = stand_of(alloc, files, schema, front)?;
    made(alloc, files, path, schema, &stand, hub.database(), new)
}

/// Makes the base of a path's journal anew. A hub that stands at the position of the base before, or at the start, is asked the lines behind. What the
/// sessions changed that are open at their end is undone in it, and the base has what is left. It stands in front of the oldest of them, or behind all
/// these lines where none is open. The segments in front of it are taken away.
///
/// If nobody has the newest segment, these are all lines, and the next segment is begun. It is refused by `Sessions` where the oldest open session began in
/// a segment in front of the newest. If another process has it, these are the lines of the other segments, none of which is claimed. That process isn't
/// told, and no segment is begun. Where the base would stand where it stands already, it is kept.
///
/// This process has the file of the base that isn't whole yet. Where this fails, or the base is kept, that file may be left: `discard_new_base` takes it away.
/// `File` where no journal is there, or `Segment` where a base names a segment of it. `Locked` where the base would name the
/// newest segment, which another process has and whose header isn't whole yet. The other faults are those of `ask_front` and `ask_closed`, and
/// `Write` where a file isn't written, renamed or made to stay. The clause says what was asked and what was written. It doesn't say that the base took its
/// place, that the next segment was begun, or what was taken away: no file's path and no removal has a clause. Nor does it say who had the newest segment.
pub fn rebased<P: JournalFiles, D: Imaged + Drop>(
    alloc: Global,
    files: &P,
    hub: Hub<D>,
    path: &str,
    schema: &JournalSchema,
    position: Option<&Position>,
    new: NewBase<P::File>,
) -> Result<(), JournalFault>
    requires attached { hub.attached ≡ [] }
    requires locked { P.File.is_locked new.file ≡ true }
    requires seen { P.is_seen files.now (new_base_name path.now) new.file }
    ensures { OnOk result (IsRebased (λ file. P.File.is_locked file ≡ true) (P.is_seen files.now) (P.is_newest files.now path.now) P.File.contents
        P.File.stays path.now schema.now (option_map (λ p. p.now) position.entry) hub.held
        ⊎ IsRebasedBeside (λ file. P.File.is_locked file ≡ true) (P.is_seen files.now) (P.is_newest files.now path.now) P.File.contents
        P.File.stays path.now schema.now (option_map (λ p. p.now) position.entry) hub.held) }
{
    let number = check_there(files, path, position)?;
    match claim_newest(alloc, files, path) {
        Ok(newest) => rebased_alone(alloc, files, hub, path, schema, position, newest, new),
        Err(fault) => match fault.failure {
            JournalFailure::Locked => rebased_beside(
                alloc, files, hub, path, schema, position, number, new,
            ),
            _ => Err(fault),
        },
    }
}
