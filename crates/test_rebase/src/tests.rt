//! A rebase that ends at any of its calls, and journals and bases that are refused. What is replied is worked out by hand.
use crate::folder::{Folder, FolderFiles, Names};
use crate::journal::{Known, asked, begin_next, rebase};
use mi_catalog::{Catalog, built_in};
use mi_schema::read_catalog;
use std::alloc::{AllocError, Global};
use std::cell::RefCell;
use std::process::Abort;
use std::test::Fail;

/// The names of the segments and of the base.
const ONE: &str = "j";

const TWO: &str = "j.000002";

const THREE: &str = "j.000003";

const BASE: &str = "j.base";

/// The name of a base that isn't whole yet.
const NEW: &str = "j.base.new";

/// More calls than a rebase makes.
const MOST_CALLS: u64 = 100;

/// Fewer calls than any rebase makes.
const FEWEST_CALLS: u64 = 9;

/// In the order of balances 0 stands behind 1 and 2; the list is 4, 0, 3, 1; no record has the id 2.
const FIRST: &[u8] = b"{\"cmd\":\"insert\",\"row\":{\"owner\":\"ann\",\"balance\":50,\"vip\":false}}
{\"cmd\":\"insert\",\"row\":{\"owner\":\"bob\",\"balance\":50,\"vip\":true}}
{\"cmd\":\"insert\",\"row\":{\"owner\":\"cid\",\"balance\":50,\"vip\":false}}
{\"cmd\":\"modify\",\"id\":0,\"set\":{\"balance\":7}}
{\"cmd\":\"modify\",\"id\":0,\"set\":{\"balance\":50}}
{\"cmd\":\"insert\",\"row\":{\"owner\":\"dan\",\"balance\":50,\"vip\":true},\"before\":{\"index\":\"line\",\"id\":1}}
{\"cmd\":\"erase\",\"id\":2}
{\"cmd\":\"insert\",\"row\":{\"owner\":\"eve\",\"balance\":9,\"vip\":true}}
{\"cmd\":\"relocate\",\"index\":\"line\",\"id\":4,\"before\":0}
";

const FIRST_REPLIES: &[u8] = b"{\"id\":0,\"ok\":true}
{\"id\":1,\"ok\":true}
{\"id\":2,\"ok\":true}
{\"ok\":true}
{\"ok\":true}
{\"id\":3,\"ok\":true}
{\"ok\":true}
{\"id\":4,\"ok\":true}
{\"ok\":true}
";

/// Behind these the list is 4, 3, 1, 5, 0. Of those with `vip` 1 stands behind 3 and 4. The next id is 7.
const SECOND: &[u8] = b"{\"cmd\":\"start\"}
{\"cmd\":\"insert\",\"row\":{\"owner\":\"fay\",\"balance\":50,\"vip\":false}}
{\"cmd\":\"relocate\",\"index\":\"line\",\"id\":0,\"before\":null}
{\"cmd\":\"modify\",\"id\":1,\"set\":{\"vip\":false}}
{\"cmd\":\"modify\",\"id\":1,\"set\":{\"vip\":true}}
{\"cmd\":\"commit\",\"revision\":1}
{\"cmd\":\"start\"}
{\"cmd\":\"insert\",\"row\":{\"owner\":\"gus\",\"balance\":9,\"vip\":false}}
{\"cmd\":\"undo\"}
{\"cmd\":\"insert\",\"row\":{\"owner\":\"hal\",\"balance\":9,\"vip\":false}}
{\"cmd\":\"erase\",\"id\":6}
";

const SECOND_REPLIES: &[u8] = b"{\"ok\":true,\"revision\":1}
{\"id\":5,\"ok\":true}
{\"ok\":true}
{\"ok\":true}
{\"ok\":true}
{\"committed\":1,\"ok\":true}
{\"ok\":true,\"revision\":2}
{\"id\":6,\"ok\":true}
{\"ok\":true,\"revision\":1}
{\"id\":6,\"ok\":true}
{\"ok\":true}
";

/// Behind the others: a session is open, in which a record comes and one moves.
const OPEN: &[u8] = b"{\"cmd\":\"start\"}
{\"cmd\":\"insert\",\"row\":{\"owner\":\"ivy\",\"balance\":50,\"vip\":true}}
{\"cmd\":\"modify\",\"id\":3,\"set\":{\"balance\":8}}
";

const OPEN_REPLIES: &[u8] = b"{\"ok\":true,\"revision\":2}
{\"id\":7,\"ok\":true}
{\"ok\":true}
";

const PUSH: &[u8] = b"{\"cmd\":\"push\"}\n";

const PUSH_REPLY: &[u8] = b"{\"ok\":true,\"pushed\":1}\n";

const UNDO: &[u8] = b"{\"cmd\":\"undo\"}\n";

const UNDO_REPLY: &[u8] = b"{\"ok\":true,\"revision\":1}\n";

/// Each index is looked up, and the counters; what is changed is undone.
const LOOK_UPS: &[u8] = b"{\"cmd\":\"size\"}
{\"cmd\":\"revision\"}
{\"cmd\":\"range\",\"index\":\"id\"}
{\"cmd\":\"range\",\"index\":\"by_balance\"}
{\"cmd\":\"range\",\"index\":\"by_class\"}
{\"cmd\":\"list\",\"index\":\"line\"}
{\"cmd\":\"find\",\"index\":\"by_owner\",\"key\":[\"bob\"]}
{\"cmd\":\"find\",\"index\":\"by_vip\",\"key\":[true]}
{\"cmd\":\"count\",\"index\":\"by_vip\",\"key\":[true]}
{\"cmd\":\"rank\",\"index\":\"by_balance\",\"id\":3}
{\"cmd\":\"start\"}
{\"cmd\":\"insert\",\"row\":{\"owner\":\"ida\",\"balance\":1,\"vip\":true}}
{\"cmd\":\"undo\"}
";

const FOUND: &[u8] = b"{\"ok\":true,\"size\":5}
{\"depth\":0,\"held\":0,\"ok\":true,\"revision\":1}
{\"more\":false,\"ok\":true,\"rows\":[{\"balance\":50,\"id\":0,\"owner\":\"ann\",\"vip\":false},{\"balance\":50,\"id\":1,\"owner\":\"bob\",\"vip\":true},\
{\"balance\":50,\"id\":3,\"owner\":\"dan\",\"vip\":true},{\"balance\":9,\"id\":4,\"owner\":\"eve\",\"vip\":true},\
{\"balance\":50,\"id\":5,\"owner\":\"fay\",\"vip\":false}]}
{\"more\":false,\"ok\":true,\"rows\":[{\"balance\":9,\"id\":4,\"owner\":\"eve\",\"vip\":true},{\"balance\":50,\"id\":1,\"owner\":\"bob\",\"vip\":true},\
{\"balance\":50,\"id\":0,\"owner\":\"ann\",\"vip\":false},{\"balance\":50,\"id\":3,\"owner\":\"dan\",\"vip\":true},\
{\"balance\":50,\"id\":5,\"owner\":\"fay\",\"vip\":false}]}
{\"more\":false,\"ok\":true,\"rows\":[{\"balance\":9,\"id\":4,\"owner\":\"eve\",\"vip\":true},{\"balance\":50,\"id\":3,\"owner\":\"dan\",\"vip\":true},\
{\"balance\":50,\"id\":1,\"owner\":\"bob\",\"vip\":true},{\"balance\":50,\"id\":0,\"owner\":\"ann\",\"vip\":false},\
{\"balance\":50,\"id\":5,\"owner\":\"fay\",\"vip\":false}]}
{\"more\":false,\"ok\":true,\"rows\":[{\"balance\":9,\"id\":4,\"owner\":\"eve\",\"vip\":true},{\"balance\":50,\"id\":3,\"owner\":\"dan\",\"vip\":true},\
{\"balance\":50,\"id\":1,\"owner\":\"bob\",\"vip\":true},{\"balance\":50,\"id\":5,\"owner\":\"fay\",\"vip\":false},\
{\"balance\":50,\"id\":0,\"owner\":\"ann\",\"vip\":false}]}
{\"ok\":true,\"row\":{\"balance\":50,\"id\":1,\"owner\":\"bob\",\"vip\":true}}
{\"ok\":true,\"row\":{\"balance\":50,\"id\":3,\"owner\":\"dan\",\"vip\":true}}
{\"count\":3,\"ok\":true}
{\"ok\":true,\"rank\":3}
{\"ok\":true,\"revision\":2}
{\"id\":7,\"ok\":true}
{\"ok\":true,\"revision\":1}
";

/// Stops unless it holds.
fn check(rt: &impl Abort, holds: bool, what: &str) {
    assert!(rt; holds, "{what}");
}

/// Asks a folder's journal lines, and asserts what is replied.
fn check_replies(
    rt: &impl Abort,
    alloc: Global,
    known: &Known,
    folder: &RefCell<Folder>,
    lines: &[u8],
    want: &[u8],
) -> Result<(), Fail> {
    let replies = asked(alloc, &FolderFiles { folder }, known, lines)?;
    check(rt, replies.as_slice() == want, "the replies are these");
    Ok(())
}

/// What a journal has open at its end, and whether another process has its newest segment.
#[derive(Clone, Copy)]
enum AtEnd {
    /// Nothing.
    Nothing,
    /// A session that was held as the process stopped, which a start undoes.
    Held,
    /// A session that was let go of.
    Pushed,
    /// Nothing; another process has the third segment.
    Served,
    /// A session that was let go of and began in the second segment; another process has the third.
    ServedPushed,
}

impl AtEnd {
    /// The segment that another process has.
    fn served(self) -> Option<&'static str> {
        match self {
            AtEnd::Served | AtEnd::ServedPushed => Some(THREE),
            AtEnd::Nothing | AtEnd::Held | AtEnd::Pushed => None,
        }
    }

    /// Whether a session was let go of.
    fn is_pushed(self) -> bool {
        matches!(self, AtEnd::Pushed | AtEnd::ServedPushed)
    }

    /// Whether a rebase may be refused, since what is open began in front of the newest segment.
    fn may_be_refused(self) -> bool {
        matches!(self, AtEnd::Held | AtEnd::Pushed)
    }
}

/// Asserts that a folder has a base, and of the segments those alone that it needs. The first one isn't among them where nothing is open, or another
/// process has the newest.
fn check_rebased(rt: &impl Abort, folder: &Folder, at_end: AtEnd) {
    check(rt, folder.has(BASE), "a base is there");
    if !at_end.may_be_refused() {
        check(rt, !folder.has(ONE), "the first segment is gone");
    }
    let segments = if matches!(at_end, AtEnd::Nothing | AtEnd::Served) {
        1
    } else {
        2
    };
    check(
        rt,
        folder.len() == segments + 1,
        "there are no other segments",
    );
}

/// Asserts that a folder's journal is rebased; or that it is refused, since what is open began in a segment in front of the newest.
fn check_rebase(
    rt: &impl Abort,
    alloc: Global,
    known: &Known,
    folder: &RefCell<Folder>,
    at_end: AtEnd,
) {
    match rebase(alloc, &FolderFiles { folder }, known) {
        Ok(()) => {}
        Err(refused) => {
            check(rt, at_end.may_be_refused(), "a rebase isn't refused");
            check(rt, refused.is("sessions", 0, 0), "by the session");
        }
    }
}

/// A start gives the tables, once what was let go of is undone.
fn check_tables(
    rt: &impl Abort,
    alloc: Global,
    known: &Known,
    folder: &RefCell<Folder>,
    at_end: AtEnd,
) -> Result<(), Fail> {
    if at_end.is_pushed() {
        check_replies(rt, alloc, known, folder, UNDO, UNDO_REPLY)?;
    }
    check_replies(rt, alloc, known, folder, LOOK_UPS, FOUND)
}

/// A folder in which another process has the newest segment, where it is so. What that has written doesn't stay yet.
fn served(folder: Folder, at_end: AtEnd) -> Result<Folder, AllocError> {
    let mut folder = folder;
    if let Some(name) = at_end.served() {
        folder.lock(name)?;
        folder.unsync(name);
    }
    Ok(folder)
}

/// What a start leaves that is asked no line.
fn begun(alloc: Global, known: &Known, found: Folder) -> Result<Folder, Fail> {
    let folder = RefCell::new(found);
    let _replies = asked(alloc, &FolderFiles { folder: &folder }, known, b"")?;
    Ok(folder.into_inner().copy()?)
}

/// A folder that is found behind a stop: a start gives the tables, and so does one behind another rebase, which leaves a base.
fn check_found(
    rt: &impl Abort,
    alloc: Global,
    known: &Known,
    found: Folder,
    at_end: AtEnd,
) -> Result<(), Fail> {
    let started = RefCell::new(found.copy()?);
    check_tables(rt, alloc, known, &started, at_end)?;
    // (who serves the journal has started, and so completed the header of its newest segment)
    let begun = match at_end.served() {
        Some(_name) => begun(alloc, known, found)?,
        None => found,
    };
    let folder = RefCell::new(served(begun, at_end)?);
    check_rebase(rt, alloc, known, &folder, at_end);
    let left = folder.into_inner().copy()?;
    check(rt, left.has(BASE), "a base is there");
    if !at_end.may_be_refused() {
        check_rebased(rt, &left, at_end);
    }
    check_tables(rt, alloc, known, &RefCell::new(left), at_end)
}

/// What is found where the process stops, and where the machine does: whether it is all that was written, and under which names.
const STOPS: [(bool, Names); 4] = [
    (true, Names::All),
    (false, Names::All),
    (false, Names::Synced),
    (false, Names::Removed),
];

/// What a rebase leaves at its end is a base and one segment alone, also behind each kind of stop.
fn check_rebased_for_good(rt: &impl Abort, left: &Folder, at_end: AtEnd) -> Result<(), Fail> {
    for (keeps_bytes, names) in STOPS {
        check_rebased(rt, &left.found(keeps_bytes, names, u64::MAX)?, at_end);
    }
    Ok(())
}

/// What a stopped rebase leaves gives the tables behind each kind of stop.
fn check_stopped(
    rt: &impl Abort,
    alloc: Global,
    known: &Known,
    left: &Folder,
    at_end: AtEnd,
) -> Result<(), Fail> {
    for (keeps_bytes, names) in STOPS {
        let found = left.found(keeps_bytes, names, u64::MAX)?;
        check_found(rt, alloc, known, found, at_end)?;
    }
    Ok(())
}

/// What a rebase of a copy of a journal leaves, of which so many calls may change something, and whether it came to its end.
fn stopped(
    alloc: Global,
    known: &Known,
    journal: &Folder,
    at_end: AtEnd,
    calls: u64,
) -> Result<(Folder, bool), AllocError> {
    let folder = RefCell::new(served(journal.found(true, Names::All, calls)?, at_end)?);
    let ended = rebase(alloc, &FolderFiles { folder: &folder }, known).is_ok();
    Ok((folder.into_inner(), ended))
}

/// A rebase of a journal is stopped at each of its calls.
fn check_each_call(
    rt: &impl Abort,
    alloc: Global,
    known: &Known,
    journal: &Folder,
    at_end: AtEnd,
) -> Result<(), Fail> {
    for calls in 0..MOST_CALLS {
        let (left, ended) = stopped(alloc, known, journal, at_end, calls)?;
        check_stopped(rt, alloc, known, &left, at_end)?;
        if ended {
            check(rt, calls >= FEWEST_CALLS, "a rebase makes more calls");
            return check_rebased_for_good(rt, &left, at_end);
        }
    }
    Err(Fail::from("no rebase comes to its end"))
}

/// The built-in schema.
fn accounts(alloc: Global) -> Result<Known, AllocError> {
    Known::of(alloc, Catalog::of(alloc, built_in(alloc)?)?)
}

/// How a journal is rebased between its first lines and its second ones.
#[derive(Clone, Copy)]
enum Between {
    /// It isn't: it has one segment.
    Never,
    /// Up to where the next segment is begun: it has two, and no base.
    Begun,
    /// To its end: it has a base, and a segment behind that.
    Whole,
}

/// What a rebase leaves that is stopped once the next segment is begun.
fn with_next(alloc: Global, known: &Known, journal: &Folder) -> Result<Folder, Fail> {
    for calls in 0..MOST_CALLS {
        let (left, _ended) = stopped(alloc, known, journal, AtEnd::Nothing, calls)?;
        if left.has(TWO) {
            return Ok(left.copy()?);
        }
    }
    Err(Fail::from("no rebase begins a segment"))
}

/// What is done to a journal between its lines.
fn between_lines(
    alloc: Global,
    known: &Known,
    journal: Folder,
    between: Between,
) -> Result<Folder, Fail> {
    match between {
        Between::Never => Ok(journal),
        Between::Begun => with_next(alloc, known, &journal),
        Between::Whole => Ok(stopped(alloc, known, &journal, AtEnd::Nothing, u64::MAX)?.0),
    }
}

/// A journal of these lines, its second ones behind a rebase.
fn journal(
    rt: &impl Abort,
    alloc: Global,
    known: &Known,
    between: Between,
) -> Result<Folder, Fail> {
    let first = RefCell::new(Folder::new(alloc));
    check_replies(rt, alloc, known, &first, FIRST, FIRST_REPLIES)?;
    let folder = RefCell::new(between_lines(alloc, known, first.into_inner(), between)?);
    check_replies(rt, alloc, known, &folder, SECOND, SECOND_REPLIES)?;
    Ok(folder.into_inner())
}

#[test]
fn a_first_rebase_may_stop_anywhere(rt: HostRuntime) -> Result<(), Fail> {
    let known = accounts(rt.alloc())?;
    let journal = journal(&rt, rt.alloc(), &known, Between::Never)?;
    check_each_call(&rt, rt.alloc(), &known, &journal, AtEnd::Nothing)
}

#[test]
fn a_later_rebase_may_stop_anywhere(rt: HostRuntime) -> Result<(), Fail> {
    let known = accounts(rt.alloc())?;
    let journal = journal(&rt, rt.alloc(), &known, Between::Whole)?;
    check_each_call(&rt, rt.alloc(), &known, &journal, AtEnd::Nothing)
}

#[test]
fn a_rebase_of_two_segments_may_stop_anywhere(rt: HostRuntime) -> Result<(), Fail> {
    let known = accounts(rt.alloc())?;
    let journal = journal(&rt, rt.alloc(), &known, Between::Begun)?;
    check_each_call(&rt, rt.alloc(), &known, &journal, AtEnd::Nothing)
}

/// A torn line at its end is cut off first.
#[test]
fn a_rebase_of_a_torn_line_may_stop_anywhere(rt: HostRuntime) -> Result<(), Fail> {
    let known = accounts(rt.alloc())?;
    let whole = journal(&rt, rt.alloc(), &known, Between::Never)?;
    let torn = joined(rt.alloc(), whole.text(ONE), b"{\"cmd\":\"sta")?;
    let journal = with(&whole, ONE, torn.as_slice())?;
    check_each_call(&rt, rt.alloc(), &known, &journal, AtEnd::Nothing)
}

/// A journal with a session open at its end. Behind that are all lines of the newest segment in which it began.
fn open_journal(
    rt: &impl Abort,
    alloc: Global,
    known: &Known,
    between: Between,
    last: &[u8],
    last_reply: &[u8],
) -> Result<Folder, Fail> {
    let folder = RefCell::new(journal(rt, alloc, known, between)?);
    let lines = joined(alloc, OPEN, last)?;
    let replies = joined(alloc, OPEN_REPLIES, last_reply)?;
    check_replies(
        rt,
        alloc,
        known,
        &folder,
        lines.as_slice(),
        replies.as_slice(),
    )?;
    Ok(folder.into_inner())
}

#[test]
fn a_rebase_with_a_held_session_may_stop_anywhere(rt: HostRuntime) -> Result<(), Fail> {
    let known = accounts(rt.alloc())?;
    let journal = open_journal(&rt, rt.alloc(), &known, Between::Never, b"", b"")?;
    check_each_call(&rt, rt.alloc(), &known, &journal, AtEnd::Held)
}

#[test]
fn a_rebase_with_a_pushed_session_may_stop_anywhere(rt: HostRuntime) -> Result<(), Fail> {
    let known = accounts(rt.alloc())?;
    let journal = open_journal(&rt, rt.alloc(), &known, Between::Begun, PUSH, PUSH_REPLY)?;
    check_each_call(&rt, rt.alloc(), &known, &journal, AtEnd::Pushed)
}

/// An open session that began in a segment in front of the newest.
#[test]
fn older_open_sessions_are_refused(rt: HostRuntime) -> Result<(), Fail> {
    let known = accounts(rt.alloc())?;
    let journal = open_journal(&rt, rt.alloc(), &known, Between::Never, PUSH, PUSH_REPLY)?;
    let folder = RefCell::new(journal);
    let files = FolderFiles { folder: &folder };
    begin_next(rt.alloc(), &files, &known, 1)?;
    match rebase(rt.alloc(), &files, &known) {
        Ok(()) => check(&rt, false, "a rebase is refused"),
        Err(refused) => check(&rt, refused.is("sessions", 0, 0), "by the session"),
    }
    check_tables(&rt, rt.alloc(), &known, &folder, AtEnd::Pushed)
}

/// A journal whose third segment has no line. Another process is to have that.
fn with_third(alloc: Global, known: &Known, journal: Folder) -> Result<Folder, Fail> {
    let folder = RefCell::new(journal);
    begin_next(alloc, &FolderFiles { folder: &folder }, known, 2)?;
    Ok(folder.into_inner().copy()?)
}

/// Another process has the newest segment.
#[test]
fn a_rebase_beside_may_stop_anywhere(rt: HostRuntime) -> Result<(), Fail> {
    let known = accounts(rt.alloc())?;
    let journal = journal(&rt, rt.alloc(), &known, Between::Begun)?;
    let journal = with_third(rt.alloc(), &known, journal)?;
    check_each_call(&rt, rt.alloc(), &known, &journal, AtEnd::Served)
}

/// Another process has the newest segment, and a session is open that began in the one before.
#[test]
fn a_rebase_beside_an_open_session_may_stop_anywhere(rt: HostRuntime) -> Result<(), Fail> {
    let known = accounts(rt.alloc())?;
    let journal = open_journal(&rt, rt.alloc(), &known, Between::Begun, PUSH, PUSH_REPLY)?;
    let journal = with_third(rt.alloc(), &known, journal)?;
    check_each_call(&rt, rt.alloc(), &known, &journal, AtEnd::ServedPushed)
}

/// What a base has that isn't whole yet.
const PART: &[u8] = b"a part of a base";

/// Another process rebases the journal: it has the file of a base that isn't whole yet.
#[test]
fn one_rebase_goes_on_at_a_time(rt: HostRuntime) -> Result<(), Fail> {
    let known = accounts(rt.alloc())?;
    let mut journal = journal(&rt, rt.alloc(), &known, Between::Never)?;
    journal.put(NEW, PART)?;
    journal.lock(NEW)?;
    let folder = RefCell::new(journal);
    match rebase(rt.alloc(), &FolderFiles { folder: &folder }, &known) {
        Ok(()) => check(&rt, false, "a rebase is refused"),
        Err(refused) => check(&rt, refused.is("locked", 0, 0), "since another goes on"),
    }
    let left = folder.into_inner();
    check(&rt, left.text(NEW) == PART, "its file is left");
    check(&rt, left.len() == 2, "nothing else is made");
    Ok(())
}

/// The same tables, of which there are fewer rows at most: a base of the built-in schema can be read as one of this.
const OTHER: &str = r#"table = "accounts"
max_rows = 100
column = [{name = "owner", type = "text"}, {name = "balance", type = "int"}, {name = "vip", type = "flag"}]
index = [
    {name = "by_owner", kind = "hashed", unique = true, key = ["owner"]},
    {name = "by_balance", kind = "ranked", key = ["balance"]},
    {name = "by_vip", kind = "hashed", key = ["vip"]},
    {name = "by_class", kind = "ordered", key = ["-vip", "balance"]},
    {name = "line", kind = "sequenced"},
]
"#;

fn other(alloc: Global) -> Result<Known, Fail> {
    Ok(Known::of(alloc, read_catalog(alloc, OTHER.as_bytes())?)?)
}

/// A copy of a folder, in which the file of a name has these bytes.
fn with(folder: &Folder, name: &str, bytes: &[u8]) -> Result<Folder, AllocError> {
    let mut copy = folder.copy()?;
    copy.put(name, bytes)?;
    Ok(copy)
}

/// A copy of a folder that lacks a name.
fn without(folder: &Folder, name: &str) -> Result<Folder, Fail> {
    let mut copy = folder.copy()?;
    copy.remove(name)?;
    Ok(copy)
}

/// Bytes, and others behind them.
fn joined(alloc: Global, bytes: &[u8], more: &[u8]) -> Result<Vec<u8>, AllocError> {
    let mut all = bytes.to_vec(alloc)?;
    all.extend_from_slice(more)?;
    Ok(all)
}

/// Asserts that a start and a rebase of a folder's journal end so.
fn check_refused(
    rt: &impl Abort,
    alloc: Global,
    known: &Known,
    folder: Folder,
    word: &str,
    segment: u64,
    line: u64,
) {
    let folder = RefCell::new(folder);
    let files = FolderFiles { folder: &folder };
    match asked(alloc, &files, known, LOOK_UPS) {
        Ok(_replies) => check(rt, false, "a start is refused"),
        Err(refused) => check(rt, refused.is(word, segment, line), word),
    }
    match rebase(alloc, &files, known) {
        Ok(()) => check(rt, false, "a rebase is refused"),
        Err(refused) => check(rt, refused.is(word, segment, line), word),
    }
}

/// Asserts what a start and a rebase say of a journal whose file of a name has these bytes in place of its own.
fn check_changed(
    rt: &impl Abort,
    alloc: Global,
    known: &Known,
    journal: &Folder,
    name: &str,
    bytes: &[u8],
    want: (&str, u64, u64),
) -> Result<(), Fail> {
    let (word, segment, line) = want;
    let changed = with(journal, name, bytes)?;
    check_refused(rt, alloc, known, changed, word, segment, line);
    Ok(())
}

/// What a rebase leaves of a journal that has no line.
fn of_no_line(alloc: Global, known: &Known) -> Result<Folder, Fail> {
    let folder = RefCell::new(Folder::new(alloc));
    let _replies = asked(alloc, &FolderFiles { folder: &folder }, known, b"")?;
    Ok(stopped(alloc, known, &folder.into_inner(), AtEnd::Nothing, u64::MAX)?.0)
}

/// Where no journal is, none is rebased, and none is made.
#[test]
fn no_journal_is_refused(rt: HostRuntime) -> Result<(), Fail> {
    let known = accounts(rt.alloc())?;
    let folder = RefCell::new(Folder::new(rt.alloc()));
    match rebase(rt.alloc(), &FolderFiles { folder: &folder }, &known) {
        Ok(()) => check(&rt, false, "a rebase is refused"),
        Err(refused) => check(&rt, refused.is("file", 0, 0), "by the file"),
    }
    check(&rt, folder.into_inner().len() == 0, "nothing is made");
    Ok(())
}

/// Bases that are cut.
#[test]
fn cut_bases_are_refused(rt: HostRuntime) -> Result<(), Fail> {
    let alloc = rt.alloc();
    let known = accounts(alloc)?;
    let journal = journal(&rt, alloc, &known, Between::Whole)?;
    let base = journal.text(BASE);
    for left in [0, 1, base.len() / 2, base.len().saturating_sub(1)] {
        let (front, _) = base.split_at(base.len().min(left));
        check_changed(&rt, alloc, &known, &journal, BASE, front, ("base", 0, 0))?;
    }
    Ok(())
}

/// A base of another schema, one of another journal, and one whose segment isn't there.
#[test]
fn other_bases_are_refused(rt: HostRuntime) -> Result<(), Fail> {
    let alloc = rt.alloc();
    let known = accounts(alloc)?;
    let journal = journal(&rt, alloc, &known, Between::Whole)?;
    check_refused(&rt, alloc, &other(alloc)?, journal.copy()?, "base", 0, 0);
    let others = of_no_line(alloc, &known)?;
    let base = others.text(BASE);
    check_changed(&rt, alloc, &known, &journal, BASE, base, ("base", 0, 0))?;
    let alone = without(&journal, TWO)?;
    check_refused(&rt, alloc, &known, alone, "segment", 2, 0);
    Ok(())
}

/// Of two segments one isn't there, the first is torn or longer, or the second is the first again, or one of another journal.
#[test]
fn segments_are_refused(rt: HostRuntime) -> Result<(), Fail> {
    let alloc = rt.alloc();
    let known = accounts(alloc)?;
    let journal = journal(&rt, alloc, &known, Between::Begun)?;
    let lacking = without(&journal, ONE)?;
    check_refused(&rt, alloc, &known, lacking, "segment", 1, 0);
    let first = journal.text(ONE);
    let (torn, _) = first.split_at(first.len().saturating_sub(1));
    check_changed(&rt, alloc, &known, &journal, ONE, torn, ("segment", 1, 0))?;
    let longer = joined(alloc, first, b"{\"cmd\":\"erase\",\"id\":4}\n")?;
    check_changed(
        &rt,
        alloc,
        &known,
        &journal,
        ONE,
        longer.as_slice(),
        ("segment", 2, 0),
    )?;
    check_changed(&rt, alloc, &known, &journal, TWO, first, ("segment", 2, 0))?;
    let others = of_no_line(alloc, &known)?;
    let second = others.text(TWO);
    check_changed(&rt, alloc, &known, &journal, TWO, second, ("segment", 2, 0))
}

/// Segments of another schema, and a line of the second that changes nothing, behind its header and eleven others.
#[test]
fn schemas_and_lines_are_refused(rt: HostRuntime) -> Result<(), Fail> {
    let alloc = rt.alloc();
    let known = accounts(alloc)?;
    let journal = journal(&rt, alloc, &known, Between::Begun)?;
    check_refused(&rt, alloc, &other(alloc)?, journal.copy()?, "schema", 0, 0);
    let longer = joined(alloc, journal.text(TWO), b"{\"cmd\":\"size\"}\n")?;
    check_changed(
        &rt,
        alloc,
        &known,
        &journal,
        TWO,
        longer.as_slice(),
        ("line", 2, 13),
    )
}
