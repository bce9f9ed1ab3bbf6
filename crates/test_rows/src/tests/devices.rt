//! The rows with a reader or a writer that fails at each of its calls in turn: those of one connection as a stream, the others as
//! events with one writer.
use super::databases::{Ended, Form};
use super::long_rows::{deep_sessions, many_records, odd_lines};
use super::script::{Pieces, Script, scripts};
use super::streams::{Full, Sink, Source};
use mi_catalog::Catalog;
use mi_hub::{Event, ServeFault};
use mi_schema::read_catalog;
use std::alloc::Global;
use std::process::Abort;
use std::test::Fail;

/// What stands behind some steps of a row: how many bytes were sent, an end as one more; all replies; and what another connection sees
/// where the connection of the last step is cut then.
#[derive(Drop)]
struct State {
    sent: usize,
    replies: String,
    seen: Vec<u8>,
}

/// A row as a stream or as events, and what stands before each of its steps and behind the last.
#[derive(Drop)]
struct Course<'a> {
    script: &'a Script,
    catalog: Catalog,
    bytes: Vec<u8>,
    events: Vec<Event>,
    states: Vec<State>,
}

impl Course<'_> {
    /// The course of a row, by the plain database and the replies that the row says.
    fn of(alloc: Global, script: &Script) -> Result<Course<'_>, Fail> {
        let catalog = read_catalog(alloc, script.tables.as_bytes())?;
        let mut states = Vec::new(alloc);
        for count in 0..=script.steps.len() {
            states.push(State::behind(alloc, &catalog, script, count)?)?;
        }
        Ok(Course {
            script,
            catalog,
            bytes: script.bytes(alloc)?,
            events: script.events(alloc, Pieces::Of(4096))?,
            states,
        })
    }

    /// Whether what was written is the replies to so many steps, and another connection sees what they leave.
    fn ends_behind(&self, steps: usize, ended: &Ended) -> bool {
        match self.states.get(steps) {
            Some(state) => ended.shows(state.replies.as_bytes(), state.seen.as_slice()),
            None => false,
        }
    }

    /// Whether all was done.
    fn ends_whole(&self, ended: &Ended) -> bool {
        ended.left == 0 && self.ends_behind(self.script.steps.len(), ended)
    }

    /// Whether all lines of the bytes that were read are answered, and no other was asked.
    fn ends_behind_read(&self, ended: &Ended) -> bool {
        let read = self.bytes.len().saturating_sub(ended.left);
        let states = self.states.iter().filter(|state| state.sent <= read);
        self.ends_behind(states.count().saturating_sub(1), ended)
    }

    /// Whether a proper front of the replies was written, and the line whose reply isn't whole was the last to be asked.
    fn ends_behind_write(&self, ended: &Ended) -> bool {
        let length = ended.written.len();
        let states = self
            .states
            .iter()
            .filter(|state| state.replies.len() <= length);
        match self.states.get(states.count()) {
            Some(state) => {
                state
                    .replies
                    .as_bytes()
                    .starts_with(ended.written.as_slice())
                    && state.seen.as_slice() == ended.seen.as_slice()
            }
            None => false,
        }
    }

    /// Whether so many bytes weren't read as stand behind so many reads of a size.
    fn is_read(&self, reads: usize, size: usize, ended: &Ended) -> bool {
        ended.left == self.bytes.len().saturating_sub(reads.saturating_mul(size))
    }
}

impl State {
    /// What stands behind so many steps.
    fn behind(
        alloc: Global,
        catalog: &Catalog,
        script: &Script,
        count: usize,
    ) -> Result<State, Fail> {
        let mut events = script.events_before(alloc, count, Pieces::Lines)?;
        if !matches!(events.last(), Some(Event::Close(_) | Event::Cut(_))) {
            let last = script.steps.iter().take(count).last();
            events.push(Event::Cut(last.map_or(1, |step| step.conn)))?;
        }
        let ended = Form::Plain.driven(alloc, catalog, events.as_slice(), Sink::sound(alloc))?;
        Ok(State {
            sent: script.sent_before(count),
            replies: script.replies_before(alloc, count)?,
            seen: ended.seen,
        })
    }
}

/// Which call of a device fails behind some that don't, and how many bytes a call gives or takes.
#[derive(Clone, Copy, Debug)]
enum Breaking {
    Read(usize),
    Write(usize, Full),
    Flush(usize),
}

impl Breaking {
    /// The reader of a row's bytes, whose read behind so many calls fails where that is the one.
    fn source(self, bytes: &[u8], calls: usize) -> Source<'_> {
        let (size, reads) = match self {
            Breaking::Read(size) => (size, calls),
            Breaking::Write(_, _) => (usize::MAX, usize::MAX),
            Breaking::Flush(size) => (size, usize::MAX),
        };
        Source {
            left: bytes,
            size,
            reads,
        }
    }

    /// The writer, whose write or flush behind so many calls fails where that is the one.
    fn sink(self, alloc: Global, calls: usize) -> Sink {
        let mut sink = Sink::sound(alloc);
        match self {
            Breaking::Read(_) => {}
            Breaking::Write(size, full) => {
                sink.size = size;
                sink.full = full;
                sink.writes = calls;
            }
            Breaking::Flush(_) => sink.flushes = calls,
        }
        sink
    }

    /// Serves a row whose device fails behind so many calls.
    fn run(
        self,
        alloc: Global,
        form: Form,
        course: &Course<'_>,
        calls: usize,
    ) -> Result<Ended, Fail> {
        let sink = self.sink(alloc, calls);
        if course.script.is_of_one() {
            let source = self.source(course.bytes.as_slice(), calls);
            form.served(alloc, &course.catalog, source, sink)
        } else {
            form.driven(alloc, &course.catalog, course.events.as_slice(), sink)
        }
    }

    /// What a hub answers whose device failed.
    fn fault(self) -> ServeFault {
        match self {
            Breaking::Read(_) => ServeFault::Read,
            Breaking::Write(_, _) | Breaking::Flush(_) => ServeFault::Write,
        }
    }

    /// Whether a row whose device failed behind so many calls left what it must.
    fn leaves(self, course: &Course<'_>, calls: usize, ended: &Ended) -> bool {
        match self {
            Breaking::Read(size) => {
                course.is_read(calls, size, ended) && course.ends_behind_read(ended)
            }
            Breaking::Write(size, _) => {
                (size > 1 || ended.written.len() == calls) && course.ends_behind_write(ended)
            }
            Breaking::Flush(_) => course.ends_behind_read(ended) || course.ends_whole(ended),
        }
    }

    /// Whether a row whose device failed behind so many calls, or met none that fails, ended as it must.
    fn holds(self, course: &Course<'_>, calls: usize, ended: &Ended) -> bool {
        match ended.answer {
            Ok(()) => course.ends_whole(ended),
            Err(fault) => fault == self.fault() && self.leaves(course, calls, ended),
        }
    }

    /// Each call of the device fails in turn, until a run meets none; answers how many failed.
    fn check(
        self,
        rt: &impl Abort,
        alloc: Global,
        form: Form,
        course: &Course<'_>,
    ) -> Result<usize, Fail> {
        for calls in 0..1_000_000 {
            let ended = self.run(alloc, form, course, calls)?;
            let holds = self.holds(course, calls, &ended);
            assert!(rt;
                holds,
                "{}: {self:?} behind {calls} calls",
                course.script.name
            );
            if ended.answer.is_ok() {
                return Ok(calls);
            }
        }
        Err(Fail::from("a row doesn't end"))
    }
}

/// Checks these rows in these ways; answers how many calls failed. What isn't a stream has no reads, and isn't flushed.
fn check_rows(
    rt: &impl Abort,
    alloc: Global,
    form: Form,
    rows: &[Script],
    ways: &[Breaking],
) -> Result<usize, Fail> {
    let mut faults = 0usize;
    for script in rows {
        let course = Course::of(alloc, script)?;
        for way in ways {
            if script.is_of_one() || matches!(way, Breaking::Write(_, _)) {
                faults = faults.saturating_add(way.check(rt, alloc, form, &course)?);
            }
        }
    }
    Ok(faults)
}

/// Devices of every size a call.
const WAYS: [Breaking; 8] = [
    Breaking::Read(1),
    Breaking::Read(7),
    Breaking::Read(4096),
    Breaking::Write(1, Full::Fails),
    Breaking::Write(4096, Full::Fails),
    Breaking::Write(4096, Full::TakesNone),
    Breaking::Flush(7),
    Breaking::Flush(4096),
];

/// Devices that give or take much a call.
const LARGE: [Breaking; 4] = [
    Breaking::Read(4096),
    Breaking::Write(4096, Full::Fails),
    Breaking::Write(4096, Full::TakesNone),
    Breaking::Flush(4096),
];

/// A writer that takes a byte a call.
const BY_BYTE: [Breaking; 1] = [Breaking::Write(1, Full::Fails)];

/// Devices of every size a call, on the rows that are written down and on one with many records; and large ones on long rows.
fn check_devices(rt: &impl Abort, alloc: Global, form: Form) -> Result<(), Fail> {
    let mut rows = scripts(alloc)?;
    rows.push(many_records(alloc, 50)?)?;
    let faults = check_rows(rt, alloc, form, rows.as_slice(), &WAYS)?;
    assert!(rt; faults > 26_000, "{faults} faults");
    check_long(rt, alloc, form)
}

/// Large devices on long rows, and on the one with short replies a writer that takes a byte a call.
fn check_long(rt: &impl Abort, alloc: Global, form: Form) -> Result<(), Fail> {
    let mut rows = Vec::new(alloc);
    rows.push(odd_lines(alloc)?)?;
    let bytes = check_rows(rt, alloc, form, rows.as_slice(), &BY_BYTE)?;
    rows.push(deep_sessions(alloc)?)?;
    let faults = check_rows(rt, alloc, form, rows.as_slice(), &LARGE)?;
    assert!(rt;
        bytes >= 200 && faults > 2_000,
        "{bytes} and {faults} faults of long rows"
    );
    Ok(())
}

#[test]
fn plain_bears_failing_devices(rt: HostRuntime) -> Result<(), Fail> {
    check_devices(&rt, rt.alloc(), Form::Plain)
}

#[test]
fn served_bears_failing_devices(rt: HostRuntime) -> Result<(), Fail> {
    check_devices(&rt, rt.alloc(), Form::Served)
}
