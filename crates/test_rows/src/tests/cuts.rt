//! Each valid line of the rows cut short behind each of its bytes, and its connection closed there.
use super::databases::{Ended, Form};
use super::long_rows::{deep_sessions, many_records};
use super::script::{Act, Pieces, Script, scripts};
use super::streams::Sink;
use mi_catalog::Catalog;
use mi_hub::Event;
use mi_schema::read_catalog;
use std::alloc::Global;
use std::process::Abort;
use std::test::Fail;

/// What the front of an object is answered.
const JSON: &str = "{\"error\":\"json\",\"ok\":false}\n";

/// A valid line: the step of a row that sends it, its connection, its text without a newline, and its reply.
#[derive(Drop)]
struct Line<'a> {
    script: &'a Script,
    step: usize,
    conn: u64,
    text: &'a [u8],
    reply: &'a str,
}

impl Line<'_> {
    /// The line that a step sends, where that is valid. Where it has no newline its reply comes with the step behind it.
    fn at(script: &Script, step: usize) -> Option<Line<'_>> {
        let sent = script.steps.get(step)?;
        let Act::Sends(bytes) = &sent.act else {
            return None;
        };
        let (text, answered) = match bytes.split_last() {
            Some((b'\n', text)) => (text, sent),
            _ => (bytes.as_slice(), script.steps.get(step.saturating_add(1))?),
        };
        let reply = answered.replies.as_str();
        if reply.is_empty() || reply == JSON {
            return None;
        }
        Some(Line {
            script,
            step,
            conn: sent.conn,
            text,
            reply,
        })
    }

    /// How the row ends where these bytes of the line are the last that its connection sends.
    fn closed_behind(
        &self,
        alloc: Global,
        form: Form,
        catalog: &Catalog,
        bytes: &[u8],
    ) -> Result<Ended, Fail> {
        let mut events = self.script.events_before(alloc, self.step, Pieces::Lines)?;
        events.push(Event::Piece(self.conn, bytes.to_vec(alloc)?))?;
        events.push(Event::Close(self.conn))?;
        form.driven(alloc, catalog, events.as_slice(), Sink::sound(alloc))
    }

    /// Each front of the line is answered `json`, and the empty one by nothing; the whole line has its reply, and nothing else is
    /// written. What a front leaves is what the plain database has where nothing of the line is sent.
    fn check(
        &self,
        rt: &impl Abort,
        alloc: Global,
        form: Form,
        catalog: &Catalog,
    ) -> Result<(), Fail> {
        let ended = [self.text, b"\n"].concat(alloc)?;
        let none = self.after(alloc, catalog, b"", "")?;
        self.check_front(rt, alloc, form, catalog, 0, &none)?;
        self.check_fronts(rt, alloc, form, catalog)?;
        let whole = self.after(alloc, catalog, ended.as_slice(), self.reply)?;
        self.check_front(rt, alloc, form, catalog, self.text.len(), &whole)
    }

    /// Each front but the empty one and the whole line.
    fn check_fronts(
        &self,
        rt: &impl Abort,
        alloc: Global,
        form: Form,
        catalog: &Catalog,
    ) -> Result<(), Fail> {
        let front = self.after(alloc, catalog, b"", JSON)?;
        for length in 1..self.text.len() {
            self.check_front(rt, alloc, form, catalog, length, &front)?;
        }
        Ok(())
    }

    /// What is wanted where this is the reply, and these bytes leave the same behind them in the plain database.
    fn after(
        &self,
        alloc: Global,
        catalog: &Catalog,
        bytes: &[u8],
        reply: &str,
    ) -> Result<Wanted, Fail> {
        let mut written = self.script.replies_before(alloc, self.step)?;
        written.push_str(reply)?;
        let seen = self.closed_behind(alloc, Form::Plain, catalog, bytes)?.seen;
        Ok(Wanted { written, seen })
    }

    /// The row ends as wanted where so many bytes of the line are the last that its connection sends.
    fn check_front(
        &self,
        rt: &impl Abort,
        alloc: Global,
        form: Form,
        catalog: &Catalog,
        length: usize,
        wanted: &Wanted,
    ) -> Result<(), Fail> {
        let (front, _) = self.text.split_at(length.min(self.text.len()));
        let ended = self.closed_behind(alloc, form, catalog, front)?;
        assert!(rt;
            ended.is_whole(wanted.written.as_bytes(), wanted.seen.as_slice()),
            "{} cut at {length} of step {}",
            self.script.name,
            self.step
        );
        Ok(())
    }
}

/// What is to be written, and what another connection is to see then.
#[derive(Drop)]
struct Wanted {
    written: String,
    seen: Vec<u8>,
}

/// How many lines were checked, and how many bytes they have.
#[derive(Drop)]
struct Checked {
    lines: usize,
    bytes: usize,
}

/// Checks each valid line of a row from one step on.
fn check_row(
    rt: &impl Abort,
    alloc: Global,
    form: Form,
    script: &Script,
    from: usize,
    checked: &mut Checked,
) -> Result<(), Fail> {
    let catalog = read_catalog(alloc, script.tables.as_bytes())?;
    for step in from..script.steps.len() {
        if let Some(line) = Line::at(script, step) {
            line.check(rt, alloc, form, &catalog)?;
            checked.lines = checked.lines.saturating_add(1);
            checked.bytes = checked.bytes.saturating_add(line.text.len());
        }
    }
    Ok(())
}

/// Checks the last two lines of a row with many sessions.
fn check_deep(
    rt: &impl Abort,
    alloc: Global,
    form: Form,
    checked: &mut Checked,
) -> Result<(), Fail> {
    let deep = deep_sessions(alloc)?;
    let last = deep.steps.len().saturating_sub(2);
    check_row(rt, alloc, form, &deep, last, checked)
}

/// All rows that are written down, one with many records, and the last two lines of one with many sessions.
fn check_cuts(rt: &impl Abort, alloc: Global, form: Form) -> Result<(), Fail> {
    let mut checked = Checked { lines: 0, bytes: 0 };
    let mut rows = scripts(alloc)?;
    rows.push(many_records(alloc, 50)?)?;
    check_deep(rt, alloc, form, &mut checked)?;
    for script in &rows {
        check_row(rt, alloc, form, script, 0, &mut checked)?;
    }
    assert!(rt;
        checked.lines > 250 && checked.bytes > 12_000,
        "{} lines of {} bytes",
        checked.lines,
        checked.bytes
    );
    Ok(())
}

#[test]
fn plain_answers_cut_lines(rt: HostRuntime) -> Result<(), Fail> {
    check_cuts(&rt, rt.alloc(), Form::Plain)
}

#[test]
fn served_answers_cut_lines(rt: HostRuntime) -> Result<(), Fail> {
    check_cuts(&rt, rt.alloc(), Form::Served)
}
