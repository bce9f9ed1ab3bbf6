//! Rows as scripts: what each connection sends, one step after another, and what it is answered.
ghost use Rattle.std.specs.Prelude.{◌<◌};

use super::rows::{ACCOUNTS, ROWS, TWO};
use mi_hub::Event;
use std::alloc::{AllocError, Global};

/// What a connection does.
#[derive(Drop)]
pub(super) enum Act {
    Sends(Vec<u8>),
    Closes,
    BreaksOff,
}

/// One thing that a connection does, and the replies, each with its newline.
#[derive(Drop)]
pub(super) struct Step {
    pub(super) conn: u64,
    pub(super) act: Act,
    pub(super) replies: String,
}

/// A row: its name, what it says itself, the text of its tables' schemas, and what is done and answered.
#[derive(Drop)]
pub(super) struct Script {
    pub(super) name: &'static str,
    text: &'static str,
    pub(super) tables: String,
    pub(super) steps: Vec<Step>,
}

/// How what a connection sends is cut into pieces.
#[derive(Clone, Copy, Debug)]
pub(super) enum Pieces {
    /// A piece for each line.
    Lines,
    /// Two pieces for each line, the newline in the second.
    Halves,
    /// Pieces of so many bytes, over all lines that a connection sends one behind another.
    Of(usize),
}

impl Act {
    /// What is done where a row says this of a connection.
    fn of(alloc: Global, text: &str) -> Result<Act, AllocError> {
        match text {
            "closes" => Ok(Act::Closes),
            "breaks off" => Ok(Act::BreaksOff),
            line => Ok(Act::Sends([line.as_bytes(), b"\n"].concat(alloc)?)),
        }
    }
}

impl Step {
    /// Has the step happen. What is sent comes behind what the connection sent before.
    fn happens(&self, sent: &mut Vec<u8>, events: &mut Vec<Event>) -> Result<(), AllocError> {
        match &self.act {
            Act::Sends(bytes) => sent.extend_from_slice(bytes.as_slice())?,
            Act::Closes => events.push(Event::Close(self.conn))?,
            Act::BreaksOff => events.push(Event::Cut(self.conn))?,
        }
        Ok(())
    }
}

impl Script {
    /// A row over accounts with nothing done yet, and what it says itself.
    pub(super) fn new(
        alloc: Global,
        name: &'static str,
        text: &'static str,
    ) -> Result<Script, AllocError> {
        Ok(Script {
            name,
            text,
            tables: String::from_str(alloc, ACCOUNTS)?,
            steps: Vec::new(alloc),
        })
    }

    /// The row that a text is, behind the rows that stand before it.
    fn of_row(alloc: Global, row: &'static str, before: &[Script]) -> Result<Script, AllocError> {
        let (name, text) = row.split_once('\n').unwrap_or((row, ""));
        let mut script = Script::new(alloc, name, text)?;
        if let Some(first) = first_of(text) {
            script.read_all(alloc, text_of(before, first))?;
        }
        script.read_all(alloc, text)?;
        Ok(script)
    }

    /// A connection does something, and isn't answered yet.
    fn push(&mut self, alloc: Global, conn: u64, act: Act) -> Result<(), AllocError> {
        let replies = String::new(alloc);
        self.steps.push(Step { conn, act, replies })?;
        Ok(())
    }

    /// A connection sends bytes.
    pub(super) fn send(
        &mut self,
        alloc: Global,
        conn: u64,
        bytes: &[u8],
    ) -> Result<(), AllocError> {
        let bytes = bytes.to_vec(alloc)?;
        self.push(alloc, conn, Act::Sends(bytes))
    }

    /// What was done last is answered by this line.
    fn answer(&mut self, reply: &str) -> Result<(), AllocError> {
        let Some(step) = self.steps.last_mut() else {
            return Ok(());
        };
        step.replies.push_str(reply)?;
        step.replies.push('\n')
    }

    /// Does what a line of a row says.
    fn read(&mut self, alloc: Global, line: &str) -> Result<(), AllocError> {
        let Some((word, text)) = line.split_once(' ') else {
            return Ok(());
        };
        let conn = if word.starts_with('2') { 2 } else { 1 };
        match word {
            "=" => self.answer(text),
            "with" => self.set_tables(alloc, &[text, "\n", ACCOUNTS]),
            "tables" => self.set_tables(alloc, &[TWO, text, "\n"]),
            "1" | "2" => self.push(alloc, conn, Act::of(alloc, text)?),
            "1+" | "2+" => self.send(alloc, conn, text.as_bytes()),
            _ => Ok(()),
        }
    }

    /// Does what each line of a text says.
    pub(super) fn read_all(&mut self, alloc: Global, text: &str) -> Result<(), AllocError> {
        for line in text.lines() {
            self.read(alloc, line)?;
        }
        Ok(())
    }

    /// The row is over the tables whose schemas these texts are, one behind another.
    fn set_tables(&mut self, alloc: Global, texts: &[&str]) -> Result<(), AllocError> {
        self.tables = texts.concat(alloc)?;
        Ok(())
    }

    /// Every reply, one behind another.
    pub(super) fn replies(&self, alloc: Global) -> Result<String, AllocError> {
        self.replies_before(alloc, self.steps.len())
    }

    /// The replies to so many steps.
    pub(super) fn replies_before(&self, alloc: Global, count: usize) -> Result<String, AllocError> {
        let mut all = String::new(alloc);
        for step in self.steps.iter().take(count) {
            all.push_str(step.replies.as_str())?;
        }
        Ok(all)
    }

    /// Whether nothing is done but by connection 1, which isn't cut.
    pub(super) fn is_of_one(&self) -> bool {
        self.steps.iter().all(|step| step.conn == 1 && !matches!(step.act, Act::BreaksOff))
    }

    /// All bytes that are sent.
    pub(super) fn bytes(&self, alloc: Global) -> Result<Vec<u8>, AllocError> {
        let mut all = Vec::new(alloc);
        for step in &self.steps {
            if let Act::Sends(bytes) = &step.act {
                all.extend_from_slice(bytes.as_slice())?;
            }
        }
        Ok(all)
    }

    /// How many bytes are sent in so many steps; an end counts as one more.
    pub(super) fn sent_before(&self, count: usize) -> usize {
        let mut sent = 0usize;
        for step in self.steps.iter().take(count) {
            sent = sent.saturating_add(match &step.act {
                Act::Sends(bytes) => bytes.len(),
                Act::Closes | Act::BreaksOff => 1,
            });
        }
        sent
    }

    /// Connections 1 and 2 come, and do all that is done.
    pub(super) fn events(&self, alloc: Global, pieces: Pieces) -> Result<Vec<Event>, AllocError> {
        self.events_before(alloc, self.steps.len(), pieces)
    }

    /// Connections 1 and 2 come, and do so many steps.
    pub(super) fn events_before(
        &self,
        alloc: Global,
        count: usize,
        pieces: Pieces,
    ) -> Result<Vec<Event>, AllocError> {
        let mut events = vec![in alloc; Event::Attach(1), Event::Attach(2)]?;
        let mut sent = Vec::new(alloc);
        for at in 0..count {
            self.push_step(alloc, at, pieces, &mut sent, &mut events)?;
        }
        Ok(events)
    }

    /// Has a step happen; what was sent comes in pieces where nothing is joined to it.
    fn push_step(
        &self,
        alloc: Global,
        at: usize,
        pieces: Pieces,
        sent: &mut Vec<u8>,
        events: &mut Vec<Event>,
    ) -> Result<(), AllocError> {
        let Some(step) = self.steps.get(at) else {
            return Ok(());
        };
        step.happens(sent, events)?;
        if !pieces.joins(self.steps.get(at.saturating_add(1)), step.conn) {
            pieces.push(alloc, events, step.conn, sent.as_slice())?;
            sent.clear();
        }
        Ok(())
    }
}

impl Pieces {
    /// Whether what a connection sends is joined with what is done next.
    fn joins(self, next: Option<&Step>, conn: u64) -> bool {
        match (self, next) {
            (Pieces::Of(_), Some(step)) => {
                step.conn == conn && matches!(step.act, Act::Sends(_))
            }
            _ => false,
        }
    }

    /// How long a piece of so many bytes is; never 0.
    fn size(self, length: usize) -> usize
        ensures { 0 < result }
    {
        let size = match self {
            Pieces::Lines => length,
            Pieces::Halves => length.div_ceil(2),
            Pieces::Of(size) => size,
        };
        size.max(1)
    }

    /// The bytes that a connection sends, in pieces.
    fn push(
        self,
        alloc: Global,
        events: &mut Vec<Event>,
        conn: u64,
        bytes: &[u8],
    ) -> Result<(), AllocError> {
        for piece in bytes.chunks(self.size(bytes.len())) {
            events.push(Event::Piece(conn, piece.to_vec(alloc)?))?;
        }
        Ok(())
    }
}

/// The name of the row behind which a row goes on.
fn first_of(text: &str) -> Option<&str> {
    Some(text.strip_prefix("after ")?.split_once('\n')?.0)
}

/// What the row of a name says itself.
fn text_of(scripts: &[Script], name: &str) -> &'static str {
    for script in scripts {
        if script.name == name {
            return script.text;
        }
    }
    ""
}

/// The rows of a text, behind those that stand before it.
fn read_rows(
    alloc: Global,
    text: &'static str,
    scripts: &mut Vec<Script>,
) -> Result<(), AllocError> {
    let rows = text.strip_prefix("row ").unwrap_or(text);
    for row in rows.split("\nrow ") {
        let script = Script::of_row(alloc, row, scripts.as_slice())?;
        scripts.push(script)?;
    }
    Ok(())
}

/// The rows that are written down.
pub(super) fn scripts(alloc: Global) -> Result<Vec<Script>, AllocError> {
    let mut scripts = Vec::new(alloc);
    for text in &ROWS {
        read_rows(alloc, text, &mut scripts)?;
    }
    Ok(scripts)
}
