//! The database that a caller holds, the reply to the last line that it asked, and the text of the schema.
ghost use Rattle.std.specs.Prelude.{◌≡◌, ℕ, length, IfOk};
ghost use Rattle.mi_commands.specs.Holder.{released};
ghost use Rattle.mi_embed.specs.Opening.{IsDescribed, IsKept, IsOpened};
ghost use Rattle.mi_embed.specs.State.{Answers, IsCopied};

use crate::fault::OpenFault;
use mi_commands::{Executor, Line};
use mi_database::Linked;
use mi_multi::MultiIndex;
use mi_protocol::Output;
use mi_schema::{Catalog, built_in, built_in_text, read_catalog};
use mi_value::limits::{MAX_LINE, MAX_SCHEMA_FILE};
use std::alloc::{AllocError, Global};
use std::marker::Model;

/// A database, the reply to the last line, and the text of the schema.
#[derive(Drop)]
pub struct Engine {
    pub(crate) executor: Executor<Linked<MultiIndex>>,
    reply: Output,
    schema: Vec<u8>,
    pub(crate) alloc: Global,
}

impl Model for Engine {
    ghost use Rattle.mi_embed.specs.State.{EngineState};

    ghost Value = { EngineState };

    ghost view = { λ e. record { held = e.executor; reply = e.reply; schema = e.schema.items } };
}

/// The catalog of a schema's text; of no text, that of the built-in table.
fn described(alloc: Global, schema: &[u8]) -> Result<Catalog, OpenFault>
    ensures { IsDescribed schema.now result }
{
    if schema.is_empty() {
        return Ok(Catalog::of(alloc, built_in(alloc)?)?);
    }
    if schema.len() > MAX_SCHEMA_FILE {
        return Err(OpenFault::Long);
    }
    Ok(read_catalog(alloc, schema)?)
}

/// A copy of a schema's text; of no text, that of the built-in schema.
fn kept_text(alloc: Global, schema: &[u8]) -> Result<Vec<u8>, AllocError>
    ensures { IfOk result (λ text. IsKept schema.now text.items) }
{
    let text = if schema.is_empty() {
        built_in_text().as_bytes()
    } else {
        schema
    };
    Vec::from_slice(alloc, text)
}

impl Engine {
    /// Opens the tables that a schema's text describes; no text stands for the built-in table. The secret is mixed into hashes
    /// of keys; no answer depends on it.
    ///
    /// `Long` where the text has more than 65,536 bytes, `Schema` where it is refused or memory was. Nothing is left of what
    /// was made until then.
    pub fn open(alloc: Global, schema: &[u8], secret: u64) -> Result<Engine, OpenFault>
        ensures { IsOpened schema.now result }
    {
        let catalog = described(alloc, schema)?;
        let text = kept_text(alloc, schema)?;
        let database = Linked::<MultiIndex>::new(alloc, catalog, secret)?;
        let mut executor = Executor::new(alloc, database);
        executor.make_labels();
        Ok(Engine {
            executor,
            reply: Output::new(alloc),
            schema: text,
            alloc,
        })
    }

    /// Answers a line of a connection, given whole and without its newline, and says how many bytes its reply has. The reply
    /// stays until the next line. A line of more than 65,536 bytes is answered as over-long.
    pub fn execute(&mut self, conn: u64, line: &[u8]) -> usize
        ensures is { Answers conn self.old line.now self.new }
        ensures long { result ≡ length self.new.reply }
    {
        let asked = if line.len() > MAX_LINE {
            Line::TooLong
        } else {
            Line::Text(line)
        };
        self.executor.answer(conn, asked, &mut self.reply);
        self.reply().len()
    }

    /// The reply to the last line, without a newline; empty before the first.
    pub fn reply(&self) -> &[u8]
        ensures { result.now ≡ self.now.reply }
    {
        self.reply.as_slice()
    }

    /// The text of the schema: the one that was opened, byte for byte, or that of the built-in schema. It describes the engine's catalog.
    pub fn schema(&self) -> &[u8]
        ensures { result.now ≡ self.now.schema }
    {
        self.schema.as_slice()
    }

    /// Copies the reply to the last line from this byte on to the front of a buffer, as much as there is room for, and says how
    /// many bytes. The rest of the buffer stays as it is.
    pub fn copy_reply(&self, from: usize, out: &mut [u8]) -> usize
        ensures { IsCopied self.now.reply from out.old out.new result }
    {
        let reply = self.reply();
        if from >= reply.len() {
            return 0;
        }
        let (_, left) = reply.split_at(from);
        let count = left.len().min(out.len());
        let (front, _) = left.split_at(count);
        let (place, _) = out.split_at_mut(count);
        place.copy_from_slice(front);
        count
    }

    /// Answers a line of a connection as `execute` does, and copies as much of its reply as there is room for to the front of a
    /// buffer. Says how many bytes the whole reply has; `copy_reply` gives those that had no room.
    pub fn ask(&mut self, conn: u64, line: &[u8], out: &mut [u8]) -> usize
        ensures is { Answers conn self.old line.now self.new }
        ensures long { result ≡ length self.new.reply }
        ensures copied { (count : ℕ) × IsCopied self.new.reply 0 out.old out.new count }
    {
        let length = self.execute(conn, line);
        let _ = self.copy_reply(0, out);
        length
    }

    /// A connection goes away: the sessions that it holds are undone. It takes no memory.
    pub fn release(&mut self, conn: u64)
        ensures { self.new ≡ record { held = released conn self.old.held; reply = self.old.reply; schema = self.old.schema } }
    {
        self.executor.release(conn);
    }
}
