//! Lines to requests, with memory that is kept from line to line: an arena for arrays and objects, and the value of a line that
//! `serde_json` read.
ghost use Rattle.std.specs.Prelude.{◌≡◌, ℕ, List, Option, Some, Ok, IfErr};
ghost use Rattle.mi_request.specs.Answers.{IsAnswer, NamesNoIndex};
ghost use Rattle.mi_request.specs.Lines.{command_line};
ghost use Rattle.mi_request.specs.Short.{short_line};
ghost use Rattle.mi_request.specs.declared.request.ChangeRequest.{ChangeRequest as AskedChange};
ghost use Rattle.mi_request.specs.declared.request.Request.{Request as Asked};
ghost use Rattle.mi_request.specs.declared.request.Request.TheVariants as request;

use crate::flat::{Flat, flat_of, insert, keyed, list, modify, range, replace};
use crate::request::{Request, ShortRequest, request_of};
use crate::short::short_change;
use crate::value::read_value;
use bumpalo::Bump;
use mi_value::Refusal;
use serde_json::Value;
use std::alloc::Global;

/// Bytes that the arena keeps between lines, at most.
const KEPT_ARENA: usize = 64 * 1024;

/// Reads lines, and keeps the memory that reading took: at most 64 KiB for arrays and objects, and up to the next line that takes
/// memory the value that `serde_json` read.
#[derive(Drop)]
pub struct LineReader {
    alloc: Global,
    arena: Bump,
    value: Value,
}

/// The request that any line is, by the value that it is.
#[inline(never)]
fn read_any<'a>(
    alloc: Global,
    arena: &'a Bump,
    kept: &'a mut Value,
    line: &'a [u8],
) -> Result<Request<'a>, Refusal>
    ensures answer { IsAnswer result (command_line line.now) }
    ensures refusal { IfErr result NamesNoIndex }
{
    let value = read_value(alloc, arena, kept, line)?;
    request_of(&value).ok_or(Refusal::Form)
}

impl LineReader {
    /// A reader that has read nothing. It takes no memory yet.
    pub fn new(alloc: Global) -> LineReader {
        LineReader {
            alloc,
            arena: Bump::new(alloc),
            value: Value::Null,
        }
    }

    /// Gives up the value that is kept, and makes the arena empty. An arena that has grown past what is kept is given up.
    fn empty(&mut self) {
        if !self.value.is_null() {
            self.value = Value::Null;
        }
        if self.arena.reset().is_err() || self.arena.allocated_bytes() > KEPT_ARENA {
            self.arena = Bump::new(self.alloc);
        }
    }

    /// The request that a line is, by its members one behind another or as any value. The flat readers stand in line here, so that an answer is
    /// made where it is wanted.
    #[inline(never)]
    fn read_members<'a>(&'a mut self, line: &'a [u8]) -> Result<Request<'a>, Refusal>
        ensures answer { IsAnswer result (command_line line.now) }
        ensures refusal { IfErr result NamesNoIndex }
    {
        self.empty();
        let alloc = self.alloc;
        let arena = &self.arena;
        match flat_of(line) {
            Some((Flat::Insert, text)) => if let Some(asked) = insert(arena, text) {
                return Ok(asked);
            },
            Some((Flat::Replace, text)) => if let Some(asked) = replace(arena, text) {
                return Ok(asked);
            },
            Some((Flat::Modify, text)) => if let Some(asked) = modify(arena, text) {
                return Ok(asked);
            },
            Some((Flat::Range, text)) => if let Some(asked) = range(arena, text) {
                return Ok(asked);
            },
            Some((Flat::List, text)) => if let Some(asked) = list(text) {
                return Ok(asked);
            },
            Some((Flat::Keyed(command), text)) => {
                if let Some(asked) = keyed(arena, text, command) {
                    return Ok(asked);
                }
            }
            None => {}
        }
        read_any(alloc, arena, &mut self.value, line)
    }

    /// The request that a line is, as `parse` answers it. It is for lines that `ShortRequest::of` doesn't read: any other short line but that
    /// of a change may take memory here.
    pub fn read<'a>(&'a mut self, line: &'a [u8]) -> Result<Request<'a>, Refusal>
        ensures answer { IsAnswer result (command_line line.now) }
        ensures refusal { IfErr result NamesNoIndex }
        ensures short { (t : Option (List ℕ)) (x : AskedChange) → short_line (request.Change t x) ≡ Some line.now → result ≡ Ok (request.Change t x) }
    {
        match short_change(line) {
            Some(request) => Ok(request),
            None => self.read_members(line),
        }
    }

    /// The request that a line, without its newline, is. Its names and values are borrowed from the line and from this reader.
    /// Refusals: `Json` where the bytes are not UTF-8 or no JSON, `Form` where the value is no command, and `Memory`. A line whose members
    /// are names and whole numbers, written as `short_line` says, takes no memory: so `{"cmd":"undo"}`, byte for byte.
    pub fn parse<'a>(&'a mut self, line: &'a [u8]) -> Result<Request<'a>, Refusal>
        ensures answer { IsAnswer result (command_line line.now) }
        ensures refusal { IfErr result NamesNoIndex }
        ensures short { (r : Asked) → short_line r ≡ Some line.now → result ≡ Ok r }
    {
        match ShortRequest::of(line) {
            Some(short) => Ok(short.request()),
            None => self.read(line),
        }
    }
}
