//! The rest of a connection's bytes that is no whole line yet, and the line that it ends.
//! It takes its whole room at the start, and grows by nothing later.
ghost use Rattle.std.specs.Prelude.{◌≡◌, [], option_map, option_to_list, IfOk, Some, IsTrue, ◌↔◌};
ghost use Rattle.mi_commands.specs.Asked.{asked_of};
ghost use Rattle.mi_hub.specs.Lines.{extended, ended_line, last_line, marked, without_return, unless_empty, lines_of};
ghost use Rattle.mi_hub.specs.OneLine.{IsWholeLine};

use mi_commands::Line;
use mi_value::limits::MAX_LINE;
use std::alloc::{AllocError, Global};
use std::marker::Model;

/// The bytes since the last newline, or the mark that they are too many.
#[derive(Drop)]
pub struct LineBuffer {
    text: Vec<u8>,
    is_long: bool,
}

impl Model for LineBuffer {
    ghost use Rattle.std.specs.Prelude.{◌≡◌, ◌≤◌, ℕ, List, [], length, Option, Some, None, vec_len, vec_capacity, if◌then◌else◌};

    ghost Value = { Option (List ℕ) };

    ghost use Rattle.mi_value.specs.declared.limits.TheConstants.{MAX_LINE};

    ghost view = { λ b. if b.is_long then None else Some b.text.items };

    ghost invariant = { λ b. (vec_len b.text ≤ MAX_LINE) × (MAX_LINE ≤ vec_capacity b.text) };
}

impl LineBuffer {
    /// An empty buffer with room for the longest line.
    pub fn new(alloc: Global) -> Result<LineBuffer, AllocError>
        ensures { IfOk result (λ b. b ≡ Some []) }
    {
        Ok(LineBuffer {
            text: Vec::with_capacity(alloc, MAX_LINE)?,
            is_long: false,
        })
    }

    /// Bytes without a newline follow.
    pub fn fill(&mut self, bytes: &[u8])
        ensures { self.new ≡ extended self.old bytes.now }
    {
        if bytes.len() > MAX_LINE - self.text.len() {
            self.is_long = true;
        }
        if !self.is_long {
            self.text.extend_from_slice(bytes).unwrap();
        }
    }

    /// No text that is kept is over-long. It does nothing when it runs.
    pub fn keeps_limit(&self)
        ensures { extended self.now [] ≡ self.now }
    {
        let _ = &self.text;
    }

    /// Whether no byte stands here.
    pub fn is_empty(&self) -> bool
        ensures { IsTrue result ↔ (self.now ≡ Some []) }
    {
        !self.is_long && self.text.is_empty()
    }

    /// The line that a newline ends here.
    pub fn ended(&self) -> Option<Line<'_>>
        ensures { option_map asked_of result ≡ ended_line self.now }
    {
        if self.is_long {
            return Some(Line::TooLong);
        }
        some_text(strip_return(self.text.as_slice()))
    }

    /// The line that the close of the connection ends here.
    pub fn last(&self) -> Option<Line<'_>>
        ensures { option_map asked_of result ≡ last_line self.now }
    {
        if self.is_long {
            return Some(Line::TooLong);
        }
        some_text(self.text.as_slice())
    }

    /// The next line begins.
    pub fn clear(&mut self)
        ensures { self.new ≡ Some [] }
    {
        self.text.clear();
        self.is_long = false;
    }
}

/// The line of a text that a newline ends.
pub fn ended_text(text: &[u8]) -> Option<Line<'_>>
    ensures { option_map asked_of result ≡ ended_line (marked text.now) }
{
    if text.len() > MAX_LINE {
        return Some(Line::TooLong);
    }
    some_text(strip_return(text))
}

/// The line that these bytes are, which end with their one newline; an empty one is none.
pub fn whole_line(bytes: &[u8]) -> Option<Line<'_>>
    requires { IsWholeLine bytes.now }
    ensures { option_to_list (option_map asked_of result) ≡ lines_of bytes.now }
{
    match bytes.split_last() {
        Some((_newline, text)) => ended_text(text),
        None => None,
    }
}

fn strip_return(text: &[u8]) -> &[u8]
    ensures { result.now ≡ without_return text.now }
{
    match text {
        [front @ .., b'\r'] => front,
        _ => text,
    }
}

fn some_text(text: &[u8]) -> Option<Line<'_>>
    ensures { option_map asked_of result ≡ unless_empty text.now }
{
    if text.is_empty() {
        None
    } else {
        Some(Line::Text(text))
    }
}
