//! Lines served to a writer: each is asked, and its reply goes out before the next is asked. It knows no command.
ghost use Rattle.std.specs.Prelude.{◌≡◌, ℕ, List, [], ◌∷◌, ◌++◌, true, Some, option_to_list, option_map, OnOk, OnErr, MatchOption};
ghost use Rattle.mi_hub.specs.Ended.{ended};
ghost use Rattle.mi_commands.specs.Asked.{Asked, asked_of};
ghost use Rattle.mi_hub.specs.Lines.{extended, ended_line, last_line, lines_from, rest_from};
ghost use Rattle.mi_hub.specs.Served.{Served, CutOff};
ghost use Rattle.mi_hub.specs.Watching.{has_failed, Writes};

use crate::line::{LineBuffer, ended_text};
use crate::send::{WriteFault, send};
use crate::watched::Watched;
use memchr::memchr;
use mi_commands::Line;
use mi_protocol::Output;
use std::io::Write;

/// What answers lines.
pub trait Answering {
    /// From old, the line of this connection may be given this reply, and new is left.
    ghost gives: { ℕ → Self → Asked → List ℕ → Self → Type 0 };

    /// Answers a line. The output has its reply then, and nothing else.
    fn answer(&mut self, conn: u64, line: Line<'_>, out: &mut Output)
        ensures { gives conn self.old (asked_of line.entry) out.new self.new };
}

/// Asks one line, and writes its reply.
fn serve_line<S: Answering, W: Write>(
    served: &mut S,
    conn: u64,
    line: Line<'_>,
    out: &mut Output,
    writer: &mut Watched<W>,
) -> Result<(), WriteFault>
    ensures ok { OnOk result ((out : List ℕ) × Writes W.contents writer.old writer.new out
        × Served (S.gives conn) served.old (asked_of line.entry ∷ []) out served.new) }
    ensures sound { OnOk result (has_failed writer.new ≡ has_failed writer.old) }
    ensures err { OnErr result ((out : List ℕ) × Writes W.contents writer.old writer.new out
        × CutOff (S.gives conn) served.old (asked_of line.entry ∷ []) out served.new) }
    ensures failed { OnErr result (has_failed writer.new ≡ true) }
{
    served.answer(conn, line, out);
    send(writer, out.line())
}

/// Asks a line, where there is one.
fn serve_some<S: Answering, W: Write>(
    served: &mut S,
    conn: u64,
    line: Option<Line<'_>>,
    out: &mut Output,
    writer: &mut Watched<W>,
) -> Result<(), WriteFault>
    ensures ok { OnOk result ((out : List ℕ) × Writes W.contents writer.old writer.new out
        × Served (S.gives conn) served.old (option_to_list (option_map asked_of line.entry)) out served.new) }
    ensures sound { OnOk result (has_failed writer.new ≡ has_failed writer.old) }
    ensures err { OnErr result ((out : List ℕ) × Writes W.contents writer.old writer.new out
        × CutOff (S.gives conn) served.old (option_to_list (option_map asked_of line.entry)) out served.new) }
    ensures failed { OnErr result (has_failed writer.new ≡ true) }
{
    match line {
        Some(line) => serve_line(served, conn, line, out, writer),
        None => Ok(()),
    }
}

/// Asks the line that a newline ends behind this rest and this text, where there is one. A text that begins its line is
/// asked where it stands.
fn serve_ended<S: Answering, W: Write>(
    served: &mut S,
    conn: u64,
    rest: &mut LineBuffer,
    text: &[u8],
    out: &mut Output,
    writer: &mut Watched<W>,
) -> Result<(), WriteFault>
    ensures ok { OnOk result ((out : List ℕ) × Writes W.contents writer.old writer.new out
        × Served (S.gives conn) served.old (option_to_list (ended_line (extended rest.old text.now))) out served.new) }
    ensures rest { OnOk result (rest.new ≡ Some []) }
    ensures sound { OnOk result (has_failed writer.new ≡ has_failed writer.old) }
    ensures err { OnErr result ((out : List ℕ) × Writes W.contents writer.old writer.new out
        × CutOff (S.gives conn) served.old (option_to_list (ended_line (extended rest.old text.now))) out served.new) }
    ensures failed { OnErr result (has_failed writer.new ≡ true) }
{
    if rest.is_empty() {
        return serve_some(served, conn, ended_text(text), out, writer);
    }
    rest.fill(text);
    serve_some(served, conn, rest.ended(), out, writer)?;
    rest.clear();
    Ok(())
}

/// What stands before the first newline, and after it.
fn cut_line(piece: &[u8]) -> Option<(&[u8], &[u8])>
    ensures { MatchOption result (ended piece.now ≡ [])
        (λ p. (ended p.0.now ≡ []) × (piece.now ≡ p.0.now ++ 10 ∷ p.1.now)) }
{
    let at = memchr(b'\n', piece)?;
    let (front, back) = piece.split_at(at);
    let (_, after) = back.split_at(1);
    Some((front, after))
}

/// Asks the lines that end in a piece, and keeps the rest.
pub fn serve_piece<S: Answering, W: Write>(
    served: &mut S,
    conn: u64,
    rest: &mut LineBuffer,
    piece: &[u8],
    out: &mut Output,
    writer: &mut Watched<W>,
) -> Result<(), WriteFault>
    ensures ok { OnOk result ((out : List ℕ) × Writes W.contents writer.old writer.new out
        × Served (S.gives conn) served.old (lines_from rest.old piece.now) out served.new) }
    ensures rest { OnOk result (rest.new ≡ rest_from rest.old piece.now) }
    ensures sound { OnOk result (has_failed writer.new ≡ has_failed writer.old) }
    ensures err { OnErr result ((out : List ℕ) × Writes W.contents writer.old writer.new out
        × CutOff (S.gives conn) served.old (lines_from rest.old piece.now) out served.new) }
    ensures failed { OnErr result (has_failed writer.new ≡ true) }
{
    let mut left = piece;
    'lines: while let Some((front, back)) = cut_line(left) {
        serve_ended(served, conn, rest, front, out, writer)?;
        left = back;
    }
    rest.fill(left);
    Ok(())
}

/// Asks the line that the close of the connection ends, where there is one.
pub fn serve_last<S: Answering, W: Write>(
    served: &mut S,
    conn: u64,
    rest: &LineBuffer,
    out: &mut Output,
    writer: &mut Watched<W>,
) -> Result<(), WriteFault>
    ensures ok { OnOk result ((out : List ℕ) × Writes W.contents writer.old writer.new out
        × Served (S.gives conn) served.old (option_to_list (last_line rest.now)) out served.new) }
    ensures sound { OnOk result (has_failed writer.new ≡ has_failed writer.old) }
    ensures err { OnErr result ((out : List ℕ) × Writes W.contents writer.old writer.new out
        × CutOff (S.gives conn) served.old (option_to_list (last_line rest.now)) out served.new) }
    ensures failed { OnErr result (has_failed writer.new ≡ true) }
{
    serve_some(served, conn, rest.last(), out, writer)
}
