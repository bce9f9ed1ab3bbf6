//! What of bytes is heard and kept, and what makes a line of them. It holds no bytes.
ghost use Rattle.std.specs.Prelude.{◌≡◌, ◌↔◌, ◌++◌, [], IsTrue, IsFalse, MatchOption};
ghost use Rattle.mi_hub.specs.Ended.{ended};
ghost use Rattle.mi_clients.specs.Heard as hearing;
ghost use Rattle.mi_clients.specs.Lines.{SameLines, EndsAsClosed, IsFull, IsOverLong, IsFromNewline, IsKept};

use memchr::memchr;
use mi_value::limits::MAX_LINE;

/// Whether what waits, and a piece behind it, begin as no command does, with neither an object nor a blank: as a web page's request.
fn is_foreign(waiting: &[u8], piece: &[u8]) -> bool
    ensures { result ≡ hearing.is_foreign (waiting.now ++ piece.now) }
{
    let bytes = if waiting.is_empty() { piece } else { waiting };
    !matches!(bytes, [] | [b'{' | b' ' | b'\t' | b'\n' | b'\r', ..])
}

/// What of a piece stands up to and with its first newline; all where it has none.
fn first_line(piece: &[u8]) -> &[u8]
    ensures { result.now ≡ hearing.first_line piece.now }
{
    match memchr(b'\n', piece) {
        Some(at) => {
            let (line, _) = piece.split_at(at + 1);
            line
        }
        None => piece,
    }
}

/// Whether a piece has a newline.
fn has_newline(piece: &[u8]) -> bool
    ensures some { IsTrue result ↔ ¬ (ended piece.now ≡ []) }
    ensures none { IsFalse result ↔ (ended piece.now ≡ []) }
{
    match memchr(b'\n', piece) {
        Some(_at) => true,
        None => false,
    }
}

/// What of a piece is heard behind what waits, the beginning of a line; `first` says that this is the first of its connection.
pub(crate) fn heard_of<'a>(first: bool, waiting: &[u8], piece: &'a [u8]) -> &'a [u8]
    requires { ended waiting.now ≡ [] }
    ensures { waiting.now ++ result.now ≡ hearing.heard first (waiting.now ++ piece.now) }
{
    if first && is_foreign(waiting, piece) {
        first_line(piece)
    } else {
        piece
    }
}

/// Whether nothing is heard behind a piece.
pub(crate) fn is_last(first: bool, waiting: &[u8], piece: &[u8]) -> bool
    ensures { IsTrue result ↔ (IsTrue first × IsTrue (hearing.is_foreign (waiting.now ++ piece.now)) × ¬ (ended piece.now ≡ [])) }
{
    first && is_foreign(waiting, piece) && has_newline(piece)
}

/// Whether the first line of a connection is still to come behind a piece.
pub(crate) fn is_still_first(first: bool, piece: &[u8]) -> bool
    ensures { IsTrue result ↔ (IsTrue first × (ended piece.now ≡ [])) }
{
    first && !has_newline(piece)
}

/// What of a piece is kept behind a beginning that is over-long already: from its first newline on.
fn from_newline(piece: &[u8]) -> &[u8]
    ensures { IsFromNewline piece.now result.now }
{
    match memchr(b'\n', piece) {
        Some(at) => {
            let (_, back) = piece.split_at(at);
            back
        }
        None => &[],
    }
}

/// Whether bytes are the beginning of a line that is over-long.
fn is_over_long(bytes: &[u8]) -> bool
    ensures { IsTrue result ↔ IsOverLong bytes.now }
{
    match memchr(b'\n', bytes) {
        Some(_at) => false,
        None => bytes.len() > MAX_LINE,
    }
}

/// What of a piece is kept behind what waits.
pub(crate) fn kept_of<'a>(waiting: &[u8], piece: &'a [u8]) -> &'a [u8]
    ensures lines { SameLines (waiting.now ++ piece.now) (waiting.now ++ result.now) }
    ensures kept { IsKept waiting.now piece.now result.now }
{
    if is_over_long(waiting) {
        from_newline(piece)
    } else {
        piece
    }
}

/// What makes a line of bytes behind which nothing comes; none where they can't be asked.
pub(crate) fn closing(waiting: &[u8]) -> Option<&'static [u8]>
    requires { ended waiting.now ≡ [] }
    ensures { MatchOption result (IsFull waiting.now) (λ more. EndsAsClosed waiting.now (waiting.now ++ more.now)) }
{
    let Some((last, _)) = waiting.split_last() else {
        return Some(b"");
    };
    if *last != b'\r' {
        return Some(b"\n");
    }
    if waiting.len() > MAX_LINE {
        return Some(b"\n");
    }
    if waiting.len() == MAX_LINE {
        return None;
    }
    Some(b"\r\n")
}
