//! The first line of a journal, which says of which format and of which schema it is.
ghost use Rattle.std.specs.Prelude.{◌≡◌, ◌↔◌, IfOk, true, false};
ghost use Rattle.std.specs.String.{string_bytes};
ghost use Rattle.mi_log.specs.Header.{header_of, is_header};

use std::alloc::{AllocError, Global};

/// What the first line of a file is, beside the header that is wanted.
#[derive(Clone, Copy, Debug, PartialEq, Eq, Drop)]
pub enum Heading {
    /// That header.
    Wanted,
    /// The header of a journal of another format or schema.
    Another,
    /// No header.
    Missing,
}

/// The header of a journal, without its newline: the format, 1, the revision that its database opens with, and what identifies the schema,
/// which is a hash in hexadecimal digits. It is JSON, and no command: a program that is asked a journal refuses it and goes on.
pub fn header_line(alloc: Global, revision: u64, schema: &str) -> Result<String, AllocError>
    ensures { IfOk result (λ line. string_bytes line ≡ header_of revision schema.now) }
{
    let number = revision.to_string(alloc)?;
    let mut line = String::from_str(alloc, "{\"journal\":1,\"revision\":")?;
    line.push_str(number.as_str())?;
    line.push_str(",\"schema\":\"")?;
    line.push_str(schema)?;
    line.push_str("\"}")?;
    Ok(line)
}

/// What a file's first line is, without its newline, where this header is wanted.
pub fn judge_heading(line: &[u8], wanted: &[u8]) -> Heading
    ensures wanted { (result ≡ Heading.Wanted) ↔ (line.now ≡ wanted.now) }
    ensures another { result ≡ Heading.Another → is_header line.now ≡ true }
    ensures missing { result ≡ Heading.Missing → is_header line.now ≡ false }
{
    if line == wanted {
        return Heading::Wanted;
    }
    if line.starts_with(b"{\"journal\":") {
        Heading::Another
    } else {
        Heading::Missing
    }
}
