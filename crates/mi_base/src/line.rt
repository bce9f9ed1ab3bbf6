//! A line of a base: a value of JSON, written compact, with its newline. It knows no table.
ghost use Rattle.std.specs.Prelude.{◌≡◌, IfOk, OnOk, [], ◌∷◌, string_bytes};
ghost use Rattle.serde_json.specs.View.{view};
ghost use Rattle.sha2.specs.Hashers.{Holds256};
ghost use Rattle.mi_base.specs.Lines.{line_text, IsFlat, IsPlain};
ghost use Rattle.mi_base.specs.Writes.{Puts};

use crate::fault::WriteFault;
use serde_json::Value;
use sha2::{Digest, Sha256};
use std::alloc::{AllocError, Global};
use std::io::Write;

/// The line of a value, with its newline.
pub(crate) fn line_of(alloc: Global, value: &Value) -> Result<String, AllocError>
    requires { IsFlat (view value.now) }
    ensures text { IfOk result (λ line. string_bytes line ≡ line_text (view value.now)) }
    ensures plain { OnOk result (IsPlain (view value.now)) }
{
    let mut line = value.to_string(alloc)?;
    line.push_str("\n")?;
    Ok(line)
}

/// Writes the line of a value behind what was written, and takes it into the digest.
pub(crate) fn put_line<W: Write>(
    alloc: Global,
    value: &Value,
    digest: &mut Sha256,
    out: &mut W,
) -> Result<(), WriteFault>
    requires { IsFlat (view value.now) }
    ensures { OnOk result (Puts (W.contents out.old) (W.contents out.new) digest.old digest.new (view value.now ∷ [])) }
{
    let line = line_of(alloc, value)?;
    digest.update(line.as_bytes());
    match out.write_all(line.as_bytes()) {
        Ok(()) => Ok(()),
        Err(_error) => Err(WriteFault::Write),
    }
}
