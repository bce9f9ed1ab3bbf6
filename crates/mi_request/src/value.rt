//! From bytes to the JSON value that they are. A text that is written as a writer gives it, with short whole numbers, is read in one
//! pass, any other by `serde_json`.
ghost use Rattle.std.specs.Prelude.{◌≡◌, ◌⊎◌, Some, None, IfOk, IfErr};
ghost use Rattle.serde_json.specs.Read.{read};
ghost use Rattle.serde_json.specs.View.{view};
ghost use Rattle.mi_tokens.specs.Meaning.{meaning};
ghost use Rattle.mi_request.specs.Lines.{json_of};

use crate::lending::lend;
use crate::text::text_of;
use bumpalo::Bump;
use mi_tokens::{Json, pass_text};
use mi_value::Refusal;
use serde_json::Value;
use std::alloc::Global;

/// The value that `serde_json` reads. Refusals: `Json` and `Memory`.
fn owned_value(alloc: Global, text: &str) -> Result<Value, Refusal>
    ensures ok { IfOk result (λ v. read text.now ≡ Some (view v)) }
    ensures err { IfErr result (λ e. (e ≡ Refusal.Memory) ⊎ ((e ≡ Refusal.Json) × (read text.now ≡ None))) }
{
    match Value::from_str(alloc, text) {
        Ok(value) => Ok(value),
        Err(e) => if e.is_memory() {
            Err(Refusal::Memory)
        } else {
            Err(Refusal::Json)
        },
    }
}

/// The same, which stays in `kept`, and is lent from there.
fn kept_value<'a>(
    alloc: Global,
    arena: &'a Bump,
    kept: &'a mut Value,
    text: &str,
) -> Result<Json<'a>, Refusal>
    ensures ok { IfOk result (λ v. read text.now ≡ Some (meaning v)) }
    ensures err { IfErr result (λ e. (e ≡ Refusal.Memory) ⊎ ((e ≡ Refusal.Json) × (read text.now ≡ None))) }
{
    *kept = owned_value(alloc, text)?;
    Ok(lend(arena, kept)?)
}

/// The value that bytes are. One that `serde_json` read stays in `kept`, which lends its texts. Refusals: `Json` where the bytes are not
/// UTF-8 or no JSON, and `Memory`.
pub(crate) fn read_value<'a>(
    alloc: Global,
    arena: &'a Bump,
    kept: &'a mut Value,
    bytes: &'a [u8],
) -> Result<Json<'a>, Refusal>
    ensures ok { IfOk result (λ v. json_of bytes.now ≡ Some (meaning v)) }
    ensures err { IfErr result (λ e. (e ≡ Refusal.Memory) ⊎ ((e ≡ Refusal.Json) × (json_of bytes.now ≡ None))) }
{
    let Ok(text) = text_of(bytes) else {
        return Err(Refusal::Json);
    };
    match pass_text(arena, text) {
        Some(value) => Ok(value),
        None => kept_value(alloc, arena, kept, text),
    }
}
