//! The line that tells the text of a schema, made once and told to whoever asks.
ghost use Rattle.std.specs.Prelude.{◌≡◌, ◌<◌, ◌++◌, length, IfOk, OnOk};
ghost use Rattle.json.specs.Print.{quoted};
ghost use Rattle.mi_clients.specs.SchemaText.{schema_line};

use mi_print::{make_room, put_string};
use std::alloc::{AllocError, Global};

/// Adds a text as a string of JSON.
fn add_string(line: &mut Vec<u8>, text: &str) -> Result<(), AllocError>
    ensures { OnOk result (line.new.items ≡ line.old.items ++ quoted text.now) }
{
    let begun = line.len();
    let room = text.len().saturating_mul(6).saturating_add(2);
    make_room(line, begun, room)?;
    let end = put_string(line.as_mut_slice(), begun, text);
    line.truncate(end);
    Ok(())
}

/// The line that tells a schema's text, made once.
#[derive(Drop)]
pub struct SchemaLine {
    bytes: Vec<u8>,
    ghost some: { 0 < length bytes.items },
}

impl SchemaLine {
    ghost use Rattle.mi_clients.specs.ServiceLines.{line_of};

    /// The line that tells this text.
    pub fn of(alloc: Global, text: &str) -> Result<SchemaLine, AllocError>
        ensures { IfOk result (λ schema. line_of schema ≡ schema_line text.now) }
    {
        let mut bytes = Vec::from_slice(alloc, b"{\"ok\":true,\"schema\":")?;
        add_string(&mut bytes, text)?;
        bytes.extend_from_slice(b"}\n")?;
        Ok(SchemaLine { bytes })
    }

    /// Its bytes, with their newline.
    pub(crate) fn as_slice(&self) -> &[u8]
        ensures { result.now ≡ line_of self.now }
    {
        self.bytes.as_slice()
    }
}
