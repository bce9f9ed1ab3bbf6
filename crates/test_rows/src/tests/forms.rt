//! Texts with places for other texts.
use std::alloc::{AllocError, Global};

/// A form with a text for `$t`, mostly a table, a value for `$i` or another letter, and a newline.
pub(super) fn filled(
    alloc: Global,
    form: &str,
    table: &str,
    value: &str,
) -> Result<String, AllocError> {
    let mut line = String::new(alloc);
    let mut is_letter = false;
    for byte in form.bytes() {
        match (is_letter, byte) {
            (true, b't') => line.push_str(table)?,
            (true, _) => line.push_str(value)?,
            (false, b'$') => {}
            (false, _) => line.push(byte as char)?,
        }
        is_letter = !is_letter && byte == b'$';
    }
    line.push('\n')?;
    Ok(line)
}
