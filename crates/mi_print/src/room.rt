//! Room behind a text in a vector: bytes that are there already and don't count, so that they can be put at places.
ghost use Rattle.std.specs.Prelude.{◌≡◌, ◌+◌, ◌-◌, ◌≤◌, take, vec_len, vec_capacity, OnOk};

use std::alloc::AllocError;

/// What a vector is filled with, a part at a time.
static ZEROS: [u8; 1024] = [0; 1024];

/// Fills a vector up to a length that it has room for.
fn fill_to(text: &mut Vec<u8>, len: usize)
    requires { (vec_len text.old ≤ len) × (len ≤ vec_capacity text.old) }
    ensures front { take (vec_len text.old) text.new.items ≡ text.old.items }
    ensures len { vec_len text.new ≡ len }
{
    'parts: while text.len() < len {
        let part = (len - text.len()).min(ZEROS.len());
        if text.extend_from_slice(&ZEROS[..part]).is_err() {
            unreachable!();
        }
    }
}

/// Adds room for some bytes and for those that the vector's memory holds besides.
#[cold]
#[inline(never)]
fn grow(text: &mut Vec<u8>, room: usize) -> Result<(), AllocError>
    ensures front { take (vec_len text.old) text.new.items ≡ text.old.items }
    ensures len { vec_len text.old ≤ vec_len text.new }
    ensures room { OnOk result (vec_len text.old + room ≤ vec_len text.new) }
{
    text.reserve(room)?;
    let most = text.capacity();
    fill_to(text, most);
    Ok(())
}

/// Makes room behind the first bytes of a vector, which stay.
#[inline(always)]
pub fn make_room(text: &mut Vec<u8>, len: usize, room: usize) -> Result<(), AllocError>
    requires { len ≤ vec_len text.old }
    ensures front { take len text.new.items ≡ take len text.old.items }
    ensures len { len ≤ vec_len text.new }
    ensures room { OnOk result (len + room ≤ vec_len text.new) }
{
    if room <= text.len() - len {
        return Ok(());
    }
    grow(text, room)
}
