//! What may be left out: a number says whether it is there.
ghost use Rattle.std.specs.Prelude.{◌≡◌};
ghost use Rattle.weltiyo.specs.OptionalId.{optional_id as given_id};

/// An id, unless the number before it is 0.
pub(crate) fn optional_id(is_given: u32, id: u64) -> Option<u64>
    ensures { result ≡ given_id is_given id }
{
    if is_given == 0 { None } else { Some(id) }
}
