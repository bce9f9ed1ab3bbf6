//! One column of a record, in numbers that C can take. Plain data.
ghost use Rattle.std.specs.Prelude.{◌≡◌, Ok, Err};
ghost use Rattle.mi_value.specs.Lent.{lent};
ghost use Rattle.mi_embed.specs.Cursors.{field_of};

use crate::call_result::refusal_number;
use mi_value::{Refusal, ValueRef};

/// A column of a record as C sees it, or why there is none.
#[repr(C)]
#[derive(Clone, Copy, Debug, Drop)]
pub struct Field {
    /// 0 where it was read, and else why it wasn't, in the order of `Refusal`.
    pub status: u32,
    /// 0 of a whole number, 1 of a text, 2 of false and 3 of true.
    pub kind: u32,
    /// The number, where it is one.
    pub integer: i64,
}

impl Field {
    /// A value that was read; of a text its kind alone.
    pub(crate) fn of(value: ValueRef<'_>) -> Field
        ensures { result ≡ field_of (Ok (lent value.entry)) }
    {
        let (kind, integer) = match value {
            ValueRef::Int(n) => (0, n),
            ValueRef::Text(_) => (1, 0),
            ValueRef::Flag(false) => (2, 0),
            ValueRef::Flag(true) => (3, 0),
        };
        Field {
            status: 0,
            kind,
            integer,
        }
    }

    /// Why none was read.
    pub(crate) fn refused(refusal: Refusal) -> Field
        ensures { result ≡ field_of (Err refusal) }
    {
        Field {
            status: refusal_number(refusal),
            kind: 0,
            integer: 0,
        }
    }
}
