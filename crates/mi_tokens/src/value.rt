//! JSON values whose texts, items and members are lent by where they were read. A value is copied and never changed; it reads no text.
ghost use Rattle.std.specs.Prelude.{◌≡◌, is_some, option_map, option_and_then};
ghost use Rattle.serde_json.specs.Data.{no_members};
ghost use Rattle.serde_json.specs.Find.{as_null, as_bool, as_number, as_i64, as_str, as_array, as_object};
ghost use Rattle.mi_tokens.specs.Meaning.{meaning, items_meaning, members_meaning};

use serde_json::Number;

/// A JSON value. Its texts, its items and its members are lent.
#[derive(Clone, Copy, Drop)]
pub enum Json<'a> {
    Null,
    Bool(bool),
    /// A whole number, as the pass reads it.
    Whole(i64),
    /// Any number, as `serde_json` reads it.
    Number(Number),
    Text(&'a str),
    Array(&'a [Json<'a>]),
    /// The members in order. The last of a name counts.
    Object(&'a [(&'a str, Json<'a>)]),
}

impl<'a> Json<'a> {
    /// Whether it is null.
    #[inline(always)]
    pub fn is_null(&self) -> bool
        ensures { result ≡ is_some (as_null (meaning self.now)) }
    {
        matches!(self, Json::Null)
    }

    /// Which of true and false it is.
    #[inline(always)]
    pub fn as_bool(&self) -> Option<bool>
        ensures { result ≡ as_bool (meaning self.now) }
    {
        match self {
            Json::Bool(b) => Some(*b),
            _other => None,
        }
    }

    /// The whole number that it is, from -2^63 to 2^63 - 1, written without point and exponent.
    #[inline(always)]
    pub fn as_i64(&self) -> Option<i64>
        ensures { result ≡ option_and_then as_i64 (as_number (meaning self.now)) }
    {
        match self {
            Json::Whole(n) => Some(*n),
            Json::Number(n) => n.as_i64(),
            _other => None,
        }
    }

    /// The text that it is.
    #[inline(always)]
    pub fn as_str(&self) -> Option<&'a str>
        ensures { option_map (λ s. s.now) result ≡ as_str (meaning self.now) }
    {
        match self {
            Json::Text(text) => Some(*text),
            _other => None,
        }
    }

    /// The items of the array that it is.
    #[inline(always)]
    pub fn as_items(&self) -> Option<&'a [Json<'a>]>
        ensures { option_map (λ xs. items_meaning xs.now) result ≡ as_array (meaning self.now) }
    {
        match self {
            Json::Array(items) => Some(*items),
            _other => None,
        }
    }

    /// The members of the object that it is.
    #[inline(always)]
    pub fn as_members(&self) -> Option<&'a [(&'a str, Json<'a>)]>
        ensures { option_map (λ ms. members_meaning ms.now no_members) result ≡ as_object (meaning self.now) }
    {
        match self {
            Json::Object(members) => Some(*members),
            _other => None,
        }
    }
}
