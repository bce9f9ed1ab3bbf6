//! A name that a line gives to a table or an index, borrowed from where it was read.
use std::marker::Model;

/// A name, seen as its bytes.
#[derive(Drop)]
pub struct Name<'a> {
    text: &'a str,
}

impl<'a> Model for Name<'a> {
    ghost use Rattle.std.specs.Prelude.{List, ℕ};

    ghost Value = { List ℕ };

    ghost view = { λ a. a.text.now };
}

impl<'a> Name<'a> {
    ghost use Rattle.std.specs.Prelude.{◌≡◌};

    /// The name that a text is.
    pub fn new(text: &'a str) -> Name<'a>
        ensures { result ≡ text.now }
    {
        Name { text }
    }

    /// Its text.
    pub fn as_str(&self) -> &'a str
        ensures { result.now ≡ self.now }
    {
        self.text
    }
}
