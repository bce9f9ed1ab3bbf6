//! Values, seen by contracts as plain data: where a text lies in memory is not shown.
use std::alloc::{AllocError, Global};
use std::marker::Model;

/// The type of a column.
#[derive(Clone, Copy, Debug, PartialEq, Eq)]
pub enum ColumnType {
    Int,
    Text,
    Flag,
}

/// A text, seen as the list of its bytes.
#[derive(Debug, Drop)]
pub struct Text {
    inner: String,
}

impl Model for Text {
    ghost use Rattle.std.specs.Prelude.{List, ℕ, string_bytes};

    ghost Value = { List ℕ };

    ghost view = { λ a. string_bytes a.inner };
}

impl Text {
    ghost use Rattle.std.specs.Prelude.{◌≡◌, string_bytes, IfOk};

    /// The text of this string. Takes no memory.
    pub fn new(inner: String) -> Text
        ensures { result ≡ string_bytes inner }
    {
        Text { inner }
    }

    /// A text of its own with these bytes.
    pub fn of(alloc: Global, text: &str) -> Result<Text, AllocError>
        ensures { IfOk result (λ made. made ≡ text.now) }
    {
        Ok(Text {
            inner: String::from_str(alloc, text)?,
        })
    }

    /// The text itself.
    pub fn as_str(&self) -> &str
        ensures { result.now ≡ self.now }
    {
        self.inner.as_str()
    }

    /// An equal text.
    pub fn copy(&self, alloc: Global) -> Result<Text, AllocError>
        ensures { IfOk result (λ copied. copied ≡ self.now) }
    {
        Text::of(alloc, self.inner.as_str())
    }
}

/// A value of a key, of an edit or of a row that is being made.
#[derive(Debug, Drop)]
pub enum Value {
    Int(i64),
    Text(Text),
    Flag(bool),
}

/// A value that is lent by its owner: by a record, a key or a line.
#[derive(Clone, Copy, Debug, Drop, PartialEq, Eq)]
pub enum ValueRef<'a> {
    Int(i64),
    Text(&'a str),
    Flag(bool),
}

/// What an array of values holds where none was put yet: false.
impl Default for ValueRef<'_> {
    fn default() -> Self {
        ValueRef::Flag(false)
    }
}

impl<'a> ValueRef<'a> {
    ghost use Rattle.std.specs.Prelude.{◌≡◌, IfOk};
    ghost use Rattle.mi_value.specs.Lent.{lent};

    /// A value of its own, whose text is copied.
    pub fn to_value(self, alloc: Global) -> Result<Value, AllocError>
        ensures { IfOk result (λ owned. owned ≡ lent self.entry) }
    {
        match self {
            ValueRef::Int(n) => Ok(Value::Int(n)),
            ValueRef::Text(text) => Ok(Value::Text(Text::of(alloc, text)?)),
            ValueRef::Flag(b) => Ok(Value::Flag(b)),
        }
    }
}

impl Value {
    ghost use Rattle.std.specs.Prelude.{◌≡◌, IfOk};
    ghost use Rattle.mi_value.specs.Lent.{lent};

    /// The value itself, without its text's memory.
    pub fn lend(&self) -> ValueRef<'_>
        ensures { lent result ≡ self.now }
    {
        match self {
            Value::Int(n) => ValueRef::Int(*n),
            Value::Text(text) => ValueRef::Text(text.as_str()),
            Value::Flag(b) => ValueRef::Flag(*b),
        }
    }

    /// An equal value.
    pub fn copy(&self, alloc: Global) -> Result<Value, AllocError>
        ensures { IfOk result (λ copied. copied ≡ self.now) }
    {
        self.lend().to_value(alloc)
    }
}
