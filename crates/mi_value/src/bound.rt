//! Keys that are looked for, and the bounds of a range. They hold values alone and know no index.
use crate::record::Record;
use crate::value::Value;
use std::array;
use std::marker::Model;

/// Where the values of a key lie: a single one in place, others in a vector.
#[derive(Debug, Drop)]
enum KeyValues {
    One(Value),
    Many(Vec<Value>),
}

/// The values of a key, or the first of them (a prefix), in the order of an index's parts; seen as their list. One of a single
/// value takes no memory.
#[derive(Debug, Drop)]
pub struct Key {
    values: KeyValues,
}

impl Model for Key {
    ghost use Rattle.std.specs.Prelude.{List};
    ghost use Rattle.mi_value.specs.declared.value.Value.{Value as ValueSpec};
    ghost use Rattle.mi_value.specs.Keys.{values_in};

    ghost Value = { List ValueSpec };

    ghost view = { λ a. values_in a.values };
}

impl Key {
    ghost use Rattle.std.specs.Prelude.{◌≡◌, [], ◌∷◌};

    /// The key of these values. Takes no memory.
    pub fn new(values: Vec<Value>) -> Key
        ensures { result ≡ values.items }
    {
        Key {
            values: KeyValues::Many(values),
        }
    }

    /// The key of a single value. Takes no memory.
    pub fn one(value: Value) -> Key
        ensures { result ≡ value ∷ [] }
    {
        Key {
            values: KeyValues::One(value),
        }
    }

    /// The values in the order of the parts.
    pub fn values(&self) -> &[Value]
        ensures { result.now ≡ self.now }
    {
        match &self.values {
            KeyValues::One(value) => array::from_ref(value).as_slice(),
            KeyValues::Many(values) => values.as_slice(),
        }
    }
}

/// What a look-up goes by: the values of a key, or the key that a record has at an index's parts.
#[derive(Clone, Copy)]
pub enum Probe<'a> {
    Key(&'a [Value]),
    Of(&'a Record),
}

/// The lower bound of a range: none, keys not less than this one, or keys greater than it.
#[derive(Debug, Drop)]
pub enum Lower {
    All,
    From(Key),
    Beyond(Key),
}

/// The upper bound of a range: none, keys not greater than this one, or keys less than it.
#[derive(Debug, Drop)]
pub enum Upper {
    All,
    UpTo(Key),
    Below(Key),
}
