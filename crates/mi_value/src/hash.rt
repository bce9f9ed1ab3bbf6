//! The hashes of values and keys: SipHash with fixed keys. They read values and records and take no memory.
//! Who lets strangers choose keys mixes a secret into them.
ghost use Rattle.std.specs.Prelude.{◌≡◌, fold, slice_get};
ghost use Rattle.std.specs.Hash.DefaultHasher as sip;
ghost use Rattle.mi_value.specs.Lent.{lent};
ghost use Rattle.mi_value.specs.Hash.{value_input, values_hash, key_values, after_if};

use crate::compare::KeyPart;
use crate::record::Record;
use crate::value::{Value, ValueRef};
use std::hash::{DefaultHasher, Hash, Hasher};

/// The hash of a list of values, over their types and contents.
#[tactic(auto, unfolding(crate::specs::Hash::values_hash))]
pub fn hash_values(values: &[Value]) -> u64
    ensures { result ≡ values_hash values.now }
{
    let mut state = DefaultHasher::new();
    for value in values {
        feed(value.lend(), &mut state);
    }
    state.finish()
}

impl Record {
    /// The hash of the record's key at these parts: that of the list of its values there, missing ones left out. Equal
    /// keys have equal hashes.
    #[tactic(auto, using(crate::proofs::HashLaws::one_part), unfolding(crate::specs::Hash::values_hash))]
    pub fn key_hash(&self, parts: &[KeyPart]) -> u64
        ensures { result ≡ values_hash (key_values parts.now self.now) }
    {
        let mut state = DefaultHasher::new();
        for part in parts {
            feed_at(self, part.column, &mut state);
        }
        state.finish()
    }
}

/// Puts the value of this column into the hash, if it has one.
fn feed_at(source: &Record, column: usize, state: &mut DefaultHasher)
    ensures { state.new ≡ after_if state.old (slice_get source.now column) }
{
    match source.get(column) {
        None => {}
        Some(value) => feed(value, state),
    }
}

/// Puts the value's type and content into the hash.
fn feed(value: ValueRef<'_>, state: &mut DefaultHasher)
    ensures { state.new ≡ fold sip.write state.old (value_input (lent value.entry)) }
{
    match value {
        ValueRef::Int(n) => {
            state.write_u8(0);
            n.hash(state);
        }
        ValueRef::Text(text) => {
            state.write_u8(1);
            text.hash(state);
        }
        ValueRef::Flag(b) => {
            state.write_u8(2);
            b.hash(state);
        }
    }
}
