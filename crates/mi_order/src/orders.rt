//! How indexes see what nodes hold: by the key that a record has at an index's parts. An index without parts goes by the id.
//! They read values alone, and take no memory; they know no stamps, which stand in links.
ghost use Rattle.std.specs.Prelude.{◌≡◌};

use crate::hashing::{hash_key, hash_values};
use crate::key::{has_same_key, id_sought, is_whole_key};
use crate::prefixes::{PrefixTypes, is_complete_prefix, prefix_probe, prefix_tag};
use crate::stored::Stored;
use mi_catalog::{Parts, compare_rows, compare_to_row};
use mi_chain::KeyHash;
use mi_tree::NodeOrder;
use mi_value::{Probe, Steps, Value, compare_key};
use std::cmp::Ordering;

/// The order of an ordered or ranked index, and its tags: `types` are those of the first parts' columns.
#[derive(Drop)]
pub struct ByKey {
    /// The columns of the index's keys, and the direction of each.
    pub parts: Parts,
    /// The types of the first parts' columns.
    pub types: PrefixTypes,
}

impl ByKey {
    ghost use Rattle.mi_order.specs.Orders.{key_tag};

    /// The tag of a key, if it has one.
    fn key_tag(&self, key: &[Value]) -> Option<u64>
        ensures { result ≡ key_tag self.now.types self.now.parts key.now }
    {
        match (self.parts.as_slice(), key) {
            (_, []) => None,
            ([], [value]) => id_sought(value),
            ([], [_, _, ..]) => None,
            ([part, rest @ ..], [value, more @ ..]) => {
                if more.len() <= rest.len() {
                    prefix_probe(&self.types, part, rest, value, more)
                } else {
                    None
                }
            }
        }
    }
}

impl NodeOrder<Stored> for ByKey {
    ghost use Rattle.mi_order.specs.Orders.{stored_order, place_in, stored_tag, sought_tag, is_decided};
    ghost use Rattle.mi_order.specs.OrderLaws.{is_tagged, is_sought, place_later};

    ghost order = { λ o. stored_order o.parts };

    ghost place = { λ o v k. place_in o.parts v k };

    ghost tag_of = { λ o. stored_tag o.types o.parts };

    ghost probe_tag_of = { λ o k. sought_tag o.types o.parts k };

    ghost is_exact = { λ o t. is_decided o.types o.parts t };

    fn compare(&self, left: &Stored, right: &Stored, steps: &mut Steps) -> Ordering {
        steps.tick();
        compare_rows(
            self.parts.as_slice(),
            left.id,
            &left.row,
            right.id,
            &right.row,
        )
    }

    fn seek(&self, value: &Stored, probe: Probe<'_>, steps: &mut Steps) -> Ordering {
        steps.tick();
        match probe {
            Probe::Key(key) => {
                compare_to_row(self.parts.as_slice(), key, value.id, &value.row).reverse()
            }
            Probe::Of(record) => compare_key(&value.row, record, self.parts.as_slice()),
        }
    }

    fn tag(&self, value: &Stored) -> u64 {
        match self.parts.as_slice() {
            [] => value.id,
            [part, rest @ ..] => prefix_tag(&self.types, part, rest, &value.row),
        }
    }

    fn probe_tag(&self, probe: Probe<'_>) -> Option<u64> {
        match probe {
            Probe::Key(key) => self.key_tag(key),
            Probe::Of(record) => match self.parts.as_slice() {
                [] => None,
                [part, rest @ ..] => Some(prefix_tag(&self.types, part, rest, record)),
            },
        }
    }

    fn is_complete(&self, tag: u64) -> bool {
        match self.parts.as_slice() {
            [] => true,
            [part, rest @ ..] => is_complete_prefix(&self.types, part, rest, tag),
        }
    }

    ghost total = { λ o. (is_tagged o.types o.parts).total };

    ghost monotone = { λ o k. place_later o.parts k };

    ghost tag_below = { λ o. (is_tagged o.types o.parts).tag_below };

    ghost exact = { λ o. (is_tagged o.types o.parts).exact };

    ghost probe_below = { λ o k. (is_sought o.types o.parts k).below };

    ghost probe_above = { λ o k. (is_sought o.types o.parts k).above };

    ghost probe_exact = { λ o k. (is_sought o.types o.parts k).exact };
}

/// The keys of a hashed index. Strangers choose keys, and could find many whose hashes end alike: so the hashes are made under
/// a secret. Nothing depends on it but the buckets.
#[derive(Drop)]
pub struct ByHash {
    pub parts: Parts,
    pub secret: u64,
}

impl KeyHash<Stored> for ByHash {
    ghost use Rattle.mi_order.specs.Orders.{keying_of};
    ghost use Rattle.mi_order.specs.HashLaws.{keyings_are_lawful};

    ghost keying = { keying_of };

    fn hash(&self, value: &Stored) -> u64 {
        hash_key(self.secret, self.parts.as_slice(), &value.row)
    }

    fn hash_key(&self, key: Probe<'_>) -> u64 {
        match key {
            Probe::Key(values) => hash_values(self.secret, values),
            Probe::Of(record) => hash_key(self.secret, self.parts.as_slice(), record),
        }
    }

    fn same(&self, left: &Stored, right: &Stored) -> bool {
        has_same_key(&left.row, &right.row, self.parts.as_slice())
    }

    fn same_key(&self, value: &Stored, key: Probe<'_>) -> bool {
        match key {
            Probe::Key(values) => is_whole_key(self.parts.as_slice(), values, &value.row),
            Probe::Of(record) => has_same_key(&value.row, record, self.parts.as_slice()),
        }
    }

    ghost lawful = { keyings_are_lawful };
}
