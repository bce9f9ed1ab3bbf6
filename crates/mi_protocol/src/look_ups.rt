//! The look-ups, by numbers and by keys: what they are, and from what is asked to a look-up over the table's schema.
ghost use Rattle.std.specs.Prelude.{◌≡◌};
ghost use Rattle.mi_request.specs.Answers.{IsAnswer};
ghost use Rattle.mi_protocol.specs.Binding.{bound_number_look_up, bound_key_look_up};

use crate::indexes::{key_or_prefix, ranked_index, ranked_key, sequenced_index, sorted_index};
use crate::keys::bind_bounds;
use mi_catalog::Schema;
use mi_request::{KeyLookUpRequest, NumberLookUpRequest};
use mi_value::{Key, Lower, Refusal, Upper};
use std::alloc::Global;

/// A look-up of a table by numbers alone: ids, ranks and how many rows.
#[derive(Drop)]
pub enum NumberLookUp {
    Get {
        id: u64,
    },
    Nth {
        index: usize,
        n: u64,
    },
    /// At most `limit` rows, 1 to 1,000, behind the record `after` or from the first.
    List {
        index: usize,
        after: Option<u64>,
        limit: usize,
    },
    Rank {
        index: usize,
        id: u64,
    },
    Size,
}

/// A look-up of a table by keys.
#[derive(Drop)]
pub enum KeyLookUp {
    /// The key is whole, or in an ordered or ranked index the first values of one.
    Find {
        index: usize,
        key: Key,
    },
    /// The key is whole, or in an ordered or ranked index the first values of one.
    Count {
        index: usize,
        key: Key,
    },
    /// At most `limit` rows, 1 to 1,000.
    Range {
        index: usize,
        lower: Lower,
        upper: Upper,
        reverse: bool,
        limit: usize,
    },
    LowerRank {
        index: usize,
        key: Key,
    },
    UpperRank {
        index: usize,
        key: Key,
    },
}

/// The look-up by numbers that is asked of a table of this schema. It takes no memory. Refusals, in this order: `Index` and `Kind`.
#[inline(always)]
pub(crate) fn number_look_up_over(
    look_up: NumberLookUpRequest,
    schema: &Schema,
) -> Result<NumberLookUp, Refusal>
    ensures { result ≡ bound_number_look_up schema.now look_up.entry }
{
    match look_up {
        NumberLookUpRequest::Get { id } => Ok(NumberLookUp::Get { id }),
        NumberLookUpRequest::Nth { index, n } => {
            let index = ranked_index(&index, schema)?;
            Ok(NumberLookUp::Nth { index, n })
        }
        NumberLookUpRequest::List {
            index,
            after,
            limit,
        } => {
            let index = sequenced_index(&index, schema)?;
            Ok(NumberLookUp::List {
                index,
                after,
                limit,
            })
        }
        NumberLookUpRequest::Rank { index, id } => {
            let index = ranked_index(&index, schema)?;
            Ok(NumberLookUp::Rank { index, id })
        }
        NumberLookUpRequest::Size => Ok(NumberLookUp::Size),
    }
}

/// The look-up by keys that is asked of a table of this schema. Refusals, in this order: `Index`, `Kind`, `Key`, and `Memory`.
pub(crate) fn key_look_up_over(
    alloc: Global,
    look_up: KeyLookUpRequest,
    schema: &Schema,
) -> Result<KeyLookUp, Refusal>
    ensures { IsAnswer result (bound_key_look_up schema.now look_up.entry) }
{
    match look_up {
        KeyLookUpRequest::Find { index, key } => {
            let (index, key) = key_or_prefix(alloc, &index, key, schema)?;
            Ok(KeyLookUp::Find { index, key })
        }
        KeyLookUpRequest::Count { index, key } => {
            let (index, key) = key_or_prefix(alloc, &index, key, schema)?;
            Ok(KeyLookUp::Count { index, key })
        }
        KeyLookUpRequest::Range {
            index,
            lower,
            upper,
            reverse,
            limit,
        } => {
            let index = sorted_index(&index, schema)?;
            let (lower, upper) = bind_bounds(alloc, index, lower, upper, schema)?;
            Ok(KeyLookUp::Range {
                index,
                lower,
                upper,
                reverse,
                limit,
            })
        }
        KeyLookUpRequest::LowerRank { index, key } => {
            let (index, key) = ranked_key(alloc, &index, key, schema)?;
            Ok(KeyLookUp::LowerRank { index, key })
        }
        KeyLookUpRequest::UpperRank { index, key } => {
            let (index, key) = ranked_key(alloc, &index, key, schema)?;
            Ok(KeyLookUp::UpperRank { index, key })
        }
    }
}
