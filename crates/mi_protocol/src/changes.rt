//! The changes of a table: what they are, and from what is asked to a change over the table's schema.
ghost use Rattle.mi_request.specs.Answers.{IsAnswer};
ghost use Rattle.mi_request.specs.declared.request.ChangeRequest.TheVariants as request;
ghost use Rattle.mi_protocol.specs.Binding.{bound_change};

use crate::edits::{Edits, bind_edits};
use crate::indexes::{bind_place, sequenced_index, whole_key};
use crate::row::bind_row;
use mi_catalog::Schema;
use mi_request::{ChangeRequest, NamedPlace, Object};
use mi_value::{Key, Record, Refusal};
use std::alloc::Global;

/// A change of a table. An insert's `before` is a sequenced index and the id of the record before which it stands.
#[derive(Drop)]
pub enum Change {
    Insert {
        row: Record,
        before: Option<(usize, u64)>,
    },
    Replace {
        id: u64,
        row: Record,
    },
    Modify {
        id: u64,
        edits: Edits,
        rollback: bool,
    },
    Erase {
        id: u64,
    },
    /// The key is whole.
    EraseKey {
        index: usize,
        key: Key,
    },
    /// Without `before` the record goes to the end.
    Relocate {
        index: usize,
        id: u64,
        before: Option<u64>,
    },
}

/// A record, and a place of its own where one is named. Refusals, in this order: `Index`, `Kind`, `Row`, and `Memory`.
fn bind_insert(
    alloc: Global,
    row: Object,
    before: Option<NamedPlace>,
    schema: &Schema,
) -> Result<Change, Refusal>
    ensures { IsAnswer result (bound_change schema.now (request.Insert row.entry before.entry)) }
{
    let before = bind_place(before, schema)?;
    let row = bind_row(alloc, &row, schema)?;
    Ok(Change::Insert { row, before })
}

/// The change that is asked of a table of this schema. Refusals, in this order: `Index`, `Kind`, `Row`, `Key`, and `Memory`.
pub(crate) fn change_over(
    alloc: Global,
    change: ChangeRequest,
    schema: &Schema,
) -> Result<Change, Refusal>
    ensures { IsAnswer result (bound_change schema.now change.entry) }
{
    match change {
        ChangeRequest::Insert { row, before } => bind_insert(alloc, row, before, schema),
        ChangeRequest::Replace { id, row } => {
            let row = bind_row(alloc, &row, schema)?;
            Ok(Change::Replace { id, row })
        }
        ChangeRequest::Modify {
            id,
            set,
            add,
            rollback,
        } => {
            let edits = bind_edits(alloc, &set, &add, schema)?;
            Ok(Change::Modify {
                id,
                edits,
                rollback,
            })
        }
        ChangeRequest::Erase { id } => Ok(Change::Erase { id }),
        ChangeRequest::EraseKey { index, key } => {
            let (index, key) = whole_key(alloc, &index, key, schema)?;
            Ok(Change::EraseKey { index, key })
        }
        ChangeRequest::Relocate { index, id, before } => {
            let index = sequenced_index(&index, schema)?;
            Ok(Change::Relocate { index, id, before })
        }
    }
}
