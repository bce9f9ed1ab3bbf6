//! The schema that is served where no other is given: accounts by owner, balance, vip and class, and in a line.
ghost use Rattle.std.specs.Prelude.{◌≡◌, ◌∷◌, ◌++◌, [], true, false, IfOk};
ghost use Rattle.mi_catalog.specs.Accounts.{accounts};

use crate::index::{Column, Index, IndexKind, Parts};
use crate::schema::{Counts, Schema};
use mi_value::limits::DEFAULT_MAX_ROWS;
use mi_value::{ColumnType, KeyPart, Text};
use std::alloc::{AllocError, Global};

fn column(alloc: Global, name: &str, kind: ColumnType) -> Result<Column, AllocError>
    ensures { IfOk result (λ c. c ≡ record { name = name.now; kind = kind }) }
{
    Ok(Column {
        name: Text::of(alloc, name)?,
        kind,
    })
}

fn ascending(column: usize) -> KeyPart
    ensures { result ≡ record { column = column; descending = false } }
{
    KeyPart {
        column,
        descending: false,
    }
}

fn descending(column: usize) -> KeyPart
    ensures { result ≡ record { column = column; descending = true } }
{
    KeyPart {
        column,
        descending: true,
    }
}

fn columns(alloc: Global) -> Result<Vec<Column>, AllocError>
    ensures { IfOk result (λ cs. cs.items ≡ accounts.columns) }
{
    let owner = column(alloc, "owner", ColumnType::Text)?;
    let balance = column(alloc, "balance", ColumnType::Int)?;
    let vip = column(alloc, "vip", ColumnType::Flag)?;
    Ok(vec![in alloc; owner, balance, vip]?)
}

/// Adds an index to those before it.
fn add_index(
    alloc: Global,
    indexes: &mut Vec<Index>,
    name: &str,
    kind: IndexKind,
    unique: bool,
    parts: &[KeyPart],
) -> Result<(), AllocError>
    ensures { IfOk result (λ _. indexes.new.items ≡ indexes.old.items ++ record { name = name.now; kind = kind; «unique» = unique; parts = parts.now } ∷ []) }
{
    Ok(indexes.push(Index {
        name: Text::of(alloc, name)?,
        kind,
        unique,
        parts: Parts::new(parts.to_vec(alloc)?),
    })?)
}

fn indexes(alloc: Global) -> Result<Vec<Index>, AllocError>
    ensures { IfOk result (λ is. is.items ≡ accounts.indexes) }
{
    use IndexKind::{Hashed, Ordered, Ranked, Sequenced};
    let class = [descending(2), ascending(1)];
    let mut all = Vec::new(alloc);
    add_index(alloc, &mut all, "id", Ranked, true, &[])?;
    add_index(alloc, &mut all, "by_owner", Hashed, true, &[ascending(0)])?;
    add_index(
        alloc,
        &mut all,
        "by_balance",
        Ranked,
        false,
        &[ascending(1)],
    )?;
    add_index(alloc, &mut all, "by_vip", Hashed, false, &[ascending(2)])?;
    add_index(alloc, &mut all, "by_class", Ordered, false, &class)?;
    add_index(alloc, &mut all, "line", Sequenced, false, &[])?;
    Ok(all)
}

/// The schema of accounts.
pub fn built_in(alloc: Global) -> Result<Schema, AllocError>
    ensures { IfOk result (λ s. s ≡ accounts) }
{
    Ok(Schema::new(
        Text::of(alloc, "accounts")?,
        columns(alloc)?,
        indexes(alloc)?,
        Counts {
            first_id: 0,
            first_arrival: 0,
            first_revision: 0,
            max_rows: DEFAULT_MAX_ROWS,
        },
    ))
}
