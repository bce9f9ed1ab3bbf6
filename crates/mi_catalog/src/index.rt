//! Columns and indexes as a schema lists them, and what each kind of index can do. The code's one table of kinds stands here.
ghost use Rattle.std.specs.Prelude.{◌≡◌, IfOk};

use mi_value::{ColumnType, KeyPart, Text};
use std::alloc::{AllocError, Global};
use std::marker::Model;

/// What an index is: ordered by key, ordered with ranks, hashed by key, or freely ordered.
#[derive(Clone, Copy, Debug, PartialEq, Eq)]
pub enum IndexKind {
    Ordered,
    Ranked,
    Hashed,
    Sequenced,
}

/// What indexes of each kind can do.
impl IndexKind {
    ghost use Rattle.std.specs.Prelude.{◌≡◌};
    ghost use Rattle.mi_catalog.specs.Kinds as kinds;

    /// Whether an index of this kind has keys.
    pub fn has_keys(self) -> bool
        ensures { result ≡ kinds.has_keys self }
    {
        match self {
            IndexKind::Ordered | IndexKind::Ranked | IndexKind::Hashed => true,
            IndexKind::Sequenced => false,
        }
    }

    /// Whether its records stand in an order of their own, which commands change.
    pub fn is_sequenced(self) -> bool
        ensures { result ≡ kinds.is_sequenced self }
    {
        match self {
            IndexKind::Sequenced => true,
            IndexKind::Ordered | IndexKind::Ranked | IndexKind::Hashed => false,
        }
    }

    /// Whether its records stand in the order of their keys.
    pub fn is_sorted(self) -> bool
        ensures { result ≡ kinds.is_sorted self }
    {
        match self {
            IndexKind::Ordered | IndexKind::Ranked => true,
            IndexKind::Hashed | IndexKind::Sequenced => false,
        }
    }

    /// Whether commands ask it for ranks.
    pub fn is_ranked(self) -> bool
        ensures { result ≡ kinds.is_ranked self }
    {
        match self {
            IndexKind::Ranked => true,
            IndexKind::Ordered | IndexKind::Hashed | IndexKind::Sequenced => false,
        }
    }

    /// Whether it is looked up by whole keys alone.
    pub fn is_hashed(self) -> bool
        ensures { result ≡ kinds.is_hashed self }
    {
        match self {
            IndexKind::Hashed => true,
            IndexKind::Ordered | IndexKind::Ranked | IndexKind::Sequenced => false,
        }
    }

    /// Whether it shows its records as one list, from a first to a last.
    pub fn shows_one_list(self) -> bool
        ensures { result ≡ kinds.shows_one_list self }
    {
        match self {
            IndexKind::Ordered | IndexKind::Ranked | IndexKind::Sequenced => true,
            IndexKind::Hashed => false,
        }
    }
}

/// The parts of an index's key, seen as a list.
#[derive(Debug, Drop)]
pub struct Parts {
    parts: Vec<KeyPart>,
}

impl Model for Parts {
    ghost use Rattle.std.specs.Prelude.{List};
    ghost use Rattle.mi_value.specs.declared.compare.KeyPart.{KeyPart as KeyPartSpec};

    ghost Value = { List KeyPartSpec };

    ghost view = { λ a. a.parts.items };
}

impl Parts {
    ghost use Rattle.std.specs.Prelude.{◌≡◌, IfOk};

    /// These parts. Takes no memory.
    pub fn new(parts: Vec<KeyPart>) -> Parts
        ensures { result ≡ parts.items }
    {
        Parts { parts }
    }

    /// The parts in order.
    pub fn as_slice(&self) -> &[KeyPart]
        ensures { result.now ≡ self.now }
    {
        self.parts.as_slice()
    }

    fn copy(&self, alloc: Global) -> Result<Parts, AllocError>
        ensures { IfOk result (λ copied. copied ≡ self.now) }
    {
        Ok(Parts {
            parts: self.parts.as_slice().to_vec(alloc)?,
        })
    }
}

/// A column's name and type.
#[derive(Debug, Drop)]
pub struct Column {
    pub name: Text,
    pub kind: ColumnType,
}

/// An index. One without parts that is not sequenced goes by the id.
#[derive(Debug, Drop)]
pub struct Index {
    pub name: Text,
    pub kind: IndexKind,
    pub unique: bool,
    pub parts: Parts,
}

impl Column {
    fn copy(&self, alloc: Global) -> Result<Column, AllocError>
        ensures { IfOk result (λ copied. copied ≡ self.now) }
    {
        Ok(Column {
            name: self.name.copy(alloc)?,
            kind: self.kind,
        })
    }
}

impl Index {
    fn copy(&self, alloc: Global) -> Result<Index, AllocError>
        ensures { IfOk result (λ copied. copied ≡ self.now) }
    {
        Ok(Index {
            name: self.name.copy(alloc)?,
            kind: self.kind,
            unique: self.unique,
            parts: self.parts.copy(alloc)?,
        })
    }
}

/// The same columns.
pub(crate) fn copy_columns(alloc: Global, columns: &[Column]) -> Result<Vec<Column>, AllocError>
    ensures { IfOk result (λ copied. copied.items ≡ columns.now) }
{
    let mut copied = Vec::new(alloc);
    for column in columns {
        copied.push(column.copy(alloc)?)?;
    }
    Ok(copied)
}

/// The same indexes.
pub(crate) fn copy_indexes(alloc: Global, indexes: &[Index]) -> Result<Vec<Index>, AllocError>
    ensures { IfOk result (λ copied. copied.items ≡ indexes.now) }
{
    let mut copied = Vec::new(alloc);
    for index in indexes {
        copied.push(index.copy(alloc)?)?;
    }
    Ok(copied)
}
