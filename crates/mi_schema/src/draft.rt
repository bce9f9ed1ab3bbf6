//! A document's content as it is written, before any rule but its shape is checked.
use mi_value::Text;
use std::marker::Model;

/// Texts, seen as a list.
#[derive(Drop)]
pub(crate) struct Texts {
    texts: Vec<Text>,
}

impl Model for Texts {
    ghost use Rattle.std.specs.Prelude.{List, ℕ};

    ghost Value = { List (List ℕ) };

    ghost view = { λ a. a.texts.items };
}

impl Texts {
    ghost use Rattle.std.specs.Prelude.{◌≡◌};

    pub(crate) fn new(texts: Vec<Text>) -> Texts
        ensures { result ≡ texts.items }
    {
        Texts { texts }
    }

    pub(crate) fn as_slice(&self) -> &[Text]
        ensures { result.now ≡ self.now }
    {
        self.texts.as_slice()
    }
}

/// A column: its name and the word of its type.
#[derive(Drop)]
pub(crate) struct DraftColumn {
    pub(crate) name: Text,
    pub(crate) kind: Text,
}

/// An index: its name, the word of its kind, whether it is unique, and its key, if it has one.
#[derive(Drop)]
pub(crate) struct DraftIndex {
    pub(crate) name: Text,
    pub(crate) kind: Text,
    pub(crate) unique: bool,
    pub(crate) key: Option<Texts>,
}

/// A table, with the defaults of what is absent.
#[derive(Drop)]
pub(crate) struct DraftTable {
    pub(crate) name: Text,
    pub(crate) columns: Vec<DraftColumn>,
    pub(crate) indexes: Vec<DraftIndex>,
    pub(crate) first_id: i64,
    pub(crate) first_arrival: i64,
    pub(crate) max_rows: i64,
}

impl Model for DraftTable {
    ghost use Rattle.mi_schema.specs.Draft.{TableDraft};

    ghost Value = { TableDraft };

    ghost view = { λ a. record {
      name = a.name;
      columns = a.columns.items;
      indexes = a.indexes.items;
      first_id = a.first_id;
      first_arrival = a.first_arrival;
      max_rows = a.max_rows;
    } };
}

/// The tables in order, and the revision that the database opens with.
#[derive(Drop)]
pub(crate) struct Draft {
    pub(crate) tables: Vec<DraftTable>,
    pub(crate) first_revision: i64,
}

impl Model for Draft {
    ghost use Rattle.mi_schema.specs.Draft.{CatalogDraft};

    ghost Value = { CatalogDraft };

    ghost view = { λ a. record { tables = a.tables.items; first_revision = a.first_revision } };
}
