//! What is checked of a draft, check by check, each over all tables. It reads the draft and takes no memory.
ghost use Rattle.std.specs.Prelude.{◌≡◌, ◌==◌, map, not, nat_lt, nat_le, length, bytes_eq};
ghost use Rattle.std.specs.List.{list_any, list_all, position};
ghost use Rattle.mi_schema.specs.Checks as checks;
ghost use Rattle.mi_catalog.specs.Rules as rules;

use crate::draft::{Draft, DraftColumn, DraftIndex, DraftTable};
use crate::fault::SchemaFault;
use mi_catalog::IndexKind;
use mi_value::limits::{MAX_COLUMNS, MAX_INDEXES, MAX_KEY_PARTS, MAX_NAME, MAX_ROWS, MAX_TABLES};
use mi_value::{ColumnType, Text};

/// What has a name.
trait Named {
    ghost use Rattle.std.specs.Prelude.{◌≡◌, List, ℕ};

    ghost name_of: { Self → List ℕ };

    fn name(&self) -> &str
        ensures { result.now ≡ name_of self.now };
}

impl Named for DraftColumn {
    ghost name_of = { λ c. c.name };

    fn name(&self) -> &str {
        self.name.as_str()
    }
}

impl Named for DraftIndex {
    ghost name_of = { λ i. i.name };

    fn name(&self) -> &str {
        self.name.as_str()
    }
}

impl Named for DraftTable {
    ghost name_of = { λ t. t.name };

    fn name(&self) -> &str {
        self.name.as_str()
    }
}

/// Whether one of these has the name.
fn is_among<T: Named>(items: &[T], name: &str) -> bool
    ensures { result ≡ list_any (λ x. bytes_eq name.now (T.name_of x)) items.now }
{
    items.iter().any(|item| name == item.name())
}

/// Whether no two of these have one name.
#[tactic(auto, using(crate::proofs::ListLaws::any_of_map))]
fn are_distinct<T: Named>(items: &[T]) -> bool
    ensures { result ≡ rules.are_distinct (map T.name_of items.now) }
{
    match items.split_first() {
        None => true,
        Some((item, rest)) => !is_among(rest, item.name()) && are_distinct(rest),
    }
}

fn starts_name(byte: u8) -> bool
    ensures { result ≡ rules.starts_name byte }
{
    byte.is_ascii_lowercase() || byte == b'_'
}

fn continues_name(byte: u8) -> bool
    ensures { result ≡ rules.continues_name byte }
{
    starts_name(byte) || byte.is_ascii_digit()
}

fn continue_name(bytes: &[u8]) -> bool
    ensures { result ≡ list_all rules.continues_name bytes.now }
{
    bytes.iter().all(|byte| continues_name(*byte))
}

/// Whether a text is a letter a to z or `_`, and then such letters, digits and `_`, 32 bytes at most.
fn is_name(name: &str) -> bool
    ensures { result ≡ rules.is_name name.now }
{
    let bytes = name.as_bytes();
    match bytes.split_first() {
        None => false,
        Some((first, rest)) => {
            starts_name(*first) && continue_name(rest) && bytes.len() <= MAX_NAME
        }
    }
}

/// Whether a text is a name, but not `id`.
fn is_free_name(name: &str) -> bool
    ensures { result ≡ rules.is_free_name name.now }
{
    is_name(name) && name != "id"
}

/// Whether the name of each of these is one, and not `id`.
fn have_free_names<T: Named>(items: &[T]) -> bool
    ensures { result ≡ list_all (λ x. rules.is_free_name (T.name_of x)) items.now }
{
    items.iter().all(|item| is_free_name(item.name()))
}

/// The type of this word.
pub(crate) fn type_of(word: &str) -> Option<ColumnType>
    ensures { result ≡ checks.type_named word.now }
{
    match word {
        "int" => Some(ColumnType::Int),
        "text" => Some(ColumnType::Text),
        "flag" => Some(ColumnType::Flag),
        _ => None,
    }
}

/// The kind of this word.
pub(crate) fn kind_of(word: &str) -> Option<IndexKind>
    ensures { result ≡ checks.kind_named word.now }
{
    match word {
        "ordered" => Some(IndexKind::Ordered),
        "ranked" => Some(IndexKind::Ranked),
        "hashed" => Some(IndexKind::Hashed),
        "sequenced" => Some(IndexKind::Sequenced),
        _ => None,
    }
}

/// The number of the column of this name, or none.
fn find_column(columns: &[DraftColumn], name: &[u8]) -> Option<usize>
    ensures { result ≡ position (λ c. bytes_eq c.name name.now) columns.now }
{
    columns
        .iter()
        .position(|c| c.name.as_str().as_bytes() == name)
}

/// Whether an entry of a key has `-` before the column's name.
pub(crate) fn descends(entry: &str) -> bool
    ensures { result ≡ checks.descends entry.now }
{
    matches!(entry.as_bytes(), [b'-', ..])
}

/// The column's name in an entry of a key.
fn named_column(entry: &str) -> &[u8]
    ensures { result.now ≡ checks.named_column entry.now }
{
    match entry.as_bytes() {
        [b'-', name @ ..] => name,
        name => name,
    }
}

/// The number of the column that an entry of a key names; where none has the name, how many columns there are.
pub(crate) fn entry_column(columns: &[DraftColumn], entry: &str) -> usize
    ensures { result ≡ checks.entry_column columns.now entry.now }
{
    find_column(columns, named_column(entry)).unwrap_or(columns.len())
}

/// Whether one of these entries names this column.
fn names_column(columns: &[DraftColumn], entries: &[Text], column: usize) -> bool
    ensures { result ≡ list_any (λ other. column == checks.entry_column columns.now other) entries.now }
{
    for other in entries {
        if column == entry_column(columns, other.as_str()) {
            return true;
        }
    }
    false
}

/// Whether no column is named twice.
fn names_each_once(columns: &[DraftColumn], entries: &[Text]) -> bool
    ensures { result ≡ checks.are_named_once columns.now entries.now }
{
    match entries.split_first() {
        None => true,
        Some((entry, rest)) => {
            let column = entry_column(columns, entry.as_str());
            !names_column(columns, rest, column) && names_each_once(columns, rest)
        }
    }
}

/// Whether each entry names a column that is there.
fn names_known(columns: &[DraftColumn], entries: &[Text]) -> bool
    ensures { result ≡ list_all (λ e. nat_lt (checks.entry_column columns.now e) (length columns.now)) entries.now }
{
    for entry in entries {
        if entry_column(columns, entry.as_str()) >= columns.len() {
            return false;
        }
    }
    true
}

/// Whether there are entries, of columns that are there, none of them named twice.
fn names_columns(columns: &[DraftColumn], entries: &[Text]) -> bool
    ensures { result ≡ checks.names_columns columns.now entries.now }
{
    !entries.is_empty() && names_known(columns, entries) && names_each_once(columns, entries)
}

/// Whether no entry has `-`.
fn ascends(entries: &[Text]) -> bool
    ensures { result ≡ list_all (λ e. not (checks.descends e)) entries.now }
{
    entries.iter().all(|entry| !descends(entry.as_str()))
}

impl DraftIndex {
    ghost use Rattle.std.specs.Prelude.{◌≡◌};
    ghost use Rattle.mi_schema.specs.Checks as checks;

    /// The entries of the key, none where there is no key.
    pub(crate) fn entries(&self) -> &[Text]
        ensures { result.now ≡ checks.key_entries self.now }
    {
        match &self.key {
            Some(key) => key.as_slice(),
            None => &[],
        }
    }

    /// The kind, where its word is one.
    pub(crate) fn kind(&self) -> IndexKind
        ensures { result ≡ checks.kind_or_sequenced self.now.kind }
    {
        kind_of(self.kind.as_str()).unwrap_or(IndexKind::Sequenced)
    }

    /// Whether the key is one that an index of its kind has.
    fn has_key(&self, columns: &[DraftColumn]) -> bool
        ensures { result ≡ checks.has_key columns.now self.now }
    {
        let entries = self.entries();
        match self.kind() {
            IndexKind::Ordered | IndexKind::Ranked => names_columns(columns, entries),
            IndexKind::Hashed => names_columns(columns, entries) && ascends(entries),
            IndexKind::Sequenced => !self.unique && self.key.is_none(),
        }
    }
}

/// Whether no key has more than 4 parts.
fn have_few_parts(indexes: &[DraftIndex]) -> bool
    ensures { result ≡ list_all (λ i. nat_le (length (checks.key_entries i)) MAX_KEY_PARTS) indexes.now }
{
    indexes.iter().all(|i| i.entries().len() <= MAX_KEY_PARTS)
}

fn is_count(n: i64) -> bool
    ensures { result ≡ checks.is_count n }
{
    n >= 0
}

fn is_most_rows(n: i64) -> bool
    ensures { result ≡ checks.is_most_rows n }
{
    n >= 1 && n <= MAX_ROWS as i64
}

impl DraftTable {
    ghost use Rattle.std.specs.Prelude.{◌≡◌};
    ghost use Rattle.mi_schema.specs.Checks as checks;

    fn has_names(&self) -> bool
        ensures { result ≡ checks.has_names self.now }
    {
        is_name(self.name.as_str())
            && have_free_names(self.columns.as_slice())
            && have_free_names(self.indexes.as_slice())
    }

    fn has_no_twins(&self) -> bool
        ensures { result ≡ checks.has_no_twins self.now }
    {
        are_distinct(self.columns.as_slice()) && are_distinct(self.indexes.as_slice())
    }

    fn has_types(&self) -> bool
        ensures { result ≡ checks.has_types self.now }
    {
        self.columns
            .iter()
            .all(|c| type_of(c.kind.as_str()).is_some())
    }

    fn has_kinds(&self) -> bool
        ensures { result ≡ checks.has_kinds self.now }
    {
        self.indexes
            .iter()
            .all(|i| kind_of(i.kind.as_str()).is_some())
    }

    fn has_keys(&self) -> bool
        ensures { result ≡ checks.has_index_keys self.now }
    {
        self.indexes
            .iter()
            .all(|i| i.has_key(self.columns.as_slice()))
    }

    fn has_limits(&self) -> bool
        ensures { result ≡ checks.has_limits self.now }
    {
        !self.columns.is_empty()
            && self.columns.len() <= MAX_COLUMNS
            && self.indexes.len() <= MAX_INDEXES
            && have_few_parts(self.indexes.as_slice())
    }

    fn has_numbers(&self) -> bool
        ensures { result ≡ checks.has_numbers self.now }
    {
        is_count(self.first_id) && is_count(self.first_arrival) && is_most_rows(self.max_rows)
    }
}

fn have_names(tables: &[DraftTable]) -> bool
    ensures { result ≡ list_all checks.has_names tables.now }
{
    tables.iter().all(DraftTable::has_names)
}

fn have_no_twins(tables: &[DraftTable]) -> bool
    ensures { result ≡ list_all checks.has_no_twins tables.now }
{
    tables.iter().all(DraftTable::has_no_twins)
}

fn have_types(tables: &[DraftTable]) -> bool
    ensures { result ≡ list_all checks.has_types tables.now }
{
    tables.iter().all(DraftTable::has_types)
}

fn have_kinds(tables: &[DraftTable]) -> bool
    ensures { result ≡ list_all checks.has_kinds tables.now }
{
    tables.iter().all(DraftTable::has_kinds)
}

fn have_keys(tables: &[DraftTable]) -> bool
    ensures { result ≡ list_all checks.has_index_keys tables.now }
{
    tables.iter().all(DraftTable::has_keys)
}

fn have_limits(tables: &[DraftTable]) -> bool
    ensures { result ≡ list_all checks.has_limits tables.now }
{
    tables.iter().all(DraftTable::has_limits)
}

fn have_numbers(tables: &[DraftTable]) -> bool
    ensures { result ≡ list_all checks.has_numbers tables.now }
{
    tables.iter().all(DraftTable::has_numbers)
}

impl Draft {
    ghost use Rattle.std.specs.Prelude.{◌≡◌};
    ghost use Rattle.mi_schema.specs.Checks as checks;
    ghost use Rattle.mi_schema.specs.Checks.{fault_of};

    fn has_no_twins(&self) -> bool
        ensures { result ≡ checks.are_no_twins self.now.tables }
    {
        are_distinct(self.tables.as_slice()) && have_no_twins(self.tables.as_slice())
    }

    fn is_small(&self) -> bool
        ensures { result ≡ checks.are_few self.now.tables }
    {
        !self.tables.is_empty()
            && self.tables.len() <= MAX_TABLES
            && have_limits(self.tables.as_slice())
    }

    fn is_numbered(&self) -> bool
        ensures { result ≡ checks.are_numbered self.now }
    {
        is_count(self.first_revision) && have_numbers(self.tables.as_slice())
    }

    /// The fault of the first check that fails.
    #[tactic(auto, unfolding(crate::specs::Checks::fault_of))]
    pub(crate) fn fault(&self) -> Option<SchemaFault>
        ensures { result ≡ fault_of self.now }
    {
        let tables = self.tables.as_slice();
        if !have_names(tables) {
            Some(SchemaFault::Name)
        } else if !self.has_no_twins() {
            Some(SchemaFault::Twice)
        } else if !have_types(tables) {
            Some(SchemaFault::ColType)
        } else if !have_kinds(tables) {
            Some(SchemaFault::Kind)
        } else if !have_keys(tables) {
            Some(SchemaFault::Key)
        } else if !self.is_small() {
            Some(SchemaFault::Limit)
        } else if !self.is_numbered() {
            Some(SchemaFault::Number)
        } else {
            None
        }
    }
}
