//! Whether records and keys fit a schema. It reads both and takes no memory.
ghost use Rattle.std.specs.Prelude.{◌≡◌};
ghost use Rattle.mi_catalog.specs.Fits as meaning;
ghost use Rattle.mi_value.specs.Lent.{lent};

use crate::index::Column;
use crate::schema::Schema;
use mi_value::limits::MAX_TEXT;
use mi_value::{ColumnType, KeyPart, Record, Value, ValueRef};

/// Whether a value is of this type, and if it is a text has at most 1,024 bytes.
fn fits_type(kind: ColumnType, value: ValueRef<'_>) -> bool
    ensures { result ≡ meaning.fits_type kind (lent value.entry) }
{
    match (kind, value) {
        (ColumnType::Int, ValueRef::Int(_)) | (ColumnType::Flag, ValueRef::Flag(_)) => true,
        (ColumnType::Text, ValueRef::Text(text)) => text.len() <= MAX_TEXT,
        _ => false,
    }
}

/// Whether there is a fitting value for each column, and no more.
fn fits_columns(columns: &[Column], row: &Record) -> bool
    ensures { result ≡ meaning.fits_record columns.now row.now }
{
    let mut values = row.values();
    'columns: for column in columns {
        match values.next() {
            Some(value) if fits_type(column.kind, value) => {}
            _ => return false,
        }
    }
    values.next().is_none()
}

/// Whether each value fits the column of its part, and no value goes past the last part.
fn fits_parts(columns: &[Column], parts: &[KeyPart], key: &[Value]) -> bool
    ensures { result ≡ meaning.fits_parts columns.now parts.now key.now }
{
    match (parts.split_first(), key.split_first()) {
        (_, None) => true,
        (None, Some(_)) => false,
        (Some((part, parts)), Some((value, key))) => {
            fits_part(columns, *part, value) && fits_parts(columns, parts, key)
        }
    }
}

/// Whether a value fits the column of a part.
fn fits_part(columns: &[Column], part: KeyPart, value: &Value) -> bool
    ensures { result ≡ meaning.fits_part columns.now part value.now }
{
    match columns.get(part.column) {
        Some(column) => fits_type(column.kind, value.lend()),
        None => false,
    }
}

/// Whether a key is one whole number, as the index `id` wants it.
fn is_id_key(key: &[Value]) -> bool
    ensures { result ≡ meaning.is_id_key key.now }
{
    matches!(key, [Value::Int(_)])
}

impl Schema {
    ghost use Rattle.std.specs.Prelude.{◌≡◌, ◌<◌, length};
    ghost use Rattle.mi_catalog.specs.Shape.{index_at};

    /// Whether a record has one fitting value for each column, and no more.
    pub fn fits_record(&self, row: &Record) -> bool
        ensures { result ≡ meaning.fits_record self.now.columns row.now }
    {
        fits_columns(self.columns(), row)
    }

    /// Whether values are a key of index i: one for each part where the whole key is wanted, else one up to one for each
    /// part. The index `id` wants one whole number.
    pub fn fits_key(&self, i: usize, key: &[Value], whole: bool) -> bool
        requires { i < length self.now.indexes }
        ensures { result ≡ meaning.fits_key self.now.columns (index_at self.now i).parts whole key.now }
    {
        let parts = self.parts(i);
        if parts.is_empty() {
            is_id_key(key)
        } else if whole {
            key.len() == parts.len() && fits_parts(self.columns(), parts, key)
        } else {
            !key.is_empty() && fits_parts(self.columns(), parts, key)
        }
    }
}
