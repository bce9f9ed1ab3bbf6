//! What is the same in each row of a reply: the members in the order of their names, each as a label. A label is the bytes that stand before
//! a member's value, the row's bracket or the comma among them, and which value has the value. They are made without memory, and kept with a
//! copy of the columns that they were made of.
ghost use Rattle.std.specs.Prelude.{◌≡◌, ◌≤◌, length, false, IfOk, IfSome};
ghost use Rattle.std.specs.List.{All};
ghost use Rattle.arrayvec.specs.ArrayVec.{array_vec_len};
ghost use Rattle.mi_value.specs.declared.limits.TheConstants.{MAX_COLUMNS};
ghost use Rattle.mi_rows.specs.Labels as given;
ghost use Rattle.mi_rows.specs.Labels.{AreLabels};

use crate::shown::{MAX_MEMBERS, Member, Source, row_order};
use arrayvec::ArrayVec;
use mi_catalog::Column;
use mi_print::{is_plain, put_byte, put_text};
use mi_value::limits::MAX_NAME;
use std::alloc::{AllocError, Global};
use std::marker::Model;

/// A bracket or a comma, a name of up to 32 bytes, its quotation marks, a colon, and bytes that don't count.
const LABEL: usize = 40;

/// A member of a row: its label, whose first bytes count, and which of a row's values has its value.
#[derive(Drop)]
pub(crate) struct Label {
    pub(crate) bytes: [u8; LABEL],
    pub(crate) len: usize,
    pub(crate) place: usize,
}

impl Model for Label {
    ghost use Rattle.std.specs.Prelude.{◌≤◌, take};
    ghost use Rattle.mi_rows.specs.Labels.{LabelShape};

    ghost Value = { LabelShape };

    ghost view = { λ a. record { text = take a.len a.bytes; place = a.place } };

    ghost invariant = { λ a. a.len ≤ 36 };
}

impl Default for Label {
    fn default() -> Self {
        Label {
            bytes: [0; LABEL],
            len: 0,
            place: 0,
        }
    }
}

/// The labels of a row's members.
pub(crate) type Labels = ArrayVec<Label, MAX_MEMBERS>;

/// Which value of a row has what stands there.
fn place_of(source: Source) -> Option<usize>
    ensures { IfSome result (λ place. place ≡ given.place_of source) }
{
    match source {
        Source::Id => Some(0),
        Source::Column(i) => i.checked_add(1),
    }
}

/// The label of a member, of the first or of a later one; none where its name is longer than a column's may be, or needs an escape.
fn label_of(later: bool, member: Member<'_>) -> Option<Label>
    ensures { IfSome result (λ label. label ≡ given.label_of later member.entry) }
{
    let name = member.name.as_bytes();
    if name.len() > MAX_NAME || !is_plain(name) {
        return None;
    }
    let mut bytes = [0; LABEL];
    let opened = put_byte(&mut bytes, 0, if later { b',' } else { b'{' });
    let begun = put_byte(&mut bytes, opened, b'"');
    let end = put_text(&mut bytes, begun, name);
    let closed = put_byte(&mut bytes, end, b'"');
    let len = put_byte(&mut bytes, closed, b':');
    Some(Label {
        bytes,
        len,
        place: place_of(member.source)?,
    })
}

/// The labels of members, in their order; none where one stands behind the values of so many columns.
fn labels_in(order: &[Member], columns: usize) -> Option<Labels>
    requires { length order.now ≤ MAX_MEMBERS }
    ensures labels { IfSome result (λ labels. labels.items ≡ given.labels_in false order.now) }
    ensures places { IfSome result (λ labels. All (λ l. l.place ≤ columns) labels.items) }
{
    let mut labels = ArrayVec::new();
    let mut later = false;
    'members: for member in order {
        let label = label_of(later, *member)?;
        if label.place > columns {
            return None;
        }
        labels.push(label);
        later = true;
    }
    Some(labels)
}

/// The labels of the members of rows with these columns.
pub(crate) fn labels_of(columns: &[Column]) -> Option<Labels>
    requires { length columns.now ≤ MAX_COLUMNS }
    ensures { AreLabels columns.now result }
{
    let order = row_order(columns);
    if order.is_empty() {
        return None;
    }
    labels_in(order.as_slice(), columns.len())
}

/// The labels of the rows of given columns, made once for all replies that show such rows, with the columns that they were made of. It
/// has none where a name is longer than a column's may be or needs an escape: those rows are written token by token.
#[derive(Drop)]
pub struct RowLabels {
    columns: Vec<Column>,
    members: Option<Labels>,
}

impl Model for RowLabels {
    ghost use Rattle.std.specs.Prelude.{List};
    ghost use Rattle.mi_catalog.specs.declared.index.Column.{Column as ColumnSpec};
    ghost use Rattle.mi_rows.specs.Labels.{AreLabels};

    ghost Value = { List ColumnSpec };

    ghost view = { λ a. a.columns.items };

    ghost invariant = { λ a. AreLabels a.columns.items a.members };
}

/// The same columns.
fn copy_columns(alloc: Global, columns: &[Column]) -> Result<Vec<Column>, AllocError>
    ensures { IfOk result (λ copied. copied.items ≡ columns.now) }
{
    let mut copied = Vec::with_capacity(alloc, columns.len())?;
    'columns: for column in columns {
        copied.push(Column {
            name: column.name.copy(alloc)?,
            kind: column.kind,
        })?;
    }
    Ok(copied)
}

impl RowLabels {
    ghost use Rattle.std.specs.Prelude.{◌≡◌, ◌≤◌, length, IfOk};
    ghost use Rattle.mi_value.specs.declared.limits.TheConstants.{MAX_COLUMNS};
    ghost use Rattle.mi_rows.specs.Labels.{AreLabels};

    /// The labels of rows with these columns, at most 16. It takes memory for a copy of the columns alone.
    pub fn of(alloc: Global, columns: &[Column]) -> Result<RowLabels, AllocError>
        requires { length columns.now ≤ MAX_COLUMNS }
        ensures { IfOk result (λ labels. labels ≡ columns.now) }
    {
        let members = labels_of(columns);
        Ok(RowLabels {
            columns: copy_columns(alloc, columns)?,
            members,
        })
    }

    /// The labels themselves.
    pub(crate) fn members(&self) -> &Option<Labels>
        ensures { AreLabels self.now result.now }
    {
        &self.members
    }
}
