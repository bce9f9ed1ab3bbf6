//! Edits: from the members `set` and `add` of a modify to edits of columns by number.
ghost use Rattle.std.specs.Prelude.{◌≡◌, ◌∷◌, ◌++◌, [], IfOk, IfErr, OnOk};
ghost use Rattle.std.specs.Option.{ok_or};
ghost use Rattle.mi_protocol.specs.EditList.{edits_in};
ghost use Rattle.serde_json.specs.Find.{get_member};
ghost use Rattle.mi_request.specs.Answers.{IsAnswer};
ghost use Rattle.mi_tokens.specs.Meaning.{meaning};
ghost use Rattle.mi_protocol.specs.Edits as edits;
ghost use Rattle.mi_protocol.specs.Edits.{edits_from, bound_edits};

use crate::columns::has_only_columns;
use crate::row::fit;
use mi_catalog::{Column, Schema};
use mi_request::{Json, Object};
use mi_value::{ColumnType, Edit, Refusal};
use std::alloc::Global;
use std::marker::Model;
use std::{array, mem};

/// No edit, a single one, or several in a vector.
#[derive(Drop)]
enum EditList {
    None,
    One(Edit),
    Many(Vec<Edit>),
}

/// The edits of one modify, each of a column of its own; those of a line are in the order of the columns. Seen as their list. A single one
/// takes no vector.
#[derive(Drop)]
pub struct Edits {
    list: EditList,
}

impl Model for Edits {
    ghost use Rattle.std.specs.Prelude.{List};
    ghost use Rattle.mi_value.specs.declared.edit.Edit.{Edit as EditSpec};
    ghost use Rattle.mi_protocol.specs.EditList.{edits_in};

    ghost Value = { List EditSpec };

    ghost view = { λ a. edits_in a.list };
}

/// Two edits in a vector. Refusal: `Memory`.
fn two_edits(alloc: Global, first: Edit, second: Edit) -> Result<Vec<Edit>, Refusal>
    ensures ok { IfOk result (λ v. v.items ≡ first ∷ second ∷ []) }
    ensures err { IfErr result (λ e. e ≡ Refusal.Memory) }
{
    let mut edits = Vec::new(alloc);
    edits.push(first)?;
    edits.push(second)?;
    Ok(edits)
}

/// These edits and one more behind them. Refusal: `Memory`.
fn with_edit(alloc: Global, list: EditList, edit: Edit) -> Result<EditList, Refusal>
    ensures ok { IfOk result (λ more. edits_in more ≡ edits_in list ++ edit ∷ []) }
    ensures err { IfErr result (λ e. e ≡ Refusal.Memory) }
{
    match list {
        EditList::None => Ok(EditList::One(edit)),
        EditList::One(first) => Ok(EditList::Many(two_edits(alloc, first, edit)?)),
        EditList::Many(edits) => {
            let mut edits = edits;
            edits.push(edit)?;
            Ok(EditList::Many(edits))
        }
    }
}

/// Puts one more edit behind the others. Refusal: `Memory`, after which nothing is said of them.
fn put_edit(alloc: Global, list: &mut EditList, edit: Edit) -> Result<(), Refusal>
    ensures ok { OnOk result (edits_in list.new ≡ edits_in list.old ++ edit ∷ []) }
    ensures err { IfErr result (λ e. e ≡ Refusal.Memory) }
{
    let others = mem::replace(list, EditList::None);
    *list = with_edit(alloc, others, edit)?;
    Ok(())
}

impl Edits {
    ghost use Rattle.std.specs.Prelude.{◌≡◌, [], ◌∷◌};
    ghost use Rattle.mi_protocol.specs.EditList.{edits_in};

    /// A single edit. Takes no memory.
    pub fn one(edit: Edit) -> Edits
        ensures { result ≡ edit ∷ [] }
    {
        Edits::new(EditList::One(edit))
    }

    /// The edits of a vector. Takes no memory.
    pub fn of(edits: Vec<Edit>) -> Edits
        ensures { result ≡ edits.items }
    {
        Edits::new(EditList::Many(edits))
    }

    /// These edits. Takes no memory.
    fn new(list: EditList) -> Edits
        ensures { result ≡ edits_in list }
    {
        Edits { list }
    }

    /// The edits in order.
    pub fn as_slice(&self) -> &[Edit]
        ensures { result.now ≡ self.now }
    {
        match &self.list {
            EditList::None => &[],
            EditList::One(edit) => array::from_ref(edit).as_slice(),
            EditList::Many(edits) => edits.as_slice(),
        }
    }
}

/// An addition of a whole number to a column, which must be an `int`.
fn addition(i: usize, kind: ColumnType, value: &Json<'_>) -> Option<Edit>
    ensures { result ≡ edits.addition i kind (meaning value.now) }
{
    match kind {
        ColumnType::Int => Some(Edit::Add(i, value.as_i64()?)),
        ColumnType::Text | ColumnType::Flag => None,
    }
}

/// The edit of column i, if there is one, from its members of `set` and `add`. Refusals: `Row`, where it doesn't fit or has
/// both, and `Memory`.
fn edit_of(
    alloc: Global,
    i: usize,
    column: &Column,
    set: &Object<'_>,
    add: &Object<'_>,
) -> Result<Option<Edit>, Refusal>
    ensures { IsAnswer result (ok_or (edits.edit_of i column.now.kind
        (get_member column.now.name set.now) (get_member column.now.name add.now)) Refusal.Row) }
{
    let name = column.name.as_str();
    let kind = column.kind;
    match (set.get(name), add.get(name)) {
        (None, None) => Ok(None),
        (Some(value), None) => Ok(Some(Edit::Put(i, fit(alloc, kind, value)?))),
        (None, Some(value)) => Ok(Some(addition(i, kind, value).ok_or(Refusal::Row)?)),
        (Some(_), Some(_)) => Err(Refusal::Row),
    }
}

/// The edits of the columns' members.
fn edits_of(
    alloc: Global,
    set: &Object<'_>,
    add: &Object<'_>,
    columns: &[Column],
) -> Result<Edits, Refusal>
    ensures { IsAnswer result (ok_or (edits_from 0 columns.now set.now add.now) Refusal.Row) }
{
    let mut edits = EditList::None;
    'columns: for (i, column) in columns.iter().enumerate() {
        if let Some(edit) = edit_of(alloc, i, column, set, add)? {
            put_edit(alloc, &mut edits, edit)?;
        }
    }
    Ok(Edits::new(edits))
}

/// The edits that `set` and `add` make: every member is of a column, and none has a member of both. Refusals: `Row` and
/// `Memory`.
pub(crate) fn bind_edits(
    alloc: Global,
    set: &Object<'_>,
    add: &Object<'_>,
    schema: &Schema,
) -> Result<Edits, Refusal>
    ensures { IsAnswer result (ok_or (bound_edits schema.now.columns set.now add.now) Refusal.Row) }
{
    let columns = schema.columns();
    if !has_only_columns(set, columns) || !has_only_columns(add, columns) {
        return Err(Refusal::Row);
    }
    edits_of(alloc, set, add, columns)
}
