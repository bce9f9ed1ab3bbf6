//! What each kind of member is. It knows no command.
ghost use Rattle.std.specs.Prelude.{◌≡◌, option_map, option_and_then, None, false, codes};
ghost use Rattle.serde_json.specs.Data.{no_members};
ghost use Rattle.serde_json.specs.Find.{as_str, as_array, as_bool, as_object};
ghost use Rattle.mi_tokens.specs.Meaning.{meaning};
ghost use Rattle.mi_request.specs.Commands as commands;
ghost use Rattle.mi_request.specs.Json as kinds;
ghost use Rattle.mi_request.specs.Json.{needed, optional, default};
ghost use Rattle.mi_request.specs.declared.request.Bound.TheVariants.{Unbounded};
ghost use Rattle.mi_value.specs.declared.limits.TheConstants.{MAX_PAGE};

use crate::array::Array;
use crate::name::Name;
use crate::object::Object;
use crate::request::{Bound, NamedPlace};
use mi_tokens::Json;
use mi_value::limits::MAX_PAGE;

#[inline(always)]
fn name_of<'a>(value: &Json<'a>) -> Option<Name<'a>>
    ensures { result ≡ as_str (meaning value.now) }
{
    Some(Name::new(value.as_str()?))
}

#[inline(always)]
pub(crate) fn natural_of(value: &Json<'_>) -> Option<u64>
    ensures { result ≡ kinds.natural (meaning value.now) }
{
    let n = value.as_i64()?;
    if n >= 0 { Some(n as u64) } else { None }
}

fn natural_or_null(value: &Json<'_>) -> Option<Option<u64>>
    ensures { result ≡ commands.natural_or_null (meaning value.now) }
{
    if value.is_null() {
        return Some(None);
    }
    Some(Some(natural_of(value)?))
}

/// The text of a member.
#[inline(always)]
pub(crate) fn text<'a>(object: &Object<'a>, name: &str) -> Option<Name<'a>>
    ensures { result ≡ needed as_str name.now object.now }
{
    name_of(object.get(name)?)
}

/// The index that members name.
pub(crate) fn index_in<'a>(members: &Object<'a>) -> Option<Name<'a>>
    ensures { result ≡ commands.index_in members.now }
{
    text(members, "index")
}

/// The table that members name, if they name one.
pub(crate) fn table_in<'a>(members: &Object<'a>) -> Option<Option<Name<'a>>>
    ensures { result ≡ commands.table_in members.now }
{
    match members.get("table") {
        Some(value) => Some(Some(name_of(value)?)),
        None => Some(None),
    }
}

/// A whole number from 0.
#[inline(always)]
pub(crate) fn natural(object: &Object<'_>, name: &str) -> Option<u64>
    ensures { result ≡ needed kinds.natural name.now object.now }
{
    natural_of(object.get(name)?)
}

/// The id of a record that members name.
pub(crate) fn id_in(members: &Object<'_>) -> Option<u64>
    ensures { result ≡ commands.id_in members.now }
{
    natural(members, "id")
}

/// A whole number from 0; null is as absent.
pub(crate) fn natural_if_there(object: &Object<'_>, name: &str) -> Option<Option<u64>>
    ensures { result ≡ default None commands.natural_or_null name.now object.now }
{
    match object.get(name) {
        Some(value) => natural_or_null(value),
        None => Some(None),
    }
}

/// A whole number from 0 that may be absent.
pub(crate) fn natural_or_absent(object: &Object<'_>, name: &str) -> Option<Option<u64>>
    ensures { result ≡ optional kinds.natural name.now object.now }
{
    match object.get(name) {
        Some(value) => Some(Some(natural_of(value)?)),
        None => Some(None),
    }
}

/// True or false; absent it is false.
pub(crate) fn flag(object: &Object<'_>, name: &str) -> Option<bool>
    ensures { result ≡ default false as_bool name.now object.now }
{
    match object.get(name) {
        Some(value) => value.as_bool(),
        None => Some(false),
    }
}

/// A whole number from 0 to `most`.
pub(crate) fn up_to(object: &Object<'_>, name: &str, most: u64) -> Option<u64>
    ensures { result ≡ needed (commands.up_to most) name.now object.now }
{
    let n = natural_of(object.get(name)?)?;
    if n <= most { Some(n) } else { None }
}

/// A number of rows, 1 to 1,000.
#[inline(always)]
pub(crate) fn if_page(n: u64) -> Option<usize>
    ensures { result ≡ commands.if_page n }
{
    if 1 <= n && n <= MAX_PAGE as u64 {
        Some(n as usize)
    } else {
        None
    }
}

/// A number of rows, 1 to 1,000; absent it is 1,000.
pub(crate) fn limit_in(members: &Object<'_>) -> Option<usize>
    ensures { result ≡ commands.limit_in members.now }
{
    match members.get("limit") {
        Some(value) => if_page(natural_of(value)?),
        None => Some(MAX_PAGE),
    }
}

/// The object that a value is.
pub(crate) fn object_of<'a>(value: &Json<'a>) -> Option<Object<'a>>
    ensures { result ≡ as_object (meaning value.now) }
{
    Some(Object::new(value.as_members()?))
}

fn array_of<'a>(value: &Json<'a>) -> Option<Array<'a>>
    ensures { result ≡ as_array (meaning value.now) }
{
    Some(Array::new(value.as_items()?))
}

/// The row that members have.
pub(crate) fn row_in<'a>(members: &Object<'a>) -> Option<Object<'a>>
    ensures { result ≡ needed as_object (codes "row") members.now }
{
    object_of(members.get("row")?)
}

/// An object; absent it has no members.
pub(crate) fn object_or_empty<'a>(object: &Object<'a>, name: &str) -> Option<Object<'a>>
    ensures { result ≡ default no_members as_object name.now object.now }
{
    match object.get(name) {
        Some(value) => object_of(value),
        None => Some(Object::new(&[])),
    }
}

/// The key that members have.
pub(crate) fn key_in<'a>(members: &Object<'a>) -> Option<Array<'a>>
    ensures { result ≡ commands.key_in members.now }
{
    array_of(members.get("key")?)
}

/// The place that an object with exactly `index` and `id` names.
fn place_of<'a>(object: &Object<'a>) -> Option<NamedPlace<'a>>
    ensures { result ≡ commands.place_of object.now }
{
    if !object.has_only(&["index", "id"]) {
        return None;
    }
    let index = index_in(object)?;
    let id = id_in(object)?;
    Some(NamedPlace { index, id })
}

fn place_or_null<'a>(value: &Json<'a>) -> Option<Option<NamedPlace<'a>>>
    ensures { result ≡ commands.place_or_none (meaning value.now) }
{
    if value.is_null() {
        return Some(None);
    }
    Some(Some(place_of(&object_of(value)?)?))
}

/// The place before which a record is inserted; null is as absent.
pub(crate) fn place<'a>(object: &Object<'a>, name: &str) -> Option<Option<NamedPlace<'a>>>
    ensures { result ≡ default None commands.place_or_none name.now object.now }
{
    match object.get(name) {
        Some(value) => place_or_null(value),
        None => Some(None),
    }
}

/// An end of a range by a key that is in it, or by one that isn't, and not both.
fn one_end<'a>(with: Option<&Json<'a>>, without: Option<&Json<'a>>) -> Option<Bound<'a>>
    ensures { result ≡ commands.one_end (option_map (λ v. meaning v.now) with.entry) (option_map (λ v. meaning v.now) without.entry) }
{
    match (with, without) {
        (Some(value), None) => Some(Bound::Included(array_of(value)?)),
        (None, Some(value)) => Some(Bound::Excluded(array_of(value)?)),
        _ => None,
    }
}

#[inline(always)]
fn end_of<'a>(object: &Object<'a>, with: &str, without: &str) -> Option<Bound<'a>>
    ensures { result ≡ commands.end_of with.now without.now object.now }
{
    if !object.has_only(&[with, without]) {
        return None;
    }
    one_end(object.get(with), object.get(without))
}

/// An end of a range: an object with exactly one of two members, an array. Absent it is open.
#[inline(always)]
pub(crate) fn end<'a>(
    object: &Object<'a>,
    name: &str,
    with: &str,
    without: &str,
) -> Option<Bound<'a>>
    ensures { result ≡ default Unbounded (λ d. option_and_then (commands.end_of with.now without.now) (as_object d)) name.now object.now }
{
    match object.get(name) {
        Some(value) => end_of(&object_of(value)?, with, without),
        None => Some(Bound::Unbounded),
    }
}
