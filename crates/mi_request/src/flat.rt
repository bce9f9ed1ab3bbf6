//! Commands over keys, rows and ranges as a compact writer gives them: `cmd` first, and then the members in the order of the table of
//! commands. Each member goes to its place as it is read. What is written in another way is left to the reading of any line.
ghost use Rattle.std.specs.Prelude.{◌≡◌, ◌++◌, ℕ, List, Option, IfSome, Some, None, Ok, false, codes};
ghost use Rattle.json.specs.Json.{read_key, value};
ghost use Rattle.json.specs.Print.{escape};
ghost use Rattle.json.specs.Token.{Token};
ghost use Rattle.serde_json.specs.Data.{Data, array, object, string, no_members};
ghost use Rattle.serde_json.specs.Read.{of_json, converted};
ghost use Rattle.serde_json.specs.Find.{as_str, as_bool, as_object};
ghost use Rattle.mi_tokens.specs.Ends.{name_text};
ghost use Rattle.mi_tokens.specs.Tokens.{tokens_at};
ghost use Rattle.mi_tokens.specs.declared.tokens.Context.TheVariants.{AfterComma};
ghost use Rattle.mi_value.specs.declared.limits.TheConstants.{MAX_PAGE};
ghost use Rattle.mi_request.specs.Commands.{lower_end, upper_end, page};
ghost use Rattle.mi_request.specs.Flat.{IsMember, IsMaybe, IsLast, HasKey, end_object, command_start};
ghost use Rattle.mi_request.specs.declared.request.Bound.TheVariants.{Unbounded};
ghost use Rattle.mi_request.specs.Json.{natural, if_there, default_if};
ghost use Rattle.mi_request.specs.Keyed.{key_name};
ghost use Rattle.mi_request.specs.Lines.{command_line};

use crate::array::Array;
use crate::keyed::KeyCommand;
use crate::name::Name;
use crate::object::Object;
use crate::reading::{if_page, natural_of};
use crate::request::{Bound, ChangeRequest, KeyLookUpRequest, NumberLookUpRequest, Request};
use crate::text::text_of;
use bumpalo::Bump;
use mi_tokens::{Json, Tokens, pass_object, pass_one};
use mi_value::limits::MAX_PAGE;

/// Where the first letter of the command's name stands in such a line.
const FIRST_AT: usize = 8;

/// Where the third letter stands.
const THIRD_AT: usize = 10;

/// The row, as the last member.
#[inline(always)]
fn last_row<'a>(arena: &'a Bump, tokens: &mut Tokens<'a>) -> Option<Object<'a>>
    ensures { IfSome result (λ ms. IsLast tokens.old (codes "row") (object ms)) }
{
    if !tokens.take_key(b"\"row\":") {
        return None;
    }
    let row = Object::new(pass_object(arena, tokens)?);
    if tokens.take_end() { Some(row) } else { None }
}

/// The object of a member that may come next; absent it has no members.
#[inline(always)]
fn edits<'a, const N: usize>(
    arena: &'a Bump,
    tokens: &mut Tokens<'a>,
    name: &[u8; N],
) -> Option<Object<'a>>
    ensures { (s : List ℕ) → name.now ≡ name_text s → escape s ≡ s
        → IfSome result (λ ms. (o : Option Data) × IsMaybe tokens.old s o tokens.new × (default_if no_members as_object o ≡ Some ms)) }
{
    if !tokens.take_key(name) {
        return Some(Object::new(&[]));
    }
    Some(Object::new(pass_object(arena, tokens)?))
}

/// The index, which must come next.
#[inline(always)]
fn index_next<'a>(tokens: &mut Tokens<'a>) -> Option<Name<'a>>
    ensures { IfSome result (λ n. IsMember tokens.old (codes "index") (string n) tokens.new) }
{
    if !tokens.take_key(b"\"index\":") {
        return None;
    }
    Some(Name::new(tokens.take_text()?))
}

/// A whole number from 0, as the value that must come next.
#[inline(always)]
fn whole_value(tokens: &mut Tokens<'_>) -> Option<u64>
    ensures { IfSome result (λ n. (d : Data) × (converted of_json (value 126 tokens.old) ≡ Some (d, tokens.new)) × (natural d ≡ Some n)) }
{
    natural_of(&Json::Whole(tokens.take_whole()?))
}

/// The whole number from 0 of a member that must come next.
#[inline(always)]
fn whole<const N: usize>(tokens: &mut Tokens<'_>, name: &[u8; N]) -> Option<u64>
    ensures { (s : List ℕ) → name.now ≡ name_text s → escape s ≡ s
        → IfSome result (λ n. (d : Data) × IsMember tokens.old s d tokens.new × (natural d ≡ Some n)) }
{
    if !tokens.take_key(name) {
        return None;
    }
    whole_value(tokens)
}

/// The table, if it comes next.
#[inline(always)]
fn table<'a>(tokens: &mut Tokens<'a>) -> Option<Option<Name<'a>>>
    ensures { IfSome result (λ t. (o : Option Data) × IsMaybe tokens.old (codes "table") o tokens.new × (if_there as_str o ≡ Some t)) }
{
    if !tokens.take_key(b"\"table\":") {
        return Some(None);
    }
    Some(Some(Name::new(tokens.take_text()?)))
}

/// A number of rows, 1 to 1,000, if it comes next; absent it is 1,000.
#[inline(always)]
fn limit(tokens: &mut Tokens<'_>) -> Option<usize>
    ensures { IfSome result (λ n. (o : Option Data) × IsMaybe tokens.old (codes "limit") o tokens.new × (default_if MAX_PAGE page o ≡ Some n)) }
{
    if !tokens.take_key(b"\"limit\":") {
        return Some(MAX_PAGE);
    }
    if_page(whole_value(tokens)?)
}

/// A truth value of a member that may come next; absent it is false.
#[inline(always)]
fn flag<const N: usize>(tokens: &mut Tokens<'_>, name: &[u8; N]) -> Option<bool>
    ensures { (s : List ℕ) → name.now ≡ name_text s → escape s ≡ s
        → IfSome result (λ b. (o : Option Data) × IsMaybe tokens.old s o tokens.new × (default_if false as_bool o ≡ Some b)) }
{
    if !tokens.take_key(name) {
        return Some(false);
    }
    tokens.take_bool()
}

/// The id behind which a list begins, if it comes next.
#[inline(always)]
fn after(tokens: &mut Tokens<'_>) -> Option<Option<u64>>
    ensures { IfSome result (λ n. (o : Option Data) × IsMaybe tokens.old (codes "after") o tokens.new × (if_there natural o ≡ Some n)) }
{
    if !tokens.take_key(b"\"after\":") {
        return Some(None);
    }
    Some(Some(whole_value(tokens)?))
}

/// The key of one value, as the last member.
#[inline(always)]
fn one_key<'a>(arena: &'a Bump, tokens: &mut Tokens<'a>) -> Option<Array<'a>>
    ensures { IfSome result (λ xs. IsLast tokens.old (codes "key") (array xs)) }
{
    if !tokens.take_key(b"\"key\":") {
        return None;
    }
    let key = Array::new(pass_one(arena, tokens)?);
    if tokens.take_end() { Some(key) } else { None }
}

/// The key of one value at the end of an object.
#[inline(always)]
fn last_key<'a>(arena: &'a Bump, tokens: &mut Tokens<'a>) -> Option<Array<'a>>
    ensures { IfSome result (λ xs. (ts : List Token) × (converted of_json (value 125 tokens.old) ≡ Some (array xs, ts)) × (read_key ts ≡ Some (None, tokens.new))) }
{
    let key = Array::new(pass_one(arena, tokens)?);
    if tokens.take_close() { Some(key) } else { None }
}

/// The object of an end of a range: a key of one value, behind one name where it is in the range, and behind another where it isn't.
#[inline(always)]
fn one_end<'a, const N: usize>(
    arena: &'a Bump,
    tokens: &mut Tokens<'a>,
    with: &[u8; N],
    without: &[u8; N],
) -> Option<Bound<'a>>
    ensures { (w o : List ℕ) → with.now ≡ name_text w → escape w ≡ w → without.now ≡ name_text o → escape o ≡ o
        → IfSome result (λ e. HasKey e × (converted of_json (value 126 tokens.old) ≡ Some (end_object w o e, tokens.new))) }
{
    if !tokens.take_object() {
        return None;
    }
    if tokens.take_key(with) {
        return Some(Bound::Included(last_key(arena, tokens)?));
    }
    if !tokens.take_key(without) {
        return None;
    }
    Some(Bound::Excluded(last_key(arena, tokens)?))
}

/// The lower end of a range, if it comes next, with a key of one value.
#[inline(always)]
fn lower<'a>(arena: &'a Bump, tokens: &mut Tokens<'a>) -> Option<Bound<'a>>
    ensures { IfSome result (λ e. (o : Option Data) × IsMaybe tokens.old (codes "lower") o tokens.new × (default_if Unbounded lower_end o ≡ Some e)) }
{
    if !tokens.take_key(b"\"lower\":") {
        return Some(Bound::Unbounded);
    }
    one_end(arena, tokens, b"\"ge\":", b"\"gt\":")
}

/// The upper end of a range, if it comes next, with a key of one value.
#[inline(always)]
fn upper<'a>(arena: &'a Bump, tokens: &mut Tokens<'a>) -> Option<Bound<'a>>
    ensures { IfSome result (λ e. (o : Option Data) × IsMaybe tokens.old (codes "upper") o tokens.new × (default_if Unbounded upper_end o ≡ Some e)) }
{
    if !tokens.take_key(b"\"upper\":") {
        return Some(Bound::Unbounded);
    }
    one_end(arena, tokens, b"\"le\":", b"\"lt\":")
}

/// The tokens behind the name of a command over a key.
#[inline(always)]
fn keyed_tokens<'a>(command: KeyCommand, text: &'a str) -> Option<Tokens<'a>>
    ensures { IfSome result
        (λ ts. (rest : List ℕ) × (text.now ≡ command_start (key_name command) ++ rest) × (ts ≡ tokens_at AfterComma rest)) }
{
    match command {
        KeyCommand::EraseKey => Tokens::behind(text, b"{\"cmd\":\"erase_key\","),
        KeyCommand::Find => Tokens::behind(text, b"{\"cmd\":\"find\","),
        KeyCommand::Count => Tokens::behind(text, b"{\"cmd\":\"count\","),
        KeyCommand::LowerRank => Tokens::behind(text, b"{\"cmd\":\"lower_rank\","),
        KeyCommand::UpperRank => Tokens::behind(text, b"{\"cmd\":\"upper_rank\","),
    }
}

/// A command over a key of one value.
#[inline(always)]
pub(crate) fn keyed<'a>(arena: &'a Bump, text: &'a str, command: KeyCommand) -> Option<Request<'a>>
    ensures { IfSome result (λ r. command_line text.now ≡ Ok r) }
{
    let mut tokens = keyed_tokens(command, text)?;
    let table = table(&mut tokens)?;
    let index = index_next(&mut tokens)?;
    let key = one_key(arena, &mut tokens)?;
    Some(command.request(table, index, key))
}

#[inline(always)]
pub(crate) fn insert<'a>(arena: &'a Bump, text: &'a str) -> Option<Request<'a>>
    ensures { IfSome result (λ r. command_line text.now ≡ Ok r) }
{
    let mut tokens = Tokens::behind(text, b"{\"cmd\":\"insert\",")?;
    let table = table(&mut tokens)?;
    let row = last_row(arena, &mut tokens)?;
    Some(Request::Change {
        table,
        change: ChangeRequest::Insert { row, before: None },
    })
}

#[inline(always)]
pub(crate) fn replace<'a>(arena: &'a Bump, text: &'a str) -> Option<Request<'a>>
    ensures { IfSome result (λ r. command_line text.now ≡ Ok r) }
{
    let mut tokens = Tokens::behind(text, b"{\"cmd\":\"replace\",")?;
    let table = table(&mut tokens)?;
    let id = whole(&mut tokens, b"\"id\":")?;
    let row = last_row(arena, &mut tokens)?;
    Some(Request::Change {
        table,
        change: ChangeRequest::Replace { id, row },
    })
}

#[inline(always)]
pub(crate) fn modify<'a>(arena: &'a Bump, text: &'a str) -> Option<Request<'a>>
    ensures { IfSome result (λ r. command_line text.now ≡ Ok r) }
{
    let mut tokens = Tokens::behind(text, b"{\"cmd\":\"modify\",")?;
    let table = table(&mut tokens)?;
    let id = whole(&mut tokens, b"\"id\":")?;
    let set = edits(arena, &mut tokens, b"\"set\":")?;
    let add = edits(arena, &mut tokens, b"\"add\":")?;
    let rollback = flag(&mut tokens, b"\"rollback\":")?;
    if !tokens.take_end() {
        return None;
    }
    Some(Request::Change {
        table,
        change: ChangeRequest::Modify {
            id,
            set,
            add,
            rollback,
        },
    })
}

/// A page of a range.
#[inline(always)]
pub(crate) fn range<'a>(arena: &'a Bump, text: &'a str) -> Option<Request<'a>>
    ensures { IfSome result (λ r. command_line text.now ≡ Ok r) }
{
    let mut tokens = Tokens::behind(text, b"{\"cmd\":\"range\",")?;
    let table = table(&mut tokens)?;
    let index = index_next(&mut tokens)?;
    let lower = lower(arena, &mut tokens)?;
    let upper = upper(arena, &mut tokens)?;
    let reverse = flag(&mut tokens, b"\"reverse\":")?;
    let limit = limit(&mut tokens)?;
    if !tokens.take_end() {
        return None;
    }
    Some(Request::KeyLookUp {
        table,
        look_up: KeyLookUpRequest::Range {
            index,
            lower,
            upper,
            reverse,
            limit,
        },
    })
}

/// A page of a list.
#[inline(always)]
pub(crate) fn list(text: &str) -> Option<Request<'_>>
    ensures { IfSome result (λ r. command_line text.now ≡ Ok r) }
{
    let mut tokens = Tokens::behind(text, b"{\"cmd\":\"list\",")?;
    let table = table(&mut tokens)?;
    let index = index_next(&mut tokens)?;
    let after = after(&mut tokens)?;
    let limit = limit(&mut tokens)?;
    if !tokens.take_end() {
        return None;
    }
    Some(Request::NumberLookUp {
        table,
        look_up: NumberLookUpRequest::List {
            index,
            after,
            limit,
        },
    })
}

/// A command that can be read so.
#[derive(Clone, Copy)]
pub(crate) enum Flat {
    Insert,
    Replace,
    Modify,
    Range,
    List,
    Keyed(KeyCommand),
}

/// The command whose name has this first letter and this third one, if it can be read so.
#[inline(always)]
fn command_of(first: u8, third: u8) -> Option<Flat> {
    match (first, third) {
        (b'i', b's') => Some(Flat::Insert),
        (b'r', b'p') => Some(Flat::Replace),
        (b'm', b'd') => Some(Flat::Modify),
        (b'r', b'n') => Some(Flat::Range),
        (b'l', b's') => Some(Flat::List),
        (b'e', b'a') => Some(Flat::Keyed(KeyCommand::EraseKey)),
        (b'f', b'n') => Some(Flat::Keyed(KeyCommand::Find)),
        (b'c', b'u') => Some(Flat::Keyed(KeyCommand::Count)),
        (b'l', b'w') => Some(Flat::Keyed(KeyCommand::LowerRank)),
        (b'u', b'p') => Some(Flat::Keyed(KeyCommand::UpperRank)),
        _ => None,
    }
}

/// The command that a line may be, by two letters of its name, and the line's text.
#[inline(always)]
pub(crate) fn flat_of(line: &[u8]) -> Option<(Flat, &str)>
    ensures { IfSome result (λ p. p.1.now ≡ line.now) }
{
    if line.len() <= THIRD_AT {
        return None;
    }
    let command = command_of(line[FIRST_AT], line[THIRD_AT])?;
    match text_of(line) {
        Ok(text) => Some((command, text)),
        Err(_) => None,
    }
}
