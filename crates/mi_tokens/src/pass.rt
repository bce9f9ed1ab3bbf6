//! The JSON value with which a text begins, in one pass and without an index, where it is written as a writer gives it. Items and members
//! lie in an arena.
ghost use Rattle.std.specs.Prelude.{◌≡◌, ◌∷◌, ◌++◌, IfSome, IsTrue, Some, [], ◌<◌, ℕ, List, length};
ghost use Rattle.json.specs.Json.{value, items, members};
ghost use Rattle.json.specs.Token.{Token};
ghost use Rattle.serde_json.specs.Data.{array, object, no_members};
ghost use Rattle.serde_json.specs.Read.{of_json, of_items, of_members, converted, read};
ghost use Rattle.mi_tokens.specs.Meaning.{meaning, items_meaning, members_meaning};
ghost use Rattle.mi_tokens.specs.Tokens.{token_of};

use crate::tokens::{Start, Tokens};
use crate::value::Json;
use bumpalo::Bump;
use bumpalo::collections::into_bump_slice;

/// How deep arrays and objects may nest, as in `serde_json`.
const MAX_DEPTH: usize = 127;

/// Puts an item behind the others; false where there is no memory for it.
#[inline(always)]
fn push<'a, T: Drop>(items: &mut Vec<T, &'a Bump>, item: T) -> bool
    ensures { IsTrue result → items.new.items ≡ items.old.items ++ item ∷ [] }
{
    if items.len() < items.capacity() {
        items.push_reserved(item);
        return true;
    }
    items.push(item).is_ok()
}

/// The items up to the bracket that ends an array.
#[cycle(pass)]
#[inline(never)]
fn pass_items<'a>(arena: &'a Bump, tokens: &mut Tokens<'a>, depth: usize) -> Option<&'a [Json<'a>]>
    ensures { IfSome result (λ xs. converted of_items (items (value depth) (length tokens.old) tokens.old) ≡ Some (items_meaning xs.now, tokens.new)) }
{
    let mut found = Vec::new(arena);
    'items: while !tokens.take_end_array() {
        let item = pass_value(arena, tokens, depth)?;
        if !push(&mut found, item) {
            return None;
        }
    }
    Some(into_bump_slice(found))
}

/// The members up to the brace that ends an object.
#[cycle(pass)]
#[inline(never)]
fn pass_members<'a>(
    arena: &'a Bump,
    tokens: &mut Tokens<'a>,
    depth: usize,
) -> Option<&'a [(&'a str, Json<'a>)]>
    ensures { IfSome result (λ ms. converted (λ js. of_members js no_members) (members (value depth) (length tokens.old) tokens.old)
        ≡ Some (members_meaning ms.now no_members, tokens.new)) }
{
    let mut found = Vec::new(arena);
    'members: while let Some(key) = tokens.next_key()? {
        let member = pass_value(arena, tokens, depth)?;
        if !push(&mut found, (key, member)) {
            return None;
        }
    }
    Some(into_bump_slice(found))
}

/// The value that a token is by itself.
#[inline(always)]
fn plain(token: Start<'_>) -> Option<Json<'_>>
    ensures { (depth : ℕ) (ts : List Token) → IfSome result (λ v. converted of_json (value depth (token_of token.entry ∷ ts)) ≡ Some (meaning v, ts)) }
{
    match token {
        Start::Text(text) => Some(Json::Text(text)),
        Start::Whole(n) => Some(Json::Whole(n)),
        Start::Bool(b) => Some(Json::Bool(b)),
        Start::Null => Some(Json::Null),
        Start::Array | Start::Object => None,
    }
}

/// The value that comes first. Arrays and objects may nest `depth` deep.
#[cycle(pass)]
#[inline(always)]
fn pass_value<'a>(arena: &'a Bump, tokens: &mut Tokens<'a>, depth: usize) -> Option<Json<'a>>
    ensures { IfSome result (λ v. converted of_json (value depth tokens.old) ≡ Some (meaning v, tokens.new)) }
{
    let token = tokens.next()?;
    match token {
        Start::Array => {
            if depth == 0 {
                return None;
            }
            Some(Json::Array(pass_items(arena, tokens, depth - 1)?))
        }
        Start::Object => {
            if depth == 0 {
                return None;
            }
            Some(Json::Object(pass_members(arena, tokens, depth - 1)?))
        }
        _other => plain(token),
    }
}

/// The value that a text is, where it is written as a writer gives it, with numbers alone that are whole and have at most 18 digits. Want
/// of memory counts as another way of writing.
pub fn pass_text<'a>(arena: &'a Bump, text: &'a str) -> Option<Json<'a>>
    ensures { IfSome result (λ v. read text.now ≡ Some (meaning v)) }
{
    let mut tokens = Tokens::new(text);
    let value = pass_value(arena, &mut tokens, MAX_DEPTH)?;
    if tokens.is_done() { Some(value) } else { None }
}

/// The members of an object that is a member's value, if it comes first and is written as a writer gives it, with numbers alone that are
/// whole and have at most 18 digits. Want of memory counts as another way of writing.
#[inline(always)]
pub fn pass_object<'a>(
    arena: &'a Bump,
    tokens: &mut Tokens<'a>,
) -> Option<&'a [(&'a str, Json<'a>)]>
    ensures { IfSome result (λ ms. converted of_json (value 126 tokens.old) ≡ Some (object (members_meaning ms.now no_members), tokens.new)) }
{
    if !tokens.take_object() {
        return None;
    }
    pass_members(arena, tokens, MAX_DEPTH - 2)
}

/// The items of an array of one item that is no array and no object, if it comes first.
#[inline(always)]
pub fn pass_one<'a>(arena: &'a Bump, tokens: &mut Tokens<'a>) -> Option<&'a [Json<'a>]>
    ensures { (depth : ℕ) → 0 < depth → IfSome result (λ xs. converted of_json (value depth tokens.old) ≡ Some (array (items_meaning xs.now), tokens.new)) }
{
    if !tokens.take_array() {
        return None;
    }
    let item = plain(tokens.next()?)?;
    if !tokens.take_end_array() {
        return None;
    }
    let Ok(items) = arena.try_alloc_slice_copy(&[item]) else {
        return None;
    };
    Some(items)
}
