//! A JSON object, seen by contracts as its members. It lends their values, and copies none.
ghost use Rattle.std.specs.Prelude.{◌≡◌, ◌<◌, length, bytes_eq, IfSome};
ghost use Rattle.std.specs.List.{list_any, list_all};
ghost use Rattle.mi_request.specs.Places.{last_at};

use mi_tokens::Json;
use std::marker::Model;

/// A JSON object, seen as what its members mean: the last of a name is its value.
#[derive(Drop)]
pub struct Object<'a> {
    members: &'a [(&'a str, Json<'a>)],
}

impl<'a> Model for Object<'a> {
    ghost use Rattle.serde_json.specs.Data.{Members, no_members};
    ghost use Rattle.mi_tokens.specs.Meaning.{members_meaning};
    ghost use Rattle.mi_request.specs.ObjectCode.{members_code};

    ghost Value = { Members };

    ghost coded = { members_code };

    ghost view = { λ a. members_meaning a.members.now no_members };
}

/// Whether a name is one of these.
#[inline(always)]
fn is_named(names: &[&str], name: &str) -> bool
    ensures { result ≡ list_any (λ n. bytes_eq name.now n.now) names.now }
{
    'names: for n in names {
        if name == *n {
            return true;
        }
    }
    false
}

/// Whether each member has one of these names.
#[inline(always)]
fn are_named(names: &[&str], members: &[(&str, Json<'_>)]) -> bool
    ensures { result ≡ list_all (λ m. list_any (λ n. bytes_eq m.0.now n.now) names.now) members.now }
{
    'members: for member in members {
        if !is_named(names, member.0) {
            return false;
        }
    }
    true
}

/// Where the last member of this name stands.
#[inline(always)]
fn place_of(members: &[(&str, Json<'_>)], name: &str) -> Option<usize>
    ensures found { result ≡ last_at name.now members.now }
    ensures within { IfSome result (λ i. i < length members.now) }
{
    let mut left = members.len();
    'places: while left > 0 {
        left -= 1;
        if name == members[left].0 {
            return Some(left);
        }
    }
    None
}

impl<'a> Object<'a> {
    ghost use Rattle.std.specs.Prelude.{◌≡◌, map, option_map};
    ghost use Rattle.serde_json.specs.Data.{no_members};
    ghost use Rattle.serde_json.specs.Find.{get_member};
    ghost use Rattle.mi_tokens.specs.Meaning.{meaning, members_meaning};
    ghost use Rattle.mi_request.specs.Json.{has_only};

    /// The object of these members.
    #[inline(always)]
    pub(crate) fn new(members: &'a [(&'a str, Json<'a>)]) -> Object<'a>
        ensures { result ≡ members_meaning members.now no_members }
    {
        Object { members }
    }

    /// The value of the member of this name.
    #[inline(always)]
    pub fn get(&self, name: &str) -> Option<&'a Json<'a>>
        ensures { option_map (λ v. meaning v.now) result ≡ get_member name.now self.now }
    {
        let at = place_of(self.members, name)?;
        Some(&self.members[at].1)
    }

    /// Whether no member has another name than these.
    #[inline(always)]
    pub(crate) fn has_only(&self, names: &[&str]) -> bool
        ensures { result ≡ has_only (map (λ n. n.now) names.now) self.now }
    {
        are_named(names, self.members)
    }

    /// Its members in order, as they were read.
    #[inline(always)]
    pub fn members(&self) -> &'a [(&'a str, Json<'a>)]
        ensures { members_meaning result.now no_members ≡ self.now }
    {
        self.members
    }
}
