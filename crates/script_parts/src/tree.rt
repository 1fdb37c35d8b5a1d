//! The values of a script's JSON, as places in the tape of its text: looks into them, and walks over them.
ghost use Rattle.std.specs.Prelude.{◌≡◌, ◌<◌, IfSome, MatchOption, None, option_and_then, option_map};
ghost use Rattle.json.specs.Json as tree;
ghost use Rattle.json.specs.Find.{as_array, as_bool as flag_of, as_number as digits_of, as_object, as_str};
ghost use Rattle.serde_json.specs.Find.{as_i64, as_number, as_u64, at, get};
ghost use Rattle.serde_json.specs.Data.{member, no_members, object};
ghost use Rattle.script_parts.specs.inside.Codes.{tree_at};
ghost use Rattle.script_parts.specs.inside.Members.{last_of, only, only_in};
ghost use Rattle.script_parts.specs.inside.Sizes.{members_size, size};
ghost use Rattle.script_parts.specs.inside.Tree.{members_view, value_is, view};

use crate::numbers::{whole, whole_with_sign};
use json::{Element, Tape};
use std::marker::Model;

/// A value of the JSON.
#[derive(Drop)]
pub struct Json<'t, 'a> {
    element: Element<'t, 'a>,
}

impl<'t, 'a> Model for Json<'t, 'a> {
    ghost use Rattle.json.specs.Json as tree;
    ghost use Rattle.json.specs.Find.{HasValue};
    ghost use Rattle.script_parts.specs.inside.Codes.{json_code, tree_at};

    ghost Value = { tree.Json };

    ghost coded = { json_code };

    ghost view = { λ json. tree_at json.element };

    ghost invariant = { λ json. HasValue json.element };
}

/// The items of an array that are left.
#[derive(Drop)]
pub struct Items<'t, 'a> {
    items: json::Items<'t, 'a>,
}

impl<'t, 'a> Model for Items<'t, 'a> {
    ghost use Rattle.json.specs.Json as tree;
    ghost use Rattle.script_parts.specs.inside.Codes.{HasItems, items_at, items_code};

    ghost Value = { tree.Items };

    ghost coded = { items_code };

    ghost view = { λ left. items_at left.items };

    ghost invariant = { λ left. HasItems left.items };
}

/// The members of an object that are left.
#[derive(Drop)]
pub struct Members<'t, 'a> {
    members: json::Members<'t, 'a>,
}

impl<'t, 'a> Model for Members<'t, 'a> {
    ghost use Rattle.json.specs.Json as tree;
    ghost use Rattle.script_parts.specs.inside.Codes.{HasMembers, members_at, members_code};

    ghost Value = { tree.Members };

    ghost coded = { members_code };

    ghost view = { λ left. members_at left.members };

    ghost invariant = { λ left. HasMembers left.members };
}

/// What a value of the JSON is.
#[derive(Drop)]
pub enum Kind<'t, 'a> {
    Null,
    Bool(bool),
    Number(&'a str),
    String(&'a str),
    Array(Items<'t, 'a>),
    Object(Members<'t, 'a>),
}

impl<'t, 'a> Json<'t, 'a> {
    /// The value of a whole text.
    pub fn root(tape: &'t Tape<'a>) -> Json<'t, 'a>
        ensures { result ≡ tree_at tape.now }
    {
        Json {
            element: tape.root(),
        }
    }

    /// The text of a string.
    #[inline(always)]
    pub fn as_str(&self) -> Option<&'a str>
        ensures { MatchOption result (as_str self.now ≡ None) (λ text. self.now ≡ tree.string text.now) }
    {
        self.element.as_str()
    }

    /// The text of a number.
    #[inline(always)]
    fn as_number(&self) -> Option<&'a str>
        ensures { MatchOption result (digits_of self.now ≡ None) (λ text. self.now ≡ tree.number text.now) }
    {
        self.element.as_number()
    }

    /// Whether it is true or false.
    #[inline(always)]
    pub fn as_bool(&self) -> Option<bool>
        ensures { MatchOption result (flag_of self.now ≡ None) (λ flag. self.now ≡ tree.boolean flag) }
    {
        self.element.as_bool()
    }

    /// The items of an array.
    #[inline(always)]
    pub fn items(&self) -> Option<Items<'t, 'a>>
        ensures { MatchOption result (as_array self.now ≡ None) (λ items. self.now ≡ tree.array items) }
    {
        match self.element.items() {
            Some(items) => Some(Items { items }),
            None => None,
        }
    }

    /// The members of an object.
    #[inline(always)]
    pub fn members(&self) -> Option<Members<'t, 'a>>
        ensures { MatchOption result (as_object self.now ≡ None)
            (λ members. self.now ≡ tree.object members) }
    {
        match self.element.members() {
            Some(members) => Some(Members { members }),
            None => None,
        }
    }

    /// What the value is.
    #[inline(always)]
    #[tactic(auto, using(crate::proofs::Places::null_left))]
    pub fn kind(&self) -> Kind<'t, 'a>
        ensures { self.now ≡ value_is result }
    {
        if let Some(text) = self.as_str() {
            return Kind::String(text);
        }
        if let Some(text) = self.as_number() {
            return Kind::Number(text);
        }
        if let Some(members) = self.members() {
            return Kind::Object(members);
        }
        if let Some(items) = self.items() {
            return Kind::Array(items);
        }
        match self.as_bool() {
            Some(flag) => Kind::Bool(flag),
            None => Kind::Null,
        }
    }

    /// What stands under a key of an object.
    pub fn get(&self, key: &str) -> Option<Json<'t, 'a>>
        ensures { option_map (λ value. view value) result ≡ get key.now (view self.now) }
    {
        match self.element.get(key) {
            Some(element) => Some(Json { element }),
            None => None,
        }
    }

    /// The item at a place of an array.
    pub fn at(&self, place: usize) -> Option<Json<'t, 'a>>
        ensures { option_map (λ value. view value) result ≡ at place (view self.now) }
    {
        match self.element.at(place) {
            Some(element) => Some(Json { element }),
            None => None,
        }
    }

    /// A whole number of 64 bits with a sign.
    pub fn as_i64(&self) -> Option<i64>
        ensures { result ≡ option_and_then as_i64 (as_number (view self.now)) }
    {
        match self.as_number() {
            Some(text) => whole_with_sign(text),
            None => None,
        }
    }

    /// A whole number of 64 bits without a sign.
    pub fn as_u64(&self) -> Option<u64>
        ensures { result ≡ option_and_then as_u64 (as_number (view self.now)) }
    {
        match self.as_number() {
            Some(text) => whole(text),
            None => None,
        }
    }

    /// The one key of an object, and what stands under it; none where it has no key or more than one.
    pub fn only_member(&self) -> Option<(&'a str, Json<'t, 'a>)>
        ensures { MatchOption result (only (view self.now) ≡ None)
            (λ m. view self.now ≡ object (member m.0.now (view m.1) no_members)) }
    {
        match self.members() {
            Some(members) => members.only(),
            None => None,
        }
    }
}

impl<'t, 'a> Items<'t, 'a> {
    /// The next item.
    #[inline(always)]
    pub fn next(&mut self) -> Option<Json<'t, 'a>>
        ensures { MatchOption result (self.old ≡ tree.no_items)
            (λ value. self.old ≡ tree.item value self.new) }
    {
        let Some(element) = self.items.next() else {
            return None;
        };
        Some(Json { element })
    }
}

impl<'t, 'a> Members<'t, 'a> {
    /// The next key, and what stands under it.
    #[inline(always)]
    pub fn next(&mut self) -> Option<(&'a str, Json<'t, 'a>)>
        ensures { MatchOption result (self.old ≡ tree.no_members)
            (λ m. self.old ≡ tree.member m.0.now m.1 self.new) }
    {
        let Some((key, element)) = self.members.next() else {
            return None;
        };
        Some((key, Json { element }))
    }

    /// The one key, and what stands under it last; none where there is no key or more than one.
    #[tactic(auto, using(crate::proofs::Only::only_seen, crate::proofs::Only::none_seen))]
    pub fn only(self) -> Option<(&'a str, Json<'t, 'a>)>
        ensures is { MatchOption result (only_in (members_view self.entry) ≡ None)
            (λ m. members_view self.entry ≡ member m.0.now (view m.1) no_members) }
        ensures smaller { IfSome result (λ m. size m.1 < members_size self.entry) }
    {
        let mut rest = self;
        let Some((key, first)) = rest.next() else {
            return None;
        };
        match last_of(key, first, rest) {
            Some(last) => Some((key, last)),
            None => None,
        }
    }
}

/// What stands last under a key that each member has which is left: this value, where none is left.
#[tactic(auto, unfolding(crate::specs::inside::Members::last_of))]
fn last_of<'t, 'a>(key: &str, first: Json<'t, 'a>, members: Members<'t, 'a>) -> Option<Json<'t, 'a>>
    ensures { result ≡ last_of key.now first.entry members.entry }
{
    let mut last = first;
    let mut rest = members;
    while let Some((other, value)) = rest.next() {
        if other != key {
            return None;
        }
        last = value;
    }
    Some(last)
}
