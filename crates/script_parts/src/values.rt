//! Readers of the script's values and documents, which hold one another.
ghost use Rattle.script_parts.specs.Json.{GivesPart};
ghost use Rattle.script_parts.specs.Values.{value_of, tagged, document_of, pairs_of, pair_of, array_of, values_of};
ghost use Rattle.script_parts.specs.inside.Tree.{view, items_view, members_view};
ghost use Rattle.serde_json.specs.Data.{object};

use crate::forms::{Unread, room_for};
use crate::keys::{ARRAY, DOC};
use crate::leaves::{integer, read_leaf};
use crate::namespaces::read_key;
use crate::numbers::whole_with_sign;
use crate::tree::{Items, Json, Kind, Members};
use bson_lite::{Bson, Document, List, Pair, Text};
use std::alloc::Global;

/// A value.
#[cycle(value)]
#[tactic(auto, unfolding(crate::specs::Values::value_of))]
pub fn read_value(alloc: Global, value: &Json<'_, '_>) -> Result<Bson, Unread>
    ensures { GivesPart result (value_of (view value.now)) }
{
    match value.kind() {
        Kind::Null => Ok(Bson::Null),
        Kind::Bool(flag) => Ok(Bson::Boolean(flag)),
        Kind::Number(text) => match whole_with_sign(text) {
            Some(number) => Ok(integer(number)),
            None => Err(Unread::Wrong),
        },
        Kind::String(text) => Ok(Bson::String(Text::from_str(alloc, text)?)),
        Kind::Array(_) => Err(Unread::Wrong),
        Kind::Object(members) => read_object(alloc, members),
    }
}

/// The value of an object, whose one key says what stands under it.
#[cycle(value)]
#[tactic(auto, using(crate::proofs::OneKey::value_one, crate::proofs::OneKey::value_none))]
fn read_object(alloc: Global, members: Members<'_, '_>) -> Result<Bson, Unread>
    ensures { GivesPart result (value_of (object (members_view members.entry))) }
{
    match members.only() {
        Some((key, value)) => read_tagged(alloc, key, &value),
        None => Err(Unread::Wrong),
    }
}

/// The value that stands under a key which says what it is.
#[cycle(value)]
#[tactic(auto, unfolding(crate::specs::Values::tagged))]
fn read_tagged(alloc: Global, key: &str, value: &Json<'_, '_>) -> Result<Bson, Unread>
    ensures { GivesPart result
        (tagged key.now (view value.now) (document_of (view value.now)) (array_of (view value.now))) }
{
    if key == DOC {
        return Ok(Bson::Document(read_document(alloc, value)?));
    }
    if key == ARRAY {
        return Ok(Bson::Array(read_array(alloc, value)?));
    }
    read_leaf(alloc, key, value)
}

/// A document, as a list of pairs.
#[cycle(value)]
#[tactic(auto, unfolding(crate::specs::Values::document_of), using(crate::proofs::OtherForms::no_document))]
pub fn read_document(alloc: Global, value: &Json<'_, '_>) -> Result<Document, Unread>
    ensures { GivesPart result (document_of (view value.now)) }
{
    match value.items() {
        Some(items) => read_pairs(alloc, room_for(value), items),
        None => Err(Unread::Wrong),
    }
}

#[cycle(value)]
#[tactic(auto, unfolding(crate::specs::Values::pairs_of))]
fn read_pairs(alloc: Global, room: usize, items: Items<'_, '_>) -> Result<Document, Unread>
    ensures { GivesPart result (pairs_of (items_view items.entry)) }
{
    let mut document = Document::with_capacity(alloc, room)?;
    let mut rest = items;
    while let Some(item) = rest.next() {
        document.push_pair(read_pair(alloc, &item)?)?;
    }
    Ok(document)
}

/// A key and a value, as a list of the two.
#[cycle(value)]
#[inline(always)]
#[tactic(auto, unfolding(crate::specs::Values::pair_of), using(crate::proofs::OtherForms::no_pair))]
pub fn read_pair(alloc: Global, value: &Json<'_, '_>) -> Result<Pair<Bson>, Unread>
    ensures { GivesPart result (pair_of (view value.now)) }
{
    let Some(mut items) = value.items() else {
        return Err(Unread::Wrong);
    };
    let Some(key) = items.next() else {
        return Err(Unread::Wrong);
    };
    let Some(inner) = items.next() else {
        return Err(Unread::Wrong);
    };
    match items.next() {
        Some(_) => Err(Unread::Wrong),
        None => Ok(Pair {
            key: read_key(alloc, &key)?,
            value: read_value(alloc, &inner)?,
        }),
    }
}

#[cycle(value)]
#[tactic(auto, unfolding(crate::specs::Values::array_of), using(crate::proofs::OtherForms::no_array))]
fn read_array(alloc: Global, value: &Json<'_, '_>) -> Result<List<Bson>, Unread>
    ensures { GivesPart result (array_of (view value.now)) }
{
    match value.items() {
        Some(items) => read_values(alloc, room_for(value), items),
        None => Err(Unread::Wrong),
    }
}

#[cycle(value)]
#[tactic(auto, unfolding(crate::specs::Values::values_of))]
fn read_values(alloc: Global, room: usize, items: Items<'_, '_>) -> Result<List<Bson>, Unread>
    ensures { GivesPart result (values_of (items_view items.entry)) }
{
    let mut values = List::with_capacity(alloc, room)?;
    let mut rest = items;
    while let Some(item) = rest.next() {
        values.push(read_value(alloc, &item)?)?;
    }
    Ok(values)
}
