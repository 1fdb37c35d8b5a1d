//! From bytes to the document that they spell.
ghost use Rattle.std.specs.Prelude.{◌+◌, ◌≤◌, List, length, IfOk, Ok};
ghost use Rattle.bson_lite.specs.Reading.{Gives, read, value_with, pair_with, item_with, pairs_with, items_with, inside_with, nested_at};
ghost use Rattle.bson_lite.specs.Spelling.{Spells};
ghost use Rattle.bson_lite.specs.declared.bson.Bson.{Bson};
ghost use Rattle.bson_lite.specs.declared.document.Pair.{Pair};

use crate::counting::elements_in;
use crate::parts::{frame_of, leaf_of, place_of, type_of, zero_ended_of};
use bson_lite::bson::Bson;
use bson_lite::document::{Document, Pair};
use bson_lite::fault::DecodeFault;
use bson_lite::key::Key;
use bson_lite::list::List;
use std::alloc::Global;

/// The levels that may stand below a document.
const LEVELS: u32 = 99;

/// The document that the whole slice spells.
pub fn decode(alloc: Global, bytes: &[u8]) -> Result<Document, DecodeFault>
    // What is decoded is spelled so.
    ensures found { IfOk result (λ document. Spells document bytes.now) }
    // What is spelled so is decoded, unless memory runs out.
    ensures only { (d : List (Pair Bson)) → Spells d bytes.now → Gives (λ document. document) result (Ok d) }
    // Which offset it is.
    ensures exact { Gives (λ document. document) result (read bytes.now) }
{
    whole(alloc, bytes)
}

#[tactic(auto, unfolding(bson_lite::specs::Reading::read, bson_lite::specs::Parts::whole_at))]
fn whole(alloc: Global, bytes: &[u8]) -> Result<Document, DecodeFault>
    ensures { Gives (λ document. document) result (read bytes.now) }
{
    let (elements, last, rest) = frame_of(0, bytes)?;
    if !rest.is_empty() {
        return Err(DecodeFault::At { offset: 0 });
    }
    document_of(alloc, LEVELS, bytes.len(), elements, last)
}

#[cycle(read)]
#[tactic(auto, unfolding(bson_lite::specs::Reading::inside_with))]
fn document_of(
    alloc: Global,
    level: u32,
    end: usize,
    elements: &[u8],
    last: u8,
) -> Result<Document, DecodeFault>
    requires { length elements.now + 1 ≤ end }
    ensures { Gives (λ document. document) result
        (inside_with (pairs_with (nested_at level)) end (record { elements = elements.now; last = last })) }
{
    let document = pairs_of(alloc, level, end - 1, elements)?;
    if last != 0 {
        return Err(DecodeFault::At { offset: end - 1 });
    }
    Ok(document)
}

#[cycle(read)]
#[tactic(auto, unfolding(bson_lite::specs::Reading::inside_with))]
fn array_of(
    alloc: Global,
    level: u32,
    end: usize,
    elements: &[u8],
    last: u8,
) -> Result<List<Bson>, DecodeFault>
    requires { length elements.now + 1 ≤ end }
    ensures { Gives (λ array. array) result
        (inside_with (items_with (nested_at level)) end (record { elements = elements.now; last = last })) }
{
    let array = items_of(alloc, level, end - 1, elements)?;
    if last != 0 {
        return Err(DecodeFault::At { offset: end - 1 });
    }
    Ok(array)
}

#[cycle(read)]
fn pairs_of(alloc: Global, level: u32, end: usize, bytes: &[u8]) -> Result<Document, DecodeFault>
    requires { length bytes.now ≤ end }
    ensures { Gives (λ document. document) result (pairs_with (nested_at level) end bytes.now) }
{
    let mut document = Document::with_capacity(alloc, elements_in(bytes))?;
    let mut rest = bytes;
    while !rest.is_empty() {
        let (pair, after) = pair_of(alloc, level, end, rest)?;
        document.push_pair(pair)?;
        rest = after;
    }
    Ok(document)
}

#[cycle(read)]
fn items_of(alloc: Global, level: u32, end: usize, bytes: &[u8]) -> Result<List<Bson>, DecodeFault>
    requires { length bytes.now ≤ end }
    ensures { Gives (λ array. array) result (items_with (nested_at level) end bytes.now) }
{
    let mut array = List::with_capacity(alloc, elements_in(bytes))?;
    let mut rest = bytes;
    while !rest.is_empty() {
        let (item, after) = item_of(alloc, level, end, array.len(), rest)?;
        array.push(item)?;
        rest = after;
    }
    Ok(array)
}

#[cycle(read)]
#[tactic(auto, unfolding(bson_lite::specs::Reading::pair_with))]
fn pair_of(
    alloc: Global,
    level: u32,
    end: usize,
    bytes: &[u8],
) -> Result<(Pair<Bson>, &[u8]), DecodeFault>
    requires { length bytes.now ≤ end }
    ensures gives { Gives (λ x. (x.0, x.1.now)) result (pair_with (nested_at level) end bytes.now) }
    ensures shorter { IfOk result (λ x. length x.1.now + 1 ≤ length bytes.now) }
{
    let (kind, rest) = type_of(end - bytes.len(), bytes)?;
    let (key, rest) = zero_ended_of(end - rest.len(), rest)?;
    let key = Key::from_str(alloc, key)?;
    let (value, rest) = value_of(alloc, level, kind, end, rest)?;
    Ok((Pair { key, value }, rest))
}

#[cycle(read)]
#[tactic(auto, unfolding(bson_lite::specs::Reading::item_with))]
fn item_of(
    alloc: Global,
    level: u32,
    end: usize,
    place: usize,
    bytes: &[u8],
) -> Result<(Bson, &[u8]), DecodeFault>
    requires { length bytes.now ≤ end }
    ensures gives { Gives (λ x. (x.0, x.1.now)) result (item_with (nested_at level) end place bytes.now) }
    ensures shorter { IfOk result (λ x. length x.1.now + 1 ≤ length bytes.now) }
{
    let (kind, rest) = type_of(end - bytes.len(), bytes)?;
    let rest = place_of(end - rest.len(), place, rest)?;
    value_of(alloc, level, kind, end, rest)
}

#[cycle(read)]
#[tactic(auto, unfolding(bson_lite::specs::Reading::value_with))]
fn value_of(
    alloc: Global,
    level: u32,
    kind: u8,
    end: usize,
    bytes: &[u8],
) -> Result<(Bson, &[u8]), DecodeFault>
    requires { length bytes.now ≤ end }
    ensures gives { Gives (λ x. (x.0, x.1.now)) result (value_with (nested_at level) kind end bytes.now) }
    ensures shorter { IfOk result (λ x. length x.1.now ≤ length bytes.now) }
{
    if kind == 3 || kind == 4 {
        nested_of(alloc, level, kind, end, bytes)
    } else {
        leaf_of(alloc, end - bytes.len(), kind, bytes)
    }
}

#[cycle(read)]
#[tactic(auto, unfolding(bson_lite::specs::Reading::nested_at, bson_lite::specs::Reading::framed_with))]
fn nested_of(
    alloc: Global,
    level: u32,
    kind: u8,
    end: usize,
    bytes: &[u8],
) -> Result<(Bson, &[u8]), DecodeFault>
    requires { length bytes.now ≤ end }
    ensures gives { Gives (λ x. (x.0, x.1.now)) result (nested_at level kind end bytes.now) }
    ensures shorter { IfOk result (λ x. length x.1.now ≤ length bytes.now) }
{
    if level == 0 {
        return Err(DecodeFault::At {
            offset: end - bytes.len(),
        });
    }
    let (elements, last, rest) = frame_of(end - bytes.len(), bytes)?;
    let end = end - rest.len();
    if kind == 3 {
        let document = document_of(alloc, level - 1, end, elements, last)?;
        Ok((Bson::Document(document), rest))
    } else {
        let array = array_of(alloc, level - 1, end, elements, last)?;
        Ok((Bson::Array(array), rest))
    }
}
