//! Readers of the script's texts and namespaces.
ghost use Rattle.driver_link.specs.Writes.{cut};
ghost use Rattle.script_parts.specs.Json.{GivesPart};
ghost use Rattle.script_parts.specs.Values.{text_of, namespace_of, two_texts};
ghost use Rattle.script_parts.specs.inside.Tree.{view};

use crate::forms::Unread;
use crate::tree::Json;
use bson_lite::{Key, Namespace, Text};
use std::alloc::Global;

/// A text.
#[tactic(auto, unfolding(crate::specs::Values::text_of), using(crate::proofs::OtherForms::no_text))]
pub fn read_text(alloc: Global, value: &Json<'_, '_>) -> Result<Text, Unread>
    ensures { GivesPart result (text_of (view value.now)) }
{
    match value.as_str() {
        Some(text) => Ok(Text::from_str(alloc, text)?),
        None => Err(Unread::Wrong),
    }
}

/// A text that is a key.
#[tactic(auto, unfolding(crate::specs::Values::text_of), using(crate::proofs::OtherForms::no_text))]
pub fn read_key(alloc: Global, value: &Json<'_, '_>) -> Result<Key, Unread>
    ensures { GivesPart result (text_of (view value.now)) }
{
    match value.as_str() {
        Some(text) => Ok(Key::from_str(alloc, text)?),
        None => Err(Unread::Wrong),
    }
}

/// A namespace: a text that is cut at its first dot, or a list of two texts.
#[tactic(auto, unfolding(crate::specs::Values::namespace_of), using(crate::proofs::OtherForms::two_texts_read))]
pub fn read_namespace(alloc: Global, value: &Json<'_, '_>) -> Result<Namespace, Unread>
    ensures { GivesPart result (namespace_of (view value.now)) }
{
    match value.as_str() {
        Some(text) => cut_at_dot(alloc, text),
        None => read_two_texts(alloc, value),
    }
}

#[tactic(auto, unfolding(driver_link::specs::Writes::cut))]
fn cut_at_dot(alloc: Global, text: &str) -> Result<Namespace, Unread>
    ensures { GivesPart result (cut text.now) }
{
    match text.split_once('.') {
        Some((db, coll)) => Ok(Namespace {
            db: Text::from_str(alloc, db)?,
            coll: Text::from_str(alloc, coll)?,
        }),
        None => Err(Unread::Wrong),
    }
}

#[tactic(auto, unfolding(crate::specs::Values::two_texts, crate::specs::Values::item_of))]
fn read_two_texts(alloc: Global, value: &Json<'_, '_>) -> Result<Namespace, Unread>
    ensures { GivesPart result (two_texts (view value.now)) }
{
    if value.at(2).is_some() {
        return Err(Unread::Wrong);
    }
    let (Some(db), Some(coll)) = (value.at(0), value.at(1)) else {
        return Err(Unread::Wrong);
    };
    Ok(Namespace {
        db: read_text(alloc, &db)?,
        coll: read_text(alloc, &coll)?,
    })
}
