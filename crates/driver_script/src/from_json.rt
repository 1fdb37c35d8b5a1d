//! Readers of JSON values: each gives exactly what its definition says, or refuses the value.
ghost use Rattle.std.specs.Prelude.{Option};
ghost use Rattle.script_parts.specs.Json.{GivesPart, each, list_of, needed_part, optional_part};
ghost use Rattle.serde_json.specs.Data.{Data};
ghost use Rattle.script_parts.specs.inside.Tree.{view, items_view};

use bson_lite::List;
use script_parts::forms::{Unread, room_for};
use script_parts::tree::{Items, Json};
use std::alloc::Global;

/// What a JSON value can be read as.
pub(crate) trait FromJson: Sized + Drop {
    // What the value is, or none where its form is wrong.
    ghost spec: { Data → Option Self };

    fn read(alloc: Global, value: &Json<'_, '_>) -> Result<Self, Unread>
        ensures { GivesPart result (spec (view value.now)) };
}

impl<T: FromJson> FromJson for List<T> {
    ghost spec = { list_of T.spec };

    #[tactic(auto, unfolding(script_parts::specs::Json::list_of), using(crate::proofs::OtherForms::no_list))]
    fn read(alloc: Global, value: &Json<'_, '_>) -> Result<List<T>, Unread> {
        match value.items() {
            Some(items) => read_each(alloc, room_for(value), items),
            None => Err(Unread::Wrong),
        }
    }
}

#[tactic(auto, unfolding(script_parts::specs::Json::each))]
fn read_each<T: FromJson>(
    alloc: Global,
    room: usize,
    items: Items<'_, '_>,
) -> Result<List<T>, Unread>
    ensures { GivesPart result (each T.spec (items_view items.entry)) }
{
    let mut found = List::with_capacity(alloc, room)?;
    let mut rest = items;
    while let Some(item) = rest.next() {
        found.push(T::read(alloc, &item)?)?;
    }
    Ok(found)
}

/// The value under a key that has to be there.
#[inline(always)]
#[tactic(auto, unfolding(script_parts::specs::Json::needed_part))]
pub(crate) fn read_needed<T: FromJson>(
    alloc: Global,
    object: &Json<'_, '_>,
    key: &str,
) -> Result<T, Unread>
    ensures { GivesPart result (needed_part T.spec key.now (view object.now)) }
{
    match object.get(key) {
        Some(value) => T::read(alloc, &value),
        None => Err(Unread::Wrong),
    }
}

/// The value under a key, where it is there.
#[inline(always)]
#[tactic(auto, unfolding(script_parts::specs::Json::optional_part))]
pub(crate) fn read_optional<T: FromJson>(
    alloc: Global,
    object: &Json<'_, '_>,
    key: &str,
) -> Result<Option<T>, Unread>
    ensures { GivesPart result (optional_part T.spec key.now (view object.now)) }
{
    match object.get(key) {
        Some(value) => Ok(Some(T::read(alloc, &value)?)),
        None => Ok(None),
    }
}
