//! Whether a document nests deeper than it may. No call walks below the levels that it is told.
ghost use Rattle.std.specs.Prelude.{◌≡◌, suc, nat_lt, map};
ghost use Rattle.bson_lite.specs.Spelling.{nesting, depth, deepest, deepest_pair, on_value};

use crate::bson::Bson;
use crate::document::{Document, Pair};
use crate::list::List;

/// Whether a document nests deeper than so many levels, the document itself counting 1.
#[cycle(deeper)]
pub(crate) fn nests_deeper(document: &Document, levels: u32) -> bool
    ensures { result ≡ nat_lt levels (nesting document.now) }
{
    match levels.checked_sub(1) {
        None => true,
        Some(below) => pairs_nest_deeper(document.pairs(), below),
    }
}

/// The same of an array.
#[cycle(deeper)]
fn array_nests_deeper(values: &List<Bson>, levels: u32) -> bool
    ensures { result ≡ nat_lt levels (suc (deepest (map depth values.now))) }
{
    match levels.checked_sub(1) {
        None => true,
        Some(below) => values_nest_deeper(values.as_slice(), below),
    }
}

/// Whether a value of these pairs nests deeper than so many levels.
#[cycle(deeper)]
fn pairs_nest_deeper(pairs: &[Pair<Bson>], levels: u32) -> bool
    ensures { result ≡ nat_lt levels (deepest_pair (map (on_value depth) pairs.now)) }
{
    for pair in pairs {
        if value_nests_deeper(&pair.value, levels) {
            return true;
        }
    }
    false
}

/// Whether one of these values nests deeper than so many levels.
#[cycle(deeper)]
fn values_nest_deeper(values: &[Bson], levels: u32) -> bool
    ensures { result ≡ nat_lt levels (deepest (map depth values.now)) }
{
    for item in values {
        if value_nests_deeper(item, levels) {
            return true;
        }
    }
    false
}

/// Whether a value nests deeper than so many levels.
#[cycle(deeper)]
fn value_nests_deeper(value: &Bson, levels: u32) -> bool
    ensures { result ≡ nat_lt levels (depth value.now) }
{
    match value {
        Bson::Document(document) => nests_deeper(document, levels),
        Bson::Array(values) => array_nests_deeper(values, levels),
        _ => false,
    }
}
