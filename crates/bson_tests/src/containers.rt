//! Each container once with memory enough, and the text of a namespace.
use crate::asserting::{Made, alike, holds};
use crate::documents::{copied, one, read, spelled};
use bson_lite::{
    Boxed, Bson, ByIndex, Bytes, Document, Key, List, Namespace, ObjectId, Pair, Text, Timestamp,
};
use std::alloc::Global;
use std::fmt::Write;
use std::process::Abort;

fn two_pairs(rt: &impl Abort, alloc: Global) -> Document {
    let mut document = Document::with_capacity(alloc, 2).made(rt);
    document
        .push_pair(Pair {
            key: Key::from_str(alloc, "b").made(rt),
            value: Bson::Int32(2),
        })
        .made(rt);
    document
        .prepend_pair(Pair {
            key: Key::from_str(alloc, "a").made(rt),
            value: Bson::Int32(1),
        })
        .made(rt);
    document
}

/// The bytes of `{a: 1, b: 2}`.
const A_AND_B: &[u8] = b"\x13\0\0\0\x10a\0\x01\0\0\0\x10b\0\x02\0\0\0\0";

#[test]
fn pairs_at_both_ends(rt: HostRuntime) {
    let alloc = rt.alloc();
    let document = two_pairs(&rt, alloc);
    let bytes = spelled(alloc, &document).made(&rt);
    alike(&rt, bytes.as_slice(), A_AND_B, "the bytes of {a: 1, b: 2}");
}

/// A document of one pair under this key, whose value is 1, as a copy of what its spelling reads as.
fn under(rt: &impl Abort, alloc: Global, key: &str) -> Document {
    let bytes = spelled(alloc, &one(rt, alloc, key, Bson::Int32(1))).made(rt);
    copied(rt, alloc, &read(alloc, bytes.as_slice()).made(rt))
}

/// Whether a document has one pair, under this key.
fn stands_under(document: &Document, key: &str) -> bool {
    match document.pairs() {
        [pair] => pair.key.as_str() == key,
        _ => false,
    }
}

#[test]
fn a_key_is_kept_whatever_its_length(rt: HostRuntime) {
    for key in [
        "",
        "x",
        "fifteen.letters",
        "sixteen..letters",
        "seventeen.letters",
        "a key of more letters than stand in a value itself",
    ] {
        let document = under(&rt, rt.alloc(), key);
        holds(&rt, stands_under(&document, key), key);
        holds(&rt, !stands_under(&document, "other"), key);
    }
}

#[test]
fn a_namespace_is_printed_with_a_dot(rt: HostRuntime) {
    let alloc = rt.alloc();
    let namespace = Namespace {
        db: Text::from_str(alloc, "shop").made(&rt),
        coll: Text::from_str(alloc, "items").made(&rt),
    };
    let copy = copied(&rt, alloc, &namespace);
    alike(
        &rt,
        format!(in alloc; "{copy}").made(&rt).as_str(),
        "shop.items",
        "a namespace in one text",
    );
}

fn stamp(time: u32) -> Timestamp {
    Timestamp { time, increment: 0 }
}

fn listed(rt: &impl Abort, alloc: Global) -> List<Timestamp> {
    let mut list = List::with_capacity(alloc, 1).made(rt);
    list.push(stamp(1)).made(rt);
    let mut more = List::new(alloc);
    more.reserve(1).made(rt);
    more.push(stamp(2)).made(rt);
    list.append(more).made(rt);
    copied(rt, alloc, &list)
}

fn gathered(rt: &impl Abort, alloc: Global) -> Bytes {
    let mut bytes = Bytes::with_capacity(alloc, 3).made(rt);
    bytes.push(1).made(rt);
    bytes.extend_from_slice(&[2, 3]).made(rt);
    copied(rt, alloc, &bytes)
}

fn indexed(rt: &impl Abort, alloc: Global) -> ByIndex<Timestamp> {
    let mut by_index = ByIndex::new(alloc);
    by_index.insert(7, stamp(1)).made(rt);
    by_index
        .extend(vec![in alloc; (9, stamp(2)), (7, stamp(3)), (8, stamp(4))].made(rt))
        .made(rt);
    copied(rt, alloc, &by_index)
}

fn boxed(rt: &impl Abort, alloc: Global) -> Boxed<Timestamp> {
    copied(rt, alloc, &Boxed::new(alloc, stamp(5)).made(rt))
}

/// The pair of `b` and 2, as a copy.
fn pair(rt: &impl Abort, alloc: Global) -> Pair<Bson> {
    let pair = Pair {
        key: Key::from_str(alloc, "b").made(rt),
        value: Bson::Int32(2),
    };
    copied(rt, alloc, &pair)
}

/// Whether it is that pair.
fn is_b_and_two(pair: &Pair<Bson>) -> bool {
    pair.key.as_str() == "b" && matches!(pair.value, Bson::Int32(2))
}

/// An object id with this last byte, as a copy.
fn id(rt: &impl Abort, alloc: Global, last: u8) -> ObjectId {
    let bytes = [0, 0, 0, 0, 0, 0, 0, 0, 0, 0, 0, last];
    copied(rt, alloc, &ObjectId { bytes })
}

#[test]
fn a_pair_and_an_id_are_copied(rt: HostRuntime) {
    let pair = pair(&rt, rt.alloc());
    holds(&rt, is_b_and_two(&pair), "a copy of a pair");
    let id = id(&rt, rt.alloc(), 7);
    alike(
        &rt,
        id.bytes,
        [0, 0, 0, 0, 0, 0, 0, 0, 0, 0, 0, 7],
        "a copy of an id",
    );
}

#[test]
fn containers(rt: HostRuntime) {
    let alloc = rt.alloc();
    let list = listed(&rt, alloc);
    alike(
        &rt,
        list.as_slice(),
        [stamp(1), stamp(2)].as_slice(),
        "a list",
    );
    let bytes = gathered(&rt, alloc);
    alike(&rt, bytes.as_slice(), [1, 2, 3].as_slice(), "bytes");
    let by_index = indexed(&rt, alloc);
    let entries = [(7, stamp(3)), (8, stamp(4)), (9, stamp(2))];
    alike(&rt, by_index.len(), 3, "how many values by index");
    alike(
        &rt,
        by_index.entries(),
        entries.as_slice(),
        "values by index",
    );
    alike(
        &rt,
        by_index.get(7).copied(),
        Some(stamp(3)),
        "the value at 7",
    );
    alike(&rt, *boxed(&rt, alloc).get(), stamp(5), "a box");
}
