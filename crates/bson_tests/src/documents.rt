//! Spellings from outside: worked documents, and vectors of the public standard for each type.
//! The helpers promise nothing, so that a test's proof has little to read.
use crate::asserting::{Made, alike, holds};
use bson_lite::{
    Bson, Bytes, DecodeFault, Document, EncodeFault, ObjectId, RawDocumentBuf, Text, TryClone,
    encode, encode_refusal, encode_with_id, encode_with_id_within, encode_within, encoded_len,
    get_int, get_or_prepend_id_field, refusal_within, replacement_document_check,
    update_document_check,
};
use bson_reading::decode;
use std::alloc::Global;
use std::process::Abort;

const X_IS_1: [u8; 12] = [12, 0, 0, 0, 16, b'x', 0, 1, 0, 0, 0, 0];

const WITH_ID: [u8; 29] = [
    29, 0, 0, 0, 7, b'_', b'i', b'd', 0, 0, 0, 0, 0, 0, 0, 0, 0, 0, 0, 0, 1, 16, b'x', 0, 1, 0, 0,
    0, 0,
];

pub(crate) fn one(rt: &impl Abort, alloc: Global, key: &str, value: Bson) -> Document {
    let mut document = Document::new(alloc);
    document.push(key, value).made(rt);
    document
}

pub(crate) fn spelled(alloc: Global, document: &Document) -> Result<Bytes, EncodeFault> {
    encode(alloc, document)
}

pub(crate) fn read(alloc: Global, bytes: &[u8]) -> Result<Document, DecodeFault> {
    decode(alloc, bytes)
}

fn put_id(rt: &impl Abort, alloc: Global, document: &mut Document, last: u8) -> Bson {
    let bytes = [0, 0, 0, 0, 0, 0, 0, 0, 0, 0, 0, last];
    get_or_prepend_id_field(alloc, document, ObjectId { bytes }).made(rt)
}

fn spelled_with(alloc: Global, document: &Document, last: u8) -> Result<Bytes, EncodeFault> {
    let bytes = [0, 0, 0, 0, 0, 0, 0, 0, 0, 0, 0, last];
    encode_with_id(alloc, document, &ObjectId { bytes })
}

fn kept(rt: &impl Abort, alloc: Global, document: &Document) -> RawDocumentBuf {
    RawDocumentBuf::from_document(alloc, document)
        .made(rt)
        .try_clone(alloc)
        .made(rt)
}

fn number_at(document: &Document, key: &str) -> Option<i64> {
    document.get(key).and_then(get_int)
}

pub(crate) fn b_text(rt: &impl Abort, alloc: Global) -> Text {
    Text::from_str(alloc, "b").made(rt)
}

pub(crate) fn copied<T: TryClone>(rt: &impl Abort, alloc: Global, value: &T) -> T {
    value.try_clone(alloc).made(rt)
}

fn nested(rt: &impl Abort, alloc: Global, levels: u32) -> Document {
    let mut document = Document::new(alloc);
    for _ in 1..levels {
        document = one(rt, alloc, "d", Bson::Document(document));
    }
    document
}

fn refused_within(document: &Document, levels: u32) -> Option<EncodeFault> {
    refusal_within(document, levels)
}

fn spelled_within_three(alloc: Global, document: &Document) -> Result<Bytes, EncodeFault> {
    encode_within(alloc, document, 3)
}

fn named_within_three(alloc: Global, document: &Document) -> Result<Bytes, EncodeFault> {
    encode_with_id_within(alloc, document, &ObjectId { bytes: [0; 12] }, 3)
}

#[test]
fn worked_documents(rt: HostRuntime) {
    let alloc = rt.alloc();
    let mut document = one(&rt, alloc, "x", Bson::Int32(1));
    let bytes = spelled(alloc, &document).made(&rt);
    alike(
        &rt,
        bytes.as_slice(),
        X_IS_1.as_slice(),
        "the bytes of {x: 1}",
    );
    let again = read(alloc, &X_IS_1).made(&rt);
    let copy = copied(&rt, alloc, &again);
    holds(&rt, copy == document, "a copy of what they read as");
    put_id(&rt, alloc, &mut document, 1);
    put_id(&rt, alloc, &mut document, 2);
    let bytes = kept(&rt, alloc, &document);
    alike(
        &rt,
        bytes.as_bytes(),
        WITH_ID.as_slice(),
        "the bytes with an id in front",
    );
    alike(&rt, encoded_len(&document), 29, "their length");
    alike(&rt, number_at(&document, "x"), Some(1), "the number at x");
    alike(&rt, number_at(&document, "y"), None, "the number at y");
}

#[test]
fn documents_behind_an_id(rt: HostRuntime) {
    let alloc = rt.alloc();
    let mut document = one(&rt, alloc, "x", Bson::Int32(1));
    let bytes = spelled_with(alloc, &document, 1).made(&rt);
    alike(
        &rt,
        bytes.as_slice(),
        WITH_ID.as_slice(),
        "an id that is put before",
    );
    put_id(&rt, alloc, &mut document, 1);
    let bytes = spelled_with(alloc, &document, 2).made(&rt);
    alike(
        &rt,
        bytes.as_slice(),
        WITH_ID.as_slice(),
        "an id that stands there",
    );
}

/// Bytes that are no document: what is broken, the bytes, and where the first broken item begins.
const BROKEN: &[(&str, &[u8], usize); 8] = &[
    (
        "a byte is missing",
        &[12, 0, 0, 0, 16, b'x', 0, 1, 0, 0, 0],
        0,
    ),
    ("no zero byte at the end", &[5, 0, 0, 0, 1], 4),
    (
        "a type that is none",
        &[12, 0, 0, 0, 15, b'x', 0, 1, 0, 0, 0, 0],
        4,
    ),
    (
        "a key that is no text",
        &[12, 0, 0, 0, 16, 0xff, 0, 1, 0, 0, 0, 0],
        5,
    ),
    ("a flag of 2", &[9, 0, 0, 0, 8, b'b', 0, 2, 0], 7),
    (
        "no zero byte at the end of a document inside",
        &[13, 0, 0, 0, 3, b'x', 0, 5, 0, 0, 0, 7, 0],
        11,
    ),
    (
        "a place that is not 0",
        &[16, 0, 0, 0, 4, b'x', 0, 8, 0, 0, 0, 10, b'1', 0, 0, 0],
        12,
    ),
    (
        "a text of length 0",
        &[12, 0, 0, 0, 2, b'x', 0, 0, 0, 0, 0, 0],
        7,
    ),
];

#[test]
fn broken_bytes(rt: HostRuntime) {
    let alloc = rt.alloc();
    for (name, bytes, offset) in BROKEN {
        let fault = DecodeFault::At { offset: *offset };
        alike(&rt, read(alloc, bytes).err(), Some(fault), name);
    }
}

#[test]
fn refusals(rt: HostRuntime) {
    let alloc = rt.alloc();
    let zero = one(&rt, alloc, "a\0b", Bson::Null);
    let refusal = spelled(alloc, &zero).err();
    alike(
        &rt,
        refusal,
        Some(EncodeFault::ZeroByte),
        "a zero byte in a key",
    );
    let deep = nested(&rt, alloc, 100);
    alike(&rt, encode_refusal(&deep), None, "100 levels");
    let bytes = spelled(alloc, &deep).made(&rt);
    let again = read(alloc, bytes.as_slice()).made(&rt);
    holds(&rt, again == deep, "100 levels, read again");
    let deeper = nested(&rt, alloc, 101);
    let refusal = spelled(alloc, &deeper).err();
    alike(&rt, refusal, Some(EncodeFault::TooDeep), "101 levels");
}

#[test]
fn refusals_by_levels(rt: HostRuntime) {
    let deep = nested(&rt, rt.alloc(), 3);
    let table = [
        (0, Some(EncodeFault::TooDeep)),
        (2, Some(EncodeFault::TooDeep)),
        (3, None),
        (4, None),
    ];
    for (levels, refusal) in table {
        let found = refused_within(&deep, levels);
        alike(
            &rt,
            (levels, found),
            (levels, refusal),
            "refused within levels",
        );
    }
}

#[test]
fn spellings_by_levels(rt: HostRuntime) {
    let alloc = rt.alloc();
    let three = nested(&rt, alloc, 3);
    let bytes = spelled(alloc, &three).made(&rt);
    let within = spelled_within_three(alloc, &three).made(&rt);
    alike(&rt, within.as_slice(), bytes.as_slice(), "three levels");
    let named = named_within_three(alloc, &three).made(&rt);
    alike(&rt, named.len(), 17 + bytes.len(), "the length with an id");
    let four = nested(&rt, alloc, 4);
    let refusal = spelled_within_three(alloc, &four).err();
    alike(&rt, refusal, Some(EncodeFault::TooDeep), "four levels");
    let refusal = named_within_three(alloc, &four).err();
    alike(
        &rt,
        refusal,
        Some(EncodeFault::TooDeep),
        "four levels with an id",
    );
}

fn names_operator(document: &Document) -> bool {
    update_document_check(document)
}

fn replaces(document: &Document) -> bool {
    replacement_document_check(document)
}

#[test]
fn first_keys(rt: HostRuntime) {
    let alloc = rt.alloc();
    for (key, operator) in [("$set", true), ("x", false), ("", false), ("x$", false)] {
        let document = one(&rt, alloc, key, Bson::Null);
        alike(&rt, names_operator(&document), operator, key);
        alike(&rt, replaces(&document), !operator, key);
    }
    let empty = Document::new(alloc);
    holds(&rt, !names_operator(&empty) && replaces(&empty), "no key");
}
