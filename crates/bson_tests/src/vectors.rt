//! The examples of the public standard, for each type of value.
use crate::asserting::{Made, alike, holds};
use crate::documents::{b_text, copied, one, read, spelled};
use bson_lite::{Binary, Boxed, Bson, Bytes, List, ObjectId, Regex, Text, Timestamp};
use std::alloc::Global;
use std::process::Abort;

/// An object id of the public standard's examples.
const CORPUS_ID: [u8; 12] = [
    0x56, 0xe1, 0xfc, 0x72, 0xe0, 0xc9, 0x17, 0xe9, 0xc4, 0x71, 0x41, 0x61,
];

/// What the document of a row holds.
#[derive(Clone, Copy)]
enum Held {
    Plain(Plain),
    InMemory(InMemory),
}

/// A value that takes no memory.
#[derive(Clone, Copy)]
enum Plain {
    Double,
    Int32,
    Int64,
    Decimal128,
    ObjectId,
    DateTime,
    Timestamp,
    Undefined,
    Boolean(bool),
    Null,
    MinKey,
    MaxKey,
}

/// A value that takes memory.
#[derive(Clone, Copy)]
enum InMemory {
    Text,
    Code,
    Symbol,
    Regex,
    Binary,
    Array,
    Document,
}

fn plain_value(held: Plain) -> Bson {
    match held {
        Plain::Double => Bson::Double([0, 0, 0, 0, 0, 0, 0xf0, 0x3f]),
        Plain::Int32 => Bson::Int32(-2_147_483_648),
        Plain::Int64 => Bson::Int64(-1),
        Plain::Decimal128 => {
            Bson::Decimal128([1, 0, 0, 0, 0, 0, 0, 0, 0, 0, 0, 0, 0, 0, 0x40, 0x30])
        }
        Plain::ObjectId => Bson::ObjectId(ObjectId { bytes: CORPUS_ID }),
        Plain::DateTime => Bson::DateTime(-284_643_869_501),
        Plain::Timestamp => Bson::Timestamp(Timestamp {
            time: 123_456_789,
            increment: 42,
        }),
        Plain::Undefined => Bson::Undefined,
        Plain::Boolean(is_set) => Bson::Boolean(is_set),
        Plain::Null => Bson::Null,
        Plain::MinKey => Bson::MinKey,
        Plain::MaxKey => Bson::MaxKey,
    }
}

fn regex(rt: &impl Abort, alloc: Global) -> Bson {
    let regex = Regex {
        pattern: Text::from_str(alloc, "abc").made(rt),
        options: Text::from_str(alloc, "im").made(rt),
    };
    Bson::RegularExpression(Boxed::new(alloc, regex).made(rt))
}

fn array(rt: &impl Abort, alloc: Global) -> Bson {
    let mut values = List::new(alloc);
    values.push(Bson::Int32(10)).made(rt);
    Bson::Array(values)
}

fn value_of_memory(rt: &impl Abort, alloc: Global, held: InMemory) -> Bson {
    match held {
        InMemory::Text => Bson::String(b_text(rt, alloc)),
        InMemory::Code => Bson::JavaScriptCode(b_text(rt, alloc)),
        InMemory::Symbol => Bson::Symbol(b_text(rt, alloc)),
        InMemory::Regex => regex(rt, alloc),
        InMemory::Binary => Bson::Binary(Binary {
            subtype: 4,
            bytes: Bytes::from_slice(alloc, &[0xff, 0xff]).made(rt),
        }),
        InMemory::Array => array(rt, alloc),
        InMemory::Document => Bson::Document(one(rt, alloc, "a", Bson::String(b_text(rt, alloc)))),
    }
}

fn value_of(rt: &impl Abort, alloc: Global, held: Held) -> Bson {
    match held {
        Held::Plain(held) => plain_value(held),
        Held::InMemory(held) => value_of_memory(rt, alloc, held),
    }
}

/// Whether a copy of the value is the value.
fn is_copied(rt: &impl Abort, alloc: Global, held: Held) -> bool {
    let value = value_of(rt, alloc, held);
    let copy = copied(rt, alloc, &value);
    copy == value
}

/// Whether the document of this pair has these bytes, and is read from them.
fn both_ways(rt: &impl Abort, alloc: Global, key: &str, held: Held, bytes: &[u8]) -> bool {
    let document = one(rt, alloc, key, value_of(rt, alloc, held));
    let given = spelled(alloc, &document).made(rt);
    let again = read(alloc, bytes).made(rt);
    given.as_slice() == bytes && again == document
}

/// Values of the public standard that take no memory: the name, the key, the value, and the bytes of its document.
const PLAIN_VALUES: &[(&str, &str, Plain, &[u8]); 13] = &[
    (
        "double",
        "d",
        Plain::Double,
        b"\x10\0\0\0\x01d\0\0\0\0\0\0\0\xf0\x3f\0",
    ),
    (
        "int 32",
        "i",
        Plain::Int32,
        b"\x0c\0\0\0\x10i\0\0\0\0\x80\0",
    ),
    (
        "int 64",
        "a",
        Plain::Int64,
        b"\x10\0\0\0\x12a\0\xff\xff\xff\xff\xff\xff\xff\xff\0",
    ),
    (
        "decimal 128",
        "d",
        Plain::Decimal128,
        b"\x18\0\0\0\x13d\0\x01\0\0\0\0\0\0\0\0\0\0\0\0\0\x40\x30\0",
    ),
    (
        "object id",
        "a",
        Plain::ObjectId,
        b"\x14\0\0\0\x07a\0\x56\xe1\xfc\x72\xe0\xc9\x17\xe9\xc4\x71\x41\x61\0",
    ),
    (
        "date time",
        "a",
        Plain::DateTime,
        b"\x10\0\0\0\x09a\0\xc3\x3c\xe7\xb9\xbd\xff\xff\xff\0",
    ),
    (
        "timestamp",
        "a",
        Plain::Timestamp,
        b"\x10\0\0\0\x11a\0\x2a\0\0\0\x15\xcd\x5b\x07\0",
    ),
    ("undefined", "a", Plain::Undefined, b"\x08\0\0\0\x06a\0\0"),
    (
        "boolean false",
        "b",
        Plain::Boolean(false),
        b"\x09\0\0\0\x08b\0\0\0",
    ),
    (
        "boolean true",
        "b",
        Plain::Boolean(true),
        b"\x09\0\0\0\x08b\0\x01\0",
    ),
    ("null", "a", Plain::Null, b"\x08\0\0\0\x0aa\0\0"),
    ("min key", "a", Plain::MinKey, b"\x08\0\0\0\xffa\0\0"),
    ("max key", "a", Plain::MaxKey, b"\x08\0\0\0\x7fa\0\0"),
];

#[test]
fn standard_plain_values(rt: HostRuntime) {
    let alloc = rt.alloc();
    for (name, key, held, bytes) in PLAIN_VALUES {
        holds(
            &rt,
            both_ways(&rt, alloc, key, Held::Plain(*held), bytes),
            name,
        );
    }
}

/// The same of values that take memory.
const VALUES_OF_MEMORY: &[(&str, &str, InMemory, &[u8]); 7] = &[
    (
        "text",
        "a",
        InMemory::Text,
        b"\x0e\0\0\0\x02a\0\x02\0\0\0b\0\0",
    ),
    (
        "java script code",
        "a",
        InMemory::Code,
        b"\x0e\0\0\0\x0da\0\x02\0\0\0b\0\0",
    ),
    (
        "symbol",
        "a",
        InMemory::Symbol,
        b"\x0e\0\0\0\x0ea\0\x02\0\0\0b\0\0",
    ),
    (
        "regex",
        "a",
        InMemory::Regex,
        b"\x0f\0\0\0\x0ba\0abc\0im\0\0",
    ),
    (
        "binary",
        "x",
        InMemory::Binary,
        b"\x0f\0\0\0\x05x\0\x02\0\0\0\x04\xff\xff\0",
    ),
    (
        "array",
        "a",
        InMemory::Array,
        b"\x14\0\0\0\x04a\0\x0c\0\0\0\x100\0\x0a\0\0\0\0\0",
    ),
    (
        "document",
        "x",
        InMemory::Document,
        b"\x16\0\0\0\x03x\0\x0e\0\0\0\x02a\0\x02\0\0\0b\0\0\0",
    ),
];

#[test]
fn standard_values_of_memory(rt: HostRuntime) {
    let alloc = rt.alloc();
    for (name, key, held, bytes) in VALUES_OF_MEMORY {
        let copied = is_copied(&rt, alloc, Held::InMemory(*held));
        alike(&rt, (*name, copied), (*name, true), "a copy");
        let read = both_ways(&rt, alloc, key, Held::InMemory(*held), bytes);
        alike(
            &rt,
            (*name, read),
            (*name, true),
            "a spelling, read and written",
        );
    }
}

/// Whether bytes are read, and what they read as is spelled so.
fn is_read_and_spelled(alloc: Global, bytes: &[u8]) -> bool {
    let Ok(document) = read(alloc, bytes) else {
        return false;
    };
    match spelled(alloc, &document) {
        Ok(again) => again.as_slice() == bytes,
        Err(_) => false,
    }
}

/// The bytes of documents of the public standard, by name.
const VECTORS: &[(&str, &[u8]); 19] = &[
    ("empty", b"\x05\0\0\0\0"),
    ("double", b"\x10\0\0\0\x01d\0\0\0\0\0\0\0\xf0\x3f\0"),
    ("text", b"\x0e\0\0\0\x02a\0\x02\0\0\0b\0\0"),
    ("array", b"\x14\0\0\0\x04a\0\x0c\0\0\0\x100\0\x0a\0\0\0\0\0"),
    ("binary", b"\x0f\0\0\0\x05x\0\x02\0\0\0\0\xff\xff\0"),
    ("undefined", b"\x08\0\0\0\x06a\0\0"),
    (
        "object id",
        b"\x14\0\0\0\x07a\0\x56\xe1\xfc\x72\xe0\xc9\x17\xe9\xc4\x71\x41\x61\0",
    ),
    ("boolean", b"\x09\0\0\0\x08b\0\x01\0"),
    ("date", b"\x10\0\0\0\x09a\0\xc5\xd8\xd6\xcc\x3b\x01\0\0\0"),
    ("null", b"\x08\0\0\0\x0aa\0\0"),
    ("regular expression", b"\x0f\0\0\0\x0ba\0abc\0im\0\0"),
    ("code", b"\x0e\0\0\0\x0da\0\x02\0\0\0b\0\0"),
    ("symbol", b"\x0e\0\0\0\x0ea\0\x02\0\0\0b\0\0"),
    ("int32", b"\x0c\0\0\0\x10i\0\xff\xff\xff\xff\0"),
    (
        "timestamp",
        b"\x10\0\0\0\x11a\0\x2a\0\0\0\x15\xcd\x5b\x07\0",
    ),
    (
        "int64",
        b"\x10\0\0\0\x12a\0\xff\xff\xff\xff\xff\xff\xff\xff\0",
    ),
    (
        "decimal128",
        b"\x18\0\0\0\x13d\0\x01\0\0\0\0\0\0\0\0\0\0\0\0\0\x40\x30\0",
    ),
    ("max key", b"\x08\0\0\0\x7fa\0\0"),
    ("min key", b"\x08\0\0\0\xffa\0\0"),
];

#[test]
fn standard_vectors_read_and_spelled(rt: HostRuntime) {
    let alloc = rt.alloc();
    for (name, bytes) in VECTORS {
        holds(&rt, is_read_and_spelled(alloc, bytes), name);
    }
}
