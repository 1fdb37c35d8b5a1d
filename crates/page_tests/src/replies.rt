//! Replies and pages for the rows, as documents and as bytes.
use crate::asserting::Made;
use bson_lite::{Bson, Bytes, Document, List, Text, encode};
use std::alloc::Global;
use std::process::Abort;

/// A results document.
#[derive(Clone, Copy)]
pub(crate) enum Told {
    /// `{idx, n}`
    Counted(i32, i32),
    /// `{idx, n, nModified}`
    Changed(i32, i32, i32),
    /// `{idx, n, nModified: 0, upserted: {_id}}`
    PutIn(i32, i32, i32),
    /// `{idx, n, upserted: {}}`
    PutInNothing(i32, i32),
    /// `{idx, code, errmsg: "duplicate"}`
    Failed(i32, i32),
    /// `{idx, code, n}`, which counts as an error
    FailedCounted(i32, i32, i32),
    /// `{n: 1}`
    Nowhere,
    /// `{idx}`
    Nothing(i32),
    /// A text in place of a document.
    Text,
}

/// The reply to a bulk write: its counts of errors and of inserted, matched, modified, upserted and deleted
/// documents; its cursor and first page; a label; the code of a write concern error.
#[derive(Clone, Copy)]
pub(crate) struct First(
    pub(crate) i32,
    pub(crate) [i32; 5],
    pub(crate) i64,
    pub(crate) &'static [Told],
    pub(crate) Option<&'static str>,
    pub(crate) Option<i32>,
);

/// What the cursor of a reply lacks.
#[derive(Clone, Copy, PartialEq, Eq)]
pub(crate) enum Lack {
    /// There is none.
    Cursor,
    Id,
    Namespace,
    /// Its namespace has no dot.
    Dot,
    Batch,
}

/// What an exchange answers.
#[derive(Clone, Copy)]
pub(crate) enum Answer {
    First(First),
    /// A reply that tells of two inserts, whose cursor lacks something.
    Lacking(Lack),
    /// A page behind it, with its cursor.
    Next(i64, &'static [Told]),
    /// A page whose cursor has no namespace.
    Unnamed,
    /// An error reply with a code and a label.
    Refused(i32, Option<&'static str>),
    /// `{ok: 1}`
    Plain,
    /// These bytes.
    Bytes(&'static [u8]),
    Reset,
}

/// A text as a value.
fn text(rt: &impl Abort, alloc: Global, text: &str) -> Bson {
    Bson::String(Text::from_str(alloc, text).made(rt))
}

/// A document of whole numbers.
fn numbers(rt: &impl Abort, alloc: Global, fields: &[(&str, i32)]) -> Document {
    let mut document = Document::new(alloc);
    for (key, number) in fields {
        document.push(key, Bson::Int32(*number)).made(rt);
    }
    document
}

/// A document with one field more.
fn with(rt: &impl Abort, mut document: Document, key: &str, value: Bson) -> Document {
    document.push(key, value).made(rt);
    document
}

/// A results document as a value.
fn told_value(rt: &impl Abort, alloc: Global, told: Told) -> Bson {
    let document = match told {
        Told::Counted(index, n) => numbers(rt, alloc, &[("idx", index), ("n", n)]),
        Told::Changed(index, n, modified) => {
            numbers(
                rt,
                alloc,
                &[("idx", index), ("n", n), ("nModified", modified)],
            )
        }
        Told::PutIn(index, n, id) => {
            let counted = numbers(rt, alloc, &[("idx", index), ("n", n), ("nModified", 0)]);
            let id = numbers(rt, alloc, &[("_id", id)]);
            with(rt, counted, "upserted", Bson::Document(id))
        }
        Told::PutInNothing(index, n) => {
            let counted = numbers(rt, alloc, &[("idx", index), ("n", n)]);
            with(
                rt,
                counted,
                "upserted",
                Bson::Document(Document::new(alloc)),
            )
        }
        Told::Failed(index, code) => {
            let failed = numbers(rt, alloc, &[("idx", index), ("code", code)]);
            with(rt, failed, "errmsg", text(rt, alloc, "duplicate"))
        }
        Told::FailedCounted(index, code, n) => {
            numbers(rt, alloc, &[("idx", index), ("code", code), ("n", n)])
        }
        Told::Nowhere => numbers(rt, alloc, &[("n", 1)]),
        Told::Nothing(index) => numbers(rt, alloc, &[("idx", index)]),
        Told::Text => return text(rt, alloc, "no document"),
    };
    Bson::Document(document)
}

/// Results documents as an array.
fn all_told(rt: &impl Abort, alloc: Global, all: &[Told]) -> Bson {
    let mut values = List::new(alloc);
    for one in all {
        values.push(told_value(rt, alloc, *one)).made(rt);
    }
    Bson::Array(values)
}

/// `{id, ns: "db.coll.x", batch: [..]}`
fn cursor(rt: &impl Abort, alloc: Global, batch: &str, id: i64, all: &[Told]) -> Bson {
    let mut document = Document::new(alloc);
    document.push("id", Bson::Int64(id)).made(rt);
    document.push("ns", text(rt, alloc, "db.coll.x")).made(rt);
    document.push(batch, all_told(rt, alloc, all)).made(rt);
    Bson::Document(document)
}

/// The names of the five counts, in their order.
const COUNTS: [&str; 5] = [
    "nInserted",
    "nMatched",
    "nModified",
    "nUpserted",
    "nDeleted",
];

/// The one label of a reply.
fn push_label(rt: &impl Abort, alloc: Global, document: &mut Document, label: Option<&str>) {
    let Some(label) = label else {
        return;
    };
    let mut labels = List::new(alloc);
    labels.push(text(rt, alloc, label)).made(rt);
    document.push("errorLabels", Bson::Array(labels)).made(rt);
}

/// The five counts of a reply.
fn push_counts(rt: &impl Abort, document: &mut Document, counts: [i32; 5]) {
    for (at, name) in COUNTS.iter().enumerate() {
        let count = counts.get(at).copied().unwrap_or(0);
        document.push(name, Bson::Int32(count)).made(rt);
    }
}

/// A cursor that lacks something.
fn lacking_cursor(rt: &impl Abort, alloc: Global, lack: Lack) -> Bson {
    let mut document = Document::new(alloc);
    if lack != Lack::Id {
        document.push("id", Bson::Int64(0)).made(rt);
    }
    if lack != Lack::Namespace {
        let namespace = if lack == Lack::Dot { "db" } else { "db.coll.x" };
        document.push("ns", text(rt, alloc, namespace)).made(rt);
    }
    if lack != Lack::Batch {
        document
            .push(
                "firstBatch",
                all_told(rt, alloc, &[Told::Counted(0, 1), Told::Counted(1, 1)]),
            )
            .made(rt);
    }
    Bson::Document(document)
}

/// The reply to two inserts, whose cursor lacks something.
fn lacking(rt: &impl Abort, alloc: Global, lack: Lack) -> Document {
    let mut document = Document::new(alloc);
    document.push("ok", Bson::Int32(1)).made(rt);
    document.push("nErrors", Bson::Int32(0)).made(rt);
    push_counts(rt, &mut document, [2, 0, 0, 0, 0]);
    if lack != Lack::Cursor {
        document
            .push("cursor", lacking_cursor(rt, alloc, lack))
            .made(rt);
    }
    document
}

/// The reply to a bulk write.
fn first_reply(rt: &impl Abort, alloc: Global, given: First) -> Document {
    let First(errors, counts, id, told, label, concern) = given;
    let mut document = Document::new(alloc);
    document.push("ok", Bson::Int32(1)).made(rt);
    document.push("nErrors", Bson::Int32(errors)).made(rt);
    push_counts(rt, &mut document, counts);
    document
        .push("cursor", cursor(rt, alloc, "firstBatch", id, told))
        .made(rt);
    push_label(rt, alloc, &mut document, label);
    if let Some(code) = concern {
        let mut concern = Document::new(alloc);
        concern.push("code", Bson::Int32(code)).made(rt);
        document
            .push("writeConcernError", Bson::Document(concern))
            .made(rt);
    }
    document
}

/// `{ok: 1, cursor: {id: 0, nextBatch: []}}`
fn unnamed(rt: &impl Abort, alloc: Global) -> Document {
    let mut page = Document::new(alloc);
    page.push("id", Bson::Int32(0)).made(rt);
    page.push("nextBatch", Bson::Array(List::new(alloc)))
        .made(rt);
    let mut document = Document::new(alloc);
    document.push("ok", Bson::Int32(1)).made(rt);
    document.push("cursor", Bson::Document(page)).made(rt);
    document
}

/// A reply as a document, where the answer is one.
fn document(rt: &impl Abort, alloc: Global, answer: Answer) -> Option<Document> {
    Some(match answer {
        Answer::First(given) => first_reply(rt, alloc, given),
        Answer::Lacking(lack) => lacking(rt, alloc, lack),
        Answer::Next(id, all) => {
            let page = cursor(rt, alloc, "nextBatch", id, all);
            with(rt, numbers(rt, alloc, &[("ok", 1)]), "cursor", page)
        }
        Answer::Unnamed => unnamed(rt, alloc),
        Answer::Refused(code, label) => {
            let mut document = numbers(rt, alloc, &[("ok", 0), ("code", code)]);
            push_label(rt, alloc, &mut document, label);
            document
        }
        Answer::Plain => numbers(rt, alloc, &[("ok", 1)]),
        Answer::Bytes(_) | Answer::Reset => return None,
    })
}

/// A reply in bytes, where the answer is one.
pub(crate) fn reply_bytes(rt: &impl Abort, alloc: Global, answer: Answer) -> Option<Bytes> {
    if let Answer::Bytes(bytes) = answer {
        return Some(Bytes::from_slice(alloc, bytes).made(rt));
    }
    match document(rt, alloc, answer) {
        Some(document) => Some(encode(alloc, &document).made(rt)),
        None => None,
    }
}

/// The last page with one results document, in bytes.
pub(crate) fn page_with(rt: &impl Abort, alloc: Global, one: Told) -> Bytes {
    let mut values = List::new(alloc);
    values.push(told_value(rt, alloc, one)).made(rt);
    let mut page = Document::new(alloc);
    page.push("id", Bson::Int64(0)).made(rt);
    page.push("ns", text(rt, alloc, "db.coll.x")).made(rt);
    page.push("nextBatch", Bson::Array(values)).made(rt);
    let mut document = Document::new(alloc);
    document.push("ok", Bson::Int32(1)).made(rt);
    document.push("cursor", Bson::Document(page)).made(rt);
    encode(alloc, &document).made(rt)
}
