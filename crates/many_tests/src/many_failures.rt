//! An insert of four documents in two batches, over a fake link that answers each batch with failures of its own: what
//! the insert's error has of each, under the indexes of its list.
use crate::asserting::{Made, holds};
use bson_lite::{Bson, ByIndex, Document, List, Text};
use driver_error::{Error, ErrorKind, IndexedWriteError, InsertManyError, WriteConcernError};
use driver_inputs::{Call, Outcome};
use driver_options::{Description, InsertManyOptions};
use std::alloc::Global;
use std::process::Abort;
use test_parts::faking::{Given, Servers, fake_link, outcomes_over};
use test_parts::writes::{namespace, number};

/// A connection's server that takes sessions, retryable writes, and two documents a batch.
const TWO_A_BATCH: Description = Description {
    max_wire_version: Some(25),
    max_bson_object_size: 16_777_216,
    max_message_size_bytes: 48_000_000,
    max_write_batch_size: 2,
    supports_sessions: true,
    supports_retryable_writes: true,
    sharded: false,
};

/// That server behind each connection.
const SMALL: Servers = Servers {
    first: TWO_A_BATCH,
    further: TWO_A_BATCH,
};

/// `{ok: 1, n: 2, writeConcernError: {code: 64, errmsg: "first", errorLabels: ["inner"]},
/// errorLabels: ["both", "one"]}`
const FIRST: &[u8] =
    b"\x90\0\0\0\x10ok\0\x01\0\0\0\x10n\0\x02\0\0\0\x03writeConcernError\0\x40\0\0\0\x10code\0\x40\0\0\0\x02errmsg\0\x06\0\0\0first\0\x04errorLabels\0\x12\0\0\0\x020\0\x06\0\0\0inner\0\0\0\x04errorLabels\0\x1c\0\0\0\x020\0\x05\0\0\0both\0\x021\0\x04\0\0\0one\0\0\0";

/// `{ok: 1, n: 1, writeErrors: [{index: 1, code: 11000, errmsg: "dup"}],
/// writeConcernError: {code: 100, errmsg: "last"}, errorLabels: ["two", "both"]}`
const LAST: &[u8] =
    b"\xaf\0\0\0\x10ok\0\x01\0\0\0\x10n\0\x01\0\0\0\x04writeErrors\0\x32\0\0\0\x030\0\x2a\0\0\0\x10index\0\x01\0\0\0\x10code\0\xf8\x2a\0\0\x02errmsg\0\x04\0\0\0dup\0\0\0\x03writeConcernError\0\x20\0\0\0\x10code\0\x64\0\0\0\x02errmsg\0\x05\0\0\0last\0\0\x04errorLabels\0\x1c\0\0\0\x020\0\x04\0\0\0two\0\x021\0\x05\0\0\0both\0\0\0";

/// Whether an insert is ordered, how often it sends, and what its error has: the labels in their order, the code and
/// message of its write concern error, the indexes and codes of its write errors, and the last bytes of the ids from
/// the first document on.
struct Row {
    ordered: Option<bool>,
    sends: usize,
    labels: &'static [&'static str],
    code: i32,
    message: &'static str,
    errors: &'static [(usize, i32)],
    ids: &'static [u8],
}

/// It ends behind the first batch.
const ORDERED: Row = Row {
    ordered: None,
    sends: 1,
    labels: &["both", "inner", "one"],
    code: 64,
    message: "first",
    errors: &[],
    ids: &[1, 2],
};

/// It goes on, and has the labels of both batches and the last write concern error.
const UNORDERED: Row = Row {
    ordered: Some(false),
    sends: 2,
    labels: &["both", "inner", "one", "two"],
    code: 100,
    message: "last",
    errors: &[(3, 11000)],
    ids: &[1, 2, 3],
};

/// Four documents `{x: 1}`.
fn documents(rt: &impl Abort, alloc: Global) -> List<Document> {
    let mut documents = List::with_capacity(alloc, 4).made(rt);
    for _ in 0..4 {
        documents.push(number(alloc, "x", 1).made(rt)).made(rt);
    }
    documents
}

/// Their insert as the one call of a list.
fn calls(rt: &impl Abort, alloc: Global, ordered: Option<bool>) -> List<Call> {
    let mut calls = List::with_capacity(alloc, 1).made(rt);
    calls
        .push(Call::InsertMany {
            namespace: namespace(alloc, "shop").made(rt),
            documents: documents(rt, alloc),
            options: InsertManyOptions {
                ordered,
                bypass_document_validation: None,
                comment: None,
                write_concern: None,
            },
        })
        .made(rt);
    calls
}

/// Whether these are the labels of a row.
fn are_labels(labels: &[Text], wanted: &[&str]) -> bool {
    if labels.len() != wanted.len() {
        return false;
    }
    for (label, text) in labels.iter().zip(wanted) {
        if label.as_str() != *text {
            return false;
        }
    }
    true
}

/// Whether a write error has this index and this code.
fn is_listed(error: &IndexedWriteError, wanted: (usize, i32)) -> bool {
    let (index, code) = wanted;
    error.index == index && error.code == code
}

/// Whether these are the write errors of a row.
fn are_listed(errors: &[IndexedWriteError], wanted: &[(usize, i32)]) -> bool {
    if errors.len() != wanted.len() {
        return false;
    }
    for (error, pair) in errors.iter().zip(wanted) {
        if !is_listed(error, *pair) {
            return false;
        }
    }
    true
}

/// Whether these are the write errors of a row, where there are any.
fn are_errors(errors: &Option<List<IndexedWriteError>>, wanted: &[(usize, i32)]) -> bool {
    match errors {
        Some(errors) => !wanted.is_empty() && are_listed(errors.as_slice(), wanted),
        None => wanted.is_empty(),
    }
}

/// Whether this is the write concern error of a row.
fn is_concern(concern: &Option<WriteConcernError>, row: &Row) -> bool {
    match concern {
        Some(concern) => concern.code == row.code && concern.message.as_str() == row.message,
        None => false,
    }
}

/// The last byte of the object id at an index, or none where there is another value.
pub(crate) fn id_at(ids: &ByIndex<Bson>, index: usize) -> Option<u8> {
    match ids.get(index) {
        Some(Bson::ObjectId(id)) => Some(id.bytes[11]),
        _ => None,
    }
}

/// Whether these are the ids of a row, and no more.
fn are_ids(ids: &ByIndex<Bson>, wanted: &[u8]) -> bool {
    if ids.len() != wanted.len() {
        return false;
    }
    for (index, last) in wanted.iter().enumerate() {
        if id_at(ids, index) != Some(*last) {
            return false;
        }
    }
    true
}

/// Whether the failures of an insert are those of a row.
fn are_failures(failures: &InsertManyError, row: &Row) -> bool {
    are_errors(&failures.write_errors, row.errors)
        && is_concern(&failures.write_concern_error, row)
        && are_ids(&failures.inserted_ids, row.ids)
}

/// Whether an error is of the kind of a row.
fn is_kind(kind: &ErrorKind, row: &Row) -> bool {
    match kind {
        ErrorKind::InsertMany(failures) => are_failures(failures.get(), row),
        _ => false,
    }
}

/// Whether an error has no source, no wire version and no reply.
fn is_bare(error: &Error) -> bool {
    error.source().is_none() && error.wire_version().is_none() && error.server_response().is_none()
}

/// Whether an error is that of a row, and has nothing else in it.
fn is_error(rt: &impl Abort, alloc: Global, error: &Error, row: &Row) -> bool {
    let labels = error.labels().sorted(alloc).made(rt);
    let labelled = are_labels(labels.as_slice(), row.labels);
    drop(labels);
    labelled && is_bare(error) && is_kind(error.kind(), row)
}

/// Whether an outcome has the error of a row.
fn is_told(rt: &impl Abort, alloc: Global, outcome: &Outcome, row: &Row) -> bool {
    match &outcome.result {
        Ok(_) => false,
        Err(error) => is_error(rt, alloc, error, row),
    }
}

/// Whether the insert of a row ends as it says.
fn ends(rt: &impl Abort, alloc: Global, row: &Row) -> bool {
    let link = fake_link(alloc, SMALL, &[Given::Reply(FIRST), Given::Reply(LAST)]).made(rt);
    let calls = calls(rt, alloc, row.ordered);
    let (outcomes, sent) = outcomes_over(alloc, link, calls.as_slice()).made(rt);
    drop(calls);
    let told = match outcomes.as_slice() {
        [outcome] => is_told(rt, alloc, outcome, row),
        _ => false,
    };
    drop(outcomes);
    told && sent == row.sends
}

#[test]
fn an_unordered_insert_has_the_failures_of_all_its_batches(rt: HostRuntime) {
    let ends = ends(&rt, rt.alloc(), &UNORDERED);
    holds(&rt, ends, "the failures of both batches");
}

#[test]
fn an_ordered_insert_has_the_failures_of_the_batch_that_ended_it(rt: HostRuntime) {
    let ends = ends(&rt, rt.alloc(), &ORDERED);
    holds(&rt, ends, "the failures of the first batch");
}
