//! The first document of the cursor in a reply, form by form.
use crate::asserting::{Made, alike};
use bson_lite::{Bson, Document, List};
use driver_error::ErrorKind;
use driver_ops::SingleCursorResult;
use std::alloc::Global;
use std::process::Abort;
use test_parts::bulk_ends::let_go;
use test_parts::bulk_models::number;

/// What stands under `cursor`.
#[derive(Clone, Copy)]
enum Given {
    /// Nothing.
    Missing,
    /// The number 7.
    Number,
    /// A document without `firstBatch`.
    Bare,
    /// `{firstBatch: 7}`
    NoArray,
    /// `{firstBatch: []}`
    Empty,
    /// `{firstBatch: [{a: 1}, 7]}`
    First,
    /// `{firstBatch: [7, {a: 1}]}`
    Second,
}

/// What it comes to.
#[derive(Clone, Copy, Debug, PartialEq, Eq)]
enum Found {
    None,
    One,
    Refused,
    Other,
}

const ROWS: &[(Given, Found)] = &[
    (Given::Missing, Found::Refused),
    (Given::Number, Found::Refused),
    (Given::Bare, Found::Refused),
    (Given::NoArray, Found::Refused),
    (Given::Empty, Found::None),
    (Given::First, Found::One),
    (Given::Second, Found::Refused),
];

/// The documents of a page.
fn page(rt: &impl Abort, alloc: Global, given: Given) -> List<Bson> {
    let mut values = List::new(alloc);
    match given {
        Given::First => {
            values
                .push(Bson::Document(number(alloc, "a", 1).made(rt)))
                .made(rt);
            values.push(Bson::Int32(7)).made(rt);
        }
        Given::Second => {
            values.push(Bson::Int32(7)).made(rt);
            values
                .push(Bson::Document(number(alloc, "a", 1).made(rt)))
                .made(rt);
        }
        _ => {}
    }
    values
}

/// A reply with this cursor.
fn reply(rt: &impl Abort, alloc: Global, given: Given) -> Document {
    let mut cursor = Document::new(alloc);
    match given {
        Given::Missing => return cursor,
        Given::Number => return number(alloc, "cursor", 7).made(rt),
        Given::Bare => {}
        Given::NoArray => cursor.push("firstBatch", Bson::Int32(7)).made(rt),
        _ => cursor
            .push("firstBatch", Bson::Array(page(rt, alloc, given)))
            .made(rt),
    }
    let mut reply = Document::new(alloc);
    reply.push("cursor", Bson::Document(cursor)).made(rt);
    reply
}

/// What a reply comes to.
fn found_in(rt: &impl Abort, alloc: Global, given: Given) -> Found {
    let reply = reply(rt, alloc, given);
    let found = match SingleCursorResult::from_reply(alloc, &reply) {
        Ok(SingleCursorResult { first: None }) => Found::None,
        Ok(SingleCursorResult { first: Some(first) }) => match first.get("a") {
            Some(Bson::Int32(1)) => Found::One,
            _ => Found::Other,
        },
        Err(error) => {
            let refused = match error.kind() {
                ErrorKind::InvalidResponse { .. } => Found::Refused,
                _ => Found::Other,
            };
            let_go(error);
            refused
        }
    };
    drop(reply);
    found
}

#[test]
fn the_first_document_of_a_cursor_is_taken(rt: HostRuntime) {
    for (at, (given, wanted)) in ROWS.iter().enumerate() {
        let found = found_in(&rt, rt.alloc(), *given);
        alike(
            &rt,
            (at, found),
            (at, *wanted),
            "the first document of a cursor, by its row",
        );
    }
}
