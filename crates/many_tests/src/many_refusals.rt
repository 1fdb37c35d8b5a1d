//! Inserts of many documents over a link that would answer each one: what is refused for its input before an id is
//! drawn or anything sent, which fault is told first, and which ids are drawn.
use crate::asserting::{Made, holds, holds_at};
use bson_lite::{Bson, Document, List};
use driver_error::InsertManyResult;
use driver_inputs::{Answer, Call, Outcome};
use driver_options::InsertManyOptions;
use std::alloc::Global;
use std::process::Abort;
use test_parts::faking::{ALIKE, Given, fake_link, outcomes_over};
use test_parts::inserting::{Ended, how_ended, label_count};
use test_parts::writes::{Flaw, flawed, namespace, number};

/// `{ok: 1, n: 2}`
const TWO_DONE: &[u8] = b"\x14\0\0\0\x10ok\0\x01\0\0\0\x10n\0\x02\0\0\0\0";

/// `{ok: 1, n: 3}`
const THREE_DONE: &[u8] = b"\x14\0\0\0\x10ok\0\x01\0\0\0\x10n\0\x03\0\0\0\0";

/// A document of a list.
#[derive(Clone, Copy)]
enum Item {
    /// `{x: 1}`
    Plain,
    /// `{_id: 1}`
    Named,
    Odd(Flaw),
}

/// An insert of a list: whether its database is `a.b` and not `shop`, its documents, the flaw of its comment, and how
/// it ends.
#[derive(Clone, Copy)]
struct Row {
    dotted: bool,
    items: &'static [Item],
    comment: Option<Flaw>,
    ended: Ended,
}

/// No document comes before the name, the name before what is too deep, and that before a zero byte, in whichever
/// document or comment each is. Those that are done have two documents.
const ROWS: &[Row] = &[
    Row {
        dotted: false,
        items: &[],
        comment: None,
        ended: Ended::NoneGiven,
    },
    Row {
        dotted: true,
        items: &[],
        comment: None,
        ended: Ended::NoneGiven,
    },
    Row {
        dotted: true,
        items: &[Item::Odd(Flaw::Levels(97))],
        comment: None,
        ended: Ended::Dotted,
    },
    Row {
        dotted: false,
        items: &[Item::Odd(Flaw::Levels(96)), Item::Named],
        comment: None,
        ended: Ended::Done,
    },
    Row {
        dotted: false,
        items: &[Item::Plain, Item::Odd(Flaw::Levels(97))],
        comment: None,
        ended: Ended::TooDeep,
    },
    Row {
        dotted: false,
        items: &[Item::Odd(Flaw::ZeroByte), Item::Plain],
        comment: None,
        ended: Ended::ZeroByte,
    },
    Row {
        dotted: false,
        items: &[Item::Odd(Flaw::ZeroByte), Item::Odd(Flaw::Levels(97))],
        comment: None,
        ended: Ended::TooDeep,
    },
    Row {
        dotted: false,
        items: &[Item::Odd(Flaw::ZeroByte), Item::Plain],
        comment: Some(Flaw::Levels(97)),
        ended: Ended::TooDeep,
    },
    Row {
        dotted: false,
        items: &[Item::Plain, Item::Plain],
        comment: Some(Flaw::ZeroByte),
        ended: Ended::ZeroByte,
    },
    Row {
        dotted: false,
        items: &[Item::Plain, Item::Plain],
        comment: Some(Flaw::Levels(96)),
        ended: Ended::Done,
    },
];

/// A list that is refused for its second document.
const REFUSED: Row = Row {
    dotted: false,
    items: &[Item::Plain, Item::Odd(Flaw::ZeroByte)],
    comment: None,
    ended: Ended::ZeroByte,
};

/// A list whose second document alone has an id.
const MIXED: Row = Row {
    dotted: false,
    items: &[Item::Plain, Item::Named, Item::Plain],
    comment: None,
    ended: Ended::Done,
};

/// A document of a list.
fn document_of(rt: &impl Abort, alloc: Global, item: Item) -> Document {
    match item {
        Item::Plain => number(alloc, "x", 1).made(rt),
        Item::Named => number(alloc, "_id", 1).made(rt),
        Item::Odd(flaw) => flawed(alloc, flaw).made(rt),
    }
}

/// The documents of a list.
fn documents_of(rt: &impl Abort, alloc: Global, items: &[Item]) -> List<Document> {
    let mut documents = List::with_capacity(alloc, items.len()).made(rt);
    for item in items {
        documents.push(document_of(rt, alloc, *item)).made(rt);
    }
    documents
}

/// The comment of a row.
fn comment_of(rt: &impl Abort, alloc: Global, flaw: Option<Flaw>) -> Option<Bson> {
    match flaw {
        Some(flaw) => Some(Bson::Document(flawed(alloc, flaw).made(rt))),
        None => None,
    }
}

/// The call of a row.
fn call_of(rt: &impl Abort, alloc: Global, row: Row) -> Call {
    let db = if row.dotted { "a.b" } else { "shop" };
    Call::InsertMany {
        namespace: namespace(alloc, db).made(rt),
        documents: documents_of(rt, alloc, row.items),
        options: InsertManyOptions {
            ordered: None,
            bypass_document_validation: None,
            comment: comment_of(rt, alloc, row.comment),
            write_concern: None,
        },
    }
}

/// The calls of rows.
fn calls_of(rt: &impl Abort, alloc: Global, rows: &[Row]) -> List<Call> {
    let mut calls = List::with_capacity(alloc, rows.len()).made(rt);
    for row in rows {
        calls.push(call_of(rt, alloc, *row)).made(rt);
    }
    calls
}

/// Whether an outcome is an end without labels.
fn is_end(alloc: Global, outcome: &Outcome, ended: Ended) -> bool {
    match &outcome.result {
        Ok(_) => ended == Ended::Done,
        Err(error) => how_ended(error) == ended && label_count(alloc, error) == Some(0),
    }
}

/// Whether the insert of a row ends as it says, without labels: it is sent once where it is done, and else not at
/// all.
fn ends(rt: &impl Abort, alloc: Global, row: Row) -> bool {
    let link = fake_link(alloc, ALIKE, &[Given::Reply(TWO_DONE)]).made(rt);
    let calls = calls_of(rt, alloc, &[row]);
    let (outcomes, sent) = outcomes_over(alloc, link, calls.as_slice()).made(rt);
    drop(calls);
    let told = match outcomes.as_slice() {
        [outcome] => is_end(alloc, outcome, row.ended),
        _ => false,
    };
    drop(outcomes);
    let wanted = if row.ended == Ended::Done { 1 } else { 0 };
    told && sent == wanted
}

/// The last byte of the object id at an index, or none where there is another value.
fn id_at(done: &InsertManyResult, index: usize) -> Option<u8> {
    match done.inserted_ids.get(index) {
        Some(Bson::ObjectId(id)) => Some(id.bytes[11]),
        _ => None,
    }
}

/// Whether an outcome has the first object id, the document's own, and the second object id.
fn has_its_ids(outcome: &Outcome) -> bool {
    match &outcome.result {
        Ok(Answer::Many(done)) => {
            id_at(done, 0) == Some(1)
                && matches!(done.inserted_ids.get(1), Some(Bson::Int32(1)))
                && id_at(done, 2) == Some(2)
                && done.inserted_ids.len() == 3
        }
        _ => false,
    }
}

/// Whether a list that is refused draws no id, and the next one draws an id for each document without one, in order.
fn draws_in_order(rt: &impl Abort, alloc: Global) -> bool {
    let link = fake_link(alloc, ALIKE, &[Given::Reply(THREE_DONE)]).made(rt);
    let calls = calls_of(rt, alloc, &[REFUSED, MIXED]);
    let (outcomes, sent) = outcomes_over(alloc, link, calls.as_slice()).made(rt);
    drop(calls);
    let drawn = match outcomes.as_slice() {
        [refused, done] => is_end(alloc, refused, Ended::ZeroByte) && has_its_ids(done),
        _ => false,
    };
    drop(outcomes);
    drawn && sent == 1
}

#[test]
fn lists_are_refused_for_their_input_in_order(rt: HostRuntime) {
    for (at, row) in ROWS.iter().enumerate() {
        let ends = ends(&rt, rt.alloc(), *row);
        holds_at(&rt, ends, "how the insert of each list ends", at);
    }
}

#[test]
fn ids_are_drawn_in_order_for_documents_without_one(rt: HostRuntime) {
    let drawn = draws_in_order(&rt, rt.alloc());
    holds(&rt, drawn, "the ids of a list behind one that is refused");
}
