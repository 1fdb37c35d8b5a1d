//! Updates and deletes over a fake link, by the bytes that they send: which fields their commands and statements
//! have, in which order, with every option and with none.
use crate::asserting::{Made, holds_at};
use bson_lite::{Boxed, Bson, Document, List, Text};
use driver_inputs::{DeleteWrite, InsertWrite, SingleWrite, UpdateWrite};
use driver_options::{
    Acknowledgment, DeleteOptions, Hint, InsertManyOptions, UpdateModifications, UpdateOptions,
    WriteConcern,
};
use std::alloc::Global;
use std::process::Abort;
use test_parts::faking::{ALIKE, ANY_DONE, Given, fake_link};
use test_parts::inserting::{Ended, answered_under, seen_end};
use test_parts::spelling::{
    FIRST_NUMBER, INSERTED, LAST, NOTE, ONE_NODE, SESSION, by_one_node, has_one_frame, joined,
    noted, one,
};
use test_parts::writes::{Concern, Kind, namespace, number, operators, text, two, usual, write_of};

/// `ordered: true`
const ORDERED: &[u8] = b"\x08ordered\0\x01";

/// `q: {x: 1}`
const FILTER: &[u8] = b"\x03q\0\x0c\0\0\0\x10x\0\x01\0\0\0\0";

/// `let: {v: 5}`
pub(crate) const VARIABLES: &[u8] = b"\x03let\0\x0c\0\0\0\x10v\0\x05\0\0\0\0";

/// `collation: {locale: "en"}`
pub(crate) const ENGLISH: &[u8] = b"\x03collation\0\x14\0\0\0\x02locale\0\x03\0\0\0en\0\0";

/// An `updateMany` with every option:
/// `{update: "items", bypassDocumentValidation: true, let: {v: 5}, comment: "note",
/// updates: [{q: {x: 1}, u: {$set: {y: 2}}, upsert: false, arrayFilters: [{e: 3}], hint: {x: 1},
/// collation: {locale: "en"}, sort: {x: -1}, multi: true}],
/// ordered: true, lsid: {id: UUID(..01)}, writeConcern: {w: 1}, $db: "shop"}`
const ALL_UPDATED: &[&[u8]] = &[
    b"\x60\x01\0\0",
    b"\x02update\0\x06\0\0\0items\0",
    b"\x08bypassDocumentValidation\0\x01",
    VARIABLES,
    NOTE,
    b"\x04updates\0\xac\0\0\0\x030\0\xa4\0\0\0",
    FILTER,
    b"\x03u\0\x17\0\0\0\x03$set\0\x0c\0\0\0\x10y\0\x02\0\0\0\0\0",
    b"\x08upsert\0\0",
    b"\x04arrayFilters\0\x14\0\0\0\x030\0\x0c\0\0\0\x10e\0\x03\0\0\0\0\0",
    b"\x03hint\0\x0c\0\0\0\x10x\0\x01\0\0\0\0",
    ENGLISH,
    b"\x03sort\0\x0c\0\0\0\x10x\0\xff\xff\xff\xff\0",
    b"\x08multi\0\x01",
    b"\0\0",
    ORDERED,
    SESSION,
    ONE_NODE,
    LAST,
];

/// A `deleteOne` with every option:
/// `{delete: "items", deletes: [{q: {x: 1}, limit: 1, collation: {locale: "en"}, hint: "x_1"}],
/// ordered: true, let: {v: 5}, comment: null, lsid: {id: UUID(..01)}, txnNumber: 1,
/// writeConcern: {w: "majority"}, $db: "shop"}`
const ONE_DELETED: &[&[u8]] = &[
    b"\0\x01\0\0",
    b"\x02delete\0\x06\0\0\0items\0",
    b"\x04deletes\0\x54\0\0\0\x030\0\x4c\0\0\0",
    FILTER,
    b"\x10limit\0\x01\0\0\0",
    ENGLISH,
    b"\x02hint\0\x04\0\0\0x_1\0",
    b"\0\0",
    ORDERED,
    VARIABLES,
    b"\x0acomment\0",
    SESSION,
    FIRST_NUMBER,
    b"\x03writeConcern\0\x15\0\0\0\x02w\0\x09\0\0\0majority\0\0",
    LAST,
];

/// An `updateOne` with a pipeline:
/// `{update: "items", updates: [{q: {x: 1}, u: [{$set: {y: 2}}, {$unset: "z"}]}], ordered: true,
/// lsid: {id: UUID(..01)}, txnNumber: 1, $db: "shop"}`
const PIPED: &[&[u8]] = &[
    b"\xc3\0\0\0",
    b"\x02update\0\x06\0\0\0items\0",
    b"\x04updates\0\x54\0\0\0\x030\0\x4c\0\0\0",
    FILTER,
    b"\x04u\0\x35\0\0\0",
    b"\x030\0\x17\0\0\0\x03$set\0\x0c\0\0\0\x10y\0\x02\0\0\0\0\0",
    b"\x031\0\x13\0\0\0\x02$unset\0\x02\0\0\0z\0\0\0",
    b"\0\0",
    ORDERED,
    SESSION,
    FIRST_NUMBER,
    LAST,
];

/// A `replaceOne` without options:
/// `{update: "items", updates: [{q: {x: 1}, u: {y: 2}}], ordered: true, lsid: {id: UUID(..01)},
/// txnNumber: 1, $db: "shop"}`
const REPLACED: &[&[u8]] = &[
    b"\x9a\0\0\0",
    b"\x02update\0\x06\0\0\0items\0",
    b"\x04updates\0\x2b\0\0\0\x030\0\x23\0\0\0",
    FILTER,
    b"\x03u\0\x0c\0\0\0\x10y\0\x02\0\0\0\0",
    b"\0\0",
    ORDERED,
    SESSION,
    FIRST_NUMBER,
    LAST,
];

/// A `deleteMany` without options:
/// `{delete: "items", deletes: [{q: {x: 1}, limit: 0}], ordered: true, lsid: {id: UUID(..01)}, $db: "shop"}`
const ALL_DELETED: &[&[u8]] = &[
    b"\x83\0\0\0",
    b"\x02delete\0\x06\0\0\0items\0",
    b"\x04deletes\0\x27\0\0\0\x030\0\x1f\0\0\0",
    FILTER,
    b"\x10limit\0\0\0\0\0",
    b"\0\0",
    ORDERED,
    SESSION,
    LAST,
];

/// A write whose bytes a row spells.
#[derive(Clone, Copy)]
enum Spelled {
    UpdateMany,
    DeleteOne,
    Pipeline,
    Replacement,
    DeleteMany,
    Insert,
}

/// Each write with the parts of its body, and how many sequences of documents go out beside it.
const ROWS: &[(Spelled, &[&[u8]], usize)] = &[
    (Spelled::UpdateMany, ALL_UPDATED, 0),
    (Spelled::DeleteOne, ONE_DELETED, 0),
    (Spelled::Pipeline, PIPED, 0),
    (Spelled::Replacement, REPLACED, 0),
    (Spelled::DeleteMany, ALL_DELETED, 0),
    (Spelled::Insert, INSERTED, 1),
];

/// How a row spells a hint.
#[derive(Clone, Copy)]
pub(crate) enum Hinted {
    /// `"x_1"`
    ByName,
    /// `{x: 1}`
    ByKeys,
}

/// A comment of a row.
#[derive(Clone, Copy)]
pub(crate) enum Said {
    Note,
    Null,
}

/// The options that all commands but an insert have.
#[derive(Drop)]
pub(crate) struct Shared {
    pub(crate) collation: Document,
    pub(crate) let_vars: Document,
    pub(crate) hint: Hint,
    pub(crate) comment: Bson,
}

fn hint_of(rt: &impl Abort, alloc: Global, hinted: Hinted) -> Hint {
    match hinted {
        Hinted::ByName => Hint::Name(Text::from_str(alloc, "x_1").made(rt)),
        Hinted::ByKeys => Hint::Keys(number(alloc, "x", 1).made(rt)),
    }
}

fn comment_of(rt: &impl Abort, alloc: Global, said: Said) -> Bson {
    match said {
        Said::Note => noted(alloc).made(rt),
        Said::Null => Bson::Null,
    }
}

/// Those of a row.
pub(crate) fn shared_options(rt: &impl Abort, alloc: Global, hinted: Hinted, said: Said) -> Shared {
    Shared {
        collation: text(alloc, "locale", "en").made(rt),
        let_vars: number(alloc, "v", 5).made(rt),
        hint: hint_of(rt, alloc, hinted),
        comment: comment_of(rt, alloc, said),
    }
}

/// `[{e: 3}]`
pub(crate) fn filters(rt: &impl Abort, alloc: Global) -> List<Document> {
    one(alloc, number(alloc, "e", 3).made(rt)).made(rt)
}

/// Every option of an update.
fn all_of_update(rt: &impl Abort, alloc: Global) -> UpdateOptions {
    let array_filters = filters(rt, alloc);
    let sort = number(alloc, "x", -1).made(rt);
    let Shared {
        collation,
        let_vars,
        hint,
        comment,
    } = shared_options(rt, alloc, Hinted::ByKeys, Said::Note);
    UpdateOptions {
        upsert: Some(false),
        array_filters: Some(array_filters),
        hint: Some(hint),
        collation: Some(collation),
        bypass_document_validation: Some(true),
        let_vars: Some(let_vars),
        comment: Some(comment),
        sort: Some(sort),
        write_concern: Some(by_one_node()),
    }
}

/// The update of all with every option.
fn update_of_all(rt: &impl Abort, alloc: Global) -> SingleWrite {
    SingleWrite::UpdateMany(UpdateWrite {
        namespace: namespace(alloc, "shop").made(rt),
        filter: number(alloc, "x", 1).made(rt),
        update: UpdateModifications::Document(operators(alloc, number(alloc, "y", 2).made(rt)).made(
            rt,
        )),
        options: Boxed::new(alloc, all_of_update(rt, alloc)).made(rt),
    })
}

/// Every option of a delete.
fn all_of_delete(rt: &impl Abort, alloc: Global) -> DeleteOptions {
    let Shared {
        collation,
        let_vars,
        hint,
        comment,
    } = shared_options(rt, alloc, Hinted::ByName, Said::Null);
    DeleteOptions {
        collation: Some(collation),
        hint: Some(hint),
        let_vars: Some(let_vars),
        comment: Some(comment),
        write_concern: Some(WriteConcern {
            w: Some(Acknowledgment::Majority),
            w_timeout: None,
            journal: None,
        }),
    }
}

/// The delete of one with every option.
fn delete_of_one(rt: &impl Abort, alloc: Global) -> SingleWrite {
    SingleWrite::DeleteOne(DeleteWrite {
        namespace: namespace(alloc, "shop").made(rt),
        filter: number(alloc, "x", 1).made(rt),
        options: Boxed::new(alloc, all_of_delete(rt, alloc)).made(rt),
    })
}

/// The update by a pipeline of two stages.
fn piped_update(rt: &impl Abort, alloc: Global) -> SingleWrite {
    let set = operators(alloc, number(alloc, "y", 2).made(rt)).made(rt);
    let unset = text(alloc, "$unset", "z").made(rt);
    let stages = two(alloc, set, unset).made(rt);
    SingleWrite::UpdateOne(UpdateWrite {
        namespace: namespace(alloc, "shop").made(rt),
        filter: number(alloc, "x", 1).made(rt),
        update: UpdateModifications::Pipeline(stages),
        options: Boxed::new(alloc, UpdateOptions::default()).made(rt),
    })
}

/// The insert with every option.
fn insert_of_one(rt: &impl Abort, alloc: Global) -> SingleWrite {
    SingleWrite::InsertOne(InsertWrite {
        namespace: namespace(alloc, "shop").made(rt),
        document: number(alloc, "y", 2).made(rt),
        options: InsertManyOptions {
            ordered: Some(false),
            bypass_document_validation: Some(true),
            comment: Some(noted(alloc).made(rt)),
            write_concern: Some(by_one_node()),
        },
    })
}

/// The write of a row.
fn write(rt: &impl Abort, alloc: Global, spelled: Spelled) -> SingleWrite {
    match spelled {
        Spelled::UpdateMany => update_of_all(rt, alloc),
        Spelled::DeleteOne => delete_of_one(rt, alloc),
        Spelled::Pipeline => piped_update(rt, alloc),
        Spelled::Replacement => write_of(alloc, usual(Kind::ReplaceOne), Concern::Unset).made(rt),
        Spelled::DeleteMany => write_of(alloc, usual(Kind::DeleteMany), Concern::Unset).made(rt),
        Spelled::Insert => insert_of_one(rt, alloc),
    }
}

/// Whether a write is done after one frame with this body and so many sequences.
pub(crate) fn sends(
    rt: &impl Abort,
    alloc: Global,
    write: SingleWrite,
    parts: &[&[u8]],
    sequences: usize,
) -> bool {
    let body = joined(alloc, parts).made(rt);
    let link = fake_link(alloc, ALIKE, &[Given::Reply(ANY_DONE)]).made(rt);
    let (result, link) = answered_under(alloc, link, &write, None);
    drop(write);
    let sent = has_one_frame(&link, body.as_slice(), sequences);
    drop(link);
    match seen_end(alloc, result) {
        Some(seen) => sent && seen.ended == Ended::Done,
        None => false,
    }
}

#[test]
fn a_command_has_the_fields_of_its_options_in_their_order(rt: HostRuntime) {
    for (at, (spelled, parts, sequences)) in ROWS.iter().enumerate() {
        let write = write(&rt, rt.alloc(), *spelled);
        let sent = sends(&rt, rt.alloc(), write, parts, *sequences);
        holds_at(&rt, sent, "the frame of a write", at);
    }
}
