//! The writes that answer a document, over a fake link, by the bytes that they send: which fields their command has,
//! in which order, with every option and with none.
use crate::asserting::{Made, holds_at};
use crate::statements::{ENGLISH, Hinted, Said, Shared, VARIABLES, filters, sends, shared_options};
use bson_lite::{Boxed, Document};
use driver_inputs::{FindAndDelete, FindAndReplace, FindAndUpdate, SingleWrite};
use driver_options::{
    Acknowledgment, FindOneAndDeleteOptions, FindOneAndReplaceOptions, FindOneAndUpdateOptions,
    ReturnDocument, UpdateModifications, WriteConcern,
};
use std::alloc::Global;
use std::process::Abort;
use test_parts::spelling::{FIRST_NUMBER, LAST, NOTE, ONE_NODE, SESSION, by_one_node};
use test_parts::writes::{Concern, Kind, namespace, number, operators, text, two, usual, write_of};

/// `findAndModify: "items", query: {x: 1}`
const FIRST: &[u8] =
    b"\x02findAndModify\0\x06\0\0\0items\0\x03query\0\x0c\0\0\0\x10x\0\x01\0\0\0\0";

/// `remove: true`
const REMOVED: &[u8] = b"\x08remove\0\x01";

/// `update: {$set: {y: 2}}`
const SET: &[u8] = b"\x03update\0\x17\0\0\0\x03$set\0\x0c\0\0\0\x10y\0\x02\0\0\0\0\0";

/// `update: {y: 2}`
const REPLACED: &[u8] = b"\x03update\0\x0c\0\0\0\x10y\0\x02\0\0\0\0";

/// `sort: {x: -1}`
const LAST_FIRST: &[u8] = b"\x03sort\0\x0c\0\0\0\x10x\0\xff\xff\xff\xff\0";

/// `fields: {y: 1}`
const FIELD: &[u8] = b"\x03fields\0\x0c\0\0\0\x10y\0\x01\0\0\0\0";

/// A `findOneAndUpdate` with every option:
/// `{findAndModify: "items", query: {x: 1}, update: {$set: {y: 2}}, sort: {x: -1}, new: true, upsert: false,
/// bypassDocumentValidation: true, arrayFilters: [{e: 3}], maxTimeMS: 250, fields: {y: 1},
/// collation: {locale: "en"}, hint: "x_1", let: {v: 5}, comment: "note", lsid: {id: UUID(..01)}, txnNumber: 1,
/// writeConcern: {w: 1}, $db: "shop"}`
const ALL_OF_UPDATE: &[&[u8]] = &[
    b"\x80\x01\0\0",
    FIRST,
    SET,
    LAST_FIRST,
    b"\x08new\0\x01",
    b"\x08upsert\0\0",
    b"\x08bypassDocumentValidation\0\x01",
    b"\x04arrayFilters\0\x14\0\0\0\x030\0\x0c\0\0\0\x10e\0\x03\0\0\0\0\0",
    b"\x10maxTimeMS\0\xfa\0\0\0",
    FIELD,
    ENGLISH,
    b"\x02hint\0\x04\0\0\0x_1\0",
    VARIABLES,
    NOTE,
    SESSION,
    FIRST_NUMBER,
    ONE_NODE,
    LAST,
];

/// A `findOneAndDelete` with every option, its time of 64 bits:
/// `{findAndModify: "items", query: {x: 1}, remove: true, sort: {x: -1}, maxTimeMS: 2147483648, fields: {y: 1},
/// collation: {locale: "en"}, hint: {x: 1}, let: {v: 5}, comment: null, lsid: {id: UUID(..01)}, txnNumber: 1,
/// writeConcern: {w: "majority"}, $db: "shop"}`
const ALL_OF_DELETE: &[&[u8]] = &[
    b"\x26\x01\0\0",
    FIRST,
    REMOVED,
    LAST_FIRST,
    b"\x12maxTimeMS\0\0\0\0\x80\0\0\0\0",
    FIELD,
    ENGLISH,
    b"\x03hint\0\x0c\0\0\0\x10x\0\x01\0\0\0\0",
    VARIABLES,
    b"\x0acomment\0",
    SESSION,
    FIRST_NUMBER,
    b"\x03writeConcern\0\x15\0\0\0\x02w\0\x09\0\0\0majority\0\0",
    LAST,
];

/// A `findOneAndReplace` with every option, its time the greatest of 32 bits:
/// `{findAndModify: "items", query: {x: 1}, update: {y: 2}, sort: {x: -1}, new: false, upsert: true,
/// bypassDocumentValidation: false, maxTimeMS: 2147483647, fields: {y: 1}, collation: {locale: "en"}, hint: {x: 1},
/// let: {v: 5}, comment: "note", lsid: {id: UUID(..01)}, txnNumber: 1, writeConcern: {w: 1}, $db: "shop"}`
const ALL_OF_REPLACE: &[&[u8]] = &[
    b"\x57\x01\0\0",
    FIRST,
    REPLACED,
    LAST_FIRST,
    b"\x08new\0\0",
    b"\x08upsert\0\x01",
    b"\x08bypassDocumentValidation\0\0",
    b"\x10maxTimeMS\0\xff\xff\xff\x7f",
    FIELD,
    ENGLISH,
    b"\x03hint\0\x0c\0\0\0\x10x\0\x01\0\0\0\0",
    VARIABLES,
    NOTE,
    SESSION,
    FIRST_NUMBER,
    ONE_NODE,
    LAST,
];

/// A `findOneAndUpdate` with a pipeline:
/// `{findAndModify: "items", query: {x: 1}, update: [{$set: {y: 2}}, {$unset: "z"}], lsid: {id: UUID(..01)},
/// txnNumber: 1, $db: "shop"}`
const PIPED: &[&[u8]] = &[
    b"\xb3\0\0\0",
    FIRST,
    b"\x04update\0\x35\0\0\0",
    b"\x030\0\x17\0\0\0\x03$set\0\x0c\0\0\0\x10y\0\x02\0\0\0\0\0",
    b"\x031\0\x13\0\0\0\x02$unset\0\x02\0\0\0z\0\0\0",
    SESSION,
    FIRST_NUMBER,
    LAST,
];

/// A `findOneAndDelete` without options:
/// `{findAndModify: "items", query: {x: 1}, remove: true, lsid: {id: UUID(..01)}, txnNumber: 1, $db: "shop"}`
const DELETED: &[&[u8]] = &[b"\x7f\0\0\0", FIRST, REMOVED, SESSION, FIRST_NUMBER, LAST];

/// A write whose bytes a row spells.
#[derive(Clone, Copy)]
enum Spelled {
    Update,
    Delete,
    Replacement,
    Pipeline,
    Plain,
}

/// Each write with the parts of its body.
const ROWS: &[(Spelled, &[&[u8]])] = &[
    (Spelled::Update, ALL_OF_UPDATE),
    (Spelled::Delete, ALL_OF_DELETE),
    (Spelled::Replacement, ALL_OF_REPLACE),
    (Spelled::Pipeline, PIPED),
    (Spelled::Plain, DELETED),
];

/// Which document is found, and what is told of it.
#[derive(Drop)]
struct Sought {
    sort: Document,
    projection: Document,
}

/// `{x: -1}` and `{y: 1}`
fn sought_by(rt: &impl Abort, alloc: Global) -> Sought {
    Sought {
        sort: number(alloc, "x", -1).made(rt),
        projection: number(alloc, "y", 1).made(rt),
    }
}

/// Every option of an update that answers a document.
fn all_of_update(rt: &impl Abort, alloc: Global) -> FindOneAndUpdateOptions {
    let array_filters = filters(rt, alloc);
    let Sought { sort, projection } = sought_by(rt, alloc);
    let Shared {
        collation,
        let_vars,
        hint,
        comment,
    } = shared_options(rt, alloc, Hinted::ByName, Said::Note);
    FindOneAndUpdateOptions {
        sort: Some(sort),
        return_document: Some(ReturnDocument::After),
        upsert: Some(false),
        bypass_document_validation: Some(true),
        array_filters: Some(array_filters),
        max_time: Some(250),
        projection: Some(projection),
        collation: Some(collation),
        hint: Some(hint),
        let_vars: Some(let_vars),
        comment: Some(comment),
        write_concern: Some(by_one_node()),
    }
}

/// The update with every option.
fn update(rt: &impl Abort, alloc: Global) -> SingleWrite {
    SingleWrite::FindOneAndUpdate(FindAndUpdate {
        namespace: namespace(alloc, "shop").made(rt),
        filter: number(alloc, "x", 1).made(rt),
        update: UpdateModifications::Document(operators(alloc, number(alloc, "y", 2).made(rt)).made(
            rt,
        )),
        options: Boxed::new(alloc, all_of_update(rt, alloc)).made(rt),
    })
}

/// Every option of a delete that answers a document.
fn all_of_delete(rt: &impl Abort, alloc: Global) -> FindOneAndDeleteOptions {
    let Sought { sort, projection } = sought_by(rt, alloc);
    let Shared {
        collation,
        let_vars,
        hint,
        comment,
    } = shared_options(rt, alloc, Hinted::ByKeys, Said::Null);
    FindOneAndDeleteOptions {
        sort: Some(sort),
        max_time: Some(2_147_483_648),
        projection: Some(projection),
        collation: Some(collation),
        hint: Some(hint),
        let_vars: Some(let_vars),
        comment: Some(comment),
        write_concern: Some(WriteConcern {
            w: Some(Acknowledgment::Majority),
            w_timeout: None,
            journal: None,
        }),
    }
}

/// The delete with every option.
fn delete(rt: &impl Abort, alloc: Global) -> SingleWrite {
    SingleWrite::FindOneAndDelete(FindAndDelete {
        namespace: namespace(alloc, "shop").made(rt),
        filter: number(alloc, "x", 1).made(rt),
        options: Boxed::new(alloc, all_of_delete(rt, alloc)).made(rt),
    })
}

/// Every option of a replacement that answers a document.
fn all_of_replace(rt: &impl Abort, alloc: Global) -> FindOneAndReplaceOptions {
    let Sought { sort, projection } = sought_by(rt, alloc);
    let Shared {
        collation,
        let_vars,
        hint,
        comment,
    } = shared_options(rt, alloc, Hinted::ByKeys, Said::Note);
    FindOneAndReplaceOptions {
        sort: Some(sort),
        return_document: Some(ReturnDocument::Before),
        upsert: Some(true),
        bypass_document_validation: Some(false),
        max_time: Some(2_147_483_647),
        projection: Some(projection),
        collation: Some(collation),
        hint: Some(hint),
        let_vars: Some(let_vars),
        comment: Some(comment),
        write_concern: Some(by_one_node()),
    }
}

/// The replacement with every option.
fn replacement(rt: &impl Abort, alloc: Global) -> SingleWrite {
    SingleWrite::FindOneAndReplace(FindAndReplace {
        namespace: namespace(alloc, "shop").made(rt),
        filter: number(alloc, "x", 1).made(rt),
        replacement: number(alloc, "y", 2).made(rt),
        options: Boxed::new(alloc, all_of_replace(rt, alloc)).made(rt),
    })
}

/// The update by a pipeline of two stages.
fn piped_update(rt: &impl Abort, alloc: Global) -> SingleWrite {
    let set = operators(alloc, number(alloc, "y", 2).made(rt)).made(rt);
    let unset = text(alloc, "$unset", "z").made(rt);
    let stages = two(alloc, set, unset).made(rt);
    SingleWrite::FindOneAndUpdate(FindAndUpdate {
        namespace: namespace(alloc, "shop").made(rt),
        filter: number(alloc, "x", 1).made(rt),
        update: UpdateModifications::Pipeline(stages),
        options: Boxed::new(alloc, FindOneAndUpdateOptions::default()).made(rt),
    })
}

/// The write of a row.
fn write(rt: &impl Abort, alloc: Global, spelled: Spelled) -> SingleWrite {
    match spelled {
        Spelled::Update => update(rt, alloc),
        Spelled::Delete => delete(rt, alloc),
        Spelled::Replacement => replacement(rt, alloc),
        Spelled::Pipeline => piped_update(rt, alloc),
        Spelled::Plain => write_of(alloc, usual(Kind::FindOneAndDelete), Concern::Unset).made(rt),
    }
}

#[test]
fn a_find_and_modify_has_the_fields_of_its_options_in_their_order(rt: HostRuntime) {
    for (at, (spelled, parts)) in ROWS.iter().enumerate() {
        let write = write(&rt, rt.alloc(), *spelled);
        let sent = sends(&rt, rt.alloc(), write, parts, 0);
        holds_at(
            &rt,
            sent,
            "the frame of a write that answers a document",
            at,
        );
    }
}
