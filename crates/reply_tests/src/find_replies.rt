//! Replies to findAndModify over a fake link: the document that they tell, or none, the failures, and the forms that
//! are refused.
use crate::asserting::alike;
use crate::write_replies::{BARE, FoundDocument, REFUSED, Row, Told, told_of};
use test_parts::inserting::Ended;
use test_parts::writes::Kind;

/// `{ok: 1, value: {a: 1}}`
const FOUND: &[u8] = b"\x20\0\0\0\x10ok\0\x01\0\0\0\x03value\0\x0c\0\0\0\x10a\0\x01\0\0\0\0\0";

/// `{ok: 1, value: null}`
const NONE_FOUND: &[u8] = b"\x14\0\0\0\x10ok\0\x01\0\0\0\x0avalue\0\0";

/// `{ok: 1, value: {}}`
const EMPTY_FOUND: &[u8] = b"\x19\0\0\0\x10ok\0\x01\0\0\0\x03value\0\x05\0\0\0\0\0";

/// `{lastErrorObject: {n: 1}, value: {a: 2}, ok: 1.0}`, as servers answer
const LONG: &[u8] =
    b"\x41\0\0\0\x03lastErrorObject\0\x0c\0\0\0\x10n\0\x01\0\0\0\0\x03value\0\x0c\0\0\0\x10a\0\x02\0\0\0\0\x01ok\0\0\0\0\0\0\0\xf0\x3f\0";

/// `{ok: 1, n: 1}`
const COUNTED: &[u8] = b"\x14\0\0\0\x10ok\0\x01\0\0\0\x10n\0\x01\0\0\0\0";

/// `{ok: 1, value: 1}`
const NUMBER: &[u8] = b"\x18\0\0\0\x10ok\0\x01\0\0\0\x10value\0\x01\0\0\0\0";

/// `{ok: 1, value: "a"}`
const TEXT: &[u8] = b"\x1a\0\0\0\x10ok\0\x01\0\0\0\x02value\0\x02\0\0\0a\0\0";

/// `{ok: 1, value: false}`
const FLAG: &[u8] = b"\x15\0\0\0\x10ok\0\x01\0\0\0\x08value\0\0\0";

/// `{ok: 1, value: [{a: 1}]}`
const LIST: &[u8] =
    b"\x28\0\0\0\x10ok\0\x01\0\0\0\x04value\0\x14\0\0\0\x030\0\x0c\0\0\0\x10a\0\x01\0\0\0\0\0\0";

/// `{ok: 1, value: []}`
const EMPTY_LIST: &[u8] = b"\x19\0\0\0\x10ok\0\x01\0\0\0\x04value\0\x05\0\0\0\0\0";

/// `{ok: 1, value: null, writeErrors: [{index: 0, code: 11000, errmsg: "dup"}]}`
const DUPLICATE: &[u8] =
    b"\x53\0\0\0\x10ok\0\x01\0\0\0\x0avalue\0\x04writeErrors\0\x32\0\0\0\x030\0\x2a\0\0\0\x10index\0\0\0\0\0\x10code\0\xf8\x2a\0\0\x02errmsg\0\x04\0\0\0dup\0\0\0\0";

/// `{ok: 1, writeErrors: [{index: 0, code: 11000, errmsg: "dup"}]}`
const DUPLICATE_ALONE: &[u8] =
    b"\x4c\0\0\0\x10ok\0\x01\0\0\0\x04writeErrors\0\x32\0\0\0\x030\0\x2a\0\0\0\x10index\0\0\0\0\0\x10code\0\xf8\x2a\0\0\x02errmsg\0\x04\0\0\0dup\0\0\0\0";

/// `{ok: 1, value: {a: 1}, writeConcernError: {code: 64, errmsg: "late"}}`
const UNMET: &[u8] =
    b"\x53\0\0\0\x10ok\0\x01\0\0\0\x03value\0\x0c\0\0\0\x10a\0\x01\0\0\0\0\x03writeConcernError\0\x20\0\0\0\x10code\0\x40\0\0\0\x02errmsg\0\x05\0\0\0late\0\0\0";

/// `{ok: 1, value: null, writeErrors: [{index: 0, code: 11000, errmsg: "dup"}],
/// writeConcernError: {code: 64, errmsg: "late"}}`
const BOTH: &[u8] =
    b"\x86\0\0\0\x10ok\0\x01\0\0\0\x0avalue\0\x04writeErrors\0\x32\0\0\0\x030\0\x2a\0\0\0\x10index\0\0\0\0\0\x10code\0\xf8\x2a\0\0\x02errmsg\0\x04\0\0\0dup\0\0\0\x03writeConcernError\0\x20\0\0\0\x10code\0\x40\0\0\0\x02errmsg\0\x05\0\0\0late\0\0\0";

/// `{ok: 1, value: null, writeConcernError: {code: 64, errmsg: "late"}, errorLabels: ["told"]}`
const LABELLED: &[u8] =
    b"\x65\0\0\0\x10ok\0\x01\0\0\0\x0avalue\0\x03writeConcernError\0\x20\0\0\0\x10code\0\x40\0\0\0\x02errmsg\0\x05\0\0\0late\0\0\x04errorLabels\0\x11\0\0\0\x020\0\x05\0\0\0told\0\0\0";

/// The calls, the replies to them, and what they tell.
const REPLIES: &[Row] = &[
    Row {
        kind: Kind::FindOneAndDelete,
        name: "found",
        reply: FOUND,
        told: Told::Found(FoundDocument::Number(1)),
    },
    Row {
        kind: Kind::FindOneAndUpdate,
        name: "found",
        reply: FOUND,
        told: Told::Found(FoundDocument::Number(1)),
    },
    Row {
        kind: Kind::FindOneAndReplace,
        name: "found",
        reply: FOUND,
        told: Told::Found(FoundDocument::Number(1)),
    },
    Row {
        kind: Kind::FindOneAndUpdate,
        name: "long",
        reply: LONG,
        told: Told::Found(FoundDocument::Number(2)),
    },
    Row {
        kind: Kind::FindOneAndDelete,
        name: "none found",
        reply: NONE_FOUND,
        told: Told::Found(FoundDocument::None),
    },
    Row {
        kind: Kind::FindOneAndReplace,
        name: "none found",
        reply: NONE_FOUND,
        told: Told::Found(FoundDocument::None),
    },
    Row {
        kind: Kind::FindOneAndUpdate,
        name: "empty found",
        reply: EMPTY_FOUND,
        told: Told::Found(FoundDocument::Empty),
    },
    Row {
        kind: Kind::FindOneAndDelete,
        name: "bare",
        reply: BARE,
        told: Told::Failed(Ended::InvalidResponse),
    },
    Row {
        kind: Kind::FindOneAndUpdate,
        name: "counted",
        reply: COUNTED,
        told: Told::Failed(Ended::InvalidResponse),
    },
    Row {
        kind: Kind::FindOneAndDelete,
        name: "number",
        reply: NUMBER,
        told: Told::Failed(Ended::InvalidResponse),
    },
    Row {
        kind: Kind::FindOneAndReplace,
        name: "text",
        reply: TEXT,
        told: Told::Failed(Ended::InvalidResponse),
    },
    Row {
        kind: Kind::FindOneAndUpdate,
        name: "flag",
        reply: FLAG,
        told: Told::Failed(Ended::InvalidResponse),
    },
    Row {
        kind: Kind::FindOneAndDelete,
        name: "list",
        reply: LIST,
        told: Told::Failed(Ended::InvalidResponse),
    },
    Row {
        kind: Kind::FindOneAndUpdate,
        name: "empty list",
        reply: EMPTY_LIST,
        told: Told::Failed(Ended::InvalidResponse),
    },
    Row {
        kind: Kind::FindOneAndUpdate,
        name: "duplicate",
        reply: DUPLICATE,
        told: Told::Failed(Ended::WriteError(11000)),
    },
    Row {
        kind: Kind::FindOneAndUpdate,
        name: "duplicate alone",
        reply: DUPLICATE_ALONE,
        told: Told::Failed(Ended::InvalidResponse),
    },
    Row {
        kind: Kind::FindOneAndDelete,
        name: "unmet",
        reply: UNMET,
        told: Told::Failed(Ended::ConcernError(64)),
    },
    Row {
        kind: Kind::FindOneAndReplace,
        name: "both",
        reply: BOTH,
        told: Told::Failed(Ended::WriteError(11000)),
    },
    Row {
        kind: Kind::FindOneAndUpdate,
        name: "labelled",
        reply: LABELLED,
        told: Told::Labelled(Ended::ConcernError(64)),
    },
    Row {
        kind: Kind::FindOneAndReplace,
        name: "refused",
        reply: REFUSED,
        told: Told::Failed(Ended::Command(13)),
    },
];

#[test]
fn a_find_and_modify_tells_the_document_of_its_reply(rt: HostRuntime) {
    for row in REPLIES {
        let found = told_of(&rt, rt.alloc(), row.kind, row.reply);
        alike(&rt, (row.kind, found), (row.kind, Some(row.told)), row.name);
    }
}
