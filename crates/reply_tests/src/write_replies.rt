//! Replies to updates, deletes and an unordered insert over a fake link: the counts and the failures that they
//! tell, and the forms that are refused.
use crate::asserting::{Made, alike};
use bson_lite::{Bson, Document};
use driver_error::{Error, Result, UpdateResult};
use driver_inputs::{InsertWrite, SingleAnswer, SingleWrite};
use driver_options::InsertManyOptions;
use memory_links::FakeLink;
use std::alloc::Global;
use std::process::Abort;
use test_parts::faking::{ALIKE, CHANGED, DONE, Given, fake_link};
use test_parts::inserting::{Ended, answered_under, how_ended};
use test_parts::writes::{Concern, Kind, namespace, number, usual, write_of};

/// `{ok: 1, n: 3, nModified: 2}`
const THREE_FOUND: &[u8] =
    b"\x23\0\0\0\x10ok\0\x01\0\0\0\x10n\0\x03\0\0\0\x10nModified\0\x02\0\0\0\0";

/// The same as numbers of 64 bits.
const LONG_COUNTS: &[u8] =
    b"\x2f\0\0\0\x12ok\0\x01\0\0\0\0\0\0\0\x12n\0\x03\0\0\0\0\0\0\0\x12nModified\0\x02\0\0\0\0\0\0\0\0";

/// `{ok: 1.0, n: 1.0, nModified: 0.0}`
const DOUBLES: &[u8] =
    b"\x2f\0\0\0\x01ok\0\0\0\0\0\0\0\xf0\x3f\x01n\0\0\0\0\0\0\0\xf0\x3f\x01nModified\0\0\0\0\0\0\0\0\0\0";

/// `{ok: 1, n: 3.0, nModified: 1}`
const DOUBLE_THREE: &[u8] =
    b"\x27\0\0\0\x10ok\0\x01\0\0\0\x01n\0\0\0\0\0\0\0\x08\x40\x10nModified\0\x01\0\0\0\0";

/// `{ok: 1, n: 1, nModified: 0, upserted: [{index: 0, _id: 7}]}`
const PUT_IN: &[u8] =
    b"\x4e\0\0\0\x10ok\0\x01\0\0\0\x10n\0\x01\0\0\0\x10nModified\0\0\0\0\0\x04upserted\0\x21\0\0\0\x030\0\x19\0\0\0\x10index\0\0\0\0\0\x10_id\0\x07\0\0\0\0\0\0";

/// `{ok: 1, n: 3, nModified: 2, upserted: []}`
const NONE_PUT_IN: &[u8] =
    b"\x32\0\0\0\x10ok\0\x01\0\0\0\x10n\0\x03\0\0\0\x10nModified\0\x02\0\0\0\x04upserted\0\x05\0\0\0\0\0";

/// `{ok: 1, n: 3, nModified: 2, upserted: [{index: 0}]}`
const PUT_IN_WITHOUT_ID: &[u8] =
    b"\x45\0\0\0\x10ok\0\x01\0\0\0\x10n\0\x03\0\0\0\x10nModified\0\x02\0\0\0\x04upserted\0\x18\0\0\0\x030\0\x10\0\0\0\x10index\0\0\0\0\0\0\0\0";

/// `{ok: 1, nModified: 1}`
const UNCOUNTED: &[u8] = b"\x1c\0\0\0\x10ok\0\x01\0\0\0\x10nModified\0\x01\0\0\0\0";

/// `{ok: 1, n: "3", nModified: 1}`
const TEXT: &[u8] =
    b"\x25\0\0\0\x10ok\0\x01\0\0\0\x02n\0\x02\0\0\x003\0\x10nModified\0\x01\0\0\0\0";

/// `{ok: 1, n: null, nModified: 1}`
const NULL: &[u8] = b"\x1f\0\0\0\x10ok\0\x01\0\0\0\x0an\0\x10nModified\0\x01\0\0\0\0";

/// `{ok: 1, n: -1, nModified: 1}`
const NEGATIVE: &[u8] =
    b"\x23\0\0\0\x10ok\0\x01\0\0\0\x10n\0\xff\xff\xff\xff\x10nModified\0\x01\0\0\0\0";

/// `{ok: 1, n: 1, nModified: -1}`
const NEGATIVELY_CHANGED: &[u8] =
    b"\x23\0\0\0\x10ok\0\x01\0\0\0\x10n\0\x01\0\0\0\x10nModified\0\xff\xff\xff\xff\0";

/// `{ok: 1, n: 4294967296}`, of 64 bits
const MANY: &[u8] = b"\x18\0\0\0\x10ok\0\x01\0\0\0\x12n\0\0\0\0\0\x01\0\0\0\0";

/// `{ok: 1, n: 0}`
const NONE_FOUND: &[u8] = b"\x14\0\0\0\x10ok\0\x01\0\0\0\x10n\0\0\0\0\0\0";

/// `{ok: 1}`
pub(crate) const BARE: &[u8] = b"\x0d\0\0\0\x10ok\0\x01\0\0\0\0";

/// `{ok: 0, code: 13, errmsg: "x"}`
pub(crate) const REFUSED: &[u8] =
    b"\x25\0\0\0\x10ok\0\0\0\0\0\x10code\0\x0d\0\0\0\x02errmsg\0\x02\0\0\0x\0\0";

/// `{ok: 1, n: 0, nModified: 0, writeErrors: [{index: 0, code: 11000, errmsg: "dup"}]}`
const DUPLICATE: &[u8] =
    b"\x62\0\0\0\x10ok\0\x01\0\0\0\x10n\0\0\0\0\0\x10nModified\0\0\0\0\0\x04writeErrors\0\x32\0\0\0\x030\0\x2a\0\0\0\x10index\0\0\0\0\0\x10code\0\xf8\x2a\0\0\x02errmsg\0\x04\0\0\0dup\0\0\0\0";

/// `{ok: 1, n: 1, nModified: 1, writeConcernError: {code: 64, errmsg: "late"}}`
const UNMET: &[u8] =
    b"\x56\0\0\0\x10ok\0\x01\0\0\0\x10n\0\x01\0\0\0\x10nModified\0\x01\0\0\0\x03writeConcernError\0\x20\0\0\0\x10code\0\x40\0\0\0\x02errmsg\0\x05\0\0\0late\0\0\0";

/// `{ok: 1, n: 0, nModified: 0, writeErrors: [{index: 0, code: 11000, errmsg: "dup"}],
/// writeConcernError: {code: 64, errmsg: "late"}}`
const BOTH: &[u8] =
    b"\x95\0\0\0\x10ok\0\x01\0\0\0\x10n\0\0\0\0\0\x10nModified\0\0\0\0\0\x04writeErrors\0\x32\0\0\0\x030\0\x2a\0\0\0\x10index\0\0\0\0\0\x10code\0\xf8\x2a\0\0\x02errmsg\0\x04\0\0\0dup\0\0\0\x03writeConcernError\0\x20\0\0\0\x10code\0\x40\0\0\0\x02errmsg\0\x05\0\0\0late\0\0\0";

/// `{ok: 1, n: 0, nModified: 0, writeErrors: [{index: 0, code: 11000, errmsg: "dup"},
/// {index: 0, code: 8, errmsg: "x"}]}`
const TWO_ERRORS: &[u8] =
    b"\x8d\0\0\0\x10ok\0\x01\0\0\0\x10n\0\0\0\0\0\x10nModified\0\0\0\0\0\x04writeErrors\0\x5d\0\0\0\x030\0\x2a\0\0\0\x10index\0\0\0\0\0\x10code\0\xf8\x2a\0\0\x02errmsg\0\x04\0\0\0dup\0\0\x031\0\x28\0\0\0\x10index\0\0\0\0\0\x10code\0\x08\0\0\0\x02errmsg\0\x02\0\0\0x\0\0\0\0";

/// `{ok: 1, n: 1, nModified: 1, writeErrors: []}`
const NO_ERRORS: &[u8] =
    b"\x35\0\0\0\x10ok\0\x01\0\0\0\x10n\0\x01\0\0\0\x10nModified\0\x01\0\0\0\x04writeErrors\0\x05\0\0\0\0\0";

/// `{ok: 1, n: 0, nModified: 0, writeErrors: [{index: 0, code: 11000, errmsg: "dup"}], errorLabels: ["told"]}`
const LABELLED: &[u8] =
    b"\x80\0\0\0\x10ok\0\x01\0\0\0\x10n\0\0\0\0\0\x10nModified\0\0\0\0\0\x04writeErrors\0\x32\0\0\0\x030\0\x2a\0\0\0\x10index\0\0\0\0\0\x10code\0\xf8\x2a\0\0\x02errmsg\0\x04\0\0\0dup\0\0\0\x04errorLabels\0\x11\0\0\0\x020\0\x05\0\0\0told\0\0\0";

/// `{ok: 1, n: 1, writeErrors: [{index: 0, code: 11000, errmsg: "dup"}]}`
const COUNTED_ERROR: &[u8] =
    b"\x53\0\0\0\x10ok\0\x01\0\0\0\x10n\0\x01\0\0\0\x04writeErrors\0\x32\0\0\0\x030\0\x2a\0\0\0\x10index\0\0\0\0\0\x10code\0\xf8\x2a\0\0\x02errmsg\0\x04\0\0\0dup\0\0\0\0";

/// `{ok: 1, n: 0, writeErrors: [{index: 1, code: 11000, errmsg: "dup"}]}`
const STRANGE_INDEX: &[u8] =
    b"\x53\0\0\0\x10ok\0\x01\0\0\0\x10n\0\0\0\0\0\x04writeErrors\0\x32\0\0\0\x030\0\x2a\0\0\0\x10index\0\x01\0\0\0\x10code\0\xf8\x2a\0\0\x02errmsg\0\x04\0\0\0dup\0\0\0\0";

/// What a document that was found tells.
#[derive(Clone, Copy, Debug, PartialEq, Eq)]
pub(crate) enum FoundDocument {
    None,
    Empty,
    /// It is `{a: NUMBER}`.
    Number(i32),
    /// It has a form that no row gives.
    Odd,
}

/// What a write tells of its reply.
#[derive(Clone, Copy, Debug, PartialEq, Eq)]
pub(crate) enum Told {
    Inserted,
    Updated {
        matched: u64,
        modified: u64,
        upserted: Option<i32>,
    },
    Deleted(u64),
    Found(FoundDocument),
    Failed(Ended),
    /// The same, with the label `told`.
    Labelled(Ended),
    /// An id of a form that no row gives.
    OddId,
}

/// An update that found none.
const UPSERTED: Told = Told::Updated {
    matched: 0,
    modified: 0,
    upserted: Some(7),
};

/// An update of two of the three that it found.
const UPDATED: Told = Told::Updated {
    matched: 3,
    modified: 2,
    upserted: None,
};

/// An update of the one that it found.
const ONE_UPDATED: Told = Told::Updated {
    matched: 1,
    modified: 1,
    upserted: None,
};

/// An update of none of the one that it found.
const LEFT_ALIKE: Told = Told::Updated {
    matched: 1,
    modified: 0,
    upserted: None,
};

/// A write, the name of the reply to it and the reply, and what it tells.
pub(crate) struct Row {
    pub(crate) kind: Kind,
    pub(crate) name: &'static str,
    pub(crate) reply: &'static [u8],
    pub(crate) told: Told,
}

/// What updates tell of replies that count.
const UPDATES_COUNTED: &[Row] = &[
    Row {
        kind: Kind::UpdateMany,
        name: "three found",
        reply: THREE_FOUND,
        told: UPDATED,
    },
    Row {
        kind: Kind::UpdateMany,
        name: "long counts",
        reply: LONG_COUNTS,
        told: UPDATED,
    },
    Row {
        kind: Kind::UpdateOne,
        name: "doubles",
        reply: DOUBLES,
        told: LEFT_ALIKE,
    },
    Row {
        kind: Kind::UpdateOne,
        name: "changed",
        reply: CHANGED,
        told: ONE_UPDATED,
    },
    Row {
        kind: Kind::ReplaceOne,
        name: "changed",
        reply: CHANGED,
        told: ONE_UPDATED,
    },
    Row {
        kind: Kind::UpdateOne,
        name: "put in",
        reply: PUT_IN,
        told: UPSERTED,
    },
    Row {
        kind: Kind::UpdateMany,
        name: "put in",
        reply: PUT_IN,
        told: UPSERTED,
    },
    Row {
        kind: Kind::ReplaceOne,
        name: "put in",
        reply: PUT_IN,
        told: UPSERTED,
    },
    Row {
        kind: Kind::UpdateMany,
        name: "none put in",
        reply: NONE_PUT_IN,
        told: UPDATED,
    },
    Row {
        kind: Kind::UpdateMany,
        name: "put in without id",
        reply: PUT_IN_WITHOUT_ID,
        told: UPDATED,
    },
    Row {
        kind: Kind::UpdateOne,
        name: "no errors",
        reply: NO_ERRORS,
        told: ONE_UPDATED,
    },
];

/// How updates end by replies that do not do, or that tell of a failure.
const UPDATES_FAILED: &[Row] = &[
    Row {
        kind: Kind::UpdateOne,
        name: "uncounted",
        reply: UNCOUNTED,
        told: Told::Failed(Ended::InvalidResponse),
    },
    Row {
        kind: Kind::UpdateOne,
        name: "text",
        reply: TEXT,
        told: Told::Failed(Ended::InvalidResponse),
    },
    Row {
        kind: Kind::UpdateOne,
        name: "null",
        reply: NULL,
        told: Told::Failed(Ended::InvalidResponse),
    },
    Row {
        kind: Kind::UpdateMany,
        name: "double three",
        reply: DOUBLE_THREE,
        told: Told::Failed(Ended::InvalidResponse),
    },
    Row {
        kind: Kind::UpdateOne,
        name: "negative",
        reply: NEGATIVE,
        told: Told::Failed(Ended::InvalidResponse),
    },
    Row {
        kind: Kind::UpdateOne,
        name: "done",
        reply: DONE,
        told: Told::Failed(Ended::InvalidResponse),
    },
    Row {
        kind: Kind::ReplaceOne,
        name: "negatively changed",
        reply: NEGATIVELY_CHANGED,
        told: Told::Failed(Ended::InvalidResponse),
    },
    Row {
        kind: Kind::UpdateOne,
        name: "duplicate",
        reply: DUPLICATE,
        told: Told::Failed(Ended::WriteError(11000)),
    },
    Row {
        kind: Kind::UpdateMany,
        name: "two errors",
        reply: TWO_ERRORS,
        told: Told::Failed(Ended::WriteError(11000)),
    },
    Row {
        kind: Kind::UpdateMany,
        name: "unmet",
        reply: UNMET,
        told: Told::Failed(Ended::ConcernError(64)),
    },
    Row {
        kind: Kind::UpdateOne,
        name: "both",
        reply: BOTH,
        told: Told::Failed(Ended::WriteError(11000)),
    },
    Row {
        kind: Kind::ReplaceOne,
        name: "labelled",
        reply: LABELLED,
        told: Told::Labelled(Ended::WriteError(11000)),
    },
    Row {
        kind: Kind::UpdateOne,
        name: "refused",
        reply: REFUSED,
        told: Told::Failed(Ended::Command(13)),
    },
];

/// What deletes tell of their replies.
const DELETES: &[Row] = &[
    Row {
        kind: Kind::DeleteOne,
        name: "done",
        reply: DONE,
        told: Told::Deleted(1),
    },
    Row {
        kind: Kind::DeleteOne,
        name: "none found",
        reply: NONE_FOUND,
        told: Told::Deleted(0),
    },
    Row {
        kind: Kind::DeleteMany,
        name: "three found",
        reply: THREE_FOUND,
        told: Told::Deleted(3),
    },
    Row {
        kind: Kind::DeleteMany,
        name: "long counts",
        reply: LONG_COUNTS,
        told: Told::Deleted(3),
    },
    Row {
        kind: Kind::DeleteMany,
        name: "many",
        reply: MANY,
        told: Told::Deleted(4_294_967_296),
    },
    Row {
        kind: Kind::DeleteOne,
        name: "bare",
        reply: BARE,
        told: Told::Failed(Ended::InvalidResponse),
    },
    Row {
        kind: Kind::DeleteOne,
        name: "uncounted",
        reply: UNCOUNTED,
        told: Told::Failed(Ended::InvalidResponse),
    },
    Row {
        kind: Kind::DeleteOne,
        name: "text",
        reply: TEXT,
        told: Told::Failed(Ended::InvalidResponse),
    },
    Row {
        kind: Kind::DeleteMany,
        name: "negative",
        reply: NEGATIVE,
        told: Told::Failed(Ended::InvalidResponse),
    },
    Row {
        kind: Kind::DeleteMany,
        name: "double three",
        reply: DOUBLE_THREE,
        told: Told::Failed(Ended::InvalidResponse),
    },
    Row {
        kind: Kind::DeleteOne,
        name: "duplicate",
        reply: DUPLICATE,
        told: Told::Failed(Ended::WriteError(11000)),
    },
    Row {
        kind: Kind::DeleteMany,
        name: "unmet",
        reply: UNMET,
        told: Told::Failed(Ended::ConcernError(64)),
    },
    Row {
        kind: Kind::DeleteMany,
        name: "both",
        reply: BOTH,
        told: Told::Failed(Ended::WriteError(11000)),
    },
    Row {
        kind: Kind::DeleteOne,
        name: "labelled",
        reply: LABELLED,
        told: Told::Labelled(Ended::WriteError(11000)),
    },
    Row {
        kind: Kind::DeleteMany,
        name: "refused",
        reply: REFUSED,
        told: Told::Failed(Ended::Command(13)),
    },
];

/// Replies to an unordered insert of one document, and what it tells: the count and the errors go together, and
/// each error has an index of its own.
const UNORDERED: &[Row] = &[
    Row {
        kind: Kind::InsertOne,
        name: "done",
        reply: DONE,
        told: Told::Inserted,
    },
    Row {
        kind: Kind::InsertOne,
        name: "no errors",
        reply: NO_ERRORS,
        told: Told::Inserted,
    },
    Row {
        kind: Kind::InsertOne,
        name: "duplicate",
        reply: DUPLICATE,
        told: Told::Failed(Ended::WriteError(11000)),
    },
    Row {
        kind: Kind::InsertOne,
        name: "labelled",
        reply: LABELLED,
        told: Told::Labelled(Ended::WriteError(11000)),
    },
    Row {
        kind: Kind::InsertOne,
        name: "both",
        reply: BOTH,
        told: Told::Failed(Ended::WriteError(11000)),
    },
    Row {
        kind: Kind::InsertOne,
        name: "unmet",
        reply: UNMET,
        told: Told::Failed(Ended::ConcernError(64)),
    },
    Row {
        kind: Kind::InsertOne,
        name: "refused",
        reply: REFUSED,
        told: Told::Failed(Ended::Command(13)),
    },
    Row {
        kind: Kind::InsertOne,
        name: "none found",
        reply: NONE_FOUND,
        told: Told::Failed(Ended::InvalidResponse),
    },
    Row {
        kind: Kind::InsertOne,
        name: "three found",
        reply: THREE_FOUND,
        told: Told::Failed(Ended::InvalidResponse),
    },
    Row {
        kind: Kind::InsertOne,
        name: "bare",
        reply: BARE,
        told: Told::Failed(Ended::InvalidResponse),
    },
    Row {
        kind: Kind::InsertOne,
        name: "counted error",
        reply: COUNTED_ERROR,
        told: Told::Failed(Ended::InvalidResponse),
    },
    Row {
        kind: Kind::InsertOne,
        name: "strange index",
        reply: STRANGE_INDEX,
        told: Told::Failed(Ended::InvalidResponse),
    },
    Row {
        kind: Kind::InsertOne,
        name: "two errors",
        reply: TWO_ERRORS,
        told: Told::Failed(Ended::InvalidResponse),
    },
];

/// What an update tells.
fn told_of_update(done: &UpdateResult) -> Told {
    let upserted = match &done.upserted_id {
        None => None,
        Some(Bson::Int32(id)) => Some(*id),
        Some(_) => return Told::OddId,
    };
    Told::Updated {
        matched: done.matched_count,
        modified: done.modified_count,
        upserted,
    }
}

/// What a document that was found tells, or that none was.
fn told_of_found(found: &Option<Document>) -> FoundDocument {
    let Some(document) = found else {
        return FoundDocument::None;
    };
    match document.pairs() {
        [] => FoundDocument::Empty,
        [pair] if pair.key.as_str() == "a" => match &pair.value {
            Bson::Int32(number) => FoundDocument::Number(*number),
            _ => FoundDocument::Odd,
        },
        _ => FoundDocument::Odd,
    }
}

/// What an answer tells.
fn told_of_answer(answer: &SingleAnswer) -> Told {
    match answer {
        SingleAnswer::Inserted(_) => Told::Inserted,
        SingleAnswer::Updated(done) => told_of_update(done),
        SingleAnswer::Deleted(done) => Told::Deleted(done.deleted_count),
        SingleAnswer::Found(found) => Told::Found(told_of_found(found)),
    }
}

/// What an error tells.
fn told_of_error(error: &Error) -> Told {
    if error.has_own_label("told") {
        return Told::Labelled(how_ended(error));
    }
    Told::Failed(how_ended(error))
}

/// What the end of a write tells.
fn told_of_end(end: Result<SingleAnswer>) -> Told {
    match end {
        Ok(answer) => {
            let told = told_of_answer(&answer);
            drop(answer);
            told
        }
        Err(error) => {
            let told = told_of_error(&error);
            drop(error);
            told
        }
    }
}

/// What a write over a link tells after one send, or none where there were more or none.
fn told_over(alloc: Global, link: FakeLink, write: SingleWrite) -> Option<Told> {
    let (end, link) = answered_under(alloc, link, &write, None);
    drop(write);
    let sent = link.frames().len();
    drop(link);
    let told = told_of_end(end);
    if sent == 1 { Some(told) } else { None }
}

/// What the usual write of a kind tells of a reply.
pub(crate) fn told_of(
    rt: &impl Abort,
    alloc: Global,
    kind: Kind,
    reply: &'static [u8],
) -> Option<Told> {
    let link = fake_link(alloc, ALIKE, &[Given::Reply(reply)]).made(rt);
    let write = write_of(alloc, usual(kind), Concern::Unset).made(rt);
    told_over(alloc, link, write)
}

/// The insert of a document whose failure stops no other.
fn unordered_insert(rt: &impl Abort, alloc: Global) -> SingleWrite {
    SingleWrite::InsertOne(InsertWrite {
        namespace: namespace(alloc, "shop").made(rt),
        document: number(alloc, "y", 2).made(rt),
        options: InsertManyOptions {
            ordered: Some(false),
            ..InsertManyOptions::default()
        },
    })
}

/// The kind and the name of the first of these rows whose write tells something else.
fn first_wrong(rt: &impl Abort, alloc: Global, rows: &[Row]) -> Option<(Kind, &'static str)> {
    for row in rows {
        if told_of(rt, alloc, row.kind, row.reply) != Some(row.told) {
            return Some((row.kind, row.name));
        }
    }
    None
}

#[test]
fn updates_and_deletes_tell_what_their_replies_count(rt: HostRuntime) {
    let wrong = first_wrong(&rt, rt.alloc(), UPDATES_COUNTED);
    alike(&rt, wrong, None, "the first wrong update that is counted");
    let wrong = first_wrong(&rt, rt.alloc(), UPDATES_FAILED);
    alike(&rt, wrong, None, "the first wrong update that failed");
    let wrong = first_wrong(&rt, rt.alloc(), DELETES);
    alike(&rt, wrong, None, "the first wrong delete");
}

#[test]
fn an_unordered_insert_reads_its_reply_too(rt: HostRuntime) {
    let alloc = rt.alloc();
    for row in UNORDERED {
        let link = fake_link(alloc, ALIKE, &[Given::Reply(row.reply)]).made(&rt);
        let found = told_over(alloc, link, unordered_insert(&rt, alloc));
        alike(&rt, found, Some(row.told), row.name);
    }
}
