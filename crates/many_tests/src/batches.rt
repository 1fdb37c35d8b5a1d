//! An insert of three documents: under limits of the connection how many go out, or why none does, and what a reply
//! tells of them; and one insert whose resend the next connection does not take.
use crate::asserting::{Made, holds, holds_at};
use bson_lite::{Bson, Document, List, Namespace, ObjectId, Text};
use driver_error::{Error, ErrorKind, InsertManyError, IoKind};
use driver_ops::{Collection, Command, CommandResponse, Operation, encode_document, read_response};
use driver_options::{Description, InsertManyOptions};
use std::alloc::Global;
use std::process::Abort;
use test_parts::faking::{DONE, Given, Servers, inserted};
use test_parts::inserting::{Ended, SERVER};
use write_ops::{Insert, OwnDocument};

/// The three limits of a connection.
#[derive(Clone, Copy)]
struct Sizes {
    bson: i64,
    message: i64,
    batch: i64,
}

/// What a build comes to.
#[derive(Clone, Copy)]
enum Built {
    Takes(usize),
    Refused(&'static str),
}

/// Three documents `{_id: ObjectId, x: 1}` of 29 bytes, of which the first is the caller's fifth from 0, into `items`:
/// the body of the command has 33 bytes.
const BUILDS: &[(Sizes, Built)] = &[
    (
        Sizes {
            bson: 28,
            message: 48_000_000,
            batch: 100_000,
        },
        Built::Refused(
            "insert document must be within 28 bytes, but document provided is 29 bytes",
        ),
    ),
    (
        Sizes {
            bson: 29,
            message: 1000 + 33 + 87,
            batch: 3,
        },
        Built::Takes(3),
    ),
    (
        Sizes {
            bson: 29,
            message: 1000 + 33 + 86,
            batch: 3,
        },
        Built::Takes(2),
    ),
    (
        Sizes {
            bson: 29,
            message: 1000 + 33 + 58,
            batch: 2,
        },
        Built::Takes(2),
    ),
    (
        Sizes {
            bson: 29,
            message: 1000 + 33 + 57,
            batch: 2,
        },
        Built::Takes(1),
    ),
    (
        Sizes {
            bson: 29,
            message: 1000 + 33 + 29,
            batch: 1,
        },
        Built::Takes(1),
    ),
    (
        Sizes {
            bson: 29,
            message: 1000 + 33 + 28,
            batch: 1,
        },
        Built::Refused("document at index 5 exceeds the maximum size"),
    ),
    (
        Sizes {
            bson: 29,
            message: 48_000_000,
            batch: 0,
        },
        Built::Refused("document at index 5 exceeds the maximum size"),
    ),
    (
        Sizes {
            bson: -1,
            message: 48_000_000,
            batch: 0,
        },
        Built::Refused("insert document must be within 0 bytes, but document provided is 29 bytes"),
    ),
];

/// A server like [`SERVER`] with these limits.
fn described(sizes: Sizes) -> Description {
    Description {
        max_bson_object_size: sizes.bson,
        max_message_size_bytes: sizes.message,
        max_write_batch_size: sizes.batch,
        ..SERVER
    }
}

/// A document of 29 bytes as it is sent.
fn document(rt: &impl Abort, alloc: Global) -> OwnDocument {
    let id = ObjectId { bytes: [7; 12] };
    let mut document = Document::new(alloc);
    document.push("_id", Bson::ObjectId(id)).made(rt);
    document.push("x", Bson::Int32(1)).made(rt);
    let bytes = encode_document(alloc, &document).made(rt);
    OwnDocument {
        bytes,
        id: Bson::ObjectId(id),
    }
}

/// Three of them.
fn documents(rt: &impl Abort, alloc: Global) -> List<OwnDocument> {
    let mut documents = List::new(alloc);
    for _ in 0..3 {
        documents.push(document(rt, alloc)).made(rt);
    }
    documents
}

/// The collection `shop.items`.
fn items(rt: &impl Abort, alloc: Global) -> Collection {
    Collection {
        namespace: Namespace {
            db: Text::from_str(alloc, "shop").made(rt),
            coll: Text::from_str(alloc, "items").made(rt),
        },
        write_concern: None,
    }
}

/// Whether an error refuses an argument with the text of a row.
fn refuses(error: &Error, built: Built) -> bool {
    match (error.kind(), built) {
        (ErrorKind::InvalidArgument { message }, Built::Refused(text)) => message.as_str() == text,
        _ => false,
    }
}

/// How many documents go out with a command.
fn sent_with(command: &Command) -> usize {
    match command.sequences.as_slice() {
        [documents] => documents.documents.len(),
        _ => 0,
    }
}

/// Whether so many documents that go out, and so many statements, are those of a row.
fn takes(sent: usize, statements: usize, built: Built) -> bool {
    match built {
        Built::Takes(count) => sent == count && statements == count,
        Built::Refused(_) => false,
    }
}

/// Whether a build for such a connection comes to this.
fn builds(alloc: Global, insert: &mut Insert<'_>, sizes: Sizes, built: Built) -> bool {
    match insert.build(alloc, &described(sizes)) {
        Ok(command) => {
            let sent = sent_with(&command);
            drop(command);
            takes(sent, insert.statements(), built)
        }
        Err(error) => {
            let refused = refuses(&error, built);
            drop(error);
            refused
        }
    }
}

/// The place of the first of these that a build of one insert does not come to, one after the other.
fn wrong_build(rt: &impl Abort, alloc: Global, rows: &[(Sizes, Built)]) -> Option<usize> {
    let documents = documents(rt, alloc);
    let options = InsertManyOptions::default();
    let collection = items(rt, alloc);
    let mut insert = Insert::new(collection, 5, documents.as_slice(), &options);
    let mut wrong = None;
    for (at, (sizes, built)) in rows.iter().enumerate() {
        if !builds(alloc, &mut insert, *sizes, *built) && wrong.is_none() {
            wrong = Some(at);
        }
    }
    drop(insert);
    drop(options);
    drop(documents);
    wrong
}

/// Later builds have as many documents as the first that was taken; where those do not fit they are refused.
const LATER: &[(Sizes, Built)] = &[
    (
        Sizes {
            bson: 29,
            message: 48_000_000,
            batch: 0,
        },
        Built::Refused("document at index 5 exceeds the maximum size"),
    ),
    (
        Sizes {
            bson: 29,
            message: 48_000_000,
            batch: 2,
        },
        Built::Takes(2),
    ),
    (
        Sizes {
            bson: 29,
            message: 48_000_000,
            batch: 3,
        },
        Built::Takes(2),
    ),
    (
        Sizes {
            bson: 29,
            message: 48_000_000,
            batch: 1,
        },
        Built::Refused("document at index 6 exceeds the maximum size"),
    ),
    (
        Sizes {
            bson: 29,
            message: 48_000_000,
            batch: 2,
        },
        Built::Takes(2),
    ),
];

/// `{ok: 1, n: 2, writeErrors: [{index: 1, code: 11000, errmsg: "dup"}]}`
const TWO_WENT_IN: &[u8] =
    b"\x53\0\0\0\x10ok\0\x01\0\0\0\x10n\0\x02\0\0\0\x04writeErrors\0\x32\0\0\0\x030\0\x2a\0\0\0\x10index\0\x01\0\0\0\x10code\0\xf8\x2a\0\0\x02errmsg\0\x04\0\0\0dup\0\0\0\0";

/// `{ok: 1, n: 1, writeErrors: [{index: 1, code: 11000, errmsg: "dup"}]}`
const ONE_WENT_IN: &[u8] =
    b"\x53\0\0\0\x10ok\0\x01\0\0\0\x10n\0\x01\0\0\0\x04writeErrors\0\x32\0\0\0\x030\0\x2a\0\0\0\x10index\0\x01\0\0\0\x10code\0\xf8\x2a\0\0\x02errmsg\0\x04\0\0\0dup\0\0\0\0";

/// What an insert of three documents reads in a reply that tells of its second one's failure.
#[derive(Clone, Copy)]
enum Told {
    /// Which of the three have their ids listed beside the failure.
    Lists(bool, bool, bool),
    /// The reply breaks its form.
    Odd,
}

/// Replies to the insert of three documents, and whether it is ordered: in an ordered one those before the failure went
/// in, in another one all beside it. Each breaks its form where it counts what the other kind of insert would.
const REPLIES: &[(bool, &[u8], Told)] = &[
    (false, TWO_WENT_IN, Told::Lists(true, false, true)),
    (true, ONE_WENT_IN, Told::Lists(true, false, false)),
    (false, ONE_WENT_IN, Told::Odd),
    (true, TWO_WENT_IN, Told::Odd),
];

/// The document of a reply.
fn reply_of(rt: &impl Abort, alloc: Global, bytes: &[u8]) -> Document {
    let CommandResponse { ok: _, body } = read_response(alloc, bytes).made(rt);
    body
}

/// Whether the one write error is that of the second document.
fn has_second_alone(failures: &InsertManyError) -> bool {
    match &failures.write_errors {
        Some(errors) => match errors.as_slice() {
            [error] => error.index == 1 && error.code == 11000,
            _ => false,
        },
        None => false,
    }
}

/// Whether failures tell of the second document, beside the ids of those that went in.
fn lists(failures: &InsertManyError, told: Told) -> bool {
    let ids = &failures.inserted_ids;
    match told {
        Told::Lists(first, second, third) => {
            ids.get(0).is_some() == first
                && ids.get(1).is_some() == second
                && ids.get(2).is_some() == third
                && has_second_alone(failures)
        }
        Told::Odd => false,
    }
}

/// Whether an error tells this.
fn tells(error: &Error, told: Told) -> bool {
    match error.kind() {
        ErrorKind::InsertMany(failures) => lists(failures.get(), told),
        ErrorKind::InvalidResponse { .. } => matches!(told, Told::Odd),
        _ => false,
    }
}

/// Whether an insert that was built reads this in a reply.
fn reads(alloc: Global, insert: &mut Insert<'_>, reply: &Document, told: Told) -> bool {
    match insert.read_reply(alloc, reply) {
        Ok(reading) => {
            drop(reading);
            false
        }
        Err(error) => {
            let same = tells(&error, told);
            drop(error);
            same
        }
    }
}

/// Whether the insert of three documents, ordered or not, goes out whole and reads this in a reply. The first of them
/// is the caller's fifth from 0, and a reply counts them from 0.
fn all_read(rt: &impl Abort, alloc: Global, ordered: bool, reply: &[u8], told: Told) -> bool {
    let collection = items(rt, alloc);
    let documents = documents(rt, alloc);
    let reply = reply_of(rt, alloc, reply);
    let options = InsertManyOptions {
        ordered: Some(ordered),
        ..InsertManyOptions::default()
    };
    let usual = Sizes {
        bson: 16_777_216,
        message: 48_000_000,
        batch: 100_000,
    };
    let mut insert = Insert::new(collection, 5, documents.as_slice(), &options);
    let built = builds(alloc, &mut insert, usual, Built::Takes(3));
    let read = reads(alloc, &mut insert, &reply, told);
    drop(insert);
    drop(reply);
    drop(options);
    drop(documents);
    built && read
}

#[test]
fn a_first_build_takes_the_longest_front(rt: HostRuntime) {
    for (at, row) in BUILDS.iter().enumerate() {
        let wrong = wrong_build(&rt, rt.alloc(), &[*row]);
        holds_at(&rt, wrong.is_none(), "what a first build takes", at);
    }
}

#[test]
fn later_builds_take_as_many_documents(rt: HostRuntime) {
    let wrong = wrong_build(&rt, rt.alloc(), LATER);
    holds_at(
        &rt,
        wrong.is_none(),
        "what later builds take",
        wrong.unwrap_or(0),
    );
}

#[test]
fn a_reply_to_three_documents_lists_those_that_went_in(rt: HostRuntime) {
    for (at, (ordered, reply, told)) in REPLIES.iter().enumerate() {
        let same = all_read(&rt, rt.alloc(), *ordered, reply, *told);
        holds_at(&rt, same, "what a reply to three documents tells", at);
    }
}

#[test]
fn a_resend_that_does_not_fit_leaves_the_failure(rt: HostRuntime) {
    let narrow = Servers {
        first: SERVER,
        further: described(Sizes {
            bson: 13,
            message: 48_000_000,
            batch: 100_000,
        }),
    };
    let kept = match inserted(rt.alloc(), narrow, &[Given::Reset, Given::Reply(DONE)]) {
        Some((Ended::Io(IoKind::ConnectionReset), link)) => {
            link.frames().len() == 1 && link.connections().len() == 2
        }
        _ => false,
    };
    holds(&rt, kept, "the failure before a resend that does not fit");
}
