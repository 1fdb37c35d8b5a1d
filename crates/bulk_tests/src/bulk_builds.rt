//! Bulk writes as they are built: under limits of the connection how many ops go out, or why none does; the bytes of a
//! command with all six models; and how a batch of these numbers its namespaces.
use crate::asserting::{Made, alike, holds, holds_at};
use bson_lite::{Bson, Document, List, ObjectId, Text, TryClone};
use bulk_actions::bulk_ops;
use bulk_ops::BulkWriteOp;
use bulk_outcomes::BulkWriteResult;
use driver_attempt::Client;
use driver_error::{Error, ErrorKind, SummaryBulkWriteResult, VerboseBulkWriteResult};
use driver_link::Sequence;
use driver_ops::{Command, Operation, encode_document};
use driver_options::{BulkWriteOptions, ClientOptions, Description, WriteModel};
use driver_session::PlainStore;
use memory_links::CountingIds;
use std::alloc::Global;
use std::process::Abort;
use test_parts::bulk_ends::let_go;
use test_parts::bulk_models::{A_X, A_Z, B_Y, OPS, insert, is_op, named, number, ops_of, six};
use test_parts::inserting::SERVER;

/// `{bulkWrite: 1, ordered: true, errorsOnly: true}`
const BODY: &[u8] = b"+\0\0\0\x10bulkWrite\0\x01\0\0\0\x08ordered\0\x01\x08errorsOnly\0\x01\0";

/// The same with each option set, for the results of all ops.
const WHOLE_BODY: &[u8] =
    b"f\0\0\0\x10bulkWrite\0\x01\0\0\0\x08ordered\0\0\x08bypassDocumentValidation\0\x01\x02comment\0\x02\0\0\0c\0\x03let\0\x0c\0\0\0\x10v\0\x01\0\0\0\0\x08errorsOnly\0\0\0";

/// A batch of the six models: the index of its first, how many its connection takes, the documents of its namespaces,
/// and the number that each of its ops has.
#[derive(Clone, Copy)]
struct Batch {
    first: usize,
    most: i64,
    namespaces: &'static [&'static [u8]],
    numbers: &'static [u8],
}

/// The six are on `a.x`, `b.y`, `a.x`, `a.z`, `b.y` and `a.z`.
const BATCHES: &[Batch] = &[
    Batch {
        first: 0,
        most: 6,
        namespaces: &[A_X, B_Y, A_Z],
        numbers: &[0, 1, 0, 2, 1, 2],
    },
    // The namespace of the first model comes second in a later batch.
    Batch {
        first: 1,
        most: 6,
        namespaces: &[B_Y, A_X, A_Z],
        numbers: &[0, 1, 2, 0, 2],
    },
    // That of the fourth is not in the batch.
    Batch {
        first: 0,
        most: 2,
        namespaces: &[A_X, B_Y],
        numbers: &[0, 1],
    },
    Batch {
        first: 2,
        most: 2,
        namespaces: &[A_X, A_Z],
        numbers: &[0, 1],
    },
    Batch {
        first: 4,
        most: 1,
        namespaces: &[B_Y],
        numbers: &[0],
    },
];

/// A bulk write whose results are counts alone.
type Summed<'a> = BulkWriteOp<'a, SummaryBulkWriteResult>;

/// Which server a build is for: its wire version, and its limits on a document, on a message and on a batch.
#[derive(Clone, Copy)]
struct Row {
    version: Option<i32>,
    bson: i64,
    message: i64,
    batch: i64,
}

/// What a build comes to.
#[derive(Clone, Copy)]
enum Built {
    Takes(usize),
    /// An InvalidArgument with this text.
    TooLarge(&'static str),
    /// An IncompatibleServer with the text on bulk writes.
    TooOld,
}

const TOO_LARGE: &str = "operation at index 5 exceeds the maximum size";

/// Three inserts of `{_id: ObjectId, x: 1}` into `gen.a`, of which the first is the caller's fifth from 0: the body
/// has 43 bytes, each op 56, and the document of the namespace 19, which is sent once.
const BUILDS: &[(Row, Built)] = &[
    (
        Row {
            version: Some(25),
            bson: 1,
            message: 1000 + 43 + 56 + 19,
            batch: 100_000,
        },
        Built::Takes(1),
    ),
    (
        Row {
            version: Some(25),
            bson: 1,
            message: 1000 + 43 + 56 + 18,
            batch: 100_000,
        },
        Built::TooLarge(TOO_LARGE),
    ),
    (
        Row {
            version: Some(25),
            bson: 1,
            message: 1000 + 43 + 112 + 19,
            batch: 100_000,
        },
        Built::Takes(2),
    ),
    (
        Row {
            version: Some(25),
            bson: 1,
            message: 1000 + 43 + 112 + 18,
            batch: 100_000,
        },
        Built::Takes(1),
    ),
    (
        Row {
            version: Some(25),
            bson: 1,
            message: 1000 + 43 + 168 + 19,
            batch: 3,
        },
        Built::Takes(3),
    ),
    (
        Row {
            version: Some(25),
            bson: 1,
            message: 1000 + 43 + 168 + 19,
            batch: 2,
        },
        Built::Takes(2),
    ),
    (
        Row {
            version: Some(25),
            bson: 1,
            message: 48_000_000,
            batch: 1,
        },
        Built::Takes(1),
    ),
    (
        Row {
            version: Some(25),
            bson: 1,
            message: 48_000_000,
            batch: 0,
        },
        Built::TooLarge(TOO_LARGE),
    ),
    (
        Row {
            version: Some(25),
            bson: 1,
            message: 48_000_000,
            batch: -1,
        },
        Built::TooLarge(TOO_LARGE),
    ),
    (
        Row {
            version: Some(25),
            bson: 0,
            message: 48_000_000,
            batch: 3,
        },
        Built::TooLarge(TOO_LARGE),
    ),
    (
        Row {
            version: Some(25),
            bson: -1,
            message: 48_000_000,
            batch: 3,
        },
        Built::TooLarge(TOO_LARGE),
    ),
    (
        Row {
            version: Some(25),
            bson: 1,
            message: 0,
            batch: 3,
        },
        Built::TooLarge(TOO_LARGE),
    ),
    (
        Row {
            version: Some(25),
            bson: 1,
            message: -1,
            batch: 3,
        },
        Built::TooLarge(TOO_LARGE),
    ),
    (
        Row {
            version: Some(25),
            bson: 16_777_216,
            message: 48_000_000,
            batch: 100_000,
        },
        Built::Takes(3),
    ),
    (
        Row {
            version: Some(26),
            bson: 16_777_216,
            message: 48_000_000,
            batch: 100_000,
        },
        Built::Takes(3),
    ),
    (
        Row {
            version: Some(24),
            bson: 16_777_216,
            message: 48_000_000,
            batch: 100_000,
        },
        Built::TooOld,
    ),
    (
        Row {
            version: Some(-1),
            bson: 16_777_216,
            message: 48_000_000,
            batch: 100_000,
        },
        Built::TooOld,
    ),
    (
        Row {
            version: None,
            bson: 16_777_216,
            message: 48_000_000,
            batch: 100_000,
        },
        Built::TooOld,
    ),
    (
        Row {
            version: Some(24),
            bson: 0,
            message: 0,
            batch: 0,
        },
        Built::TooOld,
    ),
];

/// Later builds take as many ops as the first that was taken; where those do not fit they are refused.
const LATER: &[(Row, Built)] = &[
    (
        Row {
            version: Some(25),
            bson: 1,
            message: 48_000_000,
            batch: 0,
        },
        Built::TooLarge(TOO_LARGE),
    ),
    (
        Row {
            version: Some(24),
            bson: 16_777_216,
            message: 48_000_000,
            batch: 100_000,
        },
        Built::TooOld,
    ),
    (
        Row {
            version: Some(25),
            bson: 1,
            message: 48_000_000,
            batch: 2,
        },
        Built::Takes(2),
    ),
    (
        Row {
            version: Some(25),
            bson: 1,
            message: 48_000_000,
            batch: 3,
        },
        Built::Takes(2),
    ),
    (
        Row {
            version: Some(24),
            bson: 16_777_216,
            message: 48_000_000,
            batch: 100_000,
        },
        Built::TooOld,
    ),
    (
        Row {
            version: Some(25),
            bson: 1,
            message: 48_000_000,
            batch: 1,
        },
        Built::TooLarge("operation at index 6 exceeds the maximum size"),
    ),
    (
        Row {
            version: Some(25),
            bson: 1,
            message: 1000 + 43 + 112 + 18,
            batch: 3,
        },
        Built::TooLarge("operation at index 6 exceeds the maximum size"),
    ),
    (
        Row {
            version: Some(25),
            bson: 1,
            message: 1000 + 43 + 112 + 19,
            batch: 3,
        },
        Built::Takes(2),
    ),
];

/// A server by a row.
fn described(row: Row) -> Description {
    Description {
        max_wire_version: row.version,
        max_bson_object_size: row.bson,
        max_message_size_bytes: row.message,
        max_write_batch_size: row.batch,
        ..SERVER
    }
}

/// `{_id: ObjectId, x: 1}`, of 29 bytes.
fn document(rt: &impl Abort, alloc: Global) -> Document {
    let mut document = Document::new(alloc);
    document
        .push("_id", Bson::ObjectId(ObjectId { bytes: [7; 12] }))
        .made(rt);
    document.push("x", Bson::Int32(1)).made(rt);
    document
}

/// Eight inserts of it into `gen.a`, of which the batch has the last three.
fn eight(rt: &impl Abort, alloc: Global) -> List<WriteModel> {
    let mut models = List::new(alloc);
    for _ in 0..8 {
        let to = named(alloc, "gen", "a").made(rt);
        models.push(insert(alloc, to, document(rt, alloc))).made(rt);
    }
    models
}

/// How many ops a command has in its second sequence.
fn ops_in(command: &Command) -> usize {
    match command.sequences.as_slice() {
        [_, ops] => ops.documents.len(),
        _ => 0,
    }
}

/// Whether an error is what a row says.
fn is_refused(error: Error, built: Built) -> bool {
    let same = match (error.kind(), built) {
        (ErrorKind::InvalidArgument { message }, Built::TooLarge(text)) => message.as_str() == text,
        (ErrorKind::IncompatibleServer { message }, Built::TooOld) => {
            message.as_str() == "the bulk write feature is only supported on MongoDB 8.0+"
        }
        _ => false,
    };
    let_go(error);
    same
}

/// Whether a build for such a connection comes to this.
fn builds(alloc: Global, op: &mut Summed<'_>, row: Row, built: Built) -> bool {
    match op.build(alloc, &described(row)) {
        Ok(command) => {
            let sent = ops_in(&command);
            drop(command);
            match built {
                Built::Takes(count) => sent == count && op.statements() == count,
                _ => false,
            }
        }
        Err(error) => is_refused(error, built),
    }
}

/// The place of the first of these that a build of one bulk write does not come to, one after the other; no answer
/// where the ops are not spelled.
fn wrong_build(rt: &impl Abort, alloc: Global, rows: &[(Row, Built)]) -> Option<Option<usize>> {
    let models = eight(rt, alloc);
    let ops = ops_of(alloc, &models)?;
    let options = BulkWriteOptions::default();
    let mut op: Summed<'_> = BulkWriteOp::new(alloc, ops.as_slice(), 5, &options).made(rt);
    let mut wrong = None;
    for (at, (row, built)) in rows.iter().enumerate() {
        if !builds(alloc, &mut op, *row, *built) && wrong.is_none() {
            wrong = Some(at);
        }
    }
    drop(op);
    drop(options);
    drop(ops);
    drop(models);
    Some(wrong)
}

/// Whether the insert of `{x: 1}` into `gen.a` alone, with the id that is drawn for it, comes to this.
fn one_builds(rt: &impl Abort, alloc: Global, message: i64, built: Built) -> bool {
    let to = named(alloc, "gen", "a").made(rt);
    let document = number(alloc, "x", 1).made(rt);
    let mut models = List::new(alloc);
    models.push(insert(alloc, to, document)).made(rt);
    let options = BulkWriteOptions::default();
    let store = PlainStore::new(alloc, CountingIds::new());
    let mut client = Client::new(ClientOptions::default(), store);
    let same = match bulk_ops(alloc, &mut client, models.as_slice(), &options) {
        Ok(ops) => {
            let mut op: Summed<'_> = BulkWriteOp::new(alloc, ops.as_slice(), 0, &options).made(rt);
            let row = Row {
                version: Some(25),
                bson: 1,
                message,
                batch: 1,
            };
            let same = builds(alloc, &mut op, row, built);
            drop(op);
            drop(ops);
            same
        }
        Err(error) => {
            let_go(error);
            false
        }
    };
    drop(options);
    drop(models);
    same
}

/// Whether a sequence has this name and these documents.
fn has_documents(sequence: &Sequence, name: &str, documents: &[&[u8]]) -> bool {
    if sequence.name.as_str() != name || sequence.documents.len() != documents.len() {
        return false;
    }
    for (at, document) in documents.iter().enumerate() {
        let same = match sequence.documents.get(at) {
            Some(bytes) => bytes.as_slice() == *document,
            None => false,
        };
        if !same {
            return false;
        }
    }
    true
}

/// Whether the sequences are the namespaces, and then the ops.
fn has_sequences(command: &Command) -> bool {
    match command.sequences.as_slice() {
        [namespaces, ops] => {
            has_documents(namespaces, "nsInfo", &[A_X, B_Y, A_Z]) && has_documents(ops, "ops", OPS)
        }
        _ => false,
    }
}

/// Whether a body has these bytes.
fn has_body(alloc: Global, command: &Command, body: &[u8]) -> bool {
    match encode_document(alloc, &command.body) {
        Ok(bytes) => bytes.as_slice() == body,
        Err(error) => {
            let_go(error);
            false
        }
    }
}

/// All options set that a body has, as a copy, which is the same.
fn all_options(rt: &impl Abort, alloc: Global) -> BulkWriteOptions {
    let comment = Text::from_str(alloc, "c").made(rt);
    let given = BulkWriteOptions {
        ordered: Some(false),
        bypass_document_validation: Some(true),
        comment: Some(Bson::String(comment)),
        write_concern: None,
        let_vars: Some(number(alloc, "v", 1).made(rt)),
    };
    let copy = given.try_clone(alloc).made(rt);
    drop(given);
    copy
}

/// Whether copies of the six models are built with this body, on `admin`, for results of a kind.
fn six_are_built<R: BulkWriteResult>(
    rt: &impl Abort,
    alloc: Global,
    options: &BulkWriteOptions,
    body: &[u8],
) -> Option<bool> {
    let given = six(alloc).made(rt);
    let models = given.try_clone(alloc).made(rt);
    drop(given);
    let ops = ops_of(alloc, &models)?;
    let mut op: BulkWriteOp<'_, R> = BulkWriteOp::new(alloc, ops.as_slice(), 0, options).made(rt);
    let same = match op.build(alloc, &SERVER) {
        Ok(command) => {
            let same = command.database.as_str() == "admin"
                && has_body(alloc, &command, body)
                && has_sequences(&command);
            drop(command);
            same
        }
        Err(error) => {
            let_go(error);
            false
        }
    };
    drop(op);
    drop(ops);
    drop(models);
    Some(same)
}

/// Whether a sequence has the ops of the six models from a batch's first on, on the numbers of the batch.
fn has_ops(sequence: &Sequence, batch: Batch) -> bool {
    if sequence.name.as_str() != "ops" || sequence.documents.len() != batch.numbers.len() {
        return false;
    }
    for (at, number) in batch.numbers.iter().enumerate() {
        let op = sequence.documents.get(at);
        let same = match (op, OPS.get(batch.first.saturating_add(at))) {
            (Some(op), Some(spelled)) => is_op(op.as_slice(), spelled, *number),
            _ => false,
        };
        if !same {
            return false;
        }
    }
    true
}

/// Whether a build takes the ops of a batch and numbers their namespaces as it says.
fn is_numbered(alloc: Global, op: &mut Summed<'_>, batch: Batch) -> bool {
    let description = Description {
        max_write_batch_size: batch.most,
        ..SERVER
    };
    match op.build(alloc, &description) {
        Ok(command) => {
            let same = match command.sequences.as_slice() {
                [namespaces, ops] => {
                    has_documents(namespaces, "nsInfo", batch.namespaces) && has_ops(ops, batch)
                }
                _ => false,
            };
            drop(command);
            same
        }
        Err(error) => {
            let_go(error);
            false
        }
    }
}

/// Whether the ops of the six models from a batch's first on are built so.
fn batch_is_numbered(rt: &impl Abort, alloc: Global, batch: Batch) -> Option<bool> {
    let models = six(alloc).made(rt);
    let ops = ops_of(alloc, &models)?;
    let options = BulkWriteOptions::default();
    let mut op: Summed<'_> = BulkWriteOp::new(alloc, ops.as_slice(), batch.first, &options).made(
        rt,
    );
    let same = is_numbered(alloc, &mut op, batch);
    drop(op);
    drop(options);
    drop(ops);
    drop(models);
    Some(same)
}

#[test]
fn a_first_build_takes_the_longest_front(rt: HostRuntime) {
    for (at, row) in BUILDS.iter().enumerate() {
        let same = matches!(wrong_build(&rt, rt.alloc(), &[*row]), Some(None));
        holds_at(&rt, same, "the front that a first build takes", at);
    }
}

#[test]
fn one_insert_goes_out_where_a_message_has_room(rt: HostRuntime) {
    let refused = Built::TooLarge("operation at index 0 exceeds the maximum size");
    holds(
        &rt,
        one_builds(&rt, rt.alloc(), 1118, Built::Takes(1)),
        "room for one insert",
    );
    holds(
        &rt,
        one_builds(&rt, rt.alloc(), 1117, refused),
        "the refusal of one insert where a byte is missing",
    );
}

#[test]
fn later_builds_take_as_many_ops(rt: HostRuntime) {
    let wrong = wrong_build(&rt, rt.alloc(), LATER);
    alike(
        &rt,
        wrong,
        Some(None),
        "the first of the later builds that takes another front",
    );
}

#[test]
fn all_six_models_over_three_namespaces_are_spelled(rt: HostRuntime) {
    let plain = BulkWriteOptions::default();
    let summary = six_are_built::<SummaryBulkWriteResult>(&rt, rt.alloc(), &plain, BODY)
        == Some(true);
    holds(&rt, summary, "the six models for counts alone");
    drop(plain);
    let options = all_options(&rt, rt.alloc());
    let verbose = six_are_built::<VerboseBulkWriteResult>(&rt, rt.alloc(), &options, WHOLE_BODY)
        == Some(true);
    drop(options);
    holds(
        &rt,
        verbose,
        "the six models with each option, for all results",
    );
}

#[test]
fn each_batch_numbers_the_namespaces_of_its_own_ops(rt: HostRuntime) {
    for (at, batch) in BATCHES.iter().enumerate() {
        let same = batch_is_numbered(&rt, rt.alloc(), *batch) == Some(true);
        holds_at(
            &rt,
            same,
            "the namespaces of a batch, their numbers, and its ops",
            at,
        );
    }
}
