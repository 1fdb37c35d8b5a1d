//! Sends written by hand, and the bytes of their replies by the layout of BSON.
use crate::asserting::{Made, alike, holds};
use bson_lite::{Bson, Bytes, Document, List, Namespace, Text};
use driver_error::{NO_WRITES_PERFORMED, SYSTEM_OVERLOADED_ERROR, TRANSIENT_TRANSACTION_ERROR};
use driver_link::{
    Failing, Item, Place, PlacedWrite, Planned, PlannedConcern, Send, SendBody, SendCommand,
    Server, Shared, WriteKind, Written,
};
use model_effects::new_server;
use model_server::delivery::deliver;
use model_server::meeting::take;
use rows::{CASES, COUNTS, HONESTY, INTERRUPTED_TRANSACTIONS, INTERRUPTED_WRITES, ITEMS, LATE};
use std::alloc::Global;
use std::process::Abort;

mod faulty;
mod framed;
mod rows;
mod undone;

/// One document.
const ONE: &[u8] = b"\x14\0\0\0\x10ok\0\x01\0\0\0\x10n\0\x01\0\0\0\0";

/// Two documents.
const TWO: &[u8] = b"\x14\0\0\0\x10ok\0\x01\0\0\0\x10n\0\x02\0\0\0\0";

/// A commit or an abort.
const DONE: &[u8] = b"\x0d\0\0\0\x10ok\0\x01\0\0\0\0";

/// The number is too old.
const TOO_OLD: &[u8] =
    b"?\0\0\0\x10ok\0\0\0\0\0\x10code\0\xe1\0\0\0\x02errmsg\0\x0a\0\0\0scheduled\0\x04errorLabels\0\x05\0\0\0\0\0";

/// The committed transaction takes no such send.
const NO_SUCH: &[u8] =
    b"?\0\0\0\x10ok\0\0\0\0\0\x10code\0\xfb\0\0\0\x02errmsg\0\x0a\0\0\0scheduled\0\x04errorLabels\0\x05\0\0\0\0\0";

/// The transaction is gone.
const TRANSIENT: &[u8] =
    b"`\0\0\0\x10ok\0\0\0\0\0\x10code\0\xfb\0\0\0\x02errmsg\0\x0a\0\0\0scheduled\0\x04errorLabels\0&\0\0\0\x020\0\x1a\0\0\0TransientTransactionError\0\0\0";

/// Two inserts, of which the first page holds one.
const FIRST_PAGE: &[u8] =
    b"\xbe\0\0\0\x10ok\0\x01\0\0\0\x10nErrors\0\0\0\0\0\x10nInserted\0\x02\0\0\0\x10nMatched\0\0\0\0\0\x10nModified\0\0\0\0\0\x10nUpserted\0\0\0\0\0\x10nDeleted\0\0\0\0\0\x03cursor\0S\0\0\0\x10id\0\x01\0\0\0\x02ns\0\x15\0\0\0admin.$cmd.bulkWrite\0\x04firstBatch\0\x1d\0\0\0\x030\0\x15\0\0\0\x10idx\0\0\0\0\0\x10n\0\x01\0\0\0\0\0\0\0";

/// The rest of them.
const NEXT_PAGE: &[u8] =
    b"g\0\0\0\x10ok\0\x01\0\0\0\x03cursor\0R\0\0\0\x10id\0\0\0\0\0\x02ns\0\x15\0\0\0admin.$cmd.bulkWrite\0\x04nextBatch\0\x1d\0\0\0\x030\0\x15\0\0\0\x10idx\0\x01\0\0\0\x10n\0\x01\0\0\0\0\0\0\0";

/// The cursor is not open.
const NO_CURSOR: &[u8] =
    b"?\0\0\0\x10ok\0\0\0\0\0\x10code\0+\0\0\0\x02errmsg\0\x0a\0\0\0scheduled\0\x04errorLabels\0\x05\0\0\0\0\0";

/// A planned result, a failing statement and a write concern error.
const PLANNED: &[u8] =
    b"\x8c\0\0\0\x10ok\0\x01\0\0\0\x10n\0\x03\0\0\0\x04writeErrors\08\0\0\0\x030\00\0\0\0\x10index\0\x01\0\0\0\x10code\0\xf8*\0\0\x02errmsg\0\x0a\0\0\0scheduled\0\0\0\x03writeConcernError\0 \0\0\0\x10code\0@\0\0\0\x02errmsg\0\x05\0\0\0slow\0\0\0";

/// Code 91 without a label.
const REFUSED: &[u8] =
    b"?\0\0\0\x10ok\0\0\0\0\0\x10code\0[\0\0\0\x02errmsg\0\x0a\0\0\0scheduled\0\x04errorLabels\0\x05\0\0\0\0\0";

/// Code 91, and nothing ran.
const REFUSED_BEFORE: &[u8] =
    b"u\0\0\0\x10ok\0\0\0\0\0\x10code\0[\0\0\0\x02errmsg\0\x0a\0\0\0scheduled\0\x04errorLabels\0;\0\0\0\x020\0\x12\0\0\0NoWritesPerformed\0\x021\0\x16\0\0\0SystemOverloadedError\0\0\0";

/// Code 91 with the label of overload alone.
const REFUSED_OVERLOADED: &[u8] =
    b"\x5c\0\0\0\x10ok\0\0\0\0\0\x10code\0[\0\0\0\x02errmsg\0\x0a\0\0\0scheduled\0\x04errorLabels\0\x22\0\0\0\x020\0\x16\0\0\0SystemOverloadedError\0\0\0";

/// Code 91 with the transient label.
const REFUSED_TRANSIENT: &[u8] =
    b"`\0\0\0\x10ok\0\0\0\0\0\x10code\0[\0\0\0\x02errmsg\0\x0a\0\0\0scheduled\0\x04errorLabels\0&\0\0\0\x020\0\x1a\0\0\0TransientTransactionError\0\0\0";

/// A question for another authentication.
const AUTHENTICATE: &[u8] =
    b"?\0\0\0\x10ok\0\0\0\0\0\x10code\0\x87\x01\0\0\x02errmsg\0\x0a\0\0\0scheduled\0\x04errorLabels\0\x05\0\0\0\0\0";

/// An update that inserted the document 7.
const UPSERTED: &[u8] =
    b"N\0\0\0\x10ok\0\x01\0\0\0\x10n\0\x01\0\0\0\x10nModified\0\0\0\0\0\x04upserted\0!\0\0\0\x030\0\x19\0\0\0\x10index\0\0\0\0\0\x10_id\0\x07\0\0\0\0\0\0";

/// The document with `a` 1 was found.
const FOUND: &[u8] = b" \0\0\0\x10ok\0\x01\0\0\0\x03value\0\x0c\0\0\0\x10a\0\x01\0\0\0\0\0";

/// An insert, an update of two documents of which one changed, an update that inserted the document 7, and a
/// delete of three.
const COUNTED: &[u8] =
    b"<\x01\0\0\x10ok\0\x01\0\0\0\x10nErrors\0\0\0\0\0\x10nInserted\0\x01\0\0\0\x10nMatched\0\x02\0\0\0\x10nModified\0\x01\0\0\0\x10nUpserted\0\x01\0\0\0\x10nDeleted\0\x03\0\0\0\x03cursor\0\xd1\0\0\0\x10id\0\0\0\0\0\x02ns\0\x15\0\0\0admin.$cmd.bulkWrite\0\x04firstBatch\0\x9b\0\0\0\x030\0\x15\0\0\0\x10idx\0\0\0\0\0\x10n\0\x01\0\0\0\0\x031\0$\0\0\0\x10idx\0\x01\0\0\0\x10n\0\x02\0\0\0\x10nModified\0\x01\0\0\0\0\x032\0<\0\0\0\x10idx\0\x02\0\0\0\x10n\0\x01\0\0\0\x10nModified\0\0\0\0\0\x03upserted\0\x0e\0\0\0\x10_id\0\x07\0\0\0\0\0\x033\0\x15\0\0\0\x10idx\0\x03\0\0\0\x10n\0\x03\0\0\0\0\0\0\0";

/// Two inserts of a bulk write, of which the first failed.
const ONE_FAILED: &[u8] =
    b"\xef\0\0\0\x10ok\0\x01\0\0\0\x10nErrors\0\x01\0\0\0\x10nInserted\0\x01\0\0\0\x10nMatched\0\0\0\0\0\x10nModified\0\0\0\0\0\x10nUpserted\0\0\0\0\0\x10nDeleted\0\0\0\0\0\x03cursor\0\x84\0\0\0\x10id\0\0\0\0\0\x02ns\0\x15\0\0\0admin.$cmd.bulkWrite\0\x04firstBatch\0N\0\0\0\x030\0.\0\0\0\x10idx\0\0\0\0\0\x10code\0\xf8*\0\0\x02errmsg\0\x0a\0\0\0scheduled\0\0\x031\0\x15\0\0\0\x10idx\0\x01\0\0\0\x10n\0\x01\0\0\0\0\0\0\0";

/// The same, of which the second failed.
const SECOND_FAILED: &[u8] =
    b"\xef\0\0\0\x10ok\0\x01\0\0\0\x10nErrors\0\x01\0\0\0\x10nInserted\0\x01\0\0\0\x10nMatched\0\0\0\0\0\x10nModified\0\0\0\0\0\x10nUpserted\0\0\0\0\0\x10nDeleted\0\0\0\0\0\x03cursor\0\x84\0\0\0\x10id\0\0\0\0\0\x02ns\0\x15\0\0\0admin.$cmd.bulkWrite\0\x04firstBatch\0N\0\0\0\x030\0\x15\0\0\0\x10idx\0\0\0\0\0\x10n\0\x01\0\0\0\0\x031\0.\0\0\0\x10idx\0\x01\0\0\0\x10code\0\xf8*\0\0\x02errmsg\0\x0a\0\0\0scheduled\0\0\0\0\0";

/// Two inserts, of which the first failed.
const FIRST_FAILED: &[u8] =
    b"Y\0\0\0\x10ok\0\x01\0\0\0\x10n\0\x01\0\0\0\x04writeErrors\08\0\0\0\x030\00\0\0\0\x10index\0\0\0\0\0\x10code\0\xf8*\0\0\x02errmsg\0\x0a\0\0\0scheduled\0\0\0\0";

/// What a send asks for.
#[derive(Clone, Copy)]
enum Asks {
    Insert,
    InsertTwo,
    /// They go on behind a failure.
    TwoUnordered,
    Update,
    Find,
    Bulk,
    BulkUnordered,
    /// A bulk write of an insert, two updates and a delete.
    Mixed,
    Commit,
    Abort,
    More,
    Kill,
}

/// The labels of a scheduled answer.
#[derive(Clone, Copy)]
enum Given {
    Nothing,
    NoWritesAndOverload,
    Transient,
}

/// An item of a schedule.
#[derive(Clone, Copy)]
enum Meets {
    Serve,
    Planned,
    /// The update inserts a document.
    Upserts,
    /// The document is found.
    Finds,
    /// Each statement counts as its plan says.
    Counts,
    /// The first statement fails.
    FailsFirst,
    /// The second one fails.
    FailsSecond,
    Lost,
    Late,
    ReplyLost,
    Interrupted(u64, Given),
    Refused(Given),
    Reauthenticate,
}

/// A send with its item, the bytes of its reply, and how many entries the log then has. No bytes stand for
/// a connection that was reset. The waiting sends that are named come first.
struct Row {
    name: &'static str,
    late: &'static [u64],
    number: Option<i64>,
    start: bool,
    inside: bool,
    asks: Asks,
    meets: Meets,
    expected: &'static [u8],
    entries: usize,
}

/// Writes to one collection, each of a kind.
fn writes_of(
    rt: &impl Abort,
    alloc: Global,
    command: SendCommand,
    ordered: bool,
    kinds: &[WriteKind],
) -> SendBody {
    let mut writes = List::new(alloc);
    for kind in kinds {
        let index = writes.len() as u64;
        let db = Text::from_str(alloc, "a").made(rt);
        let coll = Text::from_str(alloc, "c").made(rt);
        let written = Written {
            kind: *kind,
            namespace: Namespace { db, coll },
            document: Document::new(alloc),
        };
        writes
            .push(PlacedWrite {
                place: Place { call: 0, index },
                written: Shared::new(alloc, written).made(rt),
            })
            .made(rt);
    }
    SendBody::Write {
        command,
        ordered,
        writes,
    }
}

/// Two inserts.
const INSERTS: [WriteKind; 2] = [WriteKind::Insert, WriteKind::Insert];

/// An insert, two updates and a delete.
const MIXED: [WriteKind; 4] = [
    WriteKind::Insert,
    WriteKind::Update,
    WriteKind::Update,
    WriteKind::Delete,
];

fn body_of(rt: &impl Abort, alloc: Global, asks: Asks) -> SendBody {
    match asks {
        Asks::Insert => writes_of(rt, alloc, SendCommand::Insert, true, &[WriteKind::Insert]),
        Asks::InsertTwo => writes_of(rt, alloc, SendCommand::Insert, true, &INSERTS),
        Asks::TwoUnordered => writes_of(rt, alloc, SendCommand::Insert, false, &INSERTS),
        Asks::Update => writes_of(rt, alloc, SendCommand::Update, true, &[WriteKind::Update]),
        Asks::Find => writes_of(
            rt,
            alloc,
            SendCommand::FindAndModify,
            true,
            &[WriteKind::FindAndModify],
        ),
        Asks::Bulk => writes_of(rt, alloc, SendCommand::BulkWrite, true, &INSERTS),
        Asks::BulkUnordered => writes_of(rt, alloc, SendCommand::BulkWrite, false, &INSERTS),
        Asks::Mixed => writes_of(rt, alloc, SendCommand::BulkWrite, true, &MIXED),
        Asks::Commit => SendBody::Commit,
        Asks::Abort => SendBody::Abort,
        Asks::More => SendBody::More { cursor: 1 },
        Asks::Kill => SendBody::Kill { cursor: 1 },
    }
}

fn labels_of(rt: &impl Abort, alloc: Global, given: Given) -> List<Text> {
    let mut labels = List::new(alloc);
    match given {
        Given::Nothing => {}
        Given::NoWritesAndOverload => {
            labels
                .push(Text::from_str(alloc, NO_WRITES_PERFORMED).made(rt))
                .made(rt);
            labels
                .push(Text::from_str(alloc, SYSTEM_OVERLOADED_ERROR).made(rt))
                .made(rt);
        }
        Given::Transient => labels
            .push(Text::from_str(alloc, TRANSIENT_TRANSACTION_ERROR).made(rt))
            .made(rt),
    }
    labels
}

/// The first statement counts 3, the second fails, and the write concern is not met.
fn planned(rt: &impl Abort, alloc: Global) -> Item {
    let mut results = List::new(alloc);
    results
        .push(Planned {
            n: Some(3),
            modified: None,
            upserted: None,
            value: None,
        })
        .made(rt);
    let mut fail = List::new(alloc);
    fail.push(Failing { at: 1, code: 11000 }).made(rt);
    let message = Text::from_str(alloc, "slow").made(rt);
    Item::Serve {
        results,
        fail,
        write_concern_error: Some(PlannedConcern { code: 64, message }),
        page: None,
    }
}

/// What a schedule says of a statement that counts so many documents.
fn planned_counts(n: Option<i64>, modified: Option<i64>) -> Planned {
    Planned {
        n,
        modified,
        upserted: None,
        value: None,
    }
}

/// What it says of an update that inserts the document 7.
fn planned_upsert() -> Planned {
    Planned {
        n: None,
        modified: Some(0),
        upserted: Some(Bson::Int32(7)),
        value: None,
    }
}

/// Served with these results.
fn served_with(alloc: Global, results: List<Planned>) -> Item {
    Item::Serve {
        results,
        fail: List::new(alloc),
        write_concern_error: None,
        page: None,
    }
}

/// The update inserts a document.
fn an_upsert(rt: &impl Abort, alloc: Global) -> Item {
    let mut results = List::new(alloc);
    results.push(planned_upsert()).made(rt);
    served_with(alloc, results)
}

/// The document with `a` 1 is found.
fn a_found_document(rt: &impl Abort, alloc: Global) -> Item {
    let mut value = Document::new(alloc);
    value.push("a", Bson::Int32(1)).made(rt);
    let mut results = List::new(alloc);
    results
        .push(Planned {
            n: None,
            modified: None,
            upserted: None,
            value: Some(value),
        })
        .made(rt);
    served_with(alloc, results)
}

/// The statements of a mixed bulk write count one, two, one and three documents.
fn four_counts(rt: &impl Abort, alloc: Global) -> Item {
    let mut results = List::new(alloc);
    results.push(planned_counts(None, None)).made(rt);
    results.push(planned_counts(Some(2), Some(1))).made(rt);
    results.push(planned_upsert()).made(rt);
    results.push(planned_counts(Some(3), None)).made(rt);
    served_with(alloc, results)
}

/// The statement at a position fails.
fn failing_at(rt: &impl Abort, alloc: Global, at: u64) -> Item {
    let mut fail = List::new(alloc);
    fail.push(Failing { at, code: 11000 }).made(rt);
    Item::Serve {
        results: List::new(alloc),
        fail,
        write_concern_error: None,
        page: None,
    }
}

fn item_of(rt: &impl Abort, alloc: Global, meets: Meets) -> Item {
    match meets {
        Meets::Serve => Item::Serve {
            results: List::new(alloc),
            fail: List::new(alloc),
            write_concern_error: None,
            page: Some(1),
        },
        Meets::Planned => planned(rt, alloc),
        Meets::Upserts => an_upsert(rt, alloc),
        Meets::Finds => a_found_document(rt, alloc),
        Meets::Counts => four_counts(rt, alloc),
        Meets::FailsFirst => failing_at(rt, alloc, 0),
        Meets::FailsSecond => failing_at(rt, alloc, 1),
        Meets::Lost => Item::Lost,
        Meets::Late => Item::Late,
        Meets::ReplyLost => Item::ReplyLost,
        Meets::Interrupted(after, given) => Item::Interrupted {
            after,
            code: 91,
            labels: labels_of(rt, alloc, given),
        },
        Meets::Refused(given) => Item::Refused {
            code: 91,
            labels: labels_of(rt, alloc, given),
        },
        Meets::Reauthenticate => Item::Reauthenticate,
    }
}

/// The bytes of the reply to a send, and no bytes where the connection is reset.
fn answered(rt: &impl Abort, server: &mut Server, alloc: Global, send: Send, item: &Item) -> Bytes {
    let mut notes = List::new(alloc);
    match take(server, &mut notes, alloc, send, item).made(rt) {
        Some(bytes) => bytes,
        None => Bytes::new(alloc),
    }
}

/// Serves the waiting sends that a row names, in their order.
fn deliver_named(rt: &impl Abort, server: &mut Server, alloc: Global, late: &[u64]) {
    for at in late {
        let _waited = deliver(server, alloc, *at).made(rt);
    }
}

/// Whether a row's send is answered as it says.
fn is_answered(rt: &impl Abort, server: &mut Server, alloc: Global, row: &Row) -> bool {
    deliver_named(rt, server, alloc, row.late);
    let send = Send {
        session: Some([7; 16]),
        number: row.number,
        start: row.start,
        in_transaction: row.inside,
        body: body_of(rt, alloc, row.asks),
    };
    let item = item_of(rt, alloc, row.meets);
    let bytes = answered(rt, server, alloc, send, &item);
    bytes.as_slice() == row.expected && server.log.len() == row.entries
}

/// The name of the first row of a table that is not answered as it says, one after another by a server; no name where
/// all are.
fn wrong_on(rt: &impl Abort, server: &mut Server, alloc: Global, rows: &[Row]) -> &'static str {
    for row in rows {
        if !is_answered(rt, server, alloc, row) {
            return row.name;
        }
    }
    ""
}

/// The same of a server that has seen nothing.
fn wrong_row(rt: &impl Abort, alloc: Global, rows: &[Row]) -> &'static str {
    let mut server = new_server(alloc);
    wrong_on(rt, &mut server, alloc, rows)
}

/// The same of two tables, the second of which comes behind the first.
fn wrong_in_two(rt: &impl Abort, alloc: Global, rows: &[Row], behind: &[Row]) -> &'static str {
    let mut server = new_server(alloc);
    let wrong = wrong_on(rt, &mut server, alloc, rows);
    if wrong.is_empty() {
        wrong_on(rt, &mut server, alloc, behind)
    } else {
        wrong
    }
}

#[test]
fn each_case_is_served(rt: HostRuntime) {
    let wrong = wrong_row(&rt, rt.alloc(), &CASES);
    holds(&rt, wrong.is_empty(), wrong);
}

#[test]
fn each_item_is_met(rt: HostRuntime) {
    let wrong = wrong_row(&rt, rt.alloc(), &ITEMS);
    holds(&rt, wrong.is_empty(), wrong);
}

#[test]
fn no_label_tells_a_lie(rt: HostRuntime) {
    let wrong = wrong_row(&rt, rt.alloc(), &HONESTY);
    holds(&rt, wrong.is_empty(), wrong);
}

#[test]
fn each_count_is_told(rt: HostRuntime) {
    let wrong = wrong_row(&rt, rt.alloc(), &COUNTS);
    holds(&rt, wrong.is_empty(), wrong);
}

#[test]
fn an_interruption_runs_no_more_than_it_says(rt: HostRuntime) {
    let wrong = wrong_in_two(
        &rt,
        rt.alloc(),
        &INTERRUPTED_TRANSACTIONS,
        &INTERRUPTED_WRITES,
    );
    holds(&rt, wrong.is_empty(), wrong);
}

#[test]
fn late_sends_are_served_where_they_come(rt: HostRuntime) {
    let wrong = wrong_row(&rt, rt.alloc(), &LATE);
    holds(&rt, wrong.is_empty(), wrong);
}
