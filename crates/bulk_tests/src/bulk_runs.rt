//! Bulk writes by the executor: which are sent again after a lost exchange, in the same bytes; whole frames, byte by
//! byte; and which entries stand.
ghost use Rattle.driver_link.specs.WellFormed.{IsWellFormed};

use crate::asserting::{Made, holds, holds_at};
use bson_lite::List;
use driver_error::{IoKind, Result, SummaryBulkWriteResult};
use driver_link::{Frame, Schedule, Server, WriteKind};
use driver_options::Description;
use memory_links::FakeLink;
use model_server::{ModelServer, USUAL_SETUP};
use std::alloc::Global;
use std::process::Abort;
use test_parts::bulk_ends::let_go;
use test_parts::bulk_models::{A_X, A_Z, B_Y, OPS, is_op, six};
use test_parts::bulk_runs::{Kind, executed_from, models_of};
use test_parts::faking::{Given, Servers, fake_link};
use test_parts::inserting::{Ended, SERVER, how_ended};
use test_parts::spelling::{FIRST_NUMBER, SESSION, joined};

/// `{ok: 1, nErrors: 0, nInserted: 2, .., cursor: {id: 0, ns: "admin.$cmd.bulkWrite", firstBatch: []}}`
const TWO_INSERTED: &[u8] =
    b"\xa6\0\0\0\x10ok\0\x01\0\0\0\x10nErrors\0\0\0\0\0\x10nInserted\0\x02\0\0\0\x10nMatched\0\0\0\0\0\x10nModified\0\0\0\0\0\x10nUpserted\0\0\0\0\0\x10nDeleted\0\0\0\0\0\x03cursor\0;\0\0\0\x10id\0\0\0\0\0\x02ns\0\x15\0\0\0admin.$cmd.bulkWrite\0\x04firstBatch\0\x05\0\0\0\0\0\0";

/// The same with `nErrors: 1` and `nInserted: 1`
const ONE_FAILED: &[u8] =
    b"\xa6\0\0\0\x10ok\0\x01\0\0\0\x10nErrors\0\x01\0\0\0\x10nInserted\0\x01\0\0\0\x10nMatched\0\0\0\0\0\x10nModified\0\0\0\0\0\x10nUpserted\0\0\0\0\0\x10nDeleted\0\0\0\0\0\x03cursor\0;\0\0\0\x10id\0\0\0\0\0\x02ns\0\x15\0\0\0admin.$cmd.bulkWrite\0\x04firstBatch\0\x05\0\0\0\0\0\0";

/// `bulkWrite: 1, ordered: true, errorsOnly: true`
const COMMAND: &[u8] = b"\x10bulkWrite\0\x01\0\0\0\x08ordered\0\x01\x08errorsOnly\0\x01";

/// `$db: "admin"`, and the end of the body
const ON_ADMIN: &[u8] = b"\x02$db\0\x06\0\0\0admin\0\0";

/// `{bulkWrite: 1, ordered: true, errorsOnly: true, lsid: {id: UUID(..01)}, $db: "admin"}`, of 94 bytes
const UNNUMBERED: &[&[u8]] = &[b"\x5e\0\0\0", COMMAND, SESSION, ON_ADMIN];

/// The same with `txnNumber: 1`, of 113 bytes
const NUMBERED: &[&[u8]] = &[b"\x71\0\0\0", COMMAND, SESSION, FIRST_NUMBER, ON_ADMIN];

/// A batch of so many of the six models, from one on, by a server with a batch limit; and its frame: the parts of the
/// body, the documents of its namespaces, and the number that each of its ops has.
#[derive(Clone, Copy)]
struct Framed {
    models: usize,
    first: usize,
    batch: i64,
    body: &'static [&'static [u8]],
    namespaces: &'static [&'static [u8]],
    numbers: &'static [u8],
}

/// The third and the sixth model are of all documents found, so that a batch before them has no number.
const FRAMES: &[Framed] = &[
    Framed {
        models: 6,
        first: 0,
        batch: 6,
        body: UNNUMBERED,
        namespaces: &[A_X, B_Y, A_Z],
        numbers: &[0, 1, 0, 2, 1, 2],
    },
    Framed {
        models: 2,
        first: 0,
        batch: 6,
        body: NUMBERED,
        namespaces: &[A_X, B_Y],
        numbers: &[0, 1],
    },
    Framed {
        models: 6,
        first: 0,
        batch: 2,
        body: UNNUMBERED,
        namespaces: &[A_X, B_Y],
        numbers: &[0, 1],
    },
    // The third model is behind this later batch.
    Framed {
        models: 5,
        first: 3,
        batch: 6,
        body: NUMBERED,
        namespaces: &[A_Z, B_Y],
        numbers: &[0, 1],
    },
];

/// A batch of a bulk write: what it shows, its models, the index of the first of them, whether the client's options forbid
/// repeats, the server's batch limit and wire version, what the exchanges answer, how it ends, and how many frames went out.
#[derive(Clone, Copy)]
struct Row {
    shows: &'static str,
    models: &'static [Kind],
    first: usize,
    forbidden: bool,
    batch: i64,
    version: i32,
    given: &'static [Given],
    ended: Ended,
    frames: usize,
}

/// A lost exchange, and one that tells of two inserts.
const LOST_ONCE: &[Given] = &[Given::Reset, Given::Reply(TWO_INSERTED)];

const ROWS: &[Row] = &[
    Row {
        shows: "two inserts are done at once",
        models: &[Kind::Insert, Kind::Insert],
        first: 0,
        forbidden: false,
        batch: 2,
        version: 25,
        given: &[Given::Reply(TWO_INSERTED)],
        ended: Ended::Done,
        frames: 1,
    },
    Row {
        shows: "a batch without such models is sent again",
        models: &[Kind::Insert, Kind::UpdateOne, Kind::DeleteOne],
        first: 0,
        forbidden: false,
        batch: 3,
        version: 25,
        given: LOST_ONCE,
        ended: Ended::Done,
        frames: 2,
    },
    Row {
        shows: "a model of all documents found forbids it",
        models: &[Kind::Insert, Kind::UpdateMany],
        first: 0,
        forbidden: false,
        batch: 2,
        version: 25,
        given: LOST_ONCE,
        ended: Ended::Io(IoKind::ConnectionReset),
        frames: 1,
    },
    // The model of all documents found stands behind the batch of one.
    Row {
        shows: "so does one behind the batch",
        models: &[Kind::Insert, Kind::UpdateMany],
        first: 0,
        forbidden: false,
        batch: 1,
        version: 25,
        given: LOST_ONCE,
        ended: Ended::Io(IoKind::ConnectionReset),
        frames: 1,
    },
    Row {
        shows: "so do the options of the client",
        models: &[Kind::Insert, Kind::Insert],
        first: 0,
        forbidden: true,
        batch: 2,
        version: 25,
        given: LOST_ONCE,
        ended: Ended::Io(IoKind::ConnectionReset),
        frames: 1,
    },
    Row {
        shows: "an older server is refused",
        models: &[Kind::Insert],
        first: 0,
        forbidden: false,
        batch: 2,
        version: 24,
        given: &[Given::Reply(TWO_INSERTED)],
        ended: Ended::TooOld,
        frames: 0,
    },
    Row {
        shows: "a reply that tells of a failure is no success",
        models: &[Kind::Insert, Kind::Insert],
        first: 0,
        forbidden: false,
        batch: 2,
        version: 25,
        given: &[Given::Reply(ONE_FAILED), Given::Reply(TWO_INSERTED)],
        ended: Ended::InvalidResponse,
        frames: 1,
    },
    // A model of all documents found forbids repeats of its own batch, and not of a later one.
    Row {
        shows: "a model of all documents found forbids it of its own batch",
        models: &[Kind::UpdateMany, Kind::Insert],
        first: 0,
        forbidden: false,
        batch: 1,
        version: 25,
        given: LOST_ONCE,
        ended: Ended::Io(IoKind::ConnectionReset),
        frames: 1,
    },
    Row {
        shows: "and not of a later one",
        models: &[Kind::UpdateMany, Kind::Insert],
        first: 1,
        forbidden: false,
        batch: 1,
        version: 25,
        given: LOST_ONCE,
        ended: Ended::Done,
        frames: 2,
    },
];

/// How it ended.
fn ended(end: Result<SummaryBulkWriteResult>) -> Ended {
    match end {
        Ok(_) => Ended::Done,
        Err(error) => {
            let ended = how_ended(&error);
            let_go(error);
            ended
        }
    }
}

/// Whether two sequences of frames have the same documents.
fn has_same_documents(first: &Frame, second: &Frame, at: usize) -> bool {
    if first.sequence_count() <= at || second.sequence_count() <= at {
        return false;
    }
    let count = first.document_count(at);
    if count != second.document_count(at) {
        return false;
    }
    for index in 0..count {
        if first.document(at, index) != second.document(at, index) {
            return false;
        }
    }
    true
}

/// Whether two frames have the same bytes.
fn is_same(first: &Frame, second: &Frame) -> bool {
    first.body() == second.body()
        && has_same_documents(first, second, 0)
        && has_same_documents(first, second, 1)
}

/// Whether so many frames went out, the second in the bytes of the first.
fn has_frames(link: &FakeLink, count: usize) -> bool {
    match link.frames() {
        [] => count == 0,
        [_] => count == 1,
        [first, second] => count == 2 && is_same(first, second),
        _ => false,
    }
}

/// A link to a server, whose exchanges answer so.
fn linked(rt: &impl Abort, alloc: Global, server: Description, given: &[Given]) -> FakeLink {
    let servers = Servers {
        first: server,
        further: server,
    };
    fake_link(alloc, servers, given).made(rt)
}

/// Whether a row ends as it says.
fn ends(rt: &impl Abort, alloc: Global, row: Row) -> bool {
    let server = Description {
        max_wire_version: Some(row.version),
        max_write_batch_size: row.batch,
        ..SERVER
    };
    let link = linked(rt, alloc, server, row.given);
    let models = models_of(alloc, row.models).made(rt);
    let (result, link) = executed_from(alloc, link, models.as_slice(), row.first, row.forbidden);
    let sent = has_frames(&link, row.frames);
    drop(link);
    drop(models);
    ended(result) == row.ended && sent
}

/// Whether a sequence of a frame has this name, and so many documents.
fn is_sequence(frame: &Frame, at: usize, name: &str, count: usize) -> bool {
    if frame.sequence_count() <= at {
        return false;
    }
    frame.sequence_name(at) == name && frame.document_count(at) == count
}

/// Whether a sequence of a frame has no other documents than these, in their order.
fn has_documents(frame: &Frame, at: usize, documents: &[&[u8]]) -> bool {
    if frame.sequence_count() <= at {
        return false;
    }
    let count = frame.document_count(at);
    for index in 0..count {
        let found = frame.document(at, index);
        match documents.get(index) {
            Some(document) if found == *document => {}
            _ => return false,
        }
    }
    true
}

/// Whether it has no others than the ops of the six models from one on, in their order, on these numbers.
fn has_ops(frame: &Frame, at: usize, first: usize, numbers: &[u8]) -> bool {
    if frame.sequence_count() <= at {
        return false;
    }
    let count = frame.document_count(at);
    for index in 0..count {
        let found = frame.document(at, index);
        let same = match (OPS.get(first.saturating_add(index)), numbers.get(index)) {
            (Some(spelled), Some(number)) => is_op(found, spelled, *number),
            _ => false,
        };
        if !same {
            return false;
        }
    }
    true
}

/// Whether a frame is the one of a batch.
fn is_framed(frame: &Frame, body: &[u8], framed: Framed) -> bool {
    frame.database() == "admin"
        && frame.body() == body
        && frame.sequence_count() == 2
        && is_sequence(frame, 0, "nsInfo", framed.namespaces.len())
        && is_sequence(frame, 1, "ops", framed.numbers.len())
        && has_documents(frame, 0, framed.namespaces)
        && has_ops(frame, 1, framed.first, framed.numbers)
}

/// Whether a batch of the six models is done after one frame, which is this one.
fn sends(rt: &impl Abort, alloc: Global, framed: Framed) -> bool {
    let server = Description {
        max_write_batch_size: framed.batch,
        ..SERVER
    };
    let body = joined(alloc, framed.body).made(rt);
    let link = linked(rt, alloc, server, &[Given::Reply(TWO_INSERTED)]);
    let mut models = six(alloc).made(rt);
    models.truncate(framed.models);
    let (result, link) = executed_from(alloc, link, models.as_slice(), framed.first, false);
    let sent = match link.frames() {
        [frame] => is_framed(frame, body.as_slice(), framed),
        _ => false,
    };
    drop(link);
    drop(models);
    ended(result) == Ended::Done && sent
}

/// A schedule by which each exchange is served and no call fails.
fn all_served(alloc: Global) -> Schedule
    ensures { IsWellFormed result }
{
    Schedule {
        items: List::new(alloc),
        selects: List::new(alloc),
        check_outs: List::new(alloc),
        overloaded_check_outs: List::new(alloc),
        reauthentications: List::new(alloc),
        supports: List::new(alloc),
    }
}

/// Whether the entry at a place of the log is of this kind, and of the write at the same place.
fn has_entry(server: &Server, at: usize, kind: WriteKind) -> bool {
    match server.log.get(at) {
        Some(entry) => entry.written.get().kind == kind && entry.place.index == at as u64,
        None => false,
    }
}

/// Whether an insert, an update of all and a delete over a model server stand in its log, and are counted.
fn stands(rt: &impl Abort, alloc: Global) -> bool {
    let models = models_of(alloc, &[Kind::Insert, Kind::UpdateMany, Kind::DeleteOne]).made(rt);
    let link = ModelServer::new(alloc, USUAL_SETUP, all_served(alloc));
    let (result, link) = executed_from(alloc, link, models.as_slice(), 0, false);
    let stand = link.server().log.len() == 3
        && has_entry(link.server(), 0, WriteKind::Insert)
        && has_entry(link.server(), 1, WriteKind::Update)
        && has_entry(link.server(), 2, WriteKind::Delete);
    drop(link);
    drop(models);
    let counted = match result {
        Ok(counts) => {
            counts.inserted_count == 1
                && counts.matched_count == 1
                && counts.modified_count == 1
                && counts.upserted_count == 0
                && counts.deleted_count == 1
        }
        Err(error) => {
            let_go(error);
            false
        }
    };
    stand && counted
}

#[test]
fn a_bulk_write_is_sent_again_where_it_may_be(rt: HostRuntime) {
    for row in ROWS {
        let same = ends(&rt, rt.alloc(), *row);
        holds(&rt, same, row.shows);
    }
}

#[test]
fn a_batch_goes_out_as_one_frame_of_namespaces_and_ops(rt: HostRuntime) {
    for (at, framed) in FRAMES.iter().enumerate() {
        let same = sends(&rt, rt.alloc(), *framed);
        holds_at(&rt, same, "the frame of a batch", at);
    }
}

#[test]
fn the_writes_of_a_bulk_write_stand_at_their_places(rt: HostRuntime) {
    let stands = stands(&rt, rt.alloc());
    holds(&rt, stands, "the entries of a bulk write and its counts");
}
