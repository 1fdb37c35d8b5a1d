//! Bulk writes as calls, in batches over a model server: how they end, which commands go out, and which entries stand.
use crate::asserting::{Made, alike};
use crate::meeting::{Meets, schedule};
use bulk_actions::{BulkWrite, BulkWrites};
use driver_attempt::{Client, Outside};
use driver_error::{SummaryBulkWriteResult, VerboseBulkWriteResult};
use driver_link::{Send, SendBody, SendCommand, Server, Setup};
use driver_options::{ClientOptions, Description, WriteModel};
use driver_session::PlainStore;
use memory_links::{CountingIds, MemClock};
use model_server::ModelServer;
use rand_core::SeedableRng;
use rand_pcg::Pcg32;
use std::alloc::Global;
use std::process::Abort;
use test_parts::bulk_ends::{Ended, Failed, Looked, Source, how_ended};
use test_parts::bulk_runs::{Kind, models_of};

/// A command that went out: a bulk write of so many writes from an index on, under a number, or one of a cursor.
#[derive(Clone, Copy, PartialEq, Eq)]
enum Sent {
    Bulk(u64, usize, i64),
    More,
    Kill,
    Other,
}

/// How many inserts, whether results are verbose, whether it goes on behind errors, what the exchanges meet, how it
/// ends, which commands went out, and how many entries stand.
#[derive(Clone, Copy)]
struct Row {
    shows: &'static str,
    inserts: usize,
    verbose: bool,
    unordered: bool,
    meets: &'static [Meets],
    ends: Ended,
    sent: &'static [Sent],
    entries: usize,
}

/// A server that takes two writes in a command.
const TWO_AT_ONCE: Setup = Setup {
    description: Description {
        max_wire_version: Some(25),
        max_bson_object_size: 16_777_216,
        max_message_size_bytes: 48_000_000,
        max_write_batch_size: 2,
        supports_sessions: true,
        supports_retryable_writes: true,
        sharded: false,
    },
    transactions: true,
    timeout_ms: Some(1_800_000),
};

const ROWS: &[Row] = &[
    Row {
        shows: "five inserts in batches of two are three commands",
        inserts: 5,
        verbose: false,
        unordered: false,
        meets: &[],
        ends: Ended::Done([5, 0, 0, 0, 0], 0),
        sent: &[
            Sent::Bulk(0, 2, 1),
            Sent::Bulk(2, 2, 2),
            Sent::Bulk(4, 1, 3),
        ],
        entries: 5,
    },
    Row {
        shows: "a verbose result has the result of each",
        inserts: 5,
        verbose: true,
        unordered: false,
        meets: &[],
        ends: Ended::Done([5, 0, 0, 0, 0], 5),
        sent: &[
            Sent::Bulk(0, 2, 1),
            Sent::Bulk(2, 2, 2),
            Sent::Bulk(4, 1, 3),
        ],
        entries: 5,
    },
    Row {
        shows: "an ordered one stops at a write error, which stands under the caller's index",
        inserts: 5,
        verbose: false,
        unordered: false,
        meets: &[Meets::Served, Meets::FailedAt(0)],
        ends: Ended::Bulk(Failed(
            1,
            Some((2, 11000)),
            0,
            Some([2, 0, 0, 0, 0]),
            Source::None,
            false,
            true,
        )),
        sent: &[Sent::Bulk(0, 2, 1), Sent::Bulk(2, 2, 2)],
        entries: 2,
    },
    Row {
        shows: "an unordered one goes on behind it",
        inserts: 5,
        verbose: false,
        unordered: true,
        meets: &[Meets::Served, Meets::FailedAt(0)],
        ends: Ended::Bulk(Failed(
            1,
            Some((2, 11000)),
            0,
            Some([4, 0, 0, 0, 0]),
            Source::None,
            false,
            true,
        )),
        sent: &[
            Sent::Bulk(0, 2, 1),
            Sent::Bulk(2, 2, 2),
            Sent::Bulk(4, 1, 3),
        ],
        entries: 4,
    },
    Row {
        shows: "errors of two batches stand together",
        inserts: 4,
        verbose: true,
        unordered: true,
        meets: &[Meets::FailedAt(1), Meets::FailedAt(0)],
        ends: Ended::Bulk(Failed(
            2,
            Some((1, 11000)),
            0,
            Some([2, 0, 0, 0, 0]),
            Source::None,
            false,
            true,
        )),
        sent: &[Sent::Bulk(0, 2, 1), Sent::Bulk(2, 2, 2)],
        entries: 2,
    },
    Row {
        shows: "an ordered one goes on behind a lone write concern error",
        inserts: 4,
        verbose: false,
        unordered: false,
        meets: &[Meets::Concern],
        ends: Ended::Bulk(Failed(0, None, 1, Some([4, 0, 0, 0, 0]), Source::None, false, true)),
        sent: &[Sent::Bulk(0, 2, 1), Sent::Bulk(2, 2, 2)],
        entries: 4,
    },
    Row {
        shows: "another error of a later batch is the source of what stands",
        inserts: 4,
        verbose: false,
        unordered: true,
        meets: &[Meets::Served, Meets::Refused],
        ends: Ended::Bulk(Failed(
            0,
            None,
            0,
            Some([2, 0, 0, 0, 0]),
            Source::Command(43),
            false,
            false,
        )),
        sent: &[Sent::Bulk(0, 2, 1), Sent::Bulk(2, 2, 2)],
        entries: 2,
    },
    Row {
        shows: "behind an error too, and it stops an unordered one",
        inserts: 5,
        verbose: false,
        unordered: true,
        meets: &[Meets::FailedAt(0), Meets::Refused],
        ends: Ended::Bulk(Failed(
            1,
            Some((0, 11000)),
            0,
            Some([1, 0, 0, 0, 0]),
            Source::Command(43),
            false,
            true,
        )),
        sent: &[Sent::Bulk(0, 2, 1), Sent::Bulk(2, 2, 2)],
        entries: 1,
    },
    Row {
        shows: "that of the first batch is answered alone",
        inserts: 4,
        verbose: false,
        unordered: true,
        meets: &[Meets::Refused],
        ends: Ended::Command(43),
        sent: &[Sent::Bulk(0, 2, 1)],
        entries: 0,
    },
    Row {
        shows: "a failed page stops an unordered one",
        inserts: 4,
        verbose: true,
        unordered: true,
        meets: &[Meets::Page(1), Meets::Refused],
        ends: Ended::Bulk(Failed(
            0,
            None,
            0,
            Some([2, 0, 0, 0, 0]),
            Source::Command(43),
            false,
            true,
        )),
        sent: &[Sent::Bulk(0, 2, 1), Sent::More, Sent::Kill],
        entries: 2,
    },
    Row {
        shows: "an error on a page that is lost is not told",
        inserts: 2,
        verbose: false,
        unordered: false,
        meets: &[Meets::FailedOnPages(0, 0), Meets::Lost],
        ends: Ended::Bulk(Failed(
            0,
            None,
            0,
            Some([0, 0, 0, 0, 0]),
            Source::Reset,
            false,
            true,
        )),
        sent: &[Sent::Bulk(0, 2, 1), Sent::More],
        entries: 0,
    },
    Row {
        shows: "behind a lost exchange an error of the bulk write does not take its place",
        inserts: 1,
        verbose: false,
        unordered: false,
        meets: &[Meets::Lost, Meets::FailedAt(0)],
        ends: Ended::Reset,
        sent: &[Sent::Bulk(0, 1, 1), Sent::Bulk(0, 1, 1)],
        entries: 0,
    },
    Row {
        shows: "a lost batch goes out again under its number",
        inserts: 3,
        verbose: false,
        unordered: false,
        meets: &[Meets::Served, Meets::Lost],
        ends: Ended::Done([3, 0, 0, 0, 0], 0),
        sent: &[
            Sent::Bulk(0, 2, 1),
            Sent::Bulk(2, 1, 2),
            Sent::Bulk(2, 1, 2),
        ],
        entries: 3,
    },
    Row {
        shows: "without models nothing goes out",
        inserts: 0,
        verbose: false,
        unordered: false,
        meets: &[],
        ends: Ended::NoModels,
        sent: &[],
        entries: 0,
    },
];

/// A command as a row tells it.
fn command(send: &Send) -> Sent {
    match &send.body {
        SendBody::Write {
            command: SendCommand::BulkWrite,
            ordered: _,
            writes,
        } => match (writes.get(0), send.number) {
            (Some(first), Some(number)) => Sent::Bulk(first.place.index, writes.len(), number),
            _ => Sent::Other,
        },
        SendBody::More { cursor: _ } => Sent::More,
        SendBody::Kill { cursor: _ } => Sent::Kill,
        _ => Sent::Other,
    }
}

/// Whether the server saw these commands.
fn are_sent(server: &Server, expected: &[Sent]) -> bool {
    if server.trace.len() != expected.len() {
        return false;
    }
    for (at, one) in expected.iter().enumerate() {
        match server.trace.get(at) {
            Some(send) if command(send) == *one => {}
            _ => return false,
        }
    }
    true
}

/// How a bulk write of these models ends over a server, with results of a kind, and the server then.
fn called<T: Looked>(
    alloc: Global,
    link: ModelServer,
    models: &[WriteModel],
    unordered: bool,
) -> (Ended, ModelServer) {
    let options = ClientOptions {
        client_number: 1,
        ..ClientOptions::default()
    };
    let mut client = Client::new(options, PlainStore::new(alloc, CountingIds::new()));
    let mut outside = Outside {
        link,
        clock: MemClock::new(0, 0),
        words: Pcg32::seed_from_u64(1),
        call: 0,
    };
    let asked: BulkWrite<'_, PlainStore<CountingIds>, T> = BulkWrite::of_kind(&mut client, models);
    let end = asked.ordered(!unordered).run(alloc, &mut outside);
    let Outside {
        link,
        clock: _,
        words: _,
        call: _,
    } = outside;
    (how_ended(end), link)
}

/// Whether a row is as it says.
fn holds(rt: &impl Abort, alloc: Global, row: Row) -> bool {
    let kinds = [Kind::Insert; 5];
    let models = models_of(alloc, &kinds[..row.inserts.min(5)]).made(rt);
    let link = ModelServer::new(alloc, TWO_AT_ONCE, schedule(rt, alloc, row.meets));
    let (end, link) = if row.verbose {
        called::<VerboseBulkWriteResult>(alloc, link, models.as_slice(), row.unordered)
    } else {
        called::<SummaryBulkWriteResult>(alloc, link, models.as_slice(), row.unordered)
    };
    let server = link.server();
    let holds = end == row.ends && are_sent(server, row.sent) && server.log.len() == row.entries;
    drop(link);
    drop(models);
    holds
}

/// The first row that is not as it says.
fn first_that_fails(rt: &impl Abort, alloc: Global) -> Option<&'static str> {
    for row in ROWS {
        if !holds(rt, alloc, *row) {
            return Some(row.shows);
        }
    }
    None
}

#[test]
fn bulk_writes_end_as_their_schedules_say(rt: HostRuntime) {
    let failed = first_that_fails(&rt, rt.alloc());
    alike(&rt, failed, None, "a row that does not end as it says");
}

#[test]
fn a_client_makes_bulk_writes_of_either_kind(rt: HostRuntime) {
    let alloc = rt.alloc();
    let models = models_of(alloc, &[Kind::Insert]).made(&rt);
    let mut client = Client::new(
        ClientOptions {
            client_number: 1,
            ..ClientOptions::default()
        },
        PlainStore::new(alloc, CountingIds::new()),
    );
    let mut outside = Outside {
        link: ModelServer::new(alloc, TWO_AT_ONCE, schedule(&rt, alloc, &[])),
        clock: MemClock::new(0, 0),
        words: Pcg32::seed_from_u64(1),
        call: 0,
    };
    let counts = how_ended(
        client
            .bulk_write(models.as_slice())
            .run(alloc, &mut outside),
    );
    outside.call = 1;
    let all = how_ended(
        client
            .bulk_write(models.as_slice())
            .verbose_results()
            .run(alloc, &mut outside),
    );
    drop(models);
    crate::asserting::holds(
        &rt,
        counts == Ended::Done([1, 0, 0, 0, 0], 0),
        "counts alone",
    );
    crate::asserting::holds(
        &rt,
        all == Ended::Done([1, 0, 0, 0, 0], 1),
        "the result of each",
    );
}
