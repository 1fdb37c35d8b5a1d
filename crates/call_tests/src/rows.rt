//! One insert over a model server, by what its schedule says.
ghost use Rattle.driver_link.specs.WellFormed.{IsWellFormed};

use crate::asserting::{Made, alike};
use crate::meeting::{Meets, items};
use bson_lite::List;
use driver_error::IoKind;
use driver_link::{Schedule, Server};
use model_server::{ModelServer, USUAL_SETUP};
use std::alloc::Global;
use std::process::Abort;
use test_parts::inserting::{Ended, Seen, insert};

/// What a row shows, its schedule, how the insert ends, whether its error has the label of a retryable write alone
/// or none, and how many sends and entries there are.
struct Row {
    shows: &'static str,
    meets: &'static [Meets],
    selects: &'static [u64],
    check_outs: &'static [u64],
    ended: Ended,
    labelled: bool,
    sends: usize,
    entries: usize,
}

const ROWS: [Row; 8] = [
    Row {
        shows: "a lost reply is sent again",
        meets: &[Meets::ReplyLost],
        selects: &[],
        check_outs: &[],
        ended: Ended::Done,
        labelled: false,
        sends: 2,
        entries: 1,
    },
    Row {
        shows: "two lost sends are no third",
        meets: &[Meets::Lost, Meets::Lost],
        selects: &[],
        check_outs: &[],
        ended: Ended::Io(IoKind::ConnectionReset),
        labelled: true,
        sends: 2,
        entries: 0,
    },
    Row {
        shows: "an interruption after the write is sent again",
        meets: &[Meets::InterruptedAfterOne],
        selects: &[],
        check_outs: &[],
        ended: Ended::Done,
        labelled: false,
        sends: 2,
        entries: 1,
    },
    Row {
        shows: "a refusal without the label is answered",
        meets: &[Meets::Refused],
        selects: &[],
        check_outs: &[],
        ended: Ended::Command(13),
        labelled: false,
        sends: 1,
        entries: 0,
    },
    Row {
        shows: "the failure that tells of writes is kept",
        meets: &[Meets::InterruptedAtOnce, Meets::RefusedUnwritten],
        selects: &[],
        check_outs: &[],
        ended: Ended::Command(91),
        labelled: true,
        sends: 2,
        entries: 0,
    },
    Row {
        shows: "a failed check-out is tried again",
        meets: &[],
        selects: &[],
        check_outs: &[0],
        ended: Ended::Done,
        labelled: false,
        sends: 1,
        entries: 1,
    },
    Row {
        shows: "two failed check-outs send nothing",
        meets: &[],
        selects: &[],
        check_outs: &[0, 1],
        ended: Ended::Io(IoKind::ConnectionRefused),
        labelled: true,
        sends: 0,
        entries: 0,
    },
    Row {
        shows: "a failed selection is answered",
        meets: &[],
        selects: &[0],
        check_outs: &[],
        ended: Ended::Selection,
        labelled: false,
        sends: 0,
        entries: 0,
    },
];

fn numbers(rt: &impl Abort, alloc: Global, numbers: &[u64]) -> List<u64> {
    let mut list = List::new(alloc);
    for number in numbers {
        list.push(*number).made(rt);
    }
    list
}

fn schedule(rt: &impl Abort, alloc: Global, row: &Row) -> Schedule
    ensures { IsWellFormed result }
{
    Schedule {
        items: items(rt, alloc, row.meets),
        selects: numbers(rt, alloc, row.selects),
        check_outs: numbers(rt, alloc, row.check_outs),
        overloaded_check_outs: List::new(alloc),
        reauthentications: List::new(alloc),
        supports: List::new(alloc),
    }
}

/// Whether an insert ended as a row says.
fn is_ended(seen: Seen, row: &Row) -> bool {
    let labels = if row.labelled { 1 } else { 0 };
    seen.ended == row.ended && seen.retryable == row.labelled && seen.labels == labels
}

/// Whether each send has the number 1, and the same session.
fn is_resent(server: &Server) -> bool {
    let mut first = None;
    for send in server.trace.as_slice() {
        if send.number != Some(1) || send.session.is_none() {
            return false;
        }
        if first.is_some() && first != Some(send.session) {
            return false;
        }
        first = Some(send.session);
    }
    true
}

fn is_left(server: &Server, row: &Row) -> bool {
    server.trace.len() == row.sends && server.log.len() == row.entries && is_resent(server)
}

/// Whether the row's insert was made, and comes to what it says.
fn shows(rt: &impl Abort, alloc: Global, row: &Row) -> bool {
    let link = ModelServer::new(alloc, USUAL_SETUP, schedule(rt, alloc, row));
    match insert(alloc, link) {
        Some((seen, link)) => is_ended(seen, row) && is_left(link.server(), row),
        None => false,
    }
}

/// What the first row shows that is not as it says.
fn first_wrong(rt: &impl Abort, alloc: Global, rows: &[Row]) -> Option<&'static str> {
    for row in rows {
        if !shows(rt, alloc, row) {
            return Some(row.shows);
        }
    }
    None
}

#[test]
fn an_insert_ends_as_its_schedule_says(rt: HostRuntime) {
    alike(
        &rt,
        first_wrong(&rt, rt.alloc(), &ROWS),
        None,
        "what the first row shows that is not as it says",
    );
}
