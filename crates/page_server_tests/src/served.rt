//! Bulk writes in pages over a model server: what it saw, and which entries stand.
use crate::asserting::{Made, holds};
use crate::meeting::{Meets, schedule};
use driver_error::VerboseBulkWriteResult;
use driver_link::{Send, SendBody, SendCommand, Server};
use model_server::{ModelServer, USUAL_SETUP};
use std::alloc::Global;
use std::process::Abort;
use test_parts::bulk_ends::{Cause, Ended, Source, failed_page, how_ended};
use test_parts::bulk_runs::{Kind, executed_as, models_of};

/// Two inserts.
const TWO: &[Kind] = &[Kind::Insert, Kind::Insert];

/// Whether a send is a bulk write of two, under a session.
fn is_bulk(send: &Send) -> bool {
    match &send.body {
        SendBody::Write {
            command: SendCommand::BulkWrite,
            ordered: _,
            writes,
        } => writes.len() == 2 && send.session.is_some(),
        _ => false,
    }
}

/// Whether a send is a question for the next page of cursor 1 or its end, under a session and without a number, or
/// under none.
fn is_of_cursor(send: &Send, kills: bool) -> bool {
    let asks = match (&send.body, kills) {
        (SendBody::More { cursor }, false) => *cursor == 1 && send.session.is_some(),
        (SendBody::Kill { cursor }, true) => *cursor == 1 && send.session.is_none(),
        _ => false,
    };
    asks && send.number.is_none() && !send.in_transaction
}

/// Whether the server saw a bulk write, the question for its next page, and where it was refused the end of the
/// cursor; and both inserts stand.
fn saw(server: &Server, refuses: bool) -> bool {
    let seen = match server.trace.as_slice() {
        [bulk, more] => !refuses && is_bulk(bulk) && is_of_cursor(more, false),
        [bulk, more, kill] => {
            refuses && is_bulk(bulk) && is_of_cursor(more, false) && is_of_cursor(kill, true)
        }
        _ => false,
    };
    seen && server.log.len() == 2
}

/// How two inserts end by a schedule, by which the next page is refused or not, if the server saw what it should.
fn served(rt: &impl Abort, alloc: Global, meets: &[Meets], refuses: bool) -> Ended {
    let models = models_of(alloc, TWO).made(rt);
    let link = ModelServer::new(alloc, USUAL_SETUP, schedule(rt, alloc, meets));
    let (end, link) = executed_as::<VerboseBulkWriteResult, ModelServer>(
        alloc,
        link,
        models.as_slice(),
        false,
    );
    let saw = saw(link.server(), refuses);
    drop(link);
    drop(models);
    let found = how_ended(end);
    if saw {
        found
    } else {
        Ended::Invalid(Cause::Other)
    }
}

#[test]
fn the_next_page_gives_the_other_result(rt: HostRuntime) {
    let found = served(&rt, rt.alloc(), &[Meets::Page(1)], false);
    holds(
        &rt,
        found == Ended::Done([2, 0, 0, 0, 0], 2),
        "the results of two pages",
    );
}

#[test]
fn a_page_that_is_refused_ends_its_cursor(rt: HostRuntime) {
    let found = served(&rt, rt.alloc(), &[Meets::Page(1), Meets::Refused], true);
    holds(
        &rt,
        found == failed_page(Source::Command(43)),
        "a page that is refused",
    );
}
