//! One write of each kind under every schedule of three items, with every order of late deliveries, by a client
//! that may send again and by one that may not: no place stands twice, every entry is the caller's own, each Ok has
//! the entry that tells its answer, and a send without a number goes out once at most. Behind its items a schedule
//! serves, so the shorter schedules are among these; and two that differ only in items that no send meets are one
//! run.
ghost use Rattle.driver_link.specs.WellFormed.{IsWellFormed};

use crate::asserting;
use crate::asserting::Made;
use crate::meeting::{Meets, items};
use crate::schedules::{deliver, order, orders, times};
use bson_lite::{Bson, Document, List, Text};
use call_runs::run_calls;
use driver_attempt::{Client, Outside};
use driver_error::{DeleteResult, Error, ErrorKind, IoKind, RETRYABLE_WRITE_ERROR, UpdateResult};
use driver_inputs::{Answer, Call, Outcome, SingleAnswer};
use driver_link::{Counted, Entry, Schedule, Send, Server, WriteKind, Written};
use driver_options::ClientOptions;
use driver_session::PlainStore;
use memory_links::{CountingIds, MemClock};
use model_server::{ModelServer, USUAL_SETUP};
use rand_core::SeedableRng;
use rand_pcg::Pcg32;
use std::alloc::Global;
use std::process::Abort;
use test_parts::writes::{Concern, KINDS, Kind, number, operators, usual, write_of};

/// So many schedules of three items there are, each with a code of three digits.
const SCHEDULES: u64 = 1000;

/// A write of a kind, by a client that may send again or not, under the schedule of a code.
#[derive(Clone, Copy)]
struct Tried {
    kind: Kind,
    retries: bool,
    code: u64,
}

/// What a digit meets.
fn meets(digit: u64) -> Meets {
    match digit {
        0 => Meets::Served,
        1 => Meets::Lost,
        2 => Meets::Late,
        3 => Meets::ReplyLost,
        4 => Meets::InterruptedBefore,
        5 => Meets::BareInterruptedBefore,
        6 => Meets::InterruptedAfterOne,
        7 => Meets::BareInterruptedAfterOne,
        8 => Meets::RefusedForNow,
        _ => Meets::BareRefusedForNow,
    }
}

/// The schedule of a code, whose first digit is what the first exchange meets.
fn schedule(rt: &impl Abort, alloc: Global, tried: Tried) -> Schedule
    ensures { IsWellFormed result }
{
    let met = [
        meets(tried.code / 100 % 10),
        meets(tried.code / 10 % 10),
        meets(tried.code % 10),
    ];
    Schedule {
        items: items(rt, alloc, &met),
        selects: List::new(alloc),
        check_outs: List::new(alloc),
        overloaded_check_outs: List::new(alloc),
        reauthentications: List::new(alloc),
        supports: List::new(alloc),
    }
}

/// The options of the client: writes are sent again where that is not forbidden.
fn options(tried: Tried) -> ClientOptions {
    ClientOptions {
        client_number: 1,
        retry_writes: if tried.retries { None } else { Some(false) },
        read_concern: None,
        write_concern: None,
    }
}

/// The one call of the kind.
fn calls(rt: &impl Abort, alloc: Global, kind: Kind) -> List<Call> {
    let mut calls = List::with_capacity(alloc, 1).made(rt);
    let write = write_of(alloc, usual(kind), Concern::Unset).made(rt);
    calls.push(Call::Single { write }).made(rt);
    calls
}

/// The outcomes of the call, and the server after it.
fn run(rt: &impl Abort, alloc: Global, tried: Tried) -> (List<Outcome>, ModelServer) {
    let calls = calls(rt, alloc, tried.kind);
    let schedule = schedule(rt, alloc, tried);
    let mut client = Client::new(options(tried), PlainStore::new(alloc, CountingIds::new()));
    let mut outside = Outside {
        link: ModelServer::new(alloc, USUAL_SETUP, schedule),
        clock: MemClock::new(0, 0),
        words: Pcg32::seed_from_u64(1),
        call: 0,
    };
    let ran = run_calls(alloc, &mut client, &mut outside, calls.as_slice());
    drop(calls);
    drop(client);
    let Outside {
        link,
        clock: _,
        words: _,
        call: _,
    } = outside;
    (ran.made(rt), link)
}

/// The statement of an update: `{q: {x: 1}, u: CHANGE}`, and `multi: true` where it changes all.
fn update_statement(rt: &impl Abort, alloc: Global, change: Document, multi: bool) -> Document {
    let mut statement = Document::new(alloc);
    statement
        .push("q", Bson::Document(number(alloc, "x", 1).made(rt)))
        .made(rt);
    statement.push("u", Bson::Document(change)).made(rt);
    if multi {
        statement.push("multi", Bson::Boolean(true)).made(rt);
    }
    statement
}

/// The statement of a delete: `{q: {x: 1}, limit: LIMIT}`.
fn delete_statement(rt: &impl Abort, alloc: Global, limit: i32) -> Document {
    let mut statement = Document::new(alloc);
    statement
        .push("q", Bson::Document(number(alloc, "x", 1).made(rt)))
        .made(rt);
    statement.push("limit", Bson::Int32(limit)).made(rt);
    statement
}

/// The body of a findAndModify: `{findAndModify: "items", query: {x: 1}, update: CHANGE}`, or `remove: true` where
/// there is no change.
fn find_body(rt: &impl Abort, alloc: Global, change: Option<Document>) -> Document {
    let mut body = Document::new(alloc);
    body.push(
        "findAndModify",
        Bson::String(Text::from_str(alloc, "items").made(rt)),
    )
    .made(rt);
    body.push("query", Bson::Document(number(alloc, "x", 1).made(rt)))
        .made(rt);
    match change {
        Some(change) => body.push("update", Bson::Document(change)).made(rt),
        None => body.push("remove", Bson::Boolean(true)).made(rt),
    }
    body
}

/// What a server is given of a kind: its statement, the body of a findAndModify, or the caller's document, which has
/// no id yet.
fn given(rt: &impl Abort, alloc: Global, kind: Kind) -> Document {
    let set = number(alloc, "y", 2).made(rt);
    match kind {
        Kind::InsertOne => set,
        Kind::UpdateOne => update_statement(rt, alloc, operators(alloc, set).made(rt), false),
        Kind::UpdateMany => update_statement(rt, alloc, operators(alloc, set).made(rt), true),
        Kind::ReplaceOne => update_statement(rt, alloc, set, false),
        Kind::DeleteOne => delete_statement(rt, alloc, 1),
        Kind::DeleteMany => delete_statement(rt, alloc, 0),
        Kind::FindOneAndDelete => find_body(rt, alloc, None),
        Kind::FindOneAndUpdate => find_body(rt, alloc, Some(operators(alloc, set).made(rt))),
        Kind::FindOneAndReplace => find_body(rt, alloc, Some(set)),
    }
}

/// Whether a kind is sent as an update.
fn is_update(kind: Kind) -> bool {
    matches!(kind, Kind::UpdateOne | Kind::UpdateMany | Kind::ReplaceOne)
}

/// Whether a kind is sent as a delete.
fn is_delete(kind: Kind) -> bool {
    matches!(kind, Kind::DeleteOne | Kind::DeleteMany)
}

/// Whether a kind is sent as a findAndModify.
fn is_find(kind: Kind) -> bool {
    matches!(
        kind,
        Kind::FindOneAndDelete | Kind::FindOneAndUpdate | Kind::FindOneAndReplace
    )
}

/// Whether a document is `{y: 2}` with one id of an object put first.
fn is_with_id(document: &Document) -> bool {
    match document.pairs() {
        [id, own] if id.key.as_str() == "_id" && own.key.as_str() == "y" => {
            match (&id.value, &own.value) {
                (Bson::ObjectId(_), Bson::Int32(number)) => *number == 2,
                _ => false,
            }
        }
        _ => false,
    }
}

/// Whether the server was given this document of that kind.
fn is_given(written: &Written, kind: Kind, given: &Document) -> bool {
    match written.kind {
        WriteKind::Insert => kind == Kind::InsertOne && is_with_id(&written.document),
        WriteKind::Update => is_update(kind) && written.document == *given,
        WriteKind::Delete => is_delete(kind) && written.document == *given,
        WriteKind::FindAndModify => is_find(kind) && written.document == *given,
    }
}

/// Whether an entry is the caller's own write, in the first place of the one call.
fn is_own(entry: &Entry, kind: Kind, given: &Document) -> bool {
    entry.place.call == 0
        && entry.place.index == 0
        && entry.written.get().namespace.db.as_str() == "shop"
        && entry.written.get().namespace.coll.as_str() == "items"
        && is_given(entry.written.get(), kind, given)
}

/// Whether each entry is the caller's own, and stands at its place alone.
fn is_sound(log: &[Entry], kind: Kind, given: &Document) -> bool {
    for entry in log {
        if !is_own(entry, kind, given) || times(log, entry) != 1 {
            return false;
        }
    }
    true
}

/// Whether a count of a server is a count of an answer.
fn is_count(count: i64, told: u64) -> bool {
    count >= 0 && count as u64 == told
}

/// Whether an answer to an update tells the counts of a result.
fn tells_update(counted: &Counted, done: &UpdateResult) -> bool {
    is_count(counted.n, done.matched_count)
        && is_count(counted.modified, done.modified_count)
        && counted.upserted.is_none()
        && done.upserted_id.is_none()
}

/// The same of an answer to a delete.
fn tells_delete(counted: &Counted, done: &DeleteResult) -> bool {
    is_count(counted.n, done.deleted_count)
}

/// Whether an answer to a findAndModify is the document of a result, or none where that has none.
fn tells_found(counted: &Counted, found: &Option<Document>) -> bool {
    match (&counted.value, found) {
        (Some(value), Some(found)) => *value == *found,
        (None, None) => true,
        _ => false,
    }
}

/// Whether an entry tells an answer of the kind.
fn tells(entry: &Entry, kind: Kind, answer: &SingleAnswer) -> bool {
    match answer {
        SingleAnswer::Inserted(done) => kind == Kind::InsertOne
            && entry.written.get().document.get("_id") == Some(&done.inserted_id),
        SingleAnswer::Updated(done) => is_update(kind) && tells_update(&entry.result, done),
        SingleAnswer::Deleted(done) => is_delete(kind) && tells_delete(&entry.result, done),
        SingleAnswer::Found(found) => is_find(kind) && tells_found(&entry.result, found),
    }
}

/// Whether an entry of the call stands, and tells its answer.
fn stands(log: &[Entry], kind: Kind, answer: &SingleAnswer) -> bool {
    match log {
        [entry] => tells(entry, kind, answer),
        _ => false,
    }
}

/// Whether a write of a kind changes one document, so that it may be sent again.
fn is_of_one(kind: Kind) -> bool {
    !matches!(kind, Kind::UpdateMany | Kind::DeleteMany)
}

/// Whether a write is sent under a number, and may be sent again under it.
fn is_numbered(tried: Tried) -> bool {
    tried.retries && is_of_one(tried.kind)
}

/// Whether an error is that of the schedule: a connection that was reset, with the label of a retryable write
/// just where there is a number, or the code of an interruption.
fn is_scheduled(error: &Error, numbered: bool) -> bool {
    match error.kind() {
        ErrorKind::Io(kind) => {
            *kind == IoKind::ConnectionReset
                && error.has_own_label(RETRYABLE_WRITE_ERROR) == numbered
        }
        ErrorKind::Command(failed) => failed.code == 11600,
        _ => false,
    }
}

/// Whether the one outcome is an Ok whose entry stands, or such an error.
fn has_ended(log: &[Entry], tried: Tried, outcomes: &[Outcome]) -> bool {
    let [outcome] = outcomes else {
        return false;
    };
    match &outcome.result {
        Ok(Answer::Single(answer)) => stands(log, tried.kind, answer),
        Ok(_) => false,
        Err(error) => is_scheduled(error, is_numbered(tried)),
    }
}

/// Whether each send has the number 1, or none has one.
fn are_numbered(trace: &[Send], numbered: bool) -> bool {
    let wanted = if numbered { Some(1) } else { None };
    for send in trace {
        if send.number != wanted {
            return false;
        }
    }
    true
}

/// Whether the sends are one, or at most two under a number.
fn is_sent(trace: &[Send], numbered: bool) -> bool {
    let most = if numbered { 2 } else { 1 };
    trace.len() >= 1 && trace.len() <= most && are_numbered(trace, numbered)
}

/// Whether a server and the outcomes hold what a write is to keep.
fn holds(
    rt: &impl Abort,
    alloc: Global,
    server: &Server,
    tried: Tried,
    outcomes: &[Outcome],
) -> bool {
    let given = given(rt, alloc, tried.kind);
    let sound = is_sound(server.log.as_slice(), tried.kind, &given);
    drop(given);
    sound
        && has_ended(server.log.as_slice(), tried, outcomes)
        && is_sent(server.trace.as_slice(), is_numbered(tried))
}

/// How many sends a write made, and how many of them wait.
#[derive(Clone, Copy)]
struct Sends {
    made: u64,
    waiting: u64,
}

/// The sends of a schedule that holds before late deliveries.
fn first_sends(rt: &impl Abort, alloc: Global, tried: Tried) -> Option<Sends> {
    let (outcomes, server) = run(rt, alloc, tried);
    let well = holds(rt, alloc, server.server(), tried, outcomes.as_slice());
    let sends = Sends {
        made: server.server().trace.len() as u64,
        waiting: server.server().waiting.len() as u64,
    };
    drop(outcomes);
    drop(server);
    if well { Some(sends) } else { None }
}

/// Whether a schedule holds after the late deliveries of an order.
fn order_holds(rt: &impl Abort, alloc: Global, tried: Tried, picks: &[u64]) -> bool {
    let (outcomes, mut server) = run(rt, alloc, tried);
    let well = deliver(&mut server, alloc, picks)
        && holds(rt, alloc, server.server(), tried, outcomes.as_slice());
    drop(outcomes);
    drop(server);
    well
}

/// Whether a schedule holds after each order of so many late deliveries.
fn orders_hold(rt: &impl Abort, alloc: Global, tried: Tried, waiting: u64) -> bool {
    let Some(orders) = orders(waiting) else {
        return false;
    };
    for number in 0..orders {
        let picks = order(rt, alloc, number, waiting);
        if !order_holds(rt, alloc, tried, picks.as_slice()) {
            return false;
        }
    }
    true
}

/// How many sends a schedule makes that holds before late deliveries and after each order of them.
fn sends_held(rt: &impl Abort, alloc: Global, tried: Tried) -> Option<u64> {
    let sends = first_sends(rt, alloc, tried)?;
    if sends.waiting == 0 || orders_hold(rt, alloc, tried, sends.waiting) {
        return Some(sends.made);
    }
    None
}

/// How many codes in a row have the same items for so many sends.
fn alike(sends: u64) -> u64 {
    match sends {
        0 => 1000,
        1 => 100,
        2 => 10,
        _ => 1,
    }
}

/// The number of the first schedule that does not hold. After a run the next one is the first whose items differ
/// where that run met them.
fn first_wrong(rt: &impl Abort, alloc: Global, kind: Kind, retries: bool) -> Option<u64> {
    let mut next = 0;
    for code in 0..SCHEDULES {
        if code < next {
            continue;
        }
        let tried = Tried {
            kind,
            retries,
            code,
        };
        let Some(sends) = sends_held(rt, alloc, tried) else {
            return Some(code);
        };
        next = code.saturating_add(alike(sends));
    }
    None
}

#[test]
fn a_write_of_each_kind_stands_once(rt: HostRuntime) {
    for kind in KINDS {
        asserting::alike(
            &rt,
            (*kind, first_wrong(&rt, rt.alloc(), *kind, true)),
            (*kind, None),
            "a kind by a client that may send again, and the first schedule that does not hold",
        );
    }
}

#[test]
fn a_write_that_may_not_be_sent_again_goes_out_once(rt: HostRuntime) {
    for kind in KINDS {
        asserting::alike(
            &rt,
            (*kind, first_wrong(&rt, rt.alloc(), *kind, false)),
            (*kind, None),
            "a kind by a client that may not send again, and the first schedule that does not hold",
        );
    }
}
