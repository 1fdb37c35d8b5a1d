//! Every short schedule over a few inserts, with every order of late deliveries: no place stands twice, every
//! entry is the caller's own, each Ok is done, and each error is that of a connection that was reset.
ghost use Rattle.std.specs.Prelude.{All};
ghost use Rattle.driver_link.specs.WellFormed.{IsItem, IsWellFormed};

use crate::asserting::{Made, alike};
use bson_lite::{Bson, Document, List, Namespace, Text};
use call_runs::run_calls;
use driver_attempt::{Client, Outside};
use driver_error::{Error, ErrorKind, IoKind, RETRYABLE_WRITE_ERROR};
use driver_inputs::{Answer, Call, InsertWrite, Outcome, SingleAnswer, SingleWrite};
use driver_link::{Entry, Item, Schedule, Scheduled, Server, WriteKind, Written};
use driver_options::{ClientOptions, InsertManyOptions};
use driver_session::PlainStore;
use memory_links::{CountingIds, MemClock};
use model_server::{ModelServer, USUAL_SETUP};
use rand_core::SeedableRng;
use rand_pcg::Pcg32;
use std::alloc::Global;
use std::process::Abort;

/// So many items a schedule has, and so many schedules of that length there are.
const LENGTHS: [(u64, u64); 5] = [(0, 1), (1, 4), (2, 16), (3, 64), (4, 256)];

/// The item of a digit: served, lost, late, or its reply lost.
fn item(alloc: Global, digit: u64) -> Item
    ensures { IsItem result }
{
    match digit {
        0 => Item::Serve {
            results: List::new(alloc),
            fail: List::new(alloc),
            write_concern_error: None,
            page: None,
        },
        1 => Item::Lost,
        2 => Item::Late,
        _ => Item::ReplyLost,
    }
}

/// The items of a number in base four, its last digit first.
fn items(rt: &impl Abort, alloc: Global, code: u64, length: u64) -> List<Scheduled>
    ensures { All (λ step. IsItem step.item) result }
{
    let mut steps = List::new(alloc);
    let mut rest = code;
    'items: for _ in 0..length {
        steps
            .push(Scheduled {
                deliver: List::new(alloc),
                item: item(alloc, rest % 4),
            })
            .made(rt);
        rest /= 4;
    }
    steps
}

fn schedule(rt: &impl Abort, alloc: Global, code: u64, length: u64) -> Schedule
    ensures { IsWellFormed result }
{
    Schedule {
        items: items(rt, alloc, code, length),
        selects: List::new(alloc),
        check_outs: List::new(alloc),
        overloaded_check_outs: List::new(alloc),
        reauthentications: List::new(alloc),
        supports: List::new(alloc),
    }
}

/// The insert of `{x: number}`.
fn call(rt: &impl Abort, alloc: Global, number: i32) -> Call {
    let mut document = Document::new(alloc);
    document.push("x", Bson::Int32(number)).made(rt);
    let namespace = Namespace {
        db: Text::from_str(alloc, "shop").made(rt),
        coll: Text::from_str(alloc, "items").made(rt),
    };
    Call::Single {
        write: SingleWrite::InsertOne(InsertWrite {
            namespace,
            document,
            options: InsertManyOptions::default(),
        }),
    }
}

pub(crate) fn calls(rt: &impl Abort, alloc: Global, count: i32) -> List<Call> {
    let mut calls = List::new(alloc);
    for number in 0..count {
        calls.push(call(rt, alloc, number)).made(rt);
    }
    calls
}

/// The outcomes of so many inserts under a schedule, and the server after them.
fn run(
    rt: &impl Abort,
    alloc: Global,
    count: i32,
    code: u64,
    length: u64,
) -> (List<Outcome>, ModelServer) {
    let calls = calls(rt, alloc, count);
    let schedule = schedule(rt, alloc, code, length);
    let options = ClientOptions {
        client_number: 1,
        retry_writes: None,
        read_concern: None,
        write_concern: None,
    };
    let mut client = Client::new(options, PlainStore::new(alloc, CountingIds::new()));
    let mut outside = Outside {
        link: ModelServer::new(alloc, USUAL_SETUP, schedule),
        clock: MemClock::new(0, 0),
        words: Pcg32::seed_from_u64(1),
        call: 0,
    };
    let ran = run_calls(alloc, &mut client, &mut outside, calls.as_slice());
    drop(calls);
    drop(client);
    let Outside {
        link,
        clock: _,
        words: _,
        call: _,
    } = outside;
    (ran.made(rt), link)
}

/// Whether two entries have one place.
fn is_same_place(a: &Entry, b: &Entry) -> bool {
    a.place.call == b.place.call && a.place.index == b.place.index
}

/// How many entries have the place of this one.
pub(crate) fn times(log: &[Entry], entry: &Entry) -> u64 {
    let mut count: u64 = 0;
    for other in log {
        if is_same_place(other, entry) {
            count = count.saturating_add(1);
        }
    }
    count
}

/// The number in the caller's document with one id of an object put first, if it is such.
fn number_in(document: &Document) -> Option<i32> {
    match document.pairs() {
        [id, own] if id.key.as_str() == "_id" && own.key.as_str() == "x" => {
            match (&id.value, &own.value) {
                (Bson::ObjectId(_), Bson::Int32(number)) => Some(*number),
                _ => None,
            }
        }
        _ => None,
    }
}

/// Whether a write is an insert into the caller's collection.
fn is_insert(written: &Written) -> bool {
    matches!(written.kind, WriteKind::Insert)
        && written.namespace.db.as_str() == "shop"
        && written.namespace.coll.as_str() == "items"
}

/// Whether an entry is the insert that the caller gave as the call of its place.
fn is_own(entry: &Entry, count: i32) -> bool {
    let Some(number) = number_in(&entry.written.get().document) else {
        return false;
    };
    number >= 0
        && number < count
        && entry.place.call == number as u64
        && entry.place.index == 0
        && is_insert(entry.written.get())
}

/// Whether each entry is the caller's own, and stands at its place alone.
fn is_sound(log: &[Entry], count: i32) -> bool {
    for entry in log {
        if !is_own(entry, count) || times(log, entry) != 1 {
            return false;
        }
    }
    true
}

/// Whether an entry of this call stands, with this id.
fn stands(log: &[Entry], call: u64, id: &Bson) -> bool {
    for entry in log {
        if entry.place.call == call {
            return entry.written.get().document.get("_id") == Some(id);
        }
    }
    false
}

/// Whether an error is that of a connection that was reset, with the label of a retryable write.
fn is_reset(error: &Error) -> bool {
    let reset = match error.kind() {
        ErrorKind::Io(kind) => *kind == IoKind::ConnectionReset,
        _ => false,
    };
    reset && error.has_own_label(RETRYABLE_WRITE_ERROR)
}

/// Whether an outcome is an Ok whose write stands with its id, or such an error.
fn is_ended(log: &[Entry], call: u64, outcome: &Outcome) -> bool {
    match &outcome.result {
        Ok(Answer::Single(SingleAnswer::Inserted(result))) => {
            stands(log, call, &result.inserted_id)
        }
        Ok(_) => false,
        Err(error) => is_reset(error),
    }
}

/// Whether each outcome ended so.
fn have_ended(log: &[Entry], outcomes: &[Outcome]) -> bool {
    let mut call: u64 = 0;
    for outcome in outcomes {
        if !is_ended(log, call, outcome) {
            return false;
        }
        call = call.saturating_add(1);
    }
    true
}

/// Whether a number is among these.
fn is_among(numbers: &[u64], number: u64) -> bool {
    for other in numbers {
        if *other == number {
            return true;
        }
    }
    false
}

/// The number at a place of those below a count that are not among these, from 0.
fn unused(numbers: &[u64], count: u64, at: u64) -> u64 {
    let mut left = at;
    for number in 0..count {
        if is_among(numbers, number) {
            continue;
        }
        if left == 0 {
            return number;
        }
        left -= 1;
    }
    count
}

/// The order of a number of all numbers below a count.
pub(crate) fn order(rt: &impl Abort, alloc: Global, code: u64, count: u64) -> List<u64> {
    let mut order = List::new(alloc);
    let mut rest = code;
    for used in 0..count {
        let left = count - used;
        let next = unused(order.as_slice(), count, rest % left);
        order.push(next).made(rt);
        rest /= left;
    }
    order
}

/// How many orders so many numbers have, for five at most.
pub(crate) fn orders(count: u64) -> Option<u64> {
    match count {
        0 | 1 => Some(1),
        2 => Some(2),
        3 => Some(6),
        4 => Some(24),
        5 => Some(120),
        _ => None,
    }
}

/// Serves the waiting send of this number.
fn delivers(server: &mut ModelServer, alloc: Global, pick: u64) -> bool {
    match server.deliver_late(alloc, pick) {
        Ok(delivered) => delivered,
        Err(error) => {
            drop(error);
            false
        }
    }
}

/// Serves the waiting sends in this order.
pub(crate) fn deliver(server: &mut ModelServer, alloc: Global, order: &[u64]) -> bool {
    for pick in order {
        if !delivers(server, alloc, *pick) {
            return false;
        }
    }
    true
}

fn holds(server: &Server, outcomes: &[Outcome], count: i32) -> bool {
    let log = server.log.as_slice();
    count >= 0
        && outcomes.len() == count as usize
        && is_sound(log, count)
        && have_ended(log, outcomes)
}

/// Whether a schedule holds before late deliveries, and how many sends wait.
fn waiting(rt: &impl Abort, alloc: Global, count: i32, code: u64, length: u64) -> Option<u64> {
    let (outcomes, server) = run(rt, alloc, count, code, length);
    let well = holds(server.server(), outcomes.as_slice(), count);
    let waiting = server.server().waiting.len() as u64;
    drop(outcomes);
    drop(server);
    if well { Some(waiting) } else { None }
}

/// Whether a schedule holds after the late deliveries of an order.
fn order_holds(
    rt: &impl Abort,
    alloc: Global,
    count: i32,
    code: u64,
    length: u64,
    picks: &[u64],
) -> bool {
    let (outcomes, mut server) = run(rt, alloc, count, code, length);
    let well = deliver(&mut server, alloc, picks)
        && holds(server.server(), outcomes.as_slice(), count);
    drop(outcomes);
    drop(server);
    well
}

/// Whether a schedule holds before late deliveries and after each order of them.
fn schedule_holds(rt: &impl Abort, alloc: Global, count: i32, code: u64, length: u64) -> bool {
    let Some(waiting) = waiting(rt, alloc, count, code, length) else {
        return false;
    };
    let Some(orders) = orders(waiting) else {
        return false;
    };
    for number in 0..orders {
        let picks = order(rt, alloc, number, waiting);
        if !order_holds(rt, alloc, count, code, length, picks.as_slice()) {
            return false;
        }
    }
    true
}

/// The number of the first schedule of a length that does not hold.
fn wrong_of_length(
    rt: &impl Abort,
    alloc: Global,
    count: i32,
    length: u64,
    schedules: u64,
) -> Option<u64> {
    for code in 0..schedules {
        if !schedule_holds(rt, alloc, count, code, length) {
            return Some(code);
        }
    }
    None
}

/// The length and the number of the first schedule of up to four items that does not hold.
fn first_wrong(rt: &impl Abort, alloc: Global, count: i32) -> Option<(u64, u64)> {
    for (length, schedules) in LENGTHS {
        if let Some(code) = wrong_of_length(rt, alloc, count, length, schedules) {
            return Some((length, code));
        }
    }
    None
}

#[test]
fn one_insert_stands_once(rt: HostRuntime) {
    alike(
        &rt,
        first_wrong(&rt, rt.alloc(), 1),
        None,
        "the first schedule of one insert that does not hold",
    );
}

#[test]
fn two_inserts_stand_once(rt: HostRuntime) {
    alike(
        &rt,
        first_wrong(&rt, rt.alloc(), 2),
        None,
        "the first schedule of two inserts that does not hold",
    );
}

#[test]
fn three_inserts_stand_once(rt: HostRuntime) {
    alike(
        &rt,
        first_wrong(&rt, rt.alloc(), 3),
        None,
        "the first schedule of three inserts that does not hold",
    );
}
