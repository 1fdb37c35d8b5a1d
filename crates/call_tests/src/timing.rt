//! A run of one insert with a clock that goes on by a step at each reading: when the call starts and ends, and
//! when its session is lent and comes back.
use crate::asserting::{Made, alike};
use crate::schedules::calls;
use call_runs::run_calls;
use driver_attempt::{Client, Outside};
use driver_inputs::{Call, Outcome};
use driver_options::ClientOptions;
use driver_session::{PlainStore, StoreEvent};
use memory_links::{CountingIds, FakeLink, MemClock};
use rand_core::SeedableRng;
use rand_pcg::Pcg32;
use std::alloc::Global;
use std::process::Abort;
use test_parts::faking::{ALIKE, DONE, Given, fake_link};

/// When the one call started and ended.
fn times(outcomes: &[Outcome]) -> Option<(u64, u64)> {
    match outcomes {
        [outcome] => Some((outcome.started_ms, outcome.ended_ms)),
        _ => None,
    }
}

/// When the one session was lent, and when it came back.
fn lending(history: &[StoreEvent]) -> Option<(u64, u64)> {
    match history {
        [
            StoreEvent::Lent { now: lent, .. },
            StoreEvent::Back { now: back, .. },
        ] => Some((*lent, *back)),
        _ => None,
    }
}

/// Two pairs of times, where both are there.
fn both(one: Option<(u64, u64)>, other: Option<(u64, u64)>) -> Option<((u64, u64), (u64, u64))> {
    match (one, other) {
        (Some(one), Some(other)) => Some((one, other)),
        _ => None,
    }
}

/// The times of a run, and those of its lending, with a clock that reads 100 first and 7 more each time.
fn timed(
    rt: &impl Abort,
    alloc: Global,
    link: FakeLink,
    calls: &[Call],
) -> Option<((u64, u64), (u64, u64))> {
    let options = ClientOptions {
        client_number: 1,
        retry_writes: None,
        read_concern: None,
        write_concern: None,
    };
    let mut client = Client::new(options, PlainStore::new(alloc, CountingIds::new()));
    let mut outside = Outside {
        link,
        clock: MemClock::new(100, 7),
        words: Pcg32::seed_from_u64(1),
        call: 0,
    };
    let ran = run_calls(alloc, &mut client, &mut outside, calls);
    let lent = lending(client.store().history());
    drop(client);
    drop(outside);
    let outcomes = ran.made(rt);
    let times = times(outcomes.as_slice());
    drop(outcomes);
    both(times, lent)
}

/// The same of one insert over a link that answers its exchange.
fn timed_insert(rt: &impl Abort, alloc: Global) -> Option<((u64, u64), (u64, u64))> {
    let link = fake_link(alloc, ALIKE, &[Given::Reply(DONE)]).made(rt);
    let calls = calls(rt, alloc, 1);
    timed(rt, alloc, link, calls.as_slice())
}

#[test]
fn a_session_is_lent_and_comes_back_between_start_and_end(rt: HostRuntime) {
    alike(
        &rt,
        timed_insert(&rt, rt.alloc()),
        Some(((100, 121), (107, 114))),
        "the times of a call and of its lending",
    );
}
