//! A bulk write of 10,000 inserts into two collections goes out in three batches, and each of them stands.
use crate::asserting::{Made, holds};
use crate::runs::ran;
use std::alloc::Global;
use std::process::Abort;

/// How many inserts a long bulk write has, and how many of them go out at once.
const LONG: usize = 10_000;

const AT_ONCE: usize = 4_000;

/// The script of so many inserts into two collections in turn, by a bulk write in batches.
fn long_script(rt: &impl Abort, alloc: Global, count: usize, batch: usize) -> String {
    let mut script = String::new(alloc);
    script.push_str("{\"limits\":{\"batch\":").made(rt);
    write!(script, "{batch}").made(rt);
    script
        .push_str("},\"calls\":[{\"bulkWrite\":{\"models\":[")
        .made(rt);
    for at in 0..count {
        if at > 0 {
            script.push_str(",").made(rt);
        }
        script.push_str(long_model(at)).made(rt);
    }
    script.push_str("]}}]}").made(rt);
    script
}

/// The insert at an index.
fn long_model(at: usize) -> &'static str {
    if at % 2 == 0 {
        "{\"insertOne\":{\"ns\":\"gen.a\",\"doc\":[[\"x\",1]]}}"
    } else {
        "{\"insertOne\":{\"ns\":\"gen.b\",\"doc\":[[\"x\",1]]}}"
    }
}

/// The places from one index to another.
fn long_places(rt: &impl Abort, alloc: Global, first: usize, end: usize) -> String {
    let mut places = String::new(alloc);
    for at in first..end {
        if at > first {
            places.push_str(",").made(rt);
        }
        write!(places, "0.{at}").made(rt);
    }
    places
}

/// The report's line of the send of a batch.
fn long_send(rt: &impl Abort, alloc: Global, batch: usize, first: usize, end: usize) -> String {
    let places = long_places(rt, alloc, first, end);
    let number = batch.saturating_add(1);
    let mut line = String::new(alloc);
    write!(
        line,
        "send {batch}: bulkWrite session=1 number={number} places="
    )
    .made(rt);
    line.push_str(places.as_str()).made(rt);
    line.push_str("\n").made(rt);
    line
}

/// The report's lines of all sends, three of them.
fn long_sends(rt: &impl Abort, alloc: Global) -> String {
    let mut lines = String::new(alloc);
    for (batch, first, end) in [(0, 0, 4_000), (1, 4_000, 8_000), (2, 8_000, LONG)] {
        let line = long_send(rt, alloc, batch, first, end);
        lines.push_str(line.as_str()).made(rt);
    }
    lines
}

/// The report's lines of so many entries.
fn long_entries(rt: &impl Abort, alloc: Global, count: usize, batch: usize) -> String {
    let mut lines = String::new(alloc);
    let mut number: usize = 1;
    let mut left = batch;
    for at in 0..count {
        if left == 0 {
            number = number.saturating_add(1);
            left = batch;
        }
        left = left.saturating_sub(1);
        write!(lines, "entry {at}: 0.{at} session=1 number={number} n=1\n").made(rt);
    }
    lines
}

/// The report of such a bulk write.
fn long_report(rt: &impl Abort, alloc: Global) -> String {
    let sends = long_sends(rt, alloc);
    let entries = long_entries(rt, alloc, LONG, AT_ONCE);
    let mut report = String::new(alloc);
    report
        .push_str("call 0 bulkWrite: ok inserted=10000 matched=0 modified=0 upserted=0 deleted=0\n")
        .made(rt);
    report.push_str(sends.as_str()).made(rt);
    report.push_str(entries.as_str()).made(rt);
    report.push_str("ids: distinct\nwaiting: 0\n").made(rt);
    report
        .push_str("totals: calls=1 ok=1 sends=3 entries=10000\n")
        .made(rt);
    report
}

/// Whether ten thousand inserts go out in three batches, and each of them stands.
fn goes_out_in_three(rt: &impl Abort, alloc: Global) -> bool {
    let script = long_script(rt, alloc, LONG, AT_ONCE);
    let report = long_report(rt, alloc);
    let (status, text) = ran(rt, alloc, script.as_str(), None, report.len());
    status == 0 && text.as_slice() == report.as_bytes()
}

#[test]
fn ten_thousand_writes_are_made_by_one_call(rt: HostRuntime) {
    holds(
        &rt,
        goes_out_in_three(&rt, rt.alloc()),
        "status and report of a bulk write of 10000 inserts",
    );
}
