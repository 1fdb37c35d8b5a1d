//! An insert of 10,000 documents goes out in one batch, and each of them stands.
use crate::asserting::{Made, holds};
use crate::runs::ran;
use std::alloc::Global;
use std::process::Abort;

/// How many documents the call has.
const LONG: usize = 10_000;

/// The script of one insert of so many documents.
fn long_script(rt: &impl Abort, alloc: Global, count: usize) -> String {
    let mut script = String::new(alloc);
    script
        .push_str("{\"calls\":[{\"insertMany\":{\"ns\":\"a.b\",\"docs\":[")
        .made(rt);
    for at in 0..count {
        if at > 0 {
            script.push_str(",").made(rt);
        }
        script.push_str("[[\"x\",1]]").made(rt);
    }
    script.push_str("]}}]}").made(rt);
    script
}

/// The report's line of a send of so many documents.
fn long_send(rt: &impl Abort, alloc: Global, count: usize) -> String {
    let mut line = String::new(alloc);
    line.push_str("send 0: insert session=1 number=1 places=")
        .made(rt);
    for at in 0..count {
        if at > 0 {
            line.push_str(",").made(rt);
        }
        write!(line, "0.{at}").made(rt);
    }
    line.push_str("\n").made(rt);
    line
}

/// The report's lines of so many entries.
fn long_entries(rt: &impl Abort, alloc: Global, count: usize) -> String {
    let mut lines = String::new(alloc);
    for at in 0..count {
        write!(lines, "entry {at}: 0.{at} session=1 number=1 n=1\n").made(rt);
    }
    lines
}

/// The report of such an insert.
fn long_report(rt: &impl Abort, alloc: Global, count: usize) -> String {
    let send = long_send(rt, alloc, count);
    let entries = long_entries(rt, alloc, count);
    let mut report = String::new(alloc);
    write!(report, "call 0 insertMany: ok inserted={count}\n").made(rt);
    report.push_str(send.as_str()).made(rt);
    report.push_str(entries.as_str()).made(rt);
    report.push_str("ids: distinct\nwaiting: 0\n").made(rt);
    write!(report, "totals: calls=1 ok=1 sends=1 entries={count}\n").made(rt);
    report
}

/// Whether an insert of so many documents goes out in one batch, and each of them stands.
fn goes_out_at_once(rt: &impl Abort, alloc: Global, count: usize) -> bool {
    let script = long_script(rt, alloc, count);
    let report = long_report(rt, alloc, count);
    let (status, text) = ran(rt, alloc, script.as_str(), None, report.len());
    status == 0 && text.as_slice() == report.as_bytes()
}

#[test]
fn ten_thousand_documents_are_inserted_by_one_call(rt: HostRuntime) {
    holds(
        &rt,
        goes_out_at_once(&rt, rt.alloc(), LONG),
        "status and report of an insert of 10000 documents",
    );
}
