//! Which documents of five in batches of two the answer of their insert lists as inserted, ordered and not, behind each
//! failure of a document or of a write concern: these indexes, each with the id under which it stands in the log.
use crate::asserting::{Made, alike};
use crate::runs::run_of;
use bson_lite::{Bson, ByIndex};
use driver_error::{Error, ErrorKind};
use driver_inputs::{Answer, Outcome};
use driver_link::Entry;
use script_run::Run;
use std::alloc::Global;
use std::process::Abort;

/// The insert, ordered and not.
const FIVE: &str =
    "{\"insertMany\":{\"ns\":\"a.b\",\"docs\":[[[\"x\",1]],[[\"x\",1]],[[\"x\",1]],[[\"x\",1]],[[\"x\",1]]]}}";

const FIVE_UNORDERED: &str =
    "{\"insertMany\":{\"ns\":\"a.b\",\"docs\":[[[\"x\",1]],[[\"x\",1]],[[\"x\",1]],[[\"x\",1]],[[\"x\",1]]],\"ordered\":false}}";

/// How many documents the insert has.
const COUNT: usize = 5;

/// A schedule, and the indexes that are listed where the insert is ordered and where it is not.
struct Row {
    schedule: &'static str,
    ordered: &'static [usize],
    unordered: &'static [usize],
}

const ROWS: [Row; 11] = [
    Row {
        schedule: "",
        ordered: &[0, 1, 2, 3, 4],
        unordered: &[0, 1, 2, 3, 4],
    },
    Row {
        schedule: "{\"serve\":{\"fail\":[[0,11000]]}}",
        ordered: &[],
        unordered: &[1, 2, 3, 4],
    },
    Row {
        schedule: "{\"serve\":{\"fail\":[[1,11000]]}}",
        ordered: &[0],
        unordered: &[0, 2, 3, 4],
    },
    Row {
        schedule: "\"serve\",{\"serve\":{\"fail\":[[0,11000]]}}",
        ordered: &[0, 1],
        unordered: &[0, 1, 3, 4],
    },
    Row {
        schedule: "\"serve\",{\"serve\":{\"fail\":[[1,11000]]}}",
        ordered: &[0, 1, 2],
        unordered: &[0, 1, 2, 4],
    },
    Row {
        schedule: "\"serve\",\"serve\",{\"serve\":{\"fail\":[[0,11000]]}}",
        ordered: &[0, 1, 2, 3],
        unordered: &[0, 1, 2, 3],
    },
    Row {
        schedule: "{\"serve\":{\"writeConcernError\":{\"code\":64,\"message\":\"x\"}}}",
        ordered: &[0, 1],
        unordered: &[0, 1, 2, 3, 4],
    },
    Row {
        schedule: "\"serve\",{\"serve\":{\"writeConcernError\":{\"code\":64,\"message\":\"x\"}}}",
        ordered: &[0, 1, 2, 3],
        unordered: &[0, 1, 2, 3, 4],
    },
    Row {
        schedule: "\"serve\",\"serve\",{\"serve\":{\"writeConcernError\":{\"code\":64,\"message\":\"x\"}}}",
        ordered: &[0, 1, 2, 3, 4],
        unordered: &[0, 1, 2, 3, 4],
    },
    // A document of the second send fails.
    Row {
        schedule: "\"serve\",\"lost\",{\"serve\":{\"fail\":[[1,11000]]}}",
        ordered: &[0, 1, 2],
        unordered: &[0, 1, 2, 4],
    },
    // The first send arrives after the run, so what failed before that is not listed.
    Row {
        schedule: "\"late\",{\"serve\":{\"fail\":[[0,11000]]}}",
        ordered: &[],
        unordered: &[1, 2, 3, 4],
    },
];

/// Whether the document of an index stands in a log, with this id.
fn stands(log: &[Entry], index: usize, id: &Bson) -> bool {
    for entry in log {
        if entry.place.index == index as u64 {
            return entry.written.get().document.get("_id") == Some(id);
        }
    }
    false
}

/// Whether an index is listed with the id that stands, or else is not to be listed and is not.
fn is_listed(log: &[Entry], ids: &ByIndex<Bson>, index: usize, wanted: bool) -> bool {
    match ids.get(index) {
        Some(id) => wanted && stands(log, index, id),
        None => !wanted,
    }
}

/// Whether these indexes are listed, and no others.
fn are_listed(log: &[Entry], ids: &ByIndex<Bson>, wanted: &[usize]) -> bool {
    for index in 0..COUNT {
        if !is_listed(log, ids, index, wanted.contains(&index)) {
            return false;
        }
    }
    ids.len() == wanted.len()
}

/// Whether an error lists these.
fn error_lists(log: &[Entry], error: &Error, wanted: &[usize]) -> bool {
    match error.kind() {
        ErrorKind::InsertMany(failures) => are_listed(log, &failures.get().inserted_ids, wanted),
        _ => false,
    }
}

/// Whether an outcome lists these.
fn lists(log: &[Entry], outcome: &Outcome, wanted: &[usize]) -> bool {
    match &outcome.result {
        Ok(Answer::Many(done)) => are_listed(log, &done.inserted_ids, wanted),
        Ok(_) => false,
        Err(error) => error_lists(log, error, wanted),
    }
}

/// Whether the one outcome of a run lists these.
fn run_lists(run: &Run, wanted: &[usize]) -> bool {
    let Some(outcomes) = &run.outcomes else {
        return false;
    };
    let Some(server) = &run.server else {
        return false;
    };
    match outcomes.as_slice() {
        [outcome] => lists(server.server().log.as_slice(), outcome, wanted),
        _ => false,
    }
}

/// A script of one call, whose server takes two documents a batch, with this schedule.
fn script_of(rt: &impl Abort, alloc: Global, call: &str, schedule: &str) -> String {
    let mut script = String::new(alloc);
    script.push_str("{\"calls\":[").made(rt);
    script.push_str(call).made(rt);
    script
        .push_str("],\"limits\":{\"batch\":2},\"schedule\":[")
        .made(rt);
    script.push_str(schedule).made(rt);
    script.push_str("],\"late\":[0]}").made(rt);
    script
}

/// Whether a call under a schedule lists these.
fn call_lists(
    rt: &impl Abort,
    alloc: Global,
    call: &str,
    schedule: &str,
    wanted: &[usize],
) -> bool {
    let script = script_of(rt, alloc, call, schedule);
    let run = run_of(rt, alloc, script.as_str(), 1000);
    let lists = run_lists(&run, wanted);
    drop(run);
    lists
}

/// Whether an insert under the schedule of a row lists what the row says.
fn row_lists(rt: &impl Abort, alloc: Global, row: &Row, ordered: bool) -> bool {
    if ordered {
        call_lists(rt, alloc, FIVE, row.schedule, row.ordered)
    } else {
        call_lists(rt, alloc, FIVE_UNORDERED, row.schedule, row.unordered)
    }
}

/// The schedule of the first row by which an insert lists something else.
fn first_wrong(rt: &impl Abort, alloc: Global, ordered: bool) -> Option<&'static str> {
    for row in ROWS.iter() {
        if !row_lists(rt, alloc, row, ordered) {
            return Some(row.schedule);
        }
    }
    None
}

#[test]
fn an_ordered_insert_lists_the_documents_before_a_failure(rt: HostRuntime) {
    let wrong = first_wrong(&rt, rt.alloc(), true);
    alike(
        &rt,
        wrong,
        None,
        "the schedule of an ordered insert that lists something else",
    );
}

#[test]
fn an_unordered_insert_lists_all_documents_that_did_not_fail(rt: HostRuntime) {
    let wrong = first_wrong(&rt, rt.alloc(), false);
    alike(
        &rt,
        wrong,
        None,
        "the schedule of an unordered insert that lists something else",
    );
}
