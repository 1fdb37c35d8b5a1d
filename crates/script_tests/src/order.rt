//! Failures that an insert of many answers out of order, as its report tells them.
use crate::asserting::{Made, holds};
use bson_lite::{Boxed, ByIndex, Bytes, List, Text};
use driver_error::{Error, ErrorKind, IndexedWriteError, InsertManyError};
use driver_inputs::Outcome;
use driver_script::read_script;
use script_run::{Run, report_text};
use std::alloc::Global;
use std::process::Abort;

const SCRIPT_OF_NONE: &str = "{\"calls\":[{\"insertMany\":{\"ns\":\"a.b\",\"docs\":[]}}]}";

/// The line of a call whose errors came in another order than that of their indexes.
const OUT_OF_ORDER: &str =
    "call 0 insertMany: err InsertMany errors=0:1,2:11000,2:3,7:-1 writeConcern=- labels=- source=-
ids: distinct
waiting: 0
totals: calls=1 ok=0 sends=0 entries=0
";

/// Write errors of these indexes and codes.
fn errors_of(rt: &impl Abort, alloc: Global, pairs: &[(usize, i32)]) -> List<IndexedWriteError> {
    let mut errors = List::new(alloc);
    for (index, code) in pairs {
        errors
            .push(IndexedWriteError {
                index: *index,
                code: *code,
                code_name: None,
                message: Text::from_str(alloc, "x").made(rt),
                details: None,
            })
            .made(rt);
    }
    errors
}

/// The outcome of an insert of many with these errors.
fn outcome_of(rt: &impl Abort, alloc: Global, errors: List<IndexedWriteError>) -> Outcome {
    let failures = InsertManyError {
        write_errors: Some(errors),
        write_concern_error: None,
        inserted_ids: ByIndex::new(alloc),
    };
    let kind = ErrorKind::InsertMany(Boxed::new(alloc, failures).made(rt));
    Outcome {
        result: Err(Error::new(alloc, kind, &[])),
        started_ms: 0,
        ended_ms: 0,
    }
}

/// The outcomes of one insert of many that ended with these errors.
fn outcomes_of(rt: &impl Abort, alloc: Global, pairs: &[(usize, i32)]) -> List<Outcome> {
    let errors = errors_of(rt, alloc, pairs);
    let mut outcomes = List::with_capacity(alloc, 1).made(rt);
    outcomes.push(outcome_of(rt, alloc, errors)).made(rt);
    outcomes
}

/// A run of one insert of many that ended with these errors.
fn run_of(rt: &impl Abort, alloc: Global, pairs: &[(usize, i32)]) -> Run {
    let outcomes = outcomes_of(rt, alloc, pairs);
    Run {
        script: Some(read_script(alloc, SCRIPT_OF_NONE.as_bytes()).made(rt)),
        outcomes: Some(outcomes),
        client: None,
        server: None,
    }
}

/// The report of such a run.
fn report_of(rt: &impl Abort, alloc: Global, pairs: &[(usize, i32)]) -> Bytes {
    let run = run_of(rt, alloc, pairs);
    let text = report_text(alloc, &run);
    drop(run);
    text.made(rt)
}

#[test]
fn failures_are_reported_in_order(rt: HostRuntime) {
    let text = report_of(&rt, rt.alloc(), &[(7, -1), (2, 11000), (0, 1), (2, 3)]);
    let same = text.as_slice() == OUT_OF_ORDER.as_bytes();
    holds(&rt, same, "the report of failures that came out of order");
}
