//! What the batches of a bulk write came to so far: what a batch more makes of it, and whether the next one
//! is made.
ghost use Rattle.driver_error.specs.BulkErrors.{failures_in};
ghost use Rattle.bulk_outcomes.specs.BulkResults.{summary_spec, verbose_spec};
ghost use Rattle.driver_error.specs.Error.{kind_of, source_of};
ghost use Rattle.bulk_outcomes.specs.Status.{IsBulkOfKind, IsOpen, Stands};

use crate::asserting::{Made, alike};
use crate::failures::{
    A, B, Cause, Counts, EARLIER, Failed, LATER as LATER_RESULTS, MERGED, MOST, Mark, ONE, Results,
    SUMS, are_counts, are_results, are_verbose_failures, bulk, failures, failures_of, is_bulk,
    is_other, is_refusal, other, sourced, summary, verbose, verbose_failures,
};
use bulk_outcomes::ExecutionStatus;
use driver_error::{Error, Result, SummaryBulkWriteResult, VerboseBulkWriteResult};
use std::alloc::Global;
use std::process::Abort;

/// What stood before a batch: the failures have the first mark, and no source.
#[derive(Clone, Copy)]
enum Stood {
    Nothing,
    Success(Counts),
    Failed(Failed),
}

/// Why a batch failed: failures of the bulk write with the later mark over a source, or another error.
#[derive(Clone, Copy)]
enum Failure {
    Failed(Failed, Option<Cause>),
    Other(Cause),
}

/// What stands after it.
#[derive(Clone, Copy)]
enum After {
    Success(Counts),
    Failed(Failed, Mark, Option<Cause>),
    Other(Cause),
    /// Nothing: a sum of counts leaves 64 bits, and the call says so.
    Refused,
}

/// A batch that was answered Ok: what stood, what it told, and what stands now.
struct Succeeded {
    shows: &'static str,
    before: Stood,
    found: Counts,
    after: After,
}

/// A batch that failed, in the same way.
struct Failing {
    shows: &'static str,
    before: Stood,
    comes: Failure,
    after: After,
}

/// What stands where it is asked whether the next batch is made.
#[derive(Clone, Copy)]
enum Now {
    Nothing,
    Success,
    Error(Failure),
}

/// What stands, and whether the next batch is made where batches are not ordered and where they are.
struct Going {
    shows: &'static str,
    now: Now,
    unordered: bool,
    ordered: bool,
}

/// Two batches with verbose results, the errors of each where it failed, and those of both.
struct Verbosely {
    shows: &'static str,
    before: Option<Failed>,
    comes: Option<Failed>,
    after: Option<Failed>,
}

/// The failures of a first batch and of a later one, and both together.
const FIRST: Failed = Failed {
    concerns: &[64, 91],
    writes: &[(1, 11000), (4, 121)],
    partial: Some(A),
};

const LATER: Failed = Failed {
    concerns: &[79],
    writes: &[(6, 2), (8, 11000)],
    partial: Some(B),
};

const JOINED: Failed = Failed {
    concerns: &[64, 91, 79],
    writes: &[(1, 11000), (4, 121), (6, 2), (8, 11000)],
    partial: Some(SUMS),
};

/// The first one's errors with the sums of both results, and with the later one's result.
const FIRST_SUMS: Failed = Failed {
    concerns: &[64, 91],
    writes: &[(1, 11000), (4, 121)],
    partial: Some(SUMS),
};

const FIRST_B: Failed = Failed {
    concerns: &[64, 91],
    writes: &[(1, 11000), (4, 121)],
    partial: Some(B),
};

/// The later one's errors with the sums of both results, and with the first one's result.
const LATER_SUMS: Failed = Failed {
    concerns: &[79],
    writes: &[(6, 2), (8, 11000)],
    partial: Some(SUMS),
};

const LATER_A: Failed = Failed {
    concerns: &[79],
    writes: &[(6, 2), (8, 11000)],
    partial: Some(A),
};

/// The errors of each and of both, without a result.
const FIRST_ALONE: Failed = Failed {
    concerns: &[64, 91],
    writes: &[(1, 11000), (4, 121)],
    partial: None,
};

const LATER_ALONE: Failed = Failed {
    concerns: &[79],
    writes: &[(6, 2), (8, 11000)],
    partial: None,
};

const JOINED_ALONE: Failed = Failed {
    concerns: &[64, 91, 79],
    writes: &[(1, 11000), (4, 121), (6, 2), (8, 11000)],
    partial: None,
};

/// The errors of both with the result of one of them.
const JOINED_A: Failed = Failed {
    concerns: &[64, 91, 79],
    writes: &[(1, 11000), (4, 121), (6, 2), (8, 11000)],
    partial: Some(A),
};

const JOINED_B: Failed = Failed {
    concerns: &[64, 91, 79],
    writes: &[(1, 11000), (4, 121), (6, 2), (8, 11000)],
    partial: Some(B),
};

/// A result without an error.
const ONLY_A: Failed = Failed {
    concerns: &[],
    writes: &[],
    partial: Some(A),
};

/// A write error alone.
const ONE_WRITE: Failed = Failed {
    concerns: &[],
    writes: &[(3, 11000)],
    partial: None,
};

/// An error beside the greatest count, and one beside a count of one.
const FULL: Failed = Failed {
    concerns: &[64],
    writes: &[],
    partial: Some(MOST),
};

const ONE_MORE: Failed = Failed {
    concerns: &[79],
    writes: &[],
    partial: Some(ONE),
};

const SUCCEEDED: &[Succeeded] = &[
    Succeeded {
        shows: "the first result stands alone",
        before: Stood::Nothing,
        found: A,
        after: After::Success(A),
    },
    Succeeded {
        shows: "a result is merged into the one before",
        before: Stood::Success(A),
        found: B,
        after: After::Success(SUMS),
    },
    Succeeded {
        shows: "a result is merged into that of an error",
        before: Stood::Failed(FIRST),
        found: B,
        after: After::Failed(FIRST_SUMS, Mark::First, None),
    },
    Succeeded {
        shows: "an error without a result takes it",
        before: Stood::Failed(FIRST_ALONE),
        found: B,
        after: After::Failed(FIRST_B, Mark::First, None),
    },
    Succeeded {
        shows: "a sum behind a success leaves 64 bits",
        before: Stood::Success(MOST),
        found: ONE,
        after: After::Refused,
    },
    Succeeded {
        shows: "a sum behind an error leaves 64 bits",
        before: Stood::Failed(FULL),
        found: ONE,
        after: After::Refused,
    },
];

/// Failures and other errors that come first, or behind a success.
const FIRST_OR_BEHIND_SUCCESS: &[Failing] = &[
    Failing {
        shows: "the first failure stands as it is",
        before: Stood::Nothing,
        comes: Failure::Failed(LATER, Some(Cause::Io)),
        after: After::Failed(LATER, Mark::Later, Some(Cause::Io)),
    },
    Failing {
        shows: "another error stands as it is where it is the first",
        before: Stood::Nothing,
        comes: Failure::Other(Cause::Command),
        after: After::Other(Cause::Command),
    },
    Failing {
        shows: "want of memory stands where it is the first",
        before: Stood::Nothing,
        comes: Failure::Other(Cause::Memory),
        after: After::Other(Cause::Memory),
    },
    Failing {
        shows: "failures behind a success take its counts",
        before: Stood::Success(A),
        comes: Failure::Failed(LATER, None),
        after: After::Failed(LATER_SUMS, Mark::Later, None),
    },
    Failing {
        shows: "failures without a result behind a success have its counts",
        before: Stood::Success(A),
        comes: Failure::Failed(LATER_ALONE, None),
        after: After::Failed(LATER_A, Mark::Later, None),
    },
    Failing {
        shows: "failures behind a success keep their source",
        before: Stood::Success(A),
        comes: Failure::Failed(LATER, Some(Cause::Command)),
        after: After::Failed(LATER_SUMS, Mark::Later, Some(Cause::Command)),
    },
    Failing {
        shows: "a lost connection is the source of what succeeded",
        before: Stood::Success(A),
        comes: Failure::Other(Cause::Io),
        after: After::Failed(ONLY_A, Mark::Bare, Some(Cause::Io)),
    },
    Failing {
        shows: "a command error is the source of what succeeded",
        before: Stood::Success(A),
        comes: Failure::Other(Cause::Command),
        after: After::Failed(ONLY_A, Mark::Bare, Some(Cause::Command)),
    },
    Failing {
        shows: "want of memory takes the place of a success",
        before: Stood::Success(A),
        comes: Failure::Other(Cause::Memory),
        after: After::Other(Cause::Memory),
    },
    Failing {
        shows: "a sum behind a success leaves 64 bits",
        before: Stood::Success(MOST),
        comes: Failure::Failed(ONE_MORE, Some(Cause::Io)),
        after: After::Refused,
    },
];

/// Failures of a later batch behind those of an earlier one.
const FAILURES_BEHIND_FAILURES: &[Failing] = &[
    Failing {
        shows: "failures behind failures give their source, and the first mark stays",
        before: Stood::Failed(FIRST),
        comes: Failure::Failed(LATER, Some(Cause::Io)),
        after: After::Failed(JOINED, Mark::First, Some(Cause::Io)),
    },
    Failing {
        shows: "failures without a source behind failures give none",
        before: Stood::Failed(FIRST),
        comes: Failure::Failed(LATER, None),
        after: After::Failed(JOINED, Mark::First, None),
    },
    Failing {
        shows: "of two failures the first alone has a result",
        before: Stood::Failed(FIRST),
        comes: Failure::Failed(LATER_ALONE, None),
        after: After::Failed(JOINED_A, Mark::First, None),
    },
    Failing {
        shows: "of two failures the later alone has a result",
        before: Stood::Failed(FIRST_ALONE),
        comes: Failure::Failed(LATER, None),
        after: After::Failed(JOINED_B, Mark::First, None),
    },
    Failing {
        shows: "of two failures none has a result",
        before: Stood::Failed(FIRST_ALONE),
        comes: Failure::Failed(LATER_ALONE, Some(Cause::Command)),
        after: After::Failed(JOINED_ALONE, Mark::First, Some(Cause::Command)),
    },
    Failing {
        shows: "a sum behind failures leaves 64 bits",
        before: Stood::Failed(FULL),
        comes: Failure::Failed(ONE_MORE, Some(Cause::Io)),
        after: After::Refused,
    },
];

/// Other errors behind failures.
const OTHERS_BEHIND_FAILURES: &[Failing] = &[
    Failing {
        shows: "a lost connection is the source of the failures before",
        before: Stood::Failed(FIRST),
        comes: Failure::Other(Cause::Io),
        after: After::Failed(FIRST, Mark::First, Some(Cause::Io)),
    },
    Failing {
        shows: "a command error is the source of failures without a result",
        before: Stood::Failed(FIRST_ALONE),
        comes: Failure::Other(Cause::Command),
        after: After::Failed(FIRST_ALONE, Mark::First, Some(Cause::Command)),
    },
    Failing {
        shows: "want of memory takes the place of failures",
        before: Stood::Failed(FIRST),
        comes: Failure::Other(Cause::Memory),
        after: After::Other(Cause::Memory),
    },
];

/// The failures of a row as an error with the first mark.
fn standing(rt: &impl Abort, alloc: Global, failed: &Failed) -> Error
    ensures { IsOpen summary_spec (failures_in (kind_of result)) (source_of result) }
{
    let failures = failures(rt, alloc, failed);
    bulk(rt, alloc, failures, Mark::First)
}

fn before(rt: &impl Abort, alloc: Global, before: &Stood) -> ExecutionStatus<SummaryBulkWriteResult>
    ensures { Stands summary_spec result }
{
    match before {
        Stood::Nothing => ExecutionStatus::None,
        Stood::Success(counts) => ExecutionStatus::Success(summary(*counts)),
        Stood::Failed(failed) => ExecutionStatus::Error(standing(rt, alloc, failed)),
    }
}

/// Failures with the later mark over their source.
fn later(rt: &impl Abort, alloc: Global, failed: &Failed, source: Option<Cause>) -> Error
    ensures { IsBulkOfKind summary_spec (failures_in (kind_of result)) }
{
    let failures = failures(rt, alloc, failed);
    let error = bulk(rt, alloc, failures, Mark::Later);
    sourced(rt, alloc, error, source)
}

fn comes(rt: &impl Abort, alloc: Global, comes: &Failure) -> Error
    ensures { IsBulkOfKind summary_spec (failures_in (kind_of result)) }
{
    match comes {
        Failure::Failed(failed, source) => later(rt, alloc, failed, *source),
        Failure::Other(cause) => other(rt, alloc, *cause),
    }
}

/// Whether what stands is what the row says.
fn is_after(alloc: Global, now: &ExecutionStatus<SummaryBulkWriteResult>, after: &After) -> bool {
    match now {
        ExecutionStatus::None => false,
        ExecutionStatus::Success(found) => match after {
            After::Success(counts) => are_counts(found, *counts),
            _ => false,
        },
        ExecutionStatus::Error(error) => is_error(alloc, error, after),
    }
}

fn is_error(alloc: Global, error: &Error, after: &After) -> bool {
    match after {
        After::Failed(failed, mark, source) => is_bulk(alloc, error, failed, *mark, *source),
        After::Other(cause) => is_other(alloc, error, *cause),
        _ => false,
    }
}

fn is_refused(alloc: Global, refused: &Error, after: &After) -> bool {
    match after {
        After::Refused => is_refusal(alloc, refused),
        _ => false,
    }
}

/// Whether a batch came to what the row says.
fn ends(
    alloc: Global,
    end: Result<ExecutionStatus<SummaryBulkWriteResult>>,
    after: &After,
) -> bool {
    match end {
        Ok(now) => {
            let right = is_after(alloc, &now, after);
            drop(now);
            right
        }
        Err(refused) => {
            let right = is_refused(alloc, &refused, after);
            drop(refused);
            right
        }
    }
}

fn succeed(
    rt: &impl Abort,
    alloc: Global,
    row: &Succeeded,
) -> Result<ExecutionStatus<SummaryBulkWriteResult>> {
    before(rt, alloc, &row.before).with_success(alloc, summary(row.found))
}

fn fail(
    rt: &impl Abort,
    alloc: Global,
    row: &Failing,
) -> Result<ExecutionStatus<SummaryBulkWriteResult>> {
    let error = comes(rt, alloc, &row.comes);
    before(rt, alloc, &row.before).with_failure(alloc, error)
}

/// What the first row shows that is not as it says.
fn first_wrong_success(rt: &impl Abort, alloc: Global) -> Option<&'static str> {
    for row in SUCCEEDED {
        if !ends(alloc, succeed(rt, alloc, row), &row.after) {
            return Some(row.shows);
        }
    }
    None
}

#[test]
fn a_success_is_merged_into_what_stands(rt: HostRuntime) {
    alike(
        &rt,
        first_wrong_success(&rt, rt.alloc()),
        None,
        "the first wrong success",
    );
}

/// What the first of these rows shows that is not as it says.
fn first_wrong_failure(rt: &impl Abort, alloc: Global, rows: &[Failing]) -> Option<&'static str> {
    for row in rows {
        if !ends(alloc, fail(rt, alloc, row), &row.after) {
            return Some(row.shows);
        }
    }
    None
}

#[test]
fn a_failure_is_merged_into_what_stands_or_is_its_source(rt: HostRuntime) {
    alike(
        &rt,
        first_wrong_failure(&rt, rt.alloc(), FIRST_OR_BEHIND_SUCCESS),
        None,
        "the first wrong failure that is first or behind a success",
    );
    alike(
        &rt,
        first_wrong_failure(&rt, rt.alloc(), FAILURES_BEHIND_FAILURES),
        None,
        "the first wrong failure behind failures",
    );
    alike(
        &rt,
        first_wrong_failure(&rt, rt.alloc(), OTHERS_BEHIND_FAILURES),
        None,
        "the first wrong error behind failures",
    );
}

const GOING: &[Going] = &[
    Going {
        shows: "nothing stands",
        now: Now::Nothing,
        unordered: true,
        ordered: true,
    },
    Going {
        shows: "a success",
        now: Now::Success,
        unordered: true,
        ordered: true,
    },
    Going {
        shows: "a write error",
        now: Now::Error(Failure::Failed(ONE_WRITE, None)),
        unordered: true,
        ordered: false,
    },
    Going {
        shows: "a lone write concern error",
        now: Now::Error(Failure::Failed(ONE_MORE, None)),
        unordered: true,
        ordered: true,
    },
    Going {
        shows: "a write error beside write concern errors",
        now: Now::Error(Failure::Failed(FIRST, None)),
        unordered: true,
        ordered: false,
    },
    Going {
        shows: "a result without an error",
        now: Now::Error(Failure::Failed(ONLY_A, None)),
        unordered: true,
        ordered: true,
    },
    Going {
        shows: "a source behind a write error",
        now: Now::Error(Failure::Failed(ONE_WRITE, Some(Cause::Command))),
        unordered: false,
        ordered: false,
    },
    Going {
        shows: "a source behind a lone write concern error",
        now: Now::Error(Failure::Failed(ONE_MORE, Some(Cause::Io))),
        unordered: false,
        ordered: false,
    },
    Going {
        shows: "a source behind a result without an error",
        now: Now::Error(Failure::Failed(ONLY_A, Some(Cause::Io))),
        unordered: false,
        ordered: false,
    },
    Going {
        shows: "a lost connection",
        now: Now::Error(Failure::Other(Cause::Io)),
        unordered: false,
        ordered: false,
    },
    Going {
        shows: "a command error",
        now: Now::Error(Failure::Other(Cause::Command)),
        unordered: false,
        ordered: false,
    },
    Going {
        shows: "want of memory",
        now: Now::Error(Failure::Other(Cause::Memory)),
        unordered: false,
        ordered: false,
    },
];

fn stands(rt: &impl Abort, alloc: Global, now: &Now) -> ExecutionStatus<SummaryBulkWriteResult> {
    match now {
        Now::Nothing => ExecutionStatus::None,
        Now::Success => ExecutionStatus::Success(summary(A)),
        Now::Error(error) => ExecutionStatus::Error(comes(rt, alloc, error)),
    }
}

/// Whether the next batch is made as the row says.
fn goes_on(rt: &impl Abort, alloc: Global, row: &Going) -> bool {
    let now = stands(rt, alloc, &row.now);
    let unordered = now.should_continue(false);
    let ordered = now.should_continue(true);
    drop(now);
    unordered == row.unordered && ordered == row.ordered
}

/// What stands in the first row behind which a batch is made, or not, other than it says.
fn first_wrong_turn(rt: &impl Abort, alloc: Global) -> Option<&'static str> {
    for row in GOING {
        if !goes_on(rt, alloc, row) {
            return Some(row.shows);
        }
    }
    None
}

#[test]
fn a_source_or_another_error_stops_all_batches_and_a_write_error_ordered_ones(rt: HostRuntime) {
    alike(
        &rt,
        first_wrong_turn(&rt, rt.alloc()),
        None,
        "the first wrong turn",
    );
}

const VERBOSELY: &[Verbosely] = &[
    Verbosely {
        shows: "a success behind a success",
        before: None,
        comes: None,
        after: None,
    },
    Verbosely {
        shows: "a success behind failures",
        before: Some(FIRST_ALONE),
        comes: None,
        after: Some(FIRST_ALONE),
    },
    Verbosely {
        shows: "failures behind a success",
        before: None,
        comes: Some(LATER_ALONE),
        after: Some(LATER_ALONE),
    },
    Verbosely {
        shows: "failures behind failures",
        before: Some(FIRST_ALONE),
        comes: Some(LATER_ALONE),
        after: Some(JOINED_ALONE),
    },
];

/// Failures with a verbose result as an error with a mark.
fn verbose_error(
    rt: &impl Abort,
    alloc: Global,
    failed: &Failed,
    results: &Results,
    mark: Mark,
) -> Error
    ensures { IsOpen verbose_spec (failures_in (kind_of result)) (source_of result) }
{
    let failures = verbose_failures(rt, alloc, failed, results);
    bulk(rt, alloc, failures, mark)
}

fn verbose_before(
    rt: &impl Abort,
    alloc: Global,
    before: &Option<Failed>,
) -> ExecutionStatus<VerboseBulkWriteResult>
    ensures { Stands verbose_spec result }
{
    match before {
        None => ExecutionStatus::Success(verbose(rt, alloc, &EARLIER)),
        Some(failed) => {
            ExecutionStatus::Error(verbose_error(rt, alloc, failed, &EARLIER, Mark::First))
        }
    }
}

fn succeed_verbosely(
    rt: &impl Abort,
    alloc: Global,
    row: &Verbosely,
) -> ExecutionStatus<VerboseBulkWriteResult> {
    let found = verbose(rt, alloc, &LATER_RESULTS);
    verbose_before(rt, alloc, &row.before)
        .with_success(alloc, found)
        .made(rt)
}

fn fail_verbosely(
    rt: &impl Abort,
    alloc: Global,
    row: &Verbosely,
    failed: &Failed,
) -> ExecutionStatus<VerboseBulkWriteResult> {
    let error = verbose_error(rt, alloc, failed, &LATER_RESULTS, Mark::Later);
    verbose_before(rt, alloc, &row.before)
        .with_failure(alloc, error)
        .made(rt)
}

fn end_verbosely(
    rt: &impl Abort,
    alloc: Global,
    row: &Verbosely,
) -> ExecutionStatus<VerboseBulkWriteResult> {
    match &row.comes {
        None => succeed_verbosely(rt, alloc, row),
        Some(failed) => fail_verbosely(rt, alloc, row, failed),
    }
}

/// Whether the results of both batches stand with the errors of the row.
fn is_merged(now: &ExecutionStatus<VerboseBulkWriteResult>, after: &Option<Failed>) -> bool {
    match now {
        ExecutionStatus::None => false,
        ExecutionStatus::Success(found) => after.is_none() && are_results(found, &MERGED),
        ExecutionStatus::Error(error) => is_merged_error(error, after),
    }
}

fn is_merged_error(error: &Error, after: &Option<Failed>) -> bool {
    match (failures_of(error), after) {
        (Some(failures), Some(failed)) => are_verbose_failures(failures, failed, &MERGED),
        _ => false,
    }
}

fn merges_verbosely(rt: &impl Abort, alloc: Global, row: &Verbosely) -> bool {
    let now = end_verbosely(rt, alloc, row);
    let right = is_merged(&now, &row.after);
    drop(now);
    right
}

/// The first row whose results are not those of both batches.
fn first_wrong_results(rt: &impl Abort, alloc: Global) -> Option<&'static str> {
    for row in VERBOSELY {
        if !merges_verbosely(rt, alloc, row) {
            return Some(row.shows);
        }
    }
    None
}

#[test]
fn each_index_keeps_the_result_of_the_later_batch(rt: HostRuntime) {
    alike(
        &rt,
        first_wrong_results(&rt, rt.alloc()),
        None,
        "the first wrong results",
    );
}
