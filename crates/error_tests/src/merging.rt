//! Results and failures of two parts of a bulk write, merged: the calls that need no batches.
ghost use Rattle.std.specs.Prelude.{◌≡◌};
ghost use Rattle.driver_error.specs.declared.kind.ErrorKind.TheVariants.{BulkWrite};
ghost use Rattle.driver_error.specs.BulkErrors.{AreAlike};
ghost use Rattle.driver_error.specs.Error.{kind_of};

use crate::asserting::{Made, alike, holds};
use crate::failures::{
    A, B, Cause, Counts, EARLIER, Failed, LATER, MERGED, MOST, Mark, ONE, Results, SUMS,
    are_counts, are_failures, are_results, are_verbose_failures, bulk, failures, is_bulk, is_other,
    is_refusal, is_source, other, sourced, summary, verbose, verbose_failures,
};
use bulk_outcomes::BulkWriteResult;
use driver_error::{BulkWriteError, Error, Result};
use std::alloc::Global;
use std::process::Abort;

/// Counts of two parts, and their sums, or none where one leaves 64 bits.
struct Adding {
    shows: &'static str,
    earlier: Counts,
    later: Counts,
    sums: Option<Counts>,
}

/// Verbose results of two parts, and both together, or none where a sum of counts leaves 64 bits.
struct Uniting {
    shows: &'static str,
    earlier: Results,
    later: Results,
    merged: Option<Results>,
}

/// Failures of two parts, and both together, or none where a sum of counts leaves 64 bits.
struct Joining {
    shows: &'static str,
    earlier: Failed,
    later: Failed,
    joined: Option<Failed>,
}

/// Where failures come to those of an error.
#[derive(Clone, Copy)]
enum Side {
    Behind,
    Before,
}

/// The failures of two parts, which may be merged.
#[derive(Drop)]
struct TwoParts {
    earlier: BulkWriteError,
    later: BulkWriteError,
}

const ADDING: &[Adding] = &[
    Adding {
        shows: "each count is added to its own",
        earlier: A,
        later: B,
        sums: Some(SUMS),
    },
    Adding {
        shows: "the greatest sums have 64 bits",
        earlier: [
            9_223_372_036_854_775_806,
            1,
            0,
            4_611_686_018_427_387_904,
            5,
        ],
        later: [
            1,
            9_223_372_036_854_775_806,
            0,
            4_611_686_018_427_387_903,
            6,
        ],
        sums: Some([
            9_223_372_036_854_775_807,
            9_223_372_036_854_775_807,
            0,
            9_223_372_036_854_775_807,
            11,
        ]),
    },
    Adding {
        shows: "the sum of inserted documents has more than 64 bits",
        earlier: [9_223_372_036_854_775_807, 20, 300, 4_000, 50_000],
        later: [1, 70, 800, 9_000, 100_000],
        sums: None,
    },
    Adding {
        shows: "the sum of matched documents has more than 64 bits",
        earlier: [1, 9_223_372_036_854_775_807, 300, 4_000, 50_000],
        later: [6, 1, 800, 9_000, 100_000],
        sums: None,
    },
    Adding {
        shows: "the sum of modified documents has more than 64 bits",
        earlier: [1, 20, 9_223_372_036_854_775_807, 4_000, 50_000],
        later: [6, 70, 1, 9_000, 100_000],
        sums: None,
    },
    Adding {
        shows: "the sum of upserted documents has more than 64 bits",
        earlier: [1, 20, 300, 9_223_372_036_854_775_807, 50_000],
        later: [6, 70, 800, 1, 100_000],
        sums: None,
    },
    Adding {
        shows: "the sum of deleted documents has more than 64 bits",
        earlier: [1, 20, 300, 4_000, 9_223_372_036_854_775_807],
        later: [6, 70, 800, 9_000, 1],
        sums: None,
    },
];

fn is_done(end: Result<()>) -> bool {
    match end {
        Ok(()) => true,
        Err(refused) => {
            drop(refused);
            false
        }
    }
}

fn is_refused(alloc: Global, end: Result<()>) -> bool {
    match end {
        Ok(()) => false,
        Err(refused) => {
            let right = is_refusal(alloc, &refused);
            drop(refused);
            right
        }
    }
}

/// Whether the counts come to the row's sums, or are refused and stay as they were.
fn adds(alloc: Global, row: &Adding) -> bool {
    let mut counts = summary(row.earlier);
    let end = counts.merge(alloc, summary(row.later));
    match row.sums {
        Some(sums) => is_done(end) && are_counts(&counts, sums),
        None => is_refused(alloc, end) && are_counts(&counts, row.earlier),
    }
}

/// What the first row shows that is not as it says.
fn first_wrong_sum(alloc: Global) -> Option<&'static str> {
    for row in ADDING {
        if !adds(alloc, row) {
            return Some(row.shows);
        }
    }
    None
}

#[test]
fn counts_are_added_or_refused(rt: HostRuntime) {
    alike(
        &rt,
        first_wrong_sum(rt.alloc()),
        None,
        "the first wrong sum of counts",
    );
}

/// The result of no write.
const NOTHING: Results = Results {
    counts: [0, 0, 0, 0, 0],
    inserts: &[],
    updates: &[],
    deletes: &[],
};

/// The earlier results with the greatest count, and a later part of one delete.
const FULL: Results = Results {
    counts: MOST,
    inserts: &[(0, 10), (2, 12)],
    updates: &[(3, 23), (9, 29)],
    deletes: &[(5, 35)],
};

const ONE_MORE: Results = Results {
    counts: ONE,
    inserts: &[(2, 42)],
    updates: &[(3, 53)],
    deletes: &[(5, 65), (7, 67)],
};

/// Results under other indexes than the earlier ones, and those of both.
const APART: Results = Results {
    counts: B,
    inserts: &[(1, 41), (3, 43)],
    updates: &[(4, 54), (10, 60)],
    deletes: &[(6, 66)],
};

const SIDE_BY_SIDE: Results = Results {
    counts: SUMS,
    inserts: &[(0, 10), (1, 41), (2, 12), (3, 43)],
    updates: &[(3, 23), (4, 54), (9, 29), (10, 60)],
    deletes: &[(5, 35), (6, 66)],
};

const UNITING: &[Uniting] = &[
    Uniting {
        shows: "results of different writes stand under their own indexes",
        earlier: EARLIER,
        later: APART,
        merged: Some(SIDE_BY_SIDE),
    },
    Uniting {
        shows: "of an index in both the later result stays",
        earlier: EARLIER,
        later: LATER,
        merged: Some(MERGED),
    },
    Uniting {
        shows: "the result of no write adds nothing behind",
        earlier: EARLIER,
        later: NOTHING,
        merged: Some(EARLIER),
    },
    Uniting {
        shows: "the result of no write adds nothing before",
        earlier: NOTHING,
        later: LATER,
        merged: Some(LATER),
    },
    Uniting {
        shows: "a sum has more than 64 bits",
        earlier: FULL,
        later: ONE_MORE,
        merged: None,
    },
];

/// What is there once a later result came to an earlier one, or was refused.
fn united(rt: &impl Abort, alloc: Global, row: &Uniting) -> bool {
    let later = verbose(rt, alloc, &row.later);
    let mut results = verbose(rt, alloc, &row.earlier);
    let end = results.merge(alloc, later);
    match &row.merged {
        Some(merged) => is_done(end) && are_results(&results, merged),
        None => is_refused(alloc, end) && are_results(&results, &row.earlier),
    }
}

/// What the first row shows that is not as it says.
fn first_wrong_union(rt: &impl Abort, alloc: Global) -> Option<&'static str> {
    for row in UNITING {
        if !united(rt, alloc, row) {
            return Some(row.shows);
        }
    }
    None
}

#[test]
fn verbose_results_stand_under_their_indexes(rt: HostRuntime) {
    alike(
        &rt,
        first_wrong_union(&rt, rt.alloc()),
        None,
        "the first wrong union of results",
    );
}

const JOINING: &[Joining] = &[
    Joining {
        shows: "write concern errors stand in their order, the earlier ones first",
        earlier: Failed {
            concerns: &[91, 64],
            writes: &[],
            partial: None,
        },
        later: Failed {
            concerns: &[79, 64],
            writes: &[],
            partial: None,
        },
        joined: Some(Failed {
            concerns: &[91, 64, 79, 64],
            writes: &[],
            partial: None,
        }),
    },
    Joining {
        shows: "write errors stand under their indexes",
        earlier: Failed {
            concerns: &[],
            writes: &[(1, 11000), (5, 121)],
            partial: None,
        },
        later: Failed {
            concerns: &[],
            writes: &[(0, 2), (3, 50), (7, 11000)],
            partial: None,
        },
        joined: Some(Failed {
            concerns: &[],
            writes: &[(0, 2), (1, 11000), (3, 50), (5, 121), (7, 11000)],
            partial: None,
        }),
    },
    Joining {
        shows: "of an index in both the later write error stays",
        earlier: Failed {
            concerns: &[],
            writes: &[(1, 11000), (5, 121)],
            partial: None,
        },
        later: Failed {
            concerns: &[],
            writes: &[(5, 2)],
            partial: None,
        },
        joined: Some(Failed {
            concerns: &[],
            writes: &[(1, 11000), (5, 2)],
            partial: None,
        }),
    },
    Joining {
        shows: "results are merged beside the errors",
        earlier: Failed {
            concerns: &[64],
            writes: &[(1, 11000)],
            partial: Some(A),
        },
        later: Failed {
            concerns: &[79],
            writes: &[(4, 121)],
            partial: Some(B),
        },
        joined: Some(Failed {
            concerns: &[64, 79],
            writes: &[(1, 11000), (4, 121)],
            partial: Some(SUMS),
        }),
    },
    Joining {
        shows: "the earlier part alone has a result",
        earlier: Failed {
            concerns: &[64],
            writes: &[(1, 11000)],
            partial: Some(A),
        },
        later: Failed {
            concerns: &[79],
            writes: &[(4, 121)],
            partial: None,
        },
        joined: Some(Failed {
            concerns: &[64, 79],
            writes: &[(1, 11000), (4, 121)],
            partial: Some(A),
        }),
    },
    Joining {
        shows: "the later part alone has a result",
        earlier: Failed {
            concerns: &[64],
            writes: &[(1, 11000)],
            partial: None,
        },
        later: Failed {
            concerns: &[79],
            writes: &[(4, 121)],
            partial: Some(B),
        },
        joined: Some(Failed {
            concerns: &[64, 79],
            writes: &[(1, 11000), (4, 121)],
            partial: Some(B),
        }),
    },
    Joining {
        shows: "a sum has more than 64 bits",
        earlier: Failed {
            concerns: &[64],
            writes: &[(1, 11000)],
            partial: Some(MOST),
        },
        later: Failed {
            concerns: &[79],
            writes: &[(1, 121), (4, 121)],
            partial: Some(ONE),
        },
        joined: None,
    },
];

/// The failures of a row.
fn parts(rt: &impl Abort, alloc: Global, row: &Joining) -> TwoParts
    ensures { AreAlike result.earlier.partial_result result.later.partial_result }
{
    let earlier = failures(rt, alloc, &row.earlier);
    let later = failures(rt, alloc, &row.later);
    TwoParts { earlier, later }
}

/// Whether failures come to the row's, or are refused and stay as they were.
fn merge(alloc: Global, parts: TwoParts, row: &Joining) -> bool
    requires { AreAlike parts.earlier.partial_result parts.later.partial_result }
{
    let TwoParts { earlier, later } = parts;
    let mut failures = earlier;
    let end = failures.merge(alloc, later);
    let right = match &row.joined {
        Some(joined) => is_done(end) && are_failures(&failures, joined),
        None => is_refused(alloc, end) && are_failures(&failures, &row.earlier),
    };
    drop(failures);
    right
}

/// What the first row shows that is not as it says.
fn first_wrong_merge(rt: &impl Abort, alloc: Global) -> Option<&'static str> {
    for row in JOINING {
        if !merge(alloc, parts(rt, alloc, row), row) {
            return Some(row.shows);
        }
    }
    None
}

#[test]
fn failures_of_two_parts_are_merged_or_refused(rt: HostRuntime) {
    alike(
        &rt,
        first_wrong_merge(&rt, rt.alloc()),
        None,
        "the first wrong merge of failures",
    );
}

/// The failures of the merged verbose results.
const FIRST_FAILED: Failed = Failed {
    concerns: &[64],
    writes: &[(6, 11000)],
    partial: None,
};

const LATER_FAILED: Failed = Failed {
    concerns: &[79],
    writes: &[(8, 121)],
    partial: None,
};

const BOTH_FAILED: Failed = Failed {
    concerns: &[64, 79],
    writes: &[(6, 11000), (8, 121)],
    partial: None,
};

/// The failures of both parts of a row.
fn verbose_parts(rt: &impl Abort, alloc: Global, row: &Uniting) -> TwoParts
    ensures { AreAlike result.earlier.partial_result result.later.partial_result }
{
    let earlier = verbose_failures(rt, alloc, &FIRST_FAILED, &row.earlier);
    let later = verbose_failures(rt, alloc, &LATER_FAILED, &row.later);
    TwoParts { earlier, later }
}

/// Whether failures come to those of both parts with the row's results, or are refused and stay as they were.
fn merge_verbosely(alloc: Global, parts: TwoParts, row: &Uniting) -> bool
    requires { AreAlike parts.earlier.partial_result parts.later.partial_result }
{
    let TwoParts { earlier, later } = parts;
    let mut failures = earlier;
    let end = failures.merge(alloc, later);
    let right = match &row.merged {
        Some(merged) => is_done(end) && are_verbose_failures(&failures, &BOTH_FAILED, merged),
        None => {
            is_refused(alloc, end) && are_verbose_failures(&failures, &FIRST_FAILED, &row.earlier)
        }
    };
    drop(failures);
    right
}

/// What the first row shows that is not so beside failures.
fn first_wrong_verbose_merge(rt: &impl Abort, alloc: Global) -> Option<&'static str> {
    for row in UNITING {
        if !merge_verbosely(alloc, verbose_parts(rt, alloc, row), row) {
            return Some(row.shows);
        }
    }
    None
}

#[test]
fn verbose_results_are_merged_beside_failures(rt: HostRuntime) {
    alike(
        &rt,
        first_wrong_verbose_merge(&rt, rt.alloc()),
        None,
        "the first wrong merge beside failures",
    );
}

/// An error of these failures with the first mark over a source.
fn standing(rt: &impl Abort, alloc: Global, failures: BulkWriteError) -> Error
    ensures { kind_of result ≡ BulkWrite failures }
{
    let error = bulk(rt, alloc, failures, Mark::First);
    sourced(rt, alloc, error, Some(Cause::Io))
}

/// The error of the earlier part with what the later one failed with.
fn with_later(rt: &impl Abort, alloc: Global, parts: TwoParts) -> Result<Error>
    requires { AreAlike parts.earlier.partial_result parts.later.partial_result }
{
    let TwoParts { earlier, later } = parts;
    standing(rt, alloc, earlier).with_later(alloc, later)
}

/// The error of the later part with what the earlier one failed with.
fn with_earlier(rt: &impl Abort, alloc: Global, parts: TwoParts) -> Result<Error>
    requires { AreAlike parts.earlier.partial_result parts.later.partial_result }
{
    let TwoParts { earlier, later } = parts;
    standing(rt, alloc, later).with_earlier(alloc, earlier)
}

fn with_part(rt: &impl Abort, alloc: Global, row: &Joining, side: Side) -> Result<Error> {
    let parts = parts(rt, alloc, row);
    match side {
        Side::Behind => with_later(rt, alloc, parts),
        Side::Before => with_earlier(rt, alloc, parts),
    }
}

fn is_joined(alloc: Global, error: &Error, row: &Joining) -> bool {
    match &row.joined {
        Some(joined) => is_bulk(alloc, error, joined, Mark::First, Some(Cause::Io)),
        None => false,
    }
}

/// Whether failures that come to an error on this side make the row's, and all else of the error stays.
fn joins(rt: &impl Abort, alloc: Global, row: &Joining, side: Side) -> bool {
    match with_part(rt, alloc, row, side) {
        Ok(error) => {
            let right = is_joined(alloc, &error, row);
            drop(error);
            right
        }
        Err(refused) => {
            let right = row.joined.is_none() && is_refusal(alloc, &refused);
            drop(refused);
            right
        }
    }
}

/// What the first row shows that is not so where the failures are those of errors.
fn first_wrong_joint(rt: &impl Abort, alloc: Global, side: Side) -> Option<&'static str> {
    for row in JOINING {
        if !joins(rt, alloc, row, side) {
            return Some(row.shows);
        }
    }
    None
}

#[test]
fn an_error_takes_later_failures_and_keeps_the_rest(rt: HostRuntime) {
    alike(
        &rt,
        first_wrong_joint(&rt, rt.alloc(), Side::Behind),
        None,
        "the first wrong error with later failures",
    );
}

#[test]
fn an_error_takes_earlier_failures_and_keeps_the_rest(rt: HostRuntime) {
    alike(
        &rt,
        first_wrong_joint(&rt, rt.alloc(), Side::Before),
        None,
        "the first wrong error with earlier failures",
    );
}

/// The failures of both parts beside a result.
const BOTH_WITH_A: Failed = Failed {
    concerns: &[64, 79],
    writes: &[(6, 11000), (8, 121)],
    partial: Some(A),
};

/// An error of another kind to which failures come.
fn other_with(rt: &impl Abort, alloc: Global, cause: Cause, side: Side) -> Error {
    let more = failures(rt, alloc, &BOTH_WITH_A);
    let error = other(rt, alloc, cause);
    match side {
        Side::Behind => error.with_later(alloc, more).made(rt),
        Side::Before => error.with_earlier(alloc, more).made(rt),
    }
}

/// Whether an error of another kind stays as it is.
fn stays(rt: &impl Abort, alloc: Global, cause: Cause, side: Side) -> bool {
    let error = other_with(rt, alloc, cause, side);
    let right = is_other(alloc, &error, cause);
    drop(error);
    right
}

/// The errors that tell of no failures of a bulk write, and of no want of memory.
const OTHERS: &[(&str, Cause)] = &[("io", Cause::Io), ("command", Cause::Command)];

#[test]
fn an_error_of_another_kind_takes_no_failures(rt: HostRuntime) {
    for (name, cause) in OTHERS {
        let behind = stays(&rt, rt.alloc(), *cause, Side::Behind);
        alike(
            &rt,
            (*name, behind),
            (*name, true),
            "failures behind an error of another kind",
        );
        let before = stays(&rt, rt.alloc(), *cause, Side::Before);
        alike(
            &rt,
            (*name, before),
            (*name, true),
            "failures before an error of another kind",
        );
    }
}

/// An error of a bulk write with or without a source.
fn whole(rt: &impl Abort, alloc: Global, source: Option<Cause>) -> Error {
    let failures = failures(rt, alloc, &BOTH_WITH_A);
    let error = bulk(rt, alloc, failures, Mark::First);
    sourced(rt, alloc, error, source)
}

/// Whether these are its failures and its source.
fn are_parts(alloc: Global, parts: (BulkWriteError, Option<Error>), source: Option<Cause>) -> bool {
    let (failures, found) = parts;
    let right = are_failures(&failures, &BOTH_WITH_A) && is_source(alloc, found.as_ref(), source);
    drop(failures);
    drop(found);
    right
}

/// Whether such an error is taken apart into its failures and its source.
fn comes_apart(rt: &impl Abort, alloc: Global, source: Option<Cause>) -> bool {
    match whole(rt, alloc, source).into_bulk_write() {
        Ok(parts) => are_parts(alloc, parts, source),
        Err(error) => {
            drop(error);
            false
        }
    }
}

#[test]
fn an_error_of_a_bulk_write_is_failures_and_source(rt: HostRuntime) {
    holds(
        &rt,
        comes_apart(&rt, rt.alloc(), Some(Cause::Command)),
        "with a source",
    );
    holds(&rt, comes_apart(&rt, rt.alloc(), None), "without a source");
}

/// Whether an error of another kind is handed back.
fn is_handed_back(rt: &impl Abort, alloc: Global, cause: Cause) -> bool {
    match other(rt, alloc, cause).into_bulk_write() {
        Ok(parts) => {
            drop(parts);
            false
        }
        Err(error) => {
            let right = is_other(alloc, &error, cause);
            drop(error);
            right
        }
    }
}

/// All errors that tell of no failures of a bulk write.
const ALL_OTHERS: &[(&str, Cause)] = &[
    ("io", Cause::Io),
    ("command", Cause::Command),
    ("memory", Cause::Memory),
];

#[test]
fn an_error_of_another_kind_is_handed_back(rt: HostRuntime) {
    for (name, cause) in ALL_OTHERS {
        holds(&rt, is_handed_back(&rt, rt.alloc(), *cause), *name);
    }
}
