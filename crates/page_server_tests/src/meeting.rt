//! What the exchanges of a row meet at a model server, as the items of a schedule.
ghost use Rattle.std.specs.Prelude.{All};
ghost use Rattle.driver_link.specs.WellFormed.{IsItem, IsWellFormed};

use crate::asserting::Made;
use bson_lite::{List, Text};
use driver_error::RETRYABLE_WRITE_ERROR;
use driver_link::{Failing, Item, PlannedConcern, Schedule, Scheduled};
use std::alloc::Global;
use std::process::Abort;

/// What an exchange meets.
#[derive(Clone, Copy)]
pub(crate) enum Meets {
    Served,
    /// Its statement at this position fails with code 11000.
    FailedAt(u64),
    /// It is served, and its write concern was not met, with code 64.
    Concern,
    /// It is served, and the first page holds so many results.
    Page(u64),
    /// Its statement at this position fails with code 11000, and the first page holds so many results.
    FailedOnPages(u64, u64),
    /// Its write concern was not met, and the first page holds so many results.
    ConcernOnPages(u64),
    Lost,
    Late,
    ReplyLost,
    /// So many statements run, then code 11600 with the label of a retryable write.
    Interrupted(u64),
    /// The same without a label.
    BareInterrupted(u64),
    /// Code 91 with that label.
    RefusedForNow,
    /// The same without a label.
    BareRefusedForNow,
    /// Code 43 without labels.
    Refused,
}

/// The list of the label of a retryable write.
fn again(rt: &impl Abort, alloc: Global) -> List<Text> {
    let mut labels = List::with_capacity(alloc, 1).made(rt);
    labels
        .push(Text::from_str(alloc, RETRYABLE_WRITE_ERROR).made(rt))
        .made(rt);
    labels
}

/// A serving in which a statement may fail and the write concern may be unmet, with a first page of so many results.
fn serve(
    rt: &impl Abort,
    alloc: Global,
    failing: Option<u64>,
    unmet: bool,
    page: Option<u64>,
) -> Item
    ensures { IsItem result }
{
    let mut fail = List::new(alloc);
    if let Some(at) = failing {
        fail.push(Failing { at, code: 11000 }).made(rt);
    }
    let write_concern_error = if unmet {
        Some(PlannedConcern {
            code: 64,
            message: Text::new(alloc),
        })
    } else {
        None
    };
    Item::Serve {
        results: List::new(alloc),
        fail,
        write_concern_error,
        page,
    }
}

/// So many statements run, then code 11600 with these labels.
fn interrupted(after: u64, labels: List<Text>) -> Item
    ensures { IsItem result }
{
    Item::Interrupted {
        after,
        code: 11600,
        labels,
    }
}

/// The item of what an exchange meets.
fn item(rt: &impl Abort, alloc: Global, meets: Meets) -> Item
    ensures { IsItem result }
{
    match meets {
        Meets::Served => serve(rt, alloc, None, false, None),
        Meets::FailedAt(at) => serve(rt, alloc, Some(at), false, None),
        Meets::Concern => serve(rt, alloc, None, true, None),
        Meets::Page(page) => serve(rt, alloc, None, false, Some(page)),
        Meets::FailedOnPages(at, page) => serve(rt, alloc, Some(at), false, Some(page)),
        Meets::ConcernOnPages(page) => serve(rt, alloc, None, true, Some(page)),
        Meets::Lost => Item::Lost,
        Meets::Late => Item::Late,
        Meets::ReplyLost => Item::ReplyLost,
        Meets::Interrupted(after) => interrupted(after, again(rt, alloc)),
        Meets::BareInterrupted(after) => interrupted(after, List::new(alloc)),
        Meets::RefusedForNow => Item::Refused {
            code: 91,
            labels: again(rt, alloc),
        },
        Meets::BareRefusedForNow => Item::Refused {
            code: 91,
            labels: List::new(alloc),
        },
        Meets::Refused => Item::Refused {
            code: 43,
            labels: List::new(alloc),
        },
    }
}

/// The items of what exchanges meet, one after the other.
fn items(rt: &impl Abort, alloc: Global, meets: &[Meets]) -> List<Scheduled>
    ensures { All (λ step. IsItem step.item) result }
{
    let mut steps = List::new(alloc);
    'items: for one in meets {
        steps
            .push(Scheduled {
                deliver: List::new(alloc),
                item: item(rt, alloc, *one),
            })
            .made(rt);
    }
    steps
}

/// A schedule of these exchanges, behind which all is served.
pub(crate) fn schedule(rt: &impl Abort, alloc: Global, meets: &[Meets]) -> Schedule
    ensures { IsWellFormed result }
{
    Schedule {
        items: items(rt, alloc, meets),
        selects: List::new(alloc),
        check_outs: List::new(alloc),
        overloaded_check_outs: List::new(alloc),
        reauthentications: List::new(alloc),
        supports: List::new(alloc),
    }
}
