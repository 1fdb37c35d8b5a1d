//! What the exchanges of a row meet at a model server, as the items of a schedule.
ghost use Rattle.std.specs.Prelude.{All};
ghost use Rattle.driver_link.specs.WellFormed.{IsItem};

use crate::asserting::Made;
use bson_lite::{List, Text};
use driver_error::{NO_WRITES_PERFORMED, RETRYABLE_WRITE_ERROR};
use driver_link::{Item, Scheduled};
use std::alloc::Global;
use std::process::Abort;

/// An item of a schedule.
#[derive(Clone, Copy)]
pub(crate) enum Meets {
    Served,
    Lost,
    Late,
    ReplyLost,
    /// One statement runs, then code 11600 with the label of a retryable write.
    InterruptedAfterOne,
    /// The same without a label.
    BareInterruptedAfterOne,
    /// Nothing runs, then code 11600 with that label.
    InterruptedBefore,
    /// The same without a label.
    BareInterruptedBefore,
    /// Nothing runs, then code 91 with the label of a retryable write.
    InterruptedAtOnce,
    /// Code 13 without labels.
    Refused,
    /// Code 11600 with the label of a retryable write.
    RefusedForNow,
    /// The same without a label.
    BareRefusedForNow,
    /// Code 10107 with the labels of a retryable write and of no writes performed.
    RefusedUnwritten,
}

/// A list of labels.
fn labels(rt: &impl Abort, alloc: Global, texts: &[&str]) -> List<Text> {
    let mut labels = List::new(alloc);
    for text in texts {
        labels.push(Text::from_str(alloc, text).made(rt)).made(rt);
    }
    labels
}

/// The labels of what an exchange meets.
fn labels_of(rt: &impl Abort, alloc: Global, meets: Meets) -> List<Text> {
    match meets {
        Meets::InterruptedAfterOne
        | Meets::InterruptedBefore
        | Meets::InterruptedAtOnce
        | Meets::RefusedForNow => labels(rt, alloc, &[RETRYABLE_WRITE_ERROR]),
        Meets::RefusedUnwritten => labels(rt, alloc, &[RETRYABLE_WRITE_ERROR, NO_WRITES_PERFORMED]),
        _ => List::new(alloc),
    }
}

/// Served and answered as usual.
fn served(alloc: Global) -> Item
    ensures { IsItem result }
{
    Item::Serve {
        results: List::new(alloc),
        fail: List::new(alloc),
        write_concern_error: None,
        page: None,
    }
}

/// So many statements run, then code 11600 with these labels.
fn interrupted(after: u64, labels: List<Text>) -> Item
    ensures { IsItem result }
{
    Item::Interrupted {
        after,
        code: 11600,
        labels,
    }
}

/// The item of what an exchange meets.
fn item(rt: &impl Abort, alloc: Global, meets: Meets) -> Item
    ensures { IsItem result }
{
    let labels = labels_of(rt, alloc, meets);
    match meets {
        Meets::Served => served(alloc),
        Meets::Lost => Item::Lost,
        Meets::Late => Item::Late,
        Meets::ReplyLost => Item::ReplyLost,
        Meets::InterruptedAfterOne | Meets::BareInterruptedAfterOne => interrupted(1, labels),
        Meets::InterruptedBefore | Meets::BareInterruptedBefore => interrupted(0, labels),
        Meets::InterruptedAtOnce => Item::Interrupted {
            after: 0,
            code: 91,
            labels,
        },
        Meets::Refused => Item::Refused { code: 13, labels },
        Meets::RefusedForNow | Meets::BareRefusedForNow => Item::Refused {
            code: 11600,
            labels,
        },
        Meets::RefusedUnwritten => Item::Refused {
            code: 10107,
            labels,
        },
    }
}

/// The items of what exchanges meet, one after the other.
pub(crate) fn items(rt: &impl Abort, alloc: Global, meets: &[Meets]) -> List<Scheduled>
    ensures { All (λ step. IsItem step.item) result }
{
    let mut steps = List::new(alloc);
    'items: for one in meets {
        steps
            .push(Scheduled {
                deliver: List::new(alloc),
                item: item(rt, alloc, *one),
            })
            .made(rt);
    }
    steps
}
