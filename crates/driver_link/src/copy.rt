//! Copies of a schedule, which equal it.
ghost use Rattle.std.specs.Prelude.{◌≡◌, IfOk};

use crate::machine::{Failing, Item, Planned, PlannedConcern, Schedule, Scheduled};
use bson_lite::{List, TryClone};
use std::alloc::{AllocError, Global};

impl TryClone for Schedule {
    fn try_clone(&self, alloc: Global) -> Result<Schedule, AllocError> {
        Ok(Schedule {
            items: self.items.try_clone(alloc)?,
            selects: copied_numbers(alloc, &self.selects)?,
            check_outs: copied_numbers(alloc, &self.check_outs)?,
            overloaded_check_outs: copied_numbers(alloc, &self.overloaded_check_outs)?,
            reauthentications: copied_numbers(alloc, &self.reauthentications)?,
            supports: copied_numbers(alloc, &self.supports)?,
        })
    }
}

/// A copy of a list of numbers.
fn copied_numbers(alloc: Global, numbers: &List<u64>) -> Result<List<u64>, AllocError>
    ensures { IfOk result (λ copy. copy ≡ numbers.now) }
{
    let items = numbers.as_slice();
    let mut copies = Vec::with_capacity(alloc, items.len())?;
    copies.extend_from_slice(items)?;
    Ok(List::from_vec(copies))
}

impl TryClone for Scheduled {
    fn try_clone(&self, alloc: Global) -> Result<Scheduled, AllocError> {
        Ok(Scheduled {
            deliver: copied_numbers(alloc, &self.deliver)?,
            item: self.item.try_clone(alloc)?,
        })
    }
}

impl TryClone for Item {
    fn try_clone(&self, alloc: Global) -> Result<Item, AllocError> {
        match self {
            Item::Serve {
                results,
                fail,
                write_concern_error,
                page,
            } => Ok(Item::Serve {
                results: results.try_clone(alloc)?,
                fail: fail.try_clone(alloc)?,
                write_concern_error: write_concern_error.try_clone(alloc)?,
                page: *page,
            }),
            Item::Lost => Ok(Item::Lost),
            Item::Late => Ok(Item::Late),
            Item::ReplyLost => Ok(Item::ReplyLost),
            Item::Interrupted {
                after,
                code,
                labels,
            } => Ok(Item::Interrupted {
                after: *after,
                code: *code,
                labels: labels.try_clone(alloc)?,
            }),
            Item::Refused { code, labels } => Ok(Item::Refused {
                code: *code,
                labels: labels.try_clone(alloc)?,
            }),
            Item::Reauthenticate => Ok(Item::Reauthenticate),
        }
    }
}

impl TryClone for Planned {
    fn try_clone(&self, alloc: Global) -> Result<Planned, AllocError> {
        Ok(Planned {
            n: self.n,
            modified: self.modified,
            value: self.value.try_clone(alloc)?,
            upserted: self.upserted.try_clone(alloc)?,
        })
    }
}

impl TryClone for Failing {
    fn try_clone(&self, _alloc: Global) -> Result<Failing, AllocError> {
        Ok(*self)
    }
}

impl TryClone for PlannedConcern {
    fn try_clone(&self, alloc: Global) -> Result<PlannedConcern, AllocError> {
        Ok(PlannedConcern {
            code: self.code,
            message: self.message.try_clone(alloc)?,
        })
    }
}
