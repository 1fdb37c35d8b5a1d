//! What the batches of a bulk write came to so far.
ghost use Rattle.std.specs.Prelude.{◌≡◌, IfErr, IfOk};
ghost use Rattle.bulk_outcomes.specs.Status.{FailsAgain, FailsBehind, FailsWith, IsBulkOfKind, IsMadeOf, Stands, Succeeds, goes_on, is_followed, is_memory, succeeded_alone};
ghost use Rattle.driver_error.specs.declared.kind.ErrorKind.TheVariants.{Memory};
ghost use Rattle.driver_error.specs.Error.{IsAlone, kind_of, source_of};
ghost use Rattle.driver_error.specs.LabelTexts.{no_labels};
ghost use Rattle.driver_error.specs.BulkErrors.{AreMergeable, IsAlikeBefore, failures_in};

use crate::bulk_result::BulkWriteResult;
use bson_lite::{Boxed, ByIndex, List};
use driver_error::{BulkWriteError, Error, ErrorKind, PartialBulkWriteResult, Result};
use std::alloc::Global;

/// What the batches of a bulk write came to so far.
#[derive(Drop)]
pub enum ExecutionStatus<R> {
    /// Each was answered Ok: the result of all.
    Success(R),
    /// One failed: why, with what succeeded, unless memory ran out or it was the first and failed otherwise.
    Error(Error),
    /// There was none yet.
    None,
}

impl<R: BulkWriteResult> ExecutionStatus<R> {
    /// What stands once a batch more was answered Ok. It is refused where a sum of counts has more than 64
    /// bits, and for want of memory.
    pub fn with_success(self, alloc: Global, found: R) -> Result<ExecutionStatus<R>>
        requires { Stands R.tells self }
        ensures { Succeeds R.tells self found result }
    {
        match self {
            ExecutionStatus::None => Ok(ExecutionStatus::Success(found)),
            ExecutionStatus::Success(before) => {
                let mut all = before;
                all.merge(alloc, found)?;
                Ok(ExecutionStatus::Success(all))
            }
            ExecutionStatus::Error(error) => {
                let later = succeeded(alloc, found.into_partial_result());
                Ok(ExecutionStatus::Error(error.with_later(alloc, later)?))
            }
        }
    }

    /// What stands once a batch more failed. Want of memory takes the place of what stood; failures of the
    /// bulk write are merged into it, with their source; any other error becomes its source. It is refused
    /// where a sum of counts has more than 64 bits, and for want of memory.
    pub fn with_failure(self, alloc: Global, error: Error) -> Result<ExecutionStatus<R>>
        requires standing { Stands R.tells self }
        requires given { IsBulkOfKind R.tells (failures_in (kind_of error)) }
        ensures { FailsWith R.tells self (is_memory (kind_of error)) error result }
    {
        if matches!(error.kind(), ErrorKind::Memory) {
            drop(self);
            return Ok(ExecutionStatus::Error(error));
        }
        match self {
            ExecutionStatus::None => Ok(ExecutionStatus::Error(error)),
            ExecutionStatus::Success(before) => {
                let done = succeeded(alloc, before.into_partial_result());
                Ok(ExecutionStatus::Error(behind_success(alloc, done, error)?))
            }
            ExecutionStatus::Error(standing) => {
                Ok(ExecutionStatus::Error(behind_error(alloc, standing, error)?))
            }
        }
    }

    /// Whether the next batch is made.
    pub fn should_continue(&self, ordered: bool) -> bool
        ensures { result ≡ goes_on ordered self.now }
    {
        match self {
            ExecutionStatus::Error(error) => is_followed(error, ordered),
            _ => true,
        }
    }
}

/// What succeeded, as the failures of a bulk write in which nothing failed.
fn succeeded(alloc: Global, partial: PartialBulkWriteResult) -> BulkWriteError
    ensures { result ≡ succeeded_alone partial }
{
    BulkWriteError {
        write_concern_errors: List::new(alloc),
        write_errors: ByIndex::new(alloc),
        partial_result: Some(partial),
    }
}

/// An error behind what succeeded: failures take it over, any other error is its source.
fn behind_success(alloc: Global, done: BulkWriteError, error: Error) -> Result<Error>
    requires { IsAlikeBefore (failures_in (kind_of error)) done.partial_result }
    ensures { FailsBehind done (failures_in (kind_of error)) error result }
{
    match error.kind() {
        ErrorKind::BulkWrite(_) => error.with_earlier(alloc, done),
        _ => made_of(alloc, done, error),
    }
}

/// What succeeded as an error of the bulk write, with the error behind it as its source.
fn made_of(alloc: Global, done: BulkWriteError, error: Error) -> Result<Error>
    ensures ok { IfOk result (IsMadeOf done error) }
    ensures err { IfErr result (IsAlone Memory no_labels) }
{
    match Boxed::new(alloc, done) {
        Ok(done) => {
            let failed = Error::from_kind(ErrorKind::BulkWrite(done));
            Ok(failed.with_source(alloc, Some(error))?)
        }
        Err(refused) => {
            drop(error);
            Err(Error::from(refused))
        }
    }
}

/// An error behind one of the bulk write: failures are merged into it, any other error is its source.
fn behind_error(alloc: Global, standing: Error, error: Error) -> Result<Error>
    requires { AreMergeable (failures_in (kind_of standing)) (failures_in (kind_of error)) }
    ensures { FailsAgain (failures_in (kind_of standing)) standing
        (failures_in (kind_of error)) error result }
{
    match error.into_bulk_write() {
        Ok((failures, source)) => match standing.with_later(alloc, failures) {
            Ok(merged) => Ok(merged.with_source(alloc, source)?),
            Err(refused) => {
                drop(source);
                Err(refused)
            }
        },
        Err(error) => Ok(standing.with_source(alloc, Some(error))?),
    }
}

/// Whether the next batch is made behind an error.
fn is_followed(error: &Error, ordered: bool) -> bool
    ensures { result ≡ is_followed ordered (failures_in (kind_of error.now)) (source_of error.now) }
{
    if error.source().is_some() {
        return false;
    }
    match error.kind() {
        ErrorKind::BulkWrite(failures) => !ordered || failures.get().write_errors.len() == 0,
        _ => false,
    }
}
