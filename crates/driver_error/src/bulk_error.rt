//! How the errors of two parts of a bulk write become one.
ghost use Rattle.std.specs.Prelude.{◌≡◌, IfSome, IfErr, IfOk, OnErr, OnOk};
ghost use Rattle.driver_error.specs.declared.kind.ErrorKind.TheVariants.{BulkWrite};
ghost use Rattle.bson_lite.specs.Unions.{union};
ghost use Rattle.driver_error.specs.Error.{kind_of};
ghost use Rattle.driver_error.specs.BulkErrors.{AreAlike, AreOfOneKind, IsAlikeBefore, IsAlikeIn, JoinsEarlier, JoinsLater, RefusesSums, TakesApart, failures_in, joint_sums, merged_errors, merged_partial, merged_partials, merged_verbose, partial_counts};
ghost use Rattle.driver_error.specs.Counts.{AllFit, RefusesMerge, added};

use crate::counts::added_counts;
use crate::error::{Error, Parts, Result};
use crate::kind::ErrorKind;
use crate::write::{BulkWriteError, WriteError};
use bson_lite::{Boxed, ByIndex, unite_four};
use server_answers::{PartialBulkWriteResult, SummaryBulkWriteResult, VerboseBulkWriteResult};
use std::alloc::Global;

impl BulkWriteError {
    /// Takes over why a later part of the bulk write failed: its write concern errors stand behind those
    /// there, its write errors at their indexes, in place of those there, and its result is merged into the
    /// one there. The two results are of one kind where both are there. Refused, it changes nothing.
    pub fn merge(&mut self, alloc: Global, other: BulkWriteError) -> Result<()>
        requires { AreAlike self.old.partial_result other.partial_result }
        ensures ok { OnOk result (self.new ≡ merged_errors self.old other) }
        ensures fit { OnOk result (IfSome (joint_sums self.old.partial_result other.partial_result) AllFit) }
        ensures err { OnErr result (self.new ≡ self.old) }
        ensures why { IfErr result (λ error. RefusesSums
            (joint_sums self.old.partial_result other.partial_result) error) }
    {
        let BulkWriteError {
            write_concern_errors,
            write_errors,
            partial_result,
        } = other;
        let count = self.write_concern_errors.len();
        self.write_concern_errors.append(write_concern_errors)?;
        match merge_results(
            alloc,
            &mut self.partial_result,
            partial_result,
            &mut self.write_errors,
            write_errors,
        ) {
            Ok(()) => Ok(()),
            Err(error) => {
                self.write_concern_errors.truncate(count);
                Err(error)
            }
        }
    }
}

impl Error {
    /// This error of a bulk write with what a later part of it failed with, or what succeeded in that:
    /// labels, wire version, source and response stay. An error of another kind stays as it is. The results
    /// of both are of one kind where both are there. It is refused where a sum of counts has more than 64
    /// bits, and for want of memory.
    pub fn with_later(self, alloc: Global, later: BulkWriteError) -> Result<Error>
        requires { IsAlikeIn (failures_in (kind_of self)) later.partial_result }
        ensures { JoinsLater (failures_in (kind_of self)) later self result }
    {
        let Parts {
            kind,
            labels,
            wire_version,
            source,
            server_response,
        } = self.into_parts();
        match kind {
            ErrorKind::BulkWrite(failures) => {
                let kind = joined(alloc, failures.into_inner(), later)?;
                Ok(Error {
                    kind,
                    labels,
                    wire_version,
                    source,
                    server_response,
                })
            }
            kind => {
                drop(later);
                Ok(Error {
                    kind,
                    labels,
                    wire_version,
                    source,
                    server_response,
                })
            }
        }
    }
}

impl Error {
    /// This error of a bulk write with what an earlier part of it failed with, or what succeeded in that, in
    /// the same way.
    pub fn with_earlier(self, alloc: Global, earlier: BulkWriteError) -> Result<Error>
        requires { IsAlikeBefore (failures_in (kind_of self)) earlier.partial_result }
        ensures { JoinsEarlier (failures_in (kind_of self)) earlier self result }
    {
        let Parts {
            kind,
            labels,
            wire_version,
            source,
            server_response,
        } = self.into_parts();
        match kind {
            ErrorKind::BulkWrite(failures) => {
                let kind = joined(alloc, earlier, failures.into_inner())?;
                Ok(Error {
                    kind,
                    labels,
                    wire_version,
                    source,
                    server_response,
                })
            }
            kind => {
                drop(earlier);
                Ok(Error {
                    kind,
                    labels,
                    wire_version,
                    source,
                    server_response,
                })
            }
        }
    }

    /// What this error of a bulk write tells of its failures, and its source. An error of another kind is
    /// handed back.
    pub fn into_bulk_write(self) -> std::result::Result<(BulkWriteError, Option<Error>), Error>
        ensures { TakesApart (failures_in (kind_of self)) self result }
    {
        let Parts {
            kind,
            labels,
            wire_version,
            source,
            server_response,
        } = self.into_parts();
        match kind {
            ErrorKind::BulkWrite(failures) => Ok((failures.into_inner(), unboxed(source))),
            kind => Err(Error {
                kind,
                labels,
                wire_version,
                source,
                server_response,
            }),
        }
    }
}

/// The error in a place of its own.
fn unboxed(source: Option<Boxed<Error>>) -> Option<Error>
    ensures { result ≡ source }
{
    match source {
        Some(source) => Some(source.into_inner()),
        None => None,
    }
}

/// The failures of two parts as a kind of error.
fn joined(alloc: Global, earlier: BulkWriteError, later: BulkWriteError) -> Result<ErrorKind>
    requires { AreAlike earlier.partial_result later.partial_result }
    ensures kind { IfOk result (λ kind. kind ≡ BulkWrite (merged_errors earlier later)) }
    ensures fit { IfOk result (λ kind. IfSome
        (joint_sums earlier.partial_result later.partial_result) AllFit) }
    ensures why { IfErr result (λ error. RefusesSums
        (joint_sums earlier.partial_result later.partial_result) error) }
{
    let mut failures = earlier;
    failures.merge(alloc, later)?;
    Ok(ErrorKind::BulkWrite(Boxed::new(alloc, failures)?))
}

/// Merges results that may not be there, and puts write errors at their indexes. Refused, it changes neither.
fn merge_results(
    alloc: Global,
    partial: &mut Option<PartialBulkWriteResult>,
    more: Option<PartialBulkWriteResult>,
    errors: &mut ByIndex<WriteError>,
    more_errors: ByIndex<WriteError>,
) -> Result<()>
    requires { AreAlike partial.old more }
    ensures results { OnOk result (partial.new ≡ merged_partials partial.old more) }
    ensures errors { OnOk result (errors.new ≡ union errors.old more_errors) }
    ensures fit { OnOk result (IfSome (joint_sums partial.old more) AllFit) }
    ensures results_stay { OnErr result (partial.new ≡ partial.old) }
    ensures errors_stay { OnErr result (errors.new ≡ errors.old) }
    ensures why { IfErr result (λ error. RefusesSums (joint_sums partial.old more) error) }
{
    match more {
        None => Ok(errors.unite(more_errors)?),
        Some(more) => match partial {
            None => {
                errors.unite(more_errors)?;
                *partial = Some(more);
                Ok(())
            }
            Some(partial) => merge_partial(alloc, partial, more, errors, more_errors),
        },
    }
}

/// The same of two results that are there.
fn merge_partial(
    alloc: Global,
    partial: &mut PartialBulkWriteResult,
    more: PartialBulkWriteResult,
    errors: &mut ByIndex<WriteError>,
    more_errors: ByIndex<WriteError>,
) -> Result<()>
    requires { AreOfOneKind partial.old more }
    ensures results { OnOk result (partial.new ≡ merged_partial partial.old more) }
    ensures errors { OnOk result (errors.new ≡ union errors.old more_errors) }
    ensures fit { OnOk result (AllFit (added (partial_counts partial.old) (partial_counts more))) }
    ensures results_stay { OnErr result (partial.new ≡ partial.old) }
    ensures errors_stay { OnErr result (errors.new ≡ errors.old) }
    ensures why { IfErr result (λ error. RefusesMerge
        (added (partial_counts partial.old) (partial_counts more)) error) }
{
    match more {
        PartialBulkWriteResult::Summary(more) => match partial {
            PartialBulkWriteResult::Summary(counts) => {
                merge_summary(alloc, counts, more, errors, more_errors)
            }
            PartialBulkWriteResult::Verbose(_) => unreachable!(),
        },
        PartialBulkWriteResult::Verbose(more) => match partial {
            PartialBulkWriteResult::Verbose(results) => {
                merge_verbose(alloc, results, more, errors, more_errors)
            }
            PartialBulkWriteResult::Summary(_) => unreachable!(),
        },
    }
}

/// The same of two summaries.
fn merge_summary(
    alloc: Global,
    counts: &mut SummaryBulkWriteResult,
    more: SummaryBulkWriteResult,
    errors: &mut ByIndex<WriteError>,
    more_errors: ByIndex<WriteError>,
) -> Result<()>
    ensures results { OnOk result (counts.new ≡ added counts.old more) }
    ensures errors { OnOk result (errors.new ≡ union errors.old more_errors) }
    ensures fit { OnOk result (AllFit (added counts.old more)) }
    ensures results_stay { OnErr result (counts.new ≡ counts.old) }
    ensures errors_stay { OnErr result (errors.new ≡ errors.old) }
    ensures why { IfErr result (λ error. RefusesMerge (added counts.old more) error) }
{
    let sums = added_counts(alloc, *counts, more)?;
    errors.unite(more_errors)?;
    *counts = sums;
    Ok(())
}

/// The same of two verbose results.
fn merge_verbose(
    alloc: Global,
    results: &mut VerboseBulkWriteResult,
    more: VerboseBulkWriteResult,
    errors: &mut ByIndex<WriteError>,
    more_errors: ByIndex<WriteError>,
) -> Result<()>
    ensures results { OnOk result (results.new ≡ merged_verbose results.old more) }
    ensures errors { OnOk result (errors.new ≡ union errors.old more_errors) }
    ensures fit { OnOk result (AllFit (added results.old.summary more.summary)) }
    ensures results_stay { OnErr result (results.new ≡ results.old) }
    ensures errors_stay { OnErr result (errors.new ≡ errors.old) }
    ensures why { IfErr result (λ error. RefusesMerge (added results.old.summary more.summary) error) }
{
    let VerboseBulkWriteResult {
        summary,
        insert_results,
        update_results,
        delete_results,
    } = more;
    let sums = added_counts(alloc, results.summary, summary)?;
    unite_four(
        errors,
        more_errors,
        &mut results.insert_results,
        insert_results,
        &mut results.update_results,
        update_results,
        &mut results.delete_results,
        delete_results,
    )?;
    results.summary = sums;
    Ok(())
}
