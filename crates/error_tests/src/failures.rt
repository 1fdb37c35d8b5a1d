//! Errors as plain data: what a row says of one, made into an error and found in one.
ghost use Rattle.std.specs.Prelude.{◌≡◌, None, Some};
ghost use Rattle.driver_error.specs.declared.kind.ErrorKind.TheVariants.{BulkWrite};
ghost use Rattle.server_answers.specs.declared.results.PartialBulkWriteResult.TheVariants.{Summary, Verbose};
ghost use Rattle.driver_error.specs.BulkErrors.{AreAlike, failures_in};
ghost use Rattle.bulk_outcomes.specs.BulkResults.{no_counts, no_writes};
ghost use Rattle.driver_error.specs.Error.{kind_of, source_of};

use crate::asserting::Made;
use crate::errors::command;
use bson_lite::{Boxed, Bson, ByIndex, Document, List, RawDocumentBuf, Text};
use driver_error::{
    BulkWriteError, DeleteResult, Error, ErrorKind, InsertOneResult, IoKind,
    PartialBulkWriteResult, SummaryBulkWriteResult, UpdateResult, VerboseBulkWriteResult,
    WriteConcernError, WriteError,
};
use std::alloc::Global;
use std::process::Abort;

/// How many documents were inserted, matched, modified, upserted and deleted.
pub(crate) type Counts = [i64; 5];

/// Two results of which no two counts are alike, and their sums.
pub(crate) const A: Counts = [1, 20, 300, 4_000, 50_000];

pub(crate) const B: Counts = [6, 70, 800, 9_000, 100_000];

pub(crate) const SUMS: Counts = [7, 90, 1_100, 13_000, 150_000];

/// A result whose deleted documents are as many as 64 bits can tell, and one of a single delete.
pub(crate) const MOST: Counts = [0, 0, 0, 0, 9_223_372_036_854_775_807];

pub(crate) const ONE: Counts = [0, 0, 0, 0, 1];

/// The failures of a bulk write: the codes of its write concern errors in their order, those of its write
/// errors by index, and the counts of what succeeded.
#[derive(Clone, Copy)]
pub(crate) struct Failed {
    pub(crate) concerns: &'static [i32],
    pub(crate) writes: &'static [(usize, i32)],
    pub(crate) partial: Option<Counts>,
}

/// A verbose result: its counts, and by index the ids of inserts, how many documents updates matched and how
/// many deletes took.
#[derive(Clone, Copy)]
pub(crate) struct Results {
    pub(crate) counts: Counts,
    pub(crate) inserts: &'static [(usize, i32)],
    pub(crate) updates: &'static [(usize, u64)],
    pub(crate) deletes: &'static [(usize, u64)],
}

/// Two verbose results, which both have an insert at 2, an update at 3 and a delete at 5, and both together:
/// of an index that both have the later one's result.
pub(crate) const EARLIER: Results = Results {
    counts: A,
    inserts: &[(0, 10), (2, 12)],
    updates: &[(3, 23), (9, 29)],
    deletes: &[(5, 35)],
};

pub(crate) const LATER: Results = Results {
    counts: B,
    inserts: &[(1, 41), (2, 42)],
    updates: &[(3, 53)],
    deletes: &[(4, 64), (5, 65), (7, 67)],
};

pub(crate) const MERGED: Results = Results {
    counts: SUMS,
    inserts: &[(0, 10), (1, 41), (2, 42)],
    updates: &[(3, 53), (9, 29)],
    deletes: &[(4, 64), (5, 65), (7, 67)],
};

/// What stands beside the kind and the source of an error: no label, wire version and reply, or those of one
/// of three errors.
#[derive(Clone, Copy, PartialEq, Eq)]
pub(crate) enum Mark {
    Bare,
    First,
    Later,
    Cause,
}

/// An error that tells of no failures of a bulk write.
#[derive(Clone, Copy, PartialEq, Eq)]
pub(crate) enum Cause {
    Io,
    Command,
    Memory,
}

pub(crate) fn summary(counts: Counts) -> SummaryBulkWriteResult {
    let [
        inserted_count,
        matched_count,
        modified_count,
        upserted_count,
        deleted_count,
    ] = counts;
    SummaryBulkWriteResult {
        inserted_count,
        matched_count,
        modified_count,
        upserted_count,
        deleted_count,
    }
}

/// Whether these are the counts of a row.
pub(crate) fn are_counts(found: &SummaryBulkWriteResult, counts: Counts) -> bool {
    let found = [
        found.inserted_count,
        found.matched_count,
        found.modified_count,
        found.upserted_count,
        found.deleted_count,
    ];
    found == counts
}

fn inserts(rt: &impl Abort, alloc: Global, rows: &[(usize, i32)]) -> ByIndex<InsertOneResult> {
    let mut results = ByIndex::new(alloc);
    for (index, id) in rows {
        let inserted_id = Bson::Int32(*id);
        results
            .insert(*index, InsertOneResult { inserted_id })
            .made(rt);
    }
    results
}

fn updates(rt: &impl Abort, alloc: Global, rows: &[(usize, u64)]) -> ByIndex<UpdateResult> {
    let mut results = ByIndex::new(alloc);
    for (index, matched) in rows {
        let updated = UpdateResult {
            matched_count: *matched,
            modified_count: 0,
            upserted_id: None,
        };
        results.insert(*index, updated).made(rt);
    }
    results
}

fn deletes(rt: &impl Abort, alloc: Global, rows: &[(usize, u64)]) -> ByIndex<DeleteResult> {
    let mut results = ByIndex::new(alloc);
    for (index, deleted) in rows {
        let deleted_count = *deleted;
        results
            .insert(*index, DeleteResult { deleted_count })
            .made(rt);
    }
    results
}

pub(crate) fn verbose(rt: &impl Abort, alloc: Global, results: &Results) -> VerboseBulkWriteResult {
    let insert_results = inserts(rt, alloc, results.inserts);
    let update_results = updates(rt, alloc, results.updates);
    let delete_results = deletes(rt, alloc, results.deletes);
    VerboseBulkWriteResult {
        summary: summary(results.counts),
        insert_results,
        update_results,
        delete_results,
    }
}

fn are_inserts(found: &[(usize, InsertOneResult)], rows: &[(usize, i32)]) -> bool {
    if found.len() != rows.len() {
        return false;
    }
    for (entry, row) in found.iter().zip(rows) {
        if entry.0 != row.0 || !is_id(&entry.1.inserted_id, row.1) {
            return false;
        }
    }
    true
}

fn is_id(found: &Bson, id: i32) -> bool {
    match found {
        Bson::Int32(number) => *number == id,
        _ => false,
    }
}

fn is_update(found: &UpdateResult, matched: u64) -> bool {
    found.matched_count == matched && found.modified_count == 0 && found.upserted_id.is_none()
}

fn are_updates(found: &[(usize, UpdateResult)], rows: &[(usize, u64)]) -> bool {
    if found.len() != rows.len() {
        return false;
    }
    for (entry, row) in found.iter().zip(rows) {
        if entry.0 != row.0 || !is_update(&entry.1, row.1) {
            return false;
        }
    }
    true
}

fn are_deletes(found: &[(usize, DeleteResult)], rows: &[(usize, u64)]) -> bool {
    if found.len() != rows.len() {
        return false;
    }
    for (entry, row) in found.iter().zip(rows) {
        if entry.0 != row.0 || entry.1.deleted_count != row.1 {
            return false;
        }
    }
    true
}

/// Whether these are the results of a row.
pub(crate) fn are_results(found: &VerboseBulkWriteResult, results: &Results) -> bool {
    are_counts(&found.summary, results.counts)
        && are_inserts(found.insert_results.entries(), results.inserts)
        && are_updates(found.update_results.entries(), results.updates)
        && are_deletes(found.delete_results.entries(), results.deletes)
}

fn concerns(rt: &impl Abort, alloc: Global, codes: &[i32]) -> List<WriteConcernError> {
    let mut errors = List::new(alloc);
    for code in codes {
        errors
            .push(WriteConcernError {
                code: *code,
                code_name: Text::new(alloc),
                message: Text::new(alloc),
                details: None,
                labels: List::new(alloc),
            })
            .made(rt);
    }
    errors
}

fn writes(rt: &impl Abort, alloc: Global, rows: &[(usize, i32)]) -> ByIndex<WriteError> {
    let mut errors = ByIndex::new(alloc);
    for (index, code) in rows {
        let error = WriteError {
            code: *code,
            code_name: None,
            message: Text::new(alloc),
            details: None,
        };
        errors.insert(*index, error).made(rt);
    }
    errors
}

/// The failures of a row, with this in place of its result.
fn failures_with(
    rt: &impl Abort,
    alloc: Global,
    failed: &Failed,
    partial_result: Option<PartialBulkWriteResult>,
) -> BulkWriteError
    ensures { result.partial_result ≡ partial_result }
{
    let write_concern_errors = concerns(rt, alloc, failed.concerns);
    let write_errors = writes(rt, alloc, failed.writes);
    BulkWriteError {
        write_concern_errors,
        write_errors,
        partial_result,
    }
}

/// The result of a row.
fn partial(counts: Option<Counts>) -> Option<PartialBulkWriteResult>
    ensures { AreAlike (Some (Summary no_counts)) result }
{
    match counts {
        None => None,
        Some(counts) => Some(PartialBulkWriteResult::Summary(summary(counts))),
    }
}

/// The failures of a row.
pub(crate) fn failures(rt: &impl Abort, alloc: Global, failed: &Failed) -> BulkWriteError
    ensures { AreAlike (Some (Summary no_counts)) result.partial_result }
{
    failures_with(rt, alloc, failed, partial(failed.partial))
}

/// The errors of a row, with a verbose result.
pub(crate) fn verbose_failures(
    rt: &impl Abort,
    alloc: Global,
    failed: &Failed,
    results: &Results,
) -> BulkWriteError
    ensures { AreAlike (Some (Verbose no_writes)) result.partial_result }
{
    let results = verbose(rt, alloc, results);
    failures_with(
        rt,
        alloc,
        failed,
        Some(PartialBulkWriteResult::Verbose(results)),
    )
}

fn are_concerns(found: &[WriteConcernError], codes: &[i32]) -> bool {
    if found.len() != codes.len() {
        return false;
    }
    for (error, code) in found.iter().zip(codes) {
        if error.code != *code {
            return false;
        }
    }
    true
}

fn are_writes(found: &[(usize, WriteError)], rows: &[(usize, i32)]) -> bool {
    if found.len() != rows.len() {
        return false;
    }
    for (entry, row) in found.iter().zip(rows) {
        if entry.0 != row.0 || entry.1.code != row.1 {
            return false;
        }
    }
    true
}

fn is_partial(found: &Option<PartialBulkWriteResult>, counts: Option<Counts>) -> bool {
    match found {
        None => counts.is_none(),
        Some(PartialBulkWriteResult::Summary(found)) => match counts {
            None => false,
            Some(counts) => are_counts(found, counts),
        },
        Some(PartialBulkWriteResult::Verbose(_)) => false,
    }
}

/// Whether these are the errors of a row, whatever succeeded beside them.
fn are_errors(found: &BulkWriteError, failed: &Failed) -> bool {
    are_concerns(found.write_concern_errors.as_slice(), failed.concerns)
        && are_writes(found.write_errors.entries(), failed.writes)
}

/// Whether these are the failures of a row.
pub(crate) fn are_failures(found: &BulkWriteError, failed: &Failed) -> bool {
    are_errors(found, failed) && is_partial(&found.partial_result, failed.partial)
}

/// Whether these are the errors of a row, with a verbose result.
pub(crate) fn are_verbose_failures(
    found: &BulkWriteError,
    failed: &Failed,
    results: &Results,
) -> bool {
    match &found.partial_result {
        Some(PartialBulkWriteResult::Verbose(found_results)) => {
            are_results(found_results, results) && are_errors(found, failed)
        }
        _ => false,
    }
}

/// The reply `{n: ..}`.
fn reply(rt: &impl Abort, alloc: Global, number: i32) -> RawDocumentBuf {
    let mut document = Document::new(alloc);
    document.push("n", Bson::Int32(number)).made(rt);
    RawDocumentBuf::from_document(alloc, &document).made(rt)
}

/// The spellings of the documents `{n: 1}`, `{n: 2}` and `{n: 3}`.
const REPLY_1: &[u8; 12] = b"\x0c\x00\x00\x00\x10n\x00\x01\x00\x00\x00\x00";

const REPLY_2: &[u8; 12] = b"\x0c\x00\x00\x00\x10n\x00\x02\x00\x00\x00\x00";

const REPLY_3: &[u8; 12] = b"\x0c\x00\x00\x00\x10n\x00\x03\x00\x00\x00\x00";

/// The error with a label, a wire version and a reply.
fn with_label(
    rt: &impl Abort,
    alloc: Global,
    error: Error,
    label: &str,
    version: i32,
    number: i32,
) -> Error
    ensures kind { kind_of result ≡ kind_of error }
    ensures source { source_of result ≡ source_of error }
{
    let error = error.with_wire_version(Some(version));
    let mut error = error.with_server_response(Some(reply(rt, alloc, number)));
    error.add_label(alloc, label).made(rt);
    error
}

/// The error with a mark.
pub(crate) fn marked(rt: &impl Abort, alloc: Global, error: Error, mark: Mark) -> Error
    ensures kind { kind_of result ≡ kind_of error }
    ensures source { source_of result ≡ source_of error }
{
    match mark {
        Mark::Bare => error,
        Mark::First => with_label(rt, alloc, error, "first", 21, 1),
        Mark::Later => with_label(rt, alloc, error, "later", 25, 2),
        Mark::Cause => with_label(rt, alloc, error, "cause", 17, 3),
    }
}

/// Whether the labels print so.
fn are_labels(alloc: Global, error: &Error, text: &str) -> bool {
    match error.labels().to_string(alloc) {
        Ok(labels) => labels.as_str() == text,
        Err(_refused) => false,
    }
}

fn has_reply(error: &Error, reply: &[u8]) -> bool {
    match error.server_response() {
        Some(found) => found.as_bytes() == reply,
        None => false,
    }
}

/// Whether the error has this mark.
pub(crate) fn has_mark(alloc: Global, error: &Error, mark: Mark) -> bool {
    match mark {
        Mark::Bare => {
            are_labels(alloc, error, "-")
                && error.wire_version().is_none()
                && error.server_response().is_none()
        }
        Mark::First => is_marked(alloc, error, "first", 21, REPLY_1.as_slice()),
        Mark::Later => is_marked(alloc, error, "later", 25, REPLY_2.as_slice()),
        Mark::Cause => is_marked(alloc, error, "cause", 17, REPLY_3.as_slice()),
    }
}

fn is_marked(alloc: Global, error: &Error, label: &str, version: i32, reply: &[u8]) -> bool {
    are_labels(alloc, error, label)
        && error.wire_version() == Some(version)
        && has_reply(error, reply)
}

/// An error of the bulk write with a mark, and without a source.
pub(crate) fn bulk(rt: &impl Abort, alloc: Global, failures: BulkWriteError, mark: Mark) -> Error
    ensures kind { kind_of result ≡ BulkWrite failures }
    ensures source { source_of result ≡ None }
{
    let kind = ErrorKind::BulkWrite(Boxed::new(alloc, failures).made(rt));
    marked(rt, alloc, Error::from_kind(kind), mark)
}

/// An error of a kind that tells of no failures of a bulk write.
fn unmarked(rt: &impl Abort, alloc: Global, cause: Cause) -> Error
    ensures { failures_in (kind_of result) ≡ None }
{
    match cause {
        Cause::Io => Error::from_kind(ErrorKind::Io(IoKind::ConnectionReset)),
        Cause::Command => {
            let error = command(rt, alloc, 5, "Name", "x");
            Error::from_kind(ErrorKind::Command(error))
        }
        Cause::Memory => Error::from_kind(ErrorKind::Memory),
    }
}

/// Such an error with its mark.
pub(crate) fn other(rt: &impl Abort, alloc: Global, cause: Cause) -> Error
    ensures { failures_in (kind_of result) ≡ None }
{
    let error = unmarked(rt, alloc, cause);
    marked(rt, alloc, error, Mark::Cause)
}

/// The error over the source of a row, where it has one.
pub(crate) fn sourced(rt: &impl Abort, alloc: Global, error: Error, source: Option<Cause>) -> Error
    ensures { kind_of result ≡ kind_of error }
{
    match source {
        None => error,
        Some(cause) => {
            let source = other(rt, alloc, cause);
            error.with_source(alloc, Some(source)).made(rt)
        }
    }
}

fn is_kind(kind: &ErrorKind, cause: Cause) -> bool {
    match kind {
        ErrorKind::Io(found) => cause == Cause::Io && *found == IoKind::ConnectionReset,
        ErrorKind::Command(found) => cause == Cause::Command && found.code == 5,
        ErrorKind::Memory => cause == Cause::Memory,
        _ => false,
    }
}

/// Whether this is an error of a row that tells of no failures of a bulk write.
pub(crate) fn is_other(alloc: Global, error: &Error, cause: Cause) -> bool {
    is_kind(error.kind(), cause) && has_mark(alloc, error, Mark::Cause) && error.source().is_none()
}

/// Whether this is the source of a row.
pub(crate) fn is_source(alloc: Global, found: Option<&Error>, source: Option<Cause>) -> bool {
    match source {
        None => found.is_none(),
        Some(cause) => match found {
            None => false,
            Some(found) => is_other(alloc, found, cause),
        },
    }
}

/// The failures of a bulk write that an error tells of.
pub(crate) fn failures_of(error: &Error) -> Option<&BulkWriteError> {
    match error.kind() {
        ErrorKind::BulkWrite(failures) => Some(failures.get()),
        _ => None,
    }
}

/// Whether this is an error of the bulk write with these failures, this mark and this source.
pub(crate) fn is_bulk(
    alloc: Global,
    error: &Error,
    failed: &Failed,
    mark: Mark,
    source: Option<Cause>,
) -> bool {
    match failures_of(error) {
        Some(failures) => {
            are_failures(failures, failed)
                && has_mark(alloc, error, mark)
                && is_source(alloc, error.source(), source)
        }
        None => false,
    }
}

/// The message about a sum of counts that leaves 64 bits.
const OUT_OF_RANGE: &str = "a sum of counts is out of the range of a 64-bit number";

/// Whether the error says that a sum of counts leaves 64 bits, and nothing else.
pub(crate) fn is_refusal(alloc: Global, error: &Error) -> bool {
    match error.kind() {
        ErrorKind::InvalidResponse { message } => {
            message.as_str() == OUT_OF_RANGE
                && has_mark(alloc, error, Mark::Bare)
                && error.source().is_none()
        }
        _ => false,
    }
}
