//! What belongs to the kind of an error, put behind a text.
ghost use Rattle.std.specs.Prelude.{◌≡◌, ◌++◌, map, string_bytes, OnOk};
ghost use Rattle.std.specs.Fmt.{signed_decimal};
ghost use Rattle.report_lines.specs.FailedWrites.{failed_by_index, failed_in_order};
ghost use Rattle.report_lines.specs.Words.{bulk_failure_text, concern_code, concern_text, detail, error_code, failed_or_none, failed_text, failure_text, five_text, listed, many_failure_text, partial_text, write_errors_text};

use crate::failed_writes::{FailedWrite, failures_at, order_failures};
use crate::numbers::push_signed;
use crate::words::{name_of_fault, name_of_io};
use bson_lite::{ByIndex, List};
use driver_error::{
    BulkWriteError, ErrorKind, IndexedWriteError, InsertManyError, PartialBulkWriteResult,
    SummaryBulkWriteResult, WriteConcernError, WriteError, WriteFailure,
};
use std::alloc::{AllocError, Global};

#[tactic(auto, unfolding(crate::specs::Words::detail))]
pub(crate) fn push_detail(
    alloc: Global,
    out: &mut String,
    kind: &ErrorKind,
) -> Result<(), AllocError>
    ensures { OnOk result (string_bytes out.new ≡ string_bytes out.old ++ detail kind.now) }
{
    match kind {
        ErrorKind::InvalidArgument { message }
        | ErrorKind::Authentication { message }
        | ErrorKind::DnsResolve { message }
        | ErrorKind::Internal { message }
        | ErrorKind::ConnectionPoolCleared { message }
        | ErrorKind::InvalidResponse { message }
        | ErrorKind::ServerSelection { message }
        | ErrorKind::InvalidTlsConfig { message }
        | ErrorKind::Transaction { message }
        | ErrorKind::IncompatibleServer { message }
        | ErrorKind::Custom(message) => out.push_str(message.as_str()),
        ErrorKind::BsonSerialization(fault) => out.push_str(name_of_fault(*fault)),
        ErrorKind::Io(failure) => out.push_str(name_of_io(*failure)),
        ErrorKind::InsertMany(many) => push_many_failure(alloc, out, many.get()),
        ErrorKind::BulkWrite(failures) => push_bulk_failure(alloc, out, failures.get()),
        ErrorKind::Command(error) => push_code(out, error.code),
        ErrorKind::Write(failure) => push_failure(out, failure),
        _ => out.push_str("-"),
    }
}

fn push_code(out: &mut String, code: i32) -> Result<(), AllocError>
    ensures { OnOk result (string_bytes out.new ≡ string_bytes out.old ++ signed_decimal code) }
{
    write!(out, "{code}")?;
    Ok(())
}

/// The index of a write that failed and its code.
#[tactic(auto, unfolding(crate::specs::Words::failed_text))]
fn push_failed(out: &mut String, write: &FailedWrite) -> Result<(), AllocError>
    ensures { OnOk result (string_bytes out.new ≡ string_bytes out.old ++ failed_text write.now) }
{
    let index = write.index;
    write!(out, "{index}:")?;
    push_code(out, write.code)
}

/// The same for each, with commas between them.
#[tactic(auto, unfolding(crate::specs::Words::listed, crate::specs::Words::more_texts))]
fn push_each_failed(out: &mut String, writes: &[FailedWrite]) -> Result<(), AllocError>
    ensures { OnOk result
        (string_bytes out.new ≡ string_bytes out.old ++ listed (map failed_text writes.now)) }
{
    let Some((first, rest)) = writes.split_first() else {
        return out.push_str("-");
    };
    push_failed(out, first)?;
    for write in rest {
        out.push_str(",")?;
        push_failed(out, write)?;
    }
    Ok(())
}

/// The same for the writes of these errors, in order of their indexes.
fn push_in_order(
    alloc: Global,
    out: &mut String,
    errors: &[IndexedWriteError],
) -> Result<(), AllocError>
    ensures { OnOk result
        (string_bytes out.new ≡
        string_bytes out.old ++ listed (map failed_text (failed_in_order errors.now))) }
{
    let writes = order_failures(alloc, errors)?;
    push_each_failed(out, writes.as_slice())
}

fn push_failed_or_none(
    alloc: Global,
    out: &mut String,
    errors: &Option<List<IndexedWriteError>>,
) -> Result<(), AllocError>
    ensures { OnOk result (string_bytes out.new ≡ string_bytes out.old ++ failed_or_none errors.now) }
{
    match errors {
        Some(errors) => push_in_order(alloc, out, errors.as_slice()),
        None => out.push_str("-"),
    }
}

#[tactic(auto, unfolding(crate::specs::Words::write_errors_text))]
fn push_write_errors(
    alloc: Global,
    out: &mut String,
    errors: &Option<List<IndexedWriteError>>,
) -> Result<(), AllocError>
    ensures { OnOk result (string_bytes out.new ≡ string_bytes out.old ++ write_errors_text errors.now) }
{
    out.push_str("errors=")?;
    push_failed_or_none(alloc, out, errors)
}

fn push_concern_code(
    out: &mut String,
    concern: &Option<WriteConcernError>,
) -> Result<(), AllocError>
    ensures { OnOk result (string_bytes out.new ≡ string_bytes out.old ++ concern_code concern.now) }
{
    match concern {
        Some(error) => push_code(out, error.code),
        None => out.push_str("-"),
    }
}

#[tactic(auto, unfolding(crate::specs::Words::concern_text))]
fn push_concern(out: &mut String, concern: &Option<WriteConcernError>) -> Result<(), AllocError>
    ensures { OnOk result (string_bytes out.new ≡ string_bytes out.old ++ concern_text concern.now) }
{
    out.push_str(" writeConcern=")?;
    push_concern_code(out, concern)
}

/// The write errors and the write concern error of an insert of many.
#[tactic(auto, unfolding(crate::specs::Words::many_failure_text))]
fn push_many_failure(
    alloc: Global,
    out: &mut String,
    many: &InsertManyError,
) -> Result<(), AllocError>
    ensures { OnOk result (string_bytes out.new ≡ string_bytes out.old ++ many_failure_text many.now) }
{
    push_write_errors(alloc, out, &many.write_errors)?;
    push_concern(out, &many.write_concern_error)
}

/// The index and the code of each write error of a bulk write, in order of the indexes.
fn push_by_index(
    alloc: Global,
    out: &mut String,
    errors: &ByIndex<WriteError>,
) -> Result<(), AllocError>
    ensures { OnOk result
        (string_bytes out.new ≡
        string_bytes out.old ++ listed (map failed_text (failed_by_index errors.now))) }
{
    let writes = failures_at(alloc, errors.entries())?;
    push_each_failed(out, writes.as_slice())
}

/// The codes of write concern errors, with commas between them.
#[tactic(auto, unfolding(crate::specs::Words::listed, crate::specs::Words::more_texts))]
fn push_concern_codes(out: &mut String, concerns: &[WriteConcernError]) -> Result<(), AllocError>
    ensures { OnOk result
        (string_bytes out.new ≡ string_bytes out.old ++ listed (map error_code concerns.now)) }
{
    let Some((first, rest)) = concerns.split_first() else {
        return out.push_str("-");
    };
    push_code(out, first.code)?;
    for concern in rest {
        out.push_str(",")?;
        push_code(out, concern.code)?;
    }
    Ok(())
}

/// Numbers with commas between them.
#[tactic(auto, unfolding(crate::specs::Words::listed, crate::specs::Words::more_texts))]
fn push_numbers(out: &mut String, numbers: &[i64]) -> Result<(), AllocError>
    ensures { OnOk result
        (string_bytes out.new ≡ string_bytes out.old ++ listed (map signed_decimal numbers.now)) }
{
    let Some((first, rest)) = numbers.split_first() else {
        return out.push_str("-");
    };
    push_signed(out, *first)?;
    for number in rest {
        out.push_str(",")?;
        push_signed(out, *number)?;
    }
    Ok(())
}

/// The five counts of a bulk write, with commas between them.
#[tactic(auto, unfolding(crate::specs::Words::five_text))]
fn push_five(out: &mut String, counts: &SummaryBulkWriteResult) -> Result<(), AllocError>
    ensures { OnOk result (string_bytes out.new ≡ string_bytes out.old ++ five_text counts.now) }
{
    let five = [
        counts.inserted_count,
        counts.matched_count,
        counts.modified_count,
        counts.upserted_count,
        counts.deleted_count,
    ];
    push_numbers(out, &five)
}

/// The counts of what succeeded before a bulk write failed, where something did.
fn push_partial(
    out: &mut String,
    partial: &Option<PartialBulkWriteResult>,
) -> Result<(), AllocError>
    ensures { OnOk result (string_bytes out.new ≡ string_bytes out.old ++ partial_text partial.now) }
{
    match partial {
        Some(PartialBulkWriteResult::Summary(counts)) => push_five(out, counts),
        Some(PartialBulkWriteResult::Verbose(results)) => push_five(out, &results.summary),
        None => out.push_str("-"),
    }
}

/// The write errors, the write concern errors and the counts of a bulk write that failed.
#[tactic(auto, unfolding(crate::specs::Words::bulk_failure_text))]
fn push_bulk_failure(
    alloc: Global,
    out: &mut String,
    failures: &BulkWriteError,
) -> Result<(), AllocError>
    ensures { OnOk result
        (string_bytes out.new ≡ string_bytes out.old ++ bulk_failure_text failures.now) }
{
    out.push_str("errors=")?;
    push_by_index(alloc, out, &failures.write_errors)?;
    out.push_str(" writeConcerns=")?;
    push_concern_codes(out, failures.write_concern_errors.as_slice())?;
    out.push_str(" partial=")?;
    push_partial(out, &failures.partial_result)
}

#[tactic(auto, unfolding(crate::specs::Words::failure_text))]
fn push_failure(out: &mut String, failure: &WriteFailure) -> Result<(), AllocError>
    ensures { OnOk result (string_bytes out.new ≡ string_bytes out.old ++ failure_text failure.now) }
{
    match failure {
        WriteFailure::WriteConcernError(error) => {
            let code = error.code;
            write!(out, "WriteConcernError {code}")?;
            Ok(())
        }
        WriteFailure::WriteError(error) => {
            let code = error.code;
            write!(out, "WriteError {code}")?;
            Ok(())
        }
    }
}
