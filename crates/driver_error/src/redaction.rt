//! Redaction: what a server said in messages, details and replies is taken out of an error and those below it. Ids and
//! counts stay.
ghost use Rattle.std.specs.Prelude.{◌≡◌, map, IfOk, OnOk, OnErr};
ghost use Rattle.std.specs.Option.{option_map};
ghost use Rattle.bson_lite.specs.Indexed.{changed};
ghost use Rattle.driver_error.specs.Redaction.{redacted, redacted_kind, redacted_many, redacted_bulk, redacted_command, redacted_failure, redacted_concern, redacted_write, redacted_indexed, redacted_text, redacted_reply};

use crate::error::Error;
use crate::kind::ErrorKind;
use crate::write::{
    BulkWriteError, IndexedWriteError, InsertManyError, WriteConcernError, WriteError, WriteFailure,
};
use bson_lite::{Boxed, Bson, ByIndex, Document, List, RawDocumentBuf, Text, TryClone};
use server_answers::CommandError;
use std::alloc::{AllocError, Global};
use std::mem;

impl Error {
    /// Takes the messages and details of what a server told, and its reply, out of this error and out
    /// of all those below it. A refusal changes nothing.
    #[tactic(auto, using(crate::proofs::Redacting::redacted_again))]
    pub fn redact(&mut self, alloc: Global) -> Result<(), AllocError>
        ensures ok { OnOk result (self.new ≡ redacted self.old) }
        ensures once { OnOk result (redacted self.new ≡ self.new) }
        ensures err { OnErr result (self.new ≡ self.old) }
    {
        let copy = redacted_copy(alloc, self)?;
        drop(mem::replace(self, copy));
        Ok(())
    }
}

#[cycle(redaction)]
fn redacted_copy(alloc: Global, error: &Error) -> Result<Error, AllocError>
    ensures { IfOk result (λ copy. copy ≡ redacted error.now) }
{
    Ok(Error {
        labels: error.labels.try_clone(alloc)?,
        wire_version: error.wire_version,
        source: redacted_source(alloc, &error.source)?,
        server_response: redacted_response(alloc, &error.server_response)?,
        kind: redacted_kind(alloc, &error.kind)?,
    })
}

#[cycle(redaction)]
fn redacted_source(
    alloc: Global,
    source: &Option<Boxed<Error>>,
) -> Result<Option<Boxed<Error>>, AllocError>
    ensures { IfOk result (λ copy. copy ≡ option_map redacted source.now) }
{
    match source {
        None => Ok(None),
        Some(error) => Ok(Some(Boxed::new(alloc, redacted_copy(alloc, error.get())?)?)),
    }
}

/// The document `{redacted: true}` in place of a reply.
fn redacted_response(
    alloc: Global,
    response: &Option<RawDocumentBuf>,
) -> Result<Option<RawDocumentBuf>, AllocError>
    ensures { IfOk result (λ copy. copy ≡ option_map (λ _. redacted_reply) response.now) }
{
    match response {
        None => Ok(None),
        Some(_) => Ok(Some(redacted_reply(alloc)?)),
    }
}

#[tactic(auto, unfolding(crate::specs::Redaction::redacted_reply))]
fn redacted_reply(alloc: Global) -> Result<RawDocumentBuf, AllocError>
    ensures { IfOk result (λ reply. reply ≡ redacted_reply) }
{
    let mut document = Document::new(alloc);
    document.push("redacted", Bson::Boolean(true))?;
    match RawDocumentBuf::from_document(alloc, &document) {
        Ok(reply) => Ok(reply),
        Err(_refused) => Err(AllocError),
    }
}

fn redacted_kind(alloc: Global, kind: &ErrorKind) -> Result<ErrorKind, AllocError>
    ensures { IfOk result (λ copy. copy ≡ redacted_kind kind.now) }
{
    match kind {
        ErrorKind::InsertMany(error) => {
            let copy = redacted_many(alloc, error.get())?;
            Ok(ErrorKind::InsertMany(Boxed::new(alloc, copy)?))
        }
        ErrorKind::BulkWrite(error) => {
            let copy = redacted_bulk(alloc, error.get())?;
            Ok(ErrorKind::BulkWrite(Boxed::new(alloc, copy)?))
        }
        ErrorKind::Command(error) => Ok(ErrorKind::Command(redacted_command(alloc, error)?)),
        ErrorKind::Write(failure) => Ok(ErrorKind::Write(redacted_failure(alloc, failure)?)),
        other => other.try_clone(alloc),
    }
}

#[tactic(auto, unfolding(crate::specs::Redaction::redacted_text))]
fn redacted_text(alloc: Global) -> Result<Text, AllocError>
    ensures { IfOk result (λ text. text ≡ redacted_text) }
{
    Text::from_str(alloc, "REDACTED")
}

fn redacted_command(alloc: Global, error: &CommandError) -> Result<CommandError, AllocError>
    ensures { IfOk result (λ copy. copy ≡ redacted_command error.now) }
{
    Ok(CommandError {
        code: error.code,
        code_name: error.code_name.try_clone(alloc)?,
        message: redacted_text(alloc)?,
        base_backoff: error.base_backoff,
    })
}

fn redacted_concern(
    alloc: Global,
    error: &WriteConcernError,
) -> Result<WriteConcernError, AllocError>
    ensures { IfOk result (λ copy. copy ≡ redacted_concern error.now) }
{
    Ok(WriteConcernError {
        code: error.code,
        code_name: error.code_name.try_clone(alloc)?,
        message: redacted_text(alloc)?,
        details: None,
        labels: error.labels.try_clone(alloc)?,
    })
}

fn redacted_write(alloc: Global, error: &WriteError) -> Result<WriteError, AllocError>
    ensures { IfOk result (λ copy. copy ≡ redacted_write error.now) }
{
    Ok(WriteError {
        code: error.code,
        code_name: error.code_name.try_clone(alloc)?,
        message: redacted_text(alloc)?,
        details: None,
    })
}

fn redacted_indexed(
    alloc: Global,
    error: &IndexedWriteError,
) -> Result<IndexedWriteError, AllocError>
    ensures { IfOk result (λ copy. copy ≡ redacted_indexed error.now) }
{
    Ok(IndexedWriteError {
        index: error.index,
        code: error.code,
        code_name: error.code_name.try_clone(alloc)?,
        message: redacted_text(alloc)?,
        details: None,
    })
}

fn redacted_failure(alloc: Global, failure: &WriteFailure) -> Result<WriteFailure, AllocError>
    ensures { IfOk result (λ copy. copy ≡ redacted_failure failure.now) }
{
    match failure {
        WriteFailure::WriteConcernError(error) => {
            Ok(WriteFailure::WriteConcernError(redacted_concern(alloc, error)?))
        }
        WriteFailure::WriteError(error) => {
            Ok(WriteFailure::WriteError(redacted_write(alloc, error)?))
        }
    }
}

fn redacted_many(alloc: Global, error: &InsertManyError) -> Result<InsertManyError, AllocError>
    ensures { IfOk result (λ copy. copy ≡ redacted_many error.now) }
{
    let write_errors = match &error.write_errors {
        None => None,
        Some(errors) => Some(redacted_list(alloc, errors.as_slice())?),
    };
    let write_concern_error = match &error.write_concern_error {
        None => None,
        Some(concern) => Some(redacted_concern(alloc, concern)?),
    };
    Ok(InsertManyError {
        write_errors,
        write_concern_error,
        inserted_ids: error.inserted_ids.try_clone(alloc)?,
    })
}

fn redacted_bulk(alloc: Global, error: &BulkWriteError) -> Result<BulkWriteError, AllocError>
    ensures { IfOk result (λ copy. copy ≡ redacted_bulk error.now) }
{
    Ok(BulkWriteError {
        write_concern_errors: redacted_concerns(alloc, error.write_concern_errors.as_slice())?,
        write_errors: redacted_map(alloc, &error.write_errors)?,
        partial_result: error.partial_result.try_clone(alloc)?,
    })
}

fn redacted_list(
    alloc: Global,
    errors: &[IndexedWriteError],
) -> Result<List<IndexedWriteError>, AllocError>
    ensures { IfOk result (λ copies. copies ≡ map redacted_indexed errors.now) }
{
    let mut copies = List::with_capacity(alloc, errors.len())?;
    for error in errors {
        copies.push(redacted_indexed(alloc, error)?)?;
    }
    Ok(copies)
}

fn redacted_concerns(
    alloc: Global,
    errors: &[WriteConcernError],
) -> Result<List<WriteConcernError>, AllocError>
    ensures { IfOk result (λ copies. copies ≡ map redacted_concern errors.now) }
{
    let mut copies = List::with_capacity(alloc, errors.len())?;
    for error in errors {
        copies.push(redacted_concern(alloc, error)?)?;
    }
    Ok(copies)
}

fn redacted_map(
    alloc: Global,
    errors: &ByIndex<WriteError>,
) -> Result<ByIndex<WriteError>, AllocError>
    ensures { IfOk result (λ copies. copies ≡ changed redacted_write errors.now) }
{
    let pairs = errors.entries();
    let mut copies = ByIndex::new(alloc);
    for pair in pairs {
        copies.insert(pair.0, redacted_write(alloc, &pair.1)?)?;
    }
    Ok(copies)
}
