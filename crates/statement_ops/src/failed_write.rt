//! The failure of a write of one statement, as the reply to it tells.
ghost use Rattle.std.specs.Prelude.{◌≡◌, IfOk, Some};
ghost use Rattle.driver_error.specs.Conversions.{first_failure};
ghost use Rattle.driver_ops.specs.Readings.{Gives};
ghost use Rattle.statement_ops.specs.CountAnswers.{AnswersFailed, failed_write_in, first_id, upserted_in};

use bson_lite::{Bson, Document, ID_KEY, List, Text, TryClone};
use driver_error::{
    Error, ErrorKind, IndexedWriteError, Result, WriteConcernError, WriteError, WriteFailure,
};
use driver_ops::reply_fields::{Unread, labels_at};
use driver_ops::write_reply::{reply_concern_error, write_errors_in};
use std::alloc::{AllocError, Global};
use wire_keys::keys;

/// Why a write failed, if it did, and the labels of the reply.
#[derive(Drop)]
pub(crate) struct FailedWrite {
    pub(crate) failure: Option<WriteFailure>,
    pub(crate) labels: List<Text>,
}

/// The failure that a reply tells of.
#[tactic(auto, unfolding(crate::specs::CountAnswers::failed_write_in))]
pub(crate) fn failed_write_in(
    alloc: Global,
    reply: &Document,
) -> std::result::Result<FailedWrite, Unread>
    ensures { Gives result (failed_write_in reply.now) }
{
    let errors = write_errors_in(alloc, reply)?;
    let concern = reply_concern_error(alloc, reply)?;
    let labels = labels_at(alloc, reply)?;
    Ok(FailedWrite {
        failure: first_failure(errors, concern),
        labels,
    })
}

/// The first write error, else the write concern error.
fn first_failure(
    errors: List<IndexedWriteError>,
    concern: Option<WriteConcernError>,
) -> Option<WriteFailure>
    ensures { result ≡ first_failure (Some errors) concern }
{
    match errors.into_vec().into_iter().next() {
        Some(error) => {
            drop(concern);
            Some(WriteFailure::WriteError(WriteError::from(error)))
        }
        None => match concern {
            Some(concern) => Some(WriteFailure::WriteConcernError(concern)),
            None => None,
        },
    }
}

/// The result of a write that did not fail, else its failure with the labels of the reply.
pub(crate) fn answer_of<T: Drop>(alloc: Global, failed: FailedWrite, made: T) -> Result<T>
    ensures { AnswersFailed failed made result }
{
    let FailedWrite { failure, labels } = failed;
    match failure {
        None => Ok(made),
        Some(failure) => {
            drop(made);
            Err(Error::new(alloc, ErrorKind::Write(failure), labels.as_slice()))
        }
    }
}

/// A copy of the id of the document that an update put in, where it did.
#[tactic(auto, unfolding(crate::specs::CountAnswers::upserted_in))]
pub(crate) fn upserted_in(
    alloc: Global,
    reply: &Document,
) -> std::result::Result<Option<Bson>, AllocError>
    ensures { IfOk result (λ id. id ≡ upserted_in reply.now) }
{
    match reply.get(keys::UPSERTED) {
        Some(Bson::Array(values)) => first_id(alloc, values.as_slice()),
        _ => Ok(None),
    }
}

/// A copy of the id in the first of these values, where it is a document that has one.
fn first_id(alloc: Global, values: &[Bson]) -> std::result::Result<Option<Bson>, AllocError>
    ensures { IfOk result (λ id. id ≡ first_id values.now) }
{
    match values.first() {
        Some(Bson::Document(document)) => match document.get(ID_KEY) {
            Some(id) => Ok(Some(id.try_clone(alloc)?)),
            None => Ok(None),
        },
        _ => Ok(None),
    }
}
