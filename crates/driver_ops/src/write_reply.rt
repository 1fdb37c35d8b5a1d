//! What the reply to a command of writes tells of writes that failed and of a write concern that was not met.
ghost use Rattle.std.specs.Prelude.{◌≡◌};
ghost use Rattle.std.specs.Option.{option_copied};
ghost use Rattle.driver_link.specs.Commands.{optional};
ghost use Rattle.driver_link.specs.Values.{document_of, text_of};
ghost use Rattle.driver_ops.specs.Readings.{Gives};
ghost use Rattle.driver_ops.specs.WriteReplies.{concern_error_in, concern_error_of, indexed_error_in, indexed_error_of, indexed_errors, indexed_errors_of, reply_concern_error, write_errors_in};

use crate::keys::{CODE_NAME, ERROR_INFO};
use crate::reply_fields::{Unread, code_at, count_at, labels_at, text_at};
use bson_lite::{Bson, Document, List, Text, TryClone};
use driver_error::{IndexedWriteError, WriteConcernError};
use std::alloc::Global;
use wire_keys::keys;

/// The document of a value.
fn document_of(value: &Bson) -> Option<&Document>
    ensures { option_copied result ≡ document_of value.now }
{
    match value {
        Bson::Document(document) => Some(document),
        _ => None,
    }
}

/// A document under a key, which may be missing.
#[tactic(auto, unfolding(driver_link::specs::Commands::optional_value))]
pub fn document_at(
    alloc: Global,
    document: &Document,
    key: &str,
) -> Result<Option<Document>, Unread>
    ensures { Gives result (optional document_of key.now document.now) }
{
    match document.get(key) {
        None => Ok(None),
        Some(Bson::Document(found)) => Ok(Some(found.try_clone(alloc)?)),
        Some(_) => Err(Unread::Wrong),
    }
}

/// A text under a key, which may be missing.
#[tactic(auto, unfolding(driver_link::specs::Commands::optional_value))]
pub fn optional_text_at(
    alloc: Global,
    document: &Document,
    key: &str,
) -> Result<Option<Text>, Unread>
    ensures { Gives result (optional text_of key.now document.now) }
{
    match document.get(key) {
        None => Ok(None),
        Some(Bson::String(text)) => Ok(Some(text.try_clone(alloc)?)),
        Some(_) => Err(Unread::Wrong),
    }
}

/// A write error by its fields.
#[tactic(auto, unfolding(crate::specs::WriteReplies::indexed_error_in))]
fn indexed_error_in(alloc: Global, document: &Document) -> Result<IndexedWriteError, Unread>
    ensures { Gives result (indexed_error_in document.now) }
{
    let index = count_at(document, keys::INDEX)? as usize;
    let code = code_at(document, keys::CODE)?;
    let code_name = optional_text_at(alloc, document, CODE_NAME)?;
    let message = text_at(alloc, document, keys::ERROR_MESSAGE)?;
    let details = document_at(alloc, document, ERROR_INFO)?;
    Ok(IndexedWriteError {
        index,
        code,
        code_name,
        message,
        details,
    })
}

/// A value that is a write error.
#[tactic(auto, unfolding(crate::specs::WriteReplies::indexed_error_of))]
fn indexed_error_of(alloc: Global, value: &Bson) -> Result<IndexedWriteError, Unread>
    ensures { Gives result (indexed_error_of value.now) }
{
    match document_of(value) {
        Some(document) => indexed_error_in(alloc, document),
        None => Err(Unread::Wrong),
    }
}

/// Write errors, each in its form.
#[tactic(auto, unfolding(crate::specs::WriteReplies::indexed_errors))]
fn indexed_errors(alloc: Global, values: &[Bson]) -> Result<List<IndexedWriteError>, Unread>
    ensures { Gives result (indexed_errors values.now) }
{
    let mut errors = List::new(alloc);
    for value in values {
        errors.push(indexed_error_of(alloc, value)?)?;
    }
    Ok(errors)
}

/// The write errors of a reply.
#[tactic(auto, unfolding(crate::specs::WriteReplies::write_errors_in, crate::specs::WriteReplies::indexed_errors_of, driver_link::specs::Commands::optional_value))]
pub fn write_errors_in(alloc: Global, reply: &Document) -> Result<List<IndexedWriteError>, Unread>
    ensures { Gives result (write_errors_in reply.now) }
{
    match reply.get(keys::WRITE_ERRORS) {
        None => Ok(List::new(alloc)),
        Some(Bson::Array(values)) => indexed_errors(alloc, values.as_slice()),
        Some(_) => Err(Unread::Wrong),
    }
}

/// A write concern error by its fields.
#[tactic(auto, unfolding(crate::specs::WriteReplies::concern_error_in))]
fn concern_error_in(alloc: Global, document: &Document) -> Result<WriteConcernError, Unread>
    ensures { Gives result (concern_error_in document.now) }
{
    let code = code_at(document, keys::CODE)?;
    let code_name = text_at(alloc, document, CODE_NAME)?;
    let message = text_at(alloc, document, keys::ERROR_MESSAGE)?;
    let details = document_at(alloc, document, ERROR_INFO)?;
    let labels = labels_at(alloc, document)?;
    Ok(WriteConcernError {
        code,
        code_name,
        message,
        details,
        labels,
    })
}

/// The write concern error of a reply, which may be missing.
#[tactic(auto, unfolding(crate::specs::WriteReplies::concern_error_of, driver_link::specs::Commands::optional_value))]
pub fn reply_concern_error(
    alloc: Global,
    reply: &Document,
) -> Result<Option<WriteConcernError>, Unread>
    ensures { Gives result (reply_concern_error reply.now) }
{
    match reply.get(keys::WRITE_CONCERN_ERROR) {
        None => Ok(None),
        Some(Bson::Document(document)) => Ok(Some(concern_error_in(alloc, document)?)),
        Some(_) => Err(Unread::Wrong),
    }
}
