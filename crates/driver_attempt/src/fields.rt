//! The fields that the executor appends to a built command.
ghost use Rattle.std.specs.Prelude.{◌≡◌, ◌++◌, IfOk, OnOk, length};
ghost use Rattle.std.specs.Option.{option_copied};
ghost use Rattle.driver_ops.specs.ConcernFields.{concern_value, filled};
ghost use Rattle.driver_ops.specs.Fields.{IsSixteen, session_document, session_field, number_field, executor_fields, in_context, with_fields};
ghost use Rattle.driver_ops.specs.OptionFields.{option_field};

use bson_lite::{Binary, Bson, Bytes, Document, TryClone};
use driver_ops::{Command, concern_document};
use driver_options::WriteConcern;
use std::alloc::{AllocError, Global};
use wire_keys::keys;

/// Appends the session, its transaction number, the write concern and the database, in this order, of which the
/// first three may be missing.
#[tactic(auto, unfolding(driver_ops::specs::Fields::executor_fields))]
pub(crate) fn append_fields(
    alloc: Global,
    command: &mut Command,
    session: Option<&[u8; 16]>,
    number: Option<i64>,
    concern: Option<&WriteConcern>,
) -> Result<(), AllocError>
    ensures fields { OnOk result (command.new ≡ with_fields
        (in_context (option_copied session.entry) number (option_copied concern.entry)) command.old) }
    ensures sixteen { IsSixteen (option_copied session.entry) }
{
    push_session(alloc, &mut command.body, session)?;
    push_number(&mut command.body, number)?;
    push_concern(alloc, &mut command.body, keys::WRITE_CONCERN, concern)?;
    let database = command.database.try_clone(alloc)?;
    command.body.push(keys::DATABASE, Bson::String(database))
}

/// Appends the field that names the session, if there is one.
#[tactic(auto, unfolding(driver_ops::specs::Fields::session_field))]
fn push_session(
    alloc: Global,
    body: &mut Document,
    session: Option<&[u8; 16]>,
) -> Result<(), AllocError>
    ensures field { OnOk result (body.new ≡ body.old ++ session_field (option_copied session.entry)) }
    ensures sixteen { IsSixteen (option_copied session.entry) }
{
    match session {
        None => Ok(()),
        Some(id) => body.push(keys::SESSION, Bson::Document(session_document(alloc, id)?)),
    }
}

/// Appends the field of the transaction number, if there is one.
#[tactic(auto, unfolding(driver_ops::specs::Fields::number_field))]
fn push_number(body: &mut Document, number: Option<i64>) -> Result<(), AllocError>
    ensures { OnOk result (body.new ≡ body.old ++ number_field number) }
{
    match number {
        None => Ok(()),
        Some(number) => body.push(keys::TRANSACTION_NUMBER, Bson::Int64(number)),
    }
}

/// Appends the field of the write concern, if there is one of which a field is set.
fn push_concern(
    alloc: Global,
    body: &mut Document,
    key: &str,
    concern: Option<&WriteConcern>,
) -> Result<(), AllocError>
    ensures { OnOk result
        (body.new ≡ body.old ++ option_field key.now (concern_value (option_copied concern.entry))) }
{
    match concern {
        None => Ok(()),
        Some(concern) => push_filled(body, key, concern_document(alloc, concern)?),
    }
}

/// Appends a document that has a field.
#[tactic(auto, using(crate::proofs::Concerns::filled_none, crate::proofs::Concerns::filled_some))]
fn push_filled(body: &mut Document, key: &str, document: Document) -> Result<(), AllocError>
    ensures { OnOk result (body.new ≡ body.old ++ option_field key.now (filled document)) }
{
    if document.is_empty() {
        return Ok(());
    }
    body.push(key, Bson::Document(document))
}

/// The document that names a session.
#[tactic(auto, unfolding(driver_ops::specs::Fields::session_document))]
fn session_document(alloc: Global, session: &[u8; 16]) -> Result<Document, AllocError>
    ensures document { IfOk result (λ named. named ≡ session_document session.now) }
    ensures sixteen { length session.now ≡ 16 }
{
    let mut named = Document::new(alloc);
    let id = Binary {
        subtype: keys::UUID_SUBTYPE,
        bytes: Bytes::from_slice(alloc, session)?,
    };
    named.push(keys::SESSION_ID, Bson::Binary(id))?;
    Ok(named)
}
