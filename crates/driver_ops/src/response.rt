//! The common fields of a reply: whether its command was done, or the error that it spells.
ghost use Rattle.std.specs.Prelude.{◌≡◌, None, Some};
ghost use Rattle.std.specs.Option.{option_copied};
ghost use Rattle.bson_lite.specs.Spelling.{Spells};
ghost use Rattle.driver_error.specs.declared.kind.ErrorKind.TheVariants.{InvalidResponse};
ghost use Rattle.driver_error.specs.Conversions.{IsMade};
ghost use Rattle.driver_error.specs.LabelTexts.{no_labels};
ghost use Rattle.driver_ops.specs.Responses.{KeepsReply, ReadsResponse, failed_with, has_time_form, is_document, is_time_in, is_timestamp, said, said_by, said_in_form};
ghost use Rattle.driver_ops.specs.Readings.{command_error_in};
ghost use Rattle.driver_ops.specs.inside.Responses.{IsSaid, ReadsDocument};

use crate::reply_fields::{Unread, command_error};
use bson_lite::{Bson, Bytes, DecodeFault, Document, RawDocumentBuf, Text, get_int};
use bson_reading::decode;
use driver_error::{Error, ErrorKind, Result};
use std::alloc::Global;
use wire_keys::keys;

/// The bytes of a reply spell no document.
const NO_DOCUMENT: &str = "the reply is no document";

/// A reply does not say whether its command was done.
const MISSING_OK: &str = "missing 'ok' value in response";

/// What a reply says of its command is no number.
const ODD_OK: &str = "expected ok value to be a number";

/// A reply's cluster time is no document of a timestamp and a signature.
const ODD_TIME: &str = "the reply has a $clusterTime of another form";

/// The time in a cluster time.
const TIME: &str = "clusterTime";

/// The signature in a cluster time.
const SIGNATURE: &str = "signature";

/// A command failed, and the reply spells no error.
const ODD_ERROR: &str = "the reply to a failed command has no error of the right form";

/// A reply which says that its command was done.
#[derive(Debug, Drop)]
pub struct CommandResponse {
    /// It is 1.
    pub ok: i64,
    /// The whole reply.
    pub body: Document,
}

/// The reply in these bytes, where it says that its command was done. Otherwise the error that it spells,
/// which keeps it where it is a document: a Command with the labels of the reply, or InvalidResponse.
pub fn read_response(alloc: Global, bytes: &[u8]) -> Result<CommandResponse>
    ensures { ReadsResponse bytes.now result }
{
    let body = read_document(alloc, bytes)?;
    match said_error(alloc, &body) {
        None => Ok(CommandResponse { ok: 1, body }),
        Some(error) => Err(with_reply(alloc, error, bytes, &body)),
    }
}

/// The document that the bytes of a reply spell.
fn read_document(alloc: Global, bytes: &[u8]) -> Result<Document>
    ensures { ReadsDocument bytes.now result }
{
    match decode(alloc, bytes) {
        Ok(document) => Ok(document),
        Err(DecodeFault::Memory) => Err(Error::from_kind(ErrorKind::Memory)),
        Err(DecodeFault::At { .. }) => Err(odd_reply(alloc, NO_DOCUMENT)),
    }
}

/// The error that a reply says, if it does.
#[tactic(auto, unfolding(crate::specs::Responses::said, crate::specs::Responses::missing_ok_text))]
fn said_error(alloc: Global, reply: &Document) -> Option<Error>
    ensures { IsSaid (said reply.now) result }
{
    match reply.get(keys::OK) {
        None => Some(odd_reply(alloc, MISSING_OK)),
        Some(value) => said_by(alloc, get_int(value), reply),
    }
}

/// The same by the number of `ok`.
#[tactic(auto, unfolding(crate::specs::Responses::odd_ok_text, crate::specs::Responses::odd_time_text))]
fn said_by(alloc: Global, ok: Option<i64>, reply: &Document) -> Option<Error>
    ensures { IsSaid (said_by ok reply.now) result }
{
    match ok {
        None => Some(odd_reply(alloc, ODD_OK)),
        Some(number) => {
            if !has_time_form(reply.get(keys::CLUSTER_TIME)) {
                return Some(odd_reply(alloc, ODD_TIME));
            }
            said_in_form(alloc, number, reply)
        }
    }
}

/// The same of a reply whose form stands.
fn said_in_form(alloc: Global, number: i64, reply: &Document) -> Option<Error>
    ensures { IsSaid (said_in_form number reply.now) result }
{
    if number == 1 {
        None
    } else {
        Some(failed_error(alloc, reply))
    }
}

/// Whether a reply has a cluster time of its form, or none.
fn has_time_form(time: Option<&Bson>) -> bool
    ensures { result ≡ has_time_form (option_copied time.entry) }
{
    match time {
        None => true,
        Some(Bson::Document(time)) => is_time_in(time),
        Some(_) => false,
    }
}

/// Whether a document is a cluster time: a timestamp and a signature, which is a document.
fn is_time_in(time: &Document) -> bool
    ensures { result ≡ is_time_in time.now }
{
    is_timestamp(time.get(TIME)) && is_document(time.get(SIGNATURE))
}

fn is_timestamp(value: Option<&Bson>) -> bool
    ensures { result ≡ is_timestamp (option_copied value.entry) }
{
    match value {
        Some(Bson::Timestamp(_)) => true,
        _ => false,
    }
}

fn is_document(value: Option<&Bson>) -> bool
    ensures { result ≡ is_document (option_copied value.entry) }
{
    match value {
        Some(Bson::Document(_)) => true,
        _ => false,
    }
}

/// The error of a command that failed.
#[tactic(auto, unfolding(crate::specs::Responses::odd_error_text))]
fn failed_error(alloc: Global, reply: &Document) -> Error
    ensures { IsSaid (failed_with (command_error_in reply.now)) (Some result) }
{
    match command_error(alloc, reply) {
        Ok(body) => Error::from(body),
        Err(Unread::Wrong) => odd_reply(alloc, ODD_ERROR),
        Err(Unread::Memory) => Error::from_kind(ErrorKind::Memory),
    }
}

/// The error of a reply that breaks the form of replies, or want of memory.
pub fn odd_reply(alloc: Global, text: &str) -> Error
    ensures { IsMade (InvalidResponse text.now) no_labels result }
{
    match Text::from_str(alloc, text) {
        Ok(message) => Error::from_kind(ErrorKind::InvalidResponse { message }),
        Err(_refused) => Error::from_kind(ErrorKind::Memory),
    }
}

/// The error as the reply in these bytes spelled it.
pub fn with_reply(alloc: Global, error: Error, bytes: &[u8], reply: &Document) -> Error
    requires { Spells reply.now bytes.now }
    ensures { KeepsReply bytes.now error result }
{
    match Bytes::from_slice(alloc, bytes) {
        Ok(bytes) => error.with_server_response(Some(RawDocumentBuf::from_spelling(bytes, reply))),
        Err(_refused) => {
            drop(error);
            Error::from_kind(ErrorKind::Memory)
        }
    }
}
