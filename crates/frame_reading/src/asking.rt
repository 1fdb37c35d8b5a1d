//! What a command asks for, by its body and the documents beside it.
ghost use Rattle.std.specs.Prelude.{◌≡◌, None, IfOk, if◌then◌else◌};
ghost use Rattle.std.specs.Option.{option_and_then};
ghost use Rattle.driver_link.specs.Asking.{asks as asks_for, asks_as as asks_by_name, asks_alone as asks_by_body, asks_more as asks_page, asks_kill as asks_end, only_cursor as cursor_alone, is_plain_one as plain_one, is_of_admin as of_admin, may_go_to as may_go, without_places as placeless};

use crate::body_fields::{array_field, text_field};
use crate::ops::asked_bulk;
use crate::writing::{asked_insert, asked_one, asked_statements, target};
use bson_lite::{Bson, Document, List};
use driver_link::{CommandName, Documents, Place, SendBody, SendCommand, WriteKind, command_named};
use std::alloc::{AllocError, Global};
use wire_keys::keys::{ADMIN, COLLECTION, CURSORS, DELETES, UPDATES};

/// Whether a value is the 1 of a command that names nothing.
#[tactic(auto, unfolding(driver_link::specs::Asking::is_plain_one))]
fn is_plain_one(value: &Bson) -> bool
    ensures { result ≡ plain_one value.now }
{
    match value {
        Bson::Int32(number) => *number == 1,
        _ => false,
    }
}

/// What a command without writes asks for: it has no places.
fn without_places(places: &[Place], asked: SendBody) -> Option<SendBody>
    ensures { result ≡ placeless places.now asked }
{
    if places.is_empty() {
        return Some(asked);
    }
    None
}

/// What the value 1 asks for.
fn asked_end(value: &Bson, places: &[Place], asked: SendBody) -> Option<SendBody>
    ensures { result ≡ if plain_one value.now then placeless places.now asked else None }
{
    if !is_plain_one(value) {
        return None;
    }
    without_places(places, asked)
}

/// The cursor of a question for the next page.
#[tactic(auto, unfolding(driver_link::specs::Asking::asks_more))]
fn asked_more(value: &Bson, body: &Document) -> Option<SendBody>
    ensures { result ≡ asks_page value.now body.now }
{
    let _collection = text_field(body, COLLECTION)?;
    match value {
        Bson::Int64(cursor) => Some(SendBody::More { cursor: *cursor }),
        _ => None,
    }
}

/// The one cursor of a list.
#[tactic(auto, unfolding(driver_link::specs::Asking::only_cursor))]
fn only_cursor(cursors: &[Bson]) -> Option<i64>
    ensures { result ≡ cursor_alone cursors.now }
{
    match cursors {
        [Bson::Int64(cursor)] => Some(*cursor),
        _ => None,
    }
}

/// The cursor that a command ends.
#[tactic(auto, unfolding(driver_link::specs::Asking::asks_kill))]
fn asked_kill(value: &Bson, body: &Document) -> Option<SendBody>
    ensures { result ≡ asks_end value.now body.now }
{
    let Bson::String(_) = value else {
        return None;
    };
    let cursors = array_field(body, CURSORS)?;
    let cursor = only_cursor(cursors.as_slice())?;
    Some(SendBody::Kill { cursor })
}

/// What a command of a cursor asks for, which has no places.
fn asked_of_cursor(places: &[Place], asked: Option<SendBody>) -> Option<SendBody>
    ensures { result ≡ option_and_then (placeless places.now) asked }
{
    without_places(places, asked?)
}

/// What a command with nothing beside its body asks for.
#[tactic(auto, unfolding(driver_link::specs::Asking::asks_alone))]
fn asked_alone(
    alloc: Global,
    name: CommandName,
    database: &str,
    value: &Bson,
    body: &Document,
    places: &[Place],
) -> Result<Option<SendBody>, AllocError>
    ensures { IfOk result (λ asked. asked ≡ asks_by_body name database.now value.now body.now places.now) }
{
    match name {
        CommandName::Update => {
            let Some(namespace) = target(alloc, database, value)? else {
                return Ok(None);
            };
            let (command, kind) = (SendCommand::Update, WriteKind::Update);
            asked_statements(alloc, command, kind, UPDATES, &namespace, body, places)
        }
        CommandName::Delete => {
            let Some(namespace) = target(alloc, database, value)? else {
                return Ok(None);
            };
            let (command, kind) = (SendCommand::Delete, WriteKind::Delete);
            asked_statements(alloc, command, kind, DELETES, &namespace, body, places)
        }
        CommandName::FindAndModify => {
            let Some(namespace) = target(alloc, database, value)? else {
                return Ok(None);
            };
            asked_one(alloc, &namespace, body, places)
        }
        CommandName::CommitTransaction => Ok(asked_end(value, places, SendBody::Commit)),
        CommandName::AbortTransaction => Ok(asked_end(value, places, SendBody::Abort)),
        CommandName::GetMore => Ok(asked_of_cursor(places, asked_more(value, body))),
        CommandName::KillCursors => Ok(asked_of_cursor(places, asked_kill(value, body))),
        _ => Ok(None),
    }
}

/// What a command asks for, by its name and the value of its first field.
#[tactic(auto, unfolding(driver_link::specs::Asking::asks_as))]
fn asked_as(
    alloc: Global,
    name: CommandName,
    database: &str,
    value: &Bson,
    body: &Document,
    sequences: List<Documents>,
    places: &[Place],
) -> Result<Option<SendBody>, AllocError>
    ensures { IfOk result
        (λ asked. asked ≡ asks_by_name name database.now value.now body.now sequences places.now) }
{
    match name {
        CommandName::Insert => {
            let Some(namespace) = target(alloc, database, value)? else {
                return Ok(None);
            };
            asked_insert(alloc, &namespace, body, sequences, places)
        }
        CommandName::BulkWrite => {
            if !is_plain_one(value) {
                return Ok(None);
            }
            asked_bulk(alloc, body, sequences.as_slice(), places)
        }
        other => {
            if !sequences.is_empty() {
                return Ok(None);
            }
            asked_alone(alloc, other, database, value, body, places)
        }
    }
}

/// Whether a command names no collection of its own, and goes to one database.
fn is_of_admin(name: CommandName) -> bool
    ensures { result ≡ of_admin name }
{
    match name {
        CommandName::BulkWrite => true,
        CommandName::CommitTransaction => true,
        CommandName::AbortTransaction => true,
        _ => false,
    }
}

/// Whether a command may go to a database.
#[tactic(auto, unfolding(driver_link::specs::Asking::may_go_to))]
fn may_go_to(name: CommandName, database: &str) -> bool
    ensures { result ≡ may_go name database.now }
{
    if is_of_admin(name) {
        return database == ADMIN;
    }
    true
}

/// What a body and the documents beside it ask for.
#[tactic(auto, unfolding(driver_link::specs::Asking::asks))]
pub fn asked_body(
    alloc: Global,
    database: &str,
    body: &Document,
    sequences: List<Documents>,
    places: &[Place],
) -> Result<Option<SendBody>, AllocError>
    ensures { IfOk result (λ asked. asked ≡ asks_for database.now body.now sequences places.now) }
{
    let pairs = body.pairs();
    if pairs.is_empty() {
        return Ok(None);
    }
    let Some(name) = command_named(pairs[0].key.as_str()) else {
        return Ok(None);
    };
    if !may_go_to(name, database) {
        return Ok(None);
    }
    asked_as(
        alloc,
        name,
        database,
        &pairs[0].value,
        body,
        sequences,
        places,
    )
}
