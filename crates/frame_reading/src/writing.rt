//! The writes of commands, each with its place.
ghost use Rattle.std.specs.Prelude.{◌≡◌, ◌∷◌, [], IfOk};
ghost use Rattle.std.specs.Option.{option_and_then};
ghost use Rattle.driver_link.specs.Asking.{asks_insert, asks_statements, asks_one, asks_writes as asks_with, only_sequence as sequence_alone, target as target_of};
ghost use Rattle.driver_link.specs.Writes.{placed as placed_with, writes_on, write_on, documents_in as documents_of, own_fields as fields_of, is_common as common};
ghost use Rattle.driver_link.specs.Commands.{needed};
ghost use Rattle.driver_link.specs.Values.{array_of};
ghost use Rattle.frame_reading.specs.inside.PlainInserts.{asks_inserts};

use crate::body_fields::{array_field, bool_field};
use bson_lite::{Bson, Document, List, Namespace, Pair, Text, TryClone};
use driver_link::{
    Documents, Place, PlacedWrite, SendBody, SendCommand, Shared, WriteKind, Written,
};
use std::alloc::{AllocError, Global};
use wire_keys::keys::{
    AUTOCOMMIT, CLUSTER_TIME, DATABASE, DOCUMENTS, ORDERED, READ_CONCERN, RECOVERY_TOKEN, SESSION,
    START_TRANSACTION, TRANSACTION_NUMBER, WRITE_CONCERN,
};

/// The namespace of a command whose first field names a collection.
#[tactic(auto, unfolding(driver_link::specs::Asking::target))]
pub fn target(alloc: Global, database: &str, value: &Bson) -> Result<Option<Namespace>, AllocError>
    ensures { IfOk result (λ namespace. namespace ≡ target_of database.now value.now) }
{
    let Bson::String(collection) = value else {
        return Ok(None);
    };
    let db = Text::from_str(alloc, database)?;
    let coll = collection.try_clone(alloc)?;
    Ok(Some(Namespace { db, coll }))
}

/// Writes of one kind on one namespace.
fn written_on(
    alloc: Global,
    kind: WriteKind,
    namespace: &Namespace,
    documents: List<Document>,
) -> Result<List<Written>, AllocError>
    ensures { IfOk result (λ writes. writes ≡ writes_on kind namespace.now documents) }
{
    let documents = documents.into_vec();
    let mut writes = Vec::with_capacity(alloc, documents.len().saturating_add(1))?;
    for document in documents {
        writes.push(Written {
            kind,
            namespace: namespace.try_clone(alloc)?,
            document,
        })?;
    }
    Ok(List::from_vec(writes))
}

/// Writes with their places, where there are as many of one as of the other.
#[tactic(auto, unfolding(driver_link::specs::Writes::placed))]
fn placed(
    alloc: Global,
    writes: List<Written>,
    places: &[Place],
) -> Result<Option<List<PlacedWrite>>, AllocError>
    ensures { IfOk result (λ found. found ≡ placed_with writes places.now) }
{
    let writes = writes.into_vec();
    let mut list = Vec::with_capacity(alloc, writes.len())?;
    let mut at = 0;
    for written in writes {
        if at >= places.len() {
            return Ok(None);
        }
        let shared = Shared::new(alloc, written)?;
        list.push(PlacedWrite {
            place: places[at],
            written: shared,
        })?;
        at += 1;
    }
    if at < places.len() {
        return Ok(None);
    }
    Ok(Some(List::from_vec(list)))
}

/// What a command of writes asks for.
#[tactic(auto, unfolding(driver_link::specs::Asking::asks_writes))]
pub fn asked_writes(
    alloc: Global,
    command: SendCommand,
    ordered: bool,
    places: &[Place],
    writes: List<Written>,
) -> Result<Option<SendBody>, AllocError>
    ensures { IfOk result (λ asked. asked ≡ asks_with command ordered places.now writes) }
{
    let Some(writes) = placed(alloc, writes, places)? else {
        return Ok(None);
    };
    Ok(Some(SendBody::Write {
        command,
        ordered,
        writes,
    }))
}

/// The documents of the one sequence of a list, under its name.
#[tactic(auto, unfolding(driver_link::specs::Asking::only_sequence))]
pub fn only_sequence(key: &str, sequences: List<Documents>) -> Option<List<Document>>
    ensures { result ≡ sequence_alone key.now sequences }
{
    let mut items = sequences;
    let last = items.pop()?;
    if !items.is_empty() {
        return None;
    }
    let Documents { name, documents } = last;
    if name.as_str() != key {
        return None;
    }
    Some(documents)
}

/// What an insert asks for: documents in a sequence.
#[tactic(auto, unfolding(driver_link::specs::Asking::asks_insert))]
pub fn asked_insert(
    alloc: Global,
    namespace: &Namespace,
    body: &Document,
    sequences: List<Documents>,
    places: &[Place],
) -> Result<Option<SendBody>, AllocError>
    ensures { IfOk result (λ asked. asked ≡ asks_insert namespace.now body.now sequences places.now) }
{
    let Some(ordered) = bool_field(body, ORDERED) else {
        return Ok(None);
    };
    let Some(documents) = only_sequence(DOCUMENTS, sequences) else {
        return Ok(None);
    };
    let writes = written_on(alloc, WriteKind::Insert, namespace, documents)?;
    asked_writes(alloc, SendCommand::Insert, ordered, places, writes)
}

/// What an insert of documents asks for, by whether it is ordered.
pub(crate) fn asked_inserts(
    alloc: Global,
    namespace: Namespace,
    ordered: bool,
    documents: List<Document>,
    places: &[Place],
) -> Result<Option<SendBody>, AllocError>
    ensures { IfOk result (λ asked. asked ≡ asks_inserts namespace ordered places.now documents) }
{
    let writes = written_into(alloc, WriteKind::Insert, namespace, documents)?;
    asked_writes(alloc, SendCommand::Insert, ordered, places, writes)
}

/// Writes of one kind on one namespace, which moves into the last of them.
fn written_into(
    alloc: Global,
    kind: WriteKind,
    namespace: Namespace,
    documents: List<Document>,
) -> Result<List<Written>, AllocError>
    ensures { IfOk result (λ writes. writes ≡ writes_on kind namespace documents) }
{
    let mut before = documents;
    match before.pop() {
        None => Ok(List::new(alloc)),
        Some(document) => {
            let mut writes = written_on(alloc, kind, &namespace, before)?;
            writes.push(Written {
                kind,
                namespace,
                document,
            })?;
            Ok(writes)
        }
    }
}

/// The documents of a list of values that are all documents.
#[tactic(auto, unfolding(driver_link::specs::Writes::documents_in))]
fn documents_in(alloc: Global, values: &[Bson]) -> Result<Option<List<Document>>, AllocError>
    ensures { IfOk result (λ found. found ≡ documents_of values.now) }
{
    let mut documents = List::with_capacity(alloc, values.len())?;
    for value in values {
        match value {
            Bson::Document(document) => documents.push(document.try_clone(alloc)?)?,
            _ => return Ok(None),
        }
    }
    Ok(Some(documents))
}

/// The documents in an array of the body.
fn documents_under(
    alloc: Global,
    body: &Document,
    key: &str,
) -> Result<Option<List<Document>>, AllocError>
    ensures { IfOk result (λ found. found ≡ option_and_then documents_of (needed array_of key.now body.now)) }
{
    match array_field(body, key) {
        Some(values) => documents_in(alloc, values.as_slice()),
        None => Ok(None),
    }
}

/// What an update or a delete asks for: statements in an array of the body.
#[tactic(auto, unfolding(driver_link::specs::Asking::asks_statements))]
pub fn asked_statements(
    alloc: Global,
    command: SendCommand,
    kind: WriteKind,
    key: &str,
    namespace: &Namespace,
    body: &Document,
    places: &[Place],
) -> Result<Option<SendBody>, AllocError>
    ensures { IfOk result
        (λ asked. asked ≡ asks_statements command kind key.now namespace.now body.now places.now) }
{
    let Some(ordered) = bool_field(body, ORDERED) else {
        return Ok(None);
    };
    let Some(statements) = documents_under(alloc, body, key)? else {
        return Ok(None);
    };
    let writes = written_on(alloc, kind, namespace, statements)?;
    asked_writes(alloc, command, ordered, places, writes)
}

/// Whether a field stands in commands of every kind.
#[tactic(auto, unfolding(driver_link::specs::Writes::is_common))]
fn is_common(pair: &Pair<Bson>) -> bool
    ensures { result ≡ common pair.now }
{
    let key = pair.key.as_str();
    if SESSION == key {
        return true;
    }
    if TRANSACTION_NUMBER == key {
        return true;
    }
    if READ_CONCERN == key {
        return true;
    }
    if START_TRANSACTION == key {
        return true;
    }
    if AUTOCOMMIT == key {
        return true;
    }
    if RECOVERY_TOKEN == key {
        return true;
    }
    if WRITE_CONCERN == key {
        return true;
    }
    if CLUSTER_TIME == key {
        return true;
    }
    DATABASE == key
}

/// The fields of a body that are its command's own.
fn own_fields(alloc: Global, body: &Document) -> Result<Document, AllocError>
    ensures { IfOk result (λ fields. fields ≡ fields_of body.now) }
{
    let mut fields = Document::new(alloc);
    let pairs = body.pairs();
    for pair in pairs {
        if !is_common(pair) {
            fields.push_pair(pair.try_clone(alloc)?)?;
        }
    }
    Ok(fields)
}

/// What a findAndModify asks for: one write, of the command's own fields.
#[tactic(auto, unfolding(driver_link::specs::Asking::asks_one))]
pub fn asked_one(
    alloc: Global,
    namespace: &Namespace,
    body: &Document,
    places: &[Place],
) -> Result<Option<SendBody>, AllocError>
    ensures { IfOk result (λ asked. asked ≡ asks_one namespace.now body.now places.now) }
{
    let mut writes = List::new(alloc);
    writes.push(Written {
        kind: WriteKind::FindAndModify,
        namespace: namespace.try_clone(alloc)?,
        document: own_fields(alloc, body)?,
    })?;
    asked_writes(alloc, SendCommand::FindAndModify, true, places, writes)
}
