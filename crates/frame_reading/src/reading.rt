//! From a frame and the places of its writes to the send that they spell.
ghost use Rattle.std.specs.Prelude.{◌≡◌, ◌<◌, List as Listed, bytes_eq, length, slice_get, true, Some, IfOk};
ghost use Rattle.std.specs.Option.{option_map};
ghost use Rattle.bson_lite.specs.Ranges.{fits};
ghost use Rattle.bson_lite.specs.Spelling.{Spells};
ghost use Rattle.bson_lite.specs.declared.bson.Bson.{Bson as Value};
ghost use Rattle.bson_lite.specs.declared.document.Pair.{Pair};
ghost use Rattle.driver_link.specs.Asking.{spelled};
ghost use Rattle.driver_link.specs.Reads.{Reads, SpellAll, SpellSequences, SpellsSequence};
ghost use Rattle.driver_link.specs.Sequences.{documents_at};
ghost use Rattle.driver_link.specs.declared.frame.Documents.{Documents as Named};
ghost use Rattle.driver_link.specs.declared.frame.Sequence.{Sequence as Framed};
ghost use Rattle.driver_link.specs.declared.machine.Send.{Send as Sent};
ghost use Rattle.frame_reading.specs.inside.PlainInserts.{IsPlainInsert, asks_inserts, plain_send};
ghost use Rattle.frame_reading.specs.inside.ReadFrames.{AreLone, ReadsFrame};

use crate::asking::asked_body;
use crate::body_fields::{goes_to, send_as};
use crate::plain_insert::{PlainInsert, plain_insert};
use crate::writing::asked_inserts;
use bson_lite::{DecodeFault, Document, List, Text};
use bson_reading::decode;
use driver_link::{Documents, Frame, Place, Send};
use std::alloc::{AllocError, Global};
use wire_keys::keys::DOCUMENTS;

/// The send that a frame and places read as, and `None` where they read as none. A plain insert's body is told by its
/// bytes.
pub fn read_send(alloc: Global, frame: &Frame, places: &[Place]) -> Result<Option<Send>, AllocError>
    ensures { IfOk result (λ found. (send : Sent) → Reads frame.now places.now send → found ≡ Some send) }
{
    let plain = plain_insert(alloc, frame.database(), frame.body())?;
    match plain {
        Some(plain) => insert_send(alloc, frame, plain, places),
        None => document_send(alloc, frame, places),
    }
}

/// The same of a plain insert, whose documents stand in one sequence.
fn insert_send(
    alloc: Global,
    frame: &Frame,
    plain: PlainInsert,
    places: &[Place],
) -> Result<Option<Send>, AllocError>
    requires { IsPlainInsert frame.now.database frame.now.body plain }
    ensures { IfOk result (λ found. ReadsFrame frame.now places.now found) }
{
    let documents = lone_documents(alloc, frame)?;
    match documents {
        Some(documents) => plain_send(alloc, plain, documents, places),
        None => document_send(alloc, frame, places),
    }
}

/// The send of a plain insert of these documents.
fn plain_send(
    alloc: Global,
    plain: PlainInsert,
    documents: List<Document>,
    places: &[Place],
) -> Result<Option<Send>, AllocError>
    requires { fits 0x8000_0000_0000_0000 plain.number ≡ true }
    ensures { IfOk result (λ found. found ≡ option_map (plain_send plain)
        (asks_inserts plain.namespace plain.ordered places.now documents)) }
{
    let PlainInsert {
        namespace,
        ordered,
        session,
        number,
    } = plain;
    let asked = asked_inserts(alloc, namespace, ordered, documents, places)?;
    match asked {
        Some(body) => Ok(Some(Send {
            session: Some(session),
            number: Some(number),
            start: false,
            in_transaction: false,
            body,
        })),
        None => Ok(None),
    }
}

/// The documents of a frame's one sequence, where it has no other and this has their name.
fn lone_documents(alloc: Global, frame: &Frame) -> Result<Option<List<Document>>, AllocError>
    ensures { IfOk result (λ found. AreLone frame.now.sequences found) }
{
    if frame.sequence_count() != 1 {
        return Ok(None);
    }
    named_documents(alloc, frame)
}

/// The same of a frame with one sequence.
fn named_documents(alloc: Global, frame: &Frame) -> Result<Option<List<Document>>, AllocError>
    requires { length frame.now.sequences ≡ 1 }
    ensures { IfOk result (λ found. AreLone frame.now.sequences found) }
{
    if is_documents(frame.sequence_name(0)) {
        return decoded_documents(alloc, frame, 0);
    }
    Ok(None)
}

/// Whether a sequence has this name.
fn is_documents(name: &str) -> bool
    ensures { result ≡ bytes_eq name.now DOCUMENTS.now }
{
    name == DOCUMENTS
}

/// The send that a frame and places read as, from its documents.
fn document_send(alloc: Global, frame: &Frame, places: &[Place]) -> Result<Option<Send>, AllocError>
    ensures { IfOk result (λ found. ReadsFrame frame.now places.now found) }
{
    let Some(body) = decoded(alloc, frame.body())? else {
        return Ok(None);
    };
    let Some(sequences) = decoded_sequences(alloc, frame)? else {
        return Ok(None);
    };
    send_of(alloc, frame.database(), &body, sequences, places)
}

/// The document that bytes spell.
fn decoded(alloc: Global, bytes: &[u8]) -> Result<Option<Document>, AllocError>
    ensures { IfOk result
        (λ found. (document : Listed (Pair Value)) → Spells document bytes.now → found ≡ Some document) }
{
    match decode(alloc, bytes) {
        Ok(document) => Ok(Some(document)),
        Err(DecodeFault::At { .. }) => Ok(None),
        Err(DecodeFault::Memory) => Err(AllocError),
    }
}

/// The documents of one of a frame's sequences.
fn decoded_documents(
    alloc: Global,
    frame: &Frame,
    place: usize,
) -> Result<Option<List<Document>>, AllocError>
    requires { place < length frame.now.sequences }
    ensures { IfOk result
        (λ found. (documents : Listed (Listed (Pair Value))) →
        SpellAll documents (documents_at frame.now.sequences place) → found ≡ Some documents) }
{
    let count = frame.document_count(place);
    let mut documents = Vec::with_capacity(alloc, count)?;
    for at in 0..count {
        let Some(document) = decoded(alloc, frame.document(place, at))? else {
            return Ok(None);
        };
        documents.push(document)?;
    }
    Ok(Some(List::from_vec(documents)))
}

/// One of a frame's sequences.
fn decoded_sequence(
    alloc: Global,
    frame: &Frame,
    place: usize,
) -> Result<Option<Documents>, AllocError>
    requires { place < length frame.now.sequences }
    ensures { IfOk result
        (λ found. (sequence : Framed) (read : Named) →
        slice_get frame.now.sequences place ≡ Some sequence →
        SpellsSequence read sequence → found ≡ Some read) }
{
    let Some(documents) = decoded_documents(alloc, frame, place)? else {
        return Ok(None);
    };
    let name = Text::from_str(alloc, frame.sequence_name(place))?;
    Ok(Some(Documents { name, documents }))
}

/// A frame's sequences.
fn decoded_sequences(alloc: Global, frame: &Frame) -> Result<Option<List<Documents>>, AllocError>
    ensures { IfOk result
        (λ found. (read : Listed Named) → SpellSequences read frame.now.sequences → found ≡ Some read) }
{
    let count = frame.sequence_count();
    let mut sequences = Vec::with_capacity(alloc, count)?;
    for at in 0..count {
        let Some(sequence) = decoded_sequence(alloc, frame, at)? else {
            return Ok(None);
        };
        sequences.push(sequence)?;
    }
    Ok(Some(List::from_vec(sequences)))
}

/// The send that a body spells, with the documents beside it.
#[tactic(auto, unfolding(driver_link::specs::Asking::spelled))]
fn send_of(
    alloc: Global,
    database: &str,
    body: &Document,
    sequences: List<Documents>,
    places: &[Place],
) -> Result<Option<Send>, AllocError>
    ensures { IfOk result (λ found. found ≡ spelled database.now body.now sequences places.now) }
{
    if !goes_to(database, body) {
        return Ok(None);
    }
    let Some(asked) = asked_body(alloc, database, body, sequences, places)? else {
        return Ok(None);
    };
    Ok(send_as(body, asked))
}
