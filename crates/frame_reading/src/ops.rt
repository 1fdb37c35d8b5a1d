//! The ops of a bulk write, each on a namespace that it names by its index.
ghost use Rattle.std.specs.Prelude.{◌≡◌, IfOk};
ghost use Rattle.std.specs.Option.{option_copied};
ghost use Rattle.driver_link.specs.Asking.{asks_bulk, asks_ops};
ghost use Rattle.driver_link.specs.Writes.{cut as cut_at_dot, namespace_in as namespace_of, namespaces_in as namespaces_of, namespace_at as namespace_at_index, namespace_by as namespace_of_value, op_write as write_of_op, op_of as op_by_fields, ops_of as all_ops, write_on};
ghost use Rattle.frame_reading.specs.Indexes.{place_in as place_of};

use crate::body_fields::{bool_field, document_field, text_field};
use crate::writing::asked_writes;
use bson_lite::{Bson, Document, List, Namespace, Pair, Text, TryClone};
use driver_link::{
    CommandName, Documents, Place, SendBody, SendCommand, WriteKind, Written, command_named,
};
use std::alloc::{AllocError, Global};
use wire_keys::keys::{DOCUMENT, NAMESPACE, NAMESPACES, OPS, ORDERED};

/// A namespace in one text, cut at its first dot.
#[tactic(auto, unfolding(driver_link::specs::Writes::cut))]
fn cut(alloc: Global, text: &str) -> Result<Option<Namespace>, AllocError>
    ensures { IfOk result (λ found. found ≡ cut_at_dot text.now) }
{
    match text.split_once('.') {
        Some((db, coll)) => Ok(Some(Namespace {
            db: Text::from_str(alloc, db)?,
            coll: Text::from_str(alloc, coll)?,
        })),
        None => Ok(None),
    }
}

/// The namespace in a document that names one.
#[tactic(auto, unfolding(driver_link::specs::Writes::namespace_in))]
fn namespace_in(alloc: Global, document: &Document) -> Result<Option<Namespace>, AllocError>
    ensures { IfOk result (λ found. found ≡ namespace_of document.now) }
{
    match text_field(document, NAMESPACE) {
        Some(text) => cut(alloc, text.as_str()),
        None => Ok(None),
    }
}

/// The namespaces of documents that all name one.
#[tactic(auto, unfolding(driver_link::specs::Writes::namespaces_in))]
fn namespaces_in(
    alloc: Global,
    documents: &[Document],
) -> Result<Option<List<Namespace>>, AllocError>
    ensures { IfOk result (λ found. found ≡ namespaces_of documents.now) }
{
    let mut namespaces = List::with_capacity(alloc, documents.len())?;
    for document in documents {
        match namespace_in(alloc, document)? {
            Some(namespace) => namespaces.push(namespace)?,
            None => return Ok(None),
        }
    }
    Ok(Some(namespaces))
}

/// The place of an index, where it is not negative.
fn place_in(index: i32) -> Option<usize>
    ensures { result ≡ place_of index }
{
    if index < 0 {
        return None;
    }
    Some(index as usize)
}

/// The namespace at an index.
#[tactic(auto, using(crate::proofs::IndexLaws::at_place))]
fn namespace_at(namespaces: &List<Namespace>, index: i32) -> Option<&Namespace>
    ensures { option_copied result ≡ namespace_at_index namespaces.now index }
{
    match place_in(index) {
        Some(at) => namespaces.get(at),
        None => None,
    }
}

/// The namespace that a value names by its index.
#[tactic(auto, unfolding(driver_link::specs::Writes::namespace_by))]
fn namespace_by<'a>(namespaces: &'a List<Namespace>, value: &Bson) -> Option<&'a Namespace>
    ensures { option_copied result ≡ namespace_of_value namespaces.now value.now }
{
    match value {
        Bson::Int32(index) => namespace_at(namespaces, *index),
        _ => None,
    }
}

/// Copies of fields.
fn copied_fields(alloc: Global, fields: &[Pair<Bson>]) -> Result<Document, AllocError>
    ensures { IfOk result (λ copy. copy ≡ fields.now) }
{
    let mut copy = Document::with_capacity(alloc, fields.len())?;
    for field in fields {
        copy.push_pair(field.try_clone(alloc)?)?;
    }
    Ok(copy)
}

/// A write of fields on a namespace.
fn write_of(
    alloc: Global,
    kind: WriteKind,
    namespace: &Namespace,
    document: Document,
) -> Result<Written, AllocError>
    ensures { IfOk result (λ written. written ≡ write_on kind namespace.now document) }
{
    Ok(Written {
        kind,
        namespace: namespace.try_clone(alloc)?,
        document,
    })
}

/// The write of an op by its other fields: the document that it inserts, else all of them.
#[tactic(auto, unfolding(driver_link::specs::Writes::op_write))]
fn op_write(
    alloc: Global,
    name: CommandName,
    namespace: &Namespace,
    fields: Document,
) -> Result<Option<Written>, AllocError>
    ensures { IfOk result (λ found. found ≡ write_of_op name namespace.now fields) }
{
    match name {
        CommandName::Insert => {
            let Some(document) = document_field(&fields, DOCUMENT) else {
                return Ok(None);
            };
            let document = document.try_clone(alloc)?;
            Ok(Some(write_of(alloc, WriteKind::Insert, namespace, document)?))
        }
        CommandName::Update => Ok(Some(write_of(alloc, WriteKind::Update, namespace, fields)?)),
        CommandName::Delete => Ok(Some(write_of(alloc, WriteKind::Delete, namespace, fields)?)),
        _ => Ok(None),
    }
}

/// The write of an op: its first field says what it does, and to which namespace.
#[tactic(auto, unfolding(driver_link::specs::Writes::op_of))]
fn op_of(
    alloc: Global,
    namespaces: &List<Namespace>,
    op: &Document,
) -> Result<Option<Written>, AllocError>
    ensures { IfOk result (λ found. found ≡ op_by_fields namespaces.now op.now) }
{
    let pairs = op.pairs();
    if pairs.is_empty() {
        return Ok(None);
    }
    let Some(name) = command_named(pairs[0].key.as_str()) else {
        return Ok(None);
    };
    let Some(namespace) = namespace_by(namespaces, &pairs[0].value) else {
        return Ok(None);
    };
    let fields = copied_fields(alloc, &pairs[1..])?;
    op_write(alloc, name, namespace, fields)
}

/// The writes of ops.
#[tactic(auto, unfolding(driver_link::specs::Writes::ops_of))]
fn ops_of(
    alloc: Global,
    namespaces: &List<Namespace>,
    ops: &[Document],
) -> Result<Option<List<Written>>, AllocError>
    ensures { IfOk result (λ found. found ≡ all_ops namespaces.now ops.now) }
{
    let mut writes = List::with_capacity(alloc, ops.len())?;
    for op in ops {
        match op_of(alloc, namespaces, op)? {
            Some(written) => writes.push(written)?,
            None => return Ok(None),
        }
    }
    Ok(Some(writes))
}

/// What a bulk write asks for, by its namespaces and its ops.
#[tactic(auto, unfolding(driver_link::specs::Asking::asks_ops))]
fn asked_ops(
    alloc: Global,
    ordered: bool,
    places: &[Place],
    namespaces: &[Document],
    ops: &[Document],
) -> Result<Option<SendBody>, AllocError>
    ensures { IfOk result (λ asked. asked ≡ asks_ops ordered places.now namespaces.now ops.now) }
{
    let Some(known) = namespaces_in(alloc, namespaces)? else {
        return Ok(None);
    };
    let Some(writes) = ops_of(alloc, &known, ops)? else {
        return Ok(None);
    };
    asked_writes(alloc, SendCommand::BulkWrite, ordered, places, writes)
}

/// What a bulk write asks for: namespaces in one sequence, and ops in another.
#[tactic(auto, unfolding(driver_link::specs::Asking::asks_bulk, driver_link::specs::Asking::only_sequence))]
pub fn asked_bulk(
    alloc: Global,
    body: &Document,
    sequences: &[Documents],
    places: &[Place],
) -> Result<Option<SendBody>, AllocError>
    ensures { IfOk result (λ asked. asked ≡ asks_bulk body.now sequences.now places.now) }
{
    let [namespaces, ops] = sequences else {
        return Ok(None);
    };
    if namespaces.name.as_str() != NAMESPACES || ops.name.as_str() != OPS {
        return Ok(None);
    }
    let Some(ordered) = bool_field(body, ORDERED) else {
        return Ok(None);
    };
    let (namespaces, ops) = (namespaces.documents.as_slice(), ops.documents.as_slice());
    asked_ops(alloc, ordered, places, namespaces, ops)
}
