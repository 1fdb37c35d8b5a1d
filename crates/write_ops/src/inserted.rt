//! Which documents of an insert were inserted, by the write errors of a reply, and their ids.
ghost use Rattle.std.specs.Prelude.{◌≡◌, ℕ, not, true, false, nat_eq, if◌then◌else◌, IfOk, OnOk};
ghost use Rattle.std.specs.FinMap as finite;
ghost use Rattle.std.specs.HashSet.{contains};
ghost use Rattle.std.specs.List.{list_all};
ghost use Rattle.write_ops.specs.InsertAnswers.{are_apart, ids_where, is_below, is_inserted};
ghost use Rattle.write_ops.specs.inside.InsertAnswers.{distinct, indexes_of};

use crate::insert_front::front;
use crate::own_document::OwnDocument;
use bson_lite::{Bson, ByIndex, TryClone};
use driver_error::IndexedWriteError;
use std::alloc::{AllocError, Global};
use std::collections::HashSet;

/// Whether the index of each write error is below a number.
pub(crate) fn are_below(count: usize, errors: &[IndexedWriteError]) -> bool
    ensures { result ≡ list_all (is_below count) errors.now }
{
    errors.iter().all(|error| error.index < count)
}

/// Whether no two write errors are of one statement.
pub(crate) fn are_apart(alloc: Global, errors: &[IndexedWriteError]) -> Result<bool, AllocError>
    ensures { IfOk result (λ apart. apart ≡ are_apart errors.now) }
{
    let indexes = indexes_of(alloc, errors)?;
    are_distinct(alloc, indexes.as_slice())
}

/// The indexes of write errors.
fn indexes_of(alloc: Global, errors: &[IndexedWriteError]) -> Result<Vec<usize>, AllocError>
    ensures { IfOk result (λ indexes. indexes.items ≡ indexes_of errors.now) }
{
    let mut indexes = Vec::new(alloc);
    for error in errors {
        indexes.push(error.index)?;
    }
    Ok(indexes)
}

/// Whether no number stands twice, in one pass.
fn are_distinct(alloc: Global, numbers: &[usize]) -> Result<bool, AllocError>
    ensures { IfOk result (λ yes. yes ≡ distinct numbers.now) }
{
    let mut later = HashSet::new(alloc);
    let mut at = numbers.len();
    'numbers: while at > 0 {
        at -= 1;
        if !later.insert(numbers[at])? {
            return Ok(false);
        }
    }
    Ok(true)
}

/// The ids of the documents that were inserted, by their indexes: of an ordered insert those before each write error,
/// of another one those that none is of.
pub(crate) fn inserted_ids(
    alloc: Global,
    ordered: bool,
    errors: &[IndexedWriteError],
    documents: &[OwnDocument],
) -> Result<ByIndex<Bson>, AllocError>
    ensures { IfOk result
        (λ ids. ids ≡ ids_where (is_inserted ordered errors.now) 0 documents.now) }
{
    if ordered {
        ids_before(alloc, errors, documents)
    } else {
        ids_unfailed(alloc, errors, documents)
    }
}

/// The ids of the documents before each write error.
fn ids_before(
    alloc: Global,
    errors: &[IndexedWriteError],
    documents: &[OwnDocument],
) -> Result<ByIndex<Bson>, AllocError>
    ensures { IfOk result
        (λ ids. ids ≡ ids_where (is_inserted true errors.now) 0 documents.now) }
{
    let mut inserted = documents;
    for error in errors {
        inserted = front(inserted, error.index);
    }
    ids_of(alloc, inserted)
}

/// The ids of the documents that no write error is of.
fn ids_unfailed(
    alloc: Global,
    errors: &[IndexedWriteError],
    documents: &[OwnDocument],
) -> Result<ByIndex<Bson>, AllocError>
    ensures { IfOk result
        (λ ids. ids ≡ ids_where (is_inserted false errors.now) 0 documents.now) }
{
    let failed = failed_indexes(alloc, errors)?;
    ids_besides(alloc, documents, &failed)
}

/// The indexes of the statements that failed.
fn failed_indexes(alloc: Global, errors: &[IndexedWriteError]) -> Result<HashSet<usize>, AllocError>
    ensures { IfOk result (λ failed. (index : ℕ) →
        not (contains nat_eq failed index) ≡ is_inserted false errors.now index) }
{
    let mut failed = HashSet::new(alloc);
    for error in errors {
        failed.insert(error.index)?;
    }
    Ok(failed)
}

/// The ids of all documents, by their indexes. The first one is put first, so that each comes behind all others.
pub(crate) fn ids_of(alloc: Global, documents: &[OwnDocument]) -> Result<ByIndex<Bson>, AllocError>
    ensures { IfOk result (λ ids. ids ≡ ids_where (λ at. true) 0 documents.now) }
{
    let mut ids = ByIndex::new(alloc);
    let mut at = 0;
    'documents: while at < documents.len() {
        add_id(alloc, &mut ids, at, &documents[at].id)?;
        at += 1;
    }
    Ok(ids)
}

/// Puts a copy of an id at its index.
fn add_id(alloc: Global, ids: &mut ByIndex<Bson>, at: usize, id: &Bson) -> Result<(), AllocError>
    ensures { OnOk result (ids.new ≡ finite.insert ids.old at id.now) }
{
    ids.insert(at, id.try_clone(alloc)?)
}

/// The ids of the documents besides those that failed, by their indexes, put in the same order.
fn ids_besides(
    alloc: Global,
    documents: &[OwnDocument],
    failed: &HashSet<usize>,
) -> Result<ByIndex<Bson>, AllocError>
    ensures { IfOk result
        (λ ids. ids ≡ ids_where (λ at. not (contains nat_eq failed.now at)) 0 documents.now) }
{
    let mut ids = ByIndex::new(alloc);
    let mut at = 0;
    'documents: while at < documents.len() {
        put_id(alloc, &mut ids, at, &documents[at].id, failed)?;
        at += 1;
    }
    Ok(ids)
}

/// Puts a copy of an id at its index, unless the document there failed.
fn put_id(
    alloc: Global,
    ids: &mut ByIndex<Bson>,
    at: usize,
    id: &Bson,
    failed: &HashSet<usize>,
) -> Result<(), AllocError>
    ensures { OnOk result (ids.new ≡
        (if not (contains nat_eq failed.now at) then finite.insert ids.old at id.now else ids.old)) }
{
    if failed.contains(&at) {
        Ok(())
    } else {
        ids.insert(at, id.try_clone(alloc)?)
    }
}
