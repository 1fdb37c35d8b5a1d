//! The pages of the answer to a bulk write by their fields: the reply with its counts and the first results, and the
//! pages behind it.
ghost use Rattle.std.specs.Prelude.{◌≡◌, IfOk};
ghost use Rattle.std.specs.Option.{option_copied};
ghost use Rattle.driver_link.specs.Commands.{needed, optional};
ghost use Rattle.driver_link.specs.Values.{text_of};
ghost use Rattle.driver_link.specs.Writes.{cut as cut_at_dot};
ghost use Rattle.driver_ops.specs.Readings.{Gives};
ghost use Rattle.bulk_ops.specs.BulkPages.{bulk_reply, count_in, counts_in, cursor_in, cursor_namespace, next_page, op_counts_in, op_error_in, op_outcome_in, op_result_in, op_result_of, op_results, op_results_of, page_in, upsert_of};

use bson_lite::{Bson, Document, ID_KEY, List, Namespace, Text, TryClone};
use driver_error::{SummaryBulkWriteResult, WriteConcernError, WriteError};
use driver_ops::keys::{CODE_NAME, ERROR_INFO};
use driver_ops::reply_fields::{Unread, code_at, count_at, int_at, labels_at, natural_at, text_at};
use driver_ops::write_reply::{document_at, optional_text_at, reply_concern_error};
use std::alloc::{AllocError, Global};
use wire_keys::keys;

/// What became of an op.
#[derive(Drop)]
pub(crate) enum OpOutcome {
    Failed(WriteError),
    /// How many documents it found and changed, and the id of the one that it put in, if it did.
    Counted {
        n: u64,
        modified: u64,
        upserted: Option<Bson>,
    },
}

/// What became of the op at an index of the batch.
#[derive(Drop)]
pub(crate) struct OpResult {
    pub(crate) index: usize,
    pub(crate) outcome: OpOutcome,
}

/// A page of results: the cursor behind it, 0 where it is the last, and the namespace that this is asked for under.
#[derive(Drop)]
pub(crate) struct ResultsPage {
    pub(crate) cursor: i64,
    pub(crate) namespace: Namespace,
    pub(crate) results: List<OpResult>,
}

/// The fields of the reply: how many ops failed, the counts of the others, the write concern error, the labels, and
/// the first page of results.
#[derive(Drop)]
pub(crate) struct BulkReply {
    pub(crate) errors: u64,
    pub(crate) counts: SummaryBulkWriteResult,
    pub(crate) concern: Option<WriteConcernError>,
    pub(crate) labels: List<Text>,
    pub(crate) page: ResultsPage,
}

/// A write error by its fields.
#[tactic(auto, unfolding(crate::specs::BulkPages::op_error_in))]
fn op_error_in(alloc: Global, document: &Document) -> Result<WriteError, Unread>
    ensures { Gives result (op_error_in document.now) }
{
    let code = code_at(document, keys::CODE)?;
    let code_name = optional_text_at(alloc, document, CODE_NAME)?;
    let message = text_at(alloc, document, keys::ERROR_MESSAGE)?;
    let details = document_at(alloc, document, ERROR_INFO)?;
    Ok(WriteError {
        code,
        code_name,
        message,
        details,
    })
}

/// The id of a document that was put in, where there is one under the key.
#[tactic(auto, unfolding(crate::specs::BulkPages::upsert_of, driver_link::specs::Commands::optional_value))]
fn upserted_at(alloc: Global, document: &Document, key: &str) -> Result<Option<Bson>, Unread>
    ensures { Gives result (optional upsert_of key.now document.now) }
{
    match document.get(key) {
        None => Ok(None),
        Some(Bson::Document(upserted)) => match upserted.get(ID_KEY) {
            Some(id) => Ok(Some(id.try_clone(alloc)?)),
            None => Err(Unread::Wrong),
        },
        Some(_) => Err(Unread::Wrong),
    }
}

/// What an op counted.
#[tactic(auto, unfolding(crate::specs::BulkPages::op_counts_in))]
fn op_counts_in(alloc: Global, document: &Document) -> Result<OpOutcome, Unread>
    ensures { Gives result (op_counts_in document.now) }
{
    let n = count_at(document, keys::N)?;
    let modified = natural_at(document, keys::N_MODIFIED)?;
    let upserted = upserted_at(alloc, document, keys::UPSERTED)?;
    Ok(OpOutcome::Counted {
        n,
        modified: modified.unwrap_or(0),
        upserted,
    })
}

/// What became of an op.
#[tactic(auto, unfolding(crate::specs::BulkPages::op_outcome_in))]
fn op_outcome_in(alloc: Global, document: &Document) -> Result<OpOutcome, Unread>
    ensures { Gives result (op_outcome_in document.now) }
{
    match document.get(keys::CODE) {
        Some(_) => Ok(OpOutcome::Failed(op_error_in(alloc, document)?)),
        None => op_counts_in(alloc, document),
    }
}

/// A results document by its fields.
#[tactic(auto, unfolding(crate::specs::BulkPages::op_result_in))]
fn op_result_in(alloc: Global, document: &Document) -> Result<OpResult, Unread>
    ensures { Gives result (op_result_in document.now) }
{
    let index = count_at(document, keys::RESULT_INDEX)? as usize;
    let outcome = op_outcome_in(alloc, document)?;
    Ok(OpResult { index, outcome })
}

/// A value that is a results document.
#[tactic(auto, unfolding(crate::specs::BulkPages::op_result_of))]
fn op_result_of(alloc: Global, value: &Bson) -> Result<OpResult, Unread>
    ensures { Gives result (op_result_of value.now) }
{
    match value {
        Bson::Document(document) => op_result_in(alloc, document),
        _ => Err(Unread::Wrong),
    }
}

/// Results documents, each in its form.
#[tactic(auto, unfolding(crate::specs::BulkPages::op_results))]
fn op_results(alloc: Global, values: &[Bson]) -> Result<List<OpResult>, Unread>
    ensures { Gives result (op_results values.now) }
{
    let mut results = List::with_capacity(alloc, values.len())?;
    for value in values {
        results.push(op_result_of(alloc, value)?)?;
    }
    Ok(results)
}

/// The results documents under a key.
#[tactic(auto, unfolding(crate::specs::BulkPages::op_results_of, driver_link::specs::Commands::needed))]
fn results_at(alloc: Global, document: &Document, key: &str) -> Result<List<OpResult>, Unread>
    ensures { Gives result (needed op_results_of key.now document.now) }
{
    match document.get(key) {
        Some(Bson::Array(values)) => op_results(alloc, values.as_slice()),
        _ => Err(Unread::Wrong),
    }
}

/// A namespace in one text, cut at its first dot.
#[tactic(auto, unfolding(driver_link::specs::Writes::cut))]
fn cut_at_dot(alloc: Global, text: &str) -> Result<Option<Namespace>, AllocError>
    ensures { IfOk result (λ found. found ≡ cut_at_dot text.now) }
{
    match text.split_once('.') {
        Some((db, coll)) => Ok(Some(Namespace {
            db: Text::from_str(alloc, db)?,
            coll: Text::from_str(alloc, coll)?,
        })),
        None => Ok(None),
    }
}

/// The text under a key, which is needed.
#[tactic(auto, unfolding(driver_link::specs::Commands::needed))]
fn needed_text<'a>(document: &'a Document, key: &str) -> Option<&'a Text>
    ensures { option_copied result ≡ needed text_of key.now document.now }
{
    match document.get(key) {
        Some(Bson::String(text)) => Some(text),
        _ => None,
    }
}

/// The namespace that a cursor is asked for under.
#[tactic(auto, unfolding(crate::specs::BulkPages::cursor_namespace))]
fn cursor_namespace(alloc: Global, document: &Document) -> Result<Namespace, Unread>
    ensures { Gives result (cursor_namespace document.now) }
{
    let Some(text) = needed_text(document, keys::CURSOR_NAMESPACE) else {
        return Err(Unread::Wrong);
    };
    match cut_at_dot(alloc, text.as_str())? {
        Some(namespace) => Ok(namespace),
        None => Err(Unread::Wrong),
    }
}

/// The cursor of a page, with its results under a key.
#[tactic(auto, unfolding(crate::specs::BulkPages::cursor_in))]
fn cursor_in(alloc: Global, batch: &str, document: &Document) -> Result<ResultsPage, Unread>
    ensures { Gives result (cursor_in batch.now document.now) }
{
    let cursor = int_at(document, keys::CURSOR_ID)?;
    let namespace = cursor_namespace(alloc, document)?;
    let results = results_at(alloc, document, batch)?;
    Ok(ResultsPage {
        cursor,
        namespace,
        results,
    })
}

/// The page in a reply.
#[tactic(auto, unfolding(crate::specs::BulkPages::page_in, driver_link::specs::Commands::needed))]
fn page_in(alloc: Global, batch: &str, reply: &Document) -> Result<ResultsPage, Unread>
    ensures { Gives result (page_in batch.now reply.now) }
{
    match reply.get(keys::CURSOR) {
        Some(Bson::Document(document)) => cursor_in(alloc, batch, document),
        _ => Err(Unread::Wrong),
    }
}

/// A page behind the first.
pub(crate) fn next_page(alloc: Global, reply: &Document) -> Result<ResultsPage, Unread>
    ensures { Gives result (next_page reply.now) }
{
    page_in(alloc, keys::NEXT_BATCH, reply)
}

/// A count of a reply, which is not negative.
#[tactic(auto, unfolding(crate::specs::BulkPages::count_in, driver_ops::specs::Readings::natural_of, driver_link::specs::Commands::needed))]
fn count_in(reply: &Document, key: &str) -> Result<i64, Unread>
    ensures { Gives result (count_in key.now reply.now) }
{
    let count = int_at(reply, key)?;
    if count < 0 {
        return Err(Unread::Wrong);
    }
    Ok(count)
}

/// The counts of a reply.
#[tactic(auto, unfolding(crate::specs::BulkPages::counts_in))]
fn counts_in(reply: &Document) -> Result<SummaryBulkWriteResult, Unread>
    ensures { Gives result (counts_in reply.now) }
{
    let inserted_count = count_in(reply, keys::N_INSERTED)?;
    let matched_count = count_in(reply, keys::N_MATCHED)?;
    let modified_count = count_in(reply, keys::N_MODIFIED)?;
    let upserted_count = count_in(reply, keys::N_UPSERTED)?;
    let deleted_count = count_in(reply, keys::N_DELETED)?;
    Ok(SummaryBulkWriteResult {
        inserted_count,
        matched_count,
        modified_count,
        upserted_count,
        deleted_count,
    })
}

/// The fields of the reply, each in its form.
#[tactic(auto, unfolding(crate::specs::BulkPages::bulk_reply))]
pub(crate) fn bulk_reply(alloc: Global, reply: &Document) -> Result<BulkReply, Unread>
    ensures { Gives result (bulk_reply reply.now) }
{
    let errors = count_at(reply, keys::N_ERRORS)?;
    let counts = counts_in(reply)?;
    let concern = reply_concern_error(alloc, reply)?;
    let labels = labels_at(alloc, reply)?;
    let page = page_in(alloc, keys::FIRST_BATCH, reply)?;
    Ok(BulkReply {
        errors,
        counts,
        concern,
        labels,
        page,
    })
}
