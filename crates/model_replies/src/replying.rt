//! The replies of the model server, as documents.
ghost use Rattle.std.specs.Prelude.{◌≡◌, ◌++◌, ◌∷◌, [], Some, map, List as Listed, OnOk, IfOk};
ghost use Rattle.bson_lite.specs.declared.bson.Bson as bson;
ghost use Rattle.bson_lite.specs.declared.bson.Bson.{Bson as Value};
ghost use Rattle.driver_link.specs.Numbers.{field, reply_number};
ghost use Rattle.driver_link.specs.Replies.{done_field, error_reply, errors_field, write_errors as all_errors, write_error as error_at, upserted_at, upserted_by, result_of, upserted_field, upserts as all_upserts, concern_field, first_value as value_of, cursor_field, bulk_fields, needed_fields, write_reply as reply_to_writes, end_reply as reply_to_end, results_in, sum_of, cursor_reply as reply_of_cursor, denied_reply as reply_denied};
ghost use Rattle.model_replies.specs.SomeField.{some_field, upsert_value};

use crate::counts;
use bson_lite::{Bson, Document, ID_KEY, List, Text, TryClone};
use driver_error::TRANSIENT_TRANSACTION_ERROR;
use driver_link::{
    PlacedWrite, PlannedConcern, SendBody, SendCommand, ServerTransaction, Statement, WriteKind,
};
use model_statements::cursors;
use model_statements::fields::{count, number};
use std::alloc::{AllocError, Global};
use wire_keys::keys::{
    BULK_NAMESPACE, CODE, CURSOR, CURSOR_ID, CURSOR_NAMESPACE, ERROR_LABELS, ERROR_MESSAGE,
    FIRST_BATCH, INDEX, N, N_DELETED, N_ERRORS, N_INSERTED, N_MATCHED, N_MODIFIED, N_UPSERTED,
    NEXT_BATCH, OK, SCHEDULED, UPSERTED, VALUE, WRITE_CONCERN_ERROR, WRITE_ERRORS,
};

/// The code of a number below the greatest of its session.
pub const TRANSACTION_TOO_OLD: i32 = 225;

/// The code of a send that its transaction does not take.
const NO_SUCH_TRANSACTION: i32 = 251;

/// The code that asks for another authentication.
pub const REAUTHENTICATION_REQUIRED: i32 = 391;

/// The code of a cursor that is not open.
const CURSOR_NOT_FOUND: i32 = 43;

/// The reply that spells an error.
#[tactic(auto, unfolding(driver_link::specs::Replies::error_reply))]
pub fn error(alloc: Global, code: i32, labels: &[Text]) -> Result<Document, AllocError>
    ensures { IfOk result (λ reply. reply ≡ error_reply code labels.now) }
{
    let mut reply = Document::new(alloc);
    reply.push(OK, Bson::Int32(0))?;
    reply.push(CODE, Bson::Int32(code))?;
    reply.push(
        ERROR_MESSAGE,
        Bson::String(Text::from_str(alloc, SCHEDULED)?),
    )?;
    reply.push(ERROR_LABELS, Bson::Array(texts(alloc, labels)?))?;
    Ok(reply)
}

/// Labels as values.
fn texts(alloc: Global, labels: &[Text]) -> Result<List<Bson>, AllocError>
    ensures { IfOk result (λ values. values ≡ map (λ label. bson.String label) labels.now) }
{
    let mut values = List::with_capacity(alloc, labels.len())?;
    for label in labels {
        values.push(Bson::String(label.try_clone(alloc)?))?;
    }
    Ok(values)
}

/// Documents as values.
fn documents(alloc: Global, page: &[Document]) -> Result<List<Bson>, AllocError>
    ensures { IfOk result (λ values. values ≡ map (λ document. bson.Document document) page.now) }
{
    let mut values = List::with_capacity(alloc, page.len())?;
    for document in page {
        values.push(Bson::Document(document.try_clone(alloc)?))?;
    }
    Ok(values)
}

/// A write error, with its position.
fn write_error(alloc: Global, at: usize, code: i32) -> Result<Bson, AllocError>
    ensures { IfOk result (λ error. error ≡ error_at at code) }
{
    let mut error = Document::new(alloc);
    error.push(INDEX, count(at)?)?;
    error.push(CODE, Bson::Int32(code))?;
    error.push(
        ERROR_MESSAGE,
        Bson::String(Text::from_str(alloc, SCHEDULED)?),
    )?;
    Ok(Bson::Document(error))
}

/// The write errors of statements.
#[tactic(auto, unfolding(driver_link::specs::Replies::write_errors))]
fn write_errors(alloc: Global, done: &[Statement]) -> Result<List<Bson>, AllocError>
    ensures { IfOk result (λ errors. errors ≡ all_errors 0 done.now) }
{
    let mut errors = List::new(alloc);
    for (at, statement) in done.iter().enumerate() {
        match statement {
            Statement::Failed(code) => errors.push(write_error(alloc, at, *code)?)?,
            _ => {}
        }
    }
    Ok(errors)
}

/// Appends the write errors, where there are some.
fn push_errors(alloc: Global, reply: &mut Document, done: &[Statement]) -> Result<(), AllocError>
    ensures { OnOk result (reply.new ≡ reply.old ++ errors_field (all_errors 0 done.now)) }
{
    let errors = write_errors(alloc, done)?;
    push_some(reply, WRITE_ERRORS, errors)
}

/// Appends a list under a key, where it is not empty.
fn push_some(reply: &mut Document, key: &str, values: List<Bson>) -> Result<(), AllocError>
    ensures { OnOk result (reply.new ≡ reply.old ++ some_field key.now values) }
{
    if values.is_empty() {
        return Ok(());
    }
    reply.push(key, Bson::Array(values))
}

/// A document that an update inserted, with the position of its statement.
fn upsert(alloc: Global, at: usize, id: &Bson) -> Result<Bson, AllocError>
    ensures { IfOk result (λ upsert. upsert ≡ upsert_value at id.now) }
{
    let mut upsert = Document::new(alloc);
    upsert.push(INDEX, count(at)?)?;
    upsert.push(ID_KEY, id.try_clone(alloc)?)?;
    Ok(Bson::Document(upsert))
}

/// Appends the document that an update inserted, where there is one.
fn push_inserted(
    alloc: Global,
    upserts: &mut List<Bson>,
    at: usize,
    inserted: &Option<Bson>,
) -> Result<(), AllocError>
    ensures { OnOk result
        ((rest : Listed Value) → upserts.new ++ rest ≡ upserts.old ++ upserted_at at inserted.now rest) }
{
    match inserted {
        Some(id) => {
            let value = upsert(alloc, at, id)?;
            upserts.push(value)
        }
        None => Ok(()),
    }
}

/// Appends the document that a statement inserted by an update, where there is one.
fn push_upsert(
    alloc: Global,
    upserts: &mut List<Bson>,
    at: usize,
    statement: &Statement,
) -> Result<(), AllocError>
    ensures { OnOk result
        ((rest : Listed Value) →
        upserts.new ++ rest ≡ upserts.old ++ upserted_by at (result_of statement.now) rest) }
{
    match counts::counts_of(statement) {
        Some(counts) => push_inserted(alloc, upserts, at, &counts.upserted),
        None => Ok(()),
    }
}

/// The documents that updates inserted.
#[tactic(auto, unfolding(driver_link::specs::Replies::upserts))]
fn upserts(alloc: Global, done: &[Statement]) -> Result<List<Bson>, AllocError>
    ensures { IfOk result (λ upserts. upserts ≡ all_upserts 0 done.now) }
{
    let mut upserts = List::new(alloc);
    for (at, statement) in done.iter().enumerate() {
        push_upsert(alloc, &mut upserts, at, statement)?;
    }
    Ok(upserts)
}

/// Appends the write concern error, where there is one.
fn push_concern(
    alloc: Global,
    reply: &mut Document,
    concern: &Option<PlannedConcern>,
) -> Result<(), AllocError>
    ensures { OnOk result (reply.new ≡ reply.old ++ concern_field concern.now) }
{
    match concern {
        None => Ok(()),
        Some(concern) => {
            let mut error = Document::new(alloc);
            error.push(CODE, Bson::Int32(concern.code))?;
            error.push(
                ERROR_MESSAGE,
                Bson::String(concern.message.try_clone(alloc)?),
            )?;
            reply.push(WRITE_CONCERN_ERROR, Bson::Document(error))
        }
    }
}

/// The value of the first statement, or null.
fn first_value(alloc: Global, done: &[Statement]) -> Result<Bson, AllocError>
    ensures { IfOk result (λ value. value ≡ value_of done.now) }
{
    if done.is_empty() {
        return Ok(Bson::Null);
    }
    match counts::counts_of(&done[0]) {
        None => Ok(Bson::Null),
        Some(counts) => match &counts.value {
            None => Ok(Bson::Null),
            Some(document) => Ok(Bson::Document(document.try_clone(alloc)?)),
        },
    }
}

/// Appends a cursor with one page.
fn push_cursor(
    alloc: Global,
    reply: &mut Document,
    batch: &str,
    cursor: usize,
    page: &[Document],
) -> Result<(), AllocError>
    ensures { OnOk result (reply.new ≡ reply.old ++ cursor_field batch.now cursor page.now ∷ []) }
{
    let mut fields = Document::new(alloc);
    fields.push(CURSOR_ID, count(cursor)?)?;
    let namespace = Text::from_str(alloc, BULK_NAMESPACE)?;
    fields.push(CURSOR_NAMESPACE, Bson::String(namespace))?;
    fields.push(batch, Bson::Array(documents(alloc, page)?))?;
    reply.push(CURSOR, Bson::Document(fields))
}

/// Appends the counts of a bulk write and its cursor.
fn push_bulk(
    alloc: Global,
    reply: &mut Document,
    page: Option<u64>,
    cursors: &[Option<List<Document>>],
    writes: &[PlacedWrite],
    done: &[Statement],
) -> Result<(), AllocError>
    ensures { OnOk result (reply.new ≡ reply.old ++ bulk_fields page cursors.now writes.now done.now) }
{
    let inserted = counts::sum_of_kind(WriteKind::Insert, writes, done)?;
    let deleted = counts::sum_of_kind(WriteKind::Delete, writes, done)?;
    reply.push(N_ERRORS, count(counts::failures(done))?)?;
    reply.push(N_INSERTED, number(inserted))?;
    reply.push(N_MATCHED, number(counts::count_of_matched(writes, done)?))?;
    reply.push(N_MODIFIED, number(counts::count_of_modified(writes, done)?))?;
    reply.push(N_UPSERTED, count(counts::count_of_upserted(writes, done))?)?;
    reply.push(N_DELETED, number(deleted))?;
    let results = cursors::rows(alloc, writes, done)?;
    let left = cursors::pages_left(page, results.as_slice());
    let cursor = cursors::cursor_number(left, cursors);
    let first = cursors::first_page(page, results.as_slice());
    push_cursor(alloc, reply, FIRST_BATCH, cursor, first)
}

/// Appends the count of an insert or a delete, and the write errors.
fn push_counted(alloc: Global, reply: &mut Document, done: &[Statement]) -> Result<(), AllocError>
    ensures { OnOk result
        (reply.new ≡ reply.old ++
        (field N.now (reply_number (sum_of (λ counts. counts.n) (results_in done.now))) ∷
        errors_field (all_errors 0 done.now))) }
{
    reply.push(N, number(counts::sum_n(done)?))?;
    push_errors(alloc, reply, done)
}

/// Appends the counts of an update, its upserts and the write errors.
fn push_update(alloc: Global, reply: &mut Document, done: &[Statement]) -> Result<(), AllocError>
    ensures { OnOk result
        (reply.new ≡ reply.old ++
        (field N.now (reply_number (sum_of (λ counts. counts.n) (results_in done.now))) ∷
        field N_MODIFIED.now (reply_number (sum_of (λ counts. counts.modified) (results_in done.now))) ∷
        (upserted_field (all_upserts 0 done.now) ++ errors_field (all_errors 0 done.now)))) }
{
    reply.push(N, number(counts::sum_n(done)?))?;
    reply.push(N_MODIFIED, number(counts::sum_modified(done)?))?;
    let inserted = upserts(alloc, done)?;
    push_some(reply, UPSERTED, inserted)?;
    push_errors(alloc, reply, done)
}

/// Appends the value of a findAndModify, and its write error.
fn push_value(alloc: Global, reply: &mut Document, done: &[Statement]) -> Result<(), AllocError>
    ensures { OnOk result
        (reply.new ≡
        reply.old ++ (field VALUE.now (value_of done.now) ∷ errors_field (all_errors 0 done.now))) }
{
    reply.push(VALUE, first_value(alloc, done)?)?;
    push_errors(alloc, reply, done)
}

/// Appends the fields that a command's reply needs.
fn push_needed(
    alloc: Global,
    reply: &mut Document,
    command: SendCommand,
    page: Option<u64>,
    cursors: &[Option<List<Document>>],
    writes: &[PlacedWrite],
    done: &[Statement],
) -> Result<(), AllocError>
    ensures { OnOk result
        (reply.new ≡ reply.old ++ needed_fields command page cursors.now writes.now done.now) }
{
    match command {
        SendCommand::Insert => push_counted(alloc, reply, done),
        SendCommand::Update => push_update(alloc, reply, done),
        SendCommand::Delete => push_counted(alloc, reply, done),
        SendCommand::FindAndModify => push_value(alloc, reply, done),
        SendCommand::BulkWrite => push_bulk(alloc, reply, page, cursors, writes, done),
    }
}

/// A reply that is no error, with its first field alone.
fn done_reply(alloc: Global) -> Result<Document, AllocError>
    ensures { IfOk result (λ reply. reply ≡ done_field ∷ []) }
{
    let mut reply = Document::new(alloc);
    reply.push(OK, Bson::Int32(1))?;
    Ok(reply)
}

/// The reply to writes that were served.
#[tactic(auto, unfolding(driver_link::specs::Replies::write_reply))]
pub fn write_reply(
    alloc: Global,
    command: SendCommand,
    page: Option<u64>,
    concern: &Option<PlannedConcern>,
    cursors: &[Option<List<Document>>],
    writes: &[PlacedWrite],
    done: &[Statement],
) -> Result<Document, AllocError>
    ensures { IfOk result
        (λ reply. reply ≡ reply_to_writes command page concern.now cursors.now writes.now done.now) }
{
    let mut reply = done_reply(alloc)?;
    push_needed(alloc, &mut reply, command, page, cursors, writes, done)?;
    push_concern(alloc, &mut reply, concern)?;
    Ok(reply)
}

/// The reply to a commit or an abort that was served, and to an end to a cursor.
#[tactic(auto, unfolding(driver_link::specs::Replies::end_reply))]
pub fn end_reply(alloc: Global, concern: &Option<PlannedConcern>) -> Result<Document, AllocError>
    ensures { IfOk result (λ reply. reply ≡ reply_to_end concern.now) }
{
    let mut reply = done_reply(alloc)?;
    push_concern(alloc, &mut reply, concern)?;
    Ok(reply)
}

/// The reply to a question for the next page.
#[tactic(auto, unfolding(driver_link::specs::Replies::cursor_reply))]
fn page_reply(
    alloc: Global,
    cursor: i64,
    concern: &Option<PlannedConcern>,
    cursors: &[Option<List<Document>>],
) -> Result<Document, AllocError>
    ensures { IfOk result (λ reply. reply ≡ reply_of_cursor (SendBody.More cursor) concern.now cursors.now) }
{
    match cursors::results_left(cursors, cursor) {
        None => error(alloc, CURSOR_NOT_FOUND, &[]),
        Some(left) => {
            let mut reply = done_reply(alloc)?;
            push_cursor(alloc, &mut reply, NEXT_BATCH, 0, left.as_slice())?;
            push_concern(alloc, &mut reply, concern)?;
            Ok(reply)
        }
    }
}

/// The reply to an end to a cursor.
#[tactic(auto, unfolding(driver_link::specs::Replies::cursor_reply, driver_link::specs::Replies::end_reply))]
fn kill_reply(
    alloc: Global,
    cursor: i64,
    concern: &Option<PlannedConcern>,
    cursors: &[Option<List<Document>>],
) -> Result<Document, AllocError>
    ensures { IfOk result (λ reply. reply ≡ reply_of_cursor (SendBody.Kill cursor) concern.now cursors.now) }
{
    match cursors::results_left(cursors, cursor) {
        None => error(alloc, CURSOR_NOT_FOUND, &[]),
        Some(_) => end_reply(alloc, concern),
    }
}

/// The reply to a command of a cursor.
#[tactic(auto, unfolding(driver_link::specs::Replies::cursor_reply))]
pub fn cursor_reply(
    alloc: Global,
    body: &SendBody,
    concern: &Option<PlannedConcern>,
    cursors: &[Option<List<Document>>],
) -> Result<Document, AllocError>
    ensures { IfOk result (λ reply. reply ≡ reply_of_cursor body.now concern.now cursors.now) }
{
    match body {
        SendBody::More { cursor } => page_reply(alloc, *cursor, concern, cursors),
        SendBody::Kill { cursor } => kill_reply(alloc, *cursor, concern, cursors),
        _ => end_reply(alloc, concern),
    }
}

/// The reply to a send that was denied in its transaction.
#[tactic(auto, unfolding(driver_link::specs::Replies::denied_reply))]
pub fn denied_reply(alloc: Global, transaction: &ServerTransaction) -> Result<Document, AllocError>
    ensures { IfOk result (λ reply. reply ≡ reply_denied transaction.now) }
{
    match transaction {
        ServerTransaction::Committed => error(alloc, NO_SUCH_TRANSACTION, &[]),
        _ => {
            let transient = Text::from_str(alloc, TRANSIENT_TRANSACTION_ERROR)?;
            error(alloc, NO_SUCH_TRANSACTION, &[transient])
        }
    }
}
