//! The delete: its command of one statement, and what the reply to it says.
ghost use Rattle.std.specs.Prelude.{◌≡◌, ℕ, List as Listed, IfOk, Some};
ghost use Rattle.driver_error.specs.declared.kind.ErrorKind.TheVariants.{InvalidResponse};
ghost use Rattle.driver_error.specs.Conversions.{IsMade};
ghost use Rattle.driver_error.specs.LabelTexts.{no_labels};
ghost use Rattle.driver_ops.specs.SendKinds.{first};
ghost use Rattle.driver_ops.specs.declared.target.OperationTarget.TheVariants.{Collection as Within};
ghost use Rattle.driver_ops.specs.Readings.{Gives};
ghost use Rattle.statement_ops.specs.CountAnswers.{AnswersDelete, ReadsDelete, delete_reply, odd_delete_text};
ghost use Rattle.statement_ops.specs.DeleteLawful.{delete_lawful};
ghost use Rattle.statement_ops.specs.Deleting.{delete_command, delete_statement, limit_of};
ghost use Rattle.statement_ops.specs.StatementSpec.{delete_spec};

use crate::failed_write::{FailedWrite, answer_of, failed_write_in};
use bson_lite::{Bson, Document, List, Text, TryClone};
use driver_error::{DeleteResult, Error, ErrorKind, Result};
use driver_link::CommandName;
use driver_ops::keys::{COLLATION, COMMENT, HINT, LET, LIMIT, QUERY};
use driver_ops::option_fields::{one_statement, push_document, push_hint, push_value};
use driver_ops::reply_fields::{Unread, count_at};
use driver_ops::{
    Collection, Command, Feature, Operation, OperationTarget, Reading, lacks_option, odd_reply,
    reads_one_page, repeats_nothing, repeats_under_backpressure, repeats_unless_forbidden,
    stays_for_retry, takes_sessions, writes_after_cluster_time,
};
use driver_options::{
    ClientOptions, DeleteOptions, Description, ReadConcern, SelectionCriteria, WriteConcern,
};
use driver_session::Retryability;
use std::alloc::{AllocError, Global};
use wire_keys::keys;

/// A reply tells of no delete.
const ODD_DELETE: &str = "the reply does not tell of a delete";

/// A delete of one of the documents that a filter finds in a collection, or of all of them.
pub struct Delete {
    target: OperationTarget,
    filter: Document,
    multi: bool,
    options: DeleteOptions,
}

impl Drop for Delete {
    fn drop(self) {
        let Delete {
            target,
            filter,
            multi: _,
            options,
        } = self;
        drop(target);
        drop(filter);
        drop(options);
    }
}

impl Delete {
    /// The delete of one of the documents that a filter finds, or of all of them (`multi`).
    pub fn new(
        collection: Collection,
        filter: Document,
        multi: bool,
        options: DeleteOptions,
    ) -> Delete
        ensures target { result.target ≡ Within collection }
        ensures filter { result.filter ≡ filter }
        ensures multi { result.multi ≡ multi }
        ensures options { result.options ≡ options }
    {
        Delete {
            target: OperationTarget::Collection(collection),
            filter,
            multi,
            options,
        }
    }
}

impl Operation for Delete {
    type Output = DeleteResult;

    ghost spec = { λ delete. delete_spec delete.target delete.filter delete.multi delete.options };

    ghost built = { λ delete. Some 1 };

    ghost next = { λ delete. first };

    ghost has_read = { λ delete pages. ⊥ };

    ghost left = { λ delete. 0 };

    #[tactic(auto, unfolding(driver_link::specs::CommandNames::command_named))]
    fn name(&self) -> &'static str {
        keys::DELETE
    }

    fn target(&self) -> &OperationTarget {
        &self.target
    }

    fn build(&mut self, alloc: Global, _description: &Description) -> Result<Command> {
        Ok(Command {
            name: CommandName::Delete,
            database: Text::from_str(alloc, self.target.database())?,
            body: delete_body(
                alloc,
                self.target.collection(),
                &self.filter,
                self.multi,
                &self.options,
            )?,
            sequences: List::new(alloc),
        })
    }

    fn statements(&self) -> usize {
        1
    }

    fn read_reply(&mut self, alloc: Global, reply: &Document) -> Result<Reading<DeleteResult>> {
        Ok(Reading::Done(read_delete_answer(alloc, reply)?))
    }

    fn read_page(
        &mut self,
        alloc: Global,
        page: std::result::Result<&Document, Error>,
    ) -> Result<Reading<DeleteResult>> {
        reads_one_page(alloc, page)
    }

    fn write_concern(&self) -> Feature<&WriteConcern> {
        Feature::from(self.options.write_concern.as_ref())
    }

    fn read_concern(&self) -> Feature<&ReadConcern> {
        lacks_option()
    }

    fn selection_criteria(&self) -> Feature<&SelectionCriteria> {
        Feature::Inherit
    }

    fn supports_sessions(&self) -> bool {
        takes_sessions()
    }

    fn retryability(&self, options: &ClientOptions) -> Retryability {
        if self.multi {
            return repeats_nothing();
        }
        repeats_unless_forbidden(options.retry_writes)
    }

    fn is_backpressure_retryable(&self, options: &ClientOptions) -> bool {
        repeats_under_backpressure(repeats_unless_forbidden(options.retry_writes))
    }

    fn is_after_cluster_time_write(&self) -> bool {
        writes_after_cluster_time(&self.write_concern())
    }

    fn update_for_retry(&mut self, _alloc: Global, _overloaded: bool) -> Result<()> {
        stays_for_retry()
    }

    ghost law = { λ delete. delete_lawful delete.target delete.filter delete.multi delete.options };
}

/// The statement, field by field.
#[tactic(auto, unfolding(crate::specs::Deleting::delete_statement))]
fn delete_statement(
    alloc: Global,
    filter: &Document,
    multi: bool,
    options: &DeleteOptions,
) -> std::result::Result<Document, AllocError>
    ensures { IfOk result (λ made. made ≡ delete_statement filter.now multi options.now) }
{
    let mut statement = Document::new(alloc);
    statement.push(QUERY, Bson::Document(filter.try_clone(alloc)?))?;
    statement.push(LIMIT, Bson::Int32(limit_of(multi)))?;
    push_document(alloc, &mut statement, COLLATION, &options.collation)?;
    push_hint(alloc, &mut statement, HINT, &options.hint)?;
    Ok(statement)
}

/// How many documents are taken out: all of those found at 0.
fn limit_of(multi: bool) -> i32
    ensures { result ≡ limit_of multi }
{
    if multi { 0 } else { 1 }
}

/// The body of the command, with this statement.
#[tactic(auto, unfolding(crate::specs::Deleting::delete_command))]
fn delete_command(
    alloc: Global,
    collection: &str,
    statement: Document,
    options: &DeleteOptions,
) -> std::result::Result<Document, AllocError>
    ensures { IfOk result (λ body. (database : Listed ℕ) →
        body ≡ delete_command (record { db = database; coll = collection.now }) statement options.now) }
{
    let collection = Text::from_str(alloc, collection)?;
    let mut body = Document::new(alloc);
    body.push(keys::DELETE, Bson::String(collection))?;
    body.push(keys::DELETES, one_statement(alloc, statement)?)?;
    body.push(keys::ORDERED, Bson::Boolean(true))?;
    push_document(alloc, &mut body, LET, &options.let_vars)?;
    push_value(alloc, &mut body, COMMENT, &options.comment)?;
    Ok(body)
}

/// The body of a delete's command in a collection, without the executor's fields.
pub fn delete_body(
    alloc: Global,
    collection: &str,
    filter: &Document,
    multi: bool,
    options: &DeleteOptions,
) -> std::result::Result<Document, AllocError>
    ensures { IfOk result (λ body. (database : Listed ℕ) →
        body ≡ delete_command (record { db = database; coll = collection.now })
        (delete_statement filter.now multi options.now) options.now) }
{
    let statement = delete_statement(alloc, filter, multi, options)?;
    delete_command(alloc, collection, statement, options)
}

/// The fields of a reply: how many documents were taken out, and why the write failed, if it did.
#[derive(Drop)]
pub(crate) struct DeleteReply {
    n: u64,
    failed: FailedWrite,
}

/// What the reply to a delete comes to: its count, its failure, or that it breaks its form.
pub(crate) fn read_delete_answer(alloc: Global, reply: &Document) -> Result<DeleteResult>
    ensures { ReadsDelete reply.now result }
{
    match delete_reply(alloc, reply) {
        Ok(found) => answer_of_delete(alloc, found),
        Err(Unread::Wrong) => Err(odd_delete(alloc)),
        Err(Unread::Memory) => Err(Error::from_kind(ErrorKind::Memory)),
    }
}

/// The fields, each in its form.
#[tactic(auto, unfolding(crate::specs::CountAnswers::delete_reply))]
fn delete_reply(alloc: Global, reply: &Document) -> std::result::Result<DeleteReply, Unread>
    ensures { Gives result (delete_reply reply.now) }
{
    let n = count_at(reply, keys::N)?;
    let failed = failed_write_in(alloc, reply)?;
    Ok(DeleteReply { n, failed })
}

/// The answer of a reply by its fields.
fn answer_of_delete(alloc: Global, found: DeleteReply) -> Result<DeleteResult>
    ensures { AnswersDelete (Some found) result }
{
    let DeleteReply { n, failed } = found;
    answer_of(alloc, failed, DeleteResult { deleted_count: n })
}

/// The error of a reply that breaks its form.
#[tactic(auto, unfolding(crate::specs::CountAnswers::odd_delete_text))]
fn odd_delete(alloc: Global) -> Error
    ensures { IsMade (InvalidResponse odd_delete_text) no_labels result }
{
    odd_reply(alloc, ODD_DELETE)
}
