//! The update: its command of one statement, and what the reply to it says.
ghost use Rattle.std.specs.Prelude.{◌≡◌, ℕ, List as Listed, IfOk, Some};
ghost use Rattle.driver_error.specs.declared.kind.ErrorKind.TheVariants.{InvalidResponse};
ghost use Rattle.driver_error.specs.Conversions.{IsMade};
ghost use Rattle.driver_error.specs.LabelTexts.{no_labels};
ghost use Rattle.driver_ops.specs.SendKinds.{first};
ghost use Rattle.driver_ops.specs.declared.target.OperationTarget.TheVariants.{Collection as Within};
ghost use Rattle.driver_ops.specs.Readings.{Gives};
ghost use Rattle.statement_ops.specs.CountAnswers.{AnswersUpdate, ReadsUpdate, odd_update_text, update_reply};
ghost use Rattle.statement_ops.specs.StatementSpec.{update_spec};
ghost use Rattle.statement_ops.specs.UpdateLawful.{update_lawful};
ghost use Rattle.statement_ops.specs.Updating.{change_value, update_command, update_head, update_statement};

use crate::failed_write::{FailedWrite, answer_of, failed_write_in, upserted_in};
use bson_lite::{Bson, Document, List, Text, TryClone};
use driver_error::{Error, ErrorKind, Result, UpdateResult};
use driver_link::CommandName;
use driver_ops::keys::{
    ARRAY_FILTERS, BYPASS_DOCUMENT_VALIDATION, CHANGE, COLLATION, COMMENT, HINT, LET, MULTI, QUERY,
    SORT, UPSERT,
};
use driver_ops::option_fields::{
    documents_value, one_statement, push_document, push_documents, push_flag, push_hint,
    push_value, push_where,
};
use driver_ops::reply_fields::{Unread, count_at};
use driver_ops::{
    Collection, Command, Feature, Operation, OperationTarget, Reading, lacks_option, odd_reply,
    reads_one_page, repeats_nothing, repeats_under_backpressure, repeats_unless_forbidden,
    stays_for_retry, takes_sessions, writes_after_cluster_time,
};
use driver_options::{
    ClientOptions, Description, ReadConcern, SelectionCriteria, UpdateModifications, UpdateOptions,
    UpdateOrReplace, WriteConcern,
};
use driver_session::Retryability;
use std::alloc::{AllocError, Global};
use wire_keys::keys;

/// A reply tells of no update.
const ODD_UPDATE: &str = "the reply does not tell of an update";

/// An update or a replacement of one of the documents that a filter finds in a collection, or of all of them.
pub struct Update {
    target: OperationTarget,
    filter: Document,
    change: UpdateOrReplace,
    multi: bool,
    options: UpdateOptions,
}

impl Drop for Update {
    fn drop(self) {
        let Update {
            target,
            filter,
            change,
            multi: _,
            options,
        } = self;
        drop(target);
        drop(filter);
        drop(change);
        drop(options);
    }
}

impl Update {
    /// The change of one of the documents that a filter finds, or of all of them (`multi`).
    pub fn new(
        collection: Collection,
        filter: Document,
        change: UpdateOrReplace,
        multi: bool,
        options: UpdateOptions,
    ) -> Update
        ensures target { result.target ≡ Within collection }
        ensures filter { result.filter ≡ filter }
        ensures change { result.change ≡ change }
        ensures multi { result.multi ≡ multi }
        ensures options { result.options ≡ options }
    {
        Update {
            target: OperationTarget::Collection(collection),
            filter,
            change,
            multi,
            options,
        }
    }
}

impl Operation for Update {
    type Output = UpdateResult;

    ghost spec = { λ update.
        update_spec update.target update.filter update.change update.multi update.options };

    ghost built = { λ update. Some 1 };

    ghost next = { λ update. first };

    ghost has_read = { λ update pages. ⊥ };

    ghost left = { λ update. 0 };

    #[tactic(auto, unfolding(driver_link::specs::CommandNames::command_named))]
    fn name(&self) -> &'static str {
        keys::UPDATE
    }

    fn target(&self) -> &OperationTarget {
        &self.target
    }

    fn build(&mut self, alloc: Global, _description: &Description) -> Result<Command> {
        Ok(Command {
            name: CommandName::Update,
            database: Text::from_str(alloc, self.target.database())?,
            body: update_body(
                alloc,
                self.target.collection(),
                &self.filter,
                &self.change,
                self.multi,
                &self.options,
            )?,
            sequences: List::new(alloc),
        })
    }

    fn statements(&self) -> usize {
        1
    }

    fn read_reply(&mut self, alloc: Global, reply: &Document) -> Result<Reading<UpdateResult>> {
        Ok(Reading::Done(read_update_answer(alloc, reply)?))
    }

    fn read_page(
        &mut self,
        alloc: Global,
        page: std::result::Result<&Document, Error>,
    ) -> Result<Reading<UpdateResult>> {
        reads_one_page(alloc, page)
    }

    fn write_concern(&self) -> Feature<&WriteConcern> {
        Feature::from(self.options.write_concern.as_ref())
    }

    fn read_concern(&self) -> Feature<&ReadConcern> {
        lacks_option()
    }

    fn selection_criteria(&self) -> Feature<&SelectionCriteria> {
        Feature::Inherit
    }

    fn supports_sessions(&self) -> bool {
        takes_sessions()
    }

    fn retryability(&self, options: &ClientOptions) -> Retryability {
        if self.multi {
            return repeats_nothing();
        }
        repeats_unless_forbidden(options.retry_writes)
    }

    fn is_backpressure_retryable(&self, options: &ClientOptions) -> bool {
        repeats_under_backpressure(repeats_unless_forbidden(options.retry_writes))
    }

    fn is_after_cluster_time_write(&self) -> bool {
        writes_after_cluster_time(&self.write_concern())
    }

    fn update_for_retry(&mut self, _alloc: Global, _overloaded: bool) -> Result<()> {
        stays_for_retry()
    }

    ghost law = { λ update.
        update_lawful update.target update.filter update.change update.multi update.options };
}

/// The statement, field by field.
#[tactic(auto, unfolding(crate::specs::Updating::update_statement))]
fn update_statement(
    alloc: Global,
    filter: &Document,
    change: &UpdateOrReplace,
    multi: bool,
    options: &UpdateOptions,
) -> std::result::Result<Document, AllocError>
    ensures { IfOk result (λ made. made ≡ update_statement filter.now change.now multi options.now) }
{
    let mut statement = Document::new(alloc);
    statement.push(QUERY, Bson::Document(filter.try_clone(alloc)?))?;
    statement.push(CHANGE, change_value(alloc, change)?)?;
    push_flag(&mut statement, UPSERT, options.upsert)?;
    push_documents(alloc, &mut statement, ARRAY_FILTERS, &options.array_filters)?;
    push_hint(alloc, &mut statement, HINT, &options.hint)?;
    push_document(alloc, &mut statement, COLLATION, &options.collation)?;
    push_document(alloc, &mut statement, SORT, &options.sort)?;
    push_where(&mut statement, MULTI, multi)?;
    Ok(statement)
}

/// What an update does, as a value.
pub(crate) fn change_value(
    alloc: Global,
    change: &UpdateOrReplace,
) -> std::result::Result<Bson, AllocError>
    ensures { IfOk result (λ value. value ≡ change_value change.now) }
{
    match change {
        UpdateOrReplace::UpdateModifications(UpdateModifications::Document(document)) => {
            Ok(Bson::Document(document.try_clone(alloc)?))
        }
        UpdateOrReplace::UpdateModifications(UpdateModifications::Pipeline(stages)) => {
            documents_value(alloc, stages.as_slice())
        }
        UpdateOrReplace::Replacement(document) => Ok(Bson::Document(document.try_clone(alloc)?)),
    }
}

/// The collection and the options of the command.
#[tactic(auto, unfolding(crate::specs::Updating::update_head))]
fn update_head(
    alloc: Global,
    collection: &str,
    options: &UpdateOptions,
) -> std::result::Result<Document, AllocError>
    ensures { IfOk result (λ body. body ≡ update_head collection.now options.now) }
{
    let collection = Text::from_str(alloc, collection)?;
    let mut body = Document::new(alloc);
    body.push(keys::UPDATE, Bson::String(collection))?;
    push_flag(
        &mut body,
        BYPASS_DOCUMENT_VALIDATION,
        options.bypass_document_validation,
    )?;
    push_document(alloc, &mut body, LET, &options.let_vars)?;
    push_value(alloc, &mut body, COMMENT, &options.comment)?;
    Ok(body)
}

/// The body of the command, with this statement.
#[tactic(auto, unfolding(crate::specs::Updating::update_command))]
fn update_command(
    alloc: Global,
    collection: &str,
    statement: Document,
    options: &UpdateOptions,
) -> std::result::Result<Document, AllocError>
    ensures { IfOk result (λ body. (database : Listed ℕ) →
        body ≡ update_command (record { db = database; coll = collection.now }) statement options.now) }
{
    let mut body = update_head(alloc, collection, options)?;
    body.push(keys::UPDATES, one_statement(alloc, statement)?)?;
    body.push(keys::ORDERED, Bson::Boolean(true))?;
    Ok(body)
}

/// The body of an update's command in a collection, without the executor's fields.
pub fn update_body(
    alloc: Global,
    collection: &str,
    filter: &Document,
    change: &UpdateOrReplace,
    multi: bool,
    options: &UpdateOptions,
) -> std::result::Result<Document, AllocError>
    ensures { IfOk result (λ body. (database : Listed ℕ) →
        body ≡ update_command (record { db = database; coll = collection.now })
        (update_statement filter.now change.now multi options.now) options.now) }
{
    let statement = update_statement(alloc, filter, change, multi, options)?;
    update_command(alloc, collection, statement, options)
}

/// The fields of a reply: how many documents were found and how many changed, the id of the one that was put in,
/// and why the write failed, if it did.
#[derive(Drop)]
pub(crate) struct UpdateReply {
    n: u64,
    modified: u64,
    upserted: Option<Bson>,
    failed: FailedWrite,
}

/// What the reply to an update comes to: its counts, its failure, or that it breaks its form.
pub(crate) fn read_update_answer(alloc: Global, reply: &Document) -> Result<UpdateResult>
    ensures { ReadsUpdate reply.now result }
{
    match update_reply(alloc, reply) {
        Ok(found) => answer_of_update(alloc, found),
        Err(Unread::Wrong) => Err(odd_update(alloc)),
        Err(Unread::Memory) => Err(Error::from_kind(ErrorKind::Memory)),
    }
}

/// The fields, each in its form.
#[tactic(auto, unfolding(crate::specs::CountAnswers::update_reply))]
fn update_reply(alloc: Global, reply: &Document) -> std::result::Result<UpdateReply, Unread>
    ensures { Gives result (update_reply reply.now) }
{
    let n = count_at(reply, keys::N)?;
    let modified = count_at(reply, keys::N_MODIFIED)?;
    let failed = failed_write_in(alloc, reply)?;
    let upserted = upserted_in(alloc, reply)?;
    Ok(UpdateReply {
        n,
        modified,
        upserted,
        failed,
    })
}

/// The answer of a reply by its fields.
fn answer_of_update(alloc: Global, found: UpdateReply) -> Result<UpdateResult>
    ensures { AnswersUpdate (Some found) result }
{
    let UpdateReply {
        n,
        modified,
        upserted,
        failed,
    } = found;
    let made = UpdateResult {
        matched_count: if upserted.is_some() { 0 } else { n },
        modified_count: modified,
        upserted_id: upserted,
    };
    answer_of(alloc, failed, made)
}

/// The error of a reply that breaks its form.
#[tactic(auto, unfolding(crate::specs::CountAnswers::odd_update_text))]
fn odd_update(alloc: Global) -> Error
    ensures { IsMade (InvalidResponse odd_update_text) no_labels result }
{
    odd_reply(alloc, ODD_UPDATE)
}
