//! The findAndModify: its command, and what the reply to it says.
ghost use Rattle.std.specs.Prelude.{◌≡◌, ◌++◌, ◌∷◌, [], ℕ, List as Listed, IfOk, OnOk, Some};
ghost use Rattle.driver_error.specs.declared.kind.ErrorKind.TheVariants.{InvalidResponse};
ghost use Rattle.driver_error.specs.Conversions.{IsMade};
ghost use Rattle.driver_error.specs.LabelTexts.{no_labels};
ghost use Rattle.driver_link.specs.Commands.{needed};
ghost use Rattle.driver_ops.specs.SendKinds.{first};
ghost use Rattle.driver_ops.specs.declared.target.OperationTarget.TheVariants.{Collection as Within};
ghost use Rattle.driver_ops.specs.Readings.{Gives};
ghost use Rattle.statement_ops.specs.FindLawful.{find_lawful};
ghost use Rattle.statement_ops.specs.FindingAndModifying.{find_command, find_front, find_head, modification_field};
ghost use Rattle.statement_ops.specs.FoundAnswers.{AnswersFind, ReadsFind, find_reply, found_of, odd_find_text};
ghost use Rattle.statement_ops.specs.StatementSpec.{find_spec};

use crate::failed_write::{FailedWrite, answer_of, failed_write_in};
use crate::update::change_value;
use bson_lite::{Bson, Document, List, Text, TryClone};
use driver_error::{Error, ErrorKind, Result};
use driver_link::CommandName;
use driver_ops::keys::{
    ARRAY_FILTERS, BYPASS_DOCUMENT_VALIDATION, COLLATION, COMMENT, FIELDS, FIND_QUERY, HINT, LET,
    MAX_TIME, NEW, REMOVE, SORT, UPSERT,
};
use driver_ops::option_fields::{push_document, push_documents, push_flag, push_hint, push_value};
use driver_ops::reply_fields::Unread;
use driver_ops::{
    Collection, Command, Feature, Operation, OperationTarget, Reading, lacks_option, odd_reply,
    push_number, reads_one_page, repeats_under_backpressure, repeats_unless_forbidden,
    stays_for_retry, takes_sessions, writes_after_cluster_time,
};
use driver_options::{
    ClientOptions, Description, FindAndModifyOptions, Modification, ReadConcern, SelectionCriteria,
    WriteConcern,
};
use driver_session::Retryability;
use std::alloc::{AllocError, Global};
use wire_keys::keys;

/// A reply tells of no findAndModify.
const ODD_FIND: &str = "the reply does not tell of a findAndModify";

/// A change, a replacement or a delete of one of the documents that a filter finds in a collection, which answers
/// that document.
pub struct FindAndModify {
    target: OperationTarget,
    filter: Document,
    modification: Modification,
    options: FindAndModifyOptions,
}

impl Drop for FindAndModify {
    fn drop(self) {
        let FindAndModify {
            target,
            filter,
            modification,
            options,
        } = self;
        drop(target);
        drop(filter);
        drop(modification);
        drop(options);
    }
}

impl FindAndModify {
    /// What is done (`modification`) to one of the documents that a filter finds.
    pub fn new(
        collection: Collection,
        filter: Document,
        modification: Modification,
        options: FindAndModifyOptions,
    ) -> FindAndModify
        ensures target { result.target ≡ Within collection }
        ensures filter { result.filter ≡ filter }
        ensures modification { result.modification ≡ modification }
        ensures options { result.options ≡ options }
    {
        FindAndModify {
            target: OperationTarget::Collection(collection),
            filter,
            modification,
            options,
        }
    }
}

impl Operation for FindAndModify {
    type Output = Option<Document>;

    ghost spec = { λ find. find_spec find.target find.filter find.modification find.options };

    ghost built = { λ find. Some 1 };

    ghost next = { λ find. first };

    ghost has_read = { λ find pages. ⊥ };

    ghost left = { λ find. 0 };

    #[tactic(auto, unfolding(driver_link::specs::CommandNames::command_named))]
    fn name(&self) -> &'static str {
        keys::FIND_AND_MODIFY
    }

    fn target(&self) -> &OperationTarget {
        &self.target
    }

    fn build(&mut self, alloc: Global, _description: &Description) -> Result<Command> {
        Ok(Command {
            name: CommandName::FindAndModify,
            database: Text::from_str(alloc, self.target.database())?,
            body: find_and_modify_body(
                alloc,
                self.target.collection(),
                &self.filter,
                &self.modification,
                &self.options,
            )?,
            sequences: List::new(alloc),
        })
    }

    fn statements(&self) -> usize {
        1
    }

    fn read_reply(&mut self, alloc: Global, reply: &Document) -> Result<Reading<Option<Document>>> {
        Ok(Reading::Done(read_find_answer(alloc, reply)?))
    }

    fn read_page(
        &mut self,
        alloc: Global,
        page: std::result::Result<&Document, Error>,
    ) -> Result<Reading<Option<Document>>> {
        reads_one_page(alloc, page)
    }

    fn write_concern(&self) -> Feature<&WriteConcern> {
        Feature::from(self.options.write_concern.as_ref())
    }

    fn read_concern(&self) -> Feature<&ReadConcern> {
        lacks_option()
    }

    fn selection_criteria(&self) -> Feature<&SelectionCriteria> {
        Feature::Inherit
    }

    fn supports_sessions(&self) -> bool {
        takes_sessions()
    }

    fn retryability(&self, options: &ClientOptions) -> Retryability {
        repeats_unless_forbidden(options.retry_writes)
    }

    fn is_backpressure_retryable(&self, options: &ClientOptions) -> bool {
        repeats_under_backpressure(repeats_unless_forbidden(options.retry_writes))
    }

    fn is_after_cluster_time_write(&self) -> bool {
        writes_after_cluster_time(&self.write_concern())
    }

    fn update_for_retry(&mut self, _alloc: Global, _overloaded: bool) -> Result<()> {
        stays_for_retry()
    }

    ghost law = { λ find. find_lawful find.target find.filter find.modification find.options };
}

/// Appends what is done to the document that is found.
fn push_modification(
    alloc: Global,
    body: &mut Document,
    modification: &Modification,
) -> std::result::Result<(), AllocError>
    ensures { OnOk result (body.new ≡ body.old ++ modification_field modification.now ∷ []) }
{
    match modification {
        Modification::Delete => body.push(REMOVE, Bson::Boolean(true)),
        Modification::Update(change) => body.push(keys::UPDATE, change_value(alloc, change)?),
    }
}

/// The collection, the filter, and what is done to the document that it finds.
#[tactic(auto, unfolding(crate::specs::FindingAndModifying::find_head))]
fn find_head(
    alloc: Global,
    collection: &str,
    filter: &Document,
    modification: &Modification,
) -> std::result::Result<Document, AllocError>
    ensures { IfOk result (λ body. body ≡ find_head collection.now filter.now modification.now) }
{
    let collection = Text::from_str(alloc, collection)?;
    let mut body = Document::new(alloc);
    body.push(keys::FIND_AND_MODIFY, Bson::String(collection))?;
    body.push(FIND_QUERY, Bson::Document(filter.try_clone(alloc)?))?;
    push_modification(alloc, &mut body, modification)?;
    Ok(body)
}

/// The same, and behind it the first options: which document is changed and which is answered, how it is changed,
/// and how long that may take.
#[tactic(auto, unfolding(crate::specs::FindingAndModifying::find_front))]
fn find_front(
    alloc: Global,
    collection: &str,
    filter: &Document,
    modification: &Modification,
    options: &FindAndModifyOptions,
) -> std::result::Result<Document, AllocError>
    ensures { IfOk result (λ body. body ≡ find_front collection.now filter.now modification.now options.now) }
{
    let mut body = find_head(alloc, collection, filter, modification)?;
    push_document(alloc, &mut body, SORT, &options.sort)?;
    push_flag(&mut body, NEW, options.new)?;
    push_flag(&mut body, UPSERT, options.upsert)?;
    push_flag(
        &mut body,
        BYPASS_DOCUMENT_VALIDATION,
        options.bypass_document_validation,
    )?;
    push_documents(alloc, &mut body, ARRAY_FILTERS, &options.array_filters)?;
    push_number(&mut body, MAX_TIME, options.max_time)?;
    Ok(body)
}

/// The body of a findAndModify's command in a collection, without the executor's fields.
#[tactic(auto, unfolding(crate::specs::FindingAndModifying::find_command))]
pub fn find_and_modify_body(
    alloc: Global,
    collection: &str,
    filter: &Document,
    modification: &Modification,
    options: &FindAndModifyOptions,
) -> std::result::Result<Document, AllocError>
    ensures { IfOk result (λ body. (database : Listed ℕ) →
        body ≡ find_command (record { db = database; coll = collection.now })
        filter.now modification.now options.now) }
{
    let mut body = find_front(alloc, collection, filter, modification, options)?;
    push_document(alloc, &mut body, FIELDS, &options.projection)?;
    push_document(alloc, &mut body, COLLATION, &options.collation)?;
    push_hint(alloc, &mut body, HINT, &options.hint)?;
    push_document(alloc, &mut body, LET, &options.let_vars)?;
    push_value(alloc, &mut body, COMMENT, &options.comment)?;
    Ok(body)
}

/// The fields of a reply: the document that was found, if one was, and why the write failed, if it did.
#[derive(Drop)]
pub(crate) struct FindReply {
    found: Option<Document>,
    failed: FailedWrite,
}

/// What the reply to a findAndModify comes to: its document or none, its failure, or that it breaks its form.
fn read_find_answer(alloc: Global, reply: &Document) -> Result<Option<Document>>
    ensures { ReadsFind reply.now result }
{
    match find_reply(alloc, reply) {
        Ok(told) => answer_of_find(alloc, told),
        Err(Unread::Wrong) => Err(odd_find(alloc)),
        Err(Unread::Memory) => Err(Error::from_kind(ErrorKind::Memory)),
    }
}

/// The fields, each in its form.
#[tactic(auto, unfolding(crate::specs::FoundAnswers::find_reply))]
fn find_reply(alloc: Global, reply: &Document) -> std::result::Result<FindReply, Unread>
    ensures { Gives result (find_reply reply.now) }
{
    let found = found_at(alloc, reply, keys::VALUE)?;
    let failed = failed_write_in(alloc, reply)?;
    Ok(FindReply { found, failed })
}

/// A copy of the document under a key, or none where null stands there; one of the two is needed.
#[tactic(auto, unfolding(driver_link::specs::Commands::needed))]
fn found_at(
    alloc: Global,
    document: &Document,
    key: &str,
) -> std::result::Result<Option<Document>, Unread>
    ensures { Gives result (needed found_of key.now document.now) }
{
    match document.get(key) {
        None => Err(Unread::Wrong),
        Some(Bson::Document(found)) => Ok(Some(found.try_clone(alloc)?)),
        Some(Bson::Null) => Ok(None),
        Some(_) => Err(Unread::Wrong),
    }
}

/// The answer of a reply by its fields.
fn answer_of_find(alloc: Global, told: FindReply) -> Result<Option<Document>>
    ensures { AnswersFind (Some told) result }
{
    let FindReply { found, failed } = told;
    answer_of(alloc, failed, found)
}

/// The error of a reply that breaks its form.
#[tactic(auto, unfolding(crate::specs::FoundAnswers::odd_find_text))]
fn odd_find(alloc: Global) -> Error
    ensures { IsMade (InvalidResponse odd_find_text) no_labels result }
{
    odd_reply(alloc, ODD_FIND)
}
