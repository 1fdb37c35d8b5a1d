//! The insert of documents: its command, and what the reply to it says.
ghost use Rattle.std.specs.Prelude.{◌≡◌, ◌&&◌, ◌+ℤ◌, ℕ, ◌∷◌, [], List as Listed, Ok, Some, pos, length, map, take, IfErr, IfOk, IfSome};
ghost use Rattle.std.specs.List.{list_all};
ghost use Rattle.std.specs.Ordering.{int_eq};
ghost use Rattle.driver_error.specs.declared.kind.ErrorKind.TheVariants.{InsertMany, InvalidResponse, Memory};
ghost use Rattle.driver_error.specs.Conversions.{IsMade, IsNew};
ghost use Rattle.driver_error.specs.Error.{kind_of};
ghost use Rattle.driver_error.specs.LabelTexts.{no_labels};
ghost use Rattle.driver_link.specs.declared.command.CommandName.TheVariants.{Insert as Inserts};
ghost use Rattle.driver_ops.specs.Inserts.{IsOneSequence, insert_command, insert_is_ordered};
ghost use Rattle.driver_ops.specs.Limits.{built_count};
ghost use Rattle.driver_ops.specs.Readings.{Gives};
ghost use Rattle.driver_ops.specs.Operations.{ReadsAlone, OnPage};
ghost use Rattle.driver_ops.specs.SendKinds.{first as first_send};
ghost use Rattle.driver_ops.specs.Targets.{database_of};
ghost use Rattle.driver_ops.specs.declared.target.OperationTarget.TheVariants.{Collection as Within};
ghost use Rattle.write_ops.specs.InsertAnswers.{ReadsInsert, all_ids, counts_all, counts_ordered, counts_unordered, errors_there, failures_of, insert_reply, is_below, is_unfailed, odd_insert_text};
ghost use Rattle.write_ops.specs.inside.InsertAnswers.{AnswersFields, failures_with};
ghost use Rattle.write_ops.specs.InsertLawful.{insert_lawful};
ghost use Rattle.write_ops.specs.InsertSpec.{insert_spec, statements_fixed};

use crate::insert_front::{front, oversized, statements_fixed, taken};
use crate::inserted::{are_apart, are_below, ids_of, inserted_ids};
use crate::own_document::OwnDocument;
use bson_lite::{Boxed, Bson, ByIndex, Bytes, Document, List, Text, TryClone};
use driver_error::{
    Error, ErrorKind, IndexedWriteError, InsertManyError, InsertManyResult, Result,
    WriteConcernError,
};
use driver_link::{CommandName, Sequence};
use driver_ops::keys::{BYPASS_DOCUMENT_VALIDATION, COMMENT};
use driver_ops::option_fields::{push_flag, push_value};
use driver_ops::reply_fields::{Unread, int_at, labels_at};
use driver_ops::write_reply::{reply_concern_error, write_errors_in};
use driver_ops::{
    BuiltFront, Collection, Command, Feature, Operation, OperationTarget, Reading, lacks_option,
    limits_beside, odd_reply, reads_one_page, repeats_under_backpressure, repeats_unless_forbidden,
    stays_for_retry, takes_sessions, writes_after_cluster_time,
};
use driver_options::{
    ClientOptions, Description, InsertManyOptions, ReadConcern, SelectionCriteria, WriteConcern,
};
use driver_session::Retryability;
use std::alloc::{AllocError, Global};
use wire_keys::keys;

/// A reply tells neither of inserted documents nor of failed ones.
const ODD_INSERT: &str = "the reply does not tell of the inserted documents";

/// The insert of documents into a collection: those of a caller's list from an index on. The first build takes the
/// longest front of them that its connection takes, and later ones take the same documents.
pub struct Insert<'a> {
    target: OperationTarget,
    first: usize,
    documents: &'a [OwnDocument],
    options: &'a InsertManyOptions,
    fixed: Option<BuiltFront>,
}

impl<'a> Drop for Insert<'a> {
    fn drop(self) {
        let Insert {
            target,
            first: _,
            documents: _,
            options: _,
            fixed: _,
        } = self;
        drop(target);
    }
}

impl<'a> Insert<'a> {
    /// The insert of documents into a collection. The first of them stands at the index `first` of the caller's list.
    pub fn new(
        collection: Collection,
        first: usize,
        documents: &'a [OwnDocument],
        options: &'a InsertManyOptions,
    ) -> Insert<'a>
        ensures target { result.target ≡ Within collection }
        ensures first { result.first ≡ first }
        ensures documents { result.documents.now ≡ documents.now }
        ensures options { result.options.now ≡ options.now }
        ensures fixed { result.fixed ≡ None }
    {
        Insert {
            target: OperationTarget::Collection(collection),
            first,
            documents,
            options,
            fixed: None,
        }
    }
}

impl Operation for Insert<'_> {
    type Output = InsertManyResult;

    ghost spec = { λ insert. insert_spec insert.target insert.first insert.documents.now insert.options.now };

    ghost built = { λ insert. statements_fixed insert.documents.now (built_count insert.fixed) };

    ghost next = { λ insert. first_send };

    ghost has_read = { λ insert pages. ⊥ };

    ghost left = { λ insert. 0 };

    #[tactic(auto, unfolding(driver_link::specs::CommandNames::command_named))]
    fn name(&self) -> &'static str {
        keys::INSERT
    }

    fn target(&self) -> &OperationTarget {
        &self.target
    }

    fn build(&mut self, alloc: Global, description: &Description) -> Result<Command> {
        let body = insert_body(alloc, self.target.collection(), self.options)?;
        let limits = limits_beside(description, &body);
        let fixed = statements_fixed(self.documents, &self.fixed);
        let count = match taken(self.documents, fixed, &limits) {
            Ok(count) => count,
            Err(at) => return Err(oversized(alloc, &limits, self.first, self.documents, at)),
        };
        let command = command_of(alloc, &self.target, body, front(self.documents, count))?;
        self.fixed = Some(BuiltFront { count });
        Ok(command)
    }

    fn statements(&self) -> usize {
        statements_of(statements_fixed(self.documents, &self.fixed))
    }

    fn read_reply(&mut self, alloc: Global, reply: &Document) -> Result<Reading<InsertManyResult>> {
        let fixed = statements_fixed(self.documents, &self.fixed);
        read_front(
            alloc,
            reply,
            insert_is_ordered(self.options),
            self.documents,
            fixed,
        )
    }

    fn read_page(
        &mut self,
        alloc: Global,
        page: std::result::Result<&Document, Error>,
    ) -> Result<Reading<InsertManyResult>> {
        reads_one_page(alloc, page)
    }

    fn write_concern(&self) -> Feature<&WriteConcern> {
        Feature::from(self.options.write_concern.as_ref())
    }

    fn read_concern(&self) -> Feature<&ReadConcern> {
        lacks_option()
    }

    fn selection_criteria(&self) -> Feature<&SelectionCriteria> {
        Feature::Inherit
    }

    fn supports_sessions(&self) -> bool {
        takes_sessions()
    }

    fn retryability(&self, options: &ClientOptions) -> Retryability {
        repeats_unless_forbidden(options.retry_writes)
    }

    fn is_backpressure_retryable(&self, options: &ClientOptions) -> bool {
        repeats_under_backpressure(self.retryability(options))
    }

    fn is_after_cluster_time_write(&self) -> bool {
        writes_after_cluster_time(&self.write_concern())
    }

    fn update_for_retry(&mut self, _alloc: Global, _overloaded: bool) -> Result<()> {
        stays_for_retry()
    }

    ghost law = { λ insert.
        insert_lawful insert.target insert.first insert.documents.now insert.options.now };
}

/// An insert stops at the first document that fails, unless its options say that it goes on.
fn insert_is_ordered(options: &InsertManyOptions) -> bool
    ensures { result ≡ insert_is_ordered options.now }
{
    options.ordered.unwrap_or(true)
}

/// The statements that are fixed. Where none are it tells nothing.
fn statements_of(fixed: Option<usize>) -> usize
    ensures { IfSome fixed (λ statements. result ≡ statements) }
{
    match fixed {
        Some(statements) => statements,
        None => 1,
    }
}

/// The body of an insert's command into a collection, without the executor's fields.
#[tactic(auto, unfolding(driver_ops::specs::Inserts::insert_command))]
pub fn insert_body(
    alloc: Global,
    collection: &str,
    options: &InsertManyOptions,
) -> std::result::Result<Document, AllocError>
    ensures { IfOk result (λ body. (database : Listed ℕ) →
        body ≡ insert_command (record { db = database; coll = collection.now }) options.now) }
{
    let collection = Text::from_str(alloc, collection)?;
    let mut body = Document::new(alloc);
    body.push(keys::INSERT, Bson::String(collection))?;
    push_flag(
        &mut body,
        BYPASS_DOCUMENT_VALIDATION,
        options.bypass_document_validation,
    )?;
    body.push(keys::ORDERED, Bson::Boolean(insert_is_ordered(options)))?;
    push_value(alloc, &mut body, COMMENT, &options.comment)?;
    Ok(body)
}

/// The command of an insert of these documents, with a body.
fn command_of(
    alloc: Global,
    target: &OperationTarget,
    body: Document,
    documents: &[OwnDocument],
) -> std::result::Result<Command, AllocError>
    ensures name { IfOk result (λ made. made.name ≡ Inserts) }
    ensures database { IfOk result (λ made. made.database ≡ database_of target.now) }
    ensures body { IfOk result (λ made. made.body ≡ body) }
    ensures sequences { IfOk result
        (λ made. IsOneSequence made.sequences (map (λ own. own.bytes) documents.now)) }
{
    Ok(Command {
        name: CommandName::Insert,
        database: Text::from_str(alloc, target.database())?,
        body,
        sequences: one_sequence(alloc, documents)?,
    })
}

/// The one sequence of an insert command, with these documents.
fn one_sequence(
    alloc: Global,
    documents: &[OwnDocument],
) -> std::result::Result<List<Sequence>, AllocError>
    ensures { IfOk result (λ sequences. IsOneSequence sequences (map (λ own. own.bytes) documents.now)) }
{
    let name = Text::from_str(alloc, keys::DOCUMENTS)?;
    let documents = copies_of(alloc, documents)?;
    let mut sequences = List::new(alloc);
    sequences.push(Sequence { name, documents })?;
    Ok(sequences)
}

/// Copies of the spellings of documents.
fn copies_of(
    alloc: Global,
    documents: &[OwnDocument],
) -> std::result::Result<List<Bytes>, AllocError>
    ensures { IfOk result (λ copies. copies ≡ map (λ own. own.bytes) documents.now) }
{
    let mut copies = List::with_capacity(alloc, documents.len())?;
    for own in documents {
        copies.push(own.bytes.try_clone(alloc)?)?;
    }
    Ok(copies)
}

/// The fields of a reply: the count of inserted documents, the write errors, the write concern error, the
/// labels.
#[derive(Drop)]
pub(crate) struct InsertReply {
    n: i64,
    errors: List<IndexedWriteError>,
    concern: Option<WriteConcernError>,
    labels: List<Text>,
}

/// What the reply to an insert comes to whose command has so many of the documents as are fixed: a first page that is
/// the whole answer. Where none are fixed it tells nothing.
fn read_front(
    alloc: Global,
    reply: &Document,
    ordered: bool,
    documents: &[OwnDocument],
    fixed: Option<usize>,
) -> Result<Reading<InsertManyResult>>
    ensures reads { IfSome fixed (λ statements.
        ReadsAlone (ReadsInsert ordered (take statements documents.now)) (Ok reply.now ∷ []) result) }
    ensures alone { OnPage result ⊥ }
{
    match fixed {
        Some(statements) => read_done(alloc, reply, ordered, front(documents, statements)),
        None => read_done(alloc, reply, ordered, documents),
    }
}

/// What the reply to an insert of these documents comes to, as the whole answer.
fn read_done(
    alloc: Global,
    reply: &Document,
    ordered: bool,
    documents: &[OwnDocument],
) -> Result<Reading<InsertManyResult>>
    ensures reads { ReadsAlone (ReadsInsert ordered documents.now) (Ok reply.now ∷ []) result }
    ensures alone { OnPage result ⊥ }
{
    let output = read_insert_answer(alloc, reply, ordered, documents)?;
    Ok(Reading::Done(output))
}

/// What the reply to an insert of these documents comes to: the ids of all of them, the failures that it tells of
/// with the ids of the others, or that it breaks its form.
fn read_insert_answer(
    alloc: Global,
    reply: &Document,
    ordered: bool,
    documents: &[OwnDocument],
) -> Result<InsertManyResult>
    ensures { ReadsInsert ordered documents.now reply.now result }
{
    match insert_reply(alloc, reply) {
        Ok(found) => answer_of(alloc, found, ordered, documents),
        Err(Unread::Wrong) => Err(odd_insert(alloc)),
        Err(Unread::Memory) => Err(Error::from_kind(ErrorKind::Memory)),
    }
}

/// The fields, each in its form.
#[tactic(auto, unfolding(crate::specs::InsertAnswers::insert_reply))]
fn insert_reply(alloc: Global, reply: &Document) -> std::result::Result<InsertReply, Unread>
    ensures { Gives result (insert_reply reply.now) }
{
    let n = int_at(reply, keys::N)?;
    let errors = write_errors_in(alloc, reply)?;
    let concern = reply_concern_error(alloc, reply)?;
    let labels = labels_at(alloc, reply)?;
    Ok(InsertReply {
        n,
        errors,
        concern,
        labels,
    })
}

/// The answer of a reply by its fields.
fn answer_of(
    alloc: Global,
    found: InsertReply,
    ordered: bool,
    documents: &[OwnDocument],
) -> Result<InsertManyResult>
    ensures { AnswersFields ordered documents.now found result }
{
    let told = counts_all(alloc, ordered, documents.len(), &found)?;
    if !told {
        return Err(odd_insert(alloc));
    }
    if is_unfailed(&found) {
        return all_ids(alloc, documents);
    }
    Err(failure_of(alloc, found, ordered, documents))
}

/// The answer that names the ids of all documents.
fn all_ids(alloc: Global, documents: &[OwnDocument]) -> Result<InsertManyResult>
    ensures ok { IfOk result (λ output. output ≡ all_ids documents.now) }
    ensures err { IfErr result (λ error. kind_of error ≡ Memory) }
{
    let inserted_ids = ids_of(alloc, documents)?;
    Ok(InsertManyResult { inserted_ids })
}

/// Whether nothing failed.
fn is_unfailed(found: &InsertReply) -> bool
    ensures { result ≡ is_unfailed found.now }
{
    found.errors.is_empty() && found.concern.is_none()
}

/// Whether the counts are those of an insert of so many documents.
fn counts_all(
    alloc: Global,
    ordered: bool,
    count: usize,
    found: &InsertReply,
) -> std::result::Result<bool, AllocError>
    ensures { IfOk result (λ told. told ≡ counts_all ordered count found.now.n found.now.errors) }
{
    let errors = found.errors.as_slice();
    if ordered {
        Ok(counts_ordered(count, found, errors))
    } else {
        counts_unordered(alloc, count, found, errors)
    }
}

/// Whether all documents were inserted, or those before the one that failed.
fn counts_ordered(count: usize, found: &InsertReply, errors: &[IndexedWriteError]) -> bool
    ensures { result ≡ counts_ordered count found.now.n errors.now }
{
    match errors {
        [] => counts(found, count),
        [error] => error.index < count && counts(found, error.index),
        _ => false,
    }
}

/// Whether a reply counts so many documents.
fn counts(found: &InsertReply, count: usize) -> bool
    ensures { result ≡ int_eq found.now.n (pos count) }
{
    found.n as i128 == count as i128
}

/// Whether all documents were inserted but those that failed, each of which has one write error.
fn counts_unordered(
    alloc: Global,
    count: usize,
    found: &InsertReply,
    errors: &[IndexedWriteError],
) -> std::result::Result<bool, AllocError>
    ensures { IfOk result (λ told. told ≡ counts_unordered count found.now.n errors.now) }
{
    let apart = are_apart(alloc, errors)?;
    if apart {
        Ok(counts_others(count, found, errors))
    } else {
        Ok(false)
    }
}

/// The same where no two write errors are of one document.
fn counts_others(count: usize, found: &InsertReply, errors: &[IndexedWriteError]) -> bool
    ensures { result ≡ (list_all (is_below count) errors.now
        && int_eq (found.now.n +ℤ pos (length errors.now)) (pos count)) }
{
    are_below(count, errors) && adds_up(found, errors.len(), count)
}

/// Whether those that a reply counts and those that failed are so many together.
fn adds_up(found: &InsertReply, failed: usize, count: usize) -> bool
    ensures { result ≡ int_eq (found.now.n +ℤ pos failed) (pos count) }
{
    found.n as i128 + failed as i128 == count as i128
}

/// The error of the failures that a reply tells of, with the ids of the documents that were inserted.
fn failure_of(alloc: Global, found: InsertReply, ordered: bool, documents: &[OwnDocument]) -> Error
    ensures { IsNew (InsertMany (failures_of ordered documents.now found)) found.labels result }
{
    match inserted_ids(alloc, ordered, found.errors.as_slice(), documents) {
        Ok(ids) => failed_insert(alloc, found, ids),
        Err(_refused) => {
            drop(found);
            Error::from_kind(ErrorKind::Memory)
        }
    }
}

/// The error of the failures that a reply tells of, with these ids.
fn failed_insert(alloc: Global, found: InsertReply, inserted_ids: ByIndex<Bson>) -> Error
    ensures { IsNew (InsertMany (failures_with inserted_ids found)) found.labels result }
{
    let InsertReply {
        errors,
        concern,
        labels,
        ..
    } = found;
    let failures = InsertManyError {
        write_errors: errors_there(errors),
        write_concern_error: concern,
        inserted_ids,
    };
    match Boxed::new(alloc, failures) {
        Ok(failures) => Error::new(alloc, ErrorKind::InsertMany(failures), labels.as_slice()),
        Err(_refused) => Error::from_kind(ErrorKind::Memory),
    }
}

/// The write errors, where there are some.
fn errors_there(errors: List<IndexedWriteError>) -> Option<List<IndexedWriteError>>
    ensures { result ≡ errors_there errors }
{
    if errors.is_empty() {
        None
    } else {
        Some(errors)
    }
}

/// The error of a reply that breaks its form.
#[tactic(auto, unfolding(crate::specs::InsertAnswers::odd_insert_text))]
fn odd_insert(alloc: Global) -> Error
    ensures { IsMade (InvalidResponse odd_insert_text) no_labels result }
{
    odd_reply(alloc, ODD_INSERT)
}
