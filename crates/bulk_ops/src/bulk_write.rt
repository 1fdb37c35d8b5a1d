//! The bulk write: its command, and what the answer to it tells, page by page.
ghost use Rattle.std.specs.Prelude.{◌≡◌, ◌+◌, ◌≤◌, ◌++◌, ◌∷◌, [], true, List as Listed, None, Ok, Some, drop, length, min, IfOk, IfSome, OnOk};
ghost use Rattle.bson_lite.specs.declared.bson.Bson.{Bson as Valued};
ghost use Rattle.bson_lite.specs.declared.document.Pair.{Pair as Paired};
ghost use Rattle.driver_link.specs.declared.command.CommandName.TheVariants.{BulkWrite as Bulk};
ghost use Rattle.driver_ops.specs.Limits.{built_count};
ghost use Rattle.driver_ops.specs.Operations.{OnPage, Page};
ghost use Rattle.driver_ops.specs.SendKinds.{first as first_send};
ghost use Rattle.driver_ops.specs.Targets.{database_of};
ghost use Rattle.bulk_ops.specs.declared.bulk_reply.BulkReply.{BulkReply as Replied};
ghost use Rattle.bulk_ops.specs.declared.bulk_reply.ResultsPage.{ResultsPage as Found};
ghost use Rattle.bulk_ops.specs.BulkLawful.{bulk_lawful};
ghost use Rattle.bulk_ops.specs.BulkPages.{bulk_reply, next_page};
ghost use Rattle.bulk_ops.specs.BulkSpec.{admin_target, batch_read, bulk_spec, is_verbose};
ghost use Rattle.bulk_fronts.specs.BulkWrites.{bulk_command, bulk_is_ordered};
ghost use Rattle.bulk_fronts.specs.inside.BulkFronts.{HasFront};
ghost use Rattle.bulk_ops.specs.inside.BulkResults.{AnswersPages, FewerUnseen, HasReadBulk, HasReadPages, ReadsBehind, ReadsPage, batch_told, begun, left_unseen, ops_in};

use crate::bulk_reply::{BulkReply, ResultsPage, bulk_reply, next_page};
use crate::bulk_results::{BulkProgress, Paged, odd_page};
use crate::op_batch::OpBatch;
use bson_lite::{Bson, Bytes, Document, List, Text};
use bulk_fronts::{
    OpFront, OwnOp, Taken, fixed_count, has_multi, is_numbered, old_server, oversized_op,
    past_numbers, serves_bulk, take_ops,
};
use bulk_outcomes::BulkWriteResult;
use driver_error::{Error, ErrorKind, Result};
use driver_link::{CommandName, Sequence};
use driver_ops::keys::{BYPASS_DOCUMENT_VALIDATION, COMMENT, ERRORS_ONLY, LET};
use driver_ops::option_fields::{push_document, push_flag, push_value};
use driver_ops::reply_fields::Unread;
use driver_ops::{
    BuiltFront, Command, Database, Feature, Operation, OperationTarget, Reading, lacks_option,
    limits_beside, odd_reply, reads_one_page, repeats_nothing, repeats_under_backpressure,
    repeats_unless_forbidden, stays_for_retry, takes_sessions, writes_after_cluster_time,
};
use driver_options::{
    BulkWriteOptions, ClientOptions, Description, ReadConcern, SelectionCriteria, WriteConcern,
};
use driver_session::Retryability;
use std::alloc::{AllocError, Global};
use wire_keys::keys;

/// A reply has not its form.
const ODD_BULK: &str = "the reply does not tell of a bulk write";

/// A page behind it has not.
const ODD_PAGE: &str = "the page does not tell of the results of a bulk write";

/// A bulk write of ops: those of a caller's models from an index on. The first build takes the longest front of them
/// that its connection takes, and later ones take the same ops. Its results are of the kind `R`, and stand under the
/// caller's indexes.
#[derive(Drop)]
pub struct BulkWriteOp<'a, R> {
    target: OperationTarget,
    first: usize,
    ops: &'a [OwnOp],
    options: &'a BulkWriteOptions,
    fixed: Option<BuiltFront>,
    progress: Option<BulkProgress<R>>,
    ghost within: { first + length ops.now ≤ 18446744073709551615 },
}

impl<'a, R: BulkWriteResult> BulkWriteOp<'a, R> {
    /// The bulk write of a caller's ops from the index `first` on, of none where that is past the last. The result of
    /// each op is asked for unless results of the kind are counts alone. It answers want of memory alone.
    pub fn new(
        alloc: Global,
        ops: &'a [OwnOp],
        first: usize,
        options: &'a BulkWriteOptions,
    ) -> std::result::Result<BulkWriteOp<'a, R>, AllocError>
        ensures target { IfOk result (λ op. op.target ≡ admin_target) }
        ensures first { IfOk result (λ op. op.first ≡ min first (length ops.now)) }
        ensures ops { IfOk result (λ op. op.ops.now ≡ drop first ops.now) }
        ensures options { IfOk result (λ op. op.options.now ≡ options.now) }
        ensures fixed { IfOk result (λ op. op.fixed ≡ None) }
        ensures progress { IfOk result (λ op. op.progress ≡ None) }
    {
        let name = Text::from_str(alloc, keys::ADMIN)?;
        let first = first.min(ops.len());
        Ok(BulkWriteOp {
            target: OperationTarget::Database(Database { name }),
            first,
            ops: &ops[first..],
            options,
            fixed: None,
            progress: None,
        })
    }

    /// The batch of so many ops as are fixed, of all where none are.
    fn batch(&self) -> OpBatch<'a>
        ensures { batch_told R.tells result
            ≡ batch_read R.tells self.now.first self.now.ops.now self.now.options.now
            (ops_in (built_count self.now.fixed) self.now.ops.now) }
    {
        let count = match fixed_count(&self.fixed) {
            Some(count) if count < self.ops.len() => count,
            _ => self.ops.len(),
        };
        OpBatch {
            ops: &self.ops[..count],
            first: self.first,
            ordered: bulk_is_ordered(self.options),
        }
    }
}

impl<R: BulkWriteResult> Operation for BulkWriteOp<'_, R> {
    type Output = R;

    ghost spec = { λ op. bulk_spec R.tells op.target op.first op.ops.now op.options.now };

    ghost built = { λ op. built_count op.fixed };

    ghost next = { λ op. first_send };

    ghost has_read = { λ op pages.
        HasReadBulk R.tells op.first op.ops.now op.options.now (built_count op.fixed) op.progress pages };

    ghost left = { λ op. left_unseen op.ops.now (built_count op.fixed) op.progress };

    #[tactic(auto, unfolding(driver_link::specs::CommandNames::command_named))]
    fn name(&self) -> &'static str {
        keys::BULK_WRITE
    }

    fn target(&self) -> &OperationTarget {
        &self.target
    }

    fn build(&mut self, alloc: Global, description: &Description) -> Result<Command> {
        let serves = serves_bulk(description);
        if !serves {
            return Err(old_server(alloc));
        }
        let body = bulk_body(alloc, self.options, is_verbose::<R>())?;
        let limits = limits_beside(description, &body);
        let fixed = fixed_count(&self.fixed);
        let found = take_ops(alloc, self.ops, fixed, &limits)?;
        let front = match found {
            Taken::Front(front) => front,
            Taken::Stops(at) => return Err(oversized_op(alloc, self.first, at)),
        };
        let numbered = is_numbered(&front);
        if !numbered {
            drop(front);
            return Err(past_numbers(alloc));
        }
        let count = front.ops.len();
        let command = command_of(alloc, body, front)?;
        self.fixed = Some(BuiltFront { count });
        Ok(command)
    }

    fn statements(&self) -> usize {
        statements_of(fixed_count(&self.fixed))
    }

    fn read_reply(&mut self, alloc: Global, reply: &Document) -> Result<Reading<R>> {
        let batch = self.batch();
        let (progress, reading) = open_answer(alloc, batch, reply);
        self.progress = progress;
        reading
    }

    fn read_page(
        &mut self,
        alloc: Global,
        page: std::result::Result<&Document, Error>,
    ) -> Result<Reading<R>> {
        let Some(progress) = self.progress.take() else {
            return reads_one_page(alloc, page);
        };
        let batch = self.batch();
        match page {
            Ok(page) => {
                let (progress, reading) = next_answer(alloc, batch, progress, page);
                self.progress = progress;
                reading
            }
            Err(failure) => Err(progress.into_page_error(alloc, batch, failure)),
        }
    }

    fn write_concern(&self) -> Feature<&WriteConcern> {
        Feature::from(self.options.write_concern.as_ref())
    }

    fn read_concern(&self) -> Feature<&ReadConcern> {
        lacks_option()
    }

    fn selection_criteria(&self) -> Feature<&SelectionCriteria> {
        Feature::Inherit
    }

    fn supports_sessions(&self) -> bool {
        takes_sessions()
    }

    fn retryability(&self, options: &ClientOptions) -> Retryability {
        if has_multi(self.ops) {
            return repeats_nothing();
        }
        repeats_unless_forbidden(options.retry_writes)
    }

    fn is_backpressure_retryable(&self, options: &ClientOptions) -> bool {
        repeats_under_backpressure(repeats_unless_forbidden(options.retry_writes))
    }

    fn is_after_cluster_time_write(&self) -> bool {
        writes_after_cluster_time(&self.write_concern())
    }

    fn update_for_retry(&mut self, _alloc: Global, _overloaded: bool) -> Result<()> {
        stays_for_retry()
    }

    ghost law = { λ op. bulk_lawful R.tells op.target op.first op.ops.now op.options.now };
}

/// Whether the result of each op is asked for.
fn is_verbose<R: BulkWriteResult>() -> bool
    ensures { result ≡ is_verbose R.tells }
{
    !R::errors_only()
}

/// A bulk write stops at the first write that fails, unless its options say that it goes on.
fn bulk_is_ordered(options: &BulkWriteOptions) -> bool
    ensures { result ≡ bulk_is_ordered options.now }
{
    options.ordered.unwrap_or(true)
}

/// The ops that are fixed. Where none are it tells nothing.
fn statements_of(fixed: Option<usize>) -> usize
    ensures { IfSome fixed (λ statements. result ≡ statements) }
{
    match fixed {
        Some(statements) => statements,
        None => 1,
    }
}

/// The body of a bulk write's command, without the executor's fields.
#[tactic(auto, unfolding(bulk_fronts::specs::BulkWrites::bulk_command))]
pub fn bulk_body(
    alloc: Global,
    options: &BulkWriteOptions,
    verbose: bool,
) -> std::result::Result<Document, AllocError>
    ensures { IfOk result (λ body. body ≡ bulk_command options.now verbose) }
{
    let mut body = Document::new(alloc);
    body.push(keys::BULK_WRITE, Bson::Int32(1))?;
    body.push(keys::ORDERED, Bson::Boolean(bulk_is_ordered(options)))?;
    push_flag(
        &mut body,
        BYPASS_DOCUMENT_VALIDATION,
        options.bypass_document_validation,
    )?;
    push_value(alloc, &mut body, COMMENT, &options.comment)?;
    push_document(alloc, &mut body, LET, &options.let_vars)?;
    body.push(ERRORS_ONLY, Bson::Boolean(!verbose))?;
    Ok(body)
}

/// The command of a bulk write of a front of ops, with a body.
fn command_of(
    alloc: Global,
    body: Document,
    front: OpFront,
) -> std::result::Result<Command, AllocError>
    ensures name { IfOk result (λ made. made.name ≡ Bulk) }
    ensures database { IfOk result (λ made. made.database ≡ database_of admin_target) }
    ensures body { IfOk result (λ made. made.body ≡ body) }
    ensures sequences { IfOk result (λ made. HasFront made.sequences front) }
{
    let OpFront { namespaces, ops } = front;
    let mut sequences = List::with_capacity(alloc, 2)?;
    push_sequence(alloc, &mut sequences, keys::NAMESPACES, namespaces)?;
    push_sequence(alloc, &mut sequences, keys::OPS, ops)?;
    Ok(Command {
        name: CommandName::BulkWrite,
        database: Text::from_str(alloc, keys::ADMIN)?,
        body,
        sequences,
    })
}

/// Appends a sequence of documents under a name.
fn push_sequence(
    alloc: Global,
    sequences: &mut List<Sequence>,
    name: &str,
    documents: List<Bytes>,
) -> std::result::Result<(), AllocError>
    ensures { OnOk result
        (sequences.new ≡ sequences.old ++ record { name = name.now; documents = documents } ∷ []) }
{
    let name = Text::from_str(alloc, name)?;
    sequences.push(Sequence { name, documents })
}

/// What the reply to a bulk write of a batch comes to, and what was read of it where another page is behind it.
#[tactic(auto, using(crate::proofs::BulkAnswered::opened_wrong, crate::proofs::BulkAnswered::answered_memory))]
fn open_answer<R: BulkWriteResult>(
    alloc: Global,
    batch: OpBatch<'_>,
    reply: &Document,
) -> (Option<BulkProgress<R>>, Result<Reading<R>>)
    ensures { AnswersPages (batch_told R.tells batch.entry) (Ok reply.now ∷ []) result.0 result.1 }
{
    match bulk_reply(alloc, reply) {
        Ok(found) => opened(alloc, batch, found),
        Err(Unread::Wrong) => (None, Err(odd_reply(alloc, ODD_BULK))),
        Err(Unread::Memory) => (None, Err(Error::from_kind(ErrorKind::Memory))),
    }
}

/// The same by its fields.
#[tactic(auto, using(crate::proofs::BulkAnswered::answered_memory))]
fn opened<R: BulkWriteResult>(
    alloc: Global,
    batch: OpBatch<'_>,
    reply: BulkReply,
) -> (Option<BulkProgress<R>>, Result<Reading<R>>)
    ensures { (page : Listed (Paired Valued)) → bulk_reply page ≡ Some reply →
        AnswersPages (batch_told R.tells batch.entry) (Ok page ∷ []) result.0 result.1 }
{
    match BulkProgress::open(alloc, batch, reply) {
        Ok(made) => {
            let (progress, paged) = made;
            first_answer(alloc, batch, progress, paged)
        }
        Err(error) => (None, Err(error)),
    }
}

/// The same by what its first page comes to.
#[tactic(auto, using(crate::proofs::BulkAnswered::first_open, crate::proofs::BulkAnswered::first_last, crate::proofs::BulkAnswered::first_breaks))]
fn first_answer<R: BulkWriteResult>(
    alloc: Global,
    batch: OpBatch<'_>,
    progress: BulkProgress<R>,
    paged: Paged,
) -> (Option<BulkProgress<R>>, Result<Reading<R>>)
    ensures { (page : Listed (Paired Valued)) (reply : Replied) → bulk_reply page ≡ Some reply →
        ReadsPage (batch_told R.tells batch.entry) (begun reply) true reply.page paged progress →
        AnswersPages (batch_told R.tells batch.entry) (Ok page ∷ []) result.0 result.1 }
{
    match paged {
        Paged::Open(cursor, namespace) => {
            (Some(progress), Ok(Reading::Page { cursor, namespace }))
        }
        Paged::Last => (None, progress.end(alloc, batch)),
        Paged::Breaks(fault) => {
            drop(progress);
            (None, Err(odd_reply(alloc, fault.text())))
        }
    }
}

/// What a page comes to behind what was read, and what was read then where another page is behind it.
#[tactic(auto, using(crate::proofs::BulkAnswered::further_wrong, crate::proofs::BulkAnswered::answered_memory))]
fn next_answer<R: BulkWriteResult>(
    alloc: Global,
    batch: OpBatch<'_>,
    progress: BulkProgress<R>,
    page: &Document,
) -> (Option<BulkProgress<R>>, Result<Reading<R>>)
    ensures answers { (pages : Listed Page) → HasReadPages (batch_told R.tells batch.entry) progress pages →
        AnswersPages (batch_told R.tells batch.entry) (Ok page.now ∷ pages) result.0 result.1 }
    ensures fewer { (pages : Listed Page) → HasReadPages (batch_told R.tells batch.entry) progress pages →
        OnPage result.1 (FewerUnseen (length batch.entry.ops.now) progress result.0) }
{
    match next_page(alloc, page) {
        Ok(found) => further(alloc, batch, progress, page, found),
        Err(Unread::Wrong) => {
            let source = odd_page(alloc, ODD_PAGE, page);
            (None, Err(progress.into_page_error(alloc, batch, source)))
        }
        Err(Unread::Memory) => {
            drop(progress);
            (None, Err(Error::from_kind(ErrorKind::Memory)))
        }
    }
}

/// The same by its fields.
#[tactic(auto, using(crate::proofs::BulkAnswered::answered_memory))]
fn further<R: BulkWriteResult>(
    alloc: Global,
    batch: OpBatch<'_>,
    mut progress: BulkProgress<R>,
    page: &Document,
    found: ResultsPage,
) -> (Option<BulkProgress<R>>, Result<Reading<R>>)
    requires { next_page page.now ≡ Some found }
    ensures answers { (pages : Listed Page) → HasReadPages (batch_told R.tells batch.entry) progress pages →
        AnswersPages (batch_told R.tells batch.entry) (Ok page.now ∷ pages) result.0 result.1 }
    ensures fewer { (pages : Listed Page) → HasReadPages (batch_told R.tells batch.entry) progress pages →
        OnPage result.1 (FewerUnseen (length batch.entry.ops.now) progress result.0) }
{
    match progress.read(alloc, batch, false, found) {
        Ok(paged) => further_answer(alloc, batch, progress, page, paged),
        Err(error) => {
            drop(progress);
            (None, Err(error))
        }
    }
}

/// The same by what the page comes to, which what was read has in it where it breaks no rule.
#[tactic(auto, using(crate::proofs::BulkAnswered::further_open, crate::proofs::BulkAnswered::further_last, crate::proofs::BulkAnswered::further_breaks))]
fn further_answer<R: BulkWriteResult>(
    alloc: Global,
    batch: OpBatch<'_>,
    progress: BulkProgress<R>,
    page: &Document,
    paged: Paged,
) -> (Option<BulkProgress<R>>, Result<Reading<R>>)
    ensures answers { (old : BulkProgress R) (found : Found) → next_page page.now ≡ Some found →
        ReadsBehind (batch_told R.tells batch.entry) old progress found paged →
        (pages : Listed Page) → HasReadPages (batch_told R.tells batch.entry) old pages →
        AnswersPages (batch_told R.tells batch.entry) (Ok page.now ∷ pages) result.0 result.1 }
    ensures fewer { (old : BulkProgress R) (found : Found) → next_page page.now ≡ Some found →
        ReadsBehind (batch_told R.tells batch.entry) old progress found paged →
        (pages : Listed Page) → HasReadPages (batch_told R.tells batch.entry) old pages →
        OnPage result.1 (FewerUnseen (length batch.entry.ops.now) old result.0) }
{
    match paged {
        Paged::Open(cursor, namespace) => {
            (Some(progress), Ok(Reading::Page { cursor, namespace }))
        }
        Paged::Last => (None, progress.end(alloc, batch)),
        Paged::Breaks(fault) => {
            let source = odd_page(alloc, fault.text(), page);
            (None, Err(progress.into_page_error(alloc, batch, source)))
        }
    }
}
