//! The results of a bulk write as they come, page by page: the rules that they keep, what was read so far, and what
//! it comes to at the end.
ghost use Rattle.std.specs.Prelude.{◌≡◌, ◌↔◌, ◌<◌, ◌⊎◌, ◌∷◌, ◌==◌, ◌&&◌, [], is_none, length, true, IfErr, IfOk, IsTrue, OnOk};
ghost use Rattle.std.specs.FinMap as map;
ghost use Rattle.std.specs.List.Sorted.{IsPermutation};
ghost use Rattle.driver_error.specs.declared.kind.ErrorKind.TheVariants.{Memory as NoMemory};
ghost use Rattle.driver_error.specs.Error.{kind_of};
ghost use Rattle.bulk_ops.specs.BulkAnswers.{BulkBatch as BatchTold, BulkRead, IsOddPage, IsPageError, IsReadError, concerns, stands_partial, with_work};
ghost use Rattle.bulk_ops.specs.BulkRules.{are_all_seen, are_apart, are_within, fault_text, open_verdict};
ghost use Rattle.bulk_ops.specs.inside.BulkResults.{EndsOrLacks, IsProgress, IsSeen, IsTaken, JudgesPage, NotesResults, ReadsPage, TakesResults, batch_told, begun, closing_seen, complete_seen, has_seen, higher, keeps_order_seen, none_left, noted_with, one_error_less, one_more_failed, seen_verdict, within};

use crate::bulk_reply::{BulkReply, OpOutcome, OpResult, ResultsPage};
use crate::op_batch::OpBatch;
use crate::seen_flags::{is_set, set_flag};
use bson_lite::{
    Boxed, Bson, ByIndex, Document, EncodeFault, List, Namespace, RawDocumentBuf, Text, TryClone,
};
use bulk_fronts::OpWork;
use bulk_outcomes::BulkWriteResult;
use driver_error::{
    BulkWriteError, DeleteResult, Error, ErrorKind, InsertOneResult, Result, UpdateResult,
    WriteConcernError, WriteError,
};
use driver_ops::{Reading, odd_reply};
use std::alloc::{AllocError, Global};

/// Which rule a page breaks.
#[derive(Clone, Copy, Debug, PartialEq, Eq)]
pub(crate) enum PageFault {
    /// A result is of no op of the batch, or of one that has its result.
    Misplaced,
    /// An ordered batch has two that failed, or results behind the one that did.
    Disordered,
    /// A page behind the first is empty, and leaves its cursor open.
    Empty,
    /// There are not as many errors as the reply counts.
    Miscounted,
    /// An op has no result.
    Missing,
}

/// What a page comes to.
#[derive(Clone, Copy, Debug, PartialEq, Eq)]
pub(crate) enum PageVerdict {
    /// There is another one behind it.
    LeavesOpen,
    Last,
    Breaks(PageFault),
}

impl PageFault {
    /// The message about a page that breaks the rule.
    #[tactic(auto, unfolding(crate::specs::BulkRules::misplaced_text, crate::specs::BulkRules::disordered_text, crate::specs::BulkRules::empty_text, crate::specs::BulkRules::miscounted_text, crate::specs::BulkRules::missing_text))]
    pub(crate) fn text(self) -> &'static str
        ensures { result.now ≡ fault_text self }
    {
        match self {
            PageFault::Misplaced => {
                "a result is of no operation of the bulk write, or of one that has its result"
            }
            PageFault::Disordered => "an ordered bulk write has results behind its error",
            PageFault::Empty => "a page without results leaves its cursor open",
            PageFault::Miscounted => "the bulk write has not as many errors as its reply counts",
            PageFault::Missing => "a result of the bulk write is missing",
        }
    }
}

/// The ops that failed, by their indexes.
#[derive(Clone, Copy)]
pub(crate) enum FailedOps {
    None,
    One(usize),
    More,
}

/// The ops whose results came: a flag for each, the highest of their indexes, which of them failed, and how many errors
/// are yet to come, or none where more came than were counted.
#[derive(Drop)]
pub(crate) struct SeenResults {
    flags: Vec<bool>,
    highest: Option<usize>,
    failed: FailedOps,
    errors_left: Option<u64>,
}

impl SeenResults {
    /// No result came yet, and so many errors were counted. It takes no memory.
    #[tactic(auto, using(crate::proofs::JudgedPages::seen_none))]
    fn none(alloc: Global, errors: u64) -> SeenResults
        ensures { IsSeen errors [] result }
    {
        SeenResults {
            flags: Vec::new(alloc),
            highest: None,
            failed: FailedOps::None,
            errors_left: Some(errors),
        }
    }

    /// Whether the result of the op at an index came.
    pub(crate) fn has(&self, index: usize) -> bool
        ensures { result ≡ has_seen self.now index }
    {
        is_set(&self.flags, index)
    }
}

/// The higher of two indexes, of which the first may be missing.
fn higher(highest: Option<usize>, index: usize) -> usize
    ensures { result ≡ higher highest index }
{
    match highest {
        Some(highest) if highest > index => highest,
        _ => index,
    }
}

/// Notes that the op at an index failed.
fn note_failure(seen: &mut SeenResults, index: usize)
    ensures { seen.new ≡ record seen.old {
      failed = one_more_failed seen.old.failed index;
      errors_left = one_error_less seen.old.errors_left;
    } }
{
    seen.failed = match seen.failed {
        FailedOps::None => FailedOps::One(index),
        _ => FailedOps::More,
    };
    seen.errors_left = match seen.errors_left {
        Some(left) if left > 0 => Some(left - 1),
        _ => None,
    };
}

/// Notes a result. It is not noted where it is of no op of the batch, or of one that has its result.
#[tactic(auto, using(crate::proofs::NotedResults::beyond_noted, crate::proofs::NotedResults::again_noted, crate::proofs::NotedResults::one_noted))]
fn note_result(
    seen: &mut SeenResults,
    told: &OpResult,
    ops: usize,
) -> std::result::Result<bool, AllocError>
    ensures { IfOk result (λ placed. NotesResults ops seen.old seen.new (told.now ∷ []) placed) }
{
    if told.index >= ops {
        return Ok(false);
    }
    let is_new = set_flag(&mut seen.flags, told.index, ops)?;
    if !is_new {
        return Ok(false);
    }
    note_new(seen, told);
    Ok(true)
}

/// Notes a result of an op that had none, whose flag was set.
fn note_new(seen: &mut SeenResults, told: &OpResult)
    ensures { seen.new ≡ noted_with seen.old told.now.index told.now.outcome }
{
    seen.highest = Some(higher(seen.highest, told.index));
    match &told.outcome {
        OpOutcome::Failed(_) => note_failure(seen, told.index),
        OpOutcome::Counted { .. } => {}
    }
}

/// Notes the results of a page in order, each of which is looked at once. It tells whether all are of ops of the
/// batch that have no result yet.
fn note_results(
    seen: &mut SeenResults,
    results: &[OpResult],
    ops: usize,
) -> std::result::Result<bool, AllocError>
    ensures { IfOk result (λ placed. NotesResults ops seen.old seen.new results.now placed) }
{
    for told in results {
        if !note_result(seen, told, ops)? {
            return Ok(false);
        }
    }
    Ok(true)
}

/// Whether an ordered batch stopped at the op that failed.
fn keeps_order(seen: &SeenResults, ordered: bool) -> bool
    ensures { result ≡ keeps_order_seen ordered seen.now }
{
    if !ordered {
        return true;
    }
    match seen.failed {
        FailedOps::None => true,
        FailedOps::One(failed) => is_within(seen.highest, failed),
        FailedOps::More => false,
    }
}

/// Whether no result is of an op behind this one.
fn is_within(highest: Option<usize>, index: usize) -> bool
    ensures { result ≡ within highest index }
{
    match highest {
        Some(highest) => highest <= index,
        None => true,
    }
}

/// Whether each of the first ops has its result.
fn are_all_seen(seen: &SeenResults, ops: usize) -> bool
    ensures { result ≡ are_all_seen ops (has_seen seen.now) }
{
    let mut at = ops;
    'left: while at > 0 {
        at -= 1;
        if !seen.has(at) {
            return false;
        }
    }
    true
}

/// Whether no result is missing at the end: of an ordered batch with an op that failed each op up to it has one, else
/// each. Where counts alone are kept those of ops that did not fail may be missing.
#[tactic(auto, unfolding(crate::specs::BulkRules::are_all_seen))]
fn are_complete(seen: &SeenResults, batch: OpBatch<'_>, only_errors: bool) -> bool
    ensures { result ≡ complete_seen batch.entry only_errors seen.now }
{
    if only_errors {
        return true;
    }
    if !batch.ordered {
        return are_all_seen(seen, batch.ops.len());
    }
    match seen.failed {
        FailedOps::One(failed) => seen.has(failed) && are_all_seen(seen, failed),
        _ => are_all_seen(seen, batch.ops.len()),
    }
}

/// Whether as many errors came as were counted.
fn is_counted(errors_left: Option<u64>) -> bool
    ensures { result ≡ none_left errors_left }
{
    match errors_left {
        Some(left) => left == 0,
        None => false,
    }
}

/// What the end of the pages comes to.
fn closing_verdict(seen: &SeenResults, batch: OpBatch<'_>, only_errors: bool) -> PageVerdict
    ensures { result ≡ closing_seen batch.entry only_errors seen.now }
{
    if !is_counted(seen.errors_left) {
        return PageVerdict::Breaks(PageFault::Miscounted);
    }
    if are_complete(seen, batch, only_errors) {
        PageVerdict::Last
    } else {
        PageVerdict::Breaks(PageFault::Missing)
    }
}

/// What a page comes to that leaves its cursor open.
fn open_verdict(first: bool, results: &[OpResult]) -> PageVerdict
    ensures { result ≡ open_verdict first results.now }
{
    if first {
        return PageVerdict::LeavesOpen;
    }
    match results {
        [] => PageVerdict::Breaks(PageFault::Empty),
        _ => PageVerdict::LeavesOpen,
    }
}

/// What a page comes to whose results were all noted.
fn noted_verdict(
    seen: &SeenResults,
    batch: OpBatch<'_>,
    only_errors: bool,
    first: bool,
    page: &ResultsPage,
) -> PageVerdict
    ensures { result ≡ seen_verdict batch.entry only_errors first page.now seen.now }
{
    if !keeps_order(seen, batch.ordered) {
        return PageVerdict::Breaks(PageFault::Disordered);
    }
    if page.cursor == 0 {
        closing_verdict(seen, batch, only_errors)
    } else {
        open_verdict(first, page.results.as_slice())
    }
}

/// What a page comes to behind those whose results were noted. Its own results are noted then, up to the first that
/// is misplaced.
#[tactic(auto, using(crate::proofs::JudgedPages::judged_placed, crate::proofs::JudgedPages::judged_misplaced))]
fn verdict(
    seen: &mut SeenResults,
    batch: OpBatch<'_>,
    only_errors: bool,
    first: bool,
    page: &ResultsPage,
) -> std::result::Result<PageVerdict, AllocError>
    ensures { IfOk result
        (λ found. JudgesPage batch.entry only_errors first seen.old seen.new page.now found) }
{
    let placed = note_results(seen, page.results.as_slice(), batch.ops.len())?;
    if placed {
        Ok(noted_verdict(seen, batch, only_errors, first, page))
    } else {
        Ok(PageVerdict::Breaks(PageFault::Misplaced))
    }
}

/// Whether results come in the order of their ops.
fn are_rising(results: &[OpResult]) -> bool {
    let mut least = 0;
    for told in results {
        if told.index < least {
            return false;
        }
        least = told.index;
    }
    true
}

/// Results in the order of their ops.
fn in_order(results: List<OpResult>) -> std::result::Result<List<OpResult>, AllocError>
    ensures { IfOk result (λ ordered. IsPermutation results ordered) }
{
    if are_rising(results.as_slice()) {
        return Ok(results);
    }
    let mut told = results.into_vec();
    told.sort_by_key(|told| told.index)?;
    Ok(List::from_vec(told))
}

/// What was read so far: what the reply tells beside its counts, the ops whose results came, the result, and the
/// write errors under the caller's indexes.
#[derive(Drop)]
pub(crate) struct BulkProgress<R> {
    errors: u64,
    concern: Option<WriteConcernError>,
    labels: List<Text>,
    pub(crate) seen: SeenResults,
    result: R,
    write_errors: ByIndex<WriteError>,
}

/// What a page came to: another one is behind it, it is the last, or it breaks a rule.
#[derive(Drop)]
pub(crate) enum Paged {
    Open(i64, Namespace),
    Last,
    Breaks(PageFault),
}

impl<R: BulkWriteResult> BulkProgress<R> {
    /// What a reply tells by its counts, with no result of an op yet.
    fn of_counts(alloc: Global, reply: BulkReply) -> Result<(BulkProgress<R>, ResultsPage)>
        ensures page { IfOk result (λ made. made.1 ≡ reply.page) }
        ensures begun { IfOk result (λ made. (batch : BatchTold R) → batch.tells ≡ R.tells →
            IsProgress batch (begun reply) made.0) }
        ensures memory { IfErr result (λ error. kind_of error ≡ NoMemory) }
    {
        let BulkReply {
            errors,
            counts,
            concern,
            labels,
            page,
        } = reply;
        let mut result = R::empty(alloc);
        result.populate_summary_info(
            alloc,
            counts.inserted_count,
            counts.matched_count,
            counts.modified_count,
            counts.upserted_count,
            counts.deleted_count,
        )?;
        let progress = BulkProgress {
            errors,
            concern,
            labels,
            seen: SeenResults::none(alloc, errors),
            result,
            write_errors: ByIndex::new(alloc),
        };
        Ok((progress, page))
    }

    /// What a reply comes to, and what was read of it.
    pub(crate) fn open(
        alloc: Global,
        batch: OpBatch<'_>,
        reply: BulkReply,
    ) -> Result<(BulkProgress<R>, Paged)>
        ensures pages { IfOk result (λ made.
            ReadsPage (batch_told R.tells batch.entry) (begun reply) true reply.page made.1 made.0) }
        ensures memory { IfErr result (λ error. kind_of error ≡ NoMemory) }
    {
        let (mut progress, page) = BulkProgress::of_counts(alloc, reply)?;
        let paged = progress.read(alloc, batch, true, page)?;
        Ok((progress, paged))
    }

    /// What a page comes to behind those that were read. Its results are taken where it breaks no rule.
    pub(crate) fn read(
        &mut self,
        alloc: Global,
        batch: OpBatch<'_>,
        first: bool,
        page: ResultsPage,
    ) -> Result<Paged>
        ensures pages { IfOk result (λ paged. (read : BulkRead) →
            IsProgress (batch_told R.tells batch.entry) read self.old →
            ReadsPage (batch_told R.tells batch.entry) read first page paged self.new) }
        ensures memory { IfErr result (λ error. kind_of error ≡ NoMemory) }
    {
        let found = verdict(&mut self.seen, batch, R::errors_only(), first, &page)?;
        let ResultsPage {
            cursor,
            namespace,
            results,
        } = page;
        match found {
            PageVerdict::Breaks(fault) => Ok(Paged::Breaks(fault)),
            PageVerdict::Last => {
                self.take_page(alloc, batch, results)?;
                Ok(Paged::Last)
            }
            PageVerdict::LeavesOpen => {
                self.take_page(alloc, batch, results)?;
                Ok(Paged::Open(cursor, namespace))
            }
        }
    }

    /// Takes the results of a page, which are of different ops, in the order of these: so each is put behind those
    /// that are there, in whatever order they came.
    fn take_page(
        &mut self,
        alloc: Global,
        batch: OpBatch<'_>,
        results: List<OpResult>,
    ) -> Result<()>
        requires { are_within (length batch.ops.now) results ≡ true }
        ensures takes { OnOk result (are_apart results ≡ true →
            TakesResults (batch_told R.tells batch.entry) self.old self.new results) }
        ensures memory { IfErr result (λ error. kind_of error ≡ NoMemory) }
    {
        let ordered = in_order(results)?;
        self.take_results(alloc, batch, ordered)
    }

    /// Takes results one behind the other.
    #[tactic(auto, using(crate::proofs::TakenResults::left_whole, crate::proofs::TakenResults::left_next, crate::proofs::TakenResults::left_below, crate::proofs::TakenResults::left_nothing))]
    fn take_results(
        &mut self,
        alloc: Global,
        batch: OpBatch<'_>,
        results: List<OpResult>,
    ) -> Result<()>
        requires { are_within (length batch.ops.now) results ≡ true }
        ensures takes { OnOk result
            (TakesResults (batch_told R.tells batch.entry) self.old self.new results) }
        ensures memory { IfErr result (λ error. kind_of error ≡ NoMemory) }
    {
        for told in results.into_vec() {
            self.take_result(alloc, batch, told)?;
        }
        Ok(())
    }

    /// Takes the result of an op of the batch: a write error, or what it counted.
    #[tactic(auto, using(crate::proofs::TakenResults::takes_failed, crate::proofs::TakenResults::takes_passed, crate::proofs::TakenResults::takes_counted_at))]
    fn take_result(&mut self, alloc: Global, batch: OpBatch<'_>, told: OpResult) -> Result<()>
        requires { told.index < length batch.ops.now }
        ensures takes { OnOk result
            (TakesResults (batch_told R.tells batch.entry) self.old self.new (told ∷ [])) }
        ensures memory { IfErr result (λ error. kind_of error ≡ NoMemory) }
    {
        let OpResult { index, outcome } = told;
        let own = &batch.ops[index];
        let at = batch.first + index;
        match outcome {
            OpOutcome::Failed(error) => {
                self.write_errors.insert(at, error)?;
                Ok(())
            }
            OpOutcome::Counted {
                n,
                modified,
                upserted,
            } => {
                if R::errors_only() {
                    return Ok(());
                }
                self.take_counts(alloc, at, &own.work, n, modified, upserted)
            }
        }
    }

    /// Takes what an op counted under an index of the caller's list.
    fn take_counts(
        &mut self,
        alloc: Global,
        at: usize,
        work: &OpWork,
        n: u64,
        modified: u64,
        upserted: Option<Bson>,
    ) -> Result<()>
        ensures takes { OnOk result (self.new ≡ record self.old {
          result = with_work R.tells work.now at n modified upserted self.old.result;
        }) }
        ensures memory { IfErr result (λ error. kind_of error ≡ NoMemory) }
    {
        match work {
            OpWork::Insert { id } => {
                let inserted_id = id.try_clone(alloc)?;
                self.result
                    .add_insert_result(at, InsertOneResult { inserted_id })
            }
            OpWork::Update => self.result.add_update_result(
                at,
                UpdateResult {
                    matched_count: n,
                    modified_count: modified,
                    upserted_id: upserted,
                },
            ),
            OpWork::Delete => {
                self.result
                    .add_delete_result(at, DeleteResult { deleted_count: n })
            }
        }
    }

    /// Whether nothing failed.
    fn is_clean(&self) -> bool
        ensures { result ≡ ((map.len self.now.write_errors == 0) && is_none self.now.concern) }
    {
        self.write_errors.len() == 0 && self.concern.is_none()
    }

    /// What was read comes to this, where the last page was read: the result, where nothing failed, else the error.
    pub(crate) fn end(self, alloc: Global, batch: OpBatch<'_>) -> Result<Reading<R>>
        ensures { (read : BulkRead) → IsTaken (batch_told R.tells batch.entry) read self →
            EndsOrLacks (batch_told R.tells batch.entry) read result }
    {
        let clean = self.is_clean();
        if clean {
            let BulkProgress { result, .. } = self;
            return Ok(Reading::Done(result));
        }
        Err(self.into_error(alloc, batch))
    }

    /// Whether some write succeeded: of an ordered batch where no error is of its first op, of another one where the
    /// reply counts fewer errors than there are ops.
    #[tactic(auto, using(crate::proofs::TakenResults::stands_unordered))]
    fn stands_partial(&self, batch: OpBatch<'_>) -> bool
        ensures { (read : BulkRead) → IsTaken (batch_told R.tells batch.entry) read self.now →
            result ≡ stands_partial (batch_told R.tells batch.entry) read }
    {
        if batch.ordered {
            has_none(&self.write_errors, batch.first)
        } else {
            self.errors < batch.ops.len() as u64
        }
    }

    /// The error of what was read: its failures, with the labels of the reply.
    fn into_error(self, alloc: Global, batch: OpBatch<'_>) -> Error
        ensures { (read : BulkRead) → IsTaken (batch_told R.tells batch.entry) read self →
            (kind_of result ≡ NoMemory) ⊎ IsReadError (batch_told R.tells batch.entry) read result }
    {
        let stands = self.stands_partial(batch);
        let BulkProgress {
            concern,
            labels,
            result,
            write_errors,
            ..
        } = self;
        let Ok(write_concern_errors) = concerns(alloc, concern) else {
            return Error::from_kind(ErrorKind::Memory);
        };
        let partial_result = if stands {
            Some(result.into_partial_result())
        } else {
            None
        };
        let failures = BulkWriteError {
            write_concern_errors,
            write_errors,
            partial_result,
        };
        match Boxed::new(alloc, failures) {
            Ok(failures) => Error::new(alloc, ErrorKind::BulkWrite(failures), labels.as_slice()),
            Err(_refused) => Error::from_kind(ErrorKind::Memory),
        }
    }

    /// The same error with a page that failed as its source; where that failed for want of memory, this alone.
    pub(crate) fn into_page_error(self, alloc: Global, batch: OpBatch<'_>, source: Error) -> Error
        ensures { (read : BulkRead) → IsTaken (batch_told R.tells batch.entry) read self →
            (kind_of result ≡ NoMemory) ⊎ ((kind_of source ≡ NoMemory → ⊥)
            × IsPageError (batch_told R.tells batch.entry) read source result) }
    {
        if is_memory(&source) {
            return source;
        }
        let error = self.into_error(alloc, batch);
        if is_memory(&error) {
            drop(source);
            return error;
        }
        match error.with_source(alloc, Some(source)) {
            Ok(error) => error,
            Err(_refused) => Error::from_kind(ErrorKind::Memory),
        }
    }
}

/// Whether no error is of the op at an index of the caller's list.
fn has_none(errors: &ByIndex<WriteError>, index: usize) -> bool
    ensures { result ≡ is_none (map.get errors.now index) }
{
    match errors.get(index) {
        Some(_) => false,
        None => true,
    }
}

/// Whether there was no memory.
fn is_memory(error: &Error) -> bool
    ensures { IsTrue result ↔ (kind_of error.now ≡ NoMemory) }
{
    match error.kind() {
        ErrorKind::Memory => true,
        _ => false,
    }
}

/// The write concern error as a list.
fn concerns(
    alloc: Global,
    concern: Option<WriteConcernError>,
) -> std::result::Result<List<WriteConcernError>, AllocError>
    ensures { IfOk result (λ list. list ≡ concerns concern) }
{
    let mut list = List::new(alloc);
    if let Some(concern) = concern {
        list.push(concern)?;
    }
    Ok(list)
}

/// The error of a page that does not do, with the page as its response.
pub(crate) fn odd_page(alloc: Global, text: &str, page: &Document) -> Error
    ensures { (kind_of result ≡ NoMemory) ⊎ IsOddPage page.now text.now result }
{
    match RawDocumentBuf::from_document(alloc, page) {
        Ok(bytes) => odd_reply(alloc, text).with_server_response(Some(bytes)),
        Err(EncodeFault::Memory) => Error::from_kind(ErrorKind::Memory),
        Err(_fault) => odd_reply(alloc, text),
    }
}
