//! What the batches of one insert told so far, under the indexes of the caller's list.
ghost use Rattle.std.specs.Prelude.{◌≡◌, ◌+◌, ◌++◌, Err, IfErr, IfOk, Ok, OnOk, map, true};
ghost use Rattle.std.specs.FinMap as finite;
ghost use Rattle.driver_error.specs.declared.kind.ErrorKind.TheVariants.{InsertMany};
ghost use Rattle.driver_error.specs.Conversions.{IsNew};
ghost use Rattle.driver_error.specs.Error.{kind_of};
ghost use Rattle.driver_error.specs.LabelTexts.{in_order, with_labels};
ghost use Rattle.write_ops.specs.InsertAnswers.{errors_there};
ghost use Rattle.write_ops.specs.InsertSpec.{id_beside};
ghost use Rattle.many_actions.specs.Batches.{tells_documents};
ghost use Rattle.many_actions.specs.ManyAnswers.{gathered_failures, later_concern, listed_errors, moved_error, nothing_gathered, put_ids, with_failures, with_kind};
ghost use Rattle.many_actions.specs.inside.Taking.{AnswersTold, StopsWith, Takes};

use bson_lite::{Boxed, Bson, ByIndex, List, Text, TryClone};
use driver_error::{
    Error, ErrorKind, IndexedWriteError, InsertManyError, InsertManyResult, Labels, Result,
    WriteConcernError,
};
use std::alloc::{AllocError, Global};
use std::mem;

/// What batches told so far: the ids of the documents that went in and the write errors, under the indexes of the
/// caller's list, the last write concern error, all labels, and whether one of them told of a failure.
#[derive(Drop)]
pub(crate) struct Gathered {
    inserted_ids: ByIndex<Bson>,
    errors: List<IndexedWriteError>,
    concern: Option<WriteConcernError>,
    labels: Labels,
    failed: bool,
}

impl Gathered {
    /// Nothing was told before the first batch.
    pub(crate) fn nothing(alloc: Global) -> Gathered
        ensures { result ≡ nothing_gathered }
    {
        Gathered {
            inserted_ids: ByIndex::new(alloc),
            errors: List::new(alloc),
            concern: None,
            labels: Labels::none(),
            failed: false,
        }
    }

    /// Takes what a batch of so many documents came to, the first of which has this index in the caller's list. An
    /// error that tells of no documents is answered as it is. After an error nothing is promised of the rest.
    pub(crate) fn take(
        &mut self,
        alloc: Global,
        first: usize,
        count: usize,
        end: Result<InsertManyResult>,
    ) -> Result<()>
        ensures ok { OnOk result (Takes self.old self.new first count end) }
        ensures err { IfErr result (λ error. StopsWith end error) }
    {
        match end {
            Ok(output) => self.take_output(alloc, first, count, output),
            Err(error) => self.take_error(alloc, first, count, error),
        }
    }

    /// Takes the ids of a batch that went in.
    fn take_output(
        &mut self,
        alloc: Global,
        first: usize,
        count: usize,
        output: InsertManyResult,
    ) -> Result<()>
        ensures ok { OnOk result (Takes self.old self.new first count (Ok output)) }
        ensures err { IfErr result (λ error. StopsWith (Ok output) error) }
    {
        put_ids(
            alloc,
            first,
            count,
            &output.inserted_ids,
            &mut self.inserted_ids,
        )?;
        Ok(())
    }

    /// Takes an error that tells of documents, and answers any other.
    fn take_error(&mut self, alloc: Global, first: usize, count: usize, error: Error) -> Result<()>
        ensures ok { OnOk result (Takes self.old self.new first count (Err error)) }
        ensures err { IfErr result (λ why. StopsWith (Err error) why) }
    {
        if tells_documents(&error) {
            return self.take_told(alloc, first, count, error);
        }
        Err(error)
    }

    /// Takes an error that tells of documents.
    fn take_told(&mut self, alloc: Global, first: usize, count: usize, error: Error) -> Result<()>
        requires { tells_documents (kind_of error) ≡ true }
        ensures ok { OnOk result (Takes self.old self.new first count (Err error)) }
        ensures err { IfErr result (λ why. StopsWith (Err error) why) }
    {
        match self.take_kind(alloc, first, count, error.labels(), error.kind()) {
            Ok(()) => {
                drop(error);
                Ok(())
            }
            Err(_refused) => {
                drop(error);
                Err(Error::from_kind(ErrorKind::Memory))
            }
        }
    }

    /// Takes what an error tells of documents by its kind, with its labels.
    fn take_kind(
        &mut self,
        alloc: Global,
        first: usize,
        count: usize,
        labels: &Labels,
        kind: &ErrorKind,
    ) -> std::result::Result<(), AllocError>
        ensures { OnOk result (self.new ≡ with_kind self.old first count labels.now kind.now) }
    {
        match kind {
            ErrorKind::InsertMany(failures) => {
                self.take_failures(alloc, first, count, labels, failures.get())
            }
            _ => Ok(()),
        }
    }

    /// Takes the failures of a batch: its ids, its write errors, its write concern error, its labels.
    fn take_failures(
        &mut self,
        alloc: Global,
        first: usize,
        count: usize,
        labels: &Labels,
        failures: &InsertManyError,
    ) -> std::result::Result<(), AllocError>
        ensures { OnOk result
            (self.new ≡ with_failures self.old first count labels.now failures.now) }
    {
        let ids = &failures.inserted_ids;
        put_ids(alloc, first, count, ids, &mut self.inserted_ids)?;
        push_told(alloc, first, &failures.write_errors, &mut self.errors)?;
        put_concern(alloc, &failures.write_concern_error, &mut self.concern)?;
        add_set(alloc, &mut self.labels, labels)?;
        self.failed = true;
        Ok(())
    }

    /// The answer: the ids of all documents, or an error of the failures with all labels.
    pub(crate) fn answer(self, alloc: Global) -> Result<InsertManyResult>
        ensures { AnswersTold self result }
    {
        if self.failed {
            return Err(failure(alloc, self));
        }
        let Gathered { inserted_ids, .. } = self;
        Ok(InsertManyResult { inserted_ids })
    }
}

/// Whether an error is of kind InsertMany: documents failed, or a write concern was not met.
pub(crate) fn tells_documents(error: &Error) -> bool
    ensures { result ≡ tells_documents (kind_of error.now) }
{
    match error.kind() {
        ErrorKind::InsertMany(_) => true,
        _ => false,
    }
}

/// An index of a batch in the caller's list. One past the greatest number finds no memory.
fn moved_index(first: usize, index: usize) -> std::result::Result<usize, AllocError>
    ensures { IfOk result (λ moved. moved ≡ first + index) }
{
    match first.checked_add(index) {
        Some(moved) => Ok(moved),
        None => Err(AllocError),
    }
}

/// Puts copies of the ids of so many documents of a batch under the indexes of the caller's list.
fn put_ids(
    alloc: Global,
    first: usize,
    count: usize,
    ids: &ByIndex<Bson>,
    all: &mut ByIndex<Bson>,
) -> std::result::Result<(), AllocError>
    ensures { OnOk result (all.new ≡ put_ids first count ids.now all.old) }
{
    let mut at = 0;
    'puts: while at < count {
        put_id(alloc, first, at, ids, all)?;
        at += 1;
    }
    Ok(())
}

/// Puts a copy of the id of a document of a batch, where it has one.
fn put_id(
    alloc: Global,
    first: usize,
    at: usize,
    ids: &ByIndex<Bson>,
    all: &mut ByIndex<Bson>,
) -> std::result::Result<(), AllocError>
    ensures { OnOk result (all.new ≡ id_beside (first + at) (finite.get ids.now at) all.old) }
{
    match ids.get(at) {
        None => Ok(()),
        Some(id) => put_copy(alloc, first, at, id, all),
    }
}

/// Puts a copy of an id.
fn put_copy(
    alloc: Global,
    first: usize,
    at: usize,
    id: &Bson,
    all: &mut ByIndex<Bson>,
) -> std::result::Result<(), AllocError>
    ensures { OnOk result (all.new ≡ finite.insert all.old (first + at) id.now) }
{
    let index = moved_index(first, at)?;
    all.insert(index, id.try_clone(alloc)?)?;
    Ok(())
}

/// Pushes copies of the write errors of a batch, where it tells some.
fn push_told(
    alloc: Global,
    first: usize,
    told: &Option<List<IndexedWriteError>>,
    all: &mut List<IndexedWriteError>,
) -> std::result::Result<(), AllocError>
    ensures { OnOk result (all.new ≡ all.old ++ map (moved_error first) (listed_errors told.now)) }
{
    match told {
        None => Ok(()),
        Some(errors) => {
            push_errors(alloc, first, errors.as_slice(), all)?;
            Ok(())
        }
    }
}

/// Pushes copies of write errors under the indexes of the caller's list.
fn push_errors(
    alloc: Global,
    first: usize,
    errors: &[IndexedWriteError],
    all: &mut List<IndexedWriteError>,
) -> std::result::Result<(), AllocError>
    ensures { OnOk result (all.new ≡ all.old ++ map (moved_error first) errors.now) }
{
    for error in errors {
        all.push(moved_error(alloc, first, error)?)?;
    }
    Ok(())
}

/// A copy of a write error under the index of the caller's list.
fn moved_error(
    alloc: Global,
    first: usize,
    error: &IndexedWriteError,
) -> std::result::Result<IndexedWriteError, AllocError>
    ensures { IfOk result (λ moved. moved ≡ moved_error first error.now) }
{
    let index = moved_index(first, error.index)?;
    Ok(IndexedWriteError {
        index,
        code: error.code,
        code_name: error.code_name.try_clone(alloc)?,
        message: error.message.try_clone(alloc)?,
        details: error.details.try_clone(alloc)?,
    })
}

/// Puts a copy of a batch's write concern error in place of the one before, where it tells one.
fn put_concern(
    alloc: Global,
    told: &Option<WriteConcernError>,
    concern: &mut Option<WriteConcernError>,
) -> std::result::Result<(), AllocError>
    ensures { OnOk result (concern.new ≡ later_concern concern.old told.now) }
{
    match told {
        None => Ok(()),
        Some(error) => {
            let copy = error.try_clone(alloc)?;
            drop(mem::replace(concern, Some(copy)));
            Ok(())
        }
    }
}

/// Adds the labels of a set to another.
fn add_set(alloc: Global, all: &mut Labels, labels: &Labels) -> std::result::Result<(), AllocError>
    ensures { OnOk result (all.new ≡ with_labels all.old (in_order labels.now)) }
{
    let texts = labels.sorted(alloc)?;
    add_all(alloc, all, texts.as_slice())?;
    Ok(())
}

/// Adds labels to a set.
#[tactic(auto, unfolding(driver_error::specs::LabelTexts::with_labels))]
fn add_all(alloc: Global, all: &mut Labels, labels: &[Text]) -> std::result::Result<(), AllocError>
    ensures { OnOk result (all.new ≡ with_labels all.old labels.now) }
{
    for label in labels {
        all.add(alloc, label.as_str())?;
    }
    Ok(())
}

/// The error of all failures that were told.
fn failure(alloc: Global, told: Gathered) -> Error
    ensures { IsNew (InsertMany (gathered_failures told)) (in_order told.labels) result }
{
    let Gathered {
        inserted_ids,
        errors,
        concern,
        labels,
        ..
    } = told;
    let failures = InsertManyError {
        write_errors: errors_there(errors),
        write_concern_error: concern,
        inserted_ids,
    };
    match Boxed::new(alloc, failures) {
        Ok(failures) => labelled(alloc, ErrorKind::InsertMany(failures), &labels),
        Err(_refused) => Error::from_kind(ErrorKind::Memory),
    }
}

/// The write errors, where there are some.
fn errors_there(errors: List<IndexedWriteError>) -> Option<List<IndexedWriteError>>
    ensures { result ≡ errors_there errors }
{
    if errors.is_empty() {
        None
    } else {
        Some(errors)
    }
}

/// An error of a kind with these labels, and those of a write concern error inside, which the errors of the batches
/// have already.
fn labelled(alloc: Global, kind: ErrorKind, labels: &Labels) -> Error
    ensures { IsNew kind (in_order labels.now) result }
{
    match labels.sorted(alloc) {
        Ok(texts) => Error::new(alloc, kind, texts.as_slice()),
        Err(_refused) => {
            drop(kind);
            Error::from_kind(ErrorKind::Memory)
        }
    }
}
