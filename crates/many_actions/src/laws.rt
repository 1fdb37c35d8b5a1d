//! Laws: of what the batches of an insert tell together, and of how many there are.
ghost use Rattle.std.specs.Prelude.{◌≡◌, ◌≤◌, ℕ, List, length, take, Ok, Result, Some};
ghost use Rattle.std.specs.FinMap as finite;
ghost use Rattle.bson_lite.specs.declared.bson.Bson.{Bson};
ghost use Rattle.bson_lite.specs.declared.document.Pair.{Pair};
ghost use Rattle.driver_error.specs.declared.error.Error.{Error};
ghost use Rattle.server_answers.specs.declared.results.InsertManyResult.{InsertManyResult};
ghost use Rattle.driver_error.specs.LabelTexts.{has_label};
ghost use Rattle.driver_options.specs.declared.write_options.InsertManyOptions.{InsertManyOptions};
ghost use Rattle.driver_batches.specs.declared.sizes.Limits.{Limits};
ghost use Rattle.driver_batches.specs.Batches.{IsPartition};
ghost use Rattle.driver_batches.specs.Sizes.{Fits};
ghost use Rattle.driver_link.specs.Settled.{Has};
ghost use Rattle.driver_ops.specs.declared.target.OperationTarget.{OperationTarget};
ghost use Rattle.write_ops.specs.declared.own_document.OwnDocument.{OwnDocument};
ghost use Rattle.write_ops.specs.InsertAnswers.{all_ids};
ghost use Rattle.driver_attempt.specs.Moment.{Moment};
ghost use Rattle.many_actions.specs.BatchTells.{AllOk, AllWentIn, AreInOrder, TellsId, all_errors, last_concern, some_failed, some_labelled};
ghost use Rattle.many_actions.specs.Batches.{BatchEnd, MakesBatch, MakesBatches};
ghost use Rattle.many_actions.specs.ManyAnswers.{gathered, nothing_gathered};
ghost use Rattle.many_actions.specs.ManyCalls.{MadeMany, RanShort};
ghost use Rattle.many_actions.specs.Numbers.{runs_of};

/// Where batches one after another all went in, from the first document to the last, the ids that are gathered are
/// those of all documents, by the indexes of the caller's list.
pub fn all_ids_are_gathered()
    ensures { (own : List OwnDocument) (ends : List BatchEnd) → AllWentIn 0 own ends →
        (gathered nothing_gathered ends).inserted_ids ≡ (all_ids own).inserted_ids }
{}

/// A batch of so many documents that is Ok, whatever comes behind it, is answered with the ids of its own documents.
pub fn a_batch_that_is_ok_answers_its_ids()
    ensures { (target : OperationTarget) (options : InsertManyOptions) (call index : ℕ)
        (own : List OwnDocument) (before now : Moment) (end : BatchEnd) →
        MakesBatch target options call index own before now end →
        (statements : ℕ) → end.statements ≡ Some statements →
        (output : InsertManyResult) → end.result ≡ Ok output → output ≡ all_ids (take statements own) }
{}

/// Batches as a call makes them, where memory did not run out between them and each is Ok, all went in, each with the
/// ids of its own documents.
pub fn batches_that_are_ok_went_in()
    ensures { (target : OperationTarget) (options : InsertManyOptions) (call : ℕ) (ends : List BatchEnd)
        (index : ℕ) (own : List OwnDocument) (before now : Moment) →
        MakesBatches ⊥ target options call index own ends before now → AllOk ends →
        AllWentIn index own ends }
{}

/// So an insert that is answered Ok answers the ids of all its documents, by the indexes of the caller's list.
pub fn an_ok_answers_all_ids()
    ensures { (before now : Moment) (target : OperationTarget) (documents : List (List (Pair Bson)))
        (options : InsertManyOptions) (call : ℕ) (output : InsertManyResult)
        (made : MadeMany before now target documents options call (Ok output)) →
        output ≡ all_ids made.own }
{}

/// An id that is gathered under an index is told by one of the ends, for one of its own documents: the one that has
/// this index in the caller's list.
pub fn a_gathered_id_is_of_a_batch()
    ensures { (ends : List BatchEnd) (index : ℕ) (id : Bson) →
        finite.get (gathered nothing_gathered ends).inserted_ids index ≡ Some id →
        (end : BatchEnd) × (Has ends end × TellsId index id end) }
{}

/// And where ends lie one behind another, each id that one of them tells for one of its own documents is gathered
/// under the index that this document has in the caller's list, also where other documents of its batch failed.
pub fn an_id_of_a_batch_is_gathered()
    ensures { (ends : List BatchEnd) (end : BatchEnd) (index : ℕ) (id : Bson) → AreInOrder 0 ends →
        Has ends end → TellsId index id end →
        finite.get (gathered nothing_gathered ends).inserted_ids index ≡ Some id }
{}

/// Batches as a call makes them lie one behind another, also where memory ran out between them.
pub fn batches_of_a_call_are_in_order()
    ensures { (target : OperationTarget) (options : InsertManyOptions) (call : ℕ) (ends : List BatchEnd)
        (index : ℕ) (own : List OwnDocument) (before now : Moment) (result : Result InsertManyResult Error) →
        MakesBatches (RanShort result) target options call index own ends before now →
        AreInOrder index ends }
{}

/// The write errors that are gathered are those of all ends, in their order, each under the index of the caller's
/// list.
pub fn all_write_errors_are_gathered()
    ensures { (ends : List BatchEnd) → (gathered nothing_gathered ends).errors ≡ all_errors ends }
{}

/// The write concern error that is gathered is that of the last end that tells one, and none where none does.
pub fn the_last_concern_error_is_gathered()
    ensures { (ends : List BatchEnd) → (gathered nothing_gathered ends).concern ≡ last_concern ends }
{}

/// A label is gathered exactly where one of the ends that are an error of kind InsertMany has it.
pub fn all_labels_are_gathered()
    ensures { (ends : List BatchEnd) (label : List ℕ) →
        has_label (gathered nothing_gathered ends).labels label ≡ some_labelled label ends }
{}

/// A failure is gathered exactly where one of the ends is an error of kind InsertMany.
pub fn a_failure_is_gathered_where_one_is_told()
    ensures { (ends : List BatchEnd) → (gathered nothing_gathered ends).failed ≡ some_failed ends }
{}

/// No cut of documents into runs that keep to the limits has fewer runs than an insert of them is counted for.
pub fn no_cut_has_fewer_runs()
    ensures { (limits : Limits) (sizes : List ℕ) (runs : List (List ℕ)) →
        IsPartition (Fits limits) sizes runs → runs_of limits sizes ≤ length runs }
{}
