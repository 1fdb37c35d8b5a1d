//! Laws of results that are merged, and of what stands between the batches of a bulk write.
ghost use Rattle.std.specs.Prelude.{◌≡◌, ℕ, Bool, true, Ok, Option, None};
ghost use Rattle.std.specs.FinMap as finite;
ghost use Rattle.std.specs.Option.{option_or};
ghost use Rattle.bulk_outcomes.specs.declared.status.ExecutionStatus.{ExecutionStatus};
ghost use Rattle.bulk_outcomes.specs.BulkResults.{AreApart, AreCounted};
ghost use Rattle.bulk_outcomes.specs.Status.{FailsWith, HasKind, IsBulkOfKind, Stands, Succeeds, goes_on};
ghost use Rattle.driver_error.specs.declared.error.Error.{Error};
ghost use Rattle.server_answers.specs.declared.results.PartialBulkWriteResult.{PartialBulkWriteResult};
ghost use Rattle.server_answers.specs.declared.results.VerboseBulkWriteResult.{VerboseBulkWriteResult};
ghost use Rattle.driver_error.specs.declared.write.BulkWriteError.{BulkWriteError};
ghost use Rattle.driver_error.specs.BulkErrors.{AreAlike, failures_in, merged_errors, merged_partials, merged_verbose};
ghost use Rattle.driver_error.specs.Counts.{AllFit, Counts, added};
ghost use Rattle.driver_error.specs.Error.{kind_of};

use crate::bulk_result::BulkWriteResult;

/// How results are grouped as they are merged does not matter: the sums are the same, so all of them have 64
/// bits in both groupings or in none, and each index has the same result.
pub fn merging_is_associative<R: BulkWriteResult>()
    ensures { (a b c : R) → R.tells.merged (R.tells.merged a b) c ≡ R.tells.merged a (R.tells.merged b c) }
{}

/// Where no count is negative and the sums of three results have 64 bits, so have those of two of them that
/// stand side by side: then no grouping is refused for its counts.
pub fn groupings_fit_together()
    ensures { (a b c : Counts) → AreCounted a → AreCounted b → AreCounted c
        → AllFit (added (added a b) c) → AllFit (added a b) × AllFit (added b c) }
{}

/// The result of no write adds nothing, on either side.
pub fn nothing_is_neutral<R: BulkWriteResult>()
    ensures before { (a : R) → R.tells.merged R.tells.nothing a ≡ a }
    ensures after { (a : R) → R.tells.merged a R.tells.nothing ≡ a }
{}

/// How the failures of parts of a bulk write are grouped as they are merged does not matter, where the results in those that
/// stand side by side are of one kind.
#[tactic(auto, using(crate::proofs::Merging::errors_group))]
pub fn merging_failures_is_associative()
    ensures { (a b c : BulkWriteError) → AreAlike a.partial_result b.partial_result
        → AreAlike b.partial_result c.partial_result
        → merged_errors (merged_errors a b) c ≡ merged_errors a (merged_errors b c) }
{}

/// What succeeded in one of two parts stands where the other tells of nothing.
#[tactic(auto, using(crate::proofs::Merging::partial_alone))]
pub fn what_succeeded_alone_stands()
    ensures before { (partial : Option PartialBulkWriteResult) → merged_partials partial None ≡ partial }
    ensures after { (partial : Option PartialBulkWriteResult) → merged_partials None partial ≡ partial }
{}

/// Where no index has a result in both, the order of the two does not matter; counts alone come in any order.
pub fn merging_commutes()
    ensures counts { (a b : Counts) → added a b ≡ added b a }
    ensures results { (a b : VerboseBulkWriteResult) → AreApart a b
        → merged_verbose a b ≡ merged_verbose b a }
{}

/// In a merged result each index has the later one's result, and where that has none the earlier one's.
pub fn merged_by_index()
    ensures inserts { (a b : VerboseBulkWriteResult) (index : ℕ)
        → finite.get (merged_verbose a b).insert_results index
        ≡ option_or (finite.get b.insert_results index) (finite.get a.insert_results index) }
    ensures updates { (a b : VerboseBulkWriteResult) (index : ℕ)
        → finite.get (merged_verbose a b).update_results index
        ≡ option_or (finite.get b.update_results index) (finite.get a.update_results index) }
    ensures deletes { (a b : VerboseBulkWriteResult) (index : ℕ)
        → finite.get (merged_verbose a b).delete_results index
        ≡ option_or (finite.get b.delete_results index) (finite.get a.delete_results index) }
{}

/// Behind what stands where a next batch is made, what comes of it may be put into what stands.
pub fn what_is_followed_stands<R: BulkWriteResult>()
    ensures { (ordered : Bool) (before : ExecutionStatus R) → goes_on ordered before ≡ true
        → HasKind R.tells before → Stands R.tells before }
{}

/// The result in what stands keeps its variant, whether a batch more was answered Ok or failed.
pub fn what_stands_keeps_its_kind<R: BulkWriteResult>()
    ensures success { (before : ExecutionStatus R) (found : R) (now : ExecutionStatus R)
        → Stands R.tells before → Succeeds R.tells before found (Ok now) → HasKind R.tells now }
    ensures failure { (before : ExecutionStatus R) (memory : Bool) (error : Error) (now : ExecutionStatus R)
        → Stands R.tells before → IsBulkOfKind R.tells (failures_in (kind_of error))
        → FailsWith R.tells before memory error (Ok now) → HasKind R.tells now }
{}
