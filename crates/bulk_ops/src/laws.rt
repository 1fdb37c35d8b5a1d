//! Laws of the bulk write: its fronts, its namespaces, its ops in bytes, and the pages of its answer.
ghost use Rattle.std.specs.Prelude.{ℕ, ◌+◌, ◌<◌, ◌≤◌, ℤ, List, Ok, length};
ghost use Rattle.bson_lite.specs.declared.namespace.Namespace.{Namespace};
ghost use Rattle.bson_lite.specs.Spelling.{Spells};
ghost use Rattle.driver_options.specs.declared.models.WriteModel.{WriteModel};
ghost use Rattle.driver_batches.specs.Batches.{LongestFrontsAreFewest};
ghost use Rattle.driver_batches.specs.Fronts.{KeepsFitting};
ghost use Rattle.driver_batches.specs.declared.sizes.Limits.{Limits};
ghost use Rattle.driver_ops.specs.declared.operation.Reading.TheVariants.{Page as Further};
ghost use Rattle.driver_ops.specs.Operations.{Page};
ghost use Rattle.bulk_ops.specs.BulkAnswers.{AnswersBulk, BulkBatch};
ghost use Rattle.bulk_fronts.specs.BulkFronts.{FitsOps};
ghost use Rattle.bulk_fronts.specs.BulkOps.{numbered, op_document};
ghost use Rattle.bulk_fronts.specs.Distinct.{KeepsFirstUses};

use bulk_fronts::SizedOp;
use driver_batches::laws::longest_fronts_are_fewest;
use driver_batches::{Limits, Rule};

/// Limits as a rule on runs of ops.
pub struct OpLimits {
    pub limits: Limits,
}

impl Rule for OpLimits {
    type Write = SizedOp;

    ghost fits = { λ rule run. FitsOps rule.limits run };
}

/// What is left of a run of ops within limits is within them too when ops go from its front.
pub fn ops_keep_fitting()
    ensures { (limits : Limits) → KeepsFitting (FitsOps limits) }
{}

/// So cutting longest fronts of ops, as a bulk write builds them, gives the fewest batches within limits.
pub fn op_fronts_are_fewest()
    ensures { (limits : Limits) → LongestFrontsAreFewest (FitsOps limits) }
{
    ops_keep_fitting();
    longest_fronts_are_fewest::<OpLimits>();
}

/// Namespaces in the order of their first use, as a bulk write describes them: none stands twice, they are those that
/// were used and no others, and whatever is used later comes behind them, so that their numbers stay.
pub fn each_namespace_is_described_once()
    ensures { (front rest : List (List ℕ)) → KeepsFirstUses front rest }
{}

/// An op in bytes with a number of 31 bits in its place, as a bulk write sends it, spells the op of the same model on
/// the namespace of that number.
pub fn an_op_is_sent_on_its_namespace()
    ensures { (number : ℕ) (model : WriteModel) (bytes : List ℕ) → number < 2147483648
        → Spells (op_document 0 model) bytes → Spells (op_document number model) (numbered number bytes) }
{}

/// The pages of the answer to a bulk write behind which there is another one are at most one more than its ops: each
/// but the first has a result, and no op has two.
pub fn a_bulk_write_has_no_more_pages_than_ops<R>()
    ensures { (batch : BulkBatch R) (pages : List Page) (cursor : ℤ) (namespace : Namespace) →
        AnswersBulk batch pages (Ok (Further cursor namespace)) → length pages ≤ length batch.ops + 1 }
{}
