//! Laws of what stands between the batches of a bulk write, and of how many there are.
ghost use Rattle.std.specs.Prelude.{◌≡◌, Bool, true, List, length, Result, Ok};
ghost use Rattle.driver_error.specs.declared.error.Error.{Error};
ghost use Rattle.bulk_outcomes.specs.declared.status.ExecutionStatus.{ExecutionStatus};
ghost use Rattle.bulk_outcomes.specs.Status.{goes_on};
ghost use Rattle.driver_batches.specs.declared.sizes.Limits.{Limits};
ghost use Rattle.driver_batches.specs.Batches.{IsFewest};
ghost use Rattle.bulk_fronts.specs.declared.own_op.SizedOp.{SizedOp};
ghost use Rattle.bulk_fronts.specs.BulkFronts.{FitsOps};
ghost use Rattle.bulk_actions.specs.BulkBatches.{Takes, end_goes_on};
ghost use Rattle.bulk_actions.specs.BulkNumbers.{op_runs};

use bulk_outcomes::BulkWriteResult;

/// Where a next batch is made, what stands behind it lets another one be made exactly where its own end does.
pub fn the_last_end_decides<T: BulkWriteResult>()
    ensures { (ordered : Bool) (before : ExecutionStatus T) (came : Result T Error) (now : ExecutionStatus T)
        → goes_on ordered before ≡ true → Takes T.tells before came (Ok now)
        → goes_on ordered now ≡ end_goes_on ordered came }
{}

/// Into how many runs ops are cut by limits, each as long as it may be, is how many runs the fewest cut has.
pub fn no_cut_has_fewer_runs()
    ensures { (limits : Limits) (ops : List SizedOp) (runs : List (List SizedOp)) →
        IsFewest (FitsOps limits) ops runs → op_runs limits ops ≡ length runs }
{}
