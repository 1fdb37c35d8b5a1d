//! Laws on cutting a list of writes into batches.
ghost use Rattle.driver_batches.specs.Batches.{LongestFrontsAreFewest};
ghost use Rattle.driver_batches.specs.Fronts.{KeepsFitting};
ghost use Rattle.driver_batches.specs.Sizes.{Fits};
ghost use Rattle.driver_batches.specs.declared.sizes.Limits.{Limits};

use crate::rule::Rule;
use crate::sizes::Limits;

/// Where what is left of a run still fits when writes go from its front, cutting longest fronts one after
/// another gives batches that fit, and no more of them than there are runs in any cut of the list into runs
/// that fit.
#[tactic(auto, using(crate::proofs::Greedy::greedy_law))]
pub fn longest_fronts_are_fewest<R: Rule>()
    ensures { (rule : R) → KeepsFitting (R.fits rule) → LongestFrontsAreFewest (R.fits rule) }
{}

/// What is left of a run within limits is within them too when writes go from its front.
pub fn sizes_keep_fitting()
    ensures { (limits : Limits) → KeepsFitting (Fits limits) }
{}

/// So cutting longest fronts, as `split` finds them, gives the fewest batches within limits.
pub fn split_gives_fewest_batches()
    ensures { (limits : Limits) → LongestFrontsAreFewest (Fits limits) }
{
    sizes_keep_fitting();
    longest_fronts_are_fewest::<Limits>();
}
