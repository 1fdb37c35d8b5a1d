//! The five counts of the result of a bulk write, added up.
ghost use Rattle.std.specs.Prelude.{◌≡◌, SomeIff, IfOk, IfErr, OnOk};
ghost use Rattle.driver_error.specs.declared.kind.ErrorKind.TheVariants.{InvalidResponse};
ghost use Rattle.driver_error.specs.Conversions.{IsMade};
ghost use Rattle.driver_error.specs.Counts.{AllFit, LeavesRange, added, out_of_range_text};
ghost use Rattle.driver_error.specs.LabelTexts.{no_labels};

use crate::error::{Error, Result};
use crate::kind::ErrorKind;
use bson_lite::Text;
use server_answers::SummaryBulkWriteResult;
use std::alloc::Global;

/// A sum of counts has more than 64 bits.
const OUT_OF_RANGE: &str = "a sum of counts is out of the range of a 64-bit number";

/// Each count with the other's, where all five sums have 64 bits.
fn sums(
    counts: SummaryBulkWriteResult,
    more: SummaryBulkWriteResult,
) -> Option<SummaryBulkWriteResult>
    ensures { SomeIff result (AllFit (added counts more)) (added counts more) }
{
    Some(SummaryBulkWriteResult {
        inserted_count: counts.inserted_count.checked_add(more.inserted_count)?,
        matched_count: counts.matched_count.checked_add(more.matched_count)?,
        modified_count: counts.modified_count.checked_add(more.modified_count)?,
        upserted_count: counts.upserted_count.checked_add(more.upserted_count)?,
        deleted_count: counts.deleted_count.checked_add(more.deleted_count)?,
    })
}

/// The error of a sum that has not.
#[tactic(auto, unfolding(crate::specs::Counts::out_of_range_text))]
fn out_of_range(alloc: Global) -> Error
    ensures { IsMade (InvalidResponse out_of_range_text) no_labels result }
{
    match Text::from_str(alloc, OUT_OF_RANGE) {
        Ok(message) => Error::from_kind(ErrorKind::InvalidResponse { message }),
        Err(_refused) => Error::from_kind(ErrorKind::Memory),
    }
}

/// Each count with the other's. It is refused exactly where a sum has more than 64 bits.
pub fn added_counts(
    alloc: Global,
    counts: SummaryBulkWriteResult,
    more: SummaryBulkWriteResult,
) -> Result<SummaryBulkWriteResult>
    ensures sums { IfOk result (λ sums. sums ≡ added counts more) }
    ensures fit { OnOk result (AllFit (added counts more)) }
    ensures why { IfErr result (λ error. LeavesRange (added counts more) error) }
{
    match sums(counts, more) {
        Some(sums) => Ok(sums),
        None => Err(out_of_range(alloc)),
    }
}
