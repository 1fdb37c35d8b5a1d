//! What the two kinds of results of a bulk write have in common.
ghost use Rattle.std.specs.Prelude.{◌≡◌, IfErr, OnErr, OnOk};
ghost use Rattle.bulk_outcomes.specs.BulkResults.{AddsCounts, KeepsApart, MergesResults, ResultSpec};
ghost use Rattle.bulk_outcomes.specs.PartialResults.{MakesPartial};
ghost use Rattle.driver_error.specs.declared.kind.ErrorKind.TheVariants.{Memory as NoMemory};
ghost use Rattle.driver_error.specs.Counts.{AllFit, LeavesRange, RefusesMerge, added, five};
ghost use Rattle.driver_error.specs.Error.{IsAlone};
ghost use Rattle.driver_error.specs.LabelTexts.{no_labels};

use bson_lite::{ByIndex, unite_three};
use driver_error::counts::added_counts;
use driver_error::{
    DeleteResult, InsertOneResult, PartialBulkWriteResult, Result, SummaryBulkWriteResult,
    UpdateResult, VerboseBulkWriteResult,
};
use std::alloc::Global;

/// The result of a bulk write: its counts alone, or the result of each write too.
pub trait BulkWriteResult: Drop {
    // What results of this kind are made of.
    ghost tells: { ResultSpec Self };

    /// The result of no write. It takes no memory.
    fn empty(alloc: Global) -> Self
        ensures { result ≡ tells.nothing };

    /// Whether the server need tell nothing but counts and errors.
    fn errors_only() -> bool
        ensures { result ≡ tells.only_errors };

    /// The result as that of a bulk write that failed. It takes no memory.
    fn into_partial_result(self) -> PartialBulkWriteResult
        ensures { result ≡ tells.partial self };

    /// Adds the counts of a reply. It is refused exactly where a sum has more than 64 bits, and then changes nothing.
    fn populate_summary_info(
        &mut self,
        alloc: Global,
        n_inserted: i64,
        n_matched: i64,
        n_modified: i64,
        n_upserted: i64,
        n_deleted: i64,
    ) -> Result<()>
        ensures ok { OnOk result (self.new
            ≡ tells.counted self.old (five n_inserted n_matched n_modified n_upserted n_deleted)) }
        ensures fit { OnOk result (AllFit
            (added (tells.counts self.old) (five n_inserted n_matched n_modified n_upserted n_deleted))) }
        ensures err { OnErr result (self.new ≡ self.old) }
        ensures why { IfErr result (λ error. LeavesRange
            (added (tells.counts self.old) (five n_inserted n_matched n_modified n_upserted n_deleted))
            error) };

    /// Keeps the result of an insert. It answers want of memory alone, and then changes nothing.
    fn add_insert_result(&mut self, index: usize, value: InsertOneResult) -> Result<()>
        ensures ok { OnOk result (self.new ≡ tells.with_insert self.old index value) }
        ensures err { OnErr result (self.new ≡ self.old) }
        ensures why { IfErr result (λ error. IsAlone NoMemory no_labels error) };

    /// Keeps the result of an update. It answers want of memory alone, and then changes nothing.
    fn add_update_result(&mut self, index: usize, value: UpdateResult) -> Result<()>
        ensures ok { OnOk result (self.new ≡ tells.with_update self.old index value) }
        ensures err { OnErr result (self.new ≡ self.old) }
        ensures why { IfErr result (λ error. IsAlone NoMemory no_labels error) };

    /// Keeps the result of a delete. It answers want of memory alone, and then changes nothing.
    fn add_delete_result(&mut self, index: usize, value: DeleteResult) -> Result<()>
        ensures ok { OnOk result (self.new ≡ tells.with_delete self.old index value) }
        ensures err { OnErr result (self.new ≡ self.old) }
        ensures why { IfErr result (λ error. IsAlone NoMemory no_labels error) };

    /// Takes over what a later part of the bulk write answered: its counts are added, and its results stand
    /// at their indexes, in place of those there. Refused, it changes nothing.
    fn merge(&mut self, alloc: Global, other: Self) -> Result<()>
        ensures ok { OnOk result (self.new ≡ tells.merged self.old other) }
        ensures fit { OnOk result (AllFit (added (tells.counts self.old) (tells.counts other))) }
        ensures err { OnErr result (self.new ≡ self.old) }
        ensures why { IfErr result (λ error. RefusesMerge
            (added (tells.counts self.old) (tells.counts other)) error) };

    // The result of no write counts nothing, and counts that are added join those that are there.
    ghost adds: { AddsCounts tells };

    // Results of different writes are kept in any order.
    ghost apart: { KeepsApart tells };

    // How results are grouped as they are merged does not matter, and that of no write adds nothing.
    ghost merges: { MergesResults tells };

    // What joins a result joins it as that of a bulk write that failed.
    ghost makes_partial: { MakesPartial tells };
}

impl BulkWriteResult for SummaryBulkWriteResult {
    ghost use Rattle.std.specs.Prelude.{refl};
    ghost use Rattle.bulk_outcomes.specs.BulkResults.{summary_spec};
    ghost use Rattle.bulk_outcomes.specs.lawful.Apart.{summary_apart};
    ghost use Rattle.bulk_outcomes.specs.lawful.Merging.{summary_merges};

    ghost tells = { summary_spec };

    ghost adds = { record { begins = refl; adds = λ now more. refl } };

    ghost apart = { summary_apart };

    ghost merges = { summary_merges };

    ghost makes_partial = { record {
      begins = refl;
      counted = λ now more. refl;
      inserted = λ now index value. refl;
      updated = λ now index value. refl;
      deleted = λ now index value. refl;
    } };

    fn empty(_alloc: Global) -> SummaryBulkWriteResult {
        SummaryBulkWriteResult {
            inserted_count: 0,
            matched_count: 0,
            modified_count: 0,
            upserted_count: 0,
            deleted_count: 0,
        }
    }

    fn errors_only() -> bool {
        true
    }

    fn into_partial_result(self) -> PartialBulkWriteResult {
        PartialBulkWriteResult::Summary(self)
    }

    fn populate_summary_info(
        &mut self,
        alloc: Global,
        n_inserted: i64,
        n_matched: i64,
        n_modified: i64,
        n_upserted: i64,
        n_deleted: i64,
    ) -> Result<()> {
        let more = SummaryBulkWriteResult {
            inserted_count: n_inserted,
            matched_count: n_matched,
            modified_count: n_modified,
            upserted_count: n_upserted,
            deleted_count: n_deleted,
        };
        *self = added_counts(alloc, *self, more)?;
        Ok(())
    }

    fn add_insert_result(&mut self, _index: usize, _value: InsertOneResult) -> Result<()> {
        Ok(())
    }

    fn add_update_result(&mut self, _index: usize, _value: UpdateResult) -> Result<()> {
        Ok(())
    }

    fn add_delete_result(&mut self, _index: usize, _value: DeleteResult) -> Result<()> {
        Ok(())
    }

    fn merge(&mut self, alloc: Global, other: SummaryBulkWriteResult) -> Result<()>
        // These stand in place of the trait's: memory is wanted for the words of a refusal alone.
        ensures ok { OnOk result (self.new ≡ added self.old other) }
        ensures fit { OnOk result (AllFit (added self.old other)) }
        ensures err { OnErr result (self.new ≡ self.old) }
        ensures why { IfErr result (λ error. LeavesRange (added self.old other) error) }
    {
        *self = added_counts(alloc, *self, other)?;
        Ok(())
    }
}

impl BulkWriteResult for VerboseBulkWriteResult {
    ghost use Rattle.std.specs.Prelude.{refl};
    ghost use Rattle.bulk_outcomes.specs.BulkResults.{verbose_spec};
    ghost use Rattle.bulk_outcomes.specs.lawful.Apart.{verbose_apart};
    ghost use Rattle.bulk_outcomes.specs.lawful.Merging.{verbose_merges};

    ghost tells = { verbose_spec };

    ghost adds = { record { begins = refl; adds = λ now more. refl } };

    ghost apart = { verbose_apart };

    ghost merges = { verbose_merges };

    ghost makes_partial = { record {
      begins = refl;
      counted = λ now more. refl;
      inserted = λ now index value. refl;
      updated = λ now index value. refl;
      deleted = λ now index value. refl;
    } };

    fn empty(alloc: Global) -> VerboseBulkWriteResult {
        VerboseBulkWriteResult {
            summary: SummaryBulkWriteResult::empty(alloc),
            insert_results: ByIndex::new(alloc),
            update_results: ByIndex::new(alloc),
            delete_results: ByIndex::new(alloc),
        }
    }

    fn errors_only() -> bool {
        false
    }

    fn into_partial_result(self) -> PartialBulkWriteResult {
        PartialBulkWriteResult::Verbose(self)
    }

    fn populate_summary_info(
        &mut self,
        alloc: Global,
        n_inserted: i64,
        n_matched: i64,
        n_modified: i64,
        n_upserted: i64,
        n_deleted: i64,
    ) -> Result<()> {
        self.summary.populate_summary_info(
            alloc, n_inserted, n_matched, n_modified, n_upserted, n_deleted,
        )
    }

    fn add_insert_result(&mut self, index: usize, value: InsertOneResult) -> Result<()> {
        self.insert_results.insert(index, value)?;
        Ok(())
    }

    fn add_update_result(&mut self, index: usize, value: UpdateResult) -> Result<()> {
        self.update_results.insert(index, value)?;
        Ok(())
    }

    fn add_delete_result(&mut self, index: usize, value: DeleteResult) -> Result<()> {
        self.delete_results.insert(index, value)?;
        Ok(())
    }

    fn merge(&mut self, alloc: Global, other: VerboseBulkWriteResult) -> Result<()> {
        let VerboseBulkWriteResult {
            summary,
            insert_results,
            update_results,
            delete_results,
        } = other;
        let sums = added_counts(alloc, self.summary, summary)?;
        unite_three(
            &mut self.insert_results,
            insert_results,
            &mut self.update_results,
            update_results,
            &mut self.delete_results,
            delete_results,
        )?;
        self.summary = sums;
        Ok(())
    }
}
