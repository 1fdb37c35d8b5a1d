//! The law of the order of failures.
ghost use Rattle.std.specs.Prelude.{List};
ghost use Rattle.driver_error.specs.declared.write.IndexedWriteError.{IndexedWriteError};
ghost use Rattle.report_lines.specs.FailedWrites.{IsInOrder, failed_in_order};

/// The writes of an insert of many that failed stand in order of their indexes, and each of them is there.
pub fn the_failures_stand_in_order()
    ensures { (errors : List IndexedWriteError) → IsInOrder errors (failed_in_order errors) }
{}
