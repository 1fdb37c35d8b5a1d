//! The labels that a failure of an operation gains.
ghost use Rattle.std.specs.Prelude.{◌≡◌, OnOk, OnErr};
ghost use Rattle.driver_error.specs.Error.{labels_of, KeepsAllButLabels};
ghost use Rattle.retry_rules.specs.LabelTable.{labels_outside_transactions};

use driver_error::{Error, RETRYABLE_WRITE_ERROR};
use driver_session::Retryability;
use std::alloc::{AllocError, Global};

/// Adds the labels that a failure gains outside transactions: a failure of the network says that the write
/// may be tried again, where the operation is a write that may. A refusal changes nothing.
pub fn add_labels(
    alloc: Global,
    error: &mut Error,
    retryability: Retryability,
) -> Result<(), AllocError>
    ensures ok { OnOk result (labels_of error.new ≡ labels_outside_transactions retryability error.old) }
    ensures rest { KeepsAllButLabels error.old error.new }
    ensures err { OnErr result (labels_of error.new ≡ labels_of error.old) }
{
    match retryability {
        Retryability::Write if error.should_add_retryable_write_label() => {
            error.add_label(alloc, RETRYABLE_WRITE_ERROR)
        }
        _ => Ok(()),
    }
}
