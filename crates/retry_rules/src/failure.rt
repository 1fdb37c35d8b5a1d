//! The failures of an operation's attempts: which may be followed by another attempt, and which of two is kept.
ghost use Rattle.std.specs.Prelude.{◌≡◌, IfOk};
ghost use Rattle.driver_options.specs.declared.options.Address.{Address as Server};
ghost use Rattle.retry_rules.specs.OldDeployment.{reworded};
ghost use Rattle.retry_rules.specs.Retry.{failure_kept, indicates_writes_performed, may_be_retried, may_be_sent, stays, tells_writes_performed};
ghost use Rattle.retry_rules.specs.inside.Retry.{failure_at};

use crate::old_deployment::reworded;
use driver_error::{Error, NO_WRITES_PERFORMED, RETRYABLE_WRITE_ERROR};
use driver_options::Address;
use driver_session::Retryability;
use std::alloc::{AllocError, Global};

/// When an attempt failed.
#[derive(Clone, Copy, Debug, PartialEq, Eq)]
pub enum FailurePhase {
    /// Before there was a connection.
    ConnectionEstablishment,
    /// While the command ran on a connection.
    Execution,
}

/// An error that ended an attempt, with its phase.
#[derive(Drop)]
pub struct Failure {
    pub error: Error,
    pub phase: FailurePhase,
}

/// A failure of an attempt: its error, when it came, the address of its server, and the number of the last
/// send before it, where that had one.
#[derive(Drop)]
pub struct AttemptFailure {
    pub error: Error,
    pub phase: FailurePhase,
    pub address: Address,
    pub number: Option<i64>,
}

/// The failure in words for the caller.
pub(crate) fn reworded_failure(
    alloc: Global,
    failure: Failure,
) -> std::result::Result<Failure, AllocError>
    ensures { IfOk result (λ now. now ≡ record failure { error = reworded failure.error }) }
{
    let Failure { error, phase } = failure;
    Ok(Failure {
        error: reworded(alloc, error)?,
        phase,
    })
}

/// Whether the operation may be tried again after this failure.
#[tactic(auto, unfolding(crate::specs::Retry::may_be_retried))]
pub(crate) fn may_be_retried(
    failure: &Failure,
    number: Option<i64>,
    retryability: Retryability,
) -> bool
    ensures { (address : Server) →
        result ≡ may_be_retried (failure_at failure.now number address) retryability }
{
    match retryability {
        Retryability::Write => {
            failure.error.has_own_label(RETRYABLE_WRITE_ERROR) && may_be_sent(failure.phase, number)
        }
        _ => false,
    }
}

/// Whether a write that failed in this phase may be sent.
fn may_be_sent(phase: FailurePhase, number: Option<i64>) -> bool
    ensures { result ≡ may_be_sent phase number }
{
    match phase {
        FailurePhase::ConnectionEstablishment => true,
        FailurePhase::Execution => number.is_some(),
    }
}

/// Whether a failure tells that writes may have been performed.
#[tactic(auto, unfolding(crate::specs::Retry::indicates_writes_performed))]
fn indicates_writes_performed(failure: &Failure) -> bool
    ensures { result ≡ indicates_writes_performed failure.now }
{
    match failure.phase {
        FailurePhase::ConnectionEstablishment => false,
        FailurePhase::Execution => tells_writes_performed(&failure.error),
    }
}

/// Whether an error tells so.
#[tactic(auto, unfolding(crate::specs::Retry::tells_writes_performed))]
fn tells_writes_performed(error: &Error) -> bool
    ensures { result ≡ tells_writes_performed error.now }
{
    !error.contains_label(NO_WRITES_PERFORMED)
        && (error.is_server_error() || error.is_read_retryable() || error.is_write_retryable())
}

/// Whether the kept failure stays beside a new one.
#[tactic(auto, unfolding(crate::specs::Retry::stays))]
fn stays(kept: &Failure, new: &Failure) -> bool
    ensures { result ≡ stays kept.now new.now }
{
    indicates_writes_performed(kept) && !indicates_writes_performed(new)
}

/// Of the kept failure and a new one that which is kept.
pub(crate) fn failure_kept(kept: Failure, new: Failure) -> Failure
    ensures { result ≡ failure_kept kept new }
{
    if stays(&kept, &new) {
        drop(new);
        return kept;
    }
    drop(kept);
    new
}
