//! The failure of a numbered write at a deployment that takes no transaction numbers, in words for the caller.
ghost use Rattle.std.specs.Prelude.{◌≡◌, [], IfOk, IfSome};
ghost use Rattle.driver_error.specs.Kinds.{inner_labels};
ghost use Rattle.retry_rules.specs.OldDeployment.{no_retryable_writes, refuses_numbers, reworded};
ghost use Rattle.retry_rules.specs.inside.OldDeployment.{MayReword};

use bson_lite::{Text, TryClone};
use driver_error::{CommandError, Error, ErrorKind};
use std::alloc::{AllocError, Global};

/// What the caller is told where a deployment takes no transaction numbers.
pub const NO_RETRYABLE_WRITES: &str =
    "This MongoDB deployment does not support retryable writes. Please add retryWrites=false to your connection string.";

/// How the message of such a deployment begins.
pub const NUMBERS_REFUSED: &str = "Transaction numbers";

const ILLEGAL_OPERATION: i32 = 20;

/// The same error, with the message for the caller where its deployment takes no transaction numbers.
#[tactic(auto, using(crate::proofs::Rewording::reworded_as_it_is), unfolding(crate::specs::OldDeployment::reworded))]
pub(crate) fn reworded(alloc: Global, error: Error) -> Result<Error, AllocError>
    ensures { IfOk result (λ now. now ≡ reworded error) }
{
    match reworded_kind(alloc, error.kind()) {
        Ok(None) => Ok(error),
        Ok(Some(kind)) => Ok(error.with_kind(kind)),
        Err(refused) => {
            drop(error);
            Err(refused)
        }
    }
}

/// The kind with the message for the caller, where it gets one. That one has no labels inside.
#[tactic(auto, unfolding(crate::specs::OldDeployment::reworded_kind))]
fn reworded_kind(alloc: Global, kind: &ErrorKind) -> Result<Option<ErrorKind>, AllocError>
    ensures words { IfOk result (λ now. MayReword kind.now now) }
    ensures unlabelled { IfOk result (λ now. IfSome now (λ why. inner_labels why ≡ [])) }
{
    match kind {
        ErrorKind::Command(error) => {
            if refuses_numbers(error) {
                Ok(Some(ErrorKind::Command(reword_command(alloc, error)?)))
            } else {
                Ok(None)
            }
        }
        _ => Ok(None),
    }
}

/// Whether a command was refused since its deployment takes no transaction numbers.
#[tactic(auto, unfolding(crate::specs::OldDeployment::numbers_refused))]
fn refuses_numbers(error: &CommandError) -> bool
    ensures { result ≡ refuses_numbers error.now }
{
    error.code == ILLEGAL_OPERATION
        && error
            .message
            .as_str()
            .as_bytes()
            .starts_with(NUMBERS_REFUSED.as_bytes())
}

/// The same error of a command with the message for the caller.
#[tactic(auto, unfolding(crate::specs::OldDeployment::no_retryable_writes))]
fn reword_command(alloc: Global, error: &CommandError) -> Result<CommandError, AllocError>
    ensures { IfOk result (λ now. now ≡ record error.now { message = no_retryable_writes }) }
{
    Ok(CommandError {
        code: error.code,
        code_name: error.code_name.try_clone(alloc)?,
        message: Text::from_str(alloc, NO_RETRYABLE_WRITES)?,
        base_backoff: error.base_backoff,
    })
}
