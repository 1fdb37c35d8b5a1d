//! The write concern that an operation goes out with, and why one is refused.
ghost use Rattle.std.specs.Prelude.{◌≡◌, Some};
ghost use Rattle.std.specs.Option.{option_copied};
ghost use Rattle.driver_error.specs.declared.kind.ErrorKind.TheVariants.{InvalidArgument};
ghost use Rattle.driver_error.specs.Conversions.{IsMade};
ghost use Rattle.driver_error.specs.LabelTexts.{no_labels};
ghost use Rattle.driver_attempt.specs.Concerns.{JudgesConcern, concern_of, inherited_concern, invalid_concern_text, unacknowledged_text};

use bson_lite::Text;
use driver_error::{Error, ErrorKind};
use driver_ops::{Feature, Operation, OperationTarget};
use driver_options::{ClientOptions, WriteConcern};
use std::alloc::Global;

/// What a caller is told of a concern under which no server would answer.
const UNACKNOWLEDGED: &str = "Unacknowledged write concerns are not supported";

/// What a caller is told of a concern that no server could meet.
const INVALID_CONCERN: &str = "invalid write concern";

/// The concern that an operation outside transactions goes out with: its own, else that of the collection that
/// it goes to, else the client's; none where it goes to a collection by name alone or takes no concern.
pub(crate) fn effective_concern<'a, O: Operation>(
    op: &'a O,
    options: &'a ClientOptions,
) -> Option<&'a WriteConcern>
    ensures { option_copied result ≡ concern_of (O.spec op.now) (O.next op.now) options.now }
{
    match op.write_concern() {
        Feature::Set(concern) => Some(concern),
        Feature::Inherit => inherited_concern(op.target(), &options.write_concern),
        Feature::NotSupported => None,
    }
}

/// The concern that an operation without one of its own takes.
fn inherited_concern<'a>(
    target: &'a OperationTarget,
    given: &'a Option<WriteConcern>,
) -> Option<&'a WriteConcern>
    ensures { option_copied result ≡ inherited_concern target.now given.now }
{
    match target {
        OperationTarget::Database(_) => given.as_ref(),
        OperationTarget::Collection(collection) => match &collection.write_concern {
            Some(own) => Some(own),
            None => given.as_ref(),
        },
        OperationTarget::Namespace(_) => None,
    }
}

/// Why an operation is refused for its concern, if it is.
pub fn concern_refusal<O: Operation>(
    alloc: Global,
    op: &O,
    options: &ClientOptions,
) -> Option<Error>
    ensures { JudgesConcern (concern_of (O.spec op.now) (O.next op.now) options.now) result }
{
    match effective_concern(op, options) {
        None => None,
        Some(concern) => refusal_of(alloc, concern),
    }
}

/// Why a concern is refused: nobody would acknowledge the write, or no server could meet it.
#[tactic(auto, using(crate::proofs::Concerns::refused_unacknowledged, crate::proofs::Concerns::refused_invalid, crate::proofs::Concerns::not_refused))]
fn refusal_of(alloc: Global, concern: &WriteConcern) -> Option<Error>
    ensures { JudgesConcern (Some concern.now) result }
{
    if !concern.is_acknowledged() {
        return Some(unacknowledged(alloc));
    }
    if !concern.validate() {
        return Some(invalid_concern(alloc));
    }
    None
}

/// The error of a concern under which no server would answer.
#[tactic(auto, unfolding(crate::specs::Concerns::unacknowledged_text))]
fn unacknowledged(alloc: Global) -> Error
    ensures { IsMade (InvalidArgument unacknowledged_text) no_labels result }
{
    refused(alloc, UNACKNOWLEDGED)
}

/// The error of a concern that no server could meet.
#[tactic(auto, unfolding(crate::specs::Concerns::invalid_concern_text))]
fn invalid_concern(alloc: Global) -> Error
    ensures { IsMade (InvalidArgument invalid_concern_text) no_labels result }
{
    refused(alloc, INVALID_CONCERN)
}

/// The error of an argument that is refused with this message.
fn refused(alloc: Global, text: &str) -> Error
    ensures { IsMade (InvalidArgument text.now) no_labels result }
{
    match Text::from_str(alloc, text) {
        Ok(message) => Error::from_kind(ErrorKind::InvalidArgument { message }),
        Err(_refused) => Error::from_kind(ErrorKind::Memory),
    }
}
