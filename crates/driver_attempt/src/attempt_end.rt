//! How an attempt of an operation ends, and the errors of its failures.
ghost use Rattle.std.specs.Prelude.{◌≡◌, Err};
ghost use Rattle.driver_error.specs.Error.{kind_of};
ghost use Rattle.driver_attempt.specs.declared.attempt_end.AttemptEnd.TheVariants.{Failed};
ghost use Rattle.driver_attempt.specs.Failures.{is_memory};
ghost use Rattle.driver_attempt.specs.inside.Attempting.{EndsUnbuilt};
ghost use Rattle.driver_attempt.specs.inside.Failures.{EndsLost, EndsRead, EndsForMemory, EndsUnconnected, EndsUnselected, FaultError, IsLabelledBy};

use driver_error::{Error, ErrorKind};
use driver_link::LinkError;
use driver_options::Address;
use driver_session::Retryability;
use retry_rules::{AttemptFailure, FailurePhase, add_labels};
use std::alloc::Global;

/// How an attempt ended.
pub enum AttemptEnd<T> {
    /// Its reply was read.
    Done(T),
    /// It failed, and a decision says what comes then.
    Failed(AttemptFailure),
    /// No server was selected.
    Unselected(Error),
    /// A further attempt met a connection on which nothing of the operation may be repeated.
    Stopped,
    /// The command went out before, and was refused when it was built again for another connection.
    Unfit,
    /// The operation ends at once: something was refused, or there was no memory.
    Ended(Error),
}

/// Whether there was no memory.
pub(crate) fn is_memory(error: &Error) -> bool
    ensures { result ≡ is_memory (kind_of error.now) }
{
    match error.kind() {
        ErrorKind::Memory => true,
        _ => false,
    }
}

/// The end of an operation for want of memory, whose error tells of nothing else.
fn no_memory<T>() -> AttemptEnd<T>
    ensures { EndsForMemory result }
{
    AttemptEnd::Ended(Error::from_kind(ErrorKind::Memory))
}

/// The error with the labels of the table, or want of memory.
pub(crate) fn labelled(
    alloc: Global,
    mut error: Error,
    retryability: Retryability,
) -> Result<Error, Error>
    ensures { IsLabelledBy retryability error result }
{
    match add_labels(alloc, &mut error, retryability) {
        Ok(()) => Ok(error),
        Err(_refused) => {
            drop(error);
            Err(Error::from_kind(ErrorKind::Memory))
        }
    }
}

/// The error of a link's failure with its labels, or want of memory.
pub(crate) fn fault_error(
    alloc: Global,
    failure: LinkError,
    retryability: Retryability,
) -> Result<Error, Error>
    ensures { FaultError failure retryability result }
{
    let error = Error::from(failure);
    if is_memory(&error) {
        return Err(error);
    }
    labelled(alloc, error, retryability)
}

/// A failure in a phase, at the server of an address, after a last send under a number.
fn fails_at<T>(
    error: Error,
    phase: FailurePhase,
    address: Address,
    number: Option<i64>,
) -> AttemptEnd<T>
    ensures { result ≡ Failed
        (record { error = error; phase = phase; address = address; number = number }) }
{
    AttemptEnd::Failed(AttemptFailure {
        error,
        phase,
        address,
        number,
    })
}

/// The end of an attempt that selected no server.
pub(crate) fn unselected<T>(alloc: Global, failure: LinkError) -> AttemptEnd<T>
    ensures { EndsUnselected failure result }
{
    match fault_error(alloc, failure, Retryability::None) {
        Ok(error) => AttemptEnd::Unselected(error),
        Err(error) => AttemptEnd::Ended(error),
    }
}

/// The end of an attempt that had no connection to its server, after a last send under a number.
pub(crate) fn unconnected<T>(
    alloc: Global,
    failure: LinkError,
    retryability: Retryability,
    address: Address,
    number: Option<i64>,
) -> AttemptEnd<T>
    ensures { EndsUnconnected retryability address number failure result }
{
    match fault_error(alloc, failure, retryability) {
        Ok(error) => fails_at(
            error,
            FailurePhase::ConnectionEstablishment,
            address,
            number,
        ),
        Err(error) => AttemptEnd::Ended(error),
    }
}

/// The end of an attempt whose build met this error, where the command was built before or not.
pub(crate) fn unbuilt<T>(error: Error, again: bool) -> AttemptEnd<T>
    ensures { EndsUnbuilt again error result }
{
    if is_memory(&error) {
        drop(error);
        return no_memory();
    }
    if again {
        drop(error);
        return AttemptEnd::Unfit;
    }
    AttemptEnd::Ended(error)
}

/// The end of an attempt whose exchange failed, on a connection of a wire version.
pub(crate) fn lost<T>(
    alloc: Global,
    failure: LinkError,
    connection_retryability: Retryability,
    version: Option<i32>,
    address: Address,
    number: Option<i64>,
) -> AttemptEnd<T>
    ensures { EndsLost connection_retryability version address number failure result }
{
    match fault_error(alloc, failure, connection_retryability) {
        Ok(error) => fails_at(
            error.with_wire_version(version),
            FailurePhase::Execution,
            address,
            number,
        ),
        Err(error) => AttemptEnd::Ended(error),
    }
}

/// The end of an attempt whose reply was read, on a connection of a wire version.
pub(crate) fn read<T>(
    alloc: Global,
    answer: Result<T, Error>,
    connection_retryability: Retryability,
    version: Option<i32>,
    address: Address,
    number: Option<i64>,
) -> AttemptEnd<T>
    ensures { EndsRead connection_retryability version address number answer result }
{
    match answer {
        Ok(output) => AttemptEnd::Done(output),
        Err(error) => spelled(
            alloc,
            error,
            connection_retryability,
            version,
            address,
            number,
        ),
    }
}

/// The end of an attempt whose reply spelled an error.
fn spelled<T>(
    alloc: Global,
    error: Error,
    connection_retryability: Retryability,
    version: Option<i32>,
    address: Address,
    number: Option<i64>,
) -> AttemptEnd<T>
    ensures { EndsRead connection_retryability version address number (Err error) result }
{
    if is_memory(&error) {
        drop(error);
        return no_memory();
    }
    match labelled(alloc, error, connection_retryability) {
        Ok(error) => fails_at(
            error.with_wire_version(version),
            FailurePhase::Execution,
            address,
            number,
        ),
        Err(error) => AttemptEnd::Ended(error),
    }
}
