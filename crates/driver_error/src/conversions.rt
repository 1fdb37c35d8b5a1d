//! What becomes an error, and what errors become.
ghost use Rattle.std.specs.Prelude.{◌≡◌, [], IfNone};
ghost use Rattle.driver_error.specs.declared.kind.ErrorKind.TheVariants.{InvalidResponse};
ghost use Rattle.driver_error.specs.Conversions.{IsMade, Converts, IsSingle, single_failure, first_failure, no_failure_text};
ghost use Rattle.driver_error.specs.Kinds.{inner_labels};
ghost use Rattle.driver_error.specs.LabelTexts.{no_labels};

use crate::error::{Error, Parts, concern_error_of};
use crate::kind::{ErrorKind, IoKind};
use crate::labels::Labels;
use crate::write::{IndexedWriteError, InsertManyError, WriteConcernError, WriteFailure};
use bson_lite::{Boxed, EncodeFault, List, Text};
use server_answers::CommandErrorBody;
use std::alloc::{AllocError, Global};

const NO_FAILURE: &str = "error missing write errors and write concern errors";

impl From<IoKind> for Error {
    ghost use Rattle.driver_error.specs.Error.{IsAlone};
    ghost use Rattle.driver_error.specs.LabelTexts.{no_labels};
    ghost use Rattle.driver_error.specs.declared.kind.ErrorKind.TheVariants.{Io};

    ghost from_gives = { λ kind error. IsAlone (Io kind) no_labels error };

    fn from(kind: IoKind) -> Error {
        Error::from_kind(ErrorKind::Io(kind))
    }
}

impl From<EncodeFault> for Error {
    ghost use Rattle.driver_error.specs.Error.{IsAlone, kind_of_fault};
    ghost use Rattle.driver_error.specs.LabelTexts.{no_labels};

    ghost from_gives = { λ fault error. IsAlone (kind_of_fault fault) no_labels error };

    fn from(fault: EncodeFault) -> Error {
        match fault {
            EncodeFault::Memory => Error::from_kind(ErrorKind::Memory),
            refused => Error::from_kind(ErrorKind::BsonSerialization(refused)),
        }
    }
}

impl From<AllocError> for Error {
    ghost use Rattle.driver_error.specs.Error.{IsAlone};
    ghost use Rattle.driver_error.specs.LabelTexts.{no_labels};
    ghost use Rattle.driver_error.specs.declared.kind.ErrorKind.TheVariants.{Memory};

    ghost from_gives = { λ _ error. IsAlone Memory no_labels error };

    fn from(_refused: AllocError) -> Error {
        Error::from_kind(ErrorKind::Memory)
    }
}

/// An error without labels but those of a write concern error inside. It takes memory for them alone.
impl From<ErrorKind> for Error {
    ghost use Rattle.std.specs.Prelude.{[]};
    ghost use Rattle.driver_error.specs.Conversions.{IsNew};

    ghost from_gives = { λ kind error. IsNew kind [] error };

    fn from(kind: ErrorKind) -> Error {
        match memory_of(&kind) {
            None => Error::from_kind(kind),
            Some(alloc) => Error::new(alloc, kind, &[]),
        }
    }
}

/// A command's error with the labels of its reply.
impl From<CommandErrorBody> for Error {
    ghost use Rattle.driver_error.specs.Conversions.{IsMade};
    ghost use Rattle.driver_error.specs.LabelTexts.{label_set};
    ghost use Rattle.driver_error.specs.declared.kind.ErrorKind.TheVariants.{Command};

    ghost from_gives = { λ body error. IsMade (Command body.command_error) (label_set body.error_labels)
        error };

    fn from(body: CommandErrorBody) -> Error {
        let CommandErrorBody {
            error_labels,
            command_error,
        } = body;
        let alloc = error_labels.allocator();
        Error::new(
            alloc,
            ErrorKind::Command(command_error),
            error_labels.as_slice(),
        )
    }
}

/// Where the labels of a write concern error inside a kind find memory.
fn memory_of(kind: &ErrorKind) -> Option<Global>
    ensures { IfNone result (inner_labels kind.now ≡ []) }
{
    match concern_error_of(kind) {
        None => None,
        Some(concern) => Some(concern.labels.allocator()),
    }
}

/// What an insert of one document answers for an error of an insert of many: the first write error,
/// else the write concern error, with the labels and nothing else. Other errors stay.
pub fn convert_insert_many_error(alloc: Global, error: Error) -> Error
    ensures { Converts error result }
{
    let Parts {
        kind,
        labels,
        wire_version,
        source,
        server_response,
    } = error.into_parts();
    match kind {
        ErrorKind::InsertMany(failures) => single_error(alloc, failures, labels),
        kind => Error {
            kind,
            labels,
            wire_version,
            source,
            server_response,
        },
    }
}

/// The error of a single write.
fn single_error(alloc: Global, failures: Boxed<InsertManyError>, labels: Labels) -> Error
    ensures { IsSingle (single_failure failures) labels result }
{
    let InsertManyError {
        write_errors,
        write_concern_error,
        inserted_ids: _,
    } = failures.into_inner();
    match first_failure(write_errors, write_concern_error) {
        Some(failure) => Error {
            kind: ErrorKind::Write(failure),
            labels,
            wire_version: None,
            source: None,
            server_response: None,
        },
        None => no_failure(alloc),
    }
}

/// The first of the write errors, else the write concern error.
fn first_failure(
    errors: Option<List<IndexedWriteError>>,
    concern: Option<WriteConcernError>,
) -> Option<WriteFailure>
    ensures { result ≡ first_failure errors concern }
{
    if let Some(errors) = errors {
        if let Some(error) = errors.into_vec().into_iter().next() {
            return Some(WriteFailure::WriteError(error.into()));
        }
    }
    match concern {
        None => None,
        Some(concern) => Some(WriteFailure::WriteConcernError(concern)),
    }
}

/// The error of a reply that tells of no failure.
#[tactic(auto, unfolding(crate::specs::Conversions::no_failure_text))]
fn no_failure(alloc: Global) -> Error
    ensures { IsMade (InvalidResponse no_failure_text) no_labels result }
{
    match Text::from_str(alloc, NO_FAILURE) {
        Ok(message) => Error::from_kind(ErrorKind::InvalidResponse { message }),
        Err(_refused) => Error::from_kind(ErrorKind::Memory),
    }
}
