//! Copies of an error: down its sources, and down the errors that an error of a file holds.
ghost use Rattle.std.specs.Prelude.{◌≡◌, IfOk};

use crate::error::Error;
use crate::gridfs::GridFsErrorKind;
use crate::kind::ErrorKind;
use bson_lite::{Boxed, TryClone};
use std::alloc::{AllocError, Global};

impl TryClone for Error {
    fn try_clone(&self, alloc: Global) -> Result<Error, AllocError> {
        copy_error(alloc, self)
    }
}

impl TryClone for ErrorKind {
    fn try_clone(&self, alloc: Global) -> Result<ErrorKind, AllocError> {
        copy_kind(alloc, self)
    }
}

impl TryClone for GridFsErrorKind<Error> {
    fn try_clone(&self, alloc: Global) -> Result<GridFsErrorKind<Error>, AllocError> {
        copy_file_error(alloc, self)
    }
}

#[cycle(copy)]
fn copy_error(alloc: Global, error: &Error) -> Result<Error, AllocError>
    ensures { IfOk result (λ copy. copy ≡ error.now) }
{
    Ok(Error {
        labels: error.labels.try_clone(alloc)?,
        wire_version: error.wire_version,
        source: copy_boxed(alloc, &error.source)?,
        server_response: error.server_response.try_clone(alloc)?,
        kind: copy_kind(alloc, &error.kind)?,
    })
}

#[cycle(copy)]
fn copy_boxed(
    alloc: Global,
    error: &Option<Boxed<Error>>,
) -> Result<Option<Boxed<Error>>, AllocError>
    ensures { IfOk result (λ copy. copy ≡ error.now) }
{
    match error {
        None => Ok(None),
        Some(boxed) => Ok(Some(Boxed::new(alloc, copy_error(alloc, boxed.get())?)?)),
    }
}

#[cycle(copy)]
fn copy_kind(alloc: Global, kind: &ErrorKind) -> Result<ErrorKind, AllocError>
    ensures { IfOk result (λ copy. copy ≡ kind.now) }
{
    Ok(match kind {
        ErrorKind::InvalidArgument { message } => ErrorKind::InvalidArgument {
            message: message.try_clone(alloc)?,
        },
        ErrorKind::Authentication { message } => ErrorKind::Authentication {
            message: message.try_clone(alloc)?,
        },
        ErrorKind::BsonDeserialization(text) => {
            ErrorKind::BsonDeserialization(text.try_clone(alloc)?)
        }
        ErrorKind::BsonSerialization(fault) => ErrorKind::BsonSerialization(*fault),
        ErrorKind::InsertMany(error) => ErrorKind::InsertMany(error.try_clone(alloc)?),
        ErrorKind::BulkWrite(error) => ErrorKind::BulkWrite(error.try_clone(alloc)?),
        ErrorKind::Command(error) => ErrorKind::Command(error.try_clone(alloc)?),
        ErrorKind::DnsResolve { message } => ErrorKind::DnsResolve {
            message: message.try_clone(alloc)?,
        },
        ErrorKind::GridFs(failure) => ErrorKind::GridFs(copy_file_error(alloc, failure)?),
        ErrorKind::Internal { message } => ErrorKind::Internal {
            message: message.try_clone(alloc)?,
        },
        ErrorKind::Io(failure) => ErrorKind::Io(*failure),
        ErrorKind::ConnectionPoolCleared { message } => ErrorKind::ConnectionPoolCleared {
            message: message.try_clone(alloc)?,
        },
        ErrorKind::InvalidResponse { message } => ErrorKind::InvalidResponse {
            message: message.try_clone(alloc)?,
        },
        ErrorKind::ServerSelection { message } => ErrorKind::ServerSelection {
            message: message.try_clone(alloc)?,
        },
        ErrorKind::SessionsNotSupported => ErrorKind::SessionsNotSupported,
        ErrorKind::InvalidTlsConfig { message } => ErrorKind::InvalidTlsConfig {
            message: message.try_clone(alloc)?,
        },
        ErrorKind::Write(failure) => ErrorKind::Write(failure.try_clone(alloc)?),
        ErrorKind::Transaction { message } => ErrorKind::Transaction {
            message: message.try_clone(alloc)?,
        },
        ErrorKind::IncompatibleServer { message } => ErrorKind::IncompatibleServer {
            message: message.try_clone(alloc)?,
        },
        ErrorKind::MissingResumeToken => ErrorKind::MissingResumeToken,
        ErrorKind::Custom(text) => ErrorKind::Custom(text.try_clone(alloc)?),
        ErrorKind::Shutdown => ErrorKind::Shutdown,
        ErrorKind::Memory => ErrorKind::Memory,
    })
}

#[cycle(copy)]
fn copy_file_error(
    alloc: Global,
    kind: &GridFsErrorKind<Error>,
) -> Result<GridFsErrorKind<Error>, AllocError>
    ensures { IfOk result (λ copy. copy ≡ kind.now) }
{
    Ok(match kind {
        GridFsErrorKind::FileNotFound { identifier } => GridFsErrorKind::FileNotFound {
            identifier: identifier.try_clone(alloc)?,
        },
        GridFsErrorKind::RevisionNotFound { revision } => GridFsErrorKind::RevisionNotFound {
            revision: *revision,
        },
        GridFsErrorKind::MissingChunk { n } => GridFsErrorKind::MissingChunk { n: *n },
        GridFsErrorKind::UploadStreamClosed => GridFsErrorKind::UploadStreamClosed,
        GridFsErrorKind::WrongSizeChunk {
            actual_size,
            expected_size,
            n,
        } => {
            GridFsErrorKind::WrongSizeChunk {
                actual_size: *actual_size,
                expected_size: *expected_size,
                n: *n,
            }
        }
        GridFsErrorKind::WrongNumberOfChunks {
            actual_number,
            expected_number,
        } => {
            GridFsErrorKind::WrongNumberOfChunks {
                actual_number: *actual_number,
                expected_number: *expected_number,
            }
        }
        GridFsErrorKind::AbortError {
            original_error,
            delete_error,
        } => {
            GridFsErrorKind::AbortError {
                original_error: copy_boxed(alloc, original_error)?,
                delete_error: Boxed::new(alloc, copy_error(alloc, delete_error.get())?)?,
            }
        }
        GridFsErrorKind::WriteInProgress => GridFsErrorKind::WriteInProgress,
    })
}
