//! What went wrong, without its labels and causes.
use crate::error::Error;
use crate::gridfs::GridFsErrorKind;
use crate::write::{BulkWriteError, InsertManyError, WriteFailure};
use bson_lite::{Boxed, EncodeFault, Text, TryClone};
use server_answers::CommandError;
use std::alloc::{AllocError, Global};
use std::fmt::Debug;
use thiserror::Error as DeriveError;

/// How reading or writing failed.
#[derive(Clone, Copy, Debug, PartialEq, Eq, DeriveError)]
pub enum IoKind {
    #[error("TimedOut")]
    TimedOut,
    #[error("ConnectionReset")]
    ConnectionReset,
    #[error("ConnectionRefused")]
    ConnectionRefused,
    #[error("BrokenPipe")]
    BrokenPipe,
    #[error("UnexpectedEof")]
    UnexpectedEof,
    #[error("Other")]
    Other,
}

impl TryClone for IoKind {
    fn try_clone(&self, _alloc: Global) -> Result<IoKind, AllocError> {
        Ok(*self)
    }
}

/// The kind of an error, with what belongs to it. `E` is the type of the errors that an error of a
/// file holds; written alone, `ErrorKind` holds [`Error`]s.
#[derive(Debug, Drop, DeriveError)]
#[error_bound(E: Debug)]
pub enum ErrorKind<E = Error> {
    /// The caller gave what the call does not take.
    #[error("An invalid argument was provided: {message}")]
    InvalidArgument { message: Text },
    #[error("{message}")]
    Authentication { message: Text },
    /// Bytes are no document. No call answers it.
    #[error("{0:?}")]
    BsonDeserialization(Text),
    /// A document has no spelling.
    #[error("{0:?}")]
    BsonSerialization(EncodeFault),
    #[error("An error occurred when trying to execute an insert_many operation: {0:?}")]
    InsertMany(Boxed<InsertManyError>),
    #[error("An error occurred when executing Client::bulk_write: {0:?}")]
    BulkWrite(Boxed<BulkWriteError>),
    /// The server refused the whole command.
    #[error("Command failed: {0}")]
    Command(CommandError),
    /// A server's name was not found. No call answers it.
    #[error("An error occurred during DNS resolution: {message}")]
    DnsResolve { message: Text },
    /// Something about a file. No call answers it.
    #[error("{0:?}")]
    GridFs(GridFsErrorKind<E>),
    /// The driver met a state that it does not go on from, as a number at its end.
    #[error("Internal error: {message}")]
    Internal { message: Text },
    /// The connection failed.
    #[error("I/O error: {0}")]
    Io(IoKind),
    /// The connections to a server were given up, since one of them failed.
    #[error("{message}")]
    ConnectionPoolCleared { message: Text },
    /// A reply was not what its command needs.
    #[error("The server returned an invalid reply to a database operation: {message}")]
    InvalidResponse { message: Text },
    /// No server was found for the command.
    #[error("{message}")]
    ServerSelection { message: Text },
    #[error("Attempted to start a session on a deployment that does not support sessions")]
    SessionsNotSupported,
    /// Options of an encrypted connection do not go together. No call answers it.
    #[error("{message}")]
    InvalidTlsConfig { message: Text },
    /// A single write failed.
    #[error("An error occurred when trying to execute a write operation: {0:?}")]
    Write(WriteFailure),
    /// A transaction is not in the state that the call needs.
    #[error("{message}")]
    Transaction { message: Text },
    /// The server is too old for the command.
    #[error("The server does not support a database operation: {message}")]
    IncompatibleServer { message: Text },
    /// No call answers it.
    #[error("Cannot provide resume functionality when the resume token is missing")]
    MissingResumeToken,
    /// An error of the caller's own.
    #[error("Custom user error: {0}")]
    Custom(Text),
    #[error("Client has been shut down")]
    Shutdown,
    /// There was no memory.
    #[error("out of memory")]
    Memory,
}
