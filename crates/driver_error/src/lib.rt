//! The driver's one error type: kinds, labels, causes, and the plain results of writes.
//!
//! A contract sees an [`Error`] as a tree: `kind_of`, `labels_of`, `source_of` and their like, of
//! `specs/Error.antt`, read one level of it.
#![tactic(auto)]

mod bulk_error;
mod codes;
pub mod conversions;
mod copy;
pub mod counts;
mod display;
pub mod error;
pub mod gridfs;
pub mod kind;
pub mod labels;
pub mod laws;
pub mod predicates;
pub mod redact;
pub mod redaction;
mod write;

pub use conversions::convert_insert_many_error;
pub use error::{Error, Result};
pub use gridfs::{GridFsErrorKind, GridFsFileIdentifier};
pub use kind::{ErrorKind, IoKind};
pub use labels::{
    Labels, NO_WRITES_PERFORMED, RESUMABLE_CHANGE_STREAM_ERROR, RETRYABLE_ERROR,
    RETRYABLE_WRITE_ERROR, SYSTEM_OVERLOADED_ERROR, TRANSIENT_TRANSACTION_ERROR,
    UNKNOWN_TRANSACTION_COMMIT_RESULT,
};
pub use redact::Redact;
pub use server_answers::{
    CollectionSpecification, CollectionSpecificationInfo, CollectionType, CommandError,
    CommandErrorBody, CreateIndexResult, CreateIndexesResult, DatabaseSpecification, DeleteResult,
    InsertManyResult, InsertOneResult, PartialBulkWriteResult, SummaryBulkWriteResult,
    UpdateResult, VerboseBulkWriteResult,
};
pub use write::{
    BulkWriteError, IndexedWriteError, InsertManyError, WriteConcernError, WriteError, WriteFailure,
};
