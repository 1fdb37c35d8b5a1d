//! Errors that a server tells of single writes and of write concerns.
use bson_lite::{Bson, ByIndex, Document, List, Text, TryClone};
use server_answers::PartialBulkWriteResult;
use std::alloc::{AllocError, Global};

/// A write concern that was not met.
#[derive(Debug, PartialEq, Drop)]
pub struct WriteConcernError {
    pub code: i32,
    pub code_name: Text,
    pub message: Text,
    pub details: Option<Document>,
    pub labels: List<Text>,
}

impl TryClone for WriteConcernError {
    fn try_clone(&self, alloc: Global) -> Result<WriteConcernError, AllocError> {
        Ok(WriteConcernError {
            code: self.code,
            code_name: self.code_name.try_clone(alloc)?,
            message: self.message.try_clone(alloc)?,
            details: self.details.try_clone(alloc)?,
            labels: self.labels.try_clone(alloc)?,
        })
    }
}

/// A write that the server refused.
#[derive(Debug, PartialEq, Drop)]
pub struct WriteError {
    pub code: i32,
    pub code_name: Option<Text>,
    pub message: Text,
    pub details: Option<Document>,
}

impl TryClone for WriteError {
    fn try_clone(&self, alloc: Global) -> Result<WriteError, AllocError> {
        Ok(WriteError {
            code: self.code,
            code_name: self.code_name.try_clone(alloc)?,
            message: self.message.try_clone(alloc)?,
            details: self.details.try_clone(alloc)?,
        })
    }
}

/// A write of many that the server refused, with its index among the writes of the call.
#[derive(Debug, PartialEq, Drop)]
pub struct IndexedWriteError {
    pub index: usize,
    pub code: i32,
    pub code_name: Option<Text>,
    pub message: Text,
    pub details: Option<Document>,
}

impl TryClone for IndexedWriteError {
    fn try_clone(&self, alloc: Global) -> Result<IndexedWriteError, AllocError> {
        Ok(IndexedWriteError {
            index: self.index,
            code: self.code,
            code_name: self.code_name.try_clone(alloc)?,
            message: self.message.try_clone(alloc)?,
            details: self.details.try_clone(alloc)?,
        })
    }
}

impl From<IndexedWriteError> for WriteError {
    ghost use Rattle.std.specs.Prelude.{◌≡◌};
    ghost use Rattle.driver_error.specs.Conversions.{without_index};

    ghost from_gives = { λ indexed error. error ≡ without_index indexed };

    fn from(indexed: IndexedWriteError) -> WriteError {
        let IndexedWriteError {
            index: _,
            code,
            code_name,
            message,
            details,
        } = indexed;
        WriteError {
            code,
            code_name,
            message,
            details,
        }
    }
}

/// Why a single write failed.
#[derive(Debug, Drop)]
pub enum WriteFailure {
    WriteConcernError(WriteConcernError),
    WriteError(WriteError),
}

impl TryClone for WriteFailure {
    fn try_clone(&self, alloc: Global) -> Result<WriteFailure, AllocError> {
        Ok(match self {
            WriteFailure::WriteConcernError(error) => {
                WriteFailure::WriteConcernError(error.try_clone(alloc)?)
            }
            WriteFailure::WriteError(error) => WriteFailure::WriteError(error.try_clone(alloc)?),
        })
    }
}

/// Why an insert of many documents failed, and the ids of those that were inserted, by index.
#[derive(Debug, Drop)]
pub struct InsertManyError {
    pub write_errors: Option<List<IndexedWriteError>>,
    pub write_concern_error: Option<WriteConcernError>,
    pub inserted_ids: ByIndex<Bson>,
}

impl TryClone for InsertManyError {
    fn try_clone(&self, alloc: Global) -> Result<InsertManyError, AllocError> {
        Ok(InsertManyError {
            write_errors: self.write_errors.try_clone(alloc)?,
            write_concern_error: self.write_concern_error.try_clone(alloc)?,
            inserted_ids: self.inserted_ids.try_clone(alloc)?,
        })
    }
}

/// Why a bulk write failed, by the index of each write, and what succeeded.
#[derive(Debug, Drop)]
pub struct BulkWriteError {
    pub write_concern_errors: List<WriteConcernError>,
    pub write_errors: ByIndex<WriteError>,
    pub partial_result: Option<PartialBulkWriteResult>,
}

impl TryClone for BulkWriteError {
    fn try_clone(&self, alloc: Global) -> Result<BulkWriteError, AllocError> {
        Ok(BulkWriteError {
            write_concern_errors: self.write_concern_errors.try_clone(alloc)?,
            write_errors: self.write_errors.try_clone(alloc)?,
            partial_result: self.partial_result.try_clone(alloc)?,
        })
    }
}
