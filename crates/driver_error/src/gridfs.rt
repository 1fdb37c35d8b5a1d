//! Errors of files kept in a database, as plain data.
use bson_lite::{Boxed, Bson, Text, TryClone};
use std::alloc::{AllocError, Global};

/// How a file is named.
#[derive(Debug, Drop)]
pub enum GridFsFileIdentifier {
    Filename(Text),
    Id(Bson),
}

/// What went wrong with a file. The errors of an abort are plain data.
#[derive(Debug, Drop)]
pub enum GridFsErrorKind<E> {
    FileNotFound {
        identifier: GridFsFileIdentifier,
    },
    RevisionNotFound {
        revision: i32,
    },
    MissingChunk {
        n: u32,
    },
    UploadStreamClosed,
    WrongSizeChunk {
        actual_size: usize,
        expected_size: u32,
        n: u32,
    },
    WrongNumberOfChunks {
        actual_number: u32,
        expected_number: u32,
    },
    AbortError {
        original_error: Option<Boxed<E>>,
        delete_error: Boxed<E>,
    },
    WriteInProgress,
}

impl TryClone for GridFsFileIdentifier {
    fn try_clone(&self, alloc: Global) -> Result<GridFsFileIdentifier, AllocError> {
        Ok(match self {
            GridFsFileIdentifier::Filename(name) => {
                GridFsFileIdentifier::Filename(name.try_clone(alloc)?)
            }
            GridFsFileIdentifier::Id(id) => GridFsFileIdentifier::Id(id.try_clone(alloc)?),
        })
    }
}
