//! What writes answer, as plain data.
ghost use Rattle.std.specs.Prelude.{◌≡◌, ◌≢◌, [], ◌∷◌, drop};

use bson_lite::{Bson, ByIndex, List, Text, TryClone};
use std::alloc::{AllocError, Global};

/// The answer of an insert of one document.
#[derive(Debug, Drop)]
pub struct InsertOneResult {
    /// The value of `_id` in the document that was sent.
    pub inserted_id: Bson,
}

impl Default for InsertOneResult {
    ghost use Rattle.std.specs.Prelude.{◌≡◌};
    ghost use Rattle.bson_lite.specs.declared.bson.Bson as bson;

    ghost is_default = { λ given. given.inserted_id ≡ bson.Null };

    fn default() -> InsertOneResult {
        InsertOneResult {
            inserted_id: Bson::Null,
        }
    }
}

impl TryClone for InsertOneResult {
    fn try_clone(&self, alloc: Global) -> Result<InsertOneResult, AllocError> {
        Ok(InsertOneResult {
            inserted_id: self.inserted_id.try_clone(alloc)?,
        })
    }
}

/// The answer of an insert of many documents.
#[derive(Debug, Drop)]
pub struct InsertManyResult {
    /// The value of `_id` of each document, by the document's index.
    pub inserted_ids: ByIndex<Bson>,
}

impl TryClone for InsertManyResult {
    fn try_clone(&self, alloc: Global) -> Result<InsertManyResult, AllocError> {
        Ok(InsertManyResult {
            inserted_ids: self.inserted_ids.try_clone(alloc)?,
        })
    }
}

/// The answer of an update.
#[derive(Debug, Default, Drop)]
pub struct UpdateResult {
    pub matched_count: u64,
    pub modified_count: u64,
    /// The value of `_id` of the document that was put in, where none was there to update.
    pub upserted_id: Option<Bson>,
}

impl TryClone for UpdateResult {
    fn try_clone(&self, alloc: Global) -> Result<UpdateResult, AllocError> {
        Ok(UpdateResult {
            matched_count: self.matched_count,
            modified_count: self.modified_count,
            upserted_id: self.upserted_id.try_clone(alloc)?,
        })
    }
}

/// The answer of a delete.
#[derive(Clone, Copy, Debug, Default)]
pub struct DeleteResult {
    pub deleted_count: u64,
}

impl TryClone for DeleteResult {
    fn try_clone(&self, _alloc: Global) -> Result<DeleteResult, AllocError> {
        Ok(*self)
    }
}

/// The answer of a bulk write: its counts.
#[derive(Clone, Copy, Debug, Default)]
pub struct SummaryBulkWriteResult {
    pub inserted_count: i64,
    pub matched_count: i64,
    pub modified_count: i64,
    pub upserted_count: i64,
    pub deleted_count: i64,
}

impl TryClone for SummaryBulkWriteResult {
    fn try_clone(&self, _alloc: Global) -> Result<SummaryBulkWriteResult, AllocError> {
        Ok(*self)
    }
}

/// The answer of a bulk write: its counts, and the result of each write by its index.
#[derive(Debug, Drop)]
pub struct VerboseBulkWriteResult {
    pub summary: SummaryBulkWriteResult,
    pub insert_results: ByIndex<InsertOneResult>,
    pub update_results: ByIndex<UpdateResult>,
    pub delete_results: ByIndex<DeleteResult>,
}

impl TryClone for VerboseBulkWriteResult {
    fn try_clone(&self, alloc: Global) -> Result<VerboseBulkWriteResult, AllocError> {
        Ok(VerboseBulkWriteResult {
            summary: self.summary,
            insert_results: self.insert_results.try_clone(alloc)?,
            update_results: self.update_results.try_clone(alloc)?,
            delete_results: self.delete_results.try_clone(alloc)?,
        })
    }
}

/// What succeeded in a bulk write that failed.
#[derive(Debug, Drop)]
pub enum PartialBulkWriteResult {
    Summary(SummaryBulkWriteResult),
    Verbose(VerboseBulkWriteResult),
}

impl TryClone for PartialBulkWriteResult {
    fn try_clone(&self, alloc: Global) -> Result<PartialBulkWriteResult, AllocError> {
        Ok(match self {
            PartialBulkWriteResult::Summary(summary) => PartialBulkWriteResult::Summary(*summary),
            PartialBulkWriteResult::Verbose(verbose) => {
                PartialBulkWriteResult::Verbose(verbose.try_clone(alloc)?)
            }
        })
    }
}

/// The answer of the making of one index.
#[derive(Debug, PartialEq, Drop)]
pub struct CreateIndexResult {
    pub index_name: Text,
}

impl TryClone for CreateIndexResult {
    fn try_clone(&self, alloc: Global) -> Result<CreateIndexResult, AllocError> {
        Ok(CreateIndexResult {
            index_name: self.index_name.try_clone(alloc)?,
        })
    }
}

/// The answer of the making of several indexes: their names.
#[derive(Debug, PartialEq, Drop)]
pub struct CreateIndexesResult {
    pub index_names: List<Text>,
}

impl CreateIndexesResult {
    /// The result of the first of them.
    pub fn into_create_index_result(self) -> CreateIndexResult
        requires { self.index_names ≢ [] }
        ensures { self.index_names ≡ result.index_name ∷ drop 1 self.index_names }
    {
        let mut names = self.index_names.into_vec().into_iter();
        match names.next() {
            Some(index_name) => CreateIndexResult { index_name },
            None => unreachable!(),
        }
    }
}

impl TryClone for CreateIndexesResult {
    fn try_clone(&self, alloc: Global) -> Result<CreateIndexesResult, AllocError> {
        Ok(CreateIndexesResult {
            index_names: self.index_names.try_clone(alloc)?,
        })
    }
}
