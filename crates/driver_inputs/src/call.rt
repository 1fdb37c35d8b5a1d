//! Calls and what they answer, as plain data.
use crate::single_write::SingleWrite;
use bson_lite::{Document, List, Namespace};
use driver_error::{
    DeleteResult, Error, InsertManyResult, InsertOneResult, SummaryBulkWriteResult, UpdateResult,
    VerboseBulkWriteResult,
};
use driver_options::{BulkWriteOptions, InsertManyOptions, WriteModel};

/// What a single write answers.
#[derive(Debug, Drop)]
pub enum SingleAnswer {
    Inserted(InsertOneResult),
    Updated(UpdateResult),
    Deleted(DeleteResult),
    /// The document that was found, where one was.
    Found(Option<Document>),
}

/// One call of a driver's user.
#[derive(Debug, Drop)]
pub enum Call {
    /// A write of one statement.
    Single {
        write: SingleWrite,
    },
    /// Inserts documents, each with an id put first where it has none, in as few batches as the server's limits allow.
    InsertMany {
        namespace: Namespace,
        documents: List<Document>,
        options: InsertManyOptions,
    },
    /// Makes the write of each model on the model's own collection, in as few batches as the server's limits allow.
    BulkWrite {
        models: List<WriteModel>,
        options: BulkWriteOptions,
        /// Whether it answers the result of each write, and not the counts alone.
        verbose: bool,
    },
}

/// What a call answers.
#[derive(Debug, Drop)]
pub enum Answer {
    Single(SingleAnswer),
    Many(InsertManyResult),
    /// The counts of a bulk write.
    Summary(SummaryBulkWriteResult),
    /// The counts of a bulk write, and the result of each write.
    Verbose(VerboseBulkWriteResult),
}

/// How a call ended. The clock is read in milliseconds before and after it.
#[derive(Debug, Drop)]
pub struct Outcome {
    pub result: Result<Answer, Error>,
    pub started_ms: u64,
    pub ended_ms: u64,
}
