//! What a server tells of writes, commands, databases and collections, as plain data.
#![tactic(auto)]

pub mod command;
pub mod results;
pub mod specifications;

pub use command::{CommandError, CommandErrorBody};
pub use results::{
    CreateIndexResult, CreateIndexesResult, DeleteResult, InsertManyResult, InsertOneResult,
    PartialBulkWriteResult, SummaryBulkWriteResult, UpdateResult, VerboseBulkWriteResult,
};
pub use specifications::{
    CollectionSpecification, CollectionSpecificationInfo, CollectionType, DatabaseSpecification,
};
