//! What a driver's user sets: options of clients and writes, models of bulk writes and concerns, as plain data; and
//! what a connection's server says of itself.
#![tactic(auto)]

mod concerns;
mod find_options;
mod model_copies;
mod models;
pub mod options;
mod shared_options;
mod updates;
mod write_options;

pub use concerns::{Acknowledgment, ReadConcern, ReadConcernLevel, WriteConcern};
pub use find_options::{
    FindAndModifyOptions, FindOneAndDeleteOptions, FindOneAndReplaceOptions,
    FindOneAndUpdateOptions, ReturnDocument,
};
pub use models::{
    DeleteManyModel, DeleteOneModel, InsertOneModel, OperationType, ReplaceOneModel,
    UpdateManyModel, UpdateOneModel, WriteModel,
};
pub use options::{
    Address, Asked, ClientOptions, Conn, Description, ReadPreference, SelectionCriteria,
};
pub use updates::{Hint, Modification, UpdateModifications, UpdateOrReplace};
pub use write_options::{BulkWriteOptions, DeleteOptions, InsertManyOptions, UpdateOptions};
