//! Bulk writes of a driver's user: what one begins with, its models judged, their ids drawn and their ops spelled; its
//! batches one after another; and the call.
#![tactic(auto)]

pub mod bulk_all;
mod bulk_batches;
pub mod bulk_start;
pub mod bulk_write;
pub mod collection_models;
pub mod laws;
mod own_ops;

pub use bulk_start::bulk_ops;
pub use bulk_write::{BulkWrite, BulkWrites};
pub use collection_models::CollectionModels;
