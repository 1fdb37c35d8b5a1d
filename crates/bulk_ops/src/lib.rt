//! The bulk write as an operation: one batch of its ops, and what the pages of its answer tell.
#![tactic(auto)]

mod bulk_reply;
mod bulk_results;
mod bulk_write;
pub mod laws;
mod op_batch;
mod seen_flags;

pub use bulk_write::{BulkWriteOp, bulk_body};
