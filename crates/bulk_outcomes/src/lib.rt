//! What the parts of a bulk write come to together: its results, and what its batches came to so far.
#![tactic(auto)]

pub mod bulk_result;
pub mod laws;
pub mod status;

pub use bulk_result::BulkWriteResult;
pub use status::ExecutionStatus;
