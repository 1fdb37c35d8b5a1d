//! What is decided when an attempt of an operation failed: whether there is another one, which failure the caller
//! is told, with which labels and in which words, and which servers the next attempt avoids.
#![tactic(auto)]

mod failure;
mod labels;
mod old_deployment;
mod retry;

pub use failure::{AttemptFailure, Failure, FailurePhase};
pub use labels::add_labels;
pub use old_deployment::{NO_RETRYABLE_WRITES, NUMBERS_REFUSED};
pub use retry::{RETRY_LIMIT, Retry};
