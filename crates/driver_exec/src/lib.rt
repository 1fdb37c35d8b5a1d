//! The executor: an operation's attempts over a link with its one retry.
#![tactic(auto)]

mod execute;
pub mod laws;

pub use execute::execute_operation;
