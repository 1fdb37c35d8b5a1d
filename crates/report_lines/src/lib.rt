//! The lines of a report: outcomes of calls, sends and entries as text.
#![tactic(auto)]

mod details;
mod distinct;
mod failed_writes;
pub mod laws;
mod lines;
mod numbers;
mod words;

pub use distinct::are_distinct;
pub use lines::{push_calls, push_entries, push_sends};
