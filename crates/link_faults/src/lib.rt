//! How a call of a link can fail, which error that becomes, and what a link tells of its answers.
#![tactic(auto)]

pub mod fault;

pub use fault::{Answered, LinkCall, LinkError, LinkFault};
