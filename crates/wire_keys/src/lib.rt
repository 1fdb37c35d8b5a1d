//! The keys, names of commands and messages on the wire, and a law that they have their texts.
#![tactic(auto)]

pub mod keys;
pub mod laws;
