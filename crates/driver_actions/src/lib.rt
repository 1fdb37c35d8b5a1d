//! Calls of a driver's user that make one write, from its caller to its acknowledged result, and the ids of the
//! caller's documents.
#![tactic(auto)]

mod delete;
mod find;
mod insert;
mod own_ids;
mod single;
mod single_operation;
mod update;

pub use own_ids::own_documents;
pub use single::SingleWrites;
