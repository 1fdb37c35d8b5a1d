//! Inserts of many documents, from the caller's list to its acknowledged result: cut into batches, each made over
//! the link, and their ends put together under the indexes of the list.
#![tactic(auto)]

mod batches;
mod behind;
mod gathered;
pub mod insert_all;
pub mod insert_many;
pub mod laws;

pub use batches::{places_from, rest_from};
pub use insert_many::{InsertMany, ManyInserts};
