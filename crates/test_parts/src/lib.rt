//! What the crates of tests of calls share: the writes of rows, bulk writes by the executor and how they end, a fake link with the answers
//! that a row names, the parts of bodies that rows spell, and what a row sees of an end. It has no tests, so that it is proved once.
#![tactic(auto)]

pub mod bulk_ends;
pub mod bulk_models;
pub mod bulk_runs;
pub mod faking;
mod finds;
pub mod inserting;
pub mod spelling;
pub mod writes;
