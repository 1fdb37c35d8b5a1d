//! What a script is written in: its JSON as a tape and as a tree, its keys, its numbers, texts, values and documents.
//!
//! Each reader gives exactly what its definition says, or refuses the value.
#![tactic(auto)]

pub mod forms;
pub mod keys;
pub mod laws;
pub mod leaves;
pub mod namespaces;
mod numbers;
pub mod tape;
pub mod tree;
pub mod values;
