//! One caller of each crate, as the crate's README shows it.
#![tactic(auto)]

pub mod documents;
pub mod errors;
pub mod executing;
pub mod links;
pub mod operations;
pub mod running;
pub mod scripts;
pub mod servers;
pub mod sessions;
pub mod writing;
