//! The operation of inserts: the command that it builds, what it reads in replies, and what the model server's
//! replies say to it.
#![tactic(auto)]

mod insert;
mod insert_front;
mod inserted;
pub mod laws;
mod own_document;

pub use insert::{Insert, insert_body};
pub use own_document::OwnDocument;
