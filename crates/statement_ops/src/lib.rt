//! The operations of one statement, updates, deletes and findAndModify: the commands that they build, what they read
//! in replies, and what the model server's replies say to them.
#![tactic(auto)]

mod delete;
mod failed_write;
mod find_and_modify;
pub mod laws;
mod update;

pub use delete::{Delete, delete_body};
pub use find_and_modify::{FindAndModify, find_and_modify_body};
pub use update::{Update, update_body};
