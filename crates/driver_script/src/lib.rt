//! A script of calls: the JSON that says which calls are made, and what the model server does meanwhile.
//!
//! `read_script` is the one public call; each other function reads a part of a script, of what `script_parts` reads.
#![tactic(auto)]

mod calls;
mod from_json;
mod limits;
mod models;
mod options;
mod parts;
mod plain;
mod plans;
mod schedule;
pub mod script;

pub use script::{Script, ScriptFault, read_script};
pub use script_parts::keys::MOST_CALLS;
