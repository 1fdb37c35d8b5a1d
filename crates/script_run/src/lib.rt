//! The run of a script against the model server, and the report of it.
//!
//! `top` and `run_script` carry the program's promise; the rest reads its input or writes the report.
#![tactic(auto)]

pub mod laws;
pub mod program;
pub mod report;
pub mod running;
mod status;
mod streams;

pub use program::{run_script, top};
pub use report::report_text;
pub use running::Run;
