//! Lists of calls, one made after another.
//!
//! `run_calls` carries the main theorem: one outcome per call, no write twice in the server's log, and
//! an Ok call's writes there exactly once with the answer that the log spells.
#![tactic(auto)]

pub mod call_run;
pub mod laws;
mod making;
pub mod run;

pub use call_run::CallRun;
pub use run::run_calls;
