//! Laws of the model server's machine: what serving makes of a server, and what holds along a run.
//!
//! They speak of the definitions of `driver_link` alone, and no code is here.
#![tactic(auto)]

pub mod laws;
pub mod run_laws;

pub use driver_link::Server;
