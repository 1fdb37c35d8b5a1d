//! A server in memory that answers by a schedule: the machine of `driver_link`, computed.
//!
//! Each function computes one of the machine's definitions, and its clause is the equation with it.
#![tactic(auto)]

mod calls;
pub mod delivery;
pub mod honesty;
pub mod interrupting;
pub mod laws;
mod link;
pub mod meeting;
pub mod refusing;
pub mod server;
mod stepping;
pub mod undoing;
pub mod usual;

pub use server::ModelServer;
pub use usual::USUAL_SETUP;
