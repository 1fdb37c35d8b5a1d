//! What a send does to the server in memory: its case, what its writes leave, the reply that is kept, and the step
//! of its session.
//!
//! Each function computes one of the machine's definitions, and its clause is the equation with it.
#![tactic(auto)]

pub mod cases;
pub mod change;
pub mod exchange;
pub mod places;
pub mod serving;

pub use exchange::new_server;
