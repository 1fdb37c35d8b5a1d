//! The replies to a send as documents and as bytes, and what they count.
//!
//! Each function computes one of the machine's definitions, and its clause is the equation with it.
#![tactic(auto)]

pub mod copying;
pub mod counts;
pub mod kept_reply;
pub mod replying;
