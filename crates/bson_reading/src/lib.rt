//! BSON documents read from bytes: the way back from their one spelling.
#![tactic(auto)]

mod counting;
pub mod decoding;
pub mod laws;
mod parts;

pub use decoding::decode;
pub use laws::{breaks_at_first_broken, read_is_spelled};
