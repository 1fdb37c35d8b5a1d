//! Batches of writes: the longest front of a list that may go out together, and why cutting longest fronts
//! one after another gives the fewest batches.
#![tactic(auto)]

pub mod laws;
pub mod rule;
pub mod sizes;

pub use rule::Rule;
pub use sizes::{Limits, Measured, longest_front, split};
