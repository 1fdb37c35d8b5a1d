//! What the statements of a send count and leave, the rows of a cursor, and numbers as a reply has them.
//!
//! Each function computes one of the machine's definitions, and its clause is the equation with it.
#![tactic(auto)]

pub mod cursors;
pub mod fields;
pub mod statements;
