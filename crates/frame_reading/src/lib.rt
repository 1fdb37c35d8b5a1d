//! What a server makes of a frame: the send that it reads, or that it reads none.
//!
//! Each function computes one of the definitions of reading, or a step towards one, and its clause is the equation with
//! it; but for `read_send`, which answers the send where there is one, and for what is guessed of a plain insert.
#![tactic(auto)]

pub mod asking;
pub mod body_fields;
pub mod ops;
mod plain_insert;
pub mod reading;
pub mod writing;
