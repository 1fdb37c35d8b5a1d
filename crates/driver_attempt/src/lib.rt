//! One attempt of an operation over a link: a client over a store of sessions, the connection, the command with the
//! executor's fields, and the exchanges that read its answer.
#![tactic(auto)]

mod attempt;
mod attempt_end;
mod client;
mod concern;
mod execution_session;
mod fields;
mod framing;
mod joined_body;
mod outside;
mod pages;
mod sending;
mod steps;

pub use attempt::make_attempt;
pub use attempt_end::AttemptEnd;
pub use client::Client;
pub use concern::concern_refusal;
pub use execution_session::{ExecutionSession, check_in_session};
pub use outside::Outside;
pub use steps::Steps;
