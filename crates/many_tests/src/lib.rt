//! Tests of inserts of many documents: how many a build takes under limits of the connection, what its calls answer and
//! send, which failures of its batches it tells, and which lists are refused. They stand apart since a row crosses
//! executor and server.
#![tactic(auto)]

#[cfg(test)]
mod asserting;
#[cfg(test)]
mod batches;
#[cfg(test)]
mod many_failures;
#[cfg(test)]
mod many_inserts;
#[cfg(test)]
mod many_refusals;
