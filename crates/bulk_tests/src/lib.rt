//! Tests of bulk writes: how they are built, byte by byte and under limits of the connection, that no other cut of a
//! list has fewer batches, and what the executor sends and sends again. They stand apart since a row crosses executor
//! and server.
#![tactic(auto)]

#[cfg(test)]
mod asserting;
#[cfg(test)]
mod bulk_builds;
#[cfg(test)]
mod bulk_cuts;
#[cfg(test)]
mod bulk_runs;
#[cfg(test)]
mod single_cursors;
