//! Tests of one operation through the executor: what it sends, byte by byte, which write concern goes out with it, what
//! one insert comes to over a fake link, which servers are selected and asked for a connection, and the store with
//! ample memory. They stand apart since a row crosses all that a call goes through.
#![tactic(auto)]

#[cfg(test)]
mod asserting;
#[cfg(test)]
mod collections;
#[cfg(test)]
mod concerns;
#[cfg(test)]
mod find_commands;
#[cfg(test)]
mod frames;
#[cfg(test)]
mod ports;
#[cfg(test)]
mod selections;
#[cfg(test)]
mod sessions;
#[cfg(test)]
mod statements;
