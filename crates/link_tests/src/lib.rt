//! Tests of what stands between the driver and the outside, and of the model server: ids, streams and clock in memory,
//! the fake link, and rows of sends with the bytes of their replies. They stand apart so that the libraries are proved
//! once and not once more for their tests.
#![tactic(auto)]

#[cfg(test)]
mod asserting;
#[cfg(test)]
mod by_id;
#[cfg(test)]
mod counting_ids;
#[cfg(test)]
mod fake_link;
#[cfg(test)]
mod mem_clock;
#[cfg(test)]
mod mem_stream;
#[cfg(test)]
mod server;
#[cfg(test)]
mod shared;
