//! Tests of runs from outside, of what the rows of `script_rows` don't say: documents and arrays, refused scripts,
//! streams that fail, limits of the input, lists of 10,000 writes, and what an answer lists. They stand apart so that the
//! library is proved once and not once more for its tests.
#![tactic(auto)]

#[cfg(test)]
mod asserting;
#[cfg(test)]
mod listed;
#[cfg(test)]
mod long_bulk_writes;
#[cfg(test)]
mod long_inserts;
#[cfg(test)]
mod order;
#[cfg(test)]
mod runs;
#[cfg(test)]
mod scripts;
