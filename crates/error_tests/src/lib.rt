//! Tests of errors, labels and results from outside: their texts, and that calls succeed with ample memory.
//! They stand apart so that the library is proved once and not once more for its tests.
#![tactic(auto)]

#[cfg(test)]
mod asserting;
#[cfg(test)]
mod codes;
#[cfg(test)]
mod copies;
#[cfg(test)]
mod errors;
#[cfg(test)]
mod failures;
#[cfg(test)]
mod kinds;
#[cfg(test)]
mod merging;
#[cfg(test)]
mod results;
#[cfg(test)]
mod standing;
#[cfg(test)]
mod texts;
