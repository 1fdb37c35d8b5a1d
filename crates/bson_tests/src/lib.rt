//! Tests of documents from outside: worked documents, and vectors of the public standard for each type.
//! They stand apart so that the library is proved once and not once more for its tests.
#![tactic(auto)]

#[cfg(test)]
mod asserting;
#[cfg(test)]
mod containers;
#[cfg(test)]
mod documents;
#[cfg(test)]
mod vectors;
