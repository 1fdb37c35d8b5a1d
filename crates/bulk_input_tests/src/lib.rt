//! Tests of the input of bulk writes: which models and options are refused, in which order, which ids are drawn, and
//! what models a collection makes. They need neither executor nor server.
#![tactic(auto)]

#[cfg(test)]
mod asserting;
#[cfg(test)]
mod bulk_inputs;
