//! Tests of bulk writes over a model server: those whose answers come in pages, and bulk writes as calls, by rows and
//! with each fault at each exchange. They stand apart from the tests over a fake link, which need no model server.
#![tactic(auto)]

#[cfg(test)]
mod asserting;
#[cfg(test)]
mod by_rules;
#[cfg(test)]
mod calls;
#[cfg(test)]
mod meeting;
#[cfg(test)]
mod one_fault;
#[cfg(test)]
mod served;
