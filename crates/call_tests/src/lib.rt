//! Tests of calls of a list: what one insert comes to over a model server with a schedule, every short schedule over a
//! few inserts and over one write of each kind, which writes are refused, when a call is timed and its session lent, and
//! that calls succeed with ample memory. They stand apart since a row crosses executor and server.
#![tactic(auto)]

#[cfg(test)]
mod asserting;
#[cfg(test)]
mod calling;
#[cfg(test)]
mod kinds;
#[cfg(test)]
mod meeting;
#[cfg(test)]
mod refusals;
#[cfg(test)]
mod rows;
#[cfg(test)]
mod schedules;
#[cfg(test)]
mod timing;
