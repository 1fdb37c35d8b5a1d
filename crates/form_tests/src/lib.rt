//! Tests of scripts from outside: which forms are read and as what, and which are refused.
//! They stand apart so that the library is proved once and not once more for its tests, and need no run.
#![tactic(auto)]

#[cfg(test)]
mod asserting;
#[cfg(test)]
mod bulk_writes;
#[cfg(test)]
mod forms;
#[cfg(test)]
mod parts;
#[cfg(test)]
mod repeats;
#[cfg(test)]
mod schedules;
