//! What is timed: ways to make so many inserts, one insert of so many documents, a bulk write of so many, and the cut of
//! a list of so many; and what came out of them.
use crate::batches::{build_batch, split_front};
use crate::bulk::{make_models, make_results, write_in_bulk, write_with_results};
use crate::inserts::{all_served, insert, insert_calls, new_client, outside_with};
use crate::many::{hand_in, insert_at_once};
use crate::one_reply::OneReply;
use bson_lite::List;
use call_runs::run_calls;
use driver_actions::SingleWrites;
use driver_attempt::Outside;
use driver_error::Result;
use driver_inputs::{Call, Outcome};
use memory_links::MemClock;
use model_server::{ModelServer, USUAL_SETUP};
use rand_pcg::Pcg32;
use std::alloc::Global;

/// What is done with so many inserts.
#[derive(Clone, Copy)]
pub enum Work {
    /// They are made by a call each, over a link that answers from memory.
    Single,
    /// They are made as one list, over a model server that serves each exchange.
    List,
    /// The longest front of their sizes is found.
    Split,
    /// The command of their batch is built.
    Build,
    /// They are handed in as one insert of many documents, which is not run.
    Given,
    /// They are handed in as one insert of many documents, which is run over a link that answers from memory.
    Many,
    /// They are models of a bulk write, which is not made, and of a link that would answer its counts.
    Models,
    /// They are models of a bulk write that answers counts, over that link.
    Bulk,
    /// They are models of a bulk write, which is not made, and of a link that would answer the result of each.
    Results,
    /// They are models of a bulk write that answers the result of each, over that link.
    Verbose,
}

impl Work {
    /// The work with this name.
    pub fn named(word: &str) -> Option<Work> {
        match word {
            "single" => Some(Work::Single),
            "list" => Some(Work::List),
            "split" => Some(Work::Split),
            "build" => Some(Work::Build),
            "given" => Some(Work::Given),
            "many" => Some(Work::Many),
            "models" => Some(Work::Models),
            "bulk" => Some(Work::Bulk),
            "results" => Some(Work::Results),
            "verbose" => Some(Work::Verbose),
            _ => None,
        }
    }

    /// How many inserts it takes at most.
    pub fn limit(self) -> u32 {
        match self {
            Work::Single => 1_000_000,
            _ => 100_000,
        }
    }

    /// Does it with so many inserts, and says how many came through. An error is that of the first one that did not.
    pub fn run(self, alloc: Global, count: u32) -> Result<String> {
        match self {
            Work::Single => one_by_one(alloc, count),
            Work::List => as_list(alloc, count),
            Work::Split => split_front(alloc, count),
            Work::Build => build_batch(alloc, count),
            Work::Given => hand_in(alloc, count),
            Work::Many => insert_at_once(alloc, count),
            Work::Models => make_models(alloc, count),
            Work::Bulk => write_in_bulk(alloc, count),
            Work::Results => make_results(alloc, count),
            Work::Verbose => write_with_results(alloc, count),
        }
    }
}

fn one_by_one(alloc: Global, count: u32) -> Result<String> {
    let mut client = new_client(alloc);
    let mut outside = outside_with(OneReply::new(alloc, 1)?);
    let mut done = 0u32;
    for number in 0..count {
        let write = insert(alloc, number)?;
        outside.call = u64::from(number);
        let answer = client.single(alloc, &write, &mut outside)?;
        drop(answer);
        done = done.wrapping_add(1);
    }
    Ok(format!(in alloc; "ok={done}")?)
}

fn as_list(alloc: Global, count: u32) -> Result<String> {
    let calls = insert_calls(alloc, count)?;
    let mut outside = outside_with(ModelServer::new(alloc, USUAL_SETUP, all_served(alloc)));
    let made = make(alloc, &mut outside, calls.as_slice());
    let entries = outside.link.server().log.len();
    drop(calls);
    drop(outside);
    let done = made?;
    Ok(format!(in alloc; "ok={done} entries={entries}")?)
}

/// Makes the calls of a list by a new client, and says how many there were.
fn make(
    alloc: Global,
    outside: &mut Outside<ModelServer, MemClock, Pcg32>,
    calls: &[Call],
) -> Result<u32> {
    let mut client = new_client(alloc);
    let made = run_calls(alloc, &mut client, outside, calls);
    drop(client);
    all_done(made?)
}

/// How many outcomes there are, where all are Ok.
fn all_done(outcomes: List<Outcome>) -> Result<u32> {
    let mut done = 0u32;
    for outcome in outcomes.into_vec() {
        let Outcome {
            result,
            started_ms: _,
            ended_ms: _,
        } = outcome;
        drop(result?);
        done = done.wrapping_add(1);
    }
    Ok(done)
}
