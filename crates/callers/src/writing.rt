//! A caller of the driver's calls: a list of writes, and how many of them are Ok.
ghost use Rattle.std.specs.Prelude.{◌≡◌, count_by, is_ok, IfOk, OnErr};
ghost use Rattle.driver_attempt.specs.Moment.{moment_of};
ghost use Rattle.call_runs.specs.CallByCall.{HaveCauses};
ghost use Rattle.call_runs.specs.MainTheorem.{Begins, MeetsMainTheorem};

use bson_lite::List;
use call_runs::run_calls;
use driver_attempt::{Client, Outside};
use driver_inputs::{Call, Outcome};
use driver_link::{Clock, Link};
use driver_session::SessionStore;
use rand_core::Rng;
use std::alloc::{AllocError, Global};

/// The outcomes of calls, and how many of them are Ok.
#[derive(Debug, Drop)]
pub struct Tally {
    pub outcomes: List<Outcome>,
    pub done: usize,
}

/// Makes the calls of a list, and counts those that are Ok.
pub fn run_and_count<S: SessionStore, L: Link, K: Clock, R: Rng>(
    alloc: Global,
    client: &mut Client<S>,
    outside: &mut Outside<L, K, R>,
    calls: &[Call],
) -> Result<Tally, AllocError>
    ensures main { IfOk result (λ tally. Begins
        (moment_of S.tells L.tells K.tells R.stream client.old outside.old)
        (moment_of S.tells L.tells K.tells R.stream client.new outside.new) →
        MeetsMainTheorem calls.now tally.outcomes
        (moment_of S.tells L.tells K.tells R.stream client.new outside.new)) }
    ensures causes { IfOk result (λ tally. HaveCauses calls.now tally.outcomes
        (moment_of S.tells L.tells K.tells R.stream client.old outside.old)
        (moment_of S.tells L.tells K.tells R.stream client.new outside.new)) }
    ensures counted { IfOk result (λ tally.
        tally.done ≡ count_by (λ outcome. is_ok outcome.result) tally.outcomes) }
    ensures unsent { OnErr result ((client.new ≡ client.old) × (outside.new ≡ outside.old)) }
{
    let outcomes = run_calls(alloc, client, outside, calls)?;
    let done = count_done(outcomes.as_slice());
    Ok(Tally { outcomes, done })
}

/// How many outcomes are Ok.
fn count_done(outcomes: &[Outcome]) -> usize
    ensures { result ≡ count_by (λ outcome. is_ok outcome.result) outcomes.now }
{
    let mut done = 0;
    for outcome in outcomes {
        if outcome.result.is_ok() {
            done += 1;
        }
    }
    done
}
