//! A list of calls, made one after another.
ghost use Rattle.std.specs.Prelude.{◌≡◌, IfOk, OnOk, OnErr, length};
ghost use Rattle.driver_attempt.specs.Moment.{DrawsInOrder, HasFreshServer, KeepsClient, KeepsLent, moment_of};
ghost use Rattle.driver_actions.specs.CallParts.{IsReplayed, KeepsMaking};
ghost use Rattle.call_runs.specs.CallByCall.{HaveCauses};
ghost use Rattle.call_runs.specs.MainTheorem.{Begins, HaveEnded, MeetsMainTheorem};
ghost use Rattle.call_runs.specs.Standing.{last_number};

use crate::call_run::CallRun;
use bson_lite::List;
use driver_attempt::{Client, Outside};
use driver_inputs::{Call, Outcome};
use driver_link::{Clock, Link};
use driver_session::SessionStore;
use rand_core::Rng;
use std::alloc::{AllocError, Global};

/// Makes the calls of a list in order. Call k is made with `outside.call` set to k, and write i of call
/// k has the place (k, i); behind the last it stays that one's number. It answers want of memory alone, before the
/// first call.
pub fn run_calls<S: SessionStore, L: Link, K: Clock, R: Rng>(
    alloc: Global,
    client: &mut Client<S>,
    outside: &mut Outside<L, K, R>,
    calls: &[Call],
) -> Result<List<Outcome>, AllocError>
    ensures main { IfOk result (λ outcomes. Begins
        (moment_of S.tells L.tells K.tells R.stream client.old outside.old)
        (moment_of S.tells L.tells K.tells R.stream client.new outside.new) →
        MeetsMainTheorem calls.now outcomes
        (moment_of S.tells L.tells K.tells R.stream client.new outside.new)) }
    ensures complete { IfOk result (λ outcomes. Begins
        (moment_of S.tells L.tells K.tells R.stream client.old outside.old)
        (moment_of S.tells L.tells K.tells R.stream client.new outside.new) →
        HaveEnded calls.now outcomes
        (moment_of S.tells L.tells K.tells R.stream client.old outside.old)
        (moment_of S.tells L.tells K.tells R.stream client.new outside.new)) }
    ensures causes { IfOk result (λ outcomes. HaveCauses calls.now outcomes
        (moment_of S.tells L.tells K.tells R.stream client.old outside.old)
        (moment_of S.tells L.tells K.tells R.stream client.new outside.new)) }
    ensures replayed { OnOk result (HasFreshServer
        (moment_of S.tells L.tells K.tells R.stream client.old outside.old) →
        IsReplayed (moment_of S.tells L.tells K.tells R.stream client.new outside.new)) }
    ensures making { KeepsMaking
        (moment_of S.tells L.tells K.tells R.stream client.old outside.old)
        (moment_of S.tells L.tells K.tells R.stream client.new outside.new) }
    ensures drawn { DrawsInOrder
        (moment_of S.tells L.tells K.tells R.stream client.old outside.old)
        (moment_of S.tells L.tells K.tells R.stream client.new outside.new) }
    ensures lent { KeepsLent
        (moment_of S.tells L.tells K.tells R.stream client.old outside.old)
        (moment_of S.tells L.tells K.tells R.stream client.new outside.new) }
    ensures client { KeepsClient
        (moment_of S.tells L.tells K.tells R.stream client.old outside.old)
        (moment_of S.tells L.tells K.tells R.stream client.new outside.new) }
    ensures call { OnOk result (outside.new.call ≡ last_number outside.old.call (length calls.now)) }
    ensures err { OnErr result ((client.new ≡ client.old) × (outside.new ≡ outside.old)) }
{
    let mut run = CallRun::begin(alloc, calls.len())?;
    'calls: while run.calls_made() < calls.len() {
        run.make(alloc, client, outside, calls);
    }
    Ok(run.finish(client, outside, calls))
}
