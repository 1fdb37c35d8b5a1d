//! A run of calls, which a program feeds call by call.
ghost use Rattle.std.specs.Prelude.{◌≡◌, ◌<◌, ◌≤◌, List as Listed, length, slice_get, take, IfOk, Some};
ghost use Rattle.driver_session.specs.StoreTells.{IsNewStore};
ghost use Rattle.driver_attempt.specs.Moment.{DrawsInOrder, HasDrawnApart, HasFreshServer, KeepsClient, KeepsLent, Moment, moment_of};
ghost use Rattle.driver_actions.specs.CallParts.{IsReplayed, KeepsMaking};
ghost use Rattle.call_runs.specs.MainTheorem.{MeetsMainTheorem};
ghost use Rattle.call_runs.specs.Standing.{MakesCaused, MakesEnded, RunInvariant, new_run, run_more};
ghost use Rattle.driver_inputs.specs.declared.call.Call.{Call as Asked};

use crate::making::make_call;
use bson_lite::List;
use driver_attempt::{Client, Outside};
use driver_inputs::{Call, Outcome};
use driver_link::{Clock, Link};
use driver_session::SessionStore;
use rand_core::Rng;
use std::alloc::{AllocError, Global};
use std::marker::Model;

/// A run of calls: the outcomes so far, with room for those to come. It keeps no call: its user keeps one
/// list of calls, hands it in each time, and may append to it between two calls. It is ended by `finish`.
pub struct CallRun {
    outcomes: Vec<Outcome>,
}

impl Model for CallRun {
    ghost use Rattle.std.specs.Coded.{codes};
    ghost use Rattle.std.specs.Prelude.{[], vec_capacity, vec_len};
    ghost use Rattle.call_runs.specs.Standing.{RunState};
    ghost use Rattle.driver_inputs.specs.contracts.call.Outcome as outcome_contract;

    ghost Value = { RunState };

    ghost coded = { Prim.hlevel (codes, outcome_contract.the_row.coded) };

    ghost view = { λ run. record {
      made = vec_len run.outcomes;
      room = vec_capacity run.outcomes;
      outcomes = run.outcomes.items;
      slots = [];
    } };
}

impl CallRun {
    /// A run that has made no call, with room for the outcomes of so many calls. It sends nothing, and it
    /// answers want of memory alone.
    pub fn begin(alloc: Global, room: usize) -> Result<CallRun, AllocError>
        ensures new { IfOk result (λ run. run ≡ new_run room) }
        ensures stands { IfOk result (λ run. (calls : Listed Asked) (now : Moment) → IsNewStore now.store →
            HasFreshServer now → RunInvariant run calls now) }
    {
        Ok(CallRun {
            outcomes: Vec::with_capacity(alloc, room)?,
        })
    }

    /// How many calls were made.
    pub fn calls_made(&self) -> usize
        ensures { result ≡ self.now.made }
    {
        self.outcomes.len()
    }

    /// The outcomes so far, one for each call that was made.
    pub fn outcomes(&self) -> &[Outcome]
        ensures { result.now ≡ self.now.outcomes }
    {
        self.outcomes.as_slice()
    }

    /// Makes the next call of the list: the one whose place, from 0, is how many were made before. Its
    /// number is that place, to which `outside.call` is set, and write i of it has the place (number, i).
    pub fn make<S: SessionStore, L: Link, K: Clock, R: Rng>(
        &mut self,
        alloc: Global,
        client: &mut Client<S>,
        outside: &mut Outside<L, K, R>,
        calls: &[Call],
    )
        requires room { self.old.made < self.old.room }
        requires next { self.old.made < length calls.now }
        ensures makes { MakesCaused self.old self.new calls.now
            (moment_of S.tells L.tells K.tells R.stream client.old outside.old)
            (moment_of S.tells L.tells K.tells R.stream client.new outside.new) }
        ensures complete { RunInvariant self.old calls.now
            (moment_of S.tells L.tells K.tells R.stream client.old outside.old) →
            HasDrawnApart (moment_of S.tells L.tells K.tells R.stream client.new outside.new) →
            MakesEnded self.old self.new calls.now
            (moment_of S.tells L.tells K.tells R.stream client.old outside.old)
            (moment_of S.tells L.tells K.tells R.stream client.new outside.new) }
        ensures stands { RunInvariant self.old calls.now
            (moment_of S.tells L.tells K.tells R.stream client.old outside.old) →
            HasDrawnApart (moment_of S.tells L.tells K.tells R.stream client.new outside.new) →
            RunInvariant self.new calls.now
            (moment_of S.tells L.tells K.tells R.stream client.new outside.new) }
        ensures replayed { IsReplayed (moment_of S.tells L.tells K.tells R.stream client.old outside.old) →
            IsReplayed (moment_of S.tells L.tells K.tells R.stream client.new outside.new) }
        ensures making { KeepsMaking
            (moment_of S.tells L.tells K.tells R.stream client.old outside.old)
            (moment_of S.tells L.tells K.tells R.stream client.new outside.new) }
        ensures drawn { DrawsInOrder
            (moment_of S.tells L.tells K.tells R.stream client.old outside.old)
            (moment_of S.tells L.tells K.tells R.stream client.new outside.new) }
        ensures lent { KeepsLent
            (moment_of S.tells L.tells K.tells R.stream client.old outside.old)
            (moment_of S.tells L.tells K.tells R.stream client.new outside.new) }
        ensures client { KeepsClient
            (moment_of S.tells L.tells K.tells R.stream client.old outside.old)
            (moment_of S.tells L.tells K.tells R.stream client.new outside.new) }
        ensures call { outside.new.call ≡ self.old.made }
    {
        let number = self.calls_made() as u64;
        outside.call = number;
        let call = self.next(calls);
        let outcome = make_call(alloc, client, outside, call);
        self.add(outcome);
    }

    /// Ends the run, and answers the outcomes of its calls in order. It takes no memory. Client and outside are
    /// handed in for the sessions that are open at the end, which no call opens yet.
    pub fn finish<S: SessionStore, L: Link, K: Clock, R: Rng>(
        self,
        _client: &mut Client<S>,
        _outside: &mut Outside<L, K, R>,
        calls: &[Call],
    ) -> List<Outcome>
        requires { self.made ≤ length calls.now }
        ensures outcomes { result ≡ self.outcomes }
        ensures main { RunInvariant self calls.now
            (moment_of S.tells L.tells K.tells R.stream _client.old _outside.old) →
            MeetsMainTheorem (take self.made calls.now) result
            (moment_of S.tells L.tells K.tells R.stream _client.new _outside.new) }
        ensures unchanged { (_client.new ≡ _client.old) × (_outside.new ≡ _outside.old) }
    {
        self.into_outcomes()
    }

    /// The next call of a list.
    fn next<'a>(&self, calls: &'a [Call]) -> &'a Call
        requires { self.now.made < length calls.now }
        ensures { slice_get calls.now self.now.made ≡ Some result.now }
    {
        &calls[self.outcomes.len()]
    }

    /// Appends the outcome of one call more.
    fn add(&mut self, outcome: Outcome)
        requires { self.old.made < self.old.room }
        ensures { self.new ≡ run_more self.old outcome }
    {
        self.outcomes.push_reserved(outcome);
    }

    /// The outcomes, moved out.
    fn into_outcomes(self) -> List<Outcome>
        ensures { result ≡ self.outcomes }
    {
        let CallRun { outcomes } = self;
        List::from_vec(outcomes)
    }
}
