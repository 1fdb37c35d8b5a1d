//! A caller of the executor: an operation whose writes have one place.
ghost use Rattle.std.specs.Prelude.{◌∷◌, [], ℕ};
ghost use Rattle.driver_ops.specs.Operations.{HasBodies, IsFixed, batch_of};
ghost use Rattle.driver_attempt.specs.Causes.{end_of};
ghost use Rattle.driver_attempt.specs.Moment.{moment_of};
ghost use Rattle.driver_exec.specs.OperationCauses.{Caused};
ghost use Rattle.driver_exec.specs.Resending.{SendsOneCommand};

use driver_attempt::{Client, Outside, Steps};
use driver_error::Result;
use driver_exec::execute_operation;
use driver_link::{Clock, Link, Place};
use driver_ops::Operation;
use driver_session::SessionStore;
use rand_core::Rng;
use std::alloc::Global;
use std::sync::ledger::Ledger;

/// Runs an operation in one place. Its sends are one command, and it ends with its cause.
pub fn execute_in_place<O: Operation, S: SessionStore, L: Link, K: Clock, R: Rng, Q: Ledger>(
    alloc: Global,
    client: &mut Client<S>,
    op: &mut O,
    place: Place,
    outside: &mut Outside<L, K, R>,
    sends: &mut Steps<Q>,
) -> Result<O::Output>
    requires { HasBodies (O.spec op.old) (place ∷ []) }
    ensures one_command { (statements : ℕ) → IsFixed (O.built op.new) statements →
        SendsOneCommand (O.spec op.old) (batch_of (place ∷ []) statements)
        (moment_of S.tells L.tells K.tells R.stream client.old outside.old)
        (moment_of S.tells L.tells K.tells R.stream client.new outside.new)
        result }
    ensures caused { Caused (O.spec op.old) (O.next op.old) (O.built op.old)
        (moment_of S.tells L.tells K.tells R.stream client.old outside.old)
        (moment_of S.tells L.tells K.tells R.stream client.new outside.new)
        (end_of result) }
{
    execute_operation(alloc, client, op, &[place], outside, sends)
}
