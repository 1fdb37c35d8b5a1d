//! The operation of a single write, in its place.
ghost use Rattle.std.specs.Prelude.{◌≡◌, ◌<◌, ◌∷◌, [], Some, IfErr};
ghost use Rattle.driver_link.specs.declared.machine.SendBody.{SendBody};
ghost use Rattle.driver_ops.specs.Operations.{AsksFor, HasBodies, batch_of};
ghost use Rattle.driver_ops.specs.SendKinds.{first};
ghost use Rattle.driver_attempt.specs.Client.{options_of};
ghost use Rattle.driver_attempt.specs.Failures.{MemoryAlone};
ghost use Rattle.driver_attempt.specs.Moment.{moment_of};
ghost use Rattle.driver_actions.specs.SingleCalls.{Runs};

use driver_attempt::{Client, Outside, Steps};
use driver_error::{Result, convert_insert_many_error};
use driver_exec::execute_operation;
use driver_link::{Clock, Link, Place};
use driver_ops::Operation;
use driver_session::SessionStore;
use rand_core::Rng;
use std::alloc::Global;
use std::sync::ledger::{Blank, Ledger};

/// Runs an operation of one statement in a place, with a count of its sends over a ledger. An error of many
/// inserts takes the form of a single write's.
#[tactic(auto, using(crate::proofs::MemoryAlone::converts_told))]
pub(crate) fn run_single<
    O: Operation + Drop,
    S: SessionStore,
    L: Link,
    K: Clock,
    R: Rng,
    Q: Ledger,
>(
    alloc: Global,
    client: &mut Client<S>,
    outside: &mut Outside<L, K, R>,
    mut op: O,
    place: Place,
    blank: Blank,
) -> Result<O::Output>
    requires name { blank.name ≡ Q.name }
    requires parts { blank.parts ≡ Q.parts }
    requires some { 0 < blank.parts }
    requires built { O.built op ≡ Some 1 }
    requires next { O.next op ≡ first }
    requires bodies { HasBodies (O.spec op) (place ∷ []) }
    ensures runs { (asked : SendBody) → AsksFor (O.spec op) (batch_of (place ∷ []) 1) asked →
        Runs (O.spec op) asked place
        (moment_of S.tells L.tells K.tells R.stream client.old outside.old)
        (moment_of S.tells L.tells K.tells R.stream client.new outside.new)
        result }
    ensures memory { IfErr result (λ error. MemoryAlone error) }
    ensures options { options_of client.new ≡ options_of client.old }
    ensures call { outside.new.call ≡ outside.old.call }
{
    let mut sends: Steps<Q> = Steps::new(blank);
    let result = execute_operation(alloc, client, &mut op, &[place], outside, &mut sends);
    drop(op);
    match result {
        Ok(output) => Ok(output),
        Err(error) => Err(convert_insert_many_error(alloc, error)),
    }
}
