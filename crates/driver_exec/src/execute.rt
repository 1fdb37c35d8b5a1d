//! An operation outside transactions: attempts, and between them the decision on a retry.
ghost use Rattle.std.specs.Prelude.{◌≡◌, ◌⊎◌, ℕ, List as Listed, IfErr, IsSome, Some};
ghost use Rattle.driver_link.specs.declared.machine.SendBody.{SendBody};
ghost use Rattle.driver_ops.specs.Operations.{AsksFor, HasBodies, IsFixed, SameSpec, StaysFixed, batch_of};
ghost use Rattle.driver_attempt.specs.Attempting.{attempted_operation};
ghost use Rattle.driver_attempt.specs.Causes.{end_of};
ghost use Rattle.driver_attempt.specs.Client.{options_of, store_of};
ghost use Rattle.driver_attempt.specs.Concerns.{concern_of, concern_refusal};
ghost use Rattle.driver_attempt.specs.Executing.{Attempts, EndsWith, Executes, limit_reached};
ghost use Rattle.driver_attempt.specs.Failures.{MemoryAlone};
ghost use Rattle.driver_attempt.specs.Holding.{holds_nothing};
ghost use Rattle.driver_attempt.specs.Moment.{moment_of};
ghost use Rattle.retry_rules.specs.Retry.{Decides, decide};
ghost use Rattle.driver_attempt.specs.inside.Attempting.{attempt_state};
ghost use Rattle.driver_attempt.specs.inside.Executing.{FailureOf, IsLastError, MayAnswer, kept_or};
ghost use Rattle.driver_exec.specs.Keeping.{KeepsInvariant, OkHasEntries};
ghost use Rattle.driver_exec.specs.OperationCauses.{Caused};
ghost use Rattle.driver_exec.specs.Reporting.{ErrIsReported, HasRun};
ghost use Rattle.driver_exec.specs.Resending.{SendsOneCommand};

use driver_attempt::{
    AttemptEnd, Client, ExecutionSession, Outside, Steps, check_in_session, concern_refusal,
    make_attempt,
};
use driver_error::{Error, Result};
use driver_link::{Clock, Link, Place};
use driver_ops::Operation;
use driver_options::ClientOptions;
use driver_session::{Retryability, SessionStore};
use rand_core::Rng;
use retry_rules::{AttemptFailure, FailurePhase, Retry};
use std::alloc::Global;
use std::sync::ledger::Ledger;

/// Runs an operation outside transactions, with the places of its writes. Its write concern is judged first, and
/// where that is refused nothing is built or asked (`unbuilt`). Then it makes attempts until one ends it, or its
/// failure may not be followed by another. An error is that of the concern, or of the failure which is kept, or
/// what ended the operation at once; one of want of memory tells of nothing else (`memory`). `sends` counts the
/// sends of its command, each once, of which there are two at most (`laws` says this, and what of store and clock
/// stays). Where store and link tell, and its places are new, it keeps what stands between the operations of one
/// client (`keeps`), an Ok has the entry of each of its writes in the log, which tell the output (`entries`), and a
/// failure that only a reply spells was read in the machine's own reply, with the entries of the statements that
/// did not fail in the log (`reported`). Where it was done, or ended so, it has built its command (`ran`).
pub fn execute_operation<O: Operation, S: SessionStore, L: Link, K: Clock, R: Rng, Q: Ledger>(
    alloc: Global,
    client: &mut Client<S>,
    op: &mut O,
    places: &[Place],
    outside: &mut Outside<L, K, R>,
    sends: &mut Steps<Q>,
) -> Result<O::Output>
    requires { HasBodies (O.spec op.old) places.now }
    ensures executes { (statements : ℕ) → IsFixed (O.built op.new) statements →
        Executes (O.spec op.old) (batch_of places.now statements) (O.next op.old)
        (moment_of S.tells L.tells K.tells R.stream client.old outside.old)
        (moment_of S.tells L.tells K.tells R.stream client.new outside.new)
        sends.old sends.new (O.built op.old) (O.built op.new) result }
    ensures one_command { (statements : ℕ) → IsFixed (O.built op.new) statements →
        SendsOneCommand (O.spec op.old) (batch_of places.now statements)
        (moment_of S.tells L.tells K.tells R.stream client.old outside.old)
        (moment_of S.tells L.tells K.tells R.stream client.new outside.new)
        result }
    ensures keeps { (statements : ℕ) → IsFixed (O.built op.new) statements → (body : SendBody) →
        AsksFor (O.spec op.old) (batch_of places.now statements) body → KeepsInvariant
        (O.spec op.old).paged
        (moment_of S.tells L.tells K.tells R.stream client.old outside.old)
        (moment_of S.tells L.tells K.tells R.stream client.new outside.new)
        body }
    ensures entries { (statements : ℕ) → IsFixed (O.built op.new) statements → (body : SendBody) →
        AsksFor (O.spec op.old) (batch_of places.now statements) body → OkHasEntries (O.spec op.old) body
        (moment_of S.tells L.tells K.tells R.stream client.old outside.old)
        (moment_of S.tells L.tells K.tells R.stream client.new outside.new)
        result }
    ensures reported { (statements : ℕ) → IsFixed (O.built op.new) statements → (body : SendBody) →
        AsksFor (O.spec op.old) (batch_of places.now statements) body → ErrIsReported (O.spec op.old)
        (batch_of places.now statements) body
        (moment_of S.tells L.tells K.tells R.stream client.old outside.old)
        (moment_of S.tells L.tells K.tells R.stream client.new outside.new)
        result }
    ensures ran { HasRun (O.spec op.old) (O.next op.old)
        (moment_of S.tells L.tells K.tells R.stream client.old outside.old)
        (O.built op.old) (O.built op.new) result }
    ensures caused { Caused (O.spec op.old) (O.next op.old) (O.built op.old)
        (moment_of S.tells L.tells K.tells R.stream client.old outside.old)
        (moment_of S.tells L.tells K.tells R.stream client.new outside.new)
        (end_of result) }
    ensures memory { IfErr result (λ error. MemoryAlone error) }
    ensures spec { SameSpec (O.spec op.old) (O.spec op.new) }
    ensures fixed { StaysFixed (O.built op.old) (O.built op.new) }
    ensures unbuilt { (text : Listed ℕ) →
        concern_refusal (concern_of (O.spec op.old) (O.next op.old) (options_of client.old)) ≡ Some text →
        O.built op.new ≡ O.built op.old }
    ensures next { O.next op.new ≡ O.next op.old }
    ensures call { outside.new.call ≡ outside.old.call }
    ensures counted { (sends.new ≡ sends.old) ⊎ IsSome (O.built op.new) }
{
    match concern_refusal(alloc, op, client.options()) {
        None => {}
        Some(error) => return Err(error),
    }
    let sharded = outside.link.is_sharded();
    let (held, result) = execute_operation_with_retry(
        alloc, client, outside, op, places, sharded, sends,
    );
    check_in_session(client, &mut outside.clock, held);
    result
}

/// The attempts of an operation, and what it then holds.
fn execute_operation_with_retry<O: Operation, S: SessionStore, L: Link, K: Clock, R, Q: Ledger>(
    alloc: Global,
    client: &mut Client<S>,
    outside: &mut Outside<L, K, R>,
    op: &mut O,
    places: &[Place],
    sharded: bool,
    sends: &mut Steps<Q>,
) -> (ExecutionSession, Result<O::Output>)
    requires { HasBodies (O.spec op.old) places.now }
    ensures attempts { (statements : ℕ) → IsFixed (O.built op.new) statements → Attempts
        (attempted_operation (O.spec op.old) (batch_of places.now statements) (O.next op.old)
        ((O.spec op.old).retryability (options_of client.old))
        (concern_of (O.spec op.old) (O.next op.old) (options_of client.old))) sharded
        (attempt_state (S.tells (store_of client.old)) (L.tells outside.old.link)
        (K.tells outside.old.clock) holds_nothing sends.old (O.built op.old))
        (attempt_state (S.tells (store_of client.new)) (L.tells outside.new.link)
        (K.tells outside.new.clock) result.0 sends.new (O.built op.new))
        result.1 }
    ensures options { options_of client.new ≡ options_of client.old }
    ensures spec { SameSpec (O.spec op.old) (O.spec op.new) }
    ensures fixed { StaysFixed (O.built op.old) (O.built op.new) }
    ensures next { O.next op.new ≡ O.next op.old }
    ensures out { (L.tells outside.new.link).out ≡ (L.tells outside.old.link).out }
    ensures words { outside.new.words ≡ outside.old.words }
    ensures call { outside.new.call ≡ outside.old.call }
    ensures counted { (sends.new ≡ sends.old) ⊎ IsSome (O.built op.new) }
{
    let retryability = op.retryability(client.options());
    let mut held = ExecutionSession::nothing();
    let mut kept: Option<Retry> = None;
    'attempts: loop {
        if limit_reached(&kept) {
            return (held, Err(last_error(kept)));
        }
        let (next, attempt) = make_attempt(
            alloc,
            client,
            outside,
            op,
            places,
            held,
            kept.as_ref(),
            sends,
        );
        held = next;
        let failure = match failure_of(attempt) {
            Ok(failure) => failure,
            Err(end) => return (held, answer_of(end, kept)),
        };
        match decide(
            alloc,
            kept,
            failure,
            op,
            retryability,
            client.options(),
            sharded,
        ) {
            Ok(retry) => kept = Some(retry),
            Err(error) => return (held, Err(error)),
        }
    }
}

/// The failure of an attempt that failed, or else its end. Inlined, since a call of it clears and copies what both
/// ends leave empty.
#[inline(always)]
fn failure_of<T>(attempt: AttemptEnd<T>) -> std::result::Result<AttemptFailure, AttemptEnd<T>>
    ensures { FailureOf attempt result }
{
    match attempt {
        AttemptEnd::Failed(failure) => Ok(failure),
        end => Err(end),
    }
}

/// The result of an operation whose last attempt ended so.
fn answer_of<T>(end: AttemptEnd<T>, kept: Option<Retry>) -> Result<T>
    requires { MayAnswer kept end }
    ensures { EndsWith kept end result }
{
    match end {
        AttemptEnd::Failed(failure) => {
            drop(failure);
            drop(kept);
            unreachable!()
        }
        AttemptEnd::Done(output) => {
            drop(kept);
            Ok(output)
        }
        AttemptEnd::Unselected(error) => Err(kept_or(kept, error)),
        AttemptEnd::Stopped | AttemptEnd::Unfit => Err(last_error(kept)),
        AttemptEnd::Ended(error) => {
            drop(kept);
            Err(error)
        }
    }
}

/// Whether no further attempt is made.
fn limit_reached(kept: &Option<Retry>) -> bool
    ensures { result ≡ limit_reached kept.now }
{
    match kept {
        Some(retry) => retry.max_retries_reached(),
        None => false,
    }
}

/// The error of the failure that is kept.
fn last_error(kept: Option<Retry>) -> Error
    requires { IsSome kept }
    ensures { IsLastError kept result }
{
    match kept {
        Some(retry) => retry.last_error(),
        None => unreachable!(),
    }
}

/// The error of the failure that is kept, else this one.
fn kept_or(kept: Option<Retry>, error: Error) -> Error
    ensures { result ≡ kept_or kept error }
{
    match kept {
        Some(retry) => {
            drop(error);
            retry.last_error()
        }
        None => error,
    }
}

/// What is decided after a failure.
fn decide<O: Operation>(
    alloc: Global,
    kept: Option<Retry>,
    failure: AttemptFailure,
    op: &O,
    retryability: Retryability,
    options: &ClientOptions,
    sharded: bool,
) -> Result<Retry>
    ensures { Decides (decide kept failure retryability sharded) result }
{
    let AttemptFailure {
        error,
        phase,
        address,
        number,
    } = failure;
    match phase {
        FailurePhase::ConnectionEstablishment => Retry::for_connection_establishment_failure(
            alloc,
            kept,
            error,
            number,
            &address,
            op,
            retryability,
            options,
            sharded,
        ),
        FailurePhase::Execution => Retry::for_execution_failure(
            alloc,
            kept,
            error,
            number,
            &address,
            op,
            retryability,
            options,
            sharded,
        ),
    }
}
