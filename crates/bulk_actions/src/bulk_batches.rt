//! The batches of a bulk write, one operation each, and what stands behind them.
ghost use Rattle.std.specs.Prelude.{◌≡◌, ◌<◌, true, drop, length, IfErr, IfOk, IfSome, OnErr, None as Unset, Some as Set, if◌then◌else◌};
ghost use Rattle.bulk_outcomes.specs.Status.{Stands, goes_on};
ghost use Rattle.bulk_fronts.specs.BulkWrites.{bulk_is_ordered};
ghost use Rattle.driver_attempt.specs.Client.{options_of};
ghost use Rattle.driver_attempt.specs.Failures.{MemoryAlone};
ghost use Rattle.driver_attempt.specs.Moment.{moment_of};
ghost use Rattle.many_actions.specs.BatchPlans.{places_from};
ghost use Rattle.bulk_actions.specs.BulkBatches.{Takes};
ghost use Rattle.bulk_actions.specs.inside.BulkBatches.{AreBulkOps, BulkBatchMade, EndHasKind, MakesBatches, NextWithin, StandsAlone, StepsTo};

use bulk_fronts::OwnOp;
use bulk_ops::BulkWriteOp;
use bulk_outcomes::laws::{what_is_followed_stands, what_stands_keeps_its_kind};
use bulk_outcomes::{BulkWriteResult, ExecutionStatus};
use driver_attempt::{Client, Outside, Steps};
use driver_error::{Error, ErrorKind, Result};
use driver_exec::execute_operation;
use driver_link::{Clock, Link, Place};
use driver_ops::Operation;
use driver_options::BulkWriteOptions;
use driver_session::SessionStore;
use many_actions::rest_from;
use rand_core::Rng;
use std::alloc::{AllocError, Global};
use std::marker::Brand;
use std::sync::ledger::{Blank, Ledger};

/// A batch that was made: how many ops its command has, which tells nothing before it was built, and what its operation
/// came to.
#[derive(Drop)]
struct MadeBatch<T> {
    count: usize,
    came: Result<T>,
}

/// What comes behind a batch: what stands then, and behind how many ops the next batch is made, where there is one.
#[derive(Drop)]
pub(crate) struct Behind<T> {
    pub(crate) standing: ExecutionStatus<T>,
    pub(crate) next: Option<usize>,
}

/// A bulk write stops at the first write that fails, unless its options say that it goes on.
fn is_ordered(options: &BulkWriteOptions) -> bool
    ensures { result ≡ bulk_is_ordered options.now }
{
    options.ordered.unwrap_or(true)
}

/// Makes one batch of a call's ops, from the index `first` on, with the places of those that are left and a count of its
/// sends over a ledger. It answers want of memory alone, before anything was asked.
fn make_batch<S: SessionStore, L: Link, K: Clock, R: Rng, T: BulkWriteResult, Q: Ledger>(
    alloc: Global,
    client: &mut Client<S>,
    outside: &mut Outside<L, K, R>,
    first: usize,
    own: &[OwnOp],
    places: &[Place],
    options: &BulkWriteOptions,
    blank: Blank,
) -> std::result::Result<MadeBatch<T>, AllocError>
    requires name { blank.name ≡ Q.name }
    requires parts { blank.parts ≡ Q.parts }
    requires some { 0 < blank.parts }
    requires within { first < length own.now }
    requires placed { places.now ≡ places_from outside.old.call first (length (drop first own.now)) }
    requires ops { AreBulkOps own.now }
    ensures made { IfOk result (λ batch. BulkBatchMade T.tells options.now outside.old.call first
        (drop first own.now)
        (moment_of S.tells L.tells K.tells R.stream client.old outside.old)
        (moment_of S.tells L.tells K.tells R.stream client.new outside.new)
        batch.count batch.came) }
    ensures memory { IfOk result (λ batch. IfErr batch.came (λ error. MemoryAlone error)) }
    ensures unmade { OnErr result (
        moment_of S.tells L.tells K.tells R.stream client.new outside.new
        ≡ moment_of S.tells L.tells K.tells R.stream client.old outside.old) }
    ensures options { options_of client.new ≡ options_of client.old }
    ensures call { outside.new.call ≡ outside.old.call }
{
    let mut op: BulkWriteOp<'_, T> = BulkWriteOp::new(alloc, own, first, options)?;
    let mut sends: Steps<Q> = Steps::new(blank);
    let came = execute_operation(alloc, client, &mut op, places, outside, &mut sends);
    let count = op.statements();
    Ok(MadeBatch { count, came })
}

/// What stands once a batch came to this.
fn taken<T: BulkWriteResult>(
    alloc: Global,
    standing: ExecutionStatus<T>,
    came: Result<T>,
) -> Result<ExecutionStatus<T>>
    requires standing { Stands T.tells standing }
    requires given { EndHasKind T.tells came }
    ensures { Takes T.tells standing came result }
{
    match came {
        Ok(found) => standing.with_success(alloc, found),
        Err(error) => standing.with_failure(alloc, error),
    }
}

/// Behind how many ops the next batch is made, where there is one.
fn count_behind(on: bool, count: usize) -> Option<usize>
    ensures { result ≡ if on then Set count else Unset }
{
    if on { Some(count) } else { None }
}

/// Makes the next batch of a call's ops, from an index on, and says what stands behind it.
#[tactic(auto, using(many_actions::proofs::BatchPlaces::covers))]
fn next_batch<S: SessionStore, L: Link, K: Clock, R: Rng, T: BulkWriteResult>(
    alloc: Global,
    client: &mut Client<S>,
    outside: &mut Outside<L, K, R>,
    first: usize,
    own: &[OwnOp],
    places: &[Place],
    options: &BulkWriteOptions,
    standing: ExecutionStatus<T>,
) -> Result<Behind<T>>
    requires within { first < length own.now }
    requires placed { places.now ≡ places_from outside.old.call 0 (length own.now) }
    requires ops { AreBulkOps own.now }
    requires standing { Stands T.tells standing }
    requires goes { goes_on (bulk_is_ordered options.now) standing ≡ true }
    ensures steps { StepsTo T.tells options.now outside.old.call first own.now
        (moment_of S.tells L.tells K.tells R.stream client.old outside.old)
        (moment_of S.tells L.tells K.tells R.stream client.new outside.new)
        standing result }
    ensures within { IfOk result (λ behind. NextWithin first (length own.now) behind.next) }
    ensures stands { IfOk result (λ behind. IfSome behind.next (λ count. Stands T.tells behind.standing)) }
    ensures goes { IfOk result (λ behind. IfSome behind.next
        (λ count. goes_on (bulk_is_ordered options.now) behind.standing ≡ true)) }
    ensures memory { IfErr result (λ error. MemoryAlone error) }
    ensures alone { IfOk result (λ behind. StandsAlone behind.standing) }
    ensures options { options_of client.new ≡ options_of client.old }
    ensures call { outside.new.call ≡ outside.old.call }
{
    // laws, which do nothing: what stands where a next batch is made can take what comes of it
    what_is_followed_stands::<T>();
    what_stands_keeps_its_kind::<T>();
    let their = rest_from(places, first);
    let blank = Blank::new(1);
    let made = match make_batch::<S, L, K, R, T, Brand>(
        alloc, client, outside, first, own, their, options, blank,
    ) {
        Ok(made) => made,
        Err(_refused) => {
            drop(standing);
            return Err(Error::from_kind(ErrorKind::Memory));
        }
    };
    let MadeBatch { count, came } = made;
    let later = taken(alloc, standing, came)?;
    let on = later.should_continue(is_ordered(options));
    Ok(Behind {
        standing: later,
        next: count_behind(on, count),
    })
}

/// Makes the batches of a call's ops one after another, each behind the one before, until there are no ops left, or no
/// other batch is made.
pub(crate) fn make_batches<S: SessionStore, L: Link, K: Clock, R: Rng, T: BulkWriteResult>(
    alloc: Global,
    client: &mut Client<S>,
    outside: &mut Outside<L, K, R>,
    own: &[OwnOp],
    places: &[Place],
    options: &BulkWriteOptions,
) -> Result<ExecutionStatus<T>>
    requires some { 0 < length own.now }
    requires placed { places.now ≡ places_from outside.old.call 0 (length own.now) }
    requires ops { AreBulkOps own.now }
    ensures makes { MakesBatches T.tells options.now outside.old.call own.now
        (moment_of S.tells L.tells K.tells R.stream client.old outside.old)
        (moment_of S.tells L.tells K.tells R.stream client.new outside.new)
        result }
    ensures memory { IfErr result (λ error. MemoryAlone error) }
    ensures alone { IfOk result (λ standing. StandsAlone standing) }
    ensures options { options_of client.new ≡ options_of client.old }
    ensures call { outside.new.call ≡ outside.old.call }
{
    let mut standing = ExecutionStatus::None;
    let mut first: usize = 0;
    'batches: while first < own.len() {
        let behind = next_batch(
            alloc, client, outside, first, own, places, options, standing,
        )?;
        standing = behind.standing;
        match behind.next {
            Some(count) => first += count,
            None => return Ok(standing),
        }
    }
    Ok(standing)
}
