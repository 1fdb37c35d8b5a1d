//! The batches of an insert of many documents, one operation each.
ghost use Rattle.std.specs.Prelude.{◌≡◌, ◌<◌, ◌≤◌, drop, length, IfErr, IfOk, OnErr};
ghost use Rattle.driver_ops.specs.Inserts.{insert_is_ordered};
ghost use Rattle.driver_ops.specs.declared.target.OperationTarget.TheVariants.{Collection as Within};
ghost use Rattle.driver_attempt.specs.Client.{options_of};
ghost use Rattle.driver_attempt.specs.Failures.{MemoryAlone};
ghost use Rattle.driver_attempt.specs.Moment.{moment_of};
ghost use Rattle.many_actions.specs.Batches.{goes_on, places_from};
ghost use Rattle.many_actions.specs.ManyAnswers.{nothing_gathered};
ghost use Rattle.many_actions.specs.inside.Batches.{AreSpelled, BatchMade, BatchesMade, ComesBehind, GathersAll, NextBehind, StepsWithin, StoppedAlone};

use crate::behind::Behind;
use crate::gathered::{Gathered, tells_documents};
use bson_lite::TryClone;
use driver_attempt::{Client, Outside, Steps};
use driver_error::{Error, ErrorKind, InsertManyResult, Result};
use driver_exec::execute_operation;
use driver_link::{Clock, Link, Place};
use driver_ops::{Collection, Operation};
use driver_options::InsertManyOptions;
use driver_session::SessionStore;
use rand_core::Rng;
use std::alloc::{AllocError, Global};
use std::marker::Brand;
use std::sync::ledger::{Blank, Ledger};
use write_ops::{Insert, OwnDocument};

/// The places of so many writes of a call, from the first one on. It answers want of memory alone.
#[tactic(auto, using(crate::proofs::BatchPlaces::places_more))]
pub fn places_from(
    alloc: Global,
    call: u64,
    count: usize,
) -> std::result::Result<Vec<Place>, AllocError>
    ensures { IfOk result (λ places. places.items ≡ places_from call 0 count) }
{
    let mut places = Vec::with_capacity(alloc, count)?;
    for index in 0..count {
        places.push(Place {
            call,
            index: index as u64,
        })?;
    }
    Ok(places)
}

/// What is left of a list from an index on.
#[tactic(auto, using(crate::proofs::BatchPlaces::left_whole))]
pub fn rest_from<T>(all: &[T], first: usize) -> &[T]
    requires { first ≤ length all.now }
    ensures { result.now ≡ drop first all.now }
{
    &all[first..]
}

/// A copy of a collection with its concern.
pub(crate) fn copy_of(
    alloc: Global,
    collection: &Collection,
) -> std::result::Result<Collection, AllocError>
    ensures { IfOk result (λ copy. copy ≡ collection.now) }
{
    Ok(Collection {
        namespace: collection.namespace.try_clone(alloc)?,
        write_concern: collection.write_concern.try_clone(alloc)?,
    })
}

/// An insert stops at the first document that fails, unless its options say that it goes on.
fn is_ordered(options: &InsertManyOptions) -> bool
    ensures { result ≡ insert_is_ordered options.now }
{
    options.ordered.unwrap_or(true)
}

/// Whether the next batch is begun behind one that came to this.
fn goes_on(ordered: bool, came: &Result<InsertManyResult>) -> bool
    ensures { result ≡ goes_on ordered came.now }
{
    match came {
        Ok(_) => true,
        Err(error) => {
            if ordered {
                false
            } else {
                tells_documents(error)
            }
        }
    }
}

/// What comes behind a batch of so many documents.
fn behind(on: bool, count: usize) -> Behind
    ensures { NextBehind on count result }
{
    if on {
        Behind::Next(count)
    } else {
        Behind::Over
    }
}

/// A batch that was made: how many documents its command has, which tells nothing before it was built, and what its
/// operation came to.
#[derive(Drop)]
struct MadeBatch {
    count: usize,
    came: Result<InsertManyResult>,
}

/// Makes one batch of the documents that are left, of which the first has this index, with their places and a count
/// of its sends over a ledger. It answers want of memory alone, before anything was asked.
fn make_batch<S: SessionStore, L: Link, K: Clock, R: Rng, Q: Ledger>(
    alloc: Global,
    client: &mut Client<S>,
    outside: &mut Outside<L, K, R>,
    collection: &Collection,
    first: usize,
    own: &[OwnDocument],
    places: &[Place],
    options: &InsertManyOptions,
    blank: Blank,
) -> std::result::Result<MadeBatch, AllocError>
    requires name { blank.name ≡ Q.name }
    requires parts { blank.parts ≡ Q.parts }
    requires some { 0 < blank.parts }
    requires left { 0 < length own.now }
    requires placed { places.now ≡ places_from outside.old.call first (length own.now) }
    requires spelled { AreSpelled own.now }
    ensures made { IfOk result (λ batch. BatchMade
        (Within collection.now) options.now outside.old.call first own.now
        (moment_of S.tells L.tells K.tells R.stream client.old outside.old)
        (moment_of S.tells L.tells K.tells R.stream client.new outside.new)
        batch.count batch.came) }
    ensures unmade { OnErr result (
        moment_of S.tells L.tells K.tells R.stream client.new outside.new
        ≡ moment_of S.tells L.tells K.tells R.stream client.old outside.old) }
    ensures memory { IfOk result (λ batch. IfErr batch.came (λ error. MemoryAlone error)) }
    ensures options { options_of client.new ≡ options_of client.old }
    ensures call { outside.new.call ≡ outside.old.call }
{
    let copy = copy_of(alloc, collection)?;
    let mut insert = Insert::new(copy, first, own, options);
    let mut sends: Steps<Q> = Steps::new(blank);
    let came = execute_operation(alloc, client, &mut insert, places, outside, &mut sends);
    let count = insert.statements();
    Ok(MadeBatch { count, came })
}

/// Makes the next batch of a call's documents, from an index on, and gathers what it came to.
#[tactic(auto, using(crate::proofs::BatchPlaces::some_left, crate::proofs::BatchPlaces::covers))]
fn gather_batch<S: SessionStore, L: Link, K: Clock, R: Rng>(
    alloc: Global,
    client: &mut Client<S>,
    outside: &mut Outside<L, K, R>,
    collection: &Collection,
    first: usize,
    own: &[OwnDocument],
    places: &[Place],
    options: &InsertManyOptions,
    gathered: &mut Gathered,
) -> Behind
    requires within { first < length own.now }
    requires placed { places.now ≡ places_from outside.old.call 0 (length own.now) }
    requires spelled { AreSpelled own.now }
    ensures comes { ComesBehind (Within collection.now) options.now outside.old.call first own.now
        (moment_of S.tells L.tells K.tells R.stream client.old outside.old)
        (moment_of S.tells L.tells K.tells R.stream client.new outside.new)
        gathered.old gathered.new result }
    ensures steps { StepsWithin first (length own.now) result }
    ensures memory { StoppedAlone result }
    ensures options { options_of client.new ≡ options_of client.old }
    ensures call { outside.new.call ≡ outside.old.call }
{
    let rest = rest_from(own, first);
    let their = rest_from(places, first);
    let blank = Blank::new(1);
    let made = match make_batch::<S, L, K, R, Brand>(
        alloc, client, outside, collection, first, rest, their, options, blank,
    ) {
        Ok(made) => made,
        Err(_refused) => return Behind::Stopped(Error::from_kind(ErrorKind::Memory)),
    };
    let MadeBatch { count, came } = made;
    let on = goes_on(is_ordered(options), &came);
    match gathered.take(alloc, first, count, came) {
        Ok(()) => behind(on, count),
        Err(error) => Behind::Stopped(error),
    }
}

/// Makes the batches of a call's documents one after another, each begun behind the one before, and gathers what they
/// came to, until there are no documents left, or no other batch is begun.
fn gather_batches<S: SessionStore, L: Link, K: Clock, R: Rng>(
    alloc: Global,
    client: &mut Client<S>,
    outside: &mut Outside<L, K, R>,
    collection: &Collection,
    own: &[OwnDocument],
    places: &[Place],
    options: &InsertManyOptions,
    gathered: &mut Gathered,
) -> Result<()>
    requires placed { places.now ≡ places_from outside.old.call 0 (length own.now) }
    requires spelled { AreSpelled own.now }
    requires nothing { gathered.old ≡ nothing_gathered }
    ensures gathers { GathersAll (Within collection.now) options.now outside.old.call own.now
        (moment_of S.tells L.tells K.tells R.stream client.old outside.old)
        (moment_of S.tells L.tells K.tells R.stream client.new outside.new)
        gathered.new result }
    ensures memory { IfErr result (λ error. MemoryAlone error) }
    ensures options { options_of client.new ≡ options_of client.old }
    ensures call { outside.new.call ≡ outside.old.call }
{
    let mut first: usize = 0;
    'batches: while first < own.len() {
        match gather_batch(
            alloc, client, outside, collection, first, own, places, options, gathered,
        ) {
            Behind::Next(count) => first += count,
            Behind::Over => return Ok(()),
            Behind::Stopped(error) => return Err(error),
        }
    }
    Ok(())
}

/// Makes the batches of documents. An ordered insert stops at the first error of kind InsertMany, an unordered one
/// goes on behind it, and both stop at any other error, which is answered alone. Document i has the place
/// (`outside.call`, i).
pub(crate) fn make_batches<S: SessionStore, L: Link, K: Clock, R: Rng>(
    alloc: Global,
    client: &mut Client<S>,
    outside: &mut Outside<L, K, R>,
    collection: &Collection,
    own: &[OwnDocument],
    options: &InsertManyOptions,
) -> Result<InsertManyResult>
    requires spelled { AreSpelled own.now }
    ensures makes { BatchesMade (Within collection.now) options.now outside.old.call own.now
        (moment_of S.tells L.tells K.tells R.stream client.old outside.old)
        (moment_of S.tells L.tells K.tells R.stream client.new outside.new)
        result }
    ensures memory { IfErr result (λ error. MemoryAlone error) }
    ensures options { options_of client.new ≡ options_of client.old }
    ensures call { outside.new.call ≡ outside.old.call }
{
    let places = places_from(alloc, outside.call, own.len())?;
    let mut gathered = Gathered::nothing(alloc);
    gather_batches(
        alloc,
        client,
        outside,
        collection,
        own,
        places.as_slice(),
        options,
        &mut gathered,
    )?;
    gathered.answer(alloc)
}
