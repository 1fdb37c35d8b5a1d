//! The bulk write, from its caller's models to its answer.
ghost use Rattle.std.specs.Prelude.{◌≡◌, IfErr, Ok as Fine};
ghost use Rattle.driver_attempt.specs.Client.{options_of};
ghost use Rattle.driver_attempt.specs.Failures.{MemoryAlone};
ghost use Rattle.driver_attempt.specs.Moment.{moment_of};
ghost use Rattle.bulk_actions.specs.BulkCalls.{AnswersStanding, BulkCaused, MakesBulk};
ghost use Rattle.bulk_actions.specs.inside.BulkBatches.{IsBegun};

use crate::bulk_batches::make_batches;
use crate::bulk_start::bulk_ops;
use bulk_outcomes::{BulkWriteResult, ExecutionStatus};
use driver_attempt::{Client, Outside};
use driver_error::Result;
use driver_link::{Clock, Link};
use driver_options::{BulkWriteOptions, WriteModel};
use driver_session::SessionStore;
use many_actions::places_from;
use rand_core::Rng;
use std::alloc::Global;

/// Makes a bulk write of models: their input is judged before anything is drawn, then each inserted document without an id
/// gets one, once for the whole call, and then the batches are made. Model i has the place (`outside.call`, i).
pub fn bulk_all<S: SessionStore, L: Link, K: Clock, R: Rng, T: BulkWriteResult>(
    alloc: Global,
    client: &mut Client<S>,
    outside: &mut Outside<L, K, R>,
    models: &[WriteModel],
    options: &BulkWriteOptions,
) -> Result<T>
    ensures makes { MakesBulk T.tells
        (moment_of S.tells L.tells K.tells R.stream client.old outside.old)
        (moment_of S.tells L.tells K.tells R.stream client.new outside.new)
        models.now options.now outside.old.call result }
    ensures cause { BulkCaused T.tells
        (moment_of S.tells L.tells K.tells R.stream client.old outside.old)
        (moment_of S.tells L.tells K.tells R.stream client.new outside.new)
        models.now options.now outside.old.call result }
    ensures memory { IfErr result (λ error. MemoryAlone error) }
    ensures options { options_of client.new ≡ options_of client.old }
    ensures call { outside.new.call ≡ outside.old.call }
{
    let own = bulk_ops(alloc, client, models, options)?;
    let places = places_from(alloc, outside.call, own.len())?;
    let standing = make_batches::<S, L, K, R, T>(
        alloc,
        client,
        outside,
        own.as_slice(),
        places.as_slice(),
        options,
    )?;
    answer(standing)
}

/// The answer behind whose batches this stands.
fn answer<T: BulkWriteResult>(standing: ExecutionStatus<T>) -> Result<T>
    requires { IsBegun standing }
    ensures { AnswersStanding (Fine standing) result }
{
    match standing {
        ExecutionStatus::Success(found) => Ok(found),
        ExecutionStatus::Error(error) => Err(error),
        ExecutionStatus::None => unreachable!(),
    }
}
