//! One call of a list.
ghost use Rattle.std.specs.Prelude.{◌≡◌, IfErr};
ghost use Rattle.bulk_outcomes.specs.BulkResults.{summary_spec, verbose_spec};
ghost use Rattle.driver_ops.specs.Targets.{in_collection};
ghost use Rattle.driver_attempt.specs.Client.{options_of};
ghost use Rattle.driver_attempt.specs.Failures.{MemoryAlone};
ghost use Rattle.driver_attempt.specs.Moment.{moment_of};
ghost use Rattle.driver_actions.specs.Causes.{WriteCaused};
ghost use Rattle.many_actions.specs.ManyCalls.{MakesMany, ManyCaused};
ghost use Rattle.driver_actions.specs.SingleCalls.{Makes, first_place};
ghost use Rattle.call_runs.specs.CallByCall.{CallCaused};
ghost use Rattle.bulk_actions.specs.BulkCalls.{BulkCaused, MakesBulk};
ghost use Rattle.call_runs.specs.CallMaking.{BulkHasCause, HasCause, MakesBulkCall, MakesCall, OfMany, OfSingle, OfSummary, OfVerbose};
ghost use Rattle.driver_inputs.specs.Forms.{form_of};

use bson_lite::{Document, List, Namespace, TryClone};
use bulk_actions::bulk_all::bulk_all;
use bulk_outcomes::BulkWriteResult;
use driver_actions::SingleWrites;
use driver_attempt::{Client, Outside};
use driver_error::{InsertManyResult, Result, SummaryBulkWriteResult, VerboseBulkWriteResult};
use driver_inputs::{Answer, Call, Outcome, SingleWrite};
use driver_link::{Clock, Link};
use driver_ops::Collection;
use driver_options::{BulkWriteOptions, InsertManyOptions, WriteModel};
use driver_session::SessionStore;
use many_actions::insert_all::insert_all;
use rand_core::Rng;
use std::alloc::Global;

/// Makes a call, whose number is that of the current one (`outside.call`), and reads the clock before and
/// after it.
pub(crate) fn make_call<S: SessionStore, L: Link, K: Clock, R: Rng>(
    alloc: Global,
    client: &mut Client<S>,
    outside: &mut Outside<L, K, R>,
    call: &Call,
) -> Outcome
    ensures caused { CallCaused outside.old.call
        (moment_of S.tells L.tells K.tells R.stream client.old outside.old)
        (moment_of S.tells L.tells K.tells R.stream client.new outside.new)
        call.now result }
    ensures options { options_of client.new ≡ options_of client.old }
    ensures call { outside.new.call ≡ outside.old.call }
{
    let started_ms = outside.clock.now_ms();
    let result = answer_call(alloc, client, outside, call);
    let ended_ms = outside.clock.now_ms();
    Outcome {
        result,
        started_ms,
        ended_ms,
    }
}

/// Makes a call: a single write has the first place of its call, and document i of an insert of many place i, as has model i
/// of a bulk write.
fn answer_call<S: SessionStore, L: Link, K: Clock, R: Rng>(
    alloc: Global,
    client: &mut Client<S>,
    outside: &mut Outside<L, K, R>,
    call: &Call,
) -> Result<Answer>
    ensures makes { MakesCall
        (moment_of S.tells L.tells K.tells R.stream client.old outside.old)
        (moment_of S.tells L.tells K.tells R.stream client.new outside.new)
        call.now outside.old.call result }
    ensures cause { HasCause
        (moment_of S.tells L.tells K.tells R.stream client.old outside.old)
        (moment_of S.tells L.tells K.tells R.stream client.new outside.new)
        call.now outside.old.call result }
    ensures memory { IfErr result (λ error. MemoryAlone error) }
    ensures options { options_of client.new ≡ options_of client.old }
    ensures call { outside.new.call ≡ outside.old.call }
{
    match call {
        Call::Single { write } => answer_single(alloc, client, outside, write),
        Call::InsertMany {
            namespace,
            documents,
            options,
        } => answer_many(alloc, client, outside, namespace, documents, options),
        Call::BulkWrite {
            models,
            options,
            verbose,
        } => answer_bulk(alloc, client, outside, models, options, *verbose),
    }
}

/// Makes a single write.
fn answer_single<S: SessionStore, L: Link, K: Clock, R: Rng>(
    alloc: Global,
    client: &mut Client<S>,
    outside: &mut Outside<L, K, R>,
    write: &SingleWrite,
) -> Result<Answer>
    ensures makes { OfSingle (Makes
        (moment_of S.tells L.tells K.tells R.stream client.old outside.old)
        (moment_of S.tells L.tells K.tells R.stream client.new outside.new)
        (form_of write.now) (first_place outside.old.call)) result }
    ensures cause { WriteCaused
        (moment_of S.tells L.tells K.tells R.stream client.old outside.old)
        (moment_of S.tells L.tells K.tells R.stream client.new outside.new)
        (form_of write.now) result }
    ensures memory { IfErr result (λ error. MemoryAlone error) }
    ensures options { options_of client.new ≡ options_of client.old }
    ensures call { outside.new.call ≡ outside.old.call }
{
    match client.single(alloc, write, outside) {
        Ok(answer) => Ok(Answer::Single(answer)),
        Err(error) => Err(error),
    }
}

/// Makes an insert of many documents.
fn answer_many<S: SessionStore, L: Link, K: Clock, R: Rng>(
    alloc: Global,
    client: &mut Client<S>,
    outside: &mut Outside<L, K, R>,
    namespace: &Namespace,
    documents: &List<Document>,
    options: &InsertManyOptions,
) -> Result<Answer>
    ensures makes { OfMany (MakesMany
        (moment_of S.tells L.tells K.tells R.stream client.old outside.old)
        (moment_of S.tells L.tells K.tells R.stream client.new outside.new)
        (in_collection namespace.now) documents.now options.now outside.old.call) result }
    ensures cause { OfMany (ManyCaused
        (moment_of S.tells L.tells K.tells R.stream client.old outside.old)
        (moment_of S.tells L.tells K.tells R.stream client.new outside.new)
        (in_collection namespace.now) documents.now options.now outside.old.call) result }
    ensures memory { IfErr result (λ error. MemoryAlone error) }
    ensures options { options_of client.new ≡ options_of client.old }
    ensures call { outside.new.call ≡ outside.old.call }
{
    match insert_into(alloc, client, outside, namespace, documents, options) {
        Ok(output) => Ok(Answer::Many(output)),
        Err(failure) => Err(failure),
    }
}

/// Inserts documents into a collection that has no concern of its own.
fn insert_into<S: SessionStore, L: Link, K: Clock, R: Rng>(
    alloc: Global,
    client: &mut Client<S>,
    outside: &mut Outside<L, K, R>,
    namespace: &Namespace,
    documents: &List<Document>,
    options: &InsertManyOptions,
) -> Result<InsertManyResult>
    ensures makes { MakesMany
        (moment_of S.tells L.tells K.tells R.stream client.old outside.old)
        (moment_of S.tells L.tells K.tells R.stream client.new outside.new)
        (in_collection namespace.now) documents.now options.now outside.old.call result }
    ensures cause { ManyCaused
        (moment_of S.tells L.tells K.tells R.stream client.old outside.old)
        (moment_of S.tells L.tells K.tells R.stream client.new outside.new)
        (in_collection namespace.now) documents.now options.now outside.old.call result }
    ensures memory { IfErr result (λ error. MemoryAlone error) }
    ensures options { options_of client.new ≡ options_of client.old }
    ensures call { outside.new.call ≡ outside.old.call }
{
    let collection = Collection {
        namespace: namespace.try_clone(alloc)?,
        write_concern: None,
    };
    let documents = documents.as_slice();
    insert_all(alloc, client, outside, &collection, documents, options)
}

/// Makes a bulk write, whose answer is counts alone, or the result of each write too.
fn answer_bulk<S: SessionStore, L: Link, K: Clock, R: Rng>(
    alloc: Global,
    client: &mut Client<S>,
    outside: &mut Outside<L, K, R>,
    models: &List<WriteModel>,
    options: &BulkWriteOptions,
    verbose: bool,
) -> Result<Answer>
    ensures makes { MakesBulkCall
        (moment_of S.tells L.tells K.tells R.stream client.old outside.old)
        (moment_of S.tells L.tells K.tells R.stream client.new outside.new)
        models.now options.now verbose outside.old.call result }
    ensures cause { BulkHasCause
        (moment_of S.tells L.tells K.tells R.stream client.old outside.old)
        (moment_of S.tells L.tells K.tells R.stream client.new outside.new)
        models.now options.now verbose outside.old.call result }
    ensures memory { IfErr result (λ error. MemoryAlone error) }
    ensures options { options_of client.new ≡ options_of client.old }
    ensures call { outside.new.call ≡ outside.old.call }
{
    if verbose {
        answer_verbose(alloc, client, outside, models, options)
    } else {
        answer_summary(alloc, client, outside, models, options)
    }
}

/// Makes a bulk write that answers its counts alone.
fn answer_summary<S: SessionStore, L: Link, K: Clock, R: Rng>(
    alloc: Global,
    client: &mut Client<S>,
    outside: &mut Outside<L, K, R>,
    models: &List<WriteModel>,
    options: &BulkWriteOptions,
) -> Result<Answer>
    ensures makes { OfSummary (MakesBulk summary_spec
        (moment_of S.tells L.tells K.tells R.stream client.old outside.old)
        (moment_of S.tells L.tells K.tells R.stream client.new outside.new)
        models.now options.now outside.old.call) result }
    ensures cause { OfSummary (BulkCaused summary_spec
        (moment_of S.tells L.tells K.tells R.stream client.old outside.old)
        (moment_of S.tells L.tells K.tells R.stream client.new outside.new)
        models.now options.now outside.old.call) result }
    ensures memory { IfErr result (λ error. MemoryAlone error) }
    ensures options { options_of client.new ≡ options_of client.old }
    ensures call { outside.new.call ≡ outside.old.call }
{
    match write_models::<S, L, K, R, SummaryBulkWriteResult>(
        alloc, client, outside, models, options,
    ) {
        Ok(output) => Ok(Answer::Summary(output)),
        Err(failure) => Err(failure),
    }
}

/// Makes a bulk write that answers the result of each write too.
fn answer_verbose<S: SessionStore, L: Link, K: Clock, R: Rng>(
    alloc: Global,
    client: &mut Client<S>,
    outside: &mut Outside<L, K, R>,
    models: &List<WriteModel>,
    options: &BulkWriteOptions,
) -> Result<Answer>
    ensures makes { OfVerbose (MakesBulk verbose_spec
        (moment_of S.tells L.tells K.tells R.stream client.old outside.old)
        (moment_of S.tells L.tells K.tells R.stream client.new outside.new)
        models.now options.now outside.old.call) result }
    ensures cause { OfVerbose (BulkCaused verbose_spec
        (moment_of S.tells L.tells K.tells R.stream client.old outside.old)
        (moment_of S.tells L.tells K.tells R.stream client.new outside.new)
        models.now options.now outside.old.call) result }
    ensures memory { IfErr result (λ error. MemoryAlone error) }
    ensures options { options_of client.new ≡ options_of client.old }
    ensures call { outside.new.call ≡ outside.old.call }
{
    match write_models::<S, L, K, R, VerboseBulkWriteResult>(
        alloc, client, outside, models, options,
    ) {
        Ok(output) => Ok(Answer::Verbose(output)),
        Err(failure) => Err(failure),
    }
}

/// Makes the writes of models, with results of the kind `T`.
fn write_models<S: SessionStore, L: Link, K: Clock, R: Rng, T: BulkWriteResult>(
    alloc: Global,
    client: &mut Client<S>,
    outside: &mut Outside<L, K, R>,
    models: &List<WriteModel>,
    options: &BulkWriteOptions,
) -> Result<T>
    ensures makes { MakesBulk T.tells
        (moment_of S.tells L.tells K.tells R.stream client.old outside.old)
        (moment_of S.tells L.tells K.tells R.stream client.new outside.new)
        models.now options.now outside.old.call result }
    ensures cause { BulkCaused T.tells
        (moment_of S.tells L.tells K.tells R.stream client.old outside.old)
        (moment_of S.tells L.tells K.tells R.stream client.new outside.new)
        models.now options.now outside.old.call result }
    ensures memory { IfErr result (λ error. MemoryAlone error) }
    ensures options { options_of client.new ≡ options_of client.old }
    ensures call { outside.new.call ≡ outside.old.call }
{
    let models = models.as_slice();
    bulk_all::<S, L, K, R, T>(alloc, client, outside, models, options)
}
