//! The insert of many documents, from its caller to its answer.
ghost use Rattle.std.specs.Prelude.{◌≡◌, IfErr};
ghost use Rattle.driver_ops.specs.declared.target.OperationTarget.TheVariants.{Collection as Within};
ghost use Rattle.driver_attempt.specs.Client.{options_of};
ghost use Rattle.driver_attempt.specs.Failures.{MemoryAlone};
ghost use Rattle.driver_attempt.specs.Moment.{moment_of};
ghost use Rattle.many_actions.specs.ManyCalls.{MakesMany, ManyCaused};

use crate::batches::make_batches;
use bson_lite::Document;
use driver_actions::own_documents;
use driver_attempt::{Client, Outside};
use driver_error::{InsertManyResult, Result};
use driver_inputs::many_refusal::many_refusal;
use driver_link::{Clock, Link};
use driver_ops::Collection;
use driver_options::InsertManyOptions;
use driver_session::SessionStore;
use rand_core::Rng;
use std::alloc::Global;

/// Inserts documents into a collection, in as few batches as the server's limits allow. Their input is judged before
/// anything is drawn, then each gets its id, once for the whole call, and then the batches are made. Document i has
/// the place (`outside.call`, i).
pub fn insert_all<S: SessionStore, L: Link, K: Clock, R: Rng>(
    alloc: Global,
    client: &mut Client<S>,
    outside: &mut Outside<L, K, R>,
    collection: &Collection,
    documents: &[Document],
    options: &InsertManyOptions,
) -> Result<InsertManyResult>
    ensures makes { MakesMany
        (moment_of S.tells L.tells K.tells R.stream client.old outside.old)
        (moment_of S.tells L.tells K.tells R.stream client.new outside.new)
        (Within collection.now) documents.now options.now outside.old.call result }
    ensures cause { ManyCaused
        (moment_of S.tells L.tells K.tells R.stream client.old outside.old)
        (moment_of S.tells L.tells K.tells R.stream client.new outside.new)
        (Within collection.now) documents.now options.now outside.old.call result }
    ensures memory { IfErr result (λ error. MemoryAlone error) }
    ensures options { options_of client.new ≡ options_of client.old }
    ensures call { outside.new.call ≡ outside.old.call }
{
    if let Some(error) = many_refusal(alloc, &collection.namespace, documents, options) {
        return Err(error);
    }
    let own = own_documents(alloc, client, documents)?;
    make_batches(alloc, client, outside, collection, own.as_slice(), options)
}
