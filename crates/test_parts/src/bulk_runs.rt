//! Bulk writes of the models of a row by the executor, over any link: whole, or a batch of them from a model on.
ghost use Rattle.std.specs.Prelude.{◌≡◌, ◌<◌, drop, IfOk, length};

use crate::writes::number;
use bson_lite::{Bson, Document, List, Namespace, Text};
use bulk_actions::bulk_ops;
use bulk_fronts::OwnOp;
use bulk_ops::BulkWriteOp;
use bulk_outcomes::BulkWriteResult;
use driver_attempt::{Client, Outside, Steps};
use driver_error::{Result, SummaryBulkWriteResult};
use driver_exec::execute_operation;
use driver_link::{Link, Place};
use driver_options::{
    BulkWriteOptions, ClientOptions, DeleteOneModel, InsertOneModel, UpdateManyModel,
    UpdateModifications, UpdateOneModel, WriteModel,
};
use driver_session::PlainStore;
use memory_links::{CountingIds, MemClock};
use rand_core::SeedableRng;
use rand_pcg::Pcg32;
use std::alloc::{AllocError, Global};
use std::marker::Brand;
use std::sync::ledger::{Blank, Ledger};

/// A model of a row, in `shop.items`.
#[derive(Clone, Copy)]
pub enum Kind {
    Insert,
    UpdateOne,
    UpdateMany,
    DeleteOne,
}

/// A namespace by its two names.
fn named(alloc: Global, db: &str, coll: &str) -> std::result::Result<Namespace, AllocError> {
    Ok(Namespace {
        db: Text::from_str(alloc, db)?,
        coll: Text::from_str(alloc, coll)?,
    })
}

/// `{$set: {y: 2}}`
fn change(alloc: Global) -> std::result::Result<UpdateModifications, AllocError> {
    let mut document = Document::new(alloc);
    document.push("$set", Bson::Document(number(alloc, "y", 2)?))?;
    Ok(UpdateModifications::from(document))
}

/// A model of a row.
fn model_of(alloc: Global, kind: Kind) -> std::result::Result<WriteModel, AllocError> {
    let to = named(alloc, "shop", "items")?;
    let filter = number(alloc, "x", 1)?;
    Ok(match kind {
        Kind::Insert => WriteModel::from(InsertOneModel::new(to, filter)),
        Kind::UpdateOne => WriteModel::from(UpdateOneModel::new(to, filter, change(alloc)?)),
        Kind::UpdateMany => WriteModel::from(UpdateManyModel::new(to, filter, change(alloc)?)),
        Kind::DeleteOne => WriteModel::from(DeleteOneModel::new(to, filter)),
    })
}

/// The models of a row.
pub fn models_of(
    alloc: Global,
    kinds: &[Kind],
) -> std::result::Result<List<WriteModel>, AllocError> {
    let mut models = List::with_capacity(alloc, kinds.len())?;
    for kind in kinds {
        models.push(model_of(alloc, *kind)?)?;
    }
    Ok(models)
}

/// The places of so many writes.
fn places(alloc: Global, count: usize) -> std::result::Result<List<Place>, AllocError>
    ensures { IfOk result (λ places. length places ≡ count) }
{
    let mut places = List::with_capacity(alloc, count)?;
    for index in 0..count {
        places.push(Place {
            call: 0,
            index: index as u64,
        })?;
    }
    Ok(places)
}

/// The places of so many writes as there are ops.
fn places_of(alloc: Global, ops: &[OwnOp]) -> std::result::Result<List<Place>, AllocError>
    ensures { IfOk result (λ places. length places ≡ length ops.now) }
{
    places(alloc, ops.len())
}

/// The ops from an index on, or none where there are no more.
#[tactic(auto, using(many_actions::proofs::BatchPlaces::left_whole))]
fn later_ops(ops: &[OwnOp], first: usize) -> &[OwnOp]
    ensures { result.now ≡ drop first ops.now }
{
    if first < ops.len() {
        &ops[first..]
    } else {
        &ops[..0]
    }
}

/// What a batch of a bulk write, from a model on, comes to over a link, and the link afterwards.
fn executed<R: BulkWriteResult, L: Link + Drop, Q: Ledger>(
    alloc: Global,
    link: L,
    models: &[WriteModel],
    first: usize,
    forbidden: bool,
    unordered: bool,
    blank: Blank,
) -> (Result<R>, L)
    requires name { blank.name ≡ Q.name }
    requires parts { blank.parts ≡ Q.parts }
    requires some { 0 < blank.parts }
{
    let options = ClientOptions {
        client_number: 1,
        retry_writes: if forbidden { Some(false) } else { None },
        ..ClientOptions::default()
    };
    let mut client = Client::new(options, PlainStore::new(alloc, CountingIds::new()));
    let mut outside = Outside {
        link,
        clock: MemClock::new(0, 0),
        words: Pcg32::seed_from_u64(1),
        call: 0,
    };
    let result = executed_by::<R, L, Q>(
        alloc,
        &mut client,
        &mut outside,
        models,
        first,
        unordered,
        blank,
    );
    let Outside {
        link,
        clock: _,
        words: _,
        call: _,
    } = outside;
    (result, link)
}

/// What it comes to for a client.
fn executed_by<R: BulkWriteResult, L: Link, Q: Ledger>(
    alloc: Global,
    client: &mut Client<PlainStore<CountingIds>>,
    outside: &mut Outside<L, MemClock, Pcg32>,
    models: &[WriteModel],
    first: usize,
    unordered: bool,
    blank: Blank,
) -> Result<R>
    requires name { blank.name ≡ Q.name }
    requires parts { blank.parts ≡ Q.parts }
    requires some { 0 < blank.parts }
{
    let options = BulkWriteOptions {
        ordered: if unordered { Some(false) } else { None },
        ..BulkWriteOptions::default()
    };
    let ops = bulk_ops(alloc, client, models, &options)?;
    let own = later_ops(ops.as_slice(), first);
    let places = places_of(alloc, own)?;
    let mut op: BulkWriteOp<'_, R> = BulkWriteOp::new(alloc, ops.as_slice(), first, &options)?;
    let mut sends: Steps<Q> = Steps::new(blank);
    execute_operation(
        alloc,
        client,
        &mut op,
        places.as_slice(),
        outside,
        &mut sends,
    )
}

/// Models over a link for results of a kind, ordered or not, and the link afterwards.
pub fn executed_as<R: BulkWriteResult, L: Link + Drop>(
    alloc: Global,
    link: L,
    models: &[WriteModel],
    unordered: bool,
) -> (Result<R>, L) {
    let blank = Blank::new(1);
    executed::<R, L, Brand>(alloc, link, models, 0, false, unordered, blank)
}

/// A batch of models over a link, from one on, where the client's options may forbid repeats, and the link afterwards.
pub fn executed_from<L: Link + Drop>(
    alloc: Global,
    link: L,
    models: &[WriteModel],
    first: usize,
    forbidden: bool,
) -> (Result<SummaryBulkWriteResult>, L) {
    let blank = Blank::new(1);
    executed::<SummaryBulkWriteResult, L, Brand>(
        alloc, link, models, first, forbidden, false, blank,
    )
}
