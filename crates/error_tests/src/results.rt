//! Copies of what stands beside an error, with ample memory: each prints as its original.
use crate::asserting::{Made, holds};
use crate::errors::text_list;
use bson_lite::{Binary, Bson, ByIndex, Bytes, Document, Text, TryClone};
use driver_error::{
    CollectionSpecification, CollectionSpecificationInfo, CollectionType, CreateIndexResult,
    CreateIndexesResult, DatabaseSpecification, DeleteResult, InsertManyResult, InsertOneResult,
    PartialBulkWriteResult, SummaryBulkWriteResult, UpdateResult, VerboseBulkWriteResult,
};
use std::alloc::Global;
use std::fmt::Debug;
use std::process::Abort;

/// Whether a copy prints as the value.
pub(crate) fn copies_alike<T: TryClone + Debug + Drop>(
    rt: &impl Abort,
    alloc: Global,
    value: T,
) -> bool {
    let copy = value.try_clone(alloc).made(rt);
    let one = format!(in alloc; "{value:?}").made(rt);
    let other = format!(in alloc; "{copy:?}").made(rt);
    one.as_str() == other.as_str()
}

fn inserted(rt: &impl Abort, alloc: Global) -> InsertOneResult {
    let inserted_id = Bson::String(Text::from_str(alloc, "a").made(rt));
    InsertOneResult { inserted_id }
}

fn updated(rt: &impl Abort, alloc: Global) -> UpdateResult {
    UpdateResult {
        matched_count: 3,
        modified_count: 2,
        upserted_id: Some(Bson::String(Text::from_str(alloc, "b").made(rt))),
    }
}

pub(crate) fn counts() -> SummaryBulkWriteResult {
    SummaryBulkWriteResult {
        inserted_count: 1,
        matched_count: 2,
        modified_count: 3,
        upserted_count: 4,
        deleted_count: 5,
    }
}

fn verbose(rt: &impl Abort, alloc: Global) -> VerboseBulkWriteResult {
    let mut insert_results = ByIndex::new(alloc);
    insert_results.insert(0, inserted(rt, alloc)).made(rt);
    let mut update_results = ByIndex::new(alloc);
    update_results.insert(1, updated(rt, alloc)).made(rt);
    let mut delete_results = ByIndex::new(alloc);
    delete_results
        .insert(2, DeleteResult { deleted_count: 7 })
        .made(rt);
    VerboseBulkWriteResult {
        summary: counts(),
        insert_results,
        update_results,
        delete_results,
    }
}

fn many(rt: &impl Abort, alloc: Global) -> InsertManyResult {
    let mut inserted_ids = ByIndex::new(alloc);
    inserted_ids.insert(4, Bson::Int32(9)).made(rt);
    InsertManyResult { inserted_ids }
}

#[test]
fn results_are_copied(rt: HostRuntime) {
    let alloc = rt.alloc();
    holds(
        &rt,
        copies_alike(&rt, alloc, inserted(&rt, alloc)),
        "the result of an insert",
    );
    holds(
        &rt,
        copies_alike(&rt, alloc, many(&rt, alloc)),
        "the result of an insert of many",
    );
    holds(
        &rt,
        copies_alike(&rt, alloc, updated(&rt, alloc)),
        "the result of an update",
    );
    holds(
        &rt,
        copies_alike(&rt, alloc, DeleteResult { deleted_count: 7 }),
        "the result of a delete",
    );
    holds(
        &rt,
        copies_alike(&rt, alloc, counts()),
        "the counts of a bulk write",
    );
}

#[test]
fn results_of_bulk_writes_are_copied(rt: HostRuntime) {
    let alloc = rt.alloc();
    holds(
        &rt,
        copies_alike(&rt, alloc, verbose(&rt, alloc)),
        "the results of a bulk write",
    );
    let partial = PartialBulkWriteResult::Verbose(verbose(&rt, alloc));
    holds(
        &rt,
        copies_alike(&rt, alloc, partial),
        "results that stand beside failures",
    );
    holds(
        &rt,
        copies_alike(&rt, alloc, PartialBulkWriteResult::Summary(counts())),
        "counts that stand beside failures",
    );
}

#[test]
fn results_of_indexes_are_copied(rt: HostRuntime) {
    let alloc = rt.alloc();
    let index_name = Text::from_str(alloc, "a_1").made(&rt);
    holds(
        &rt,
        copies_alike(&rt, alloc, CreateIndexResult { index_name }),
        "the result of an index",
    );
    let index_names = text_list(&rt, alloc, &["a_1", "b_1"]);
    holds(
        &rt,
        copies_alike(&rt, alloc, CreateIndexesResult { index_names }),
        "the result of two indexes",
    );
}

fn options(rt: &impl Abort, alloc: Global) -> Document {
    let mut options = Document::new(alloc);
    options.push("capped", Bson::Boolean(true)).made(rt);
    options
}

fn info(rt: &impl Abort, alloc: Global) -> CollectionSpecificationInfo {
    let bytes = Bytes::from_slice(alloc, b"uuid").made(rt);
    CollectionSpecificationInfo {
        read_only: true,
        uuid: Some(Binary { subtype: 4, bytes }),
    }
}

fn collection(rt: &impl Abort, alloc: Global) -> CollectionSpecification {
    CollectionSpecification {
        name: Text::from_str(alloc, "items").made(rt),
        collection_type: CollectionType::Timeseries,
        options: options(rt, alloc),
        info: info(rt, alloc),
        id_index: Some(options(rt, alloc)),
    }
}

fn database(rt: &impl Abort, alloc: Global) -> DatabaseSpecification {
    DatabaseSpecification {
        name: Text::from_str(alloc, "shop").made(rt),
        size_on_disk: 8192,
        empty: false,
        shards: Some(options(rt, alloc)),
    }
}

#[test]
fn specifications_are_copied(rt: HostRuntime) {
    let alloc = rt.alloc();
    holds(
        &rt,
        copies_alike(&rt, alloc, collection(&rt, alloc)),
        "a collection",
    );
    holds(
        &rt,
        copies_alike(&rt, alloc, info(&rt, alloc)),
        "the info of a collection",
    );
    holds(
        &rt,
        copies_alike(&rt, alloc, CollectionType::Timeseries),
        "the type of a collection",
    );
    holds(
        &rt,
        copies_alike(&rt, alloc, database(&rt, alloc)),
        "a database",
    );
}
