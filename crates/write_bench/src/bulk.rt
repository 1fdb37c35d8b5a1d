//! A bulk write of inserts, as a client's user makes it, over a link that answers from memory.
use crate::inserts::{new_client, outside_with, small};
use crate::one_reply::OneReply;
use bson_lite::{Bson, Bytes, Document, EncodeFault, List, Namespace, Text, encode};
use bulk_actions::BulkWrites;
use driver_error::Result;
use driver_options::{InsertOneModel, WriteModel};
use std::alloc::{AllocError, Global};

/// Makes so many models and a link whose reply has counts alone, and no bulk write.
pub fn make_models(alloc: Global, count: u32) -> Result<String> {
    let link = summary_link(alloc, count)?;
    let models = insert_models(alloc, count)?;
    drop(models);
    drop(link);
    Ok(format!(in alloc; "models={count}")?)
}

/// The same, and runs a bulk write of them, which answers counts alone.
pub fn write_in_bulk(alloc: Global, count: u32) -> Result<String> {
    let link = summary_link(alloc, count)?;
    let models = insert_models(alloc, count)?;
    let mut client = new_client(alloc);
    let mut outside = outside_with(link);
    let end = client
        .bulk_write(models.as_slice())
        .run(alloc, &mut outside);
    drop(models);
    drop(client);
    drop(outside);
    let inserted = end?.inserted_count;
    Ok(format!(in alloc; "inserted={inserted}")?)
}

/// Makes so many models and a link whose reply has a result of each, and no bulk write.
pub fn make_results(alloc: Global, count: u32) -> Result<String> {
    let link = verbose_link(alloc, count)?;
    let models = insert_models(alloc, count)?;
    drop(models);
    drop(link);
    Ok(format!(in alloc; "results={count}")?)
}

/// The same, and runs a bulk write of them, which answers the result of each.
pub fn write_with_results(alloc: Global, count: u32) -> Result<String> {
    let link = verbose_link(alloc, count)?;
    let models = insert_models(alloc, count)?;
    let mut client = new_client(alloc);
    let mut outside = outside_with(link);
    let end = client
        .bulk_write(models.as_slice())
        .verbose_results()
        .run(alloc, &mut outside);
    drop(models);
    drop(client);
    drop(outside);
    let answer = end?;
    let ids = answer.insert_results.len();
    drop(answer);
    Ok(format!(in alloc; "ids={ids}")?)
}

/// The inserts of so many documents into `bench.a`, each of its number, without ids.
fn insert_models(alloc: Global, count: u32) -> std::result::Result<List<WriteModel>, AllocError> {
    let mut models = List::with_capacity(alloc, count as usize)?;
    for number in 0..count {
        let namespace = Namespace {
            db: Text::from_str(alloc, "bench")?,
            coll: Text::from_str(alloc, "a")?,
        };
        let document = small(alloc, number)?;
        models.push(WriteModel::InsertOne(InsertOneModel {
            namespace,
            document,
        }))?;
    }
    Ok(models)
}

/// A link whose reply counts so many inserts, and has an empty page of results.
fn summary_link(alloc: Global, count: u32) -> std::result::Result<OneReply, AllocError> {
    link_with(alloc, count, List::new(alloc))
}

/// A link whose reply has a result of each too.
fn verbose_link(alloc: Global, count: u32) -> std::result::Result<OneReply, AllocError> {
    let results = results(alloc, count)?;
    link_with(alloc, count, results)
}

/// The results documents of so many inserts: `{idx: INDEX, n: 1}`.
fn results(alloc: Global, count: u32) -> std::result::Result<List<Bson>, AllocError> {
    let mut results = List::with_capacity(alloc, count as usize)?;
    for index in 0..count {
        let mut result = Document::new(alloc);
        result.push("idx", Bson::Int32(index.cast_signed()))?;
        result.push("n", Bson::Int32(1))?;
        results.push(Bson::Document(result))?;
    }
    Ok(results)
}

/// A link whose reply counts so many inserts, with one page of these results.
fn link_with(
    alloc: Global,
    count: u32,
    results: List<Bson>,
) -> std::result::Result<OneReply, AllocError> {
    let cursor = cursor(alloc, results)?;
    let mut reply = Document::new(alloc);
    reply.push("ok", Bson::Int32(1))?;
    reply.push("nErrors", Bson::Int32(0))?;
    reply.push("nInserted", Bson::Int32(count.cast_signed()))?;
    reply.push("nMatched", Bson::Int32(0))?;
    reply.push("nModified", Bson::Int32(0))?;
    reply.push("nUpserted", Bson::Int32(0))?;
    reply.push("nDeleted", Bson::Int32(0))?;
    reply.push("cursor", Bson::Document(cursor))?;
    let spelled = spelled(alloc, &reply)?;
    drop(reply);
    Ok(OneReply::of(spelled))
}

/// A cursor of one page.
fn cursor(alloc: Global, results: List<Bson>) -> std::result::Result<Document, AllocError> {
    let namespace = Text::from_str(alloc, "admin.$cmd.bulkWrite")?;
    let mut cursor = Document::new(alloc);
    cursor.push("id", Bson::Int64(0))?;
    cursor.push("ns", Bson::String(namespace))?;
    cursor.push("firstBatch", Bson::Array(results))?;
    Ok(cursor)
}

/// The bytes of a document, which is not too long here.
fn spelled(alloc: Global, document: &Document) -> std::result::Result<Bytes, AllocError> {
    match encode(alloc, document) {
        Ok(bytes) => Ok(bytes),
        Err(EncodeFault::Memory) => Err(AllocError),
        Err(_) => Ok(Bytes::new(alloc)),
    }
}
