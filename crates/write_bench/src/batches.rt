//! The cut of a list into batches: the longest front of sizes, and the build of an insert of many documents.
use bson_lite::{Bson, Bytes, List, Namespace, ObjectId, Text};
use driver_batches::{Limits, split};
use driver_error::Result;
use driver_ops::{Collection, Operation};
use driver_options::InsertManyOptions;
use model_server::USUAL_SETUP;
use std::alloc::{AllocError, Global};
use write_ops::{Insert, OwnDocument};

/// `{_id: ObjectId, x: 1}`, of 29 bytes.
const SMALL: &[u8] = b"\x1d\0\0\0\x07_id\0\0\0\0\0\0\0\0\0\0\0\0\x01\x10x\0\x01\0\0\0\0";

/// Limits that 100,000 small documents keep.
const WIDE: Limits = Limits {
    items: 100_000,
    bytes: 48_000_000,
    each: 16_777_216,
};

/// Splits so many sizes, and says how long the front is.
pub fn split_front(alloc: Global, count: u32) -> Result<String> {
    let sizes = vec![in alloc; 29u64; count as usize]?;
    let front = match sizes.as_slice() {
        [] => 0,
        sizes => split(sizes, &WIDE).unwrap_or(0),
    };
    Ok(format!(in alloc; "front={front}")?)
}

/// Builds the insert of so many small documents once, and says how many it takes.
pub fn build_batch(alloc: Global, count: u32) -> Result<String> {
    let documents = small_documents(alloc, count)?;
    let options = InsertManyOptions::default();
    let collection = bench(alloc)?;
    let mut insert = Insert::new(collection, 0, documents.as_slice(), &options);
    let built = insert.build(alloc, &USUAL_SETUP.description);
    let taken = insert.statements();
    drop(insert);
    drop(options);
    drop(documents);
    drop(built?);
    Ok(format!(in alloc; "taken={taken}")?)
}

/// So many small documents as they are sent.
fn small_documents(
    alloc: Global,
    count: u32,
) -> std::result::Result<List<OwnDocument>, AllocError> {
    let mut documents = List::with_capacity(alloc, count as usize)?;
    for _ in 0..count {
        documents.push(OwnDocument {
            bytes: Bytes::from_slice(alloc, SMALL)?,
            id: Bson::ObjectId(ObjectId { bytes: [0; 12] }),
        })?;
    }
    Ok(documents)
}

/// The collection `bench.a`.
pub fn bench(alloc: Global) -> std::result::Result<Collection, AllocError> {
    Ok(Collection {
        namespace: Namespace {
            db: Text::from_str(alloc, "bench")?,
            coll: Text::from_str(alloc, "a")?,
        },
        write_concern: None,
    })
}
