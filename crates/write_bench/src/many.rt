//! An insert of many documents, as a user of a collection makes it, over a link that answers from memory.
use crate::batches::bench;
use crate::inserts::{new_client, outside_with, small};
use crate::one_reply::OneReply;
use bson_lite::{Document, List};
use driver_error::Result;
use many_actions::{InsertMany, ManyInserts};
use std::alloc::{AllocError, Global};

/// Makes so many documents and hands them in as one insert, which is not run.
pub fn hand_in(alloc: Global, count: u32) -> Result<String> {
    let insert = handed_in(alloc, count)?;
    drop(insert);
    Ok(format!(in alloc; "given={count}")?)
}

/// Runs one insert of so many documents, and says how many ids it answers.
pub fn insert_at_once(alloc: Global, count: u32) -> Result<String> {
    let link = OneReply::new(alloc, count)?;
    let insert = handed_in(alloc, count)?;
    let mut client = new_client(alloc);
    let mut outside = outside_with(link);
    let end = insert.run(alloc, &mut client, &mut outside);
    drop(client);
    drop(outside);
    let answer = end?;
    let ids = answer.inserted_ids.len();
    drop(answer);
    Ok(format!(in alloc; "ids={ids}")?)
}

/// The insert of so many documents into `bench.a`.
fn handed_in(alloc: Global, count: u32) -> std::result::Result<InsertMany, AllocError> {
    let documents = documents(alloc, count)?;
    let collection = bench(alloc)?;
    let insert = collection.insert_many(alloc, documents.as_slice());
    drop(documents);
    drop(collection);
    match insert {
        Ok(insert) => Ok(insert),
        Err(error) => {
            drop(error);
            Err(AllocError)
        }
    }
}

/// So many documents, each of its number, without ids.
fn documents(alloc: Global, count: u32) -> std::result::Result<List<Document>, AllocError> {
    let mut documents = List::with_capacity(alloc, count as usize)?;
    for number in 0..count {
        documents.push(small(alloc, number)?)?;
    }
    Ok(documents)
}
