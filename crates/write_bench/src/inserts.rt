//! The inserts, the client that makes them, and what is outside of it.
ghost use Rattle.driver_link.specs.WellFormed.{IsWellFormed};

use bson_lite::{Bson, Document, List, Namespace, Text};
use driver_attempt::{Client, Outside};
use driver_inputs::{Call, InsertWrite, SingleWrite};
use driver_link::Schedule;
use driver_options::{ClientOptions, InsertManyOptions};
use driver_session::PlainStore;
use memory_links::{CountingIds, MemClock};
use rand_core::SeedableRng;
use rand_pcg::Pcg32;
use std::alloc::{AllocError, Global};

/// The document `{x: number}`.
pub fn small(alloc: Global, number: u32) -> Result<Document, AllocError> {
    let mut document = Document::new(alloc);
    document.push("x", Bson::Int32(number.cast_signed()))?;
    Ok(document)
}

/// The insert of `{x: number}` into `bench.a`.
pub fn insert(alloc: Global, number: u32) -> Result<SingleWrite, AllocError> {
    let document = small(alloc, number)?;
    let namespace = Namespace {
        db: Text::from_str(alloc, "bench")?,
        coll: Text::from_str(alloc, "a")?,
    };
    Ok(SingleWrite::InsertOne(InsertWrite {
        namespace,
        document,
        options: InsertManyOptions::default(),
    }))
}

/// The calls of so many inserts.
pub fn insert_calls(alloc: Global, count: u32) -> Result<List<Call>, AllocError> {
    let mut calls = List::with_capacity(alloc, count as usize)?;
    for number in 0..count {
        let write = insert(alloc, number)?;
        calls.push(Call::Single { write })?;
    }
    Ok(calls)
}

/// A client that has done nothing.
pub fn new_client(alloc: Global) -> Client<PlainStore<CountingIds>> {
    let options = ClientOptions {
        client_number: 1,
        ..ClientOptions::default()
    };
    Client::new(options, PlainStore::new(alloc, CountingIds::new()))
}

/// The outside with this link. Its clock stands still.
pub fn outside_with<L>(link: L) -> Outside<L, MemClock, Pcg32> {
    Outside {
        link,
        clock: MemClock::new(0, 0),
        words: Pcg32::seed_from_u64(1),
        call: 0,
    }
}

/// A schedule by which each exchange is served and no call fails.
pub fn all_served(alloc: Global) -> Schedule
    ensures { IsWellFormed result }
{
    Schedule {
        items: List::new(alloc),
        selects: List::new(alloc),
        check_outs: List::new(alloc),
        overloaded_check_outs: List::new(alloc),
        reauthentications: List::new(alloc),
        supports: List::new(alloc),
    }
}
