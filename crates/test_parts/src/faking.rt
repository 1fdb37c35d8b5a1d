//! A fake link, whose servers and answers a row names, and one insert or calls over it.
use crate::inserting::{Ended, SERVER, Seen, insert};
use bson_lite::{Bytes, List};
use call_runs::run_calls;
use driver_attempt::{Client, Outside};
use driver_error::IoKind;
use driver_inputs::{Call, Outcome};
use driver_link::LinkFault;
use driver_options::{ClientOptions, Description};
use driver_session::PlainStore;
use memory_links::{CountingIds, FakeLink, FakeStep, MemClock};
use rand_core::SeedableRng;
use rand_pcg::Pcg32;
use std::alloc::{AllocError, Global};

/// `{ok: 1, n: 1}`
pub const DONE: &[u8] = b"\x14\0\0\0\x10ok\0\x01\0\0\0\x10n\0\x01\0\0\0\0";

/// `{ok: 1, n: 1, nModified: 1}`
pub const CHANGED: &[u8] =
    b"\x23\0\0\0\x10ok\0\x01\0\0\0\x10n\0\x01\0\0\0\x10nModified\0\x01\0\0\0\0";

/// `{ok: 1, n: 1, nModified: 1, value: null}`, which says of a write of any kind that it was done
pub const ANY_DONE: &[u8] =
    b"\x2a\0\0\0\x10ok\0\x01\0\0\0\x10n\0\x01\0\0\0\x10nModified\0\x01\0\0\0\x0avalue\0\0";

/// A connection's server that takes sessions, and no retryable writes.
pub const NO_REPEATS: Description = Description {
    max_wire_version: Some(25),
    max_bson_object_size: 16_777_216,
    max_message_size_bytes: 48_000_000,
    max_write_batch_size: 100_000,
    supports_sessions: true,
    supports_retryable_writes: false,
    sharded: false,
};

/// One that takes retryable writes, and no sessions.
pub const NO_SESSIONS: Description = Description {
    max_wire_version: Some(25),
    max_bson_object_size: 16_777_216,
    max_message_size_bytes: 48_000_000,
    max_write_batch_size: 100_000,
    supports_sessions: false,
    supports_retryable_writes: true,
    sharded: false,
};

/// A router of shards that takes both.
pub const ROUTER: Description = Description {
    max_wire_version: Some(25),
    max_bson_object_size: 16_777_216,
    max_message_size_bytes: 48_000_000,
    max_write_batch_size: 100_000,
    supports_sessions: true,
    supports_retryable_writes: true,
    sharded: true,
};

/// A server like [`SERVER`] of a later version.
pub const LATER: Description = Description {
    max_wire_version: Some(26),
    max_bson_object_size: 16_777_216,
    max_message_size_bytes: 48_000_000,
    max_write_batch_size: 100_000,
    supports_sessions: true,
    supports_retryable_writes: true,
    sharded: false,
};

/// What an exchange answers.
#[derive(Clone, Copy)]
pub enum Given {
    Reply(&'static [u8]),
    Reset,
}

/// The servers behind the first connection and behind each further one.
#[derive(Clone, Copy)]
pub struct Servers {
    pub first: Description,
    pub further: Description,
}

/// The same server behind each connection.
pub const ALIKE: Servers = Servers {
    first: SERVER,
    further: SERVER,
};

fn step(alloc: Global, given: Given) -> Result<FakeStep, AllocError> {
    Ok(match given {
        Given::Reply(bytes) => FakeStep::Reply(Bytes::from_slice(alloc, bytes)?),
        Given::Reset => FakeStep::Fault(LinkFault::Io(IoKind::ConnectionReset)),
    })
}

/// A fake link with these servers, whose exchanges answer so.
pub fn fake_link(alloc: Global, servers: Servers, given: &[Given]) -> Result<FakeLink, AllocError> {
    let mut descriptions = List::new(alloc);
    descriptions.push(servers.first)?;
    descriptions.push(servers.further)?;
    let mut steps = List::new(alloc);
    for one in given {
        steps.push(step(alloc, *one)?)?;
    }
    Ok(FakeLink::new(alloc, descriptions, steps))
}

/// The end of an insert whose exchanges answer so, and the link afterwards, or none where there is no memory.
pub fn seen(alloc: Global, servers: Servers, given: &[Given]) -> Option<(Seen, FakeLink)> {
    let Ok(link) = fake_link(alloc, servers, given) else {
        return None;
    };
    insert(alloc, link)
}

/// How it ends, and the link.
pub fn inserted(alloc: Global, servers: Servers, given: &[Given]) -> Option<(Ended, FakeLink)> {
    let (seen, link) = seen(alloc, servers, given)?;
    Some((seen.ended, link))
}

/// Whether an insert ends so after one send.
pub fn ends_at_once(alloc: Global, servers: Servers, given: &[Given], ended: Ended) -> bool {
    match inserted(alloc, servers, given) {
        Some((found, link)) => found == ended && link.frames().len() == 1,
        None => false,
    }
}

/// The outcomes of calls by a new client over a link, and how many frames were sent.
pub fn outcomes_over(
    alloc: Global,
    link: FakeLink,
    calls: &[Call],
) -> Result<(List<Outcome>, usize), AllocError> {
    let options = ClientOptions {
        client_number: 1,
        ..ClientOptions::default()
    };
    let mut client = Client::new(options, PlainStore::new(alloc, CountingIds::new()));
    let mut outside = Outside {
        link,
        clock: MemClock::new(0, 0),
        words: Pcg32::seed_from_u64(1),
        call: 0,
    };
    let ran = run_calls(alloc, &mut client, &mut outside, calls);
    let sent = outside.link.frames().len();
    drop(client);
    drop(outside);
    Ok((ran?, sent))
}
