//! What no clause shows: that a call succeeds with ample memory, over a link whose replies a test chooses.
use crate::asserting::{Made, alike, holds};
use bson_lite::{Bson, Bytes, Document, EncodeFault, List, Namespace, Text, TryClone};
use call_runs::{CallRun, run_calls};
use driver_attempt::{Client, Outside};
use driver_error::{Error, ErrorKind, IoKind};
use driver_inputs::{Answer, Call, InsertWrite, Outcome, SingleAnswer, SingleWrite};
use driver_link::{Answered, Frame, Link, LinkError, LinkFault, Place};
use driver_options::{Address, ClientOptions, Conn, InsertManyOptions, SelectionCriteria};
use driver_session::PlainStore;
use memory_links::{CountingIds, MemClock};
use rand_core::SeedableRng;
use rand_pcg::Pcg32;
use std::alloc::Global;
use std::process::Abort;
use test_parts::inserting::SERVER;

/// A link that gives one reply to each exchange, whatever is sent.
#[derive(Drop)]
struct OneReply {
    reply: Bytes,
    answered: List<Answered>,
}

impl Link for OneReply {
    ghost use Rattle.std.specs.Prelude.{None, Some};
    ghost use Rattle.driver_link.specs.LinkState.{Untold};

    ghost tells = { λ link. record {
      making = Untold;
      answers = Some link.answered;
      frames = None;
      over = None;
      asked = None;
      addresses = None;
      connections = None;
      out = None;
      faults = 0;
    } };

    fn select(
        &mut self,
        alloc: Global,
        _criteria: Option<&SelectionCriteria>,
        _deprioritized: &[Address],
    ) -> Result<Address, LinkError> {
        let host = Text::from_str(alloc, "test")?;
        Ok(Address { host, port: 1 })
    }

    fn is_sharded(&self) -> bool {
        false
    }

    fn session_timeout_ms(&self) -> Option<u64> {
        None
    }

    fn transaction_support(&mut self, _alloc: Global) -> Result<bool, LinkError> {
        Ok(true)
    }

    fn check_out(&mut self, alloc: Global, address: &Address) -> Result<Conn, LinkError> {
        let host = address.host.try_clone(alloc)?;
        Ok(Conn {
            address: Address {
                host,
                port: address.port,
            },
            description: SERVER,
            number: 0,
        })
    }

    fn exchange(
        &mut self,
        alloc: Global,
        _conn: &Conn,
        _frame: &Frame,
        _places: &[Place],
    ) -> Result<Bytes, LinkError> {
        let reply = self.reply.try_clone(alloc)?;
        self.answered
            .push(Answered::Reply(self.reply.try_clone(alloc)?))?;
        Ok(reply)
    }

    fn reauthenticate(&mut self, _alloc: Global, _conn: &Conn) -> Result<(), LinkError> {
        Ok(())
    }

    fn check_in(&mut self, conn: Conn) {
        let Conn {
            address,
            description: _,
            number: _,
        } = conn;
        drop(address);
    }

    fn report(&mut self, _address: &Address, _error: &Error) {}
}

/// The reply `{ok: 1, n: 1}`.
const DONE: &[u8] = b"\x14\0\0\0\x10ok\0\x01\0\0\0\x10n\0\x01\0\0\0\0";

/// The document `{x: 1}`.
fn small(rt: &impl Abort, alloc: Global) -> Document {
    let mut document = Document::new(alloc);
    document.push("x", Bson::Int32(1)).made(rt);
    document
}

/// A document that nests so many levels deep, itself counting one.
fn nested(rt: &impl Abort, alloc: Global, levels: usize) -> Document {
    let mut document = Document::new(alloc);
    for _ in 1..levels {
        let mut outer = Document::new(alloc);
        outer.push("d", Bson::Document(document)).made(rt);
        document = outer;
    }
    document
}

/// An insert of a document.
fn insert(rt: &impl Abort, alloc: Global, document: Document) -> Call {
    let namespace = Namespace {
        db: Text::from_str(alloc, "shop").made(rt),
        coll: Text::from_str(alloc, "items").made(rt),
    };
    Call::Single {
        write: SingleWrite::InsertOne(InsertWrite {
            namespace,
            document,
            options: InsertManyOptions::default(),
        }),
    }
}

/// The insert of `{x: 1}`.
fn small_insert(rt: &impl Abort, alloc: Global) -> Call {
    insert(rt, alloc, small(rt, alloc))
}

/// A client that has done nothing.
fn new_client(alloc: Global) -> Client<PlainStore<CountingIds>> {
    let options = ClientOptions {
        client_number: 1,
        retry_writes: None,
        read_concern: None,
        write_concern: None,
    };
    Client::new(options, PlainStore::new(alloc, CountingIds::new()))
}

/// The outside with a link that gives this reply. Its clock moves on by one each time it is read.
fn new_outside(rt: &impl Abort, alloc: Global, reply: &[u8]) -> Outside<OneReply, MemClock, Pcg32> {
    let link = OneReply {
        reply: Bytes::from_slice(alloc, reply).made(rt),
        answered: List::new(alloc),
    };
    Outside {
        link,
        clock: MemClock::new(0, 1),
        words: Pcg32::seed_from_u64(1),
        call: 0,
    }
}

/// The outcomes of one insert of a document over a link with this reply.
fn outcomes_over(
    rt: &impl Abort,
    alloc: Global,
    reply: &[u8],
    document: Document,
) -> List<Outcome> {
    let calls = [insert(rt, alloc, document)];
    let mut outside = new_outside(rt, alloc, reply);
    let mut client = new_client(alloc);
    run_calls(alloc, &mut client, &mut outside, &calls).made(rt)
}

/// Two inserts of `{x: 1}`.
fn two_inserts(rt: &impl Abort, alloc: Global) -> List<Call> {
    let mut calls = List::with_capacity(alloc, 2).made(rt);
    calls.push(small_insert(rt, alloc)).made(rt);
    calls.push(small_insert(rt, alloc)).made(rt);
    calls
}

/// The outcomes of two inserts that are made as one list.
fn outcomes_at_once(rt: &impl Abort, alloc: Global) -> List<Outcome> {
    let mut outside = new_outside(rt, alloc, DONE);
    let mut client = new_client(alloc);
    let calls = two_inserts(rt, alloc);
    let outcomes = run_calls(alloc, &mut client, &mut outside, calls.as_slice());
    drop(calls);
    outcomes.made(rt)
}

/// The outcomes of the same inserts, the second of which comes into the list once the first was made.
fn outcomes_one_by_one(rt: &impl Abort, alloc: Global) -> List<Outcome> {
    let mut calls = Vec::with_capacity(alloc, 2).made(rt);
    let first = small_insert(rt, alloc);
    let second = small_insert(rt, alloc);
    let mut outside = new_outside(rt, alloc, DONE);
    let mut client = new_client(alloc);
    let mut run = CallRun::begin(alloc, 2).made(rt);
    calls.push_reserved(first);
    run.make(alloc, &mut client, &mut outside, calls.as_slice());
    calls.push_reserved(second);
    run.make(alloc, &mut client, &mut outside, calls.as_slice());
    run.finish(&mut client, &mut outside, calls.as_slice())
}

/// The last byte of the object id that an outcome tells.
pub(crate) fn id_of(outcome: &Outcome) -> Option<u8> {
    let Ok(Answer::Single(SingleAnswer::Inserted(done))) = &outcome.result else {
        return None;
    };
    match &done.inserted_id {
        Bson::ObjectId(id) => Some(id.bytes[11]),
        _ => None,
    }
}

/// Whether two outcomes tell this id and the same moments.
fn is_same(one: &Outcome, other: &Outcome, id: u8) -> bool {
    match (id_of(one), id_of(other)) {
        (Some(here), Some(there)) => {
            here == id
                && there == id
                && one.started_ms == other.started_ms
                && one.ended_ms == other.ended_ms
        }
        _ => false,
    }
}

/// Whether two pairs of outcomes are the same, the first with the first id and the second with the next.
fn are_same(ones: &List<Outcome>, others: &List<Outcome>) -> bool {
    let [first, second] = ones.as_slice() else {
        return false;
    };
    let [also_first, also_second] = others.as_slice() else {
        return false;
    };
    is_same(first, also_first, 1) && is_same(second, also_second, 2)
}

/// Whether the one outcome is Ok, or else a document that nests too deep.
fn is_too_deep(outcomes: &List<Outcome>) -> Option<bool> {
    let [outcome] = outcomes.as_slice() else {
        return None;
    };
    match &outcome.result {
        Ok(_) => Some(false),
        Err(error) => match error.kind() {
            ErrorKind::BsonSerialization(EncodeFault::TooDeep) => Some(true),
            _ => None,
        },
    }
}

/// Whether the one outcome is Ok, or else an invalid response.
fn is_taken(outcomes: &List<Outcome>) -> Option<bool> {
    let [outcome] = outcomes.as_slice() else {
        return None;
    };
    match &outcome.result {
        Ok(_) => Some(true),
        Err(error) => match error.kind() {
            ErrorKind::InvalidResponse { .. } => Some(false),
            _ => None,
        },
    }
}

/// Whether an insert is Ok over a link with this reply, or else an invalid response.
fn taken_over(rt: &impl Abort, alloc: Global, reply: &[u8]) -> Option<bool> {
    let outcomes = outcomes_over(rt, alloc, reply, small(rt, alloc));
    let taken = is_taken(&outcomes);
    drop(outcomes);
    taken
}

/// Whether the insert of a document of so many levels is refused as too deep, or else is Ok.
fn too_deep_at(rt: &impl Abort, alloc: Global, levels: usize) -> Option<bool> {
    let outcomes = outcomes_over(rt, alloc, DONE, nested(rt, alloc, levels));
    let refused = is_too_deep(&outcomes);
    drop(outcomes);
    refused
}

/// Replies by what they are, and whether an insert is Ok after each.
const REPLIES: &[(&str, &[u8], bool)] = &[
    ("{ok: 1, n: 1}", DONE, true),
    (
        "the same as int64s",
        b"\x1c\0\0\0\x12ok\0\x01\0\0\0\0\0\0\0\x12n\0\x01\0\0\0\0\0\0\0\0",
        true,
    ),
    (
        "the same as doubles",
        b"\x1c\0\0\0\x01ok\0\0\0\0\0\0\0\xf0\x3f\x01n\0\0\0\0\0\0\0\xf0\x3f\0",
        true,
    ),
    (
        "{ok: 1, n: 0}",
        b"\x14\0\0\0\x10ok\0\x01\0\0\0\x10n\0\0\0\0\0\0",
        false,
    ),
    (
        "{ok: 0, n: 1}",
        b"\x14\0\0\0\x10ok\0\0\0\0\0\x10n\0\x01\0\0\0\0",
        false,
    ),
    ("{ok: 1}", b"\x0d\0\0\0\x10ok\0\x01\0\0\0\0", false),
    ("no bytes", b"", false),
    ("no document", b"nonsense", false),
];

#[test]
fn an_insert_is_ok_only_after_a_reply_that_says_so(rt: HostRuntime) {
    let alloc = rt.alloc();
    for (text, reply, taken) in REPLIES {
        alike(&rt, taken_over(&rt, alloc, reply), Some(*taken), text);
    }
}

/// How many levels a document nests, and whether it is refused for them.
const LEVELS: &[(usize, bool)] = &[(1, false), (96, false), (97, true), (101, true)];

#[test]
fn a_callers_document_nests_at_most_96_levels(rt: HostRuntime) {
    let alloc = rt.alloc();
    for (levels, refused) in LEVELS {
        alike(
            &rt,
            (*levels, too_deep_at(&rt, alloc, *levels)),
            (*levels, Some(*refused)),
            "how many levels a document nests, and whether it is refused",
        );
    }
}

#[test]
fn calls_may_come_into_the_list_between_two(rt: HostRuntime) {
    let at_once = outcomes_at_once(&rt, rt.alloc());
    let one_by_one = outcomes_one_by_one(&rt, rt.alloc());
    let same = are_same(&at_once, &one_by_one);
    holds(&rt, same, "the same outcomes at once and one by one");
}

/// The error of a fault that came with one label.
fn labelled_fault(rt: &impl Abort, alloc: Global) -> Error {
    let mut labels = List::new(alloc);
    labels.push(Text::from_str(alloc, "told").made(rt)).made(rt);
    let fault = LinkFault::Io(IoKind::BrokenPipe);
    Error::from(LinkError::Fault { fault, labels })
}

/// Whether it is the error of that fault, with that label and not the one of a retryable write.
fn is_labelled(error: &Error) -> bool {
    matches!(error.kind(), ErrorKind::Io(IoKind::BrokenPipe))
        && error.has_own_label("told")
        && !error.has_own_label("RetryableWriteError")
}

#[test]
fn a_fault_becomes_an_error_with_its_labels(rt: HostRuntime) {
    let error = labelled_fault(&rt, rt.alloc());
    let labelled = is_labelled(&error);
    drop(error);
    holds(&rt, labelled, "the error of a fault with one label");
}
