//! What no clause shows of an insert of many documents as a collection's user makes it: that each of its calls succeeds
//! with ample memory, over a model server and over a fake link, and which options go out by its setters.
ghost use Rattle.driver_link.specs.WellFormed.{IsWellFormed};

use crate::asserting::{Made, holds, holds_at};
use crate::many_failures::id_at;
use bson_lite::{Bson, ByIndex, Document, List};
use driver_attempt::{Client, Outside};
use driver_error::{InsertManyResult, Result};
use driver_inputs::ToDocument;
use driver_link::{Link, Schedule, Server, Setup};
use driver_ops::Collection;
use driver_options::{ClientOptions, Description, InsertManyOptions, WriteConcern};
use driver_session::PlainStore;
use many_actions::{InsertMany, ManyInserts};
use memory_links::{CountingIds, MemClock};
use model_server::{ModelServer, USUAL_SETUP};
use rand_core::SeedableRng;
use rand_pcg::Pcg32;
use std::alloc::Global;
use std::process::Abort;
use test_parts::faking::{ALIKE, DONE, Given, fake_link};
use test_parts::spelling::{
    FIRST_NUMBER, INSERTED, LAST, NOTE, ONE_NODE, SESSION, by_one_node, has_one_frame, joined,
    noted, one,
};
use test_parts::writes::{namespace, number};

/// `insert: "items"`
const INSERT: &[u8] = b"\x02insert\0\x06\0\0\0items\0";

/// `bypassDocumentValidation: true`
const UNJUDGED: &[u8] = b"\x08bypassDocumentValidation\0\x01";

/// `ordered: true`, and the same of false
const ORDERED: &[u8] = b"\x08ordered\0\x01";

const UNORDERED: &[u8] = b"\x08ordered\0\0";

/// How the options of an insert are set.
#[derive(Clone, Copy)]
enum Way {
    Unset,
    Unordered,
    Unjudged,
    Noted,
    Acknowledged,
    /// The collection has a write concern, and the insert has none.
    OfCollection,
    EachSetter,
    /// All at once, in place of one that was set before.
    Options,
}

/// `{insert: "items", ordered: true, lsid: {id: UUID(..01)}, txnNumber: 1, $db: "shop"}`
const BARE: &[&[u8]] = &[b"\x66\0\0\0", INSERT, ORDERED, SESSION, FIRST_NUMBER, LAST];

/// The same with `ordered: false`
const GOING_ON: &[&[u8]] = &[
    b"\x66\0\0\0",
    INSERT,
    UNORDERED,
    SESSION,
    FIRST_NUMBER,
    LAST,
];

/// The same as the first with `bypassDocumentValidation: true`
const BYPASSING: &[&[u8]] = &[
    b"\x81\0\0\0",
    INSERT,
    UNJUDGED,
    ORDERED,
    SESSION,
    FIRST_NUMBER,
    LAST,
];

/// The same as the first with `comment: "note"`
const COMMENTED: &[&[u8]] = &[
    b"\x78\0\0\0",
    INSERT,
    ORDERED,
    NOTE,
    SESSION,
    FIRST_NUMBER,
    LAST,
];

/// The same as the first with `writeConcern: {w: 1}`
const CONCERNED: &[&[u8]] = &[
    b"\x80\0\0\0",
    INSERT,
    ORDERED,
    SESSION,
    FIRST_NUMBER,
    ONE_NODE,
    LAST,
];

/// Each way with the parts of the body that goes out.
const ROWS: &[(Way, &[&[u8]])] = &[
    (Way::Unset, BARE),
    (Way::Unordered, GOING_ON),
    (Way::Unjudged, BYPASSING),
    (Way::Noted, COMMENTED),
    (Way::Acknowledged, CONCERNED),
    (Way::OfCollection, CONCERNED),
    (Way::EachSetter, INSERTED),
    (Way::Options, INSERTED),
];

/// The insert of documents into the collection `shop.items` with this concern, with no option set.
fn insert_of(
    rt: &impl Abort,
    alloc: Global,
    documents: &[Document],
    concern: Option<WriteConcern>,
) -> InsertMany {
    let collection = Collection {
        namespace: namespace(alloc, "shop").made(rt),
        write_concern: concern,
    };
    let insert = collection.insert_many(alloc, documents).made(rt);
    drop(collection);
    insert
}

/// The insert of `{y: 2}` with no option set.
fn unset(rt: &impl Abort, alloc: Global) -> InsertMany {
    let documents = one(alloc, number(alloc, "y", 2).made(rt)).made(rt);
    insert_of(rt, alloc, documents.as_slice(), None)
}

/// The same into a collection with a write concern.
fn of_collection(rt: &impl Abort, alloc: Global) -> InsertMany {
    let documents = one(alloc, number(alloc, "y", 2).made(rt)).made(rt);
    insert_of(rt, alloc, documents.as_slice(), Some(by_one_node()))
}

/// The same with a comment.
fn with_note(rt: &impl Abort, alloc: Global) -> InsertMany {
    let comment = noted(alloc).made(rt);
    let insert = unset(rt, alloc);
    insert.comment(comment)
}

/// The same with each option by its setter.
fn by_setters(rt: &impl Abort, alloc: Global) -> InsertMany {
    let insert = with_note(rt, alloc);
    let insert = insert.write_concern(by_one_node());
    let insert = insert.bypass_document_validation(true);
    insert.ordered(false)
}

/// The same with all options at once, which are not those that were set before.
fn by_options(rt: &impl Abort, alloc: Global) -> InsertMany {
    let comment = noted(alloc).made(rt);
    let insert = unset(rt, alloc);
    let insert = insert.ordered(true);
    insert.with_options(InsertManyOptions {
        ordered: Some(false),
        bypass_document_validation: Some(true),
        comment: Some(comment),
        write_concern: Some(by_one_node()),
    })
}

/// The insert of a row.
fn insert_by(rt: &impl Abort, alloc: Global, way: Way) -> InsertMany {
    match way {
        Way::Unset => unset(rt, alloc),
        Way::Unordered => unset(rt, alloc).ordered(false),
        Way::Unjudged => unset(rt, alloc).bypass_document_validation(true),
        Way::Noted => with_note(rt, alloc),
        Way::Acknowledged => unset(rt, alloc).write_concern(by_one_node()),
        Way::OfCollection => of_collection(rt, alloc),
        Way::EachSetter => by_setters(rt, alloc),
        Way::Options => by_options(rt, alloc),
    }
}

/// What an insert by a new client over a link answers, and the link afterwards.
fn run_over<L: Link + Drop>(
    alloc: Global,
    link: L,
    insert: InsertMany,
) -> (Result<InsertManyResult>, L) {
    let options = ClientOptions {
        client_number: 1,
        retry_writes: None,
        read_concern: None,
        write_concern: None,
    };
    let mut client = Client::new(options, PlainStore::new(alloc, CountingIds::new()));
    let mut outside = Outside {
        link,
        clock: MemClock::new(0, 0),
        words: Pcg32::seed_from_u64(1),
        call: 0,
    };
    let result = insert.run(alloc, &mut client, &mut outside);
    let Outside {
        link,
        clock: _,
        words: _,
        call: _,
    } = outside;
    (result, link)
}

/// Whether these ids are the first object id alone.
fn is_first(ids: &ByIndex<Bson>) -> bool {
    ids.len() == 1 && id_at(ids, 0) == Some(1)
}

/// Whether an answer has the first object id alone.
fn has_first_id(end: Result<InsertManyResult>) -> bool {
    match end {
        Ok(done) => {
            let has = is_first(&done.inserted_ids);
            drop(done);
            has
        }
        Err(error) => {
            drop(error);
            false
        }
    }
}

/// Whether the insert of a row is done after one frame whose body has these parts.
fn row_sends(rt: &impl Abort, alloc: Global, way: Way, parts: &[&[u8]]) -> bool {
    let body = joined(alloc, parts).made(rt);
    let link = fake_link(alloc, ALIKE, &[Given::Reply(DONE)]).made(rt);
    let insert = insert_by(rt, alloc, way);
    let (result, link) = run_over(alloc, link, insert);
    let sent = has_one_frame(&link, body.as_slice(), 1);
    drop(link);
    has_first_id(result) && sent
}

/// `{x: 1}`, `{_id: 7}` and `{x: 1}`.
fn three(rt: &impl Abort, alloc: Global) -> List<Document> {
    let mut documents = List::with_capacity(alloc, 3).made(rt);
    documents.push(number(alloc, "x", 1).made(rt)).made(rt);
    documents.push(number(alloc, "_id", 7).made(rt)).made(rt);
    documents.push(number(alloc, "x", 1).made(rt)).made(rt);
    documents
}

/// A schedule by which each exchange is served and no call fails.
fn all_served(alloc: Global) -> Schedule
    ensures { IsWellFormed result }
{
    Schedule {
        items: List::new(alloc),
        selects: List::new(alloc),
        check_outs: List::new(alloc),
        overloaded_check_outs: List::new(alloc),
        reauthentications: List::new(alloc),
        supports: List::new(alloc),
    }
}

/// A model server that takes two documents a batch and serves each.
fn two_a_batch(alloc: Global) -> ModelServer {
    let setup = Setup {
        description: Description {
            max_write_batch_size: 2,
            ..USUAL_SETUP.description
        },
        transactions: USUAL_SETUP.transactions,
        timeout_ms: USUAL_SETUP.timeout_ms,
    };
    ModelServer::new(alloc, setup, all_served(alloc))
}

/// Whether an id is the number 7.
fn is_seven(id: Option<&Bson>) -> bool {
    match id {
        Some(Bson::Int32(number)) => *number == 7,
        _ => false,
    }
}

/// Whether these ids are the first object id, 7, and the second object id, and no more.
fn are_three(ids: &ByIndex<Bson>) -> bool {
    ids.len() == 3 && id_at(ids, 0) == Some(1) && is_seven(ids.get(1)) && id_at(ids, 2) == Some(2)
}

/// Whether an answer has these three ids.
fn has_three_ids(end: Result<InsertManyResult>) -> bool {
    match end {
        Ok(done) => {
            let has = are_three(&done.inserted_ids);
            drop(done);
            has
        }
        Err(error) => {
            drop(error);
            false
        }
    }
}

/// The last byte of the object id of an entry, or none where it has another id or there is no such entry.
fn entry_id(server: &Server, at: usize) -> Option<u8> {
    match server.log.get(at) {
        Some(entry) => match entry.written.get().document.get("_id") {
            Some(Bson::ObjectId(id)) => Some(id.bytes[11]),
            _ => None,
        },
        None => None,
    }
}

/// Whether the second entry has the id 7.
fn second_is_seven(server: &Server) -> bool {
    match server.log.get(1) {
        Some(entry) => is_seven(entry.written.get().document.get("_id")),
        None => false,
    }
}

/// Whether a server was sent two batches, and has an entry for each document with its id.
fn has_three_entries(server: &Server) -> bool {
    server.trace.len() == 2
        && server.log.len() == 3
        && entry_id(server, 0) == Some(1)
        && second_is_seven(server)
        && entry_id(server, 2) == Some(2)
}

/// Whether an insert of three documents over a model server that takes two a batch answers their ids, under which they
/// stand in the log.
fn stands(rt: &impl Abort, alloc: Global) -> bool {
    let documents = three(rt, alloc);
    let insert = insert_of(rt, alloc, documents.as_slice(), None);
    drop(documents);
    let (result, link) = run_over(alloc, two_a_batch(alloc), insert);
    let stand = has_three_entries(link.server());
    drop(link);
    has_three_ids(result) && stand
}

/// Whether a document's document is itself.
fn is_its_own(rt: &impl Abort, alloc: Global) -> bool {
    let document = number(alloc, "_id", 7).made(rt);
    let made = document.to_document(alloc).made(rt);
    drop(document);
    made.len() == 1 && is_seven(made.get("_id"))
}

#[test]
fn an_insert_of_many_answers_the_ids_that_stand(rt: HostRuntime) {
    let stands = stands(&rt, rt.alloc());
    holds(
        &rt,
        stands,
        "the ids that an insert answers stand in the log",
    );
}

#[test]
fn the_options_of_an_insert_of_many_go_out_as_they_were_set(rt: HostRuntime) {
    for (at, (way, parts)) in ROWS.iter().enumerate() {
        let sent = row_sends(&rt, rt.alloc(), *way, parts);
        holds_at(&rt, sent, "what goes out by each way to set options", at);
    }
}

#[test]
fn a_document_is_written_as_itself(rt: HostRuntime) {
    let own = is_its_own(&rt, rt.alloc());
    holds(&rt, own, "a document is written as itself");
}
