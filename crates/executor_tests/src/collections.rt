//! A findAndModify in a collection that has a write concern of its own, by the executor alone: that concern counts
//! where the write has none, and before the client's.
ghost use Rattle.std.specs.Prelude.{◌≡◌, ◌<◌};

use crate::asserting::{Made, holds, holds_at};
use crate::concerns::has_end;
use bson_lite::{Document, TryClone};
use driver_attempt::{Client, Outside, Steps};
use driver_error::Result;
use driver_exec::execute_operation;
use driver_link::Place;
use driver_ops::Collection;
use driver_options::{
    ClientOptions, FindAndModifyOptions, Modification, UpdateOrReplace, WriteConcern,
};
use driver_session::PlainStore;
use memory_links::{CountingIds, FakeLink, MemClock};
use rand_core::SeedableRng;
use rand_pcg::Pcg32;
use statement_ops::FindAndModify;
use std::alloc::Global;
use std::marker::Brand;
use std::process::Abort;
use std::sync::ledger::{Blank, Ledger};
use test_parts::faking::{ALIKE, ANY_DONE, Given, fake_link};
use test_parts::inserting::{Ended, how_ended};
use test_parts::spelling::{FIRST_NUMBER, LAST, joined};
use test_parts::writes::{Concern, namespace, number, write_concern};

/// `writeConcern: {w: 1}`, and the same of 2 and of 3
const BY_ONE: &[u8] = b"\x03writeConcern\0\x0c\0\0\0\x10w\0\x01\0\0\0\0";

const BY_TWO: &[u8] = b"\x03writeConcern\0\x0c\0\0\0\x10w\0\x02\0\0\0\0";

const BY_THREE: &[u8] = b"\x03writeConcern\0\x0c\0\0\0\x10w\0\x03\0\0\0\0";

/// The concerns of a write, of its collection and of its client.
#[derive(Clone, Copy)]
struct Concerns {
    own: Concern,
    collection: Concern,
    client: Concern,
}

/// Three concerns, and what of them goes out between the number and the database.
const SENT: &[(Concerns, &[u8])] = &[
    (
        Concerns {
            own: Concern::Nodes(1),
            collection: Concern::Nodes(2),
            client: Concern::Nodes(3),
        },
        BY_ONE,
    ),
    (
        Concerns {
            own: Concern::Unset,
            collection: Concern::Nodes(2),
            client: Concern::Nodes(3),
        },
        BY_TWO,
    ),
    (
        Concerns {
            own: Concern::Unset,
            collection: Concern::Unset,
            client: Concern::Nodes(3),
        },
        BY_THREE,
    ),
    (
        Concerns {
            own: Concern::Unset,
            collection: Concern::Bare,
            client: Concern::Nodes(3),
        },
        b"",
    ),
    (
        Concerns {
            own: Concern::Bare,
            collection: Concern::Nodes(2),
            client: Concern::Nodes(3),
        },
        b"",
    ),
    (
        Concerns {
            own: Concern::Unset,
            collection: Concern::Nodes(2),
            client: Concern::Nodes(0),
        },
        BY_TWO,
    ),
];

/// A collection's concern that is refused, before its client's is looked at.
const REFUSED: Concerns = Concerns {
    own: Concern::Unset,
    collection: Concern::Nodes(0),
    client: Concern::Nodes(3),
};

/// A replacement by `{y: 2}`, as a copy, which is the same.
fn replacement(rt: &impl Abort, alloc: Global) -> Modification {
    let given = Modification::Update(UpdateOrReplace::Replacement(number(alloc, "y", 2).made(rt)));
    let copy = given.try_clone(alloc).made(rt);
    drop(given);
    copy
}

/// Options with this concern, as a copy, which is the same.
fn options(rt: &impl Abort, alloc: Global, concern: Concern) -> FindAndModifyOptions {
    let given = FindAndModifyOptions {
        write_concern: write_concern(concern),
        ..FindAndModifyOptions::default()
    };
    let copy = given.try_clone(alloc).made(rt);
    drop(given);
    copy
}

/// The replacement of what the filter `{x: 1}` finds, with these concerns of its own and of its collection.
fn find(rt: &impl Abort, alloc: Global, concerns: Concerns) -> FindAndModify {
    let collection = Collection {
        namespace: namespace(alloc, "shop").made(rt),
        write_concern: write_concern(concerns.collection),
    };
    let filter = number(alloc, "x", 1).made(rt);
    let modification = replacement(rt, alloc);
    let options = options(rt, alloc, concerns.own);
    FindAndModify::new(collection, filter, modification, options)
}

/// What it comes to over a link for a client with this concern, and the link afterwards.
fn executed<Q: Ledger>(
    alloc: Global,
    link: FakeLink,
    mut find: FindAndModify,
    concern: Option<WriteConcern>,
    blank: Blank,
) -> (Result<Option<Document>>, FakeLink)
    requires name { blank.name ≡ Q.name }
    requires parts { blank.parts ≡ Q.parts }
    requires some { 0 < blank.parts }
{
    let options = ClientOptions {
        client_number: 1,
        retry_writes: None,
        read_concern: None,
        write_concern: concern,
    };
    let mut client = Client::new(options, PlainStore::new(alloc, CountingIds::new()));
    let mut outside = Outside {
        link,
        clock: MemClock::new(0, 0),
        words: Pcg32::seed_from_u64(1),
        call: 0,
    };
    let mut sends: Steps<Q> = Steps::new(blank);
    let place = Place { call: 0, index: 0 };
    let result = execute_operation(
        alloc,
        &mut client,
        &mut find,
        &[place],
        &mut outside,
        &mut sends,
    );
    drop(find);
    let Outside {
        link,
        clock: _,
        words: _,
        call: _,
    } = outside;
    (result, link)
}

/// How it ended.
fn ended(end: Result<Option<Document>>) -> Ended {
    match end {
        Ok(found) => {
            drop(found);
            Ended::Done
        }
        Err(error) => {
            let ended = how_ended(&error);
            drop(error);
            ended
        }
    }
}

/// How a write with these concerns ended, and the link afterwards.
fn ended_under(rt: &impl Abort, alloc: Global, concerns: Concerns) -> (Ended, FakeLink) {
    let link = fake_link(alloc, ALIKE, &[Given::Reply(ANY_DONE)]).made(rt);
    let find = find(rt, alloc, concerns);
    let blank = Blank::new(1);
    let (result, link) = executed::<Brand>(
        alloc,
        link,
        find,
        write_concern(concerns.client),
        blank,
    );
    (ended(result), link)
}

/// Whether a write with these concerns is done after one send, with this between the number and the database.
fn is_sent(rt: &impl Abort, alloc: Global, concerns: Concerns, concern: &[u8]) -> bool {
    let end = joined(alloc, &[FIRST_NUMBER, concern, LAST]).made(rt);
    let (ended, link) = ended_under(rt, alloc, concerns);
    let sent = match link.frames() {
        [frame] => has_end(frame.body(), end.as_slice()),
        _ => false,
    };
    drop(link);
    sent && ended == Ended::Done
}

/// Whether a write with these concerns is refused as one that nobody acknowledges, and nothing is sent.
fn is_refused(rt: &impl Abort, alloc: Global, concerns: Concerns) -> bool {
    let (ended, link) = ended_under(rt, alloc, concerns);
    let unsent = link.frames().len() == 0;
    drop(link);
    unsent && ended == Ended::Unacknowledged
}

#[test]
fn a_collections_own_concern_counts_between_its_writes_and_its_clients(rt: HostRuntime) {
    for (at, (concerns, concern)) in SENT.iter().enumerate() {
        let sent = is_sent(&rt, rt.alloc(), *concerns, concern);
        holds_at(&rt, sent, "what goes out under the concerns of a row", at);
    }
    let refused = is_refused(&rt, rt.alloc(), REFUSED);
    holds(
        &rt,
        refused,
        "a write that its collection's concern refuses",
    );
}
