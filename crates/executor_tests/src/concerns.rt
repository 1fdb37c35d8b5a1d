//! Inserts of clients that have a write concern: what goes out with it, and which are refused before anything is sent.
use crate::asserting::{Made, holds_at};
use bson_lite::{Text, encode};
use driver_ops::concern_document;
use driver_options::{Acknowledgment, WriteConcern};
use memory_links::FakeLink;
use std::alloc::Global;
use std::process::Abort;
use test_parts::faking::{ALIKE, DONE, Given, fake_link};
use test_parts::inserting::{Ended, Seen, insert_under};

/// What a row's concern says of the servers that acknowledge a write.
#[derive(Clone, Copy)]
enum Servers {
    Unset,
    Nodes(u32),
    Majority,
    Named(&'static str),
}

/// A concern as a row spells it.
#[derive(Clone, Copy)]
struct Concern {
    w: Servers,
    w_timeout: Option<u32>,
    journal: Option<bool>,
}

/// `txnNumber: 1, $db: "shop"`, the end of a frame's body without a concern.
const BARE: &[u8] = b"\x12txnNumber\0\x01\0\0\0\0\0\0\0\x02$db\0\x05\0\0\0shop\0\0";

/// `txnNumber: 1, writeConcern: {w: 3, wtimeout: 250, j: true}, $db: "shop"`
const THREE: &[u8] =
    b"\x12txnNumber\0\x01\0\0\0\0\0\0\0\x03writeConcern\0\x1e\0\0\0\x10w\0\x03\0\0\0\x10wtimeout\0\xfa\0\0\0\x08j\0\x01\0\x02$db\0\x05\0\0\0shop\0\0";

/// `txnNumber: 1, writeConcern: {w: "majority"}, $db: "shop"`
const MAJORITY: &[u8] =
    b"\x12txnNumber\0\x01\0\0\0\0\0\0\0\x03writeConcern\0\x15\0\0\0\x02w\0\x09\0\0\0majority\0\0\x02$db\0\x05\0\0\0shop\0\0";

/// `txnNumber: 1, writeConcern: {w: "near", j: false}, $db: "shop"`
const NAMED: &[u8] =
    b"\x12txnNumber\0\x01\0\0\0\0\0\0\0\x03writeConcern\0\x15\0\0\0\x02w\0\x05\0\0\0near\0\x08j\0\0\0\x02$db\0\x05\0\0\0shop\0\0";

/// `txnNumber: 1, writeConcern: {wtimeout: 2147483648}, $db: "shop"`, with a timeout of 64 bits
const LONG: &[u8] =
    b"\x12txnNumber\0\x01\0\0\0\0\0\0\0\x03writeConcern\0\x17\0\0\0\x12wtimeout\0\0\0\0\x80\0\0\0\0\0\x02$db\0\x05\0\0\0shop\0\0";

/// `txnNumber: 1, writeConcern: {w: 2147483647, wtimeout: 2147483647}, $db: "shop"`, the greatest numbers of 32 bits
const GREATEST: &[u8] =
    b"\x12txnNumber\0\x01\0\0\0\0\0\0\0\x03writeConcern\0\x1a\0\0\0\x10w\0\xff\xff\xff\x7f\x10wtimeout\0\xff\xff\xff\x7f\0\x02$db\0\x05\0\0\0shop\0\0";

/// Concerns and the ends of the bodies that go out with them.
const SENT: &[(Concern, &[u8])] = &[
    (
        Concern {
            w: Servers::Unset,
            w_timeout: None,
            journal: None,
        },
        BARE,
    ),
    (
        Concern {
            w: Servers::Nodes(3),
            w_timeout: Some(250),
            journal: Some(true),
        },
        THREE,
    ),
    (
        Concern {
            w: Servers::Majority,
            w_timeout: None,
            journal: None,
        },
        MAJORITY,
    ),
    (
        Concern {
            w: Servers::Named("near"),
            w_timeout: None,
            journal: Some(false),
        },
        NAMED,
    ),
    (
        Concern {
            w: Servers::Unset,
            w_timeout: Some(2_147_483_648),
            journal: None,
        },
        LONG,
    ),
    (
        Concern {
            w: Servers::Nodes(2_147_483_647),
            w_timeout: Some(2_147_483_647),
            journal: None,
        },
        GREATEST,
    ),
];

/// Concerns and their documents: `{j: true}`, `{w: 2147483648, wtimeout: 4294967295}`, `{}`.
const SPELLED: &[(Concern, &[u8])] = &[
    (
        Concern {
            w: Servers::Unset,
            w_timeout: None,
            journal: Some(true),
        },
        b"\x09\0\0\0\x08j\0\x01\0",
    ),
    (
        Concern {
            w: Servers::Nodes(2_147_483_648),
            w_timeout: Some(4_294_967_295),
            journal: None,
        },
        b"\x22\0\0\0\x12w\0\0\0\0\x80\0\0\0\0\x12wtimeout\0\xff\xff\xff\xff\0\0\0\0\0",
    ),
    (
        Concern {
            w: Servers::Unset,
            w_timeout: None,
            journal: None,
        },
        b"\x05\0\0\0\0",
    ),
];

/// Concerns that are refused, and how.
const REFUSED: &[(Concern, Ended)] = &[
    (
        Concern {
            w: Servers::Nodes(0),
            w_timeout: None,
            journal: None,
        },
        Ended::Unacknowledged,
    ),
    // both unacknowledged and invalid
    (
        Concern {
            w: Servers::Nodes(0),
            w_timeout: None,
            journal: Some(true),
        },
        Ended::Unacknowledged,
    ),
    (
        Concern {
            w: Servers::Nodes(2_147_483_648),
            w_timeout: None,
            journal: None,
        },
        Ended::InvalidConcern,
    ),
];

fn acknowledgment(rt: &impl Abort, alloc: Global, w: Servers) -> Option<Acknowledgment> {
    match w {
        Servers::Unset => None,
        Servers::Nodes(nodes) => Some(Acknowledgment::Nodes(nodes)),
        Servers::Majority => Some(Acknowledgment::Majority),
        Servers::Named(name) => Some(Acknowledgment::Custom(Text::from_str(alloc, name).made(rt))),
    }
}

fn write_concern(rt: &impl Abort, alloc: Global, concern: Concern) -> WriteConcern {
    WriteConcern {
        w: acknowledgment(rt, alloc, concern.w),
        w_timeout: concern.w_timeout,
        journal: concern.journal,
    }
}

/// Whether a concern as a document has these bytes.
fn is_spelled(rt: &impl Abort, alloc: Global, concern: Concern, bytes: &[u8]) -> bool {
    let concern = write_concern(rt, alloc, concern);
    let document = concern_document(alloc, &concern).made(rt);
    match encode(alloc, &document) {
        Ok(found) => found.as_slice() == bytes,
        Err(_) => false,
    }
}

/// The end of an insert of a client with this concern, and the link afterwards.
fn seen_under(rt: &impl Abort, alloc: Global, concern: Concern) -> Option<(Seen, FakeLink)> {
    let concern = write_concern(rt, alloc, concern);
    let link = fake_link(alloc, ALIKE, &[Given::Reply(DONE)]).made(rt);
    insert_under(alloc, link, Some(concern))
}

/// Whether bytes end so.
pub(crate) fn has_end(bytes: &[u8], end: &[u8]) -> bool {
    if bytes.len() < end.len() {
        return false;
    }
    let (_front, back) = bytes.split_at(bytes.len() - end.len());
    back == end
}

/// Whether an insert under a concern is done after one send, whose body ends so.
fn is_sent(rt: &impl Abort, alloc: Global, concern: Concern, end: &[u8]) -> bool {
    let Some((seen, link)) = seen_under(rt, alloc, concern) else {
        return false;
    };
    let sent = match link.frames() {
        [frame] => has_end(frame.body(), end),
        _ => false,
    };
    drop(link);
    sent && seen.ended == Ended::Done
}

/// Whether it ends so without labels, and nothing is sent.
fn is_refused(rt: &impl Abort, alloc: Global, concern: Concern, ended: Ended) -> bool {
    let Some((seen, link)) = seen_under(rt, alloc, concern) else {
        return false;
    };
    let unsent = link.frames().len() == 0;
    drop(link);
    unsent && seen.ended == ended && seen.labels == 0
}

#[test]
fn a_concern_is_spelled_by_its_fields_that_are_set(rt: HostRuntime) {
    for (at, (concern, bytes)) in SPELLED.iter().enumerate() {
        let spelled = is_spelled(&rt, rt.alloc(), *concern, bytes);
        holds_at(&rt, spelled, "the document of a concern", at);
    }
}

#[test]
fn a_clients_concern_stands_between_number_and_database(rt: HostRuntime) {
    for (at, (concern, end)) in SENT.iter().enumerate() {
        let sent = is_sent(&rt, rt.alloc(), *concern, end);
        holds_at(&rt, sent, "the end of a body with a concern", at);
    }
}

#[test]
fn a_concern_that_is_refused_sends_nothing(rt: HostRuntime) {
    for (at, (concern, ended)) in REFUSED.iter().enumerate() {
        let refused = is_refused(&rt, rt.alloc(), *concern, *ended);
        holds_at(&rt, refused, "the refusal of a concern", at);
    }
}
