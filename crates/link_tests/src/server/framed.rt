//! One frame of each command, read and served.
use super::*;
use driver_link::{Frame, Sequence};
use frame_reading::reading::read_send;

/// The name of a command, its frame with the documents of its sequences, how many writes it has, and the bytes of
/// its reply.
struct Spelled {
    name: &'static str,
    database: &'static str,
    body: &'static [u8],
    sequences: &'static [(&'static str, &'static [u8])],
    writes: u64,
    expected: &'static [u8],
}

/// One document changed.
const CHANGED: &[u8] = b"#\0\0\0\x10ok\0\x01\0\0\0\x10n\0\x01\0\0\0\x10nModified\0\x01\0\0\0\0";

/// No document stood there.
const NO_VALUE: &[u8] = b"\x14\0\0\0\x10ok\0\x01\0\0\0\x0avalue\0\0";

/// One op, all on the first page.
const ONE_OP: &[u8] =
    b"\xbe\0\0\0\x10ok\0\x01\0\0\0\x10nErrors\0\0\0\0\0\x10nInserted\0\x01\0\0\0\x10nMatched\0\0\0\0\0\x10nModified\0\0\0\0\0\x10nUpserted\0\0\0\0\0\x10nDeleted\0\0\0\0\0\x03cursor\0S\0\0\0\x10id\0\0\0\0\0\x02ns\0\x15\0\0\0admin.$cmd.bulkWrite\0\x04firstBatch\0\x1d\0\0\0\x030\0\x15\0\0\0\x10idx\0\0\0\0\0\x10n\0\x01\0\0\0\0\0\0\0";

/// Commands that write.
const WRITE_FRAMES: [Spelled; 5] = [
    Spelled {
        name: "insert",
        database: "a",
        body: b"_\0\0\0\x02insert\0\x02\0\0\0c\0\x08ordered\0\x01\x03lsid\0\x1e\0\0\0\x05id\0\x10\0\0\0\x04\0\x01\x02\x03\x04\x05\x06\x07\x08\x09\x0a\x0b\x0c\x0d\x0e\x0f\0\x12txnNumber\0\x01\0\0\0\0\0\0\0\x02$db\0\x02\0\0\0a\0\0",
        sequences: &[("documents", b"\x05\0\0\0\0")],
        writes: 1,
        expected: ONE,
    },
    Spelled {
        name: "update",
        database: "a",
        body: b"N\0\0\0\x02update\0\x02\0\0\0c\0\x08ordered\0\x01\x04updates\0\x1d\0\0\0\x030\0\x15\0\0\0\x03q\0\x05\0\0\0\0\x03u\0\x05\0\0\0\0\0\0\x02$db\0\x02\0\0\0a\0\0",
        sequences: &[],
        writes: 1,
        expected: CHANGED,
    },
    Spelled {
        name: "delete",
        database: "a",
        body: b"Q\0\0\0\x02delete\0\x02\0\0\0c\0\x08ordered\0\x01\x04deletes\0 \0\0\0\x030\0\x18\0\0\0\x03q\0\x05\0\0\0\0\x10limit\0\x01\0\0\0\0\0\x02$db\0\x02\0\0\0a\0\0",
        sequences: &[],
        writes: 1,
        expected: ONE,
    },
    Spelled {
        name: "findAndModify",
        database: "a",
        body: b":\0\0\0\x02findAndModify\0\x02\0\0\0c\0\x03query\0\x05\0\0\0\0\x08remove\0\x01\x02$db\0\x02\0\0\0a\0\0",
        sequences: &[],
        writes: 1,
        expected: NO_VALUE,
    },
    Spelled {
        name: "bulkWrite",
        database: "admin",
        body: b"-\0\0\0\x10bulkWrite\0\x01\0\0\0\x08ordered\0\x01\x02$db\0\x06\0\0\0admin\0\0",
        sequences: &[
            ("nsInfo", b"\x11\0\0\0\x02ns\0\x04\0\0\0a.c\0\0"),
            (
                "ops",
                b" \0\0\0\x10insert\0\0\0\0\0\x03document\0\x05\0\0\0\0\0",
            ),
        ],
        writes: 1,
        expected: ONE_OP,
    },
];

/// Ends of transactions, and commands of a cursor.
const OTHER_FRAMES: [Spelled; 4] = [
    Spelled {
        name: "commitTransaction",
        database: "admin",
        body: b"o\0\0\0\x10commitTransaction\0\x01\0\0\0\x03lsid\0\x1e\0\0\0\x05id\0\x10\0\0\0\x04\0\x01\x02\x03\x04\x05\x06\x07\x08\x09\x0a\x0b\x0c\x0d\x0e\x0f\0\x12txnNumber\0\x01\0\0\0\0\0\0\0\x08autocommit\0\0\x02$db\0\x06\0\0\0admin\0\0",
        sequences: &[],
        writes: 0,
        expected: TRANSIENT,
    },
    Spelled {
        name: "abortTransaction",
        database: "admin",
        body: b"n\0\0\0\x10abortTransaction\0\x01\0\0\0\x03lsid\0\x1e\0\0\0\x05id\0\x10\0\0\0\x04\0\x01\x02\x03\x04\x05\x06\x07\x08\x09\x0a\x0b\x0c\x0d\x0e\x0f\0\x12txnNumber\0\x01\0\0\0\0\0\0\0\x08autocommit\0\0\x02$db\0\x06\0\0\0admin\0\0",
        sequences: &[],
        writes: 0,
        expected: TRANSIENT,
    },
    Spelled {
        name: "getMore",
        database: "admin",
        body: b"D\0\0\0\x12getMore\0\x01\0\0\0\0\0\0\0\x02collection\0\x0f\0\0\0$cmd.bulkWrite\0\x02$db\0\x06\0\0\0admin\0\0",
        sequences: &[],
        writes: 0,
        expected: NO_CURSOR,
    },
    Spelled {
        name: "killCursors",
        database: "admin",
        body: b"M\0\0\0\x02killCursors\0\x0f\0\0\0$cmd.bulkWrite\0\x04cursors\0\x10\0\0\0\x120\0\x01\0\0\0\0\0\0\0\0\x02$db\0\x06\0\0\0admin\0\0",
        sequences: &[],
        writes: 0,
        expected: NO_CURSOR,
    },
];

fn sequences_of(
    rt: &impl Abort,
    alloc: Global,
    written: &[(&'static str, &'static [u8])],
) -> List<Sequence> {
    let mut sequences = List::new(alloc);
    for (name, document) in written {
        let mut documents = List::new(alloc);
        documents
            .push(Bytes::from_slice(alloc, document).made(rt))
            .made(rt);
        let name = Text::from_str(alloc, name).made(rt);
        sequences.push(Sequence { name, documents }).made(rt);
    }
    sequences
}

/// The reply to a frame on a server that has seen nothing.
fn reply_to(rt: &impl Abort, alloc: Global, spelled: &Spelled) -> Bytes {
    let database = Text::from_str(alloc, spelled.database).made(rt);
    let body = Bytes::from_slice(alloc, spelled.body).made(rt);
    let frame = Frame::new(database, body, sequences_of(rt, alloc, spelled.sequences));
    let mut places = Vec::new(alloc);
    for index in 0..spelled.writes {
        places.push(Place { call: 0, index }).made(rt);
    }
    match read_send(alloc, &frame, places.as_slice()).made(rt) {
        Some(send) => answered(
            rt,
            &mut new_server(alloc),
            alloc,
            send,
            &item_of(rt, alloc, Meets::Serve),
        ),
        None => Bytes::new(alloc),
    }
}

/// The name of the first command that is not answered as its frame says; no name where all are.
fn wrong_frame(rt: &impl Abort, alloc: Global, frames: &[Spelled]) -> &'static str {
    for spelled in frames {
        if reply_to(rt, alloc, spelled).as_slice() != spelled.expected {
            return spelled.name;
        }
    }
    ""
}

#[test]
fn each_command_is_read(rt: HostRuntime) {
    let wrong = wrong_frame(&rt, rt.alloc(), &WRITE_FRAMES);
    holds(&rt, wrong.is_empty(), wrong);
    let wrong = wrong_frame(&rt, rt.alloc(), &OTHER_FRAMES);
    holds(&rt, wrong.is_empty(), wrong);
}
