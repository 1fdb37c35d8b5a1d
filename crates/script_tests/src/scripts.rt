//! Scripts run from a source to a sink: statuses and texts.
use crate::asserting::{Made, alike, holds};
use crate::runs::ran;
use bson_lite::{Bytes, EncodeFault, List, Text, encode};
use driver_inputs::{Call, SingleWrite};
use driver_script::{ScriptFault, read_script};
use memory_links::{MemSink, MemSource};
use script_run::{Run, top};
use serde_json::Value;
use std::alloc::{AllocError, Global};
use std::process::Abort;
use std::sync::Wait;
use std::thread::Threads;

const INSERT: &str =
    "{\"calls\":[{\"insertOne\":{\"ns\":\"shop.items\",\"doc\":[[\"x\",1]]}}],\"schedule\":[]}";

const UPDATE: &str = "{\"calls\":[{\"updateOne\":{\"ns\":\"shop.items\",\"doc\":[]}}]}";

/// Two inserts, of which the first is lost once.
const LOST: &str =
    "{\"calls\":[{\"insertOne\":{\"ns\":\"shop.items\",\"doc\":[[\"x\",1]]}},{\"insertOne\":{\"ns\":\"shop.items\",\"doc\":[[\"x\",1]]}}],\"schedule\":[\"lost\"]}";

const REPORT_OF_LOST: &str = "call 0 insertOne: ok id=000000000000000000000001
call 1 insertOne: ok id=000000000000000000000002
send 0: insert session=1 number=1 places=0.0
send 1: insert session=1 number=1 places=0.0
send 2: insert session=2 number=1 places=1.0
entry 0: 0.0 session=1 number=1 n=1
entry 1: 1.0 session=2 number=1 n=1
ids: distinct
waiting: 0
totals: calls=2 ok=2 sends=3 entries=2
";

/// An insert into a database whose name has a dot.
const DOTTED: &str = "{\"calls\":[{\"insertOne\":{\"ns\":[\"a.b\",\"c\"],\"doc\":[]}}]}";

const REPORT_OF_DOTTED: &str =
    "call 0 insertOne: err InvalidArgument invalid database name a.b: name cannot contain period labels=- source=-
ids: distinct
waiting: 0
totals: calls=1 ok=0 sends=0 entries=0
";

/// An insert of a document with a zero byte in a key.
const ZERO: &str =
    "{\"calls\":[{\"insertOne\":{\"ns\":\"shop.items\",\"doc\":[[\"a\\u0000b\",1]]}}]}";

const REPORT_OF_ZERO: &str = "call 0 insertOne: err BsonSerialization ZeroByte labels=- source=-
ids: distinct
waiting: 0
totals: calls=1 ok=0 sends=0 entries=0
";

const REPORT_OF_NOTHING: &str = "ids: distinct
waiting: 0
totals: calls=0 ok=0 sends=0 entries=0
";

const TOO_LARGE: &str = "script too large\n";

const REPORT: &str = "call 0 insertOne: ok id=000000000000000000000001
send 0: insert session=1 number=1 places=0.0
entry 0: 0.0 session=1 number=1 n=1
ids: distinct
waiting: 0
totals: calls=1 ok=1 sends=1 entries=1
";

/// The words of a command.
fn words_of(rt: &impl Abort, alloc: Global, texts: &[&str]) -> Vec<Text> {
    let mut words = Vec::new(alloc);
    for text in texts {
        words.push(Text::from_str(alloc, text).made(rt)).made(rt);
    }
    words
}

/// The program's status on words and an input, and what was written.
fn program<T: Wait + Threads + Abort>(
    rt: &T,
    alloc: Global,
    texts: &[&str],
    input: Bytes,
) -> (u8, Bytes) {
    let words = words_of(rt, alloc, texts);
    let mut source = MemSource::new(input, List::new(alloc));
    let mut sink = MemSink::new(alloc, 1000, List::new(alloc)).made(rt);
    let mut run = Run::new();
    let status = top(
        rt,
        alloc,
        words.as_slice(),
        &mut source,
        &mut sink,
        &mut run,
    );
    drop(run);
    drop(source);
    drop(words);
    written(rt, alloc, status, sink)
}

/// The status with what was written.
fn written(rt: &impl Abort, alloc: Global, status: u8, sink: MemSink) -> (u8, Bytes) {
    let bytes = Bytes::from_slice(alloc, sink.contents()).made(rt);
    (status, bytes)
}

/// An input of so many spaces.
fn spaces(rt: &impl Abort, alloc: Global, count: usize) -> Bytes {
    Bytes::from_vec(vec![in alloc; b' '; count].made(rt))
}

/// A script of so many inserts.
fn inserts(rt: &impl Abort, alloc: Global, count: usize) -> Bytes {
    let mut script = String::new(alloc);
    script.push_str("{\"calls\":[").made(rt);
    for at in 0..count {
        if at > 0 {
            script.push_str(",").made(rt);
        }
        script
            .push_str("{\"insertOne\":{\"ns\":\"a.b\",\"doc\":[]}}")
            .made(rt);
    }
    script.push_str("]}").made(rt);
    Bytes::from_vec(script.into_bytes())
}

/// A script of one insert of a document.
fn insert_of(rt: &impl Abort, alloc: Global, document: &str) -> String {
    let mut script = String::new(alloc);
    script
        .push_str("{\"calls\":[{\"insertOne\":{\"ns\":\"a.b\",\"doc\":")
        .made(rt);
    script.push_str(document).made(rt);
    script.push_str("}}]}").made(rt);
    script
}

/// The bytes of the document of a call, and none where it has no spelling.
fn spelled(rt: &impl Abort, alloc: Global, call: &Call) -> Option<Bytes> {
    let Call::Single {
        write: SingleWrite::InsertOne(insert),
    } = call
    else {
        return None;
    };
    match encode(alloc, &insert.document) {
        Ok(bytes) => Some(bytes),
        Err(EncodeFault::Memory) => Err(AllocError).made(rt),
        Err(_) => None,
    }
}

/// The bytes of a document that a script writes so, and none where it is refused. The text is JSON.
fn encoded(rt: &impl Abort, alloc: Global, text: &str) -> Option<Bytes> {
    drop(Value::from_slice(alloc, text.as_bytes()).made(rt));
    let script = insert_of(rt, alloc, text);
    match read_script(alloc, script.as_bytes()) {
        Ok(read) => match read.calls.get(0) {
            Some(call) => spelled(rt, alloc, call),
            None => None,
        },
        Err(ScriptFault::Memory) => Err(AllocError).made(rt),
        Err(_) => None,
    }
}

/// Documents, and their bytes by the BSON standard's grammar: a length, the elements, a zero byte.
const DOCUMENTS: &[(&str, &str)] = &[
    ("[]", "\x05\0\0\0\0"),
    (
        "[[\"a\",{\"doc\":[[\"b\",1]]}]]",
        "\x14\0\0\0\x03a\0\x0c\0\0\0\x10b\0\x01\0\0\0\0\0",
    ),
    (
        "[[\"c\",{\"array\":[true,\"x\",{\"doc\":[]}]}]]",
        "\x22\0\0\0\x04c\0\x1a\0\0\0\x080\0\x01\x021\0\x02\0\0\0x\0\x032\0\x05\0\0\0\0\0\0",
    ),
];

#[test]
fn documents_and_arrays_are_read(rt: HostRuntime) {
    for (text, bytes) in DOCUMENTS {
        let found = encoded(&rt, rt.alloc(), text);
        let same = matches!(&found, Some(read) if read.as_slice() == bytes.as_bytes());
        holds(&rt, same, text);
    }
}

/// Documents and arrays that are broken.
const BROKEN: &[&str] = &[
    "{}",
    "[[]]",
    "[[\"a\"]]",
    "[[\"a\",1,2]]",
    "[[1,\"a\"]]",
    "[[\"a\",[1]]]",
    "[[\"a\",{\"doc\":{}}]]",
    "[[\"a\",{\"array\":1}]]",
    "[[\"a\",{\"array\":[1.5]}]]",
    "[[\"a\",{\"array\":[],\"doc\":[]}]]",
];

#[test]
fn broken_documents_and_arrays_are_refused(rt: HostRuntime) {
    for text in BROKEN {
        let refused = encoded(&rt, rt.alloc(), text).is_none();
        holds(&rt, refused, text);
    }
}

/// Scripts that are refused, or whose source fails at a call, with the room of the output: statuses and texts.
const REFUSED: &[(&str, Option<u64>, usize, u8, &str)] = &[
    (UPDATE, None, 100, 3, "script refused at $\n"),
    (
        "{\"calls\":[{\"insertOne\":{\"ns\":\"ab\",\"doc\":[]}}]}",
        None,
        100,
        3,
        "script refused at $\n",
    ),
    (
        "{\"calls\":[{\"insertOne\":{\"ns\":\"a.b\",\"doc\":[[\"x\",1.5]]}}]}",
        None,
        100,
        3,
        "script refused at $\n",
    ),
    (
        "{\"calls\":[{\"insertOne\":{\"ns\":\"a.b\",\"doc\":[]}}],\"seed\":1}",
        None,
        100,
        3,
        "script refused at $\n",
    ),
    (
        "{\"calls\":[],\"schedule\":[\"Lost\"]}",
        None,
        100,
        3,
        "script refused at $\n",
    ),
    (
        "{\"calls\":[],\"schedule\":\"lost\"}",
        None,
        100,
        3,
        "script refused at $\n",
    ),
    ("{\"schedule\":[]}", None, 100, 3, "script refused at $\n"),
    ("   ", None, 100, 3, "script refused at $\n"),
    (INSERT, Some(0), 100, 4, "read failed\n"),
    (INSERT, Some(1), 100, 4, "read failed\n"),
    (UPDATE, None, 0, 3, ""),
    (INSERT, Some(1), 4, 4, "read"),
];

#[test]
fn refused_scripts_and_failing_streams(rt: HostRuntime) {
    for (script, fails, room, status, text) in REFUSED {
        let (found, bytes) = ran(&rt, rt.alloc(), script, *fails, *room);
        alike(&rt, found, *status, script);
        alike(&rt, bytes.as_slice(), text.as_bytes(), script);
    }
}

/// Scripts and their reports.
const REPORTS: &[(&str, &str)] = &[
    (INSERT, REPORT),
    (LOST, REPORT_OF_LOST),
    (DOTTED, REPORT_OF_DOTTED),
    (ZERO, REPORT_OF_ZERO),
    ("{\"calls\":[]}", REPORT_OF_NOTHING),
    (
        "{\"calls\":[],\"schedule\":[\"serve\",\"lost\"]}",
        REPORT_OF_NOTHING,
    ),
];

/// Rooms of the output, one of them too small, and the statuses of a run.
const ROOMS: &[(usize, u8)] = &[(1000, 0), (16, 5)];

#[test]
fn runs_are_reported(rt: HostRuntime) {
    for (script, report) in REPORTS {
        for (room, status) in ROOMS {
            let (found, bytes) = ran(&rt, rt.alloc(), script, None, *room);
            let text = &report.as_bytes()[..(*room).min(report.len())];
            alike(&rt, (*room, found), (*room, *status), script);
            alike(&rt, (*room, bytes.as_slice()), (*room, text), script);
        }
    }
}

/// Words that are no command, by what they are.
const OTHER_WORDS: &[(&str, &[&str])] = &[
    ("no word", &[]),
    ("a word too many", &["run", "x"]),
    ("a capital letter", &["Run"]),
    ("an option", &["--help"]),
];

#[test]
fn other_words_are_answered_by_their_usage(rt: HostRuntime) {
    let usage = "usage: run | race N | generate SEED N\n";
    for (name, texts) in OTHER_WORDS {
        let (status, text) = program(&rt, rt.alloc(), texts, Bytes::new(rt.alloc()));
        alike(&rt, status, 2, name);
        alike(&rt, text.as_slice(), usage.as_bytes(), name);
    }
}

/// Inputs of so many spaces, with the statuses and texts.
const LENGTHS: &[(&str, usize, u8, &str)] = &[
    ("16777216 bytes", 16_777_216, 3, "script refused at $\n"),
    ("16777217 bytes", 16_777_217, 7, TOO_LARGE),
];

#[test]
fn the_length_of_an_input_is_bounded(rt: HostRuntime) {
    for (name, count, status, text) in LENGTHS {
        let input = spaces(&rt, rt.alloc(), *count);
        let (found, bytes) = program(&rt, rt.alloc(), &["run"], input);
        alike(&rt, found, *status, name);
        alike(&rt, bytes.as_slice(), text.as_bytes(), name);
    }
}

/// Scripts of so many calls, with the statuses. The report of 10000 calls is longer than the room of the output.
const COUNTS: &[(&str, usize, u8)] = &[("10000 calls", 10_000, 5), ("10001 calls", 10_001, 7)];

#[test]
fn the_number_of_calls_is_bounded(rt: HostRuntime) {
    for (name, count, status) in COUNTS {
        let input = inserts(&rt, rt.alloc(), *count);
        let (found, bytes) = program(&rt, rt.alloc(), &["run"], input);
        alike(&rt, found, *status, name);
        let refused = bytes.as_slice() == TOO_LARGE.as_bytes();
        alike(&rt, refused, *status == 7, name);
    }
}
