//! One insert over a fake link: what it sends, and the replies that it does not take.
use crate::asserting::holds;
use driver_error::IoKind;
use driver_link::Frame;
use memory_links::FakeLink;
use std::alloc::Global;
use test_parts::faking::{
    ALIKE, DONE, Given, LATER, NO_REPEATS, NO_SESSIONS, Servers, ends_at_once, inserted, seen,
};
use test_parts::inserting::{Ended, SERVER};

/// `{ok: 0, code: 20, errmsg: "Transaction numbers .."}`
const NO_NUMBERS: &[u8] =
    b"j\0\0\0\x10ok\0\0\0\0\0\x10code\0\x14\0\0\0\x02errmsg\0G\0\0\0Transaction numbers are only allowed on a replica set member or mongos\0\0";

/// `{ok: 0, code: 20, errmsg: "Transaction number 7 is too old"}`
const OLD_NUMBER: &[u8] =
    b"C\0\0\0\x10ok\0\0\0\0\0\x10code\0\x14\0\0\0\x02errmsg\0 \0\0\0Transaction number 7 is too old\0\0";

/// A reply that is no document.
const BROKEN: &[u8] = b"\x05\0\0\0";

/// A lost exchange, and one that would be done.
const LOST_ONCE: &[Given] = &[Given::Reset, Given::Reply(DONE)];

/// Whether two frames have the same bytes.
fn is_same(first: &Frame, second: &Frame) -> bool {
    first.database() == second.database()
        && first.body() == second.body()
        && has_same_documents(first, second)
}

/// Whether the one sequence of each has the same one document.
fn has_same_documents(first: &Frame, second: &Frame) -> bool {
    if first.sequence_count() != 1 || second.sequence_count() != 1 {
        return false;
    }
    if first.document_count(0) != 1 || second.document_count(0) != 1 {
        return false;
    }
    first.document(0, 0) == second.document(0, 0)
}

/// Whether a link was given two frames, in the same bytes.
fn has_equal_frames(link: &FakeLink) -> bool {
    match link.frames() {
        [first, second] => is_same(first, second),
        _ => false,
    }
}

/// Whether a lost command goes out again in the same bytes, and is done.
fn resend_is_the_same(alloc: Global) -> bool {
    match inserted(alloc, ALIKE, LOST_ONCE) {
        Some((ended, link)) => ended == Ended::Done && has_equal_frames(&link),
        None => false,
    }
}

/// Whether an insert that is lost twice ends with an error of this wire version.
fn has_version(alloc: Global, servers: Servers, version: i32) -> bool {
    match seen(alloc, servers, &[Given::Reset, Given::Reset]) {
        Some((seen, _link)) => seen.ended == Ended::Io(IoKind::ConnectionReset)
            && seen.version == Some(version),
        None => false,
    }
}

#[test]
fn an_error_has_the_wire_version_of_its_own_connection(rt: HostRuntime) {
    let rising = Servers {
        first: SERVER,
        further: LATER,
    };
    let falling = Servers {
        first: LATER,
        further: SERVER,
    };
    holds(
        &rt,
        has_version(rt.alloc(), rising, 26),
        "the second of two rising versions",
    );
    holds(
        &rt,
        has_version(rt.alloc(), falling, 25),
        "the second of two falling versions",
    );
}

#[test]
fn another_message_of_that_code_is_left_as_it_is(rt: HostRuntime) {
    holds(
        &rt,
        ends_at_once(
            rt.alloc(),
            ALIKE,
            &[Given::Reply(OLD_NUMBER)],
            Ended::Command(20),
        ),
        "another message of code 20",
    );
}

#[test]
fn a_deployment_without_numbers_is_told_in_words(rt: HostRuntime) {
    holds(
        &rt,
        ends_at_once(
            rt.alloc(),
            ALIKE,
            &[Given::Reply(NO_NUMBERS)],
            Ended::NoNumbers,
        ),
        "a deployment without numbers",
    );
}

#[test]
fn a_reply_that_is_no_document_is_not_sent_again(rt: HostRuntime) {
    holds(
        &rt,
        ends_at_once(
            rt.alloc(),
            ALIKE,
            &[Given::Reply(BROKEN), Given::Reply(DONE)],
            Ended::InvalidResponse,
        ),
        "a reply that is no document",
    );
}

#[test]
fn nothing_is_sent_again_where_nothing_may_be_repeated(rt: HostRuntime) {
    let servers = Servers {
        first: SERVER,
        further: NO_REPEATS,
    };
    holds(
        &rt,
        ends_at_once(
            rt.alloc(),
            servers,
            LOST_ONCE,
            Ended::Io(IoKind::ConnectionReset),
        ),
        "nothing sent again where nothing may be repeated",
    );
}

#[test]
fn nothing_is_sent_again_to_a_server_without_retryable_writes(rt: HostRuntime) {
    let servers = Servers {
        first: NO_REPEATS,
        further: SERVER,
    };
    holds(
        &rt,
        ends_at_once(
            rt.alloc(),
            servers,
            LOST_ONCE,
            Ended::Io(IoKind::ConnectionReset),
        ),
        "nothing sent again without retryable writes",
    );
}

#[test]
fn nothing_is_sent_again_to_a_server_without_sessions(rt: HostRuntime) {
    let servers = Servers {
        first: NO_SESSIONS,
        further: SERVER,
    };
    holds(
        &rt,
        ends_at_once(
            rt.alloc(),
            servers,
            LOST_ONCE,
            Ended::Io(IoKind::ConnectionReset),
        ),
        "nothing sent again without sessions",
    );
}

#[test]
fn a_session_is_not_sent_to_a_server_without(rt: HostRuntime) {
    let servers = Servers {
        first: SERVER,
        further: NO_SESSIONS,
    };
    holds(
        &rt,
        ends_at_once(rt.alloc(), servers, LOST_ONCE, Ended::NoSessions),
        "no session to a server without",
    );
}

#[test]
fn the_frames_of_a_resend_are_equal(rt: HostRuntime) {
    holds(
        &rt,
        resend_is_the_same(rt.alloc()),
        "the frames of a resend",
    );
}
