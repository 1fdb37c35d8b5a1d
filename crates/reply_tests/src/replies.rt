//! What no clause shows: that replies are read with ample memory, by bytes of the BSON layout.
use crate::asserting::holds;
use driver_error::{Error, ErrorKind, Result};
use driver_ops::{CommandResponse, read_response};
use std::alloc::Global;

/// `{ok: 1}`
const DONE: &[u8] = b"\x0d\0\0\0\x10ok\0\x01\0\0\0\0";

/// `{}`
const EMPTY: &[u8] = b"\x05\0\0\0\0";

/// `{ok: "x"}`
const ODD: &[u8] = b"\x0f\0\0\0\x02ok\0\x02\0\0\0x\0\0";

/// `{ok: 0, code: 13, errmsg: "x"}`
const FAILED: &[u8] = b"\x25\0\0\0\x10ok\0\0\0\0\0\x10code\0\x0d\0\0\0\x02errmsg\0\x02\0\0\0x\0\0";

/// `{ok: 0}`
const BARE: &[u8] = b"\x0d\0\0\0\x10ok\0\0\0\0\0\0";

/// `{ok: 1, $clusterTime: {clusterTime: Timestamp(1, 1), signature: {}}}`
const TIMED: &[u8] =
    b"E\0\0\0\x10ok\0\x01\0\0\0\x03$clusterTime\0*\0\0\0\x11clusterTime\0\x01\0\0\0\x01\0\0\0\x03signature\0\x05\0\0\0\0\0\0";

/// `{ok: 1, $clusterTime: 1}`
const NUMBER_FOR_TIME: &[u8] = b"\x1f\0\0\0\x10ok\0\x01\0\0\0\x10$clusterTime\0\x01\0\0\0\0";

/// `{ok: 1, $clusterTime: {clusterTime: 1, signature: {}}}`
const TIME_OF_A_NUMBER: &[u8] =
    b"A\0\0\0\x10ok\0\x01\0\0\0\x03$clusterTime\0&\0\0\0\x10clusterTime\0\x01\0\0\0\x03signature\0\x05\0\0\0\0\0\0";

/// `{ok: 1, $clusterTime: {clusterTime: Timestamp(1, 1)}}`
const UNSIGNED_TIME: &[u8] =
    b"5\0\0\0\x10ok\0\x01\0\0\0\x03$clusterTime\0\x1a\0\0\0\x11clusterTime\0\x01\0\0\0\x01\0\0\0\0\0";

/// `{ok: 1, $clusterTime: {clusterTime: Timestamp(1, 1), signature: 1}}`
const SIGNED_BY_A_NUMBER: &[u8] =
    b"D\0\0\0\x10ok\0\x01\0\0\0\x03$clusterTime\0)\0\0\0\x11clusterTime\0\x01\0\0\0\x01\0\0\0\x10signature\0\x01\0\0\0\0\0";

/// `{ok: 0, code: 13, errmsg: "x", $clusterTime: 1}`
const FAILED_AT_ODD_TIME: &[u8] =
    b"7\0\0\0\x10ok\0\0\0\0\0\x10code\0\x0d\0\0\0\x02errmsg\0\x02\0\0\0x\0\x10$clusterTime\0\x01\0\0\0\0";

/// `{ok: "x", $clusterTime: 1}`
const ODD_AT_ODD_TIME: &[u8] = b"!\0\0\0\x02ok\0\x02\0\0\0x\0\x10$clusterTime\0\x01\0\0\0\0";

/// A reader that promises nothing, since a test's proof reads each clause of what it calls.
fn read(alloc: Global, bytes: &[u8]) -> Result<CommandResponse> {
    read_response(alloc, bytes)
}

/// Whether a reply is taken as done.
fn is_done(alloc: Global, bytes: &[u8]) -> bool {
    match read(alloc, bytes) {
        Ok(response) => {
            let done = response.ok == 1 && response.body.get("ok").is_some();
            drop(response);
            done
        }
        Err(error) => {
            drop(error);
            false
        }
    }
}

/// Whether an error keeps a reply of these bytes.
fn keeps(error: &Error, bytes: &[u8]) -> bool {
    match error.server_response() {
        Some(response) => response.as_bytes() == bytes,
        None => false,
    }
}

/// Whether an error tells of a reply that breaks the form of replies, with this message, and keeps it.
fn is_broken(error: &Error, bytes: &[u8], text: &str) -> bool {
    match error.kind() {
        ErrorKind::InvalidResponse { message } => message.as_str() == text && keeps(error, bytes),
        _ => false,
    }
}

/// Whether a reply breaks the form of replies, with this message, and is kept.
fn breaks(alloc: Global, bytes: &[u8], text: &str) -> bool {
    match read(alloc, bytes) {
        Ok(response) => {
            drop(response);
            false
        }
        Err(error) => {
            let broken = is_broken(&error, bytes, text);
            drop(error);
            broken
        }
    }
}

/// Whether an error is that of a command with this code and message, and keeps its reply.
fn is_failed(error: &Error, bytes: &[u8], code: i32, text: &str) -> bool {
    match error.kind() {
        ErrorKind::Command(failed) => {
            failed.code == code && failed.message.as_str() == text && keeps(error, bytes)
        }
        _ => false,
    }
}

/// Whether a reply spells a command error of this code and message, and is kept.
fn fails(alloc: Global, bytes: &[u8], code: i32, text: &str) -> bool {
    match read(alloc, bytes) {
        Ok(response) => {
            drop(response);
            false
        }
        Err(error) => {
            let failed = is_failed(&error, bytes, code, text);
            drop(error);
            failed
        }
    }
}

#[test]
fn a_done_command_is_read(rt: HostRuntime) {
    holds(&rt, is_done(rt.alloc(), DONE), "{ok: 1} as done");
}

#[test]
fn a_reply_without_ok_is_refused(rt: HostRuntime) {
    holds(
        &rt,
        breaks(rt.alloc(), EMPTY, "missing 'ok' value in response"),
        "the fault of an empty reply",
    );
}

#[test]
fn an_ok_that_is_no_number_is_refused(rt: HostRuntime) {
    holds(
        &rt,
        breaks(rt.alloc(), ODD, "expected ok value to be a number"),
        "the fault of {ok: text}",
    );
}

#[test]
fn a_failed_command_needs_a_code(rt: HostRuntime) {
    holds(&rt, !is_done(rt.alloc(), BARE), "{ok: 0} as not done");
    holds(
        &rt,
        !fails(rt.alloc(), BARE, 0, ""),
        "{ok: 0} as no command error",
    );
}

#[test]
fn a_failed_command_spells_its_error(rt: HostRuntime) {
    holds(
        &rt,
        fails(rt.alloc(), FAILED, 13, "x"),
        "the code and the message of a failed command",
    );
}

/// The message about a cluster time of another form.
const ODD_TIME: &str = "the reply has a $clusterTime of another form";

#[test]
fn a_cluster_time_of_its_form_is_taken(rt: HostRuntime) {
    holds(
        &rt,
        is_done(rt.alloc(), TIMED),
        "a reply with a cluster time as done",
    );
}

#[test]
fn a_cluster_time_of_another_form_is_refused(rt: HostRuntime) {
    holds(
        &rt,
        breaks(rt.alloc(), NUMBER_FOR_TIME, ODD_TIME),
        "the fault of a number for a cluster time",
    );
    holds(
        &rt,
        breaks(rt.alloc(), TIME_OF_A_NUMBER, ODD_TIME),
        "the fault of a cluster time of a number",
    );
    holds(
        &rt,
        breaks(rt.alloc(), UNSIGNED_TIME, ODD_TIME),
        "the fault of a cluster time without a signature",
    );
    holds(
        &rt,
        breaks(rt.alloc(), SIGNED_BY_A_NUMBER, ODD_TIME),
        "the fault of a cluster time signed by a number",
    );
}

#[test]
fn a_cluster_time_is_judged_behind_the_form_of_ok_and_before_its_number(rt: HostRuntime) {
    holds(
        &rt,
        breaks(rt.alloc(), FAILED_AT_ODD_TIME, ODD_TIME),
        "the fault of {ok: 0} with an odd cluster time",
    );
    holds(
        &rt,
        breaks(
            rt.alloc(),
            ODD_AT_ODD_TIME,
            "expected ok value to be a number",
        ),
        "the fault of {ok: text} with an odd cluster time",
    );
}
