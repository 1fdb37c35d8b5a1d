//! The texts of errors.
use crate::asserting::{Made, alike, holds};
use crate::errors::{command, command_failed, held, printed, redact, reset};
use bson_lite::{Boxed, ByIndex, EncodeFault, List, Text};
use driver_error::{
    BulkWriteError, Error, ErrorKind, GridFsErrorKind, InsertManyError, IoKind, WriteError,
    WriteFailure,
};
use std::alloc::Global;
use std::process::Abort;

const TEXTS: [&str; 22] = [
    "An invalid argument was provided: m",
    "The server returned an invalid reply to a database operation: m",
    "The server does not support a database operation: m",
    "An error occurred during DNS resolution: m",
    "Internal error: m",
    "I/O error: BrokenPipe",
    "Command failed: Error code 11600 (InterruptedAtShutdown): x",
    "m",
    "m",
    "m",
    "m",
    "m",
    "Custom user error: m",
    "Attempted to start a session on a deployment that does not support sessions",
    "Cannot provide resume functionality when the resume token is missing",
    "Client has been shut down",
    "out of memory",
    "TooDeep",
    "ZeroByte",
    "MissingChunk { n: 3 }",
    "\"m\"",
    "WriteInProgress",
];

pub(crate) fn texts() -> &'static [&'static str] {
    &TEXTS
}

pub(crate) fn kind(rt: &impl Abort, alloc: Global, at: usize) -> ErrorKind {
    let message = Text::from_str(alloc, "m").made(rt);
    match at {
        0 => ErrorKind::InvalidArgument { message },
        1 => ErrorKind::InvalidResponse { message },
        2 => ErrorKind::IncompatibleServer { message },
        3 => ErrorKind::DnsResolve { message },
        4 => ErrorKind::Internal { message },
        5 => ErrorKind::Io(IoKind::BrokenPipe),
        6 => ErrorKind::Command(command(rt, alloc, 11600, "InterruptedAtShutdown", "x")),
        7 => ErrorKind::Authentication { message },
        8 => ErrorKind::ConnectionPoolCleared { message },
        9 => ErrorKind::ServerSelection { message },
        10 => ErrorKind::InvalidTlsConfig { message },
        11 => ErrorKind::Transaction { message },
        12 => ErrorKind::Custom(message),
        13 => ErrorKind::SessionsNotSupported,
        14 => ErrorKind::MissingResumeToken,
        15 => ErrorKind::Shutdown,
        16 => ErrorKind::Memory,
        17 => ErrorKind::BsonSerialization(EncodeFault::TooDeep),
        18 => ErrorKind::BsonSerialization(EncodeFault::ZeroByte),
        19 => ErrorKind::GridFs(GridFsErrorKind::MissingChunk { n: 3 }),
        20 => ErrorKind::BsonDeserialization(message),
        _ => ErrorKind::GridFs(GridFsErrorKind::WriteInProgress),
    }
}

#[test]
fn kinds_print_their_texts(rt: HostRuntime) {
    for (at, text) in texts().iter().enumerate() {
        let printed = printed(&rt, rt.alloc(), kind(&rt, rt.alloc(), at));
        alike(
            &rt,
            (at, printed.as_str()),
            (at, *text),
            "what a kind prints",
        );
    }
}

/// The failures of the network, and what each prints.
const NETWORK: &[(IoKind, &str)] = &[
    (IoKind::TimedOut, "TimedOut"),
    (IoKind::ConnectionReset, "ConnectionReset"),
    (IoKind::ConnectionRefused, "ConnectionRefused"),
    (IoKind::BrokenPipe, "BrokenPipe"),
    (IoKind::UnexpectedEof, "UnexpectedEof"),
    (IoKind::Other, "Other"),
];

#[test]
fn failures_of_the_network_print_their_names(rt: HostRuntime) {
    for (kind, name) in NETWORK {
        alike(
            &rt,
            kind.to_string(rt.alloc()).made(&rt).as_str(),
            *name,
            *name,
        );
    }
}

fn interrupted(rt: &impl Abort, alloc: Global) -> Error {
    let error = command(rt, alloc, 11600, "InterruptedAtShutdown", "x");
    Error::from_kind(ErrorKind::Command(error))
}

/// Whether the command error in an error prints this text.
fn prints(rt: &impl Abort, alloc: Global, error: &Error, text: &str) -> bool {
    match error.kind() {
        ErrorKind::Command(command) => command.to_string(alloc).made(rt).as_str() == text,
        _ => false,
    }
}

#[test]
fn a_command_error_prints_its_code_name_and_message(rt: HostRuntime) {
    let error = held(&rt, rt.alloc(), interrupted(&rt, rt.alloc()));
    let text = "Error code 11600 (InterruptedAtShutdown): x";
    holds(
        &rt,
        prints(&rt, rt.alloc(), error.get(), text),
        "the text of a command error",
    );
}

#[test]
fn a_redacted_command_error_prints_its_code_and_name(rt: HostRuntime) {
    let error = held(
        &rt,
        rt.alloc(),
        redact(&rt, rt.alloc(), interrupted(&rt, rt.alloc())),
    );
    let text = "Error code 11600 (InterruptedAtShutdown): REDACTED";
    holds(
        &rt,
        prints(&rt, rt.alloc(), error.get(), text),
        "the text of a redacted command error",
    );
}

fn many(rt: &impl Abort, alloc: Global) -> ErrorKind {
    let failures = InsertManyError {
        write_errors: None,
        write_concern_error: None,
        inserted_ids: ByIndex::new(alloc),
    };
    ErrorKind::InsertMany(Boxed::new(alloc, failures).made(rt))
}

fn bulk(rt: &impl Abort, alloc: Global) -> ErrorKind {
    let failures = BulkWriteError {
        write_concern_errors: List::new(alloc),
        write_errors: ByIndex::new(alloc),
        partial_result: None,
    };
    ErrorKind::BulkWrite(Boxed::new(alloc, failures).made(rt))
}

fn write(alloc: Global) -> ErrorKind {
    ErrorKind::Write(WriteFailure::WriteError(WriteError {
        code: 1,
        code_name: None,
        message: Text::new(alloc),
        details: None,
    }))
}

#[test]
fn failures_of_writes_begin_with_their_texts(rt: HostRuntime) {
    let alloc = rt.alloc();
    let text = "An error occurred when trying to execute an insert_many operation: ";
    holds(
        &rt,
        begins(&rt, alloc, many(&rt, alloc), text),
        "a failed insert of many",
    );
    let text = "An error occurred when executing Client::bulk_write: ";
    holds(
        &rt,
        begins(&rt, alloc, bulk(&rt, alloc), text),
        "a failed bulk write",
    );
    let text = "An error occurred when trying to execute a write operation: ";
    holds(
        &rt,
        begins(&rt, alloc, write(alloc), text),
        "a failed write",
    );
}

/// Whether what the kind prints begins with this text.
fn begins(rt: &impl Abort, alloc: Global, kind: ErrorKind, text: &str) -> bool {
    printed(rt, alloc, kind).as_str().starts_with(text)
}

#[test]
fn an_error_prints_kind_labels_and_source(rt: HostRuntime) {
    let text = printed(&rt, rt.alloc(), shut_down(&rt, rt.alloc()));
    alike(
        &rt,
        text.as_str(),
        "Kind: Client has been shut down, labels: -, source: Kind: I/O error: ConnectionReset, labels: B,a,b, source: None",
        "the text of an error over another",
    );
}

/// An error over one with labels.
fn shut_down(rt: &impl Abort, alloc: Global) -> Error {
    let source = reset(rt, alloc, &["b", "a", "B"]);
    Error::from_kind(ErrorKind::Shutdown)
        .with_source(alloc, Some(source))
        .made(rt)
}

#[test]
fn an_error_without_source_prints_none(rt: HostRuntime) {
    let text = printed(&rt, rt.alloc(), command_failed(&rt, rt.alloc(), -1));
    alike(
        &rt,
        text.as_str(),
        "Kind: Command failed: Error code -1 (Name): x, labels: -, source: None",
        "the text of an error without a source",
    );
}
