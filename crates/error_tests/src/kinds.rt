//! Copies of kinds of errors and of what they hold, with ample memory: each prints as its original.
use crate::asserting::{Made, alike, holds};
use crate::copies::{concern, write_errors};
use crate::errors::{command, command_failed, text_list};
use crate::results::{copies_alike, counts};
use crate::texts::{kind, texts};
use bson_lite::{Boxed, Bson, ByIndex, List, Text};
use driver_error::{
    BulkWriteError, CommandErrorBody, Error, ErrorKind, GridFsErrorKind, GridFsFileIdentifier,
    InsertManyError, IoKind, PartialBulkWriteResult, WriteError, WriteFailure,
};
use std::alloc::Global;
use std::process::Abort;

#[test]
fn kinds_are_copied(rt: HostRuntime) {
    for (at, text) in texts().iter().enumerate() {
        let same = copies_alike(&rt, rt.alloc(), kind(&rt, rt.alloc(), at));
        alike(
            &rt,
            (at, *text, same),
            (at, *text, true),
            "a kind is copied",
        );
    }
    holds(
        &rt,
        copies_alike(&rt, rt.alloc(), IoKind::Other),
        "a failure of the network",
    );
}

fn write_error(rt: &impl Abort, alloc: Global) -> WriteError {
    WriteError {
        code: 11000,
        code_name: Some(Text::from_str(alloc, "DuplicateKey").made(rt)),
        message: Text::from_str(alloc, "duplicate").made(rt),
        details: None,
    }
}

fn many(rt: &impl Abort, alloc: Global) -> InsertManyError {
    let mut inserted_ids = ByIndex::new(alloc);
    inserted_ids.insert(0, Bson::Int32(1)).made(rt);
    InsertManyError {
        write_errors: Some(write_errors(rt, alloc)),
        write_concern_error: Some(concern(rt, alloc)),
        inserted_ids,
    }
}

fn bulk(rt: &impl Abort, alloc: Global) -> BulkWriteError {
    let mut write_errors = ByIndex::new(alloc);
    write_errors.insert(2, write_error(rt, alloc)).made(rt);
    let mut write_concern_errors = List::new(alloc);
    write_concern_errors.push(concern(rt, alloc)).made(rt);
    BulkWriteError {
        write_concern_errors,
        write_errors,
        partial_result: Some(PartialBulkWriteResult::Summary(counts())),
    }
}

fn body(rt: &impl Abort, alloc: Global) -> CommandErrorBody {
    CommandErrorBody {
        error_labels: text_list(rt, alloc, &["told"]),
        command_error: command(rt, alloc, 5, "Name", "x"),
    }
}

const FAILED_WRITES: &[&str; 4] = &[
    "an insert of many",
    "a bulk write",
    "a write error",
    "a write concern error",
];

#[test]
fn failures_of_writes_are_copied(rt: HostRuntime) {
    for (at, name) in FAILED_WRITES.iter().enumerate() {
        holds(
            &rt,
            copies_alike(&rt, rt.alloc(), failed_write(&rt, rt.alloc(), at)),
            *name,
        );
    }
    holds(
        &rt,
        copies_alike(&rt, rt.alloc(), body(&rt, rt.alloc())),
        "the body of a command error",
    );
}

fn failed_write(rt: &impl Abort, alloc: Global, at: usize) -> ErrorKind {
    match at {
        0 => ErrorKind::InsertMany(Boxed::new(alloc, many(rt, alloc)).made(rt)),
        1 => ErrorKind::BulkWrite(Boxed::new(alloc, bulk(rt, alloc)).made(rt)),
        2 => ErrorKind::Write(WriteFailure::WriteError(write_error(rt, alloc))),
        _ => ErrorKind::Write(WriteFailure::WriteConcernError(concern(rt, alloc))),
    }
}

const FILE_ERRORS: &[&str; 8] = &[
    "no file of a name",
    "no file of an id",
    "no revision",
    "a closed upload",
    "a chunk of another size",
    "another number of chunks",
    "a failed abort",
    "a failed abort of what had failed",
];

fn file_error(rt: &impl Abort, alloc: Global, at: usize) -> GridFsErrorKind<Error> {
    match at {
        0 => GridFsErrorKind::FileNotFound {
            identifier: GridFsFileIdentifier::Filename(Text::from_str(alloc, "f").made(rt)),
        },
        1 => GridFsErrorKind::FileNotFound {
            identifier: GridFsFileIdentifier::Id(Bson::Int32(1)),
        },
        2 => GridFsErrorKind::RevisionNotFound { revision: -1 },
        3 => GridFsErrorKind::UploadStreamClosed,
        4 => GridFsErrorKind::WrongSizeChunk {
            actual_size: 1,
            expected_size: 2,
            n: 3,
        },
        5 => GridFsErrorKind::WrongNumberOfChunks {
            actual_number: 4,
            expected_number: 5,
        },
        6 => GridFsErrorKind::AbortError {
            original_error: None,
            delete_error: Boxed::new(alloc, command_failed(rt, alloc, 1)).made(rt),
        },
        _ => GridFsErrorKind::AbortError {
            original_error: Some(Boxed::new(alloc, command_failed(rt, alloc, 2)).made(rt)),
            delete_error: Boxed::new(alloc, command_failed(rt, alloc, 1)).made(rt),
        },
    }
}

#[test]
fn errors_of_files_are_copied(rt: HostRuntime) {
    for (at, name) in FILE_ERRORS.iter().enumerate() {
        holds(
            &rt,
            copies_alike(&rt, rt.alloc(), file_error(&rt, rt.alloc(), at)),
            *name,
        );
    }
}
