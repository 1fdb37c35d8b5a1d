//! Copies and conversions with ample memory.
use crate::asserting::{Made, alike, holds};
use crate::errors::{
    command, has_redacted_reply, held, over, printed, redact, redacted, reset, text_list,
};
use bson_lite::{Boxed, Bson, ByIndex, List, Text, TryClone};
use driver_error::{
    CommandErrorBody, Error, ErrorKind, IndexedWriteError, InsertManyError, WriteConcernError,
    WriteFailure, convert_insert_many_error,
};
use std::alloc::Global;
use std::process::Abort;

pub(crate) fn write_errors(rt: &impl Abort, alloc: Global) -> List<IndexedWriteError> {
    let mut errors = List::new(alloc);
    for index in [3, 1] {
        errors
            .push(IndexedWriteError {
                index,
                code: 11000,
                code_name: None,
                message: Text::from_str(alloc, "duplicate").made(rt),
                details: None,
            })
            .made(rt);
    }
    errors
}

pub(crate) fn concern(rt: &impl Abort, alloc: Global) -> WriteConcernError {
    WriteConcernError {
        code: 64,
        code_name: Text::from_str(alloc, "WriteConcernFailed").made(rt),
        message: Text::from_str(alloc, "waited").made(rt),
        details: None,
        labels: text_list(rt, alloc, &["inner"]),
    }
}

fn many(
    rt: &impl Abort,
    alloc: Global,
    write_errors: Option<List<IndexedWriteError>>,
    write_concern_error: Option<WriteConcernError>,
) -> Error {
    let mut inserted_ids = ByIndex::new(alloc);
    inserted_ids.insert(0, Bson::Int32(1)).made(rt);
    let labels = text_list(rt, alloc, &["outer"]);
    let failures = InsertManyError {
        write_errors,
        write_concern_error,
        inserted_ids,
    };
    let kind = ErrorKind::InsertMany(Boxed::new(alloc, failures).made(rt));
    Error::new(alloc, kind, labels.as_slice())
}

fn same_text(rt: &impl Abort, alloc: Global, a: &Error, b: &Error) -> bool {
    a.to_string(alloc).made(rt).as_str() == b.to_string(alloc).made(rt).as_str()
}

fn with_source(rt: &impl Abort, alloc: Global) -> Error {
    let errors = write_errors(rt, alloc);
    let concern = concern(rt, alloc);
    let error = many(rt, alloc, Some(errors), Some(concern));
    over(rt, alloc, error, reset(rt, alloc, &["a"]))
}

fn copy(rt: &impl Abort, alloc: Global, error: &Error) -> Error {
    error.try_clone(alloc).made(rt)
}

#[test]
fn a_copy_prints_alike(rt: HostRuntime) {
    holds(
        &rt,
        prints_as_its_copy(&rt, rt.alloc(), with_source(&rt, rt.alloc())),
        "the text of a copy",
    );
}

/// Whether a copy prints as the error, and no more once the error is redacted.
fn prints_as_its_copy(rt: &impl Abort, alloc: Global, error: Error) -> bool {
    let error = held(rt, alloc, error);
    let copy = held(rt, alloc, copy(rt, alloc, error.get()));
    let same = same_text(rt, alloc, error.get(), copy.get());
    let redacted = held(rt, alloc, redact(rt, alloc, error.into_inner()));
    same && !same_text(rt, alloc, redacted.get(), copy.get())
}

fn redacted_copy(rt: &impl Abort, alloc: Global) -> Error {
    let error = redacted(rt, alloc);
    let copy = copy(rt, alloc, &error);
    drop(error);
    copy
}

#[test]
fn a_copy_of_a_redacted_error_has_its_reply(rt: HostRuntime) {
    let copy = held(&rt, rt.alloc(), redacted_copy(&rt, rt.alloc()));
    holds(&rt, has_redacted_reply(copy.get()), "the reply of the copy");
}

#[test]
fn a_copy_of_a_redacted_error_prints_alike(rt: HostRuntime) {
    let text = printed(&rt, rt.alloc(), redacted(&rt, rt.alloc()));
    let copied = printed(&rt, rt.alloc(), redacted_copy(&rt, rt.alloc()));
    alike(&rt, copied.as_str(), text.as_str(), "the text of the copy");
}

fn write_code(error: &Error) -> Option<i32> {
    match error.kind() {
        ErrorKind::Write(WriteFailure::WriteError(error)) => Some(error.code),
        ErrorKind::Write(WriteFailure::WriteConcernError(error)) => Some(error.code),
        _ => None,
    }
}

#[test]
fn the_write_error_comes_before_the_write_concern_error(rt: HostRuntime) {
    let error = of_both(&rt, rt.alloc());
    holds(
        &rt,
        is_of_the_write_error(error.get()),
        "the write error with the labels of both",
    );
}

/// What an insert of one document answers for write errors and a write concern error.
fn of_both(rt: &impl Abort, alloc: Global) -> Boxed<Error> {
    let errors = write_errors(rt, alloc);
    let concern = concern(rt, alloc);
    held(rt, alloc, converted(rt, alloc, Some(errors), Some(concern)))
}

/// Whether the first write error stands in the error, with the labels of both and no code to judge by.
fn is_of_the_write_error(error: &Error) -> bool {
    write_code(error) == Some(11000)
        && code(error).is_none()
        && has_label(error, "outer")
        && has_label(error, "inner")
}

fn code(error: &Error) -> Option<i32> {
    error.sdam_code()
}

fn has_label(error: &Error, label: &str) -> bool {
    error.has_own_label(label)
}

fn converted(
    rt: &impl Abort,
    alloc: Global,
    write_errors: Option<List<IndexedWriteError>>,
    concern: Option<WriteConcernError>,
) -> Error {
    let error = many(rt, alloc, write_errors, concern);
    convert_insert_many_error(alloc, error)
}

#[test]
fn an_empty_list_of_write_errors_is_none(rt: HostRuntime) {
    let error = of_concern(&rt, rt.alloc());
    alike(
        &rt,
        write_code(error.get()),
        Some(64),
        "the code of the write concern error",
    );
}

/// What an insert of one document answers for no write error and a write concern error.
fn of_concern(rt: &impl Abort, alloc: Global) -> Boxed<Error> {
    let none = List::new(alloc);
    let concern = concern(rt, alloc);
    held(rt, alloc, converted(rt, alloc, Some(none), Some(concern)))
}

#[test]
fn no_failure_is_an_invalid_response(rt: HostRuntime) {
    let text = printed(&rt, rt.alloc(), converted(&rt, rt.alloc(), None, None));
    alike(
        &rt,
        text.as_str(),
        "Kind: The server returned an invalid reply to a database operation: error missing write errors and write concern errors, labels: -, source: None",
        "the text where there is no failure",
    );
}

fn body(rt: &impl Abort, alloc: Global) -> CommandErrorBody {
    CommandErrorBody {
        error_labels: text_list(rt, alloc, &["told"]),
        command_error: command(rt, alloc, 5, "Name", "x"),
    }
}

#[test]
fn a_body_becomes_an_error(rt: HostRuntime) {
    let error = held(&rt, rt.alloc(), Error::from(body(&rt, rt.alloc())));
    holds(&rt, has_label(error.get(), "told"), "the label of the body");
    alike(&rt, code(error.get()), Some(5), "the code of the body");
}

#[test]
fn a_kind_becomes_an_error(rt: HostRuntime) {
    let failure = WriteFailure::WriteConcernError(concern(&rt, rt.alloc()));
    let error = held(&rt, rt.alloc(), Error::from(ErrorKind::Write(failure)));
    holds(
        &rt,
        has_label(error.get(), "inner"),
        "the label of the write concern error",
    );
    alike(
        &rt,
        write_code(error.get()),
        Some(64),
        "the code of the write concern error",
    );
}
