//! What no clause says: that calls succeed with ample memory, and the texts of errors.
use crate::asserting::{Made, alike, holds};
use bson_lite::{Boxed, Bson, Document, List, RawDocumentBuf, Text, TryClone};
use driver_error::{
    CommandError, CreateIndexesResult, Error, ErrorKind, IoKind, Labels, RETRYABLE_WRITE_ERROR,
    Redact,
};
use std::alloc::Global;
use std::fmt::Display;
use std::process::Abort;

/// The text that a value prints.
pub(crate) fn printed<T: Display + Drop>(rt: &impl Abort, alloc: Global, value: T) -> String {
    value.to_string(alloc).made(rt)
}

/// An error that a test holds. Of an error in a box a test's proof reads no field as it lets it go.
pub(crate) fn held(rt: &impl Abort, alloc: Global, error: Error) -> Boxed<Error> {
    Boxed::new(alloc, error).made(rt)
}

pub(crate) fn text_list(rt: &impl Abort, alloc: Global, words: &[&str]) -> List<Text> {
    let mut list = List::new(alloc);
    for word in words {
        list.push(Text::from_str(alloc, word).made(rt)).made(rt);
    }
    list
}

pub(crate) fn command(
    rt: &impl Abort,
    alloc: Global,
    code: i32,
    name: &str,
    message: &str,
) -> CommandError {
    CommandError {
        code,
        code_name: Text::from_str(alloc, name).made(rt),
        message: Text::from_str(alloc, message).made(rt),
        base_backoff: Some(200),
    }
}

pub(crate) fn command_failed(rt: &impl Abort, alloc: Global, code: i32) -> Error {
    let error = command(rt, alloc, code, "Name", "x");
    Error::from_kind(ErrorKind::Command(error))
}

pub(crate) fn reset(rt: &impl Abort, alloc: Global, labels: &[&str]) -> Error {
    let labels = text_list(rt, alloc, labels);
    let kind = ErrorKind::Io(IoKind::ConnectionReset);
    Error::new(alloc, kind, labels.as_slice())
}

/// The set of `b`, `a` and `c`, with `a` added twice.
fn added_labels(rt: &impl Abort, alloc: Global) -> Labels {
    let mut labels = Labels::none();
    for label in ["b", "a", "c", "a"] {
        labels.add(alloc, label).made(rt);
    }
    labels
}

/// Whether the labels in order are `a`, `b` and `c`.
fn are_in_order(rt: &impl Abort, alloc: Global, labels: &Labels) -> bool {
    let sorted = labels.sorted(alloc).made(rt);
    let names = sorted.as_slice();
    names.len() == 3
        && names[0].as_str() == "a"
        && names[1].as_str() == "b"
        && names[2].as_str() == "c"
}

/// Whether `a` is among the labels, and `d` is not.
fn are_told(labels: &Labels) -> bool {
    labels.contains("a") && !labels.contains("d")
}

#[test]
fn labels_are_a_set_in_order(rt: HostRuntime) {
    let labels = added_labels(&rt, rt.alloc());
    let in_order = are_in_order(&rt, rt.alloc(), &labels);
    holds(
        &rt,
        in_order && are_told(&labels),
        "the labels a, b and c in order, and no d",
    );
}

/// The set of `b` and `a`, with `c` and `a` added, as it prints.
fn joined_labels(rt: &impl Abort, alloc: Global) -> String {
    let first = text_list(rt, alloc, &["b", "a"]);
    let more = text_list(rt, alloc, &["c", "a"]);
    let labels = Labels::from_texts(alloc, first.as_slice()).made(rt);
    let labels = labels.with_all(alloc, more.as_slice()).made(rt);
    labels.try_clone(alloc).made(rt).to_string(alloc).made(rt)
}

#[test]
fn labels_are_joined_and_copied(rt: HostRuntime) {
    alike(
        &rt,
        joined_labels(&rt, rt.alloc()).as_str(),
        "a,b,c",
        "the text of joined labels",
    );
}

/// The error with the label `more` too.
fn with_more(rt: &impl Abort, alloc: Global, error: Error) -> Error {
    let mut error = error;
    error.add_label(alloc, "more").made(rt);
    error
}

/// Whether the error has its own two labels.
fn has_both_labels(error: &Error) -> bool {
    error.has_own_label("RetryableWriteError") && error.has_own_label("more")
}

/// Whether the error has neither a source nor a reply nor a version.
fn is_bare(error: &Error) -> bool {
    error.source().is_none() && error.server_response().is_none() && error.wire_version().is_none()
}

fn is_reset(error: &Error) -> bool {
    matches!(error.kind(), ErrorKind::Io(IoKind::ConnectionReset))
}

#[test]
fn an_error_keeps_kind_and_labels(rt: HostRuntime) {
    let error = with_more(
        &rt,
        rt.alloc(),
        reset(&rt, rt.alloc(), &[RETRYABLE_WRITE_ERROR]),
    );
    let error = held(&rt, rt.alloc(), error);
    holds(
        &rt,
        has_both_labels(error.get()),
        "both labels of the error",
    );
    holds(
        &rt,
        is_bare(error.get()),
        "no source, reply and version of the error",
    );
    holds(&rt, is_reset(error.get()), "the kind of the error");
}

/// The error over a source.
pub(crate) fn over(rt: &impl Abort, alloc: Global, error: Error, source: Error) -> Error {
    error.with_source(alloc, Some(source)).made(rt)
}

/// Whether the label stands below the error alone.
fn is_labelled_below(error: &Error) -> bool {
    error.contains_label("RetryableWriteError")
        && !error.has_own_label("RetryableWriteError")
        && error.is_write_retryable()
}

#[test]
fn a_label_of_a_source_is_contained_and_not_own(rt: HostRuntime) {
    let alloc = rt.alloc();
    let error = command_failed(&rt, alloc, 1);
    let error = over(
        &rt,
        alloc,
        error,
        reset(&rt, alloc, &["RetryableWriteError"]),
    );
    let error = held(&rt, alloc, error);
    holds(
        &rt,
        is_labelled_below(error.get()),
        "the label below the error alone",
    );
    alike(
        &rt,
        error.get().base_backoff(),
        Some(200),
        "the base backoff of the error",
    );
}

/// Whether the error is the caller's own, with this text.
fn is_custom(error: &Error, text: &str) -> bool {
    error.get_custom() == Some(text)
}

#[test]
fn a_custom_error_gives_its_text_back(rt: HostRuntime) {
    let error = held(&rt, rt.alloc(), Error::custom(rt.alloc(), "mine"));
    holds(&rt, is_custom(error.get(), "mine"), "the error's own text");
    holds(
        &rt,
        !is_custom(error.get(), "yours"),
        "another text than the error's",
    );
}

#[test]
fn a_command_error_is_no_custom_error(rt: HostRuntime) {
    let error = held(&rt, rt.alloc(), command_failed(&rt, rt.alloc(), 1));
    holds(
        &rt,
        !is_custom(error.get(), "mine"),
        "a command error as a custom one",
    );
}

fn reply(rt: &impl Abort, alloc: Global) -> RawDocumentBuf {
    let mut document = Document::new(alloc);
    document.push("secret", Bson::Int32(7)).made(rt);
    RawDocumentBuf::from_document(alloc, &document).made(rt)
}

/// The error without what a server said in messages, details and replies.
pub(crate) fn redact(rt: &impl Abort, alloc: Global, error: Error) -> Error {
    let mut error = error;
    error.redact(alloc).made(rt);
    error
}

/// An error with a source and a reply.
fn told(rt: &impl Abort, alloc: Global) -> Error {
    let reply = reply(rt, alloc);
    let error = command_failed(rt, alloc, 1);
    let error = over(rt, alloc, error, command_failed(rt, alloc, 11600));
    error.with_server_response(Some(reply))
}

pub(crate) fn redacted(rt: &impl Abort, alloc: Global) -> Error {
    redact(rt, alloc, told(rt, alloc))
}

#[test]
fn redaction_leaves_no_message(rt: HostRuntime) {
    let text = printed(&rt, rt.alloc(), redacted(&rt, rt.alloc()));
    alike(
        &rt,
        text.as_str(),
        "Kind: Command failed: Error code 1 (Name): REDACTED, labels: -, source: Kind: Command failed: Error code 11600 (Name): REDACTED, labels: -, source: None",
        "the text of the redacted error",
    );
}

/// The spelling of the document `{redacted: true}`.
const REDACTED_REPLY: &[u8; 16] = b"\x10\x00\x00\x00\x08redacted\x00\x01\x00";

/// Whether the document `{redacted: true}` stands in place of the error's reply.
pub(crate) fn has_redacted_reply(error: &Error) -> bool {
    match error.server_response() {
        Some(reply) => reply.as_bytes() == REDACTED_REPLY.as_slice(),
        None => false,
    }
}

#[test]
fn redaction_leaves_no_reply(rt: HostRuntime) {
    let error = held(&rt, rt.alloc(), redacted(&rt, rt.alloc()));
    holds(
        &rt,
        has_redacted_reply(error.get()),
        "the reply of the redacted error",
    );
}

/// Whether a seven prints this text, plainly and for a reader of the program.
fn seven_prints(rt: &impl Abort, alloc: Global, on: bool, text: &str) -> bool {
    let seven = Redact { inner: 7, on };
    let plain = seven.to_string(alloc).made(rt);
    let debug = format!(in alloc; "{seven:?}").made(rt);
    plain.as_str() == text && debug.as_str() == text
}

#[test]
fn a_redacted_value_is_not_printed(rt: HostRuntime) {
    holds(
        &rt,
        seven_prints(&rt, rt.alloc(), false, "7"),
        "a seven that is printed",
    );
    holds(
        &rt,
        seven_prints(&rt, rt.alloc(), true, "<redacted>"),
        "a seven that is redacted",
    );
}

#[test]
fn the_first_index_is_the_result(rt: HostRuntime) {
    let index_names = text_list(&rt, rt.alloc(), &["a_1", "b_1"]);
    if !index_names.is_empty() {
        let result = CreateIndexesResult { index_names }.into_create_index_result();
        alike(
            &rt,
            result.index_name.as_str(),
            "a_1",
            "the name of the first index",
        );
    }
}
