//! How a bulk write ends, as rows tell it: its counts, or what its error tells and which rule a page broke.
use bulk_outcomes::BulkWriteResult;
use driver_error::{
    BulkWriteError, Error, ErrorKind, IoKind, PartialBulkWriteResult, Result,
    SummaryBulkWriteResult, VerboseBulkWriteResult,
};

/// Which rule a page breaks, by the message about it.
#[derive(Clone, Copy, PartialEq, Eq)]
pub enum Cause {
    Reply,
    Page,
    Misplaced,
    Disordered,
    Empty,
    Miscounted,
    Missing,
    NoDocument,
    Other,
}

/// The error that caused another one.
#[derive(Clone, Copy, PartialEq, Eq)]
pub enum Source {
    None,
    Invalid(Cause),
    Command(i32),
    Reset,
    Other,
}

/// What a bulk write's error tells: how many write errors there are, the first of them, how many concern errors, the
/// counts of what succeeded, the source, and whether it has the label of a retryable write, and a reply.
#[derive(Clone, Copy, PartialEq, Eq)]
pub struct Failed(
    pub usize,
    pub Option<(usize, i32)>,
    pub usize,
    pub Option<[i64; 5]>,
    pub Source,
    pub bool,
    pub bool,
);

/// How a bulk write ended: with these counts and so many results, with its own error, or with another one.
#[derive(Clone, Copy, PartialEq, Eq)]
pub enum Ended {
    Done([i64; 5], usize),
    Bulk(Failed),
    Invalid(Cause),
    Command(i32),
    Reset,
    NoModels,
    Other,
}

/// The error of two inserts that were told of, whose page failed so.
pub fn failed_page(source: Source) -> Ended {
    Ended::Bulk(Failed(0, None, 0, Some([2, 0, 0, 0, 0]), source, false, true))
}

/// The rule that a message names.
fn rule_named(message: &str) -> Cause {
    match message {
        "the reply does not tell of a bulk write" => Cause::Reply,
        "the page does not tell of the results of a bulk write" => Cause::Page,
        "a result is of no operation of the bulk write, or of one that has its result" => {
            Cause::Misplaced
        }
        "an ordered bulk write has results behind its error" => Cause::Disordered,
        "a page without results leaves its cursor open" => Cause::Empty,
        "the bulk write has not as many errors as its reply counts" => Cause::Miscounted,
        "a result of the bulk write is missing" => Cause::Missing,
        "the reply is no document" => Cause::NoDocument,
        _ => Cause::Other,
    }
}

/// What an error's source is.
fn source_of(error: &Error) -> Source {
    match error.source() {
        None => Source::None,
        Some(source) => match source.kind() {
            ErrorKind::InvalidResponse { message } => Source::Invalid(rule_named(message.as_str())),
            ErrorKind::Command(found) => Source::Command(found.code),
            ErrorKind::Io(IoKind::ConnectionReset) => Source::Reset,
            _ => Source::Other,
        },
    }
}

/// The five counts.
pub fn counts(found: &SummaryBulkWriteResult) -> [i64; 5] {
    [
        found.inserted_count,
        found.matched_count,
        found.modified_count,
        found.upserted_count,
        found.deleted_count,
    ]
}

/// The counts of what succeeded.
fn partial(found: &BulkWriteError) -> Option<[i64; 5]> {
    match &found.partial_result {
        Some(PartialBulkWriteResult::Summary(found)) => Some(counts(found)),
        Some(PartialBulkWriteResult::Verbose(found)) => Some(counts(&found.summary)),
        None => None,
    }
}

/// What a bulk write's error tells.
fn failure_told(error: &Error, found: &BulkWriteError) -> Failed {
    let errors = found.write_errors.entries();
    let first = match errors.first() {
        Some((index, error)) => Some((*index, error.code)),
        None => None,
    };
    Failed(
        errors.len(),
        first,
        found.write_concern_errors.len(),
        partial(found),
        source_of(error),
        error.has_own_label("RetryableWriteError"),
        error.server_response().is_some(),
    )
}

/// What is wrong with the input by the message about it.
fn argument_named(message: &str) -> Ended {
    if message == "bulk_write must be provided at least one write operation" {
        Ended::NoModels
    } else {
        Ended::Other
    }
}

/// How a bulk write ended by its error.
fn ended_with(error: &Error) -> Ended {
    match error.kind() {
        ErrorKind::BulkWrite(found) => Ended::Bulk(failure_told(error, found.get())),
        ErrorKind::InvalidResponse { message } => Ended::Invalid(rule_named(message.as_str())),
        ErrorKind::Command(found) => Ended::Command(found.code),
        ErrorKind::Io(IoKind::ConnectionReset) => Ended::Reset,
        ErrorKind::InvalidArgument { message } => argument_named(message.as_str()),
        _ => Ended::Other,
    }
}

/// What results of a kind tell: the counts, and of how many ops there is a result.
pub trait Looked: BulkWriteResult {
    fn looked_at(&self) -> Ended;
}

impl Looked for SummaryBulkWriteResult {
    fn looked_at(&self) -> Ended {
        Ended::Done(counts(self), 0)
    }
}

impl Looked for VerboseBulkWriteResult {
    fn looked_at(&self) -> Ended {
        let results = self
            .insert_results
            .len()
            .saturating_add(self.update_results.len())
            .saturating_add(self.delete_results.len());
        Ended::Done(counts(&self.summary), results)
    }
}

/// Lets an error go.
pub fn let_go(error: Error) {
    drop(error);
}

/// How a bulk write ended.
pub fn how_ended<R: Looked>(end: Result<R>) -> Ended {
    match end {
        Ok(found) => found.looked_at(),
        Err(error) => {
            let ended = ended_with(&error);
            let_go(error);
            ended
        }
    }
}
