//! One write by a new client over a link, and what a row sees of its end. Where a row names no write, it is the
//! insert of `{_id: 1}`.
use bson_lite::{Bson, Document, EncodeFault, Namespace, Text};
use driver_actions::SingleWrites;
use driver_attempt::{Client, Outside};
use driver_error::{Error, ErrorKind, IoKind, RETRYABLE_WRITE_ERROR, Result, WriteFailure};
use driver_inputs::{InsertWrite, SingleAnswer, SingleWrite};
use driver_link::Link;
use driver_options::{ClientOptions, Description, InsertManyOptions, WriteConcern};
use driver_session::PlainStore;
use memory_links::{CountingIds, MemClock};
use rand_core::SeedableRng;
use rand_pcg::Pcg32;
use std::alloc::{AllocError, Global};

/// A connection's server that takes sessions and retryable writes.
pub const SERVER: Description = Description {
    max_wire_version: Some(25),
    max_bson_object_size: 16_777_216,
    max_message_size_bytes: 48_000_000,
    max_write_batch_size: 100_000,
    supports_sessions: true,
    supports_retryable_writes: true,
    sharded: false,
};

/// What a caller is told whose deployment takes no transaction numbers.
const NO_NUMBERS: &str =
    "This MongoDB deployment does not support retryable writes. Please add retryWrites=false to your connection string.";

/// How a write ended.
#[derive(Clone, Copy, Debug, PartialEq, Eq)]
pub enum Ended {
    Done,
    Io(IoKind),
    Command(i32),
    /// A command error in the words for a deployment that takes no transaction numbers.
    NoNumbers,
    Selection,
    /// The connection takes no sessions.
    NoSessions,
    InvalidResponse,
    /// Under its write concern no server would answer what became of it.
    Unacknowledged,
    InvalidConcern,
    /// There are no documents.
    NoneGiven,
    /// There are no models.
    NoModels,
    /// The server is too old for bulk writes.
    TooOld,
    /// The name of the database `a.b` has a dot.
    Dotted,
    /// The update begins with no operator.
    PlainUpdate,
    /// The replacement begins with an operator.
    OperatorReplacement,
    TooDeep,
    ZeroByte,
    /// The statement failed with this code.
    WriteError(i32),
    /// It ran, and its concern was not met, with this code.
    ConcernError(i32),
    Other,
}

/// A write's end: how it ended, how many labels its error has, whether that of a retryable write is among
/// them, and the wire version of its connection, where it has one.
#[derive(Clone, Copy)]
pub struct Seen {
    pub ended: Ended,
    pub labels: usize,
    pub retryable: bool,
    pub version: Option<i32>,
}

/// What the kind of an error tells.
pub fn how_ended(error: &Error) -> Ended {
    match error.kind() {
        ErrorKind::Io(found) => Ended::Io(*found),
        ErrorKind::Command(found) if found.message.as_str() == NO_NUMBERS => Ended::NoNumbers,
        ErrorKind::Command(found) => Ended::Command(found.code),
        ErrorKind::ServerSelection { message }
            if message.as_str() == "scheduled selection failure" => { Ended::Selection }
        ErrorKind::SessionsNotSupported => Ended::NoSessions,
        ErrorKind::InvalidResponse { .. } => Ended::InvalidResponse,
        ErrorKind::InvalidArgument { message } => how_refused(message.as_str()),
        ErrorKind::IncompatibleServer { .. } => Ended::TooOld,
        ErrorKind::BsonSerialization(EncodeFault::TooDeep) => Ended::TooDeep,
        ErrorKind::BsonSerialization(EncodeFault::ZeroByte) => Ended::ZeroByte,
        ErrorKind::Write(WriteFailure::WriteError(found)) => Ended::WriteError(found.code),
        ErrorKind::Write(WriteFailure::WriteConcernError(found)) => Ended::ConcernError(found.code),
        _ => Ended::Other,
    }
}

/// What the message about a refused argument tells.
fn how_refused(message: &str) -> Ended {
    if message == "Unacknowledged write concerns are not supported" {
        return Ended::Unacknowledged;
    }
    if message == "invalid write concern" {
        return Ended::InvalidConcern;
    }
    if message == "No documents provided to insert_many" {
        return Ended::NoneGiven;
    }
    if message == "bulk_write must be provided at least one write operation" {
        return Ended::NoModels;
    }
    if message == "invalid database name a.b: name cannot contain period" {
        return Ended::Dotted;
    }
    if message == "update document must begin with an update operator" {
        return Ended::PlainUpdate;
    }
    if message == "replacement document must not begin with an update operator" {
        return Ended::OperatorReplacement;
    }
    Ended::Other
}

/// How many labels an error has, or none where there is no memory.
pub fn label_count(alloc: Global, error: &Error) -> Option<usize> {
    match error.labels().sorted(alloc) {
        Ok(labels) => Some(labels.len()),
        Err(_refused) => None,
    }
}

/// An error as a row sees it, or none where there is no memory.
fn seen_error(alloc: Global, error: Error) -> Option<Seen> {
    let ended = how_ended(&error);
    let retryable = error.has_own_label(RETRYABLE_WRITE_ERROR);
    let version = error.wire_version();
    let labels = label_count(alloc, &error);
    drop(error);
    Some(Seen {
        ended,
        labels: labels?,
        retryable,
        version,
    })
}

/// A write's end as a row sees it, or none where there is no memory.
pub fn seen_end(alloc: Global, end: Result<SingleAnswer>) -> Option<Seen> {
    match end {
        Ok(answer) => {
            drop(answer);
            Some(Seen {
                ended: Ended::Done,
                labels: 0,
                retryable: false,
                version: None,
            })
        }
        Err(error) => seen_error(alloc, error),
    }
}

/// The insert of the document.
fn write(alloc: Global) -> std::result::Result<SingleWrite, AllocError> {
    let mut document = Document::new(alloc);
    document.push("_id", Bson::Int32(1))?;
    let namespace = Namespace {
        db: Text::from_str(alloc, "shop")?,
        coll: Text::from_str(alloc, "items")?,
    };
    Ok(SingleWrite::InsertOne(InsertWrite {
        namespace,
        document,
        options: InsertManyOptions::default(),
    }))
}

/// The insert's end and the link afterwards, or none where there is no memory.
pub fn insert<L: Link + Drop>(alloc: Global, link: L) -> Option<(Seen, L)> {
    insert_under(alloc, link, None)
}

/// The same by a client with this write concern.
pub fn insert_under<L: Link + Drop>(
    alloc: Global,
    link: L,
    concern: Option<WriteConcern>,
) -> Option<(Seen, L)> {
    let Ok(write) = write(alloc) else {
        return None;
    };
    let (result, link) = answered_under(alloc, link, &write, concern);
    drop(write);
    let seen = seen_end(alloc, result)?;
    Some((seen, link))
}

/// What a write by a new client with this concern answers, and the link afterwards.
pub fn answered_under<L: Link + Drop>(
    alloc: Global,
    link: L,
    write: &SingleWrite,
    concern: Option<WriteConcern>,
) -> (Result<SingleAnswer>, L) {
    let options = ClientOptions {
        client_number: 1,
        retry_writes: None,
        read_concern: None,
        write_concern: concern,
    };
    let mut client = Client::new(options, PlainStore::new(alloc, CountingIds::new()));
    let mut outside = Outside {
        link,
        clock: MemClock::new(0, 0),
        words: Pcg32::seed_from_u64(1),
        call: 0,
    };
    let result = client.single(alloc, write, &mut outside);
    let Outside {
        link,
        clock: _,
        words: _,
        call: _,
    } = outside;
    (result, link)
}
