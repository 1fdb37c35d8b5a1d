//! The first document of the cursor in a reply.
ghost use Rattle.wire_keys.specs.declared.keys.TheConstants.{FIRST_BATCH};
ghost use Rattle.driver_link.specs.Commands.{needed};
ghost use Rattle.driver_ops.specs.SingleCursor.{ReadsSingleCursor, batch_of_one, first_document, single_cursor};
ghost use Rattle.driver_ops.specs.Readings.{Gives};

use crate::reply_fields::Unread;
use crate::response::odd_reply;
use bson_lite::{Bson, Document, TryClone};
use driver_error::{Error, ErrorKind, Result};
use std::alloc::Global;
use wire_keys::keys;

/// The cursor of a reply does not begin with a document.
const NO_CURSOR: &str = "the reply has no cursor that begins with a document";

/// The first document of a cursor, where there is one.
#[derive(Debug, Drop)]
pub struct SingleCursorResult {
    pub first: Option<Document>,
}

impl SingleCursorResult {
    /// The first document of `cursor.firstBatch`. It is refused exactly where `cursor` is no document with an array
    /// `firstBatch` that is empty or begins with a document.
    #[tactic(auto, unfolding(crate::specs::SingleCursor::no_cursor_text))]
    pub fn from_reply(alloc: Global, reply: &Document) -> Result<SingleCursorResult>
        ensures { ReadsSingleCursor reply.now result }
    {
        match single_cursor(alloc, reply) {
            Ok(first) => Ok(SingleCursorResult { first }),
            Err(Unread::Wrong) => Err(odd_reply(alloc, NO_CURSOR)),
            Err(Unread::Memory) => Err(Error::from_kind(ErrorKind::Memory)),
        }
    }
}

/// A copy of the first document of a reply's cursor.
#[tactic(auto, unfolding(crate::specs::SingleCursor::single_cursor, crate::specs::SingleCursor::cursor_of_one, driver_link::specs::Commands::needed))]
fn single_cursor(alloc: Global, reply: &Document) -> std::result::Result<Option<Document>, Unread>
    ensures { Gives result (single_cursor reply.now) }
{
    match reply.get(keys::CURSOR) {
        Some(Bson::Document(cursor)) => first_of_batch(alloc, cursor),
        _ => Err(Unread::Wrong),
    }
}

/// A copy of the first document of a cursor's first page.
#[tactic(auto, unfolding(crate::specs::SingleCursor::batch_of_one, driver_link::specs::Commands::needed))]
fn first_of_batch(alloc: Global, cursor: &Document) -> std::result::Result<Option<Document>, Unread>
    ensures { Gives result (needed batch_of_one FIRST_BATCH.now cursor.now) }
{
    match cursor.get(keys::FIRST_BATCH) {
        Some(Bson::Array(values)) => first_document(alloc, values.as_slice()),
        _ => Err(Unread::Wrong),
    }
}

/// A copy of the first of these values, which is a document where there is one.
fn first_document(alloc: Global, values: &[Bson]) -> std::result::Result<Option<Document>, Unread>
    ensures { Gives result (first_document values.now) }
{
    match values.first() {
        None => Ok(None),
        Some(Bson::Document(document)) => Ok(Some(document.try_clone(alloc)?)),
        Some(_) => Err(Unread::Wrong),
    }
}
