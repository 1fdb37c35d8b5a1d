//! Parts of the bodies that rows spell, byte by byte, and whether a link was given one frame of such parts.
use bson_lite::{Bson, Bytes, Document, List, Text};
use driver_link::Frame;
use driver_options::{Acknowledgment, WriteConcern};
use memory_links::FakeLink;
use std::alloc::{AllocError, Global};

/// `lsid: {id: UUID(..01)}`
pub const SESSION: &[u8] =
    b"\x03lsid\0\x1e\0\0\0\x05id\0\x10\0\0\0\x04\0\0\0\0\0\0\0\0\0\0\0\0\0\0\0\x01\0";

/// `txnNumber: 1`, of 64 bits
pub const FIRST_NUMBER: &[u8] = b"\x12txnNumber\0\x01\0\0\0\0\0\0\0";

/// `$db: "shop"`, and the end of the body
pub const LAST: &[u8] = b"\x02$db\0\x05\0\0\0shop\0\0";

/// `comment: "note"`
pub const NOTE: &[u8] = b"\x02comment\0\x05\0\0\0note\0";

/// `writeConcern: {w: 1}`
pub const ONE_NODE: &[u8] = b"\x03writeConcern\0\x0c\0\0\0\x10w\0\x01\0\0\0\0";

/// An `insertOne` with every option, whose document goes out beside the body:
/// `{insert: "items", bypassDocumentValidation: true, ordered: false, comment: "note", lsid: {id: UUID(..01)},
/// txnNumber: 1, writeConcern: {w: 1}, $db: "shop"}`
pub const INSERTED: &[&[u8]] = &[
    b"\xad\0\0\0",
    b"\x02insert\0\x06\0\0\0items\0",
    b"\x08bypassDocumentValidation\0\x01",
    b"\x08ordered\0\0",
    NOTE,
    SESSION,
    FIRST_NUMBER,
    ONE_NODE,
    LAST,
];

/// `{w: 1}`
pub fn by_one_node() -> WriteConcern {
    WriteConcern {
        w: Some(Acknowledgment::Nodes(1)),
        w_timeout: None,
        journal: None,
    }
}

/// `"note"`
pub fn noted(alloc: Global) -> Result<Bson, AllocError> {
    Ok(Bson::String(Text::from_str(alloc, "note")?))
}

/// One document as a list.
pub fn one(alloc: Global, document: Document) -> Result<List<Document>, AllocError> {
    let mut list = List::with_capacity(alloc, 1)?;
    list.push(document)?;
    Ok(list)
}

/// The parts of a body, joined.
pub fn joined(alloc: Global, parts: &[&[u8]]) -> Result<Bytes, AllocError> {
    let mut bytes = Bytes::new(alloc);
    for part in parts {
        bytes.extend_from_slice(part)?;
    }
    Ok(bytes)
}

/// Whether a frame goes to the database of the rows, with this body and so many sequences.
fn is_spelled(frame: &Frame, body: &[u8], sequences: usize) -> bool {
    frame.database() == "shop" && frame.body() == body && frame.sequence_count() == sequences
}

/// Whether a link was given one such frame.
pub fn has_one_frame(link: &FakeLink, body: &[u8], sequences: usize) -> bool {
    match link.frames() {
        [frame] => is_spelled(frame, body, sequences),
        _ => false,
    }
}
