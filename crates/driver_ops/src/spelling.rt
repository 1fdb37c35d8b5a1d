//! Documents in bytes, with the driver's error where they have no spelling.
ghost use Rattle.bson_lite.specs.Fields.{with_id};
ghost use Rattle.driver_ops.specs.Encoding.{Encoded};

use bson_lite::{Bytes, Document, EncodeFault, ObjectId, encode, encode_with_id};
use driver_error::{Error, ErrorKind, Result};
use std::alloc::Global;

/// The spelling of a document that is to be sent.
pub fn encode_document(alloc: Global, document: &Document) -> Result<Bytes>
    ensures { Encoded document.now result }
{
    match encode(alloc, document) {
        Ok(bytes) => Ok(bytes),
        Err(EncodeFault::Memory) => Err(Error::from_kind(ErrorKind::Memory)),
        Err(fault) => Err(Error::from_kind(ErrorKind::BsonSerialization(fault))),
    }
}

/// The spelling of a document that is to be sent once it has this id: put first, unless it has one of its own.
pub fn encode_document_with_id(alloc: Global, document: &Document, id: &ObjectId) -> Result<Bytes>
    ensures { Encoded (with_id id.now document.now) result }
{
    match encode_with_id(alloc, document, id) {
        Ok(bytes) => Ok(bytes),
        Err(EncodeFault::Memory) => Err(Error::from_kind(ErrorKind::Memory)),
        Err(why) => Err(Error::from_kind(ErrorKind::BsonSerialization(why))),
    }
}
