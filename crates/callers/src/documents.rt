//! A caller of `bson_lite`: the bytes of a document that is about to be stored.
ghost use Rattle.bson_lite.specs.Fields.{with_id};
ghost use Rattle.bson_lite.specs.Spelling.{Encodes};

use bson_lite::{Bytes, Document, EncodeFault, ObjectId, encode, get_or_prepend_id_field};
use std::alloc::Global;

/// The bytes of a document, with this id put first where it has none, or why it has no spelling.
pub fn stored_bytes(
    alloc: Global,
    mut document: Document,
    id: ObjectId,
) -> Result<Bytes, EncodeFault>
    ensures { Encodes (with_id id document) result }
{
    drop(get_or_prepend_id_field(alloc, &mut document, id)?);
    let bytes = encode(alloc, &document)?;
    Ok(bytes)
}
