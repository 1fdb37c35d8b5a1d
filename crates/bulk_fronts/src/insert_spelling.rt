//! The op of an insert in bytes, from those of its document, of which no tree is made.
ghost use Rattle.std.specs.Prelude.{◌≡◌, ◌+◌, ◌≤◌, ◌++◌, [], length, IfOk, IfSome, OnOk};
ghost use Rattle.bson_lite.specs.Fields.{with_id};
ghost use Rattle.bson_lite.specs.Spelling.{Spells, four};
ghost use Rattle.bulk_fronts.specs.inside.BulkOps.{insert_op};
ghost use Rattle.bulk_fronts.specs.inside.InsertSpelling.{FramesInsert, insert_elements};

use bson_lite::{Bytes, Document, ObjectId, encode_with_id_within, encode_within};
use std::alloc::{AllocError, Global};

/// The levels that a document in an op may nest, itself counting 1: one less than a document's, since the op is one.
const LEVELS: u32 = 99;

/// The bytes of an op beside its document: its length, the element of the namespace's number, the type and the key of
/// the document, and the last byte.
const AROUND: usize = 27;

/// The greatest length of a document in bytes.
const LONGEST: usize = 2_147_483_647;

/// The op of the insert of a document in bytes, on the namespace of number 0. There are none where it has no spelling.
pub(crate) fn insert_bytes(alloc: Global, document: &Document) -> Result<Option<Bytes>, AllocError>
    ensures { IfOk result (λ found. IfSome found (Spells (insert_op document.now))) }
{
    match encode_within(alloc, document, LEVELS) {
        Ok(own) => op_around(alloc, &own),
        Err(_) => Ok(None),
    }
}

/// The same once the document has this id: put first, unless it has one of its own.
pub(crate) fn insert_bytes_with_id(
    alloc: Global,
    document: &Document,
    id: &ObjectId,
) -> Result<Option<Bytes>, AllocError>
    ensures { IfOk result (λ found. IfSome found (Spells (insert_op (with_id id.now document.now)))) }
{
    match encode_with_id_within(alloc, document, id, LEVELS) {
        Ok(own) => op_around(alloc, &own),
        Err(_) => Ok(None),
    }
}

/// The op of the insert of the document in these bytes, where it is short enough.
fn op_around(alloc: Global, own: &Bytes) -> Result<Option<Bytes>, AllocError>
    ensures { IfOk result (λ found. IfSome found (FramesInsert own.now)) }
{
    let count = own.len().saturating_add(AROUND);
    if count > LONGEST {
        return Ok(None);
    }
    let bytes = joined(alloc, own, count)?;
    Ok(Some(bytes))
}

/// The same, where so many bytes are not too many.
fn joined(alloc: Global, own: &Bytes, count: usize) -> Result<Bytes, AllocError>
    requires count { count ≡ length own.now + 27 }
    requires short { count ≤ 2147483647 }
    ensures { IfOk result (λ bytes. FramesInsert own.now bytes) }
{
    let mut out = Bytes::with_capacity(alloc, count)?;
    out.extend_from_slice(&count_bytes(count))?;
    push_head(&mut out)?;
    out.extend_from_slice(own.as_slice())?;
    out.push(0)?;
    Ok(out)
}

/// A length, of which the format keeps 32 bits.
fn count_bytes(count: usize) -> [u8; 4]
    ensures { result ≡ four count }
{
    let low = (count % 0x1_0000_0000) as u32;
    low.to_le_bytes()
}

/// Appends what stands between an op's length and its document.
fn push_head(out: &mut Bytes) -> Result<(), AllocError>
    ensures { OnOk result (out.new ≡ out.old ++ insert_elements []) }
{
    out.extend_from_slice(b"\x10insert\0\0\0\0\0\x03document\0")
}
