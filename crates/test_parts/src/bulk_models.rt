//! Models of bulk writes and their ops, for the rows, and the bytes of the ops of six, by hand.
use crate::bulk_ends::let_go;
use bson_lite::{Bson, Document, List, Namespace, Text};
use bulk_fronts::{OwnOp, model_op};
use driver_options::{
    DeleteManyModel, DeleteOneModel, InsertOneModel, ReplaceOneModel, UpdateManyModel,
    UpdateModifications, UpdateOneModel, WriteModel,
};
use std::alloc::{AllocError, Global};

/// `{ns: "a.x"}`, `{ns: "b.y"}` and `{ns: "a.z"}`
pub const A_X: &[u8] = b"\x11\0\0\0\x02ns\0\x04\0\0\0a.x\0\0";

pub const B_Y: &[u8] = b"\x11\0\0\0\x02ns\0\x04\0\0\0b.y\0\0";

pub const A_Z: &[u8] = b"\x11\0\0\0\x02ns\0\x04\0\0\0a.z\0\0";

/// The ops of the six models, each on the number of its namespace among `a.x`, `b.y` and `a.z`.
pub const OPS: &[&[u8]] = &[
    // `{insert: 0, document: {_id: 1}}`
    b")\0\0\0\x10insert\0\0\0\0\0\x03document\0\x0e\0\0\0\x10_id\0\x01\0\0\0\0\0",
    // `{update: 1, multi: false, filter: {n: 1}, updateMods: {$inc: {n: 1}}, arrayFilters: [7], collation: {}, hint: "h", ..}`
    b"\xa1\0\0\0\x10update\0\x01\0\0\0\x08multi\0\0\x03filter\0\x0c\0\0\0\x10n\0\x01\0\0\0\0\x03updateMods\0\x17\0\0\0\x03$inc\0\x0c\0\0\0\x10n\0\x01\0\0\0\0\0\x04arrayFilters\0\x0c\0\0\0\x100\0\x07\0\0\0\0\x03collation\0\x05\0\0\0\0\x02hint\0\x02\0\0\0h\0\x08upsert\0\x01\x03sort\0\x0c\0\0\0\x10n\0\xff\xff\xff\xff\0\0",
    // `{update: 0, multi: true, filter: {}, updateMods: [{n: 1}], upsert: false}`
    b"O\0\0\0\x10update\0\0\0\0\0\x08multi\0\x01\x03filter\0\x05\0\0\0\0\x04updateMods\0\x14\0\0\0\x030\0\x0c\0\0\0\x10n\0\x01\0\0\0\0\0\x08upsert\0\0\0",
    // `{update: 2, multi: false, filter: {}, updateMods: {n: 2}, hint: {n: 1}, sort: {}}`
    b"[\0\0\0\x10update\0\x02\0\0\0\x08multi\0\0\x03filter\0\x05\0\0\0\0\x03updateMods\0\x0c\0\0\0\x10n\0\x02\0\0\0\0\x03hint\0\x0c\0\0\0\x10n\0\x01\0\0\0\0\x03sort\0\x05\0\0\0\0\0",
    // `{delete: 1, multi: false, filter: {n: 3}}`
    b"-\0\0\0\x10delete\0\x01\0\0\0\x08multi\0\0\x03filter\0\x0c\0\0\0\x10n\0\x03\0\0\0\0\0",
    // `{delete: 2, multi: true, filter: {}, collation: {}, hint: "h"}`
    b"B\0\0\0\x10delete\0\x02\0\0\0\x08multi\0\x01\x03filter\0\x05\0\0\0\0\x03collation\0\x05\0\0\0\0\x02hint\0\x02\0\0\0h\0\0",
];

/// The byte of an op that has the number of its namespace, where that is below 256: behind the length, a type, and a
/// key of six letters with its end.
const NUMBER: usize = 12;

/// `{key: number}`
pub fn number(alloc: Global, key: &str, number: i32) -> Result<Document, AllocError> {
    let mut document = Document::new(alloc);
    document.push(key, Bson::Int32(number))?;
    Ok(document)
}

/// `{key: inner}`
pub fn around(alloc: Global, key: &str, inner: Document) -> Result<Document, AllocError> {
    let mut document = Document::new(alloc);
    document.push(key, Bson::Document(inner))?;
    Ok(document)
}

/// A namespace by its two names.
pub fn named(alloc: Global, db: &str, coll: &str) -> Result<Namespace, AllocError> {
    Ok(Namespace {
        db: Text::from_str(alloc, db)?,
        coll: Text::from_str(alloc, coll)?,
    })
}

/// A text as a value.
fn text(alloc: Global, text: &str) -> Result<Bson, AllocError> {
    Ok(Bson::String(Text::from_str(alloc, text)?))
}

/// The insert of a document.
pub fn insert(alloc: Global, to: Namespace, document: Document) -> WriteModel {
    WriteModel::from(InsertOneModel::new(to, document))
}

/// The insert of `{_id: 1}` into `a.x`.
fn first(alloc: Global) -> Result<WriteModel, AllocError> {
    let to = named(alloc, "a", "x")?;
    Ok(insert(alloc, to, number(alloc, "_id", 1)?))
}

/// An update of one document in `b.y` with each option set.
fn second(alloc: Global) -> Result<WriteModel, AllocError> {
    let to = named(alloc, "b", "y")?;
    let filter = number(alloc, "n", 1)?;
    let change = around(alloc, "$inc", number(alloc, "n", 1)?)?;
    let mut array_filters = List::new(alloc);
    array_filters.push(Bson::Int32(7))?;
    let sort = number(alloc, "n", -1)?;
    let hint = text(alloc, "h")?;
    let model = UpdateOneModel::new(to, filter, UpdateModifications::from(change))
        .array_filters(array_filters)
        .collation(Document::new(alloc))
        .hint(hint)
        .upsert(true)
        .sort(sort);
    Ok(WriteModel::from(model))
}

/// An update of all documents in `a.x` by a pipeline, which puts none in.
fn third(alloc: Global) -> Result<WriteModel, AllocError> {
    let to = named(alloc, "a", "x")?;
    let mut stages = List::new(alloc);
    stages.push(number(alloc, "n", 1)?)?;
    let model = UpdateManyModel::new(
        to,
        Document::new(alloc),
        UpdateModifications::from(stages),
    ).upsert(false);
    Ok(WriteModel::from(model))
}

/// A replacement in `a.z` with a hint and an empty sort.
fn fourth(alloc: Global) -> Result<WriteModel, AllocError> {
    let to = named(alloc, "a", "z")?;
    let replacement = number(alloc, "n", 2)?;
    let hint = Bson::Document(number(alloc, "n", 1)?);
    let model = ReplaceOneModel::new(to, Document::new(alloc), replacement)
        .hint(hint)
        .sort(Document::new(alloc));
    Ok(WriteModel::from(model))
}

/// A delete of one document in `b.y`.
fn fifth(alloc: Global) -> Result<WriteModel, AllocError> {
    let to = named(alloc, "b", "y")?;
    let model = DeleteOneModel::new(to, number(alloc, "n", 3)?);
    Ok(WriteModel::from(model))
}

/// A delete of all documents in `a.z` with each option set.
fn sixth(alloc: Global) -> Result<WriteModel, AllocError> {
    let to = named(alloc, "a", "z")?;
    let hint = text(alloc, "h")?;
    let model = DeleteManyModel::new(to, Document::new(alloc))
        .collation(Document::new(alloc))
        .hint(hint);
    Ok(WriteModel::from(model))
}

/// All six models over `a.x`, `b.y` and `a.z`.
pub fn six(alloc: Global) -> Result<List<WriteModel>, AllocError> {
    let mut models = List::with_capacity(alloc, 6)?;
    models.push(first(alloc)?)?;
    models.push(second(alloc)?)?;
    models.push(third(alloc)?)?;
    models.push(fourth(alloc)?)?;
    models.push(fifth(alloc)?)?;
    models.push(sixth(alloc)?)?;
    Ok(models)
}

/// Whether an op has these bytes, but for the number of its namespace, which is this one.
pub fn is_op(op: &[u8], spelled: &[u8], number: u8) -> bool {
    if op.len() != spelled.len() {
        return false;
    }
    for (at, byte) in spelled.iter().enumerate() {
        let wanted = if at == NUMBER { number } else { *byte };
        if op.get(at).copied() != Some(wanted) {
            return false;
        }
    }
    true
}

/// The ops of models whose inserts have their ids, or none where there is no memory.
pub fn ops_of(alloc: Global, models: &List<WriteModel>) -> Option<List<OwnOp>> {
    let mut ops = List::new(alloc);
    for model in models.as_slice() {
        ops.push(op_of(alloc, model)?).ok()?;
    }
    Some(ops)
}

/// The op of one.
fn op_of(alloc: Global, model: &WriteModel) -> Option<OwnOp> {
    match model_op(alloc, model) {
        Ok(op) => Some(op),
        Err(error) => {
            let_go(error);
            None
        }
    }
}
