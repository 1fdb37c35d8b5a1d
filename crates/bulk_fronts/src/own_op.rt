//! The ops of a bulk write: each model's op, field by field, and in bytes as it is sent.
ghost use Rattle.std.specs.Prelude.{◌≡◌, ◌++◌, IfOk, OnOk};
ghost use Rattle.bson_lite.specs.Fields.{with_id};
ghost use Rattle.bson_lite.specs.Namespace.{dotted};
ghost use Rattle.bson_lite.specs.Spelling.{Spells};
ghost use Rattle.driver_options.specs.declared.models.WriteModel.TheVariants.{InsertOne as Inserts, ReplaceOne as Replaces, UpdateMany as UpdatesAll, UpdateOne as Updates};
ghost use Rattle.driver_options.specs.Models.{is_multi};
ghost use Rattle.driver_ops.specs.OptionFields.{option_field};
ghost use Rattle.bulk_fronts.specs.BulkOps.{SpellsOp, id_told, modifications_value, op_document, values_of, work_of};
ghost use Rattle.bulk_fronts.specs.inside.BulkOps.{SpellsParts, delete_op, finding_fields, insert_op};

use crate::insert_spelling::{insert_bytes, insert_bytes_with_id};
use bson_lite::{
    Bson, Bytes, Document, ID_KEY, List, Namespace, ObjectId, Text, TryClone,
    get_or_prepend_id_field,
};
use driver_error::Result;
use driver_ops::encode_document;
use driver_ops::keys::{
    ARRAY_FILTERS, COLLATION, FILTER, HINT, MULTI, SORT, UPDATE_MODIFICATIONS, UPSERT,
};
use driver_ops::option_fields::{documents_value, push_document, push_flag, push_value};
use driver_options::{
    ReplaceOneModel, UpdateManyModel, UpdateModifications, UpdateOneModel, WriteModel,
};
use std::alloc::{AllocError, Global};
use wire_keys::keys;

/// What an op does.
#[derive(Drop)]
pub enum OpWork {
    /// It inserts a document with this id.
    Insert { id: Bson },
    /// It updates documents, or replaces one.
    Update,
    Delete,
}

/// An op as it is sent, at resends too: the text of its namespace, its spelling on the namespace of number 0, into
/// which a build writes the number, whether it is of all documents found, and what it does.
#[derive(Drop)]
pub struct OwnOp {
    pub namespace: Text,
    pub bytes: Bytes,
    pub multi: bool,
    pub work: OpWork,
}

/// An op by the text of its namespace and its size in bytes, for laws on batches.
#[derive(Drop)]
pub struct SizedOp {
    pub namespace: Text,
    pub size: u64,
}

/// The op of a model as it is sent. The document of an insert has its id already.
pub fn model_op(alloc: Global, model: &WriteModel) -> Result<OwnOp>
    ensures { SpellsOp model.now result }
{
    match model {
        WriteModel::InsertOne(insert) => insert_op(alloc, &insert.namespace, &insert.document),
        _ => copied_op(alloc, model),
    }
}

/// The op of a model, made as a tree.
#[tactic(auto, using(crate::proofs::OpsMade::spells_model))]
fn copied_op(alloc: Global, model: &WriteModel) -> Result<OwnOp>
    ensures { SpellsOp model.now result }
{
    let work = work_of(alloc, model)?;
    let op = op_document(alloc, model)?;
    let namespace = dotted_text(alloc, model.namespace())?;
    spelled_op(alloc, &op, namespace, is_multi(model), work)
}

/// The op of the insert of a document, which has its id already, as it is sent.
pub fn insert_op(alloc: Global, namespace: &Namespace, document: &Document) -> Result<OwnOp>
    ensures { SpellsOp (Inserts (record { namespace = namespace.now; document = document.now })) result }
{
    match insert_bytes(alloc, document)? {
        Some(bytes) => made_insert(alloc, namespace, document, bytes),
        None => copied_insert(alloc, namespace, document),
    }
}

/// The same once the document has this id: put first, unless it has one of its own.
pub fn insert_op_with_id(
    alloc: Global,
    namespace: &Namespace,
    document: &Document,
    id: ObjectId,
) -> Result<OwnOp>
    ensures { SpellsOp (Inserts (record { namespace = namespace.now; document = with_id id document.now }))
        result }
{
    match insert_bytes_with_id(alloc, document, &id)? {
        Some(bytes) => made_insert_with_id(alloc, namespace, document, id, bytes),
        None => copied_insert_with_id(alloc, namespace, document, id),
    }
}

/// The op of the insert of a document, in these bytes.
fn made_insert(
    alloc: Global,
    namespace: &Namespace,
    document: &Document,
    bytes: Bytes,
) -> Result<OwnOp>
    requires { Spells (insert_op document.now) bytes }
    ensures { SpellsOp (Inserts (record { namespace = namespace.now; document = document.now })) result }
{
    let id = id_told(alloc, document)?;
    let namespace = dotted_text(alloc, namespace)?;
    Ok(OwnOp {
        namespace,
        bytes,
        multi: false,
        work: OpWork::Insert { id },
    })
}

/// The same once the document has this id.
fn made_insert_with_id(
    alloc: Global,
    namespace: &Namespace,
    document: &Document,
    id: ObjectId,
    bytes: Bytes,
) -> Result<OwnOp>
    requires { Spells (insert_op (with_id id document.now)) bytes }
    ensures { SpellsOp (Inserts (record { namespace = namespace.now; document = with_id id document.now }))
        result }
{
    let id = id_told_with(alloc, document, id)?;
    let namespace = dotted_text(alloc, namespace)?;
    Ok(OwnOp {
        namespace,
        bytes,
        multi: false,
        work: OpWork::Insert { id },
    })
}

/// The op of the insert of a document, made as a tree: where it has no spelling, the error tells why.
#[tactic(auto, using(crate::proofs::OpsMade::spells_insert))]
fn copied_insert(alloc: Global, namespace: &Namespace, document: &Document) -> Result<OwnOp>
    ensures { SpellsOp (Inserts (record { namespace = namespace.now; document = document.now })) result }
{
    let document = document.try_clone(alloc)?;
    spelled_insert(alloc, namespace, document)
}

/// The same once the document has this id.
#[tactic(auto, using(crate::proofs::OpsMade::spells_insert))]
fn copied_insert_with_id(
    alloc: Global,
    namespace: &Namespace,
    document: &Document,
    id: ObjectId,
) -> Result<OwnOp>
    ensures { SpellsOp (Inserts (record { namespace = namespace.now; document = with_id id document.now }))
        result }
{
    let mut document = document.try_clone(alloc)?;
    let put = get_or_prepend_id_field(alloc, &mut document, id)?;
    drop(put);
    spelled_insert(alloc, namespace, document)
}

/// The op of the insert of a document.
#[tactic(auto, using(crate::proofs::OpsMade::spells_model))]
fn spelled_insert(alloc: Global, namespace: &Namespace, document: Document) -> Result<OwnOp>
    ensures { SpellsOp (Inserts (record { namespace = namespace.now; document = document })) result }
{
    let id = id_told(alloc, &document)?;
    let text = dotted_text(alloc, namespace)?;
    let mut op = Document::with_capacity(alloc, 2)?;
    op.push(keys::INSERT, Bson::Int32(0))?;
    op.push(keys::DOCUMENT, Bson::Document(document))?;
    spelled_op(alloc, &op, text, false, OpWork::Insert { id })
}

/// An op in bytes.
fn spelled_op(
    alloc: Global,
    op: &Document,
    namespace: Text,
    multi: bool,
    work: OpWork,
) -> Result<OwnOp>
    ensures { SpellsParts op.now namespace multi work result }
{
    let bytes = encode_document(alloc, op)?;
    Ok(OwnOp {
        namespace,
        bytes,
        multi,
        work,
    })
}

/// A copy of the id of a document that is inserted. Each that is sent has one.
fn id_told(alloc: Global, document: &Document) -> std::result::Result<Bson, AllocError>
    ensures { IfOk result (λ id. id ≡ id_told document.now) }
{
    match document.get(ID_KEY) {
        Some(id) => Ok(id.try_clone(alloc)?),
        None => Ok(Bson::Null),
    }
}

/// The same of a document once it has this id.
fn id_told_with(
    alloc: Global,
    document: &Document,
    id: ObjectId,
) -> std::result::Result<Bson, AllocError>
    ensures { IfOk result (λ told. told ≡ id_told (with_id id document.now)) }
{
    match document.get(ID_KEY) {
        Some(own) => Ok(own.try_clone(alloc)?),
        None => Ok(Bson::ObjectId(id)),
    }
}

/// What the op of a model does.
fn work_of(alloc: Global, model: &WriteModel) -> std::result::Result<OpWork, AllocError>
    ensures { IfOk result (λ work. work ≡ work_of model.now) }
{
    match model {
        WriteModel::InsertOne(model) => {
            let id = id_told(alloc, &model.document)?;
            Ok(OpWork::Insert { id })
        }
        WriteModel::UpdateOne(_) | WriteModel::UpdateMany(_) | WriteModel::ReplaceOne(_) => {
            Ok(OpWork::Update)
        }
        WriteModel::DeleteOne(_) | WriteModel::DeleteMany(_) => Ok(OpWork::Delete),
    }
}

/// Whether a model is of all documents found.
fn is_multi(model: &WriteModel) -> bool
    ensures { result ≡ is_multi model.now }
{
    model.multi().unwrap_or(false)
}

/// A namespace in one text.
fn dotted_text(alloc: Global, namespace: &Namespace) -> std::result::Result<Text, AllocError>
    ensures { IfOk result (λ text. text ≡ dotted namespace.now) }
{
    let room = namespace
        .db
        .len()
        .saturating_add(namespace.coll.len())
        .saturating_add(1);
    let mut text = String::with_capacity(alloc, room)?;
    text.push_str(namespace.db.as_str())?;
    text.push_str(".")?;
    text.push_str(namespace.coll.as_str())?;
    Ok(Text::from_string(text))
}

/// A model's op on the namespace of number 0, field by field.
pub fn op_document(alloc: Global, model: &WriteModel) -> std::result::Result<Document, AllocError>
    ensures { IfOk result (λ op. op ≡ op_document 0 model.now) }
{
    match model {
        WriteModel::InsertOne(model) => insert_document(alloc, &model.document),
        WriteModel::UpdateOne(model) => update_one_document(alloc, model),
        WriteModel::UpdateMany(model) => update_many_document(alloc, model),
        WriteModel::ReplaceOne(model) => replace_one_document(alloc, model),
        WriteModel::DeleteOne(model) => {
            delete_document(alloc, false, &model.filter, &model.collation, &model.hint)
        }
        WriteModel::DeleteMany(model) => {
            delete_document(alloc, true, &model.filter, &model.collation, &model.hint)
        }
    }
}

/// The op of the insert of a copy of a document.
fn insert_document(alloc: Global, document: &Document) -> std::result::Result<Document, AllocError>
    ensures { IfOk result (λ op. op ≡ insert_op document.now) }
{
    let mut op = Document::new(alloc);
    op.push(keys::INSERT, Bson::Int32(0))?;
    op.push(keys::DOCUMENT, Bson::Document(document.try_clone(alloc)?))?;
    Ok(op)
}

/// The fields of an op that finds documents before its options: the number of its namespace, whether it is of all of
/// them, and the filter.
fn finding_document(
    alloc: Global,
    key: &str,
    multi: bool,
    filter: &Document,
) -> std::result::Result<Document, AllocError>
    ensures { IfOk result (λ op. op ≡ finding_fields key.now multi filter.now) }
{
    let mut op = Document::new(alloc);
    op.push(key, Bson::Int32(0))?;
    op.push(MULTI, Bson::Boolean(multi))?;
    op.push(FILTER, Bson::Document(filter.try_clone(alloc)?))?;
    Ok(op)
}

/// The op of an update of one document.
#[tactic(auto, unfolding(crate::specs::BulkOps::update_one_fields))]
fn update_one_document(
    alloc: Global,
    model: &UpdateOneModel,
) -> std::result::Result<Document, AllocError>
    ensures { IfOk result (λ op. op ≡ op_document 0 (Updates model.now)) }
{
    let mut op = finding_document(alloc, keys::UPDATE, false, &model.filter)?;
    op.push(
        UPDATE_MODIFICATIONS,
        modifications_value(alloc, &model.update)?,
    )?;
    push_values(alloc, &mut op, ARRAY_FILTERS, &model.array_filters)?;
    push_document(alloc, &mut op, COLLATION, &model.collation)?;
    push_value(alloc, &mut op, HINT, &model.hint)?;
    push_flag(&mut op, UPSERT, model.upsert)?;
    push_document(alloc, &mut op, SORT, &model.sort)?;
    Ok(op)
}

/// The op of an update of all documents found.
#[tactic(auto, unfolding(crate::specs::BulkOps::update_many_fields))]
fn update_many_document(
    alloc: Global,
    model: &UpdateManyModel,
) -> std::result::Result<Document, AllocError>
    ensures { IfOk result (λ op. op ≡ op_document 0 (UpdatesAll model.now)) }
{
    let mut op = finding_document(alloc, keys::UPDATE, true, &model.filter)?;
    op.push(
        UPDATE_MODIFICATIONS,
        modifications_value(alloc, &model.update)?,
    )?;
    push_values(alloc, &mut op, ARRAY_FILTERS, &model.array_filters)?;
    push_document(alloc, &mut op, COLLATION, &model.collation)?;
    push_value(alloc, &mut op, HINT, &model.hint)?;
    push_flag(&mut op, UPSERT, model.upsert)?;
    Ok(op)
}

/// The op of a replacement.
#[tactic(auto, unfolding(crate::specs::BulkOps::replace_one_fields))]
fn replace_one_document(
    alloc: Global,
    model: &ReplaceOneModel,
) -> std::result::Result<Document, AllocError>
    ensures { IfOk result (λ op. op ≡ op_document 0 (Replaces model.now)) }
{
    let mut op = finding_document(alloc, keys::UPDATE, false, &model.filter)?;
    let replacement = model.replacement.try_clone(alloc)?;
    op.push(UPDATE_MODIFICATIONS, Bson::Document(replacement))?;
    push_document(alloc, &mut op, COLLATION, &model.collation)?;
    push_value(alloc, &mut op, HINT, &model.hint)?;
    push_flag(&mut op, UPSERT, model.upsert)?;
    push_document(alloc, &mut op, SORT, &model.sort)?;
    Ok(op)
}

/// The op of a delete.
#[tactic(auto, unfolding(crate::specs::BulkOps::delete_fields))]
fn delete_document(
    alloc: Global,
    multi: bool,
    filter: &Document,
    collation: &Option<Document>,
    hint: &Option<Bson>,
) -> std::result::Result<Document, AllocError>
    ensures { IfOk result (λ op. op ≡ delete_op multi filter.now collation.now hint.now) }
{
    let mut op = finding_document(alloc, keys::DELETE, multi, filter)?;
    push_document(alloc, &mut op, COLLATION, collation)?;
    push_value(alloc, &mut op, HINT, hint)?;
    Ok(op)
}

/// What an update does, as a value.
fn modifications_value(
    alloc: Global,
    update: &UpdateModifications,
) -> std::result::Result<Bson, AllocError>
    ensures { IfOk result (λ value. value ≡ modifications_value update.now) }
{
    match update {
        UpdateModifications::Document(document) => Ok(Bson::Document(document.try_clone(alloc)?)),
        UpdateModifications::Pipeline(stages) => documents_value(alloc, stages.as_slice()),
    }
}

/// Appends copies of values as an array, where they are set.
fn push_values(
    alloc: Global,
    document: &mut Document,
    key: &str,
    values: &Option<List<Bson>>,
) -> std::result::Result<(), AllocError>
    ensures { OnOk result (document.new ≡ document.old ++ option_field key.now (values_of values.now)) }
{
    match values {
        None => Ok(()),
        Some(values) => document.push(key, Bson::Array(values.try_clone(alloc)?)),
    }
}
