//! Why the values of a model are refused, or its op for its length.
ghost use Rattle.std.specs.Prelude.{◌≡◌, IfOk};
ghost use Rattle.bson_lite.specs.Namespace.{dotted};
ghost use Rattle.driver_options.specs.declared.models.WriteModel.TheVariants.{ReplaceOne as Replaces, UpdateMany as UpdatesAll, UpdateOne as Updates};
ghost use Rattle.driver_options.specs.declared.updates.UpdateOrReplace.TheVariants.{UpdateModifications as Modifies};
ghost use Rattle.bulk_fronts.specs.BulkOps.{op_document};
ghost use Rattle.driver_inputs.specs.BulkInputs.{model_values, set_values};
ghost use Rattle.driver_inputs.specs.Inputs.{change_values, value_list};
ghost use Rattle.driver_inputs.specs.Faults.{first_of, length_fault, values_fault};
ghost use Rattle.driver_inputs.specs.ManyFaults.{own_fault};
ghost use Rattle.driver_inputs.specs.inside.ModelFaults.{delete_values, insert_length_fault, longest_inserted, model_fault, text_fault};

use crate::faults::{
    LONGEST, document_fault, documents_fault, first_of, length_fault, option_document_fault,
    value_fault,
};
use crate::many_refusal::own_fault;
use crate::refusal::ID_LENGTH;
use bson_lite::{Bson, Document, EncodeFault, ID_KEY, List, Namespace, encoded_len};
use bulk_fronts::op_document;
use driver_options::{
    ReplaceOneModel, UpdateManyModel, UpdateModifications, UpdateOneModel, WriteModel,
};
use std::alloc::{AllocError, Global};

/// How many bytes more than its document the op of an insert has.
const AROUND_DOCUMENT: u64 = 27;

/// How many bytes more than the names of database and collection the document has that describes a namespace.
const AROUND_NAMES: u128 = 15;

/// The fault of a model's values and of its op, once its document has an id where it inserts one.
pub(crate) fn model_fault(
    alloc: Global,
    model: &WriteModel,
) -> Result<Option<EncodeFault>, AllocError>
    ensures { IfOk result (λ fault. fault ≡ model_fault model.now) }
{
    match model {
        WriteModel::InsertOne(insert) => Ok(insert_fault(&insert.document)),
        WriteModel::UpdateOne(_) => found_fault(alloc, model),
        WriteModel::UpdateMany(_) => found_fault(alloc, model),
        WriteModel::ReplaceOne(_) => found_fault(alloc, model),
        WriteModel::DeleteOne(_) => found_fault(alloc, model),
        WriteModel::DeleteMany(_) => found_fault(alloc, model),
    }
}

/// The fault of a document and of the op that inserts it. It takes no memory.
fn insert_fault(document: &Document) -> Option<EncodeFault>
    ensures { result ≡ first_of (own_fault document.now) (insert_length_fault document.now) }
{
    let fault = own_fault(document);
    first_of(fault, insert_length_fault(document))
}

/// The fault of the op of an insert for its length, once the document has an id.
#[tactic(auto, using(crate::proofs::ModelSizes::insert_long, crate::proofs::ModelSizes::insert_short))]
fn insert_length_fault(document: &Document) -> Option<EncodeFault>
    ensures { result ≡ insert_length_fault document.now }
{
    if encoded_len(document) > longest_inserted(document) {
        Some(EncodeFault::TooLong)
    } else {
        None
    }
}

/// How long an inserted document may be, which has an id of its own or gets one.
fn longest_inserted(document: &Document) -> u64
    ensures { result ≡ longest_inserted document.now }
{
    if document.get(ID_KEY).is_some() {
        LONGEST - AROUND_DOCUMENT
    } else {
        LONGEST - AROUND_DOCUMENT - ID_LENGTH
    }
}

/// The fault of the values of a model that finds documents, and of its op.
fn found_fault(alloc: Global, model: &WriteModel) -> Result<Option<EncodeFault>, AllocError>
    ensures { IfOk result (λ fault. fault ≡
        first_of (values_fault (model_values model.now)) (length_fault (op_document 0 model.now))) }
{
    let fault = values_fault(alloc, model)?;
    let op = op_document(alloc, model)?;
    Ok(first_of(fault, length_fault(&op)))
}

/// The first fault of the values of a model.
fn values_fault(alloc: Global, model: &WriteModel) -> Result<Option<EncodeFault>, AllocError>
    ensures { IfOk result (λ fault. fault ≡ values_fault (model_values model.now)) }
{
    match model {
        WriteModel::InsertOne(model) => Ok(first_of(document_fault(&model.document), None)),
        WriteModel::UpdateOne(model) => update_one_fault(alloc, model),
        WriteModel::UpdateMany(model) => update_many_fault(alloc, model),
        WriteModel::ReplaceOne(model) => replace_one_fault(alloc, model),
        WriteModel::DeleteOne(model) => {
            delete_fault(alloc, &model.filter, &model.collation, &model.hint)
        }
        WriteModel::DeleteMany(model) => {
            delete_fault(alloc, &model.filter, &model.collation, &model.hint)
        }
    }
}

/// That of an update of one document.
fn update_one_fault(
    alloc: Global,
    model: &UpdateOneModel,
) -> Result<Option<EncodeFault>, AllocError>
    ensures { IfOk result (λ fault. fault ≡ values_fault (model_values (Updates model.now))) }
{
    let fault = option_document_fault(&model.sort);
    let fault = first_of(option_value_fault(alloc, &model.hint)?, fault);
    let fault = first_of(option_document_fault(&model.collation), fault);
    let fault = first_of(option_values_fault(alloc, &model.array_filters)?, fault);
    let fault = first_of(modifications_fault(&model.update), fault);
    Ok(first_of(document_fault(&model.filter), fault))
}

/// That of an update of all documents found.
fn update_many_fault(
    alloc: Global,
    model: &UpdateManyModel,
) -> Result<Option<EncodeFault>, AllocError>
    ensures { IfOk result (λ fault. fault ≡ values_fault (model_values (UpdatesAll model.now))) }
{
    let fault = option_value_fault(alloc, &model.hint)?;
    let fault = first_of(option_document_fault(&model.collation), fault);
    let fault = first_of(option_values_fault(alloc, &model.array_filters)?, fault);
    let fault = first_of(modifications_fault(&model.update), fault);
    Ok(first_of(document_fault(&model.filter), fault))
}

/// That of a replacement.
fn replace_one_fault(
    alloc: Global,
    model: &ReplaceOneModel,
) -> Result<Option<EncodeFault>, AllocError>
    ensures { IfOk result (λ fault. fault ≡ values_fault (model_values (Replaces model.now))) }
{
    let fault = option_document_fault(&model.sort);
    let fault = first_of(option_value_fault(alloc, &model.hint)?, fault);
    let fault = first_of(option_document_fault(&model.collation), fault);
    let fault = first_of(document_fault(&model.replacement), fault);
    Ok(first_of(document_fault(&model.filter), fault))
}

/// That of a delete.
fn delete_fault(
    alloc: Global,
    filter: &Document,
    collation: &Option<Document>,
    hint: &Option<Bson>,
) -> Result<Option<EncodeFault>, AllocError>
    ensures { IfOk result (λ fault. fault ≡ values_fault (delete_values filter.now collation.now hint.now)) }
{
    let fault = option_value_fault(alloc, hint)?;
    let fault = first_of(option_document_fault(collation), fault);
    Ok(first_of(document_fault(filter), fault))
}

/// The first fault of what an update does.
fn modifications_fault(update: &UpdateModifications) -> Option<EncodeFault>
    ensures { result ≡ values_fault (change_values (Modifies update.now)) }
{
    match update {
        UpdateModifications::Document(document) => first_of(document_fault(document), None),
        UpdateModifications::Pipeline(stages) => documents_fault(stages.as_slice()),
    }
}

/// The fault of a value that is an option.
fn option_value_fault(
    alloc: Global,
    value: &Option<Bson>,
) -> Result<Option<EncodeFault>, AllocError>
    ensures { IfOk result (λ fault. fault ≡ values_fault (value_list value.now)) }
{
    match value {
        None => Ok(None),
        Some(value) => Ok(first_of(value_fault(alloc, value)?, None)),
    }
}

/// The first fault of values, where they are set.
fn option_values_fault(
    alloc: Global,
    values: &Option<List<Bson>>,
) -> Result<Option<EncodeFault>, AllocError>
    ensures { IfOk result (λ fault. fault ≡ values_fault (set_values values.now)) }
{
    match values {
        None => Ok(None),
        Some(values) => each_value_fault(alloc, values.as_slice()),
    }
}

/// The first fault of values.
#[tactic(auto, using(crate::proofs::InputFaults::first_twice))]
fn each_value_fault(alloc: Global, values: &[Bson]) -> Result<Option<EncodeFault>, AllocError>
    ensures { IfOk result (λ fault. fault ≡ values_fault values.now) }
{
    let mut fault = None;
    for value in values {
        fault = first_of(fault, value_fault(alloc, value)?);
    }
    Ok(first_of(fault, None))
}

/// The fault of a namespace that is too long to be described. It takes no memory.
#[tactic(auto, using(crate::proofs::ModelSizes::names_long, crate::proofs::ModelSizes::names_short))]
pub(crate) fn text_fault(namespace: &Namespace) -> Option<EncodeFault>
    ensures { result ≡ text_fault (dotted namespace.now) }
{
    let names = namespace.db.len() as u128 + namespace.coll.len() as u128;
    if names + AROUND_NAMES > u128::from(LONGEST) {
        Some(EncodeFault::TooLong)
    } else {
        None
    }
}
