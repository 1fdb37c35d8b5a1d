//! Which bulk writes are refused for their input, found before anything is drawn or sent.
ghost use Rattle.std.specs.Prelude.{◌≡◌, IfOk};
ghost use Rattle.driver_error.specs.declared.kind.ErrorKind.TheVariants.{InvalidArgument};
ghost use Rattle.driver_error.specs.Conversions.{IsMade};
ghost use Rattle.driver_error.specs.LabelTexts.{no_labels};
ghost use Rattle.driver_options.specs.declared.updates.UpdateOrReplace.TheVariants.{Replacement as Replaces, UpdateModifications as Modifies};
ghost use Rattle.driver_inputs.specs.BulkInputs.{JudgesBulkInput, RefusesBulkValues, bulk_argument_refusal, first_text, no_models_text, replacement_refusal, update_refusal};
ghost use Rattle.driver_inputs.specs.Inputs.{change_refusal};
ghost use Rattle.driver_inputs.specs.Faults.{JudgesArgument};
ghost use Rattle.driver_inputs.specs.inside.ModelFaults.{model_faults, test_refusal};

use crate::faults::{comment_fault, first_of, length_fault, option_document_fault};
use crate::model_faults::{model_fault, text_fault};
use crate::refusal::{error_of, name_refusal, operator_replacement, plain_update, refused};
use bson_lite::{Document, EncodeFault, replacement_document_check, update_document_check};
use bulk_ops::bulk_body;
use driver_error::Error;
use driver_options::{BulkWriteOptions, UpdateModifications, WriteModel};
use std::alloc::{AllocError, Global};

/// What is judged of each model before the next thing is.
#[derive(Clone, Copy)]
pub(crate) enum ModelTest {
    /// The name of its database.
    Databases,
    /// The first key of its update.
    Updates,
    /// The first key of its replacement.
    Replacements,
}

/// What is wrong with the input of a bulk write: there are no models, else the name of a database, else an update, else
/// a replacement, each of the first such model, else the values of models and options.
#[tactic(auto, using(crate::proofs::BulkRefusals::bulk_argument, crate::proofs::BulkRefusals::judged_bulk))]
pub fn bulk_refusal(
    alloc: Global,
    models: &[WriteModel],
    options: &BulkWriteOptions,
) -> Option<Error>
    ensures { JudgesBulkInput models.now options.now result }
{
    if let Some(error) = bulk_argument_refusal(alloc, models) {
        return Some(error);
    }
    error_of(bulk_fault(alloc, models, options))
}

/// Why a bulk write is refused as an argument.
#[tactic(auto, using(crate::proofs::BulkRefusals::no_models_given, crate::proofs::BulkRefusals::judged_databases, crate::proofs::BulkRefusals::judged_updates, crate::proofs::BulkRefusals::judged_replacements))]
fn bulk_argument_refusal(alloc: Global, models: &[WriteModel]) -> Option<Error>
    ensures { JudgesArgument (bulk_argument_refusal models.now) result }
{
    if models.is_empty() {
        return Some(no_models(alloc));
    }
    if let Some(error) = first_refusal(alloc, ModelTest::Databases, models) {
        return Some(error);
    }
    if let Some(error) = first_refusal(alloc, ModelTest::Updates, models) {
        return Some(error);
    }
    first_refusal(alloc, ModelTest::Replacements, models)
}

/// The error of a list without a model.
#[tactic(auto, unfolding(crate::specs::BulkInputs::no_models_text))]
fn no_models(alloc: Global) -> Error
    ensures { IsMade (InvalidArgument no_models_text) no_labels result }
{
    refused(
        alloc,
        "bulk_write must be provided at least one write operation",
    )
}

/// Why the first model is refused that one test refuses.
#[tactic(auto, using(crate::proofs::BulkRefusals::refused_here, crate::proofs::BulkRefusals::passed_here, crate::proofs::BulkRefusals::passed_all))]
fn first_refusal(alloc: Global, test: ModelTest, models: &[WriteModel]) -> Option<Error>
    ensures { JudgesArgument (first_text (test_refusal test) models.now) result }
{
    for model in models {
        if let Some(error) = tested(alloc, test, model) {
            return Some(error);
        }
    }
    None
}

/// Why a model is refused by a test.
#[tactic(auto, using(crate::proofs::BulkRefusals::judged_database))]
fn tested(alloc: Global, test: ModelTest, model: &WriteModel) -> Option<Error>
    ensures { JudgesArgument (test_refusal test model.now) result }
{
    match test {
        ModelTest::Databases => name_refusal(alloc, model.namespace()),
        ModelTest::Updates => update_refusal(alloc, model),
        ModelTest::Replacements => replacement_refusal(alloc, model),
    }
}

/// Why a model is refused by the first key of its update.
fn update_refusal(alloc: Global, model: &WriteModel) -> Option<Error>
    ensures { JudgesArgument (update_refusal model.now) result }
{
    match model {
        WriteModel::InsertOne(_) => None,
        WriteModel::UpdateOne(model) => modifications_refusal(alloc, &model.update),
        WriteModel::UpdateMany(model) => modifications_refusal(alloc, &model.update),
        WriteModel::ReplaceOne(_) => None,
        WriteModel::DeleteOne(_) => None,
        WriteModel::DeleteMany(_) => None,
    }
}

/// Why an update is refused by its first key. A pipeline is not judged so.
#[tactic(auto, using(crate::proofs::Refusals::update_plain, crate::proofs::Refusals::update_taken))]
fn modifications_refusal(alloc: Global, update: &UpdateModifications) -> Option<Error>
    ensures { JudgesArgument (change_refusal (Modifies update.now)) result }
{
    match update {
        UpdateModifications::Document(document) => {
            if update_document_check(document) {
                None
            } else {
                Some(plain_update(alloc))
            }
        }
        UpdateModifications::Pipeline(_) => None,
    }
}

/// Why a model is refused by the first key of its replacement.
fn replacement_refusal(alloc: Global, model: &WriteModel) -> Option<Error>
    ensures { JudgesArgument (replacement_refusal model.now) result }
{
    match model {
        WriteModel::InsertOne(_) => None,
        WriteModel::UpdateOne(_) => None,
        WriteModel::UpdateMany(_) => None,
        WriteModel::ReplaceOne(model) => document_refusal(alloc, &model.replacement),
        WriteModel::DeleteOne(_) => None,
        WriteModel::DeleteMany(_) => None,
    }
}

/// Why a replacement is refused by its first key.
#[tactic(auto, using(crate::proofs::Refusals::replacement_operator, crate::proofs::Refusals::replacement_taken))]
fn document_refusal(alloc: Global, replacement: &Document) -> Option<Error>
    ensures { JudgesArgument (change_refusal (Replaces replacement.now)) result }
{
    if replacement_document_check(replacement) {
        None
    } else {
        Some(operator_replacement(alloc))
    }
}

/// Why a bulk write is refused for its values, once each inserted document has an id, whichever ids they get.
fn bulk_fault(
    alloc: Global,
    models: &[WriteModel],
    options: &BulkWriteOptions,
) -> Result<Option<EncodeFault>, AllocError>
    ensures { IfOk result (λ fault. RefusesBulkValues models.now options.now fault) }
{
    let comment = comment_fault(alloc, &options.comment)?;
    let options_first = first_of(option_document_fault(&options.let_vars), comment);
    let body = bulk_body(alloc, options, false)?;
    let beside = first_of(options_first, length_fault(&body));
    let of_models = model_faults(alloc, models)?;
    Ok(first_of(of_models, beside))
}

/// The first fault of models and of their namespaces, in one pass.
#[tactic(auto, using(crate::proofs::ModelFaults::fault_more))]
fn model_faults(alloc: Global, models: &[WriteModel]) -> Result<Option<EncodeFault>, AllocError>
    ensures { IfOk result (λ fault. fault ≡ model_faults models.now) }
{
    let mut fault = None;
    for model in models {
        fault = first_of(fault, model_fault(alloc, model)?);
        fault = first_of(fault, text_fault(model.namespace()));
    }
    Ok(first_of(fault, None))
}
