//! Which writes are refused for their input, found before anything is drawn or sent.
ghost use Rattle.std.specs.Prelude.{◌≡◌, IfOk, None, length, nat_lt};
ghost use Rattle.driver_error.specs.declared.kind.ErrorKind.TheVariants.{InvalidArgument};
ghost use Rattle.driver_error.specs.Conversions.{IsMade};
ghost use Rattle.driver_error.specs.LabelTexts.{no_labels};
ghost use Rattle.driver_ops.specs.Inserts.{insert_command};
ghost use Rattle.driver_inputs.specs.Forms.{deletes, finds, inserts, updates};
ghost use Rattle.driver_inputs.specs.Inputs.{JudgesInput, RefusesValues, change_refusal, dotted_text, has_dot, modification_refusal, name_refusal, replacement_text, update_text};
ghost use Rattle.driver_inputs.specs.Faults.{ErrorOfFault, JudgesArgument, RefusesDocument, length_fault};

use crate::faults::{
    LEVELS, LONGEST, comment_fault, delete_fault, find_fault, first_of, length_fault, update_fault,
};
use bson_lite::{
    Document, EncodeFault, ID_KEY, Namespace, Text, encoded_len, refusal_within,
    replacement_document_check, update_document_check,
};
use driver_error::{Error, ErrorKind};
use driver_options::{
    DeleteOptions, FindAndModifyOptions, InsertManyOptions, Modification, UpdateModifications,
    UpdateOptions, UpdateOrReplace,
};
use statement_ops::{delete_body, find_and_modify_body, update_body};
use std::alloc::{AllocError, Global};
use write_ops::insert_body;

/// The length in bytes that an object id adds to a document.
pub(crate) const ID_LENGTH: u64 = 17;

/// What is wrong with the input of an insert: the name of its database, else its document and its comment.
#[tactic(auto, using(crate::proofs::Refusals::named_input, crate::proofs::Refusals::judged_values))]
pub fn insert_refusal(
    alloc: Global,
    namespace: &Namespace,
    document: &Document,
    options: &InsertManyOptions,
) -> Option<Error>
    ensures { JudgesInput (inserts namespace.now document.now options.now) result }
{
    if let Some(error) = name_refusal(alloc, namespace) {
        return Some(error);
    }
    error_of(insert_fault(alloc, namespace, document, options))
}

/// What is wrong with the input of an update: the name of its database, else its change, else its values.
#[tactic(auto, using(crate::proofs::Refusals::named_input, crate::proofs::Refusals::operator_input, crate::proofs::Refusals::judged_values))]
pub fn update_refusal(
    alloc: Global,
    namespace: &Namespace,
    filter: &Document,
    change: &UpdateOrReplace,
    multi: bool,
    options: &UpdateOptions,
) -> Option<Error>
    ensures { JudgesInput (updates namespace.now filter.now change.now multi options.now) result }
{
    if let Some(error) = name_refusal(alloc, namespace) {
        return Some(error);
    }
    if let Some(error) = change_refusal(alloc, change) {
        return Some(error);
    }
    error_of(update_values_fault(alloc, namespace, filter, change, multi, options))
}

/// What is wrong with the input of a delete: the name of its database, else its values.
#[tactic(auto, using(crate::proofs::Refusals::named_input, crate::proofs::Refusals::judged_values))]
pub fn delete_refusal(
    alloc: Global,
    namespace: &Namespace,
    filter: &Document,
    multi: bool,
    options: &DeleteOptions,
) -> Option<Error>
    ensures { JudgesInput (deletes namespace.now filter.now multi options.now) result }
{
    if let Some(error) = name_refusal(alloc, namespace) {
        return Some(error);
    }
    error_of(delete_values_fault(alloc, namespace, filter, multi, options))
}

/// What is wrong with the input of a findAndModify: the name of its database, else its change, else its values.
#[tactic(auto, using(crate::proofs::Refusals::named_input, crate::proofs::Refusals::operator_input, crate::proofs::Refusals::judged_values))]
pub fn find_refusal(
    alloc: Global,
    namespace: &Namespace,
    filter: &Document,
    modification: &Modification,
    options: &FindAndModifyOptions,
) -> Option<Error>
    ensures { JudgesInput (finds namespace.now filter.now modification.now options.now) result }
{
    if let Some(error) = name_refusal(alloc, namespace) {
        return Some(error);
    }
    if let Some(error) = modification_refusal(alloc, modification) {
        return Some(error);
    }
    error_of(find_values_fault(alloc, namespace, filter, modification, options))
}

/// The error of a fault that was looked for, or of want of memory.
pub(crate) fn error_of(fault: Result<Option<EncodeFault>, AllocError>) -> Option<Error>
    ensures { ErrorOfFault fault result }
{
    match fault {
        Ok(None) => None,
        Ok(Some(fault)) => Some(Error::from_kind(ErrorKind::BsonSerialization(fault))),
        Err(_refused) => Some(Error::from_kind(ErrorKind::Memory)),
    }
}

/// Why a collection is refused by its database's name.
#[tactic(auto, using(crate::proofs::Refusals::name_dotted, crate::proofs::Refusals::name_taken))]
pub(crate) fn name_refusal(alloc: Global, namespace: &Namespace) -> Option<Error>
    ensures { JudgesArgument (name_refusal namespace.now) result }
{
    if has_dot(&namespace.db) {
        return Some(dotted(alloc, &namespace.db));
    }
    None
}

#[tactic(auto, unfolding(crate::specs::Inputs::has_dot))]
fn has_dot(name: &Text) -> bool
    ensures { result ≡ has_dot name.now }
{
    name.as_str().as_bytes().iter().any(|byte| *byte == b'.')
}

/// The error of a database whose name has a dot.
fn dotted(alloc: Global, name: &Text) -> Error
    ensures { IsMade (InvalidArgument (dotted_text name.now)) no_labels result }
{
    match dotted_text(alloc, name.as_str()) {
        Ok(message) => Error::from_kind(ErrorKind::InvalidArgument { message }),
        Err(_refused) => Error::from_kind(ErrorKind::Memory),
    }
}

#[tactic(auto, unfolding(crate::specs::Inputs::dotted_text))]
fn dotted_text(alloc: Global, name: &str) -> Result<Text, AllocError>
    ensures { IfOk result (λ text. text ≡ dotted_text name.now) }
{
    let mut text = String::new(alloc);
    text.push_str("invalid database name ")?;
    text.push_str(name)?;
    text.push_str(": name cannot contain period")?;
    Ok(Text::from_string(text))
}

/// Why a change is refused by its first key: an update has to begin with an operator, and a replacement must not.
/// A pipeline is not judged so.
#[tactic(auto, using(crate::proofs::Refusals::update_plain, crate::proofs::Refusals::replacement_operator, crate::proofs::Refusals::update_taken, crate::proofs::Refusals::replacement_taken))]
fn change_refusal(alloc: Global, change: &UpdateOrReplace) -> Option<Error>
    ensures { JudgesArgument (change_refusal change.now) result }
{
    match change {
        UpdateOrReplace::UpdateModifications(UpdateModifications::Document(document)) => {
            if update_document_check(document) {
                None
            } else {
                Some(plain_update(alloc))
            }
        }
        UpdateOrReplace::UpdateModifications(UpdateModifications::Pipeline(_)) => None,
        UpdateOrReplace::Replacement(document) => {
            if replacement_document_check(document) {
                None
            } else {
                Some(operator_replacement(alloc))
            }
        }
    }
}

/// Why what a findAndModify does is refused by its first key: a change as that of an update is, and a delete never.
fn modification_refusal(alloc: Global, modification: &Modification) -> Option<Error>
    ensures { JudgesArgument (modification_refusal modification.now) result }
{
    match modification {
        Modification::Delete => None,
        Modification::Update(change) => change_refusal(alloc, change),
    }
}

/// The error of an update that does not begin with an operator.
#[tactic(auto, unfolding(crate::specs::Inputs::update_text))]
pub(crate) fn plain_update(alloc: Global) -> Error
    ensures { IsMade (InvalidArgument update_text) no_labels result }
{
    refused(alloc, "update document must begin with an update operator")
}

/// The error of a replacement that begins with one.
#[tactic(auto, unfolding(crate::specs::Inputs::replacement_text))]
pub(crate) fn operator_replacement(alloc: Global) -> Error
    ensures { IsMade (InvalidArgument replacement_text) no_labels result }
{
    refused(
        alloc,
        "replacement document must not begin with an update operator",
    )
}

/// The error of an argument that is refused with this message.
pub(crate) fn refused(alloc: Global, text: &str) -> Error
    ensures { IsMade (InvalidArgument text.now) no_labels result }
{
    match Text::from_str(alloc, text) {
        Ok(message) => Error::from_kind(ErrorKind::InvalidArgument { message }),
        Err(_refused) => Error::from_kind(ErrorKind::Memory),
    }
}

/// Why an insert is refused once its document has an id, whichever id it gets.
#[tactic(auto, using(crate::proofs::Refusals::inserted_values))]
fn insert_fault(
    alloc: Global,
    namespace: &Namespace,
    document: &Document,
    options: &InsertManyOptions,
) -> Result<Option<EncodeFault>, AllocError>
    ensures { IfOk result (λ fault. RefusesValues (inserts namespace.now document.now options.now) fault) }
{
    let fault = comment_fault(alloc, &options.comment)?;
    let length = body_fault(alloc, namespace, options)?;
    let fault = first_of(fault, length);
    Ok(first_of(document_refusal(document), fault))
}

/// The fault of an insert's body that is too long by itself. It is built only where it may be.
pub(crate) fn body_fault(
    alloc: Global,
    namespace: &Namespace,
    options: &InsertManyOptions,
) -> Result<Option<EncodeFault>, AllocError>
    ensures { IfOk result (λ fault. fault ≡ length_fault (insert_command namespace.now options.now)) }
{
    match &options.comment {
        None => uncommented_fault(alloc, namespace, options),
        Some(_) => built_fault(alloc, namespace, options),
    }
}

/// The same of a body without a comment, which is short where the name of its collection is.
fn uncommented_fault(
    alloc: Global,
    namespace: &Namespace,
    options: &InsertManyOptions,
) -> Result<Option<EncodeFault>, AllocError>
    requires { options.now.comment ≡ None }
    ensures { IfOk result (λ fault. fault ≡ length_fault (insert_command namespace.now options.now)) }
{
    if is_short(&namespace.coll) {
        return Ok(None);
    }
    built_fault(alloc, namespace, options)
}

/// Whether a name is so short that a body with it is, where nothing else in it is a caller's.
fn is_short(name: &Text) -> bool
    ensures { result ≡ nat_lt (length name.now) 1000000 }
{
    name.len() < 1_000_000
}

/// The same by the body itself.
fn built_fault(
    alloc: Global,
    namespace: &Namespace,
    options: &InsertManyOptions,
) -> Result<Option<EncodeFault>, AllocError>
    ensures { IfOk result (λ fault. fault ≡ length_fault (insert_command namespace.now options.now)) }
{
    let body = insert_body(alloc, namespace.coll.as_str(), options)?;
    Ok(length_fault(&body))
}

/// Why a document is refused by itself once it has an id, whichever id it gets. It takes no memory.
pub(crate) fn document_refusal(document: &Document) -> Option<EncodeFault>
    ensures { RefusesDocument document.now result }
{
    let refused = refusal_within(document, LEVELS);
    if document.get(ID_KEY).is_some() {
        return refused;
    }
    if refused.is_none() && encoded_len(document) > LONGEST - ID_LENGTH {
        return Some(EncodeFault::TooLong);
    }
    refused
}

/// Why an update is refused for its values, or for the length of its command.
#[tactic(auto, using(crate::proofs::InputFaults::refused_by))]
fn update_values_fault(
    alloc: Global,
    namespace: &Namespace,
    filter: &Document,
    change: &UpdateOrReplace,
    multi: bool,
    options: &UpdateOptions,
) -> Result<Option<EncodeFault>, AllocError>
    ensures { IfOk result (λ fault.
        RefusesValues (updates namespace.now filter.now change.now multi options.now) fault) }
{
    let fault = update_fault(alloc, filter, change, options)?;
    let collection = namespace.coll.as_str();
    let body = update_body(alloc, collection, filter, change, multi, options)?;
    Ok(first_of(fault, length_fault(&body)))
}

/// Why a delete is refused for its values, or for the length of its command.
#[tactic(auto, using(crate::proofs::InputFaults::refused_by))]
fn delete_values_fault(
    alloc: Global,
    namespace: &Namespace,
    filter: &Document,
    multi: bool,
    options: &DeleteOptions,
) -> Result<Option<EncodeFault>, AllocError>
    ensures { IfOk result (λ fault.
        RefusesValues (deletes namespace.now filter.now multi options.now) fault) }
{
    let fault = delete_fault(alloc, filter, options)?;
    let body = delete_body(alloc, namespace.coll.as_str(), filter, multi, options)?;
    Ok(first_of(fault, length_fault(&body)))
}

/// Why a findAndModify is refused for its values, or for the length of its command.
#[tactic(auto, using(crate::proofs::InputFaults::refused_by))]
fn find_values_fault(
    alloc: Global,
    namespace: &Namespace,
    filter: &Document,
    modification: &Modification,
    options: &FindAndModifyOptions,
) -> Result<Option<EncodeFault>, AllocError>
    ensures { IfOk result (λ fault.
        RefusesValues (finds namespace.now filter.now modification.now options.now) fault) }
{
    let fault = find_fault(alloc, filter, modification, options)?;
    let collection = namespace.coll.as_str();
    let body = find_and_modify_body(alloc, collection, filter, modification, options)?;
    Ok(first_of(fault, length_fault(&body)))
}
