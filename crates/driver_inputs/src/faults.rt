//! Why documents and option values of a write are refused, before anything is drawn or sent.
ghost use Rattle.std.specs.Prelude.{◌≡◌, ◌∷◌, ◌++◌, IfOk};
ghost use Rattle.bson_lite.specs.declared.bson.Bson as bson;
ghost use Rattle.driver_ops.specs.OptionFields.{document_in, hint_of};
ghost use Rattle.driver_inputs.specs.Inputs.{change_values, delete_values, document_values, find_values, modification_values, option_values, update_values, value_list};
ghost use Rattle.driver_inputs.specs.Faults.{before_length, before_zero, first_of, length_fault, value_fault, values_fault};

use bson_lite::{Bson, Document, EncodeFault, List, TryClone, encoded_len, refusal_within};
use driver_options::{
    DeleteOptions, FindAndModifyOptions, Hint, Modification, UpdateModifications, UpdateOptions,
    UpdateOrReplace,
};
use std::alloc::{AllocError, Global};

/// The levels that a caller's document may nest. The command that carries it adds some of its own.
pub(crate) const LEVELS: u32 = 96;

/// The levels of a document that carries one value of a caller.
const LEVELS_AROUND: u32 = 97;

/// The greatest length of a document in bytes.
pub(crate) const LONGEST: u64 = 2_147_483_647;

/// Of two faults the one that is tested first: too deep, a zero byte, too long.
pub(crate) fn first_of(one: Option<EncodeFault>, other: Option<EncodeFault>) -> Option<EncodeFault>
    ensures { result ≡ first_of one other }
{
    match one {
        Some(EncodeFault::TooDeep) => Some(EncodeFault::TooDeep),
        Some(EncodeFault::ZeroByte) => before_zero(other),
        Some(EncodeFault::TooLong) => before_length(other),
        _ => other,
    }
}

fn before_zero(other: Option<EncodeFault>) -> Option<EncodeFault>
    ensures { result ≡ before_zero other }
{
    match other {
        Some(EncodeFault::TooDeep) => Some(EncodeFault::TooDeep),
        _ => Some(EncodeFault::ZeroByte),
    }
}

fn before_length(other: Option<EncodeFault>) -> Option<EncodeFault>
    ensures { result ≡ before_length other }
{
    match other {
        Some(EncodeFault::TooDeep) => Some(EncodeFault::TooDeep),
        Some(EncodeFault::ZeroByte) => Some(EncodeFault::ZeroByte),
        _ => Some(EncodeFault::TooLong),
    }
}

/// Whether a document is too long by itself.
pub(crate) fn length_fault(document: &Document) -> Option<EncodeFault>
    ensures { result ≡ length_fault document.now }
{
    if encoded_len(document) > LONGEST {
        Some(EncodeFault::TooLong)
    } else {
        None
    }
}

/// The fault of a document by itself, but for its length.
#[tactic(auto, using(crate::proofs::InputFaults::without_length))]
pub(crate) fn document_fault(document: &Document) -> Option<EncodeFault>
    ensures { result ≡ value_fault (bson.Document document.now) }
{
    match refusal_within(document, LEVELS) {
        Some(EncodeFault::TooLong) => None,
        fault => fault,
    }
}

/// The first fault of documents.
#[tactic(auto, using(crate::proofs::InputFaults::first_twice))]
pub(crate) fn documents_fault(documents: &[Document]) -> Option<EncodeFault>
    ensures { result ≡ values_fault (document_values documents.now) }
{
    let mut fault = None;
    for document in documents {
        fault = first_of(fault, document_fault(document));
    }
    first_of(fault, None)
}

/// The same of an option.
fn option_documents_fault(documents: &Option<List<Document>>) -> Option<EncodeFault>
    ensures { result ≡ values_fault (option_values documents.now) }
{
    match documents {
        None => None,
        Some(documents) => documents_fault(documents.as_slice()),
    }
}

/// The fault of a document that is an option.
pub(crate) fn option_document_fault(document: &Option<Document>) -> Option<EncodeFault>
    ensures { result ≡ values_fault (value_list (document_in document.now)) }
{
    match document {
        None => None,
        Some(document) => first_of(document_fault(document), None),
    }
}

/// The fault of a hint by its keys; a name has none.
#[tactic(auto, using(crate::proofs::InputFaults::text_fault))]
fn hint_fault(hint: &Option<Hint>) -> Option<EncodeFault>
    ensures { result ≡ values_fault (value_list (hint_of hint.now)) }
{
    match hint {
        Some(Hint::Keys(keys)) => first_of(document_fault(keys), None),
        Some(Hint::Name(_)) => None,
        None => None,
    }
}

/// The fault of a comment.
pub(crate) fn comment_fault(
    alloc: Global,
    comment: &Option<Bson>,
) -> Result<Option<EncodeFault>, AllocError>
    ensures { IfOk result (λ fault. fault ≡ values_fault (value_list comment.now)) }
{
    match comment {
        None => Ok(None),
        Some(value) => Ok(first_of(value_fault(alloc, value)?, None)),
    }
}

/// The fault of a value by itself.
#[tactic(auto, using(crate::proofs::InputFaults::within_around))]
pub(crate) fn value_fault(alloc: Global, value: &Bson) -> Result<Option<EncodeFault>, AllocError>
    ensures { IfOk result (λ fault. fault ≡ value_fault value.now) }
{
    let mut around = Document::new(alloc);
    around.push("", value.try_clone(alloc)?)?;
    Ok(match refusal_within(&around, LEVELS_AROUND) {
        Some(EncodeFault::TooLong) => None,
        fault => fault,
    })
}

/// The first fault of a change.
fn change_fault(change: &UpdateOrReplace) -> Option<EncodeFault>
    ensures { result ≡ values_fault (change_values change.now) }
{
    match change {
        UpdateOrReplace::UpdateModifications(UpdateModifications::Document(document)) => {
            first_of(document_fault(document), None)
        }
        UpdateOrReplace::UpdateModifications(UpdateModifications::Pipeline(stages)) => {
            documents_fault(stages.as_slice())
        }
        UpdateOrReplace::Replacement(document) => first_of(document_fault(document), None),
    }
}

/// The first fault of what a findAndModify does.
fn modification_fault(modification: &Modification) -> Option<EncodeFault>
    ensures { result ≡ values_fault (modification_values modification.now) }
{
    match modification {
        Modification::Delete => None,
        Modification::Update(change) => change_fault(change),
    }
}

/// The first fault of the options of an update.
#[tactic(auto, using(crate::proofs::InputFaults::joined))]
fn update_options_fault(
    alloc: Global,
    options: &UpdateOptions,
) -> Result<Option<EncodeFault>, AllocError>
    ensures { IfOk result (λ fault. fault ≡ values_fault (update_values options.now)) }
{
    let fault = option_document_fault(&options.sort);
    let fault = first_of(comment_fault(alloc, &options.comment)?, fault);
    let fault = first_of(option_document_fault(&options.let_vars), fault);
    let fault = first_of(option_document_fault(&options.collation), fault);
    let fault = first_of(hint_fault(&options.hint), fault);
    Ok(first_of(option_documents_fault(&options.array_filters), fault))
}

/// The first fault of the options of a delete.
#[tactic(auto, using(crate::proofs::InputFaults::joined))]
fn delete_options_fault(
    alloc: Global,
    options: &DeleteOptions,
) -> Result<Option<EncodeFault>, AllocError>
    ensures { IfOk result (λ fault. fault ≡ values_fault (delete_values options.now)) }
{
    let fault = comment_fault(alloc, &options.comment)?;
    let fault = first_of(option_document_fault(&options.let_vars), fault);
    let fault = first_of(hint_fault(&options.hint), fault);
    Ok(first_of(option_document_fault(&options.collation), fault))
}

/// The first fault of the options of a findAndModify.
#[tactic(auto, using(crate::proofs::InputFaults::joined))]
fn find_options_fault(
    alloc: Global,
    options: &FindAndModifyOptions,
) -> Result<Option<EncodeFault>, AllocError>
    ensures { IfOk result (λ fault. fault ≡ values_fault (find_values options.now)) }
{
    let fault = comment_fault(alloc, &options.comment)?;
    let fault = first_of(option_document_fault(&options.let_vars), fault);
    let fault = first_of(hint_fault(&options.hint), fault);
    let fault = first_of(option_document_fault(&options.collation), fault);
    let fault = first_of(option_document_fault(&options.projection), fault);
    let fault = first_of(option_documents_fault(&options.array_filters), fault);
    Ok(first_of(option_document_fault(&options.sort), fault))
}

/// The first fault of an update's filter, change and options.
#[tactic(auto, using(crate::proofs::InputFaults::joined))]
pub(crate) fn update_fault(
    alloc: Global,
    filter: &Document,
    change: &UpdateOrReplace,
    options: &UpdateOptions,
) -> Result<Option<EncodeFault>, AllocError>
    ensures { IfOk result (λ fault. fault ≡
        values_fault (bson.Document filter.now ∷ change_values change.now ++ update_values options.now)) }
{
    let fault = first_of(change_fault(change), update_options_fault(alloc, options)?);
    Ok(first_of(document_fault(filter), fault))
}

/// The first fault of a delete's filter and options.
pub(crate) fn delete_fault(
    alloc: Global,
    filter: &Document,
    options: &DeleteOptions,
) -> Result<Option<EncodeFault>, AllocError>
    ensures { IfOk result (λ fault. fault ≡
        values_fault (bson.Document filter.now ∷ delete_values options.now)) }
{
    Ok(first_of(
        document_fault(filter),
        delete_options_fault(alloc, options)?,
    ))
}

/// The first fault of a findAndModify's filter, of what it does, and of its options.
#[tactic(auto, using(crate::proofs::InputFaults::joined))]
pub(crate) fn find_fault(
    alloc: Global,
    filter: &Document,
    modification: &Modification,
    options: &FindAndModifyOptions,
) -> Result<Option<EncodeFault>, AllocError>
    ensures { IfOk result (λ fault. fault ≡ values_fault
        (bson.Document filter.now ∷ modification_values modification.now ++ find_values options.now)) }
{
    let fault = first_of(
        modification_fault(modification),
        find_options_fault(alloc, options)?,
    );
    Ok(first_of(document_fault(filter), fault))
}
