//! Which inserts of many documents are refused for their input, found before anything is drawn or sent.
ghost use Rattle.std.specs.Prelude.{◌≡◌, IfOk};
ghost use Rattle.driver_error.specs.declared.kind.ErrorKind.TheVariants.{InvalidArgument};
ghost use Rattle.driver_error.specs.Conversions.{IsMade};
ghost use Rattle.driver_error.specs.LabelTexts.{no_labels};
ghost use Rattle.driver_inputs.specs.ManyInputs.{JudgesManyInput, RefusesManyValues, many_argument_refusal, none_given_text};
ghost use Rattle.driver_inputs.specs.Faults.{JudgesArgument};
ghost use Rattle.driver_inputs.specs.ManyFaults.{own_fault, own_faults};

use crate::faults::{comment_fault, first_of};
use crate::refusal::{body_fault, document_refusal, error_of, name_refusal, refused};
use bson_lite::{Document, EncodeFault, Namespace};
use driver_error::Error;
use driver_options::InsertManyOptions;
use std::alloc::{AllocError, Global};

/// What is wrong with the input of an insert of documents: there are none, else the name of its database, else the
/// documents and the comment.
#[tactic(auto, using(crate::proofs::ManyFaults::many_argument, crate::proofs::ManyFaults::judged_many))]
pub fn many_refusal(
    alloc: Global,
    namespace: &Namespace,
    documents: &[Document],
    options: &InsertManyOptions,
) -> Option<Error>
    ensures { JudgesManyInput namespace.now documents.now options.now result }
{
    if let Some(error) = many_argument_refusal(alloc, namespace, documents) {
        return Some(error);
    }
    error_of(many_fault(alloc, namespace, documents, options))
}

/// Why an insert of documents is refused as an argument: there are none, else for its database's name.
#[tactic(auto, using(crate::proofs::ManyFaults::none_given, crate::proofs::ManyFaults::some_given))]
fn many_argument_refusal(
    alloc: Global,
    namespace: &Namespace,
    documents: &[Document],
) -> Option<Error>
    ensures { JudgesArgument (many_argument_refusal namespace.now documents.now) result }
{
    if documents.is_empty() {
        return Some(none_given(alloc));
    }
    name_refusal(alloc, namespace)
}

/// The error of a list without a document.
#[tactic(auto, unfolding(crate::specs::ManyInputs::none_given_text))]
fn none_given(alloc: Global) -> Error
    ensures { IsMade (InvalidArgument none_given_text) no_labels result }
{
    refused(alloc, "No documents provided to insert_many")
}

/// Why an insert is refused once each document has an id, whichever ids they get.
fn many_fault(
    alloc: Global,
    namespace: &Namespace,
    documents: &[Document],
    options: &InsertManyOptions,
) -> Result<Option<EncodeFault>, AllocError>
    ensures { IfOk result (λ fault. RefusesManyValues namespace.now documents.now options.now fault) }
{
    let fault = comment_fault(alloc, &options.comment)?;
    let length = body_fault(alloc, namespace, options)?;
    let fault = first_of(fault, length);
    Ok(first_of(own_faults(documents), fault))
}

/// The first fault of documents once each has an id, in one pass. It takes no memory.
#[tactic(auto, using(crate::proofs::InputFaults::first_twice))]
fn own_faults(documents: &[Document]) -> Option<EncodeFault>
    ensures { result ≡ own_faults documents.now }
{
    let mut fault = None;
    for document in documents {
        fault = first_of(fault, own_fault(document));
    }
    first_of(fault, None)
}

/// The fault of a document once it has an id.
pub(crate) fn own_fault(document: &Document) -> Option<EncodeFault>
    ensures { result ≡ own_fault document.now }
{
    document_refusal(document)
}
