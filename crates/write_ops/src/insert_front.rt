//! How many documents of an insert go out in one command, and why none do.
ghost use Rattle.std.specs.Prelude.{◌≡◌, ◌<◌, ◌++◌, None, Some, get_or, string_bytes, take, IfOk, IfSome, OnOk};
ghost use Rattle.driver_error.specs.declared.kind.ErrorKind.TheVariants.{InvalidArgument};
ghost use Rattle.driver_error.specs.Conversions.{IsMade};
ghost use Rattle.driver_error.specs.LabelTexts.{no_labels};
ghost use Rattle.driver_ops.specs.Limits.{built_count};
ghost use Rattle.write_ops.specs.InsertFronts.{document_text, position_text, size_text, sizes_of, text_at};
ghost use Rattle.write_ops.specs.InsertSpec.{statements_fixed};
ghost use Rattle.write_ops.specs.inside.InsertFronts.{TakesOrStops};

use crate::own_document::OwnDocument;
use bson_lite::Text;
use driver_batches::{Limits, Measured, longest_front};
use driver_error::{Error, ErrorKind};
use driver_ops::BuiltFront;
use std::alloc::{AllocError, Global};

/// How many statements the command has by earlier builds. The insert of one document has one, built or not.
pub(crate) fn statements_fixed(
    documents: &[OwnDocument],
    built: &Option<BuiltFront>,
) -> Option<usize>
    ensures value { result ≡ statements_fixed documents.now (built_count built.now) }
    ensures some { IfSome result (λ statements. 0 < statements) }
{
    match built {
        Some(front) => Some(front.count),
        None => one_alone(documents),
    }
}

/// The one statement of an insert of one document.
fn one_alone(documents: &[OwnDocument]) -> Option<usize>
    ensures value { result ≡ statements_fixed documents.now None }
    ensures some { IfSome result (λ statements. 0 < statements) }
{
    match documents {
        [] => None,
        [_] => Some(1),
        _ => None,
    }
}

/// So many documents from the front, or all where there are fewer.
pub(crate) fn front(documents: &[OwnDocument], count: usize) -> &[OwnDocument]
    ensures { result.now ≡ take count documents.now }
{
    if count < documents.len() {
        &documents[..count]
    } else {
        documents
    }
}

/// How many documents a build takes, by how many are fixed. The error is the position of the first one that does
/// not go out.
pub(crate) fn taken(
    documents: &[OwnDocument],
    fixed: Option<usize>,
    limits: &Limits,
) -> Result<usize, usize>
    requires { IfSome fixed (λ statements. 0 < statements) }
    ensures takes { TakesOrStops limits.now documents.now fixed result }
    ensures some { IfOk result (λ statements. 0 < statements) }
{
    match fixed {
        Some(fixed) => taken_again(documents, fixed, limits),
        None => taken_first(documents, limits),
    }
}

/// The same of a first build: it takes the longest front.
fn taken_first(documents: &[OwnDocument], limits: &Limits) -> Result<usize, usize>
    ensures takes { TakesOrStops limits.now documents.now None result }
    ensures some { IfOk result (λ statements. 0 < statements) }
{
    let count = longest_front(documents, limits);
    if count == 0 { Err(0) } else { Ok(count) }
}

/// The same of a later one: it takes as many as the first, where so many go out.
fn taken_again(documents: &[OwnDocument], fixed: usize, limits: &Limits) -> Result<usize, usize>
    requires { 0 < fixed }
    ensures takes { TakesOrStops limits.now documents.now (Some fixed) result }
    ensures some { IfOk result (λ statements. 0 < statements) }
{
    let count = longest_front(front(documents, fixed), limits);
    if count == fixed {
        Ok(count)
    } else {
        Err(count)
    }
}

/// The error of a build, where the document at a position does not go out. The first of the documents stands at
/// the index `first` of the caller's list.
pub(crate) fn oversized(
    alloc: Global,
    limits: &Limits,
    first: usize,
    documents: &[OwnDocument],
    at: usize,
) -> Error
    ensures { IsMade (InvalidArgument (text_at limits.now first documents.now at)) no_labels result }
{
    let size = size_at(documents, at);
    let index = first as u128 + at as u128;
    match size_text(alloc, limits, size, index) {
        Ok(message) => Error::from_kind(ErrorKind::InvalidArgument { message }),
        Err(_refused) => Error::from_kind(ErrorKind::Memory),
    }
}

/// The size in bytes of the document at a position, and 0 behind the last.
fn size_at(documents: &[OwnDocument], at: usize) -> u64
    ensures { result ≡ get_or (sizes_of documents.now) at 0 }
{
    if at < documents.len() {
        documents[at].size()
    } else {
        0
    }
}

/// Why a document of this size in bytes, at an index of the caller's list, does not go out.
fn size_text(alloc: Global, limits: &Limits, size: u64, index: u128) -> Result<Text, AllocError>
    ensures { IfOk result (λ text. text ≡ size_text limits.now size index) }
{
    let mut text = String::new(alloc);
    push_size_text(&mut text, limits, size, index)?;
    Ok(Text::from_string(text))
}

/// Appends the same.
fn push_size_text(
    out: &mut String,
    limits: &Limits,
    size: u64,
    index: u128,
) -> Result<(), AllocError>
    ensures { OnOk result
        (string_bytes out.new ≡ string_bytes out.old ++ size_text limits.now size index) }
{
    if limits.each < size {
        push_document_text(out, limits.each, size)
    } else {
        push_position_text(out, index)
    }
}

/// Appends the message about a document of `size` bytes on a connection that takes `most`.
fn push_document_text(out: &mut String, most: u64, size: u64) -> Result<(), AllocError>
    ensures { OnOk result (string_bytes out.new ≡ string_bytes out.old ++ document_text most size) }
{
    write!(
        out,
        "insert document must be within {most} bytes, but document provided is {size} bytes"
    )?;
    Ok(())
}

/// Appends the message about a document that fits into no command, though it is not too long by itself.
#[tactic(auto, unfolding(crate::specs::InsertFronts::position_text))]
fn push_position_text(out: &mut String, index: u128) -> Result<(), AllocError>
    ensures { OnOk result (string_bytes out.new ≡ string_bytes out.old ++ position_text index) }
{
    write!(out, "document at index {index} exceeds the maximum size")?;
    Ok(())
}
