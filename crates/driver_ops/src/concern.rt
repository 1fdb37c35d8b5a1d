//! A write concern as a command carries it.
ghost use Rattle.std.specs.Prelude.{◌≡◌, ◌++◌, IfOk, OnErr, OnOk};
ghost use Rattle.driver_ops.specs.ConcernFields.{acknowledgment_of, acknowledgment_value, concern_document, number_of, number_value};
ghost use Rattle.driver_ops.specs.OptionFields.{option_field};

use crate::keys::{JOURNAL, MAJORITY, W, W_TIMEOUT};
use crate::option_fields::push_flag;
use bson_lite::{Bson, Document, Text, TryClone};
use driver_options::{Acknowledgment, WriteConcern};
use std::alloc::{AllocError, Global};

/// The fields of a write concern that are set, in their order: which servers acknowledge the write, how many
/// milliseconds they are waited for, and whether their journals are.
#[tactic(auto, unfolding(crate::specs::ConcernFields::concern_document))]
pub fn concern_document(alloc: Global, concern: &WriteConcern) -> Result<Document, AllocError>
    ensures { IfOk result (λ document. document ≡ concern_document concern.now) }
{
    let mut document = Document::new(alloc);
    push_acknowledgment(alloc, &mut document, W, &concern.w)?;
    push_number(&mut document, W_TIMEOUT, concern.w_timeout)?;
    push_flag(&mut document, JOURNAL, concern.journal)?;
    Ok(document)
}

/// Appends which servers acknowledge a write, where it is set.
fn push_acknowledgment(
    alloc: Global,
    document: &mut Document,
    key: &str,
    w: &Option<Acknowledgment>,
) -> Result<(), AllocError>
    ensures ok { OnOk result (document.new ≡ document.old ++ option_field key.now (acknowledgment_of w.now)) }
    ensures err { OnErr result (document.new ≡ document.old) }
{
    match w {
        None => Ok(()),
        Some(w) => document.push(key, acknowledgment_value(alloc, w)?),
    }
}

/// Which servers acknowledge a write, as a value.
fn acknowledgment_value(alloc: Global, w: &Acknowledgment) -> Result<Bson, AllocError>
    ensures { IfOk result (λ value. value ≡ acknowledgment_value w.now) }
{
    Ok(match w {
        Acknowledgment::Nodes(nodes) => number_value(*nodes),
        Acknowledgment::Majority => Bson::String(Text::from_str(alloc, MAJORITY)?),
        Acknowledgment::Custom(name) => Bson::String(name.try_clone(alloc)?),
    })
}

/// Appends a number where it is set.
pub fn push_number(
    document: &mut Document,
    key: &str,
    number: Option<u32>,
) -> Result<(), AllocError>
    ensures ok { OnOk result (document.new ≡ document.old ++ option_field key.now (number_of number)) }
    ensures err { OnErr result (document.new ≡ document.old) }
{
    match number {
        None => Ok(()),
        Some(number) => document.push(key, number_value(number)),
    }
}

/// A number as a command has it.
fn number_value(number: u32) -> Bson
    ensures { result ≡ number_value number }
{
    if number < 1 << 31 {
        return Bson::Int32(number as i32);
    }
    Bson::Int64(number as i64)
}
