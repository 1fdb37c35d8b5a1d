//! How many ops of a bulk write go out in one command, with their namespaces and in bytes, and why none do.
ghost use Rattle.std.specs.Prelude.{◌≡◌, ◌+◌, ◌<◌, ◌≤◌, ◌++◌, ◌↔◌, [], ℕ, List as Listed, None, Some, bytes_eq, drop, length, string_bytes, take, IfNone, IfOk, IfSome, IsTrue, OnOk};
ghost use Rattle.std.specs.HashMap as hash;
ghost use Rattle.std.specs.Map.{update};
ghost use Rattle.bson_lite.specs.Spelling.{Spells, four};
ghost use Rattle.driver_error.specs.declared.kind.ErrorKind.TheVariants.{IncompatibleServer, Internal, InvalidArgument};
ghost use Rattle.driver_error.specs.Conversions.{IsMade};
ghost use Rattle.driver_error.specs.LabelTexts.{no_labels};
ghost use Rattle.driver_ops.specs.Limits.{built_count};
ghost use Rattle.bulk_fronts.specs.BulkFronts.{number_text, old_server_text, op_text, serves_bulk};
ghost use Rattle.bulk_fronts.specs.BulkOps.{has_multi, namespace_document, numbered};
ghost use Rattle.bulk_fronts.specs.inside.BulkFronts.{Describes, EndsFront, IsFoundFront, NumbersOp, PushesOp, added_bytes};

use crate::own_op::OwnOp;
use bson_lite::{Bson, Bytes, Document, List, Text, encode};
use driver_batches::Limits;
use driver_error::{Error, ErrorKind};
use driver_ops::BuiltFront;
use driver_options::Description;
use std::alloc::{AllocError, Global};
use std::collections::HashMap;
use wire_keys::keys;

/// The wire version from which on a server takes bulk writes.
const BULK_VERSION: i32 = 25;

/// The bytes of an op before the number of its namespace: a length, a type, and a key of six letters with its end.
const BEFORE_NUMBER: usize = 12;

/// The bytes up to the end of the number.
const BEHIND_NUMBER: usize = 16;

/// How many bytes more than its text the document has that describes a namespace.
const AROUND_TEXT: u128 = 14;

/// So many namespaces have numbers of 31 bits.
const MOST_NAMESPACES: u64 = 2_147_483_648;

/// A front of ops as it goes out: the documents that describe their namespaces, and themselves, in bytes.
#[derive(Drop)]
pub struct OpFront {
    pub namespaces: List<Bytes>,
    pub ops: List<Bytes>,
}

/// What a build takes.
#[derive(Drop)]
pub enum Taken {
    Front(OpFront),
    /// None, since the op at this position does not go out.
    Stops(usize),
}

/// How many ops the command has by earlier builds.
pub fn fixed_count(built: &Option<BuiltFront>) -> Option<usize>
    ensures value { result ≡ built_count built.now }
    ensures some { IfSome result (λ statements. 0 < statements) }
{
    match built {
        Some(front) => Some(front.count),
        None => None,
    }
}

/// Whether a server takes bulk writes.
pub fn serves_bulk(description: &Description) -> bool
    ensures { result ≡ serves_bulk description.now }
{
    description.max_wire_version.unwrap_or(0) >= BULK_VERSION
}

/// Whether one of these ops is of all documents found.
pub fn has_multi(ops: &[OwnOp]) -> bool
    ensures { result ≡ has_multi ops.now }
{
    ops.iter().any(|own| own.multi)
}

/// What a build takes, by how many ops are fixed.
pub fn take_ops(
    alloc: Global,
    ops: &[OwnOp],
    fixed: Option<usize>,
    limits: &Limits,
) -> Result<Taken, AllocError>
    requires { IfSome fixed (λ statements. 0 < statements) }
    ensures { IfOk result (λ taken. EndsFront limits.now ops.now fixed taken) }
{
    match fixed {
        Some(fixed) => taken_again(alloc, ops, fixed, limits),
        None => taken_first(alloc, ops, limits),
    }
}

/// The same of a first build: it takes the longest front.
fn taken_first(alloc: Global, ops: &[OwnOp], limits: &Limits) -> Result<Taken, AllocError>
    ensures { IfOk result (λ taken. EndsFront limits.now ops.now None taken) }
{
    let front = longest_front(alloc, ops, limits)?;
    let count = front.ops.len();
    if count == 0 {
        drop(front);
        Ok(Taken::Stops(0))
    } else {
        Ok(Taken::Front(front))
    }
}

/// The same of a later one: it takes as many as the first, where so many go out.
fn taken_again(
    alloc: Global,
    ops: &[OwnOp],
    fixed: usize,
    limits: &Limits,
) -> Result<Taken, AllocError>
    requires { 0 < fixed }
    ensures { IfOk result (λ taken. EndsFront limits.now ops.now (Some fixed) taken) }
{
    let front = longest_front(alloc, first_ops(ops, fixed), limits)?;
    let count = front.ops.len();
    if count == fixed {
        Ok(Taken::Front(front))
    } else {
        drop(front);
        Ok(Taken::Stops(count))
    }
}

/// So many ops from the front, or all where there are fewer.
fn first_ops(ops: &[OwnOp], count: usize) -> &[OwnOp]
    ensures { result.now ≡ take count ops.now }
{
    if count < ops.len() {
        &ops[..count]
    } else {
        ops
    }
}

/// The longest front that fits, found while it is spelled: each op is looked at once, and its namespace is found
/// among those before by its text.
fn longest_front(alloc: Global, ops: &[OwnOp], limits: &Limits) -> Result<OpFront, AllocError>
    ensures { IfOk result (λ front. IsFoundFront limits.now ops.now front) }
{
    let mut numbers: HashMap<&str, usize> = HashMap::new(alloc);
    let mut front = no_ops(alloc);
    let mut total: u64 = 0;
    for i in 0..ops.len() {
        let own = &ops[i];
        let number = number_at(&numbers, own.namespace.as_str());
        match with_op(total, i as u64, added_bytes(number, own), limits) {
            Some(sum) => total = sum,
            None => return Ok(front),
        }
        let number = number_op(alloc, &mut numbers, &mut front, own, number)?;
        push_op(alloc, &mut front, own, number)?;
    }
    Ok(front)
}

/// The front of no ops.
fn no_ops(alloc: Global) -> OpFront
    ensures namespaces { result.namespaces ≡ [] }
    ensures ops { result.ops ≡ [] }
{
    OpFront {
        namespaces: List::new(alloc),
        ops: List::new(alloc),
    }
}

/// The number of a namespace, where it has one.
fn number_at(numbers: &HashMap<&str, usize>, text: &str) -> Option<usize>
    ensures { result ≡ hash.get_by (λ k. bytes_eq text.now k.now) numbers.now }
{
    numbers.get(text).copied()
}

/// Gives a namespace a number.
fn put_number<'a>(
    numbers: &mut HashMap<&'a str, usize>,
    text: &'a str,
    number: usize,
) -> Result<(), AllocError>
    ensures { OnOk result ((other : Listed ℕ) → hash.get_by (λ k. bytes_eq other k.now) numbers.new
        ≡ update bytes_eq (λ known. hash.get_by (λ k. bytes_eq known k.now) numbers.old)
        text.now (Some number) other) }
{
    numbers.insert(text, number)?;
    Ok(())
}

/// The bytes that an op adds, by the number that its namespace has.
#[tactic(auto, using(crate::proofs::BulkSizes::added_new))]
fn added_bytes(number: Option<usize>, own: &OwnOp) -> u128
    ensures { result ≡ added_bytes number own.now }
{
    let size = own.bytes.len() as u128;
    match number {
        Some(_) => size,
        None => size + own.namespace.len() as u128 + AROUND_TEXT,
    }
}

/// The bytes of a front together with those that the next op adds, where the two may go out together. The front has
/// `items` ops of `total` bytes together with its namespaces.
fn with_op(total: u64, items: u64, added: u128, limits: &Limits) -> Option<u64>
    ensures sum { IfSome result (λ sum. sum ≡ total + added) }
    ensures fits { IfSome result
        (λ sum. (items < limits.now.items) × (0 < limits.now.each) × (sum ≤ limits.now.bytes)) }
    ensures none { IfNone result
        (items < limits.now.items → 0 < limits.now.each → total + added ≤ limits.now.bytes → ⊥) }
{
    let bytes = limits.bytes;
    if items >= limits.items || limits.each == 0 {
        return None;
    }
    match u128::from(total).checked_add(added) {
        Some(sum) if sum <= u128::from(bytes) => Some(sum as u64),
        _ => None,
    }
}

/// The number of an op's namespace: the one that it has, else the next one, under which it is described.
fn number_op<'a>(
    alloc: Global,
    numbers: &mut HashMap<&'a str, usize>,
    front: &mut OpFront,
    own: &'a OwnOp,
    number: Option<usize>,
) -> Result<usize, AllocError>
    ensures { IfOk result (λ given. NumbersOp number own.now front.old front.new
        (λ text. hash.get_by (λ k. bytes_eq text k.now) numbers.old)
        (λ text. hash.get_by (λ k. bytes_eq text k.now) numbers.new) given) }
{
    match number {
        Some(number) => Ok(number),
        None => describe(alloc, numbers, front, own.namespace.as_str()),
    }
}

/// Gives a namespace the next number, and appends the document that describes it.
fn describe<'a>(
    alloc: Global,
    numbers: &mut HashMap<&'a str, usize>,
    front: &mut OpFront,
    text: &'a str,
) -> Result<usize, AllocError>
    ensures { IfOk result (λ given. Describes text.now front.old front.new
        (λ other. hash.get_by (λ k. bytes_eq other k.now) numbers.old)
        (λ other. hash.get_by (λ k. bytes_eq other k.now) numbers.new) given) }
{
    let number = front.namespaces.len();
    let document = described(alloc, text)?;
    front.namespaces.push(document)?;
    put_number(numbers, text, number)?;
    Ok(number)
}

/// The document that describes a namespace, in bytes. It says want of memory too where the text is too long for a
/// document, which that of no accepted write is.
fn described(alloc: Global, text: &str) -> Result<Bytes, AllocError>
    ensures { IfOk result (λ bytes. Spells (namespace_document text.now) bytes) }
{
    let mut document = Document::with_capacity(alloc, 1)?;
    document.push(keys::NAMESPACE, Bson::String(Text::from_str(alloc, text)?))?;
    match encode(alloc, &document) {
        Ok(bytes) => Ok(bytes),
        Err(_fault) => Err(AllocError),
    }
}

/// Appends an op on the namespace of a number.
fn push_op(alloc: Global, front: &mut OpFront, own: &OwnOp, number: usize) -> Result<(), AllocError>
    ensures { OnOk result (PushesOp own.now number front.old front.new) }
{
    let bytes = numbered(alloc, own.bytes.as_slice(), number)?;
    front.ops.push(bytes)
}

/// A copy of an op in bytes, with a number written where that of its namespace stands.
#[tactic(auto, using(crate::proofs::BulkNumbers::joined_parts))]
fn numbered(alloc: Global, op: &[u8], number: usize) -> Result<Bytes, AllocError>
    ensures { IfOk result (λ bytes. number < 2147483648 → bytes ≡ numbered number op.now) }
{
    let number = number_bytes(number);
    let mut bytes = Vec::with_capacity(alloc, op.len())?;
    bytes.extend_from_slice(before(op))?;
    bytes.extend_from_slice(&number)?;
    bytes.extend_from_slice(behind(op))?;
    Ok(Bytes::from_vec(bytes))
}

/// The bytes of a number that has 31 bits.
fn number_bytes(number: usize) -> [u8; 4]
    ensures { number < 2147483648 → result ≡ four number }
{
    match u32::try_from(number) {
        Ok(number) => number.to_le_bytes(),
        Err(_) => [0; 4],
    }
}

/// The bytes of an op before the number of its namespace.
#[tactic(auto, using(crate::proofs::BulkNumbers::before_short))]
fn before(op: &[u8]) -> &[u8]
    ensures { result.now ≡ take 12 op.now }
{
    if BEFORE_NUMBER < op.len() {
        &op[..BEFORE_NUMBER]
    } else {
        op
    }
}

/// The bytes of an op behind it.
#[tactic(auto, using(crate::proofs::BulkNumbers::behind_long, crate::proofs::BulkNumbers::behind_short))]
fn behind(op: &[u8]) -> &[u8]
    ensures { result.now ≡ drop 16 op.now }
{
    if BEHIND_NUMBER < op.len() {
        &op[BEHIND_NUMBER..]
    } else {
        &op[op.len()..]
    }
}

/// Whether the namespaces of a front have numbers of 31 bits.
pub fn is_numbered(front: &OpFront) -> bool
    ensures { IsTrue result ↔ (length front.now.namespaces ≤ 2147483648) }
{
    front.namespaces.len() as u64 <= MOST_NAMESPACES
}

/// The error of a server that is too old.
#[tactic(auto, unfolding(crate::specs::BulkFronts::old_server_text))]
pub fn old_server(alloc: Global) -> Error
    ensures { IsMade (IncompatibleServer old_server_text) no_labels result }
{
    match Text::from_str(
        alloc,
        "the bulk write feature is only supported on MongoDB 8.0+",
    ) {
        Ok(message) => Error::from_kind(ErrorKind::IncompatibleServer { message }),
        Err(_refused) => Error::from_kind(ErrorKind::Memory),
    }
}

/// The error of a namespace's number that is past its end.
#[tactic(auto, unfolding(crate::specs::BulkFronts::number_text))]
pub fn past_numbers(alloc: Global) -> Error
    ensures { IsMade (Internal number_text) no_labels result }
{
    match Text::from_str(alloc, "nsInfo index exceeds i32::MAX") {
        Ok(message) => Error::from_kind(ErrorKind::Internal { message }),
        Err(_refused) => Error::from_kind(ErrorKind::Memory),
    }
}

/// The error of a build, where the op at a position does not go out. The first of the ops is that of the caller's
/// model at the index `first`.
pub fn oversized_op(alloc: Global, first: usize, at: usize) -> Error
    ensures { IsMade (InvalidArgument (op_text (first + at))) no_labels result }
{
    match op_text(alloc, first as u128 + at as u128) {
        Ok(message) => Error::from_kind(ErrorKind::InvalidArgument { message }),
        Err(_refused) => Error::from_kind(ErrorKind::Memory),
    }
}

/// The message about an op that fits into no command.
fn op_text(alloc: Global, index: u128) -> Result<Text, AllocError>
    ensures { IfOk result (λ text. text ≡ op_text index) }
{
    let mut text = String::new(alloc);
    push_op_text(&mut text, index)?;
    Ok(Text::from_string(text))
}

/// Appends the same.
#[tactic(auto, unfolding(crate::specs::BulkFronts::op_text))]
fn push_op_text(out: &mut String, index: u128) -> Result<(), AllocError>
    ensures { OnOk result (string_bytes out.new ≡ string_bytes out.old ++ op_text index) }
{
    write!(out, "operation at index {index} exceeds the maximum size")?;
    Ok(())
}
