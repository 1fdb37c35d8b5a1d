//! Readers of numbers, and of the values that hold no other.
ghost use Rattle.std.specs.Prelude.{◌≡◌};
ghost use Rattle.script_parts.specs.Json.{GivesPart};
ghost use Rattle.script_parts.specs.Values.{tagged_leaf, whole_of, small_of, count_of, code_of, stamp_of, sized_of, bytes_of, whole_number};
ghost use Rattle.script_parts.specs.inside.Tree.{view};

use crate::forms::Unread;
use crate::keys::{BYTES, DATE, DOUBLE, INT64, OID, TS};
use crate::tree::Json;
use bson_lite::{Binary, Bson, Bytes, ObjectId, Timestamp};
use hex::{FromHex, FromHexError};
use std::alloc::Global;

/// A value that holds no other, under a key which says what it is.
#[tactic(auto, unfolding(crate::specs::Values::tagged_leaf))]
pub fn read_leaf(alloc: Global, key: &str, value: &Json<'_, '_>) -> Result<Bson, Unread>
    ensures { GivesPart result (tagged_leaf key.now (view value.now)) }
{
    if key == INT64 {
        return Ok(Bson::Int64(whole(value)?));
    }
    if key == DATE {
        return Ok(Bson::DateTime(whole(value)?));
    }
    if key == TS {
        return Ok(Bson::Timestamp(stamp(value)?));
    }
    if key == OID {
        let bytes = sized::<12>(value)?;
        return Ok(Bson::ObjectId(ObjectId { bytes }));
    }
    if key == DOUBLE {
        return Ok(Bson::Double(sized::<8>(value)?));
    }
    if key == BYTES {
        let bytes = read_bytes(alloc, value)?;
        return Ok(Bson::Binary(Binary { subtype: 0, bytes }));
    }
    Err(Unread::Wrong)
}

/// A whole number of 64 bits with a sign.
#[tactic(auto, unfolding(crate::specs::Values::whole_of))]
pub fn whole(value: &Json<'_, '_>) -> Result<i64, Unread>
    ensures { GivesPart result (whole_of (view value.now)) }
{
    match value.as_i64() {
        Some(number) => Ok(number),
        None => Err(Unread::Wrong),
    }
}

/// A number of 32 bits without a sign.
#[tactic(auto, unfolding(crate::specs::Values::small_of))]
pub fn small(value: &Json<'_, '_>) -> Result<u32, Unread>
    ensures { GivesPart result (small_of (view value.now)) }
{
    let Some(number) = value.as_u64() else {
        return Err(Unread::Wrong);
    };
    match u32::try_from(number) {
        Ok(small) => Ok(small),
        Err(_) => Err(Unread::Wrong),
    }
}

/// A whole number of 64 bits without a sign.
#[tactic(auto, unfolding(crate::specs::Values::count_of))]
pub fn count(value: &Json<'_, '_>) -> Result<u64, Unread>
    ensures { GivesPart result (count_of (view value.now)) }
{
    match value.as_u64() {
        Some(number) => Ok(number),
        None => Err(Unread::Wrong),
    }
}

/// A code: a whole number of 32 bits with a sign.
#[tactic(auto, unfolding(crate::specs::Values::code_of))]
pub fn code(value: &Json<'_, '_>) -> Result<i32, Unread>
    ensures { GivesPart result (code_of (view value.now)) }
{
    let Some(number) = value.as_i64() else {
        return Err(Unread::Wrong);
    };
    match i32::try_from(number) {
        Ok(code) => Ok(code),
        Err(_) => Err(Unread::Wrong),
    }
}

/// A time and an increment, as a list of the two.
#[tactic(auto, unfolding(crate::specs::Values::stamp_of, crate::specs::Values::item_of))]
fn stamp(value: &Json<'_, '_>) -> Result<Timestamp, Unread>
    ensures { GivesPart result (stamp_of (view value.now)) }
{
    if value.at(2).is_some() {
        return Err(Unread::Wrong);
    }
    let (Some(time), Some(increment)) = (value.at(0), value.at(1)) else {
        return Err(Unread::Wrong);
    };
    Ok(Timestamp {
        time: small(&time)?,
        increment: small(&increment)?,
    })
}

/// So many bytes, two hexadecimal digits of either case for each.
#[tactic(auto, unfolding(crate::specs::Values::sized_of), using(crate::proofs::OtherForms::not_sized))]
fn sized<const N: usize>(value: &Json<'_, '_>) -> Result<[u8; N], Unread>
    ensures { GivesPart result (sized_of N (view value.now)) }
{
    let Some(text) = value.as_str() else {
        return Err(Unread::Wrong);
    };
    match <[u8; N] as FromHex>::from_hex(text) {
        Ok(bytes) => Ok(bytes),
        Err(_) => Err(Unread::Wrong),
    }
}

/// Bytes of any number, two hexadecimal digits of either case for each.
#[tactic(auto, unfolding(crate::specs::Values::bytes_of), using(crate::proofs::OtherForms::no_bytes))]
fn read_bytes(alloc: Global, value: &Json<'_, '_>) -> Result<Bytes, Unread>
    ensures { GivesPart result (bytes_of (view value.now)) }
{
    let Some(text) = value.as_str() else {
        return Err(Unread::Wrong);
    };
    match hex::decode(alloc, text) {
        Ok(bytes) => Ok(Bytes::from_vec(bytes)),
        Err(FromHexError::OutOfMemory) => Err(Unread::Memory),
        Err(_) => Err(Unread::Wrong),
    }
}

/// An `Int32` where the number fits, else an `Int64`.
#[tactic(auto, unfolding(crate::specs::Values::whole_number))]
pub fn integer(number: i64) -> Bson
    ensures { result ≡ whole_number number }
{
    match i32::try_from(number) {
        Ok(small) => Bson::Int32(small),
        Err(_) => Bson::Int64(number),
    }
}
