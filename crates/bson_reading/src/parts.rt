//! Readers of the parts of a document. Each answers the part and the bytes after it.
ghost use Rattle.std.specs.Prelude.{◌≡◌, ◌+◌, ◌≤◌, ℕ, List, ◌∷◌, ◌++◌, length, position, ◌==◌, IfNone, IfOk, IfSome};
ghost use Rattle.std.specs.Int.{w32, w64};
ghost use Rattle.bson_lite.specs.Parts.{some_at, byte_at, number_at, utf8_of, zero_ended, text_at, binary_at, regex_at, stamp_at, flag_at, leaf_at, more_at, type_at, place_at, frame_at};
ghost use Rattle.bson_lite.specs.Reading.{Gives, or_at};

use bson_lite::boxed::Boxed;
use bson_lite::bson::{Binary, Bson, ObjectId, Regex, Timestamp};
use bson_lite::fault::DecodeFault;
use bson_lite::text::{Bytes, Text};
use itoa::Buffer;
use std::alloc::Global;

/// The greatest length that the format can state.
pub(crate) const LIMIT: u32 = 2_147_483_647;

/// The first bytes, so many.
#[inline(always)]
#[tactic(auto, unfolding(bson_lite::specs::Parts::some_at))]
fn bytes_of(at: usize, count: usize, bytes: &[u8]) -> Result<(&[u8], &[u8]), DecodeFault>
    ensures gives { Gives (λ x. (x.0.now, x.1.now)) result (or_at at (some_at count bytes.now)) }
    ensures parts { IfOk result (λ x. length x.0.now + length x.1.now ≡ length bytes.now) }
{
    if bytes.len() < count {
        return Err(DecodeFault::At { offset: at });
    }
    let (part, rest) = bytes.split_at(count);
    Ok((part, rest))
}

/// The first byte.
#[inline(always)]
#[tactic(auto, unfolding(bson_lite::specs::Parts::byte_at))]
pub(crate) fn byte_of(at: usize, bytes: &[u8]) -> Result<(u8, &[u8]), DecodeFault>
    ensures gives { Gives (λ x. (x.0, x.1.now)) result (or_at at (byte_at bytes.now)) }
    ensures shorter { IfOk result (λ x. length x.1.now + 1 ≤ length bytes.now) }
{
    match bytes {
        [] => Err(DecodeFault::At { offset: at }),
        [byte, rest @ ..] => Ok((*byte, rest)),
    }
}

/// A number of 32 bits, its low byte first.
#[inline(always)]
#[tactic(auto, unfolding(bson_lite::specs::Parts::number_at, bson_lite::specs::Parts::number_of, bson_lite::specs::Parts::some_at))]
fn u32_of(at: usize, bytes: &[u8]) -> Result<(u32, &[u8]), DecodeFault>
    ensures gives { Gives (λ x. (x.0, x.1.now)) result (or_at at (number_at w32 bytes.now)) }
    ensures shorter { IfOk result (λ x. length x.1.now + 4 ≤ length bytes.now) }
{
    match bytes.split_first_chunk::<4>() {
        None => Err(DecodeFault::At { offset: at }),
        Some((chunk, rest)) => Ok((u32::from_le_bytes(*chunk), rest)),
    }
}

/// A number of 64 bits, its low byte first.
#[inline(always)]
#[tactic(auto, unfolding(bson_lite::specs::Parts::number_at, bson_lite::specs::Parts::number_of, bson_lite::specs::Parts::some_at))]
fn u64_of(at: usize, bytes: &[u8]) -> Result<(u64, &[u8]), DecodeFault>
    ensures gives { Gives (λ x. (x.0, x.1.now)) result (or_at at (number_at w64 bytes.now)) }
    ensures shorter { IfOk result (λ x. length x.1.now + 8 ≤ length bytes.now) }
{
    match bytes.split_first_chunk::<8>() {
        None => Err(DecodeFault::At { offset: at }),
        Some((chunk, rest)) => Ok((u64::from_le_bytes(*chunk), rest)),
    }
}

/// Bytes as text, where they are UTF-8.
fn utf8_of(at: usize, bytes: &[u8]) -> Result<&str, DecodeFault>
    ensures { Gives (λ x. x.now) result (or_at at (utf8_of bytes.now)) }
{
    match str::from_utf8(bytes) {
        Ok(text) => Ok(text),
        Err(_) => Err(DecodeFault::At { offset: at }),
    }
}

/// Where the first zero byte stands.
#[inline(always)]
pub(crate) fn zero_place(bytes: &[u8]) -> Option<usize>
    ensures { result ≡ position (λ byte. byte == 0) bytes.now }
{
    bytes.iter().position(|byte| *byte == 0)
}

/// A text that a zero byte ends, as keys are.
#[inline(always)]
#[tactic(auto, unfolding(bson_lite::specs::Parts::zero_ended))]
pub(crate) fn zero_ended_of(at: usize, bytes: &[u8]) -> Result<(&str, &[u8]), DecodeFault>
    ensures gives { Gives (λ x. (x.0.now, x.1.now)) result (or_at at (zero_ended bytes.now)) }
    ensures shorter { IfOk result (λ x. length x.1.now + 1 ≤ length bytes.now) }
{
    let Some(place) = zero_place(bytes) else {
        return Err(DecodeFault::At { offset: at });
    };
    let (text, rest) = bytes.split_at(place);
    let (_, rest) = rest.split_at(1);
    let text = utf8_of(at, text)?;
    Ok((text, rest))
}

/// A text with its length before it and a zero byte behind it.
#[inline(always)]
#[tactic(auto, unfolding(bson_lite::specs::Parts::text_at))]
fn text_of(alloc: Global, at: usize, bytes: &[u8]) -> Result<(Text, &[u8]), DecodeFault>
    ensures gives { Gives (λ x. (x.0, x.1.now)) result (or_at at (text_at bytes.now)) }
    ensures shorter { IfOk result (λ x. length x.1.now ≤ length bytes.now) }
{
    let (count, rest) = u32_of(at, bytes)?;
    if count == 0 || count > LIMIT {
        return Err(DecodeFault::At { offset: at });
    }
    let (part, rest) = bytes_of(at, count as usize - 1, rest)?;
    let (last, rest) = byte_of(at, rest)?;
    if last != 0 {
        return Err(DecodeFault::At { offset: at });
    }
    let text = utf8_of(at, part)?;
    Ok((Text::from_str(alloc, text)?, rest))
}

/// Bytes with their length and their subtype before them.
#[tactic(auto, unfolding(bson_lite::specs::Parts::binary_at))]
fn binary_of(alloc: Global, at: usize, bytes: &[u8]) -> Result<(Binary, &[u8]), DecodeFault>
    ensures gives { Gives (λ x. (x.0, x.1.now)) result (or_at at (binary_at bytes.now)) }
    ensures shorter { IfOk result (λ x. length x.1.now ≤ length bytes.now) }
{
    let (count, rest) = u32_of(at, bytes)?;
    if count > LIMIT {
        return Err(DecodeFault::At { offset: at });
    }
    let (subtype, rest) = byte_of(at, rest)?;
    let (part, rest) = bytes_of(at, count as usize, rest)?;
    let bytes = Bytes::from_slice(alloc, part)?;
    Ok((Binary { subtype, bytes }, rest))
}

/// A regular expression: its pattern and its options.
#[tactic(auto, unfolding(bson_lite::specs::Parts::regex_at))]
fn regex_of(alloc: Global, at: usize, bytes: &[u8]) -> Result<(Regex, &[u8]), DecodeFault>
    ensures gives { Gives (λ x. (x.0, x.1.now)) result (or_at at (regex_at bytes.now)) }
    ensures shorter { IfOk result (λ x. length x.1.now ≤ length bytes.now) }
{
    let (pattern, rest) = zero_ended_of(at, bytes)?;
    let (options, rest) = zero_ended_of(at, rest)?;
    let pattern = Text::from_str(alloc, pattern)?;
    let options = Text::from_str(alloc, options)?;
    Ok((Regex { pattern, options }, rest))
}

/// A timestamp: its increment, then its time.
#[tactic(auto, unfolding(bson_lite::specs::Parts::stamp_at))]
fn stamp_of(at: usize, bytes: &[u8]) -> Result<(Timestamp, &[u8]), DecodeFault>
    ensures gives { Gives (λ x. (x.0, x.1.now)) result (or_at at (stamp_at bytes.now)) }
    ensures shorter { IfOk result (λ x. length x.1.now ≤ length bytes.now) }
{
    let (increment, rest) = u32_of(at, bytes)?;
    let (time, rest) = u32_of(at, rest)?;
    Ok((Timestamp { time, increment }, rest))
}

/// A boolean, of which two bytes are one.
#[tactic(auto, unfolding(bson_lite::specs::Parts::flag_at))]
fn flag_of(at: usize, bytes: &[u8]) -> Result<(bool, &[u8]), DecodeFault>
    ensures gives { Gives (λ x. (x.0, x.1.now)) result (or_at at (flag_at bytes.now)) }
    ensures shorter { IfOk result (λ x. length x.1.now ≤ length bytes.now) }
{
    let (byte, rest) = byte_of(at, bytes)?;
    match byte {
        0 => Ok((false, rest)),
        1 => Ok((true, rest)),
        _ => Err(DecodeFault::At { offset: at }),
    }
}

/// An object id.
#[inline(always)]
fn id_of(at: usize, bytes: &[u8]) -> Result<(ObjectId, &[u8]), DecodeFault>
    ensures gives { Gives (λ x. (x.0.bytes, x.1.now)) result (or_at at (some_at 12 bytes.now)) }
    ensures shorter { IfOk result (λ x. length x.1.now ≤ length bytes.now) }
{
    let (bytes, rest) = chunk_of::<12>(at, bytes)?;
    Ok((ObjectId { bytes }, rest))
}

/// The first bytes, as many as an array holds.
#[inline(always)]
#[tactic(auto, unfolding(bson_lite::specs::Parts::some_at))]
fn chunk_of<const N: usize>(at: usize, bytes: &[u8]) -> Result<([u8; N], &[u8]), DecodeFault>
    ensures gives { Gives (λ x. (x.0, x.1.now)) result (or_at at (some_at N bytes.now)) }
    ensures shorter { IfOk result (λ x. length x.1.now ≤ length bytes.now) }
{
    match bytes.split_first_chunk::<N>() {
        None => Err(DecodeFault::At { offset: at }),
        Some((chunk, rest)) => Ok((*chunk, rest)),
    }
}

/// The byte of a type that is known.
#[tactic(auto, unfolding(bson_lite::specs::Parts::type_at))]
pub(crate) fn type_of(at: usize, bytes: &[u8]) -> Result<(u8, &[u8]), DecodeFault>
    ensures gives { Gives (λ x. (x.0, x.1.now)) result (or_at at (type_at bytes.now)) }
    ensures shorter { IfOk result (λ x. length x.1.now + 1 ≤ length bytes.now) }
{
    let (byte, rest) = byte_of(at, bytes)?;
    match byte {
        1..=11 | 13 | 14 | 16..=19 | 127 | 255 => Ok((byte, rest)),
        _ => Err(DecodeFault::At { offset: at }),
    }
}

/// The key of an array's value, which is its place in decimal. Digits are UTF-8 without a zero byte, so none is
/// looked for.
#[tactic(auto, using(crate::proofs::Places::behind_shorter))]
pub(crate) fn place_of(at: usize, place: usize, bytes: &[u8]) -> Result<&[u8], DecodeFault>
    ensures gives { Gives (λ x. x.now) result (or_at at (place_at place bytes.now)) }
    ensures shorter { IfOk result (λ x. length x.now + 1 ≤ length bytes.now) }
{
    let mut buffer = Buffer::new();
    match behind_key(buffer.format(place).as_bytes(), bytes) {
        Some(rest) => Ok(rest),
        None => Err(DecodeFault::At { offset: at }),
    }
}

/// What stands behind this key and the zero byte that ends it, where bytes begin with both.
#[inline(always)]
fn behind_key<'a>(key: &[u8], bytes: &'a [u8]) -> Option<&'a [u8]>
    ensures some { IfSome result (λ rest. bytes.now ≡ key.now ++ 0 ∷ rest.now) }
    ensures none { IfNone result ((rest : List ℕ) → bytes.now ≡ key.now ++ 0 ∷ rest → ⊥) }
{
    match bytes.strip_prefix(key) {
        None => None,
        Some(behind) => behind_zero(behind),
    }
}

/// What stands behind a zero byte, where bytes begin with one.
#[inline(always)]
fn behind_zero(bytes: &[u8]) -> Option<&[u8]>
    ensures some { IfSome result (λ rest. bytes.now ≡ 0 ∷ rest.now) }
    ensures none { IfNone result ((rest : List ℕ) → bytes.now ≡ 0 ∷ rest → ⊥) }
{
    match bytes {
        [] => None,
        [byte, rest @ ..] => if *byte == 0 { Some(rest) } else { None },
    }
}

/// A document in its frame: the bytes of its pairs, and its last byte.
#[tactic(auto, unfolding(bson_lite::specs::Parts::frame_at))]
pub(crate) fn frame_of(at: usize, bytes: &[u8]) -> Result<(&[u8], u8, &[u8]), DecodeFault>
    ensures gives { Gives (λ x. (record { elements = x.0.now; last = x.1 }, x.2.now)) result
        (or_at at (frame_at bytes.now)) }
    ensures shorter { IfOk result (λ x. length x.0.now + length x.2.now + 5 ≤ length bytes.now) }
{
    let (count, rest) = u32_of(at, bytes)?;
    if count < 5 || count > LIMIT {
        return Err(DecodeFault::At { offset: at });
    }
    let (part, rest) = bytes_of(at, count as usize - 5, rest)?;
    let (last, rest) = byte_of(at, rest)?;
    Ok((part, last, rest))
}

/// A value of a type that holds no others.
#[inline(always)]
#[tactic(auto, unfolding(bson_lite::specs::Parts::leaf_at))]
pub(crate) fn leaf_of(
    alloc: Global,
    at: usize,
    kind: u8,
    bytes: &[u8],
) -> Result<(Bson, &[u8]), DecodeFault>
    ensures gives { Gives (λ x. (x.0, x.1.now)) result (or_at at (leaf_at kind bytes.now)) }
    ensures shorter { IfOk result (λ x. length x.1.now ≤ length bytes.now) }
{
    match kind {
        1 => {
            let (double, rest) = chunk_of::<8>(at, bytes)?;
            Ok((Bson::Double(double), rest))
        }
        2 => {
            let (text, rest) = text_of(alloc, at, bytes)?;
            Ok((Bson::String(text), rest))
        }
        5 => {
            let (binary, rest) = binary_of(alloc, at, bytes)?;
            Ok((Bson::Binary(binary), rest))
        }
        6 => Ok((Bson::Undefined, bytes)),
        7 => {
            let (id, rest) = id_of(at, bytes)?;
            Ok((Bson::ObjectId(id), rest))
        }
        8 => {
            let (flag, rest) = flag_of(at, bytes)?;
            Ok((Bson::Boolean(flag), rest))
        }
        9 => {
            let (millis, rest) = u64_of(at, bytes)?;
            Ok((Bson::DateTime(millis.cast_signed()), rest))
        }
        10 => Ok((Bson::Null, bytes)),
        _ => later_leaf_of(alloc, at, kind, bytes),
    }
}

/// The same of the types with the greater numbers.
#[inline(always)]
#[tactic(auto, unfolding(bson_lite::specs::Parts::more_at))]
fn later_leaf_of(
    alloc: Global,
    at: usize,
    kind: u8,
    bytes: &[u8],
) -> Result<(Bson, &[u8]), DecodeFault>
    ensures gives { Gives (λ x. (x.0, x.1.now)) result (or_at at (more_at kind bytes.now)) }
    ensures shorter { IfOk result (λ x. length x.1.now ≤ length bytes.now) }
{
    match kind {
        11 => {
            let (regex, rest) = regex_of(alloc, at, bytes)?;
            Ok((Bson::RegularExpression(Boxed::new(alloc, regex)?), rest))
        }
        13 => {
            let (code, rest) = text_of(alloc, at, bytes)?;
            Ok((Bson::JavaScriptCode(code), rest))
        }
        14 => {
            let (symbol, rest) = text_of(alloc, at, bytes)?;
            Ok((Bson::Symbol(symbol), rest))
        }
        16 => {
            let (number, rest) = u32_of(at, bytes)?;
            Ok((Bson::Int32(number.cast_signed()), rest))
        }
        17 => {
            let (stamp, rest) = stamp_of(at, bytes)?;
            Ok((Bson::Timestamp(stamp), rest))
        }
        18 => {
            let (number, rest) = u64_of(at, bytes)?;
            Ok((Bson::Int64(number.cast_signed()), rest))
        }
        19 => {
            let (decimal, rest) = chunk_of::<16>(at, bytes)?;
            Ok((Bson::Decimal128(decimal), rest))
        }
        255 => Ok((Bson::MinKey, bytes)),
        127 => Ok((Bson::MaxKey, bytes)),
        _ => Err(DecodeFault::At { offset: at }),
    }
}
