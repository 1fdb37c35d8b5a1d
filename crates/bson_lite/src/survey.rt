//! One walk over a document: where zero bytes stand, and how long its spelling is.
ghost use Rattle.std.specs.Prelude.{◌≡◌, ◌≤◌, ◌+◌, ◌-◌, ◌^◌, ◌||◌, ◌∷◌, ◌++◌, [], min, true, nat_lt, length, map, decimal, None, Some, IfOk, IfErr};
ghost use Rattle.std.specs.Str.{is_utf8};
ghost use Rattle.bson_lite.specs.Ranges.{fits};
ghost use Rattle.bson_lite.specs.Spelling.{HasSpelling, refusal_within, spelled, spelling, zero_within, zero_in, zero_in_values, holds_zero, valid, valid_pairs, valid_values, body_of, numbered, counted};

use crate::bson::{Bson, ObjectId, Timestamp};
use crate::deeper::nests_deeper;
use crate::document::{Document, Pair};
use crate::fault::EncodeFault;
use crate::key::Key;
use crate::text::Text;
use itoa::Buffer;

/// The greatest length that the format can state.
const LIMIT: u64 = 2_147_483_647;

/// The length of a document's spelling, or the greatest number where it is larger. It takes no
/// memory. A document that nests too deep is walked too, since it has a length all the same.
pub fn encoded_len(document: &Document) -> u64
    ensures { result ≡ min (length (spelling document.now)) (2 ^ 64 - 1) }
{
    let mut met = false;
    survey_pairs(document.pairs(), &mut met).saturating_add(5)
}

/// The length of a document's spelling, or why it has none where it may nest so many levels deep.
pub(crate) fn surveyed(document: &Document, levels: u32) -> Result<usize, EncodeFault>
    requires { levels ≤ 100 }
    ensures length { IfOk result (λ count. count ≡ length (spelling document.now)) }
    ensures has { IfOk result (λ _. HasSpelling document.now) }
    ensures none { IfOk result (λ _. refusal_within levels document.now ≡ None) }
    ensures why { IfErr result (λ fault. refusal_within levels document.now ≡ Some fault) }
{
    if nests_deeper(document, levels) {
        return Err(EncodeFault::TooDeep);
    }
    let mut met = false;
    let length = survey_pairs(document.pairs(), &mut met).saturating_add(5);
    if met {
        return Err(EncodeFault::ZeroByte);
    }
    if length > LIMIT {
        return Err(EncodeFault::TooLong);
    }
    Ok(length as usize)
}

/// Why a document is refused where it may nest so many levels deep, the document itself counting 1: as
/// `encode` would refuse it, but for the depth. It takes no memory, and walks no deeper than these levels.
pub fn refusal_within(document: &Document, levels: u32) -> Option<EncodeFault>
    ensures { result ≡ refusal_within levels document.now }
{
    if nests_deeper(document, levels) {
        return Some(EncodeFault::TooDeep);
    }
    let mut met = false;
    let length = survey_pairs(document.pairs(), &mut met).saturating_add(5);
    if met {
        Some(EncodeFault::ZeroByte)
    } else if length > LIMIT {
        Some(EncodeFault::TooLong)
    } else {
        None
    }
}

/// The length of a document's elements. A zero byte where none may stand is noted as met.
#[cycle(survey)]
fn survey_pairs(pairs: &[Pair<Bson>], met: &mut bool) -> u64
    ensures zero { met.new ≡ (met.old || zero_in pairs.now) }
    ensures length { result ≡ min (length (body_of pairs.now)) (2 ^ 64 - 1) }
    ensures well_formed { valid_pairs pairs.now ≡ true }
{
    let mut length = 0u64;
    for pair in pairs {
        note_key(pair.key.as_str(), met);
        let value = survey_value(&pair.value, met);
        length = with_element(length, head_len(&pair.key), value);
    }
    length
}

/// The length of an array's elements.
#[cycle(survey)]
fn survey_values(values: &[Bson], met: &mut bool) -> u64
    ensures zero { met.new ≡ (met.old || zero_in_values (map zero_within values.now)) }
    ensures length { result ≡ min (length (numbered 0 (map spelled values.now))) (2 ^ 64 - 1) }
    ensures well_formed { valid_values (map valid values.now) ≡ true }
{
    let mut length = 0u64;
    for (place, item) in values.iter().enumerate() {
        let value = survey_value(item, met);
        length = with_element(length, place_len(place), value);
    }
    length
}

/// The length of a value.
#[cycle(survey)]
fn survey_value(value: &Bson, met: &mut bool) -> u64
    ensures zero { met.new ≡ (met.old || zero_within value.now) }
    ensures length { result ≡ min (length (spelled value.now).1) (2 ^ 64 - 1) }
    ensures well_formed { valid value.now ≡ true }
{
    match value {
        Bson::Document(document) => survey_pairs(document.pairs(), met).saturating_add(5),
        Bson::Array(values) => survey_values(values.as_slice(), met).saturating_add(5),
        Bson::RegularExpression(regex) => {
            let regex = regex.get();
            note_key(regex.pattern.as_str(), met);
            note_key(regex.options.as_str(), met);
            two_len(&regex.pattern, &regex.options)
        }
        Bson::Double(double) => double_len(double),
        Bson::String(text) | Bson::JavaScriptCode(text) | Bson::Symbol(text) => text_len(text),
        Bson::Binary(binary) => (binary.bytes.len() as u64).saturating_add(5),
        Bson::ObjectId(id) => id_len(id),
        Bson::Boolean(_) => 1,
        Bson::DateTime(number) | Bson::Int64(number) => int64_len(*number),
        Bson::Int32(number) => int32_len(*number),
        Bson::Timestamp(stamp) => stamp_len(*stamp),
        Bson::Decimal128(decimal) => decimal_len(decimal),
        Bson::Undefined | Bson::Null | Bson::MinKey | Bson::MaxKey => 0,
    }
}

/// Notes whether a text that must not hold a zero byte holds one.
fn note_key(text: &str, met: &mut bool)
    ensures { met.new ≡ (met.old || holds_zero text.now) }
{
    if has_zero(text) {
        *met = true;
    }
}

/// The length with one more element: a type byte and a key with a zero byte at its end, then a value.
fn with_element(length: u64, head: u64, value: u64) -> u64
    ensures { result ≡ min (length + head + value) (2 ^ 64 - 1) }
{
    length.saturating_add(head).saturating_add(value)
}

fn has_zero(text: &str) -> bool
    ensures { result ≡ holds_zero text.now }
{
    text.as_bytes().iter().any(|byte| *byte == 0)
}

fn byte_len(text: &Text) -> usize
    ensures length { result ≡ length text.now }
    ensures utf8 { is_utf8 text.now ≡ true }
{
    text.as_str().len()
}

/// The length of a type byte and a key with a zero byte at its end.
fn head_len(key: &Key) -> u64
    ensures length { result ≡ length key.now + 2 }
    ensures utf8 { is_utf8 key.now ≡ true }
{
    key.as_str().len() as u64 + 2
}

/// The same where the key is a place in an array.
fn place_len(place: usize) -> u64
    ensures { result ≡ length (decimal place) + 2 }
{
    let mut buffer = Buffer::new();
    buffer.format(place).len() as u64 + 2
}

fn text_len(text: &Text) -> u64
    ensures length { result ≡ min (length (counted text.now)) (2 ^ 64 - 1) }
    ensures utf8 { is_utf8 text.now ≡ true }
{
    (byte_len(text) as u64).saturating_add(5)
}

/// The length of two texts with a zero byte at the end of each.
fn two_len(first: &Text, second: &Text) -> u64
    ensures length { result ≡ min (length (first.now ++ 0 ∷ (second.now ++ 0 ∷ []))) (2 ^ 64 - 1) }
    ensures first_utf8 { is_utf8 first.now ≡ true }
    ensures second_utf8 { is_utf8 second.now ≡ true }
{
    (byte_len(first) as u64)
        .saturating_add(byte_len(second) as u64)
        .saturating_add(2)
}

fn double_len(double: &[u8; 8]) -> u64
    ensures length { result ≡ length double.now }
    ensures eight { result ≡ 8 }
{
    double.len() as u64
}

fn decimal_len(decimal: &[u8; 16]) -> u64
    ensures length { result ≡ length decimal.now }
    ensures sixteen { result ≡ 16 }
{
    decimal.len() as u64
}

fn id_len(id: &ObjectId) -> u64
    ensures length { result ≡ length id.now.bytes }
    ensures twelve { result ≡ 12 }
{
    id.bytes.len() as u64
}

/// The length of a number of 64 bits, which is looked at for its range alone.
fn int64_len(number: i64) -> u64
    ensures length { result ≡ 8 }
    ensures in_range { fits 0x8000_0000_0000_0000 number ≡ true }
{
    8
}

/// The length of a number of 32 bits, looked at for its range.
fn int32_len(number: i32) -> u64
    ensures length { result ≡ 4 }
    ensures in_range { fits 0x8000_0000 number ≡ true }
{
    4
}

/// The length of two numbers of 32 bits, looked at for their ranges.
fn stamp_len(stamp: Timestamp) -> u64
    ensures length { result ≡ 8 }
    ensures time { nat_lt stamp.time 4294967296 ≡ true }
    ensures increment { nat_lt stamp.increment 4294967296 ≡ true }
{
    8
}
