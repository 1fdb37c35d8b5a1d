//! From a document to its bytes, which are all there before the first is written.
ghost use Rattle.std.specs.Prelude.{◌≡◌, ◌+◌, ◌%◌, ◌≤◌, ◌++◌, ◌∷◌, [], None, length, take, drop, map};
ghost use Rattle.bson_lite.specs.Fields.{id_element, id_key, value_of, with_id};
ghost use Rattle.bson_lite.specs.Spelling.{Encodes, EncodesWithin, refusal, spelled, framed, counted, four, body_of, numbered};
ghost use Rattle.bson_lite.specs.Writing.{HasRoom, Puts};

use crate::bson::{Binary, Bson, ObjectId, Regex, Timestamp};
use crate::document::{Document, Pair};
use crate::fault::EncodeFault;
use crate::fields::ID_KEY;
use crate::survey::surveyed;
use crate::text::{Bytes, Text};
use itoa::Buffer;
use std::alloc::Global;

/// The levels that a document may nest, the document itself counting 1.
const LEVELS: u32 = 100;

/// The length that the element of an object id adds to a document.
const ID_LENGTH: usize = 17;

/// The greatest length that the format can state.
const LONGEST: usize = 2_147_483_647;

/// The one spelling of a document.
#[tactic(auto, using(crate::proofs::Named::of_hundred))]
pub fn encode(alloc: Global, document: &Document) -> Result<Bytes, EncodeFault>
    ensures { Encodes document.now result }
{
    encode_within(alloc, document, LEVELS)
}

/// The same where a document may nest so many levels deep, as one that is to stand in another.
pub fn encode_within(alloc: Global, document: &Document, levels: u32) -> Result<Bytes, EncodeFault>
    requires { levels ≤ 100 }
    ensures { EncodesWithin levels document.now result }
{
    let length = surveyed(document, levels)?;
    let mut out = vec![in alloc; 0; length]?;
    put_document(out.as_mut_slice(), 0, document.pairs());
    Ok(Bytes::from_vec(out))
}

/// The one spelling of a document once it has this id: put first, unless the document has one of its own.
#[tactic(auto, using(crate::proofs::Named::of_hundred))]
pub fn encode_with_id(
    alloc: Global,
    document: &Document,
    id: &ObjectId,
) -> Result<Bytes, EncodeFault>
    ensures { Encodes (with_id id.now document.now) result }
{
    encode_with_id_within(alloc, document, id, LEVELS)
}

/// The same where a document may nest so many levels deep, as one that is to stand in another.
pub fn encode_with_id_within(
    alloc: Global,
    document: &Document,
    id: &ObjectId,
    levels: u32,
) -> Result<Bytes, EncodeFault>
    requires { levels ≤ 100 }
    ensures { EncodesWithin levels (with_id id.now document.now) result }
{
    match document.get(ID_KEY) {
        Some(_) => encode_within(alloc, document, levels),
        None => encode_named(alloc, document, id, levels),
    }
}

/// Why `encode` refuses a document, if it does. It takes no memory.
pub fn encode_refusal(document: &Document) -> Option<EncodeFault>
    ensures { result ≡ refusal document.now }
{
    match surveyed(document, LEVELS) {
        Ok(_) => None,
        Err(fault) => Some(fault),
    }
}

/// The spelling of a document without an id behind this one.
fn encode_named(
    alloc: Global,
    document: &Document,
    id: &ObjectId,
    levels: u32,
) -> Result<Bytes, EncodeFault>
    requires none { value_of id_key document.now ≡ None }
    requires levels { levels ≤ 100 }
    ensures { EncodesWithin levels (with_id id.now document.now) result }
{
    let length = surveyed(document, levels)?;
    if length > LONGEST - ID_LENGTH {
        return Err(EncodeFault::TooLong);
    }
    let mut out = vec![in alloc; 0; length + ID_LENGTH]?;
    put_named(out.as_mut_slice(), id, document.pairs());
    Ok(Bytes::from_vec(out))
}

/// Writes a document with an id before its pairs over all bytes.
fn put_named(out: &mut [u8], id: &ObjectId, pairs: &[Pair<Bson>]) -> usize
    requires { HasRoom (framed (id_element id.now ++ body_of pairs.now)) 0 out.old }
    ensures { Puts (framed (id_element id.now ++ body_of pairs.now)) 0 out.old out.new result }
{
    let end = put_elements(out, id, pairs);
    close(out, 0, end)
}

/// Writes the element of an id and those of the pairs behind it, from the fifth byte on.
fn put_elements(out: &mut [u8], id: &ObjectId, pairs: &[Pair<Bson>]) -> usize
    requires { HasRoom (id_element id.now ++ body_of pairs.now) 4 out.old }
    ensures { Puts (id_element id.now ++ body_of pairs.now) 4 out.old out.new result }
{
    let end = put_head(out, 4, 7, ID_KEY);
    let end = put(out, end, &id.bytes);
    put_pairs(out, end, pairs)
}

#[cycle(put)]
fn put_document(out: &mut [u8], at: usize, pairs: &[Pair<Bson>]) -> usize
    requires { HasRoom (framed (body_of pairs.now)) at out.old }
    ensures { Puts (framed (body_of pairs.now)) at out.old out.new result }
{
    let end = put_pairs(out, at + 4, pairs);
    close(out, at, end)
}

#[cycle(put)]
fn put_array(out: &mut [u8], at: usize, values: &[Bson]) -> usize
    requires { HasRoom (framed (numbered 0 (map spelled values.now))) at out.old }
    ensures { Puts (framed (numbered 0 (map spelled values.now))) at out.old out.new result }
{
    let end = put_values(out, at + 4, values);
    close(out, at, end)
}

#[cycle(put)]
fn put_pairs(out: &mut [u8], at: usize, pairs: &[Pair<Bson>]) -> usize
    requires { HasRoom (body_of pairs.now) at out.old }
    ensures { Puts (body_of pairs.now) at out.old out.new result }
{
    let mut end = at;
    for pair in pairs {
        end = put_head(out, end, type_byte(&pair.value), pair.key.as_str());
        end = put_value(out, end, &pair.value);
    }
    end
}

#[cycle(put)]
fn put_values(out: &mut [u8], at: usize, values: &[Bson]) -> usize
    requires { HasRoom (numbered 0 (map spelled values.now)) at out.old }
    ensures { Puts (numbered 0 (map spelled values.now)) at out.old out.new result }
{
    let mut buffer = Buffer::new();
    let mut end = at;
    for (place, value) in values.iter().enumerate() {
        end = put_head(out, end, type_byte(value), buffer.format(place));
        end = put_value(out, end, value);
    }
    end
}

#[cycle(put)]
fn put_value(out: &mut [u8], at: usize, value: &Bson) -> usize
    requires { HasRoom (spelled value.now).1 at out.old }
    ensures { Puts (spelled value.now).1 at out.old out.new result }
{
    match value {
        Bson::Double(double) => put(out, at, double),
        Bson::String(text) | Bson::JavaScriptCode(text) | Bson::Symbol(text) => put_text(
            out, at, text,
        ),
        Bson::Document(document) => put_document(out, at, document.pairs()),
        Bson::Array(values) => put_array(out, at, values.as_slice()),
        Bson::Binary(binary) => put_binary(out, at, binary),
        Bson::ObjectId(id) => put(out, at, &id.bytes),
        Bson::Boolean(flag) => put(out, at, &[u8::from(*flag)]),
        Bson::DateTime(number) | Bson::Int64(number) => put(out, at, &number.to_le_bytes()),
        Bson::RegularExpression(regex) => put_regex(out, at, regex.get()),
        Bson::Int32(number) => put(out, at, &number.to_le_bytes()),
        Bson::Timestamp(stamp) => put_stamp(out, at, stamp),
        Bson::Decimal128(decimal) => put(out, at, decimal),
        Bson::Undefined | Bson::Null | Bson::MinKey | Bson::MaxKey => at,
    }
}

fn type_byte(value: &Bson) -> u8
    ensures { result ≡ (spelled value.now).0 }
{
    match value {
        Bson::Double(_) => 1,
        Bson::String(_) => 2,
        Bson::Document(_) => 3,
        Bson::Array(_) => 4,
        Bson::Binary(_) => 5,
        Bson::Undefined => 6,
        Bson::ObjectId(_) => 7,
        Bson::Boolean(_) => 8,
        Bson::DateTime(_) => 9,
        Bson::Null => 10,
        Bson::RegularExpression(_) => 11,
        Bson::JavaScriptCode(_) => 13,
        Bson::Symbol(_) => 14,
        Bson::Int32(_) => 16,
        Bson::Timestamp(_) => 17,
        Bson::Int64(_) => 18,
        Bson::Decimal128(_) => 19,
        Bson::MinKey => 255,
        Bson::MaxKey => 127,
    }
}

/// The type byte and the key of an element.
fn put_head(out: &mut [u8], at: usize, kind: u8, key: &str) -> usize
    requires { HasRoom (kind ∷ (key.now ++ 0 ∷ [])) at out.old }
    ensures { Puts (kind ∷ (key.now ++ 0 ∷ [])) at out.old out.new result }
{
    let end = put(out, at, &[kind]);
    let end = put(out, end, key.as_bytes());
    put(out, end, &[0])
}

/// A length, of which the format keeps 32 bits.
fn count_bytes(count: usize) -> [u8; 4]
    ensures { result ≡ four count }
{
    let low = (count % 0x1_0000_0000) as u32;
    low.to_le_bytes()
}

fn put_text(out: &mut [u8], at: usize, text: &Text) -> usize
    requires { HasRoom (counted text.now) at out.old }
    ensures { Puts (counted text.now) at out.old out.new result }
{
    let bytes = text.as_str().as_bytes();
    let end = put(out, at, &count_bytes(bytes.len() + 1));
    let end = put(out, end, bytes);
    put(out, end, &[0])
}

fn put_binary(out: &mut [u8], at: usize, binary: &Binary) -> usize
    requires { HasRoom (four (length binary.now.bytes) ++ binary.now.subtype ∷ binary.now.bytes) at out.old }
    ensures { Puts (four (length binary.now.bytes) ++ binary.now.subtype ∷ binary.now.bytes) at out.old
        out.new result }
{
    let end = put(out, at, &count_bytes(binary.bytes.len()));
    let end = put(out, end, &[binary.subtype]);
    put(out, end, binary.bytes.as_slice())
}

fn put_regex(out: &mut [u8], at: usize, regex: &Regex) -> usize
    requires { HasRoom (regex.now.pattern ++ 0 ∷ (regex.now.options ++ 0 ∷ [])) at out.old }
    ensures { Puts (regex.now.pattern ++ 0 ∷ (regex.now.options ++ 0 ∷ [])) at out.old out.new result }
{
    let end = put(out, at, regex.pattern.as_str().as_bytes());
    let end = put(out, end, &[0]);
    let end = put(out, end, regex.options.as_str().as_bytes());
    put(out, end, &[0])
}

fn put_stamp(out: &mut [u8], at: usize, stamp: &Timestamp) -> usize
    requires { HasRoom (four stamp.now.increment ++ four stamp.now.time) at out.old }
    ensures { Puts (four stamp.now.increment ++ four stamp.now.time) at out.old out.new result }
{
    let end = put(out, at, &stamp.increment.to_le_bytes());
    put(out, end, &stamp.time.to_le_bytes())
}

/// Writes a part over the bytes from a place on, and answers where it ends.
#[inline(always)]
fn put(out: &mut [u8], at: usize, part: &[u8]) -> usize
    requires { HasRoom part.now at out.old }
    ensures { Puts part.now at out.old out.new result }
{
    let end = at + part.len();
    out[at..end].copy_from_slice(part);
    end
}

/// Ends the frame whose elements stand from four bytes after a place up to their end: the last byte, and
/// the length before them.
fn close(out: &mut [u8], at: usize, end: usize) -> usize
    requires start { at + 4 ≤ end }
    requires room { end + 1 ≤ length out.old }
    ensures { Puts (framed (drop (at + 4) (take end out.old))) at out.old out.new result }
{
    let after = put(out, end, &[0]);
    patch(out, at, count_bytes(after - at));
    after
}

/// Writes four bytes over those at a place.
fn patch(out: &mut [u8], at: usize, part: [u8; 4])
    requires { at + 4 ≤ length out.old }
    ensures { out.new ≡ take at out.old ++ (part ++ drop (at + 4) out.old) }
{
    out[at..at + 4].copy_from_slice(&part);
}
