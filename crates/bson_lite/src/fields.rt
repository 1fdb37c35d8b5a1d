//! Fields of a document by their keys, and the questions that calls ask of a document.
ghost use Rattle.std.specs.Prelude.{◌≡◌, bytes_eq, not, Some, OnErr, IfOk, OnOk};
ghost use Rattle.std.specs.Option.{option_copied};
ghost use Rattle.bson_lite.specs.Fields.{value_of, with_id, id_key, is_operator, begins_with_operator, int_of, int_of_double};

use crate::bson::{Bson, ObjectId};
use crate::copy::TryClone;
use crate::document::{Document, Pair};
use crate::key::Key;
use std::alloc::{AllocError, Global};

/// The key of a document's id.
pub const ID_KEY: &str = "_id";

/// The id of the document, which is put first where there is none. The answer is a copy of it.
pub fn get_or_prepend_id_field(
    alloc: Global,
    d: &mut Document,
    id: ObjectId,
) -> Result<Bson, AllocError>
    ensures ok { OnOk result (d.new ≡ with_id id d.old) }
    ensures value { IfOk result (λ value. value_of id_key d.new ≡ Some value) }
    ensures err { OnErr result (d.new ≡ d.old) }
{
    if let Some(value) = d.get(ID_KEY) {
        return value.try_clone(alloc);
    }
    let key = Key::from_str(alloc, ID_KEY)?;
    let value = Bson::ObjectId(id);
    d.prepend_pair(Pair { key, value })?;
    Ok(Bson::ObjectId(id))
}

impl Document {
    /// The value of the first pair with this key.
    pub fn get(&self, key: &str) -> Option<&Bson>
        ensures { option_copied result ≡ value_of key.now self.now }
    {
        let pairs = self.pairs();
        for pair in pairs {
            if is_same(pair.key.as_str(), key) {
                return Some(&pair.value);
            }
        }
        None
    }
}

/// Whether two texts are the same. Of most that differ their lengths tell it.
#[inline(always)]
#[tactic(auto, using(crate::proofs::Lengths::unlike_lengths))]
fn is_same(one: &str, other: &str) -> bool
    ensures { result ≡ bytes_eq one.now other.now }
{
    one.len() == other.len() && one == other
}

/// The number of an `Int32` or an `Int64`, and of the doubles 1.0 and 0.0.
pub fn get_int(v: &Bson) -> Option<i64>
    ensures { result ≡ int_of v.now }
{
    match v {
        Bson::Int32(number) => Some(i64::from(*number)),
        Bson::Int64(number) => Some(*number),
        Bson::Double(double) => int_of_bytes(double),
        _ => None,
    }
}

/// The number of the doubles 1.0 and 0.0.
fn int_of_bytes(double: &[u8; 8]) -> Option<i64>
    ensures { result ≡ int_of_double double.now }
{
    if *double == [0, 0, 0, 0, 0, 0, 0xf0, 0x3f] {
        return Some(1);
    }
    if *double == [0, 0, 0, 0, 0, 0, 0, 0] {
        return Some(0);
    }
    None
}

/// Whether there is a first key that begins with `$`.
pub fn update_document_check(d: &Document) -> bool
    ensures { result ≡ begins_with_operator d.now }
{
    match d.pairs() {
        [] => false,
        [pair, ..] => begins_with_dollar(pair.key.as_str()),
    }
}

/// Whether the document is empty or its first key does not begin with `$`.
pub fn replacement_document_check(d: &Document) -> bool
    ensures { result ≡ not (begins_with_operator d.now) }
{
    !update_document_check(d)
}

fn begins_with_dollar(key: &str) -> bool
    ensures { result ≡ is_operator key.now }
{
    match key.as_bytes() {
        [] => false,
        [byte, ..] => *byte == b'$',
    }
}
