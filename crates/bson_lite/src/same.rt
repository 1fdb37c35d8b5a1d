//! Equality of values and documents: of their trees.
ghost use Rattle.std.specs.Prelude.{◌≡◌, ◌↔◌, IsTrue};

use crate::bson::{Binary, Bson, ObjectId, Regex, Timestamp};
use crate::document::{Document, Pair};
use crate::key::Key;
use crate::list::List;
use crate::namespace::Namespace;
use crate::text::{Bytes, Text};

impl PartialEq for Text {
    ghost use Rattle.std.specs.Prelude.{bytes_eq};
    ghost use Rattle.std.specs.Cmp.{partial_equiv_from_equiv};
    ghost use Rattle.std.specs.Cmp.Lexicographic.{nat_list_eq_equiv};

    ghost eq = { bytes_eq };

    ghost laws = { partial_equiv_from_equiv nat_list_eq_equiv };

    fn eq(&self, other: &Text) -> bool {
        self.as_str() == other.as_str()
    }
}

impl PartialEq for Key {
    ghost use Rattle.std.specs.Prelude.{bytes_eq};
    ghost use Rattle.std.specs.Cmp.{partial_equiv_from_equiv};
    ghost use Rattle.std.specs.Cmp.Lexicographic.{nat_list_eq_equiv};

    ghost eq = { bytes_eq };

    ghost laws = { partial_equiv_from_equiv nat_list_eq_equiv };

    fn eq(&self, other: &Key) -> bool {
        self.as_str() == other.as_str()
    }
}

impl PartialEq for Bytes {
    ghost use Rattle.std.specs.Prelude.{bytes_eq};
    ghost use Rattle.std.specs.Cmp.{partial_equiv_from_equiv};
    ghost use Rattle.std.specs.Cmp.Lexicographic.{nat_list_eq_equiv};

    ghost eq = { bytes_eq };

    ghost laws = { partial_equiv_from_equiv nat_list_eq_equiv };

    fn eq(&self, other: &Bytes) -> bool {
        self.as_slice() == other.as_slice()
    }
}

impl<T: PartialEq> PartialEq for List<T> {
    ghost use Rattle.std.specs.Cmp.Lexicographic.{pointwise, lists_per};

    ghost eq = { pointwise T.eq };

    ghost laws = { lists_per T.laws };

    fn eq(&self, other: &List<T>) -> bool {
        self.as_slice() == other.as_slice()
    }
}

impl PartialEq for Bson {
    ghost use Rattle.bson_lite.specs.Same.{same_by, bson_code};
    ghost use Rattle.bson_lite.specs.Sameness.{same_by-per};

    ghost eq = { same_by bson_code };

    ghost laws = { same_by-per bson_code };

    fn eq(&self, other: &Bson) -> bool
        ensures same { result ≡ same_by bson_code self.now other.now }
        ensures decides { IsTrue result ↔ (self.now ≡ other.now) }
    {
        same_value(self, other)
    }
}

impl PartialEq for Document {
    ghost use Rattle.bson_lite.specs.Same.{same_by, document_code};
    ghost use Rattle.bson_lite.specs.Sameness.{same_by-per};

    ghost eq = { same_by document_code };

    ghost laws = { same_by-per document_code };

    fn eq(&self, other: &Document) -> bool
        ensures same { result ≡ same_by document_code self.now other.now }
        ensures decides { IsTrue result ↔ (self.now ≡ other.now) }
    {
        same_pairs(self.pairs(), other.pairs())
    }
}

#[cycle(same)]
fn same_value(a: &Bson, b: &Bson) -> bool
    ensures { IsTrue result ↔ (a.now ≡ b.now) }
{
    match (a, b) {
        (Bson::Double(x), Bson::Double(y)) => *x == *y,
        (Bson::String(x), Bson::String(y)) => same_text(x, y),
        (Bson::Document(x), Bson::Document(y)) => same_pairs(x.pairs(), y.pairs()),
        (Bson::Array(x), Bson::Array(y)) => same_values(x.as_slice(), y.as_slice()),
        (Bson::Binary(x), Bson::Binary(y)) => same_binary(x, y),
        (Bson::Undefined, Bson::Undefined) => true,
        (Bson::ObjectId(x), Bson::ObjectId(y)) => x.bytes == y.bytes,
        (Bson::Boolean(x), Bson::Boolean(y)) => *x == *y,
        (Bson::DateTime(x), Bson::DateTime(y)) => *x == *y,
        (Bson::Null, Bson::Null) => true,
        (Bson::RegularExpression(x), Bson::RegularExpression(y)) => same_regex(x.get(), y.get()),
        (Bson::JavaScriptCode(x), Bson::JavaScriptCode(y)) => same_text(x, y),
        (Bson::Symbol(x), Bson::Symbol(y)) => same_text(x, y),
        (Bson::Int32(x), Bson::Int32(y)) => *x == *y,
        (Bson::Timestamp(x), Bson::Timestamp(y)) => same_stamp(x, y),
        (Bson::Int64(x), Bson::Int64(y)) => *x == *y,
        (Bson::Decimal128(x), Bson::Decimal128(y)) => *x == *y,
        (Bson::MinKey, Bson::MinKey) => true,
        (Bson::MaxKey, Bson::MaxKey) => true,
        _ => false,
    }
}

#[cycle(same)]
fn same_pairs(a: &[Pair<Bson>], b: &[Pair<Bson>]) -> bool
    ensures { IsTrue result ↔ (a.now ≡ b.now) }
{
    if a.len() != b.len() {
        return false;
    }
    for i in 0..a.len() {
        if !same_key(&a[i].key, &b[i].key) || !same_value(&a[i].value, &b[i].value) {
            return false;
        }
    }
    true
}

#[cycle(same)]
fn same_values(a: &[Bson], b: &[Bson]) -> bool
    ensures { IsTrue result ↔ (a.now ≡ b.now) }
{
    if a.len() != b.len() {
        return false;
    }
    for i in 0..a.len() {
        if !same_value(&a[i], &b[i]) {
            return false;
        }
    }
    true
}

fn same_text(a: &Text, b: &Text) -> bool
    ensures { IsTrue result ↔ (a.now ≡ b.now) }
{
    a.as_str() == b.as_str()
}

fn same_key(a: &Key, b: &Key) -> bool
    ensures { IsTrue result ↔ (a.now ≡ b.now) }
{
    a.as_str() == b.as_str()
}

fn same_binary(a: &Binary, b: &Binary) -> bool
    ensures { IsTrue result ↔ (a.now ≡ b.now) }
{
    a.subtype == b.subtype && a.bytes.as_slice() == b.bytes.as_slice()
}

fn same_regex(a: &Regex, b: &Regex) -> bool
    ensures { IsTrue result ↔ (a.now ≡ b.now) }
{
    same_text(&a.pattern, &b.pattern) && same_text(&a.options, &b.options)
}

fn same_stamp(a: &Timestamp, b: &Timestamp) -> bool
    ensures { IsTrue result ↔ (a.now ≡ b.now) }
{
    a.time == b.time && a.increment == b.increment
}
