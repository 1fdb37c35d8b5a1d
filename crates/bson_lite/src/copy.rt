//! Copies that equal what they copy.
ghost use Rattle.std.specs.Prelude.{◌≡◌, IfOk};

use crate::boxed::Boxed;
use crate::bson::{Binary, Bson, ObjectId, Regex, Timestamp};
use crate::by_index::ByIndex;
use crate::document::{Document, Pair};
use crate::key::Key;
use crate::list::List;
use crate::namespace::Namespace;
use crate::text::{Bytes, Text};
use std::alloc::{AllocError, Global};

/// A copy that may find no memory, and else equals the value.
pub trait TryClone: Sized {
    fn try_clone(&self, alloc: Global) -> Result<Self, AllocError>
        ensures same { IfOk result (λ copy. copy ≡ self.now) };
}

impl TryClone for Text {
    fn try_clone(&self, alloc: Global) -> Result<Text, AllocError> {
        Text::from_str(alloc, self.as_str())
    }
}

impl TryClone for Key {
    fn try_clone(&self, alloc: Global) -> Result<Key, AllocError> {
        Key::from_str(alloc, self.as_str())
    }
}

impl TryClone for Bytes {
    fn try_clone(&self, alloc: Global) -> Result<Bytes, AllocError> {
        Bytes::from_slice(alloc, self.as_slice())
    }
}

impl<T: TryClone + Drop> TryClone for List<T> {
    fn try_clone(&self, alloc: Global) -> Result<List<T>, AllocError> {
        let items = self.as_slice();
        let mut copies = Vec::with_capacity(alloc, items.len())?;
        for item in items {
            copies.push(item.try_clone(alloc)?)?;
        }
        Ok(List::from_vec(copies))
    }
}

impl<T: TryClone + Drop> TryClone for ByIndex<T> {
    fn try_clone(&self, alloc: Global) -> Result<ByIndex<T>, AllocError> {
        let pairs = self.entries();
        let mut copies = ByIndex::new(alloc);
        for pair in pairs {
            copies.insert(pair.0, pair.1.try_clone(alloc)?)?;
        }
        Ok(copies)
    }
}

impl<T: TryClone> TryClone for Option<T> {
    fn try_clone(&self, alloc: Global) -> Result<Option<T>, AllocError> {
        match self {
            None => Ok(None),
            Some(value) => Ok(Some(value.try_clone(alloc)?)),
        }
    }
}

impl<T: TryClone + Drop> TryClone for Boxed<T> {
    fn try_clone(&self, alloc: Global) -> Result<Boxed<T>, AllocError> {
        Boxed::new(alloc, self.get().try_clone(alloc)?)
    }
}

impl TryClone for Bson {
    fn try_clone(&self, alloc: Global) -> Result<Bson, AllocError> {
        copy_value(alloc, self)
    }
}

impl TryClone for Document {
    fn try_clone(&self, alloc: Global) -> Result<Document, AllocError> {
        copy_pairs(alloc, self.pairs())
    }
}

impl<V: TryClone> TryClone for Pair<V> {
    fn try_clone(&self, alloc: Global) -> Result<Pair<V>, AllocError> {
        Ok(Pair {
            key: self.key.try_clone(alloc)?,
            value: self.value.try_clone(alloc)?,
        })
    }
}

impl TryClone for Binary {
    fn try_clone(&self, alloc: Global) -> Result<Binary, AllocError> {
        Ok(Binary {
            subtype: self.subtype,
            bytes: self.bytes.try_clone(alloc)?,
        })
    }
}

impl TryClone for Regex {
    fn try_clone(&self, alloc: Global) -> Result<Regex, AllocError> {
        Ok(Regex {
            pattern: self.pattern.try_clone(alloc)?,
            options: self.options.try_clone(alloc)?,
        })
    }
}

impl TryClone for Namespace {
    fn try_clone(&self, alloc: Global) -> Result<Namespace, AllocError> {
        Ok(Namespace {
            db: self.db.try_clone(alloc)?,
            coll: self.coll.try_clone(alloc)?,
        })
    }
}

impl TryClone for ObjectId {
    fn try_clone(&self, _alloc: Global) -> Result<ObjectId, AllocError> {
        Ok(*self)
    }
}

impl TryClone for Timestamp {
    fn try_clone(&self, _alloc: Global) -> Result<Timestamp, AllocError> {
        Ok(*self)
    }
}

#[cycle(copy)]
fn copy_value(alloc: Global, value: &Bson) -> Result<Bson, AllocError>
    ensures { IfOk result (λ copy. copy ≡ value.now) }
{
    Ok(match value {
        Bson::Double(double) => Bson::Double(*double),
        Bson::String(text) => Bson::String(text.try_clone(alloc)?),
        Bson::Document(document) => Bson::Document(copy_pairs(alloc, document.pairs())?),
        Bson::Array(values) => Bson::Array(copy_values(alloc, values.as_slice())?),
        Bson::Binary(binary) => Bson::Binary(binary.try_clone(alloc)?),
        Bson::Undefined => Bson::Undefined,
        Bson::ObjectId(id) => Bson::ObjectId(*id),
        Bson::Boolean(flag) => Bson::Boolean(*flag),
        Bson::DateTime(millis) => Bson::DateTime(*millis),
        Bson::Null => Bson::Null,
        Bson::RegularExpression(regex) => Bson::RegularExpression(regex.try_clone(alloc)?),
        Bson::JavaScriptCode(code) => Bson::JavaScriptCode(code.try_clone(alloc)?),
        Bson::Symbol(symbol) => Bson::Symbol(symbol.try_clone(alloc)?),
        Bson::Int32(number) => Bson::Int32(*number),
        Bson::Timestamp(stamp) => Bson::Timestamp(*stamp),
        Bson::Int64(number) => Bson::Int64(*number),
        Bson::Decimal128(decimal) => Bson::Decimal128(*decimal),
        Bson::MinKey => Bson::MinKey,
        Bson::MaxKey => Bson::MaxKey,
    })
}

#[cycle(copy)]
fn copy_pairs(alloc: Global, pairs: &[Pair<Bson>]) -> Result<Document, AllocError>
    ensures { IfOk result (λ copy. copy ≡ pairs.now) }
{
    let mut copies = Document::with_capacity(alloc, pairs.len())?;
    for pair in pairs {
        let key = pair.key.try_clone(alloc)?;
        let value = copy_value(alloc, &pair.value)?;
        copies.push_pair(Pair { key, value })?;
    }
    Ok(copies)
}

#[cycle(copy)]
fn copy_values(alloc: Global, values: &[Bson]) -> Result<List<Bson>, AllocError>
    ensures { IfOk result (λ copy. copy ≡ values.now) }
{
    let mut copies = List::with_capacity(alloc, values.len())?;
    for value in values {
        copies.push(copy_value(alloc, value)?)?;
    }
    Ok(copies)
}
