//! A document: pairs of key and value, in their order.
ghost use Rattle.std.specs.Prelude.{◌≡◌, ◌++◌, [], ◌∷◌, length, IfOk, OnOk, OnErr, IsTrue, ◌↔◌};

use crate::bson::Bson;
use crate::key::Key;
use std::alloc::{AllocError, Global};
use std::marker::Model;

/// One element of a document.
#[derive(Debug, PartialEq, Drop)]
pub struct Pair<V> {
    pub key: Key,
    pub value: V,
}

/// The pairs of a document, seen as the list of them. Written alone, `Document` holds `Bson` values.
#[derive(Debug)]
pub struct Document<V = Bson> {
    pairs: Vec<Pair<V>>,
}

impl<V: Drop> Drop for Document<V> {
    fn drop(self) {
        let Document { pairs } = self;
        drop(pairs);
    }
}

impl<V> Model for Document<V> {
    ghost use Rattle.std.specs.Prelude.{List};
    ghost use Rattle.std.specs.Coded.{coded_list};
    ghost use Rattle.bson_lite.specs.declared.document.Pair.{Pair};
    ghost use Rattle.bson_lite.specs.PairCode.{pair_code};

    ghost Value = { List (Pair V) };

    ghost coded = { coded_list (pair_code V.code) };

    ghost view = { λ document. document.pairs.items };
}

impl<V> Document<V> {
    /// The empty document. It takes no memory.
    pub fn new(alloc: Global) -> Document<V>
        ensures { result ≡ [] }
    {
        Document {
            pairs: Vec::new(alloc),
        }
    }

    /// The empty document, with room for so many pairs.
    pub fn with_capacity(alloc: Global, count: usize) -> Result<Document<V>, AllocError>
        ensures { IfOk result (λ document. document ≡ []) }
    {
        Ok(Document {
            pairs: Vec::with_capacity(alloc, count)?,
        })
    }

    /// The pairs in order.
    pub fn pairs(&self) -> &[Pair<V>]
        ensures { result.now ≡ self.now }
    {
        self.pairs.as_slice()
    }

    pub fn len(&self) -> usize
        ensures { result ≡ length self.now }
    {
        self.pairs.len()
    }

    pub fn is_empty(&self) -> bool
        ensures { IsTrue result ↔ (self.now ≡ []) }
    {
        self.pairs.is_empty()
    }
}

impl<V: Drop> Document<V> {
    /// Appends a pair. A refusal leaves the document as it was.
    pub fn push(&mut self, key: &str, value: V) -> Result<(), AllocError>
        ensures ok { OnOk result (self.new ≡ self.old ++ record { key = key.now; value = value } ∷ []) }
        ensures err { OnErr result (self.new ≡ self.old) }
    {
        let key = Key::from_str(*self.pairs.allocator(), key)?;
        self.push_pair(Pair { key, value })
    }

    /// Appends a pair whose key is made already. A refusal leaves the document as it was.
    pub fn push_pair(&mut self, pair: Pair<V>) -> Result<(), AllocError>
        ensures ok { OnOk result (self.new ≡ self.old ++ pair ∷ []) }
        ensures err { OnErr result (self.new ≡ self.old) }
    {
        self.pairs.push(pair)?;
        Ok(())
    }

    /// Puts a pair first. A refusal leaves the document as it was.
    pub fn prepend_pair(&mut self, pair: Pair<V>) -> Result<(), AllocError>
        ensures ok { OnOk result (self.new ≡ pair ∷ self.old) }
        ensures err { OnErr result (self.new ≡ self.old) }
    {
        self.pairs.insert(0, pair)?;
        Ok(())
    }
}
