//! What a caller hands in as a document.
ghost use Rattle.std.specs.Prelude.{◌≡◌, IfOk, List};
ghost use Rattle.bson_lite.specs.declared.bson.Bson.{Bson};
ghost use Rattle.bson_lite.specs.declared.document.Pair.{Pair};

use bson_lite::{Document, TryClone};
use std::alloc::{AllocError, Global};

/// A value that is written as a document.
pub trait ToDocument {
    // The document as which it is written.
    ghost document: { Self → List (Pair Bson) };

    /// Its document. It answers want of memory alone.
    fn to_document(&self, alloc: Global) -> Result<Document, AllocError>
        ensures { IfOk result (λ made. made ≡ document self.now) };
}

impl ToDocument for Document {
    ghost document = { λ given. given };

    fn to_document(&self, alloc: Global) -> Result<Document, AllocError> {
        self.try_clone(alloc)
    }
}
