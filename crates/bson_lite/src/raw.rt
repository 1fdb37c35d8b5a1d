//! A document kept as its bytes.
ghost use Rattle.std.specs.Prelude.{◌≡◌};
ghost use Rattle.bson_lite.specs.Raw.{IsSpelling};
ghost use Rattle.bson_lite.specs.Spelling.{Encodes, Spells};

use crate::copy::TryClone;
use crate::document::Document;
use crate::encoding::encode;
use crate::fault::EncodeFault;
use crate::text::Bytes;
use std::alloc::{AllocError, Global};
use std::marker::Model;

/// The bytes that spell a document, seen as the list of them.
#[derive(Debug)]
pub struct RawDocumentBuf {
    bytes: Bytes,
}

impl Drop for RawDocumentBuf {
    fn drop(self) {
        let RawDocumentBuf { bytes } = self;
        drop(bytes);
    }
}

impl Model for RawDocumentBuf {
    ghost use Rattle.std.specs.Prelude.{List, ℕ};
    ghost use Rattle.bson_lite.specs.Raw.{IsSpelling};

    ghost Value = { List ℕ };

    ghost view = { λ raw. raw.bytes };

    ghost invariant = { λ raw. IsSpelling raw.bytes };
}

impl RawDocumentBuf {
    /// The spelling of a document.
    pub fn from_document(alloc: Global, document: &Document) -> Result<RawDocumentBuf, EncodeFault>
        ensures { Encodes document.now result }
    {
        let bytes = encode(alloc, document)?;
        Ok(RawDocumentBuf { bytes })
    }

    /// The bytes, moved, of a document that they spell.
    pub fn from_spelling(bytes: Bytes, document: &Document) -> RawDocumentBuf
        requires { Spells document.now bytes }
        ensures { result ≡ bytes }
    {
        let _ = document;
        RawDocumentBuf { bytes }
    }

    pub fn as_bytes(&self) -> &[u8]
        ensures value { result.now ≡ self.now }
        ensures spells { IsSpelling self.now }
    {
        self.bytes.as_slice()
    }
}

impl TryClone for RawDocumentBuf {
    fn try_clone(&self, alloc: Global) -> Result<RawDocumentBuf, AllocError> {
        let bytes = self.bytes.try_clone(alloc)?;
        Ok(RawDocumentBuf { bytes })
    }
}

impl PartialEq for RawDocumentBuf {
    ghost use Rattle.std.specs.Prelude.{bytes_eq};
    ghost use Rattle.std.specs.Cmp.{partial_equiv_from_equiv};
    ghost use Rattle.std.specs.Cmp.Lexicographic.{nat_list_eq_equiv};

    ghost eq = { bytes_eq };

    ghost laws = { partial_equiv_from_equiv nat_list_eq_equiv };

    fn eq(&self, other: &RawDocumentBuf) -> bool {
        self.bytes.as_slice() == other.bytes.as_slice()
    }
}
