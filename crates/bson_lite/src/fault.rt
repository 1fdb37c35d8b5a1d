//! Why a document has no spelling, and where bytes spell no document.

use std::alloc::AllocError;

/// Why `encode` refuses a document.
#[derive(Clone, Copy, Debug, PartialEq, Eq)]
pub enum EncodeFault {
    /// Documents and arrays nest more than 100 deep.
    TooDeep,
    /// A key, or a text of a regular expression, holds a zero byte.
    ZeroByte,
    /// The spelling is longer than 2147483647 bytes.
    TooLong,
    Memory,
}

impl From<AllocError> for EncodeFault {
    ghost use Rattle.std.specs.Prelude.{◌≡◌};
    ghost use Rattle.bson_lite.specs.declared.fault.EncodeFault.TheVariants.{Memory};

    ghost from_gives = { λ _ fault. fault ≡ Memory };

    fn from(_refused: AllocError) -> EncodeFault {
        EncodeFault::Memory
    }
}

/// Why `decode` refuses bytes.
#[derive(Clone, Copy, Debug, PartialEq, Eq)]
pub enum DecodeFault {
    /// The offset of the first broken item.
    At { offset: usize },
    Memory,
}

impl From<AllocError> for DecodeFault {
    ghost use Rattle.std.specs.Prelude.{◌≡◌};
    ghost use Rattle.bson_lite.specs.declared.fault.DecodeFault.TheVariants.{Memory};

    ghost from_gives = { λ _ fault. fault ≡ Memory };

    fn from(_refused: AllocError) -> DecodeFault {
        DecodeFault::Memory
    }
}
