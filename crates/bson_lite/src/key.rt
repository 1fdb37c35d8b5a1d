//! The key of a pair, which takes no memory of its own where it is short.
ghost use Rattle.std.specs.Prelude.{◌≡◌, IfOk};
ghost use Rattle.std.specs.Str.{IsUtf8};

use arrayvec::ArrayString;
use std::alloc::{AllocError, Global};
use std::fmt;
use std::marker::Model;

/// Where the bytes of a key stand: in the value itself, or in memory of their own.
#[derive(Drop)]
enum Kept {
    Short(ArrayString<16>),
    Long(String),
}

/// A key seen as the list of its UTF-8 bytes. One of at most 16 bytes takes no memory.
pub struct Key {
    kept: Kept,
}

impl Drop for Key {
    fn drop(self) {
        let Key { kept } = self;
        drop(kept);
    }
}

impl Model for Key {
    ghost use Rattle.std.specs.Prelude.{List, ℕ};
    ghost use Rattle.bson_lite.specs.Keys.{kept_bytes};

    ghost Value = { List ℕ };

    ghost view = { λ key. kept_bytes key.kept };
}

impl Key {
    /// A copy of a `&str`.
    pub fn from_str(alloc: Global, text: &str) -> Result<Key, AllocError>
        ensures { IfOk result (λ copy. copy ≡ text.now) }
    {
        let kept = match ArrayString::from(text) {
            Ok(short) => Kept::Short(short),
            Err(_too_long) => Kept::Long(String::from_str(alloc, text)?),
        };
        Ok(Key { kept })
    }

    pub fn as_str(&self) -> &str
        ensures value { result.now ≡ self.now }
        ensures utf8 { IsUtf8 self.now }
    {
        match &self.kept {
            Kept::Short(short) => short.as_str(),
            Kept::Long(long) => long.as_str(),
        }
    }
}

impl fmt::Debug for Key {
    fn fmt<W: fmt::Write>(&self, f: &mut fmt::Formatter<W>) -> fmt::Result {
        fmt::Debug::fmt(self.as_str(), f)
    }
}
