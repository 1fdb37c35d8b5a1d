//! A document of an insert as it is sent.
ghost use Rattle.std.specs.Prelude.{length};

use bson_lite::{Bson, Bytes};
use driver_batches::Measured;

/// A document of an insert as it is sent, at resends too: its spelling, and its id.
#[derive(Drop)]
pub struct OwnDocument {
    pub bytes: Bytes,
    pub id: Bson,
}

impl Measured for OwnDocument {
    ghost size = { λ own. length own.bytes };

    fn size(&self) -> u64 {
        self.bytes.len() as u64
    }
}
