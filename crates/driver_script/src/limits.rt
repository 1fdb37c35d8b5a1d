//! Readers of the limits of a script's server, and the setup that they make.
ghost use Rattle.std.specs.Prelude.{◌≡◌};
ghost use Rattle.driver_script.specs.Limits.{limits_of, no_limits, setup_with};

use crate::from_json::{FromJson, read_optional};
use driver_link::Setup;
use driver_options::Description;
use script_parts::forms::{Unread, is_object_of};
use script_parts::keys::{BATCH, BSON, MESSAGE, WIRE};
use script_parts::tree::Json;
use std::alloc::Global;

/// The limits of a server that are set: the bytes of a document and of a message, the writes of a batch, and the wire
/// version.
#[derive(Clone, Copy)]
pub(crate) struct Limits {
    pub bson: Option<i64>,
    pub message: Option<i64>,
    pub batch: Option<i64>,
    pub wire: Option<i32>,
}

impl FromJson for Limits {
    ghost spec = { limits_of };

    #[tactic(auto, unfolding(crate::specs::Limits::limits_of))]
    fn read(alloc: Global, value: &Json<'_, '_>) -> Result<Limits, Unread> {
        if !is_object_of(value, &[BSON, MESSAGE, BATCH, WIRE]) {
            return Err(Unread::Wrong);
        }
        let bson = read_optional(alloc, value, BSON)?;
        let message = read_optional(alloc, value, MESSAGE)?;
        let batch = read_optional(alloc, value, BATCH)?;
        let wire = read_optional(alloc, value, WIRE)?;
        Ok(Limits {
            bson,
            message,
            batch,
            wire,
        })
    }
}

/// Limits of which none is set.
pub(crate) fn no_limits() -> Limits
    ensures { result ≡ no_limits }
{
    Limits {
        bson: None,
        message: None,
        batch: None,
        wire: None,
    }
}

/// The setup of a script's server with these limits.
pub(crate) fn setup_with(limits: Limits) -> Setup
    ensures { result ≡ setup_with limits }
{
    Setup {
        description: Description {
            max_wire_version: Some(limits.wire.unwrap_or(25)),
            max_bson_object_size: limits.bson.unwrap_or(16_777_216),
            max_message_size_bytes: limits.message.unwrap_or(48_000_000),
            max_write_batch_size: limits.batch.unwrap_or(100_000),
            supports_sessions: true,
            supports_retryable_writes: true,
            sharded: false,
        },
        transactions: true,
        timeout_ms: Some(1_800_000),
    }
}
