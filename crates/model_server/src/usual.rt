//! The setup of a usual server.
use driver_link::Setup;
use driver_options::Description;

/// A server that takes sessions, retryable writes and transactions, and is no router of shards.
pub const USUAL_SETUP: Setup = Setup {
    description: Description {
        max_wire_version: Some(25),
        max_bson_object_size: 16_777_216,
        max_message_size_bytes: 48_000_000,
        max_write_batch_size: 100_000,
        supports_sessions: true,
        supports_retryable_writes: true,
        sharded: false,
    },
    transactions: true,
    timeout_ms: Some(1_800_000),
};
