//! What a connection's limits leave for the writes of a command.
ghost use Rattle.std.specs.Prelude.{◌≡◌, ◌-◌, length};
ghost use Rattle.bson_lite.specs.Spelling.{spelling};
ghost use Rattle.driver_ops.specs.Limits.{bytes_around, limit_of, limits_for};

use bson_lite::{Document, encoded_len};
use driver_batches::Limits;
use driver_options::Description;

/// Of the longest message so many bytes are left for what stands around body and documents.
const BYTES_AROUND: u64 = 1000;

/// The limits of a connection for the documents of a command with this body.
pub fn limits_beside(description: &Description, body: &Document) -> Limits
    ensures { result ≡ limits_for description.now (length (spelling body.now)) }
{
    let items = limit_of(&description.max_write_batch_size);
    let longest = limit_of(&description.max_message_size_bytes);
    let bytes = bytes_beside(longest, body);
    let each = limit_of(&description.max_bson_object_size);
    Limits { items, bytes, each }
}

/// A limit as a number: one below 0 is 0.
fn limit_of(limit: &i64) -> u64
    ensures { result ≡ limit_of limit.now }
{
    match u64::try_from(*limit) {
        Ok(limit) => limit,
        Err(_) => 0,
    }
}

/// The bytes of a message that are left for documents beside this body: none where it is longer than a message.
fn bytes_beside(longest: u64, body: &Document) -> u64
    ensures { result ≡ longest - bytes_around - length (spelling body.now) }
{
    let around = longest.saturating_sub(BYTES_AROUND);
    around.saturating_sub(encoded_len(body))
}
