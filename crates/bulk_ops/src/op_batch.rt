//! A batch of a caller's ops.
ghost use Rattle.std.specs.Prelude.{◌+◌, ◌≤◌, length};

use bulk_fronts::OwnOp;

/// The ops of a batch, the index of the first of them in the caller's list, and whether the batch stops at the first
/// that fails.
#[derive(Clone, Copy)]
pub(crate) struct OpBatch<'a> {
    pub(crate) ops: &'a [OwnOp],
    pub(crate) first: usize,
    pub(crate) ordered: bool,
    ghost within: { first + length ops.now ≤ 18446744073709551615 },
}
