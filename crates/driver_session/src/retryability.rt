//! What an operation may repeat.

/// What of an operation may be sent again after a failure.
#[derive(Clone, Copy, Debug, PartialEq, Eq)]
pub enum Retryability {
    /// A write, under its number.
    Write,
    /// A read.
    Read,
    /// Nothing.
    None,
}
