//! What comes behind a batch of an insert.
use driver_error::Error;

/// What comes behind a batch.
#[derive(Drop)]
pub(crate) enum Behind {
    /// The next batch, behind so many documents.
    Next(usize),
    /// No other batch.
    Over,
    /// The call ends with an error.
    Stopped(Error),
}
