//! How a run of the program ends.

/// The statuses of the program, with their numbers.
#[derive(Clone, Copy, PartialEq, Eq)]
pub(crate) enum Status {
    /// The command ran and its text was written.
    Done = 0,
    /// The words are no command.
    Usage = 2,
    /// The input is no script.
    Refused = 3,
    ReadFailed = 4,
    WriteFailed = 5,
    Memory = 6,
    /// The input is longer than a script may be, or has more calls.
    TooLarge = 7,
}
