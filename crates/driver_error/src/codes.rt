//! The codes by which errors of a server are judged, each table as it stands in the definitions.
ghost use Rattle.std.specs.Prelude.{◌≡◌};
ghost use Rattle.driver_error.specs.Predicates.{read_retryable_codes, recovering_codes, not_writable_codes, shutting_down_codes, unknown_commit_codes};

const READ_RETRYABLE: [i32; 13] = [
    11600, 11602, 10107, 13435, 13436, 189, 91, 7, 6, 89, 9001, 134, 262,
];

const RECOVERING: [i32; 5] = [11600, 11602, 13436, 189, 91];

const NOT_WRITABLE: [i32; 3] = [10107, 13435, 10058];

const SHUTTING_DOWN: [i32; 2] = [11600, 91];

const UNKNOWN_COMMIT: [i32; 3] = [50, 64, 91];

/// After these a read may be tried again.
pub(crate) fn read_retryable_codes() -> &'static [i32]
    ensures { result.now ≡ read_retryable_codes }
{
    &READ_RETRYABLE
}

/// A server that recovers.
pub(crate) fn recovering_codes() -> &'static [i32]
    ensures { result.now ≡ recovering_codes }
{
    &RECOVERING
}

/// A server that takes no writes.
pub(crate) fn not_writable_codes() -> &'static [i32]
    ensures { result.now ≡ not_writable_codes }
{
    &NOT_WRITABLE
}

/// A server that shuts down.
pub(crate) fn shutting_down_codes() -> &'static [i32]
    ensures { result.now ≡ shutting_down_codes }
{
    &SHUTTING_DOWN
}

/// After these it is unknown whether a commit was made.
pub(crate) fn unknown_commit_codes() -> &'static [i32]
    ensures { result.now ≡ unknown_commit_codes }
{
    &UNKNOWN_COMMIT
}
