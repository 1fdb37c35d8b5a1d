//! The codes by which errors are judged.
use crate::asserting::{alike, holds};
use crate::errors::{command_failed, held};
use driver_error::{Error, ErrorKind, IoKind};

/// What an error says by its code.
#[derive(Clone, Copy, Debug, PartialEq, Eq)]
struct Says {
    may_read_again: bool,
    recovers: bool,
    takes_no_writes: bool,
    changes_its_state: bool,
    shuts_down: bool,
    is_out_of_time: bool,
    asks_who: bool,
    leaves_commit_unknown: bool,
    may_resume: bool,
    has_no_namespace: bool,
}

/// A code, and what it says.
struct Row {
    code: i32,
    says: Says,
}

/// A server that shuts down.
const SHUTS_DOWN: Says = Says {
    may_read_again: true,
    recovers: true,
    takes_no_writes: false,
    changes_its_state: true,
    shuts_down: true,
    is_out_of_time: false,
    asks_who: false,
    leaves_commit_unknown: false,
    may_resume: false,
    has_no_namespace: false,
};

/// A server that recovers.
const RECOVERS: Says = Says {
    may_read_again: true,
    recovers: true,
    takes_no_writes: false,
    changes_its_state: true,
    shuts_down: false,
    is_out_of_time: false,
    asks_who: false,
    leaves_commit_unknown: false,
    may_resume: false,
    has_no_namespace: false,
};

/// The same, where it is unknown whether a commit was made.
const SHUTS_DOWN_AMID_A_COMMIT: Says = Says {
    may_read_again: true,
    recovers: true,
    takes_no_writes: false,
    changes_its_state: true,
    shuts_down: true,
    is_out_of_time: false,
    asks_who: false,
    leaves_commit_unknown: true,
    may_resume: false,
    has_no_namespace: false,
};

/// A server that takes no writes.
const TAKES_NO_WRITES: Says = Says {
    may_read_again: true,
    recovers: false,
    takes_no_writes: true,
    changes_its_state: true,
    shuts_down: false,
    is_out_of_time: false,
    asks_who: false,
    leaves_commit_unknown: false,
    may_resume: false,
    has_no_namespace: false,
};

/// The same in the code of old servers, after which no read is tried again.
const TOOK_NO_WRITES: Says = Says {
    may_read_again: false,
    recovers: false,
    takes_no_writes: true,
    changes_its_state: true,
    shuts_down: false,
    is_out_of_time: false,
    asks_who: false,
    leaves_commit_unknown: false,
    may_resume: false,
    has_no_namespace: false,
};

/// A failure after which a read may be tried again.
const READ_AGAIN: Says = Says {
    may_read_again: true,
    recovers: false,
    takes_no_writes: false,
    changes_its_state: false,
    shuts_down: false,
    is_out_of_time: false,
    asks_who: false,
    leaves_commit_unknown: false,
    may_resume: false,
    has_no_namespace: false,
};

/// A command that took too long.
const OUT_OF_TIME: Says = Says {
    may_read_again: false,
    recovers: false,
    takes_no_writes: false,
    changes_its_state: false,
    shuts_down: false,
    is_out_of_time: true,
    asks_who: false,
    leaves_commit_unknown: true,
    may_resume: false,
    has_no_namespace: false,
};

/// A write concern that was not met.
const UNMET: Says = Says {
    may_read_again: false,
    recovers: false,
    takes_no_writes: false,
    changes_its_state: false,
    shuts_down: false,
    is_out_of_time: false,
    asks_who: false,
    leaves_commit_unknown: true,
    may_resume: false,
    has_no_namespace: false,
};

/// A server that asks for another authentication.
const ASKS_WHO: Says = Says {
    may_read_again: false,
    recovers: false,
    takes_no_writes: false,
    changes_its_state: false,
    shuts_down: false,
    is_out_of_time: false,
    asks_who: true,
    leaves_commit_unknown: false,
    may_resume: false,
    has_no_namespace: false,
};

/// A cursor that is not known.
const NO_CURSOR: Says = Says {
    may_read_again: false,
    recovers: false,
    takes_no_writes: false,
    changes_its_state: false,
    shuts_down: false,
    is_out_of_time: false,
    asks_who: false,
    leaves_commit_unknown: false,
    may_resume: true,
    has_no_namespace: false,
};

/// A namespace that is not there.
const NO_NAMESPACE: Says = Says {
    may_read_again: false,
    recovers: false,
    takes_no_writes: false,
    changes_its_state: false,
    shuts_down: false,
    is_out_of_time: false,
    asks_who: false,
    leaves_commit_unknown: false,
    may_resume: false,
    has_no_namespace: true,
};

/// Another code.
const NOTHING: Says = Says {
    may_read_again: false,
    recovers: false,
    takes_no_writes: false,
    changes_its_state: false,
    shuts_down: false,
    is_out_of_time: false,
    asks_who: false,
    leaves_commit_unknown: false,
    may_resume: false,
    has_no_namespace: false,
};

const CODES: &[Row; 21] = &[
    Row {
        code: 11600,
        says: SHUTS_DOWN,
    },
    Row {
        code: 11602,
        says: RECOVERS,
    },
    Row {
        code: 13436,
        says: RECOVERS,
    },
    Row {
        code: 189,
        says: RECOVERS,
    },
    Row {
        code: 91,
        says: SHUTS_DOWN_AMID_A_COMMIT,
    },
    Row {
        code: 10107,
        says: TAKES_NO_WRITES,
    },
    Row {
        code: 13435,
        says: TAKES_NO_WRITES,
    },
    Row {
        code: 10058,
        says: TOOK_NO_WRITES,
    },
    Row {
        code: 7,
        says: READ_AGAIN,
    },
    Row {
        code: 6,
        says: READ_AGAIN,
    },
    Row {
        code: 89,
        says: READ_AGAIN,
    },
    Row {
        code: 9001,
        says: READ_AGAIN,
    },
    Row {
        code: 134,
        says: READ_AGAIN,
    },
    Row {
        code: 262,
        says: READ_AGAIN,
    },
    Row {
        code: 50,
        says: OUT_OF_TIME,
    },
    Row {
        code: 64,
        says: UNMET,
    },
    Row {
        code: 391,
        says: ASKS_WHO,
    },
    Row {
        code: 43,
        says: NO_CURSOR,
    },
    Row {
        code: 26,
        says: NO_NAMESPACE,
    },
    Row {
        code: 0,
        says: NOTHING,
    },
    Row {
        code: -50,
        says: NOTHING,
    },
];

/// What an error says.
fn said(error: &Error) -> Says {
    Says {
        may_read_again: error.is_read_retryable(),
        recovers: error.is_recovering(),
        takes_no_writes: error.is_notwritableprimary(),
        changes_its_state: error.is_state_change_error(),
        shuts_down: error.is_shutting_down(),
        is_out_of_time: error.is_max_time_ms_expired_error(),
        asks_who: error.is_reauthentication_required(),
        leaves_commit_unknown: error.should_add_unknown_transaction_commit_result_label(),
        may_resume: error.is_resumable(),
        has_no_namespace: error.is_ns_not_found(),
    }
}

#[test]
fn each_code_says_what_the_table_says(rt: HostRuntime) {
    for row in CODES {
        let code = row.code;
        let error = held(&rt, rt.alloc(), command_failed(&rt, rt.alloc(), code));
        alike(
            &rt,
            (error.get().sdam_code(), said(error.get())),
            (Some(code), row.says),
            "the code of an error, and what it says",
        );
    }
}

/// Whether the network took too long, so that a write may be tried again.
fn is_lost_in_time(error: &Error) -> bool {
    error.is_network_error()
        && error.is_network_timeout()
        && !error.is_non_timeout_network_error()
        && error.should_add_retryable_write_label()
}

#[test]
fn a_lost_connection_is_a_network_error(rt: HostRuntime) {
    let error = held(&rt, rt.alloc(), Error::from(IoKind::TimedOut));
    holds(
        &rt,
        is_lost_in_time(error.get()),
        "a network that took too long",
    );
}

/// Whether a change stream may go on, since neither the network nor a server failed.
fn is_of_the_driver(error: &Error) -> bool {
    !error.is_network_error() && error.is_resumable()
}

#[test]
fn a_shutdown_is_no_network_error(rt: HostRuntime) {
    let error = held(&rt, rt.alloc(), Error::from_kind(ErrorKind::Shutdown));
    holds(
        &rt,
        is_of_the_driver(error.get()),
        "a failure of neither the network nor a server",
    );
}
