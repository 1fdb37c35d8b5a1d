//! What callers ask of an error. None of it takes memory.
ghost use Rattle.std.specs.Prelude.{◌≡◌};
ghost use Rattle.driver_error.specs.Chains.{contains_label, sdam_code};
ghost use Rattle.driver_error.specs.Kinds.{own_code};
ghost use Rattle.driver_error.specs.Predicates.{is_network_error, is_network_timeout, is_non_timeout_network_error, is_server_selection_error, is_auth_error, is_pool_cleared, is_incompatible_server, is_invalid_argument, is_ns_not_found, is_server_error, is_read_retryable, is_write_retryable, is_recovering, is_notwritableprimary, is_shutting_down, is_state_change_error, is_max_time_ms_expired_error, is_reauthentication_required, is_resumable, should_add_retryable_write_label, should_add_unknown_transaction_commit_result_label, code_among};

use crate::codes::{
    not_writable_codes, read_retryable_codes, recovering_codes, shutting_down_codes,
    unknown_commit_codes,
};
use crate::error::{Error, concern_error_of};
use crate::kind::{ErrorKind, IoKind};
use crate::labels::{
    RESUMABLE_CHANGE_STREAM_ERROR, RETRYABLE_WRITE_ERROR, TRANSIENT_TRANSACTION_ERROR,
};

const NAMESPACE_NOT_FOUND: i32 = 26;

const TIME_EXPIRED: i32 = 50;

const REAUTHENTICATION_REQUIRED: i32 = 391;

const CURSOR_NOT_FOUND: i32 = 43;

/// The code of a command error, or of the write concern error inside a kind.
fn own_code(kind: &ErrorKind) -> Option<i32>
    ensures { result ≡ own_code kind.now }
{
    if let ErrorKind::Command(error) = kind {
        return Some(error.code);
    }
    match concern_error_of(kind) {
        None => None,
        Some(concern) => Some(concern.code),
    }
}

fn is_among(code: Option<i32>, codes: &[i32]) -> bool
    ensures { result ≡ code_among codes.now code }
{
    match code {
        None => false,
        Some(code) => codes.contains(&code),
    }
}

impl Error {
    /// Whether this error or one below it, its source or a source of that one, has the label.
    #[tactic(auto, using(crate::proofs::Chains::chain_end, crate::proofs::Chains::chain_on, crate::proofs::Chains::contains_here))]
    pub fn contains_label(&self, label: &str) -> bool
        ensures { result ≡ contains_label label.now self.now }
    {
        if self.labels.contains(label) {
            return true;
        }
        match &self.source {
            None => false,
            Some(source) => source.get().contains_label(label),
        }
    }

    /// The code by which the state of a server is judged: of a command error or of a write concern
    /// error, else that of the source. Codes of write errors never count.
    #[tactic(auto, using(crate::proofs::Chains::chain_end, crate::proofs::Chains::chain_on, crate::proofs::Chains::code_here))]
    pub fn sdam_code(&self) -> Option<i32>
        ensures { result ≡ sdam_code self.now }
    {
        let own = own_code(&self.kind);
        if own.is_some() {
            return own;
        }
        match &self.source {
            None => None,
            Some(source) => source.get().sdam_code(),
        }
    }

    /// Whether the network failed, or the connections to a server were given up.
    pub fn is_network_error(&self) -> bool
        ensures { result ≡ is_network_error self.now }
    {
        matches!(
            &self.kind,
            ErrorKind::Io(_) | ErrorKind::ConnectionPoolCleared { .. }
        )
    }

    /// Whether the network took too long.
    pub fn is_network_timeout(&self) -> bool
        ensures { result ≡ is_network_timeout self.now }
    {
        matches!(&self.kind, ErrorKind::Io(IoKind::TimedOut))
    }

    /// Whether the network failed in another way.
    pub fn is_non_timeout_network_error(&self) -> bool
        ensures { result ≡ is_non_timeout_network_error self.now }
    {
        match &self.kind {
            ErrorKind::Io(IoKind::TimedOut) => false,
            ErrorKind::Io(_) => true,
            _ => false,
        }
    }

    /// Whether no server was found.
    pub fn is_server_selection_error(&self) -> bool
        ensures { result ≡ is_server_selection_error self.now }
    {
        matches!(&self.kind, ErrorKind::ServerSelection { .. })
    }

    /// Whether the driver could not prove who it is.
    pub fn is_auth_error(&self) -> bool
        ensures { result ≡ is_auth_error self.now }
    {
        matches!(&self.kind, ErrorKind::Authentication { .. })
    }

    /// Whether the connections to a server were given up.
    pub fn is_pool_cleared(&self) -> bool
        ensures { result ≡ is_pool_cleared self.now }
    {
        matches!(&self.kind, ErrorKind::ConnectionPoolCleared { .. })
    }

    /// Whether the server is too old.
    pub fn is_incompatible_server(&self) -> bool
        ensures { result ≡ is_incompatible_server self.now }
    {
        matches!(&self.kind, ErrorKind::IncompatibleServer { .. })
    }

    /// Whether the caller gave what the call does not take.
    pub fn is_invalid_argument(&self) -> bool
        ensures { result ≡ is_invalid_argument self.now }
    {
        matches!(&self.kind, ErrorKind::InvalidArgument { .. })
    }

    /// Whether a command named a namespace that is not there.
    pub fn is_ns_not_found(&self) -> bool
        ensures { result ≡ is_ns_not_found self.now }
    {
        match &self.kind {
            ErrorKind::Command(error) => error.code == NAMESPACE_NOT_FOUND,
            _ => false,
        }
    }

    /// Whether a server told of it.
    pub fn is_server_error(&self) -> bool
        ensures { result ≡ is_server_error self.now }
    {
        matches!(
            &self.kind,
            ErrorKind::Authentication { .. }
                | ErrorKind::InsertMany(_)
                | ErrorKind::Command(_)
                | ErrorKind::Write(_)
        )
    }

    /// Whether a read may be tried again.
    pub fn is_read_retryable(&self) -> bool
        ensures { result ≡ is_read_retryable self.now }
    {
        self.is_network_error() || is_among(self.sdam_code(), read_retryable_codes())
    }

    /// Whether a write may be tried again, by its label or one below.
    #[tactic(auto, unfolding(crate::specs::Predicates::retryable_write))]
    pub fn is_write_retryable(&self) -> bool
        ensures { result ≡ is_write_retryable self.now }
    {
        self.contains_label(RETRYABLE_WRITE_ERROR)
    }

    /// Whether the server recovers.
    pub fn is_recovering(&self) -> bool
        ensures { result ≡ is_recovering self.now }
    {
        is_among(self.sdam_code(), recovering_codes())
    }

    /// Whether the server takes no writes.
    pub fn is_notwritableprimary(&self) -> bool
        ensures { result ≡ is_notwritableprimary self.now }
    {
        is_among(self.sdam_code(), not_writable_codes())
    }

    /// Whether the server shuts down.
    pub fn is_shutting_down(&self) -> bool
        ensures { result ≡ is_shutting_down self.now }
    {
        is_among(self.sdam_code(), shutting_down_codes())
    }

    /// Whether the server recovers or takes no writes.
    pub fn is_state_change_error(&self) -> bool
        ensures { result ≡ is_state_change_error self.now }
    {
        self.is_recovering() || self.is_notwritableprimary()
    }

    /// Whether a command took longer than it was given.
    pub fn is_max_time_ms_expired_error(&self) -> bool
        ensures { result ≡ is_max_time_ms_expired_error self.now }
    {
        is_among(self.sdam_code(), &[TIME_EXPIRED])
    }

    /// Whether the server asks the driver to prove again who it is.
    pub fn is_reauthentication_required(&self) -> bool
        ensures { result ≡ is_reauthentication_required self.now }
    {
        is_among(self.sdam_code(), &[REAUTHENTICATION_REQUIRED])
    }

    /// Whether a change stream may go on after it.
    #[tactic(auto, unfolding(crate::specs::Predicates::resumable_change_stream))]
    pub fn is_resumable(&self) -> bool
        ensures { result ≡ is_resumable self.now }
    {
        !self.is_server_error()
            || is_among(self.sdam_code(), &[CURSOR_NOT_FOUND])
            || self.contains_label(RESUMABLE_CHANGE_STREAM_ERROR)
    }

    /// Whether a write that met it gains the label that it may be tried again.
    pub fn should_add_retryable_write_label(&self) -> bool
        ensures { result ≡ should_add_retryable_write_label self.now }
    {
        self.is_network_error()
    }

    /// Whether a commit that met it gains the label that its result is unknown.
    #[tactic(auto, unfolding(crate::specs::Predicates::transient_transaction))]
    pub fn should_add_unknown_transaction_commit_result_label(&self) -> bool
        ensures { result ≡ should_add_unknown_transaction_commit_result_label self.now }
    {
        !self.contains_label(TRANSIENT_TRANSACTION_ERROR)
            && (self.is_network_error()
                || self.is_server_selection_error()
                || self.is_write_retryable()
                || is_among(self.sdam_code(), unknown_commit_codes()))
    }
}
