//! What an operation holds between its attempts: the implicit session that it was lent, and the number that
//! it sends its command under.
ghost use Rattle.std.specs.Prelude.{◌≡◌, None, Some, is_some};
ghost use Rattle.std.specs.Option.{option_copied};
ghost use Rattle.driver_attempt.specs.Client.{options_of, store_of};
ghost use Rattle.driver_attempt.specs.Holding.{DrawsNumber, DrawsSession, dirty_session_held, held_after_failure, held_id, holds_nothing, needs_session, number_before};
ghost use Rattle.driver_attempt.specs.inside.Holding.{GivesBackAt, HoldsAt};

use crate::client::Client;
use driver_error::Result;
use driver_link::{Clock, LinkError};
use driver_session::{Retryability, ServerSession, SessionStore};
use std::alloc::Global;
use std::marker::Model;

/// The session, if one was lent, and the number of the send before, which may be none, once there was one.
/// It is given back by `check_in_session`.
pub struct ExecutionSession {
    session: Option<ServerSession>,
    sent: Option<Option<i64>>,
}

impl Model for ExecutionSession {
    ghost use Rattle.driver_attempt.specs.Holding.{ExecutionSession as ExecutionState};

    ghost Value = { ExecutionState };

    ghost view = { λ held. record { session = held.session; sent = held.sent } };
}

impl ExecutionSession {
    /// What an operation holds that has not begun.
    pub fn nothing() -> ExecutionSession
        ensures { result ≡ holds_nothing }
    {
        ExecutionSession {
            session: None,
            sent: None,
        }
    }

    /// The number of the send before.
    pub fn number(&self) -> Option<i64>
        ensures { result ≡ number_before self.now }
    {
        match self.sent {
            Some(number) => number,
            None => None,
        }
    }

    /// The id of the session.
    pub fn id(&self) -> Option<&[u8; 16]>
        ensures { option_copied result ≡ held_id self.now }
    {
        match &self.session {
            Some(session) => Some(session.id()),
            None => None,
        }
    }

    /// Whether a session is held.
    pub fn has_session(&self) -> bool
        ensures { result ≡ is_some self.now.session }
    {
        self.session.is_some()
    }

    /// Whether a send went out.
    pub fn has_sent(&self) -> bool
        ensures { result ≡ is_some self.now.sent }
    {
        self.sent.is_some()
    }

    /// The same with a session, where none is held.
    fn with_session(self, session: ServerSession) -> ExecutionSession
        requires { self.session ≡ None }
        ensures { result ≡ record self { session = Some session } }
    {
        let ExecutionSession {
            session: none,
            sent,
        } = self;
        match none {
            None => ExecutionSession {
                session: Some(session),
                sent,
            },
            Some(_held) => unreachable!(),
        }
    }

    /// The same, once a send under this number went out.
    pub(crate) fn sent_under(self, number: Option<i64>) -> ExecutionSession
        ensures { result ≡ record self { sent = Some number } }
    {
        let ExecutionSession { session, sent: _ } = self;
        ExecutionSession {
            session,
            sent: Some(number),
        }
    }

    /// The same, once the network failed under its session.
    pub(crate) fn dirty(self) -> ExecutionSession
        ensures { result ≡ dirty_session_held self }
    {
        let ExecutionSession { mut session, sent } = self;
        if let Some(session) = &mut session {
            session.mark_dirty();
        }
        ExecutionSession { session, sent }
    }
}

impl ExecutionSession {
    /// The same, after an exchange that failed: a fault of the network makes the session dirty.
    pub(crate) fn after(self, failure: &LinkError) -> ExecutionSession
        ensures { result ≡ held_after_failure failure.now self }
    {
        match failure {
            LinkError::Fault { fault, .. } => {
                if fault.is_network() {
                    self.dirty()
                } else {
                    self
                }
            }
            LinkError::Memory => self,
        }
    }
}

/// Lends a session where one is asked for, none is held and nothing was sent yet, at a reading of the clock.
pub(crate) fn check_out_session<S: SessionStore, K: Clock>(
    alloc: Global,
    client: &mut Client<S>,
    clock: &mut K,
    held: ExecutionSession,
    asked: bool,
) -> (ExecutionSession, Result<()>)
    ensures holds { HoldsAt (needs_session asked held)
        (S.tells (store_of client.old)) (S.tells (store_of client.new))
        (K.tells clock.old) (K.tells clock.new) held result.0 result.1 }
    ensures options { options_of client.new ≡ options_of client.old }
{
    if !asked || held.has_session() || held.has_sent() {
        return (held, Ok(()));
    }
    let now = clock.now_ms();
    match client.lend(alloc, now) {
        Ok(session) => (held.with_session(session), Ok(())),
        Err(error) => (held, Err(error)),
    }
}

/// The number of the next send: that of the send before; else the session's next for a write that may be
/// repeated, else none.
pub(crate) fn draw_number(
    alloc: Global,
    held: ExecutionSession,
    connection_retryability: Retryability,
) -> (ExecutionSession, Result<Option<i64>>)
    ensures { DrawsNumber held.sent connection_retryability held result.0 result.1 }
{
    let ExecutionSession { mut session, sent } = held;
    let number = match sent {
        Some(before) => Ok(before),
        None => first_number(alloc, &mut session, connection_retryability),
    };
    (ExecutionSession { session, sent }, number)
}

/// The first number of an operation.
fn first_number(
    alloc: Global,
    session: &mut Option<ServerSession>,
    connection_retryability: Retryability,
) -> Result<Option<i64>>
    ensures { DrawsSession connection_retryability session.old session.new result }
{
    match (connection_retryability, session) {
        (Retryability::Write, Some(session)) => match session.next_number(alloc) {
            Ok(number) => Ok(Some(number)),
            Err(error) => Err(error),
        },
        _ => Ok(None),
    }
}

/// Gives back the session that is held, if there is one, at a reading of the clock.
pub fn check_in_session<S: SessionStore, K: Clock>(
    client: &mut Client<S>,
    clock: &mut K,
    held: ExecutionSession,
)
    ensures takes { GivesBackAt (S.tells (store_of client.old)) (S.tells (store_of client.new))
        (K.tells clock.old) (K.tells clock.new) held.session }
    ensures options { options_of client.new ≡ options_of client.old }
{
    let ExecutionSession { session, sent: _ } = held;
    if let Some(session) = session {
        let now = clock.now_ms();
        client.give_back(session, now);
    }
}
