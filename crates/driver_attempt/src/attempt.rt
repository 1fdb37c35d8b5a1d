//! One attempt of an operation outside transactions: a server, a connection, a session where none is held,
//! one command and its reply.
ghost use Rattle.std.specs.Prelude.{◌≡◌, ◌⊎◌, ℕ, IsSome, Option, is_some};
ghost use Rattle.std.specs.Option.{option_copied};
ghost use Rattle.driver_link.specs.LinkCalls.{ChecksInConnection};
ghost use Rattle.driver_link.specs.LinkState.{LinkState};
ghost use Rattle.driver_session.specs.declared.retryability.Retryability.{Retryability as Repeated};
ghost use Rattle.driver_ops.specs.Operations.{HasBodies, IsFixed, SameSpec, StaysFixed, batch_of};
ghost use Rattle.driver_attempt.specs.Attempting.{Connects, MakesAttempt, asks_session, attempted_operation, avoided, besides_out, is_nothing, may_use, on_connection, stops};
ghost use Rattle.driver_attempt.specs.Client.{options_of, store_of};
ghost use Rattle.driver_attempt.specs.Concerns.{concern_of};
ghost use Rattle.retry_rules.specs.Retry.{RetryState};
ghost use Rattle.driver_attempt.specs.inside.Attempting.{attempt_state};

use crate::attempt_end::{AttemptEnd, unconnected, unselected};
use crate::client::Client;
use crate::execution_session::{ExecutionSession, check_out_session};
use crate::outside::Outside;
use crate::sending::{AttemptConnection, send};
use crate::steps::Steps;
use driver_error::{Error, ErrorKind};
use driver_link::{Clock, Link, Place};
use driver_ops::Operation;
use driver_options::{Address, Conn, Description};
use driver_session::{Retryability, SessionStore};
use retry_rules::Retry;
use std::alloc::Global;
use std::sync::ledger::Ledger;

/// One attempt of an operation, with the places of its writes and what it holds. A retry that is kept tells
/// the servers to be avoided.
pub fn make_attempt<O: Operation, S: SessionStore, L: Link, K: Clock, R, Q: Ledger>(
    alloc: Global,
    client: &mut Client<S>,
    outside: &mut Outside<L, K, R>,
    op: &mut O,
    places: &[Place],
    held: ExecutionSession,
    kept: Option<&Retry>,
    sends: &mut Steps<Q>,
) -> (ExecutionSession, AttemptEnd<O::Output>)
    requires { HasBodies (O.spec op.old) places.now }
    ensures makes { (statements : ℕ) → IsFixed (O.built op.new) statements → MakesAttempt
        (attempted_operation (O.spec op.old) (batch_of places.now statements) (O.next op.old)
        ((O.spec op.old).retryability (options_of client.old))
        (concern_of (O.spec op.old) (O.next op.old) (options_of client.old)))
        (option_copied kept.entry)
        (attempt_state (S.tells (store_of client.old)) (L.tells outside.old.link)
        (K.tells outside.old.clock) held sends.old (O.built op.old))
        (attempt_state (S.tells (store_of client.new)) (L.tells outside.new.link)
        (K.tells outside.new.clock) result.0 sends.new (O.built op.new))
        result.1 }
    ensures options { options_of client.new ≡ options_of client.old }
    ensures spec { SameSpec (O.spec op.old) (O.spec op.new) }
    ensures fixed { StaysFixed (O.built op.old) (O.built op.new) }
    ensures next { O.next op.new ≡ O.next op.old }
    ensures out { (L.tells outside.new.link).out ≡ (L.tells outside.old.link).out }
    ensures words { outside.new.words ≡ outside.old.words }
    ensures call { outside.new.call ≡ outside.old.call }
    ensures counted { (sends.new ≡ sends.old) ⊎ IsSome (O.built op.new) }
{
    let retryability = op.retryability(client.options());
    let address = match outside.link.select(alloc, None, avoided(kept)) {
        Ok(address) => address,
        Err(failure) => return (held, unselected(alloc, failure)),
    };
    let conn = match outside.link.check_out(alloc, &address) {
        Ok(conn) => conn,
        Err(failure) => {
            let number = held.number();
            return (
                held,
                unconnected(alloc, failure, retryability, address, number),
            );
        }
    };
    let on = AttemptConnection {
        conn: &conn,
        connection_retryability: on_connection(retryability, &conn.description),
        again: is_kept(kept),
    };
    let (held, attempt) = execute_operation_on_connection(
        alloc, client, outside, op, places, held, &on, address, sends,
    );
    check_in_connection(&mut outside.link, conn, &attempt);
    (held, attempt)
}

/// Reports the failure of an attempt, if it is one, and checks its connection in.
fn check_in_connection<L: Link, T>(link: &mut L, conn: Conn, attempt: &AttemptEnd<T>)
    ensures { ChecksInConnection (L.tells link.old) (L.tells link.new) conn }
{
    if let AttemptEnd::Failed(failure) = attempt {
        link.report(&conn.address, &failure.error);
    }
    link.check_in(conn);
}

/// Whether a failure is kept.
fn is_kept(kept: Option<&Retry>) -> bool
    ensures { result ≡ is_some (option_copied kept.entry) }
{
    match kept {
        Some(_) => true,
        None => false,
    }
}

/// The servers to be avoided.
fn avoided(kept: Option<&Retry>) -> &[Address]
    ensures { result.now ≡ avoided (option_copied kept.entry) }
{
    match kept {
        Some(retry) => retry.deprioritized(),
        None => &[],
    }
}

/// What of an operation may be repeated on a connection.
fn on_connection(retryability: Retryability, description: &Description) -> Retryability
    ensures { result ≡ on_connection retryability description.now }
{
    match retryability {
        Retryability::Write => {
            if description.supports_retryable_writes {
                Retryability::Write
            } else {
                Retryability::None
            }
        }
        other => other,
    }
}

/// Whether nothing may be repeated.
fn is_nothing(connection_retryability: Retryability) -> bool
    ensures { result ≡ is_nothing connection_retryability }
{
    match connection_retryability {
        Retryability::None => true,
        _ => false,
    }
}

/// Whether an attempt that is not the first stops, since nothing may be repeated.
fn stops(on: &AttemptConnection<'_>) -> bool
    ensures { result ≡ stops on.now.again on.now.connection_retryability }
{
    on.again && is_nothing(on.connection_retryability)
}

/// Whether a session is asked for: both sides take one.
fn asks_session(sessions: bool, description: &Description) -> bool
    ensures { result ≡ asks_session sessions description.now }
{
    sessions && description.supports_sessions
}

/// Whether the connection may be used with what is held: a session needs one that takes sessions.
fn may_use(held: &ExecutionSession, description: &Description) -> bool
    ensures { result ≡ may_use held.now description.now }
{
    if held.has_session() {
        description.supports_sessions
    } else {
        true
    }
}

/// The part of an attempt with a connection: a session where none is held, and the command.
fn execute_operation_on_connection<O: Operation, S: SessionStore, L: Link, K: Clock, R, Q: Ledger>(
    alloc: Global,
    client: &mut Client<S>,
    outside: &mut Outside<L, K, R>,
    op: &mut O,
    places: &[Place],
    held: ExecutionSession,
    on: &AttemptConnection<'_>,
    address: Address,
    sends: &mut Steps<Q>,
) -> (ExecutionSession, AttemptEnd<O::Output>)
    requires { HasBodies (O.spec op.old) places.now }
    ensures makes { (statements : ℕ) → IsFixed (O.built op.new) statements →
        (retryability : Repeated) →
        on.now.connection_retryability ≡ on_connection retryability on.now.conn.now.description →
        (kept : Option RetryState) → on.now.again ≡ is_some kept → (before : LinkState) →
        Connects (avoided kept) (besides_out before) (besides_out (L.tells outside.old.link))
        address on.now.conn.now →
        MakesAttempt (attempted_operation (O.spec op.old) (batch_of places.now statements) (O.next op.old)
        retryability (concern_of (O.spec op.old) (O.next op.old) (options_of client.old))) kept
        (attempt_state (S.tells (store_of client.old)) before (K.tells outside.old.clock) held sends.old
        (O.built op.old))
        (attempt_state (S.tells (store_of client.new)) (L.tells outside.new.link)
        (K.tells outside.new.clock) result.0 sends.new (O.built op.new))
        result.1 }
    ensures options { options_of client.new ≡ options_of client.old }
    ensures spec { SameSpec (O.spec op.old) (O.spec op.new) }
    ensures fixed { StaysFixed (O.built op.old) (O.built op.new) }
    ensures next { O.next op.new ≡ O.next op.old }
    ensures out { (L.tells outside.new.link).out ≡ (L.tells outside.old.link).out }
    ensures words { outside.new.words ≡ outside.old.words }
    ensures call { outside.new.call ≡ outside.old.call }
    ensures counted { (sends.new ≡ sends.old) ⊎ IsSome (O.built op.new) }
{
    let description = &on.conn.description;
    let asked = asks_session(op.supports_sessions(), description);
    let (held, lent) = check_out_session(alloc, client, &mut outside.clock, held, asked);
    match lent {
        Ok(()) => {}
        Err(error) => return (held, AttemptEnd::Ended(error)),
    }
    if may_use(&held, description) {
        if stops(on) {
            return (held, AttemptEnd::Stopped);
        }
        return send(
            alloc,
            &mut outside.link,
            op,
            client.options(),
            places,
            held,
            on,
            address,
            sends,
        );
    }
    let refused = Error::from_kind(ErrorKind::SessionsNotSupported);
    (held, AttemptEnd::Ended(refused))
}
