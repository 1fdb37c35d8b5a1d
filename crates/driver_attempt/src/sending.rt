//! The command of an attempt on its connection: its number, its frame, one exchange, and what comes of it.
ghost use Rattle.std.specs.Prelude.{◌≡◌, ◌≤◌, ◌+◌, ◌⊎◌, ℕ, IsSome, Some, length, take};
ghost use Rattle.driver_link.specs.declared.machine.Send.{Send as Sent};
ghost use Rattle.driver_link.specs.Reads.{Reads};
ghost use Rattle.driver_ops.specs.Operations.{HasBodies, IsFixed, SameSpec, StaysFixed, batch_of};
ghost use Rattle.driver_attempt.specs.Attempting.{besides_out, builds_again};
ghost use Rattle.driver_attempt.specs.Concerns.{concern_of};
ghost use Rattle.driver_attempt.specs.inside.Attempting.{ExchangesOnce, Sending};

use crate::attempt_end::{AttemptEnd, lost, read, unbuilt};
use crate::concern::effective_concern;
use crate::execution_session::{ExecutionSession, draw_number};
use crate::framing::frame_of;
use crate::pages::read_exchanges;
use crate::steps::Steps;
use driver_link::{Frame, Link, Place};
use driver_ops::Operation;
use driver_options::{Address, ClientOptions, Conn};
use driver_session::Retryability;
use std::alloc::Global;
use std::sync::ledger::Ledger;

/// The connection of an attempt: what of the operation may be repeated on it, and whether a failure is kept.
#[derive(Clone, Copy)]
pub(crate) struct AttemptConnection<'a> {
    pub conn: &'a Conn,
    pub connection_retryability: Retryability,
    pub again: bool,
}

/// The command of an attempt, under the number of the send before or a first one, for a client with these options.
pub(crate) fn send<O: Operation, L: Link, Q: Ledger>(
    alloc: Global,
    link: &mut L,
    op: &mut O,
    options: &ClientOptions,
    places: &[Place],
    held: ExecutionSession,
    on: &AttemptConnection<'_>,
    address: Address,
    sends: &mut Steps<Q>,
) -> (ExecutionSession, AttemptEnd<O::Output>)
    requires { HasBodies (O.spec op.old) places.now }
    ensures sending { (statements : ℕ) → IsFixed (O.built op.new) statements →
        Sending (O.spec op.old) (O.next op.old) (concern_of (O.spec op.old) (O.next op.old) options.now)
        (batch_of places.now statements) on.now.again
        (besides_out (L.tells link.old)) (besides_out (L.tells link.new))
        on.now.connection_retryability on.now.conn.now address held result.0 sends.old sends.new
        (O.built op.old) (O.built op.new) result.1 }
    ensures spec { SameSpec (O.spec op.old) (O.spec op.new) }
    ensures fixed { StaysFixed (O.built op.old) (O.built op.new) }
    ensures next { O.next op.new ≡ O.next op.old }
    ensures out { (L.tells link.new).out ≡ (L.tells link.old).out }
    ensures counted { (sends.new ≡ sends.old) ⊎ IsSome (O.built op.new) }
{
    let again = builds_again(on, &held);
    let (held, drawn) = draw_number(alloc, held, on.connection_retryability);
    let number = match drawn {
        Ok(number) => number,
        Err(error) => return (held, AttemptEnd::Ended(error)),
    };
    let command = match op.build(alloc, &on.conn.description) {
        Ok(command) => command,
        Err(error) => return (held, unbuilt(error, again)),
    };
    let concern = effective_concern(op, options);
    let frame = match frame_of(alloc, command, held.id(), number, concern) {
        Ok(frame) => frame,
        Err(error) => return (held, AttemptEnd::Ended(error)),
    };
    let own = front(places, op.statements());
    let held = held.sent_under(number);
    exchange(alloc, link, op, own, &frame, held, on, address, sends)
}

/// Whether the command is built again: it went out before, and a failure is kept.
fn builds_again(on: &AttemptConnection<'_>, held: &ExecutionSession) -> bool
    ensures { result ≡ builds_again on.now.again held.now }
{
    on.again && held.has_sent()
}

/// The first of the places, as many as the command has statements.
fn front(places: &[Place], statements: usize) -> &[Place]
    requires { statements ≤ length places.now }
    ensures { result.now ≡ take statements places.now }
{
    &places[..statements]
}

/// One exchange of a frame, with the places of its writes, and what comes of it: the answer that begins with its
/// reply is read as one to a command of so many statements as were built last.
fn exchange<O: Operation, L: Link, Q: Ledger>(
    alloc: Global,
    link: &mut L,
    op: &mut O,
    places: &[Place],
    frame: &Frame,
    held: ExecutionSession,
    on: &AttemptConnection<'_>,
    address: Address,
    sends: &mut Steps<Q>,
) -> (ExecutionSession, AttemptEnd<O::Output>)
    requires { (sent : Sent) × Reads frame.now places.now sent }
    ensures exchanges { (statements : ℕ) → O.built op.old ≡ Some statements →
        ExchangesOnce (O.spec op.old) statements
        (besides_out (L.tells link.old)) (besides_out (L.tells link.new))
        on.now.connection_retryability on.now.conn.now address frame.now places.now held result.0 result.1 }
    ensures spec { SameSpec (O.spec op.old) (O.spec op.new) }
    ensures built { O.built op.new ≡ O.built op.old }
    ensures next { O.next op.new ≡ O.next op.old }
    ensures out { (L.tells link.new).out ≡ (L.tells link.old).out }
    ensures sends { sends.new ≡ sends.old + 1 }
{
    let version = on.conn.description.max_wire_version;
    let number = held.number();
    sends.tick();
    match link.exchange(alloc, on.conn, frame, places) {
        Ok(reply) => {
            let (held, answer) = read_exchanges(alloc, link, op, held, on.conn, reply.as_slice());
            (
                held,
                read(
                    alloc,
                    answer,
                    on.connection_retryability,
                    version,
                    address,
                    number,
                ),
            )
        }
        Err(failure) => (
            held.after(&failure),
            lost(
                alloc,
                failure,
                on.connection_retryability,
                version,
                address,
                number,
            ),
        ),
    }
}
