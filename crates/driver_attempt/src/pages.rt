//! What an attempt's connection gives behind the exchange of its command: the reply, and the further pages of the
//! answer, one exchange each, until it ends or a page fails.
ghost use Rattle.std.specs.Prelude.{◌≡◌, ◌<◌, ◌∷◌, ◌&&◌, ◌||◌, [], ℕ, ℤ, List as Listed, Ok, Option, Some, is_some, not, IfErr, IfOk, IfSome, OnOk};
ghost use Rattle.std.specs.Option.{option_copied};
ghost use Rattle.bson_lite.specs.declared.namespace.Namespace.{Namespace as Named};
ghost use Rattle.bson_lite.specs.Spelling.{Spells};
ghost use Rattle.driver_error.specs.declared.error.Error.{Error as Failure};
ghost use Rattle.driver_error.specs.Error.{source_of};
ghost use Rattle.driver_options.specs.declared.options.Description.{Description as Described};
ghost use Rattle.driver_ops.specs.declared.operation.Reading.TheVariants.{Page as Further};
ghost use Rattle.driver_ops.specs.GetMores.{at_namespace};
ghost use Rattle.driver_ops.specs.Operations.{HasBodies, IsFixed, OnPage, Page, SameSpec};
ghost use Rattle.driver_attempt.specs.Attempting.{besides_out};
ghost use Rattle.driver_attempt.specs.AttemptExchanges.{AttemptExchanges, PageCame, held_after, is_lost_page};
ghost use Rattle.driver_attempt.specs.Holding.{held_id};
ghost use Rattle.driver_attempt.specs.inside.AttemptExchanges.{AsksFor, AsksOn, EndsAskedCursor, EndsWhere, ExchangesAside, GoesOnOrEnds, KeepsFirst, ReadsFrom, ReadsNextPage, page_in};

use crate::attempt_end::{fault_error, is_memory};
use crate::execution_session::ExecutionSession;
use crate::framing::frame_of;
use bson_lite::Bytes;
use driver_error::{Error, Result};
use driver_link::{Link, LinkError};
use driver_ops::{
    Command, CommandResponse, GetMore, KillCursors, Operation, Reading, read_response, with_reply,
};
use driver_options::Conn;
use driver_session::Retryability;
use std::alloc::Global;

/// What the answer comes to that begins with a reply in these bytes, and what is then held: the reply is read, and
/// while what was read leaves a cursor open the next page is asked for, on the same connection. An error keeps the
/// reply.
pub(crate) fn read_exchanges<O: Operation, L: Link>(
    alloc: Global,
    link: &mut L,
    op: &mut O,
    held: ExecutionSession,
    conn: &Conn,
    reply: &[u8],
) -> (ExecutionSession, Result<O::Output>)
    ensures exchanges { (statements : ℕ) → O.built op.old ≡ Some statements →
        AttemptExchanges (O.spec op.old) statements reply.now conn.now (held_id held)
        (besides_out (L.tells link.old)) (besides_out (L.tells link.new)) held result.0 result.1 }
    ensures spec { SameSpec (O.spec op.old) (O.spec op.new) }
    ensures built { O.built op.new ≡ O.built op.old }
    ensures next { O.next op.new ≡ O.next op.old }
    ensures out { (L.tells link.new).out ≡ (L.tells link.old).out }
{
    let response = match read_response(alloc, reply) {
        Ok(response) => response,
        Err(error) => return (held, Err(error)),
    };
    let more = match more_of(op.read_reply(alloc, &response.body)) {
        Ok(more) => more,
        Err(answer) => return (held, with_first(alloc, answer, reply, &response)),
    };
    let (held, answer) = read_pages(alloc, link, op, held, conn, more);
    (held, with_first(alloc, answer, reply, &response))
}

/// The question for the next page, where there is one behind what was read, else the answer.
fn more_of<T>(reading: Result<Reading<T>>) -> std::result::Result<GetMore, Result<T>>
    ensures { GoesOnOrEnds reading result }
{
    match reading {
        Ok(Reading::Page { cursor, namespace }) => Ok(GetMore::new(namespace, cursor)),
        Ok(Reading::Done(output)) => Err(Ok(output)),
        Err(error) => Err(Err(error)),
    }
}

/// The answer, whose error keeps the reply.
fn with_first<T>(
    alloc: Global,
    answer: Result<T>,
    reply: &[u8],
    response: &CommandResponse,
) -> Result<T>
    requires { Spells response.now.body reply.now }
    ensures { KeepsFirst reply.now answer result }
{
    match answer {
        Ok(output) => Ok(output),
        Err(error) => Err(with_reply(alloc, error, reply, &response.body)),
    }
}

/// The further pages of an answer, beginning with this question.
fn read_pages<O: Operation, L: Link>(
    alloc: Global,
    link: &mut L,
    op: &mut O,
    held: ExecutionSession,
    conn: &Conn,
    first: GetMore,
) -> (ExecutionSession, Result<O::Output>)
    requires { (page : Page) × O.has_read op.old (page ∷ []) }
    ensures pages { (statements : ℕ) → O.built op.old ≡ Some statements → (page : Page) →
        O.has_read op.old (page ∷ []) → (namespace : Named) → (cursor : ℤ) → AsksFor namespace cursor first →
        (O.spec op.old).reads statements (page ∷ []) (Ok (Further cursor namespace)) →
        ReadsFrom (O.spec op.old) statements page conn.now (held_id held)
        (besides_out (L.tells link.old)) (besides_out (L.tells link.new)) held result.0 result.1 }
    ensures spec { SameSpec (O.spec op.old) (O.spec op.new) }
    ensures built { O.built op.new ≡ O.built op.old }
    ensures next { O.next op.new ≡ O.next op.old }
    ensures out { (L.tells link.new).out ≡ (L.tells link.old).out }
{
    let mut held = held;
    let mut more = first;
    'pages: loop {
        let (now, next) = read_one_page(alloc, link, op, held, conn, more);
        held = now;
        more = match next {
            Ok(next) => next,
            Err(answer) => return (held, answer),
        };
    }
}

/// One further page: the question for the one behind it, or the answer. Where the page failed its cursor is ended,
/// unless the page was lost.
fn read_one_page<O: Operation, L: Link>(
    alloc: Global,
    link: &mut L,
    op: &mut O,
    held: ExecutionSession,
    conn: &Conn,
    mut more: GetMore,
) -> (
    ExecutionSession,
    std::result::Result<GetMore, Result<O::Output>>,
)
    ensures page { (pages : Listed Page) → O.has_read op.old pages → (page : Page) ×
        (IfOk result.1 (λ next. O.has_read op.new (page ∷ pages)) ×
        ((statements : ℕ) → O.built op.old ≡ Some statements → (namespace : Named) → (cursor : ℤ) →
        AsksFor namespace cursor more → ReadsNextPage (O.spec op.old) statements conn.now (held_id held)
        (besides_out (L.tells link.old)) (besides_out (L.tells link.new)) namespace cursor pages page
        held result.0 result.1)) }
    ensures left { (pages : Listed Page) → O.has_read op.old pages →
        OnOk result.1 (O.left op.new < O.left op.old) }
    ensures spec { SameSpec (O.spec op.old) (O.spec op.new) }
    ensures built { O.built op.new ≡ O.built op.old }
    ensures next { O.next op.new ≡ O.next op.old }
    ensures out { (L.tells link.new).out ≡ (L.tells link.old).out }
{
    let (held, page) = ask_page(alloc, link, held, conn, &mut more);
    let lost = is_lost(&page);
    let came = page.is_ok();
    match more_of(read_page(alloc, op, page)) {
        Ok(next) => {
            drop(more);
            (held, Ok(next))
        }
        Err(Ok(output)) => {
            drop(more);
            (held, Err(Ok(output)))
        }
        Err(Err(error)) => {
            let ended = end_failed(alloc, link, conn, more, error, lost, came);
            (held, Err(Err(ended)))
        }
    }
}

/// The error of a page, whose cursor is ended where the page failed, unless it was lost.
fn end_failed<L: Link>(
    alloc: Global,
    link: &mut L,
    conn: &Conn,
    more: GetMore,
    error: Error,
    lost: bool,
    came: bool,
) -> Error
    ensures ends { (namespace : Named) → (cursor : ℤ) → AsksFor namespace cursor more →
        EndsWhere (not lost && (not came || is_some (source_of error))) conn.now
        (besides_out (L.tells link.old)) (besides_out (L.tells link.new)) namespace cursor error result }
    ensures out { (L.tells link.new).out ≡ (L.tells link.old).out }
{
    let failed = has_failed(&error, came);
    if is_open(lost, failed) {
        return end_cursor(alloc, link, conn, more.into_kill(), error);
    }
    drop(more);
    error
}

/// Whether a cursor is open still whose page failed, as far as is known.
fn is_open(lost: bool, failed: bool) -> bool
    ensures { result ≡ (not lost && failed) }
{
    !lost && failed
}

/// Whether a page was lost: the network failed, or there was no memory to tell what came.
fn is_lost(page: &Result<CommandResponse>) -> bool
    ensures { result ≡ is_lost_page (page_in page.now) }
{
    match page {
        Ok(_) => false,
        Err(failure) => failure.is_network_error() || is_memory(failure),
    }
}

/// Whether the page failed of which an operation made this error: it did not come, or is the source of the error.
fn has_failed(error: &Error, came: bool) -> bool
    ensures { result ≡ (not came || is_some (source_of error.now)) }
{
    !came || error.source().is_some()
}

/// What the operation reads in a page, or makes of the error of one that did not come.
fn read_page<O: Operation>(
    alloc: Global,
    op: &mut O,
    page: Result<CommandResponse>,
) -> Result<Reading<O::Output>>
    ensures reads { (pages : Listed Page) → O.has_read op.old pages → IfSome (O.built op.old)
        (λ statements. (O.spec op.old).reads statements (page_in page ∷ pages) result) }
    ensures read { (pages : Listed Page) → O.has_read op.old pages →
        OnPage result (O.has_read op.new (page_in page ∷ pages)) }
    ensures left { (pages : Listed Page) → O.has_read op.old pages →
        OnPage result (O.left op.new < O.left op.old) }
    ensures spec { SameSpec (O.spec op.old) (O.spec op.new) }
    ensures built { O.built op.new ≡ O.built op.old }
    ensures next { O.next op.new ≡ O.next op.old }
{
    match page {
        Ok(response) => op.read_page(alloc, Ok(&response.body)),
        Err(failure) => op.read_page(alloc, Err(failure)),
    }
}

/// The next page of a cursor, or why it did not come: one exchange under the session that is held, without a number
/// and a concern. A fault of the network makes the session dirty.
fn ask_page<L: Link>(
    alloc: Global,
    link: &mut L,
    held: ExecutionSession,
    conn: &Conn,
    more: &mut GetMore,
) -> (ExecutionSession, Result<CommandResponse>)
    ensures asks { (namespace : Named) → (cursor : ℤ) → AsksFor namespace cursor more.old →
        AsksOn conn.now (held_id held) (besides_out (L.tells link.old)) (besides_out (L.tells link.new))
        namespace cursor held result.0 (page_in result.1) }
    ensures more { more.new ≡ more.old }
    ensures out { (L.tells link.new).out ≡ (L.tells link.old).out }
{
    match exchange_aside(alloc, link, conn, more, held.id()) {
        Ok(answered) => page_after(alloc, held, answered),
        Err(error) => (held, Err(error)),
    }
}

/// The page that an exchange gives, and what is held after it.
fn page_after(
    alloc: Global,
    held: ExecutionSession,
    answered: std::result::Result<Bytes, LinkError>,
) -> (ExecutionSession, Result<CommandResponse>)
    ensures came { PageCame answered (page_in result.1) }
    ensures held { result.0 ≡ held_after answered held }
{
    match answered {
        Ok(reply) => (held, read_response(alloc, reply.as_slice())),
        Err(failure) => {
            let held = held.after(&failure);
            (
                held,
                Err(either(fault_error(alloc, failure, Retryability::None))),
            )
        }
    }
}

/// The error, whichever it is.
fn either(error: std::result::Result<Error, Error>) -> Error
    ensures ok { IfOk error (λ found. result ≡ found) }
    ensures err { IfErr error (λ found. result ≡ found) }
{
    match error {
        Ok(error) => error,
        Err(error) => error,
    }
}

/// Ends a cursor, under no session, and passes over whatever it is answered: the error stays, but where there was no
/// memory to make its command.
fn end_cursor<L: Link>(
    alloc: Global,
    link: &mut L,
    conn: &Conn,
    mut kill: KillCursors,
    error: Error,
) -> Error
    ensures ends { (namespace : Named) → (cursor : ℤ) → kill.target ≡ at_namespace namespace →
        kill.cursor ≡ cursor → EndsAskedCursor conn.now (besides_out (L.tells link.old))
        (besides_out (L.tells link.new)) namespace cursor error result }
    ensures out { (L.tells link.new).out ≡ (L.tells link.old).out }
{
    match exchange_aside(alloc, link, conn, &mut kill, None) {
        Ok(_answer) => error,
        Err(refused) => {
            if is_memory(&refused) {
                drop(error);
                refused
            } else {
                drop(refused);
                error
            }
        }
    }
}

/// One exchange of a command without writes over a connection, under a session or none, and what it was answered; or
/// why it did not go out.
fn exchange_aside<C: Operation, L: Link>(
    alloc: Global,
    link: &mut L,
    conn: &Conn,
    command: &mut C,
    session: Option<&[u8; 16]>,
) -> Result<std::result::Result<Bytes, LinkError>>
    requires bodies { HasBodies (C.spec command.old) [] }
    requires none { (statements : ℕ) → IsFixed (C.built command.old) statements → statements ≡ 0 }
    requires never { (fixed : Option ℕ) (description : Described) (error : Failure) →
        (C.spec command.old).refused fixed description error → ⊥ }
    ensures aside { ExchangesAside (C.spec command.old) (C.next command.old) conn.now
        (option_copied session.entry)
        (besides_out (L.tells link.old)) (besides_out (L.tells link.new)) result }
    ensures spec { SameSpec (C.spec command.old) (C.spec command.new) }
    ensures out { (L.tells link.new).out ≡ (L.tells link.old).out }
{
    let built: Command = command.build(alloc, &conn.description)?;
    let frame = frame_of(alloc, built, session, None, None)?;
    Ok(link.exchange(alloc, conn, &frame, &[]))
}
