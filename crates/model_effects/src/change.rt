//! What a send makes of a server: made in full first, then put in place, so that want of memory leaves
//! the server as it was.
ghost use Rattle.std.specs.Prelude.{◌≡◌, ◌++◌, Some, IsSome, IfOk, OnOk, OnErr};
ghost use Rattle.std.specs.FinMap as finite;
ghost use Rattle.driver_link.specs.Cursors.{closed, results_left};
ghost use Rattle.driver_link.specs.Gathered.{entries_in};
ghost use Rattle.driver_link.specs.Serving.{has_entries};
ghost use Rattle.driver_link.specs.Sessions.{taken, denied_transaction};
ghost use Rattle.driver_link.specs.declared.machine.KnownSession.{KnownSession as Known};
ghost use Rattle.model_effects.specs.Changes.{stepped, logged_by, ended, step_in, effect_in, changed};
ghost use Rattle.model_effects.specs.Displacing.{displaced_by, session_displaced, outdated};

use crate::cases::begin_session;
use crate::places::take_out;
use bson_lite::{Document, List};
use driver_link::{ById, Counted, Entry, KnownSession, Server, ServerTransaction};
use model_statements::cursors::place_of;
use std::alloc::{AllocError, Global};
use std::mem;

/// What a send does to its session, once its number is taken.
#[derive(Drop)]
pub enum SessionStep {
    /// Nothing.
    Stays,
    /// Statements outside transactions enter the log and the kept results.
    Keeps {
        entries: List<Entry>,
        results: List<(usize, Counted)>,
        ran: bool,
    },
    /// Statements gather in the transaction.
    Gathers {
        entries: List<Entry>,
        ran: bool,
    },
    /// Statements ran, and the transaction is aborted.
    Fails {
        ran: bool,
    },
    /// The transaction is aborted.
    Ends,
    /// The entries of the transaction enter the log.
    Commits,
    /// The transaction is aborted, unless it is committed.
    Denied,
}

/// What a send does to the sessions and the log.
#[derive(Drop)]
pub enum Effect {
    /// Nothing.
    Nothing,
    /// Statements enter the log.
    Logged {
        entries: List<Entry>,
    },
    /// A session takes a number and a step; its transaction may then be aborted.
    Taken {
        id: [u8; 16],
        number: i64,
        in_transaction: bool,
        start: bool,
        step: SessionStep,
        transient: bool,
    },
}

/// What a send does to the cursors.
#[derive(Drop)]
pub enum CursorChange {
    Nothing,
    Opens { left: List<Document> },
    Closes { cursor: i64 },
}

/// What a change takes the place of.
#[derive(Drop)]
pub struct Displaced {
    /// What was known of a session that begins anew.
    pub session: Option<KnownSession>,
    /// What was left of a cursor that is closed.
    pub left: Option<List<Document>>,
}

/// Puts what a send does into a server. The answer is what that takes the place of. A refusal leaves the
/// server as it was.
#[tactic(auto, unfolding(crate::specs::Changes::changed, crate::specs::Changes::effect_in))]
pub fn put_changes(
    server: &mut Server,
    alloc: Global,
    effect: Effect,
    change: CursorChange,
) -> Result<Displaced, AllocError>
    ensures ok { OnOk result (server.new ≡ changed effect change server.old) }
    ensures displaced { IfOk result (λ displaced. displaced ≡ displaced_by effect change server.old) }
    ensures err { OnErr result (server.new ≡ server.old) }
{
    match change {
        CursorChange::Nothing => {
            let session = put_effect(server, alloc, effect)?;
            Ok(Displaced {
                session,
                left: None,
            })
        }
        CursorChange::Opens { left } => put_opening(server, alloc, effect, left),
        CursorChange::Closes { cursor } => {
            let session = put_effect(server, alloc, effect)?;
            let left = close(&mut server.cursors, alloc, cursor);
            Ok(Displaced { session, left })
        }
    }
}

/// Opens a cursor, and puts an effect into a server.
#[tactic(auto, unfolding(crate::specs::Changes::changed, crate::specs::Changes::effect_in))]
fn put_opening(
    server: &mut Server,
    alloc: Global,
    effect: Effect,
    left: List<Document>,
) -> Result<Displaced, AllocError>
    ensures ok { OnOk result (server.new ≡ changed effect (CursorChange.Opens left) server.old) }
    ensures displaced { IfOk result
        (λ displaced. displaced ≡ displaced_by effect (CursorChange.Opens left) server.old) }
    ensures err { OnErr result (server.new ≡ server.old) }
{
    let had = server.cursors.len();
    server.cursors.push(Some(left))?;
    match put_effect(server, alloc, effect) {
        Ok(session) => Ok(Displaced {
            session,
            left: None,
        }),
        Err(refused) => {
            server.cursors.truncate(had);
            Err(refused)
        }
    }
}

/// Closes a cursor. The answer is what was left of it, where it was open.
#[tactic(auto, unfolding(driver_link::specs::Cursors::closed, driver_link::specs::Cursors::results_left))]
fn close(
    cursors: &mut List<Option<List<Document>>>,
    alloc: Global,
    cursor: i64,
) -> Option<List<Document>>
    ensures closed { cursors.new ≡ closed cursor cursors.old }
    ensures left { result ≡ results_left cursor cursors.old }
{
    match place_of(cursor) {
        Some(at) => take_out(cursors, alloc, at),
        None => None,
    }
}

/// Puts the effect on sessions and log into a server. The answer is what was known of a session that
/// begins anew.
#[tactic(auto, unfolding(crate::specs::Changes::effect_in))]
fn put_effect(
    server: &mut Server,
    alloc: Global,
    effect: Effect,
) -> Result<Option<KnownSession>, AllocError>
    ensures ok { OnOk result (server.new ≡ effect_in effect server.old) }
    ensures displaced { IfOk result (λ displaced. displaced ≡ session_displaced effect server.old.sessions) }
    ensures err { OnErr result (server.new ≡ server.old) }
{
    match effect {
        Effect::Nothing => Ok(None),
        Effect::Logged { entries } => {
            server.log.append(entries)?;
            Ok(None)
        }
        Effect::Taken {
            id,
            number,
            in_transaction,
            start,
            step,
            transient,
        } => {
            let taking = Taking {
                number,
                in_transaction,
                start,
            };
            put_step(server, alloc, id, taking, step, transient)
        }
    }
}

/// How a session takes a number.
#[derive(Clone, Copy, PartialEq, Eq)]
struct Taking {
    number: i64,
    in_transaction: bool,
    start: bool,
}

/// Takes the number of a session, and a step of it. The answer is what was known of it where it begins
/// anew.
#[tactic(auto, unfolding(driver_link::specs::Sessions::taken, crate::specs::Displacing::outdated))]
fn put_step(
    server: &mut Server,
    alloc: Global,
    id: [u8; 16],
    taking: Taking,
    step: SessionStep,
    transient: bool,
) -> Result<Option<KnownSession>, AllocError>
    ensures ok { OnOk result
        (server.new ≡ step_in id step transient
        (taken taking.number taking.in_transaction taking.start (finite.get server.old.sessions id))
        server.old) }
    ensures displaced { IfOk result
        (λ displaced. displaced ≡ outdated taking.number (finite.get server.old.sessions id)) }
    ensures err { OnErr result (server.new ≡ server.old) }
{
    let anew = begin_session(alloc, taking.number, taking.in_transaction, taking.start);
    let Some(known) = server.sessions.get(&id) else {
        return begin(server, alloc, id, anew, step, transient);
    };
    if known.greatest < taking.number {
        return begin(server, alloc, id, anew, step, transient);
    }
    go_on(server, alloc, id, step, transient)?;
    Ok(None)
}

/// Takes a step of a session that begins, or begins anew, and makes it known. The answer is what was known
/// of it.
fn begin(
    server: &mut Server,
    alloc: Global,
    id: [u8; 16],
    mut known: KnownSession,
    step: SessionStep,
    transient: bool,
) -> Result<Option<KnownSession>, AllocError>
    ensures ok { OnOk result (server.new ≡ step_in id step transient known server.old) }
    ensures displaced { IfOk result (λ displaced. displaced ≡ finite.get server.old.sessions id) }
    ensures err { OnErr result (server.new ≡ server.old) }
{
    let had = server.log.len();
    take_step(&mut known, &mut server.log, alloc, step, transient)?;
    match server.sessions.insert(id, known) {
        Ok(stood) => Ok(stood),
        Err(refused) => {
            server.log.truncate(had);
            Err(refused)
        }
    }
}

/// Takes a step of a session that goes on under its number.
fn go_on(
    server: &mut Server,
    alloc: Global,
    id: [u8; 16],
    step: SessionStep,
    transient: bool,
) -> Result<(), AllocError>
    requires { IsSome (finite.get server.old.sessions id) }
    ensures ok { OnOk result
        ((known : Known) → finite.get server.old.sessions id ≡ Some known →
        server.new ≡ step_in id step transient known server.old) }
    ensures err { OnErr result (server.new ≡ server.old) }
{
    let mut known = lend(&mut server.sessions, alloc, id);
    match take_step(&mut known, &mut server.log, alloc, step, transient) {
        Ok(()) => {
            give_back(&mut server.sessions, id, known);
            Ok(())
        }
        Err(refused) => {
            give_back(&mut server.sessions, id, known);
            Err(refused)
        }
    }
}

/// Takes a step of a session, and aborts its transaction where that is called transient. A refusal
/// leaves both as they were.
fn take_step(
    known: &mut KnownSession,
    log: &mut List<Entry>,
    alloc: Global,
    step: SessionStep,
    transient: bool,
) -> Result<(), AllocError>
    ensures session { OnOk result (known.new ≡ ended transient (stepped step known.old)) }
    ensures log { OnOk result (log.new ≡ logged_by step known.old log.old) }
    ensures known_err { OnErr result (known.new ≡ known.old) }
    ensures log_err { OnErr result (log.new ≡ log.old) }
{
    move_on(known, log, alloc, step)?;
    if transient {
        known.transaction = ServerTransaction::Aborted;
    }
    Ok(())
}

/// Takes a step of a session. A refusal leaves both as they were.
fn move_on(
    known: &mut KnownSession,
    log: &mut List<Entry>,
    alloc: Global,
    step: SessionStep,
) -> Result<(), AllocError>
    ensures session { OnOk result (known.new ≡ stepped step known.old) }
    ensures log { OnOk result (log.new ≡ logged_by step known.old log.old) }
    ensures known_err { OnErr result (known.new ≡ known.old) }
    ensures log_err { OnErr result (log.new ≡ log.old) }
{
    match step {
        SessionStep::Stays => Ok(()),
        SessionStep::Keeps {
            entries,
            results,
            ran,
        } => keep(known, log, entries, results, ran),
        SessionStep::Gathers { entries, ran } => gather(known, entries, ran),
        SessionStep::Fails { ran } => {
            known.ran = known.ran || ran;
            known.transaction = ServerTransaction::Aborted;
            Ok(())
        }
        SessionStep::Ends => {
            known.transaction = ServerTransaction::Aborted;
            Ok(())
        }
        SessionStep::Commits => commit(known, log, alloc),
        SessionStep::Denied => {
            deny(&mut known.transaction);
            Ok(())
        }
    }
}

/// Logs entries, and keeps their results.
fn keep(
    known: &mut KnownSession,
    log: &mut List<Entry>,
    entries: List<Entry>,
    results: List<(usize, Counted)>,
    ran: bool,
) -> Result<(), AllocError>
    ensures session { OnOk result (known.new ≡ stepped (SessionStep.Keeps entries results ran) known.old) }
    ensures log { OnOk result (log.new ≡ log.old ++ entries) }
    ensures known_err { OnErr result (known.new ≡ known.old) }
    ensures log_err { OnErr result (log.new ≡ log.old) }
{
    let had = log.len();
    log.append(entries)?;
    match known.kept.extend(results.into_vec()) {
        Ok(()) => {
            known.ran = known.ran || ran;
            Ok(())
        }
        Err(refused) => {
            log.truncate(had);
            Err(refused)
        }
    }
}

/// Appends entries to those that the transaction has gathered.
fn gather(known: &mut KnownSession, more: List<Entry>, ran: bool) -> Result<(), AllocError>
    ensures ok { OnOk result (known.new ≡ stepped (SessionStep.Gathers more ran) known.old) }
    ensures err { OnErr result (known.new ≡ known.old) }
{
    append_gathered(&mut known.transaction, more)?;
    known.ran = known.ran || ran;
    Ok(())
}

/// Appends entries to those that a transaction has gathered; it then runs.
fn append_gathered(transaction: &mut ServerTransaction, more: List<Entry>) -> Result<(), AllocError>
    ensures ok { OnOk result
        (transaction.new ≡ ServerTransaction.Running (entries_in transaction.old ++ more)) }
    ensures err { OnErr result (transaction.new ≡ transaction.old) }
{
    match transaction {
        ServerTransaction::Running { entries } => return entries.append(more),
        _ => {}
    }
    *transaction = ServerTransaction::Running { entries: more };
    Ok(())
}

/// Moves the entries that the transaction has gathered to the log's end.
fn commit(known: &mut KnownSession, log: &mut List<Entry>, alloc: Global) -> Result<(), AllocError>
    ensures session { OnOk result (known.new ≡ stepped SessionStep.Commits known.old) }
    ensures log { OnOk result (log.new ≡ log.old ++ entries_in known.old.transaction) }
    ensures known_err { OnErr result (known.new ≡ known.old) }
    ensures log_err { OnErr result (log.new ≡ log.old) }
{
    let gathered = move_gathered(&mut known.transaction, log, alloc)?;
    known.ran = known.ran || gathered;
    known.transaction = ServerTransaction::Committed;
    Ok(())
}

/// Moves the entries of a transaction to the log's end, and answers whether there were some.
fn move_gathered(
    transaction: &mut ServerTransaction,
    log: &mut List<Entry>,
    alloc: Global,
) -> Result<bool, AllocError>
    ensures some { IfOk result (λ some. some ≡ has_entries (entries_in transaction.old)) }
    ensures log { OnOk result (log.new ≡ log.old ++ entries_in transaction.old) }
    ensures err { OnErr result (transaction.new ≡ transaction.old) }
    ensures log_err { OnErr result (log.new ≡ log.old) }
{
    match transaction {
        ServerTransaction::Running { entries } => {
            let some = !entries.is_empty();
            move_all(entries, log, alloc)?;
            Ok(some)
        }
        _ => Ok(false),
    }
}

/// Moves entries to the log's end.
fn move_all(
    entries: &mut List<Entry>,
    log: &mut List<Entry>,
    alloc: Global,
) -> Result<(), AllocError>
    ensures log { OnOk result (log.new ≡ log.old ++ entries.old) }
    ensures err { OnErr result (entries.new ≡ entries.old) }
    ensures log_err { OnErr result (log.new ≡ log.old) }
{
    let mut moved = mem::replace(entries, List::new(alloc)).into_vec();
    let mut items = mem::replace(log, List::new(alloc)).into_vec();
    let outcome = items.append(&mut moved);
    *log = List::from_vec(items);
    *entries = List::from_vec(moved);
    outcome
}

/// A transaction in which a send was denied is aborted, unless it is committed.
fn deny(transaction: &mut ServerTransaction)
    ensures { transaction.new ≡ denied_transaction transaction.old }
{
    match transaction {
        ServerTransaction::Committed => return,
        _ => {}
    }
    *transaction = ServerTransaction::Aborted;
}

/// What is known of a session, taken out of the map; an empty one stands there until it is given back.
pub fn lend(sessions: &mut ById<KnownSession>, alloc: Global, id: [u8; 16]) -> KnownSession
    requires { IsSome (finite.get sessions.old id) }
    ensures known { finite.get sessions.old id ≡ Some result }
    ensures there { IsSome (finite.get sessions.new id) }
    ensures back { (known : Known) →
        finite.insert sessions.new id known ≡ finite.insert sessions.old id known }
{
    let empty = begin_session(alloc, 0, false, false);
    match sessions.insert(id, empty) {
        Ok(Some(known)) => known,
        _ => unreachable!(),
    }
}

/// Puts what is known of a session in place of what stands there.
pub fn give_back(sessions: &mut ById<KnownSession>, id: [u8; 16], known: KnownSession)
    requires { IsSome (finite.get sessions.old id) }
    ensures { sessions.new ≡ finite.insert sessions.old id known }
{
    match sessions.insert(id, known) {
        Ok(_) => {}
        Err(_) => unreachable!(),
    }
}
