//! How a change is undone: what it needs is noted before it, beside what the change takes the place of.
//! Only what the change itself touches is copied, and nothing that grows with a run.
ghost use Rattle.std.specs.Prelude.{◌≡◌, ◌++◌, Bool, IsSome, List as Listed, IfOk, unwrap_or};
ghost use Rattle.std.specs.FinMap as finite;
ghost use Rattle.driver_link.specs.Gathered.{entries_in};
ghost use Rattle.driver_link.specs.Sessions.{taken};
ghost use Rattle.driver_link.specs.declared.machine.Entry.{Entry as Written};
ghost use Rattle.model_effects.specs.Changes.{changed, effect_in, ended, stepped};
ghost use Rattle.model_effects.specs.Displacing.{displaced_by, outdated, session_displaced};
ghost use Rattle.model_server.specs.Undoing.{closed_place, cursors_before, known_before, lessened, rewritten, server_before, sessions_before, transaction_before};

use bson_lite::{ByIndex, Document, List};
use driver_link::{ById, Counted, Entry, KnownSession, Server, ServerTransaction};
use model_effects::change::{CursorChange, Displaced, Effect, SessionStep, give_back, lend};
use model_effects::places::put_back;
use model_replies::copying::{copied_kept, copied_transaction};
use model_statements::cursors::place_of;
use std::alloc::{AllocError, Global};

/// What a transaction was before a step.
#[derive(Drop)]
pub enum PastTransaction {
    /// As it is after it.
    Same,
    /// Running, with so many entries.
    Running { had: usize },
    /// This one.
    Was { transaction: ServerTransaction },
}

/// What was known of a session before a step under its number. Without kept results they are the same.
#[derive(Drop)]
pub struct PastStep {
    pub ran: bool,
    pub kept: Option<ByIndex<Counted>>,
    pub transaction: PastTransaction,
}

/// What the sessions were before an effect.
#[derive(Drop)]
pub enum PastSessions {
    /// As they are after it.
    Same,
    /// A session was not known, or was so as the effect took its place.
    Began { id: [u8; 16] },
    /// A session went on under its number.
    WentOn { id: [u8; 16], step: PastStep },
}

/// What a server was before a change: its sessions, how many entries and cursors there were, and the place
/// of a cursor that it closes.
#[derive(Drop)]
pub struct Past {
    pub sessions: PastSessions,
    pub entries: usize,
    pub cursors: usize,
    pub closes: Option<usize>,
}

/// Notes a transaction that gathers entries. One that runs loses them again; another is copied.
#[tactic(auto, using(std::proofs::lemmas::List::take_at))]
fn note_gathering(
    alloc: Global,
    transaction: &ServerTransaction,
) -> Result<PastTransaction, AllocError>
    ensures { IfOk result
        (λ past. (more : Listed Written) →
        transaction_before past (ServerTransaction.Running (entries_in transaction.now ++ more)) ≡
        transaction.now) }
{
    match transaction {
        ServerTransaction::Running { entries } => Ok(PastTransaction::Running {
            had: entries.len(),
        }),
        other => note_copy(alloc, other),
    }
}

/// Notes a transaction by a copy.
fn note_copy(alloc: Global, transaction: &ServerTransaction) -> Result<PastTransaction, AllocError>
    ensures { IfOk result (λ past. past ≡ PastTransaction.Was transaction.now) }
{
    Ok(PastTransaction::Was {
        transaction: copied_transaction(alloc, transaction)?,
    })
}

/// Notes a transaction before a step. It is copied only where the step lets all its entries go.
fn note_transaction(
    alloc: Global,
    step: &SessionStep,
    transient: bool,
    known: &KnownSession,
) -> Result<PastTransaction, AllocError>
    ensures { IfOk result
        (λ past. transaction_before past (ended transient (stepped step.now known.now)).transaction ≡
        known.now.transaction) }
{
    if transient {
        return note_copy(alloc, &known.transaction);
    }
    match step {
        SessionStep::Stays => Ok(PastTransaction::Same),
        SessionStep::Keeps { .. } => Ok(PastTransaction::Same),
        SessionStep::Gathers { .. } => note_gathering(alloc, &known.transaction),
        _ => note_copy(alloc, &known.transaction),
    }
}

/// Notes the results that a session keeps before a step, where it adds some.
#[tactic(auto, using(crate::proofs::UndoLaws::kept_same))]
fn note_kept(
    alloc: Global,
    step: &SessionStep,
    known: &KnownSession,
) -> Result<Option<ByIndex<Counted>>, AllocError>
    ensures { IfOk result
        (λ kept. (transient : Bool) →
        unwrap_or kept (ended transient (stepped step.now known.now)).kept ≡ known.now.kept) }
{
    match step {
        SessionStep::Keeps { .. } => Ok(Some(copied_kept(alloc, &known.kept)?)),
        _ => Ok(None),
    }
}

/// Notes what is known of a session before a step under its number.
#[tactic(auto, using(crate::proofs::UndoLaws::step_back))]
fn note_step(
    alloc: Global,
    step: &SessionStep,
    transient: bool,
    known: &KnownSession,
) -> Result<PastStep, AllocError>
    ensures { IfOk result
        (λ past. known_before past (ended transient (stepped step.now known.now)) ≡ known.now) }
{
    Ok(PastStep {
        ran: known.ran,
        kept: note_kept(alloc, step, known)?,
        transaction: note_transaction(alloc, step, transient, known)?,
    })
}

/// Notes the sessions before one takes a number and a step.
#[tactic(auto, unfolding(driver_link::specs::Sessions::taken, model_effects::specs::Displacing::outdated), using(crate::proofs::UndoLaws::begins_back, crate::proofs::UndoLaws::anew_back, crate::proofs::UndoLaws::goes_back))]
fn note_session(
    alloc: Global,
    sessions: &ById<KnownSession>,
    id: [u8; 16],
    number: i64,
    step: &SessionStep,
    transient: bool,
) -> Result<PastSessions, AllocError>
    ensures { IfOk result
        (λ past. (in_transaction start : Bool) →
        sessions_before past (outdated number (finite.get sessions.now id))
        (finite.insert sessions.now id
        (ended transient (stepped step.now (taken number in_transaction start (finite.get sessions.now id)))))
        ≡ sessions.now) }
{
    let Some(known) = sessions.get(&id) else {
        return Ok(PastSessions::Began { id });
    };
    if known.greatest < number {
        return Ok(PastSessions::Began { id });
    }
    Ok(PastSessions::WentOn {
        id,
        step: note_step(alloc, step, transient, known)?,
    })
}

/// Notes the sessions before an effect.
#[tactic(auto, unfolding(model_effects::specs::Changes::effect_in))]
fn note_sessions(
    alloc: Global,
    server: &Server,
    effect: &Effect,
) -> Result<PastSessions, AllocError>
    ensures { IfOk result
        (λ past. sessions_before past (session_displaced effect.now server.now.sessions)
        (effect_in effect.now server.now).sessions ≡ server.now.sessions) }
{
    match effect {
        Effect::Taken {
            id,
            number,
            step,
            transient,
            ..
        } => note_session(alloc, &server.sessions, *id, *number, step, *transient),
        _ => Ok(PastSessions::Same),
    }
}

/// The place of a cursor that a change closes.
fn place_closed(change: &CursorChange) -> Option<usize>
    ensures { result ≡ closed_place change.now }
{
    match change {
        CursorChange::Closes { cursor } => place_of(*cursor),
        _ => None,
    }
}

/// Notes what a server is before a change.
pub fn note(
    alloc: Global,
    server: &Server,
    effect: &Effect,
    change: &CursorChange,
) -> Result<Past, AllocError>
    ensures { IfOk result
        (λ past. server_before past (displaced_by effect.now change.now server.now)
        (changed effect.now change.now server.now) ≡ server.now) }
{
    Ok(Past {
        sessions: note_sessions(alloc, server, effect)?,
        entries: server.log.len(),
        cursors: server.cursors.len(),
        closes: place_closed(change),
    })
}

/// Undoes a change of a server.
pub fn undo(server: &mut Server, alloc: Global, past: Past, displaced: Displaced)
    ensures { server.new ≡ server_before past displaced server.old }
{
    let Past {
        sessions,
        entries,
        cursors,
        closes,
    } = past;
    let Displaced { session, left } = displaced;
    undo_sessions(&mut server.sessions, alloc, sessions, session);
    server.log.truncate(entries);
    undo_cursors(&mut server.cursors, alloc, cursors, closes, left);
}

/// Undoes what a change made of the cursors.
fn undo_cursors(
    cursors: &mut List<Option<List<Document>>>,
    alloc: Global,
    had: usize,
    closes: Option<usize>,
    left: Option<List<Document>>,
)
    ensures { cursors.new ≡ cursors_before had closes left cursors.old }
{
    match (closes, left) {
        (Some(at), Some(open)) => put_back(cursors, alloc, at, open),
        _ => {}
    }
    cursors.truncate(had);
}

/// Undoes what an effect made of the sessions.
fn undo_sessions(
    sessions: &mut ById<KnownSession>,
    alloc: Global,
    past: PastSessions,
    stood: Option<KnownSession>,
)
    ensures { sessions.new ≡ sessions_before past stood sessions.old }
{
    match past {
        PastSessions::Same => {}
        PastSessions::Began { id } => undo_begin(sessions, id, stood),
        PastSessions::WentOn { id, step } => undo_step(sessions, alloc, id, step),
    }
}

/// Undoes how a session began, or began anew.
fn undo_begin(sessions: &mut ById<KnownSession>, id: [u8; 16], stood: Option<KnownSession>)
    ensures { sessions.new ≡ sessions_before (PastSessions.Began id) stood sessions.old }
{
    match stood {
        Some(known) => put_known(sessions, id, known),
        None => {
            sessions.remove(&id);
        }
    }
}

/// Puts what was known of a session in place of what is.
#[tactic(auto, using(crate::proofs::UndoLaws::rewritten_there))]
fn put_known(sessions: &mut ById<KnownSession>, id: [u8; 16], known: KnownSession)
    ensures { sessions.new ≡ rewritten id (λ _. known) sessions.old }
{
    match sessions.get(&id) {
        Some(_) => give_back(sessions, id, known),
        None => {}
    }
}

/// Undoes a step of a session.
fn undo_step(sessions: &mut ById<KnownSession>, alloc: Global, id: [u8; 16], past: PastStep)
    ensures { sessions.new ≡ rewritten id (known_before past) sessions.old }
{
    match sessions.get(&id) {
        Some(_) => undo_there(sessions, alloc, id, past),
        None => {}
    }
}

/// Undoes a step of a session that is known.
fn undo_there(sessions: &mut ById<KnownSession>, alloc: Global, id: [u8; 16], past: PastStep)
    requires { IsSome (finite.get sessions.old id) }
    ensures { sessions.new ≡ rewritten id (known_before past) sessions.old }
{
    let mut known = lend(sessions, alloc, id);
    undo_known(&mut known, past);
    give_back(sessions, id, known);
}

/// Undoes what a step made of what is known of a session.
fn undo_known(known: &mut KnownSession, past: PastStep)
    ensures { known.new ≡ known_before past known.old }
{
    let PastStep {
        ran,
        kept,
        transaction,
    } = past;
    known.ran = ran;
    undo_kept(&mut known.kept, kept);
    undo_transaction(&mut known.transaction, transaction);
}

/// Puts the results back that were kept.
fn undo_kept(kept: &mut ByIndex<Counted>, past: Option<ByIndex<Counted>>)
    ensures { kept.new ≡ unwrap_or past kept.old }
{
    match past {
        Some(was) => *kept = was,
        None => {}
    }
}

/// Undoes what a step made of a transaction.
fn undo_transaction(transaction: &mut ServerTransaction, past: PastTransaction)
    ensures { transaction.new ≡ transaction_before past transaction.old }
{
    match past {
        PastTransaction::Same => {}
        PastTransaction::Running { had } => lessen(transaction, had),
        PastTransaction::Was { transaction: was } => *transaction = was,
    }
}

/// Keeps the first entries of a transaction that runs.
fn lessen(transaction: &mut ServerTransaction, had: usize)
    ensures { transaction.new ≡ lessened had transaction.old }
{
    match transaction {
        ServerTransaction::Running { entries } => entries.truncate(had),
        _ => {}
    }
}
