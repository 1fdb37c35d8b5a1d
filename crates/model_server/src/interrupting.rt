//! Interrupted sends: the first statements run, and then an error is answered whose labels tell no lie.
ghost use Rattle.std.specs.Prelude.{◌≡◌, ◌&&◌, List as Listed, Some, false, IfOk};
ghost use Rattle.driver_link.specs.Cases.{case_of as case_met, is_decided as decided, known_of, results_of};
ghost use Rattle.driver_link.specs.Exchange.{interrupted as after_interruption, interrupted_labels, interrupted_reply as reply_interrupted};
ghost use Rattle.driver_link.specs.Gathered.{entries_in, gathered_by, is_numbered};
ghost use Rattle.driver_link.specs.Honesty.{can_be_transient as transient_by_rule};
ghost use Rattle.driver_link.specs.Interrupting.{interrupted_case as left_of, interrupted_done as done_by_rule, interruption, session_interrupted, runs_in as runs_by_rule, told_of_error};
ghost use Rattle.driver_link.specs.Replies.{error_reply};
ghost use Rattle.driver_link.specs.Serving.{has_entries};
ghost use Rattle.driver_link.specs.declared.machine.Entry.{Entry as Written};
ghost use Rattle.driver_link.specs.declared.machine.KnownSession.{KnownSession as Known};
ghost use Rattle.driver_link.specs.declared.machine.Send.{Send as Sent};
ghost use Rattle.driver_link.specs.declared.machine.Server.{Server as State};
ghost use Rattle.model_effects.specs.Changes.{changed, effect_in};
ghost use Rattle.model_effects.specs.Does.{Does};
ghost use Rattle.model_effects.specs.Parts.{parts_of, ran_of};
ghost use Rattle.model_effects.specs.Seen.{seen, is_too_old as too_old};
ghost use Rattle.model_server.specs.Transient.{called, still_transient};

use crate::honesty::{Judgement, has_transient, honest, ran_before};
use crate::refusing::can_be_transient;
use bson_lite::{ByIndex, List, Text};
use driver_link::{Send, Server, ServerTransaction, Statement};
use model_effects::cases::{Case, case_of, is_decided, is_in_transaction, kept_of, writes_of};
use model_effects::change::{CursorChange, Effect, SessionStep};
use model_effects::exchange::{Prepared, prepare, unnumbered_effect};
use model_effects::serving::step_in;
use model_replies::kept_reply::Reply;
use model_replies::replying::error;
use model_statements::statements::{first_statements, has_run};
use std::alloc::{AllocError, Global};

/// The case as an interruption leaves it.
fn interrupted_case(after: u64, case: Case) -> Case
    ensures { (entries : Listed Written) → seen result entries ≡ left_of after (seen case entries) }
{
    match case {
        Case::Commits => {
            if after == 0 {
                Case::Nothing
            } else {
                Case::Commits
            }
        }
        Case::Aborts => Case::Nothing,
        Case::OfCursor => Case::Nothing,
        other => other,
    }
}

/// The statements that run before an interruption, with those that were kept among them.
fn interrupted_done(
    alloc: Global,
    server: &Server,
    send: &Send,
    case: Case,
    after: u64,
) -> Result<List<Statement>, AllocError>
    ensures { IfOk result
        (λ done. (entries : Listed Written) →
        done ≡ done_by_rule after (seen case entries) (results_of (known_of server.now send.now))
        send.now.body) }
{
    let none = ByIndex::new(alloc);
    let writes = writes_of(&send.body);
    match case {
        Case::Outside => match kept_of(server, send) {
            Some(kept) => first_statements(alloc, kept, after, writes),
            None => first_statements(alloc, &none, after, writes),
        },
        Case::Gathers => first_statements(alloc, &none, after, writes),
        _ => Ok(List::new(alloc)),
    }
}

/// Whether a transaction has gathered entries.
fn has_gathered(transaction: &ServerTransaction) -> bool
    ensures { result ≡ has_entries (entries_in transaction.now) }
{
    match transaction {
        ServerTransaction::Running { entries } => !entries.is_empty(),
        _ => false,
    }
}

/// Whether the transaction under a send's number has gathered entries.
#[tactic(auto, unfolding(driver_link::specs::Cases::known_as, driver_link::specs::Sessions::taken))]
fn gathered_before(server: &Server, send: &Send) -> bool
    ensures { result ≡ has_entries (gathered_by (known_of server.now send.now)) }
{
    let (Some(id), Some(number)) = (send.session, send.number) else {
        return false;
    };
    let Some(known) = server.sessions.get(&id) else {
        return false;
    };
    if known.greatest < number {
        return false;
    }
    has_gathered(&known.transaction)
}

/// Whether a statement ran before an interruption.
fn runs_in(server: &Server, send: &Send, case: Case, done: &[Statement]) -> bool
    ensures { result ≡ runs_by_rule (seen case (gathered_by (known_of server.now send.now))) done.now }
{
    match case {
        Case::Commits => gathered_before(server, send),
        _ => has_run(done),
    }
}

/// Whether a send's transaction can be called transient once it was interrupted in a case.
fn can_still_be_transient(alloc: Global, server: &Server, send: &Send, case: Case) -> bool
    ensures { (entries : Listed Written) →
        result ≡ still_transient (seen case entries)
        (transient_by_rule send.now.session send.now.number server.now send.now) }
{
    match case {
        Case::Gathers => true,
        Case::Commits => false,
        _ => can_be_transient(alloc, server, send),
    }
}

/// The step of a send that was interrupted in its case.
fn interrupted_step(
    alloc: Global,
    send: &Send,
    case: Case,
    done: &[Statement],
) -> Result<SessionStep, AllocError>
    ensures { IfOk result
        (λ step. (known : Known) →
        Does session_interrupted step case done.now (ran_of send.now done.now) known) }
{
    match case {
        Case::Gathers => Ok(SessionStep::Fails { ran: has_run(done) }),
        _ => step_in(alloc, send, case, done),
    }
}

/// Whether an answer calls a transaction transient: only of a send that is in one.
fn calls_transient(transient: bool, in_transaction: bool) -> bool
    ensures { result ≡ transient && in_transaction }
{
    transient && in_transaction
}

/// What an interrupted send under a number does to sessions and log, where its transaction is then called
/// transient or not.
fn numbered_effect(
    alloc: Global,
    id: [u8; 16],
    number: i64,
    send: &Send,
    case: Case,
    done: &[Statement],
    transient: bool,
) -> Result<Effect, AllocError>
    requires early { too_old case ≡ false }
    requires session { send.now.session ≡ Some id }
    requires number { send.now.number ≡ Some number }
    ensures { IfOk result
        (λ effect. (state : State) →
        effect_in effect state ≡
        called transient (parts_of session_interrupted case done.now state send.now) send.now) }
{
    let step = interrupted_step(alloc, send, case, done)?;
    let in_transaction = is_in_transaction(send);
    Ok(Effect::Taken {
        id,
        number,
        in_transaction,
        start: send.start,
        step,
        transient: calls_transient(transient, in_transaction),
    })
}

/// What an interrupted send without a number does to sessions and log.
fn effect_without_number(
    alloc: Global,
    send: &Send,
    case: Case,
    done: &[Statement],
    transient: bool,
) -> Result<Effect, AllocError>
    requires { is_numbered send.now.session send.now.number ≡ false }
    ensures { IfOk result
        (λ effect. (state : State) →
        effect_in effect state ≡
        called transient (parts_of session_interrupted case done.now state send.now) send.now) }
{
    let _called = transient;
    unnumbered_effect(alloc, send, case, done)
}

/// What an interrupted send does to sessions and log, where its transaction is then called transient or
/// not.
fn interrupted_effect(
    alloc: Global,
    send: &Send,
    case: Case,
    done: &[Statement],
    transient: bool,
) -> Result<Effect, AllocError>
    requires { too_old case ≡ false }
    ensures { IfOk result
        (λ effect. (state : State) →
        effect_in effect state ≡
        called transient (parts_of session_interrupted case done.now state send.now) send.now) }
{
    match (send.session, send.number) {
        (Some(id), Some(number)) => numbered_effect(alloc, id, number, send, case, done, transient),
        _ => effect_without_number(alloc, send, case, done, transient),
    }
}

/// Makes what a send comes to that was interrupted in a case which the rules on numbers and transactions
/// do not decide. It holds whatever the trace is by then.
fn interrupt_in(
    server: &Server,
    alloc: Global,
    send: &Send,
    case: Case,
    after: u64,
    code: i32,
    labels: &[Text],
) -> Result<Prepared, AllocError>
    requires case { seen case (gathered_by (known_of server.now send.now)) ≡
        left_of after (case_met server.now send.now) }
    requires open { decided (case_met server.now send.now) ≡ false }
    ensures reply { IfOk result
        (λ made. (trace : Listed Sent) →
        made.reply ≡ error_reply code
        (interrupted_labels after labels.now (record server.now { trace = trace }) send.now)) }
    ensures server { IfOk result
        (λ made. (trace : Listed Sent) →
        changed made.effect made.change (record server.now { trace = trace }) ≡ told_of_error
        (interrupted_labels after labels.now (record server.now { trace = trace }) send.now)
        (interruption after (record server.now { trace = trace }) send.now) send.now) }
{
    let done = interrupted_done(alloc, server, send, case, after)?;
    let facts = Judgement {
        ran_now: runs_in(server, send, case, done.as_slice()),
        ran_before: ran_before(server, send),
        can_be_transient: can_still_be_transient(alloc, server, send, case),
    };
    let answered = honest(alloc, facts, labels)?;
    let reply = error(alloc, code, answered.as_slice())?;
    let transient = has_transient(answered.as_slice());
    let effect = interrupted_effect(alloc, send, case, done.as_slice(), transient)?;
    Ok(Prepared {
        reply: Reply::whole(reply),
        effect,
        change: CursorChange::Nothing,
    })
}

/// Makes what an interrupted send comes to. It holds whatever the trace is by then.
pub(crate) fn interrupt(
    server: &Server,
    alloc: Global,
    send: &Send,
    after: u64,
    code: i32,
    labels: &[Text],
) -> Result<Prepared, AllocError>
    ensures reply { IfOk result
        (λ made. (trace : Listed Sent) →
        made.reply ≡ reply_interrupted after code labels.now (record server.now { trace = trace }) send.now) }
    ensures server { IfOk result
        (λ made. (trace : Listed Sent) →
        changed made.effect made.change (record server.now { trace = trace }) ≡
        after_interruption after labels.now (record server.now { trace = trace }) send.now) }
{
    let case = case_of(alloc, server, send);
    if is_decided(case) {
        return prepare(server, alloc, send, &[], &[], &None, None);
    }
    let left = interrupted_case(after, case);
    interrupt_in(server, alloc, send, left, after, code, labels)
}
