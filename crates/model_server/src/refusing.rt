//! Refused sends: nothing runs, and an error is answered whose labels tell no lie.
ghost use Rattle.std.specs.Prelude.{◌≡◌, List as Listed, IfOk};
ghost use Rattle.driver_link.specs.Exchange.{refused_labels};
ghost use Rattle.driver_link.specs.Honesty.{can_be_transient as transient_by_rule};
ghost use Rattle.driver_link.specs.Interrupting.{told_of_error};
ghost use Rattle.driver_link.specs.Replies.{error_reply};
ghost use Rattle.driver_link.specs.Sessions.{is_committed as committed};
ghost use Rattle.driver_link.specs.declared.machine.Send.{Send as Sent};
ghost use Rattle.driver_link.specs.declared.machine.Server.{Server as State};
ghost use Rattle.model_effects.specs.Changes.{changed, effect_in};

use crate::honesty::{Judgement, has_transient, honest, ran_before};
use bson_lite::Text;
use driver_link::{Send, Server, ServerTransaction};
use model_effects::cases::{begin_session, is_in_transaction};
use model_effects::change::{CursorChange, Effect, SessionStep};
use model_effects::exchange::Prepared;
use model_replies::kept_reply::Reply;
use model_replies::replying::error;
use std::alloc::{AllocError, Global};

/// Whether a transaction is committed.
fn is_committed(transaction: &ServerTransaction) -> bool
    ensures { result ≡ committed transaction.now }
{
    matches!(transaction, ServerTransaction::Committed)
}

/// Whether a send's transaction can be called transient.
#[tactic(auto, unfolding(driver_link::specs::Honesty::can_be_transient, driver_link::specs::Sessions::is_below, driver_link::specs::Sessions::taken))]
pub(crate) fn can_be_transient(alloc: Global, server: &Server, send: &Send) -> bool
    ensures { result ≡ transient_by_rule send.now.session send.now.number server.now send.now }
{
    let (Some(id), Some(number)) = (send.session, send.number) else {
        return true;
    };
    if !is_in_transaction(send) {
        return true;
    }
    let anew = begin_session(alloc, number, is_in_transaction(send), send.start);
    let Some(known) = server.sessions.get(&id) else {
        return !is_committed(&anew.transaction);
    };
    if number < known.greatest {
        return false;
    }
    if known.greatest < number {
        return !is_committed(&anew.transaction);
    }
    !is_committed(&known.transaction)
}

/// What an error with these labels does to its send's session.
#[tactic(auto, unfolding(driver_link::specs::Interrupting::told_of_error, driver_link::specs::Interrupting::transient_as, model_effects::specs::Changes::effect_in))]
fn refused_effect(send: &Send, labels: &[Text]) -> Effect
    ensures { (state : State) → effect_in result state ≡ told_of_error labels.now state send.now }
{
    if !has_transient(labels) {
        return Effect::Nothing;
    }
    let (Some(id), Some(number)) = (send.session, send.number) else {
        return Effect::Nothing;
    };
    let in_transaction = is_in_transaction(send);
    if !in_transaction {
        return Effect::Nothing;
    }
    Effect::Taken {
        id,
        number,
        in_transaction,
        start: send.start,
        step: SessionStep::Stays,
        transient: true,
    }
}

/// Makes what a refused send comes to. It holds whatever the trace is by then.
pub(crate) fn refuse(
    server: &Server,
    alloc: Global,
    send: &Send,
    code: i32,
    labels: &[Text],
) -> Result<Prepared, AllocError>
    ensures reply { IfOk result
        (λ made. (trace : Listed Sent) →
        made.reply ≡
        error_reply code (refused_labels labels.now (record server.now { trace = trace }) send.now)) }
    ensures server { IfOk result
        (λ made. (trace : Listed Sent) →
        changed made.effect made.change (record server.now { trace = trace }) ≡
        told_of_error (refused_labels labels.now (record server.now { trace = trace }) send.now)
        (record server.now { trace = trace }) send.now) }
{
    let facts = Judgement {
        ran_now: false,
        ran_before: ran_before(server, send),
        can_be_transient: can_be_transient(alloc, server, send),
    };
    let answered = honest(alloc, facts, labels)?;
    let reply = error(alloc, code, answered.as_slice())?;
    let effect = refused_effect(send, answered.as_slice());
    Ok(Prepared {
        reply: Reply::whole(reply),
        effect,
        change: CursorChange::Nothing,
    })
}
