//! What serving a send comes to, made in full before anything is put in place.
ghost use Rattle.std.specs.Prelude.{◌≡◌, List as Listed, false, IfOk};
ghost use Rattle.driver_link.specs.Exchange.{empty_server, plan_of};
ghost use Rattle.driver_link.specs.Gathered.{is_numbered};
ghost use Rattle.driver_link.specs.Replies.{served_reply};
ghost use Rattle.driver_link.specs.Serving.{session_after, served as serving};
ghost use Rattle.driver_link.specs.declared.machine.Send.{Send as Sent};
ghost use Rattle.driver_link.specs.declared.machine.Server.{Server as State};
ghost use Rattle.model_effects.specs.Changes.{changed, effect_in};
ghost use Rattle.model_effects.specs.Parts.{Makes, parts_of};

use crate::cases::{Case, is_in_transaction, is_too_old, met_of, writes_of};
use crate::change::{CursorChange, Effect};
use crate::serving::{cursor_change, done_under, kept_reply_in, step_in};
use bson_lite::List;
use driver_link::{ById, Failing, Planned, PlannedConcern, Send, Server, Statement};
use model_replies::kept_reply::Reply;
use model_statements::statements::entries;
use std::alloc::{AllocError, Global};

/// A server that has seen nothing. It takes no memory.
pub fn new_server(alloc: Global) -> Server
    ensures { result ≡ empty_server }
{
    Server {
        sessions: ById::new(alloc),
        log: List::new(alloc),
        waiting: List::new(alloc),
        cursors: List::new(alloc),
        trace: List::new(alloc),
    }
}

/// What serving a send does to sessions and log.
fn effect_of(
    alloc: Global,
    send: &Send,
    case: Case,
    done: &[Statement],
) -> Result<Effect, AllocError>
    ensures { IfOk result
        (λ effect. (state : State) →
        effect_in effect state ≡ parts_of session_after case done.now state send.now) }
{
    if is_too_old(case) {
        return Ok(Effect::Nothing);
    }
    match (send.session, send.number) {
        (Some(id), Some(number)) => {
            let step = step_in(alloc, send, case, done)?;
            Ok(Effect::Taken {
                id,
                number,
                in_transaction: is_in_transaction(send),
                start: send.start,
                step,
                transient: false,
            })
        }
        _ => unnumbered_effect(alloc, send, case, done),
    }
}

/// What serving a send without a number does to the log.
pub fn unnumbered_effect(
    alloc: Global,
    send: &Send,
    case: Case,
    done: &[Statement],
) -> Result<Effect, AllocError>
    requires { is_numbered send.now.session send.now.number ≡ false }
    ensures { IfOk result
        (λ effect. (makes : Makes) (state : State) →
        effect_in effect state ≡ parts_of makes case done.now state send.now) }
{
    match case {
        Case::Outside => {
            let entries = entries(
                alloc,
                send.session,
                send.number,
                writes_of(&send.body),
                done,
            )?;
            Ok(Effect::Logged { entries })
        }
        _ => Ok(Effect::Nothing),
    }
}

/// What serving a send comes to, made in full.
#[derive(Drop)]
pub struct Prepared {
    pub reply: Reply,
    pub effect: Effect,
    pub change: CursorChange,
}

/// Makes what serving a send comes to. It holds whatever the trace is by then.
pub fn prepare(
    server: &Server,
    alloc: Global,
    send: &Send,
    results: &[Planned],
    fail: &[Failing],
    concern: &Option<PlannedConcern>,
    page: Option<u64>,
) -> Result<Prepared, AllocError>
    ensures reply { IfOk result
        (λ made. (trace : Listed Sent) →
        made.reply ≡ served_reply (plan_of results.now fail.now concern.now page)
        (record server.now { trace = trace }) send.now) }
    ensures server { IfOk result
        (λ made. (trace : Listed Sent) →
        changed made.effect made.change (record server.now { trace = trace }) ≡
        serving (plan_of results.now fail.now concern.now page) (record server.now { trace = trace })
        send.now) }
{
    let met = met_of(alloc, server, send);
    let case = met.case;
    let done = done_under(alloc, met.kept, &send.body, case, results, fail)?;
    let reply = kept_reply_in(alloc, server, send, case, page, concern, done.as_slice())?;
    let effect = effect_of(alloc, send, case, done.as_slice())?;
    let change = cursor_change(alloc, send, case, page, done.as_slice())?;
    Ok(Prepared {
        reply,
        effect,
        change,
    })
}
