//! What a send comes to by its item, made in full and then put in place.
ghost use Rattle.std.specs.Prelude.{◌≡◌, ◌++◌, ◌∷◌, [], List as Listed, Some, None, IfOk, OnOk, OnErr};
ghost use Rattle.driver_error.specs.declared.kind.IoKind.TheVariants.{ConnectionReset};
ghost use Rattle.driver_link.specs.Exchange.{met, reply as reply_by, traced};
ghost use Rattle.link_faults.specs.declared.fault.LinkFault.TheVariants.{Io};
ghost use Rattle.driver_link.specs.declared.machine.Send.{Send as Sent};
ghost use Rattle.model_server.specs.Meets.{met_by, reply_of, IsSpelled, note_of as noted};

use crate::interrupting::interrupt;
use crate::refusing::refuse;
use bson_lite::{Bytes, List, Text, TryClone};
use driver_error::IoKind;
use driver_link::{
    Answered, Failing, Item, LinkCall, LinkFault, Planned, PlannedConcern, Send, Server,
};
use model_effects::change::{CursorChange, Effect, put_changes};
use model_effects::exchange::{Prepared, prepare};
use model_replies::copying::copied_send;
use model_replies::kept_reply::Reply;
use model_replies::replying::{REAUTHENTICATION_REQUIRED, error};
use std::alloc::{AllocError, Global};

/// What a send comes to by its item.
#[derive(Drop)]
pub(crate) enum Meeting {
    /// It has its effect, and is answered; without a reply the connection is reset.
    Comes {
        answered: Option<Reply>,
        effect: Effect,
        change: CursorChange,
    },
    /// It waits to be served later.
    Waits {
        late: Send,
    },
}

/// A send that is served and answered.
#[tactic(auto, unfolding(driver_link::specs::Exchange::met, driver_link::specs::Exchange::reply, crate::specs::Meets::met_by))]
fn serve(
    server: &Server,
    alloc: Global,
    send: &Send,
    results: &List<Planned>,
    fail: &List<Failing>,
    concern: &Option<PlannedConcern>,
    page: Option<u64>,
) -> Result<Meeting, AllocError>
    ensures reply { IfOk result
        (λ made. (trace : Listed Sent) →
        reply_of made ≡ reply_by (record server.now { trace = trace }) send.now
        (Item.Serve results.now fail.now concern.now page)) }
    ensures server { IfOk result
        (λ made. (trace : Listed Sent) →
        met_by made (record server.now { trace = trace }) ≡ met (record server.now { trace = trace }) send.now
        (Item.Serve results.now fail.now concern.now page)) }
{
    let made = prepare(
        server,
        alloc,
        send,
        results.as_slice(),
        fail.as_slice(),
        concern,
        page,
    )?;
    Ok(answers(made))
}

/// What was made, with its reply.
fn answers(made: Prepared) -> Meeting
    ensures { result ≡ Meeting.Comes (Some made.reply) made.effect made.change }
{
    let Prepared {
        reply,
        effect,
        change,
    } = made;
    Meeting::Comes {
        answered: Some(reply),
        effect,
        change,
    }
}

/// A send that is served, and whose reply is lost.
#[tactic(auto, unfolding(driver_link::specs::Exchange::met, driver_link::specs::Exchange::reply, crate::specs::Meets::met_by))]
fn lose_reply(server: &Server, alloc: Global, send: &Send) -> Result<Meeting, AllocError>
    ensures reply { IfOk result
        (λ made. (trace : Listed Sent) →
        reply_of made ≡ reply_by (record server.now { trace = trace }) send.now Item.ReplyLost) }
    ensures server { IfOk result
        (λ made. (trace : Listed Sent) →
        met_by made (record server.now { trace = trace }) ≡
        met (record server.now { trace = trace }) send.now Item.ReplyLost) }
{
    let made = prepare(server, alloc, send, &[], &[], &None, None)?;
    let Prepared {
        reply: _,
        effect,
        change,
    } = made;
    Ok(Meeting::Comes {
        answered: None,
        effect,
        change,
    })
}

/// A send that is interrupted.
#[tactic(auto, unfolding(driver_link::specs::Exchange::met, driver_link::specs::Exchange::reply, crate::specs::Meets::met_by))]
fn interrupted(
    server: &Server,
    alloc: Global,
    send: &Send,
    after: u64,
    code: i32,
    labels: &List<Text>,
) -> Result<Meeting, AllocError>
    ensures reply { IfOk result
        (λ made. (trace : Listed Sent) →
        reply_of made ≡ reply_by (record server.now { trace = trace }) send.now
        (Item.Interrupted after code labels.now)) }
    ensures server { IfOk result
        (λ made. (trace : Listed Sent) →
        met_by made (record server.now { trace = trace }) ≡
        met (record server.now { trace = trace }) send.now (Item.Interrupted after code labels.now)) }
{
    let made = interrupt(server, alloc, send, after, code, labels.as_slice())?;
    Ok(answers(made))
}

/// A send that is refused.
#[tactic(auto, unfolding(driver_link::specs::Exchange::met, driver_link::specs::Exchange::reply, crate::specs::Meets::met_by))]
fn refused(
    server: &Server,
    alloc: Global,
    send: &Send,
    code: i32,
    labels: &List<Text>,
) -> Result<Meeting, AllocError>
    ensures reply { IfOk result
        (λ made. (trace : Listed Sent) →
        reply_of made ≡
        reply_by (record server.now { trace = trace }) send.now (Item.Refused code labels.now)) }
    ensures server { IfOk result
        (λ made. (trace : Listed Sent) →
        met_by made (record server.now { trace = trace }) ≡
        met (record server.now { trace = trace }) send.now (Item.Refused code labels.now)) }
{
    let made = refuse(server, alloc, send, code, labels.as_slice())?;
    Ok(answers(made))
}

/// What a send comes to by its item. It holds whatever the trace is by then.
#[tactic(auto, unfolding(driver_link::specs::Exchange::met, driver_link::specs::Exchange::reply, crate::specs::Meets::met_by, model_effects::specs::Changes::changed, model_effects::specs::Changes::effect_in))]
pub(crate) fn meet(
    server: &Server,
    alloc: Global,
    send: &Send,
    item: &Item,
) -> Result<Meeting, AllocError>
    ensures reply { IfOk result
        (λ made. (trace : Listed Sent) →
        reply_of made ≡ reply_by (record server.now { trace = trace }) send.now item.now) }
    ensures server { IfOk result
        (λ made. (trace : Listed Sent) →
        met_by made (record server.now { trace = trace }) ≡
        met (record server.now { trace = trace }) send.now item.now) }
{
    match item {
        Item::Serve {
            results,
            fail,
            write_concern_error,
            page,
        } => serve(
            server,
            alloc,
            send,
            results,
            fail,
            write_concern_error,
            *page,
        ),
        Item::Lost => Ok(no_effect(None)),
        Item::Late => Ok(Meeting::Waits {
            late: copied_send(alloc, send)?,
        }),
        Item::ReplyLost => lose_reply(server, alloc, send),
        Item::Interrupted {
            after,
            code,
            labels,
        } => interrupted(server, alloc, send, *after, *code, labels),
        Item::Refused { code, labels } => refused(server, alloc, send, *code, labels),
        Item::Reauthenticate => {
            let reply = error(alloc, REAUTHENTICATION_REQUIRED, &[])?;
            Ok(no_effect(Some(Reply::whole(reply))))
        }
    }
}

/// A send that has no effect.
fn no_effect(answered: Option<Reply>) -> Meeting
    ensures { result ≡ Meeting.Comes answered Effect.Nothing CursorChange.Nothing }
{
    Meeting::Comes {
        answered,
        effect: Effect::Nothing,
        change: CursorChange::Nothing,
    }
}

/// The bytes of a meeting's reply, where there is one.
fn reply_bytes(alloc: Global, made: &Meeting) -> Result<Option<Bytes>, AllocError>
    ensures { IfOk result (λ bytes. IsSpelled (reply_of made.now) bytes) }
{
    match made {
        Meeting::Comes {
            answered: Some(reply),
            ..
        } => {
            let bytes = reply.bytes(alloc)?;
            Ok(Some(bytes))
        }
        _ => Ok(None),
    }
}

/// How an exchange is noted.
fn note_of(alloc: Global, bytes: &Option<Bytes>) -> Result<Answered, AllocError>
    ensures { IfOk result (λ note. note ≡ noted bytes.now) }
{
    match bytes {
        Some(reply) => Ok(Answered::Reply(reply.try_clone(alloc)?)),
        None => Ok(Answered::Fault {
            call: LinkCall::Exchange,
            fault: LinkFault::Io(IoKind::ConnectionReset),
            labels: List::new(alloc),
        }),
    }
}

/// Puts a send into the trace, and what it came to into the server. A refusal leaves the server as it was.
fn advance(server: &mut Server, alloc: Global, send: Send, made: Meeting) -> Result<(), AllocError>
    ensures ok { OnOk result (server.new ≡ met_by made (traced server.old send)) }
    ensures err { OnErr result (server.new ≡ server.old) }
{
    let had = server.trace.len();
    server.trace.push(send)?;
    match put_met(server, alloc, made) {
        Ok(()) => Ok(()),
        Err(refused) => {
            server.trace.truncate(had);
            Err(refused)
        }
    }
}

/// Puts what a send came to into the server. A refusal leaves the server as it was.
#[tactic(auto, unfolding(crate::specs::Meets::met_by))]
fn put_met(server: &mut Server, alloc: Global, made: Meeting) -> Result<(), AllocError>
    ensures ok { OnOk result (server.new ≡ met_by made server.old) }
    ensures err { OnErr result (server.new ≡ server.old) }
{
    match made {
        Meeting::Comes { effect, change, .. } => {
            put_changes(server, alloc, effect, change)?;
            Ok(())
        }
        Meeting::Waits { late } => server.waiting.push(Some(late)),
    }
}

/// Takes a send by its item: it joins the trace, its answer is noted, and what it comes to is put into the
/// server. The answer is the bytes of its reply, or none where the connection is reset. A refusal leaves
/// both as they were.
pub fn take(
    server: &mut Server,
    notes: &mut List<Answered>,
    alloc: Global,
    send: Send,
    item: &Item,
) -> Result<Option<Bytes>, AllocError>
    ensures reply { IfOk result (λ bytes. IsSpelled (reply_by (traced server.old send) send item.now) bytes) }
    ensures ok { OnOk result (server.new ≡ met (traced server.old send) send item.now) }
    ensures notes { IfOk result (λ bytes. notes.new ≡ notes.old ++ noted bytes ∷ []) }
    ensures err { OnErr result (server.new ≡ server.old) }
    ensures notes_err { OnErr result (notes.new ≡ notes.old) }
{
    let made = meet(server, alloc, &send, item)?;
    let bytes = reply_bytes(alloc, &made)?;
    let note = note_of(alloc, &bytes)?;
    let had = notes.len();
    notes.push(note)?;
    match advance(server, alloc, send, made) {
        Ok(()) => Ok(bytes),
        Err(refused) => {
            notes.truncate(had);
            Err(refused)
        }
    }
}
