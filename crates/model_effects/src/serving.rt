//! What serving a send comes to: its statements, what it changes, and its reply.
ghost use Rattle.std.specs.Prelude.{◌≡◌, [], List as Listed, Option as Maybe, ℕ, IfOk, IfSome, unwrap_or};
ghost use Rattle.std.specs.Option.{option_copied};
ghost use Rattle.driver_link.specs.Cases.{known_of, results_of};
ghost use Rattle.bson_lite.specs.declared.bson.Bson as bson;
ghost use Rattle.driver_link.specs.Cursors.{Reply as Answer, rows as all_rows, pages_left as pages_rest, with_cursor, cursors_with};
ghost use Rattle.driver_link.specs.Exchange.{plan_of};
ghost use Rattle.driver_link.specs.Numbers.{reply_number};
ghost use Rattle.driver_link.specs.Replies.{body_reply as reply_of_body, denied_reply as reply_denied, reply_in as reply_to_case, results_in, sum_of, transaction_of, write_errors};
ghost use Rattle.driver_link.specs.Serving.{done_in as done_of_case, cursors_after, session_after};
ghost use Rattle.driver_link.specs.Statements.{no_results};
ghost use Rattle.driver_link.specs.declared.machine.Entry.{Entry as Written};
ghost use Rattle.driver_link.specs.declared.machine.Failing.{Failing as Fails};
ghost use Rattle.driver_link.specs.declared.machine.KnownSession.{KnownSession as Known};
ghost use Rattle.driver_link.specs.declared.machine.Planned.{Planned as Plans};
ghost use Rattle.driver_link.specs.declared.machine.PlannedConcern.{PlannedConcern as Concern};
ghost use Rattle.driver_link.specs.declared.machine.Server.{Server as State};
ghost use Rattle.model_effects.specs.Changes.{cursors_put};
ghost use Rattle.model_effects.specs.Does.{Does};
ghost use Rattle.model_effects.specs.Parts.{ran_of};
ghost use Rattle.model_effects.specs.Seen.{seen};
ghost use Rattle.model_replies.specs.KeptReplies.{counted_reply};

use crate::cases::{Case, begin_session, is_in_transaction, is_ordered, kept_of, writes_of};
use crate::change::{CursorChange, SessionStep};
use bson_lite::{ByIndex, Document, List, TryClone};
use driver_link::{
    Counted, Failing, PlacedWrite, Planned, PlannedConcern, Send, SendBody, SendCommand, Server,
    ServerTransaction, Statement,
};
use model_replies::counts::sum_n;
use model_replies::kept_reply::Reply;
use model_replies::replying::{
    TRANSACTION_TOO_OLD, cursor_reply, denied_reply, end_reply, error, write_reply,
};
use model_statements::cursors::{pages_left, rows};
use model_statements::fields::small;
use model_statements::statements::{
    entries, has_failed, has_run, has_run_before_failing, ran_results, statements,
};
use std::alloc::{AllocError, Global};

/// The statements of a send in its case: only writes that are not denied have some.
pub fn done_in(
    alloc: Global,
    server: &Server,
    send: &Send,
    case: Case,
    results: &[Planned],
    fail: &[Failing],
) -> Result<List<Statement>, AllocError>
    ensures { IfOk result
        (λ done. (entries : Listed Written) (concern : Maybe Concern) (page : Maybe ℕ) →
        done ≡ done_of_case (seen case entries) (plan_of results.now fail.now concern page)
        (results_of (known_of server.now send.now)) send.now.body) }
{
    done_under(
        alloc,
        kept_of(server, send),
        &send.body,
        case,
        results,
        fail,
    )
}

/// The same of what a command asked for, by the results that are kept under the number of its send.
pub(crate) fn done_under(
    alloc: Global,
    kept: Option<&ByIndex<Counted>>,
    body: &SendBody,
    case: Case,
    results: &[Planned],
    fail: &[Failing],
) -> Result<List<Statement>, AllocError>
    ensures { IfOk result
        (λ done. (entries : Listed Written) (concern : Maybe Concern) (page : Maybe ℕ) →
        done ≡ done_of_case (seen case entries) (plan_of results.now fail.now concern page)
        (unwrap_or (option_copied kept.entry) no_results) body.now) }
{
    let none = ByIndex::new(alloc);
    let writes = writes_of(body);
    let ordered = is_ordered(body);
    match case {
        Case::Outside => match kept {
            Some(kept) => statements(alloc, results, fail, ordered, kept, writes),
            None => statements(alloc, results, fail, ordered, &none, writes),
        },
        Case::Gathers => statements(alloc, results, fail, ordered, &none, writes),
        _ => Ok(List::new(alloc)),
    }
}

/// The step of a send outside transactions.
fn keeps_step(alloc: Global, send: &Send, done: &[Statement]) -> Result<SessionStep, AllocError>
    ensures { IfOk result
        (λ step. (known : Known) →
        Does session_after step Case.Outside done.now (ran_of send.now done.now) known) }
{
    let entries = entries(
        alloc,
        send.session,
        send.number,
        writes_of(&send.body),
        done,
    )?;
    let results = ran_results(alloc, done)?;
    let ran = has_run(done);
    Ok(SessionStep::Keeps {
        entries,
        results,
        ran,
    })
}

/// The step of writes in a transaction that runs.
fn gathers(alloc: Global, send: &Send, done: &[Statement]) -> Result<SessionStep, AllocError>
    ensures { IfOk result
        (λ step. (known : Known) →
        Does session_after step Case.Gathers done.now (ran_of send.now done.now) known) }
{
    let ran = has_run_before_failing(done);
    if has_failed(done) {
        return Ok(SessionStep::Fails { ran });
    }
    let entries = entries(
        alloc,
        send.session,
        send.number,
        writes_of(&send.body),
        done,
    )?;
    Ok(SessionStep::Gathers { entries, ran })
}

/// The step of a send in its case.
#[tactic(auto, using(crate::proofs::SessionStepLaws::commits_does, crate::proofs::SessionStepLaws::ends_does, crate::proofs::SessionStepLaws::denied_does, crate::proofs::SessionStepLaws::cursor_does, crate::proofs::SessionStepLaws::nothing_does, crate::proofs::SessionStepLaws::old_does))]
pub fn step_in(
    alloc: Global,
    send: &Send,
    case: Case,
    done: &[Statement],
) -> Result<SessionStep, AllocError>
    ensures { IfOk result
        (λ step. (known : Known) → Does session_after step case done.now (ran_of send.now done.now) known) }
{
    match case {
        Case::Outside => keeps_step(alloc, send, done),
        Case::Gathers => gathers(alloc, send, done),
        Case::Commits => Ok(SessionStep::Commits),
        Case::Aborts => Ok(SessionStep::Ends),
        Case::Denied => Ok(SessionStep::Denied),
        Case::TooOld => Ok(SessionStep::Stays),
        Case::OfCursor => Ok(SessionStep::Stays),
        Case::Nothing => Ok(SessionStep::Stays),
    }
}

/// The cursor that a bulk write opens, where its first page does not hold all.
fn opened(
    alloc: Global,
    page: Option<u64>,
    writes: &[PlacedWrite],
    done: &[Statement],
) -> Result<CursorChange, AllocError>
    ensures { IfOk result
        (λ change. (state : State) →
        cursors_put change state.cursors ≡
        with_cursor (pages_rest page (all_rows 0 writes.now done.now)) state.cursors) }
{
    if page.is_none() {
        return Ok(CursorChange::Nothing);
    }
    let results = rows(alloc, writes, done)?;
    let rest = pages_left(page, results.as_slice());
    let left = copied_documents(alloc, rest)?;
    if left.is_empty() {
        return Ok(CursorChange::Nothing);
    }
    Ok(CursorChange::Opens { left })
}

/// Copies of documents.
fn copied_documents(alloc: Global, documents: &[Document]) -> Result<List<Document>, AllocError>
    ensures { IfOk result (λ copies. copies ≡ documents.now) }
{
    let mut copies = List::with_capacity(alloc, documents.len())?;
    for document in documents {
        copies.push(document.try_clone(alloc)?)?;
    }
    Ok(copies)
}

/// What writes change of the cursors.
fn cursor_of_writes(
    alloc: Global,
    body: &SendBody,
    page: Option<u64>,
    done: &[Statement],
) -> Result<CursorChange, AllocError>
    ensures { IfOk result
        (λ change. (state : State) →
        cursors_put change state.cursors ≡ cursors_with page done.now body.now state.cursors) }
{
    match body {
        SendBody::Write {
            command: SendCommand::BulkWrite,
            writes,
            ..
        } => opened(alloc, page, writes.as_slice(), done),
        _ => Ok(CursorChange::Nothing),
    }
}

/// What a send in its case changes of the cursors.
pub fn cursor_change(
    alloc: Global,
    send: &Send,
    case: Case,
    page: Option<u64>,
    done: &[Statement],
) -> Result<CursorChange, AllocError>
    ensures { IfOk result
        (λ change. (state : State) (entries : Listed Written) →
        cursors_put change state.cursors ≡ cursors_after (seen case entries) page done.now send.now state) }
{
    match case {
        Case::Outside => cursor_of_writes(alloc, &send.body, page, done),
        Case::Gathers => cursor_of_writes(alloc, &send.body, page, done),
        Case::OfCursor => match &send.body {
            SendBody::More { cursor } => Ok(CursorChange::Closes { cursor: *cursor }),
            SendBody::Kill { cursor } => Ok(CursorChange::Closes { cursor: *cursor }),
            _ => Ok(CursorChange::Nothing),
        },
        _ => Ok(CursorChange::Nothing),
    }
}

/// The reply to a send that was denied.
#[tactic(auto, unfolding(driver_link::specs::Cases::known_as, driver_link::specs::Sessions::taken))]
fn denied(alloc: Global, server: &Server, send: &Send) -> Result<Document, AllocError>
    ensures { IfOk result (λ reply. reply ≡ reply_denied (transaction_of (known_of server.now send.now))) }
{
    let (Some(id), Some(number)) = (send.session, send.number) else {
        return denied_reply(alloc, &ServerTransaction::None);
    };
    let anew = begin_session(alloc, number, is_in_transaction(send), send.start);
    let Some(known) = server.sessions.get(&id) else {
        return denied_reply(alloc, &anew.transaction);
    };
    if known.greatest < number {
        return denied_reply(alloc, &anew.transaction);
    }
    denied_reply(alloc, &known.transaction)
}

/// The reply to what a command asked for.
fn body_reply(
    alloc: Global,
    body: &SendBody,
    page: Option<u64>,
    concern: &Option<PlannedConcern>,
    cursors: &[Option<List<Document>>],
    done: &[Statement],
) -> Result<Document, AllocError>
    ensures { IfOk result
        (λ reply. (results : Listed Plans) (fail : Listed Fails) →
        reply ≡ reply_of_body body.now (plan_of results fail concern.now page) cursors.now done.now) }
{
    match body {
        SendBody::Write {
            command,
            writes,
            ..
        } => write_reply(
            alloc,
            *command,
            page,
            concern,
            cursors,
            writes.as_slice(),
            done,
        ),
        _ => end_reply(alloc, concern),
    }
}

/// The reply to a send in its case.
#[tactic(auto, unfolding(driver_link::specs::Replies::reply_in))]
pub fn reply_in(
    alloc: Global,
    server: &Server,
    send: &Send,
    case: Case,
    page: Option<u64>,
    concern: &Option<PlannedConcern>,
    done: &[Statement],
) -> Result<Document, AllocError>
    ensures { IfOk result
        (λ reply. (entries : Listed Written) (results : Listed Plans) (fail : Listed Fails) →
        reply ≡ reply_to_case (seen case entries) (plan_of results fail concern.now page) done.now server.now
        send.now) }
{
    let cursors = server.cursors.as_slice();
    match case {
        Case::TooOld => error(alloc, TRANSACTION_TOO_OLD, &[]),
        Case::Denied => denied(alloc, server, send),
        Case::OfCursor => cursor_reply(alloc, &send.body, concern, cursors),
        _ => body_reply(alloc, &send.body, page, concern, cursors, done),
    }
}

/// The number that the reply to statements has which insert or delete, where it has no write errors.
#[tactic(auto, using(model_replies::proofs::KeptReplies::none_failed))]
fn counted(done: &[Statement]) -> Result<Option<i32>, AllocError>
    ensures number { IfOk result
        (λ found. IfSome found
        (λ n. reply_number (sum_of (λ counts. counts.n) (results_in done.now)) ≡ bson.Int32 n)) }
    ensures errors { IfOk result (λ found. IfSome found (λ _. write_errors 0 done.now ≡ [])) }
{
    if has_failed(done) {
        return Ok(None);
    }
    let sum = sum_n(done)?;
    Ok(small(sum))
}

/// The number that the reply to what a command asked for has alone beside its first field, if it is such a
/// reply.
#[tactic(auto, using(model_replies::proofs::KeptReplies::inserts_counted, model_replies::proofs::KeptReplies::deletes_counted))]
fn counted_body(
    body: &SendBody,
    concern: &Option<PlannedConcern>,
    done: &[Statement],
) -> Result<Option<i32>, AllocError>
    ensures { IfOk result
        (λ found. IfSome found
        (λ n. (results : Listed Plans) (fail : Listed Fails) (page : Maybe ℕ)
        (cursors : Listed (Maybe (Listed Answer))) →
        counted_reply n ≡ reply_of_body body.now (plan_of results fail concern.now page) cursors done.now)) }
{
    match (body, concern) {
        (
            SendBody::Write {
                command: SendCommand::Insert | SendCommand::Delete,
                ..
            },
            None,
        ) => counted(done),
        _ => Ok(None),
    }
}

/// The same of the reply to a send in its case.
#[tactic(auto, unfolding(driver_link::specs::Replies::reply_in))]
fn counted_in(
    send: &Send,
    case: Case,
    concern: &Option<PlannedConcern>,
    done: &[Statement],
) -> Result<Option<i32>, AllocError>
    ensures { IfOk result
        (λ found. IfSome found
        (λ n. (entries : Listed Written) (results : Listed Plans) (fail : Listed Fails) (page : Maybe ℕ)
        (state : State) →
        counted_reply n ≡ reply_to_case (seen case entries) (plan_of results fail concern.now page) done.now
        state send.now)) }
{
    match case {
        Case::Outside => counted_body(&send.body, concern, done),
        Case::Gathers => counted_body(&send.body, concern, done),
        _ => Ok(None),
    }
}

/// The reply to a send in its case, as it is kept.
pub(crate) fn kept_reply_in(
    alloc: Global,
    server: &Server,
    send: &Send,
    case: Case,
    page: Option<u64>,
    concern: &Option<PlannedConcern>,
    done: &[Statement],
) -> Result<Reply, AllocError>
    ensures { IfOk result
        (λ reply. (entries : Listed Written) (results : Listed Plans) (fail : Listed Fails) →
        reply ≡ reply_to_case (seen case entries) (plan_of results fail concern.now page) done.now server.now
        send.now) }
{
    match counted_in(send, case, concern, done)? {
        Some(n) => Ok(Reply::counted(n)),
        None => {
            let reply = reply_in(alloc, server, send, case, page, concern, done)?;
            Ok(Reply::whole(reply))
        }
    }
}
