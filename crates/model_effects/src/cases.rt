//! Which case a send meets, by the numbers of sessions and the state of transactions.
ghost use Rattle.std.specs.Prelude.{◌≡◌, List as Listed, None, true, unwrap_or};
ghost use Rattle.std.specs.Option.{option_copied};
ghost use Rattle.driver_link.specs.Cases.{body_writes, is_ordered as ordered_body, is_in_transaction as in_transaction_of, write_case as case_of_write, commit_case as case_of_commit, abort_case as case_of_abort, numbered_case as case_numbered, unnumbered_case as case_unnumbered, case_under as case_by_number, case_of as case_met, known_under, known_of, results_of, is_decided as decided};
ghost use Rattle.driver_link.specs.Gathered.{entries_in, gathered_by};
ghost use Rattle.driver_link.specs.Sessions.{begin_session as begun_with, running};
ghost use Rattle.driver_link.specs.Statements.{no_results};
ghost use Rattle.driver_link.specs.declared.machine.Entry.{Entry as Written};
ghost use Rattle.model_effects.specs.Seen.{seen, is_too_old as too_old};

use bson_lite::{ByIndex, List};
use driver_link::{
    Counted, KnownSession, PlacedWrite, Send, SendBody, SendCommand, Server, ServerTransaction,
};
use std::alloc::Global;

/// Which case a send meets, without the entries that its transaction has gathered.
#[derive(Clone, Copy, PartialEq, Eq)]
pub enum Case {
    TooOld,
    Outside,
    Gathers,
    Commits,
    Aborts,
    OfCursor,
    Nothing,
    Denied,
}

/// The writes of what a command asks for.
pub fn writes_of(body: &SendBody) -> &[PlacedWrite]
    ensures { result.now ≡ body_writes body.now }
{
    match body {
        SendBody::Write { writes, .. } => writes.as_slice(),
        _ => &[],
    }
}

/// Whether a statement that fails stops the others.
pub fn is_ordered(body: &SendBody) -> bool
    ensures { result ≡ ordered_body body.now }
{
    match body {
        SendBody::Write {
            command: SendCommand::FindAndModify,
            ..
        } => true,
        SendBody::Write { ordered, .. } => *ordered,
        _ => false,
    }
}

/// Whether a send is in a transaction: it says so, or it ends one.
pub fn is_in_transaction(send: &Send) -> bool
    ensures { result ≡ in_transaction_of send.now }
{
    if send.in_transaction {
        return true;
    }
    match &send.body {
        SendBody::Commit => true,
        SendBody::Abort => true,
        _ => false,
    }
}

/// A session that begins, or begins anew, with a number. It takes no memory.
pub fn begin_session(alloc: Global, number: i64, in_transaction: bool, start: bool) -> KnownSession
    ensures { result ≡ begun_with number in_transaction start }
{
    let transaction = match (in_transaction, start) {
        (false, _) => ServerTransaction::None,
        (true, true) => ServerTransaction::Running {
            entries: List::new(alloc),
        },
        (true, false) => ServerTransaction::Aborted,
    };
    KnownSession {
        greatest: number,
        kept: ByIndex::new(alloc),
        ran: false,
        transaction,
    }
}

/// The case of writes in a transaction, which `again` says to start once more.
fn write_case(transaction: &ServerTransaction, again: bool) -> Case
    ensures { seen result (entries_in transaction.now) ≡ case_of_write (running transaction.now) again }
{
    match transaction {
        ServerTransaction::Running { .. } => { if again { Case::Denied } else { Case::Gathers } }
        _ => Case::Denied,
    }
}

/// The case of a commit.
fn commit_case(transaction: &ServerTransaction) -> Case
    ensures { seen result (entries_in transaction.now) ≡ case_of_commit transaction.now }
{
    match transaction {
        ServerTransaction::Running { .. } => Case::Commits,
        ServerTransaction::Committed => Case::Nothing,
        _ => Case::Denied,
    }
}

/// The case of an abort.
fn abort_case(transaction: &ServerTransaction) -> Case
    ensures { seen result (entries_in transaction.now) ≡ case_of_abort transaction.now }
{
    match transaction {
        ServerTransaction::Running { .. } => Case::Aborts,
        _ => Case::Denied,
    }
}

/// The case of a send under a number, by what is then known of its session and whether the number is new.
fn numbered_case(known: &KnownSession, new: bool, send: &Send) -> Case
    ensures { seen result (entries_in known.now.transaction) ≡
        case_numbered known.now new send.now send.now.body }
{
    match &send.body {
        SendBody::Write { .. } => {
            if !send.in_transaction {
                return Case::Outside;
            }
            write_case(&known.transaction, send.start && !new)
        }
        SendBody::Commit => commit_case(&known.transaction),
        SendBody::Abort => abort_case(&known.transaction),
        SendBody::More { .. } => Case::OfCursor,
        SendBody::Kill { .. } => Case::OfCursor,
    }
}

/// The case of a send without a number.
fn unnumbered_case(body: &SendBody) -> Case
    ensures { (entries : Listed Written) → seen result entries ≡ case_unnumbered body.now }
{
    match body {
        SendBody::Write { .. } => Case::Outside,
        SendBody::More { .. } => Case::OfCursor,
        SendBody::Kill { .. } => Case::OfCursor,
        _ => Case::Denied,
    }
}

/// What a send meets: its case, and the results that are kept under its number, where there are some.
#[derive(Clone, Copy)]
pub(crate) struct Met<'a> {
    pub case: Case,
    pub kept: Option<&'a ByIndex<Counted>>,
}

/// What a send meets whose number is new.
fn met_anew<'a>(alloc: Global, number: i64, send: &Send) -> Met<'a>
    ensures case { seen result.case
        (entries_in (begun_with number (in_transaction_of send.now) send.now.start).transaction) ≡
        case_numbered (begun_with number (in_transaction_of send.now) send.now.start) true send.now
        send.now.body }
    ensures kept { option_copied result.kept ≡ None }
{
    let known = begin_session(alloc, number, is_in_transaction(send), send.start);
    Met {
        case: numbered_case(&known, true, send),
        kept: None,
    }
}

/// What a send meets under a session and a number.
#[tactic(auto, unfolding(driver_link::specs::Cases::case_under, driver_link::specs::Sessions::is_below, driver_link::specs::Sessions::is_new, driver_link::specs::Sessions::taken))]
fn met_under<'a>(
    alloc: Global,
    id: [u8; 16],
    number: i64,
    server: &'a Server,
    send: &Send,
) -> Met<'a>
    ensures case { seen result.case (entries_in (known_under id number server.now send.now).transaction) ≡
        case_by_number id number server.now send.now }
    ensures kept { unwrap_or (option_copied result.kept) no_results ≡
        (known_under id number server.now send.now).kept }
{
    let Some(known) = server.sessions.get(&id) else {
        return met_anew(alloc, number, send);
    };
    if number < known.greatest {
        return Met {
            case: Case::TooOld,
            kept: Some(&known.kept),
        };
    }
    if known.greatest < number {
        return met_anew(alloc, number, send);
    }
    Met {
        case: numbered_case(known, false, send),
        kept: Some(&known.kept),
    }
}

/// What a send meets.
#[tactic(auto, unfolding(driver_link::specs::Cases::case_as, driver_link::specs::Cases::known_as))]
pub(crate) fn met_of<'a>(alloc: Global, server: &'a Server, send: &Send) -> Met<'a>
    ensures case { seen result.case (gathered_by (known_of server.now send.now)) ≡
        case_met server.now send.now }
    ensures kept { unwrap_or (option_copied result.kept) no_results ≡
        results_of (known_of server.now send.now) }
{
    match (send.session, send.number) {
        (Some(id), Some(number)) => met_under(alloc, id, number, server, send),
        _ => Met {
            case: unnumbered_case(&send.body),
            kept: None,
        },
    }
}

/// The case that a send meets.
pub fn case_of(alloc: Global, server: &Server, send: &Send) -> Case
    ensures { seen result (gathered_by (known_of server.now send.now)) ≡ case_met server.now send.now }
{
    met_of(alloc, server, send).case
}

/// The results that are kept under the number of a send, where there are some.
#[tactic(auto, unfolding(driver_link::specs::Cases::known_as, driver_link::specs::Sessions::taken))]
pub fn kept_of<'a>(server: &'a Server, send: &Send) -> Option<&'a ByIndex<Counted>>
    ensures { unwrap_or (option_copied result) no_results ≡ results_of (known_of server.now send.now) }
{
    match (send.session, send.number) {
        (Some(id), Some(number)) => match server.sessions.get(&id) {
            Some(known) => {
                if known.greatest < number {
                    return None;
                }
                Some(&known.kept)
            }
            None => None,
        },
        _ => None,
    }
}

/// Whether the rules on numbers and transactions decide what is answered, whatever interrupts the send.
pub fn is_decided(case: Case) -> bool
    ensures { (entries : Listed Written) → result ≡ decided (seen case entries) }
{
    matches!(case, Case::TooOld | Case::Denied)
}

/// Whether a number below the greatest of its session refuses the send.
pub fn is_too_old(case: Case) -> bool
    ensures { result ≡ too_old case }
{
    matches!(case, Case::TooOld)
}
